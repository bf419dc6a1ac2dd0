// Runs the matcher on a table: each line of the input is a pattern, a tab and a value. Each is written out with what was found.

#![tactic(auto)]

use scan::Not;
use std::io;
use std::io::{Read, Stdout};

fn judge(stdout: Stdout, pattern: &[u8], value: &[u8]) {
    if !glob::well_formed(pattern) {
        let _ = stdout.write_all(b"\tfaulty\n");
        return;
    }
    if glob::matches(pattern, value) {
        let _ = stdout.write_all(b"\tyes\n");
    } else {
        let _ = stdout.write_all(b"\tno\n");
    }
}

fn show(stdout: Stdout, line: &[u8]) {
    let _ = stdout.write_all(line);
    let tab = scan::run_end(line, 0, Not(b'\t'));
    if tab < line.len() {
        judge(stdout, &line[0..tab], &line[tab + 1..]);
    } else {
        judge(stdout, line, b"");
    }
}

fn show_all(stdout: Stdout, table: &[u8]) {
    let mut at: usize = 0;
    while at < table.len() {
        let end = scan::run_end(table, at, Not(b'\n'));
        show(stdout, &table[at..end]);
        at = end + 1;
    }
}

// How much of the input is read.
const ROOM: u64 = 65536;

fn main(rt: HostRuntime) -> io::Result<()> {
    let stdout = rt.stdout();
    let mut space = Vec::new(rt.alloc());
    rt.stdin().take(ROOM).read_to_end(&mut space)?;
    show_all(stdout, &space);
    Ok(())
}
