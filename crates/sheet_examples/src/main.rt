// Asks answer sheets: each line of the input is a command, a tab and a sheet in hexadecimal digits. Each is written out with what was found:
// `faulty`, `missing`, or `success` or `failure` with the output behind it.

#![tactic(auto)]

ghost use Rattle.std.specs.Prelude.{◌≡◌, true, ◌*◌, ◌≤◌, ◌<◌, length};
ghost use Rattle.lists.specs.Lists.{is_some};
ghost use Rattle.sheet.specs.Sheet.{decode};

use std::io;
use std::io::{Read, Stdout};

fn say(stdout: Stdout, word: &[u8]) {
    let _ = stdout.write_all(word);
}

fn digit_of(b: u8) -> u8
    ensures { result < 16 }
{
    match b {
        b'0'..=b'9' => b - b'0',
        b'a'..=b'f' => b - b'a' + 10,
        _ => 0,
    }
}

// How many bytes the digits stand for, of those that have room.
fn count_of(digits: usize, room: usize) -> usize
    ensures { (2 * result ≤ digits) × (result ≤ room) }
{
    let n = digits / 2;
    if n < room { n } else { room }
}

fn read_sheet(digits: &[u8], sheet: &mut [u8]) -> usize
    ensures { result ≤ length sheet.new }
{
    let n = count_of(digits.len(), sheet.len());
    for i in 0..n {
        sheet[i] = digit_of(digits[2 * i]) * 16 + digit_of(digits[2 * i + 1]);
    }
    n
}

fn say_reply(stdout: Stdout, sheet: &[u8], command: &[u8])
    requires { is_some (decode sheet.now) ≡ true }
{
    let Some(reply) = sheet_check::find(sheet, command) else {
        say(stdout, b"missing");
        return;
    };
    if reply.success {
        say(stdout, b"success ");
    } else {
        say(stdout, b"failure ");
    }
    say(stdout, &sheet[reply.start..reply.start + reply.len]);
}

fn ask(stdout: Stdout, command: &[u8], sheet: &[u8]) {
    if sheet_check::check(sheet) {
        say_reply(stdout, sheet, command);
    } else {
        say(stdout, b"faulty");
    }
}

fn show(stdout: Stdout, line: &[u8]) {
    say(stdout, line);
    say(stdout, b"\t");
    let tab = scan::byte_end(line, 0, b'\t');
    let mut sheet = [0u8; 1024];
    if tab < line.len() {
        let n = read_sheet(&line[tab + 1..], &mut sheet);
        ask(stdout, &line[0..tab], &sheet[0..n]);
    }
    say(stdout, b"\n");
}

fn show_all(stdout: Stdout, table: &[u8]) {
    let mut at: usize = 0;
    while at < table.len() {
        let end = scan::byte_end(table, at, b'\n');
        show(stdout, &table[at..end]);
        at = end + 1;
    }
}

// How much of the input is read.
const ROOM: u64 = 65536;

fn main(rt: HostRuntime) -> io::Result<()> {
    let stdout = rt.stdout();
    let mut space = Vec::new(rt.alloc());
    rt.stdin().take(ROOM).read_to_end(&mut space)?;
    show_all(stdout, &space);
    Ok(())
}
