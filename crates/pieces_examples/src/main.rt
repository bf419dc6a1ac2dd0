// Runs the reader of templates on a table: each line of the input is a template, and its pieces are written behind it.
// A line that begins with `#` is a name, and its number is written behind it. Some numbers in decimal follow.

#![tactic(auto)]

use pieces::{Malformed, Piece};
use std::io;
use std::io::{Read, Stdout};

fn say(stdout: Stdout, word: &[u8]) {
    let _ = stdout.write_all(word);
}

fn say_part(stdout: Stdout, template: &[u8], kind: &[u8], start: usize, len: usize) {
    say(stdout, kind);
    if start <= template.len() {
        if len <= template.len() - start {
            say(stdout, &template[start..start + len]);
        }
    }
    say(stdout, b">");
}

fn say_byte(stdout: Stdout, b: u8) {
    let one = [b; 1];
    say(stdout, &one);
}

fn show_piece(stdout: Stdout, template: &[u8], p: Piece) {
    match p {
        Piece::Written(b) => say_byte(stdout, b),
        Piece::Kernel => say(stdout, b"<kernel>"),
        Piece::Number => say(stdout, b"<number>"),
        Piece::Devpath => say(stdout, b"<devpath>"),
        Piece::Id => say(stdout, b"<id>"),
        Piece::Driver => say(stdout, b"<driver>"),
        Piece::Major => say(stdout, b"<major>"),
        Piece::Minor => say(stdout, b"<minor>"),
        Piece::Result => say(stdout, b"<result>"),
        Piece::Attr(start, len) => say_part(stdout, template, b"<attr ", start, len),
        Piece::Env(start, len) => say_part(stdout, template, b"<env ", start, len),
        Piece::Dollar => say(stdout, b"<dollar>"),
        Piece::Percent => say(stdout, b"<percent>"),
    }
}

fn show_template(stdout: Stdout, template: &[u8]) {
    say(stdout, template);
    say(stdout, b"\t");
    if !pieces::well_formed(template) {
        say(stdout, b"faulty\n");
        return;
    }
    let mut i: usize = 0;
    loop {
        match pieces::piece_at(template, i) {
            Ok(Some(read)) => {
                show_piece(stdout, template, read.piece);
                i = read.next;
            }
            Ok(None) => {
                say(stdout, b"\n");
                return;
            }
            Err(Malformed) => {
                return;
            }
        }
    }
}

fn show_decimal(stdout: Stdout, n: u32) {
    let d = pieces::decimal(n);
    let digits = d.digits;
    let start = d.start;
    say(stdout, &digits[start..]);
    say(stdout, b"\n");
}

fn show_name(stdout: Stdout, line: &[u8]) {
    say(stdout, line);
    say(stdout, b"\t");
    let start = scan::digits_start(line);
    say(stdout, &line[start..]);
    say(stdout, b"\n");
}

fn show_all(stdout: Stdout, table: &[u8]) {
    let mut at: usize = 0;
    while at < table.len() {
        let end = scan::byte_end(table, at, b'\n');
        if table[at] == b'#' {
            show_name(stdout, &table[at..end]);
        } else {
            show_template(stdout, &table[at..end]);
        }
        at = end + 1;
    }
}

// How much of the input is read.
const ROOM: u64 = 65536;

fn main(rt: HostRuntime) -> io::Result<()> {
    let stdout = rt.stdout();
    let mut space = Vec::new(rt.alloc());
    rt.stdin().take(ROOM).read_to_end(&mut space)?;
    show_all(stdout, &space);
    show_decimal(stdout, 0);
    show_decimal(stdout, 9);
    show_decimal(stdout, 10);
    show_decimal(stdout, 188);
    show_decimal(stdout, 4095);
    show_decimal(stdout, 1048575);
    show_decimal(stdout, 4294967295);
    Ok(())
}
