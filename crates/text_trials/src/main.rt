// Reads the texts of a table: each line of the input is a text, and is written out with what was found.
// A text is given in parts with tabs between them. A part that begins with a number and `*` stands that many times.
// In a part `~n` is a newline, `~t` a tab, `~r` a carriage return, `~0` NUL, and `~i` how often it stood already.

#![tactic(auto)]

ghost use Rattle.std.specs.Prelude.{◌≡◌, ◌+◌, ◌≤◌, length};

use std::io;
use std::io::{Read, Stdout};

fn say(stdout: Stdout, word: &[u8]) {
    let _ = stdout.write_all(word);
}

fn say_number(stdout: Stdout, n: u32) {
    let d = pieces::decimal(n);
    let digits = d.digits;
    let start = d.start;
    if start < 10 {
        say(stdout, &digits[start..]);
    }
}

// ---- a text from its parts

// A byte behind the first n, if there is room.
fn put(text: &mut [u8], n: usize, b: u8) -> usize
    requires { n ≤ length text.old }
    ensures { result ≤ length text.new }
{
    if n < text.len() {
        text[n] = b;
        n + 1
    } else {
        n
    }
}

fn put_number(text: &mut [u8], n: usize, turn: u32) -> usize
    requires { n ≤ length text.old }
    ensures { result ≤ length text.new }
{
    let d = pieces::decimal(turn);
    let digits = d.digits;
    let mut m = n;
    for i in d.start..10 {
        m = put(text, m, digits[i]);
    }
    m
}

fn put_named(text: &mut [u8], n: usize, name: u8, turn: u32) -> usize
    requires { n ≤ length text.old }
    ensures { result ≤ length text.new }
{
    match name {
        b'n' => put(text, n, b'\n'),
        b't' => put(text, n, b'\t'),
        b'r' => put(text, n, b'\r'),
        b'0' => put(text, n, 0),
        b'i' => put_number(text, n, turn),
        _ => n,
    }
}

fn put_part(text: &mut [u8], n: usize, part: &[u8], turn: u32) -> usize
    requires { n ≤ length text.old }
    ensures { result ≤ length text.new }
{
    let mut m = n;
    let mut i: usize = 0;
    while i < part.len() {
        if part[i] == b'~' {
            m = put_named(text, m, scan::byte_at(part, i + 1), turn);
            i += 2;
        } else {
            m = put(text, m, part[i]);
            i += 1;
        }
    }
    m
}

// The number that five digits or fewer give.
fn number_of(digits: &[u8]) -> u32 {
    let mut n: u32 = 0;
    for b in digits {
        if n < 10000 {
            n = n * 10 + u32::from(*b % 16);
        }
    }
    n
}

fn put_parts(text: &mut [u8], n: usize, part: &[u8]) -> usize
    requires { n ≤ length text.old }
    ensures { result ≤ length text.new }
{
    let end = scan::digit_end(part, 0);
    if scan::byte_at(part, end) != b'*' {
        return put_part(text, n, part, 0);
    }
    let times = number_of(&part[0..end]);
    let mut m = n;
    for turn in 0..times {
        m = put_part(text, m, &part[end + 1..], turn);
    }
    m
}

fn put_text(text: &mut [u8], row: &[u8]) -> usize
    ensures { result ≤ length text.new }
{
    let mut n: usize = 0;
    let mut at: usize = 0;
    while at < row.len() {
        let end = scan::byte_end(row, at, b'\t');
        n = put_parts(text, n, &row[at..end]);
        at = end + 1;
    }
    n
}

// ---- what is found

fn judge(stdout: Stdout, text: &[u8]) {
    let given = text_check::check(text);
    let number = given.number;
    if number == 0 {
        say(stdout, b"\taccepted\n");
    } else {
        say(stdout, b"\trefused ");
        say_number(stdout, number);
        say(stdout, b" line ");
        say_number(stdout, given.line);
        say(stdout, b"\n");
    }
}

fn show(stdout: Stdout, row: &[u8], text: &mut [u8]) {
    say(stdout, row);
    let n = put_text(text, row);
    judge(stdout, &text[0..n]);
}

fn show_all(stdout: Stdout, table: &[u8], text: &mut [u8]) {
    let mut at: usize = 0;
    while at < table.len() {
        let end = scan::byte_end(table, at, b'\n');
        show(stdout, &table[at..end], text);
        at = end + 1;
    }
}

// How much of the input is read.
const ROOM: u64 = 65536;

fn main(rt: HostRuntime) -> io::Result<()> {
    let stdout = rt.stdout();
    let mut space = Vec::new(rt.alloc());
    let mut text = [0u8; 65536];
    rt.stdin().take(ROOM).read_to_end(&mut space)?;
    show_all(stdout, &space, &mut text);
    Ok(())
}
