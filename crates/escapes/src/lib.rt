// A value with an `e` directly before its mark (document 02, Item 1): where it is closed, its length and its bytes.

#![tactic(auto)]

ghost use Rattle.std.specs.Prelude.{◌≡◌, ◌+◌, ◌<◌, length, get_or, drop, IfSome};
ghost use Rattle.rules.specs.Coded.{escapes, escape_in, hex_digit, hex_byte, escaped, coded_byte};
ghost use Rattle.escapes.specs.Values.{PutAt};
ghost use Rattle.escapes.specs.Answers.{taken_by, ClosedIs};

// The byte that a place of the value stands for, and how many bytes are written for it behind the first.
#[derive(Debug, Clone, Copy, PartialEq, Eq)]
pub struct Taken {
    pub byte: u8,
    pub more: usize,
}

// ---- an escape

// The number that a hex digit stands for.
fn hex_digit(b: u8) -> Option<u8>
    ensures value { result ≡ hex_digit b }
    ensures below { IfSome result (λ d. d < 16) }
{
    match b {
        b'0'..=b'9' => Some(b - b'0'),
        b'a'..=b'f' => Some(b - b'a' + 10),
        b'A'..=b'F' => Some(b - b'A' + 10),
        _ => None,
    }
}

// The byte that two hex digits stand for, which is not 0.
fn hex_byte(a: u8, b: u8) -> Option<u8>
    ensures { result ≡ hex_byte (hex_digit a) (hex_digit b) }
{
    match hex_digit(a)? * 16 + hex_digit(b)? {
        0 => None,
        byte => Some(byte),
    }
}

// The byte that a letter behind a backslash stands for.
#[tactic(auto, unfolding(rules::specs::Coded::escapes, rules::specs::Coded::escape_in))]
fn letter_byte(letter: u8) -> Option<u8>
    ensures { result ≡ escape_in escapes letter }
{
    match letter {
        b'a' => Some(7),
        b'b' => Some(8),
        b'f' => Some(12),
        b'n' => Some(b'\n'),
        b'r' => Some(b'\r'),
        b't' => Some(b'\t'),
        b'v' => Some(11),
        b'\\' | b'"' | b'\'' => Some(letter),
        _ => None,
    }
}

// The escape whose backslash stands at a place.
fn escape_at(line: &[u8], at: usize) -> Option<Taken>
    requires { at < length line.now }
    ensures value { taken_by result ≡ escaped (drop (at + 1) line.now) }
    ensures short { IfSome result (λ t. t.more < 4) }
{
    let letter = scan::byte_at(line, at + 1);
    if letter == b'x' {
        let byte = hex_byte(scan::byte_at(line, at + 2), scan::byte_at(line, at + 3))?;
        return Some(Taken { byte, more: 3 });
    }
    let byte = letter_byte(letter)?;
    Some(Taken { byte, more: 1 })
}

// What is taken at a place of a value.
fn taken_at(line: &[u8], at: usize) -> Option<Taken>
    requires { at < length line.now }
    ensures value { taken_by result ≡ coded_byte (get_or line.now at 0) (drop (at + 1) line.now) }
    ensures short { IfSome result (λ t. t.more < 4) }
{
    let byte = line[at];
    if byte == b'\\' {
        return escape_at(line, at);
    }
    Some(Taken { byte, more: 0 })
}

// ---- the value

// The closing mark of a value, and the value's length.
#[derive(Debug, Clone, Copy, PartialEq, Eq)]
pub struct Closed {
    pub end: usize,
    pub len: usize,
}

// Puts a byte at a place, if there is room.
fn put_at(out: &mut [u8], n: usize, byte: u8)
    ensures { PutAt n byte out.old out.new }
{
    if n < out.len() {
        out[n] = byte;
    }
}

// Reads a value that starts at a place, byte by byte and escape by escape, and puts as much of it into out as there is room for.
pub fn decode(line: &[u8], start: usize, out: &mut [u8]) -> Option<Closed>
    ensures { ClosedIs line.now start out.old out.new result }
{
    let mut i = start;
    let mut len: usize = 0;
    while i < line.len() {
        if line[i] == b'"' {
            return Some(Closed { end: i, len });
        }
        let taken = taken_at(line, i)?;
        put_at(out, len, taken.byte);
        i += 1 + taken.more;
        len += 1;
    }
    None
}
