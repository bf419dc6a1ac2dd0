// Reads a template piece by piece, and writes a number in decimal.

#![tactic(auto)]

ghost use Rattle.std.specs.Prelude.{◌≡◌, ◌+◌, ◌≤◌, ◌<◌, length, get_or, drop};
ghost use Rattle.template.specs.Template.{result as output, attr, env, whole, formed, text_in, with_text, well_formed};
ghost use Rattle.pieces.specs.Number.{DigitsOf};
ghost use Rattle.pieces.specs.Read.{meaning, told, found_told, item_read, read_at, after_percent, after_dollar, if_named, PieceWithin, Within, FoundWithin, text_told, TextWithin, PassesWritten};

// A piece of a template; of a text in braces its start and its length.
#[derive(Debug, Clone, Copy, PartialEq, Eq)]
pub enum Piece {
    Written(u8),
    Kernel,
    Number,
    Devpath,
    Id,
    Driver,
    Major,
    Minor,
    Result,
    Attr(usize, usize),
    Env(usize, usize),
    Dollar,
    Percent,
}

// A piece and the place behind it.
#[derive(Debug, Clone, Copy, PartialEq, Eq)]
pub struct PieceRead {
    pub piece: Piece,
    pub next: usize,
}

// A sign that begins no piece.
#[derive(Debug, Clone, Copy, PartialEq, Eq)]
pub struct Malformed;

// A text in braces.
#[derive(Debug, Clone, Copy, PartialEq, Eq)]
pub struct Text {
    pub start: usize,
    pub len: usize,
}

// ---- braces

fn text_at(template: &[u8], at: usize) -> Option<Text>
    ensures { (text_told result template.now ≡ text_in (drop at template.now)) × TextWithin result template.now at }
{
    if scan::byte_at(template, at) != b'{' {
        return None;
    }
    let start = at + 1;
    let end = scan::byte_end(template, start, b'}');
    if template.len() <= end {
        return None;
    }
    match end - start {
        1..=64 => Some(Text {
            start,
            len: end - start,
        }),
        _ => None,
    }
}

fn attr_at(template: &[u8], at: usize) -> Option<PieceRead>
    ensures { (found_told result template.now ≡ item_read (with_text attr 0 (text_in (drop at template.now))) at) × FoundWithin result template.now at }
{
    let text = text_at(template, at)?;
    Some(PieceRead {
        piece: Piece::Attr(text.start, text.len),
        next: text.start + text.len + 1,
    })
}

fn env_at(template: &[u8], at: usize) -> Option<PieceRead>
    ensures { (found_told result template.now ≡ item_read (with_text env 0 (text_in (drop at template.now))) at) × FoundWithin result template.now at }
{
    let text = text_at(template, at)?;
    Some(PieceRead {
        piece: Piece::Env(text.start, text.len),
        next: text.start + text.len + 1,
    })
}

// ---- a program's output (document 02, Item 6)

// The output behind a name of n bytes, which no brace may follow.
fn result_at(template: &[u8], at: usize, n: usize) -> Option<PieceRead>
    requires { (at + n ≤ length template.now) × (0 < n) }
    ensures { (found_told result template.now ≡ item_read (formed (whole output) n (drop (at + n) template.now)) at) × FoundWithin result template.now at }
{
    if scan::byte_at(template, at + n) == b'{' {
        None
    } else {
        Some(PieceRead {
            piece: Piece::Result,
            next: at + n,
        })
    }
}

// ---- behind a per cent sign

// The piece of a letter.
fn letter_at(template: &[u8], at: usize) -> Option<PieceRead>
    requires { (at ≤ length template.now) × (get_or template.now at 0 ≡ 37 → ⊥) }
    ensures { (found_told result template.now ≡ after_percent template.now at) × FoundWithin result template.now at }
{
    match scan::byte_at(template, at) {
        b'k' => Some(PieceRead {
            piece: Piece::Kernel,
            next: at + 1,
        }),
        b'n' => Some(PieceRead {
            piece: Piece::Number,
            next: at + 1,
        }),
        b'p' => Some(PieceRead {
            piece: Piece::Devpath,
            next: at + 1,
        }),
        b'b' => Some(PieceRead {
            piece: Piece::Id,
            next: at + 1,
        }),
        b's' => attr_at(template, at + 1),
        b'E' => env_at(template, at + 1),
        b'M' => Some(PieceRead {
            piece: Piece::Major,
            next: at + 1,
        }),
        b'm' => Some(PieceRead {
            piece: Piece::Minor,
            next: at + 1,
        }),
        b'c' => result_at(template, at, 1),
        _ => None,
    }
}

// A letter, or a second per cent sign.
fn after_percent(template: &[u8], at: usize) -> Option<PieceRead>
    requires { at ≤ length template.now }
    ensures { (found_told result template.now ≡ after_percent template.now at) × FoundWithin result template.now at }
{
    match scan::byte_at(template, at) {
        b'a'..=b'z' | b'A'..=b'Z' => letter_at(template, at),
        b'%' => Some(PieceRead {
            piece: Piece::Percent,
            next: at + 1,
        }),
        _ => None,
    }
}

// ---- behind a dollar sign

// A piece if its name begins at a place.
fn if_named(template: &[u8], at: usize, name: &[u8], p: Piece) -> Option<PieceRead>
    requires { (at ≤ length template.now) × (0 < length name.now) × PieceWithin p template.now }
    ensures { (found_told result template.now ≡ if_named name.now (meaning p template.now) template.now at) × FoundWithin result template.now at }
{
    if scan::starts_at(template, at, name) {
        Some(PieceRead {
            piece: p,
            next: at + name.len(),
        })
    } else {
        None
    }
}

fn name_at(template: &[u8], at: usize) -> Option<PieceRead>
    requires { (at ≤ length template.now) × (get_or template.now at 0 ≡ 36 → ⊥) }
    ensures { (found_told result template.now ≡ after_dollar template.now at) × FoundWithin result template.now at }
{
    match scan::byte_at(template, at) {
        b'k' => if_named(template, at, b"kernel", Piece::Kernel),
        b'n' => if_named(template, at, b"number", Piece::Number),
        b'd' => if scan::byte_at(template, at + 1) == b'e' {
            if_named(template, at, b"devpath", Piece::Devpath)
        } else {
            if_named(template, at, b"driver", Piece::Driver)
        },
        b'i' => if_named(template, at, b"id", Piece::Id),
        b'a' => if scan::starts_at(template, at, b"attr") {
            attr_at(template, at + 4)
        } else {
            None
        },
        b'e' => if scan::starts_at(template, at, b"env") {
            env_at(template, at + 3)
        } else {
            None
        },
        b'm' => if scan::byte_at(template, at + 1) == b'a' {
            if_named(template, at, b"major", Piece::Major)
        } else {
            if_named(template, at, b"minor", Piece::Minor)
        },
        b'r' => if scan::starts_at(template, at, b"result") {
            result_at(template, at, 6)
        } else {
            None
        },
        _ => None,
    }
}

// A name, which begins with a small letter, or a second dollar sign.
fn after_dollar(template: &[u8], at: usize) -> Option<PieceRead>
    requires { at ≤ length template.now }
    ensures { (found_told result template.now ≡ after_dollar template.now at) × FoundWithin result template.now at }
{
    match scan::byte_at(template, at) {
        b'a'..=b'z' => name_at(template, at),
        b'$' => Some(PieceRead {
            piece: Piece::Dollar,
            next: at + 1,
        }),
        _ => None,
    }
}

// ---- pieces

// The piece at a place, or none at the end.
pub fn piece_at(template: &[u8], at: usize) -> Result<Option<PieceRead>, Malformed>
    ensures { (told result template.now ≡ read_at template.now at) × Within result template.now at }
{
    if template.len() <= at {
        return Ok(None);
    }
    let read = match template[at] {
        b'$' => after_dollar(template, at + 1).ok_or(Malformed)?,
        b'%' => after_percent(template, at + 1).ok_or(Malformed)?,
        b => PieceRead {
            piece: Piece::Written(b),
            next: at + 1,
        },
    };
    Ok(Some(read))
}

// The place behind the written bytes that stand from a place on.
fn written_end(template: &[u8], at: usize) -> usize
    requires { at ≤ length template.now }
    ensures { PassesWritten template.now at result }
{
    for i in at..template.len() {
        if matches!(template[i], b'$' | b'%') {
            return i;
        }
    }
    template.len()
}

pub fn well_formed(template: &[u8]) -> bool
    ensures { result ≡ well_formed template.now }
{
    let mut i: usize = 0;
    loop {
        match piece_at(template, written_end(template, i)) {
            Ok(Some(read)) => i = read.next,
            Ok(None) => return true,
            Err(Malformed) => return false,
        }
    }
}

// ---- numbers

// The digits of a number, at the end of an array.
#[derive(Debug, Clone, Copy, PartialEq, Eq)]
pub struct Digits {
    pub digits: [u8; 10],
    pub start: usize,
}

fn digit(d: u32) -> u8
    requires { d < 10 }
    ensures { result ≡ 48 + d }
{
    b'0' + d as u8
}

pub fn decimal(n: u32) -> Digits
    ensures { DigitsOf n result }
{
    let mut digits = [0u8; 10];
    let mut start: usize = 9;
    let mut m = n;
    while 9 < m {
        digits[start] = digit(m % 10);
        m = m / 10;
        start -= 1;
    }
    digits[start] = digit(m);
    Digits { digits, start }
}
