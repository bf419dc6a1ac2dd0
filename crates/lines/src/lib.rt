// The lines of a rules text: where each ends, and its bytes without its joins (document 02, Item 10). Only this crate knows of joins.

#![tactic(auto)]

ghost use Rattle.std.specs.Prelude.{◌≡◌, ◌≤◌, ◌<◌, length};
ghost use Rattle.lists.specs.Bytes.{part};
ghost use Rattle.lines.specs.Ends.{ends_slash, goes, held_in, CleanLine, CopyIn, EndsAt, JoinedAt, UnjoinedIs, FoundIs};

use refusals::Refusal;

// ---- a line of one physical line

// A backslash is the last byte of a part.
fn ends_in_slash(text: &[u8], at: usize, end: usize) -> bool
    requires { (at ≤ end) × (end ≤ length text.now) }
    ensures { result ≡ ends_slash (part text.now at end) }
{
    at < end && text[end - 1] == b'\\'
}

fn ended(text: &[u8], at: usize, end: usize) -> Option<usize>
    requires { (at ≤ length text.now) × CleanLine text.now at end }
    ensures { EndsAt text.now at result }
{
    if ends_in_slash(text, at, end) {
        None
    } else {
        Some(end)
    }
}

// The place of the newline that ends the line, or the end of the text, for a line that joins nothing and holds no NUL. There is none where the
// first physical line ends in a backslash or holds NUL.
fn line_end(text: &[u8], at: usize) -> Option<usize>
    requires { at ≤ length text.now }
    ensures { EndsAt text.now at result }
{
    let mut i = scan::line_groups(text, at);
    while i < text.len() {
        let b = text[i];
        if b'\n' < b {
            i += 1;
        } else {
            match b {
                b'\n' => return ended(text, at, i),
                0 => return None,
                _ => i += 1,
            }
        }
    }
    ended(text, at, i)
}

// ---- any line

// The place of the newline that ends a line, or the end of the text, and how many newlines the line joins.
#[derive(Clone, Copy)]
pub struct Extent {
    pub end: usize,
    pub newlines: usize,
}

// Goes from one physical line to the next while they are joined; a comment joins nothing. A line whose last backslash nothing follows is an error.
pub fn joined_end(text: &[u8], at: usize) -> Result<Extent, Extent>
    requires { at ≤ length text.now }
    ensures { JoinedAt text.now at result }
{
    let mut end = scan::line_end(text, at);
    let first = scan::blank_end(text, at);
    if scan::byte_at(text, first) == b'#' {
        return Ok(Extent { end, newlines: 0 });
    }
    let mut slash = ends_in_slash(text, at, end);
    let mut newlines: usize = 0;
    while slash {
        let last = text.len() - end <= 1;
        if last {
            return Err(Extent { end, newlines });
        }
        let begin = end + 1;
        end = scan::line_end(text, begin);
        slash = ends_in_slash(text, begin, end);
        newlines += 1;
    }
    Ok(Extent { end, newlines })
}

// ---- the bytes of a joined line

// The byte at a place is a newline, or the backslash before one.
fn is_gone(text: &[u8], at: usize, end: usize) -> bool
    requires { (at < end) × (end ≤ length text.now) }
    ensures { result ≡ goes (part text.now at end) }
{
    match text[at] {
        b'\n' => true,
        b'\\' => at + 1 < end && text[at + 1] == b'\n',
        _ => false,
    }
}

// Copies a line without its joins: so many bytes, none of them NUL. There is no room for more than 1,024.
fn unjoin(text: &[u8], at: usize, end: usize, line: &mut [u8]) -> Option<usize>
    requires { (at ≤ end) × (end ≤ length text.now) × (length line.old ≡ 1024) }
    ensures { UnjoinedIs (part text.now at end) line.new result }
{
    let mut n: usize = 0;
    for i in at..end {
        if is_gone(text, i, end) {
            continue;
        }
        let b = text[i];
        if b == 0 || 1024 <= n {
            return None;
        }
        line[n] = b;
        n += 1;
    }
    Some(n)
}

// ---- a line and its bytes

// A line, and how many bytes of it were copied, if it was.
#[derive(Clone, Copy)]
pub struct Line {
    pub extent: Extent,
    pub copied: Option<usize>,
}

// A line whose last backslash nothing follows, or that holds more than 1,024 bytes without its joins, or NUL.
#[derive(Clone, Copy)]
pub struct LineFault {
    pub extent: Extent,
    pub refusal: Refusal,
}

fn copy_line(text: &[u8], at: usize, copy: &mut [u8]) -> Result<Line, LineFault>
    requires { (at ≤ length text.now) × (length copy.old ≡ 1024) }
    ensures { FoundIs text.now copy.new at result }
{
    let extent = match joined_end(text, at) {
        Ok(extent) => extent,
        Err(extent) => {
            return Err(LineFault {
                extent,
                refusal: Refusal::LineOpen,
            });
        }
    };
    match unjoin(text, at, extent.end, copy) {
        Some(size) => Ok(Line {
            extent,
            copied: Some(size),
        }),
        None => Err(LineFault {
            extent,
            refusal: Refusal::LineBad,
        }),
    }
}

// The line at a place. One that may be joined, or holds NUL, is copied without its joins.
pub fn find_line(text: &[u8], at: usize, copy: &mut [u8]) -> Result<Line, LineFault>
    requires { (at ≤ length text.now) × (length copy.old ≡ 1024) }
    ensures { FoundIs text.now copy.new at result }
{
    match line_end(text, at) {
        Some(end) => Ok(Line {
            extent: Extent { end, newlines: 0 },
            copied: None,
        }),
        None => copy_line(text, at, copy),
    }
}

// Its bytes, where they are: in the text, or in the copy.
pub fn bytes_of<'a>(text: &'a [u8], copy: &'a [u8], at: usize, line: Line) -> &'a [u8]
    requires { (at ≤ line.extent.end) × (line.extent.end ≤ length text.now) × CopyIn copy.now line.copied }
    ensures { result.now ≡ held_in text.now copy.now at line }
{
    match line.copied {
        Some(size) => &copy[..size],
        None => &text[at..line.extent.end],
    }
}
