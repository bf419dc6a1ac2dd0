// The names in a substituted text: the byte rule, and one name after the other.

#![tactic(auto)]

ghost use Rattle.std.specs.Prelude.{◌≡◌, Bool, List, [], ◌∷◌, map, ◌≤◌, length};
ghost use Rattle.lists.specs.Bytes.{is_letter};
ghost use Rattle.engine.specs.Assign.{clean_byte};
ghost use Rattle.link_names.specs.Names.{is_mark, byte_but, Named};

use scan::Not;

// ---- the byte rule

fn is_letter(b: u8) -> bool
    ensures { result ≡ is_letter b }
{
    matches!(b, b'A'..=b'Z' | b'a'..=b'z')
}

fn is_mark(b: u8) -> bool
    ensures { result ≡ is_mark b }
{
    matches!(
        b,
        b'#' | b'+' | b'-' | b'.' | b':' | b'=' | b'@' | b'_' | b'/'
    )
}

fn clean_byte(b: u8) -> u8
    ensures { result ≡ clean_byte b }
{
    if is_letter(b) || scan::is_digit(b) || is_mark(b) {
        b
    } else {
        b'_'
    }
}

// The byte rule, from which the spaces between names may be exempt.
fn clean_but(b: u8, spaces: bool) -> u8
    ensures { result ≡ byte_but spaces b }
{
    if spaces && b == b' ' {
        b
    } else {
        clean_byte(b)
    }
}

// Every byte by the byte rule; the spaces stay where that is asked.
pub fn clean(x: &mut [u8], spaces: bool)
    ensures { x.new ≡ map (byte_but spaces) x.old }
{
    for b in x.iter_mut() {
        *b = clean_but(*b, spaces);
    }
}

// ---- one name after the other

// The place of a name, and the place behind it.
#[derive(Clone, Copy)]
pub struct Name {
    pub start: usize,
    pub end: usize,
}

// The first name from a place on.
pub fn name_from(text: &[u8], from: usize) -> Option<Name>
    requires { from ≤ length text.now }
    ensures { Named text.now from result }
{
    for start in from..text.len() {
        if text[start] != b' ' {
            return Some(Name {
                start,
                end: scan::run_end(text, start, Not(b' ')),
            });
        }
    }
    None
}
