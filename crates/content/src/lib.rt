// What a link, an owner, a group, a mode and an output may be: check 31, and the tests of 33, 34 and 36.

#![tactic(auto)]

ghost use Rattle.std.specs.Prelude.{◌≡◌, ◌<◌};
ghost use Rattle.outcome.specs.Content.{ok_part, ok_name, ok_link, owner_byte, ok_owner, ok_output, others_write};
ghost use Rattle.content.specs.Mode.{mode_of, Small};

use scan::Not;

// ---- links

// A component is not empty, not `.` and not `..`.
fn ok_part(x: &[u8]) -> bool
    ensures { result ≡ ok_part x.now }
{
    !matches!(x, [] | [b'.'] | [b'.', b'.'])
}

// Check 31: to 128 bytes, and each component sound.
pub fn ok_name(x: &[u8]) -> bool
    ensures { result ≡ ok_name x.now }
{
    let n = x.len();
    if 128 < n {
        return false;
    }
    let mut i: usize = 0;
    loop {
        let end = scan::run_end(x, i, Not(b'/'));
        if !ok_part(&x[i..end]) {
            return false;
        }
        if n <= end {
            return true;
        }
        i = end + 1;
    }
}

// A link in a record passes check 31 and has no NUL.
pub fn ok_link(x: &[u8]) -> bool
    ensures { result ≡ ok_link x.now }
{
    ok_name(x) && rows::clean(x)
}

// ---- owner and group

// Letters, digits, `_`, `-`, `.`.
fn owner_byte(b: u8) -> bool
    ensures { result ≡ owner_byte b }
{
    matches!(b, b'a'..=b'z' | b'A'..=b'Z' | b'0'..=b'9' | b'-' | b'.' | b'_')
}

// To 32 such bytes; none is unset.
pub fn ok_owner(x: &[u8]) -> bool
    ensures { result ≡ ok_owner x.now }
{
    if 32 < x.len() {
        return false;
    }
    for b in x {
        if !owner_byte(*b) {
            return false;
        }
    }
    true
}

// ---- output

// To 512 bytes without NUL.
pub fn ok_output(x: &[u8]) -> bool
    ensures { result ≡ ok_output x.now }
{
    x.len() <= 512 && rows::clean(x)
}

// ---- mode

// 1 to 4 octal digits.
pub fn mode_of(x: &[u8]) -> Option<usize>
    ensures { (result ≡ mode_of x.now) × Small result }
{
    let 1..=4 = x.len() else {
        return None;
    };
    let mut mode: usize = 0;
    for b in x {
        if !matches!(*b, b'0'..=b'7') {
            return None;
        }
        mode = mode * 8 + usize::from(*b - b'0');
    }
    Some(mode)
}

// Whether a mode has the bit 0002.
pub fn others_write(mode: usize) -> bool
    ensures { result ≡ others_write mode }
{
    mode / 2 % 2 == 1
}
