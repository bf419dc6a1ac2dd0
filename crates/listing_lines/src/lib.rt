// Lines of the listing, one behind the other in a buffer. Each function writes behind the first `used` bytes: where that ends, or there is no
// room for all of it.

#![tactic(auto)]

ghost use Rattle.std.specs.Prelude.{◌≡◌, not, ◌&&◌, ◌∷◌, [], ◌++◌, ◌+◌, ◌<◌, ◌≤◌, eqb, length};
ghost use Rattle.lists.specs.Bytes.{between};
ghost use Rattle.template.specs.Decimal.{decimal};
ghost use Rattle.engine.specs.Listing.{hex, shown_byte, escaped, signed, four_octal, line_of, set_line};
ghost use Rattle.insertion.specs.Append.{Appended};
ghost use Rattle.listing_lines.specs.Lines.{refusal_line};

// ---- texts as they are

pub fn put_text(out: &mut [u8], used: usize, src: &[u8]) -> Option<usize>
    requires { used ≤ length out.old }
    ensures { Appended src.now out.old used result out.new }
{
    insertion::put_text(out, used, src, false)
}

// ---- texts with their unprintable bytes escaped

fn hex_digit(n: u8) -> u8
    requires { n < 16 }
    ensures { result ≡ hex n }
{
    if n < 10 { b'0' + n } else { b'a' - 10 + n }
}

fn is_printed(b: u8) -> bool
    ensures { result ≡ (between 32 126 b && not (eqb b 92)) }
{
    matches!(b, b' '..=b'~') && b != b'\\'
}

fn put_shown(out: &mut [u8], used: usize, b: u8) -> Option<usize>
    requires { used ≤ length out.old }
    ensures { Appended (shown_byte b) out.old used result out.new }
{
    if is_printed(b) {
        insertion::put_byte(out, used, b)
    } else {
        put_text(
            out,
            used,
            &[b'\\', b'x', hex_digit(b / 16), hex_digit(b % 16)],
        )
    }
}

fn put_escaped(out: &mut [u8], used: usize, text: &[u8]) -> Option<usize>
    requires { used ≤ length out.old }
    ensures { Appended (escaped text.now) out.old used result out.new }
{
    let mut end = used;
    for b in text {
        end = put_shown(out, end, *b)?;
    }
    Some(end)
}

// ---- numbers

fn put_decimal(out: &mut [u8], used: usize, n: u32) -> Option<usize>
    requires { used ≤ length out.old }
    ensures { Appended (decimal n) out.old used result out.new }
{
    let d = pieces::decimal(n);
    put_text(out, used, &d.digits[d.start..])
}

fn put_signed(out: &mut [u8], used: usize, z: i32) -> Option<usize>
    requires { used ≤ length out.old }
    ensures { Appended (signed z) out.old used result out.new }
{
    if z < 0 {
        let minus = insertion::put_byte(out, used, b'-')?;
        put_decimal(out, minus, z.unsigned_abs())
    } else {
        put_decimal(out, used, z.unsigned_abs())
    }
}

fn octal_digit(d: u32) -> u8
    requires { d < 8 }
    ensures { result ≡ 48 + d }
{
    b'0' + d as u8
}

fn put_octal(out: &mut [u8], used: usize, mode: u32) -> Option<usize>
    requires room { used ≤ length out.old }
    requires mode { mode < 4096 }
    ensures { Appended (four_octal mode) out.old used result out.new }
{
    let digits: [u8; 4] = [
        octal_digit(mode / 512),
        octal_digit(mode / 64 % 8),
        octal_digit(mode / 8 % 8),
        octal_digit(mode % 8),
    ];
    put_text(out, used, &digits)
}

// ---- lines

// A word and a blank.
fn put_word(out: &mut [u8], used: usize, word: &[u8]) -> Option<usize>
    requires { used ≤ length out.old }
    ensures { Appended (word.now ++ (32 ∷ [])) out.old used result out.new }
{
    let worded = put_text(out, used, word)?;
    insertion::put_byte(out, worded, b' ')
}

pub fn put_line(out: &mut [u8], used: usize, word: &[u8], text: &[u8]) -> Option<usize>
    requires { used ≤ length out.old }
    ensures { Appended (line_of word.now (escaped text.now)) out.old used result out.new }
{
    let worded = put_word(out, used, word)?;
    let texted = put_escaped(out, worded, text)?;
    insertion::put_byte(out, texted, b'\n')
}

// No line for what is not set.
pub fn put_set_line(out: &mut [u8], used: usize, word: &[u8], text: &[u8]) -> Option<usize>
    requires { used ≤ length out.old }
    ensures { Appended (set_line word.now text.now) out.old used result out.new }
{
    if text.is_empty() {
        return Some(used);
    }
    put_line(out, used, word, text)
}

// A word, then a key and a value.
pub fn put_property_line(
    out: &mut [u8],
    used: usize,
    word: &[u8],
    key: &[u8],
    value: &[u8],
) -> Option<usize>
    requires { used ≤ length out.old }
    ensures { Appended (line_of word.now (escaped key.now ++ (61 ∷ escaped value.now))) out.old used result out.new }
{
    let worded = put_word(out, used, word)?;
    let keyed = put_escaped(out, worded, key)?;
    let parted = insertion::put_byte(out, keyed, b'=')?;
    let valued = put_escaped(out, parted, value)?;
    insertion::put_byte(out, valued, b'\n')
}

pub fn put_number_line(out: &mut [u8], used: usize, word: &[u8], n: u32) -> Option<usize>
    requires { used ≤ length out.old }
    ensures { Appended (line_of word.now (decimal n)) out.old used result out.new }
{
    let worded = put_word(out, used, word)?;
    let numbered = put_decimal(out, worded, n)?;
    insertion::put_byte(out, numbered, b'\n')
}

pub fn put_signed_line(out: &mut [u8], used: usize, word: &[u8], z: i32) -> Option<usize>
    requires { used ≤ length out.old }
    ensures { Appended (line_of word.now (signed z)) out.old used result out.new }
{
    let worded = put_word(out, used, word)?;
    let numbered = put_signed(out, worded, z)?;
    insertion::put_byte(out, numbered, b'\n')
}

pub fn put_mode_line(out: &mut [u8], used: usize, word: &[u8], mode: u32) -> Option<usize>
    requires room { used ≤ length out.old }
    requires mode { mode < 4096 }
    ensures { Appended (line_of word.now (four_octal mode)) out.old used result out.new }
{
    let worded = put_word(out, used, word)?;
    let numbered = put_octal(out, worded, mode)?;
    insertion::put_byte(out, numbered, b'\n')
}

// The only line of a listing that is refused.
pub fn put_refusal_line(out: &mut [u8], used: usize, number: u32, line: u32) -> Option<usize>
    requires { used ≤ length out.old }
    ensures { Appended (refusal_line number line) out.old used result out.new }
{
    let worded = put_text(out, used, b"refused ")?;
    let numbered = put_decimal(out, worded, number)?;
    let lined = put_text(out, numbered, b" line ")?;
    let placed = put_decimal(out, lined, line)?;
    insertion::put_byte(out, placed, b'\n')
}
