// What the value of OPTIONS sets: a number of 32 bits with a sign, from decimal text, and the settings by name.

#![tactic(auto)]

ghost use Rattle.std.specs.Prelude.{◌≡◌, ◌≤◌, length, drop};
ghost use Rattle.lists.specs.Bytes.{starts};
ghost use Rattle.rules.specs.Setting.{with_sign, digits_from, integer_of, priority_of, setting_of};
ghost use Rattle.signed.specs.Signed.{set_by};

// ---- numbers

// The number with a sign and a magnitude, within an i32.
pub fn with_sign(negative: bool, m: u64) -> Option<i32>
    ensures { result ≡ with_sign negative m }
{
    if negative {
        if m == 0 {
            Some(0)
        } else if m <= 2147483648 {
            Some(-1 - ((m - 1) as i32))
        } else {
            None
        }
    } else if m <= 2147483647 {
        Some(m as i32)
    } else {
        None
    }
}

// The number of some digits.
fn digits_from(digits: &[u8], negative: bool) -> Option<i32>
    ensures { result ≡ digits_from digits.now 0 0 negative }
{
    let mut m: u64 = 0;
    for (n, b) in digits.iter().enumerate() {
        if !scan::is_digit(*b) || 10 <= n {
            return None;
        }
        m = m * 10 + u64::from(*b - b'0');
    }
    if digits.is_empty() {
        return None;
    }
    with_sign(negative, m)
}

pub fn integer_of(s: &[u8]) -> Option<i32>
    ensures { result ≡ integer_of s.now }
{
    match s {
        [b'-', digits @ ..] => digits_from(digits, true),
        _ => digits_from(s, false),
    }
}

// ---- settings

#[derive(Debug, Clone, Copy, PartialEq, Eq)]
pub enum Setting {
    EscapeNone,
    EscapeReplace,
    Watch,
    NoWatch,
    Priority(i32),
}

fn starts_with(s: &[u8], start: &[u8]) -> bool
    ensures { result ≡ starts start.now s.now }
{
    let n = start.len();
    n <= s.len() && scan::same(start, &s[..n])
}

// The setting of the number behind `link_priority=`, which has 14 bytes.
fn priority_of(value: &[u8]) -> Option<Setting>
    requires { 14 ≤ length value.now }
    ensures { set_by result ≡ priority_of (integer_of (drop 14 value.now)) }
{
    Some(Setting::Priority(integer_of(&value[14..])?))
}

pub fn setting_of(value: &[u8]) -> Option<Setting>
    ensures { set_by result ≡ setting_of value.now }
{
    if scan::same(value, b"string_escape=none") {
        return Some(Setting::EscapeNone);
    }
    if scan::same(value, b"string_escape=replace") {
        return Some(Setting::EscapeReplace);
    }
    if scan::same(value, b"watch") {
        return Some(Setting::Watch);
    }
    if scan::same(value, b"nowatch") {
        return Some(Setting::NoWatch);
    }
    if starts_with(value, b"link_priority=") {
        return priority_of(value);
    }
    None
}
