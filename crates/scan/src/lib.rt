// Small questions of a lent slice: a byte, equality, the end of a run, what stands at the end.

#![tactic(auto)]

ghost use Rattle.std.specs.Prelude.{◌≡◌, ℕ, Bool, true, false, ◌+◌, ◌≤◌, length, get_or, take, drop};
ghost use Rattle.lists.specs.Bytes.{is_upper, is_digit, is_blank, is_space, same_bytes, starts};
ghost use Rattle.lists.specs.Runs.{split_at, last_of, trim, chomp, ends_in_space, end_digits};
ghost use Rattle.scan.specs.Ends.{RunEnd, RunStart, is_not, is_newline};
ghost use Rattle.scan.specs.Groups.{SameFrom, LacksFrom, Met, AboveFrom};

// ---- bytes

pub fn wide(b: u8) -> usize
    ensures { result ≡ b }
{
    usize::from(b)
}

// The byte at a place, 0 past the end.
pub fn byte_at(s: &[u8], i: usize) -> u8
    ensures { result ≡ get_or s.now i 0 }
{
    if i < s.len() { s[i] } else { 0 }
}

pub fn is_upper(b: u8) -> bool
    ensures { result ≡ is_upper b }
{
    matches!(b, b'A'..=b'Z')
}

pub fn is_digit(b: u8) -> bool
    ensures { result ≡ is_digit b }
{
    matches!(b, b'0'..=b'9')
}

pub fn is_blank(b: u8) -> bool
    ensures { result ≡ is_blank b }
{
    matches!(b, b' ' | b'\t')
}

// Whitespace: bytes 9 to 13 and 32.
pub fn is_space(b: u8) -> bool
    ensures { result ≡ is_space b }
{
    matches!(b, b' ' | 9..=13)
}

// ---- equality

pub fn same(a: &[u8], b: &[u8]) -> bool
    ensures { result ≡ same_bytes a.now b.now }
{
    a == b
}

// Whether two texts agree in the n bytes from a place on, which are looked at together.
fn same_group(a: &[u8], b: &[u8], at: usize, n: usize) -> bool
    requires { (at + n ≤ length a.now) × (at + n ≤ length b.now) }
    ensures { (result ≡ true → SameFrom a.now b.now at (at + n)) × (result ≡ false → same_bytes (drop at a.now) (drop at b.now) ≡ false) }
{
    let mut same = true;
    for i in at..at + n {
        if a[i] != b[i] {
            same = false;
        }
    }
    same
}

// Whether two texts of one length, at least that of a group, agree. Their last groups, which may overlap those before,
// are compared first.
fn same_groups(a: &[u8], b: &[u8]) -> bool
    requires { (8 ≤ length a.now) × (length a.now ≡ length b.now) }
    ensures { result ≡ same_bytes a.now b.now }
{
    let last = a.len() - 8;
    if !same_group(a, b, last, 8) {
        return false;
    }
    // By hand, since the index moves on by whole groups.
    let mut i: usize = 0;
    while i < last {
        if !same_group(a, b, i, 8) {
            return false;
        }
        i += 8;
    }
    true
}

// The same as `same`, for texts that may be long and differ late.
pub fn same_long(a: &[u8], b: &[u8]) -> bool
    ensures { result ≡ same_bytes a.now b.now }
{
    if a.len() != b.len() {
        return false;
    }
    if a.len() < 8 {
        return same(a, b);
    }
    same_groups(a, b)
}

// The same of n to 2 n bytes: their first n and their last n, which may overlap.
fn same_ends(a: &[u8], b: &[u8], n: usize) -> bool
    requires { (n ≤ length a.now) × (length a.now ≤ n + n) × (length a.now ≡ length b.now) }
    ensures { result ≡ same_bytes a.now b.now }
{
    same_group(a, b, 0, n) && same_group(a, b, a.len() - n, n)
}

// The same as `same`, for texts of which few are longer than 16 bytes.
pub fn same_short(a: &[u8], b: &[u8]) -> bool
    ensures { result ≡ same_bytes a.now b.now }
{
    let len = a.len();
    if len != b.len() {
        return false;
    }
    match len {
        4..=8 => same_ends(a, b, 4),
        9..=16 => same_ends(a, b, 8),
        _ => same(a, b),
    }
}

// Whether a name begins at a place.
pub fn starts_at(s: &[u8], at: usize, name: &[u8]) -> bool
    requires { at ≤ length s.now }
    ensures { result ≡ starts name.now (drop at s.now) }
{
    s[at..].starts_with(name)
}

// ---- classes of bytes

pub trait Class: Copy {
    ghost holds: { Self → ℕ → Bool };

    fn has(self, b: u8) -> bool
        ensures { result ≡ holds self b };
}

#[derive(Clone, Copy)]
pub struct Upper;

#[derive(Clone, Copy)]
pub struct Digit;

#[derive(Clone, Copy)]
pub struct Blank;

#[derive(Clone, Copy)]
pub struct Space;

#[derive(Clone, Copy)]
pub struct Newline;

// Every byte but this one.
#[derive(Clone, Copy)]
pub struct Not(pub u8);

impl Class for Upper {
    ghost holds = { λ class. is_upper };

    fn has(self, b: u8) -> bool {
        is_upper(b)
    }
}

impl Class for Digit {
    ghost holds = { λ class. is_digit };

    fn has(self, b: u8) -> bool {
        is_digit(b)
    }
}

impl Class for Blank {
    ghost holds = { λ class. is_blank };

    fn has(self, b: u8) -> bool {
        is_blank(b)
    }
}

impl Class for Space {
    ghost holds = { λ class. is_space };

    fn has(self, b: u8) -> bool {
        is_space(b)
    }
}

impl Class for Newline {
    ghost holds = { λ class. is_newline };

    fn has(self, b: u8) -> bool {
        b == b'\n'
    }
}

impl Class for Not {
    ghost holds = { λ class. is_not class.0 };

    fn has(self, b: u8) -> bool {
        b != self.0
    }
}

// ---- the end of a run that starts at a place

// The end of the bytes of a class.
pub fn run_end<C: Class>(s: &[u8], at: usize, class: C) -> usize
    ensures { RunEnd (C.holds class) s.now at result }
{
    for i in at..s.len() {
        if !class.has(s[i]) {
            return i;
        }
    }
    at.max(s.len())
}

pub fn upper_end(s: &[u8], at: usize) -> usize
    ensures { RunEnd is_upper s.now at result }
{
    run_end(s, at, Upper)
}

pub fn digit_end(s: &[u8], at: usize) -> usize
    ensures { RunEnd is_digit s.now at result }
{
    run_end(s, at, Digit)
}

pub fn blank_end(s: &[u8], at: usize) -> usize
    ensures { RunEnd is_blank s.now at result }
{
    run_end(s, at, Blank)
}

// The place of the first byte b, or the end.
pub fn byte_end(s: &[u8], at: usize, b: u8) -> usize
    ensures { RunEnd (is_not b) s.now at result }
{
    run_end(s, at, Not(b))
}

// Whether one of the n bytes from a place on, which are looked at together, is b.
pub fn in_group(s: &[u8], at: usize, n: usize, b: u8) -> bool
    requires { at + n ≤ length s.now }
    ensures { (result ≡ false → LacksFrom b s.now at (at + n)) × (result ≡ true → Met b s.now at (at + n)) }
{
    let mut found = false;
    for i in at..at + n {
        if s[i] == b {
            found = true;
        }
    }
    found
}

// Whether b is seen to stand nowhere from a place on: in groups, of which the last may overlap the one before. Few bytes are not looked at.
fn lacks(s: &[u8], at: usize, b: u8) -> bool
    requires { at ≤ length s.now }
    ensures { result ≡ true → LacksFrom b s.now at (length s.now) }
{
    if s.len() - at < 8 {
        return false;
    }
    let last = s.len() - 8;
    // By hand, since the index moves on by whole groups.
    let mut i = at;
    while i < last {
        if in_group(s, i, 8, b) {
            return false;
        }
        i += 8;
    }
    !in_group(s, last, 8, b)
}

// The same as `byte_end`, for a byte that seldom stands there.
pub fn byte_end_seldom(s: &[u8], at: usize, b: u8) -> usize
    requires { at ≤ length s.now }
    ensures { RunEnd (is_not b) s.now at result }
{
    if lacks(s, at, b) {
        return s.len();
    }
    byte_end(s, at, b)
}

// ---- lines

// Whether one of the 16 bytes from a place on, which are looked at together, is a newline or lies below it.
fn low_in_group(s: &[u8], at: usize) -> bool
    requires { at + 16 ≤ length s.now }
    ensures { result ≡ false → AboveFrom s.now at (at + 16) }
{
    let mut low = false;
    for i in at..at + 16 {
        if s[i] <= b'\n' {
            low = true;
        }
    }
    low
}

// A place up to which all bytes lie above newline: whole groups of a line are passed over.
pub fn line_groups(s: &[u8], at: usize) -> usize
    requires { at ≤ length s.now }
    ensures { (at ≤ result) × (result ≤ length s.now) × AboveFrom s.now at result }
{
    // By hand, since the index moves on by whole groups.
    let mut i = at;
    while 16 <= s.len() - i {
        if low_in_group(s, i) {
            return i;
        }
        i += 16;
    }
    i
}

// The newline at the end of the line, or the end.
pub fn line_end(s: &[u8], at: usize) -> usize
    requires { at ≤ length s.now }
    ensures { RunEnd (is_not 10) s.now at result }
{
    byte_end(s, line_groups(s, at), b'\n')
}

// ---- at the end

// The place where the bytes of a class at the end begin.
fn run_start<C: Class>(s: &[u8], class: C) -> usize
    ensures { RunStart (C.holds class) s.now result }
{
    for i in (0..s.len()).rev() {
        if !class.has(s[i]) {
            return i + 1;
        }
    }
    0
}

// The length without the whitespace at the end.
pub fn trimmed_len(s: &[u8]) -> usize
    ensures { (result ≤ length s.now) × (take result s.now ≡ trim s.now) }
{
    run_start(s, Space)
}

// The length without the newlines at the end (document 02, Item 6).
pub fn chomped_len(s: &[u8]) -> usize
    ensures { (result ≤ length s.now) × (take result s.now ≡ chomp s.now) }
{
    run_start(s, Newline)
}

pub fn ends_in_space(s: &[u8]) -> bool
    ensures { result ≡ ends_in_space s.now }
{
    let n = s.len();
    0 < n && is_space(s[n - 1])
}

// The place where the digits at the end begin.
pub fn digits_start(s: &[u8]) -> usize
    ensures { (result ≤ length s.now) × (drop result s.now ≡ end_digits s.now) }
{
    run_start(s, Digit)
}

// The place behind the last byte b, or the start.
pub fn last_part(s: &[u8], b: u8) -> usize
    ensures { (result ≤ length s.now) × (drop result s.now ≡ last_of (split_at b s.now)) }
{
    run_start(s, Not(b))
}
