// Whether a pattern is well formed, and whether it matches a value: greedy, with one remembered star.

#![tactic(auto)]

ghost use Rattle.std.specs.Prelude.{◌≡◌, false, not, ◌||◌, ◌+◌, ◌≤◌, ◌<◌, ◌^◌, length, get_or, drop};
ghost use Rattle.lists.specs.Bytes.{between};
ghost use Rattle.pattern.specs.Pattern.{is_special, is_plain, set_at, any_suffix, well_formed, matches};
ghost use Rattle.glob.specs.Place.{alternative_at, matches_from, range_at, NotBar};
ghost use Rattle.glob.specs.Sets.{MemberIs, member_start, answered, set_read};
ghost use Rattle.glob.specs.Step.{set_step, byte_step, StepIs, StartIs};
ghost use Rattle.glob.specs.Plain.{GroupIs, FormIs};

use scan::Not;

// ---- bytes

// The byte at a place; past the end a bar, which ends an alternative too.
fn byte_or_bar(pattern: &[u8], i: usize) -> u8
    ensures { result ≡ get_or pattern.now i 124 }
{
    if i < pattern.len() { pattern[i] } else { b'|' }
}

// Whether a byte stands for itself: letters and digits do, and all others but four.
fn is_plain(b: u8) -> bool
    ensures { result ≡ not (is_special b) }
{
    match b {
        b'a'..=b'z' | b'A'..=b'Z' | b'0'..=b'9' => true,
        b'*' | b'?' | b'[' | b'|' => false,
        _ => true,
    }
}

// ---- plain patterns

// Whether one of the n bytes from a place on does not stand for itself.
fn special_in_group(pattern: &[u8], at: usize, n: usize) -> bool
    requires { at + n ≤ length pattern.now }
    ensures { GroupIs result pattern.now at (at + n) }
{
    let star = scan::in_group(pattern, at, n, b'*');
    let one = scan::in_group(pattern, at, n, b'?');
    let set = scan::in_group(pattern, at, n, b'[');
    let bar = scan::in_group(pattern, at, n, b'|');
    if star {
        return true;
    }
    if one {
        return true;
    }
    if set {
        return true;
    }
    bar
}

fn few_plain(pattern: &[u8]) -> bool
    ensures { result ≡ is_plain pattern.now }
{
    for b in pattern {
        if !is_plain(*b) {
            return false;
        }
    }
    true
}

// Whether every byte stands for itself: in groups, of which the last may overlap the one before.
fn all_plain(pattern: &[u8]) -> bool
    ensures { result ≡ is_plain pattern.now }
{
    let len = pattern.len();
    if len < 4 {
        return few_plain(pattern);
    }
    if len < 8 {
        if special_in_group(pattern, 0, 4) {
            return false;
        }
        return !special_in_group(pattern, len - 4, 4);
    }
    let last = len - 8;
    if special_in_group(pattern, last, 8) {
        return false;
    }
    // By hand, since the index moves on by whole groups.
    let mut i: usize = 0;
    while i < last {
        if special_in_group(pattern, i, 8) {
            return false;
        }
        i += 8;
    }
    true
}

// ---- sets

// A member of a set, the bytes from low to high, and the place behind it.
#[derive(Clone, Copy)]
pub struct Member {
    pub low: u8,
    pub high: u8,
    pub next: usize,
}

// Whether a set takes a byte, and the place behind the set.
#[derive(Clone, Copy)]
pub struct SetRead {
    pub taken: bool,
    pub next: usize,
}

// Whether a dash and one more byte of the set stand behind a place.
fn is_range(pattern: &[u8], i: usize) -> bool
    requires { i < length pattern.now }
    ensures { result ≡ range_at pattern.now i }
{
    if pattern.len() <= i + 2 {
        return false;
    }
    if pattern[i + 1] != b'-' {
        return false;
    }
    match pattern[i + 2] {
        b']' | b'|' => false,
        _ => true,
    }
}

// None where the range falls.
fn member_at(pattern: &[u8], i: usize) -> Option<Member>
    requires { NotBar pattern.now i }
    ensures { MemberIs result pattern.now i }
{
    let low = pattern[i];
    if !is_range(pattern, i) {
        return Some(Member {
            low,
            high: low,
            next: i + 1,
        });
    }
    let high = pattern[i + 2];
    if high < low {
        return None;
    }
    Some(Member {
        low,
        high,
        next: i + 3,
    })
}

// Whether x was found before or lies from low to high.
fn found_in(found: bool, low: u8, high: u8, x: u8) -> bool
    ensures { result ≡ (found || between low high x) }
{
    found || (low <= x && x <= high)
}

fn answer(opposite: bool, found: bool, next: usize) -> Option<SetRead>
    ensures { result ≡ answered opposite found next }
{
    Some(SetRead {
        taken: found != opposite,
        next,
    })
}

// A set from its first member on; None where it is unclosed or a range falls.
fn set_from(pattern: &[u8], first: usize, opposite: bool, x: u8) -> Option<SetRead>
    requires { NotBar pattern.now first }
    ensures { result ≡ member_start opposite false x first (alternative_at pattern.now first) }
{
    let mut i = first;
    let mut found = false;
    loop {
        match member_at(pattern, i) {
            Some(member) => {
                found = found_in(found, member.low, member.high, x);
                match byte_or_bar(pattern, member.next) {
                    b']' => {
                        return answer(opposite, found, member.next + 1);
                    }
                    b'|' => {
                        return None;
                    }
                    _ => {
                        i = member.next;
                    }
                }
            }
            None => {
                return None;
            }
        }
    }
}

// A set behind its opening bracket.
fn set_at(pattern: &[u8], p: usize, x: u8) -> Option<SetRead>
    requires { p ≤ length pattern.now }
    ensures { result ≡ set_read (set_at (alternative_at pattern.now p)) x p }
{
    match byte_or_bar(pattern, p) {
        b'!' => if byte_or_bar(pattern, p + 1) == b'|' {
            None
        } else {
            set_from(pattern, p + 1, true, x)
        },
        b'|' => None,
        _ => set_from(pattern, p, false, x),
    }
}

// No set is unclosed and no range falls.
pub fn well_formed(pattern: &[u8]) -> bool
    ensures { result ≡ well_formed pattern.now }
{
    let mut p: usize = 0;
    while p < pattern.len() {
        match pattern[p] {
            b'[' => match set_at(pattern, p + 1, 0) {
                Some(set) => {
                    p = set.next;
                }
                None => {
                    return false;
                }
            },
            _ => {
                p += 1;
            }
        }
    }
    true
}

// What a pattern is as it stands.
#[derive(Drop)]
pub enum Form {
    // Every byte stands for itself.
    Plain,
    // Well formed.
    Sound,
    Faulty,
}

pub fn form_of(pattern: &[u8]) -> Form
    ensures { FormIs result pattern.now }
{
    if all_plain(pattern) {
        return Form::Plain;
    }
    if well_formed(pattern) {
        return Form::Sound;
    }
    Form::Faulty
}

// ---- matching

// What to do at a place of the pattern and a place of the value.
#[derive(Drop)]
pub enum Step {
    // All that is left of the value is matched.
    Done,
    // A star with more behind it.
    Star,
    // An element that takes the byte, and the place behind it.
    Eat(usize),
    // No match from here.
    Miss,
    // No match from here, nor from here with fewer bytes.
    Stop,
}

// The set behind an opening bracket, asked of a byte.
fn set_step(pattern: &[u8], p: usize, x: u8) -> Step
    requires { p ≤ length pattern.now }
    ensures { result ≡ set_step (set_read (set_at (alternative_at pattern.now p)) x p) }
{
    match set_at(pattern, p, x) {
        Some(SetRead { taken: true, next }) => Step::Eat(next),
        Some(_) => Step::Miss,
        None => Step::Stop,
    }
}

fn step_at(pattern: &[u8], p: usize, value: &[u8], t: usize) -> Step
    requires { p ≤ length pattern.now }
    ensures { StepIs result pattern.now p value.now t }
{
    let b = byte_or_bar(pattern, p);
    match b {
        b'*' => if byte_or_bar(pattern, p + 1) == b'|' {
            Step::Done
        } else {
            Step::Star
        },
        b'|' => if value.len() <= t {
            Step::Done
        } else {
            Step::Miss
        },
        b'?' => if value.len() <= t {
            Step::Stop
        } else {
            Step::Eat(p + 1)
        },
        b'[' => if value.len() <= t {
            Step::Stop
        } else {
            set_step(pattern, p + 1, value[t])
        },
        _ => byte_step(b, p, value, t),
    }
}

// A byte that stands for itself.
fn byte_step(b: u8, p: usize, value: &[u8], t: usize) -> Step
    requires { p < 2 ^ 63 }
    ensures { result ≡ byte_step b p value.now t }
{
    if value.len() <= t {
        return Step::Stop;
    }
    if b == value[t] {
        return Step::Eat(p + 1);
    }
    Step::Miss
}

// The next place from which what stands behind a star can match.
fn next_start(pattern: &[u8], star: usize, value: &[u8], from: usize) -> usize
    requires { from ≤ length value.now }
    ensures { StartIs result pattern.now star value.now from }
{
    let b = byte_or_bar(pattern, star);
    if is_plain(b) {
        scan::run_end(value, from, Not(b))
    } else {
        from
    }
}

// Whether what stands behind a star matches what is left of the value, or an end of that.
fn after_star(pattern: &[u8], star: usize, value: &[u8], from: usize) -> bool
    requires { (star ≤ length pattern.now) × (from ≤ length value.now) }
    ensures { result ≡ any_suffix (matches_from pattern.now star) (drop from value.now) }
{
    let mut behind = star;
    let mut start = from;
    let mut p = star;
    let mut t = from;
    loop {
        match step_at(pattern, p, value, t) {
            Step::Done => {
                return true;
            }
            Step::Star => {
                behind = p + 1;
                start = t;
                p = behind;
            }
            Step::Eat(next) => {
                p = next;
                t += 1;
            }
            Step::Miss => {
                start = next_start(pattern, behind, value, start + 1);
                p = behind;
                t = start;
            }
            Step::Stop => {
                return false;
            }
        }
    }
}

// Whether what is left of an alternative matches what is left of the value.
fn matches_from(pattern: &[u8], at: usize, value: &[u8], from: usize) -> bool
    requires { (at ≤ length pattern.now) × (from ≤ length value.now) }
    ensures { result ≡ matches_from pattern.now at (drop from value.now) }
{
    let mut p = at;
    let mut t = from;
    loop {
        match step_at(pattern, p, value, t) {
            Step::Done => {
                return true;
            }
            Step::Star => {
                return after_star(pattern, p + 1, value, t);
            }
            Step::Eat(next) => {
                p = next;
                t += 1;
            }
            Step::Miss | Step::Stop => {
                return false;
            }
        }
    }
}

// Whether some alternative matches the value; one with a fault matches nothing.
pub fn matches(pattern: &[u8], value: &[u8]) -> bool
    ensures { result ≡ matches pattern.now value.now }
{
    let mut at: usize = 0;
    loop {
        if matches_from(pattern, at, value, 0) {
            return true;
        }
        let bar = scan::byte_end_seldom(pattern, at, b'|');
        if pattern.len() <= bar {
            return false;
        }
        at = bar + 1;
    }
}
