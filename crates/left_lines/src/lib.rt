// The text that is left once lines with faults are struck, and the list of strikes (document 02, Item 12): from what is noted of the lines of a text,
// and from the rules of its table.

#![tactic(auto)]

ghost use Rattle.std.specs.Prelude.{◌≡◌, List, ◌∷◌, ℕ, ◌+◌, ◌-◌, ◌*◌, ◌≤◌, ◌<◌, length, replicate};
ghost use Rattle.lists.specs.Checked.{Placed, line};
ghost use Rattle.lists.specs.Sizes.{most_text};
ghost use Rattle.lists.specs.Bytes.{part};
ghost use Rattle.text.specs.Engine.{LineRead};
ghost use Rattle.text.specs.Lines.{newlines as newlines_in};
ghost use Rattle.rules.specs.Pair.{Rule};
ghost use Rattle.lines.specs.Ends.{end_from};
ghost use Rattle.table.specs.Puts.{Added};
ghost use Rattle.left_lines.specs.Left.{After, Unread, FateIs, next_of, left_bytes, strike_at, Listed, Leaves, LeftIs, AllLeft};

use lines::Extent;

// ---- a line

// Where a line ends, and how many newlines it joins.
fn extent_of(text: &[u8], at: usize) -> Extent
    requires { at ≤ length text.now }
    ensures { (result.end ≡ end_from text.now at) × (newlines_in (part text.now at result.end) ≡ result.newlines) }
{
    match lines::joined_end(text, at) {
        Ok(extent) => extent,
        Err(extent) => extent,
    }
}

// The number of a line's fault, or 0 where it is kept; and what is noted behind it.
#[derive(Drop)]
pub struct Fate {
    pub fault: usize,
    pub read: usize,
    pub rule: usize,
}

// What is noted of a line, of the notes up to a place and the rules from a number on.
fn fate_of(list: &[u16], read: usize, end: usize, rules: &[u16], rule: usize, number: usize) -> Fate
    requires { (0 < number) × ((y : LineRead Rule) × ((ys : List (Placed (LineRead Rule))) × After number ys × Unread rules.now list.now read end rule (line number y ∷ ys))) }
    ensures { (y : LineRead Rule) (ys : List (Placed (LineRead Rule))) → After number ys → Unread rules.now list.now read end rule (line number y ∷ ys) → FateIs rules.now list.now read end y ys result }
{
    if end <= read {
        return Fate {
            fault: 0,
            read,
            rule,
        };
    }
    if table::number_at(list, read) != number {
        return Fate {
            fault: 0,
            read,
            rule,
        };
    }
    let fault = table::number_at(list, read + 1);
    if fault != 0 {
        return Fate {
            fault,
            read: read + 2,
            rule,
        };
    }
    if table::number_at(rules, rule * 4) == 0 {
        return Fate {
            fault: 19,
            read: read + 2,
            rule: rule + 1,
        };
    }
    Fate {
        fault: 0,
        read: read + 2,
        rule: rule + 1,
    }
}

// ---- what is left of it

// The place behind a line's newline, or the end of the text.
fn next_of(text: &[u8], end: usize) -> usize
    requires { end ≤ length text.now }
    ensures { result ≡ next_of text.now end }
{
    if end < text.len() { end + 1 } else { end }
}

fn put_newlines(target: &mut [u8], used: usize, n: usize)
    requires { used + n ≤ length target.old }
    ensures { Added (replicate n 10) used target.old target.new }
{
    for i in 0..n {
        target[used + i] = b'\n';
    }
}

// Puts a line, or only its newlines, behind the first `used` bytes.
fn put_left(
    text: &[u8],
    at: usize,
    line: Extent,
    fault: usize,
    target: &mut [u8],
    used: usize,
) -> usize
    requires { (at ≤ line.end) × (line.end ≤ length text.now) × (line.newlines ≤ line.end - at) × (used + (next_of text.now line.end - at) ≤ length target.old) }
    ensures { (result ≡ used + length (left_bytes text.now at line.end line.newlines fault)) × Added (left_bytes text.now at line.end line.newlines fault) used target.old target.new }
{
    let end = line.end;
    let next = next_of(text, end);
    if fault == 0 {
        splice::store(target, used, &text[at..next]);
        return used + (next - at);
    }
    let n = line.newlines + (next - end);
    put_newlines(target, used, n);
    used + n
}

// Puts a line that is struck into the list of strikes.
fn put_strike(list: &mut [u16], used: usize, number: usize, fault: usize) -> usize
    requires { (used + length (strike_at number fault) ≤ length list.old) × (number < 65536) × (fault < 65536) }
    ensures { Listed number fault used list.old list.new result }
{
    if fault == 0 {
        return used;
    }
    reader::put_note(list, used, number, fault)
}

// ---- the lines of a text

// Where the next line begins, its number, the notes and the rules that are read, the bytes of the text and the numbers of the list that are put.
#[derive(Drop)]
pub struct Left {
    pub at: usize,
    pub number: usize,
    pub read: usize,
    pub rule: usize,
    pub used: usize,
    pub listed: usize,
}

fn leave_line(
    text: &[u8],
    rules: &[u16],
    list: &mut [u16],
    end: usize,
    target: &mut [u8],
    left: Left,
) -> Left
    requires { (left.at ≤ length text.now) × Leaves text.now rules.now list.old target.old end left }
    ensures { LeftIs text.now left.at rules.now list.new target.new end result }
{
    let at = left.at;
    let line = extent_of(text, at);
    let fate = fate_of(list, left.read, end, rules, left.rule, left.number);
    let used = put_left(text, at, line, fate.fault, target, left.used);
    let listed = put_strike(list, left.listed, left.number, fate.fault);
    Left {
        at: line.end + 1,
        number: left.number + line.newlines + 1,
        read: fate.read,
        rule: fate.rule,
        used,
        listed,
    }
}

// Goes over all lines. The list of strikes takes the place of the notes.
pub fn leave_lines(
    text: &[u8],
    rules: &[u16],
    list: &mut [u16],
    end: usize,
    target: &mut [u8],
) -> Left
    requires { Leaves text.now rules.now list.old target.old end (record { at = 0; number = 1; read = 0; rule = 0; used = 0; listed = 0 }) }
    ensures { AllLeft text.now list.new target.new result }
{
    let mut left = Left {
        at: 0,
        number: 1,
        read: 0,
        rule: 0,
        used: 0,
        listed: 0,
    };
    while left.at <= text.len() {
        left = leave_line(text, rules, list, end, target, left);
    }
    left
}
