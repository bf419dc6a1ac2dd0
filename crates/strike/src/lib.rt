// The striker, a public operation: the lines with faults struck from a text, and the list of what was struck (document 02, Item 12).

#![tactic(auto)]

ghost use Rattle.std.specs.Prelude.{List, ◌≡◌, ℕ, ◌+◌, ◌*◌, ◌/◌, ◌≤◌, ◌<◌, length, replicate};
ghost use Rattle.lists.specs.Checked.{refused as refused_by, line};
ghost use Rattle.lists.specs.Sizes.{most_rules, most_text};
ghost use Rattle.refusals.specs.Refusals.{refusal_of};
ghost use Rattle.rules.specs.Reading.{reader};
ghost use Rattle.striking.specs.Striking.{most_strikes, strike_answer, strike as whole_strike};
ghost use Rattle.reader.specs.Read.{Lends};
ghost use Rattle.left_lines.specs.Left.{AllLeft};
ghost use Rattle.strike.specs.Struck.{struck_of};

use answers::Given;
use left_lines::Left;
use refusals::Refusal;

// What is given back beside the target and the list: the numbers, and how many lines were struck.
#[derive(Drop)]
pub struct Struck {
    pub given: Given,
    pub count: u32,
}

// Every number becomes zero.
fn clear_numbers(list: &mut [u16])
    ensures { list.new ≡ replicate (length list.old) 0 }
{
    for n in list.iter_mut() {
        *n = 0;
    }
}

fn refuse(why: Refusal, target: &mut [u8], list: &mut [u16]) -> Struck
    ensures { struck_of result target.new list.new ≡ strike_answer (length target.old) (length list.old) (refused_by (line 0 (refusal_of why))) }
{
    splice::clear(target);
    clear_numbers(list);
    Struck {
        given: answers::refused(why, 0),
        count: 0,
    }
}

// How many lines a list of so many numbers holds.
fn lines_in(listed: usize) -> u32
    requires { listed ≤ most_strikes * 2 }
    ensures { result ≡ listed / 2 }
{
    (listed / 2) as u32
}

// What is given back once all lines are left: behind the text and the list there are zeros.
fn give_left(target: &mut [u8], list: &mut [u16], left: Left) -> Struck
    requires { (text : List ℕ) × (length text ≤ most_text) × AllLeft text list.old target.old left }
    ensures { (text : List ℕ) (room places : ℕ) → length text ≤ most_text → most_text ≤ room → most_strikes * 2 ≤ places → length target.old ≡ room → length list.old ≡ places → AllLeft text list.old target.old left → struck_of result target.new list.new ≡ whole_strike reader text room places }
{
    splice::clear(&mut target[left.used..]);
    clear_numbers(&mut list[left.listed..]);
    Struck {
        given: answers::accepted(0, 0, left.used),
        count: lines_in(left.listed),
    }
}

// The striker with room for the text that a caller lends.
fn strike_lent(
    text: &[u8],
    values: &mut [u8],
    rows: &mut [u16],
    rules: &mut [u16],
    labels: &mut [u16],
    target: &mut [u8],
    list: &mut [u16],
) -> Struck
    requires { (length text.now ≤ most_text) × (most_text ≤ length target.old) × (most_strikes * 2 ≤ length list.old) × Lends (length text.now) values.old rows.old × (length rules.old ≡ most_rules * 4) × (length labels.old ≡ most_rules) }
    ensures { struck_of result target.new list.new ≡ whole_strike reader text.now (length target.old) (length list.old) }
{
    let noted = reader::note_lines(text, values, rows, rules, labels, list);
    let counts = noted.counts;
    lost_jumps::strike_jumps(values, rows, rules, labels, counts.rules);
    let left = left_lines::leave_lines(text, rules, list, noted.used, target);
    give_left(target, list, left)
}

// The striker with room for so many bytes of values and so many numbers of rows.
fn strike_in<const VALUES: usize, const ROWS: usize>(
    text: &[u8],
    target: &mut [u8],
    list: &mut [u16],
) -> Struck
    requires { (length text.now ≤ most_text) × (most_text ≤ length target.old) × (most_strikes * 2 ≤ length list.old) × (length text.now ≤ VALUES) × (VALUES < 65536) × (ROWS < 65536) × ((VALUES + 1) * 4 ≤ ROWS * 7) }
    ensures { struck_of result target.new list.new ≡ whole_strike reader text.now (length target.old) (length list.old) }
{
    let mut values = [0u8; VALUES];
    let mut rows = [0u16; ROWS];
    let mut rules = [0u16; 2048];
    let mut labels = [0u16; 512];
    strike_lent(
        text,
        &mut values,
        &mut rows,
        &mut rules,
        &mut labels,
        target,
        list,
    )
}

// Room by the size of the text, as the run has it.
pub fn strike(text: &[u8], target: &mut [u8], list: &mut [u16]) -> Struck
    ensures { struck_of result target.new list.new ≡ whole_strike reader text.now (length target.old) (length list.old) }
{
    if target.len() < 32768 {
        return refuse(Refusal::TargetShort, target, list);
    }
    if list.len() < 32768 {
        return refuse(Refusal::TargetShort, target, list);
    }
    if 32768 < text.len() {
        return refuse(Refusal::TextLong, target, list);
    }
    if text.len() <= 2048 {
        return strike_in::<2048, 1172>(text, target, list);
    }
    if text.len() <= 8192 {
        return strike_in::<8192, 4684>(text, target, list);
    }
    if text.len() <= 16384 {
        return strike_in::<16384, 9364>(text, target, list);
    }
    if text.len() <= 24576 {
        return strike_in::<24576, 14044>(text, target, list);
    }
    strike_in::<32768, 18728>(text, target, list)
}
