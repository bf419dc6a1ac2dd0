// The check of a text, a public operation: nothing is run.

#![tactic(auto)]

ghost use Rattle.std.specs.Prelude.{◌≡◌, [], ◌+◌, ◌*◌, ◌≤◌, ◌<◌, length};
ghost use Rattle.lists.specs.Sizes.{most_rules, most_text};
ghost use Rattle.reader.specs.Read.{Lends};
ghost use Rattle.answers.specs.Answers.{answered};
ghost use Rattle.text_check.specs.Check.{check as check_answer};

use answers::Given;

// A text read into room that a caller lends.
fn check_lent(
    text: &[u8],
    values: &mut [u8],
    rows: &mut [u16],
    rules: &mut [u16],
    labels: &mut [u16],
    jumps: &mut [u16],
) -> Given
    requires { (length text.now ≤ most_text → Lends (length text.now) values.old rows.old) × (length rules.old ≡ most_rules * 4) × (length labels.old ≡ most_rules) × (length jumps.old ≡ most_rules) }
    ensures { answered result [] ≡ check_answer text.now }
{
    match reader::read_text(text, values, rows, rules, labels, jumps) {
        Ok(_) => answers::accepted(0, 0, 0),
        Err(fault) => answers::refused(fault.refusal, fault.line),
    }
}

// A text read into room for so many bytes of values and so many numbers of rows.
fn check_in<const VALUES: usize, const ROWS: usize>(text: &[u8]) -> Given
    requires { (length text.now ≤ most_text → length text.now ≤ VALUES) × (VALUES < 65536) × (ROWS < 65536) × ((VALUES + 1) * 4 ≤ ROWS * 7) }
    ensures { answered result [] ≡ check_answer text.now }
{
    let mut values = [0u8; VALUES];
    let mut rows = [0u16; ROWS];
    let mut rules = [0u16; 2048];
    let mut labels = [0u16; 512];
    let mut jumps = [0u16; 512];
    check_lent(
        text,
        &mut values,
        &mut rows,
        &mut rules,
        &mut labels,
        &mut jumps,
    )
}

// Is a text accepted, or why not. Room by the size of the text, as the run has it.
pub fn check(text: &[u8]) -> Given
    ensures { answered result [] ≡ check_answer text.now }
{
    if text.len() <= 2048 {
        return check_in::<2048, 1172>(text);
    }
    if text.len() <= 8192 {
        return check_in::<8192, 4684>(text);
    }
    if text.len() <= 16384 {
        return check_in::<16384, 9364>(text);
    }
    if text.len() <= 24576 {
        return check_in::<24576, 14044>(text);
    }
    check_in::<32768, 18728>(text)
}
