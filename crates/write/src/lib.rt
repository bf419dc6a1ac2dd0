// The writer, a public operation: the rules of a text written back (document 02, Item 2).

#![tactic(auto)]

ghost use Rattle.std.specs.Prelude.{List, ◌≡◌, ℕ, ◌+◌, ◌*◌, ◌≤◌, ◌<◌, length};
ghost use Rattle.lists.specs.Checked.{ok};
ghost use Rattle.lists.specs.Sizes.{most_rules, most_text};
ghost use Rattle.text.specs.Reading.{read_text};
ghost use Rattle.rules.specs.Reading.{reader};
ghost use Rattle.writing.specs.Writing.{written, write as write_answer};
ghost use Rattle.answers.specs.Answers.{answered};
ghost use Rattle.reader.specs.Read.{Lends};
ghost use Rattle.table.specs.Table.{rules_from};
ghost use Rattle.rule_writing.specs.Tables.{RulesIn};

use answers::Given;
use refusals::Refusal;

// The rules of a table written back: what the writer gives for the text that the table holds.
fn write_table(values: &[u8], rows: &[u16], rules: &[u16], count: usize, target: &mut [u8]) -> Given
    requires { (most_text ≤ length target.old) × RulesIn values.now rows.now rules.now count × (length (written (rules_from values.now rows.now rules.now 0 count)) ≤ most_text + 1) }
    ensures { (text : List ℕ) → read_text reader text ≡ ok (rules_from values.now rows.now rules.now 0 count) → answered result target.new ≡ write_answer text (length target.old) }
{
    match rule_writing::put_rules(target, values, rows, rules, count) {
        Some(used) => {
            splice::clear(&mut target[used..]);
            answers::accepted(0, 0, used)
        }
        None => {
            splice::clear(target);
            answers::refused(Refusal::TextLong, 0)
        }
    }
}

// The writer with room for the text that a caller lends.
fn write_lent(
    text: &[u8],
    values: &mut [u8],
    rows: &mut [u16],
    rules: &mut [u16],
    labels: &mut [u16],
    jumps: &mut [u16],
    target: &mut [u8],
) -> Given
    requires { (most_text ≤ length target.old) × (length text.now ≤ most_text → Lends (length text.now) values.old rows.old) × (length rules.old ≡ most_rules * 4) × (length labels.old ≡ most_rules) × (length jumps.old ≡ most_rules) }
    ensures { answered result target.new ≡ write_answer text.now (length target.old) }
{
    match reader::read_text(text, values, rows, rules, labels, jumps) {
        Ok(counts) => write_table(values, rows, rules, counts.rules, target),
        Err(fault) => {
            splice::clear(target);
            answers::refused(fault.refusal, fault.line)
        }
    }
}

// The writer with room for so many bytes of values and so many numbers of rows.
fn write_in<const VALUES: usize, const ROWS: usize>(text: &[u8], target: &mut [u8]) -> Given
    requires { (most_text ≤ length target.old) × (length text.now ≤ most_text → length text.now ≤ VALUES) × (VALUES < 65536) × (ROWS < 65536) × ((VALUES + 1) * 4 ≤ ROWS * 7) }
    ensures { answered result target.new ≡ write_answer text.now (length target.old) }
{
    let mut values = [0u8; VALUES];
    let mut rows = [0u16; ROWS];
    let mut rules = [0u16; 2048];
    let mut labels = [0u16; 512];
    let mut jumps = [0u16; 512];
    write_lent(
        text,
        &mut values,
        &mut rows,
        &mut rules,
        &mut labels,
        &mut jumps,
        target,
    )
}

// Room by the size of the text, as the run has it.
pub fn write(text: &[u8], target: &mut [u8]) -> Given
    ensures { answered result target.new ≡ write_answer text.now (length target.old) }
{
    if target.len() < 32768 {
        splice::clear(target);
        return answers::refused(Refusal::TargetShort, 0);
    }
    if text.len() <= 2048 {
        return write_in::<2048, 1172>(text, target);
    }
    if text.len() <= 8192 {
        return write_in::<8192, 4684>(text, target);
    }
    if text.len() <= 16384 {
        return write_in::<16384, 9364>(text, target);
    }
    if text.len() <= 24576 {
        return write_in::<24576, 14044>(text, target);
    }
    write_in::<32768, 18728>(text, target)
}
