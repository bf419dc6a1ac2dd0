// The run, a public operation: the rules of a text over a device record, an outcome record and an answer sheet.

#![tactic(auto)]

ghost use Rattle.std.specs.Prelude.{List, ◌≡◌, true, ℕ, ◌+◌, ◌*◌, ◌≤◌, ◌<◌, length};
ghost use Rattle.lists.specs.Checked.{line as on_line};
ghost use Rattle.lists.specs.Lists.{is_some};
ghost use Rattle.lists.specs.Sizes.{fullest_outcome, most_rules, most_text};
ghost use Rattle.text.specs.Run.{refusal};
ghost use Rattle.sheet.specs.Sheet.{decode};
ghost use Rattle.engine.specs.Operations.{run as run_answer};
ghost use Rattle.refusals.specs.Refusals.{refusal_of};
ghost use Rattle.answers.specs.Answers.{answered};
ghost use Rattle.reader.specs.Read.{Lends};
ghost use Rattle.runner.specs.Runs.{Runnable};
ghost use Rattle.run.specs.Running.{Both, RunOf, Holds};

use answers::Given;
use device_lookup::Chain;
use outcome_target::Layout;
use refusals::Refusal;

// A run that leaves nothing.
fn refuse(why: Refusal, line: usize, target: &mut [u8]) -> Given
    requires { line < 4294967296 }
    ensures { answered result target.new ≡ refusal (length target.old) (on_line line (refusal_of why)) }
{
    splice::clear(target);
    answers::refused(why, line)
}

// The rules of a table over sound records.
fn run_sound(
    values: &[u8],
    rows: &[u16],
    rules: &[u16],
    jumps: &[u16],
    count: usize,
    dev: &[u8],
    chain: Chain,
    sheet: &[u8],
    rec: &[u8],
    layout: Layout,
    t: &mut [u8],
) -> Given
    requires { (fullest_outcome ≤ length t.old) × Runnable values.now rows.now rules.now jumps.now count × Both dev.now rec.now chain layout × (is_some (decode sheet.now) ≡ true) }
    ensures { RunOf values.now rows.now rules.now count dev.now sheet.now rec.now chain layout (length t.old) (answered result t.new) }
{
    outcome_target::load(t, rec);
    match runner::run_rules(
        values, rows, rules, jumps, count, dev, chain, sheet, t, layout,
    ) {
        Ok(ended) => answers::accepted(ended.visited, ended.tried, ended.layout.end),
        Err(fault) => refuse(fault.refusal, fault.line, t),
    }
}

// The rules of a table over a device record, an outcome record and a sheet that was judged: what a run of the text gives that the table
// holds.
pub fn run_table(
    values: &[u8],
    rows: &[u16],
    rules: &[u16],
    jumps: &[u16],
    count: usize,
    device: &[u8],
    outcome: &[u8],
    sheet: &[u8],
    sound: bool,
    target: &mut [u8],
) -> Given
    requires { (fullest_outcome ≤ length target.old) × Runnable values.now rows.now rules.now jumps.now count × (sound ≡ is_some (decode sheet.now)) }
    ensures { (text : List ℕ) → Holds text values.now rows.now rules.now count → answered result target.new ≡ run_answer text device.now outcome.now sheet.now (length target.old) }
{
    if !device_check::check(device) {
        return refuse(Refusal::DeviceBad, 0, target);
    }
    let chain = device_lookup::chain_of(device);
    let Some(layout) = outcome_check::check(outcome, chain.len) else {
        return refuse(Refusal::OutcomeBad, 0, target);
    };
    if !sound {
        return refuse(Refusal::SheetBad, 0, target);
    }
    run_sound(
        values, rows, rules, jumps, count, device, chain, sheet, outcome, layout, target,
    )
}

// The run with room for the text that a caller lends.
fn run_lent(
    text: &[u8],
    values: &mut [u8],
    rows: &mut [u16],
    rules: &mut [u16],
    labels: &mut [u16],
    jumps: &mut [u16],
    device: &[u8],
    outcome: &[u8],
    sheet: &[u8],
    target: &mut [u8],
) -> Given
    requires { (fullest_outcome ≤ length target.old) × (length text.now ≤ most_text → Lends (length text.now) values.old rows.old) × (length rules.old ≡ most_rules * 4) × (length labels.old ≡ most_rules) × (length jumps.old ≡ most_rules) }
    ensures { answered result target.new ≡ run_answer text.now device.now outcome.now sheet.now (length target.old) }
{
    match reader::read_text(text, values, rows, rules, labels, jumps) {
        Ok(counts) => run_table(
            values,
            rows,
            rules,
            jumps,
            counts.rules,
            device,
            outcome,
            sheet,
            sheet_check::check(sheet),
            target,
        ),
        Err(fault) => refuse(fault.refusal, fault.line, target),
    }
}

// The run with room for a text of V bytes, in R numbers of rows. To clear more room than a text needs takes longer than to run a short one.
fn run_sized<const V: usize, const R: usize>(
    text: &[u8],
    device: &[u8],
    outcome: &[u8],
    sheet: &[u8],
    target: &mut [u8],
) -> Given
    requires room { fullest_outcome ≤ length target.old }
    requires fits { length text.now ≤ most_text → length text.now ≤ V }
    requires small { V < 65536 }
    requires enough { (R < 65536) × ((V + 1) * 4 ≤ R * 7) }
    ensures { answered result target.new ≡ run_answer text.now device.now outcome.now sheet.now (length target.old) }
{
    let mut values = [0u8; V];
    let mut rows = [0u16; R];
    let mut rules = [0u16; 2048];
    let mut labels = [0u16; 512];
    let mut jumps = [0u16; 512];
    run_lent(
        text,
        &mut values,
        &mut rows,
        &mut rules,
        &mut labels,
        &mut jumps,
        device,
        outcome,
        sheet,
        target,
    )
}

pub fn run(text: &[u8], device: &[u8], outcome: &[u8], sheet: &[u8], target: &mut [u8]) -> Given
    ensures { answered result target.new ≡ run_answer text.now device.now outcome.now sheet.now (length target.old) }
{
    if target.len() < outcome_target::FULLEST {
        return refuse(Refusal::TargetShort, 0, target);
    }
    if text.len() <= 2048 {
        return run_sized::<2048, 1172>(text, device, outcome, sheet, target);
    }
    if text.len() <= 8192 {
        return run_sized::<8192, 4684>(text, device, outcome, sheet, target);
    }
    if text.len() <= 16384 {
        return run_sized::<16384, 9364>(text, device, outcome, sheet, target);
    }
    if text.len() <= 24576 {
        return run_sized::<24576, 14044>(text, device, outcome, sheet, target);
    }
    run_sized::<32768, 18728>(text, device, outcome, sheet, target)
}
