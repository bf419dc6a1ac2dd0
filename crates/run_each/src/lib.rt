// A text run over each record of a lent set, a public operation: the text is read once, the sheet judged once.

#![tactic(auto)]

ghost use Rattle.std.specs.Prelude.{List, [], ◌≡◌, ℕ, ◌+◌, ◌*◌, ◌≤◌, ◌<◌, length};
ghost use Rattle.lists.specs.Lists.{is_some};
ghost use Rattle.lists.specs.Sizes.{fullest_outcome, most_rules, most_text};
ghost use Rattle.splice.specs.Moves.{stored};
ghost use Rattle.sheet.specs.Sheet.{decode};
ghost use Rattle.engine.specs.Operations.{run as run_answer};
ghost use Rattle.refusals.specs.Refusals.{refusal_of};
ghost use Rattle.answers.specs.Answers.{answered};
ghost use Rattle.sets.specs.Answer.{of_set, refusal};
ghost use Rattle.set_answers.specs.Answers.{answered as answered_set};
ghost use Rattle.numbers.specs.Numbers.{numbers};
ghost use Rattle.reader.specs.Read.{Lends};
ghost use Rattle.each.specs.Each.{each_answer};
ghost use Rattle.run_each.specs.Runs.{Noted, Readable, ReadAs, Going, RunsIn, wrote};

use answers::Given;
use outcome_target::FULLEST;
use reader::Counts;
use refusals::{LineRefusal, Refusal};

// ---- the numbers of runs

// How many an answer has.
const NUMBERS: usize = 8;

// The numbers that a run gave.
fn put_numbers(t: &mut [u32], at: usize, given: Given)
    requires { at + 8 ≤ length t.old }
    ensures { t.new ≡ stored t.old at (numbers (answered given [])) }
{
    let row = [
        given.number,
        given.line,
        given.visited,
        given.used,
        given.tried,
        0,
        0,
        0,
    ];
    t[at..at + NUMBERS].copy_from_slice(&row);
}

// ---- the runs

// A text that was read, over one record beside its device.
fn run_read(
    read: Result<Counts, LineRefusal>,
    values: &[u8],
    rows: &[u16],
    rules: &[u16],
    jumps: &[u16],
    device: &[u8],
    outcome: &[u8],
    sheet: &[u8],
    sound: bool,
    target: &mut [u8],
) -> Given
    requires { (fullest_outcome ≤ length target.old) × Readable values.now rows.now rules.now jumps.now read × (sound ≡ is_some (decode sheet.now)) }
    ensures { (text : List ℕ) → ReadAs text values.now rows.now rules.now read → answered result target.new ≡ run_answer text device.now outcome.now sheet.now (length target.old) }
{
    match read {
        Ok(counts) => run::run_table(
            values,
            rows,
            rules,
            jumps,
            counts.rules,
            device,
            outcome,
            sheet,
            sound,
            target,
        ),
        Err(fault) => {
            splice::clear(target);
            answers::refused(fault.refusal, fault.line)
        }
    }
}

// The same over each of the n records of a set, each with room of its own; zeros behind the last.
fn run_records(
    read: Result<Counts, LineRefusal>,
    values: &[u8],
    rows: &[u16],
    rules: &[u16],
    jumps: &[u16],
    set: &[u8],
    n: usize,
    sheet: &[u8],
    sound: bool,
    targets: &mut [u8],
    answers: &mut [u32],
)
    requires { Going set.now n targets.old answers.old × Readable values.now rows.now rules.now jumps.now read × (sound ≡ is_some (decode sheet.now)) }
    ensures { (text : List ℕ) → ReadAs text values.now rows.now rules.now read → RunsIn text set.now sheet.now (length targets.old) (length answers.old) targets.new answers.new }
{
    let mut p = 1;
    for i in 0..n {
        let place = set_rows::lent_in(set, p);
        let start = i * FULLEST;
        let end = start + FULLEST;
        let given = run_read(
            read,
            values,
            rows,
            rules,
            jumps,
            set_rows::bytes_of(set, place.device),
            set_rows::bytes_of(set, place.outcome),
            sheet,
            sound,
            &mut targets[start..end],
        );
        put_numbers(answers, i * NUMBERS, given);
        p = place.outcome.end;
    }
    splice::clear(&mut targets[n * FULLEST..]);
}

// ---- room for the text

// The row of each rule's ACTION is noted, if the text is accepted.
fn note_actions(read: Result<Counts, LineRefusal>, rows: &[u16], rules: &mut [u16])
    requires { (v : List ℕ) × ((js : List ℕ) × Readable v rows.now rules.old js read) }
    ensures { Noted rows.now rules.old rules.new read }
{
    match read {
        Ok(counts) => action_rows::put_actions(rows, rules, counts.rules),
        Err(_) => {}
    }
}

// The runs with room for the text that a caller lends.
fn each_lent(
    text: &[u8],
    values: &mut [u8],
    rows: &mut [u16],
    rules: &mut [u16],
    labels: &mut [u16],
    jumps: &mut [u16],
    set: &[u8],
    n: usize,
    sheet: &[u8],
    targets: &mut [u8],
    answers: &mut [u32],
)
    requires { Going set.now n targets.old answers.old × (length text.now ≤ most_text → Lends (length text.now) values.old rows.old) × (length rules.old ≡ most_rules * 4) × (length labels.old ≡ most_rules) × (length jumps.old ≡ most_rules) }
    ensures { RunsIn text.now set.now sheet.now (length targets.old) (length answers.old) targets.new answers.new }
{
    let read = reader::read_text(text, values, rows, rules, labels, jumps);
    note_actions(read, rows, rules);
    run_records(
        read,
        values,
        rows,
        rules,
        jumps,
        set,
        n,
        sheet,
        sheet_check::check(sheet),
        targets,
        answers,
    );
}

// The runs with room for a text of V bytes, in R numbers of rows, which is cleared once for all records.
fn each_sized<const V: usize, const R: usize>(
    text: &[u8],
    set: &[u8],
    n: usize,
    sheet: &[u8],
    targets: &mut [u8],
    answers: &mut [u32],
)
    requires going { Going set.now n targets.old answers.old }
    requires fits { length text.now ≤ most_text → length text.now ≤ V }
    requires small { V < 65536 }
    requires enough { (R < 65536) × ((V + 1) * 4 ≤ R * 7) }
    ensures { RunsIn text.now set.now sheet.now (length targets.old) (length answers.old) targets.new answers.new }
{
    let mut values = [0u8; V];
    let mut rows = [0u16; R];
    let mut rules = [0u16; 2048];
    let mut labels = [0u16; 512];
    let mut jumps = [0u16; 512];
    each_lent(
        text,
        &mut values,
        &mut rows,
        &mut rules,
        &mut labels,
        &mut jumps,
        set,
        n,
        sheet,
        targets,
        answers,
    );
}

// Room by the size of the text.
fn each_text(
    text: &[u8],
    set: &[u8],
    n: usize,
    sheet: &[u8],
    targets: &mut [u8],
    answers: &mut [u32],
)
    requires { Going set.now n targets.old answers.old }
    ensures { RunsIn text.now set.now sheet.now (length targets.old) (length answers.old) targets.new answers.new }
{
    if text.len() <= 8192 {
        each_sized::<8192, 4684>(text, set, n, sheet, targets, answers);
    } else {
        each_sized::<32768, 18728>(text, set, n, sheet, targets, answers);
    }
}

// ---- the operation

// A set that does not run at all.
fn refuse(why: Refusal, targets: &mut [u8]) -> set_answers::Given
    ensures { answered_set result targets.new ≡ refusal (length targets.old) (of_set (refusal_of why)) }
{
    splice::clear(targets);
    set_answers::refused(why, 0, 0)
}

pub fn run_each(
    text: &[u8],
    set: &[u8],
    sheet: &[u8],
    targets: &mut [u8],
    answers: &mut [u32],
) -> set_answers::Given
    ensures { wrote result targets.new answers.new ≡ each_answer text.now set.now sheet.now (length targets.old) (length answers.old) }
{
    answers.fill(0);
    if !set_rows::check_lent(set) {
        return refuse(Refusal::SetBad, targets);
    }
    let n = set_rows::count_of(set);
    if targets.len() < n * FULLEST {
        return refuse(Refusal::TargetShort, targets);
    }
    if answers.len() < n * NUMBERS {
        return refuse(Refusal::TargetShort, targets);
    }
    each_text(text, set, n, sheet, targets, answers);
    set_answers::accepted(0, 0, 0, n)
}
