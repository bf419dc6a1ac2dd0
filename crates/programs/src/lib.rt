// The PROGRAM and RESULT keys of a rule whose other keys hold, by an answer sheet (document 02, Item 6).

#![tactic(auto)]

ghost use Rattle.std.specs.Prelude.{◌≡◌, true, ◌-◌, ◌≤◌};
ghost use Rattle.lists.specs.Lists.{is_some};
ghost use Rattle.template.specs.Template.{well_formed};
ghost use Rattle.keys.specs.Table.{operator_of};
ghost use Rattle.table.specs.Table.{entry_of, pairs_from, Segment, EntryIn};
ghost use Rattle.outcome.specs.Content.{ok_output};
ghost use Rattle.sheet.specs.Sheet.{decode};
ghost use Rattle.engine.specs.Programs as engine;
ghost use Rattle.outcome_target.specs.Held.{Holds, Changed};
ghost use Rattle.records.specs.Records.{Ready};
ghost use Rattle.assignment.specs.Assignment.{Readable, RuleRows};
ghost use Rattle.programs.specs.Programs.{stored_by, Replies, asked_by, judged_by, result_on, results_on, AsksBeside};

use device_lookup::Chain;
use keys::Operator;
use outcome_target::Layout;
use refusals::Refusal;
use table::Entry;

// The keys that were asked hold, or one of them does not; the record is left in a layout.
#[derive(Clone, Copy)]
pub enum Asked {
    Held(Layout),
    Failed(Layout),
}

// ---- one program

fn program_holds(operator: Operator, success: bool) -> bool
    ensures { result ≡ engine.program_holds (operator_of operator) success }
{
    match operator {
        Operator::Unequal => !success,
        _ => success,
    }
}

// A success stores its output without the newlines at its end; a failure leaves what is stored.
fn store(t: &mut [u8], layout: Layout, success: bool, output: &[u8]) -> Layout
    requires { Holds t.old layout × (ok_output output.now ≡ true) }
    ensures { Changed (stored_by success output.now) t.old layout t.new result }
{
    if !success {
        return layout;
    }
    let len = scan::chomped_len(output);
    outcome_fields::set_output(t, layout, &output[..len])
}

// What the sheet says to a command (35).
fn ask_command(
    t: &mut [u8],
    layout: Layout,
    operator: Operator,
    command: &[u8],
    sheet: &[u8],
) -> Result<Asked, Refusal>
    requires { Holds t.old layout × (is_some (decode sheet.now) ≡ true) }
    ensures { Replies (operator_of operator) command.now sheet.now t.old layout t.new result }
{
    let reply = sheet_check::find(sheet, command).ok_or(Refusal::CommandMissing)?;
    let output = &sheet[reply.start..reply.start + reply.len];
    let left = store(t, layout, reply.success, output);
    if program_holds(operator, reply.success) {
        Ok(Asked::Held(left))
    } else {
        Ok(Asked::Failed(left))
    }
}

// A PROGRAM by its operator and value: its command (30), then what the sheet says.
fn ask(
    t: &mut [u8],
    layout: Layout,
    dev: &[u8],
    chain: Chain,
    place: usize,
    sheet: &[u8],
    operator: Operator,
    value: &[u8],
) -> Result<Asked, Refusal>
    requires { Ready dev.now chain t.old layout × (place ≤ chain.len) × (is_some (decode sheet.now) ≡ true) × (well_formed value.now ≡ true) }
    ensures { AsksBeside (λ a d s. asked_by a d place (operator_of operator) value.now s) sheet.now dev.now chain t.old layout t.new result }
{
    let mut out = [0u8; 512];
    let k = filling::fill(value, dev, chain, place, t, layout, false, &mut out).ok_or(
        Refusal::SubstitutionLong,
    )?;
    ask_command(t, layout, operator, &out[..k], sheet)
}

// ---- the programs of a rule

// One row; only a PROGRAM asks.
fn ask_pair(
    values: &[u8],
    entry: Entry,
    t: &mut [u8],
    layout: Layout,
    dev: &[u8],
    chain: Chain,
    place: usize,
    sheet: &[u8],
) -> Result<Asked, Refusal>
    requires { Readable values.now entry × Ready dev.now chain t.old layout × (place ≤ chain.len) × (is_some (decode sheet.now) ≡ true) }
    ensures { AsksBeside (λ a d s. engine.ask_pair a d place (entry_of values.now entry) s) sheet.now dev.now chain t.old layout t.new result }
{
    if !kinds::is_program(entry.key) {
        return Ok(Asked::Held(layout));
    }
    ask(
        t,
        layout,
        dev,
        chain,
        place,
        sheet,
        entry.operator,
        &values[entry.middle..entry.end],
    )
}

// The rows of a rule from left to right, to the first that does not hold.
fn ask_all(
    values: &[u8],
    rows: &[u16],
    from: usize,
    to: usize,
    t: &mut [u8],
    layout: Layout,
    dev: &[u8],
    chain: Chain,
    place: usize,
    sheet: &[u8],
) -> Result<Asked, Refusal>
    requires { RuleRows values.now rows.now from to × Ready dev.now chain t.old layout × (place ≤ chain.len) × (is_some (decode sheet.now) ≡ true) }
    ensures { AsksBeside (λ a d s. engine.ask_all a d place (pairs_from values.now rows.now from (to - from)) s) sheet.now dev.now chain t.old layout t.new result }
{
    let mut layout = layout;
    for i in from..to {
        let entry = table::pair_at(rows, i);
        let asked = ask_pair(values, entry, t, layout, dev, chain, place, sheet)?;
        match asked {
            Asked::Held(left) => layout = left,
            Asked::Failed(left) => return Ok(Asked::Failed(left)),
        }
    }
    Ok(Asked::Held(layout))
}

// ---- RESULT

// One row on the output that is stored.
fn result_holds(values: &[u8], entry: Entry, output: &[u8]) -> bool
    requires { EntryIn values.now entry }
    ensures { result ≡ result_on output.now (entry_of values.now entry) }
{
    if !kinds::is_result(entry.key) {
        return true;
    }
    match_values::value_holds(
        entry.operator,
        &values[entry.middle..entry.end],
        entry.plain,
        output,
    )
}

fn results_hold(values: &[u8], rows: &[u16], from: usize, to: usize, output: &[u8]) -> bool
    requires { (from ≤ to) × Segment values.now rows.now to }
    ensures { result ≡ results_on output.now (pairs_from values.now rows.now from (to - from)) }
{
    for i in from..to {
        if !result_holds(values, table::pair_at(rows, i), output) {
            return false;
        }
    }
    true
}

// ---- a rule

// The programs of the rule whose rows stand from a place to another, then its RESULT keys.
pub fn ask_rule(
    values: &[u8],
    rows: &[u16],
    from: usize,
    to: usize,
    t: &mut [u8],
    layout: Layout,
    dev: &[u8],
    chain: Chain,
    place: usize,
    sheet: &[u8],
) -> Result<Asked, Refusal>
    requires { RuleRows values.now rows.now from to × Ready dev.now chain t.old layout × (place ≤ chain.len) × (is_some (decode sheet.now) ≡ true) }
    ensures { AsksBeside (λ a d s. judged_by a d place (pairs_from values.now rows.now from (to - from)) s) sheet.now dev.now chain t.old layout t.new result }
{
    let asked = ask_all(values, rows, from, to, t, layout, dev, chain, place, sheet)?;
    match asked {
        Asked::Held(left) => {
            if results_hold(values, rows, from, to, outcome_readers::output_of(t)) {
                Ok(Asked::Held(left))
            } else {
                Ok(Asked::Failed(left))
            }
        }
        Asked::Failed(left) => Ok(Asked::Failed(left)),
    }
}
