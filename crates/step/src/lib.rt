// One rule: its match keys, then what programs said, then its assignments.

#![tactic(auto)]

ghost use Rattle.std.specs.Prelude.{◌≡◌, true, ◌-◌, ◌≤◌};
ghost use Rattle.lists.specs.Lists.{is_some};
ghost use Rattle.sheet.specs.Sheet.{decode};
ghost use Rattle.table.specs.Table.{pairs_from};
ghost use Rattle.records.specs.Records.{Ready};
ghost use Rattle.matching.specs.Answers.{asks_in};
ghost use Rattle.assignment.specs.Assignment.{RuleRows};
ghost use Rattle.programs.specs.Programs.{AsksBeside, judged_by};
ghost use Rattle.step.specs.Step.{StepsAt, Steps};

use device_lookup::Chain;
use outcome_target::Layout;
use programs::Asked;
use refusals::Refusal;

// A key of a rule did not hold; its programs or RESULT keys did not, and the record is left in a layout; or the rule left the record in a
// layout. The number is that of the devices tried.
#[derive(Clone, Copy)]
pub enum Stepped {
    Missed(usize),
    Failed(Layout, usize),
    Left(Layout, usize),
}

// The PROGRAM and RESULT keys of a rule whose other keys hold at a place, if it has any.
fn judge(
    values: &[u8],
    rows: &[u16],
    from: usize,
    to: usize,
    dev: &[u8],
    chain: Chain,
    sheet: &[u8],
    t: &mut [u8],
    layout: Layout,
    place: usize,
    asks: bool,
) -> Result<Asked, Refusal>
    requires { RuleRows values.now rows.now from to × Ready dev.now chain t.old layout × (place ≤ chain.len) × (is_some (decode sheet.now) ≡ true) × (asks ≡ asks_in (pairs_from values.now rows.now from (to - from))) }
    ensures { AsksBeside (λ a d s. judged_by a d place (pairs_from values.now rows.now from (to - from)) s) sheet.now dev.now chain t.old layout t.new result }
{
    if !asks {
        return Ok(Asked::Held(layout));
    }
    programs::ask_rule(values, rows, from, to, t, layout, dev, chain, place, sheet)
}

// A rule whose keys other than PROGRAM and RESULT hold at a place.
fn step_at(
    values: &[u8],
    rows: &[u16],
    from: usize,
    to: usize,
    dev: &[u8],
    chain: Chain,
    sheet: &[u8],
    t: &mut [u8],
    layout: Layout,
    place: usize,
    asks: bool,
) -> Result<Stepped, Refusal>
    requires { RuleRows values.now rows.now from to × Ready dev.now chain t.old layout × (place ≤ chain.len) × (is_some (decode sheet.now) ≡ true) × (asks ≡ asks_in (pairs_from values.now rows.now from (to - from))) }
    ensures { StepsAt values.now rows.now from to dev.now chain sheet.now t.old layout place t.new result }
{
    let asked = judge(
        values, rows, from, to, dev, chain, sheet, t, layout, place, asks,
    )?;
    match asked {
        Asked::Held(held) => match assignment::assign_all(
            values, rows, from, to, t, held, dev, chain, place,
        ) {
            Ok(left) => Ok(Stepped::Left(left, place)),
            Err(refusal) => Err(refusal),
        },
        Asked::Failed(left) => Ok(Stepped::Failed(left, place)),
    }
}

// The rule whose rows stand from a place to another.
pub fn step(
    values: &[u8],
    rows: &[u16],
    from: usize,
    to: usize,
    first: usize,
    dev: &[u8],
    chain: Chain,
    sheet: &[u8],
    t: &mut [u8],
    layout: Layout,
) -> Result<Stepped, Refusal>
    requires { RuleRows values.now rows.now from to × Ready dev.now chain t.old layout × (is_some (decode sheet.now) ≡ true) }
    ensures { Steps values.now rows.now from to dev.now chain sheet.now t.old layout t.new result }
{
    match matching::match_rule(values, rows, from, to, first, dev, chain, t, layout) {
        Ok(matched) => step_at(
            values,
            rows,
            from,
            to,
            dev,
            chain,
            sheet,
            t,
            layout,
            matched.place,
            matched.asks,
        ),
        Err(tried) => Ok(Stepped::Missed(tried)),
    }
}
