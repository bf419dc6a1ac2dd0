// The rules of a table in order over the records of a device and a target and an answer sheet, with jumps, the visited count and the
// devices tried.

#![tactic(auto)]

ghost use Rattle.std.specs.Prelude.{◌≡◌, true, ◌<◌, length, get_or};
ghost use Rattle.lists.specs.Lists.{is_some};
ghost use Rattle.sheet.specs.Sheet.{decode};
ghost use Rattle.records.specs.Records.{Ready};
ghost use Rattle.runner.specs.Runs.{behind_of, Runnable, RuleRuns, Runs};

use device_lookup::Chain;
use outcome_target::Layout;
use refusals::{LineRefusal, Refusal};
use step::Stepped;

// The layout of the record that a rule left, the rule before which the run goes on, and the devices tried.
#[derive(Clone, Copy)]
pub struct RuleRan {
    pub layout: Layout,
    pub next: usize,
    pub tried: usize,
}

// The layout of the record that is left, the visited count and the devices tried.
#[derive(Clone, Copy)]
pub struct Ended {
    pub layout: Layout,
    pub visited: usize,
    pub tried: usize,
}

// The rule that follows one that matched.
fn behind(jumps: &[u16], i: usize) -> usize
    requires { i < length jumps.now }
    ensures { result ≡ behind_of (get_or jumps.now i 0) i }
{
    let k = table::number_at(jumps, i);
    if k == 0 { i + 1 } else { k - 1 }
}

fn run_rule(
    values: &[u8],
    rows: &[u16],
    rules: &[u16],
    jumps: &[u16],
    count: usize,
    i: usize,
    dev: &[u8],
    chain: Chain,
    sheet: &[u8],
    t: &mut [u8],
    layout: Layout,
) -> Result<RuleRan, Refusal>
    requires { (i < count) × Runnable values.now rows.now rules.now jumps.now count × Ready dev.now chain t.old layout × (is_some (decode sheet.now) ≡ true) }
    ensures { RuleRuns values.now rows.now rules.now count i dev.now chain sheet.now t.old layout t.new result }
{
    let from = table::number_at(rules, i * 4 + 1);
    let to = table::number_at(rules, i * 4 + 2);
    let first = table::number_at(rules, i * 4 + 3);
    let stepped = step::step(values, rows, from, to, first, dev, chain, sheet, t, layout)?;
    match stepped {
        Stepped::Missed(tried) => Ok(RuleRan {
            layout,
            next: i + 1,
            tried,
        }),
        Stepped::Failed(layout, tried) => Ok(RuleRan {
            layout,
            next: i + 1,
            tried,
        }),
        Stepped::Left(layout, tried) => Ok(RuleRan {
            layout,
            next: behind(jumps, i),
            tried,
        }),
    }
}

// All rules of a table over a record that lies in the target, with its layout.
pub fn run_rules(
    values: &[u8],
    rows: &[u16],
    rules: &[u16],
    jumps: &[u16],
    count: usize,
    dev: &[u8],
    chain: Chain,
    sheet: &[u8],
    t: &mut [u8],
    layout: Layout,
) -> Result<Ended, LineRefusal>
    requires { Runnable values.now rows.now rules.now jumps.now count × Ready dev.now chain t.old layout × (is_some (decode sheet.now) ≡ true) }
    ensures { Runs values.now rows.now rules.now count dev.now chain sheet.now t.old layout t.new result }
{
    let mut layout = layout;
    let mut visited: usize = 0;
    let mut tried: usize = 0;
    let mut i: usize = 0;
    // By hand, since a jump moves the index on by more than one.
    while i < count {
        match run_rule(
            values, rows, rules, jumps, count, i, dev, chain, sheet, t, layout,
        ) {
            Ok(ran) => {
                layout = ran.layout;
                visited += 1;
                tried += ran.tried;
                i = ran.next;
            }
            Err(refusal) => return Err(LineRefusal {
                refusal,
                line: table::number_at(rules, i * 4),
            }),
        }
    }
    Ok(Ended {
        layout,
        visited,
        tried,
    })
}
