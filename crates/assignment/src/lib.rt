// The assignments of a rule that matched, from left to right.

#![tactic(auto)]

ghost use Rattle.std.specs.Prelude.{◌≡◌, false, ◌≤◌};
ghost use Rattle.keys.specs.Table.{operator_of};
ghost use Rattle.rules.specs.Key as rules;
ghost use Rattle.records.specs.Records.{Ready};
ghost use Rattle.assignment.specs.Assignment.{RuleRows, Readable, PairAssigned, AllAssigned};

use assign_env::Escape;
use assign_key::Work;
use device_lookup::Chain;
use keys::Operator;
use outcome_target::Layout;
use refusals::Refusal;
use table::Entry;

fn is_match(operator: Operator) -> bool
    ensures { result ≡ rules.is_match (operator_of operator) }
{
    matches!(operator, Operator::Equal | Operator::Unequal)
}

// One row that is an assignment.
fn assign_pair(
    values: &[u8],
    entry: Entry,
    t: &mut [u8],
    work: Work,
    dev: &[u8],
    chain: Chain,
    place: usize,
) -> Result<Work, Refusal>
    requires { Readable values.now entry × (rules.is_match (operator_of entry.operator) ≡ false) × Ready dev.now chain t.old work.layout × (place ≤ chain.len) }
    ensures { PairAssigned values.now entry dev.now chain place t.old work t.new result }
{
    assign_key::assign(
        t,
        work,
        dev,
        chain,
        place,
        entry.key,
        entry.operator,
        &values[entry.start..entry.middle],
        &values[entry.middle..entry.end],
    )
}

// The rows of a rule, from a place to another; a match asks nothing here.
pub fn assign_all(
    values: &[u8],
    rows: &[u16],
    from: usize,
    to: usize,
    t: &mut [u8],
    layout: Layout,
    dev: &[u8],
    chain: Chain,
    place: usize,
) -> Result<Layout, Refusal>
    requires { RuleRows values.now rows.now from to × Ready dev.now chain t.old layout × (place ≤ chain.len) }
    ensures { AllAssigned values.now rows.now from to dev.now chain place t.old layout t.new result }
{
    let mut work = Work {
        layout,
        escape: Escape::Unset,
    };
    for i in from..to {
        let entry = table::pair_at(rows, i);
        if is_match(entry.operator) {
            continue;
        }
        work = assign_pair(values, entry, t, work, dev, chain, place)?;
    }
    Ok(work.layout)
}
