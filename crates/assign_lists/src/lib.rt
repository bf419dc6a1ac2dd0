// TAG and RUN: the change of a list that asks for no substitution; an entry added or removed by the operator.

#![tactic(auto)]

ghost use Rattle.std.specs.Prelude.{◌≡◌, true, ℕ, ◌≤◌, length};
ghost use Rattle.lists.specs.Bytes.{clean};
ghost use Rattle.lists.specs.Sizes.{most_tag, most_value, most_chain};
ghost use Rattle.template.specs.Template.{well_formed};
ghost use Rattle.keys.specs.Table.{operator_of};
ghost use Rattle.engine.specs.Assign.{change_entry, change_tags};
ghost use Rattle.outcome.specs.Change.{with_tags, with_runs};
ghost use Rattle.outcome_target.specs.Held.{Holds, Edited, HoldsIf, EditedIf};
ghost use Rattle.outcome_target.specs.Texts.{ok_of, most_of, texts_in, with_texts};
ghost use Rattle.assign_lists.specs.Lists.{queued_runs, TagAssigned, RunAssigned};

use assign_operators::{begin, finish};
use keys::Operator;
use outcome_fields::Closable;
use outcome_target::{Layout, Section, Texts};
use refusals::Refusal;

// ---- one entry

pub fn change_entry(
    t: &mut [u8],
    layout: Layout,
    list: Texts,
    operator: Operator,
    x: &[u8],
) -> Option<Layout>
    requires { Holds t.old layout × (ok_of list x.now ≡ true) }
    ensures { Edited (with_texts list) (λ s. change_entry (operator_of operator) (most_of list) x.now (texts_in list s)) t.old layout t.new result }
{
    match operator {
        Operator::Remove => Some(outcome_lists::remove(t, layout, list, x)),
        _ => outcome_lists::add(t, layout, list, x),
    }
}

// ---- TAG

// An empty value adds and removes nothing.
fn change_tags(t: &mut [u8], layout: Layout, operator: Operator, value: &[u8]) -> Option<Layout>
    requires { Holds t.old layout × (clean value.now ≡ true) × (length value.now ≤ most_tag) }
    ensures { Edited with_tags (λ s. change_tags (operator_of operator) value.now s.tags) t.old layout t.new result }
{
    if value.is_empty() {
        return Some(layout);
    }
    change_entry(t, layout, Texts::Tags, operator, value)
}

pub fn assign_tag(
    t: &mut [u8],
    layout: Layout,
    operator: Operator,
    value: &[u8],
) -> Result<Layout, Refusal>
    requires { Holds t.old layout × (clean value.now ≡ true) × (length value.now ≤ most_tag) }
    ensures { TagAssigned (operator_of operator) value.now t.old layout t.new result }
{
    let begun = begin(t, layout, Section::Tags, operator);
    let left = change_tags(t, begun, operator, value).ok_or(Refusal::ListFull)?;
    finish(t, Closable::Tags, operator);
    Ok(left)
}

// ---- RUN

// Added whether or not it is there; an empty value adds nothing.
fn change_runs(
    t: &mut [u8],
    layout: Layout,
    builtin: bool,
    place: usize,
    value: &[u8],
) -> Option<Layout>
    requires { HoldsIf (λ n. place ≤ n) t.old layout × (place ≤ most_chain) × (clean value.now ≡ true) × (length value.now ≤ most_value) × (well_formed value.now ≡ true) }
    ensures { EditedIf (λ n. place ≤ n) with_runs (λ s. queued_runs builtin place value.now s.runs) t.old layout t.new result }
{
    if value.is_empty() {
        return Some(layout);
    }
    outcome_lists::add_run(t, layout, builtin, place, value)
}

pub fn assign_run(
    t: &mut [u8],
    layout: Layout,
    operator: Operator,
    builtin: bool,
    place: usize,
    value: &[u8],
) -> Result<Layout, Refusal>
    requires { HoldsIf (λ n. place ≤ n) t.old layout × (place ≤ most_chain) × (clean value.now ≡ true) × (length value.now ≤ most_value) × (well_formed value.now ≡ true) }
    ensures { RunAssigned (operator_of operator) builtin place value.now t.old layout t.new result }
{
    let begun = begin(t, layout, Section::Runs, operator);
    let left = change_runs(t, begun, builtin, place, value).ok_or(Refusal::ListFull)?;
    finish(t, Closable::Runs, operator);
    Ok(left)
}
