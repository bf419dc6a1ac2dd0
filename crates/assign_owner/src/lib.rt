// OWNER, GROUP and MODE: the substituted text judged (33, 34, 36) and set.

#![tactic(auto)]

ghost use Rattle.std.specs.Prelude.{◌≡◌, true, ℕ, ◌≤◌};
ghost use Rattle.template.specs.Template.{well_formed};
ghost use Rattle.keys.specs.Table.{operator_of};
ghost use Rattle.outcome_target.specs.Held.{Holds};
ghost use Rattle.records.specs.Records.{Ready, Changes};
ghost use Rattle.assign_owner.specs.Owners.{OwnerJudged, owner_set, AssignedBeside};

use assign_operators::finish;
use device_lookup::Chain;
use keys::Operator;
use outcome_fields::Closable;
use outcome_target::Layout;
use refusals::Refusal;

// The keys that take one substituted text.
#[derive(Drop)]
pub enum Single {
    Owner,
    Group,
    Mode,
}

// ---- a text that was substituted

// An owner or a group that may stand in a record.
fn judge_owner(x: &[u8]) -> Result<(), Refusal>
    ensures { OwnerJudged x.now result }
{
    if x.is_empty() {
        return Err(Refusal::OwnerBad);
    }
    if !content::ok_owner(x) {
        return Err(Refusal::OwnerBad);
    }
    Ok(())
}

fn set_owner(t: &mut [u8], layout: Layout, operator: Operator, x: &[u8]) -> Result<Layout, Refusal>
    requires { Holds t.old layout }
    ensures { Changes (owner_set Single.Owner (operator_of operator) x.now) t.old layout t.new result }
{
    judge_owner(x)?;
    let left = outcome_fields::set_owner(t, layout, x);
    finish(t, Closable::Owner, operator);
    Ok(left)
}

fn set_group(t: &mut [u8], layout: Layout, operator: Operator, x: &[u8]) -> Result<Layout, Refusal>
    requires { Holds t.old layout }
    ensures { Changes (owner_set Single.Group (operator_of operator) x.now) t.old layout t.new result }
{
    judge_owner(x)?;
    let left = outcome_fields::set_group(t, layout, x);
    finish(t, Closable::Group, operator);
    Ok(left)
}

fn set_mode(t: &mut [u8], layout: Layout, operator: Operator, x: &[u8]) -> Result<Layout, Refusal>
    requires { Holds t.old layout }
    ensures { Changes (owner_set Single.Mode (operator_of operator) x.now) t.old layout t.new result }
{
    let mode = content::mode_of(x).ok_or(Refusal::ModeBad)?;
    if content::others_write(mode) {
        return Err(Refusal::ModeShared);
    }
    outcome_fields::set_mode(t, mode);
    finish(t, Closable::Mode, operator);
    Ok(layout)
}

fn set_text(
    t: &mut [u8],
    layout: Layout,
    key: Single,
    operator: Operator,
    x: &[u8],
) -> Result<Layout, Refusal>
    requires { Holds t.old layout }
    ensures { Changes (owner_set key (operator_of operator) x.now) t.old layout t.new result }
{
    match key {
        Single::Owner => set_owner(t, layout, operator, x),
        Single::Group => set_group(t, layout, operator, x),
        Single::Mode => set_mode(t, layout, operator, x),
    }
}

// ---- the assignment

pub fn assign_single(
    t: &mut [u8],
    layout: Layout,
    dev: &[u8],
    chain: Chain,
    place: usize,
    key: Single,
    operator: Operator,
    value: &[u8],
) -> Result<Layout, Refusal>
    requires { Ready dev.now chain t.old layout × (place ≤ chain.len) × (well_formed value.now ≡ true) }
    ensures { AssignedBeside key (operator_of operator) value.now dev.now chain place t.old layout t.new result }
{
    let mut out = [0u8; 512];
    let k = filling::fill(value, dev, chain, place, t, layout, false, &mut out).ok_or(
        Refusal::SubstitutionLong,
    )?;
    set_text(t, layout, key, operator, &out[..k])
}
