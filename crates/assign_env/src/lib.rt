// ENV: a property set to a value as it is written, or removed by the empty one.

#![tactic(auto)]

ghost use Rattle.std.specs.Prelude.{◌≡◌, true, ℕ, ◌≤◌, length};
ghost use Rattle.lists.specs.Bytes.{clean, ok_text};
ghost use Rattle.lists.specs.Sizes.{most_key, most_value};
ghost use Rattle.outcome_target.specs.Held.{Holds, Edited};
ghost use Rattle.outcome.specs.Change.{with_properties};
ghost use Rattle.outcome.specs.Edits.{set_property};
ghost use Rattle.engine.specs.Assign.{clean_value, change_properties};
ghost use Rattle.assign_env.specs.Env.{escape_of, EnvAssigned};

use outcome_target::Layout;
use refusals::Refusal;

// A rule's latest `string_escape`.
#[derive(Clone, Copy)]
pub enum Escape {
    Unset,
    AsIs,
    Replaced,
}

fn set_clean(
    t: &mut [u8],
    layout: Layout,
    escape: Escape,
    key: &[u8],
    value: &[u8],
) -> Option<Layout>
    requires { Holds t.old layout × (ok_text most_key key.now ≡ true) × (clean value.now ≡ true) × (length value.now ≤ most_value) }
    ensures { Edited with_properties (λ s. set_property key.now (clean_value (escape_of escape) value.now) s.properties) t.old layout t.new result }
{
    match escape {
        Escape::Replaced => {
            let mut out = [0u8; 256];
            let n = value.len();
            splice::store(&mut out, 0, value);
            link_names::clean(&mut out[..n], false);
            outcome_properties::set_property(t, layout, key, &out[..n])
        }
        Escape::Unset | Escape::AsIs => outcome_properties::set_property(t, layout, key, value),
    }
}

fn change_properties(
    t: &mut [u8],
    layout: Layout,
    escape: Escape,
    key: &[u8],
    value: &[u8],
) -> Option<Layout>
    requires { Holds t.old layout × (ok_text most_key key.now ≡ true) × (clean value.now ≡ true) × (length value.now ≤ most_value) }
    ensures { Edited with_properties (λ s. change_properties (escape_of escape) key.now value.now s.properties) t.old layout t.new result }
{
    if value.is_empty() {
        return Some(outcome_properties::remove_property(t, layout, key));
    }
    set_clean(t, layout, escape, key, value)
}

pub fn assign_property(
    t: &mut [u8],
    layout: Layout,
    escape: Escape,
    key: &[u8],
    value: &[u8],
) -> Result<Layout, Refusal>
    requires { Holds t.old layout × (ok_text most_key key.now ≡ true) × (clean value.now ≡ true) × (length value.now ≤ most_value) }
    ensures { EnvAssigned (escape_of escape) key.now value.now t.old layout t.new result }
{
    change_properties(t, layout, escape, key, value).ok_or(Refusal::ListFull)
}
