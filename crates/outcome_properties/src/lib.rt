// Properties of the outcome record in the target: one set anew or added, one removed.

#![tactic(auto)]

ghost use Rattle.std.specs.Prelude.{◌≡◌, true};
ghost use Rattle.entries.specs.Entry.{ok_prop};
ghost use Rattle.outcome.specs.Change.{with_properties};
ghost use Rattle.outcome.specs.Edits.{property, remove_property, set_property};
ghost use Rattle.outcome_target.specs.Held.{Holds, Changed, Edited};

use outcome_target::{Layout, Section};
use rows::Kind;

// A key that is there keeps its place, a new one comes last; a 33rd finds no room.
pub fn set_property(t: &mut [u8], layout: Layout, key: &[u8], value: &[u8]) -> Option<Layout>
    requires { Holds t.old layout × (ok_prop (property key.now value.now) ≡ true) }
    ensures { Edited with_properties (λ s. set_property key.now value.now s.properties) t.old layout t.new result }
{
    let n = outcome_target::count_of(t, Section::Properties);
    let at = layout.properties;
    match rows::find(t, at, n, Kind::Property, key) {
        Ok(found) => Some(row_edits::replace_value(
            t,
            layout,
            found.at,
            key.len(),
            found.len,
            value,
        )),
        Err(_) => if n < 32 {
            Some(row_edits::append_property(t, layout, n, key, value))
        } else {
            None
        },
    }
}

pub fn remove_property(t: &mut [u8], layout: Layout, key: &[u8]) -> Layout
    requires { Holds t.old layout }
    ensures { Changed (λ s. with_properties s (remove_property key.now s.properties)) t.old layout t.new result }
{
    let n = outcome_target::count_of(t, Section::Properties);
    let at = layout.properties;
    match rows::find(t, at, n, Kind::Property, key) {
        Ok(found) => row_edits::cut(
            t,
            layout,
            Section::Properties,
            found.at,
            found.value + found.len - found.at,
            n - 1,
        ),
        Err(_) => layout,
    }
}
