// The text of a template from the device record, and the properties and the output in the target.

#![tactic(auto)]

ghost use Rattle.std.specs.Prelude.{◌≡◌, true, ◌≤◌, length};
ghost use Rattle.lists.specs.Sizes.{most_substituted};
ghost use Rattle.template.specs.Template.{well_formed};
ghost use Rattle.records.specs.Records.{Ready};
ghost use Rattle.filling.specs.Filling.{FilledBeside};

use device_lookup::Chain;
use outcome_target::{Layout, Section};

pub fn fill(
    template: &[u8],
    dev: &[u8],
    chain: Chain,
    place: usize,
    t: &[u8],
    layout: Layout,
    spaceless: bool,
    out: &mut [u8],
) -> Option<usize>
    requires { (well_formed template.now ≡ true) × Ready dev.now chain t.now layout × (place ≤ chain.len) × (length out.old ≡ most_substituted) }
    ensures { FilledBeside template.now dev.now chain place t.now layout spaceless out.old result out.new }
{
    let row = outcome_readers::row_of(t, layout, Section::Properties);
    let from = substitution::places_of(chain, place, row.at, row.count);
    substitution::substitute(template, dev, t, from, spaceless, out)
}
