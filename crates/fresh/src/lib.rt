// The fresh outcome record of a device record, a public operation.

#![tactic(auto)]

ghost use Rattle.std.specs.Prelude.{◌≡◌, ◌≤◌, length, replicate};
ghost use Rattle.lists.specs.Sizes.{fullest_outcome};
ghost use Rattle.device_lookup.specs.Lookup.{Sound};
ghost use Rattle.engine.specs.Operations.{fresh as fresh_answer};
ghost use Rattle.answers.specs.Answers.{answered};
ghost use Rattle.fresh.specs.Fresh.{Made};

use answers::Given;
use outcome_target::Section;
use refusals::Refusal;

// Edition 2 and the device's properties, written into zeros; the record's length.
fn write_record(t: &mut [u8], device: &[u8]) -> usize
    requires { Sound device.now × (fullest_outcome ≤ length t.old) × (t.old ≡ replicate (length t.old) 0) }
    ensures { Made device.now t.new result }
{
    let head = device_head::read_head(device);
    let properties = device_lookup::properties(device);
    outcome_target::put_field(t, outcome_target::EDITION, 2);
    outcome_target::set_count(t, Section::Properties, head.properties);
    splice::store(t, outcome_target::HEADER, properties);
    outcome_target::HEADER + properties.len()
}

pub fn fresh(device: &[u8], target: &mut [u8]) -> Given
    ensures { answered result target.new ≡ fresh_answer device.now (length target.old) }
{
    splice::clear(target);
    if target.len() < outcome_target::FULLEST {
        return answers::refused(Refusal::TargetShort, 0);
    }
    if !device_check::check(device) {
        return answers::refused(Refusal::DeviceBad, 0);
    }
    answers::accepted(0, 0, write_record(target, device))
}
