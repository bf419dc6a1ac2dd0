// The close, a public operation: the run list of an outcome record beside a device record.

#![tactic(auto)]

ghost use Rattle.std.specs.Prelude.{◌≡◌, ◌≤◌, length, replicate};
ghost use Rattle.lists.specs.Sizes.{fullest_run_list};
ghost use Rattle.engine.specs.Operations.{commands, given, close as close_answer};
ghost use Rattle.answers.specs.Answers.{answered};
ghost use Rattle.run_list.specs.Records.{RecordStands, OfRecord};
ghost use Rattle.close.specs.Closing.{listed};

use answers::Given;
use device_lookup::Chain;
use outcome_target::Layout;
use refusals::Refusal;

// The run list of sound records in a target of zeros, or its refusal.
fn list(t: &mut [u8], dev: &[u8], rec: &[u8], chain: Chain, layout: Layout) -> Given
    requires { (fullest_run_list ≤ length t.old) × (t.old ≡ replicate (length t.old) 0) × RecordStands dev.now rec.now chain layout }
    ensures { OfRecord dev.now rec.now chain layout (λ d s. answered result t.new ≡ given (length t.old) (listed (commands d s.properties s.output s.runs))) }
{
    let Some(used) = run_list::write(t, dev, rec, chain, layout) else {
        splice::clear(t);
        return answers::refused(Refusal::SubstitutionLong, 0);
    };
    answers::accepted(0, 0, used)
}

pub fn close(device: &[u8], outcome: &[u8], target: &mut [u8]) -> Given
    ensures { answered result target.new ≡ close_answer device.now outcome.now (length target.old) }
{
    splice::clear(target);
    if target.len() < run_list::FULLEST {
        return answers::refused(Refusal::TargetShort, 0);
    }
    if !device_check::check(device) {
        return answers::refused(Refusal::DeviceBad, 0);
    }
    let chain = device_lookup::chain_of(device);
    let Some(layout) = outcome_check::check(outcome, chain.len) else {
        return answers::refused(Refusal::OutcomeBad, 0);
    };
    list(target, device, outcome, chain, layout)
}
