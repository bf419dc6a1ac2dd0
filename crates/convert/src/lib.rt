// The converters between the editions of the outcome record (document 02, Item 5), public operations. Edition 2 has two bytes more behind the
// bits that both have, and then the output, which edition 1 cannot say.

#![tactic(auto)]

ghost use Rattle.std.specs.Prelude.{◌≡◌, true, ◌+◌, ◌≤◌, length, get_or, replicate};
ghost use Rattle.lists.specs.Sizes.{fullest_outcome, fullest_old};
ghost use Rattle.engine.specs.Operations.{given};
ghost use Rattle.engine.specs.Convert.{newer as newer_answer, older as older_answer};
ghost use Rattle.splice.specs.Moves.{padded};
ghost use Rattle.outcome.specs.Head.{header_size};
ghost use Rattle.outcome.specs.Old.{renewed, aged, decode_old};
ghost use Rattle.answers.specs.Answers.{answered};
ghost use Rattle.convert.specs.Records.{old_like, new_record, Sound, OfSound, old_record};

use answers::Given;
use refusals::Refusal;

// The header's bytes of edition 1, and those of its fullest record.
const OLD_HEADER: usize = 11;

const OLD_FULLEST: usize = 17611;

// ---- to edition 2

// Whether a record may be one of edition 1, by its length and its edition.
fn is_old(rec: &[u8]) -> bool
    ensures { result ≡ old_like rec.now }
{
    matches!(rec.len(), OLD_HEADER..=OLD_FULLEST) && rec[0] / 16 == 1
}

// The edition one higher, and two bytes of zeros behind the old header, in a target of zeros.
fn write_newer(t: &mut [u8], old: &[u8])
    requires { (old_like old.now ≡ true) × (fullest_outcome ≤ length t.old) × (t.old ≡ replicate (length t.old) 0) }
    ensures { t.new ≡ padded (length t.old) (renewed old.now) }
{
    t[0] = old[0] + 16;
    splice::store(t, 1, &old[1..OLD_HEADER]);
    splice::store(t, outcome_target::HEADER, &old[OLD_HEADER..]);
}

// What is written is checked as any record of edition 2 is.
fn renew(t: &mut [u8], old: &[u8], chain: usize) -> Given
    requires { (fullest_outcome ≤ length t.old) × (t.old ≡ replicate (length t.old) 0) }
    ensures { answered result t.new ≡ given (length t.old) (new_record (decode_old chain old.now)) }
{
    if !is_old(old) {
        return answers::refused(Refusal::OutcomeBad, 0);
    }
    write_newer(t, old);
    let used = old.len() + 2;
    let Some(_) = outcome_check::check(&t[..used], chain) else {
        splice::clear(t);
        return answers::refused(Refusal::OutcomeBad, 0);
    };
    answers::accepted(0, 0, used)
}

pub fn newer(device: &[u8], outcome: &[u8], target: &mut [u8]) -> Given
    ensures { answered result target.new ≡ newer_answer device.now outcome.now (length target.old) }
{
    splice::clear(target);
    if target.len() < outcome_target::FULLEST {
        return answers::refused(Refusal::TargetShort, 0);
    }
    if !device_check::check(device) {
        return answers::refused(Refusal::DeviceBad, 0);
    }
    let chain = device_lookup::chain_of(device);
    renew(target, outcome, chain.len)
}

// ---- to edition 1

// The edition one lower, and the two bytes behind the old header left out, in a target of zeros.
fn write_older(t: &mut [u8], rec: &[u8])
    requires { (header_size ≤ length rec.now) × (length rec.now ≤ length t.old + 2) × (16 ≤ get_or rec.now 0 0) × (t.old ≡ replicate (length t.old) 0) }
    ensures { t.new ≡ padded (length t.old) (aged rec.now) }
{
    t[0] = rec[0] - 16;
    splice::store(t, 1, &rec[1..OLD_HEADER]);
    splice::store(t, OLD_HEADER, &rec[outcome_target::HEADER..]);
}

// A sound record of edition 2 that has neither an output nor a watch setting.
fn age(t: &mut [u8], rec: &[u8]) -> Given
    requires { (fullest_old ≤ length t.old) × (t.old ≡ replicate (length t.old) 0) × Sound rec.now }
    ensures { OfSound rec.now (λ s. answered result t.new ≡ given (length t.old) (old_record s)) }
{
    if outcome_target::field(rec, outcome_target::OUTPUT) != 0 {
        return answers::refused(Refusal::TooNew, 0);
    }
    if outcome_target::field(rec, outcome_target::WATCH) != 0 {
        return answers::refused(Refusal::TooNew, 0);
    }
    write_older(t, rec);
    answers::accepted(0, 0, rec.len() - 2)
}

pub fn older(device: &[u8], outcome: &[u8], target: &mut [u8]) -> Given
    ensures { answered result target.new ≡ older_answer device.now outcome.now (length target.old) }
{
    splice::clear(target);
    if target.len() < OLD_FULLEST {
        return answers::refused(Refusal::TargetShort, 0);
    }
    if !device_check::check(device) {
        return answers::refused(Refusal::DeviceBad, 0);
    }
    let chain = device_lookup::chain_of(device);
    let Some(_) = outcome_check::check(outcome, chain.len) else {
        return answers::refused(Refusal::OutcomeBad, 0);
    };
    age(target, outcome)
}
