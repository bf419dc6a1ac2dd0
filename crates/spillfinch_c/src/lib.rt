// The operations for C and Rust, by the names of include/spillfinch.h: each is the function of that name of `spillfinch`.

#![tactic(auto)]

ghost use Rattle.std.specs.Prelude.{length};
ghost use Rattle.engine.specs.Operations.{fresh as fresh_answer, close as close_answer};
ghost use Rattle.spillfinch.specs.Exports.{Gives, CheckGives, RunGives, WriteGives, NewerGives, OlderGives, StrikeGives, ContestGives, FilesGives, PlanCheckGives, PlanGives, EachGives};

#[unsafe(no_mangle)]
pub extern "C" fn spillfinch_check(text: &[u8], answer: &mut [u32; 8])
    ensures { CheckGives text.now answer.new }
{
    spillfinch::spillfinch_check(text, answer);
}

#[unsafe(no_mangle)]
pub extern "C" fn spillfinch_fresh(device: &[u8], target: &mut [u8], answer: &mut [u32; 8])
    ensures { Gives answer.new target.new (fresh_answer device.now (length target.old)) }
{
    spillfinch::spillfinch_fresh(device, target, answer);
}

#[unsafe(no_mangle)]
pub extern "C" fn spillfinch_run(
    text: &[u8],
    device: &[u8],
    outcome: &[u8],
    sheet: &[u8],
    target: &mut [u8],
    answer: &mut [u32; 8],
)
    ensures { RunGives text.now device.now outcome.now sheet.now (length target.old) answer.new target.new }
{
    spillfinch::spillfinch_run(text, device, outcome, sheet, target, answer);
}

#[unsafe(no_mangle)]
pub extern "C" fn spillfinch_close(
    device: &[u8],
    outcome: &[u8],
    target: &mut [u8],
    answer: &mut [u32; 8],
)
    ensures { Gives answer.new target.new (close_answer device.now outcome.now (length target.old)) }
{
    spillfinch::spillfinch_close(device, outcome, target, answer);
}

#[unsafe(no_mangle)]
pub extern "C" fn spillfinch_newer(
    device: &[u8],
    outcome: &[u8],
    target: &mut [u8],
    answer: &mut [u32; 8],
)
    ensures { NewerGives device.now outcome.now (length target.old) answer.new target.new }
{
    spillfinch::spillfinch_newer(device, outcome, target, answer);
}

#[unsafe(no_mangle)]
pub extern "C" fn spillfinch_older(
    device: &[u8],
    outcome: &[u8],
    target: &mut [u8],
    answer: &mut [u32; 8],
)
    ensures { OlderGives device.now outcome.now (length target.old) answer.new target.new }
{
    spillfinch::spillfinch_older(device, outcome, target, answer);
}

// Document 02, Item 2.
#[unsafe(no_mangle)]
pub extern "C" fn spillfinch_write(text: &[u8], target: &mut [u8], answer: &mut [u32; 8])
    ensures { WriteGives text.now (length target.old) answer.new target.new }
{
    spillfinch::spillfinch_write(text, target, answer);
}

// Document 02, Item 12.
#[unsafe(no_mangle)]
pub extern "C" fn spillfinch_strike(
    text: &[u8],
    target: &mut [u8],
    strikes: &mut [u16],
    answer: &mut [u32; 8],
)
    ensures { StrikeGives text.now (length target.old) (length strikes.old) answer.new target.new strikes.new }
{
    spillfinch::spillfinch_strike(text, target, strikes, answer);
}

// Document 02, Item 7.
#[unsafe(no_mangle)]
pub extern "C" fn spillfinch_contest(set: &[u8], target: &mut [u8], answer: &mut [u32; 8])
    ensures { ContestGives set.now (length target.old) answer.new target.new }
{
    spillfinch::spillfinch_contest(set, target, answer);
}

// Document 02, Item 11.
#[unsafe(no_mangle)]
pub extern "C" fn spillfinch_run_files(
    set: &[u8],
    device: &[u8],
    outcome: &[u8],
    sheet: &[u8],
    target: &mut [u8],
    answer: &mut [u32; 8],
)
    ensures { FilesGives set.now device.now outcome.now sheet.now (length target.old) answer.new target.new }
{
    spillfinch::spillfinch_run_files(set, device, outcome, sheet, target, answer);
}

// Document 02, Item 14.
#[unsafe(no_mangle)]
pub extern "C" fn spillfinch_plan_check(set: &[u8], text: &[u8], answer: &mut [u32; 8])
    ensures { PlanCheckGives set.now text.now answer.new }
{
    spillfinch::spillfinch_plan_check(set, text, answer);
}

#[unsafe(no_mangle)]
pub extern "C" fn spillfinch_plan(set: &[u8], target: &mut [u8], answer: &mut [u32; 8])
    ensures { PlanGives set.now (length target.old) answer.new target.new }
{
    spillfinch::spillfinch_plan(set, target, answer);
}

// A text over each record of a set.
#[unsafe(no_mangle)]
pub extern "C" fn spillfinch_run_each(
    text: &[u8],
    set: &[u8],
    sheet: &[u8],
    targets: &mut [u8],
    answers: &mut [u32],
    answer: &mut [u32; 8],
)
    ensures { EachGives text.now set.now sheet.now (length targets.old) (length answers.old) answer.new targets.new answers.new }
{
    spillfinch::spillfinch_run_each(text, set, sheet, targets, answers, answer);
}
