// The operations as a library for C and Rust. Each writes all 8 numbers of its answer, whatever it is given.

#![tactic(auto)]

ghost use Rattle.std.specs.Prelude.{◌≡◌, List, [], length};
ghost use Rattle.answers.specs.Answers.{answered};
ghost use Rattle.set_answers.specs.Answers.{answered as answered_set};
ghost use Rattle.engine.specs.Operations.{fresh as fresh_answer, close as close_answer};
ghost use Rattle.spillfinch.specs.Exports.{numbers, numbers_with, Gives, CheckGives, RunGives, WriteGives, NewerGives, OlderGives, StrikeGives, set_numbers, ContestGives, FilesGives, PlanCheckGives, PlanGives, EachGives};

use answers::Given;

fn put_answer(given: Given, answer: &mut [u32; 8])
    ensures { answer.new ≡ numbers (answered given []) }
{
    put_counted(given, 0, answer);
}

// The same with a count.
fn put_counted(given: Given, count: u32, answer: &mut [u32; 8])
    ensures { answer.new ≡ numbers_with (answered given []) count }
{
    *answer = [
        given.number,
        given.line,
        given.visited,
        given.used,
        given.tried,
        0,
        count,
        0,
    ];
}

// The same of an operation whose answer has a position and a count.
fn put_set_answer(told: set_answers::Given, answer: &mut [u32; 8])
    ensures { answer.new ≡ set_numbers (answered_set told []) }
{
    *answer = [
        told.number,
        told.line,
        told.visited,
        told.used,
        told.tried,
        told.position,
        told.count,
        0,
    ];
}

pub fn spillfinch_check(text: &[u8], answer: &mut [u32; 8])
    ensures { CheckGives text.now answer.new }
{
    put_answer(text_check::check(text), answer);
}

pub fn spillfinch_fresh(device: &[u8], target: &mut [u8], answer: &mut [u32; 8])
    ensures { Gives answer.new target.new (fresh_answer device.now (length target.old)) }
{
    put_answer(fresh::fresh(device, target), answer);
}

pub fn spillfinch_run(
    text: &[u8],
    device: &[u8],
    outcome: &[u8],
    sheet: &[u8],
    target: &mut [u8],
    answer: &mut [u32; 8],
)
    ensures { RunGives text.now device.now outcome.now sheet.now (length target.old) answer.new target.new }
{
    put_answer(run::run(text, device, outcome, sheet, target), answer);
}

pub fn spillfinch_close(device: &[u8], outcome: &[u8], target: &mut [u8], answer: &mut [u32; 8])
    ensures { Gives answer.new target.new (close_answer device.now outcome.now (length target.old)) }
{
    put_answer(close::close(device, outcome, target), answer);
}

pub fn spillfinch_newer(device: &[u8], outcome: &[u8], target: &mut [u8], answer: &mut [u32; 8])
    ensures { NewerGives device.now outcome.now (length target.old) answer.new target.new }
{
    put_answer(convert::newer(device, outcome, target), answer);
}

pub fn spillfinch_older(device: &[u8], outcome: &[u8], target: &mut [u8], answer: &mut [u32; 8])
    ensures { OlderGives device.now outcome.now (length target.old) answer.new target.new }
{
    put_answer(convert::older(device, outcome, target), answer);
}

// Document 02, Item 2.
pub fn spillfinch_write(text: &[u8], target: &mut [u8], answer: &mut [u32; 8])
    ensures { WriteGives text.now (length target.old) answer.new target.new }
{
    put_answer(write::write(text, target), answer);
}

// Document 02, Item 12.
pub fn spillfinch_strike(text: &[u8], target: &mut [u8], strikes: &mut [u16], answer: &mut [u32; 8])
    ensures { StrikeGives text.now (length target.old) (length strikes.old) answer.new target.new strikes.new }
{
    let struck = strike::strike(text, target, strikes);
    put_counted(struck.given, struck.count, answer);
}

// Document 02, Item 7.
pub fn spillfinch_contest(set: &[u8], target: &mut [u8], answer: &mut [u32; 8])
    ensures { ContestGives set.now (length target.old) answer.new target.new }
{
    put_set_answer(holders::contest(set, target), answer);
}

// Document 02, Item 11.
pub fn spillfinch_run_files(
    set: &[u8],
    device: &[u8],
    outcome: &[u8],
    sheet: &[u8],
    target: &mut [u8],
    answer: &mut [u32; 8],
)
    ensures { FilesGives set.now device.now outcome.now sheet.now (length target.old) answer.new target.new }
{
    put_set_answer(
        run_files::run_files(set, device, outcome, sheet, target),
        answer,
    );
}

// Document 02, Item 14.
pub fn spillfinch_plan_check(set: &[u8], text: &[u8], answer: &mut [u32; 8])
    ensures { PlanCheckGives set.now text.now answer.new }
{
    put_set_answer(plan_check::check(set, text), answer);
}

pub fn spillfinch_plan(set: &[u8], target: &mut [u8], answer: &mut [u32; 8])
    ensures { PlanGives set.now (length target.old) answer.new target.new }
{
    put_set_answer(planner::plan(set, target), answer);
}

// A text over each record of a set.
pub fn spillfinch_run_each(
    text: &[u8],
    set: &[u8],
    sheet: &[u8],
    targets: &mut [u8],
    answers: &mut [u32],
    answer: &mut [u32; 8],
)
    ensures { EachGives text.now set.now sheet.now (length targets.old) (length answers.old) answer.new targets.new answers.new }
{
    put_set_answer(
        run_each::run_each(text, set, sheet, targets, answers),
        answer,
    );
}
