// The planner of a naming plan, a public operation (document 02, Item 14): where a plan is due, a rule for each device of a lent set that is
// told by its event path and gives it its wanted link.

#![tactic(auto)]

ghost use Rattle.std.specs.Prelude.{◌≡◌, ◌+◌, ◌≤◌, length};
ghost use Rattle.insertion.specs.Append.{Placed};
ghost use Rattle.set_answers.specs.Answers.{answered};
ghost use Rattle.plan.specs.Plan.{plan_text};
ghost use Rattle.plan.specs.Operations.{plan as plan_answer};
ghost use Rattle.plan_rows.specs.Namings.{namings_in, Whole};
ghost use Rattle.planner.specs.Lines.{plan_line};

use refusals::Refusal;
use set_answers::Given;

// The rule of one device and a newline, behind the first `used` bytes; where they end.
fn put_line(out: &mut [u8], used: usize, path: &[u8], link: &[u8]) -> usize
    requires { used + length (plan_line path.now link.now) ≤ length out.old }
    ensures { Placed (plan_line path.now link.now) out.old used result out.new }
{
    let matched = rule_writing::put_text(out, used, b"DEVPATH==\"");
    let told = rule_writing::put_text(out, matched, path);
    let assigned = rule_writing::put_text(out, told, b"\",SYMLINK=\"");
    let named = rule_writing::put_text(out, assigned, link);
    rule_writing::put_text(out, named, b"\"\n")
}

// The rules of the n devices of a set; where they end.
fn put_plan(set: &[u8], n: usize, out: &mut [u8]) -> usize
    requires { Whole set.now × (n ≡ length (namings_in set.now)) × (length (plan_text (namings_in set.now)) ≤ length out.old) }
    ensures { Placed (plan_text (namings_in set.now)) out.old 0 result out.new }
{
    let mut p = 1;
    let mut used = 0;
    for _ in 0..n {
        let place = plan_rows::wish_in(set, p);
        let path = plan_due::event_path(set_rows::bytes_of(set, place.device));
        used = put_line(out, used, path, set_rows::bytes_of(set, place.link));
        p = place.link.end;
    }
    used
}

// The room that a plan is given.
const MOST_TEXT: usize = 32768;

pub fn plan(set: &[u8], target: &mut [u8]) -> Given
    ensures { answered result target.new ≡ plan_answer set.now (length target.old) }
{
    splice::clear(target);
    if target.len() < MOST_TEXT {
        return set_answers::refused(Refusal::TargetShort, 0, 0);
    }
    if let Err(fault) = plan_rows::judge(set) {
        return set_answers::refused(fault.refusal, fault.position, fault.line);
    }
    let n = set_rows::count_of(set);
    if !plan_due::due(set, n) {
        return set_answers::accepted(0, 0, 0, 0);
    }
    set_answers::accepted(0, 0, put_plan(set, n, target), 1)
}
