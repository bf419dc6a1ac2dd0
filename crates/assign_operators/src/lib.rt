// What an operator does around the change of a key: `=` and `:=` begin with an empty list, `:=` closes the key.

#![tactic(auto)]

ghost use Rattle.std.specs.Prelude.{◌≤◌, length};
ghost use Rattle.keys.specs.Table.{operator_of};
ghost use Rattle.engine.specs.Assign.{closing};
ghost use Rattle.outcome.specs.Head.{header_size};
ghost use Rattle.outcome_target.specs.Held.{Holds, Changed};
ghost use Rattle.outcome_fields.specs.Fields.{shut, Rewritten};
ghost use Rattle.assign_operators.specs.Begun.{begun};

use keys::Operator;
use outcome_fields::Closable;
use outcome_target::{Layout, Section};

pub fn begin(t: &mut [u8], layout: Layout, section: Section, operator: Operator) -> Layout
    requires { Holds t.old layout }
    ensures { Changed (begun section (operator_of operator)) t.old layout t.new result }
{
    match operator {
        Operator::Assign | Operator::Final => outcome_lists::empty(t, layout, section),
        _ => layout,
    }
}

pub fn finish(t: &mut [u8], key: Closable, operator: Operator)
    requires { header_size ≤ length t.old }
    ensures { Rewritten (closing (operator_of operator) (shut key)) t.old t.new }
{
    match operator {
        Operator::Final => outcome_fields::close(t, key),
        _ => {}
    }
}
