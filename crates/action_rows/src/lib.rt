// The rules of a table that is run for many devices, each with the row of its ACTION noted: that key is judged at least cost, and what it rules
// out need not be looked at further.

#![tactic(auto)]

ghost use Rattle.std.specs.Prelude.{◌≡◌, ℕ, ◌-◌, ◌*◌, ◌≤◌, ◌<◌, length};
ghost use Rattle.lists.specs.Sizes.{most_rules};
ghost use Rattle.table.specs.Rules.{mark_of};
ghost use Rattle.action_rows.specs.Actions.{action_in, Within, ActionsPut};

// The first of these rows whose key is ACTION, which has the number 0.
fn action_in(rows: &[u16], from: usize, to: usize) -> Option<usize>
    requires { (from ≤ to) × (to < 65536) × (to * 4 ≤ length rows.now) }
    ensures { (mark_of result ≡ action_in rows.now from (to - from)) × (mark_of result ≤ to) }
{
    for i in from..to {
        if table::number_at(rows, i * 4) < 16 {
            return Some(i);
        }
    }
    None
}

// Notes it for each rule, in the place of the row of its GOTO, whose jump is known by then.
pub fn put_actions(rows: &[u16], rules: &mut [u16], count: usize)
    requires { (count ≤ most_rules) × (count * 4 ≤ length rules.old) × ((i : ℕ) → i < count → Within rows.now rules.old i) }
    ensures { ActionsPut rows.now rules.old rules.new count }
{
    for i in 0..count {
        let from = table::number_at(rules, i * 4 + 1);
        let to = table::number_at(rules, i * 4 + 2);
        let action = action_in(rows, from, to);
        rules[i * 4 + 3] = table::mark(action);
    }
}
