// The rules of a table whose GOTO no later rule answers that is kept (document 02, Item 12): from the last rule backwards each of them is left
// without pairs, and so without its LABEL, on line 0.

#![tactic(auto)]

ghost use Rattle.std.specs.Prelude.{◌≡◌, List, ℕ, ◌+◌, ◌-◌, ◌*◌, ◌≤◌, ◌<◌, length};
ghost use Rattle.lists.specs.Lists.{is_some};
ghost use Rattle.lists.specs.Sizes.{most_rules};
ghost use Rattle.text.specs.Reading.{goes_to};
ghost use Rattle.rules.specs.Pair.{goto_of};
ghost use Rattle.rules.specs.Reading.{reader};
ghost use Rattle.striking.proofs.Rules.{is_kept};
ghost use Rattle.table.specs.Table.{rules_from};
ghost use Rattle.table.specs.Rules.{pairs_of, Rules};
ghost use Rattle.lost_jumps.specs.Lost.{emptied, RuleGone, Judges};

// Whether one of the rules from a number on has this name for its label.
fn is_answered(
    values: &[u8],
    rows: &[u16],
    labels: &[u16],
    from: usize,
    count: usize,
    name: &[u8],
) -> bool
    requires { (from ≤ count) × (count ≤ length labels.now) × ((t : List ℕ) × ((m : ℕ) × ((used : ℕ) × Rules values.now rows.now t labels.now m used count))) }
    ensures { (t : List ℕ) (m used : ℕ) → Rules values.now rows.now t labels.now m used count → result ≡ is_some (goes_to reader name.now (rules_from values.now rows.now t from (count - from))) }
{
    for i in from..count {
        if jumps::is_label(values, rows, labels, i, name) {
            return true;
        }
    }
    false
}

// Whether a rule has no jump, or one that a rule behind it answers.
fn is_kept(
    values: &[u8],
    rows: &[u16],
    rules: &[u16],
    labels: &[u16],
    i: usize,
    count: usize,
) -> bool
    requires { (i < count) × (count ≤ length labels.now) × (count * 4 ≤ length rules.now) × ((m : ℕ) × ((used : ℕ) × Rules values.now rows.now rules.now labels.now m used count)) }
    ensures { result ≡ is_kept reader (goto_of (pairs_of values.now rows.now rules.now i)) (rules_from values.now rows.now rules.now (i + 1) (count - (i + 1))) }
{
    match table::place_at(rules, i * 4 + 3) {
        Some(row) => {
            let name = table::value_of(values, rows, row);
            is_answered(values, rows, labels, i + 1, count, name)
        }
        None => true,
    }
}

// Takes the pairs of a rule away.
fn empty_rule(rules: &mut [u16], labels: &mut [u16], i: usize)
    requires { (i * 4 + 4 ≤ length rules.old) × (i < length labels.old) }
    ensures { RuleGone i rules.old labels.old rules.new labels.new }
{
    let at = i * 4;
    rules[at] = 0;
    rules[at + 1] = 0;
    rules[at + 2] = 0;
    rules[at + 3] = 0;
    labels[i] = 0;
}

// A rule, by the labels of the rules behind it that are kept.
fn judge_rule(
    values: &[u8],
    rows: &[u16],
    rules: &mut [u16],
    labels: &mut [u16],
    i: usize,
    count: usize,
)
    requires { (i < count) × (count ≤ length labels.old) × (count * 4 ≤ length rules.old) × ((m : ℕ) × ((used : ℕ) × Rules values.now rows.now rules.old labels.old m used count)) }
    ensures { (m used : ℕ) → Rules values.now rows.now rules.old labels.old m used count → Judges values.now rows.now rules.old rules.new labels.new i m used count }
{
    if is_kept(values, rows, rules, labels, i, count) {
        return;
    }
    empty_rule(rules, labels, i);
}

// All rules, from the last to the first.
pub fn strike_jumps(
    values: &[u8],
    rows: &[u16],
    rules: &mut [u16],
    labels: &mut [u16],
    count: usize,
)
    requires { (count ≤ most_rules) × (count ≤ length labels.old) × (count * 4 ≤ length rules.old) × ((m : ℕ) × ((used : ℕ) × Rules values.now rows.now rules.old labels.old m used count)) }
    ensures { rules_from values.now rows.now rules.new 0 count ≡ emptied (rules_from values.now rows.now rules.old 0 count) }
{
    for i in (0..count).rev() {
        judge_rule(values, rows, rules, labels, i, count);
    }
}
