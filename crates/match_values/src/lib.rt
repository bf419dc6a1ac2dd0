// Whether a match key holds of a value, of an attribute, of an action's name, of a list of texts. Its match value comes with a mark: if it is
// set the value is plain.

#![tactic(auto)]

ghost use Rattle.std.specs.Prelude.{◌≡◌, ◌≤◌, ◌<◌, length, take, drop};
ghost use Rattle.lists.specs.Lists.{nth};
ghost use Rattle.entries.specs.Entry.{or_empty};
ghost use Rattle.pattern.specs.Pattern.{matches};
ghost use Rattle.device.specs.Device.{action_names};
ghost use Rattle.engine.specs.Match.{judged, some_matches, seen_by};
ghost use Rattle.glob.specs.Plain.{PlainIf};
ghost use Rattle.keys.specs.Table.{operator_of};
ghost use Rattle.rows.specs.Row.{Row, names};

use keys::Operator;
use rows::Kind;

// `==` holds where the answer is yes, `!=` where it is no; an operator that assigns judges nothing.
pub fn judge(operator: Operator, yes: bool) -> bool
    ensures { result ≡ judged (operator_of operator) yes }
{
    match operator {
        Operator::Equal => yes,
        Operator::Unequal => !yes,
        _ => true,
    }
}

pub fn value_holds(operator: Operator, pattern: &[u8], plain: bool, value: &[u8]) -> bool
    requires { PlainIf plain pattern.now }
    ensures { result ≡ judged (operator_of operator) (matches pattern.now value.now) }
{
    judge(operator, text_matches(pattern, plain, value))
}

// How much of an attribute a match value sees: all but its trailing whitespace, unless the match value ends in whitespace.
fn seen_len(pattern: &[u8], attribute: &[u8]) -> usize
    ensures { (result ≤ length attribute.now) × (take result attribute.now ≡ seen_by pattern.now attribute.now) }
{
    if scan::ends_in_space(pattern) {
        attribute.len()
    } else {
        scan::trimmed_len(attribute)
    }
}

pub fn attribute_holds(operator: Operator, pattern: &[u8], plain: bool, attribute: &[u8]) -> bool
    requires { PlainIf plain pattern.now }
    ensures { result ≡ judged (operator_of operator) (matches pattern.now (seen_by pattern.now attribute.now)) }
{
    let n = seen_len(pattern, attribute);
    value_holds(operator, pattern, plain, &attribute[..n])
}

// The name of the action with a number.
pub fn action_holds(operator: Operator, pattern: &[u8], plain: bool, action: usize) -> bool
    requires { (action < 8) × PlainIf plain pattern.now }
    ensures { result ≡ judged (operator_of operator) (matches pattern.now (or_empty (nth action action_names))) }
{
    let name: &[u8] = match action {
        0 => b"add",
        1 => b"remove",
        2 => b"change",
        3 => b"move",
        4 => b"online",
        5 => b"offline",
        6 => b"bind",
        _ => b"unbind",
    };
    value_holds(operator, pattern, plain, name)
}

// Into each of its callers, since a call of its own costs each judged rule more than the comparison.
#[inline(always)]
fn text_matches(pattern: &[u8], plain: bool, text: &[u8]) -> bool
    requires { PlainIf plain pattern.now }
    ensures { result ≡ matches pattern.now text.now }
{
    if plain {
        scan::same_short(pattern, text)
    } else {
        glob::matches(pattern, text)
    }
}

// Whether one of the n texts from `at` on is matched.
fn some_matches(pattern: &[u8], plain: bool, rec: &[u8], at: usize, n: usize) -> bool
    requires { (at ≤ length rec.now) × Row Kind.Text n (drop at rec.now) × PlainIf plain pattern.now }
    ensures { result ≡ some_matches pattern.now (names Kind.Text n (drop at rec.now)) }
{
    let mut p = at;
    for _ in 0..n {
        let entry = rows::parts_at(rec, p, Kind::Text);
        if text_matches(pattern, plain, &rec[entry.name..entry.rest]) {
            return true;
        }
        p = entry.end;
    }
    false
}

// `==` holds where some text matches, `!=` where none does.
pub fn list_holds(
    operator: Operator,
    pattern: &[u8],
    plain: bool,
    rec: &[u8],
    at: usize,
    n: usize,
) -> bool
    requires { (at ≤ length rec.now) × Row Kind.Text n (drop at rec.now) × PlainIf plain pattern.now }
    ensures { result ≡ judged (operator_of operator) (some_matches pattern.now (names Kind.Text n (drop at rec.now))) }
{
    judge(operator, some_matches(pattern, plain, rec, at, n))
}
