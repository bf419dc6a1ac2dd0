// The rules of a table as text, one line for each, nothing between their parts. Each function puts its part behind the first `used` bytes
// of a slice and answers where it ends.

#![tactic(auto)]

ghost use Rattle.std.specs.Prelude.{[], ◌∷◌, ◌≡◌, ◌+◌, ◌-◌, ◌≤◌, length, take};
ghost use Rattle.lists.specs.Lists.{cat};
ghost use Rattle.lists.specs.Sizes.{most_text};
ghost use Rattle.insertion.specs.Append.{Placed};
ghost use Rattle.keys.specs.Table.{key_of, operator_of};
ghost use Rattle.table.specs.Table.{entry_of, pairs_from, rules_from, Segment, EntryIn};
ghost use Rattle.writing.specs.Writing.{name_of, argument_text, op_text, needs_code, plain_byte, code_byte, value_text, pair_text, line_text, written};
ghost use Rattle.rule_writing.specs.Tables.{others, RulesIn, WrittenIs};

use keys::{Key, Operator};
use table::Entry;

// ---- bytes

fn put_one(out: &mut [u8], used: usize, b: u8) -> usize
    requires { used + 1 ≤ length out.old }
    ensures { Placed (b ∷ []) out.old used result out.new }
{
    out[used] = b;
    used + 1
}

fn put_two(out: &mut [u8], used: usize, a: u8, b: u8) -> usize
    requires { used + 2 ≤ length out.old }
    ensures { Placed (a ∷ b ∷ []) out.old used result out.new }
{
    let one = put_one(out, used, a);
    put_one(out, one, b)
}

pub fn put_text(out: &mut [u8], used: usize, text: &[u8]) -> usize
    requires { used + length text.now ≤ length out.old }
    ensures { Placed text.now out.old used result out.new }
{
    splice::store(out, used, text);
    used + text.len()
}

// ---- a value

// Whether the plain form cannot say a value: for a newline in it, or a backslash at its end.
fn needs_code(value: &[u8]) -> bool
    ensures { result ≡ needs_code value.now }
{
    if scan::line_end(value, 0) < value.len() {
        return true;
    }
    let n = value.len();
    if n == 0 {
        return false;
    }
    value[n - 1] == b'\\'
}

fn put_plain_byte(out: &mut [u8], used: usize, b: u8) -> usize
    requires { used + length (plain_byte b) ≤ length out.old }
    ensures { Placed (plain_byte b) out.old used result out.new }
{
    if b == b'"' {
        return put_two(out, used, b'\\', b);
    }
    put_one(out, used, b)
}

fn put_code_byte(out: &mut [u8], used: usize, b: u8) -> usize
    requires { used + length (code_byte b) ≤ length out.old }
    ensures { Placed (code_byte b) out.old used result out.new }
{
    if b == b'\n' {
        return put_two(out, used, b'\\', b'n');
    }
    if b == b'\\' {
        return put_two(out, used, b'\\', b);
    }
    if b == b'"' {
        return put_two(out, used, b'\\', b);
    }
    put_one(out, used, b)
}

// The bytes of a value in the plain form.
fn put_plain(out: &mut [u8], used: usize, value: &[u8]) -> usize
    requires { used + length (cat plain_byte value.now) ≤ length out.old }
    ensures { Placed (cat plain_byte value.now) out.old used result out.new }
{
    let mut end = used;
    for b in value {
        end = put_plain_byte(out, end, *b);
    }
    end
}

// The bytes of a value in the `e` form.
fn put_code(out: &mut [u8], used: usize, value: &[u8]) -> usize
    requires { used + length (cat code_byte value.now) ≤ length out.old }
    ensures { Placed (cat code_byte value.now) out.old used result out.new }
{
    let mut end = used;
    for b in value {
        end = put_code_byte(out, end, *b);
    }
    end
}

fn put_value(out: &mut [u8], used: usize, value: &[u8]) -> usize
    requires { used + length (value_text value.now) ≤ length out.old }
    ensures { Placed (value_text value.now) out.old used result out.new }
{
    if needs_code(value) {
        let opened = put_two(out, used, b'e', b'"');
        let filled = put_code(out, opened, value);
        return put_one(out, filled, b'"');
    }
    let opened = put_one(out, used, b'"');
    let filled = put_plain(out, opened, value);
    put_one(out, filled, b'"')
}

// ---- a pair

// The first bytes of a row's name.
fn put_first(out: &mut [u8], used: usize, name: [u8; 12], len: usize) -> usize
    requires { (len ≤ 10) × (used + length (take len name) ≤ length out.old) }
    ensures { Placed (take len name) out.old used result out.new }
{
    put_text(out, used, &name[0..len])
}

fn put_name(out: &mut [u8], used: usize, key: Key) -> usize
    requires { used + length (name_of (key_of key)) ≤ length out.old }
    ensures { Placed (name_of (key_of key)) out.old used result out.new }
{
    let row = keys::row_at(usize::from(kinds::key_number(key)));
    put_first(out, used, row.name, usize::from(row.len))
}

// RUN without an argument stays without one.
fn put_argument(out: &mut [u8], used: usize, argument: &[u8]) -> usize
    requires { used + length (argument_text argument.now) ≤ length out.old }
    ensures { Placed (argument_text argument.now) out.old used result out.new }
{
    if argument.len() == 0 {
        return used;
    }
    let opened = put_one(out, used, b'{');
    let filled = put_text(out, opened, argument);
    put_one(out, filled, b'}')
}

fn put_operator(out: &mut [u8], used: usize, operator: Operator) -> usize
    requires { used + length (op_text (operator_of operator)) ≤ length out.old }
    ensures { Placed (op_text (operator_of operator)) out.old used result out.new }
{
    match operator {
        Operator::Equal => put_two(out, used, b'=', b'='),
        Operator::Unequal => put_two(out, used, b'!', b'='),
        Operator::Assign => put_one(out, used, b'='),
        Operator::Add => put_two(out, used, b'+', b'='),
        Operator::Remove => put_two(out, used, b'-', b'='),
        Operator::Final => put_two(out, used, b':', b'='),
    }
}

fn put_pair(out: &mut [u8], used: usize, values: &[u8], pair: Entry) -> usize
    requires { EntryIn values.now pair × (used + length (pair_text (entry_of values.now pair)) ≤ length out.old) }
    ensures { Placed (pair_text (entry_of values.now pair)) out.old used result out.new }
{
    let start = pair.start;
    let middle = pair.middle;
    let end = pair.end;
    let named = put_name(out, used, pair.key);
    let argued = put_argument(out, named, &values[start..middle]);
    let operated = put_operator(out, argued, pair.operator);
    put_value(out, operated, &values[middle..end])
}

// ---- rules

// The pairs of the rows from a place up to another, each behind a comma.
fn put_others(
    out: &mut [u8],
    used: usize,
    values: &[u8],
    rows: &[u16],
    from: usize,
    to: usize,
) -> usize
    requires { (from ≤ to) × Segment values.now rows.now to × (used + length (others (pairs_from values.now rows.now from (to - from))) ≤ length out.old) }
    ensures { Placed (others (pairs_from values.now rows.now from (to - from))) out.old used result out.new }
{
    let mut end = used;
    for i in from..to {
        let pair = table::pair_at(rows, i);
        let parted = put_one(out, end, b',');
        end = put_pair(out, parted, values, pair);
    }
    end
}

// The rule of the rows from a place up to another.
fn put_rule(
    out: &mut [u8],
    used: usize,
    values: &[u8],
    rows: &[u16],
    from: usize,
    to: usize,
) -> usize
    requires { (from ≤ to) × Segment values.now rows.now to × (used + length (line_text (pairs_from values.now rows.now from (to - from))) ≤ length out.old) }
    ensures { Placed (line_text (pairs_from values.now rows.now from (to - from))) out.old used result out.new }
{
    if from == to {
        return used;
    }
    let pair = table::pair_at(rows, from);
    let end = put_pair(out, used, values, pair);
    put_others(out, end, values, rows, from + 1, to)
}

// All rules of a table, with one newline behind each: where the text ends, unless it would be longer than a text may be. Only the last newline of a text of full size can be too much.
pub fn put_rules(
    out: &mut [u8],
    values: &[u8],
    rows: &[u16],
    rules: &[u16],
    count: usize,
) -> Option<usize>
    requires { (most_text ≤ length out.old) × RulesIn values.now rows.now rules.now count × (length (written (rules_from values.now rows.now rules.now 0 count)) ≤ most_text + 1) }
    ensures { WrittenIs (written (rules_from values.now rows.now rules.now 0 count)) out.old result out.new }
{
    let mut used: usize = 0;
    for i in 0..count {
        let from = table::number_at(rules, i * 4 + 1);
        let to = table::number_at(rules, i * 4 + 2);
        let end = put_rule(out, used, values, rows, from, to);
        if end == 32768 {
            return None;
        }
        used = put_one(out, end, b'\n');
    }
    Some(used)
}
