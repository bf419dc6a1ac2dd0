// The rules of a text, kept as numbers in three slices that a caller lends: the bytes of arguments and values one behind the other, four
// numbers for each pair, four for each rule.

#![tactic(auto)]

ghost use Rattle.std.specs.Prelude.{◌≡◌, ◌+◌, ◌-◌, ◌*◌, ◌≤◌, ◌<◌, length, get_or};
ghost use Rattle.lists.specs.Bytes.{part};
ghost use Rattle.glob.specs.Plain.{PlainIf};
ghost use Rattle.pairs.specs.Answers.{unescaped, pair_of};
ghost use Rattle.pairs.specs.Bounds.{ValueAt, PairIn};
ghost use Rattle.splice.specs.Moves.{stored};
ghost use Rattle.table.specs.Table.{pair_at, Got};
ghost use Rattle.table.specs.Puts.{Four, Added, PairPut};
ghost use Rattle.table.specs.Rules.{mark_of};

use keys::{Key, Operator};
use pairs::Pair;

// A pair of the table: the places of its argument, from start to middle, and of its value, from middle to end. A match value that is marked as
// plain is.
#[derive(Clone, Copy)]
pub struct Entry {
    pub key: Key,
    pub operator: Operator,
    pub plain: bool,
    pub start: usize,
    pub middle: usize,
    pub end: usize,
}

// ---- numbers of two bytes

pub fn short(n: usize) -> u16
    requires { n < 65536 }
    ensures { result ≡ n }
{
    n as u16
}

// A row or a rule as a table notes it: one more than its place, or 0 for none.
pub fn mark(place: Option<usize>) -> u16
    requires { mark_of place < 65536 }
    ensures { result ≡ mark_of place }
{
    match place {
        Some(k) => short(k + 1),
        None => 0,
    }
}

// The row or the rule that is noted at a place.
pub fn place_at(l: &[u16], at: usize) -> Option<usize>
    requires { at < length l.now }
    ensures { (mark_of result ≡ get_or l.now at 0) × (mark_of result < 65536) }
{
    match number_at(l, at) {
        0 => None,
        n => Some(n - 1),
    }
}

// The number at a place.
pub fn number_at(l: &[u16], at: usize) -> usize
    requires { at < length l.now }
    ensures { (result ≡ get_or l.now at 0) × (result < 65536) }
{
    usize::from(l[at])
}

pub fn put_four(l: &mut [u16], at: usize, a: usize, b: usize, c: usize, d: usize)
    requires { (at + 4 ≤ length l.old) × (a < 65536) × (b < 65536) × (c < 65536) × (d < 65536) }
    ensures { Four at a b c d l.old l.new }
{
    l[at] = short(a);
    l[at + 1] = short(b);
    l[at + 2] = short(c);
    l[at + 3] = short(d);
}

// ---- a pair

// The pair of a row.
pub fn pair_at(rows: &[u16], i: usize) -> Entry
    requires { i * 4 + 4 ≤ length rows.now }
    ensures { Got rows.now i result }
{
    let at = i * 4;
    let kind = number_at(rows, at);
    let start = number_at(rows, at + 1);
    let middle = number_at(rows, at + 2);
    let end = number_at(rows, at + 3);
    let key = kinds::key_with(kind / 16);
    let operator = kinds::operator_with(kind % 8);
    let plain = kinds::plain_with(kind / 8 % 2);
    Entry {
        key,
        operator,
        plain,
        start,
        middle,
        end,
    }
}

// The value of the pair of a row.
pub fn value_of<'a>(values: &'a [u8], rows: &[u16], i: usize) -> &'a [u8]
    requires { (i * 4 + 4 ≤ length rows.now) × (get_or rows.now (i * 4 + 2) 0 ≤ get_or rows.now (i * 4 + 3) 0) × (get_or rows.now (i * 4 + 3) 0 ≤ length values.now) }
    ensures { result.now ≡ (pair_at values.now rows.now i).value }
{
    let middle = number_at(rows, i * 4 + 2);
    let end = number_at(rows, i * 4 + 3);
    &values[middle..end]
}

// ---- bytes

// Puts the N bytes of a line from a place on: by way of an array of their own they are moved at once.
fn put_group<const N: usize>(values: &mut [u8], at: usize, line: &[u8], from: usize)
    requires { (from + N ≤ length line.now) × (at + N ≤ length values.old) }
    ensures { values.new ≡ stored values.old at (part line.now from (from + N)) }
{
    let mut group = [0u8; N];
    splice::store(&mut group, 0, &line[from..from + N]);
    splice::store(values, at, &group);
}

// Puts N to 2 N bytes of a line: their first N and their last N, which may overlap.
fn put_ends<const N: usize>(values: &mut [u8], at: usize, line: &[u8], start: usize, end: usize)
    requires { (start ≤ end) × (end ≤ length line.now) × (at + (end - start) ≤ length values.old) × (N ≤ end - start) × (end - start ≤ N + N) }
    ensures { Added (part line.now start end) at values.old values.new }
{
    let last = end - start - N;
    put_group::<N>(values, at, line, start);
    put_group::<N>(values, at + last, line, start + last);
}

// Puts more than 8 bytes of a line, in groups of which the last may overlap the one before.
fn put_groups(values: &mut [u8], at: usize, line: &[u8], start: usize, end: usize)
    requires { (start ≤ end) × (end ≤ length line.now) × (at + (end - start) ≤ length values.old) × (8 < end - start) }
    ensures { Added (part line.now start end) at values.old values.new }
{
    let last = end - start - 8;
    let mut i: usize = 0;
    // By hand, since the place moves on by a group.
    while i < last {
        put_group::<8>(values, at + i, line, start + i);
        i += 8;
    }
    put_group::<8>(values, at + last, line, start + last);
}

// Puts the bytes of a line from start to end.
fn put_bytes(values: &mut [u8], at: usize, line: &[u8], start: usize, end: usize)
    requires { (start ≤ end) × (end ≤ length line.now) × (at + (end - start) ≤ length values.old) }
    ensures { Added (part line.now start end) at values.old values.new }
{
    match end - start {
        0 => {}
        1 => put_ends::<1>(values, at, line, start, end),
        2..=3 => put_ends::<2>(values, at, line, start, end),
        4..=7 => put_ends::<4>(values, at, line, start, end),
        8..=16 => put_ends::<8>(values, at, line, start, end),
        _ => put_groups(values, at, line, start, end),
    }
}

// Puts a value as written, of which len bytes are left after unescaping.
fn put_value(
    values: &mut [u8],
    at: usize,
    line: &[u8],
    coded: bool,
    start: usize,
    end: usize,
    len: usize,
)
    requires { ValueAt line.now coded start end len × (at + len ≤ length values.old) }
    ensures { Added (unescaped coded (part line.now start end)) at values.old values.new }
{
    if len == end - start {
        put_bytes(values, at, line, start, end);
    } else {
        pairs::value_into(line, coded, start, end, &mut values[at..]);
    }
}

// Puts a pair of a line behind n rows that use so many bytes of the values, and answers how many they use with it.
pub fn put_pair(
    values: &mut [u8],
    rows: &mut [u16],
    n: usize,
    used: usize,
    line: &[u8],
    pair: Pair,
    plain: bool,
) -> usize
    requires { PairIn line.now pair × (used + (pair.arg_end - pair.arg_start) + pair.len ≤ length values.old) × (length values.old < 65536) × (n * 4 + 4 ≤ length rows.old) × PlainIf plain (pair_of line.now pair).value }
    ensures { PairPut (pair_of line.now pair) n used result values.old rows.old values.new rows.new }
{
    let kind = kinds::kind_of(pair.key, pair.operator, plain);
    let middle = used + (pair.arg_end - pair.arg_start);
    let end = middle + pair.len;
    put_bytes(values, used, line, pair.arg_start, pair.arg_end);
    put_value(
        values, middle, line, pair.coded, pair.start, pair.end, pair.len,
    );
    put_four(rows, n * 4, kind, used, middle, end);
    end
}
