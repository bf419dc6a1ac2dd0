// One pair of a rule's line, by places: its key, argument, operator and value, or refusals 11 to 14.

#![tactic(auto)]

ghost use Rattle.std.specs.Prelude.{◌≡◌, List, ℕ, ◌+◌, ◌≤◌, ◌<◌, ◌&&◌, eqb, length, get_or, drop, IfSome};
ghost use Rattle.lists.specs.Bytes.{part};
ghost use Rattle.rules.specs.Reading as reading;
ghost use Rattle.keys.specs.Table.{takes_of, allowed_of};
ghost use Rattle.pairs.specs.Stages.{type_allowed, pair_written};
ghost use Rattle.pairs.specs.Answers.{unescaped, argument_by, operator_by, operator_read_by, value_by, read_by};
ghost use Rattle.pairs.specs.Bounds.{ArgumentIn, OperatorIn, Closes, WrittenAt, ValueIn, Put, ReadIn};

use keys::{Key, Operator, Operators, Takes};
use refusals::Refusal;

// A pair that was read: the argument is the bytes from arg_start to arg_end, the value as written those from start to
// end, of which len are left after unescaping, coded where an `e` stands before it; next is the place behind the pair
// and the blanks that follow it.
#[derive(Debug, Clone, Copy, PartialEq, Eq)]
pub struct Pair {
    pub key: Key,
    pub operator: Operator,
    pub coded: bool,
    pub arg_start: usize,
    pub arg_end: usize,
    pub start: usize,
    pub end: usize,
    pub len: usize,
    pub next: usize,
}

// ---- the argument

// The bytes of an argument, none where it is absent, and the place behind it.
#[derive(Debug, Clone, Copy, PartialEq, Eq)]
pub struct Argument {
    pub start: usize,
    pub end: usize,
    pub next: usize,
}

#[tactic(auto, unfolding(rules::specs::Reading::is_type, lists::specs::Quoted::bytes))]
fn is_type(argument: &[u8]) -> bool
    ensures { result ≡ reading.is_type argument.now }
{
    scan::same(argument, b"program") || scan::same(argument, b"builtin")
}

// Whether a key that takes such an argument takes this one.
fn type_allowed(takes: Takes, argument: &[u8]) -> bool
    ensures { result ≡ type_allowed (takes_of takes) argument.now }
{
    match takes {
        Takes::Nothing => false,
        Takes::One => true,
        Takes::RunType => is_type(argument),
    }
}

// The argument whose opening brace stands at a place.
fn in_braces(line: &[u8], at: usize, takes: Takes) -> Result<Argument, Refusal>
    requires { at < length line.now }
    ensures { (argument_by line.now result ≡ reading.present (takes_of takes) (drop (at + 1) line.now)) × ArgumentIn line.now at result }
{
    let start = at + 1;
    let end = scan::byte_end(line, start, b'}');
    if line.len() <= end {
        return Err(Refusal::ArgumentBad);
    }
    let n = end - start;
    if n < 1 {
        return Err(Refusal::ArgumentBad);
    }
    if 64 < n {
        return Err(Refusal::ArgumentBad);
    }
    if !type_allowed(takes, &line[start..end]) {
        return Err(Refusal::ArgumentBad);
    }
    Ok(Argument {
        start,
        end,
        next: end + 1,
    })
}

// The argument that stands directly behind the key, or none.
pub fn read_argument(line: &[u8], at: usize, takes: Takes) -> Result<Argument, Refusal>
    ensures { (argument_by line.now result ≡ reading.read_argument (takes_of takes) (drop at line.now)) × ArgumentIn line.now at result }
{
    let b = scan::byte_at(line, at);
    if b == b'{' {
        return in_braces(line, at, takes);
    }
    match takes {
        Takes::Nothing => Ok(Argument {
            start: 0,
            end: 0,
            next: at,
        }),
        Takes::One => Err(Refusal::ArgumentBad),
        Takes::RunType => Ok(Argument {
            start: 0,
            end: 0,
            next: at,
        }),
    }
}

// ---- the operator

// An operator and its width in bytes.
#[derive(Debug, Clone, Copy, PartialEq, Eq)]
pub struct OperatorRead {
    pub operator: Operator,
    pub width: usize,
}

// The longest operator that two bytes begin with.
pub fn operator_of(a: u8, b: u8) -> Option<OperatorRead>
    ensures by_index { (bs : List ℕ) → operator_by result bs ≡ reading.op_of a b (drop 1 bs) (drop 2 bs) }
    ensures width_in { IfSome result (λ w. w.width ≤ 2) }
{
    match (a, b) {
        (b'=', b'=') => Some(OperatorRead {
            operator: Operator::Equal,
            width: 2,
        }),
        (b'=', _) => Some(OperatorRead {
            operator: Operator::Assign,
            width: 1,
        }),
        (b'!', b'=') => Some(OperatorRead {
            operator: Operator::Unequal,
            width: 2,
        }),
        (b'+', b'=') => Some(OperatorRead {
            operator: Operator::Add,
            width: 2,
        }),
        (b'-', b'=') => Some(OperatorRead {
            operator: Operator::Remove,
            width: 2,
        }),
        (b':', b'=') => Some(OperatorRead {
            operator: Operator::Final,
            width: 2,
        }),
        _ => None,
    }
}

// The operator at a place, one of those allowed.
fn read_operator(line: &[u8], at: usize, operators: Operators) -> Result<OperatorRead, Refusal>
    requires { at ≤ length line.now }
    ensures { (operator_read_by line.now at result ≡ reading.read_op (allowed_of operators) (drop at line.now)) × OperatorIn result }
{
    let Some(read) = operator_of(scan::byte_at(line, at), scan::byte_at(line, at + 1)) else {
        return Err(Refusal::OperatorBad);
    };
    if operators.allows(read.operator) {
        Ok(read)
    } else {
        Err(Refusal::OperatorBad)
    }
}

// ---- the value

// A value as written from start to end, of which len bytes are left after unescaping, coded where an `e` stands before it.
#[derive(Debug, Clone, Copy, PartialEq, Eq)]
pub struct Value {
    pub coded: bool,
    pub start: usize,
    pub end: usize,
    pub len: usize,
}

// Where a value is closed, or the end of the line where it is not, and the marks that stand in it.
#[derive(Debug, Clone, Copy, PartialEq, Eq)]
pub struct Close {
    pub end: usize,
    pub marks: usize,
}

// The closing mark of a value that starts at a place: the first mark without a backslash directly before it.
pub fn close_of(line: &[u8], start: usize) -> Close
    requires { start ≤ length line.now }
    ensures { Closes line.now start result }
{
    let mut marks: usize = 0;
    for i in start..line.len() {
        if line[i] != b'"' {
            continue;
        }
        if i == start {
            return Close { end: i, marks };
        }
        if line[i - 1] != b'\\' {
            return Close { end: i, marks };
        }
        marks += 1;
    }
    Close {
        end: line.len(),
        marks,
    }
}

// The value whose mark stands at a place.
fn read_plain(line: &[u8], at: usize) -> Result<Value, Refusal>
    requires { get_or line.now at 0 ≡ 34 }
    ensures { (value_by line.now result ≡ reading.read_plain (drop at line.now)) × ValueIn line.now result }
{
    let start = at + 1;
    let close = close_of(line, start);
    let end = close.end;
    if line.len() <= end {
        return Err(Refusal::ValueBad);
    }
    let len = end - start - close.marks;
    if 256 < len {
        return Err(Refusal::ValueBad);
    }
    Ok(Value {
        coded: false,
        start,
        end,
        len,
    })
}

// The value that starts behind an `e` and its mark. It stays out of the way of the other values, which are many more.
#[cold]
fn read_coded(line: &[u8], start: usize) -> Result<Value, Refusal>
    ensures { (value_by line.now result ≡ reading.read_coded (drop start line.now)) × ValueIn line.now result }
{
    let mut room = [0u8; 1];
    let Some(closed) = escapes::decode(line, start, &mut room) else {
        return Err(Refusal::ValueBad);
    };
    let len = closed.len;
    if 256 < len {
        return Err(Refusal::ValueBad);
    }
    Ok(Value {
        coded: true,
        start,
        end: closed.end,
        len,
    })
}

// The value at a place, in either form.
fn read_value(line: &[u8], at: usize) -> Result<Value, Refusal>
    ensures { (value_by line.now result ≡ reading.read_value (drop at line.now)) × ValueIn line.now result }
{
    let b = scan::byte_at(line, at);
    if b == b'"' {
        return read_plain(line, at);
    }
    if b != b'e' {
        return Err(Refusal::ValueBad);
    }
    if scan::byte_at(line, at + 1) != b'"' {
        return Err(Refusal::ValueBad);
    }
    let start = at + 2;
    read_coded(line, start)
}

// A backslash directly before a mark of the value that ends at a place.
fn is_escape(line: &[u8], i: usize, end: usize) -> bool
    requires { (i < end) × (end ≤ length line.now) }
    ensures { result ≡ (eqb (get_or line.now i 0) 92 && reading.starts_mark (part line.now (i + 1) end)) }
{
    line[i] == b'\\' && i + 1 < end && line[i + 1] == b'"'
}

// Puts the plain value that is written from start to end into out, unescaped, and answers its length.
fn unescape_into(line: &[u8], start: usize, end: usize, out: &mut [u8]) -> usize
    requires { (start ≤ end) × (end ≤ length line.now) × (length (reading.unescape (part line.now start end)) ≤ length out.old) }
    ensures { Put (reading.unescape (part line.now start end)) out.new result }
{
    let mut n: usize = 0;
    for i in start..end {
        if is_escape(line, i, end) {
            continue;
        }
        out[n] = line[i];
        n += 1;
    }
    n
}

// Puts the value that is written from start to end into out, and answers its length.
pub fn value_into(line: &[u8], coded: bool, start: usize, end: usize, out: &mut [u8]) -> usize
    requires { WrittenAt line.now coded start end × (length (unescaped coded (part line.now start end)) ≤ length out.old) }
    ensures { Put (unescaped coded (part line.now start end)) out.new result }
{
    if coded {
        escapes::decode(line, start, out).unwrap().len
    } else {
        unescape_into(line, start, end, out)
    }
}

// ---- a pair

// The pair at a place, without a look at its content.
pub fn read_pair(line: &[u8], at: usize) -> Result<Pair, Refusal>
    requires { at ≤ length line.now }
    ensures { (read_by line.now result ≡ pair_written (drop at line.now)) × ReadIn line.now result }
{
    let start = scan::blank_end(line, at);
    let end = scan::upper_end(line, start);
    let Some(row) = keys::find_key(&line[start..end]) else {
        return Err(Refusal::KeyBad);
    };
    let argument = read_argument(line, end, row.takes)?;
    let before = scan::blank_end(line, argument.next);
    let read = read_operator(line, before, row.operators)?;
    let rest = before + read.width;
    let behind = scan::blank_end(line, rest);
    let value = read_value(line, behind)?;
    let last = value.end;
    let next = scan::blank_end(line, last + 1);
    Ok(Pair {
        key: row.key,
        operator: read.operator,
        coded: value.coded,
        arg_start: argument.start,
        arg_end: argument.end,
        start: value.start,
        end: last,
        len: value.len,
        next,
    })
}
