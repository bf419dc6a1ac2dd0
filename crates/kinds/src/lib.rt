// The kind of a pair: its key, its operator and whether its value is marked as plain, as one number, and back.

#![tactic(auto)]

ghost use Rattle.std.specs.Prelude.{◌≡◌};
ghost use Rattle.rules.specs.Key.{PROGRAM, RESULT, key_number, same_key, op_number};
ghost use Rattle.keys.specs.Table.{key_of, operator_of};
ghost use Rattle.kinds.specs.Numbers.{plain_number, key_with, op_with, plain_with, kind_with};

use keys::{Key, Operator};

// ---- as numbers

pub fn key_number(key: Key) -> u8
    ensures { result ≡ key_number (key_of key) }
{
    key as u8
}

fn operator_number(operator: Operator) -> u8
    ensures { result ≡ op_number (operator_of operator) }
{
    operator as u8
}

fn plain_number(plain: bool) -> usize
    ensures { result ≡ plain_number plain }
{
    if plain { 8 } else { 0 }
}

pub fn kind_of(key: Key, operator: Operator, plain: bool) -> usize
    ensures { result ≡ kind_with (key_of key) (operator_of operator) plain }
{
    usize::from(key_number(key)) * 16 + plain_number(plain) + usize::from(operator_number(operator))
}

// ---- and back

// By hand, since no cast gives a key for a number.
pub fn key_with(n: usize) -> Key
    ensures { key_of result ≡ key_with n }
{
    match n {
        0 => Key::Action,
        1 => Key::Devpath,
        2 => Key::Kernel,
        3 => Key::Kernels,
        4 => Key::Subsystem,
        5 => Key::Subsystems,
        6 => Key::Driver,
        7 => Key::Drivers,
        8 => Key::Attr,
        9 => Key::Attrs,
        10 => Key::Env,
        11 => Key::Symlink,
        12 => Key::Tag,
        13 => Key::Owner,
        14 => Key::Group,
        15 => Key::Mode,
        16 => Key::Run,
        17 => Key::Label,
        18 => Key::Goto,
        19 => Key::Options,
        20 => Key::Program,
        _ => Key::Result,
    }
}

// By hand, since no cast gives an operator for a number.
pub fn operator_with(n: usize) -> Operator
    ensures { operator_of result ≡ op_with n }
{
    match n {
        0 => Operator::Equal,
        1 => Operator::Unequal,
        2 => Operator::Assign,
        3 => Operator::Add,
        4 => Operator::Remove,
        _ => Operator::Final,
    }
}

pub fn plain_with(n: usize) -> bool
    ensures { result ≡ plain_with n }
{
    n == 1
}

// ---- the keys that an answer sheet answers (document 02, Item 6)

pub fn is_program(key: Key) -> bool
    ensures { result ≡ same_key (key_of key) PROGRAM }
{
    key == Key::Program
}

pub fn is_result(key: Key) -> bool
    ensures { result ≡ same_key (key_of key) RESULT }
{
    key == Key::Result
}
