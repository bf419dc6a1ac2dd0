// The content of a pair, refusal 15, and with it the whole pair.

#![tactic(auto)]

ghost use Rattle.std.specs.Prelude.{◌≡◌, not, ◌&&◌, ◌≤◌, length, drop};
ghost use Rattle.lists.specs.Lists.{is_some};
ghost use Rattle.lists.specs.Bytes.{part};
ghost use Rattle.rules.specs.Key.{PROGRAM, same_key, is_match};
ghost use Rattle.rules.specs.Setting.{setting_of};
ghost use Rattle.rules.specs.Reading as reading;
ghost use Rattle.keys.specs.Table.{key_of, operator_of};
ghost use Rattle.pairs.specs.Answers.{unescaped, read_by};
ghost use Rattle.pairs.specs.Bounds.{WrittenAt, ValueAt, ReadIn};
ghost use Rattle.pair_content.specs.Content.{ContentIs, pair_read, MarkedIn};

use glob::Form;
use keys::{Key, Operator};
use pairs::Pair;
use refusals::Refusal;

// ---- the value of an assignment

fn is_setting(value: &[u8]) -> bool
    ensures { result ≡ is_some (setting_of value.now) }
{
    signed::setting_of(value).is_some()
}

// Whether a value that is assigned to a key has the form that the key asks for.
fn assigned_sound(key: Key, value: &[u8]) -> bool
    ensures { result ≡ reading.sound_assigned (key_of key) value.now }
{
    match key {
        Key::Action => true,
        Key::Devpath => true,
        Key::Kernel => true,
        Key::Kernels => true,
        Key::Subsystem => true,
        Key::Subsystems => true,
        Key::Driver => true,
        Key::Drivers => true,
        Key::Attr => true,
        Key::Attrs => true,
        Key::Env => true,
        Key::Symlink => pieces::well_formed(value),
        Key::Tag => value.len() <= 64,
        Key::Owner => pieces::well_formed(value),
        Key::Group => pieces::well_formed(value),
        Key::Mode => pieces::well_formed(value),
        Key::Run => pieces::well_formed(value),
        Key::Label => value.len() != 0,
        Key::Goto => value.len() != 0,
        Key::Options => is_setting(value),
        Key::Program => pieces::well_formed(value),
        Key::Result => true,
    }
}

// ---- the value of any pair

fn is_match(operator: Operator) -> bool
    ensures { result ≡ is_match (operator_of operator) }
{
    match operator {
        Operator::Equal => true,
        Operator::Unequal => true,
        Operator::Assign => false,
        Operator::Add => false,
        Operator::Remove => false,
        Operator::Final => false,
    }
}

// Whether the value of a pair is a pattern: that of a PROGRAM never is.
fn is_pattern(key: Key, operator: Operator) -> bool
    ensures { result ≡ (is_match (operator_of operator) && not (same_key (key_of key) PROGRAM)) }
{
    is_match(operator) && !kinds::is_program(key)
}

// What a value, unescaped, is by its key and operator: one that they do not ask for is faulty; only a pattern can be plain.
pub fn value_form(key: Key, operator: Operator, value: &[u8]) -> Form
    ensures { ContentIs result (key_of key) (operator_of operator) value.now }
{
    if is_pattern(key, operator) {
        return glob::form_of(value);
    }
    if assigned_sound(key, value) {
        Form::Sound
    } else {
        Form::Faulty
    }
}

// The same of a value with escapes, as written from start to end.
fn escaped_form(
    key: Key,
    operator: Operator,
    line: &[u8],
    coded: bool,
    start: usize,
    end: usize,
) -> Form
    requires { WrittenAt line.now coded start end × (length (unescaped coded (part line.now start end)) ≤ 256) }
    ensures { ContentIs result (key_of key) (operator_of operator) (unescaped coded (part line.now start end)) }
{
    let mut value = [0u8; 256];
    let n = pairs::value_into(line, coded, start, end, &mut value);
    value_form(key, operator, &value[..n])
}

// The same of a value as written, of which len bytes are left after unescaping; without an escape it is judged in place.
fn written_form(
    key: Key,
    operator: Operator,
    line: &[u8],
    coded: bool,
    start: usize,
    end: usize,
    len: usize,
) -> Form
    requires { ValueAt line.now coded start end len }
    ensures { ContentIs result (key_of key) (operator_of operator) (unescaped coded (part line.now start end)) }
{
    if len == end - start {
        return value_form(key, operator, &line[start..end]);
    }
    escaped_form(key, operator, line, coded, start, end)
}

// ---- a pair

// A pair that was read, and whether its value is marked as plain.
#[derive(Debug, Clone, Copy, PartialEq, Eq)]
pub struct Judged {
    pub pair: Pair,
    pub plain: bool,
}

// The pair at a place, its content judged too.
pub fn read_pair(line: &[u8], at: usize) -> Result<Judged, Refusal>
    requires { at ≤ length line.now }
    ensures { (read_by line.now (pair_read result) ≡ reading.read_pair (drop at line.now)) × ReadIn line.now (pair_read result) × MarkedIn line.now result }
{
    let pair = pairs::read_pair(line, at)?;
    match written_form(
        pair.key,
        pair.operator,
        line,
        pair.coded,
        pair.start,
        pair.end,
        pair.len,
    ) {
        Form::Plain => Ok(Judged { pair, plain: true }),
        Form::Sound => Ok(Judged { pair, plain: false }),
        Form::Faulty => Err(Refusal::ContentBad),
    }
}
