// One assignment by its key: skipped where the key is closed, else what the key asks for.

#![tactic(auto)]

ghost use Rattle.std.specs.Prelude.{◌≡◌, true, ℕ, ◌≤◌, length};
ghost use Rattle.lists.specs.Bytes.{clean};
ghost use Rattle.lists.specs.Sizes.{most_value};
ghost use Rattle.keys.specs.Table.{key_of, operator_of};
ghost use Rattle.records.specs.Records.{Ready};
ghost use Rattle.outcome_target.specs.Held.{Holds};
ghost use Rattle.assign_env.specs.Env.{escape_of};
ghost use Rattle.assign_key.specs.Keys.{assignee_of, builtin_in, Fits, FitsKey, ClosableChanged, ClosableAssigned, OptionSet, KeyAssigned};

use assign_env::Escape;
use assign_owner::Single;
use device_lookup::Chain;
use keys::{Key, Operator};
use outcome_fields::Closable;
use outcome_target::Layout;
use refusals::Refusal;
use signed::Setting;

// The layout of the target and the latest `string_escape`, between two assignments of a rule.
#[derive(Clone, Copy)]
pub struct Work {
    pub layout: Layout,
    pub escape: Escape,
}

// What a key assigns to.
#[derive(Drop)]
pub enum Assignee {
    Closable(Closable),
    Property,
    Option,
}

fn assignee_of(key: Key) -> Option<Assignee>
    ensures { result ≡ assignee_of (key_of key) }
{
    match key {
        Key::Symlink => Some(Assignee::Closable(Closable::Links)),
        Key::Tag => Some(Assignee::Closable(Closable::Tags)),
        Key::Run => Some(Assignee::Closable(Closable::Runs)),
        Key::Owner => Some(Assignee::Closable(Closable::Owner)),
        Key::Group => Some(Assignee::Closable(Closable::Group)),
        Key::Mode => Some(Assignee::Closable(Closable::Mode)),
        Key::Env => Some(Assignee::Property),
        Key::Options => Some(Assignee::Option),
        _ => None,
    }
}

// ---- keys that can be closed

fn is_builtin(argument: &[u8]) -> bool
    ensures { result ≡ builtin_in argument.now }
{
    scan::same(argument, b"builtin")
}

fn change_closable(
    t: &mut [u8],
    work: Work,
    dev: &[u8],
    chain: Chain,
    place: usize,
    key: Closable,
    operator: Operator,
    argument: &[u8],
    value: &[u8],
) -> Result<Layout, Refusal>
    requires { Ready dev.now chain t.old work.layout × (place ≤ chain.len) × (clean value.now ≡ true) × (length value.now ≤ most_value) × Fits key value.now }
    ensures { ClosableChanged key (operator_of operator) argument.now value.now dev.now chain place t.old work t.new result }
{
    let layout = work.layout;
    match key {
        Closable::Links => assign_links::assign_links(
            t,
            layout,
            dev,
            chain,
            place,
            operator,
            work.escape,
            value,
        ),
        Closable::Tags => assign_lists::assign_tag(t, layout, operator, value),
        Closable::Runs => assign_lists::assign_run(
            t,
            layout,
            operator,
            is_builtin(argument),
            place,
            value,
        ),
        Closable::Owner => assign_owner::assign_single(
            t,
            layout,
            dev,
            chain,
            place,
            Single::Owner,
            operator,
            value,
        ),
        Closable::Group => assign_owner::assign_single(
            t,
            layout,
            dev,
            chain,
            place,
            Single::Group,
            operator,
            value,
        ),
        Closable::Mode => assign_owner::assign_single(
            t,
            layout,
            dev,
            chain,
            place,
            Single::Mode,
            operator,
            value,
        ),
    }
}

// Skipped whole where the key is closed.
fn assign_closable(
    t: &mut [u8],
    work: Work,
    dev: &[u8],
    chain: Chain,
    place: usize,
    key: Closable,
    operator: Operator,
    argument: &[u8],
    value: &[u8],
) -> Result<Layout, Refusal>
    requires { Ready dev.now chain t.old work.layout × (place ≤ chain.len) × (clean value.now ≡ true) × (length value.now ≤ most_value) × Fits key value.now }
    ensures { ClosableAssigned key (operator_of operator) argument.now value.now dev.now chain place t.old work t.new result }
{
    if outcome_fields::is_closed(t, key) {
        return Ok(work.layout);
    }
    change_closable(t, work, dev, chain, place, key, operator, argument, value)
}

// ---- OPTIONS

fn assign_option(t: &mut [u8], work: Work, value: &[u8]) -> Work
    requires { Holds t.old work.layout }
    ensures { OptionSet value.now t.old work t.new result }
{
    let layout = work.layout;
    match signed::setting_of(value) {
        Some(Setting::EscapeNone) => Work {
            layout,
            escape: Escape::AsIs,
        },
        Some(Setting::EscapeReplace) => Work {
            layout,
            escape: Escape::Replaced,
        },
        Some(Setting::Watch) => {
            outcome_fields::set_watch(t, 1);
            work
        }
        Some(Setting::NoWatch) => {
            outcome_fields::set_watch(t, 2);
            work
        }
        Some(Setting::Priority(priority)) => {
            outcome_fields::set_priority(t, bits::from_signed(priority) as usize);
            work
        }
        None => work,
    }
}

// ---- any key

pub fn assign(
    t: &mut [u8],
    work: Work,
    dev: &[u8],
    chain: Chain,
    place: usize,
    key: Key,
    operator: Operator,
    argument: &[u8],
    value: &[u8],
) -> Result<Work, Refusal>
    requires { Ready dev.now chain t.old work.layout × (place ≤ chain.len) × (clean value.now ≡ true) × (length value.now ≤ most_value) × FitsKey (key_of key) argument.now value.now }
    ensures { KeyAssigned (key_of key) (operator_of operator) argument.now value.now dev.now chain place t.old work t.new result }
{
    match assignee_of(key) {
        Some(Assignee::Closable(closable)) => {
            let layout = assign_closable(
                t, work, dev, chain, place, closable, operator, argument, value,
            )?;
            Ok(Work { layout, ..work })
        }
        Some(Assignee::Property) => {
            let layout = assign_env::assign_property(t, work.layout, work.escape, argument, value)?;
            Ok(Work { layout, ..work })
        }
        Some(Assignee::Option) => Ok(assign_option(t, work, value)),
        None => Ok(work),
    }
}
