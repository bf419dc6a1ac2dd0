// Whether a rule matches: its match keys at the event device and the outcome, and the nearest device at which its parent
// keys hold.

#![tactic(auto)]

ghost use Rattle.std.specs.Prelude.{◌≡◌, ◌||◌, ◌≤◌, ◌<◌, ⊤, MatchOption};
ghost use Rattle.glob.specs.Plain.{PlainIf};
ghost use Rattle.keys.specs.Table.{key_of, operator_of};
ghost use Rattle.table.specs.Table.{entry_of, Segment, EntryIn};
ghost use Rattle.matching.specs.Subjects.{subject_of, is_parent_subject, is_asked_here, at_event, at_parent, subject_holds, pair_on};
ghost use Rattle.outcome_target.specs.Held.{Holds};
ghost use Rattle.matching.specs.Answers.{first_of, is_asked};
ghost use Rattle.matching.specs.Judging.{Judging, Begun, ListHolds, NearestOf, MatchedOf};

use device_lookup::Chain;
use keys::{Key, Operator};
use match_device::Part;
use outcome_target::{Layout, Texts};
use table::Entry;

// ---- what a pair is judged on

// The action, a part of the event device, a part of a device of the chain (parent keys), a property, links or tags.
#[derive(Clone, Copy)]
pub enum Subject {
    Action,
    Device(Part),
    Parent(Part),
    Property,
    List(Texts),
}

// None for keys that only assign, and for PROGRAM and RESULT, which are judged behind all others.
fn subject_of(key: Key) -> Option<Subject>
    ensures { result ≡ subject_of (key_of key) }
{
    match key {
        Key::Action => Some(Subject::Action),
        Key::Devpath => Some(Subject::Device(Part::Path)),
        Key::Kernel => Some(Subject::Device(Part::Name)),
        Key::Kernels => Some(Subject::Parent(Part::Name)),
        Key::Subsystem => Some(Subject::Device(Part::Subsystem)),
        Key::Subsystems => Some(Subject::Parent(Part::Subsystem)),
        Key::Driver => Some(Subject::Device(Part::Driver)),
        Key::Drivers => Some(Subject::Parent(Part::Driver)),
        Key::Attr => Some(Subject::Device(Part::Attribute)),
        Key::Attrs => Some(Subject::Parent(Part::Attribute)),
        Key::Env => Some(Subject::Property),
        Key::Symlink => Some(Subject::List(Texts::Links)),
        Key::Tag => Some(Subject::List(Texts::Tags)),
        _ => None,
    }
}

// At the event device an operator that assigns asks nothing.
fn at_event(subject: Option<Subject>, operator: Operator) -> Option<Subject>
    ensures { result ≡ at_event subject (operator_of operator) }
{
    match operator {
        Operator::Equal | Operator::Unequal => subject,
        _ => None,
    }
}

// At a device of the chain only parent keys ask something.
fn at_parent(subject: Option<Subject>) -> Option<Subject>
    ensures { result ≡ at_parent subject }
{
    match subject {
        Some(Subject::Parent(part)) => Some(Subject::Device(part)),
        _ => None,
    }
}

fn is_parent(subject: Option<Subject>) -> bool
    ensures { result ≡ is_parent_subject subject }
{
    matches!(subject, Some(Subject::Parent(_)))
}

// Whether something is asked of the event device or of the outcome.
fn is_asked_here(subject: Option<Subject>) -> bool
    ensures { result ≡ is_asked_here subject }
{
    !matches!(subject, Some(Subject::Parent(_)) | None)
}

// ---- one pair at one device

// SYMLINK and TAG.
fn list_holds(
    list: Texts,
    operator: Operator,
    pattern: &[u8],
    plain: bool,
    t: &[u8],
    layout: Layout,
) -> bool
    requires { Holds t.now layout × PlainIf plain pattern.now }
    ensures { ListHolds list (operator_of operator) pattern.now t.now layout result }
{
    let row = outcome_readers::row_of(t, layout, outcome_target::section_of(list));
    match_values::list_holds(operator, pattern, plain, t, row.at, row.count)
}

fn subject_holds(
    subject: Option<Subject>,
    operator: Operator,
    argument: &[u8],
    pattern: &[u8],
    plain: bool,
    dev: &[u8],
    at: usize,
    t: &[u8],
    layout: Layout,
) -> bool
    requires { Judging dev.now at t.now layout × PlainIf plain pattern.now }
    ensures { (x : Judging dev.now at t.now layout) → result ≡ subject_holds subject (operator_of operator) argument.now pattern.now x.device x.member x.state }
{
    match subject {
        Some(Subject::Action) => match_device::action_holds(operator, pattern, plain, dev),
        Some(Subject::Device(part)) => match_device::part_holds(
            part, operator, argument, pattern, plain, dev, at,
        ),
        Some(Subject::Property) => match_values::value_holds(
            operator,
            pattern,
            plain,
            outcome_readers::property(t, layout, argument),
        ),
        Some(Subject::List(list)) => list_holds(list, operator, pattern, plain, t, layout),
        Some(Subject::Parent(_)) | None => true,
    }
}

// A row of the table at one device.
fn pair_holds(
    values: &[u8],
    entry: Entry,
    subject: Option<Subject>,
    dev: &[u8],
    at: usize,
    t: &[u8],
    layout: Layout,
) -> bool
    requires { EntryIn values.now entry × Judging dev.now at t.now layout }
    ensures { (x : Judging dev.now at t.now layout) → result ≡ pair_on subject (entry_of values.now entry) x.device x.member x.state }
{
    subject_holds(
        subject,
        entry.operator,
        &values[entry.start..entry.middle],
        &values[entry.middle..entry.end],
        entry.plain,
        dev,
        at,
        t,
        layout,
    )
}

// The same; a row that asks nothing here is not looked at.
fn row_holds(
    values: &[u8],
    entry: Entry,
    subject: Option<Subject>,
    dev: &[u8],
    at: usize,
    t: &[u8],
    layout: Layout,
) -> bool
    requires { EntryIn values.now entry × Judging dev.now at t.now layout }
    ensures { (x : Judging dev.now at t.now layout) → result ≡ pair_on subject (entry_of values.now entry) x.device x.member x.state }
{
    if !is_asked_here(subject) {
        return true;
    }
    pair_holds(values, entry, subject, dev, at, t, layout)
}

// ---- the parent keys

// The place of the nearest device, from 1, the event device, at which the parent keys of the rows from a place to another hold; or how many
// devices were tried in vain.
// By hand, since the search is to be two loops, over devices and over parent keys, that are left by a label and yield the place
// (docs/DECISIONS.md, "Forms for each place").
fn nearest(
    values: &[u8],
    rows: &[u16],
    from: usize,
    to: usize,
    dev: &[u8],
    chain: Chain,
    t: &[u8],
    layout: Layout,
) -> Result<usize, usize>
    requires { (from ≤ to) × Segment values.now rows.now to × Begun dev.now chain t.now layout }
    ensures { NearestOf values.now rows.now from to dev.now chain t.now layout result }
{
    let devices = chain.len;
    let places = chain.at;
    let mut k: usize = 0;
    'search: loop {
        if devices <= k {
            break 'search Err(devices);
        }
        let device = places[k];
        k += 1;
        for i in from..to {
            let entry = table::pair_at(rows, i);
            let subject = at_parent(subject_of(entry.key));
            if !pair_holds(values, entry, subject, dev, device, t, layout) {
                continue 'search;
            }
        }
        break 'search Ok(k);
    }
}

// ---- a rule

// The first row with a parent key: the one so far, or the i-th, if it is one.
fn first_of(first: Option<usize>, parent: bool, i: usize) -> Option<usize>
    ensures { result ≡ first_of first parent i }
{
    if parent && first.is_none() {
        Some(i)
    } else {
        first
    }
}

// Whether a row up to the next has a key that an answer sheet answers.
fn asks_by(asks: bool, key: Key) -> bool
    ensures { result ≡ (asks || is_asked (key_of key)) }
{
    asks || kinds::is_program(key) || kinds::is_result(key)
}

// The place of the matched device, 0 without parent keys, and whether the rule has a PROGRAM or RESULT, which are still to be judged.
#[derive(Clone, Copy)]
pub struct Matched {
    pub place: usize,
    pub asks: bool,
}

// The row before a place, if it is one of these rows.
fn row_ahead(from: usize, to: usize, first: usize) -> Option<usize>
    ensures { MatchOption result ⊤ (λ k. (from ≤ k) × (k < to)) }
{
    if from < first && first <= to {
        Some(first - 1)
    } else {
        None
    }
}

// A row at the event device.
fn row_holds_at(
    values: &[u8],
    entry: Entry,
    dev: &[u8],
    event: usize,
    t: &[u8],
    layout: Layout,
) -> bool
    requires { EntryIn values.now entry × Judging dev.now event t.now layout }
    ensures { (x : Judging dev.now event t.now layout) → result ≡ pair_on (at_event (subject_of (key_of entry.key)) (operator_of entry.operator)) (entry_of values.now entry) x.device x.member x.state }
{
    let subject = at_event(subject_of(entry.key), entry.operator);
    row_holds(values, entry, subject, dev, event, t, layout)
}

// Whether all keys but PROGRAM and RESULT hold of the rule whose rows stand from a place to another, and at which device: the parent keys
// behind all others, and the row before `first`, if it is one of them, before all others too. Or how many devices were tried in vain.
pub fn match_rule(
    values: &[u8],
    rows: &[u16],
    from: usize,
    to: usize,
    first: usize,
    dev: &[u8],
    chain: Chain,
    t: &[u8],
    layout: Layout,
) -> Result<Matched, usize>
    requires { (from ≤ to) × Segment values.now rows.now to × Begun dev.now chain t.now layout }
    ensures { MatchedOf values.now rows.now from to dev.now chain t.now layout result }
{
    let places = chain.at;
    let event = places[0];
    if let Some(row) = row_ahead(from, to, first) {
        if !row_holds_at(values, table::pair_at(rows, row), dev, event, t, layout) {
            return Err(0);
        }
    }
    let mut parents = None;
    let mut asks = false;
    for i in from..to {
        let entry = table::pair_at(rows, i);
        let key = entry.key;
        if !row_holds_at(values, entry, dev, event, t, layout) {
            return Err(0);
        }
        parents = first_of(parents, is_parent(subject_of(key)), i);
        asks = asks_by(asks, key);
    }
    let Some(start) = parents else {
        return Ok(Matched { place: 0, asks });
    };
    let place = nearest(values, rows, start, to, dev, chain, t, layout)?;
    Ok(Matched { place, asks })
}
