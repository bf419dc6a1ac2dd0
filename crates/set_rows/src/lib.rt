// A lent set where it lies (document 02, Items 7, 11 and 14): how many entries it has, the long texts in it, and records beside their devices.

#![tactic(auto)]

ghost use Rattle.std.specs.Prelude.{◌≡◌, ◌≤◌, ◌<◌, List, ℕ, length, get_or};
ghost use Rattle.lists.specs.Lists.{is_some};
ghost use Rattle.bits.specs.Bits.{number_at};
ghost use Rattle.entries.specs.Parse.{Parse};
ghost use Rattle.sets.specs.Sets.{decode_set};
ghost use Rattle.sets.specs.Lent.{one_lent, decode_lent};
ghost use Rattle.set_rows.specs.Places.{bytes_in, Inside, LongFrom, LongIs, LongReads, LentFrom, LentIs, LentReads, skip, EndReads};

use bits::BitCursor;

// ---- the count

pub const MOST_RECORDS: usize = 64;

// How many entries the set says it has.
pub fn count_of(set: &[u8]) -> usize
    requires { 1 ≤ length set.now }
    ensures { (result ≡ get_or set.now 0 0) × (result < 256) }
{
    set[0] as usize
}

// ---- a long text

// Where the bytes of a record or a text begin and end.
#[derive(Clone, Copy)]
pub struct Part {
    pub start: usize,
    pub end: usize,
}

// The bytes themselves.
pub fn bytes_of<'a>(set: &'a [u8], part: Part) -> &'a [u8]
    requires { Inside set.now part }
    ensures { result.now ≡ bytes_in set.now part }
{
    &set[part.start..part.end]
}

fn length_in(head: &[u8]) -> usize
    requires { 2 ≤ length head.now }
    ensures { (result ≡ number_at head.now 0 16) × (result < 65536) }
{
    BitCursor { at: 0 }.take(head, 16).value
}

// The one that is known to stand at a place.
pub fn long_in(set: &[u8], p: usize) -> Part
    requires { LongFrom set.now p }
    ensures { LongIs set.now p result }
{
    let start = p + 2;
    Part {
        start,
        end: start + length_in(&set[p..start]),
    }
}

// The one at any place, if the set reaches so far.
pub fn long_at(set: &[u8], p: usize) -> Option<Part>
    requires { p ≤ length set.now }
    ensures { LongReads set.now p result }
{
    let room = set.len() - p;
    if room < 2 {
        return None;
    }
    let start = p + 2;
    let len = length_in(&set[p..start]);
    if room - 2 < len {
        return None;
    }
    Some(Part {
        start,
        end: start + len,
    })
}

// ---- a record beside its device

#[derive(Clone, Copy)]
pub struct LentPlace {
    pub device: Part,
    pub outcome: Part,
}

// The two that are known to stand at a place.
pub fn lent_in(set: &[u8], p: usize) -> LentPlace
    requires { LentFrom set.now p }
    ensures { LentIs set.now p result }
{
    let device = long_in(set, p);
    let outcome = long_in(set, device.end);
    LentPlace { device, outcome }
}

// The two at any place, if the set reaches so far.
pub fn lent_at(set: &[u8], p: usize) -> Option<LentPlace>
    requires { p ≤ length set.now }
    ensures { LentReads set.now p result }
{
    let device = long_at(set, p)?;
    let outcome = long_at(set, device.end)?;
    Some(LentPlace { device, outcome })
}

// ---- the set

// What stands at each place of a set.
pub trait Entry {
    // What is read at the front of bytes, whatever it is.
    ghost one: { List ℕ → Parse (Unit {0}) };

    // Where the one at a place ends, if the set reaches so far.
    fn end_at(set: &[u8], p: usize) -> Option<usize>
        requires { p ≤ length set.now }
        ensures { EndReads one set.now p result };
}

// The bytes are a set of so many entries, with nothing behind them.
pub fn is_set<E: Entry>(set: &[u8], least: usize, most: usize) -> bool
    ensures { result ≡ is_some (decode_set least most E.one set.now) }
{
    if set.is_empty() {
        return false;
    }
    let count = count_of(set);
    if count < least || most < count {
        return false;
    }
    let mut p = 1;
    for _ in 0..count {
        let Some(end) = E::end_at(set, p) else {
            return false;
        };
        p = end;
    }
    p == set.len()
}

impl Entry for LentPlace {
    ghost one = { λ bs. skip (one_lent bs) };

    fn end_at(set: &[u8], p: usize) -> Option<usize> {
        Some(lent_at(set, p)?.outcome.end)
    }
}

// The bytes are a set of at most 64 such pairs (else refusal 7).
pub fn check_lent(set: &[u8]) -> bool
    ensures { result ≡ is_some (decode_lent set.now) }
{
    is_set::<LentPlace>(set, 0, MOST_RECORDS)
}
