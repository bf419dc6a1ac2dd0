// What an outcome record holds, read where it lies: a property's value, the output, and the rows for a walk over their entries.

#![tactic(auto)]

ghost use Rattle.std.specs.Prelude.{◌≡◌, ◌+◌, ◌≤◌, length};
ghost use Rattle.bits.specs.Bits.{number_at};
ghost use Rattle.outcome.specs.Head.{header_size};
ghost use Rattle.outcome_target.specs.Held.{Holds};
ghost use Rattle.outcome_readers.specs.Readers.{Standing, Valued, output_in, RunsFrom, FirstOf};

use outcome_target::{Layout, Section};
use rows::Kind;

// Where a row begins, and how many entries it has.
#[derive(Drop)]
pub struct RowPlace {
    pub at: usize,
    pub count: usize,
}

pub fn row_of(t: &[u8], layout: Layout, section: Section) -> RowPlace
    requires { Holds t.now layout }
    ensures { Standing section t.now layout result }
{
    RowPlace {
        at: outcome_target::start_of(layout, section),
        count: outcome_target::count_of(t, section),
    }
}

// The value under a key, a part of the target; empty where it is missing.
pub fn property<'a, 'b>(t: &'a [u8], layout: Layout, key: &'b [u8]) -> &'a [u8]
    requires { Holds t.now layout }
    ensures { Valued t.now layout key.now result.now }
{
    let row = row_of(t, layout, Section::Properties);
    rows::value_of(t, row.at, row.count, key)
}

// The output that a program left last, right behind the header (document 02, Items 5 and 6).
pub fn output_of(rec: &[u8]) -> &[u8]
    requires { header_size + number_at rec.now 88 10 ≤ length rec.now }
    ensures { result.now ≡ output_in rec.now }
{
    let start = outcome_target::HEADER;
    let end = start + outcome_target::field(rec, outcome_target::OUTPUT);
    &rec[start..end]
}

// A run's type and place, and where its template begins and ends.
#[derive(Drop)]
pub struct RunPlace {
    pub builtin: bool,
    pub place: usize,
    pub start: usize,
    pub end: usize,
}

// The first of the runs from p on.
pub fn run_at(t: &[u8], p: usize) -> RunPlace
    requires { RunsFrom t.now p }
    ensures { FirstOf t.now p result }
{
    let entry = rows::parts_at(t, p, Kind::Run);
    let name = entry.name;
    let head = rows::run_head(&t[p..name]);
    RunPlace {
        builtin: head.builtin == 1,
        place: head.place,
        start: name,
        end: entry.end,
    }
}
