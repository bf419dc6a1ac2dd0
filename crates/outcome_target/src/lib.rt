// The outcome record where it lies in the target: where its rows are, the fields of its header, and how it comes there.

#![tactic(auto)]

ghost use Rattle.std.specs.Prelude.{◌≡◌, ◌+◌, ◌*◌, ◌^◌, ◌≤◌, ◌<◌, length};
ghost use Rattle.bits.specs.Bits.{number_at, put_at};
ghost use Rattle.outcome.specs.Head.{header_size};
ghost use Rattle.outcome_target.specs.Layout.{start_of, end_of, moved_by, all_moved, count_place, count_width, Rising};
ghost use Rattle.outcome_target.specs.Held.{Loaded};
ghost use Rattle.outcome_target.specs.Texts.{section_of};

use bits::BitCursor;

// ---- where the rows are

// Where each row begins, and where the last one ends.
#[derive(Clone, Copy)]
pub struct Layout {
    pub links: usize,
    pub properties: usize,
    pub tags: usize,
    pub runs: usize,
    pub end: usize,
}

#[derive(Clone, Copy)]
pub enum Section {
    Links,
    Properties,
    Tags,
    Runs,
}

// The two lists of texts.
#[derive(Clone, Copy)]
pub enum Texts {
    Links,
    Tags,
}

pub fn section_of(list: Texts) -> Section
    ensures { result ≡ section_of list }
{
    match list {
        Texts::Links => Section::Links,
        Texts::Tags => Section::Tags,
    }
}

pub fn start_of(layout: Layout, section: Section) -> usize
    ensures { result ≡ start_of layout section }
{
    match section {
        Section::Links => layout.links,
        Section::Properties => layout.properties,
        Section::Tags => layout.tags,
        Section::Runs => layout.runs,
    }
}

pub fn end_of(layout: Layout, section: Section) -> usize
    ensures { result ≡ end_of layout section }
{
    match section {
        Section::Links => layout.properties,
        Section::Properties => layout.tags,
        Section::Tags => layout.runs,
        Section::Runs => layout.end,
    }
}

// The layout where `new` bytes stand in the place of `old` in a row.
pub fn moved(layout: Layout, section: Section, old: usize, new: usize) -> Layout
    requires { Rising layout × (old ≤ end_of layout section) × (layout.end + new < 4294967296) }
    ensures { result ≡ moved_by layout section old new }
{
    match section {
        Section::Links => Layout {
            properties: layout.properties + new - old,
            tags: layout.tags + new - old,
            runs: layout.runs + new - old,
            end: layout.end + new - old,
            ..layout
        },
        Section::Properties => Layout {
            tags: layout.tags + new - old,
            runs: layout.runs + new - old,
            end: layout.end + new - old,
            ..layout
        },
        Section::Tags => Layout {
            runs: layout.runs + new - old,
            end: layout.end + new - old,
            ..layout
        },
        Section::Runs => Layout {
            end: layout.end + new - old,
            ..layout
        },
    }
}

// The same in front of all rows.
pub fn all_moved(layout: Layout, old: usize, new: usize) -> Layout
    requires { Rising layout × (old ≤ layout.links) × (layout.end + new < 4294967296) }
    ensures { result ≡ all_moved layout old new }
{
    Layout {
        links: layout.links + new - old,
        properties: layout.properties + new - old,
        tags: layout.tags + new - old,
        runs: layout.runs + new - old,
        end: layout.end + new - old,
    }
}

// ---- the header

// A field of the header: its first bit, and how many it has.
#[derive(Drop)]
pub struct HeadField {
    pub at: usize,
    pub bits: usize,
}

// The fields in their order. Behind the edition stand the six flags of closed keys.
pub const EDITION: HeadField = HeadField { at: 0, bits: 4 };

pub const OWNER: HeadField = HeadField { at: 10, bits: 6 };

pub const GROUP: HeadField = HeadField { at: 16, bits: 6 };

pub const MODE_SET: HeadField = HeadField { at: 22, bits: 1 };

pub const MODE: HeadField = HeadField { at: 23, bits: 12 };

pub const PRIORITY: HeadField = HeadField { at: 35, bits: 32 };

pub const LINKS: HeadField = HeadField { at: 67, bits: 5 };

pub const PROPERTIES: HeadField = HeadField { at: 72, bits: 6 };

pub const TAGS: HeadField = HeadField { at: 78, bits: 5 };

pub const RUNS: HeadField = HeadField { at: 83, bits: 5 };

pub const OUTPUT: HeadField = HeadField { at: 88, bits: 10 };

pub const WATCH: HeadField = HeadField { at: 98, bits: 2 };

// The header's bytes, and those of the fullest record.
pub const HEADER: usize = 13;

pub const FULLEST: usize = 18125;

// The number that a field holds.
pub fn field(t: &[u8], f: HeadField) -> usize
    requires { (f.bits ≤ 32) × (f.at + f.bits ≤ header_size * 8) × (header_size ≤ length t.now) }
    ensures { (result ≡ number_at t.now f.at f.bits) × (result < 2 ^ f.bits) }
{
    let read = BitCursor { at: f.at }.take(t, f.bits);
    read.value
}

pub fn put_field(t: &mut [u8], f: HeadField, v: usize)
    requires { (f.bits ≤ 32) × (f.at + f.bits ≤ header_size * 8) × (header_size ≤ length t.old) }
    ensures { t.new ≡ put_at t.old f.at f.bits v }
{
    BitCursor { at: f.at }.put(t, f.bits, v);
}

// How many entries a row has.
pub fn count_of(t: &[u8], section: Section) -> usize
    requires { header_size ≤ length t.now }
    ensures { (result ≡ number_at t.now (count_place section) (count_width section)) × (result < 64) }
{
    match section {
        Section::Links => field(t, LINKS),
        Section::Properties => field(t, PROPERTIES),
        Section::Tags => field(t, TAGS),
        Section::Runs => field(t, RUNS),
    }
}

pub fn set_count(t: &mut [u8], section: Section, n: usize)
    requires { header_size ≤ length t.old }
    ensures { t.new ≡ put_at t.old (count_place section) (count_width section) n }
{
    match section {
        Section::Links => put_field(t, LINKS, n),
        Section::Properties => put_field(t, PROPERTIES, n),
        Section::Tags => put_field(t, TAGS, n),
        Section::Runs => put_field(t, RUNS, n),
    }
}

// ---- loading

// A sound record is copied into the target, and zeros follow it.
pub fn load(t: &mut [u8], rec: &[u8])
    requires { length rec.now ≤ length t.old }
    ensures { Loaded rec.now t.new }
{
    splice::clear(t);
    splice::store(t, 0, rec);
}
