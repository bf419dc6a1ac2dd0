// An entry put into a row of the target or taken out of it: the bytes, the header's count and the layout.

#![tactic(auto)]

ghost use Rattle.std.specs.Prelude.{◌≡◌, ◌+◌, ◌≤◌, ◌<◌, length};
ghost use Rattle.lists.specs.Sizes.{fullest_outcome};
ghost use Rattle.bits.specs.Fields.{packed};
ghost use Rattle.splice.specs.Moves.{inserted};
ghost use Rattle.entries.specs.Entry.{enc_text, prop_fields, enc_prop};
ghost use Rattle.outcome_target.specs.Layout.{Rising, end_of, moved_by};
ghost use Rattle.row_edits.specs.Edits.{run_bits, encoded_run, Grown, Cut, Revalued};

use bits::BitCursor;
use outcome_target::{Layout, Section};

// ---- heads

// Key length 7, value length 9.
fn write_property_head(head: &mut [u8], key: usize, value: usize)
    requires { length head.old ≡ 2 }
    ensures { head.new ≡ packed (prop_fields key value) }
{
    let next = BitCursor { at: 0 }.put(head, 7, key);
    next.put(head, 9, value);
}

// Builtin 1, place 5, length 9, unused 1.
fn write_run_head(head: &mut [u8], builtin: usize, place: usize, len: usize)
    requires { length head.old ≡ 2 }
    ensures { head.new ≡ packed (run_bits builtin place len) }
{
    let place_at = BitCursor { at: 0 }.put(head, 1, builtin);
    let len_at = place_at.put(head, 5, place);
    let unused_at = len_at.put(head, 9, len);
    unused_at.put(head, 1, 0);
}

// ---- entries

// A text behind its length, at `at`.
fn insert_text(t: &mut [u8], at: usize, used: usize, x: &[u8])
    requires { (at ≤ used) × (used + (1 + length x.now) ≤ length t.old) × (length x.now < 256) }
    ensures { t.new ≡ inserted t.old at used (enc_text x.now) }
{
    let k = x.len();
    splice::open_gap(t, at, used, 1 + k);
    t[at] = k as u8;
    splice::store(t, at + 1, x);
}

fn insert_property(t: &mut [u8], at: usize, used: usize, key: &[u8], value: &[u8])
    requires { (at ≤ used) × (used + (2 + length key.now + length value.now) ≤ length t.old) }
    ensures { t.new ≡ inserted t.old at used (enc_prop (record { key = key.entry.now; value = value.now })) }
{
    let k = key.len();
    let v = value.len();
    splice::open_gap(t, at, used, 2 + k + v);
    write_property_head(&mut t[at..at + 2], k, v);
    splice::store(t, at + 2, key);
    splice::store(t, at + 2 + k, value);
}

fn insert_run(t: &mut [u8], at: usize, used: usize, builtin: usize, place: usize, template: &[u8])
    requires { (at ≤ used) × (used + (2 + length template.now) ≤ length t.old) }
    ensures { t.new ≡ inserted t.old at used (encoded_run builtin place template.now) }
{
    let k = template.len();
    splice::open_gap(t, at, used, 2 + k);
    write_run_head(&mut t[at..at + 2], builtin, place, k);
    splice::store(t, at + 2, template);
}

// ---- rows

// A text behind the last of n entries of a row.
pub fn append_text(t: &mut [u8], layout: Layout, section: Section, n: usize, x: &[u8]) -> Layout
    requires { Rising layout × (layout.end + (1 + length x.now) ≤ length t.old) × (length x.now < 256) × (n < 64) × (layout.end ≤ fullest_outcome) }
    ensures { Grown t.old layout section (n + 1) (enc_text x.now) t.new result }
{
    let at = outcome_target::end_of(layout, section);
    insert_text(t, at, layout.end, x);
    outcome_target::set_count(t, section, n + 1);
    outcome_target::moved(layout, section, 0, 1 + x.len())
}

pub fn append_property(t: &mut [u8], layout: Layout, n: usize, key: &[u8], value: &[u8]) -> Layout
    requires { Rising layout × (layout.end + (2 + length key.now + length value.now) ≤ length t.old) × (n < 64) × (layout.end + (length key.now + length value.now) ≤ fullest_outcome) }
    ensures { Grown t.old layout Section.Properties (n + 1) (enc_prop (record { key = key.entry.now; value = value.now })) t.new result }
{
    insert_property(t, layout.tags, layout.end, key, value);
    outcome_target::set_count(t, Section::Properties, n + 1);
    outcome_target::moved(layout, Section::Properties, 0, 2 + key.len() + value.len())
}

pub fn append_run(
    t: &mut [u8],
    layout: Layout,
    n: usize,
    builtin: usize,
    place: usize,
    template: &[u8],
) -> Layout
    requires { Rising layout × (layout.end + (2 + length template.now) ≤ length t.old) × (n < 64) × (layout.end + length template.now ≤ fullest_outcome) }
    ensures { Grown t.old layout Section.Runs (n + 1) (encoded_run builtin place template.now) t.new result }
{
    insert_run(t, layout.end, layout.end, builtin, place, template);
    outcome_target::set_count(t, Section::Runs, n + 1);
    outcome_target::moved(layout, Section::Runs, 0, 2 + template.len())
}

// The k bytes at `at` go, and n entries stay.
pub fn cut(t: &mut [u8], layout: Layout, section: Section, at: usize, k: usize, n: usize) -> Layout
    requires { Rising layout × (at + k ≤ end_of layout section) × (layout.end ≤ length t.old) × (layout.end ≤ fullest_outcome) }
    ensures { Cut t.old layout section at k n t.new result }
{
    splice::remove(t, at, layout.end, k);
    outcome_target::set_count(t, section, n);
    outcome_target::moved(layout, section, k, 0)
}

// Another value for the property at `at`, whose key has `key` bytes and whose value has `old`.
pub fn replace_value(
    t: &mut [u8],
    layout: Layout,
    at: usize,
    key: usize,
    old: usize,
    value: &[u8],
) -> Layout
    requires { Rising layout × (at + 2 + key + old ≤ layout.tags) × (layout.end ≤ length t.old) × (layout.end + length value.now ≤ length t.old + old) × (layout.end + length value.now < 4294967296) }
    ensures { Revalued t.old layout at key old value.now t.new result }
{
    let new = value.len();
    splice::replace(t, at + 2 + key, old, layout.end, value);
    write_property_head(&mut t[at..at + 2], key, new);
    outcome_target::moved(layout, Section::Properties, old, new)
}
