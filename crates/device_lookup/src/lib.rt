// What a sound device record holds, read where it lies: the places of its devices, their texts, attributes and properties.

#![tactic(auto)]

ghost use Rattle.std.specs.Prelude.{◌≡◌, ◌+◌, ◌≤◌, length, drop};
ghost use Rattle.lists.specs.Lists.{cat};
ghost use Rattle.entries.specs.Entry.{enc_prop, lookup, or_empty};
ghost use Rattle.rows.specs.Row.{Row, find_in};
ghost use Rattle.device.specs.Device.{name_of, attr_of, enc_member};
ghost use Rattle.device_lookup.specs.Lookup.{Sound, Standing, OfDevice, OfMember, Placed, Ordered, value_of, Says, Within, part_in, Chained};

use bits::BitCursor;
use rows::Kind;

// How many devices a record has, and where each of them begins.
#[derive(Clone, Copy)]
pub struct Chain {
    pub len: usize,
    pub at: [usize; 16],
}

// Where a value stands and how long it is. A value of no bytes is not missing.
#[derive(Clone, Copy)]
pub struct Span {
    pub start: usize,
    pub len: usize,
}

// Where the parts of a device begin, and how many attributes it has.
#[derive(Drop)]
struct Parts {
    path: usize,
    subsystem: usize,
    driver: usize,
    attributes: usize,
    count: usize,
}

// ---- the texts of the device that begins at a place

fn parts_at(rec: &[u8], at: usize) -> Parts
    requires { Standing rec.now at }
    ensures { OfMember rec.now at (λ m. Placed at m result) × Ordered result (length rec.now) }
{
    let lens = device_head::read_lens(rec, at);
    let path = at + 4;
    let subsystem = path + lens.path;
    let driver = subsystem + lens.subsystem;
    Parts {
        path,
        subsystem,
        driver,
        attributes: driver + lens.driver,
        count: lens.attributes,
    }
}

pub fn path(rec: &[u8], at: usize) -> &[u8]
    requires { Standing rec.now at }
    ensures { OfMember rec.now at (λ m. result.now ≡ m.path) }
{
    device_head::path_at(rec, at)
}

// The last component of its path.
pub fn name(rec: &[u8], at: usize) -> &[u8]
    requires { Standing rec.now at }
    ensures { OfMember rec.now at (λ m. result.now ≡ name_of m) }
{
    let p = device_head::path_at(rec, at);
    let start = scan::last_part(p, b'/');
    &p[start..]
}

pub fn subsystem(rec: &[u8], at: usize) -> &[u8]
    requires { Standing rec.now at }
    ensures { OfMember rec.now at (λ m. result.now ≡ m.subsystem) }
{
    let parts = parts_at(rec, at);
    let start = parts.subsystem;
    let end = parts.driver;
    &rec[start..end]
}

pub fn driver(rec: &[u8], at: usize) -> &[u8]
    requires { Standing rec.now at }
    ensures { OfMember rec.now at (λ m. result.now ≡ m.driver) }
{
    let parts = parts_at(rec, at);
    let start = parts.driver;
    let end = parts.attributes;
    &rec[start..end]
}

// ---- values by their key

// The value under a key among the n properties or attributes from `at` on.
fn find_value(rec: &[u8], at: usize, n: usize, key: &[u8]) -> Option<Span>
    requires { (at ≤ length rec.now) × Row Kind.Property n (drop at rec.now) }
    ensures { (result ≡ value_of (find_in Kind.Property key.now at n (drop at rec.now))) × Within result (length rec.now) }
{
    match rows::find(rec, at, n, Kind::Property, key) {
        Ok(found) => Some(Span {
            start: found.value,
            len: found.len,
        }),
        Err(_) => None,
    }
}

// A value as a part of the record; empty where it is missing.
pub fn part_of(rec: &[u8], v: Option<Span>) -> &[u8]
    requires { Within v (length rec.now) }
    ensures { result.now ≡ part_in rec.now v }
{
    match v {
        Some(span) => &rec[span.start..span.start + span.len],
        None => &rec[..0],
    }
}

// An attribute of the device that begins at a place.
pub fn find_attribute(rec: &[u8], at: usize, key: &[u8]) -> Option<Span>
    requires { Standing rec.now at }
    ensures { OfMember rec.now at (λ m. Says rec.now result (attr_of key.now m)) × Within result (length rec.now) }
{
    let parts = parts_at(rec, at);
    find_value(rec, parts.attributes, parts.count, key)
}

// The same as a part of the record; empty where it is missing.
pub fn attribute<'a, 'b>(rec: &'a [u8], at: usize, key: &'b [u8]) -> &'a [u8]
    requires { Standing rec.now at }
    ensures { OfMember rec.now at (λ m. result.now ≡ or_empty (attr_of key.now m)) }
{
    part_of(rec, find_attribute(rec, at, key))
}

fn property_count(rec: &[u8]) -> usize
    requires { Sound rec.now }
    ensures { OfDevice rec.now (λ d. result ≡ length d.properties) }
{
    let count = BitCursor { at: 44 }.take(rec, 6);
    count.value
}

// A property of the record.
pub fn find_property(rec: &[u8], key: &[u8]) -> Option<Span>
    requires { Sound rec.now }
    ensures { OfDevice rec.now (λ d. Says rec.now result (lookup key.now d.properties)) × Within result (length rec.now) }
{
    find_value(rec, 7, property_count(rec), key)
}

// The same as a part of the record; empty where it is missing.
pub fn property<'a, 'b>(rec: &'a [u8], key: &'b [u8]) -> &'a [u8]
    requires { Sound rec.now }
    ensures { OfDevice rec.now (λ d. result.now ≡ or_empty (lookup key.now d.properties)) }
{
    part_of(rec, find_property(rec, key))
}

// ---- places

// The place behind the properties.
fn properties_end(rec: &[u8]) -> usize
    requires { Sound rec.now }
    ensures { OfDevice rec.now (λ d. result ≡ 7 + length (cat enc_prop d.properties)) × (7 ≤ result) × (result ≤ length rec.now) }
{
    rows::row_end(rec, 7, property_count(rec), Kind::Property)
}

// All properties, as they are packed.
pub fn properties(rec: &[u8]) -> &[u8]
    requires { Sound rec.now }
    ensures { OfDevice rec.now (λ d. result.now ≡ cat enc_prop d.properties) }
{
    let start = 7;
    let end = properties_end(rec);
    &rec[start..end]
}

// The place behind the device that begins at a place.
pub fn member_end(rec: &[u8], at: usize) -> usize
    requires { Standing rec.now at }
    ensures { OfMember rec.now at (λ m. result ≡ at + length (enc_member m)) }
{
    let parts = parts_at(rec, at);
    rows::row_end(rec, parts.attributes, parts.count, Kind::Property)
}

// Where the devices of a record begin.
pub fn chain_of(rec: &[u8]) -> Chain
    requires { Sound rec.now }
    ensures { OfDevice rec.now (λ d. Chained d result) }
{
    let above = BitCursor { at: 4 }.take(rec, 4);
    let n = above.value + 1;
    let mut at: [usize; 16] = [0; 16];
    let mut p = properties_end(rec);
    for i in 0..n {
        at[i] = p;
        p = member_end(rec, p);
    }
    Chain { len: n, at }
}
