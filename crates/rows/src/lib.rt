// Rows of entries that lie in a lent record: one entry, a check, a search by name, distinct names, the end of a row.

#![tactic(auto)]

ghost use Rattle.std.specs.Prelude.{◌≡◌, ℕ, ◌+◌, ◌≤◌, ◌<◌, Bool, List, length, drop};
ghost use Rattle.lists.specs.Bytes.{clean as clean_list, ok_text, among, distinct as distinct_list};
ghost use Rattle.bits.specs.Bits.{number_at};
ghost use Rattle.entries.specs.Parse.{many};
ghost use Rattle.entries.specs.Entry.{Property, ok_prop, one_prop};
ghost use Rattle.rows.specs.Entry.{head_len, size, RunRead, ReplyRead, Shaped, Placed, Read};
ghost use Rattle.rows.specs.Row.{Row, names, find_in, part_of, Within, end_in, end_of, passed_end};

use bits::BitCursor;

// What an entry is: a text behind its length (a link, a tag), a property or an attribute, a run, a reply of an answer sheet.
#[derive(Clone, Copy)]
pub enum Kind {
    Text,
    Property,
    Run,
    Reply,
}

// The lengths of an entry's name and of what follows it. A run's name is its template, a reply's its command.
#[derive(Drop)]
struct Shape {
    name: usize,
    rest: usize,
}

// The fields of a run's head.
#[derive(Drop)]
pub struct RunHead {
    pub builtin: usize,
    pub place: usize,
    pub len: usize,
    pub unused: usize,
}

// The fields of a reply's head.
#[derive(Drop)]
pub struct ReplyHead {
    pub success: usize,
    pub command: usize,
    pub output: usize,
    pub unused: usize,
}

// Where the parts of an entry begin, and where it ends.
#[derive(Clone, Copy)]
pub struct Entry {
    pub name: usize,
    pub rest: usize,
    pub end: usize,
}

// Where a named entry begins, and its value's place and length.
#[derive(Clone, Copy)]
pub struct Found {
    pub at: usize,
    pub value: usize,
    pub len: usize,
}

// ---- one entry

fn head_len(kind: Kind) -> usize
    ensures { result ≡ head_len kind }
{
    match kind {
        Kind::Text => 1,
        Kind::Property => 2,
        Kind::Run => 2,
        Kind::Reply => 3,
    }
}

fn text_shape(head: u8) -> Shape
    ensures { (result.name ≡ head) × (result.rest ≡ 0) × (result.name < 256) }
{
    Shape {
        name: usize::from(head),
        rest: 0,
    }
}

// The head of a property: key length 7, value length 9.
fn property_shape(head: &[u8]) -> Shape
    requires { 2 ≤ length head.now }
    ensures { (result.name ≡ number_at head.now 0 7) × (result.rest ≡ number_at head.now 7 9) × (result.name < 128) × (result.rest < 512) }
{
    let key = BitCursor { at: 0 }.take(head, 7);
    let value = key.next.take(head, 9);
    Shape {
        name: key.value,
        rest: value.value,
    }
}

// The head of a run: builtin 1, place 5, length 9, unused 1.
pub fn run_head(head: &[u8]) -> RunHead
    requires { 2 ≤ length head.now }
    ensures { RunRead head.now result }
{
    let builtin = BitCursor { at: 0 }.take(head, 1);
    let place = builtin.next.take(head, 5);
    let len = place.next.take(head, 9);
    let unused = len.next.take(head, 1);
    RunHead {
        builtin: builtin.value,
        place: place.value,
        len: len.value,
        unused: unused.value,
    }
}

fn run_shape(head: &[u8]) -> Shape
    requires { 2 ≤ length head.now }
    ensures { (result.name ≡ number_at head.now 6 9) × (result.rest ≡ 0) × (result.name < 512) }
{
    let h = run_head(head);
    Shape {
        name: h.len,
        rest: 0,
    }
}

// The head of a reply: success 1, command length 10, output length 10, unused 3.
pub fn reply_head(head: &[u8]) -> ReplyHead
    requires { 3 ≤ length head.now }
    ensures { ReplyRead head.now result }
{
    let success = BitCursor { at: 0 }.take(head, 1);
    let command = success.next.take(head, 10);
    let output = command.next.take(head, 10);
    let unused = output.next.take(head, 3);
    ReplyHead {
        success: success.value,
        command: command.value,
        output: output.value,
        unused: unused.value,
    }
}

fn reply_shape(head: &[u8]) -> Shape
    requires { 3 ≤ length head.now }
    ensures { (result.name ≡ number_at head.now 1 10) × (result.rest ≡ number_at head.now 11 10) × (result.name < 1024) × (result.rest < 1024) }
{
    let h = reply_head(head);
    Shape {
        name: h.command,
        rest: h.output,
    }
}

fn shape_at(rec: &[u8], p: usize, kind: Kind) -> Shape
    requires { p + head_len kind ≤ length rec.now }
    ensures { Shaped kind (drop p rec.now) result }
{
    match kind {
        Kind::Text => text_shape(rec[p]),
        Kind::Property => property_shape(&rec[p..p + 2]),
        Kind::Run => run_shape(&rec[p..p + 2]),
        Kind::Reply => reply_shape(&rec[p..p + 3]),
    }
}

// The entry at a place of a row that is known to be inside.
pub fn parts_at(rec: &[u8], p: usize, kind: Kind) -> Entry
    requires { (p ≤ length rec.now) × (size kind (drop p rec.now) ≤ length (drop p rec.now)) }
    ensures { Placed kind rec.now p result }
{
    let s = shape_at(rec, p, kind);
    let name = p + head_len(kind);
    let rest = name + s.name;
    Entry {
        name,
        rest,
        end: rest + s.rest,
    }
}

// The entry at any place; none where it would reach past the record's end.
pub fn entry_at(rec: &[u8], p: usize, kind: Kind) -> Option<Entry>
    requires { p ≤ length rec.now }
    ensures { Read kind rec.now p result }
{
    let room = rec.len() - p;
    let head = head_len(kind);
    if room < head {
        return None;
    }
    let s = shape_at(rec, p, kind);
    if room - head < s.name + s.rest {
        return None;
    }
    let name = p + head;
    let rest = name + s.name;
    Some(Entry {
        name,
        rest,
        end: rest + s.rest,
    })
}

// ---- content

// No byte is NUL.
pub fn clean(s: &[u8]) -> bool
    ensures { result ≡ clean_list s.now }
{
    !s.contains(&0)
}

// 1 to `most` bytes, no NUL.
pub fn ok_text(s: &[u8], most: usize) -> bool
    ensures { result ≡ ok_text most s.now }
{
    1 <= s.len() && s.len() <= most && clean(s)
}

// A key of 1 to 64 bytes, a value of at most 256, no NUL.
pub fn ok_property(key: &[u8], value: &[u8]) -> bool
    ensures { result ≡ ok_prop (record { key = key.entry.now; value = value.now }) }
{
    ok_text(key, 64) && value.len() <= 256 && clean(value)
}

// ---- rows

// A kind of entries, and the test that each must pass, by its head, its name and what follows the name.
pub trait EntryTest {
    ghost use Rattle.rows.specs.declared.Kind.{Kind};

    const KIND: Kind;

    ghost KIND: { Kind };

    ghost ok: { Self → List ℕ → List ℕ → List ℕ → Bool };

    fn holds(&self, head: &[u8], name: &[u8], rest: &[u8]) -> bool
        requires { head_len KIND ≤ length head.now }
        ensures { result ≡ ok self.now head.now name.now rest.now };
}

// The place behind n entries from `at` on, if each of them passes a test.
pub fn check_entries<T: EntryTest>(rec: &[u8], at: usize, n: usize, test: &T) -> Option<usize>
    requires { at ≤ length rec.now }
    ensures { result ≡ passed_end T.KIND (T.ok test.now) at n (drop at rec.now) }
{
    let mut p = at;
    for _ in 0..n {
        let entry = entry_at(rec, p, T::KIND)?;
        if !test.holds(
            &rec[p..entry.name],
            &rec[entry.name..entry.rest],
            &rec[entry.rest..entry.end],
        ) {
            return None;
        }
        p = entry.end;
    }
    Some(p)
}

#[derive(Clone, Copy)]
struct PropertyTest;

impl EntryTest for PropertyTest {
    ghost use Rattle.rows.specs.declared.Kind.TheVariants as kinds;

    const KIND: Kind = Kind::Property;

    ghost KIND = { kinds.Property };

    ghost ok = { λ t head key value. ok_prop (record { key = key; value = value }) };

    fn holds(&self, _: &[u8], key: &[u8], value: &[u8]) -> bool {
        ok_property(key, value)
    }
}

// The place behind n properties from `at` on, if each of them is sound.
pub fn check_properties(rec: &[u8], at: usize, n: usize) -> Option<usize>
    requires { at ≤ length rec.now }
    ensures { result ≡ end_of (length rec.now) (many one_prop n (drop at rec.now)) }
{
    check_entries(rec, at, n, &PropertyTest)
}

// The entry named x among the n from `at` on; or where the row ends.
pub fn find(rec: &[u8], at: usize, n: usize, kind: Kind, x: &[u8]) -> Result<Found, usize>
    requires { (at ≤ length rec.now) × Row kind n (drop at rec.now) }
    ensures { (result ≡ find_in kind x.now at n (drop at rec.now)) × Within result (length rec.now) }
{
    let mut p = at;
    for _ in 0..n {
        let entry = parts_at(rec, p, kind);
        if scan::same_long(&rec[entry.name..entry.rest], x) {
            return Ok(Found {
                at: p,
                value: entry.rest,
                len: entry.end - entry.rest,
            });
        }
        p = entry.end;
    }
    Err(p)
}

// The value under a key among the n properties from `at` on, a part of the record; empty where it is missing.
pub fn value_of<'a, 'b>(rec: &'a [u8], at: usize, n: usize, key: &'b [u8]) -> &'a [u8]
    requires { (at ≤ length rec.now) × Row Kind.Property n (drop at rec.now) }
    ensures { result.now ≡ part_of (find_in Kind.Property key.now at n (drop at rec.now)) rec.now }
{
    match find(rec, at, n, Kind::Property, key) {
        Ok(found) => &rec[found.value..found.value + found.len],
        Err(_) => &rec[..0],
    }
}

// One of the n entries from `at` on is named x.
pub fn has(rec: &[u8], at: usize, n: usize, kind: Kind, x: &[u8]) -> bool
    requires { (at ≤ length rec.now) × Row kind n (drop at rec.now) }
    ensures { result ≡ among x.now (names kind n (drop at rec.now)) }
{
    find(rec, at, n, kind, x).is_ok()
}

// No two of the n entries from `at` on have the same name.
pub fn distinct(rec: &[u8], at: usize, n: usize, kind: Kind) -> bool
    requires { (at ≤ length rec.now) × Row kind n (drop at rec.now) }
    ensures { result ≡ distinct_list (names kind n (drop at rec.now)) }
{
    let mut p = at;
    for i in 0..n {
        let entry = parts_at(rec, p, kind);
        let name = &rec[entry.name..entry.rest];
        if has(rec, entry.end, n - i - 1, kind, name) {
            return false;
        }
        p = entry.end;
    }
    true
}

// The place behind the n entries from `at` on.
pub fn row_end(rec: &[u8], at: usize, n: usize, kind: Kind) -> usize
    requires { (at ≤ length rec.now) × Row kind n (drop at rec.now) }
    ensures { (result ≡ end_in kind at n (drop at rec.now)) × (result ≤ length rec.now) }
{
    let mut p = at;
    for _ in 0..n {
        p = parts_at(rec, p, kind).end;
    }
    p
}
