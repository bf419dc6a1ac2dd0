// The outcome record checked where it lies (refusal 4): its header, its parts in their order, nothing behind them, no entry twice.

#![tactic(auto)]

ghost use Rattle.std.specs.Prelude.{◌≡◌, ◌≤◌, ◌||◌, eqb, length, take, drop};
ghost use Rattle.entries.specs.Parse.{many};
ghost use Rattle.entries.specs.Entry.{one_text};
ghost use Rattle.rows.specs.Row.{end_of};
ghost use Rattle.outcome.specs.Head.{header_size};
ghost use Rattle.outcome.specs.State.{one_sized, one_run, decode};
ghost use Rattle.outcome_check.specs.Counts.{Counted, ok_counts};
ghost use Rattle.outcome_target.specs.Texts.{ok_of};
ghost use Rattle.outcome_check.specs.Check.{ok_head_text, front, ok_run_of, PartsAre, Standing, apart_in, checked_of};

use bits::BitCursor;
use outcome_target::{HEADER, Layout, Texts};
use rows::{EntryTest, Kind};

// ---- the header

// The numbers of the header that the check needs.
#[derive(Clone, Copy)]
pub struct Counts {
    pub edition: usize,
    pub owner: usize,
    pub group: usize,
    pub mode_set: usize,
    pub mode: usize,
    pub links: usize,
    pub properties: usize,
    pub tags: usize,
    pub runs: usize,
    pub output: usize,
    pub watch: usize,
    pub unused: usize,
}

pub fn counts_in(head: &[u8]) -> Counts
    requires { header_size ≤ length head.now }
    ensures { Counted head.now result }
{
    let edition = BitCursor { at: 0 }.take(head, outcome_target::EDITION.bits);
    let closed = edition.next.take(head, 6);
    let owner = closed.next.take(head, outcome_target::OWNER.bits);
    let group = owner.next.take(head, outcome_target::GROUP.bits);
    let mode_set = group.next.take(head, outcome_target::MODE_SET.bits);
    let mode = mode_set.next.take(head, outcome_target::MODE.bits);
    let priority = mode.next.take(head, outcome_target::PRIORITY.bits);
    let links = priority.next.take(head, outcome_target::LINKS.bits);
    let properties = links.next.take(head, outcome_target::PROPERTIES.bits);
    let tags = properties.next.take(head, outcome_target::TAGS.bits);
    let runs = tags.next.take(head, outcome_target::RUNS.bits);
    let output = runs.next.take(head, outcome_target::OUTPUT.bits);
    let watch = output.next.take(head, outcome_target::WATCH.bits);
    let unused = watch.next.take(head, 4);
    Counts {
        edition: edition.value,
        owner: owner.value,
        group: group.value,
        mode_set: mode_set.value,
        mode: mode.value,
        links: links.value,
        properties: properties.value,
        tags: tags.value,
        runs: runs.value,
        output: output.value,
        watch: watch.value,
        unused: unused.value,
    }
}

fn ok_mode(set: usize, mode: usize) -> bool
    ensures { result ≡ (eqb set 1 || eqb mode 0) }
{
    set == 1 || mode == 0
}

// Edition 2, watch set or not, unused bits zero, no mode without its mark, none that lets others write, no more than there may be of each.
fn ok_counts(c: Counts) -> bool
    ensures { result ≡ ok_counts c }
{
    c.edition == 2
        && c.watch <= 2
        && c.unused == 0
        && ok_mode(c.mode_set, c.mode)
        && !content::others_write(c.mode)
        && c.links <= 16
        && c.properties <= 32
        && c.tags <= 16
        && c.runs <= 16
}

// ---- the parts

// The texts whose lengths the header gives: the output, and names, which are the owner and the group.
#[derive(Drop)]
pub enum HeadText {
    Output,
    Name,
}

fn ok_head_text(text: HeadText, x: &[u8]) -> bool
    ensures { result ≡ ok_head_text text x.now }
{
    match text {
        HeadText::Output => content::ok_output(x),
        HeadText::Name => content::ok_owner(x),
    }
}

// The place behind such a text of k bytes at `at`.
fn check_head_text(rec: &[u8], at: usize, k: usize, text: HeadText) -> Option<usize>
    requires { at ≤ length rec.now }
    ensures { result ≡ end_of (length rec.now) (one_sized (ok_head_text text) k (drop at rec.now)) }
{
    if rec.len() - at < k || !ok_head_text(text, &rec[at..at + k]) {
        return None;
    }
    Some(at + k)
}

// The place behind output, owner and group.
fn check_front(rec: &[u8], c: Counts) -> Option<usize>
    requires { header_size ≤ length rec.now }
    ensures { result ≡ end_of (length rec.now) (front c (drop header_size rec.now)) }
{
    let owner = check_head_text(rec, HEADER, c.output, HeadText::Output)?;
    let group = check_head_text(rec, owner, c.owner, HeadText::Name)?;
    check_head_text(rec, group, c.group, HeadText::Name)
}

fn ok_entry(list: Texts, x: &[u8]) -> bool
    ensures { result ≡ ok_of list x.now }
{
    match list {
        Texts::Links => content::ok_link(x),
        Texts::Tags => rows::ok_text(x, 64),
    }
}

#[derive(Clone, Copy)]
struct TextTest {
    list: Texts,
}

impl EntryTest for TextTest {
    ghost use Rattle.rows.specs.declared.Kind.TheVariants as kinds;

    const KIND: Kind = Kind::Text;

    ghost KIND = { kinds.Text };

    ghost ok = { λ t head x rest. ok_of t.list x };

    fn holds(&self, _: &[u8], x: &[u8], _: &[u8]) -> bool {
        ok_entry(self.list, x)
    }
}

// The place behind n links or tags from `at` on, if each of them is sound.
fn check_texts(rec: &[u8], at: usize, n: usize, list: Texts) -> Option<usize>
    requires { at ≤ length rec.now }
    ensures { result ≡ end_of (length rec.now) (many (one_text (ok_of list)) n (drop at rec.now)) }
{
    rows::check_entries(rec, at, n, &TextTest { list })
}

// A run's unused bit, place and template.
fn ok_run(head: &[u8], template: &[u8], chain: usize) -> bool
    requires { 2 ≤ length head.now }
    ensures { result ≡ ok_run_of chain head.now template.now }
{
    let h = rows::run_head(head);
    h.unused == 0
        && h.place <= 16
        && h.place <= chain
        && rows::ok_text(template, 256)
        && pieces::well_formed(template)
}

#[derive(Clone, Copy)]
struct RunTest {
    chain: usize,
}

impl EntryTest for RunTest {
    ghost use Rattle.rows.specs.declared.Kind.TheVariants as kinds;

    const KIND: Kind = Kind::Run;

    ghost KIND = { kinds.Run };

    ghost ok = { λ t head template rest. ok_run_of t.chain head template };

    fn holds(&self, head: &[u8], template: &[u8], _: &[u8]) -> bool {
        ok_run(head, template, self.chain)
    }
}

// The place behind n runs from `at` on, if each of them is sound beside a chain of `chain` devices.
fn check_runs(rec: &[u8], at: usize, n: usize, chain: usize) -> Option<usize>
    requires { at ≤ length rec.now }
    ensures { result ≡ end_of (length rec.now) (many (one_run chain) n (drop at rec.now)) }
{
    rows::check_entries(rec, at, n, &RunTest { chain })
}

// ---- the record

// The parts behind the header, up to the record's end; none where one of them is not sound.
fn check_parts(rec: &[u8], c: Counts, chain: usize) -> Option<Layout>
    requires { (header_size ≤ length rec.now) × Counted (take header_size rec.now) c }
    ensures { PartsAre chain rec.now c result }
{
    let links = check_front(rec, c)?;
    let properties = check_texts(rec, links, c.links, Texts::Links)?;
    let tags = rows::check_properties(rec, properties, c.properties)?;
    let runs = check_texts(rec, tags, c.tags, Texts::Tags)?;
    let end = check_runs(rec, runs, c.runs, chain)?;
    if end < rec.len() {
        return None;
    }
    Some(Layout {
        links,
        properties,
        tags,
        runs,
        end,
    })
}

// No link, no key of a property and no tag stands twice.
fn entries_apart(rec: &[u8], c: Counts, layout: Layout) -> bool
    requires { Standing rec.now c layout }
    ensures { result ≡ apart_in rec.now c layout }
{
    rows::distinct(rec, layout.links, c.links, Kind::Text)
        && rows::distinct(rec, layout.properties, c.properties, Kind::Property)
        && rows::distinct(rec, layout.tags, c.tags, Kind::Text)
}

// Where the rows of a record are that is sound beside a chain of `chain` devices; none where it is not sound.
pub fn check(rec: &[u8], chain: usize) -> Option<Layout>
    ensures { result ≡ checked_of (decode chain rec.now) }
{
    if rec.len() < HEADER {
        return None;
    }
    let c = counts_in(&rec[0..HEADER]);
    if !ok_counts(c) {
        return None;
    }
    let layout = check_parts(rec, c, chain)?;
    if !entries_apart(rec, c, layout) {
        return None;
    }
    Some(layout)
}
