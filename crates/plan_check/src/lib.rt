// The checker of naming plans, a public operation (document 02, Item 14): whether a rules text, run on each device of a lent set from its
// fresh record with an answer sheet of no replies, leaves the device its wanted link and no other. The text is read once.

#![tactic(auto)]

ghost use Rattle.std.specs.Prelude.{List, [], ◌≡◌, ℕ, ◌*◌, ◌≤◌, length};
ghost use Rattle.lists.specs.Sizes.{fullest_outcome, most_rules, most_text};
ghost use Rattle.device_lookup.specs.Lookup.{Sound, OfDevice};
ghost use Rattle.reader.specs.Read.{Lends};
ghost use Rattle.run_each.specs.Runs.{Readable, ReadAs};
ghost use Rattle.claims.specs.Records.{Held, OfRecord};
ghost use Rattle.set_answers.specs.Answers.{answered};
ghost use Rattle.plan.specs.Plan.{only, names as names_naming, accepts};
ghost use Rattle.plan.specs.Operations.{check as check_answer};
ghost use Rattle.plan_rows.specs.Namings.{namings_in, Whole};

use outcome_target::{HEADER, Layout};
use reader::Counts;
use refusals::LineRefusal;
use rows::Kind;
use set_answers::Given;

// ---- one device

// The links of a record are this one alone.
fn has_only(rec: &[u8], link: &[u8]) -> bool
    requires { Held rec.now }
    ensures { OfRecord rec.now (λ s. result ≡ only link.now s.links) }
{
    let row = claims::claims_in(rec);
    row.count == 1 && rows::has(rec, row.links, row.count, Kind::Text, link)
}

// A text that was read names a device as wanted; its fresh record and what the rules leave of it lie in the buffer.
fn names(
    read: Result<Counts, LineRefusal>,
    values: &[u8],
    rows: &[u16],
    rules: &[u16],
    jumps: &[u16],
    device: &[u8],
    link: &[u8],
    t: &mut [u8],
) -> bool
    requires { Readable values.now rows.now rules.now jumps.now read × Sound device.now × (length t.old ≡ fullest_outcome) }
    ensures { (text : List ℕ) → ReadAs text values.now rows.now rules.now read → OfDevice device.now (λ d. result ≡ names_naming text (record { bytes_lent = device.now; device = d; link = link.now })) }
{
    let Ok(counts) = read else {
        return false;
    };
    let begun = fresh::fresh(device, t);
    let used = begun.used as usize;
    let layout = Layout {
        links: HEADER,
        properties: HEADER,
        tags: used,
        runs: used,
        end: used,
    };
    let sheet = [0u8; 1];
    let ran = runner::run_rules(
        values,
        rows,
        rules,
        jumps,
        counts.rules,
        device,
        device_lookup::chain_of(device),
        &sheet,
        t,
        layout,
    );
    let Ok(ended) = ran else {
        return false;
    };
    has_only(&t[..ended.layout.end], link)
}

// ---- each device

// It names each of the n devices of a set as wanted.
fn names_each(
    read: Result<Counts, LineRefusal>,
    values: &[u8],
    rows: &[u16],
    rules: &[u16],
    jumps: &[u16],
    set: &[u8],
    n: usize,
    t: &mut [u8],
) -> bool
    requires { Readable values.now rows.now rules.now jumps.now read × Whole set.now × (n ≡ length (namings_in set.now)) × (length t.old ≡ fullest_outcome) }
    ensures { (text : List ℕ) → ReadAs text values.now rows.now rules.now read → result ≡ accepts (namings_in set.now) text }
{
    let mut p = 1;
    for _ in 0..n {
        let place = plan_rows::wish_in(set, p);
        let named = names(
            read,
            values,
            rows,
            rules,
            jumps,
            set_rows::bytes_of(set, place.device),
            set_rows::bytes_of(set, place.link),
            t,
        );
        if !named {
            return false;
        }
        p = place.link.end;
    }
    true
}

// ---- the text

// The same with room for the text that a caller lends.
fn accepts_lent(
    text: &[u8],
    values: &mut [u8],
    rows: &mut [u16],
    rules: &mut [u16],
    labels: &mut [u16],
    jumps: &mut [u16],
    set: &[u8],
    n: usize,
) -> bool
    requires { Whole set.now × (n ≡ length (namings_in set.now)) × (length text.now ≤ most_text → Lends (length text.now) values.old rows.old) × (length rules.old ≡ most_rules * 4) × (length labels.old ≡ most_rules) × (length jumps.old ≡ most_rules) }
    ensures { result ≡ accepts (namings_in set.now) text.now }
{
    let read = reader::read_text(text, values, rows, rules, labels, jumps);
    let mut t = [0u8; 18125];
    names_each(read, values, rows, rules, jumps, set, n, &mut t)
}

fn accepts_any(text: &[u8], set: &[u8], n: usize) -> bool
    requires { Whole set.now × (n ≡ length (namings_in set.now)) }
    ensures { result ≡ accepts (namings_in set.now) text.now }
{
    let mut values = [0u8; 32768];
    let mut rows = [0u16; 18728];
    let mut rules = [0u16; 2048];
    let mut labels = [0u16; 512];
    let mut jumps = [0u16; 512];
    accepts_lent(
        text,
        &mut values,
        &mut rows,
        &mut rules,
        &mut labels,
        &mut jumps,
        set,
        n,
    )
}

// ---- the operation

pub fn check(set: &[u8], text: &[u8]) -> Given
    ensures { answered result [] ≡ check_answer set.now text.now }
{
    if let Err(fault) = plan_rows::judge(set) {
        return set_answers::refused(fault.refusal, fault.position, fault.line);
    }
    if accepts_any(text, set, set_rows::count_of(set)) {
        return set_answers::accepted(0, 0, 0, 1);
    }
    set_answers::accepted(0, 0, 0, 0)
}
