// Who holds each link that the records of a lent set claim, a public operation (document 02, Item 7): the list written into the target.

#![tactic(auto)]

ghost use Rattle.std.specs.Prelude.{◌≡◌, ◌+◌, ◌≤◌, ◌<◌, eqb, length, replicate};
ghost use Rattle.lists.specs.Lists.{reject};
ghost use Rattle.splice.specs.Moves.{stored};
ghost use Rattle.set_answers.specs.Answers.{answered};
ghost use Rattle.contest.specs.Operation.{enc_listed, contest_answer};
ghost use Rattle.holders.specs.Lists.{row_of, row_by, Naming, Going, Listing};

use claims::Claimant;
use refusals::Refusal;
use rows::Kind;
use set_answers::Given;

// The bytes of the fullest list.
pub const FULLEST: usize = 134144;

// ---- one row

// Those of a list but the holder, from `at` on; where they end.
fn put_others(t: &mut [u8], at: usize, list: &[u8], holder: u8) -> usize
    requires { at + length (reject (λ p. eqb p holder) list.now) ≤ length t.old }
    ensures { (t.new ≡ stored t.old at (reject (λ p. eqb p holder) list.now)) × (result ≡ at + length (reject (λ p. eqb p holder) list.now)) }
{
    let mut end = at;
    for position in list {
        if *position != holder {
            t[end] = *position;
            end += 1;
        }
    }
    end
}

// A name with its holder and the others of its claimants; where the row ends.
fn put_row(t: &mut [u8], at: usize, name: &[u8], list: &[u8], holder: u8) -> usize
    requires { (at + length (enc_listed (row_by name.now holder list.now)) ≤ length t.old) × (length name.now < 256) × (length list.now < 256) }
    ensures { (t.new ≡ stored t.old at (enc_listed (row_by name.now holder list.now))) × (result ≡ at + length (enc_listed (row_by name.now holder list.now))) }
{
    let start = at + 3;
    let behind = start + name.len();
    splice::store(t, start, name);
    let end = put_others(t, behind, list, holder);
    let head = [claims::byte(name.len()), holder, claims::byte(end - behind)];
    splice::store(t, at, &head);
    end
}

// The row of a name that the record of `first` is the first of n to claim; the records behind it begin at p.
fn put_name(
    t: &mut [u8],
    at: usize,
    set: &[u8],
    p: usize,
    n: usize,
    name: &[u8],
    first: Claimant,
) -> usize
    requires { Naming t.old at set.now p n name.now first }
    ensures { (t.new ≡ stored t.old at (enc_listed (row_of set.now name.now))) × (result ≡ at + length (enc_listed (row_of set.now name.now))) }
{
    let mut list = [0u8; 64];
    let holding = claims::claimants(set, p, n, name, first, &mut list);
    put_row(
        t,
        at,
        name,
        &list[..holding.count],
        claims::byte(holding.holder),
    )
}

// ---- the list

// Where the next record begins, how many are behind it, where the list ends so far, and how many names it has.
#[derive(Drop)]
pub struct Progress {
    pub next: usize,
    pub records: usize,
    pub end: usize,
    pub names: usize,
}

// The rows of those links of the next of n records that no record before it claims.
fn list_record(t: &mut [u8], set: &[u8], n: usize, done: Progress) -> Progress
    requires { Going t.old set.now n × Listing set.now t.old done × (done.records < n) }
    ensures { Listing set.now t.new result × (result.records ≡ done.records + 1) }
{
    let outcome = set_rows::lent_in(set, done.next).outcome;
    let rec = set_rows::bytes_of(set, outcome);
    let row = claims::claims_in(rec);
    let first = Claimant {
        position: done.records + 1,
        priority: row.priority,
    };
    let mut used = done.end;
    let mut names = done.names;
    let mut q = row.links;
    for _ in 0..row.count {
        let entry = rows::parts_at(rec, q, Kind::Text);
        let name = &rec[entry.name..entry.rest];
        if !claims::claimed_before(set, done.records, name) {
            used = put_name(t, used, set, outcome.end, n, name, first);
            names += 1;
        }
        q = entry.end;
    }
    Progress {
        next: outcome.end,
        records: done.records + 1,
        end: used,
        names,
    }
}

// The list of n sound records, in a target of zeros.
fn list(t: &mut [u8], set: &[u8], n: usize) -> Progress
    requires { Going t.old set.now n × (t.old ≡ replicate (length t.old) 0) }
    ensures { Listing set.now t.new result × (result.records ≡ n) }
{
    let mut done = Progress {
        next: 1,
        records: 0,
        end: 0,
        names: 0,
    };
    for _ in 0..n {
        done = list_record(t, set, n, done);
    }
    done
}

pub fn contest(set: &[u8], target: &mut [u8]) -> Given
    ensures { answered result target.new ≡ contest_answer set.now (length target.old) }
{
    splice::clear(target);
    if target.len() < FULLEST {
        return set_answers::refused(Refusal::TargetShort, 0, 0);
    }
    match claims::judge(set) {
        Ok(()) => {
            let listed = list(target, set, set_rows::count_of(set));
            set_answers::accepted(0, 0, listed.end, listed.names)
        }
        Err(fault) => set_answers::refused(fault.refusal, fault.position, fault.line),
    }
}
