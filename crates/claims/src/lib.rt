// What the outcome records of a lent set claim, read where they lie (document 02, Item 7): whether the records are sound, whether one of them
// claims a name, and who does.

#![tactic(auto)]

ghost use Rattle.std.specs.Prelude.{◌≡◌, ℕ, ◌≤◌, ◌<◌, List, length, take, drop};
ghost use Rattle.std.specs.Int.Signed.{lt_z};
ghost use Rattle.lists.specs.Lists.{any};
ghost use Rattle.bits.specs.Bits.{number_at};
ghost use Rattle.bits.specs.Signed.{to_signed};
ghost use Rattle.outcome.specs.Head.{header_size};
ghost use Rattle.contest.specs.Contest.{claims, higher as higher_claimant};
ghost use Rattle.contest.specs.Operation.{states_of};
ghost use Rattle.claims.specs.Judged.{VerdictIs, JudgedIs};
ghost use Rattle.claims.specs.Records.{Held, OfRecord, states_in, Standing, StandsAt, OfFirst};
ghost use Rattle.claims.specs.Claims.{ClaimsAre, ClaimIs, as_claimant, HoldingIs};

use outcome_target::HEADER;
use refusals::{Refusal, SetRefusal};
use rows::Kind;

// ---- soundness

// A device record and the outcome record beside it.
fn judge_record(device: &[u8], outcome: &[u8]) -> Result<(), Refusal>
    ensures { VerdictIs device.now outcome.now result }
{
    if !device_check::check(device) {
        return Err(Refusal::DeviceBad);
    }
    match outcome_check::check(outcome, device_lookup::chain_of(device).len) {
        Some(_) => Ok(()),
        None => Err(Refusal::OutcomeBad),
    }
}

// The first fault of a set, with the position that it has.
pub fn judge(set: &[u8]) -> Result<(), SetRefusal>
    ensures { JudgedIs (states_of set.now) result }
{
    if !set_rows::check_lent(set) {
        return Err(SetRefusal {
            refusal: Refusal::SetBad,
            position: 0,
            line: 0,
        });
    }
    let mut p = 1;
    for i in 0..set_rows::count_of(set) {
        let place = set_rows::lent_in(set, p);
        let judged = judge_record(
            set_rows::bytes_of(set, place.device),
            set_rows::bytes_of(set, place.outcome),
        );
        if let Err(refusal) = judged {
            return Err(SetRefusal {
                refusal,
                position: i + 1,
                line: 0,
            });
        }
        p = place.outcome.end;
    }
    Ok(())
}

// ---- one record

// Where the links of a record begin, how many there are, and its link priority.
#[derive(Drop)]
pub struct Claims {
    pub links: usize,
    pub count: usize,
    pub priority: i32,
}

fn priority_of(rec: &[u8]) -> i32
    requires { header_size ≤ length rec.now }
    ensures { result ≡ to_signed (number_at rec.now 35 32) }
{
    bits::to_signed(outcome_target::field(rec, outcome_target::PRIORITY) as u32)
}

pub fn claims_in(rec: &[u8]) -> Claims
    requires { Held rec.now }
    ensures { OfRecord rec.now (λ s. ClaimsAre rec.now s result) }
{
    let output = outcome_target::field(rec, outcome_target::OUTPUT);
    let owner = outcome_target::field(rec, outcome_target::OWNER);
    let group = outcome_target::field(rec, outcome_target::GROUP);
    Claims {
        links: HEADER + output + owner + group,
        count: outcome_target::field(rec, outcome_target::LINKS),
        priority: priority_of(rec),
    }
}

// The link priority of the record at a place, if it claims a name, and where the next one begins.
#[derive(Clone, Copy)]
pub struct Claim {
    pub priority: Option<i32>,
    pub end: usize,
}

fn claim_at(set: &[u8], p: usize, name: &[u8]) -> Claim
    requires { StandsAt set.now p }
    ensures { OfFirst set.now p (λ s ss. ClaimIs set.now name.now s ss result) }
{
    let outcome = set_rows::lent_in(set, p).outcome;
    let rec = set_rows::bytes_of(set, outcome);
    let row = claims_in(rec);
    let made = rows::has(rec, row.links, row.count, Kind::Text, name);
    Claim {
        priority: if made { Some(row.priority) } else { None },
        end: outcome.end,
    }
}

// ---- all records

// One of the first n claims a name.
pub fn claimed_before(set: &[u8], n: usize, name: &[u8]) -> bool
    requires { Standing set.now 1 (states_in set.now) × (n ≤ length (states_in set.now)) }
    ensures { result ≡ any (claims name.now) (take n (states_in set.now)) }
{
    let mut p = 1;
    for _ in 0..n {
        let claim = claim_at(set, p, name);
        if claim.priority.is_some() {
            return true;
        }
        p = claim.end;
    }
    false
}

// A record that claims a name.
#[derive(Clone, Copy)]
pub struct Claimant {
    pub position: usize,
    pub priority: i32,
}

fn higher(c: Claimant, d: Claimant) -> Claimant
    ensures { as_claimant result ≡ higher_claimant (as_claimant c) (as_claimant d) }
{
    if c.priority < d.priority { d } else { c }
}

pub fn byte(n: usize) -> u8
    requires { n < 256 }
    ensures { result ≡ n }
{
    n as u8
}

// The holder's position, and how many claim the name.
#[derive(Drop)]
pub struct Holding {
    pub holder: usize,
    pub count: usize,
}

// Who claims a name that the record of `first` claims, and of the n records none before it; those behind it begin at p. The positions of all
// claimants come into the list.
pub fn claimants(
    set: &[u8],
    p: usize,
    n: usize,
    name: &[u8],
    first: Claimant,
    list: &mut [u8],
) -> Holding
    requires { (n ≡ length (states_in set.now)) × (n ≤ 64) × (64 ≤ length list.old) × (0 < first.position) × (first.position ≤ n) × Standing set.now p (drop first.position (states_in set.now)) }
    ensures { HoldingIs list.new name.now (as_claimant first) (drop first.position (states_in set.now)) result }
{
    let mut top = first;
    let mut q = p;
    list[0] = byte(first.position);
    let mut count = 1;
    for i in first.position..n {
        let claim = claim_at(set, q, name);
        if let Some(priority) = claim.priority {
            let position = i + 1;
            list[count] = byte(position);
            count += 1;
            top = higher(top, Claimant { position, priority });
        }
        q = claim.end;
    }
    Holding {
        holder: top.position,
        count,
    }
}
