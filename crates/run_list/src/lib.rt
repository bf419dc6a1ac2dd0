// The run list: each run's template substituted with the final properties and output, packed one behind the other.

#![tactic(auto)]

ghost use Rattle.std.specs.Prelude.{◌≡◌, true, false, ◌+◌, ◌*◌, ◌≤◌, length};
ghost use Rattle.lists.specs.Sizes.{fullest_run_list};
ghost use Rattle.bits.specs.Fields.{packed};
ghost use Rattle.template.specs.Template.{well_formed};
ghost use Rattle.engine.specs.Substitute.{filled};
ghost use Rattle.engine.specs.Operations.{commands};
ghost use Rattle.substitution.specs.Places.{Sourced, OfSource};
ghost use Rattle.run_list.specs.Lists.{head_fields, count_fields, Short, Made, Listed, Written};
ghost use Rattle.run_list.specs.Records.{RunsStand, OfRuns, RecordStands, OfRecord};

use bits::BitCursor;
use device_lookup::Chain;
use outcome_target::{Layout, Section};
use substitution::Places;

// The bytes of the fullest list.
pub const FULLEST: usize = 8225;

// ---- heads

// Builtin 1, length 10, unused 5.
fn write_head(head: &mut [u8], builtin: bool, len: usize)
    requires { length head.old ≡ 2 }
    ensures { head.new ≡ packed (head_fields builtin len) }
{
    let len_at = BitCursor { at: 0 }.put(head, 1, usize::from(builtin));
    let unused_at = len_at.put(head, 10, len);
    unused_at.put(head, 5, 0);
}

// Count 5, unused 3.
fn write_count(head: &mut [u8], n: usize)
    requires { length head.old ≡ 1 }
    ensures { head.new ≡ packed (count_fields n) }
{
    let unused_at = BitCursor { at: 0 }.put(head, 5, n);
    unused_at.put(head, 3, 0);
}

// ---- entries

// The entry of one run at `at`: its text where it is to stand, then its head.
fn put_command(
    t: &mut [u8],
    at: usize,
    builtin: bool,
    template: &[u8],
    dev: &[u8],
    rec: &[u8],
    from: Places,
) -> Option<usize>
    requires { (at + 514 ≤ length t.old) × (well_formed template.now ≡ true) × Sourced dev.now rec.now from }
    ensures { Short at result × OfSource dev.now rec.now from (λ s. Made builtin (filled false s template.now) t.old at result t.new) }
{
    let start = at + 2;
    let end = start + 512;
    let k = substitution::substitute(template, dev, rec, from, false, &mut t[start..end])?;
    write_head(&mut t[at..start], builtin, k);
    Some(start + k)
}

// The entries of the n runs that stand from `first` on, behind the list's head.
fn put_runs(
    t: &mut [u8],
    dev: &[u8],
    rec: &[u8],
    chain: Chain,
    properties: usize,
    count: usize,
    first: usize,
    n: usize,
) -> Option<usize>
    requires { (1 + 514 * n ≤ length t.old) × RunsStand dev.now rec.now chain properties count first n }
    ensures { OfRuns dev.now rec.now chain properties count first n (λ d ps x rs. Listed (commands d ps x rs) t.old 1 result t.new) }
{
    let mut at: usize = 1;
    let mut p = first;
    for _ in 0..n {
        let run = outcome_readers::run_at(rec, p);
        let from = substitution::places_of(chain, run.place, properties, count);
        at = put_command(t, at, run.builtin, &rec[run.start..run.end], dev, rec, from)?;
        p = run.end;
    }
    Some(at)
}

// ---- the list

// The run list of a sound record beside a sound device record; full is refusal 30.
pub fn write(t: &mut [u8], dev: &[u8], rec: &[u8], chain: Chain, layout: Layout) -> Option<usize>
    requires { (fullest_run_list ≤ length t.old) × RecordStands dev.now rec.now chain layout }
    ensures { OfRecord dev.now rec.now chain layout (λ d s. Written (commands d s.properties s.output s.runs) t.old result t.new) }
{
    let runs = outcome_target::count_of(rec, Section::Runs);
    let count = outcome_target::count_of(rec, Section::Properties);
    let k = put_runs(
        t,
        dev,
        rec,
        chain,
        layout.properties,
        count,
        layout.runs,
        runs,
    )?;
    write_count(&mut t[0..1], runs);
    Some(k)
}
