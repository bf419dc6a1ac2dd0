// The listing of a run and its close.

#![tactic(auto)]

ghost use Rattle.std.specs.Prelude.{◌≡◌, ◌≤◌, length};
ghost use Rattle.engine.specs.Listing.{listing_from, listing};
ghost use Rattle.insertion.specs.Append.{Appended};
ghost use Rattle.outcome_target.specs.Held.{Holds};
ghost use Rattle.listing_commands.specs.Lines.{Stands};
ghost use Rattle.listing_run.specs.Listed.{OfBoth, OfLeft, Left};

use outcome_target::Layout;

// What a run left and what its close made.
fn put_both(
    out: &mut [u8],
    visited: u32,
    tried: u32,
    t: &[u8],
    layout: Layout,
    list: &[u8],
) -> Option<usize>
    requires { Holds t.now layout × Stands list.now }
    ensures { OfBoth visited tried t.now layout list.now out.old result out.new }
{
    let put = listing_record::put_record(out, 0, visited, tried, t, layout)?;
    listing_commands::put_commands(out, put, list)
}

// The close of what a run left, and the listing of both.
fn list_closed(
    out: &mut [u8],
    visited: u32,
    tried: u32,
    device: &[u8],
    t: &[u8],
    used: usize,
) -> Option<usize>
    requires { Left device.now t.now used }
    ensures { OfLeft visited tried device.now t.now used out.old result out.new }
{
    let mut list: [u8; run_list::FULLEST] = [0; run_list::FULLEST];
    let closed = close::close(device, &t[..used], &mut list);
    if closed.number != 0 {
        return listing_lines::put_refusal_line(out, 0, closed.number, closed.line);
    }
    let chain = device_lookup::chain_of(device);
    let layout = outcome_check::check(&t[..used], chain.len)?;
    put_both(out, visited, tried, t, layout, &list)
}

// From an outcome record, with an answer sheet.
pub fn list_from(
    text: &[u8],
    device: &[u8],
    outcome: &[u8],
    sheet: &[u8],
    out: &mut [u8],
) -> Option<usize>
    ensures { Appended (listing_from text.now device.now outcome.now sheet.now) out.old 0 result out.new }
{
    let mut target: [u8; outcome_target::FULLEST] = [0; outcome_target::FULLEST];
    let ran = run::run(text, device, outcome, sheet, &mut target);
    if ran.number != 0 {
        return listing_lines::put_refusal_line(out, 0, ran.number, ran.line);
    }
    list_closed(
        out,
        ran.visited,
        ran.tried,
        device,
        &target,
        ran.used as usize,
    )
}

// From the fresh outcome record of the device.
pub fn list(text: &[u8], device: &[u8], sheet: &[u8], out: &mut [u8]) -> Option<usize>
    ensures { Appended (listing text.now device.now sheet.now) out.old 0 result out.new }
{
    let mut outcome: [u8; outcome_target::FULLEST] = [0; outcome_target::FULLEST];
    let made = fresh::fresh(device, &mut outcome);
    list_from(text, device, &outcome[..made.used as usize], sheet, out)
}
