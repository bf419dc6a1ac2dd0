// The lines of the listing for a run's counts and the outcome record in the target.

#![tactic(auto)]

ghost use Rattle.std.specs.Prelude.{◌≤◌, length};
ghost use Rattle.lists.specs.Quoted.{bytes};
ghost use Rattle.bits.specs.Signed.{to_signed};
ghost use Rattle.outcome_target.specs.Held.{Holds};
ghost use Rattle.insertion.specs.Append.{Appended};
ghost use Rattle.engine.specs.Listing.{signed, line_of, mode_line, set_line, watch_line};
ghost use Rattle.outcome_target.specs.Texts.{texts_in};
ghost use Rattle.listing_record.specs.Lines.{StateBehind, text_lines, property_lines, count_lines, setting_lines, list_lines, record_lines};

use outcome_target::{Layout, Section, Texts};
use rows::Kind;

// The links or the tags.
fn put_texts(
    out: &mut [u8],
    used: usize,
    word: &[u8],
    t: &[u8],
    layout: Layout,
    list: Texts,
) -> Option<usize>
    requires room { used ≤ length out.old }
    requires held { Holds t.now layout }
    ensures { StateBehind (λ s. text_lines word.now (texts_in list s)) t.now layout out.old used result out.new }
{
    let row = outcome_readers::row_of(t, layout, outcome_target::section_of(list));
    listing_rows::put_entries(out, used, word, Kind::Text, t, row.at, row.count)
}

fn put_properties(
    out: &mut [u8],
    used: usize,
    word: &[u8],
    t: &[u8],
    layout: Layout,
) -> Option<usize>
    requires room { used ≤ length out.old }
    requires held { Holds t.now layout }
    ensures { StateBehind (λ s. property_lines word.now s.properties) t.now layout out.old used result out.new }
{
    let row = outcome_readers::row_of(t, layout, Section::Properties);
    listing_rows::put_entries(out, used, word, Kind::Property, t, row.at, row.count)
}

fn put_priority(out: &mut [u8], used: usize, word: &[u8], t: &[u8], layout: Layout) -> Option<usize>
    requires room { used ≤ length out.old }
    requires held { Holds t.now layout }
    ensures { StateBehind (λ s. line_of word.now (signed (to_signed s.priority))) t.now layout out.old used result out.new }
{
    let priority = outcome_target::field(t, outcome_target::PRIORITY);
    listing_lines::put_signed_line(out, used, word, bits::to_signed(priority as u32))
}

// No line for a mode that is not set.
fn put_mode(out: &mut [u8], used: usize, t: &[u8], layout: Layout) -> Option<usize>
    requires room { used ≤ length out.old }
    requires held { Holds t.now layout }
    ensures { StateBehind (λ s. mode_line s.mode) t.now layout out.old used result out.new }
{
    let set = outcome_target::field(t, outcome_target::MODE_SET);
    if set == 0 {
        return Some(used);
    }
    let mode = outcome_target::field(t, outcome_target::MODE);
    listing_lines::put_mode_line(out, used, b"mode", mode as u32)
}

fn put_owner(out: &mut [u8], used: usize, t: &[u8], layout: Layout) -> Option<usize>
    requires room { used ≤ length out.old }
    requires held { Holds t.now layout }
    ensures { StateBehind (λ s. set_line (bytes "owner") s.owner) t.now layout out.old used result out.new }
{
    let end = layout.links - outcome_target::field(t, outcome_target::GROUP);
    let start = end - outcome_target::field(t, outcome_target::OWNER);
    listing_lines::put_set_line(out, used, b"owner", &t[start..end])
}

fn put_group(out: &mut [u8], used: usize, t: &[u8], layout: Layout) -> Option<usize>
    requires room { used ≤ length out.old }
    requires held { Holds t.now layout }
    ensures { StateBehind (λ s. set_line (bytes "group") s.group) t.now layout out.old used result out.new }
{
    let end = layout.links;
    let start = end - outcome_target::field(t, outcome_target::GROUP);
    listing_lines::put_set_line(out, used, b"group", &t[start..end])
}

// `watch` or `nowatch` alone, no line where neither is set.
fn put_watch(out: &mut [u8], used: usize, t: &[u8], layout: Layout) -> Option<usize>
    requires room { used ≤ length out.old }
    requires held { Holds t.now layout }
    ensures { StateBehind (λ s. watch_line s.watch) t.now layout out.old used result out.new }
{
    match outcome_target::field(t, outcome_target::WATCH) {
        1 => listing_lines::put_text(out, used, b"watch\n"),
        2 => listing_lines::put_text(out, used, b"nowatch\n"),
        _ => Some(used),
    }
}

// The rules visited and the devices tried by the run that left the record.
fn put_counts(out: &mut [u8], used: usize, visited: u32, tried: u32) -> Option<usize>
    requires { used ≤ length out.old }
    ensures { Appended (count_lines visited tried) out.old used result out.new }
{
    let visits = listing_lines::put_number_line(out, used, b"visited", visited)?;
    listing_lines::put_number_line(out, visits, b"tried", tried)
}

// What the record has one of.
fn put_settings(out: &mut [u8], used: usize, t: &[u8], layout: Layout) -> Option<usize>
    requires room { used ≤ length out.old }
    requires held { Holds t.now layout }
    ensures { StateBehind (λ s. setting_lines s) t.now layout out.old used result out.new }
{
    let priority = put_priority(out, used, b"priority", t, layout)?;
    let mode = put_mode(out, priority, t, layout)?;
    let owner = put_owner(out, mode, t, layout)?;
    let group = put_group(out, owner, t, layout)?;
    put_watch(out, group, t, layout)
}

fn put_lists(out: &mut [u8], used: usize, t: &[u8], layout: Layout) -> Option<usize>
    requires room { used ≤ length out.old }
    requires held { Holds t.now layout }
    ensures { StateBehind (list_lines) t.now layout out.old used result out.new }
{
    let links = put_texts(out, used, b"link", t, layout, Texts::Links)?;
    let properties = put_properties(out, links, b"env", t, layout)?;
    put_texts(out, properties, b"tag", t, layout, Texts::Tags)
}

pub fn put_record(
    out: &mut [u8],
    used: usize,
    visited: u32,
    tried: u32,
    t: &[u8],
    layout: Layout,
) -> Option<usize>
    requires room { used ≤ length out.old }
    requires held { Holds t.now layout }
    ensures { StateBehind (λ s. record_lines visited tried s) t.now layout out.old used result out.new }
{
    let counts = put_counts(out, used, visited, tried)?;
    let settings = put_settings(out, counts, t, layout)?;
    put_lists(out, settings, t, layout)
}
