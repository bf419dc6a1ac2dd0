// Links, tags and runs of the outcome record in the target: a row emptied, an entry added or removed.

#![tactic(auto)]

ghost use Rattle.std.specs.Prelude.{◌≡◌, true};
ghost use Rattle.lists.specs.Sizes.{most_runs};
ghost use Rattle.bits.specs.Fields.{bit};
ghost use Rattle.outcome.specs.State.{ok_run};
ghost use Rattle.outcome.specs.Change.{with_runs};
ghost use Rattle.outcome.specs.Edits.{append, add_entry, remove_entry};
ghost use Rattle.outcome_target.specs.Texts.{ok_of, most_of, texts_in, with_texts};
ghost use Rattle.outcome_target.specs.Held.{Holds, HoldsIf, Changed, Edited, EditedIf};
ghost use Rattle.outcome_lists.specs.Lists.{emptied, run_of};

use outcome_target::{Layout, Section, Texts};
use rows::Kind;

// A row without entries.
pub fn empty(t: &mut [u8], layout: Layout, section: Section) -> Layout
    requires { Holds t.old layout }
    ensures { Changed (emptied section) t.old layout t.new result }
{
    let at = outcome_target::start_of(layout, section);
    let end = outcome_target::end_of(layout, section);
    row_edits::cut(t, layout, section, at, end - at, 0)
}

// ---- links and tags

// What is not there yet comes last; a 17th entry finds no room.
pub fn add(t: &mut [u8], layout: Layout, list: Texts, x: &[u8]) -> Option<Layout>
    requires { Holds t.old layout × (ok_of list x.now ≡ true) }
    ensures { Edited (with_texts list) (λ s. add_entry (most_of list) x.now (texts_in list s)) t.old layout t.new result }
{
    let section = outcome_target::section_of(list);
    let at = outcome_target::start_of(layout, section);
    let n = outcome_target::count_of(t, section);
    if rows::has(t, at, n, Kind::Text, x) {
        return Some(layout);
    }
    if 16 <= n {
        return None;
    }
    Some(row_edits::append_text(t, layout, section, n, x))
}

pub fn remove(t: &mut [u8], layout: Layout, list: Texts, x: &[u8]) -> Layout
    requires { Holds t.old layout }
    ensures { Changed (λ s. with_texts list s (remove_entry x.now (texts_in list s))) t.old layout t.new result }
{
    let section = outcome_target::section_of(list);
    let at = outcome_target::start_of(layout, section);
    let n = outcome_target::count_of(t, section);
    match rows::find(t, at, n, Kind::Text, x) {
        Ok(found) => row_edits::cut(
            t,
            layout,
            section,
            found.at,
            found.value + found.len - found.at,
            n - 1,
        ),
        Err(_) => layout,
    }
}

// ---- runs

fn bit_of(b: bool) -> usize
    ensures { result ≡ bit b }
{
    if b { 1 } else { 0 }
}

// A run behind the others; a 17th finds no room.
pub fn add_run(
    t: &mut [u8],
    layout: Layout,
    builtin: bool,
    place: usize,
    template: &[u8],
) -> Option<Layout>
    requires { HoldsIf (λ n. ok_run n (run_of builtin place template.now) ≡ true) t.old layout }
    ensures { EditedIf (λ n. ok_run n (run_of builtin place template.now) ≡ true) with_runs (λ s. append most_runs (run_of builtin place template.now) s.runs) t.old layout t.new result }
{
    let n = outcome_target::count_of(t, Section::Runs);
    if n < 16 {
        Some(row_edits::append_run(t, layout, n, bit_of(builtin), place, template))
    } else {
        None
    }
}
