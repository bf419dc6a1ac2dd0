// Closed keys, mode, link priority, watch, output, owner and group of the outcome record in the target.

#![tactic(auto)]

ghost use Rattle.std.specs.Prelude.{◌≡◌, true, ◌≤◌, ◌<◌, length};
ghost use Rattle.outcome.specs.Head.{header_size};
ghost use Rattle.outcome.specs.Content.{ok_owner, ok_output};
ghost use Rattle.outcome.specs.State.{ModeBits};
ghost use Rattle.outcome.specs.Change.{with_mode, with_priority, with_watch, with_output, with_owner, with_group};
ghost use Rattle.outcome_target.specs.Held.{Holds, Changed};
ghost use Rattle.outcome_fields.specs.Fields.{flag_place, Rewritten, closed_by, Says};

use outcome_target::{HeadField, Layout};

// ---- closed keys

#[derive(Clone, Copy)]
pub enum Closable {
    Links,
    Tags,
    Runs,
    Owner,
    Group,
    Mode,
}

fn flag_place(key: Closable) -> usize
    ensures { (result ≡ flag_place key) × (result < 10) }
{
    match key {
        Closable::Links => 4,
        Closable::Tags => 5,
        Closable::Runs => 6,
        Closable::Owner => 7,
        Closable::Group => 8,
        Closable::Mode => 9,
    }
}

pub fn is_closed(t: &[u8], key: Closable) -> bool
    requires { header_size ≤ length t.now }
    ensures { Says key t.now result }
{
    let flag = HeadField {
        at: flag_place(key),
        bits: 1,
    };
    outcome_target::field(t, flag) == 1
}

pub fn close(t: &mut [u8], key: Closable)
    requires { header_size ≤ length t.old }
    ensures { Rewritten (closed_by key) t.old t.new }
{
    let flag = HeadField {
        at: flag_place(key),
        bits: 1,
    };
    outcome_target::put_field(t, flag, 1);
}

// ---- mode, priority and watch

pub fn set_mode(t: &mut [u8], mode: usize)
    requires { (header_size ≤ length t.old) × ModeBits mode }
    ensures { Rewritten (λ s. with_mode s mode) t.old t.new }
{
    outcome_target::put_field(t, outcome_target::MODE_SET, 1);
    outcome_target::put_field(t, outcome_target::MODE, mode);
}

// The priority's 32 bits in two's complement.
pub fn set_priority(t: &mut [u8], priority: usize)
    requires { (header_size ≤ length t.old) × (priority < 4294967296) }
    ensures { Rewritten (λ s. with_priority s priority) t.old t.new }
{
    outcome_target::put_field(t, outcome_target::PRIORITY, priority);
}

// 1 is watch, 2 is nowatch.
pub fn set_watch(t: &mut [u8], watch: usize)
    requires { (header_size ≤ length t.old) × (watch ≤ 2) }
    ensures { Rewritten (λ s. with_watch s watch) t.old t.new }
{
    outcome_target::put_field(t, outcome_target::WATCH, watch);
}

// ---- the output, right behind the header (document 02, Item 6)

pub fn set_output(t: &mut [u8], layout: Layout, x: &[u8]) -> Layout
    requires { Holds t.old layout × (ok_output x.now ≡ true) }
    ensures { Changed (λ s. with_output s x.now) t.old layout t.new result }
{
    let old = outcome_target::field(t, outcome_target::OUTPUT);
    let new = x.len();
    splice::replace(t, outcome_target::HEADER, old, layout.end, x);
    outcome_target::put_field(t, outcome_target::OUTPUT, new);
    outcome_target::all_moved(layout, old, new)
}

// ---- owner and group, right before the links

pub fn set_owner(t: &mut [u8], layout: Layout, x: &[u8]) -> Layout
    requires { Holds t.old layout × (ok_owner x.now ≡ true) }
    ensures { Changed (λ s. with_owner s x.now) t.old layout t.new result }
{
    let group = outcome_target::field(t, outcome_target::GROUP);
    let old = outcome_target::field(t, outcome_target::OWNER);
    let new = x.len();
    splice::replace(t, layout.links - group - old, old, layout.end, x);
    outcome_target::put_field(t, outcome_target::OWNER, new);
    outcome_target::all_moved(layout, old, new)
}

pub fn set_group(t: &mut [u8], layout: Layout, x: &[u8]) -> Layout
    requires { Holds t.old layout × (ok_owner x.now ≡ true) }
    ensures { Changed (λ s. with_group s x.now) t.old layout t.new result }
{
    let old = outcome_target::field(t, outcome_target::GROUP);
    let new = x.len();
    splice::replace(t, layout.links - old, old, layout.end, x);
    outcome_target::put_field(t, outcome_target::GROUP, new);
    outcome_target::all_moved(layout, old, new)
}
