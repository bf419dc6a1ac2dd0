// When a naming plan is due (document 02, Item 14): all event paths differ, all wanted links differ, and a plan can speak of each of both.

#![tactic(auto)]

ghost use Rattle.std.specs.Prelude.{true, ◌&&◌, ◌||◌, not, List, ◌≡◌, ℕ, length};
ghost use Rattle.lists.specs.Lists.{all};
ghost use Rattle.lists.specs.Bytes.{between, is_letter, holds, same_bytes};
ghost use Rattle.device_lookup.specs.Lookup.{Sound, OfDevice};
ghost use Rattle.plan.specs.Plan.{Naming, plan_path, plan_link, due as due_namings};
ghost use Rattle.plan_rows.specs.Namings.{namings_in, Standing, Whole};
ghost use Rattle.plan_due.specs.Due.{is_fair, planned, differs as differ, apart as apart_from, Stands};

// No longer path has a place in a plan.
const MOST_PATH: usize = 128;

// ---- bytes

// A letter, a digit or one of the marks.
fn is_fair(b: u8, marks: &[u8]) -> bool
    ensures { result ≡ is_fair marks.now b }
{
    b.is_ascii_alphanumeric() || marks.contains(&b)
}

fn all_fair(x: &[u8], marks: &[u8]) -> bool
    ensures { result ≡ all (is_fair marks.now) x.now }
{
    for b in x {
        if !is_fair(*b, marks) {
            return false;
        }
    }
    true
}

// ---- one device

fn plan_path(path: &[u8]) -> bool
    ensures { result ≡ plan_path path.now }
{
    path.len() <= MOST_PATH && all_fair(path, b"/:._-")
}

fn plan_link(link: &[u8]) -> bool
    ensures { result ≡ plan_link link.now }
{
    all_fair(link, b"#+-.:=@_/") && content::ok_name(link)
}

// The path of the event device.
pub fn event_path(device: &[u8]) -> &[u8]
    requires { Sound device.now }
    ensures { OfDevice device.now (λ d. result.now ≡ d.event.path) }
{
    device_lookup::path(device, device_lookup::chain_of(device).at[0])
}

// A plan can speak of the path of a device and of its wanted link.
fn plan_naming(device: &[u8], link: &[u8]) -> bool
    requires { Sound device.now }
    ensures { OfDevice device.now (λ d. result ≡ planned d.event.path link.now) }
{
    plan_path(event_path(device)) && plan_link(link)
}

// ---- two devices

// Neither the paths nor the links are the same.
fn differs(device: &[u8], wanted: &[u8], path: &[u8], link: &[u8]) -> bool
    requires { Sound device.now }
    ensures { OfDevice device.now (λ d. result ≡ differ d.event.path wanted.now path.now link.now) }
{
    !scan::same(event_path(device), path) && !scan::same(wanted, link)
}

// ---- all devices

// None of the n devices from a place on has this path or is to have this link.
fn apart(set: &[u8], p: usize, n: usize, path: &[u8], link: &[u8]) -> bool
    requires { Stands set.now p n }
    ensures { (ns : List Naming) → Standing set.now p ns → length ns ≡ n → result ≡ apart_from path.now link.now ns }
{
    let mut q = p;
    for _ in 0..n {
        let place = plan_rows::wish_in(set, q);
        let other = differs(
            set_rows::bytes_of(set, place.device),
            set_rows::bytes_of(set, place.link),
            path,
            link,
        );
        if !other {
            return false;
        }
        q = place.link.end;
    }
    true
}

// A plan is due for the n devices of a set.
pub fn due(set: &[u8], n: usize) -> bool
    requires { Whole set.now × (n ≡ length (namings_in set.now)) }
    ensures { result ≡ due_namings (namings_in set.now) }
{
    let mut p = 1;
    for left in (0..n).rev() {
        let place = plan_rows::wish_in(set, p);
        let device = set_rows::bytes_of(set, place.device);
        let link = set_rows::bytes_of(set, place.link);
        if !plan_naming(device, link) {
            return false;
        }
        p = place.link.end;
        if !apart(set, p, left, event_path(device), link) {
            return false;
        }
    }
    true
}
