// Whether a device record is sound, judged where it lies.

#![tactic(auto)]

ghost use Rattle.std.specs.Prelude.{◌≡◌, ◌&&◌, ◌||◌, ◌+◌, ◌≤◌, eqb, length, drop};
ghost use Rattle.lists.specs.Lists.{is_some};
ghost use Rattle.lists.specs.Sizes.{most_device};
ghost use Rattle.entries.specs.Parse.{many};
ghost use Rattle.entries.specs.Entry.{one_prop};
ghost use Rattle.rows.specs.Row.{end_of};
ghost use Rattle.device.specs.Device.{ok_path, cut_of, ok_head, one_member, decode};
ghost use Rattle.device_head.specs.Read.{head_in, path_len, path_in};
ghost use Rattle.device_check.specs.Stages.{ok_texts, apart, parents_in};

use device_head::Head;
use rows::Kind;

// ---- paths

fn are_slashes(a: u8, b: u8) -> bool
    ensures { result ≡ (eqb a 47 && eqb b 47) }
{
    a == b'/' && b == b'/'
}

// It starts with `/` and has no empty component.
fn ok_path(s: &[u8]) -> bool
    ensures { result ≡ ok_path s.now }
{
    let n = s.len();
    if n == 0 || s[0] != b'/' {
        return false;
    }
    for i in 1..n {
        if are_slashes(s[i - 1], s[i]) {
            return false;
        }
    }
    s[n - 1] != b'/'
}

// The parent's path is some of the child's first components, not all.
fn is_cut(parent: &[u8], child: &[u8]) -> bool
    ensures { result ≡ cut_of parent.now child.now }
{
    let n = parent.len();
    if n == 0 || child.len() <= n {
        return false;
    }
    child[n] == b'/' && scan::same(parent, &child[..n])
}

// ---- the header

// Without a node both numbers are zero.
fn ok_node(node: usize, major: usize, minor: usize) -> bool
    ensures { result ≡ (eqb node 1 || (eqb major 0 && eqb minor 0)) }
{
    node == 1 || major == 0 && minor == 0
}

fn ok_head(h: Head) -> bool
    ensures { result ≡ ok_head (head_in h) }
{
    h.edition == 1 && ok_node(h.node, h.major, h.minor) && h.properties <= 32 && h.unused == 0
}

// ---- one device

// The path, the subsystem and the driver, one behind the other, of which the first `path` bytes are the path.
fn ok_texts(s: &[u8], path: usize) -> bool
    requires { path ≤ length s.now }
    ensures { result ≡ ok_texts path s.now }
{
    1 <= path && path <= 256 && rows::clean(s) && ok_path(&s[..path])
}

// The place behind n properties or attributes, each sound, no key twice.
fn check_row(rec: &[u8], at: usize, n: usize) -> Option<usize>
    requires { at ≤ length rec.now }
    ensures { result ≡ end_of (length rec.now) (apart (many one_prop n (drop at rec.now))) }
{
    let end = rows::check_properties(rec, at, n)?;
    if rows::distinct(rec, at, n, Kind::Property) {
        Some(end)
    } else {
        None
    }
}

// The place behind the device that begins at a place.
fn check_member(rec: &[u8], at: usize) -> Option<usize>
    requires { (at ≤ length rec.now) × (length rec.now ≤ most_device) }
    ensures { result ≡ end_of (length rec.now) (one_member (drop at rec.now)) }
{
    let room = rec.len() - at;
    if room < 4 {
        return None;
    }
    let lens = device_head::read_lens(rec, at);
    if lens.unused != 0 {
        return None;
    }
    let texts = lens.path + lens.subsystem + lens.driver;
    if room - 4 < texts {
        return None;
    }
    let start = at + 4;
    let row = start + texts;
    if !ok_texts(&rec[start..row], lens.path) {
        return None;
    }
    check_row(rec, row, lens.attributes)
}

// ---- the chain

// The n devices from `at` on are the last, and each is a parent of the one before it; the first one's child begins at `child`.
fn check_parents(rec: &[u8], child: usize, at: usize, n: usize) -> bool
    requires { (at ≤ length rec.now) × (length rec.now ≤ most_device) × (child + 4 + path_len rec.now child ≤ length rec.now) }
    ensures { result ≡ parents_in (path_in rec.now child) n (drop at rec.now) }
{
    let mut c = child;
    let mut p = at;
    for _ in 0..n {
        let Some(end) = check_member(rec, p) else {
            return false;
        };
        if !is_cut(device_head::path_at(rec, p), device_head::path_at(rec, c)) {
            return false;
        }
        c = p;
        p = end;
    }
    p == rec.len()
}

// ---- the record

// It is a sound device record (else refusal 3).
pub fn check(rec: &[u8]) -> bool
    ensures { result ≡ is_some (decode rec.now) }
{
    if 16384 < rec.len() {
        return false;
    }
    if rec.len() < 7 {
        return false;
    }
    let head = device_head::read_head(rec);
    if !ok_head(head) {
        return false;
    }
    let Some(event) = check_row(rec, 7, head.properties) else {
        return false;
    };
    let Some(parents) = check_member(rec, event) else {
        return false;
    };
    check_parents(rec, event, parents, head.above)
}
