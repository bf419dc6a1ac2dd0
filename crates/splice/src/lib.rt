// Moves of bytes within one lent slice: clear, copy in, open a gap, insert, remove, shift, replace.
// `used` is where the bytes that are in use end; what lies behind it is not read.

#![tactic(auto)]

ghost use Rattle.std.specs.Prelude.{◌≡◌, ◌+◌, ◌-◌, ◌≤◌, ◌<◌, length, replicate};
ghost use Rattle.lists.specs.Bytes.{part};
ghost use Rattle.splice.specs.Moves.{stored, opened, inserted, removed, shifted, replaced};

// Every byte becomes zero.
pub fn clear(t: &mut [u8])
    ensures { t.new ≡ replicate (length t.old) 0 }
{
    t.fill(0);
}

// `src` is copied over what stands at `at`.
pub fn store(t: &mut [u8], at: usize, src: &[u8])
    requires { at + length src.now ≤ length t.old }
    ensures { t.new ≡ stored t.old at src.now }
{
    t[at..at + src.len()].copy_from_slice(src);
}

// How much is copied at once.
const ROOM: usize = 4096;

// How much of the bytes that are left is copied next.
fn next_size(left: usize) -> usize
    ensures { (result ≤ left) × (result ≤ 4096) × (0 < left → 0 < result) }
{
    left.min(ROOM)
}

// What stands from `from` up to `to` is copied over what stands at `at`, also where both overlap: by way of a copy.
fn copy_part(t: &mut [u8], from: usize, to: usize, at: usize)
    requires { (from ≤ to) × (to ≤ length t.old) × (to ≤ from + 4096) × (at + (to - from) ≤ length t.old) }
    ensures { t.new ≡ stored t.old at (part t.old from to) }
{
    let mut copy = [0u8; ROOM];
    store(&mut copy, 0, &t[from..to]);
    store(t, at, &copy[..to - from]);
}

// What stands from `at` up to `used` goes n further on; the caller fills the gap.
pub fn open_gap(t: &mut [u8], at: usize, used: usize, n: usize)
    requires { (at ≤ used) × (used + n ≤ length t.old) }
    ensures { t.new ≡ opened t.old at used n }
{
    let mut k = used;
    while at < k {
        let size = next_size(k - at);
        copy_part(t, k - size, k, k - size + n);
        k -= size;
    }
}

// The n bytes at `at` go, what follows them closes up, and zeros follow that.
pub fn remove(t: &mut [u8], at: usize, used: usize, n: usize)
    requires { (at + n ≤ used) × (used ≤ length t.old) }
    ensures { t.new ≡ removed t.old at used n }
{
    let mut k = at + n;
    while k < used {
        let size = next_size(used - k);
        copy_part(t, k, k + size, k - n);
        k += size;
    }
    clear(&mut t[k - n..used]);
}

// `src` comes in at `at`, before what stood there.
pub fn insert(t: &mut [u8], at: usize, used: usize, src: &[u8])
    requires { (at ≤ used) × (used + length src.now ≤ length t.old) }
    ensures { t.new ≡ inserted t.old at used src.now }
{
    open_gap(t, at, used, src.len());
    store(t, at, src);
}

// What stands from `from` up to `used` goes to `to`; where that is earlier, zeros follow it.
pub fn shift(t: &mut [u8], from: usize, to: usize, used: usize)
    requires { (from ≤ used) × (used ≤ length t.old) × (used + to ≤ length t.old + from) }
    ensures { t.new ≡ shifted t.old from to used }
{
    if from < to {
        open_gap(t, from, used, to - from);
    } else if to < from {
        remove(t, to, used, from - to);
    }
}

// `src` takes the place of the n bytes at `at`.
pub fn replace(t: &mut [u8], at: usize, n: usize, used: usize, src: &[u8])
    requires { (at + n ≤ used) × (used ≤ length t.old) × (used + length src.now ≤ length t.old + n) }
    ensures { t.new ≡ replaced t.old at n used src.now }
{
    shift(t, at + n, at + src.len(), used);
    store(t, at, src);
}
