// A bit cursor by value over a lent slice, most significant bit first, and 32 bits in two's complement.

#![tactic(auto)]

ghost use Rattle.std.specs.Prelude.{◌≡◌, ◌+◌, ◌-◌, ◌*◌, ◌/◌, ◌%◌, ◌^◌, ◌≤◌, ◌<◌, ◌++◌, length, take, drop};
ghost use Rattle.bits.specs.Bits.{to_bits, bytes_of, number_at};
ghost use Rattle.bits.specs.Cursor.{Taken, Put, Spanned};
ghost use Rattle.bits.specs.Signed.{to_signed, from_signed};

// The place of the next bit, from the start of the slice.
#[derive(Drop)]
pub struct BitCursor {
    pub at: usize,
}

// A field's number, and the cursor behind it.
#[derive(Drop)]
pub struct Field {
    pub value: usize,
    pub next: BitCursor,
}

// The bytes that a field touches, and how many of their bits lie before and behind it.
#[derive(Drop)]
struct Span {
    first: usize,
    count: usize,
    before: usize,
    behind: usize,
}

fn span_of(at: usize, n: usize) -> Span
    requires { n ≤ 32 }
    ensures { Spanned at n result }
{
    let before = at % 8;
    let count = (before + n + 7) / 8;
    Span {
        first: at / 8,
        count,
        before,
        behind: 8 * count - before - n,
    }
}

// The number of the `count` bytes from byte `first` on.
fn window(s: &[u8], first: usize, count: usize) -> usize
    requires { (count ≤ 5) × (first + count ≤ length s.now) }
    ensures { (result ≡ number_at s.now (8 * first) (8 * count)) × (result < 2 ^ 40) }
{
    let mut w: usize = 0;
    for i in 0..count {
        w = w * 256 + usize::from(s[first + i]);
    }
    w
}

// Writes the low bytes of w over the `count` bytes from byte `first` on.
fn set_window(s: &mut [u8], first: usize, count: usize, w: usize)
    requires { first + count ≤ length s.old }
    ensures { s.new ≡ take first s.old ++ (bytes_of count (to_bits (8 * count) w) ++ drop (first + count) s.old) }
{
    let mut rest = w;
    for i in (0..count).rev() {
        s[first + i] = (rest % 256) as u8;
        rest /= 256;
    }
}

fn power(n: usize) -> usize
    requires { n ≤ 32 }
    ensures { (result ≡ 2 ^ n) × (0 < result) }
{
    1usize << n
}

// The n bits of w that have `behind` bits behind them.
fn cut(w: usize, n: usize, behind: usize) -> usize
    requires { (n ≤ 32) × (behind < 8) }
    ensures { result ≡ w / 2 ^ behind % 2 ^ n }
{
    (w >> behind) % power(n)
}

// w with the low n bits of v in place of those that `cut` gives.
fn merge(w: usize, n: usize, behind: usize, v: usize) -> usize
    requires { (n ≤ 32) × (behind < 8) × (w < 2 ^ 40) }
    ensures { result ≡ (w / 2 ^ (n + behind) * 2 ^ n + v % 2 ^ n) * 2 ^ behind + w % 2 ^ behind }
{
    let p = power(n);
    let q = power(behind);
    ((w >> (n + behind)) * p + v % p) * q + w % q
}

impl BitCursor {
    // Reads n bits.
    pub fn take(self, s: &[u8], n: usize) -> Field
        requires { (n ≤ 32) × (self.at + n ≤ 8 * length s.now) × (self.at < 2 ^ 32) }
        ensures { Taken s.now self.at n result }
    {
        let p = span_of(self.at, n);
        let w = window(s, p.first, p.count);
        Field {
            value: cut(w, n, p.behind),
            next: BitCursor { at: self.at + n },
        }
    }

    // Writes the low n bits of v.
    pub fn put(self, s: &mut [u8], n: usize, v: usize) -> BitCursor
        requires { (n ≤ 32) × (self.at + n ≤ 8 * length s.old) × (self.at < 2 ^ 32) }
        ensures { Put s.old s.new self.at n v result }
    {
        let p = span_of(self.at, n);
        let w = window(s, p.first, p.count);
        set_window(s, p.first, p.count, merge(w, n, p.behind, v));
        BitCursor { at: self.at + n }
    }
}

// The number that 32 bits stand for in two's complement.
pub fn to_signed(x: u32) -> i32
    ensures { result ≡ to_signed x }
{
    if x < 2147483648 {
        x as i32
    } else {
        -1 - ((4294967295 - x) as i32)
    }
}

// The 32 bits of a number in two's complement.
pub fn from_signed(z: i32) -> u32
    ensures { result ≡ from_signed z }
{
    if z < 0 {
        4294967295 - ((-1 - z) as u32)
    } else {
        z as u32
    }
}
