// Insertion of a part of a lent record behind what a buffer holds so far, with whitespace made `_` where that is asked.

#![tactic(auto)]

ghost use Rattle.std.specs.Prelude.{◌≡◌, ◌+◌, ◌≤◌, [], ◌∷◌, map, length};
ghost use Rattle.lists.specs.Bytes.{no_space};
ghost use Rattle.splice.specs.Moves.{stored};
ghost use Rattle.insertion.specs.Append.{asked, Appended};

fn no_space(b: u8) -> u8
    ensures { result ≡ no_space b }
{
    if scan::is_space(b) { b'_' } else { b }
}

// `src`, its whitespace made `_`, is copied over what stands at `at`.
fn store_spaceless(t: &mut [u8], at: usize, src: &[u8])
    requires { at + length src.now ≤ length t.old }
    ensures { t.new ≡ stored t.old at (map no_space src.now) }
{
    for i in 0..src.len() {
        t[at + i] = no_space(src[i]);
    }
}

// `src` comes behind the first `used` bytes: where it ends, or there is no room for all of it.
pub fn put_text(out: &mut [u8], used: usize, src: &[u8], spaceless: bool) -> Option<usize>
    requires { used ≤ length out.old }
    ensures { Appended (asked spaceless src.now) out.old used result out.new }
{
    if out.len() - used < src.len() {
        return None;
    }
    if spaceless {
        store_spaceless(out, used, src);
    } else {
        splice::store(out, used, src);
    }
    Some(used + src.len())
}

// The same of one byte.
pub fn put_byte(out: &mut [u8], used: usize, b: u8) -> Option<usize>
    requires { used ≤ length out.old }
    ensures { Appended (b ∷ []) out.old used result out.new }
{
    if out.len() == used {
        return None;
    }
    out[used] = b;
    Some(used + 1)
}
