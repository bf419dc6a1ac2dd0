// Which files of a lent set count, and the order of their names (document 02, Item 11). A file's number is its place in the lent order, from 0;
// `starts` holds where each of the n files begins.

#![tactic(auto)]

ghost use Rattle.std.specs.Prelude.{◌≡◌, ◌+◌, ◌≤◌, ◌<◌, length, get_or, drop};
ghost use Rattle.lists.specs.Lists.{any};
ghost use Rattle.lists.specs.Quoted.{bytes};
ghost use Rattle.files.specs.Files.{same_file, doubled as twice, ends_in, above, loses as loses_among, before};
ghost use Rattle.file_rows.specs.Places.{file_at, Stands, files_at};
ghost use Rattle.file_order.specs.Order.{Lies, chosen, place_in, Kept, TakenIs, WinnersAre};

// ---- a file that is there twice

fn same_file(set: &[u8], p: usize, q: usize) -> bool
    requires { Stands set.now p × Stands set.now q }
    ensures { result ≡ same_file (file_at set.now p) (file_at set.now q) }
{
    file_rows::rank_of(set, p) == file_rows::rank_of(set, q)
        && file_rows::name_of(set, p) == file_rows::name_of(set, q)
}

// File i comes again behind it.
fn comes_again(set: &[u8], starts: &[usize], n: usize, i: usize) -> bool
    requires { Lies set.now starts.now n × (i < n) }
    ensures { result ≡ any (same_file (file_at set.now (get_or starts.now i 0))) (drop (i + 1) (files_at set.now starts.now n)) }
{
    let p = starts[i];
    for j in i + 1..n {
        if same_file(set, p, starts[j]) {
            return true;
        }
    }
    false
}

// Refusal 21.
pub fn doubled(set: &[u8], starts: &[usize], n: usize) -> bool
    requires { Lies set.now starts.now n }
    ensures { result ≡ twice (files_at set.now starts.now n) }
{
    for i in 0..n {
        if comes_again(set, starts, n, i) {
            return true;
        }
    }
    false
}

// ---- the files that count

fn is_rules(name: &[u8]) -> bool
    ensures { result ≡ ends_in (bytes ".rules") name.now }
{
    name.ends_with(b".rules")
}

// The second file has the name of the first and a higher rank.
fn is_above(set: &[u8], p: usize, q: usize) -> bool
    requires { Stands set.now p × Stands set.now q }
    ensures { result ≡ above (file_at set.now p) (file_at set.now q) }
{
    file_rows::rank_of(set, q) < file_rows::rank_of(set, p)
        && file_rows::name_of(set, q) == file_rows::name_of(set, p)
}

fn any_above(set: &[u8], starts: &[usize], n: usize, p: usize) -> bool
    requires { Lies set.now starts.now n × Stands set.now p }
    ensures { result ≡ any (above (file_at set.now p)) (files_at set.now starts.now n) }
{
    for j in 0..n {
        if is_above(set, p, starts[j]) {
            return true;
        }
    }
    false
}

fn loses(set: &[u8], starts: &[usize], n: usize, p: usize) -> bool
    requires { Lies set.now starts.now n × Stands set.now p }
    ensures { result ≡ loses_among (files_at set.now starts.now n) (file_at set.now p) }
{
    !is_rules(file_rows::name_of(set, p)) || any_above(set, starts, n, p)
}

// ---- their order

fn comes_before(a: &[u8], b: &[u8]) -> bool
    ensures { result ≡ before a.now b.now }
{
    a.iter().cmp(b.iter()).is_lt()
}

// Where a file belongs among k files that are in order.
fn place_of(set: &[u8], starts: &[usize], n: usize, order: &[u8], k: usize, p: usize) -> usize
    requires { Lies set.now starts.now n × Kept n order.now k × Stands set.now p }
    ensures { (result ≡ place_in (file_at set.now p) (chosen set.now starts.now order.now k)) × (result ≤ k) }
{
    let name = file_rows::name_of(set, p);
    for j in 0..k {
        let i = usize::from(order[j]);
        if comes_before(name, file_rows::name_of(set, starts[i])) {
            return j;
        }
    }
    k
}

fn byte(n: usize) -> u8
    requires { n < 256 }
    ensures { result ≡ n }
{
    n as u8
}

// Takes file i in among the k files that are in order, if it counts.
fn take_file(set: &[u8], starts: &[usize], n: usize, order: &mut [u8], k: usize, i: usize) -> usize
    requires { Lies set.now starts.now n × (i < n) × (n < 256) × Kept n order.old k × (k < length order.old) }
    ensures { TakenIs set.now starts.now n order.old k i order.new result }
{
    let p = starts[i];
    if loses(set, starts, n, p) {
        return k;
    }
    let at = place_of(set, starts, n, order, k, p);
    splice::insert(order, at, k, &[byte(i)]);
    k + 1
}

// The numbers of the files that count, in the order of their names; and how many they are.
// By hand, since the library's sort asks for an order of any two numbers, and only those of files have names.
pub fn winners(set: &[u8], starts: &[usize], n: usize, order: &mut [u8]) -> usize
    requires { Lies set.now starts.now n × (n < 256) × (n ≤ length order.old) }
    ensures { WinnersAre set.now starts.now n order.new result }
{
    let mut k = 0;
    for i in (0..n).rev() {
        k = take_file(set, starts, n, order, k, i);
    }
    k
}
