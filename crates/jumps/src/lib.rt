// The rule that a GOTO goes to.

#![tactic(auto)]

ghost use Rattle.std.specs.Prelude.{◌≡◌, List, ℕ, ◌+◌, ◌*◌, ◌≤◌, ◌<◌, length, get_or};
ghost use Rattle.lists.specs.Bytes.{same_bytes};
ghost use Rattle.lists.specs.Sizes.{most_rules};
ghost use Rattle.table.specs.Rules.{Rules};
ghost use Rattle.jumps.specs.Jumps.{labelled, FoundIs, JumpIs, UpTo, SettledIs};
ghost use Rattle.jumps.specs.Labels.{mixed, hash_of, name_at, Labels, Before};

// ---- the hash of a name

fn mix(hash: usize, b: u8) -> usize
    requires { hash < 65536 }
    ensures { (result ≡ mixed hash b) × (result < 65536) }
{
    (hash * 403 + usize::from(b)) % 65536
}

fn hash_of(name: &[u8]) -> usize
    ensures { (result ≡ hash_of name.now) × (result < 65536) }
{
    let mut hash: usize = 0;
    for b in name {
        hash = mix(hash, *b);
    }
    hash
}

// ---- the labels of the rules behind a place

// They stand in lists by the last byte of their hashes: for each of its 256 values one more than the first rule that has
// such a label, and for each such rule one more than the next, or 0.

// Puts the label of a rule, if it has one, before those of the rules behind it.
fn put_label(
    values: &[u8],
    rows: &[u16],
    labels: &[u16],
    i: usize,
    hashes: &mut [u16; 512],
    heads: &mut [u16; 256],
    later: &mut [u16],
)
    requires { (i < length labels.now) × ((t : List ℕ) × ((m : ℕ) × ((used : ℕ) × ((n : ℕ) × Rules values.now rows.now t labels.now m used n × Labels values.now rows.now labels.now hashes.old heads.old later.old (i + 1) n)))) }
    ensures { ((n : ℕ) → Labels values.now rows.now labels.now hashes.old heads.old later.old (i + 1) n → Labels values.now rows.now labels.now hashes.new heads.new later.new i n) × Before i later.old later.new }
{
    let Some(row) = table::place_at(labels, i) else {
        return;
    };
    let hash = hash_of(table::value_of(values, rows, row));
    let b = hash % 256;
    hashes[i] = table::short(hash);
    later[i] = heads[b];
    heads[b] = table::short(i + 1);
}

// Puts the labels of the rules from a place on, from the last to the first.
fn put_labels(
    values: &[u8],
    rows: &[u16],
    labels: &[u16],
    from: usize,
    count: usize,
    hashes: &mut [u16; 512],
    heads: &mut [u16; 256],
    later: &mut [u16],
)
    requires { (from ≤ count) × (count ≤ length labels.now) × ((t : List ℕ) × ((m : ℕ) × ((used : ℕ) × Rules values.now rows.now t labels.now m used count))) × Labels values.now rows.now labels.now hashes.old heads.old later.old count count }
    ensures { Labels values.now rows.now labels.now hashes.new heads.new later.new from count × Before from later.old later.new }
{
    for i in (from..count).rev() {
        put_label(values, rows, labels, i, hashes, heads, later);
    }
}

// Takes the label of a rule, if it has one, from before those of the rules behind it.
fn take_label(labels: &[u16], i: usize, hashes: &[u16; 512], heads: &mut [u16; 256], later: &[u16])
    requires { (i < length labels.now) × ((v : List ℕ) × ((r : List ℕ) × ((n : ℕ) × (i < n) × Labels v r labels.now hashes.now heads.old later.now i n))) }
    ensures { (v r : List ℕ) (n : ℕ) → i < n → Labels v r labels.now hashes.now heads.old later.now i n → Labels v r labels.now hashes.now heads.new later.now (i + 1) n }
{
    if table::place_at(labels, i).is_none() {
        return;
    }
    let b = usize::from(hashes[i]) % 256;
    heads[b] = later[i];
}

// Whether two names of labels are the same. Most that the striker compares differ in length or are short, and are told apart in place.
#[inline(always)]
fn is_same(a: &[u8], b: &[u8]) -> bool
    ensures { result ≡ same_bytes a.now b.now }
{
    if a.len() != b.len() {
        return false;
    }
    if a.len() < 8 {
        scan::same(a, b)
    } else {
        scan::same_long(a, b)
    }
}

// Whether a rule has this name for its label.
pub fn is_label(values: &[u8], rows: &[u16], labels: &[u16], i: usize, name: &[u8]) -> bool
    requires { (i < length labels.now) × ((t : List ℕ) × ((m : ℕ) × ((used : ℕ) × ((n : ℕ) × (i < n) × Rules values.now rows.now t labels.now m used n)))) }
    ensures { (t : List ℕ) (m used n : ℕ) → i < n → Rules values.now rows.now t labels.now m used n → result ≡ labelled values.now rows.now t name.now i }
{
    match table::place_at(labels, i) {
        Some(row) => is_same(name, table::value_of(values, rows, row)),
        None => false,
    }
}

// The same of a rule that has a label, for a name that has this hash.
fn is_named(
    values: &[u8],
    rows: &[u16],
    labels: &[u16],
    hashes: &[u16; 512],
    i: usize,
    name: &[u8],
    hash: usize,
) -> bool
    requires { (hash ≡ hash_of name.now) × (i < most_rules) × (i < length labels.now) × (0 < get_or labels.now i 0) × ((t : List ℕ) × ((m : ℕ) × ((used : ℕ) × ((n : ℕ) × (i < n) × Rules values.now rows.now t labels.now m used n)))) }
    ensures { (t : List ℕ) (m used n : ℕ) → i < n → Rules values.now rows.now t labels.now m used n → get_or hashes.now i 0 ≡ hash_of (name_at values.now rows.now labels.now i) → result ≡ labelled values.now rows.now t name.now i }
{
    if usize::from(hashes[i]) != hash {
        return false;
    }
    is_label(values, rows, labels, i, name)
}

// The first of these rules that has a name for a label.
fn find_label(
    values: &[u8],
    rows: &[u16],
    labels: &[u16],
    hashes: &[u16; 512],
    heads: &[u16; 256],
    later: &[u16],
    name: &[u8],
    hash: usize,
) -> Option<usize>
    requires { (hash ≡ hash_of name.now) × ((t : List ℕ) × ((m : ℕ) × ((used : ℕ) × ((from : ℕ) × ((n : ℕ) × (n ≤ length labels.now) × Rules values.now rows.now t labels.now m used n × Labels values.now rows.now labels.now hashes.now heads.now later.now from n))))) }
    ensures { (t : List ℕ) (m used from n : ℕ) → Rules values.now rows.now t labels.now m used n → Labels values.now rows.now labels.now hashes.now heads.now later.now from n → FoundIs values.now rows.now t name.now from n result }
{
    let mut next = table::place_at(heads, hash % 256);
    while let Some(i) = next {
        if is_named(values, rows, labels, hashes, i, name, hash) {
            return Some(i);
        }
        next = table::place_at(later, i);
    }
    None
}

// ---- the jumps of all rules

// The rule that a rule goes to, if it has a jump, by the labels of the rules behind it; the line of a rule whose jump goes nowhere is an error.
fn jump_of(
    values: &[u8],
    rows: &[u16],
    rules: &[u16],
    labels: &[u16],
    hashes: &[u16; 512],
    heads: &[u16; 256],
    later: &[u16],
    i: usize,
    count: usize,
) -> Result<Option<usize>, usize>
    requires { (i < count) × (count ≤ length labels.now) × (count * 4 ≤ length rules.now) × ((m : ℕ) × ((used : ℕ) × Rules values.now rows.now rules.now labels.now m used count)) × Labels values.now rows.now labels.now hashes.now heads.now later.now (i + 1) count }
    ensures { (m used : ℕ) → Rules values.now rows.now rules.now labels.now m used count → JumpIs values.now rows.now rules.now i count result }
{
    let Some(row) = table::place_at(rules, i * 4 + 3) else {
        return Ok(None);
    };
    let name = table::value_of(values, rows, row);
    let hash = hash_of(name);
    match find_label(values, rows, labels, hashes, heads, later, name, hash) {
        Some(rule) => Ok(Some(rule)),
        None => Err(table::number_at(rules, i * 4)),
    }
}

// The first rule that has a jump, or the number of rules; those before it have none.
fn first_jump(rules: &[u16], jumps: &mut [u16], count: usize) -> usize
    requires { (count < 65535) × (count ≤ length jumps.old) × (count * 4 ≤ length rules.now) }
    ensures { (result ≤ count) × ((v s l : List ℕ) (m used : ℕ) → Rules v s rules.now l m used count → UpTo v s rules.now count jumps.new result) }
{
    for i in 0..count {
        if table::number_at(rules, i * 4 + 3) != 0 {
            return i;
        }
        jumps[i] = 0;
    }
    count
}

// Puts for each rule where its jump goes. Behind the rule at hand the jumps hold the lists of labels. The line of the first
// jump that goes nowhere is an error.
pub fn settle(
    values: &[u8],
    rows: &[u16],
    rules: &[u16],
    labels: &[u16],
    jumps: &mut [u16],
    count: usize,
) -> Result<(), usize>
    requires { (count ≤ most_rules) × (count ≤ length labels.now) × (count ≤ length jumps.old) × (count * 4 ≤ length rules.now) × ((m : ℕ) × ((used : ℕ) × Rules values.now rows.now rules.now labels.now m used count)) }
    ensures { (m used : ℕ) → Rules values.now rows.now rules.now labels.now m used count → SettledIs values.now rows.now rules.now count jumps.new result }
{
    let first = first_jump(rules, jumps, count);
    if first == count {
        return Ok(());
    }
    let mut hashes: [u16; 512] = [0; 512];
    let mut heads: [u16; 256] = [0; 256];
    put_labels(
        values,
        rows,
        labels,
        first,
        count,
        &mut hashes,
        &mut heads,
        jumps,
    );
    for i in first..count {
        take_label(labels, i, &hashes, &mut heads, jumps);
        let rule = jump_of(
            values, rows, rules, labels, &hashes, &heads, jumps, i, count,
        )?;
        jumps[i] = table::mark(rule);
    }
    Ok(())
}
