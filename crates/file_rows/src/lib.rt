// A lent set of files where it lies (document 02, Item 11): where each file begins, its rank, its name and its text.

#![tactic(auto)]

ghost use Rattle.std.specs.Prelude.{◌≡◌, ◌≤◌, ◌<◌, length};
ghost use Rattle.files.specs.Files.{most_files};
ghost use Rattle.file_rows.specs.Places.{file_at, Stands, NameFrom, NameIs, NameReads, FileReads, FilesAre};

use set_rows::Part;

pub const MOST_FILES: usize = 32;

const LAST_RANK: usize = 3;

const MOST_NAME: usize = 64;

// ---- a name

// The one that is known to stand at a place.
fn name_in(set: &[u8], p: usize) -> Part
    requires { NameFrom set.now p }
    ensures { NameIs set.now p result }
{
    let start = p + 1;
    Part {
        start,
        end: start + usize::from(set[p]),
    }
}

// The one at any place, of 1 to 64 bytes, if the set reaches so far.
fn name_at(set: &[u8], p: usize) -> Option<Part>
    requires { p ≤ length set.now }
    ensures { NameReads set.now p result }
{
    let room = set.len() - p;
    if room < 1 {
        return None;
    }
    let len = usize::from(set[p]);
    if room - 1 < len || len < 1 || MOST_NAME < len {
        return None;
    }
    let start = p + 1;
    Some(Part {
        start,
        end: start + len,
    })
}

// ---- a file

// Where the file at any place ends, if the set reaches so far.
fn file_at(set: &[u8], p: usize) -> Option<usize>
    requires { p ≤ length set.now }
    ensures { FileReads set.now p result }
{
    if set.len() <= p {
        return None;
    }
    let name = name_at(set, p + 1)?;
    let text = set_rows::long_at(set, name.end)?;
    if LAST_RANK < usize::from(set[p]) {
        return None;
    }
    Some(text.end)
}

// Of the file that is known to stand at a place.
pub fn rank_of(set: &[u8], p: usize) -> usize
    requires { Stands set.now p }
    ensures { result ≡ (file_at set.now p).rank }
{
    usize::from(set[p])
}

pub fn name_of<'a>(set: &'a [u8], p: usize) -> &'a [u8]
    requires { Stands set.now p }
    ensures { result.now ≡ (file_at set.now p).name }
{
    set_rows::bytes_of(set, name_in(set, p + 1))
}

pub fn text_of<'a>(set: &'a [u8], p: usize) -> &'a [u8]
    requires { Stands set.now p }
    ensures { result.now ≡ (file_at set.now p).text }
{
    let name = name_in(set, p + 1);
    set_rows::bytes_of(set, set_rows::long_in(set, name.end))
}

// ---- the set

// How many files a set has, and where each begins; or the bytes are no set of files (refusal 7).
pub fn find_files(set: &[u8], starts: &mut [usize]) -> Option<usize>
    requires { length starts.old ≡ most_files }
    ensures { FilesAre set.now starts.new result }
{
    if set.is_empty() {
        return None;
    }
    let count = set_rows::count_of(set);
    if MOST_FILES < count {
        return None;
    }
    let mut p = 1;
    for i in 0..count {
        starts[i] = p;
        p = file_at(set, p)?;
    }
    if p == set.len() { Some(count) } else { None }
}
