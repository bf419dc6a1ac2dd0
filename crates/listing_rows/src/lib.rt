// A line of the listing for each entry of a row of a record.

#![tactic(auto)]

ghost use Rattle.std.specs.Prelude.{◌≤◌, length, drop};
ghost use Rattle.rows.specs.Row.{Row};
ghost use Rattle.insertion.specs.Append.{Appended};
ghost use Rattle.listing_rows.specs.Lines.{entry_line, entry_lines};

use rows::Kind;

fn put_entry(
    out: &mut [u8],
    used: usize,
    word: &[u8],
    kind: Kind,
    name: &[u8],
    rest: &[u8],
) -> Option<usize>
    requires { used ≤ length out.old }
    ensures { Appended (entry_line kind word.now name.now rest.now) out.old used result out.new }
{
    match kind {
        Kind::Property => listing_lines::put_property_line(out, used, word, name, rest),
        Kind::Text | Kind::Run | Kind::Reply => listing_lines::put_line(out, used, word, name),
    }
}

// The n entries from `at` on.
pub fn put_entries(
    out: &mut [u8],
    used: usize,
    word: &[u8],
    kind: Kind,
    rec: &[u8],
    at: usize,
    n: usize,
) -> Option<usize>
    requires room { used ≤ length out.old }
    requires row { (at ≤ length rec.now) × Row kind n (drop at rec.now) }
    ensures { Appended (entry_lines kind word.now n (drop at rec.now)) out.old used result out.new }
{
    let mut put = used;
    let mut p = at;
    for _ in 0..n {
        let entry = rows::parts_at(rec, p, kind);
        let name = &rec[entry.name..entry.rest];
        put = put_entry(out, put, word, kind, name, &rec[entry.rest..entry.end])?;
        p = entry.end;
    }
    Some(put)
}
