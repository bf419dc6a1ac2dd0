// A line of the listing for each entry of a run list.

#![tactic(auto)]

ghost use Rattle.std.specs.Prelude.{◌≡◌, ◌≤◌, length, drop};
ghost use Rattle.bits.specs.Bits.{number_at};
ghost use Rattle.engine.specs.Listing.{command_line};
ghost use Rattle.insertion.specs.Append.{Appended};
ghost use Rattle.listing_commands.specs.Lines.{Stands, Entries, First, entry_lines};

use bits::BitCursor;

// Whether an entry is a builtin, and how long its text is.
#[derive(Clone, Copy)]
struct CommandHead {
    builtin: bool,
    len: usize,
}

fn head_of(entry: &[u8]) -> CommandHead
    requires { 2 ≤ length entry.now }
    ensures { First entry.now result }
{
    let builtin = BitCursor { at: 0 }.take(entry, 1);
    let len = builtin.next.take(entry, 10);
    CommandHead {
        builtin: builtin.value == 1,
        len: len.value,
    }
}

fn put_command(out: &mut [u8], used: usize, builtin: bool, text: &[u8]) -> Option<usize>
    requires { used ≤ length out.old }
    ensures { Appended (command_line (record { builtin = builtin; text = text.now })) out.old used result out.new }
{
    if builtin {
        listing_lines::put_line(out, used, b"builtin", text)
    } else {
        listing_lines::put_line(out, used, b"program", text)
    }
}

// All entries of a run list.
pub fn put_commands(out: &mut [u8], used: usize, list: &[u8]) -> Option<usize>
    requires room { used ≤ length out.old }
    requires stands { Stands list.now }
    ensures { Appended (entry_lines (number_at list.now 0 5) (drop 1 list.now)) out.old used result out.new }
{
    let count = BitCursor { at: 0 }.take(list, 5);
    let mut put = used;
    let mut at: usize = 1;
    for _ in 0..count.value {
        let head = head_of(&list[at..]);
        let start = at + 2;
        let end = start + head.len;
        put = put_command(out, put, head.builtin, &list[start..end])?;
        at = end;
    }
    Some(put)
}
