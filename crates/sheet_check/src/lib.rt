// Whether an answer sheet is sound, judged where it lies (refusal 6), and the search for a command on a sound one.

#![tactic(auto)]

ghost use Rattle.std.specs.Prelude.{◌≡◌, true, ◌≤◌, length, drop};
ghost use Rattle.lists.specs.Lists.{is_some};
ghost use Rattle.entries.specs.Parse.{many};
ghost use Rattle.rows.specs.Row.{end_of};
ghost use Rattle.sheet.specs.Sheet.{one_reply, decode};
ghost use Rattle.sheet_check.specs.Replies.{ok_reply_of, AnswersTo};

use rows::{EntryTest, Kind};

// ---- the check

// A reply by its head and its texts: unused bits zero, a command of 1 to 512 bytes, an output of at most 512, no NUL.
fn ok_reply(head: &[u8], command: &[u8], output: &[u8]) -> bool
    requires { 3 ≤ length head.now }
    ensures { result ≡ ok_reply_of head.now command.now output.now }
{
    rows::reply_head(head).unused == 0
        && rows::ok_text(command, 512)
        && output.len() <= 512
        && rows::clean(output)
}

#[derive(Clone, Copy)]
struct ReplyTest;

impl EntryTest for ReplyTest {
    ghost use Rattle.rows.specs.declared.Kind.TheVariants as kinds;

    const KIND: Kind = Kind::Reply;

    ghost KIND = { kinds.Reply };

    ghost ok = { λ t. ok_reply_of };

    fn holds(&self, head: &[u8], command: &[u8], output: &[u8]) -> bool {
        ok_reply(head, command, output)
    }
}

// The place behind n replies from `at` on, if each of them is sound.
fn check_replies(sheet: &[u8], at: usize, n: usize) -> Option<usize>
    requires { at ≤ length sheet.now }
    ensures { result ≡ end_of (length sheet.now) (many one_reply n (drop at sheet.now)) }
{
    rows::check_entries(sheet, at, n, &ReplyTest)
}

// It is a sound answer sheet (else refusal 6).
pub fn check(sheet: &[u8]) -> bool
    ensures { result ≡ is_some (decode sheet.now) }
{
    if sheet.len() < 1 {
        return false;
    }
    if 32768 < sheet.len() {
        return false;
    }
    let n = sheet[0] as usize;
    if 64 < n {
        return false;
    }
    let Some(end) = check_replies(sheet, 1, n) else {
        return false;
    };
    if end < sheet.len() {
        return false;
    }
    rows::distinct(sheet, 1, n, Kind::Reply)
}

// ---- the search

// What a sheet says to a command: whether the program succeeded, and where its output begins and its length.
#[derive(Clone, Copy)]
pub struct Reply {
    pub success: bool,
    pub start: usize,
    pub len: usize,
}

// The reply to a command on a sound sheet; no output is read.
pub fn find(sheet: &[u8], command: &[u8]) -> Option<Reply>
    requires { is_some (decode sheet.now) ≡ true }
    ensures { AnswersTo command.now sheet.now result }
{
    let n = sheet[0] as usize;
    match rows::find(sheet, 1, n, Kind::Reply, command) {
        Ok(found) => {
            let h = rows::reply_head(&sheet[found.at..found.at + 3]);
            Some(Reply {
                success: h.success == 1,
                start: found.value,
                len: found.len,
            })
        }
        Err(_) => None,
    }
}
