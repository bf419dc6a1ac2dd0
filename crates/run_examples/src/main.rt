// Runs the rules of a table on a device, from a record, in a target whose bytes were all 0xaa, then closes what the run left. A case of the
// table is a line with three letters and a name, the lines of its rules, and a line that begins with `=> ` and says what must come out:
// number, line, visited, used; of an accepted run then every part of its record, and the commands of the close.
// Letters: the device (t or b, else one that is faulty), the record (f, the device's fresh one, else one that is faulty), the room of the
// target and the sheet (=, or < for one byte less than a run needs, or ! for a sheet that is faulty).

#![tactic(auto)]

use answers::Given;
use std::io;
use std::io::{Read, Stdout};

// Node 188:0; the device /devices/usb1/1-1/ttyUSB0 of subsystem tty; its parent, of subsystem usb and driver ftdi, with attribute
// serial=RC-0417; the parent of that, of subsystem usb and driver usb, with attribute serial=hub.
const TTY: [u8; 116] =
    *b"\x12\x10\xbc\x00\x00\x00\x00\x0c\x86\x00\x00/devices/usb1/1-1/ttyUSB0tty\x08\x86 @/devices/usb1/1-1usbftdi\x0c\x07serialRC-0417\x06\x86\x18@/devices/usb1usbusb\x0c\x03serialhub";

// Property P=`a b`; the device /block/sda of subsystem block.
const BLOCK: [u8; 32] = *b"\x10\x00\x00\x00\x00\x00@\x02\x03Pa b\x05\x0a\x00\x00/block/sdablock";

// No device record: its edition is 2.
const FAULTY: [u8; 13] = *b" \x00\x00\x00\x00\x00\x00\x01\x00\x00\x00/a";

// No outcome record: its edition is 1.
const OLD: [u8; 11] = *b"\x10\x00\x00\x00\x00\x00\x00\x00\x00\x00\x00";

// What programs said: q `yes` and two newlines; f failed with `no`; `r ttyUSB0` `a b` and a newline; n nothing; `got yes` `2`; m `0666`; w a
// blank and a tab; i `a`, a newline, `b`, a carriage return and a newline.
const SHEET: [u8; 70] =
    *b"\x08\x80 (qyes\n\n\x00 \x10fno\x81  r ttyUSB0a b\n\x80 \x00n\x80\xe0\x08got yes2\x80  m0666\x80 \x10w \t\x80 (ia\nb\r\n";

// No answer sheet: a byte stands behind its end.
const LONGER: [u8; 2] = *b"\x00\x00";

fn say(stdout: Stdout, word: &[u8]) {
    let _ = stdout.write_all(word);
}

// ---- what came out, held to what must come out: each function takes the place up to which they agree, and gives the next

// Behind a place from which they do not agree.
const APART: usize = 65536;

fn agree(want: &[u8], n: usize, b: u8) -> usize {
    if APART <= n {
        n
    } else if scan::byte_at(want, n) == b {
        n.wrapping_add(1)
    } else {
        n.wrapping_add(APART)
    }
}

fn agree_all(want: &[u8], n: usize, s: &[u8]) -> usize {
    let mut m = n;
    for b in s {
        m = agree(want, m, *b);
    }
    m
}

fn agree_part(want: &[u8], n: usize, s: &[u8], from: usize, to: usize) -> usize {
    if from <= to && to <= s.len() {
        agree_all(want, n, &s[from..to])
    } else {
        n
    }
}

fn agree_number(want: &[u8], n: usize, v: u32) -> usize {
    let d = pieces::decimal(v);
    agree_all(want, n, &d.digits[d.start..])
}

// A number, and a blank before it.
fn agree_next(want: &[u8], n: usize, v: u32) -> usize {
    let m = agree(want, n, b' ');
    agree_number(want, m, v)
}

fn agree_given(want: &[u8], given: Given) -> usize {
    let a = agree_number(want, 0, given.number);
    let b = agree_next(want, a, given.line);
    let c = agree_next(want, b, given.visited);
    agree_next(want, c, given.used)
}

// ---- the entries of a record or of a run list

fn byte(s: &[u8], i: usize) -> u32 {
    u32::from(scan::byte_at(s, i))
}

// Two bytes as one number.
fn pair(s: &[u8], i: usize) -> u32 {
    byte(s, i) << 8 | byte(s, i.wrapping_add(1))
}

// The place up to which they agree, and a place in the record.
#[derive(Clone, Copy)]
struct Spot {
    n: usize,
    at: usize,
}

#[derive(Clone, Copy)]
enum Kind {
    Link,
    Property,
    Tag,
    Run,
    Command,
}

fn behind(at: usize, n: u32) -> usize {
    at.wrapping_add(n as usize)
}

// A word, and a text of the record.
fn agree_text(want: &[u8], n: usize, word: &[u8], t: &[u8], from: usize, len: u32) -> Spot {
    let m = agree_all(want, n, word);
    let at = behind(from, len);
    Spot {
        n: agree_part(want, m, t, from, at),
        at,
    }
}

fn agree_property(want: &[u8], n: usize, t: &[u8], at: usize) -> Spot {
    let head = pair(t, at);
    let key = agree_text(want, n, b"; env ", t, behind(at, 2), head >> 9);
    agree_text(want, key.n, b"=", t, key.at, head & 511)
}

fn agree_type(want: &[u8], n: usize, builtin: u32) -> usize {
    if builtin == 0 {
        agree_all(want, n, b"program ")
    } else {
        agree_all(want, n, b"builtin ")
    }
}

// Its type, its place, its template.
fn agree_run(want: &[u8], n: usize, t: &[u8], at: usize) -> Spot {
    let head = pair(t, at);
    let begun = agree_all(want, n, b"; ");
    let typed = agree_type(want, begun, head >> 15);
    let placed = agree_number(want, typed, head >> 10 & 31);
    agree_text(want, placed, b" ", t, behind(at, 2), head >> 1 & 511)
}

fn agree_command(want: &[u8], n: usize, t: &[u8], at: usize) -> Spot {
    let head = pair(t, at);
    let begun = agree_all(want, n, b"; close ");
    let typed = agree_type(want, begun, head >> 15);
    agree_text(want, typed, b"", t, behind(at, 2), head >> 5 & 1023)
}

fn agree_entry(want: &[u8], n: usize, t: &[u8], at: usize, kind: Kind) -> Spot {
    match kind {
        Kind::Link => agree_text(want, n, b"; link ", t, behind(at, 1), byte(t, at)),
        Kind::Tag => agree_text(want, n, b"; tag ", t, behind(at, 1), byte(t, at)),
        Kind::Property => agree_property(want, n, t, at),
        Kind::Run => agree_run(want, n, t, at),
        Kind::Command => agree_command(want, n, t, at),
    }
}

fn agree_row(want: &[u8], from: Spot, t: &[u8], count: u32, kind: Kind) -> Spot {
    let mut spot = from;
    for _ in 0..count {
        spot = agree_entry(want, spot.n, t, spot.at, kind);
    }
    spot
}

// ---- a record: its header's fields, then its rows

// Nothing for a number that is 0.
fn agree_field(want: &[u8], n: usize, word: &[u8], v: u32) -> usize {
    if v == 0 {
        return n;
    }
    let m = agree_all(want, n, word);
    agree_number(want, m, v)
}

// Nothing for an empty name.
fn agree_name(want: &[u8], from: Spot, word: &[u8], t: &[u8], len: u32) -> Spot {
    if len == 0 {
        return from;
    }
    agree_text(want, from.n, word, t, from.at, len)
}

// The flags of closed keys, the priority, the mode and watch as numbers.
fn agree_fields(want: &[u8], n: usize, t: &[u8]) -> usize {
    let closed = (byte(t, 0) & 15) << 2 | byte(t, 1) >> 6;
    let low = byte(t, 5) << 19 | byte(t, 6) << 11 | byte(t, 7) << 3 | byte(t, 8) >> 5;
    let mode = (byte(t, 2) & 1) << 11 | byte(t, 3) << 3 | byte(t, 4) >> 5;
    let a = agree_field(want, n, b"; closed ", closed);
    let b = agree_field(want, a, b"; priority ", byte(t, 4) << 27 | low);
    let c = agree_field(want, b, b"; mode ", mode);
    agree_field(want, c, b"; watch ", byte(t, 12) >> 4 & 3)
}

fn agree_names(want: &[u8], from: Spot, t: &[u8]) -> Spot {
    let output = agree_name(want, from, b"; output ", t, pair(t, 11) >> 6);
    let owner = agree_name(want, output, b"; owner ", t, byte(t, 1) & 63);
    agree_name(want, owner, b"; group ", t, byte(t, 2) >> 2)
}

fn agree_front(want: &[u8], from: Spot, t: &[u8]) -> Spot {
    let links = agree_row(want, from, t, byte(t, 8) & 31, Kind::Link);
    agree_row(want, links, t, byte(t, 9) >> 2, Kind::Property)
}

fn agree_back(want: &[u8], from: Spot, t: &[u8]) -> Spot {
    let tags = (byte(t, 9) & 3) << 3 | byte(t, 10) >> 5;
    let tagged = agree_row(want, from, t, tags, Kind::Tag);
    agree_row(want, tagged, t, byte(t, 10) & 31, Kind::Run)
}

fn agree_record(want: &[u8], n: usize, t: &[u8]) -> usize {
    let fields = agree_fields(want, n, t);
    let names = agree_names(want, Spot { n: fields, at: 13 }, t);
    let front = agree_front(want, names, t);
    let back = agree_back(want, front, t);
    back.n
}

// ---- the close of a record

fn agree_close(want: &[u8], n: usize, device: &[u8], record: &[u8]) -> usize {
    let mut list = [0xaau8; 8225];
    let given = close::close(device, record, &mut list);
    if given.number != 0 {
        let m = agree_all(want, n, b"; close refused");
        return agree_next(want, m, given.number);
    }
    let count = byte(&list, 0) >> 3;
    let commands = agree_row(want, Spot { n, at: 1 }, &list, count, Kind::Command);
    commands.n
}

// ---- a case

// Whether all bytes from a place on are zero.
fn is_zero(s: &[u8], from: usize) -> bool {
    s.iter().skip(from).all(|b| *b == 0)
}

fn agree_rest(want: &[u8], n: usize, target: &[u8], used: usize) -> usize {
    if is_zero(target, used) {
        n
    } else {
        agree_all(want, n, b"; not zero behind it")
    }
}

fn agree_made(want: &[u8], n: usize, device: &[u8], record: &[u8]) -> usize {
    let m = agree_record(want, n, record);
    agree_close(want, m, device, record)
}

fn agree_outcome(want: &[u8], given: Given, device: &[u8], target: &[u8]) -> usize {
    let used = given.used as usize;
    let n = agree_given(want, given);
    let m = agree_rest(want, n, target, used);
    if given.number == 0 && used <= target.len() {
        agree_made(want, m, device, &target[..used])
    } else {
        m
    }
}

// The part of what must come out with which what came out agrees.
fn say_common(stdout: Stdout, want: &[u8], n: usize) {
    if n <= want.len() {
        say(stdout, &want[..n]);
    }
}

fn say_verdict(stdout: Stdout, name: &[u8], want: &[u8], n: usize) {
    if n == want.len() {
        say(stdout, b"ok ");
        say(stdout, name);
    } else {
        say(stdout, name);
        say(stdout, b" goes apart behind ");
        say_common(stdout, want, n % APART);
    }
    say(stdout, b"\n");
}

fn show_run(
    stdout: Stdout,
    name: &[u8],
    text: &[u8],
    device: &[u8],
    outcome: &[u8],
    sheet: &[u8],
    target: &mut [u8],
    want: &[u8],
) {
    let given = run::run(text, device, outcome, sheet, target);
    let n = agree_outcome(want, given, device, target);
    say_verdict(stdout, name, want, n);
}

// In the room and with the sheet that the case names.
fn show_from(stdout: Stdout, case: &[u8], device: &[u8], outcome: &[u8], want: &[u8]) {
    let mut target = [0xaau8; 18125];
    let first = scan::byte_end(case, 0, b'\n');
    if first < 4 || case.len() <= first {
        return;
    }
    let name = &case[4..first];
    let text = &case[first + 1..];
    let (sheet, room) = match scan::byte_at(case, 2) {
        b'<' => (&SHEET[..], 18124),
        b'!' => (&LONGER[..], 18125),
        _ => (&SHEET[..], 18125),
    };
    let target = &mut target[..room];
    show_run(stdout, name, text, device, outcome, sheet, target, want);
}

fn show_fresh(stdout: Stdout, case: &[u8], device: &[u8], start: &[u8], used: usize, want: &[u8]) {
    if used <= start.len() {
        show_from(stdout, case, device, &start[..used], want);
    }
}

fn show_on(stdout: Stdout, case: &[u8], device: &[u8], want: &[u8]) {
    if scan::byte_at(case, 1) != b'f' {
        show_from(stdout, case, device, &OLD, want);
        return;
    }
    let mut start = [0u8; 18125];
    let given = fresh::fresh(device, &mut start);
    show_fresh(stdout, case, device, &start, given.used as usize, want);
}

fn show_case(stdout: Stdout, case: &[u8], want: &[u8]) {
    match scan::byte_at(case, 0) {
        b't' => show_on(stdout, case, &TTY, want),
        b'b' => show_on(stdout, case, &BLOCK, want),
        _ => show_on(stdout, case, &FAULTY, want),
    }
}

// Whether the line behind a case's rules says what must come out.
fn ends_case(stdout: Stdout, case: &[u8], line: &[u8]) -> bool {
    if line.len() < 3 || !line.starts_with(b"=>") {
        return false;
    }
    show_case(stdout, case, &line[3..]);
    true
}

// One line of the table, and where the case of the next line begins.
fn show_line(stdout: Stdout, table: &[u8], case: usize, at: usize, end: usize) -> usize {
    if case <= at && at <= end && end <= table.len() {
        if ends_case(stdout, &table[case..at], &table[at..end]) {
            return end.wrapping_add(1);
        }
    }
    case
}

fn show_all(stdout: Stdout, table: &[u8]) {
    let mut case: usize = 0;
    let mut at: usize = 0;
    while at < table.len() {
        let end = scan::byte_end(table, at, b'\n');
        case = show_line(stdout, table, case, at, end);
        at = end + 1;
    }
}

// How much of the input is read.
const ROOM: u64 = 65536;

fn main(rt: HostRuntime) -> io::Result<()> {
    let stdout = rt.stdout();
    let mut space = Vec::new(rt.alloc());
    rt.stdin().take(ROOM).read_to_end(&mut space)?;
    show_all(stdout, &space);
    Ok(())
}
