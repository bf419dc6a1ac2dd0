// Closes outcome records that hold an output, three properties and one run: each line of the input is the place of the matched device, a blank and the
// run's template, and behind the line stands the text of its command or the number of the refusal.

#![tactic(auto)]

ghost use Rattle.std.specs.Prelude.{◌≤◌, length};

use bits::BitCursor;
use std::io;
use std::io::{Read, Stdout};

// Node 188:5, property D=device; the device /usb/tty/ttyUSB12 of subsystem tty with attributes model and empty, and its parent /usb of driver
// `ftdi sio` with attributes model, serial and empty.
const DEVICE: [u8; 116] =
    *b"\x11\x10\xbc\x00\x00P@\x02\x06Ddevice\x08\x86\x00\x80/usb/tty/ttyUSB12tty\x0a\x05modelE 1 \x09\x0a\x00empty\x02\x06@\xc0/usbusbftdi sio\x0a\x06modelparent\x0c\x06serialRC 7 \x0a\x0a\x04emptyfull";

// The header, the output `out 1`, and properties A=`x y`, B of 64 bytes, E of none.
const FRONT: [u8; 94] =
    *b" \x00\x00\x00\x00\x00\x00\x00\x00\x0c\x01\x01@out 1\x02\x03Ax y\x02@Bbbbbbbbbbbbbbbbbbbbbbbbbbbbbbbbbbbbbbbbbbbbbbbbbbbbbbbbbbbbbbbbb\x02\x00E";

fn say(stdout: Stdout, word: &[u8]) {
    let _ = stdout.write_all(word);
}

fn say_number(stdout: Stdout, n: u32) {
    let d = pieces::decimal(n);
    say(stdout, &d.digits[d.start..]);
}

// The text of the only command in a run list of `used` bytes.
fn say_text(stdout: Stdout, list: &[u8], used: usize) {
    if 3 <= used && used <= list.len() {
        say(stdout, &list[3..used]);
    }
}

fn digit_of(b: u8) -> usize
    ensures { result ≤ 31 }
{
    match b {
        b'0'..=b'9' => usize::from(b - b'0'),
        _ => 31,
    }
}

fn show_close(stdout: Stdout, place: usize, template: &[u8])
    requires { length template.now ≤ 256 }
{
    let mut rec = [0u8; 352];
    splice::store(&mut rec, 0, &FRONT);
    let len_at = BitCursor { at: 753 }.put(&mut rec, 5, place);
    len_at.put(&mut rec, 9, template.len());
    splice::store(&mut rec, 96, template);
    let mut target = [0u8; 8225];
    let given = close::close(&DEVICE, &rec[..96 + template.len()], &mut target);
    if given.number == 0 {
        say_text(stdout, &target, given.used as usize);
    } else {
        say(stdout, b"refused ");
        say_number(stdout, given.number);
    }
}

fn show_line(stdout: Stdout, line: &[u8]) {
    say(stdout, line);
    say(stdout, b"\t");
    if matches!(line.len(), 2..=258) {
        show_close(stdout, digit_of(line[0]), &line[2..]);
    }
    say(stdout, b"\n");
}

fn show_all(stdout: Stdout, table: &[u8]) {
    for line in table.split_inclusive(|b| *b == b'\n') {
        show_line(stdout, line.strip_suffix(b"\n").unwrap_or(line));
    }
}

// How much of the input is read.
const ROOM: u64 = 65536;

fn main(rt: HostRuntime) -> io::Result<()> {
    let stdout = rt.stdout();
    let mut space = Vec::new(rt.alloc());
    rt.stdin().take(ROOM).read_to_end(&mut space)?;
    show_all(stdout, &space);
    Ok(())
}
