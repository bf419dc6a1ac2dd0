// Prints the listings of rules texts that were judged by hand: for one device from its fresh record, then from an outcome record, then for
// faulty records, with an answer sheet and with a faulty one.

#![tactic(auto)]

use std::io::Stdout;

// ttyUSB0 of subsystem tty, node 188:0, and its parent 1-2 of driver usb with attribute serial=RC-0417.
const DEVICE: [u8; 89] =
    *b"\x11\x10\xbc\x00\x00\x00\x00\x10\x86\x00\x00/devices/usb1/1-2/1-2:1.0/ttyUSB0tty\x08\x86\x18@/devices/usb1/1-2usbusb\x0c\x07serialRC-0417";

// Owner u, mode 0600, priority 5, the output `said`, nowatch, link old, property K=V, tag g, program x.
const OUTCOME: [u8; 31] =
    *b" \x01\x020\x00\x00\x00\x00\xa1\x04!\x01 saidu\x03old\x02\x01KV\x01g\x00\x02x";

// The sheet of no entries.
const NO_ANSWERS: [u8; 1] = [0];

// `id` succeeds with the output `a b` and two newlines, `up` fails with the output `x`.
const ANSWERS: [u8; 17] = *b"\x02\x80@(ida b\x0a\x0a\x00@\x08upx";

fn say(stdout: Stdout, word: &[u8]) {
    let _ = stdout.write_all(word);
}

fn say_listing(stdout: Stdout, name: &[u8], listing: Option<usize>, out: &[u8]) {
    say(stdout, b"# ");
    say(stdout, name);
    say(stdout, b"\n");
    match listing {
        Some(n) => if n <= out.len() {
            say(stdout, &out[..n]);
        },
        None => say(stdout, b"full\n"),
    }
}

// From the fresh record of a device, with an answer sheet.
fn show_run(stdout: Stdout, name: &[u8], text: &[u8], device: &[u8], sheet: &[u8]) {
    let mut out = [0u8; 4096];
    let listing = listing_run::list(text, device, sheet, &mut out);
    say_listing(stdout, name, listing, &out);
}

fn show(stdout: Stdout, name: &[u8], text: &[u8], device: &[u8]) {
    show_run(stdout, name, text, device, &NO_ANSWERS);
}

fn show_answered(stdout: Stdout, name: &[u8], text: &[u8], sheet: &[u8]) {
    show_run(stdout, name, text, &DEVICE, sheet);
}

// From an outcome record.
fn show_from(stdout: Stdout, name: &[u8], text: &[u8], outcome: &[u8]) {
    let mut out = [0u8; 4096];
    let listing = listing_run::list_from(text, &DEVICE, outcome, &NO_ANSWERS, &mut out);
    say_listing(stdout, name, listing, &out);
}

// Rules that ask programs (document 02, Item 6).
fn show_programs(stdout: Stdout) {
    show_answered(
        stdout,
        b"answers: the links and the command have the output; a program that failed left it",
        b"PROGRAM=\"id\", RESULT==\"a b\", SYMLINK+=\"$result\", RUN+=\"[%c]\"\x0aPROGRAM!=\"up\", SYMLINK+=\"x-$result\"\x0a",
        &ANSWERS,
    );
    show_answered(
        stdout,
        b"a command that is not on the sheet",
        b"PROGRAM==\"id\"\x0a\x0aPROGRAM!=\"gone\"\x0a",
        &ANSWERS,
    );
    show_answered(stdout, b"a faulty sheet", b"", &ANSWERS[..16]);
}

fn show_runs(stdout: Stdout) {
    show(
        stdout,
        b"one counter",
        b"KERNEL==\"ttyUSB[0-9]*\", ATTRS{serial}==\"RC-0417\", SYMLINK+=\"rope/trip%n\", MODE=\"0660\", GROUP=\"dialout\"",
        &DEVICE,
    );
    show(stdout, b"no rules", b"", &DEVICE);
    show(
        stdout,
        b"a jump over a rule",
        b"KERNEL==\"tty*\", GOTO=\"end\"\x0aTAG+=\"skipped\"\x0a# comment\x0aLABEL=\"end\", TAG+=\"reached\"\x0a",
        &DEVICE,
    );
    show(
        stdout,
        b"runs of both types",
        b"ENV{STEP}=\"1\", RUN+=\"/bin/a $env{STEP}\", RUN{builtin}+=\"kmod %k\", RUN+=\"%b\"\x0aENV{STEP}=\"2\"\x0aATTRS{serial}==\"RC-0417\", RUN{program}+=\"%b $driver\"\x0a",
        &DEVICE,
    );
    show(
        stdout,
        b"devices tried: another key fails; no device has the serial; the event device",
        b"KERNELS==\"1-2\", KERNEL==\"sda\", TAG+=\"a\"\x0aATTRS{serial}==\"none\", TAG+=\"b\"\x0aKERNELS==\"ttyUSB0\"\x0a",
        &DEVICE,
    );
    show(
        stdout,
        b"bytes that are not printed",
        b"ENV{Q}=\"a\x09b~\x7f\\ \xc3\xa9\", TAG+=\"x\x01 y\"",
        &DEVICE,
    );
    show(
        stdout,
        b"a newline and a backslash at the end",
        b"OPTIONS=\"string_escape=none\", SYMLINK+=e\"a\\nb c\\\\\", ENV{K}=e\"v\\x0aw\\\\\", TAG+=e\"t\\n\"\x0aTAG==e\"t\\n\", TAG+=\"seen\"",
        &DEVICE,
    );
    show(
        stdout,
        b"all settings",
        b"OPTIONS+=\"link_priority=-2147483648\", OWNER=\"root\", GROUP=\"adm\", MODE=\"5\", SYMLINK=\"a b\", TAG+=\"t\"",
        &DEVICE,
    );
    show(
        stdout,
        b"watch",
        b"OPTIONS=\"nowatch\", GROUP=\"g\"\x0aOPTIONS+=\"watch\", SYMLINK=\"l\"\x0aKERNEL==\"none\", OPTIONS=\"nowatch\"",
        &DEVICE,
    );
}

fn show_refusals(stdout: Stdout) {
    show(
        stdout,
        b"a jump without its label",
        b"\x0a\x0a# jump\x0aKERNEL==\"a\", GOTO=\"end\"\x0a",
        &DEVICE,
    );
    show(
        stdout,
        b"an unknown key",
        b"KERNEL==\"a\"\x0aNAME=\"x\"\x0a",
        &DEVICE,
    );
    show(
        stdout,
        b"a link that leaves its directory",
        b"KERNEL==\"none\", SYMLINK+=\"/x\"\x0a\x0aSYMLINK+=\"../x\"",
        &DEVICE,
    );
    show(stdout, b"a mode that is none", b"MODE=\"888\"", &DEVICE);
    show(
        stdout,
        b"a mode that lets others write",
        b"MODE=\"0664\"\x0aMODE=\"0666\"",
        &DEVICE,
    );
    show(
        stdout,
        b"a command that is too long",
        b"RUN+=\"%p%p%p%p%p%p%p%p%p%p%p%p%p%p%p%p\"",
        &DEVICE,
    );
}

// From a record, and with faulty records.
fn show_records(stdout: Stdout) {
    show_from(
        stdout,
        b"from a record",
        b"SYMLINK+=\"new\", ENV{K}=\"\"",
        &OUTCOME,
    );
    show(stdout, b"a faulty device", b"TAG+=\"t\"", &DEVICE[..88]);
    show_from(stdout, b"a faulty record", b"TAG+=\"t\"", &OUTCOME[..30]);
    show_from(
        stdout,
        b"a record of mode 0606, closed",
        b"TAG+=\"t\"",
        b" A\x020\xc0\x00\x00\x00\xa1\x04!\x00\x00u\x03old\x02\x01KV\x01g\x00\x02x",
    );
    show_from(
        stdout,
        b"a record of edition 1",
        b"TAG+=\"t\"",
        b"\x10\x01\x020\x00\x00\x00\x00\xa1\x04!u\x03old\x02\x01KV\x01g\x00\x02x",
    );
}

fn main(rt: HostRuntime) {
    let stdout = rt.stdout();
    show_runs(stdout);
    show_refusals(stdout);
    show_records(stdout);
    show_programs(stdout);
    show(
        stdout,
        b"a faulty text and a faulty device",
        b"TAG+=\"t\"x",
        &DEVICE[..88],
    );
}
