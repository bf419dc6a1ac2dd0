// Reads a table of records: each is checked, or something is made of it, and what comes out is held to what must come out. A row of the table
// has columns with `|` between them, the last of which is its name:
//   device | RECORD | SIGN | NAME                                 the check of a device record: `+` sound, `-` faulty
//   outcome CHAIN | RECORD | SIGN | NAME                          the check of an outcome record beside a chain of devices
//   device bits, outcome bits CHAIN | RECORD | SIGNS | NAME       with each of its first bits the other way; `.` where none is tried
//   device cuts, outcome cuts CHAIN | RECORD | SIGNS | NAME       cut behind each number of its bytes, from none on
//   fresh ROOM | DEVICE | | NUMBERS | RECORD | NAME               number, line, visited, tried, used; the record
//   newer ROOM, older ROOM | DEVICE | OUTCOME | NUMBERS | RECORD | NAME
//   view PLACE | DEVICE | WHAT IT SAYS | NAME                     the device at a place of the chain
// In a record blanks say nothing, `\xNN` is the byte of that number, and `\N*` says that the next byte stands N times. Signs may have blanks
// between them. Other lines are passed over.

#![tactic(auto)]

ghost use Rattle.std.specs.Prelude.{◌≤◌, length};
ghost use Rattle.device_lookup.specs.Lookup.{Sound, Standing, OfDevice, Within, Chained};

use answers::Given;
use device_lookup::{Chain, Span};
use std::io;
use std::io::{Read, Stdout};

fn say(stdout: Stdout, word: &[u8]) {
    let _ = stdout.write_all(word);
}

// ---- the columns of a row

// A column, counted from 0, without the bars around it.
fn column(row: &[u8], k: u32) -> &[u8] {
    let mut from: usize = 0;
    for _ in 0..k {
        from = std::num::wrapping_add_usize(scan::byte_end(row, from, b'|'), 1);
    }
    let to = scan::byte_end(row, from, b'|');
    if from <= to {
        if to <= row.len() {
            return &row[from..to];
        }
    }
    &row[..0]
}

fn next_number(n: usize, digit: u8) -> usize {
    if n < 10000 {
        return n * 10 + scan::wide(digit % 16);
    }
    n
}

// The number that the digits of a column give.
fn number_of(digits: &[u8]) -> usize {
    let mut n: usize = 0;
    for digit in digits {
        if scan::is_digit(*digit) {
            n = next_number(n, *digit);
        }
    }
    n
}

// ---- the bytes of a column

// What the next byte of a column is: the first of an item, the one behind a backslash, a digit of a count, the digits of a byte.
#[derive(Clone, Copy)]
enum Item {
    First,
    Marked,
    Count,
    High,
    Low(u8),
}

// How often the byte that is being read stands, and how many there are before it.
#[derive(Clone, Copy)]
struct Reading {
    item: Item,
    times: usize,
    n: usize,
}

fn hex(digit: u8) -> u8 {
    match digit {
        b'0'..=b'9' => digit - b'0',
        b'a'..=b'f' => digit - b'a' + 10,
        _ => 0,
    }
}

// A byte, if there is room.
fn set(bytes: &mut [u8], n: usize, b: u8) {
    if n < bytes.len() {
        bytes[n] = b;
    }
}

// A byte as often as it stands.
fn put(bytes: &mut [u8], r: Reading, b: u8) -> Reading {
    let mut n = r.n;
    for _ in 0..r.times {
        set(bytes, n, b);
        n = std::num::wrapping_add_usize(n, 1);
    }
    Reading {
        item: Item::First,
        times: 1,
        n,
    }
}

fn go_on(r: Reading, item: Item, times: usize) -> Reading {
    Reading {
        item,
        times,
        n: r.n,
    }
}

fn first(bytes: &mut [u8], r: Reading, b: u8) -> Reading {
    match b {
        b' ' => r,
        b'\\' => go_on(r, Item::Marked, r.times),
        _ => put(bytes, r, b),
    }
}

fn marked(r: Reading, b: u8) -> Reading {
    match b {
        b'x' => go_on(r, Item::High, r.times),
        _ => go_on(r, Item::Count, next_number(0, b)),
    }
}

fn count(r: Reading, b: u8) -> Reading {
    match b {
        b'*' => go_on(r, Item::First, r.times),
        _ => go_on(r, Item::Count, next_number(r.times, b)),
    }
}

fn take(bytes: &mut [u8], r: Reading, b: u8) -> Reading {
    let item = r.item;
    match item {
        Item::First => first(bytes, r, b),
        Item::Marked => marked(r, b),
        Item::Count => count(r, b),
        Item::High => go_on(r, Item::Low(hex(b)), r.times),
        Item::Low(high) => put(bytes, r, high << 4 | hex(b)),
    }
}

// How many bytes a column has; they stand at the front of the slice, if there is room.
fn bytes_of(column: &[u8], bytes: &mut [u8]) -> usize {
    let mut r = Reading {
        item: Item::First,
        times: 1,
        n: 0,
    };
    for b in column {
        r = take(bytes, r, *b);
    }
    r.n
}

// ---- what came out, held to what must come out: each function takes the place up to which they agree, and gives the next

// Behind a place from which they do not agree.
const APART: usize = 65536;

fn agree(want: &[u8], n: usize, b: u8) -> usize {
    if APART <= n {
        return n;
    }
    if scan::byte_at(want, n) == b {
        return std::num::wrapping_add_usize(n, 1);
    }
    std::num::wrapping_add_usize(n, APART)
}

fn agree_all(want: &[u8], n: usize, s: &[u8]) -> usize {
    let mut m = n;
    for b in s {
        m = agree(want, m, *b);
    }
    m
}

// A blank, a number.
fn agree_number(want: &[u8], n: usize, v: u32) -> usize {
    let m = agree(want, n, b' ');
    let d = pieces::decimal(v);
    let digits = d.digits;
    let start = d.start;
    agree_all(want, m, &digits[start..])
}

// What must come out, up to where what came out agrees with it. The name has a blank at its front.
fn say_apart(stdout: Stdout, name: &[u8], want: &[u8], n: usize) {
    say(stdout, b"apart:");
    say(stdout, name);
    say(stdout, b", behind");
    if n <= want.len() {
        say(stdout, &want[0..n]);
    }
}

fn say_verdict(stdout: Stdout, name: &[u8], want: &[u8], n: usize) {
    if n == want.len() {
        say(stdout, b"ok");
        say(stdout, name);
    } else {
        say_apart(stdout, name, want, n % APART);
    }
    say(stdout, b"\n");
}

// ---- checks

#[derive(Clone, Copy)]
enum Kind {
    Device,
    Outcome,
}

fn is_sound(rec: &[u8], chain: usize) -> bool {
    outcome_check::check(rec, chain).is_some()
}

fn judge(kind: Kind, rec: &[u8], chain: usize) -> bool {
    match kind {
        Kind::Device => device_check::check(rec),
        Kind::Outcome => is_sound(rec, chain),
    }
}

// A sign behind blanks, or a dot where none is asked for.
fn agree_sign(want: &[u8], n: usize, sound: bool) -> usize {
    let m = scan::blank_end(want, n);
    if scan::byte_at(want, m) == b'.' {
        return agree(want, m, b'.');
    }
    if sound {
        return agree(want, m, b'+');
    }
    agree(want, m, b'-')
}

// The byte with the bit i, from the most significant, the other way.
fn flipped(b: u8, i: usize) -> u8 {
    match i {
        0 => b ^ 128,
        1 => b ^ 64,
        2 => b ^ 32,
        3 => b ^ 16,
        4 => b ^ 8,
        5 => b ^ 4,
        6 => b ^ 2,
        _ => b ^ 1,
    }
}

fn flip(rec: &mut [u8], i: usize) {
    let at = i / 8;
    if at < rec.len() {
        rec[at] = flipped(rec[at], i % 8);
    }
}

// Nothing where no sign is left.
fn agree_bit(want: &[u8], n: usize, kind: Kind, rec: &mut [u8], chain: usize, i: usize) -> usize {
    let m = scan::blank_end(want, n);
    if want.len() <= m {
        return m;
    }
    flip(rec, i);
    let sound = judge(kind, rec, chain);
    flip(rec, i);
    agree_sign(want, m, sound)
}

fn agree_bits(want: &[u8], kind: Kind, rec: &mut [u8], chain: usize) -> usize {
    let mut n: usize = 0;
    for i in 0..want.len() {
        n = agree_bit(want, n, kind, rec, chain, i);
    }
    n
}

fn agree_cuts(want: &[u8], kind: Kind, rec: &[u8], chain: usize) -> usize {
    let mut n: usize = 0;
    for i in 0..rec.len() {
        n = agree_sign(want, n, judge(kind, &rec[0..i], chain));
    }
    n
}

// By the letter behind the first word.
fn agree_check(row: &[u8], want: &[u8], kind: Kind, rec: &mut [u8], chain: usize) -> usize {
    let end = scan::byte_end(row, 0, b' ');
    match scan::byte_at(row, std::num::wrapping_add_usize(end, 1)) {
        b'b' => agree_bits(want, kind, rec, chain),
        b'c' => agree_cuts(want, kind, rec, chain),
        _ => agree_sign(want, 0, judge(kind, rec, chain)),
    }
}

fn show_check(stdout: Stdout, row: &[u8], kind: Kind, rec: &mut [u8], chain: usize) {
    let want = column(row, 2);
    let n = agree_check(row, want, kind, rec, chain);
    say_verdict(stdout, column(row, 3), want, scan::blank_end(want, n));
}

// ---- what is made of records

#[derive(Drop)]
enum Operation {
    Fresh,
    Newer,
    Older,
}

fn give(operation: Operation, device: &[u8], outcome: &[u8], target: &mut [u8]) -> Given {
    match operation {
        Operation::Fresh => fresh::fresh(device, target),
        Operation::Newer => convert::newer(device, outcome, target),
        Operation::Older => convert::older(device, outcome, target),
    }
}

fn agree_given(want: &[u8], given: Given) -> usize {
    let a = agree_number(want, 0, given.number);
    let b = agree_number(want, a, given.line);
    let c = agree_number(want, b, given.visited);
    let d = agree_number(want, c, given.tried);
    let e = agree_number(want, d, given.used);
    agree(want, e, b' ')
}

// Whether the whole target is the record and zeros behind it.
fn agree_target(n: usize, target: &[u8], want: &[u8]) -> usize {
    if scan::same(target, want) {
        return n;
    }
    std::num::wrapping_add_usize(n, APART)
}

fn show_given(stdout: Stdout, row: &[u8], given: Given, target: &[u8]) {
    let mut rec = [0u8; 18200];
    bytes_of(column(row, 4), &mut rec);
    let room = target.len();
    if room <= rec.len() {
        let want = column(row, 3);
        let n = agree_target(agree_given(want, given), target, &rec[0..room]);
        say_verdict(stdout, column(row, 5), want, n);
    }
}

fn show_made(
    stdout: Stdout,
    row: &[u8],
    operation: Operation,
    device: &[u8],
    outcome: &[u8],
    target: &mut [u8],
) {
    let given = give(operation, device, outcome, target);
    show_given(stdout, row, given, target);
}

// In a target whose bytes were all 0xaa.
fn show_in(
    stdout: Stdout,
    row: &[u8],
    operation: Operation,
    device: &[u8],
    outcome: &[u8],
    room: usize,
) {
    let mut target = [0xaau8; 18200];
    if room <= target.len() {
        show_made(
            stdout,
            row,
            operation,
            device,
            outcome,
            &mut target[0..room],
        );
    }
}

fn show_operation(stdout: Stdout, row: &[u8], operation: Operation, device: &[u8], room: usize) {
    let mut outcome = [0u8; 4096];
    let n = bytes_of(column(row, 2), &mut outcome);
    if n <= outcome.len() {
        show_in(stdout, row, operation, device, &outcome[0..n], room);
    }
}

// ---- views of devices

// A text in brackets.
fn agree_text(want: &[u8], n: usize, text: &[u8]) -> usize {
    let a = agree_all(want, n, b" [");
    let b = agree_all(want, a, text);
    agree(want, b, b']')
}

fn agree_value(want: &[u8], n: usize, rec: &[u8], v: Option<Span>) -> usize
    requires { Within v (length rec.now) }
{
    match v {
        Some(_) => agree_text(want, n, device_lookup::part_of(rec, v)),
        None => agree_all(want, n, b" missing"),
    }
}

fn agree_attribute(want: &[u8], n: usize, rec: &[u8], at: usize, key: &[u8]) -> usize
    requires { Standing rec.now at }
{
    let a = agree(want, n, b' ');
    let b = agree_all(want, a, key);
    agree_value(want, b, rec, device_view::find_attribute_at(rec, at, key))
}

// Path, name, subsystem, driver and three attributes.
fn agree_device(want: &[u8], n: usize, rec: &[u8], at: usize) -> usize
    requires { Standing rec.now at }
{
    let a = agree_text(want, n, device_view::path_at(rec, at));
    let b = agree_text(want, a, device_view::name_at(rec, at));
    let c = agree_text(want, b, device_view::subsystem_at(rec, at));
    let d = agree_text(want, c, device_view::driver_at(rec, at));
    let e = agree_attribute(want, d, rec, at, b"size");
    let f = agree_attribute(want, e, rec, at, b"model");
    agree_attribute(want, f, rec, at, b"serial")
}

// The device at a place, by the views of the parents from the event device up.
fn agree_view(want: &[u8], rec: &[u8], chain: Chain, place: usize) -> usize
    requires { Sound rec.now × OfDevice rec.now (λ d. Chained d chain) }
{
    let starts = chain.at;
    let mut at = starts[0];
    for here in 1..place {
        if !device_view::has_parent_at(rec, at) {
            return agree_all(want, 0, b" no device");
        }
        at = device_view::parent_at(rec, at);
    }
    agree_device(want, 0, rec, at)
}

// One attribute by the place in the chain.
fn agree_place(want: &[u8], n: usize, rec: &[u8], chain: Chain, place: usize) -> usize
    requires { Sound rec.now × OfDevice rec.now (λ d. Chained d chain) }
{
    if place < 1 {
        return n;
    }
    if chain.len < place {
        return agree_all(want, n, b", no place ");
    }
    let m = agree_all(want, n, b", size");
    let b = agree_text(
        want,
        m,
        device_view::attribute_of(rec, chain, place, b"size"),
    );
    agree(want, b, b' ')
}

fn agree_views(want: &[u8], rec: &[u8], place: usize) -> usize {
    if !device_check::check(rec) {
        return agree_all(want, 0, b" faulty ");
    }
    let chain = device_lookup::chain_of(rec);
    let n = agree_view(want, rec, chain, place);
    agree_place(want, n, rec, chain, place)
}

fn show_view(stdout: Stdout, row: &[u8], rec: &[u8], place: usize) {
    let want = column(row, 2);
    say_verdict(stdout, column(row, 3), want, agree_views(want, rec, place));
}

// ---- the table

fn show_outcome(stdout: Stdout, row: &[u8], rec: &mut [u8], number: usize) {
    if scan::byte_at(row, 1) == b'l' {
        show_operation(stdout, row, Operation::Older, rec, number);
    } else {
        show_check(stdout, row, Kind::Outcome, rec, number);
    }
}

// By the first letter of what is done, of `older` and `outcome` by the second.
fn show_record(stdout: Stdout, row: &[u8], rec: &mut [u8], number: usize) {
    match scan::byte_at(row, 0) {
        b'd' => show_check(stdout, row, Kind::Device, rec, number),
        b'o' => show_outcome(stdout, row, rec, number),
        b'f' => show_operation(stdout, row, Operation::Fresh, rec, number),
        b'n' => show_operation(stdout, row, Operation::Newer, rec, number),
        b'v' => show_view(stdout, row, rec, number),
        _ => {}
    }
}

fn show(stdout: Stdout, row: &[u8]) {
    let mut rec = [0u8; 4096];
    let n = bytes_of(column(row, 1), &mut rec);
    if n <= rec.len() {
        show_record(stdout, row, &mut rec[0..n], number_of(column(row, 0)));
    }
}

fn show_line(stdout: Stdout, table: &[u8], at: usize, end: usize) {
    if at <= end {
        if end <= table.len() {
            show(stdout, &table[at..end]);
        }
    }
}

fn show_all(stdout: Stdout, table: &[u8]) {
    let mut at: usize = 0;
    while at < table.len() {
        let end = scan::byte_end(table, at, b'\n');
        show_line(stdout, table, at, end);
        at = end + 1;
    }
}

// How much of the input is read.
const ROOM: u64 = 65536;

fn main(rt: HostRuntime) -> io::Result<()> {
    let stdout = rt.stdout();
    let mut space = Vec::new(rt.alloc());
    rt.stdin().take(ROOM).read_to_end(&mut space)?;
    show_all(stdout, &space);
    Ok(())
}
