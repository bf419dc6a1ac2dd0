// Prints the listing of a rules file for a recorded device: listing RULES DEVICE [OUTCOME [SHEET]]. DEVICE and OUTCOME are packed records,
// SHEET a packed answer sheet. Without OUTCOME, or with - in its place, the run starts from the device's fresh record; without SHEET no
// program is answered.

#![tactic(auto)]

ghost use Rattle.std.specs.Prelude.{◌≤◌, length, IfOk, IfSome};
ghost use Rattle.listing.specs.Counts.{IsPrefixLen};

use std::env::{Env, FillError};
use std::fs::File;
use std::io::Read;
use std::{fs, io, str};

// Writes a line to standard error: what failed, and why.
fn fail(rt: &HostRuntime, what: &[u8], error: io::Error) {
    let _ = rt.stderr().write_all(what);
    let _ = eprintln!(rt; ": {error}");
}

// Reads until the buffer is full or the file ends.
fn read_full(file: &mut File, buf: &mut [u8]) -> io::Result<usize>
    ensures { IfOk result (λ n. IsPrefixLen n buf.new) }
{
    let mut done: usize = 0;
    while done < buf.len() {
        let n = file.read(&mut buf[done..])?;
        if n == 0 {
            break;
        }
        done += n;
    }
    Ok(done)
}

// What fits of a file.
fn read_path(rt: &HostRuntime, path: &[u8], buf: &mut [u8]) -> io::Result<usize>
    ensures { IfOk result (λ n. IsPrefixLen n buf.new) }
{
    let Ok(name) = str::from_utf8(path) else {
        return Err(io::Error::from(io::ErrorKind::InvalidFilename));
    };
    let mut file = fs::open(rt, name)?;
    read_full(&mut file, buf)
}

// How much of the buffer the file that an argument names takes, as far as it fits. A file that cannot be read is named on standard error.
fn read_file(rt: &HostRuntime, i: usize, buf: &mut [u8]) -> Option<usize>
    ensures { IfSome result (λ n. IsPrefixLen n buf.new) }
{
    let mut path = [0u8; 4096];
    let Ok(length) = rt.arg(i, &mut path) else {
        fail(
            rt,
            b"file name",
            io::Error::from(io::ErrorKind::InvalidFilename),
        );
        return None;
    };
    match read_path(rt, &path[..length], buf) {
        Ok(len) => Some(len),
        Err(error) => {
            fail(rt, &path[..length], error);
            None
        }
    }
}

// Whether the program was given an argument; argument 0 is its name.
fn is_given(rt: &HostRuntime, i: usize) -> bool {
    let mut word = [0u8; 1];
    !matches!(rt.arg(i, &mut word), Err(FillError::NotPresent))
}

// Whether an argument is missing or a dash.
fn is_left_out(rt: &HostRuntime, i: usize) -> bool {
    let mut word = [0u8; 4096];
    match rt.arg(i, &mut word) {
        Ok(length) => length == 1 && word[0] == b'-',
        Err(error) => matches!(error, FillError::NotPresent),
    }
}

// The answer sheet, in a buffer of zeros; left out it is the sheet of no entries, which is one zero.
fn read_sheet(rt: &HostRuntime, i: usize, buf: &mut [u8]) -> Option<usize>
    requires { 1 ≤ length buf.old }
    ensures { IfSome result (λ n. IsPrefixLen n buf.new) }
{
    if is_left_out(rt, i) {
        Some(1)
    } else {
        read_file(rt, i, buf)
    }
}

fn say(rt: &HostRuntime, listing: Option<usize>, out: &[u8]) {
    match listing {
        Some(n) => if n <= out.len() {
            if let Err(error) = rt.stdout().write_all(&out[..n]) {
                fail(rt, b"standard output", error);
            }
        },
        None => {
            let _ = eprintln!(rt; "the listing is too long");
        }
    }
}

// From the record that the third argument names, or from the fresh one.
fn print_listing(rt: &HostRuntime, text: &[u8], device: &[u8], sheet: &[u8]) {
    let mut out = [0u8; 98304];
    if is_left_out(rt, 3) {
        let listing = listing_run::list(text, device, sheet, &mut out);
        say(rt, listing, &out);
        return;
    }
    // One byte more than may be accepted.
    let mut outcome = [0u8; 18126];
    let Some(end) = read_file(rt, 3, &mut outcome) else {
        return;
    };
    let listing = listing_run::list_from(text, device, &outcome[..end], sheet, &mut out);
    say(rt, listing, &out);
}

fn main(rt: HostRuntime) {
    if !is_given(&rt, 2) || is_given(&rt, 5) {
        let _ = eprintln!(rt; "usage: listing RULES DEVICE [OUTCOME [SHEET]]");
        return;
    }
    // One byte more than may be accepted of each.
    let mut text = [0u8; 32769];
    let mut device = [0u8; 16385];
    let mut sheet = [0u8; 32769];
    let Some(text_end) = read_file(&rt, 1, &mut text) else {
        return;
    };
    let Some(device_end) = read_file(&rt, 2, &mut device) else {
        return;
    };
    let Some(sheet_end) = read_sheet(&rt, 4, &mut sheet) else {
        return;
    };
    print_listing(
        &rt,
        &text[..text_end],
        &device[..device_end],
        &sheet[..sheet_end],
    );
}
