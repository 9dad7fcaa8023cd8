// What the programs say to their user.
#![tactic(auto)]

use arrayvec::ArrayString;
use std::fmt::Write;
use std::io::Error;
use std::os::fd::AsFd;

// That something failed, or can't go on; why was said, where it could be.
#[derive(Drop)]
pub struct Reported;

// The bytes of a buffer: so many are read at once, and room is for so many to be printed or kept.
pub const BUFFER: usize = 65_536;

// EBADF, for which `ErrorKind` has no name: no file is open under the number.
const NOT_OPEN: i32 = 9;

// The longest reason that the system gives has some 50 bytes.
const LONGEST_REASON: usize = 128;

// Puts a text on standard error. Where it doesn't go there, it goes nowhere.
fn put(rt: &HostRuntime, text: &[u8]) {
    let _ = rt.stderr().write_all(text);
}

// An error's text without the error's number, which stands behind the system's reason.
fn reason_in(shown: &str) -> &str {
    match shown.rsplit_once(" (os error ") {
        Some((reason, _)) => reason,
        None => shown,
    }
}

fn put_reason(rt: &HostRuntime, error: &Error) {
    let mut shown = ArrayString::<LONGEST_REASON>::new();
    let _ = write!(shown, "{error}");
    put(rt, reason_in(shown.as_str()).as_bytes());
}

// Prints all of a text.
pub fn print(rt: &HostRuntime, text: &[u8]) -> Result<(), Reported> {
    rt.write_all(text)
        .map_err(|error| fail(rt, b"standard output", &error))
}

// Says a line on standard error.
pub fn say(rt: &HostRuntime, text: &[u8]) {
    put(rt, text);
    put(rt, b"\n");
}

// Says on standard error what failed, with the system's reason.
pub fn fail(rt: &HostRuntime, what: &[u8], error: &Error) -> Reported {
    put(rt, b"lending_desk: ");
    put(rt, what);
    put(rt, b": ");
    put_reason(rt, error);
    put(rt, b"\n");
    Reported
}

// Says something of a file, and a place in it, on standard error.
pub fn tell(rt: &HostRuntime, path: &[u8], what: &[u8], place: u64) -> Reported {
    put(rt, b"lending_desk: ");
    put(rt, path);
    put(rt, b": ");
    put(rt, what);
    put(rt, b" at byte ");
    let _ = rt.eprintln(place);
    Reported
}

// Whether a file is open under a number. Only the system can tell: it is asked for a second number, which is closed
// at once.
fn is_open<F: AsFd>(file: &F) -> bool {
    match file.as_fd().try_clone_to_owned() {
        Ok(_) => true,
        Err(error) => error.raw_os_error() != Some(NOT_OPEN),
    }
}

// Whether standard input, output and error are open: a file opened else would get the number of one that isn't. Which
// isn't is said where it can be.
pub fn are_open(rt: &HostRuntime) -> Result<(), Reported> {
    if !is_open(&rt.stderr()) {
        let _ = rt.write_all(b"lending_desk: standard error is closed\n");
        return Err(Reported);
    }
    if !is_open(&rt.stdin()) {
        say(rt, b"lending_desk: standard input is closed");
        return Err(Reported);
    }
    if !is_open(&rt.stdout()) {
        say(rt, b"lending_desk: standard output is closed");
        return Err(Reported);
    }
    Ok(())
}
