// The script program: serves a script from standard input on standard output, from a book of zeros, or behind the calls
// of a journal, which it keeps; or prints a journal. It only moves bytes.
#![tactic(auto)]

use console::Reported;
use std::env::FillError;
use std::fs::File;
use std::io::Error;
use std::rt::Env;

// The words that it may be started with, before a file's name, are no longer.
const LONGEST_WORD: usize = 16;

// The system opens no file by a longer name, PATH_MAX.
const LONGEST_NAME: usize = 4096;

// ENAMETOOLONG, of which the system has the reason that is said.
const TOO_LONG: i32 = 36;

// Serves a script.
fn serve(rt: &HostRuntime) -> Result<(), Reported> {
    let mut book = [0u32; layout::WORDS];
    input::serve(rt, &mut book, None)
}

// Serves a script behind the calls of a journal, and appends its records to that.
fn serve_journal(rt: &HostRuntime, path: &[u8]) -> Result<(), Reported> {
    let file = journal_file::open(rt, path)?;
    let mut book = [0u32; layout::WORDS];
    journal_file::resume(rt, &file, path, &mut book)?;
    input::serve(rt, &mut book, Some(&file))
}

fn tell_usage(rt: &HostRuntime) -> Result<(), Reported> {
    console::say(rt, b"usage: lending_desk [--journal FILE | --read FILE]");
    Err(Reported)
}

// What the word asks for, of the file.
fn run(rt: &HostRuntime, word: &[u8], path: &[u8]) -> Result<(), Reported> {
    console::are_open(rt)?;
    match word {
        b"--journal" => serve_journal(rt, path),
        b"--read" => journal_file::print(rt, path),
        _ => tell_usage(rt),
    }
}

// What a word asks for, of the file that is named behind it.
fn run_word(rt: &HostRuntime, word: &[u8]) -> Result<(), Reported> {
    let mut path = [0u8; LONGEST_NAME];
    match rt.arg(2, &mut path) {
        Ok(0) | Err(FillError::NotPresent) => tell_usage(rt),
        Ok(length) => run(rt, word, &path[..length]),
        Err(FillError::TooLong) => {
            Err(console::fail(rt, b"FILE", &Error::from_raw_os_error(TOO_LONG)))
        }
    }
}

// What failed was said: the program has no exit status of its own.
fn main(rt: HostRuntime) {
    let mut word = [0u8; LONGEST_WORD];
    let _ = match rt.arg(1, &mut word) {
        Ok(letters) => run_word(&rt, &word[..letters]),
        // It is none of the words.
        Err(FillError::TooLong) => run_word(&rt, b""),
        Err(FillError::NotPresent) => serve(&rt),
    };
}
