// A journal in a file: opened or made, its calls served again, or its records printed.
#![tactic(auto)]

ghost use Rattle.std.specs.Prelude.{◌≤◌, length, IfOk};

use console::Reported;
use journal::Cause;
use journal_parts::{Next, Part, Printing, Resuming, Visitor};
use std::fs::{File, OpenOptions};
use std::io;
use std::io::{Error, ErrorKind, Read, Seek, SeekFrom};

// ---- Opening

// A path as files are opened by: as text.
fn name_in(path: &[u8]) -> io::Result<&str> {
    std::str::from_utf8(path).map_err(|_| Error::from(ErrorKind::InvalidFilename))
}

// Brings the folder of a file to disk.
fn sync_folder(rt: &HostRuntime, folder: &[u8]) -> io::Result<()> {
    let opened = File::open(rt, name_in(folder)?)?;
    opened.sync_all()
}

// Brings the folder that a path leads to to disk.
fn sync_folder_of(rt: &HostRuntime, path: &[u8]) -> io::Result<()> {
    match path.iter().rposition(|byte| *byte == b'/') {
        None => sync_folder(rt, b"."),
        Some(0) => sync_folder(rt, b"/"),
        Some(slash) => sync_folder(rt, &path[..slash]),
    }
}

// Opens a journal that is there, and leaves its bytes as they are.
fn open_there(rt: &HostRuntime, name: &str) -> io::Result<File> {
    OpenOptions::new().read(true).write(true).open(rt, name)
}

// Makes a journal that is empty, and opens it.
fn create(rt: &HostRuntime, name: &str) -> io::Result<File> {
    let made = OpenOptions::new()
        .write(true)
        .create_new(true)
        .open(rt, name)?;
    drop(made);
    open_there(rt, name)
}

// Opens a journal, or makes one where there is none. What has no size, as a pipe, is refused. The folder of an empty
// one is brought to disk, also where it was there: the run that made it may have ended before that.
fn open_or_create(rt: &HostRuntime, path: &[u8]) -> io::Result<File> {
    let name = name_in(path)?;
    let mut file = match open_there(rt, name) {
        Ok(file) => file,
        Err(error) if error.kind() == ErrorKind::NotFound => create(rt, name)?,
        Err(error) => return Err(error),
    };
    let size = file.seek(SeekFrom::End(0))?;
    file.seek(SeekFrom::Start(0))?;
    if size == 0 {
        sync_folder_of(rt, path)?;
    }
    Ok(file)
}

// The same; a failure is reported.
pub fn open(rt: &HostRuntime, path: &[u8]) -> Result<File, Reported> {
    open_or_create(rt, path).map_err(|error| console::fail(rt, path, &error))
}

// ---- Reading on

// Reads behind the bytes that are held; how many stand in the buffer then. There are no more only where the file has
// ended: nothing is read into no room.
fn read_more(mut file: &File, buffer: &mut [u8], held: usize) -> io::Result<usize>
    ensures { IfOk result (λ end. (held ≤ end) × (end ≤ length buffer.old)) }
{
    if buffer.len() <= held {
        return Err(Error::from(ErrorKind::FileTooLarge));
    }
    let got = file.read(&mut buffer[held..])?;
    Ok(held + got)
}

// ---- Part by part

// Shows a journal to a visitor, part by part: the place of its last record where that is cut. The last part is the one
// that reading adds nothing to. As nothing says that a file ends, the loop counts its turns up to a number that no run
// uses up.
fn walk<V: Visitor>(
    rt: &HostRuntime,
    file: &File,
    path: &[u8],
    visitor: &mut V,
) -> Result<Option<u64>, Reported> {
    let mut buffer = [0u8; console::BUFFER];
    let mut start: u64 = 0;
    let mut held = 0;
    for _ in 0..u64::MAX {
        let end = read_more(file, &mut buffer, held).map_err(|error| console::fail(
            rt, path, &error,
        ))?;
        let part = Part {
            path,
            bytes: &buffer[..end],
            start,
            is_last: end == held,
        };
        match visitor.visit(rt, part)? {
            Next::On(at) => {
                start = journal_parts::place_in(start, at);
                buffer.copy_within(at..end, 0);
                held = end - at;
            }
            Next::Whole => return Ok(None),
            Next::Cut(at) => return Ok(Some(journal_parts::place_in(start, at))),
        }
    }
    Err(Reported)
}

// ---- What it is for

// Cuts away a record that is cut, which is said at once, brings that to disk, and leaves the file at its end.
fn cut_away(rt: &HostRuntime, mut file: &File, path: &[u8], whole: u64) -> io::Result<()> {
    console::tell(
        rt,
        path,
        b"note: the last record is cut, and is cut away",
        whole,
    );
    file.set_len(whole)?;
    file.sync_data()?;
    file.seek(SeekFrom::End(0))?;
    Ok(())
}

// Serves the calls of a journal again, and leaves the file at its end.
pub fn resume(
    rt: &HostRuntime,
    file: &File,
    path: &[u8],
    book: &mut [u32],
) -> Result<(), Reported> {
    match walk(rt, file, path, &mut Resuming { book })? {
        None => Ok(()),
        Some(whole) => cut_away(rt, file, path, whole).map_err(|error| console::fail(
            rt, path, &error,
        )),
    }
}

// Opens a journal to be read alone.
fn open_to_read(rt: &HostRuntime, path: &[u8]) -> io::Result<File> {
    File::open(rt, name_in(path)?)
}

// Prints a journal: each record's call as a line of a script, a tab, and its reply. Damage is said behind that.
pub fn print(rt: &HostRuntime, path: &[u8]) -> Result<(), Reported> {
    let file = open_to_read(rt, path).map_err(|error| console::fail(rt, path, &error))?;
    match walk(rt, &file, path, &mut Printing)? {
        None => Ok(()),
        Some(place) => Err(journal_parts::tell_damage(rt, path, Cause::Cut, place)),
    }
}
