// A block of a script answered: its records kept in a journal, where there is one, then its replies printed.
#![tactic(auto)]

ghost use Rattle.std.specs.Prelude.{◌≤◌};
ghost use Rattle.script.specs.Sessions.{line_kept};
ghost use Rattle.script.specs.Feeding.{Buffers};

use console::Reported;
use std::fs::File;
use std::io;
use std::io::Write;

// Appends records to a journal and brings them to disk.
fn append(mut journal: &File, records: &[u8]) -> io::Result<()> {
    journal.write_all(records)?;
    journal.sync_data()
}

// The same, where there is a journal and a record.
fn keep(rt: &HostRuntime, journal: Option<&File>, records: &[u8]) -> Result<(), Reported> {
    match journal {
        Some(file) if !records.is_empty() => {
            append(file, records).map_err(|error| console::fail(rt, b"journal", &error))
        }
        _ => Ok(()),
    }
}

// Keeps records, then prints replies.
pub fn issue(
    rt: &HostRuntime,
    journal: Option<&File>,
    records: &[u8],
    replies: &[u8],
) -> Result<(), Reported> {
    keep(rt, journal, records)?;
    console::print(rt, replies)
}

// Answers the lines that end in a block. The buffers stand beside each other, and not in a struct of arrays of 64 KB:
// no proof of its methods was found in ten minutes.
pub fn serve_block(
    rt: &HostRuntime,
    book: &mut [u32],
    line: &mut [u8],
    kept: &mut usize,
    block: &[u8],
    out: &mut [u8],
    records: &mut [u8],
    journal: Option<&File>,
) -> Result<(), Reported>
    requires { Buffers line.old kept.old out.old records.old }
    ensures { kept.new ≤ line_kept }
{
    let mut at = 0;
    while at < block.len() {
        let progress = script::feed(book, line, *kept, &block[at..], out, records);
        *kept = progress.kept;
        issue(
            rt,
            journal,
            &records[..progress.recorded],
            &out[..progress.written],
        )?;
        at += progress.at;
    }
    Ok(())
}
