// Standard input served as a script, on standard output, with a journal or without.
#![tactic(auto)]

ghost use Rattle.std.specs.Prelude.{◌≤◌, length};
ghost use Rattle.dispatch.specs.Replying.{most_printed, most_recorded};

use console::Reported;
use std::fs::File;
use std::io::{ErrorKind, Read};

// Answers a line that the end of the input ends. The buffers are arrays of `serve`, since there is no heap.
fn serve_end(
    rt: &HostRuntime,
    book: &mut [u32],
    line: &[u8],
    out: &mut [u8],
    records: &mut [u8],
    journal: Option<&File>,
) -> Result<(), Reported>
    requires { (most_printed ≤ length out.old) × (most_recorded ≤ length records.old) }
{
    let ends = script::end_input(book, line, out, records);
    blocks::issue(rt, journal, &records[..ends.recorded], &out[..ends.written])
}

// Reads, and answers what came before more is waited for, until the input has ended. A proved loop has to end, and
// nothing says that the input does: the loop counts its turns up to a number that no run uses up.
pub fn serve(rt: &HostRuntime, book: &mut [u32], journal: Option<&File>) -> Result<(), Reported> {
    let mut line = [0u8; script::LINE];
    let mut input = [0u8; console::BUFFER];
    let mut out = [0u8; console::BUFFER];
    let mut records = [0u8; console::BUFFER];
    let mut kept = 0;
    for _ in 0..u64::MAX {
        match rt.stdin().read(&mut input) {
            Ok(0) => return serve_end(rt, book, &line[..kept], &mut out, &mut records, journal),
            Ok(count) => blocks::serve_block(
                rt,
                book,
                &mut line,
                &mut kept,
                &input[..count],
                &mut out,
                &mut records,
                journal,
            )?,
            // A signal came, and it is tried again.
            Err(error) if error.kind() == ErrorKind::Interrupted => {}
            Err(error) => return Err(console::fail(rt, b"standard input", &error)),
        }
    }
    Ok(())
}
