// A script served as its bytes come: each line answered on the book, each reply put into a buffer and each record into
// another.
#![tactic(auto)]

ghost use Rattle.std.specs.Prelude.{◌≡◌, true, ◌↔◌, ◌+◌, ◌≤◌, ◌<◌, length, take};
ghost use Rattle.dispatch.specs.Served.{line_served};
ghost use Rattle.dispatch.specs.Replying.{most_printed, most_recorded};
ghost use Rattle.script.specs.Sessions.{session, closing};
ghost use Rattle.script.specs.Feeding.{LinePut, Turned, KeptIn, Buffers, Kept, Room, Took, begun, Stopped};

use dispatch::Output;

// The bytes that are kept of a line, 717: one more than the longest call has, `G` with a transaction and the operations
// of a batch, each number a space and the most digits.
pub const LINE: usize = 1 + (1 + text::MOST_DIGITS) * lines::MOST_ARGUMENTS + 1;

const LINE_FEED: u8 = b'\n';

// How far a block was taken, how many bytes of a line are kept, how many are to be printed, and how many recorded.
#[derive(Clone, Copy)]
pub struct Progress {
    pub at: usize,
    pub kept: usize,
    pub written: usize,
    pub recorded: usize,
}

// Where replies end that are to be printed, and records.
#[derive(Clone, Copy)]
pub struct Ends {
    pub written: usize,
    pub recorded: usize,
}

// Keeps bytes of a line, as long as it may be a call.
fn keep(line: &mut [u8], kept: usize, part: &[u8]) -> usize
    requires { KeptIn line.old kept }
    ensures { Kept (take kept line.old) part.now line.new result }
{
    let count = part.len().min(LINE - kept);
    text::put(line, kept, &part[..count])
}

// Serves a line. Its reply and its record go behind those that end there, by way of what the caller lends for them.
fn serve_line(
    book: &mut [u32],
    line: &[u8],
    output: &mut Output,
    out: &mut [u8],
    journal: &mut [u8],
    from: Ends,
) -> Ends
    requires { (from.written + most_printed ≤ length out.old)
        × (from.recorded + most_recorded ≤ length journal.old) }
    ensures { LinePut (line_served book.old line.now) book.new
        out.old from.written out.new journal.old from.recorded journal.new result }
{
    dispatch::reply_line(book, line, output);
    Ends {
        written: text::put(out, from.written, &output.reply),
        recorded: text::put(journal, from.recorded, &output.record),
    }
}

// Takes a block's bytes up to the end of a line, or of the block.
fn take_line(
    book: &mut [u32],
    line: &mut [u8],
    block: &[u8],
    output: &mut Output,
    out: &mut [u8],
    journal: &mut [u8],
    from: Progress,
) -> Progress
    requires { KeptIn line.old from.kept × (from.at < length block.now)
        × Room out.old journal.old from }
    ensures { Took (session book.old (take from.kept line.old)) block.now
        from book.new line.new out.old out.new journal.old
        journal.new result
        × (from.at < result.at) }
{
    let end = text::find(block, from.at, block.len(), LINE_FEED);
    let kept = keep(line, from.kept, &block[from.at..end]);
    if end == block.len() {
        return Progress {
            at: end,
            kept,
            ..from
        };
    }
    let begun = Ends {
        written: from.written,
        recorded: from.recorded,
    };
    let ends = serve_line(book, &line[..kept], output, out, journal, begun);
    Progress {
        at: end + 1,
        kept: 0,
        written: ends.written,
        recorded: ends.recorded,
    }
}

// There are bytes to take, and there is room for a reply and a record.
fn goes_on(progress: Progress, bytes: usize, room: usize, left: usize) -> bool
    requires { (progress.written ≤ room) × (progress.recorded ≤ left) }
    ensures { (result ≡ true) ↔ ((progress.at < bytes) × (progress.written + most_printed ≤ room)
        × (progress.recorded + most_recorded ≤ left)) }
{
    progress.at < bytes
        && replies::MOST <= room - progress.written
        && journal::MOST <= left - progress.recorded
}

// Takes bytes of a script. Replies go to the front of `out`, records to that of `journal`. The buffers are the
// caller's, who keeps them from call to call, and so is the line with how many bytes of it are kept.
pub fn feed(
    book: &mut [u32],
    line: &mut [u8],
    kept: usize,
    block: &[u8],
    out: &mut [u8],
    journal: &mut [u8],
) -> Progress
    requires { Buffers line.old kept out.old journal.old }
    ensures { Took (session book.old (take kept line.old)) block.now
        (begun kept) book.new line.new out.old out.new journal.old
        journal.new result
        × Stopped block.now out.new journal.new result }
{
    let mut progress = Progress {
        at: 0,
        kept,
        written: 0,
        recorded: 0,
    };
    let mut output = Output::new();
    while goes_on(progress, block.len(), out.len(), journal.len()) {
        progress = take_line(book, line, block, &mut output, out, journal, progress);
    }
    progress
}

// The end of the input ends a line that was begun; how many bytes are to be printed, and how many recorded.
pub fn end_input(book: &mut [u32], line: &[u8], out: &mut [u8], journal: &mut [u8]) -> Ends
    requires { (most_printed ≤ length out.old) × (most_recorded ≤ length journal.old) }
    ensures { Turned (closing (session book.old line.now)) book.new
        out.old out.new journal.old journal.new result
        × (result.written ≤ most_printed) × (result.recorded ≤ most_recorded) }
{
    let begun = Ends {
        written: 0,
        recorded: 0,
    };
    if line.is_empty() {
        return begun;
    }
    serve_line(book, line, &mut Output::new(), out, journal, begun)
}
