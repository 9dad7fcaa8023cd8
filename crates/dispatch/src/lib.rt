// A line of a script, served: its reply as it is printed, and its record.
#![tactic(auto)]

ghost use Rattle.std.specs.Prelude.{◌≡◌, true, [], ◌≤◌, Some};
ghost use Rattle.std.proofs.Math.Option.{some};
ghost use Rattle.arrayvec.specs.ArrayVec.{array_vec_len};
ghost use Rattle.lines.specs.Coded.{call_of};
ghost use Rattle.replies.specs.Printed.{printed};
ghost use Rattle.serving.specs.Told.{outcome_of, FilledIn};
ghost use Rattle.journal.specs.Journal.{record_of as RecordOf, noted};
ghost use Rattle.recording.specs.Recording.{given_to};
ghost use Rattle.dispatch.specs.Served.{serving, line_served};
ghost use Rattle.dispatch.specs.Replying.{most_reply, Kept, Answered};

use arrayvec::ArrayVec;
use lines::Call;
use serving::Told;

// What a line gets: its reply with a line feed, and the bytes of its record, none where it has no record. One serves
// for line after line, as it is written anew for each.
#[derive(Drop)]
pub struct Output {
    pub reply: ArrayVec<u8, { replies::MOST }>,
    pub record: ArrayVec<u8, { journal::MOST }>,
}

impl Output {
    // Of no line.
    pub fn new() -> Self
        ensures { (result.reply.items ≡ []) × (result.record.items ≡ []) }
    {
        Output {
            reply: ArrayVec::new(),
            record: ArrayVec::new(),
        }
    }
}

// Appends what is told of a call, as it is printed.
fn put_text(out: &mut ArrayVec<u8, { replies::MOST }>, told: &Told)
    requires empty { out.old.items ≡ [] }
    requires filled { FilledIn told.now }
    ensures text { out.new.items ≡ printed (outcome_of told.now).reply (outcome_of told.now).list }
    ensures few { array_vec_len out.new ≤ most_reply }
{
    match told {
        Told::Plain(reply) => replies::put_reply(out, *reply, b""),
        Told::Listed(reply, list) => replies::put_reply(out, *reply, list),
        Told::Answered(batched) => replies::put_batched(out, *batched),
    }
}

// The bytes of the record of a call that was made.
pub fn record_of(call: &Call, told: &Told) -> Option<ArrayVec<u8, { journal::MOST }>>
    requires given { given_to (call_of call.now) (outcome_of told.now).reply ≡ true }
    requires filled { FilledIn told.now }
    ensures { Kept (noted (RecordOf (call_of call.now) (outcome_of told.now)) []) result }
{
    journal_writer::write(&recording::record_of(call, told)?)
}

// Puts them into an array, in place of what it held; none where there is no record.
fn put_record(out: &mut ArrayVec<u8, { journal::MOST }>, call: &Call, told: &Told)
    requires given { given_to (call_of call.now) (outcome_of told.now).reply ≡ true }
    requires filled { FilledIn told.now }
    ensures { Kept (noted (RecordOf (call_of call.now) (outcome_of told.now)) []) (Some out.new) }
{
    match &recording::record_of(call, told) {
        Some(content) => {
            journal_writer::write_into(out, content);
        }
        None => out.clear(),
    }
}

// Makes a call.
fn reply_call(book: &mut [u32], call: &Call, output: &mut Output)
    requires { output.old.reply.items ≡ [] }
    ensures { Answered (serving (some (call_of call.now)) book.old) book.new output.new }
{
    let told = serving::serve(book, call);
    put_text(&mut output.reply, &told);
    output.reply.push(b'\n');
    put_record(&mut output.record, call, &told);
}

// Serves a line. What was put out for another goes.
pub fn reply_line(book: &mut [u32], line: &[u8], output: &mut Output)
    ensures { Answered (line_served book.old line.now) book.new output.new }
{
    output.reply.clear();
    match &lines::read_line(line) {
        Some(call) => reply_call(book, call, output),
        None => {
            output.record.clear();
            let _ = output.reply.try_extend_from_slice(b"unread\n");
        }
    }
}
