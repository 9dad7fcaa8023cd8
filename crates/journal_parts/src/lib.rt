// A part of a journal: its records printed, or its calls served again.
#![tactic(auto)]

ghost use Rattle.std.specs.Prelude.{length, IfOk};
ghost use Rattle.journal_parts.specs.Parts.{Within};

use console::Reported;
use journal::{Cause, Damage};
use resuming::Stop;

// A part of a journal: the bytes, where they begin in the file, and whether the file ends with them.
#[derive(Clone, Copy)]
pub struct Part<'a> {
    pub path: &'a [u8],
    pub bytes: &'a [u8],
    pub start: u64,
    pub is_last: bool,
}

// Where a part leads.
#[derive(Drop)]
pub enum Next {
    // read on behind this place
    On(usize),
    // the journal ends behind the part,
    Whole,
    // or inside a record that begins here
    Cut(usize),
}

// What is done with each part of a journal.
pub trait Visitor {
    fn visit(&mut self, rt: &HostRuntime, part: Part<'_>) -> Result<Next, Reported>
        ensures { IfOk result (λ next. Within next (length part.entry.bytes.now)) };
}

// ---- Damage

fn reason(cause: Cause) -> &'static [u8] {
    match cause {
        Cause::Cut => b"a record is cut",
        Cause::Letter => b"no call has the letter",
        Cause::Code => b"no call of that letter gives the reply code",
        Cause::Owners => b"an owner is above 63 or out of order",
        Cause::List => b"a list is past 64",
        Cause::Batch => b"a batch is past 16",
        Cause::LongForm => b"a number has a longer form than needed",
        Cause::Width => b"a number is past 32 bits",
    }
}

// Says why and where a journal cannot be read.
pub fn tell_damage(rt: &HostRuntime, path: &[u8], cause: Cause, place: u64) -> Reported {
    console::tell(rt, path, reason(cause), place)
}

// A place of a part, in the whole file.
pub fn place_in(start: u64, place: usize) -> u64 {
    start.wrapping_add(place as u64)
}

// ---- Where a part leads

impl<'a> Part<'a> {
    // It has ended: the last one with the file.
    fn ended(self, at: usize) -> Next
        ensures { Within result at }
    {
        if self.is_last {
            Next::Whole
        } else {
            Next::On(at)
        }
    }

    // It has no further record that can be read: why, and where behind a place of the file. One that is cut goes on in
    // the next part, if there is one.
    fn stopped(
        self,
        rt: &HostRuntime,
        damage: Damage,
        at: usize,
        start: u64,
    ) -> Result<Next, Reported>
        ensures { IfOk result (λ next. Within next at) }
    {
        match damage.cause {
            Cause::Cut if self.is_last => Ok(Next::Cut(at)),
            Cause::Cut => Ok(Next::On(at)),
            cause => Err(tell_damage(rt, self.path, cause, place_in(start, damage.place))),
        }
    }
}

// ---- What is done with a part

// Serves the calls of the parts again.
#[derive(Drop)]
pub struct Resuming<'a> {
    pub book: &'a mut [u32],
}

impl<'a> Visitor for Resuming<'a> {
    fn visit(&mut self, rt: &HostRuntime, part: Part<'_>) -> Result<Next, Reported> {
        let reached = resuming::replay(self.book, part.bytes);
        let at = reached.at;
        match reached.found {
            Ok(()) => Ok(part.ended(at)),
            Err(Stop::Damaged(damage)) => part.stopped(rt, damage, at, part.start),
            Err(Stop::Differs) => Err(console::tell(
                rt,
                part.path,
                b"the desk gives another reply than is recorded",
                place_in(part.start, at),
            )),
        }
    }
}

// Prints the records of the parts.
#[derive(Drop)]
pub struct Printing;

impl Visitor for Printing {
    // A buffer always has room for a line: that it had none only ends the loop.
    fn visit(&mut self, rt: &HostRuntime, part: Part<'_>) -> Result<Next, Reported> {
        let mut out = [0u8; console::BUFFER];
        let mut at = 0;
        loop {
            let listed = journal_text::list(&part.bytes[at..], &mut out);
            let end = at + listed.at;
            console::print(rt, &out[..listed.written])?;
            match listed.next {
                Ok(None) => return Ok(part.ended(end)),
                Ok(Some(_)) if end == at => return Err(Reported),
                Ok(Some(_)) => at = end,
                Err(damage) => return part.stopped(rt, damage, end, place_in(part.start, at)),
            }
        }
    }
}
