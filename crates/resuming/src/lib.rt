// The calls of a journal, served again.
#![tactic(auto)]

ghost use Rattle.std.specs.Prelude.{◌≡◌, true, ◌↔◌, [], ◌∷◌, ◌≤◌, length};
ghost use Rattle.lines.specs.Lines.{asked};
ghost use Rattle.lines.specs.Coded.{call_said};
ghost use Rattle.journal.specs.Records.{bytes_of, fits};
ghost use Rattle.journal.specs.Coded.{record_of};
ghost use Rattle.resuming.specs.Resuming.{served_again, Found, Ended};

use journal::{Damage, Record};
use lines::Call;

// Why a journal is not served further.
#[derive(Clone, Copy)]
pub enum Stop {
    Damaged(Damage),
    // the call at this place gets another record
    Differs,
}

impl From<Damage> for Stop {
    ghost use Rattle.std.specs.Prelude.{◌≡◌};
    ghost use Rattle.resuming.specs.declared.Stop.TheVariants.{Damaged};

    ghost from_gives = { λ damage stop. stop ≡ Damaged damage };

    fn from(damage: Damage) -> Self {
        Stop::Damaged(damage)
    }
}

// How far a journal was served again, and whether to its end.
#[derive(Drop)]
pub struct Reached {
    pub at: usize,
    pub found: Result<(), Stop>,
}

// The call of a record, as a line asks for it. A function and no `From`, as a record can have no call.
#[tactic(auto, using(crate::specs::Laws::Confirming::few_asked))]
fn asked_by(content: &Record) -> Option<Call>
    requires { fits (record_of content.now) ≡ true }
    ensures { call_said result ≡ asked (record_of content.now).letter (record_of content.now).arguments }
{
    let count = letters::argument_count(content.letter, content.operations);
    lines::line_of(content.letter, &content.arguments[..count])
}

// Serves the call of a record; whether it gets that record, whose bytes are these.
fn confirms(book: &mut [u32], content: &Record, bytes: &[u8]) -> bool
    requires { (fits (record_of content.now) ≡ true) × (bytes.now ≡ bytes_of (record_of content.now)) }
    ensures { (book.new ≡ (served_again (record_of content.now) book.old).book)
        × ((result ≡ true) ↔ ((served_again (record_of content.now) book.old).records ≡ record_of content.now ∷ [])) }
{
    let Some(call) = asked_by(content) else {
        return false;
    };
    let told = serving::serve(book, &call);
    let Some(written) = dispatch::record_of(&call, &told) else {
        return false;
    };
    written.as_slice() == bytes
}

// The place behind the record at a place, whose call was served again; none at the end.
fn resume(book: &mut [u32], bytes: &[u8], at: usize) -> Result<Option<usize>, Stop>
    ensures { Found book.old bytes.now at book.new result }
{
    let Some((content, end)) = journal_reader::next(bytes, at)? else {
        return Ok(None);
    };
    if !confirms(book, &content, &bytes[at..end]) {
        return Err(Stop::Differs);
    }
    Ok(Some(end))
}

// Serves the calls of a journal again, as far as each gets its record.
pub fn replay(book: &mut [u32], bytes: &[u8]) -> Reached
    ensures { Ended book.old bytes.now result.at book.new result.found
        × (result.at ≤ length bytes.now) }
{
    let mut at: usize = 0;
    let found = loop {
        match resume(book, bytes, at) {
            Ok(Some(behind)) => at = behind,
            Ok(None) => break Ok(()),
            Err(stop) => break Err(stop),
        }
    };
    Reached { at, found }
}
