// A journal read from any bytes: record by record, or how many there are.
#![tactic(auto)]

ghost use Rattle.std.specs.Prelude.{◌≡◌, ◌≤◌, ◌<◌, IfOk, length, drop};
ghost use Rattle.journal.specs.Reading.{record_in, step, records_in};
ghost use Rattle.journal.specs.Coded.{record_of};
ghost use Rattle.journal_numbers.specs.Parts.{Reads, itself};
ghost use Rattle.journal_reader.specs.Said.{reading_said, place_of, count_said, count_place, count_of};

use journal::{Damage, Record};

mod arguments;
mod reply;

// The record at a place, put into this one; and the place behind it. Where it is damaged, this one has what was read
// until then.
pub fn read_record(bytes: &[u8], at: usize, content: &mut Record) -> Result<usize, Damage>
    requires { at < length bytes.now }
    ensures onward { IfOk result (λ end. at < end) }
    ensures reads { Reads bytes.now at (λ end. record_of content.new) itself result
        (record_in (drop at bytes.now)) }
{
    content.letter = bytes[at];
    let behind = arguments::read_arguments(bytes, at, content)?;
    reply::read_reply(bytes, behind, content)
}

// The record at a place of any bytes, and the place behind it; a place past their end is the end.
pub fn next(bytes: &[u8], at: usize) -> Result<Option<(Record, usize)>, Damage>
    ensures step { reading_said bytes.now result ≡ step (drop at bytes.now) }
    ensures within { place_of result ≤ length bytes.now }
{
    if bytes.len() <= at {
        return Ok(None);
    }
    let mut content = Record::EMPTY;
    let end = read_record(bytes, at, &mut content)?;
    Ok(Some((content, end)))
}

// How many records the bytes are.
pub fn read(bytes: &[u8]) -> Result<usize, Damage>
    ensures count { count_said bytes.now result ≡ count_of (records_in bytes.now) }
    ensures within { count_place result ≤ length bytes.now }
{
    let mut content = Record::EMPTY;
    let mut count = 0;
    let mut at = 0;
    while at < bytes.len() {
        at = read_record(bytes, at, &mut content)?;
        count += 1;
    }
    Ok(count)
}
