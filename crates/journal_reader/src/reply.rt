// A record's reply: its code, and the owners, answers or list behind it.
ghost use Rattle.std.specs.Prelude.{◌≡◌, true, ◌*◌, ◌≤◌, length, drop};
ghost use Rattle.bitset.specs.Bitset.{members};
ghost use Rattle.journal.specs.Records.{has_reply as HasReply};
ghost use Rattle.journal.specs.Reading.{owners_from, reply_of as replyBehind, reply_in};
ghost use Rattle.journal.specs.Coded.{reply_of, answer_count as AnswerCount};
ghost use Rattle.journal_numbers.specs.Parts.{Reads, first, second, itself};
ghost use Rattle.journal_reader.specs.Parts.{code_in, SameCall};

use journal::{Cause, Damage, LISTED, Record};
use journal_numbers::{read_count, read_number, read_numbers};

// Owners are below it.
const OWNERS: u32 = 64;

// A reply code that calls of the letter give.
fn read_code(bytes: &[u8], at: usize, letter: u8) -> Result<(u32, usize), Damage>
    requires { at ≤ length bytes.now }
    ensures { Reads bytes.now at first second result (code_in letter (drop at bytes.now)) }
{
    let (code, behind) = read_number(bytes, at)?;
    if !letters::gives(letter, code) {
        return Err(Cause::Code.at(at));
    }
    Ok((code, behind))
}

// So many owners, ascending: their set.
fn read_owners(bytes: &[u8], at: usize, count: usize) -> Result<(u64, usize), Damage>
    requires { at ≤ length bytes.now }
    ensures { Reads bytes.now at (λ told. members (first told)) second result
        (owners_from count 0 (drop at bytes.now)) }
{
    let mut owners: u64 = 0;
    let mut least: u32 = 0;
    let mut place = at;
    for _ in 0..count {
        let (owner, behind) = read_number(bytes, place)?;
        if !(least..OWNERS).contains(&owner) {
            return Err(Cause::Owners.at(place));
        }
        owners = bitset::join(owners, bitset::single(owner));
        least = owner + 1;
        place = behind;
    }
    Ok((owners, place))
}

// What stands behind a reply code. Answers are uncounted. Where all was read, `owners` and `listed` both are put: the
// set of owners, or how many numbers there are, it is one or the other, by the reply code.
fn read_behind(bytes: &[u8], at: usize, content: &mut Record) -> Result<usize, Damage>
    requires within { at ≤ length bytes.now }
    requires replies { HasReply content.old.letter ≡ true }
    requires own { AnswerCount content.old.letter content.old.operations ≡ 2 * content.old.operations }
    requires few { content.old.operations ≤ 16 }
    ensures reads { Reads bytes.now at (λ end. reply_of content.new) itself result
        (replyBehind content.old.operations content.old.code (drop at bytes.now)) }
    ensures kept { SameCall content.old content.new }
{
    if content.code == codes::ANSWERED {
        let count = 2 * content.operations;
        let end = read_numbers(bytes, at, &mut content.numbers[..count])?;
        content.owners = count as u64;
        content.listed = count;
        return Ok(end);
    }
    let (count, behind) = read_count(bytes, at, LISTED, Cause::List)?;
    if content.code == codes::WAIT {
        let (owners, end) = read_owners(bytes, behind, count)?;
        content.owners = owners;
        content.listed = owners as usize;
        return Ok(end);
    }
    let end = read_numbers(bytes, behind, &mut content.numbers[..count])?;
    content.owners = count as u64;
    content.listed = count;
    Ok(end)
}

// The reply, where there is one, and the place behind it.
pub fn read_reply(bytes: &[u8], at: usize, content: &mut Record) -> Result<usize, Damage>
    requires within { at ≤ length bytes.now }
    requires own { AnswerCount content.old.letter content.old.operations ≡ 2 * content.old.operations }
    requires few { content.old.operations ≤ 16 }
    ensures reads { Reads bytes.now at (λ end. reply_of content.new) itself result
        (reply_in content.old.letter content.old.operations (drop at bytes.now)) }
    ensures kept { SameCall content.old content.new }
{
    if !letters::has_reply(content.letter) {
        return Ok(at);
    }
    let (code, behind) = read_code(bytes, at, content.letter)?;
    content.code = code;
    read_behind(bytes, behind, content)
}
