// A record's arguments.
ghost use Rattle.std.specs.Prelude.{◌≡◌, ◌+◌, ◌≤◌, ◌<◌, IfOk, OnOk, length, get_or, drop};
ghost use Rattle.journal.specs.Records.{arguments_of, operations_of};
ghost use Rattle.journal.specs.Reading.{arguments_in};
ghost use Rattle.journal.specs.Coded.{record_of};
ghost use Rattle.journal_numbers.specs.Parts.{Reads, itself};

use journal::{Cause, Damage, Record};
use journal_numbers::{read_count, read_numbers};
use protocol::{BATCH, OPERATION_WORDS};

// The arguments behind a letter, which stands at the place; and the place behind them. How many operations there are
// is put only where all were read.
pub fn read_arguments(bytes: &[u8], at: usize, content: &mut Record) -> Result<usize, Damage>
    requires { (at < length bytes.now) × (content.old.letter ≡ get_or bytes.now at 0) }
    ensures letter { content.new.letter ≡ content.old.letter }
    ensures operations { OnOk result (content.new.operations
        ≡ operations_of content.old.letter (record_of content.new).arguments) }
    ensures few { OnOk result (content.new.operations ≤ 16) }
    ensures onward { IfOk result (λ end. at < end) }
    ensures reads { Reads bytes.now at (λ end. (record_of content.new).arguments) itself result
        (arguments_in content.old.letter (arguments_of content.old.letter) (drop (at + 1) bytes.now)) }
{
    let Some(count) = letters::arguments_of(content.letter) else {
        return Err(Cause::Letter.at(at));
    };
    let behind = read_numbers(bytes, at + 1, &mut content.arguments[..count])?;
    if content.letter != letters::BATCH {
        content.operations = 1;
        return Ok(behind);
    }
    let (operations, behind) = read_count(bytes, behind, BATCH, Cause::Batch)?;
    let end = read_numbers(
        bytes,
        behind,
        &mut content.arguments[1..1 + OPERATION_WORDS * operations],
    )?;
    content.operations = operations;
    Ok(end)
}
