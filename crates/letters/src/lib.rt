// What stands in a record of a letter: how many arguments and answers, and which reply codes.
#![tactic(auto)]

ghost use Rattle.std.specs.Prelude.{◌≡◌, ◌≤◌};
ghost use Rattle.journal.specs.Records.{arguments_of as ArgumentsOf, has_reply as HasReply, gives as Gives};
ghost use Rattle.journal.specs.Coded.{argument_count as ArgumentCount, answer_count as AnswerCount};
ghost use Rattle.letters.specs.Letters.{count_said, most_arguments};

use layout::OBJECTS;
use protocol::OPERATION_WORDS;

// The letters. They are bytes, as a record has them for C.
pub const SET_UP: u8 = b'S';

pub const BEGIN: u8 = b'B';

pub const OPERATE: u8 = b'I';

pub const BATCH: u8 = b'G';

pub const FINISH: u8 = b'F';

pub const CANCEL: u8 = b'C';

// The arguments of an operation: transaction, object, operation, key or item, value.
const OPERATE_ARGUMENTS: usize = 5;

// How many arguments stand first behind a letter; None behind what is no letter.
pub fn arguments_of(letter: u8) -> Option<usize>
    ensures { count_said result ≡ ArgumentsOf letter }
{
    match letter {
        SET_UP => Some(OBJECTS),
        OPERATE => Some(OPERATE_ARGUMENTS),
        BEGIN | BATCH | FINISH | CANCEL => Some(1),
        _ => None,
    }
}

// Whether a call of that letter has a reply code.
pub fn has_reply(letter: u8) -> bool
    ensures { result ≡ HasReply letter }
{
    letter != SET_UP && letter != BEGIN
}

// Whether a call of that letter gives that reply code.
pub fn gives(letter: u8, code: u32) -> bool
    ensures { result ≡ Gives letter code }
{
    match letter {
        OPERATE | BATCH => code <= codes::ANSWERED,
        FINISH => codes::FINISHED <= code && code <= codes::CIRCLE,
        CANCEL => code == codes::CANCELLED,
        _ => false,
    }
}

// How many arguments a letter has, with so many operations where it is a batch's.
pub fn argument_count(letter: u8, operations: usize) -> usize
    requires { ArgumentCount letter operations ≤ most_arguments }
    ensures { result ≡ ArgumentCount letter operations }
{
    let first = arguments_of(letter).unwrap_or(0);
    if letter == BATCH {
        return first + OPERATION_WORDS * operations;
    }
    first
}

// How many numbers the answers have, two for each operation.
pub fn answer_count(letter: u8, operations: usize) -> usize
    requires { ArgumentCount letter operations ≤ most_arguments }
    ensures { result ≡ AnswerCount letter operations }
{
    if letter == BATCH { 2 * operations } else { 2 }
}
