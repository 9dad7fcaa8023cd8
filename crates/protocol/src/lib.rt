// The commit protocol: definitions of the calls and theorems about them, in specs/ and proofs/; and the types of
// replies.
#![tactic(auto)]

ghost use Rattle.std.specs.Prelude.{◌≡◌};
ghost use Rattle.protocol.specs.Calls.{operations_in};
ghost use Rattle.protocol.specs.Lent.{lent_operations};
ghost use Rattle.protocol.specs.Refusals.{refusal_number};

use operations::Answer;

// What C reads where no reason applies; those that do are numbered from 1.
pub const ACCEPTED: u32 = 0;

// The reasons for saying no, in the order of their numbers.
#[derive(Clone, Copy, PartialEq, Eq)]
pub enum Refusal {
    WrongLength = 1,
    ShortList,
    BadKinds,
    Unsound,
    NoSuchTransaction,
    AlreadyLive,
    NotActive,
    // no such object, or one without a kind
    NoObject,
    NotOfKind,
    LogFull,
    // the object has no room for another row
    NoRoom,
    // more operations lent than a batch may have, or a part of one
    TooMany,
}

impl Refusal {
    pub fn number(self) -> u32
        ensures { result ≡ refusal_number self }
    {
        self as u32
    }
}

// The most operations of a batch.
pub const BATCH: usize = 16;

// Where they stand in an operation that is lent, behind its object: its number, its key or item, and its value.
pub const LENT_NUMBER: usize = 1;

pub const LENT_KEY: usize = LENT_NUMBER + 1;

pub const LENT_VALUE: usize = LENT_KEY + 1;

// The words of an operation that is lent.
pub const OPERATION_WORDS: usize = LENT_VALUE + 1;

// The operations that are lent, words of each; a part of one at the end is none of them.
pub fn lent(operations: &[u32]) -> &[[u32; OPERATION_WORDS]]
    ensures { lent_operations result.now ≡ operations_in operations.now }
{
    operations.as_chunks::<OPERATION_WORDS>().0
}

// What a call replies; `ReplyOf` says which of the paper's each is.
#[derive(Clone, Copy)]
pub enum Reply {
    Ok,
    // code and value
    Answered(u32, u32),
    // a batch's answers, which stand beside it
    Answers,
    // the owners, a set, and their number
    Wait(u64, u32),
    Finished,
    // how many the list names
    Committed(u32),
    Circle(u32),
    Cancelled(u32),
    // how many rows
    Counted(u32),
    // why, by its number: what is put or told of a reply is promised for any
    Refused(u32),
}

// What a batch replies: its answers in order, and 0 0 in the places that it doesn't use.
#[derive(Clone, Copy)]
pub struct Batched {
    pub reply: Reply,
    pub count: usize,
    pub answers: [Answer; BATCH],
}
