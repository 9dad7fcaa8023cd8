// A reply as numbers: the reply codes of 02, No. 3, and the values beside them.
#![tactic(auto)]

ghost use Rattle.std.specs.Prelude.{◌≡◌};
ghost use Rattle.protocol.specs.ReplyOf.{reply_of};
ghost use Rattle.codes.specs.Codes.{numbers_of};

use protocol::Reply;

// Numbers that C reads, and journals have.

pub const WAIT: u32 = 0;

pub const ANSWERED: u32 = 1;

pub const FINISHED: u32 = 2;

pub const COMMITTED: u32 = 3;

pub const CIRCLE: u32 = 4;

pub const CANCELLED: u32 = 5;

// The numbers of a reply; `specs/Codes` says which reply has which.
#[derive(Clone, Copy)]
pub struct Numbers {
    pub refusal: u32,
    pub code: u32,
    pub owners: u64,
    pub answer: u32,
    pub value: u32,
    pub count: u32,
    pub rows: u32,
}

// What a reply does not have is 0, and 0 is the code of a wait too.
const ZERO: Numbers = Numbers {
    refusal: protocol::ACCEPTED,
    code: WAIT,
    owners: 0,
    answer: 0,
    value: 0,
    count: 0,
    rows: 0,
};

impl From<Reply> for Numbers {
    ghost from_gives = { λ reply numbers. numbers ≡ numbers_of (reply_of reply) };

    fn from(reply: Reply) -> Numbers {
        match reply {
            Reply::Ok => ZERO,
            Reply::Wait(owners, count) => Numbers {
                owners,
                count,
                ..ZERO
            },
            Reply::Answered(answer, value) => Numbers {
                code: ANSWERED,
                answer,
                value,
                ..ZERO
            },
            // They stand beside the numbers.
            Reply::Answers => Numbers {
                code: ANSWERED,
                ..ZERO
            },
            Reply::Finished => Numbers {
                code: FINISHED,
                ..ZERO
            },
            Reply::Committed(count) => Numbers {
                code: COMMITTED,
                count,
                ..ZERO
            },
            Reply::Circle(count) => Numbers {
                code: CIRCLE,
                count,
                ..ZERO
            },
            Reply::Cancelled(count) => Numbers {
                code: CANCELLED,
                count,
                ..ZERO
            },
            Reply::Counted(rows) => Numbers { rows, ..ZERO },
            Reply::Refused(reason) => Numbers {
                refusal: reason,
                ..ZERO
            },
        }
    }
}
