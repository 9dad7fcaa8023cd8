// The journal: definitions of its bytes, of a writer and of a reader, and theorems about them, in specs/ and
// proofs/; and the types of records.
#![tactic(auto)]

ghost use Rattle.std.specs.Prelude.{◌≡◌};

use protocol::{BATCH, OPERATION_WORDS};

// A record that cannot be read, or not written; `Cause` says why. A number, since C reads it.
pub const BAD_RECORD: u32 = 13;

// The most arguments of a record, a batch's: its transaction and its operations.
pub const ARGUMENTS: usize = 1 + OPERATION_WORDS * BATCH;

// The most that a list names.
pub const LISTED: usize = 64;

// The groups of seven bits of a number, at the most.
pub const GROUPS: usize = 5;

// The most bytes of a record, 488: a batch's letter, arguments and answers, and a group each for how many operations
// there are and for the reply code.
pub const MOST: usize = 1 + GROUPS * (ARGUMENTS + 2 * BATCH) + 2;

// A call and its reply; `specs/Coded` says which record of the definitions it is. What its letter and reply code
// don't need is not looked at.
#[repr(C)]
#[derive(Drop)]
pub struct Record {
    pub letter: u8,
    // of a batch: how many operations
    pub operations: usize,
    pub arguments: [u32; ARGUMENTS],
    // the reply code
    pub code: u32,
    // of a wait: the owners, a set
    pub owners: u64,
    // how many the list names
    pub listed: usize,
    // the list; of an answer, code and value of each operation
    pub numbers: [u32; LISTED],
}

impl Record {
    // Before anything is put into it.
    pub const EMPTY: Record = Record {
        letter: 0,
        operations: 0,
        arguments: [0; ARGUMENTS],
        code: 0,
        owners: 0,
        listed: 0,
        numbers: [0; LISTED],
    };
}

// Why a record cannot be read.
#[derive(Clone, Copy)]
pub enum Cause {
    Cut,
    Letter,
    Code,
    Owners,
    List,
    Batch,
    LongForm,
    Width,
}

// Why a record cannot be read, and the place of the letter or number that is turned away: error 13.
#[derive(Clone, Copy)]
pub struct Damage {
    pub cause: Cause,
    pub place: usize,
}

impl Cause {
    // At a place.
    pub fn at(self, place: usize) -> Damage
        ensures { result ≡ record { cause = self; place = place } }
    {
        Damage { cause: self, place }
    }
}
