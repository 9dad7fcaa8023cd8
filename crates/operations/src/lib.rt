// Operations and answers as the book stores them, and the numbers of operations and kinds.
#![tactic(auto)]

ghost use Rattle.std.specs.Prelude.{◌≡◌};
ghost use Rattle.std.proofs.Math.Option.{some};
ghost use Rattle.operations.specs.Operations.{flag, valued};
ghost use Rattle.operations.specs.PairRules.{kind_numbered};
ghost use Rattle.operations.specs.Stored.{answer_of, found_of};
ghost use Rattle.operations.specs.Kinds.{kind_in_model, number_of_kind, NamesKind};

// The kinds of object, by number: none, which has no rows and no operations, and the three others.
#[derive(Clone, Copy, PartialEq, Eq)]
pub enum Kind {
    None = 0,
    Stack = 1,
    Set = 2,
    Table = 3,
}

// A number that no kind has.
#[derive(Clone, Copy, PartialEq, Eq)]
pub struct UnknownKind;

impl TryFrom<u32> for Kind {
    type Error = UnknownKind;

    ghost try_from_gives = { NamesKind };

    fn try_from(number: u32) -> Result<Self, UnknownKind> {
        match number {
            0 => Ok(Kind::None),
            1 => Ok(Kind::Stack),
            2 => Ok(Kind::Set),
            3 => Ok(Kind::Table),
            _ => Err(UnknownKind),
        }
    }
}

impl From<Kind> for u32 {
    ghost from_gives = { λ kind number. number ≡ number_of_kind kind };

    fn from(kind: Kind) -> u32 {
        kind as u32
    }
}

impl Kind {
    // The kind that an operation is of, by its number.
    #[tactic(auto, unfolding(crate::specs::PairRules::kind_numbered))]
    pub fn of(number: u32) -> Kind
        ensures { kind_in_model result ≡ some (kind_numbered number) }
    {
        match number {
            ..=TOP => Kind::Stack,
            ..=MEMBER => Kind::Set,
            _ => Kind::Table,
        }
    }
}

// The operations. A kind's stand together: from push to top, from the set's insert to member, from the table's insert
// to modify. Numbers and no enum, since an operation's words are read of any book, as `layout::entry_operation`
// promises.
pub const PUSH: u32 = 1;

pub const POP: u32 = 2;

pub const TOP: u32 = 3;

pub const SET_INSERT: u32 = 4;

pub const SET_DELETE: u32 = 5;

pub const MEMBER: u32 = 6;

pub const TABLE_INSERT: u32 = 7;

pub const TABLE_DELETE: u32 = 8;

pub const LOOKUP: u32 = 9;

pub const SIZE: u32 = 10;

pub const MODIFY: u32 = 11;

// An operation as the book stores it: its number, key or item, and value.
#[derive(Clone, Copy, PartialEq, Eq)]
pub struct Operation {
    pub number: u32,
    pub key: u32,
    pub value: u32,
}

// An answer: code and value. C reads it too.
#[repr(C)]
#[derive(Clone, Copy, PartialEq, Eq)]
pub struct Answer {
    pub code: u32,
    pub value: u32,
}

// `1 0` or `0 0`.
impl From<bool> for Answer {
    ghost from_gives = { λ test answer. answer_of answer ≡ flag test };

    fn from(test: bool) -> Answer {
        Answer {
            code: u32::from(test),
            value: 0,
        }
    }
}

// `1` and the value, or `0 0`.
impl From<Option<u32>> for Answer {
    ghost from_gives = { λ found answer. answer_of answer ≡ valued (found_of found) };

    fn from(found: Option<u32>) -> Answer {
        match found {
            Some(value) => Answer { code: 1, value },
            None => Answer { code: 0, value: 0 },
        }
    }
}
