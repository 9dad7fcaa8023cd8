// The pair rules as constant tables: a row for each requested operation, in it a code for each logged one.
#![tactic(auto)]

ghost use Rattle.std.specs.Prelude.{◌≡◌, ◌+◌, ◌-◌, ◌<◌, ◌≤◌, [], get_or};
ghost use Rattle.operations.specs.Operations as model;
ghost use Rattle.operations.specs.PairRules.{Rule, Rules, recoverable as Recoverable};
ghost use Rattle.operations.specs.PairRules.{Numbered, recoverable_rules, commuting_rules};
ghost use Rattle.operations.specs.PairRules.{stack_recoverable as StackRecoverable, set_recoverable as SetRecoverable};
ghost use Rattle.operations.specs.PairRules.{table_recoverable as TableRecoverable};
ghost use Rattle.pairs.specs.Pairs.{OneKind, code_of, code_at, ByKeys, allows_keys, pair_of, RowOf};
ghost use Rattle.pairs.specs.Pairs.{RowsOf, Filled, HaveCodes};

use operations::{Kind, Operation, PUSH, SET_INSERT, TABLE_INSERT};

// The small codes of the tables, as the paper has them, and so no enum.

pub const NEVER: u8 = 0;

pub const ALWAYS: u8 = 1;

pub const APART: u8 = 2;

pub const EQUAL: u8 = 3;

pub const AGREEING: u8 = 4;

// How many operations a kind has: a stack and a set, and a table.
pub const NARROW: usize = 3;

pub const BROAD: usize = 5;

// push, pop, top
const STACK_RECOVERABLE: [[u8; NARROW]; NARROW] = [
    [ALWAYS, ALWAYS, ALWAYS], // push against
    [NEVER, NEVER, ALWAYS], // pop against
    [NEVER, NEVER, ALWAYS], // top against
];

const STACK_COMMUTING: [[u8; NARROW]; NARROW] = [
    [EQUAL, NEVER, NEVER], // push with
    [NEVER, NEVER, NEVER], // pop with
    [NEVER, NEVER, ALWAYS], // top with
];

// insert, delete, member
const SET_RECOVERABLE: [[u8; NARROW]; NARROW] = [
    [ALWAYS, ALWAYS, ALWAYS], // insert against
    [APART, APART, ALWAYS], // delete against
    [APART, APART, ALWAYS], // member against
];

const SET_COMMUTING: [[u8; NARROW]; NARROW] = [
    [ALWAYS, APART, APART], // insert with
    [APART, APART, APART], // delete with
    [APART, APART, ALWAYS], // member with
];

// insert, delete, lookup, size, modify
const TABLE_RECOVERABLE: [[u8; BROAD]; BROAD] = [
    [APART, APART, ALWAYS, ALWAYS, ALWAYS], // insert against
    [APART, APART, ALWAYS, ALWAYS, ALWAYS], // delete against
    [APART, APART, ALWAYS, ALWAYS, APART], // lookup against
    [NEVER, NEVER, ALWAYS, ALWAYS, ALWAYS], // size against
    [APART, APART, ALWAYS, ALWAYS, ALWAYS], // modify against
];

const TABLE_COMMUTING: [[u8; BROAD]; BROAD] = [
    [APART, APART, APART, NEVER, APART], // insert with
    [APART, APART, APART, NEVER, APART], // delete with
    [APART, APART, ALWAYS, ALWAYS, APART], // lookup with
    [NEVER, NEVER, ALWAYS, ALWAYS, ALWAYS], // size with
    [APART, APART, APART, ALWAYS, AGREEING], // modify with
];

// The code of two operations, by their numbers and that of their kind's first.
fn code<const N: usize>(table: &[[u8; N]; N], first: u32, requested: u32, logged: u32) -> u8
    requires { (first ≤ requested) × (requested < first + N) × (first ≤ logged) × (logged < first + N) }
    ensures { result ≡ get_or (get_or table.now (requested - first) []) (logged - first) 0 }
{
    table[(requested - first) as usize][(logged - first) as usize]
}

pub fn stack_recoverable(requested: u32, logged: u32) -> u8
    requires { (1 ≤ requested) × (requested ≤ 3) × (1 ≤ logged) × (logged ≤ 3) }
    ensures { result ≡ code_at StackRecoverable (requested - 1) (logged - 1) }
{
    code(&STACK_RECOVERABLE, PUSH, requested, logged)
}

pub fn set_recoverable(requested: u32, logged: u32) -> u8
    requires { (4 ≤ requested) × (requested ≤ 6) × (4 ≤ logged) × (logged ≤ 6) }
    ensures { result ≡ code_at SetRecoverable (requested - 4) (logged - 4) }
{
    code(&SET_RECOVERABLE, SET_INSERT, requested, logged)
}

pub fn table_recoverable(requested: u32, logged: u32) -> u8
    requires { (7 ≤ requested) × (requested ≤ 11) × (7 ≤ logged) × (logged ≤ 11) }
    ensures { result ≡ code_at TableRecoverable (requested - 7) (logged - 7) }
{
    code(&TABLE_RECOVERABLE, TABLE_INSERT, requested, logged)
}

// A row of three codes, filled up to five.
fn filled(row: [u8; NARROW]) -> [u8; BROAD]
    ensures { Filled row result }
{
    [row[0], row[1], row[2], NEVER, NEVER]
}

// A relation's tables, one for each kind.
struct Tables {
    stack: [[u8; NARROW]; NARROW],
    set: [[u8; NARROW]; NARROW],
    table: [[u8; BROAD]; BROAD],
}

const RECOVERABLE: Tables = Tables {
    stack: STACK_RECOVERABLE,
    set: SET_RECOVERABLE,
    table: TABLE_RECOVERABLE,
};

const COMMUTING: Tables = Tables {
    stack: STACK_COMMUTING,
    set: SET_COMMUTING,
    table: TABLE_COMMUTING,
};

impl Tables {
    // The row of a requested operation, by its number: a code for each logged one of its kind.
    #[tactic(auto, unfolding(operations::specs::PairRules::kind_numbered))]
    fn row(&self, requested: u32) -> [u8; BROAD]
        requires { Numbered requested }
        ensures { (rules : model.Kind → Rules) → HaveCodes rules self.now → RowOf rules requested result }
    {
        match Kind::of(requested) {
            Kind::Stack => filled(self.stack[(requested - PUSH) as usize]),
            Kind::Set => filled(self.set[(requested - SET_INSERT) as usize]),
            Kind::Table => self.table[(requested - TABLE_INSERT) as usize],
            Kind::None => unreachable!(),
        }
    }
}

// The rows of a requested operation in the tables of its kind.
#[derive(Drop)]
pub struct RuleRows {
    pub recoverable: [u8; BROAD],
    pub commuting: [u8; BROAD],
}

pub fn rows(requested: u32) -> RuleRows
    requires { Numbered requested }
    ensures { RowsOf requested result.recoverable result.commuting }
{
    RuleRows {
        recoverable: RECOVERABLE.row(requested),
        commuting: COMMUTING.row(requested),
    }
}

// A recoverable table's code, tested on the two operations.
fn allowed(code: u8, requested: Operation, logged: Operation) -> bool
    ensures { (rule : Rule) → ByKeys rule → code ≡ code_of rule
        → result ≡ allows_keys rule requested.key logged.key }
{
    match code {
        NEVER => false,
        ALWAYS => true,
        _ => requested.key != logged.key,
    }
}

// Whether the requested operation is recoverable against the logged one, both of one kind.
#[tactic(auto, unfolding(operations::specs::PairRules::kind_numbered))]
pub fn recoverable(requested: Operation, logged: Operation) -> bool
    requires { OneKind requested logged }
    ensures { result ≡ pair_of Recoverable requested logged }
{
    let a = requested.number;
    let b = logged.number;
    let code = match Kind::of(a) {
        Kind::Stack => stack_recoverable(a, b),
        Kind::Set => set_recoverable(a, b),
        Kind::Table => table_recoverable(a, b),
        Kind::None => unreachable!(),
    };
    allowed(code, requested, logged)
}
