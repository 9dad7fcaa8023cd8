// Who depends on whom: the owners of earlier entries that an entry of the log is not recoverable against, or does not
// commute with. An entry is held against sets of owners, one for each operation of its object's kind, and not against
// each earlier entry. Pushes onto one object, and modifies of one key, commute where their items, or values, are equal:
// who has different ones is kept besides.
#![tactic(auto)]

ghost use Rattle.std.specs.Prelude.{◌≡◌, true, ◌↔◌, ℕ, ◌+◌, ◌<◌, List, [], length, get_or, replicate, IfSome};
ghost use Rattle.store.specs.Store.{transaction_count, object_count, entry_limit};
ghost use Rattle.bitset.specs.Bitset.{Represents};
ghost use Rattle.operations.specs.PairRules.{Rule, Numbered};
ghost use Rattle.pairs.specs.Pairs.{code_of, first_of, width_of};
ghost use Rattle.store.specs.Layout.{word, base, decode, Packed};
ghost use Rattle.store.specs.Soundness.{EntriesLive, EntriesFit, EntriesRecoverable};
ghost use Rattle.store.specs.Dependency.{DependsOn};
ghost use Rattle.representatives.specs.Representatives.{InLog, Representative, Represented, Twin, entry_number};
ghost use Rattle.dependencies.specs.Dependencies.{picked as Pick, PickedBoth, EntryRead, key_column as KeyColumn};
ghost use Rattle.dependencies.specs.Dependencies.{column_in, Joined, JoinedBoth, WithoutBoth, Found, Gathered, Entered};

use layout::{ENTRIES, OBJECTS, TRANSACTIONS};
use operations::{
    LOOKUP, MEMBER, MODIFY, POP, PUSH, SET_DELETE, SET_INSERT, SIZE, TABLE_DELETE, TABLE_INSERT,
    TOP,
};

// The owners that bar an entry: those that it is not recoverable against, and those that it does not commute with.
#[derive(Clone, Copy)]
struct Blockers {
    unrecoverable: u64,
    conflicting: u64,
}

impl Blockers {
    // These and others.
    fn join(self, others: Blockers) -> Blockers
        ensures { JoinedBoth self others result }
    {
        Blockers {
            unrecoverable: bitset::join(self.unrecoverable, others.unrecoverable),
            conflicting: bitset::join(self.conflicting, others.conflicting),
        }
    }

    // Those left without one transaction.
    fn without(self, transaction: u32) -> Blockers
        requires { transaction < transaction_count }
        ensures { WithoutBoth transaction self result }
    {
        Blockers {
            unrecoverable: bitset::without(self.unrecoverable, transaction),
            conflicting: bitset::without(self.conflicting, transaction),
        }
    }
}

// An entry of the log: its transaction, its object, and the number of its operation.
#[derive(Clone, Copy)]
struct Entry {
    transaction: u32,
    object: usize,
    number: u32,
}

impl Entry {
    fn read(book: &[u32], i: usize) -> Entry
        requires { InLog book.now i }
        ensures { EntryRead book.now i result }
    {
        let operation = layout::entry_operation(book, i);
        Entry {
            transaction: layout::entry_transaction(book, i),
            object: layout::entry_object(book, i) as usize,
            number: operation.number,
        }
    }
}

// The owners of an object's entries, a set for each operation of its kind, and those with pushes of different items.
type Owners = [u64; COLUMNS];

const COLUMNS: usize = pairs::BROAD + 1;

const ITEMS: usize = pairs::BROAD;

// The owners of the entries with one object and key, a set for each column that `key_column` tells, and those with
// modifies to different values.
type KeyOwners = [u64; KEY_COLUMNS];

const KEY_COLUMNS: usize = 4;

const VALUES: usize = 3;

// Where pushes stand in both, and modifies in a key's.
const PUSHES: usize = 0;

const MODIFIES: usize = 2;

// ---- Operations by number

// The first number of a number's kind.
#[tactic(auto, unfolding(operations::specs::PairRules::kind_numbered))]
fn first(number: u32) -> u32
    requires { Numbered number }
    ensures { result ≡ first_of number }
{
    match number {
        ..=TOP => PUSH,
        ..=MEMBER => SET_INSERT,
        _ => TABLE_INSERT,
    }
}

// How many operations the kind has.
#[tactic(auto, unfolding(operations::specs::PairRules::kind_numbered))]
fn width(number: u32) -> usize
    ensures { result ≡ width_of number }
{
    match number {
        ..=MEMBER => pairs::NARROW,
        _ => pairs::BROAD,
    }
}

// What a rule picks: the owners of entries on the object, of those with the same key, of those with another item or
// value, or nobody. The rules are the small codes that the paper's tables hold.
fn pick(rule: u8, whole: u64, same: u64, others: u64) -> u64
    ensures { (which : Rule) → rule ≡ code_of which → result ≡ Pick which whole same others }
{
    match rule {
        pairs::NEVER => whole,
        pairs::ALWAYS => 0,
        pairs::APART => same,
        _ => others,
    }
}

// Where the owners of an operation's entries stand among those with their key, if its key tells something. A table's
// insert and delete share a column, since no rule tells them apart.
fn key_column(number: u32) -> Option<usize>
    ensures { result ≡ column_in 4 (KeyColumn number) }
{
    match number {
        PUSH | SET_INSERT | TABLE_INSERT | TABLE_DELETE => Some(0),
        SET_DELETE | LOOKUP => Some(1),
        MEMBER | MODIFY => Some(2),
        _ => None,
    }
}

// Of the owners with a key, those of the operation's column.
fn key_owners(same: &KeyOwners, number: u32) -> u64
    ensures { result ≡ get_or same.now (KeyColumn number) 0 }
{
    match key_column(number) {
        Some(at) => same[at],
        None => 0,
    }
}

// The owners that bar an operation, out of those on its object, those with its key too and those with another item or
// value, by its rows of rules, which are worked out when this is compiled.
fn picked<const NUMBER: u32>(whole: &Owners, same: &KeyOwners, others: u64) -> Blockers
    requires { Numbered NUMBER }
    ensures { PickedBoth NUMBER whole.now same.now others result }
{
    let rows = pairs::rows(NUMBER);
    let recoverable = rows.recoverable;
    let commuting = rows.commuting;
    let first = first(NUMBER);
    let mut barred = Blockers {
        unrecoverable: 0,
        conflicting: 0,
    };
    // By column, whose number names the operation too.
    for at in 0..width(NUMBER) {
        let all = whole[at];
        let alike = key_owners(same, first + at as u32);
        barred = barred.join(Blockers {
            unrecoverable: pick(recoverable[at], all, alike, others),
            conflicting: pick(commuting[at], all, alike, others),
        });
    }
    barred
}

// More members in one set of a row, if one is told.
fn join_at<const N: usize>(row: &mut [u64; N], at: Option<usize>, more: u64)
    requires { IfSome at (λ k. k < N) }
    ensures { Joined N row.old at more row.new }
{
    if let Some(at) = at {
        row[at] = bitset::join(row[at], more);
    }
}

// ---- Entry by entry

// The owners of the entries so far.
#[derive(Drop)]
struct Rows {
    // a row for each object,
    objects: [Owners; OBJECTS],
    // at `j` one of the entries that entry `j` represents,
    keys: [KeyOwners; ENTRIES],
    // and at `j` the owners of those that it represents where values count.
    values: [u64; ENTRIES],
}

impl Rows {
    fn new() -> Rows
        ensures { (w : List ℕ) → Gathered w 0 result }
    {
        Rows {
            objects: [[0; COLUMNS]; OBJECTS],
            keys: [[0; KEY_COLUMNS]; ENTRIES],
            values: [0; ENTRIES],
        }
    }

    // Of a push, the owners of pushes of another item onto its object; of a modify, those of modifies of its key to
    // another value: who has different ones, and who has any and not this one, which the twins have.
    fn differing<const NUMBER: u32>(&self, object: usize, at: usize, twin: usize) -> u64
        requires { (object < object_count) × (at < entry_limit) × (twin < entry_limit) }
        ensures { Found NUMBER (get_or self.now.objects object []) (get_or self.now.keys at [])
            (get_or self.now.values twin 0) result }
    {
        match NUMBER {
            PUSH => bitset::join(
                self.objects[object][ITEMS],
                bitset::difference(self.objects[object][PUSHES], self.keys[at][PUSHES]),
            ),
            MODIFY => bitset::join(
                self.keys[at][VALUES],
                bitset::difference(self.keys[at][MODIFIES], self.values[twin]),
            ),
            _ => 0,
        }
    }

    // The owners that bar an entry on an object, where `others` have another item or value.
    fn barring<const NUMBER: u32>(&self, object: usize, at: usize, others: u64) -> Blockers
        requires { Numbered NUMBER × (object < object_count) × (at < entry_limit) }
        ensures { PickedBoth NUMBER (get_or self.now.objects object []) (get_or self.now.keys at [])
            others result }
    {
        picked::<NUMBER>(&self.objects[object], &self.keys[at], others)
    }

    // The owners that bar entry `i`, which `at` and `twin` represent and whose own owner is then put into the rows; its
    // own transaction does not bar it. Its number is written out, so that what goes by it is worked out when this is
    // compiled.
    fn enter_as<const NUMBER: u32>(
        &mut self,
        book: &[u32],
        i: usize,
        at: usize,
        twin: usize,
    ) -> Blockers
        requires { InLog book.now i × Representative book.now i at × Twin book.now i twin
            × Gathered book.now i self.old × (entry_number book.now i ≡ NUMBER) }
        ensures { Entered book.now i result self.new }
    {
        let entry = Entry::read(book, i);
        let object = entry.object;
        let others = self.differing::<NUMBER>(object, at, twin);
        let found = self.barring::<NUMBER>(object, at, others);
        let own = bitset::single(entry.transaction);
        let again = bitset::meet(own, others);
        join_at(
            &mut self.objects[object],
            (NUMBER == PUSH).then_some(ITEMS),
            again,
        );
        join_at(
            &mut self.keys[at],
            (NUMBER == MODIFY).then_some(VALUES),
            again,
        );
        join_at(
            &mut self.objects[object],
            Some((NUMBER - first(NUMBER)) as usize),
            own,
        );
        join_at(&mut self.keys[at], key_column(NUMBER), own);
        join_at(&mut self.values, (NUMBER == MODIFY).then_some(twin), own);
        found.without(entry.transaction)
    }

    // The same of an entry of any number.
    fn enter(&mut self, book: &[u32], i: usize, at: usize, twin: usize) -> Blockers
        requires { InLog book.now i × Representative book.now i at × Twin book.now i twin
            × Gathered book.now i self.old }
        ensures { Entered book.now i result self.new }
    {
        match Entry::read(book, i).number {
            PUSH => self.enter_as::<PUSH>(book, i, at, twin),
            POP => self.enter_as::<POP>(book, i, at, twin),
            TOP => self.enter_as::<TOP>(book, i, at, twin),
            SET_INSERT => self.enter_as::<SET_INSERT>(book, i, at, twin),
            SET_DELETE => self.enter_as::<SET_DELETE>(book, i, at, twin),
            MEMBER => self.enter_as::<MEMBER>(book, i, at, twin),
            TABLE_INSERT => self.enter_as::<TABLE_INSERT>(book, i, at, twin),
            TABLE_DELETE => self.enter_as::<TABLE_DELETE>(book, i, at, twin),
            LOOKUP => self.enter_as::<LOOKUP>(book, i, at, twin),
            SIZE => self.enter_as::<SIZE>(book, i, at, twin),
            _ => self.enter_as::<MODIFY>(book, i, at, twin),
        }
    }
}

// Whether each entry is recoverable against every earlier one of another transaction. The sets, empty before, become
// for each transaction those that it depends on.
pub fn conflicts(
    book: &[u32],
    representatives: &[u16; ENTRIES],
    dependencies: &mut [u64; TRANSACTIONS],
) -> bool
    requires { Packed base book.now × EntriesLive (decode base book.now) × EntriesFit (decode base book.now)
        × Represented book.now (word book.now 0) representatives.now
        × (dependencies.old ≡ replicate transaction_count 0) }
    ensures { ((result ≡ true) ↔ EntriesRecoverable (decode base book.now))
        × (length dependencies.new ≡ transaction_count)
        × Represents dependencies.new (DependsOn (decode base book.now).log) }
{
    let count = layout::entry_count(book);
    if count == 0 {
        return true;
    }
    let mut rows = Rows::new();
    let mut chains = representatives::Chains::<true>::new();
    let mut unrecoverable: u64 = 0;
    for (i, at) in representatives[..count].iter().enumerate() {
        let twin = representatives::twin(book, i, &mut chains);
        let found = rows.enter(book, i, *at as usize, twin);
        let requester = layout::entry_transaction(book, i) as usize;
        dependencies[requester] = bitset::join(dependencies[requester], found.conflicting);
        unrecoverable = bitset::join(unrecoverable, found.unrecoverable);
    }
    unrecoverable == 0
}
