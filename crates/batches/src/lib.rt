// Operations that are asked for: entered in the log with their answers; of a batch, also whom they wait for.
#![tactic(auto)]

ghost use Rattle.std.specs.Prelude.{◌≡◌, true, ◌↔◌, map, ◌<◌, ◌≤◌, length, IfSome};
ghost use Rattle.operations.specs.Operations.{row_limit};
ghost use Rattle.operations.specs.Operations as model;
ghost use Rattle.operations.specs.Stored.{answer_of};
ghost use Rattle.replay.specs.Replay.{next_named, answer_named};
ghost use Rattle.store.specs.Store.{object_count, entry_limit};
ghost use Rattle.store.specs.Layout.{BookLong, Packed, base, encode, decode};
ghost use Rattle.store.specs.Soundness.{Room};
ghost use Rattle.entry_log.specs.Log.{StoredAs};
ghost use Rattle.protocol.specs.Calls.{operations_in, answer_to, entered, run_all, answers_to};
ghost use Rattle.protocol.specs.Calls.{awaited};
ghost use Rattle.protocol.specs.Terms.{BatchAccepted};
ghost use Rattle.protocol.specs.ReplyOf.{filled};
ghost use Rattle.batches.specs.Batches.{Enterable, OwnEntry, Carried, Advanced, rows_in};

use operations::{Answer, Operation};
use protocol::BATCH;

// One operation, answered by replay and put last in the log.
pub fn enter(book: &mut [u32], transaction: u32, object: u32, requested: Operation) -> Answer
    requires { Enterable book.old object requested }
    ensures { (o : model.Operation) → StoredAs requested o
        → (answer_of result ≡ answer_to o (decode base book.old) object)
        × (book.new ≡ encode base (entered transaction object o (decode base book.old))) }
{
    let answer = answers::answer(book, object as usize, requested);
    entry_log::append(book, transaction, object, requested, answer);
    answer
}

// All whom some operation of the batch waits for.
pub fn owners(book: &[u32], transaction: u32, operations: &[u32]) -> u64
    requires { BatchAccepted base book.now transaction operations.now }
    ensures { result ≡ awaited base transaction (decode base book.now)
        (operations_in operations.now) }
{
    let lent = protocol::lent(operations);
    let mut set: u64 = 0;
    for &[object, number, key, value] in lent {
        let requested = waits::request(number, key, value);
        set = bitset::join(set, waits::owners(book, transaction, object, requested));
    }
    set
}

// Whether entry i is the transaction's, on the object.
fn is_own(book: &[u32], i: usize, transaction: u32, object: u32) -> bool
    requires { BookLong book.now × (i < entry_limit) }
    ensures { (result ≡ true) ↔ OwnEntry book.now i transaction object }
{
    layout::entry_transaction(book, i) == transaction && layout::entry_object(book, i) == object
}

// A copy of an object's rows, as replay of one transaction's entries reaches them. It goes by value from operation to
// operation.
#[derive(Clone, Copy)]
struct OwnRows {
    object: u32,
    rows: [[u32; 2]; layout::ROWS],
    count: usize,
}

impl OwnRows {
    // After the entries that the log has. Entries of others don't change the answers to requests that wait for nobody,
    // and are left out.
    fn logged(book: &[u32], transaction: u32, object: u32) -> OwnRows
        requires { Packed base book.now × (object < object_count) × Room base (decode base book.now) }
        ensures { Carried (decode base book.now) transaction object result }
    {
        let at = object as usize;
        let mut copy = OwnRows {
            object,
            rows: layout::copied_rows(book, at),
            count: layout::row_count(book, at),
        };
        // By index, as entries are words of the book.
        for i in 0..layout::entry_count(book) {
            if is_own(book, i, transaction, object) {
                copy = copy.after(layout::entry_operation(book, i));
            }
        }
        copy
    }

    // The copy that is carried, or one of another object.
    fn carried_or_logged(
        carried: Option<OwnRows>,
        book: &[u32],
        transaction: u32,
        object: u32,
    ) -> OwnRows
        requires { Packed base book.now × (object < object_count) × Room base (decode base book.now)
            × IfSome carried (λ copy. Carried (decode base book.now) transaction copy.object copy) }
        ensures { Carried (decode base book.now) transaction object result }
    {
        match carried {
            Some(copy) if copy.object == object => copy,
            _ => OwnRows::logged(book, transaction, object),
        }
    }

    // What the rows answer an operation.
    fn answer(&self, operation: Operation) -> Answer
        requires { self.now.count ≤ row_limit }
        ensures { answer_of result ≡ answer_named operation (rows_in self.now) }
    {
        let at = replay::place(&self.rows, self.count, operation);
        replay::answer(&self.rows, self.count, at, operation)
    }

    fn after(self, operation: Operation) -> OwnRows
        requires { (self.count ≤ row_limit) × (length (next_named operation (rows_in self)) ≤ row_limit) }
        ensures { Advanced self operation result }
    {
        let at = replay::place(&self.rows, self.count, operation);
        OwnRows {
            object: self.object,
            rows: replay::next_rows(self.rows, self.count, at, operation),
            count: replay::next_count(&self.rows, self.count, at, operation),
        }
    }
}

// Entered one after the other, each seeing those before it. The copy of an object's rows goes through its operations,
// and is made anew where the object changes. It is not inlined, so that the check of soundness, which takes the most
// stack, does not stand on its copies.
#[inline(never)]
pub fn enter_each(book: &mut [u32], transaction: u32, operations: &[u32]) -> [Answer; BATCH]
    requires { BatchAccepted base book.old transaction operations.now
        × (awaited base transaction (decode base book.old) (operations_in operations.now) ≡ 0) }
    ensures { (book.new
        ≡ encode base (run_all base transaction (operations_in operations.now)
        (decode base book.old)))
        × (map answer_of result ≡ filled (answers_to base transaction (operations_in operations.now)
        (decode base book.old))) }
{
    let lent = protocol::lent(operations);
    let mut answers = [Answer { code: 0, value: 0 }; BATCH];
    let mut carried: Option<OwnRows> = None;
    for (i, &[object, number, key, value]) in lent.iter().enumerate() {
        let requested = waits::request(number, key, value);
        let copy = OwnRows::carried_or_logged(carried, book, transaction, object);
        let answer = copy.answer(requested);
        entry_log::append(book, transaction, object, requested, answer);
        answers[i] = answer;
        carried = Some(copy.after(requested));
    }
    answers
}
