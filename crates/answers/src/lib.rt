// What replay answers a request, and the rows that an object's entries may need.
#![tactic(auto)]

ghost use Rattle.std.specs.Prelude.{◌≡◌, ◌<◌, ◌≤◌};
ghost use Rattle.std.specs.List.{count_by, range_with_len};
ghost use Rattle.operations.specs.Operations as model;
ghost use Rattle.operations.specs.Log.{after};
ghost use Rattle.operations.specs.Stored.{answer_of};
ghost use Rattle.replay.specs.Replay.{answer_named};
ghost use Rattle.store.specs.Store.{entry_limit, object_count, on_object};
ghost use Rattle.store.specs.Layout.{BookLong, word, decode, rows_at, Packed, base};
ghost use Rattle.store.specs.Soundness.{Room};
ghost use Rattle.answers.specs.Answers.{rows_needed as RowsNeeded, may_add as MayAdd, Requested};

use operations::{Answer, Operation};

// How many rows an operation may need: one for a push or an insert.
#[tactic(auto, unfolding(crate::specs::Answers::rows_needed))]
pub fn rows_needed(number: u32) -> usize
    ensures { result ≡ RowsNeeded number }
{
    match number {
        operations::PUSH | operations::SET_INSERT | operations::TABLE_INSERT => 1,
        _ => 0,
    }
}

// Whether an entry is a push or an insert of the object.
fn may_add(book: &[u32], object: usize, i: usize) -> bool
    requires { BookLong book.now × (i < entry_limit) }
    ensures { result ≡ MayAdd book.now object i }
{
    layout::entry_object(book, i) as usize == object
        && rows_needed(layout::entry_operation(book, i).number) == 1
}

// The pushes and inserts of an object.
fn added(book: &[u32], object: usize, entries: usize) -> usize
    requires { BookLong book.now × (entries ≤ entry_limit) }
    ensures { result ≡ count_by (λ i. MayAdd book.now object i) (range_with_len 0 entries) }
{
    (0..entries).filter(|&i| may_add(book, object, i)).count()
}

// Rows plus logged pushes and inserts of an object.
pub fn used(book: &[u32], object: usize) -> usize
    requires { Packed base book.now × (object < object_count) }
    ensures { result ≡ base.used (decode base book.now) object }
{
    layout::row_count(book, object) + added(book, object, layout::entry_count(book))
}

// The answer that replay gives an operation after the object's rows and its entries in order. Entries that the
// operation is recoverable against don't change its answer, and are left out.
pub fn answer(book: &[u32], object: usize, operation: Operation) -> Answer
    requires { Packed base book.now × (object < object_count) × Room base (decode base book.now)
        × ((o : model.Operation) × Requested book.now object operation o) }
    ensures { answer_of result ≡ answer_named operation
        (after model.next (on_object object (decode base book.now).log)
        (rows_at book.now object)) }
{
    let mut rows = layout::copied_rows(book, object);
    let mut count = layout::row_count(book, object);
    // By index, as entries are words of the book.
    for i in 0..layout::entry_count(book) {
        if layout::entry_object(book, i) as usize != object {
            continue;
        }
        let logged = layout::entry_operation(book, i);
        if pairs::recoverable(operation, logged) {
            continue;
        }
        let at = replay::place(&rows, count, logged);
        let next = replay::next_count(&rows, count, at, logged);
        rows = replay::next_rows(rows, count, at, logged);
        count = next;
    }
    let at = replay::place(&rows, count, operation);
    replay::answer(&rows, count, at, operation)
}
