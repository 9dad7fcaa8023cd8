// Whether each log entry has the answer that replay gives, decided without a replay: from the state of its key, its
// object's number of rows, or the top of its stack; and whether there is room for the rows that entries may need.
#![tactic(auto)]

ghost use Rattle.std.specs.Prelude.{◌≡◌, true, ◌↔◌, ◌≤◌, ◌<◌, length, slice_index};
ghost use Rattle.store.specs.Store.{entry_limit, object_count};
ghost use Rattle.operations.specs.Operations.{row_limit, valued, found};
ghost use Rattle.operations.specs.Stored.{answer_of, found_of};
ghost use Rattle.store.specs.Layout.{BookLong, word, base, decode, rows_at, Packed};
ghost use Rattle.store.specs.Soundness.{EntriesFit, EntriesAnswered, Room, RowsFormed};
ghost use Rattle.representatives.specs.Representatives.{Represented};
ghost use Rattle.states.specs.States as states;

use layout::{ENTRIES, OBJECTS};
use operations::{Answer, Operation};

// ---- Sets and tables

// The value at the key in the book's rows, which ascend: in the last row whose key is not above it.
fn seek(book: &[u32], object: usize, key: u32) -> Option<u32>
    requires { states.Seekable book.now object }
    ensures { valued (found_of result) ≡ valued (found key (rows_at book.now object)) }
{
    let mut low: usize = 0;
    let mut left = layout::row_count(book, object);
    while left > 1 {
        let half = left / 2;
        if layout::row_key(book, object, low + half) <= key {
            low += half;
        }
        left -= half;
    }
    if left == 1 && layout::row_key(book, object, low) == key {
        return Some(layout::row_value(book, object, low));
    }
    None
}

// The value at its key after an operation, by the one before.
#[tactic(auto, unfolding(crate::specs::States::state_after))]
fn changed(operation: Operation, held: Option<u32>) -> Option<u32>
    ensures { valued (found_of result)
        ≡ states.state_after operation.number operation.value (valued (found_of held)) }
{
    match operation.number {
        operations::SET_INSERT | operations::TABLE_INSERT => held.or(Some(operation.value)),
        operations::SET_DELETE | operations::TABLE_DELETE => None,
        operations::MODIFY => held.and(Some(operation.value)),
        _ => held,
    }
}

// How many rows there are after an operation.
#[tactic(auto, unfolding(crate::specs::States::count_after))]
fn count_after(number: u32, held: Option<u32>, count: u32) -> u32
    requires { (count ≤ 320) × ((valued (found_of held)).code ≤ count) }
    ensures { result ≡ states.count_after number (valued (found_of held)).code count }
{
    match number {
        operations::SET_INSERT | operations::TABLE_INSERT => count + held.is_none() as u32,
        operations::SET_DELETE | operations::TABLE_DELETE => count - held.is_some() as u32,
        _ => count,
    }
}

// What an operation on a key answers.
#[tactic(auto, unfolding(crate::specs::States::keyed_answer))]
fn keyed_answer(number: u32, held: Option<u32>, count: u32) -> Answer
    ensures { answer_of result ≡ states.keyed_answer number (valued (found_of held)) count }
{
    match number {
        operations::SET_INSERT => Answer::from(true),
        operations::TABLE_INSERT => Answer::from(held.is_none()),
        operations::LOOKUP => Answer::from(held),
        operations::SIZE => Answer::from(Some(count)),
        _ => Answer::from(held.is_some()),
    }
}

// ---- The state, where the entries so far are served

// `cells` has the value at the key of each entry that represents others. `counts` has the rows of each object; `tops`
// the entry that pushed the item on top of each stack, none where that item is a row of the book; `below`, for each
// push, what the stack's top was before it. Both write an entry as the places of a chain do. What holds of it all is
// about a book, which it does not keep, so that contracts state it.
#[derive(Drop)]
struct State {
    cells: [Option<u32>; ENTRIES],
    counts: [u32; OBJECTS],
    tops: [u16; OBJECTS],
    below: [u16; ENTRIES],
}

impl State {
    // The value at the key of entry `i`: from the book's rows where no earlier entry has the key, else from the cell of
    // the entry that represents it.
    fn held(&self, book: &[u32], i: usize, object: usize, key: u32, cell: usize) -> Option<u32>
        requires { states.Seekable book.now object × (cell < entry_limit) × (length self.now.cells ≡ 256) }
        ensures { states.HeldBy book.now i object key cell self.now.cells result }
    {
        if cell == i {
            return seek(book, object, key);
        }
        self.cells[cell]
    }

    // An entry of a set or a table: whether its answer is right.
    fn serve_keyed(&mut self, book: &[u32], i: usize, object: usize, cell: usize) -> bool
        requires { states.KeyedEntry book.now i object cell self.old }
        ensures { states.AfterEntry book.now i self.new result }
    {
        let operation = layout::entry_operation(book, i);
        let held = self.held(book, i, object, operation.key, cell);
        let count = self.counts[object];
        if layout::entry_answer(book, i) != keyed_answer(operation.number, held, count) {
            return false;
        }
        self.cells[cell] = changed(operation, held);
        self.counts[object] = count_after(operation.number, held, count);
        true
    }

    // The item on top of a stack.
    fn top(&self, book: &[u32], object: usize) -> Option<u32>
        requires { BookLong book.now × states.StackAt object self.now
            × (slice_index self.now.tops object ≡ 0 → slice_index self.now.counts object ≤ row_limit) }
        ensures { states.TopBy book.now object self.now result }
    {
        if let Some(pushed) = representatives::entry(self.tops[object]) {
            return Some(layout::entry_operation(book, pushed).key);
        }
        let last = (self.counts[object] as usize).checked_sub(1)?;
        Some(layout::row_key(book, object, last))
    }

    // Entry `i` pushes an item.
    fn push(&mut self, i: usize, object: usize)
        requires { (i < entry_limit) × states.StackAt object self.old }
        ensures { self.new ≡ states.pushed self.old i object }
    {
        self.below[i] = self.tops[object];
        self.tops[object] = (i + 1) as u16;
        self.counts[object] += 1;
    }

    // The item on top goes, where there is one.
    fn pop(&mut self, object: usize)
        requires { states.StackAt object self.old }
        ensures { self.new ≡ states.popped self.old object }
    {
        if let Some(pushed) = representatives::entry(self.tops[object]) {
            self.tops[object] = self.below[pushed];
        }
        self.counts[object] = self.counts[object].saturating_sub(1);
    }

    // An entry of a stack: whether its answer is right.
    fn serve_stack(&mut self, book: &[u32], i: usize, object: usize) -> bool
        requires { states.StackEntry book.now i object self.old }
        ensures { states.AfterEntry book.now i self.new result }
    {
        let number = layout::entry_operation(book, i).number;
        let answer = layout::entry_answer(book, i);
        if number == operations::PUSH {
            self.push(i, object);
            return answer == Answer::from(true);
        }
        let top = self.top(book, object);
        if number == operations::POP {
            self.pop(object);
        }
        answer == Answer::from(top)
    }

    // An entry, represented by the one of the cell: whether its answer is right.
    fn serve(&mut self, book: &[u32], i: usize, object: usize, cell: usize) -> bool
        requires { states.ToServe book.now i object cell self.old }
        ensures { states.AfterEntry book.now i self.new result }
    {
        if layout::entry_operation(book, i).number < operations::SET_INSERT {
            return self.serve_stack(book, i, object);
        }
        self.serve_keyed(book, i, object, cell)
    }
}

// The rows of each object in the book.
fn row_counts(book: &[u32]) -> [u32; OBJECTS]
    requires { Packed base book.now }
    ensures { states.RowCounts book.now object_count result }
{
    let mut counts = [0u32; OBJECTS];
    for (object, count) in counts.iter_mut().enumerate() {
        *count = layout::row_count(book, object) as u32;
    }
    counts
}

// Whether an object has room for so many rows.
fn room_for(rows: usize) -> bool
    ensures { (result ≡ true) ↔ (rows ≤ row_limit) }
{
    rows <= layout::ROWS
}

// Whether each entry has the answer that replay gives, and each object room for its rows with its pushes and inserts.
pub fn answered(book: &[u32], representatives: &[u16; ENTRIES]) -> bool
    requires { Packed base book.now × EntriesFit (decode base book.now) × RowsFormed base (decode base book.now)
        × Represented book.now (word book.now 0) representatives.now }
    ensures { (result ≡ true)
        ↔ (Room base (decode base book.now) × EntriesAnswered (decode base book.now)) }
{
    let entries = layout::entry_count(book);
    // An empty log needs no state.
    if entries == 0 {
        return true;
    }
    let counts = row_counts(book);
    let mut used = counts;
    let mut state = State {
        cells: [None; ENTRIES],
        counts,
        tops: [0; OBJECTS],
        below: [0; ENTRIES],
    };
    // By index, which is what an entry is known by.
    for i in 0..entries {
        let object = layout::entry_object(book, i) as usize;
        let operation = layout::entry_operation(book, i);
        let taken = used[object] as usize + answers::rows_needed(operation.number);
        if !room_for(taken) {
            return false;
        }
        used[object] = taken as u32;
        if !state.serve(book, i, object, representatives[i] as usize) {
            return false;
        }
    }
    true
}
