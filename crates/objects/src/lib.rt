// The objects in the book, words 65 to 2,144: their ranges and zeros, the form of their rows, and an operation folded
// into one, in place. `replay` does the same to a copy, by value: the paper names both forms, and the two share the
// search.
#![tactic(auto)]

ghost use Rattle.std.specs.Prelude.{◌≡◌, true, ◌↔◌, [], ◌∷◌, ◌++◌, ℕ, ◌-◌, ◌<◌, ◌≤◌, length, map, take};
ghost use Rattle.std.proofs.Math.Option.{some};
ghost use Rattle.store.specs.Store.{object_count};
ghost use Rattle.operations.specs.Operations.{row_limit};
ghost use Rattle.operations.specs.Operations as model;
ghost use Rattle.operations.specs.Operations.{row, All, NoValue};
ghost use Rattle.operations.specs.Operations.{inserted as Inserted, deleted as Deleted, modified as Modified};
ghost use Rattle.operations.specs.Stored.{operation_of};
ghost use Rattle.replay.specs.Replay.{next_named, row_of, put_at, removed_at};
ghost use Rattle.store.specs.Layout.{BookLong, Packed, ObjectPacked, base, decode, encode, word, rows_at};
ghost use Rattle.store.specs.Soundness.{RowsFormed};
ghost use Rattle.store.specs.Steps.{folded};
ghost use Rattle.objects.specs.Objects.{InRange, KeyedRows, ObjectFormed, RowsWithin, StartsPacked};
ghost use Rattle.objects.specs.Objects.{rows_in, with_rows};

use operations::{Kind, Operation};

// A kind and a number of rows that an object may have.
fn is_in_range(kind: u32, count: usize) -> bool
    ensures { (result ≡ true) ↔ InRange kind count }
{
    match Kind::try_from(kind) {
        Ok(Kind::None) => count == 0,
        Ok(Kind::Stack | Kind::Set | Kind::Table) => count <= layout::ROWS,
        Err(_) => false,
    }
}

// An object's kind and number of rows are in range, and the words past its rows are 0.
fn is_packed(book: &[u32], object: usize) -> bool
    requires { BookLong book.now × (object < object_count) }
    ensures { (result ≡ true) ↔ ObjectPacked book.now object }
{
    let kind = layout::object_kind(book, object);
    let count = layout::row_count(book, object);
    if !is_in_range(kind, count) {
        return false;
    }
    let start = layout::object_start(object);
    let free = start + layout::FIRST_ROW + layout::ROW * count;
    let end = start + layout::OBJECT;
    layout::is_zero(&book[free..end])
}

// Ranges and zeros of the objects.
pub fn packed(book: &[u32]) -> bool
    requires { BookLong book.now }
    ensures { (result ≡ true) ↔ ((o : ℕ) → o < object_count → ObjectPacked book.now o) }
{
    (0..layout::OBJECTS).all(|object| is_packed(book, object))
}

// The rows of the object that the part starts with.
fn rows(part: &[u32]) -> &[[u32; 2]]
    requires { RowsWithin part.now }
    ensures { map row_of result.now ≡ rows_in part.now }
{
    let end = layout::FIRST_ROW + layout::ROW * part[layout::COUNT] as usize;
    part[layout::FIRST_ROW..end].as_chunks().0
}

// The second word of each row is 0. No early way out, so that many words are taken at once.
fn has_no_values(rows: &[[u32; 2]]) -> bool
    ensures { (result ≡ true) ↔ All NoValue (map row_of rows.now) }
{
    rows.iter().fold(0, |seen, row| seen | row[1]) == 0
}

// The keys are reduced and strictly ascend: each is below the next, and the last is reduced.
fn is_keyed(rows: &[[u32; 2]]) -> bool
    ensures { (result ≡ true) ↔ KeyedRows (map row_of rows.now) }
{
    let Some(last) = rows.last() else {
        return true;
    };
    let falling = rows.windows(2).fold(false, |falling, pair| falling | (pair[1][0] <= pair[0][0]));
    !falling && last[0] < layout::KEYS
}

// The rows are of the form of the object's kind.
fn is_formed(book: &[u32], object: usize) -> bool
    requires { BookLong book.now × (object < object_count) × ObjectPacked book.now object }
    ensures { (result ≡ true) ↔ ObjectFormed book.now object }
{
    let start = layout::object_start(object);
    let rows = rows(&book[start..]);
    match Kind::try_from(book[start]) {
        Ok(Kind::Stack) => has_no_values(rows),
        Ok(Kind::Set) => has_no_values(rows) && is_keyed(rows),
        Ok(Kind::Table) => is_keyed(rows),
        Ok(Kind::None) | Err(_) => true,
    }
}

// The rows of each object are of its kind's form.
pub fn formed(book: &[u32]) -> bool
    requires { BookLong book.now × ((o : ℕ) → o < object_count → ObjectPacked book.now o) }
    ensures { (result ≡ true) ↔ RowsFormed base (decode base book.now) }
{
    (0..layout::OBJECTS).all(|object| is_formed(book, object))
}

// Puts a row in at a place; the row there and those after it move up.
fn open_at(part: &mut [u32], at: usize, row: [u32; 2])
    requires { StartsPacked part.old × (at ≤ word part.old 1) × (word part.old 1 < row_limit) }
    ensures { part.new
        ≡ with_rows part.old (put_at at (row_of row) (rows_in part.old)) }
{
    let count = part[layout::COUNT] as usize;
    let place = layout::FIRST_ROW + layout::ROW * at;
    let end = layout::FIRST_ROW + layout::ROW * count;
    part.copy_within(place..end, place + layout::ROW);
    part[place..place + layout::ROW].copy_from_slice(&row);
    part[layout::COUNT] += 1;
}

// Leaves out the row at a place; those after it move down, and the last row's words become 0.
fn close_at(part: &mut [u32], at: usize)
    requires { StartsPacked part.old × (at < word part.old 1) }
    ensures { part.new ≡ with_rows part.old (removed_at at (rows_in part.old)) }
{
    let count = part[layout::COUNT] as usize;
    let place = layout::FIRST_ROW + layout::ROW * at;
    let end = layout::FIRST_ROW + layout::ROW * count;
    part.copy_within(place + layout::ROW..end, place);
    part[end - layout::ROW..end].fill(0);
    part[layout::COUNT] -= 1;
}

fn push(part: &mut [u32], item: u32)
    requires { StartsPacked part.old × (word part.old 1 < row_limit) }
    ensures { part.new
        ≡ with_rows part.old (rows_in part.old ++ (row item 0 ∷ [])) }
{
    let count = part[layout::COUNT] as usize;
    open_at(part, count, [item, 0]);
}

fn pop(part: &mut [u32])
    requires { StartsPacked part.old }
    ensures { part.new
        ≡ with_rows part.old (take (length (rows_in part.old) - 1) (rows_in part.old)) }
{
    let count = part[layout::COUNT] as usize;
    if count > 0 {
        close_at(part, count - 1);
    }
}

fn insert(part: &mut [u32], key: u32, value: u32)
    requires { StartsPacked part.old × (length (Inserted key value (rows_in part.old)) ≤ row_limit) }
    ensures { part.new
        ≡ with_rows part.old (Inserted key value (rows_in part.old)) }
{
    let rows = rows(part);
    let at = replay::position(rows, key);
    if !replay::present(rows, at, key) {
        open_at(part, at, [key, value]);
    }
}

fn delete(part: &mut [u32], key: u32)
    requires { StartsPacked part.old }
    ensures { part.new ≡ with_rows part.old (Deleted key (rows_in part.old)) }
{
    let rows = rows(part);
    let at = replay::position(rows, key);
    if replay::present(rows, at, key) {
        close_at(part, at);
    }
}

fn modify(part: &mut [u32], key: u32, value: u32)
    requires { StartsPacked part.old }
    ensures { part.new
        ≡ with_rows part.old (Modified key value (rows_in part.old)) }
{
    let rows = rows(part);
    let at = replay::position(rows, key);
    if replay::present(rows, at, key) {
        part[layout::FIRST_ROW + layout::ROW * at + layout::VALUE] = value;
    }
}

// Folds an operation into the object that the part starts with, in place: no row before the one touched is written.
fn fold_part(part: &mut [u32], operation: Operation)
    requires { StartsPacked part.old × (length (next_named operation (rows_in part.old)) ≤ row_limit) }
    ensures { part.new
        ≡ with_rows part.old (next_named operation (rows_in part.old)) }
{
    let key = operation.key;
    match operation.number {
        operations::PUSH => push(part, key),
        operations::POP => pop(part),
        operations::SET_INSERT => insert(part, key, 0),
        operations::SET_DELETE | operations::TABLE_DELETE => delete(part, key),
        operations::TABLE_INSERT => insert(part, key, operation.value),
        operations::MODIFY => modify(part, key, operation.value),
        _ => {}
    }
}

// Folds an operation into an object. No word before the object's is lent.
pub fn fold(book: &mut [u32], object: usize, operation: Operation)
    requires { Packed base book.old × (object < object_count)
        × (length (next_named operation (rows_at book.old object)) ≤ row_limit)
        × ((o : model.Operation) × (operation_of operation ≡ some o)) }
    ensures { (o : model.Operation) → operation_of operation ≡ some o
        → book.new ≡ encode base (folded object o (decode base book.old)) }
{
    let start = layout::object_start(object);
    fold_part(&mut book[start..], operation);
}
