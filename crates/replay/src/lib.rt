// Replay of one operation on a copy of an object's rows: 64 pairs by value, handed through and handed back.
#![tactic(auto)]

ghost use Rattle.std.specs.Prelude.{◌≡◌, [], ◌∷◌, ◌++◌, map, ◌+◌, ◌-◌, ◌<◌, ◌≤◌, length, take};
ghost use Rattle.operations.specs.Operations.{row_limit};
ghost use Rattle.operations.specs.Operations.{row, top_item, found, present as Present};
ghost use Rattle.operations.specs.Operations.{inserted as Inserted, deleted as Deleted, modified as Modified};
ghost use Rattle.operations.specs.Stored.{answer_of, found_of};
ghost use Rattle.replay.specs.Replay.{next_named, answer_named, row_of, rows_of, BeginsWith, Placed};
ghost use Rattle.replay.specs.Replay.{position_of, put_at, removed_at};

use operations::{Answer, Kind, Operation};

// The rows that an object has room for, and the copy.
pub const ROWS: usize = 64;

// The place of the first key that is not below `key`, or the number of rows.
pub fn position(rows: &[[u32; 2]], key: u32) -> usize
    ensures { result ≡ position_of key (map row_of rows.now) }
{
    rows.iter()
        .position(|row| key <= row[0])
        .unwrap_or(rows.len())
}

// The place for an operation: its key is looked up once, and what replays it is handed the place.
#[tactic(auto, unfolding(operations::specs::PairRules::kind_numbered))]
pub fn place(rows: &[[u32; 2]; ROWS], count: usize, operation: Operation) -> usize
    requires { count ≤ row_limit }
    ensures { Placed operation (rows_of rows.now count) result }
{
    match Kind::of(operation.number) {
        Kind::Stack => 0,
        _ => position(&rows[..count], operation.key),
    }
}

// Whether a row has the key, whose position is given.
pub fn present(rows: &[[u32; 2]], at: usize, key: u32) -> bool
    requires { at ≡ position_of key (map row_of rows.now) }
    ensures { result ≡ Present key (map row_of rows.now) }
{
    rows.get(at).is_some_and(|row| row[0] == key)
}

// Puts the pair in at a place of the rows, of which the last is free; the row there and those after it move up.
fn open_at(rows: &mut [[u32; 2]], at: usize, pair: [u32; 2])
    requires { at < length rows.old }
    ensures { rows.new ≡ put_at at pair (take (length rows.old - 1) rows.old) }
{
    let last = rows.len() - 1;
    rows.copy_within(at..last, at + 1);
    rows[at] = pair;
}

// Leaves out the row at a place; those after it move down, and the last is free.
fn close_at(rows: &mut [[u32; 2]], at: usize)
    requires { at < length rows.old }
    ensures { take (length rows.old - 1) rows.new ≡ removed_at at rows.old }
{
    rows.copy_within(at + 1.., at);
}

fn push(mut rows: [[u32; 2]; ROWS], count: usize, item: u32) -> [[u32; 2]; ROWS]
    requires { count < row_limit }
    ensures { BeginsWith result (rows_of rows count ++ (row item 0 ∷ [])) }
{
    rows[count] = [item, 0];
    rows
}

fn insert(
    mut rows: [[u32; 2]; ROWS],
    count: usize,
    at: usize,
    key: u32,
    value: u32,
) -> [[u32; 2]; ROWS]
    requires { (count ≤ row_limit) × (length (Inserted key value (rows_of rows count)) ≤ row_limit)
        × (at ≡ position_of key (rows_of rows count)) }
    ensures { BeginsWith result (Inserted key value (rows_of rows count)) }
{
    if !present(&rows[..count], at, key) {
        open_at(&mut rows[..count + 1], at, [key, value]);
    }
    rows
}

fn delete(mut rows: [[u32; 2]; ROWS], count: usize, at: usize, key: u32) -> [[u32; 2]; ROWS]
    requires { (count ≤ row_limit) × (at ≡ position_of key (rows_of rows count)) }
    ensures { BeginsWith result (Deleted key (rows_of rows count)) }
{
    if present(&rows[..count], at, key) {
        close_at(&mut rows[..count], at);
    }
    rows
}

fn modify(
    mut rows: [[u32; 2]; ROWS],
    count: usize,
    at: usize,
    key: u32,
    value: u32,
) -> [[u32; 2]; ROWS]
    requires { (count ≤ row_limit) × (at ≡ position_of key (rows_of rows count)) }
    ensures { BeginsWith result (Modified key value (rows_of rows count)) }
{
    if present(&rows[..count], at, key) {
        rows[at] = [key, value];
    }
    rows
}

// The rows after the operation, which the copy has room for. Pairs past the new count are left free: a pop only lowers
// the count.
pub fn next_rows(
    rows: [[u32; 2]; ROWS],
    count: usize,
    at: usize,
    operation: Operation,
) -> [[u32; 2]; ROWS]
    requires { (count ≤ row_limit) × (length (next_named operation (rows_of rows count)) ≤ row_limit)
        × Placed operation (rows_of rows count) at }
    ensures { rows_of result (length (next_named operation (rows_of rows count)))
        ≡ next_named operation (rows_of rows count) }
{
    let key = operation.key;
    match operation.number {
        operations::PUSH => push(rows, count, key),
        operations::SET_INSERT => insert(rows, count, at, key, 0),
        operations::SET_DELETE | operations::TABLE_DELETE => delete(rows, count, at, key),
        operations::TABLE_INSERT => insert(rows, count, at, key, operation.value),
        operations::MODIFY => modify(rows, count, at, key, operation.value),
        _ => rows,
    }
}

// How many rows there are after the operation.
pub fn next_count(rows: &[[u32; 2]; ROWS], count: usize, at: usize, operation: Operation) -> usize
    requires { (count ≤ row_limit) × Placed operation (rows_of rows.now count) at }
    ensures { result ≡ length (next_named operation (rows_of rows.now count)) }
{
    let filled = &rows[..count];
    let key = operation.key;
    match operation.number {
        operations::PUSH => count + 1,
        operations::POP => count.saturating_sub(1),
        operations::SET_INSERT | operations::TABLE_INSERT => {
            count + usize::from(!present(filled, at, key))
        }
        operations::SET_DELETE | operations::TABLE_DELETE => {
            count - usize::from(present(filled, at, key))
        }
        _ => count,
    }
}

// The item on top.
fn top(rows: &[[u32; 2]]) -> Option<u32>
    ensures { found_of result ≡ top_item (map row_of rows.now) }
{
    rows.last().map(|row| row[0])
}

// The value in the key's row, whose position is given.
fn lookup(rows: &[[u32; 2]], at: usize, key: u32) -> Option<u32>
    requires { at ≡ position_of key (map row_of rows.now) }
    ensures { found_of result ≡ found key (map row_of rows.now) }
{
    if present(rows, at, key) {
        return Some(rows[at][1]);
    }
    None
}

// What the operation answers.
pub fn answer(rows: &[[u32; 2]; ROWS], count: usize, at: usize, operation: Operation) -> Answer
    requires { (count ≤ row_limit) × Placed operation (rows_of rows.now count) at }
    ensures { answer_of result ≡ answer_named operation (rows_of rows.now count) }
{
    let filled = &rows[..count];
    let key = operation.key;
    match operation.number {
        operations::PUSH | operations::SET_INSERT => Answer::from(true),
        operations::POP | operations::TOP => Answer::from(top(filled)),
        operations::SET_DELETE
        | operations::MEMBER
        | operations::TABLE_DELETE
        | operations::MODIFY => Answer::from(present(filled, at, key)),
        operations::TABLE_INSERT => Answer::from(!present(filled, at, key)),
        operations::LOOKUP => Answer::from(lookup(filled, at, key)),
        operations::SIZE => Answer::from(Some(count as u32)),
        _ => Answer::from(false),
    }
}
