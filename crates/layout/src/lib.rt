// Where the parts of a book stand, and what is read there.
#![tactic(auto)]

ghost use Rattle.std.specs.Prelude.{◌≡◌, true, ◌↔◌, ℕ, ◌+◌, ◌*◌, ◌<◌, ◌≤◌, length, replicate};
ghost use Rattle.store.specs.Store.{entry_limit, object_count};
ghost use Rattle.operations.specs.Operations.{row_limit};
ghost use Rattle.store.specs.Layout.{BookLong, word, tabulate, entry_start, object_start as ObjectStart};
ghost use Rattle.store.specs.Layout.{rows_start as RowsStart, row_at, rows_at};
ghost use Rattle.replay.specs.Replay.{rows_of};
ghost use Rattle.layout.specs.Rows.{row_in};

use operations::{Answer, Operation};

// ---- How many there are

pub const TRANSACTIONS: usize = 64;

pub const LAST_TRANSACTION: u32 = TRANSACTIONS as u32 - 1;

// The bytes that the list lent to finish and cancel must have.
pub const LIST: usize = TRANSACTIONS;

pub const OBJECTS: usize = 16;

pub const LAST_OBJECT: u32 = OBJECTS as u32 - 1;

// The rows that an object has room for.
pub const ROWS: usize = replay::ROWS;

pub const ENTRIES: usize = 256;

// Reduced keys are below this.
pub const KEYS: u32 = 16_777_216;

// ---- Words of the book: how many entries there are, the statuses, the objects, the log

pub const LOG_COUNT: usize = 0;

pub const FIRST_STATUS: usize = 1;

pub const FIRST_OBJECT: usize = FIRST_STATUS + TRANSACTIONS;

// The first word of the log, 2,145.
pub const LOG: usize = FIRST_OBJECT + OBJECT * OBJECTS;

// All words, 3,937.
pub const WORDS: usize = LOG + ENTRY * ENTRIES;

// Words of an object: its kind, how many rows it has, its rows; 130 in all.
pub const COUNT: usize = 1;

pub const FIRST_ROW: usize = 2;

pub const OBJECT: usize = FIRST_ROW + ROW * ROWS;

// Words of a row: its item or key, its value or 0.
pub const VALUE: usize = 1;

pub const ROW: usize = 2;

// Words of an entry: its transaction, and then these.
pub const LOGGED_OBJECT: usize = 1;

pub const LOGGED_NUMBER: usize = 2;

pub const LOGGED_KEY: usize = 3;

pub const LOGGED_VALUE: usize = 4;

pub const ANSWER_CODE: usize = 5;

pub const ANSWER_VALUE: usize = 6;

pub const ENTRY: usize = 7;

pub fn entry_count(book: &[u32]) -> usize
    requires { BookLong book.now }
    ensures { result ≡ word book.now 0 }
{
    book[LOG_COUNT] as usize
}

pub fn entry_transaction(book: &[u32], i: usize) -> u32
    requires { BookLong book.now × (i < entry_limit) }
    ensures { result ≡ word book.now (entry_start i) }
{
    book[LOG + ENTRY * i]
}

pub fn entry_object(book: &[u32], i: usize) -> u32
    requires { BookLong book.now × (i < entry_limit) }
    ensures { result ≡ word book.now (entry_start i + 1) }
{
    book[LOG + ENTRY * i + LOGGED_OBJECT]
}

pub fn entry_operation(book: &[u32], i: usize) -> Operation
    requires { BookLong book.now × (i < entry_limit) }
    ensures { (result.number ≡ word book.now (entry_start i + 2))
        × (result.key ≡ word book.now (entry_start i + 3))
        × (result.value ≡ word book.now (entry_start i + 4)) }
{
    let start = LOG + ENTRY * i;
    Operation {
        number: book[start + LOGGED_NUMBER],
        key: book[start + LOGGED_KEY],
        value: book[start + LOGGED_VALUE],
    }
}

pub fn entry_answer(book: &[u32], i: usize) -> Answer
    requires { BookLong book.now × (i < entry_limit) }
    ensures { (result.code ≡ word book.now (entry_start i + 5))
        × (result.value ≡ word book.now (entry_start i + 6)) }
{
    let start = LOG + ENTRY * i;
    Answer {
        code: book[start + ANSWER_CODE],
        value: book[start + ANSWER_VALUE],
    }
}

// Where an object starts in the book, and where its rows do.

pub fn object_start(object: usize) -> usize
    requires { object < object_count }
    ensures { result ≡ ObjectStart object }
{
    FIRST_OBJECT + OBJECT * object
}

pub fn rows_start(object: usize) -> usize
    requires { object < object_count }
    ensures { result ≡ RowsStart object }
{
    object_start(object) + FIRST_ROW
}

pub fn object_kind(book: &[u32], object: usize) -> u32
    requires { BookLong book.now × (object < object_count) }
    ensures { result ≡ word book.now (ObjectStart object) }
{
    book[object_start(object)]
}

pub fn row_count(book: &[u32], object: usize) -> usize
    requires { BookLong book.now × (object < object_count) }
    ensures { result ≡ word book.now (ObjectStart object + 1) }
{
    book[object_start(object) + COUNT] as usize
}

// A row's first word: an item or a key.
pub fn row_key(book: &[u32], object: usize, row: usize) -> u32
    requires { BookLong book.now × (object < object_count) × (row < row_limit) }
    ensures { result ≡ (row_at book.now object row).key }
{
    book[rows_start(object) + ROW * row]
}

// Its second word: a value, or 0.
pub fn row_value(book: &[u32], object: usize, row: usize) -> u32
    requires { BookLong book.now × (object < object_count) × (row < row_limit) }
    ensures { result ≡ (row_at book.now object row).value }
{
    book[rows_start(object) + ROW * row + VALUE]
}

// Whether all words are 0. No early way out, so that many words are taken at once.
pub fn is_zero(part: &[u32]) -> bool
    ensures { (result ≡ true) ↔ ((i : ℕ) → word part.now i ≡ 0) }
{
    part.iter().fold(0, |seen, word| seen | *word) == 0
}

// Sets all words to 0.
pub fn clear(part: &mut [u32])
    ensures { part.new ≡ replicate (length part.old) 0 }
{
    part.fill(0);
}

// A copy of the rows that the words begin with, for replay.
fn copied(words: &[u32], count: usize) -> [[u32; 2]; ROWS]
    requires { (count ≤ row_limit) × (2 * count ≤ length words.now) }
    ensures { rows_of result count ≡ tabulate count (row_in words.now) }
{
    let mut rows = [[0u32; 2]; ROWS];
    let (pairs, _) = words.as_chunks::<ROW>();
    rows[..count].copy_from_slice(&pairs[..count]);
    rows
}

// A copy of an object's rows.
pub fn copied_rows(book: &[u32], object: usize) -> [[u32; 2]; ROWS]
    requires { BookLong book.now × (object < object_count)
        × (word book.now (ObjectStart object + 1) ≤ row_limit) }
    ensures { rows_of result (word book.now (ObjectStart object + 1))
        ≡ rows_at book.now object }
{
    let start = rows_start(object);
    let count = row_count(book, object);
    copied(&book[start..], count)
}
