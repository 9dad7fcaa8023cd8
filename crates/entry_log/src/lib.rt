// The log in the book: word 0, and the entries from word 2,145 on.
#![tactic(auto)]

ghost use Rattle.std.specs.Prelude.{◌≡◌, ◌↔◌, true, ◌+◌, ◌-◌, ◌<◌};
ghost use Rattle.std.proofs.lemmas.List.Edits.{sets};
ghost use Rattle.bitset.specs.Bitset.{Holds};
ghost use Rattle.operations.specs.Operations as model;
ghost use Rattle.operations.specs.Stored.{answer_of};
ghost use Rattle.store.specs.Store.{entry_limit, Live};
ghost use Rattle.store.specs.Layout.{BookLong, Packed, base, encode, decode, word, entry_start, AsStored};
ghost use Rattle.store.specs.Steps.{appended, dropped};
ghost use Rattle.entry_log.specs.Log.{StoredWords, LogBounded};
ghost use Rattle.entry_log.specs.Log.{EntryLive, EntryOfKind, EntryKeyReduced, EntryAdmitted, LogFits};
ghost use Rattle.entry_log.specs.Log.{StoredAs, logged, words_at, Compacted};

use operations::{Answer, Kind, MODIFY, Operation, POP, PUSH, SIZE, TABLE_INSERT, TOP};

// Whether the words are those that are stored for an operation: its number is in range, and an argument that it does
// not use is 0.
fn is_stored(operation: Operation) -> bool
    ensures { (result ≡ true) ↔ StoredWords operation.number operation.key operation.value }
{
    let number = operation.number;
    if !(PUSH..=MODIFY).contains(&number) {
        return false;
    }
    let keyless = matches!(number, POP | TOP | SIZE);
    let valued = matches!(number, TABLE_INSERT | MODIFY);
    ((operation.key == 0) | !keyless) & ((operation.value == 0) | valued)
}

// The number of entries is in range, and the words past them are 0.
pub fn bounded(book: &[u32]) -> bool
    requires { BookLong book.now }
    ensures { (result ≡ true) ↔ LogBounded book.now }
{
    let count = layout::entry_count(book);
    count <= layout::ENTRIES && layout::is_zero(&book[layout::LOG + layout::ENTRY * count..])
}

fn is_live(book: &[u32], live: u64, i: usize) -> bool
    requires { BookLong book.now × (i < entry_limit) × Holds live (Live (decode base book.now)) }
    ensures { (result ≡ true) ↔ EntryLive book.now i }
{
    let transaction = layout::entry_transaction(book, i);
    transaction <= layout::LAST_TRANSACTION && bitset::contains(live, transaction)
}

fn of_kind(book: &[u32], i: usize) -> bool
    requires { BookLong book.now × (i < entry_limit) × AsStored book.now i }
    ensures { (result ≡ true) ↔ EntryOfKind book.now i }
{
    let object = layout::entry_object(book, i) as usize;
    let kind = Kind::of(layout::entry_operation(book, i).number);
    object < layout::OBJECTS && layout::object_kind(book, object) == u32::from(kind)
}

fn is_reduced(book: &[u32], i: usize) -> bool
    requires { BookLong book.now × (i < entry_limit) × AsStored book.now i }
    ensures { (result ≡ true) ↔ EntryKeyReduced book.now i }
{
    let operation = layout::entry_operation(book, i);
    match Kind::of(operation.number) {
        Kind::Stack => true,
        _ => operation.key < layout::KEYS,
    }
}

fn entry_fits(book: &[u32], live: u64, i: usize) -> bool
    requires { BookLong book.now × (i < entry_limit) × Holds live (Live (decode base book.now)) }
    ensures { (result ≡ true) ↔ EntryAdmitted book.now i }
{
    is_stored(layout::entry_operation(book, i))
        && is_live(book, live, i)
        && of_kind(book, i)
        && is_reduced(book, i)
}

// Whether each entry is as stored, belongs to a live transaction, fits its object's kind and has a reduced key.
pub fn fits(book: &[u32], live: u64) -> bool
    requires { BookLong book.now × LogBounded book.now × Holds live (Live (decode base book.now)) }
    ensures { (result ≡ true) ↔ LogFits book.now }
{
    (0..layout::entry_count(book)).all(|i| entry_fits(book, live, i))
}

// An entry put last.
pub fn append(book: &mut [u32], transaction: u32, object: u32, operation: Operation, answer: Answer)
    requires { Packed base book.old × (word book.old 0 < entry_limit)
        × ((o : model.Operation) × StoredAs operation o) }
    ensures { (o : model.Operation) → StoredAs operation o → book.new
        ≡ encode base (appended (logged transaction object o (answer_of answer)) (decode base book.old)) }
{
    let end = layout::LOG + layout::ENTRY * layout::entry_count(book);
    book[end..end + layout::ENTRY].copy_from_slice(&[
        transaction,
        object,
        operation.number,
        operation.key,
        operation.value,
        answer.code,
        answer.value,
    ]);
    book[layout::LOG_COUNT] += 1;
}

// The words of one entry, written over those of another: through an array of them, as `copy_within` is slower.
fn move_entry(book: &mut [u32], from: usize, to: usize)
    requires { BookLong book.old × (from < entry_limit) × (to < entry_limit) }
    ensures { book.new ≡ sets book.old (entry_start to) (words_at book.old from) }
{
    let start = layout::LOG + layout::ENTRY * from;
    let end = layout::LOG + layout::ENTRY * to;
    let words = [
        book[start],
        book[start + layout::LOGGED_OBJECT],
        book[start + layout::LOGGED_NUMBER],
        book[start + layout::LOGGED_KEY],
        book[start + layout::LOGGED_VALUE],
        book[start + layout::ANSWER_CODE],
        book[start + layout::ANSWER_VALUE],
    ];
    book[end..end + layout::ENTRY].copy_from_slice(&words);
}

// The entries of other transactions, moved to the front of the log, and their number. By index, since each turn may
// write the book that it reads.
fn gather(book: &mut [u32], transaction: u32) -> usize
    requires { Packed base book.old }
    ensures { Compacted book.old transaction (word book.old 0) book.new result }
{
    let count = layout::entry_count(book);
    let mut kept: usize = 0;
    for i in 0..count {
        if layout::entry_transaction(book, i) != transaction {
            move_entry(book, i, kept);
            kept += 1;
        }
    }
    kept
}

// The entries of one transaction leave the log.
pub fn remove(book: &mut [u32], transaction: u32)
    requires { Packed base book.old }
    ensures { book.new ≡ encode base (dropped transaction (decode base book.old)) }
{
    let count = layout::entry_count(book);
    let kept = gather(book, transaction);
    book[layout::LOG + layout::ENTRY * kept..layout::LOG + layout::ENTRY * count].fill(0);
    book[layout::LOG_COUNT] = kept as u32;
}
