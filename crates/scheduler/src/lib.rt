// The calls (document 01, "Calls", and 02) but finish and cancel. None asks anything of its arguments.
#![tactic(auto)]

ghost use Rattle.std.specs.Prelude.{ℕ, ◌+◌, ◌*◌, ◌≡◌, false, [], length, take, drop};
ghost use Rattle.store.specs.Store.{object_count};
ghost use Rattle.store.specs.Layout.{BookLong, base, encode, rows_start};
ghost use Rattle.store.proofs.Decisions.{whether_sound};
ghost use Rattle.protocol.specs.Replies.{served, outcome, counted};
ghost use Rattle.protocol.specs.Calls as calls;
ghost use Rattle.protocol.specs.ReplyOf.{reply_of, batched_of, Filled};
ghost use Rattle.scheduler.specs.Unanswered.{unanswered as Unanswered};

use operations::Answer;
use protocol::{Batched, Reply};

// Writes an empty book of these kinds.
fn write_empty(book: &mut [u32], kinds: &[u8])
    requires { BookLong book.old × (length kinds.now ≡ object_count) × (calls.some_above 3 kinds.now ≡ false) }
    ensures { book.new ≡ encode base (calls.empty kinds.now) }
{
    layout::clear(book);
    for (object, kind) in kinds.iter().enumerate() {
        book[layout::object_start(object)] = u32::from(*kind);
    }
}

pub fn set_up(book: &mut [u32], kinds: &[u8]) -> Reply
    ensures { served book.new (outcome (reply_of result) [] [])
        ≡ calls.set_up base book.old kinds.now }
{
    if let Err(reason) = refusals::set_up(book, kinds) {
        return Reply::Refused(reason.number());
    }
    write_empty(book, kinds);
    Reply::Ok
}

pub fn begin(book: &mut [u32], transaction: u32) -> Reply
    ensures { served book.new (outcome (reply_of result) [] [])
        ≡ calls.begin base whether_sound book.old transaction }
{
    if let Err(reason) = refusals::begin(book, transaction) {
        return Reply::Refused(reason.number());
    }
    statuses::set_status(book, transaction, statuses::ACTIVE);
    Reply::Ok
}

pub fn operate(
    book: &mut [u32],
    transaction: u32,
    object: u32,
    operation: u32,
    key: u32,
    value: u32,
) -> Reply
    ensures { served book.new (outcome (reply_of result) [] [])
        ≡ calls.operate base whether_sound book.old transaction object operation key value }
{
    if let Err(reason) = refusals::operate(book, transaction, object, operation) {
        return Reply::Refused(reason.number());
    }
    let requested = waits::request(operation, key, value);
    let owners = waits::owners(book, transaction, object, requested);
    if owners != 0 {
        return Reply::Wait(owners, bitset::size(owners));
    }
    let answer = batches::enter(book, transaction, object, requested);
    Reply::Answered(answer.code, answer.value)
}

// A batch's reply that has no answers.
fn unanswered(reply: Reply) -> Batched
    ensures { result ≡ Unanswered reply }
{
    Batched {
        reply,
        count: 0,
        answers: [Answer { code: 0, value: 0 }; protocol::BATCH],
    }
}

// Operations of one transaction, four words each, answered entirely or not at all.
pub fn batch(book: &mut [u32], transaction: u32, operations: &[u32]) -> Batched
    ensures served { served book.new (outcome (batched_of result) [] [])
        ≡ calls.batch base whether_sound book.old transaction operations.now }
    ensures filled { Filled result }
{
    if let Err(reason) = refusals::batch(book, transaction, operations) {
        return unanswered(Reply::Refused(reason.number()));
    }
    let owners = batches::owners(book, transaction, operations);
    if owners != 0 {
        return unanswered(Reply::Wait(owners, bitset::size(owners)));
    }
    Batched {
        reply: Reply::Answers,
        count: operations.len() / protocol::OPERATION_WORDS,
        answers: batches::enter_each(book, transaction, operations),
    }
}

// The object's rows, two words each: that part of the book itself, empty where refused. The paper names the form.
pub fn contents(book: &[u32], object: u32) -> &[u32]
    ensures handed { result.now ≡ (calls.contents base whether_sound book.now object).outcome.rows }
    ensures part { (n : ℕ)
        → (calls.contents base whether_sound book.now object).outcome.reply ≡ counted n
        → result.now ≡ take (2 * n) (drop (rows_start object) book.now) }
{
    if refusals::contents(book, object).is_err() {
        return &book[0..0];
    }
    let at = object as usize;
    let start = layout::rows_start(at);
    let end = start + layout::ROW * layout::row_count(book, at);
    &book[start..end]
}

// Its twin: the number of rows, or the refusal.
pub fn contents_count(book: &[u32], object: u32) -> Reply
    ensures { reply_of result ≡ (calls.contents base whether_sound book.now object).outcome.reply }
{
    if let Err(reason) = refusals::contents(book, object) {
        return Reply::Refused(reason.number());
    }
    Reply::Counted(layout::row_count(book, object as usize) as u32)
}
