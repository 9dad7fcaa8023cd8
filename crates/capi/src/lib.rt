// The calls for programs in other languages, by C's rules of calling: a slice is a pointer and a length. None asks
// anything of its arguments.
#![tactic(auto)]

ghost use Rattle.std.specs.Prelude.{◌≡◌, []};
ghost use Rattle.store.specs.Layout.{base};
ghost use Rattle.store.proofs.Decisions.{whether_sound};
ghost use Rattle.protocol.specs.Calls as calls;
ghost use Rattle.capi.specs.Exported.{accepted, operated, ended, exported, written, written_answers, Handed};

use codes::Numbers;
use operations::Answer;

mod records;

// What set up and begin reply: the reason for saying no, or 0.
#[repr(C)]
#[derive(Drop)]
pub struct Accepted {
    pub refusal: u32,
}

// What operate replies: 0 wait, with the set of owners and their number; 1 answered, with the answer's code and value.
#[repr(C)]
#[derive(Drop)]
pub struct Operated {
    pub refusal: u32,
    pub code: u32,
    pub owners: u64,
    pub count: u32,
    pub answer: u32,
    pub value: u32,
}

// What batch replies: 0 wait, with the set of owners and their number; 1 answered, with the answers, in the order of
// the operations, and their number. Answers that are not used are 0 0.
#[repr(C)]
#[derive(Drop)]
pub struct Batched {
    pub refusal: u32,
    pub code: u32,
    pub owners: u64,
    pub count: u32,
    pub answers: [Answer; protocol::BATCH],
}

// What finish and cancel reply: 2 finished, 3 committed, 4 circle, 5 cancelled, and how many the list names.
#[repr(C)]
#[derive(Drop)]
pub struct Ended {
    pub refusal: u32,
    pub code: u32,
    pub count: u32,
}

// The part of the book that contents hands back: the word that it starts at, and its rows of two words.
#[repr(C)]
#[derive(Drop)]
pub struct Part {
    pub refusal: u32,
    pub start: u32,
    pub rows: u32,
}

#[unsafe(no_mangle)]
pub extern "C" fn lending_desk_set_up(book: &mut [u32], kinds: &[u8]) -> Accepted
    ensures { exported book.new [] result
        ≡ written accepted (calls.set_up base book.old kinds.now) }
{
    let n = Numbers::from(scheduler::set_up(book, kinds));
    Accepted { refusal: n.refusal }
}

#[unsafe(no_mangle)]
pub extern "C" fn lending_desk_begin(book: &mut [u32], transaction: u32) -> Accepted
    ensures { exported book.new [] result
        ≡ written accepted (calls.begin base whether_sound book.old transaction) }
{
    let n = Numbers::from(scheduler::begin(book, transaction));
    Accepted { refusal: n.refusal }
}

#[unsafe(no_mangle)]
pub extern "C" fn lending_desk_operate(
    book: &mut [u32],
    transaction: u32,
    object: u32,
    operation: u32,
    key: u32,
    value: u32,
) -> Operated
    ensures { exported book.new [] result
        ≡ written operated
        (calls.operate base whether_sound book.old transaction object operation key value) }
{
    let n = Numbers::from(scheduler::operate(book, transaction, object, operation, key, value));
    Operated {
        refusal: n.refusal,
        code: n.code,
        owners: n.owners,
        count: n.count,
        answer: n.answer,
        value: n.value,
    }
}

#[unsafe(no_mangle)]
pub extern "C" fn lending_desk_batch(
    book: &mut [u32],
    transaction: u32,
    operations: &[u32],
) -> Batched
    ensures { exported book.new [] result
        ≡ written_answers (calls.batch base whether_sound book.old transaction operations.now) }
{
    let batched = scheduler::batch(book, transaction, operations);
    let reply = batched.reply;
    let answers = batched.answers;
    let n = Numbers::from(reply);
    Batched {
        refusal: n.refusal,
        code: n.code,
        owners: n.owners,
        count: n.count + batched.count as u32,
        answers,
    }
}

#[unsafe(no_mangle)]
pub extern "C" fn lending_desk_finish(book: &mut [u32], transaction: u32, list: &mut [u8]) -> Ended
    ensures { exported book.new list.new result
        ≡ written ended (calls.finish base whether_sound book.old transaction list.old) }
{
    let n = Numbers::from(finishing::finish(book, transaction, list));
    Ended {
        refusal: n.refusal,
        code: n.code,
        count: n.count,
    }
}

#[unsafe(no_mangle)]
pub extern "C" fn lending_desk_cancel(book: &mut [u32], transaction: u32, list: &mut [u8]) -> Ended
    ensures { exported book.new list.new result
        ≡ written ended (calls.cancel base whether_sound book.old transaction list.old) }
{
    let n = Numbers::from(finishing::cancel(book, transaction, list));
    Ended {
        refusal: n.refusal,
        code: n.code,
        count: n.count,
    }
}

#[unsafe(no_mangle)]
pub extern "C" fn lending_desk_contents(book: &[u32], object: u32) -> Part
    ensures { Handed book.now object result }
{
    let n = Numbers::from(scheduler::contents_count(book, object));
    let mut start: u32 = 0;
    if n.refusal == protocol::ACCEPTED {
        start = layout::rows_start(object as usize) as u32;
    }
    Part {
        refusal: n.refusal,
        start,
        rows: n.rows,
    }
}
