// The call that a line asks for, made on a book.
#![tactic(auto)]

ghost use Rattle.lines.specs.Coded.{call_of};
ghost use Rattle.serving.specs.Told.{Served};

use layout::LIST;
use lines::Call;
use protocol::{Batched, Reply};

// What is told of a call.
#[derive(Clone, Copy)]
pub enum Told {
    Plain(Reply),
    // with the list that was lent
    Listed(Reply, [u8; LIST]),
    // with the answers of a batch
    Answered(Batched),
}

// Makes the call.
pub fn serve(book: &mut [u32], call: &Call) -> Told
    ensures { Served (call_of call.now) book.old book.new result }
{
    match call {
        Call::SetUp(kinds) => Told::Plain(scheduler::set_up(book, kinds)),
        Call::Begin(transaction) => Told::Plain(scheduler::begin(book, *transaction)),
        Call::Operate {
            transaction,
            object,
            operation,
            key,
            value,
        } => {
            let reply = scheduler::operate(book, *transaction, *object, *operation, *key, *value);
            Told::Plain(reply)
        }
        Call::Batch(transaction, operations) => {
            Told::Answered(scheduler::batch(book, *transaction, operations.as_slice()))
        }
        Call::Finish(transaction) => {
            let mut list = [0u8; LIST];
            let reply = finishing::finish(book, *transaction, &mut list);
            Told::Listed(reply, list)
        }
        Call::Cancel(transaction) => {
            let mut list = [0u8; LIST];
            let reply = finishing::cancel(book, *transaction, &mut list);
            Told::Listed(reply, list)
        }
    }
}
