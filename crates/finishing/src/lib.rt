// Finish and cancel (document 01, "Calls", and 02, No. 4). Neither asks anything of its arguments.
#![tactic(auto)]

ghost use Rattle.std.specs.Prelude.{◌≡◌, ℕ, List, [], length, replicate};
ghost use Rattle.store.specs.Layout.{base};
ghost use Rattle.store.proofs.Decisions.{whether_sound};
ghost use Rattle.protocol.specs.Replies.{served, outcome};
ghost use Rattle.protocol.specs.Calls as calls;
ghost use Rattle.store.specs.Store.{transaction_count};
ghost use Rattle.protocol.specs.Refusals.{reason_of};
ghost use Rattle.protocol.specs.ReplyOf.{reply_of};
ghost use Rattle.sound.specs.Examined.{Examined};

use layout::TRANSACTIONS;
use protocol::{Refusal, Reply};

// The reason for saying no, or who is pseudo-committed. The sets, empty before, become those of the dependencies.
fn admitted(
    book: &[u32],
    transaction: u32,
    len: usize,
    edges: &mut [u64; TRANSACTIONS],
) -> Result<u64, Refusal>
    requires { edges.old ≡ replicate transaction_count 0 }
    ensures reason { (list : List ℕ) → length list ≡ len
        → reason_of result ≡ calls.end_reason base whether_sound book.now transaction list }
    ensures found { (finished : ℕ) → result ≡ Ok finished → Examined book.now finished edges.new }
{
    let examined = sound::examined(book, edges);
    refusals::end(book, transaction, len, examined)
}

// Document 000, section 4.2.1: aborted where its finished predecessors and successors meet; else committed where it
// depends on nobody; else pseudo-committed. Those that then depend on nobody commit too.
pub fn finish(book: &mut [u32], transaction: u32, list: &mut [u8]) -> Reply
    ensures { served book.new (outcome (reply_of result) list.new [])
        ≡ calls.finish base whether_sound book.old transaction list.old }
{
    let mut edges = [0u64; TRANSACTIONS];
    let finished = match admitted(book, transaction, list.len(), &mut edges) {
        Ok(finished) => finished,
        Err(reason) => return Reply::Refused(reason.number()),
    };
    let predecessors = graph::predecessors(&edges, finished, transaction);
    let successors = graph::successors(&edges, finished, transaction);
    if bitset::meet(predecessors, successors) != 0 {
        let count = ending::abort(book, transaction, &mut edges, finished, list);
        return Reply::Circle(count as u32);
    }
    if graph::ready(&edges, transaction) {
        let count = ending::commit_active(book, transaction, &mut edges, finished, list);
        return Reply::Committed(count as u32);
    }
    ending::pseudo_commit(book, transaction);
    Reply::Finished
}

// Aborted; those that then depend on nobody commit.
pub fn cancel(book: &mut [u32], transaction: u32, list: &mut [u8]) -> Reply
    ensures { served book.new (outcome (reply_of result) list.new [])
        ≡ calls.cancel base whether_sound book.old transaction list.old }
{
    let mut edges = [0u64; TRANSACTIONS];
    let finished = match admitted(book, transaction, list.len(), &mut edges) {
        Ok(finished) => finished,
        Err(reason) => return Reply::Refused(reason.number()),
    };
    let committed = ending::abort(book, transaction, &mut edges, finished, list);
    Reply::Cancelled(committed as u32)
}
