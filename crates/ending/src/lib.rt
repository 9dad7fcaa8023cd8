// How a transaction ends, and who commits then.
#![tactic(auto)]

ghost use Rattle.std.specs.Prelude.{◌≡◌, true, ◌↔◌, ◌<◌, ◌≤◌, length, IfSome};
ghost use Rattle.store.specs.Store.{list_length, transaction_count, Active, pseudo_committed_count};
ghost use Rattle.store.specs.Layout.{BookLong, Packed, base, decode, encode};
ghost use Rattle.store.specs.Soundness.{EntriesFit, Room};
ghost use Rattle.store.specs.Dependency.{Ready};
ghost use Rattle.protocol.specs.Ending.{carried_out, ended, commit as Commit, lowest_ready as LowestReady, settled_all};
ghost use Rattle.protocol.specs.Ending.{committed_first};
ghost use Rattle.ending.specs.Ending.{named, Before, Tracked, Forgotten, Concluded, pseudo_commit as PseudoCommit};

use layout::TRANSACTIONS;
use statuses::FIRST_RANK;

// Its entries leave the log, and ranks close up.
fn end(book: &mut [u32], transaction: u32)
    requires { Packed base book.old × (transaction < transaction_count) }
    ensures { book.new ≡ encode base (ended transaction (decode base book.old)) }
{
    let status = statuses::status_word(book, transaction);
    entry_log::remove(book, transaction);
    statuses::set_status(book, transaction, statuses::ABSENT);
    if status >= FIRST_RANK {
        statuses::close_ranks(book, status - FIRST_RANK);
    }
}

// Its entries are carried into the rows, in order. By index, since a turn may write the book that it reads.
fn carry_out(book: &mut [u32], transaction: u32)
    requires { Packed base book.old × EntriesFit (decode base book.old) × Room base (decode base book.old) }
    ensures { book.new ≡ encode base (carried_out transaction (decode base book.old).log
        (decode base book.old)) }
{
    let count = layout::entry_count(book);
    for i in 0..count {
        if layout::entry_transaction(book, i) == transaction {
            let object = layout::entry_object(book, i) as usize;
            let operation = layout::entry_operation(book, i);
            objects::fold(book, object, operation);
        }
    }
}

fn commit(book: &mut [u32], transaction: u32)
    requires { Packed base book.old × (transaction < transaction_count) × EntriesFit (decode base book.old)
        × Room base (decode base book.old) }
    ensures { book.new ≡ encode base (Commit transaction (decode base book.old)) }
{
    carry_out(book, transaction);
    end(book, transaction);
}

// Whether a finished transaction is of lower rank than another, if there is another.
fn before(book: &[u32], transaction: u32, other: Option<u32>) -> bool
    requires { BookLong book.now × (transaction < transaction_count) × IfSome other (λ u. u < transaction_count) }
    ensures { (result ≡ true) ↔ Before book.now transaction other }
{
    let own = statuses::status_word(book, transaction);
    match other {
        None => true,
        Some(other) => own < statuses::status_word(book, other),
    }
}

// The pseudo-committed one of lowest rank that depends on nobody.
fn lowest_ready(book: &[u32], edges: &[u64; TRANSACTIONS], finished: u64) -> Option<u32>
    requires { Tracked book.now edges.now finished }
    ensures { named result ≡ LowestReady (decode base book.now) }
{
    let mut lowest = None;
    for transaction in bitset::members(finished) {
        if graph::ready(edges, transaction) && before(book, transaction, lowest) {
            lowest = Some(transaction);
        }
    }
    lowest
}

// The dependencies become those once a transaction has ended.
fn forget(edges: &mut [u64; TRANSACTIONS], transaction: u32)
    requires { (length edges.old ≡ transaction_count) × (transaction < transaction_count) }
    ensures { Forgotten transaction edges.old edges.new }
{
    edges[transaction as usize] = 0;
    for set in edges.iter_mut() {
        *set = bitset::without(*set, transaction);
    }
}

// The lowest ready one commits, until none is left. They go to the list's front. Book, sets and list stay parameters:
// the calls lend them one by one.
fn commit_ready(
    book: &mut [u32],
    edges: &mut [u64; TRANSACTIONS],
    finished: u64,
    list: &mut [u8],
) -> usize
    requires { Tracked book.old edges.old finished
        × (pseudo_committed_count (decode base book.old) ≤ length list.old) }
    ensures { Concluded (settled_all (decode base book.old)) list.old
        book.new list.new result }
{
    let mut left = finished;
    let mut count: usize = 0;
    while let Some(transaction) = lowest_ready(book, edges, left) {
        commit(book, transaction);
        forget(edges, transaction);
        left = bitset::without(left, transaction);
        list[count] = transaction as u8;
        count += 1;
    }
    count
}

// An active transaction becomes pseudo-committed, last in the order of finishing.
pub fn pseudo_commit(book: &mut [u32], transaction: u32)
    requires { Packed base book.old × (transaction < transaction_count) }
    ensures { book.new ≡ encode base (PseudoCommit transaction (decode base book.old)) }
{
    let rank = statuses::next_rank(book);
    statuses::set_status(book, transaction, FIRST_RANK + rank);
}

// Aborts an active transaction; those that then depend on nobody commit. Of `edges`, on whom each depends, nothing is
// said afterwards.
pub fn abort(
    book: &mut [u32],
    transaction: u32,
    edges: &mut [u64; TRANSACTIONS],
    finished: u64,
    list: &mut [u8],
) -> usize
    requires { Tracked book.old edges.old finished × Active (decode base book.old) transaction
        × (list_length ≤ length list.old) }
    ensures { Concluded (settled_all (ended transaction (decode base book.old))) list.old
        book.new list.new result }
{
    end(book, transaction);
    forget(edges, transaction);
    commit_ready(book, edges, finished, list)
}

// Commits an active transaction that depends on nobody, and then those that do no more.
pub fn commit_active(
    book: &mut [u32],
    transaction: u32,
    edges: &mut [u64; TRANSACTIONS],
    finished: u64,
    list: &mut [u8],
) -> usize
    requires { Tracked book.old edges.old finished × Active (decode base book.old) transaction
        × Ready (decode base book.old).log transaction × (list_length ≤ length list.old) }
    ensures { Concluded
        (committed_first transaction (settled_all (Commit transaction (decode base book.old))))
        list.old book.new list.new result }
{
    commit(book, transaction);
    forget(edges, transaction);
    list[0] = transaction as u8;
    1 + commit_ready(book, edges, finished, &mut list[1..])
}
