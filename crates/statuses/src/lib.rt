// The statuses of transactions: words 1 to 64 of the book.
#![tactic(auto)]

ghost use Rattle.std.specs.Prelude.{◌≡◌, true, ◌&&◌, ◌||◌, ◌↔◌, ◌+◌, ◌<◌};
ghost use Rattle.bitset.specs.Bitset.{Holds};
ghost use Rattle.store.specs.Layout.{BookLong, Packed, base, decode, encode, read_status, word};
ghost use Rattle.store.specs.Store.{transaction_count, Live, PseudoCommitted, pseudo_committed_count};
ghost use Rattle.store.specs.Soundness.{OnceEach, WithoutGaps};
ghost use Rattle.store.specs.Steps.{with_status, closed_up};
ghost use Rattle.statuses.specs.Statuses.{Joined, Downward, lowered_word};

use bitset::{contains, join, single};

// The words of a status: absent, active, and from this on pseudo-committed, with the rank added. Numbers, as the
// contract of `status_word` has them.
pub const ABSENT: u32 = 0;

pub const ACTIVE: u32 = 1;

pub const FIRST_RANK: u32 = 2;

// How many transactions there are, and so ranks.
const COUNT: u32 = layout::TRANSACTIONS as u32;

// Who is live, who is pseudo-committed, and whether ranks are 0, 1, 2 and on, once each. A flag beside the sets and no
// Option, since the sets are promised where ranks are not in order, too.
#[derive(Drop)]
pub struct Summary {
    pub live: u64,
    pub finished: u64,
    pub ranked: bool,
}

pub fn status_word(book: &[u32], transaction: u32) -> u32
    requires { BookLong book.now × (transaction < transaction_count) }
    ensures { result ≡ word book.now (1 + transaction) }
{
    book[layout::FIRST_STATUS + transaction as usize]
}

// The ranks seen, with one more; none where it is too large or was seen before.
fn with_rank(seen: u64, rank: u32) -> Option<u64>
    ensures { Joined seen rank result }
{
    if rank >= COUNT || contains(seen, rank) {
        return None;
    }
    Some(join(seen, single(rank)))
}

// Whether with each rank but 0 the one below it was seen.
fn in_order(seen: u64) -> bool
    ensures { (result ≡ true) ↔ Downward seen }
{
    join(seen, seen >> 1) == seen
}

pub fn statuses(book: &[u32]) -> Summary
    requires { BookLong book.now }
    ensures { Holds result.live (Live (decode base book.now))
        × Holds result.finished (PseudoCommitted (decode base book.now))
        × ((result.ranked ≡ true)
        ↔ (OnceEach (decode base book.now) × WithoutGaps (decode base book.now))) }
{
    let mut live = 0;
    let mut finished = 0;
    // The ranks seen, as long as each was new.
    let mut ranks = Some(0);
    let words = &book[layout::FIRST_STATUS..layout::FIRST_OBJECT];
    for (transaction, status) in words.iter().enumerate() {
        let own = single(transaction as u32);
        if *status != ABSENT {
            live = join(live, own);
        }
        if *status > ACTIVE {
            finished = join(finished, own);
            ranks = ranks.and_then(|seen| with_rank(seen, *status - FIRST_RANK));
        }
    }
    Summary {
        live,
        finished,
        ranked: ranks.is_some_and(|seen| in_order(seen)),
    }
}

// How many transactions are pseudo-committed: the rank that the next one gets.
pub fn next_rank(book: &[u32]) -> u32
    requires { BookLong book.now }
    ensures { result ≡ pseudo_committed_count (decode base book.now) }
{
    let words = &book[layout::FIRST_STATUS..layout::FIRST_OBJECT];
    words.iter().filter(|status| **status > ACTIVE).count() as u32
}

pub fn set_status(book: &mut [u32], transaction: u32, status: u32)
    requires { Packed base book.old × (transaction < transaction_count) }
    ensures { book.new
        ≡ encode base (with_status transaction (read_status status) (decode base book.old)) }
{
    book[layout::FIRST_STATUS + transaction as usize] = status;
}

// A status once rank `out` is taken out.
fn lowered(status: u32, out: u32) -> u32
    ensures { result ≡ lowered_word out status }
{
    if status >= FIRST_RANK && status - FIRST_RANK > out {
        return status - 1;
    }
    status
}

// Ranks above `out` go down by one.
pub fn close_ranks(book: &mut [u32], out: u32)
    requires { Packed base book.old }
    ensures { book.new ≡ encode base (closed_up out (decode base book.old)) }
{
    for status in &mut book[layout::FIRST_STATUS..layout::FIRST_OBJECT] {
        *status = lowered(*status, out);
    }
}
