// Entries of the log found again: the first with an object and key represents those like it. Where values count, only
// modifies are looked at, and the first with an object, key and value represents those like it.
#![tactic(auto)]

ghost use Rattle.std.specs.Prelude.{◌≡◌, true, false, ◌↔◌, ◌+◌, ◌<◌, ℕ, List, MatchOption};
ghost use Rattle.store.specs.Layout.{word, base, decode, Packed};
ghost use Rattle.store.specs.Soundness.{EntriesLive, EntriesFit};
ghost use Rattle.representatives.specs.Representatives.{InLog, AlikeBy, FirstBy, RepresentativeBy, Represented};
ghost use Rattle.representatives.specs.Representatives.{Counted, slot_at, Chained, RepresentedBy, TwinBy};
ghost use Rattle.representatives.specs.Representatives.{written};

use layout::ENTRIES;

pub const CHAINS: usize = 256;

// The places of entries, and none.
pub const LINKS: usize = ENTRIES + 1;

const CHAIN_COUNT: u32 = CHAINS as u32;

// How far apart the chains of two objects begin.
const STRIDE: u32 = CHAIN_COUNT / layout::OBJECTS as u32;

// Whether two entries have one object and one key; where values count, one operation with one value too.
fn alike<const VALUED: bool>(book: &[u32], i: usize, j: usize) -> bool
    requires { InLog book.now i × InLog book.now j }
    ensures { (result ≡ true) ↔ AlikeBy VALUED book.now i j }
{
    if layout::entry_object(book, j) != layout::entry_object(book, i) {
        return false;
    }
    let logged = layout::entry_operation(book, j);
    let requested = layout::entry_operation(book, i);
    // Its number last: where values count, all in a chain have one.
    logged.key == requested.key
        && (!VALUED || (logged.value == requested.value && logged.number == requested.number))
}

// The chain that an entry is put in.
fn slot<const VALUED: bool>(book: &[u32], i: usize) -> usize
    requires { InLog book.now i }
    ensures { (result ≡ slot_at VALUED book.now i) × (result < 256) }
{
    let operation = layout::entry_operation(book, i);
    let object = layout::entry_object(book, i);
    let value = if VALUED { operation.value } else { 0 };
    ((operation.key % CHAIN_COUNT + STRIDE * object + value % CHAIN_COUNT) % CHAIN_COUNT) as usize
}

// The entry written at a place of a chain: its index plus one, or 0 for none, as an array of options is twice as large.
pub fn entry(place: u16) -> Option<usize>
    ensures { written result ≡ place }
{
    place.checked_sub(1).map(|index| index as usize)
}

// The representatives among the entries passed, in chains: `latest` has the last entry of each chain, `before` at the
// place of an entry the one before it. What holds of them is about a book, which they do not keep, so that contracts
// state it.
#[derive(Drop)]
pub struct Chains<const VALUED: bool> {
    latest: [u16; CHAINS],
    before: [u16; LINKS],
}

impl<const VALUED: bool> Chains<VALUED> {
    pub fn new() -> Self
        ensures { (w : List ℕ) → Chained VALUED w 0 result }
    {
        Chains {
            latest: [0; CHAINS],
            before: [0; LINKS],
        }
    }

    // The earlier entry that represents entry `i`.
    fn find(&self, book: &[u32], i: usize) -> Option<usize>
        requires { InLog book.now i × Counted VALUED book.now i × Chained VALUED book.now i self.now }
        ensures { MatchOption result (FirstBy VALUED book.now i)
            (λ j. (j < i) × RepresentativeBy VALUED book.now i j) }
    {
        let mut at = self.latest[slot::<VALUED>(book, i)];
        // By place, and not by the entry there, whose index would be worked out at each step.
        while at != 0 {
            if alike::<VALUED>(book, i, at as usize - 1) {
                break;
            }
            at = self.before[at as usize];
        }
        entry(at)
    }

    // Entry `i`, the first like it, becomes the latest of its chain.
    fn add(&mut self, book: &[u32], i: usize)
        requires { InLog book.now i × Counted VALUED book.now i × FirstBy VALUED book.now i
            × Chained VALUED book.now i self.old }
        ensures { Chained VALUED book.now (i + 1) self.new }
    {
        let at = slot::<VALUED>(book, i);
        self.before[i + 1] = self.latest[at];
        self.latest[at] = (i + 1) as u16;
    }

    // The entry that represents entry `i`: an earlier one, or itself, which is then put in its chain.
    fn represent(&mut self, book: &[u32], i: usize) -> usize
        requires { InLog book.now i × Counted VALUED book.now i × Chained VALUED book.now i self.old }
        ensures { RepresentedBy VALUED book.now i result self.new }
    {
        match self.find(book, i) {
            Some(j) => j,
            None => {
                self.add(book, i);
                i
            }
        }
    }
}

// Where entry `i` is a modify, the entry that represents it where values count.
pub fn twin(book: &[u32], i: usize, chains: &mut Chains<true>) -> usize
    requires { InLog book.now i × Chained true book.now i chains.old }
    ensures { TwinBy book.now i result chains.new }
{
    if layout::entry_operation(book, i).number != operations::MODIFY {
        return i;
    }
    chains.represent(book, i)
}

// The representative of each entry by object and key.
pub fn all(book: &[u32]) -> [u16; ENTRIES]
    requires { Packed base book.now × EntriesLive (decode base book.now) × EntriesFit (decode base book.now) }
    ensures { Represented book.now (word book.now 0) result }
{
    let count = layout::entry_count(book);
    let mut found = [0u16; ENTRIES];
    // An empty log needs no chains.
    if count == 0 {
        return found;
    }
    let mut chains = Chains::<false>::new();
    // By index, which is what an entry is known by.
    for i in 0..count {
        found[i] = chains.represent(book, i) as u16;
    }
    found
}
