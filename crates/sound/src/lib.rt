// Whether a book is sound. Every call but set up asks this first.
#![tactic(auto)]

ghost use Rattle.std.specs.Prelude.{◌≡◌, true, ◌↔◌, ℕ, replicate, IsSome};
ghost use Rattle.store.specs.Store.{transaction_count};
ghost use Rattle.store.specs.Layout.{base};
ghost use Rattle.store.specs.Soundness.{Sound};
ghost use Rattle.sound.specs.Examined.{Bounded, Examined};

use layout::TRANSACTIONS;

// The length, the ranges of the objects and of the number of entries, and zeros.
fn bounded(book: &[u32]) -> bool
    ensures { (result ≡ true) ↔ Bounded book.now }
{
    book.len() == layout::WORDS && objects::packed(book) && entry_log::bounded(book)
}

// Of a sound book, who is pseudo-committed; of another, None. The sets, empty before, become those of a sound book's
// dependencies.
pub fn examined(book: &[u32], edges: &mut [u64; TRANSACTIONS]) -> Option<u64>
    requires { edges.old ≡ replicate transaction_count 0 }
    ensures sound { IsSome result ↔ Sound base book.now }
    ensures found { (finished : ℕ) → result ≡ Some finished → Examined book.now finished edges.new }
{
    if !bounded(book) || !objects::formed(book) {
        return None;
    }
    let summary = statuses::statuses(book);
    if !summary.ranked || !entry_log::fits(book, summary.live) {
        return None;
    }
    let representatives = representatives::all(book);
    if !states::answered(book, &representatives)
        || !dependencies::conflicts(book, &representatives, edges)
        || !graph::acyclic(edges, summary.finished)
        || !graph::dependent(edges, summary.finished)
    {
        return None;
    }
    Some(summary.finished)
}

// Whether the words are a sound book, whatever their number and contents.
pub fn sound(book: &[u32]) -> bool
    ensures { (result ≡ true) ↔ Sound base book.now }
{
    let mut edges = [0u64; TRANSACTIONS];
    examined(book, &mut edges).is_some()
}
