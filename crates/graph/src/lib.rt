// The graph of commit dependencies (document 000, section 4.1), as the sets of those on whom each transaction depends:
// an edge leads from a transaction to one that it depends on.
#![tactic(auto)]

ghost use Rattle.std.specs.Prelude.{◌≡◌, Bool, true, ◌↔◌, ℕ, ◌<◌};
ghost use Rattle.store.specs.Store.{transaction_count};
ghost use Rattle.bitset.specs.Bitset.{In, Holds};
ghost use Rattle.store.specs.Dependency.{Way, Predecessor, Successor};
ghost use Rattle.graph.specs.Edges.{EdgeIn, Leading, Near, Reversed};

use layout::TRANSACTIONS;

// ---- Predecessors and successors (document 000, section 4.2.1)

// Who, among these, depends on a member of the set.
fn near_predecessors(edges: &[u64; TRANSACTIONS], among: u64, set: u64) -> u64
    ensures { Holds result (Near (Reversed (EdgeIn edges.now)) among set) }
{
    let mut found = 0;
    for transaction in bitset::members(among) {
        if bitset::meet(edges[transaction as usize], set) != 0 {
            found = bitset::join(found, bitset::single(transaction));
        }
    }
    found
}

// On whom, among these, a member of the set depends.
fn near_successors(edges: &[u64; TRANSACTIONS], among: u64, set: u64) -> u64
    ensures { Holds result (Near (EdgeIn edges.now) among set) }
{
    let mut found = 0;
    for transaction in bitset::members(set) {
        found = bitset::join(found, edges[transaction as usize]);
    }
    bitset::meet(found, among)
}

// Those to which a way leads from the transaction, through finished ones only, but for itself. `near` answers to whom,
// among the first set, an edge leads from a member of the second. Found are the near ones of the transaction and of
// those found before, until there are no more.
fn gathered<F: Fn(u64, u64) -> u64>(near: F, finished: u64, transaction: u32) -> u64
    ghost edge: { ℕ → ℕ → Bool }
    requires callable { F.IsAlwaysCallable near }
    requires answers { (among set found : ℕ) → F.post near among set found
        → Holds found (Near (Leading edge) among set) }
    requires within { transaction < transaction_count }
    ensures { Holds result (Successor (Leading edge) (In finished) transaction) }
{
    let own = bitset::single(transaction);
    let others = bitset::without(finished, transaction);
    let mut found = 0;
    loop {
        let more = near(others, bitset::join(found, own));
        if more == found {
            return found;
        }
        found = more;
    }
}

// PRED: the other finished ones that depend on the transaction, near and far, through finished ones only.
pub fn predecessors(edges: &[u64; TRANSACTIONS], finished: u64, transaction: u32) -> u64
    requires { transaction < transaction_count }
    ensures { Holds result (Predecessor (EdgeIn edges.now) (In finished) transaction) }
{
    gathered(
        |among, set| near_predecessors(edges, among, set),
        finished,
        transaction,
    )
}

// SUCC: likewise, the other finished ones on whom the transaction depends.
pub fn successors(edges: &[u64; TRANSACTIONS], finished: u64, transaction: u32) -> u64
    requires { transaction < transaction_count }
    ensures { Holds result (Successor (EdgeIn edges.now) (In finished) transaction) }
{
    gathered(
        |among, set| near_successors(edges, among, set),
        finished,
        transaction,
    )
}

// ---- What soundness asks of the finished ones

// Whether they form no cycle: those that depend on none of those left are left out, until there are none such. Where
// somebody is left then, there is a cycle.
pub fn acyclic(edges: &[u64; TRANSACTIONS], finished: u64) -> bool
    ensures { (result ≡ true)
        ↔ ((t : ℕ) → In finished t → Way (EdgeIn edges.now) (In finished) transaction_count t t → ⊥) }
{
    let mut left = finished;
    loop {
        let held = near_predecessors(edges, left, left);
        if held == left {
            return left == 0;
        }
        left = held;
    }
}

// Whether each depends on somebody.
pub fn dependent(edges: &[u64; TRANSACTIONS], finished: u64) -> bool
    ensures { (result ≡ true) ↔ ((t : ℕ) → In finished t → (u : ℕ) × EdgeIn edges.now t u) }
{
    for transaction in bitset::members(finished) {
        if ready(edges, transaction) {
            return false;
        }
    }
    true
}

// ---- Readiness

// Whether the transaction depends on nobody.
pub fn ready(edges: &[u64; TRANSACTIONS], transaction: u32) -> bool
    requires { transaction < transaction_count }
    ensures { (result ≡ true) ↔ ((u : ℕ) → EdgeIn edges.now transaction u → ⊥) }
{
    edges[transaction as usize] == 0
}
