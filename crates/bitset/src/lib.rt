// Sets of 64 transactions (document 01: "a set of 64 bits" of handouts).
#![tactic(auto)]

ghost use Rattle.std.specs.Prelude.{◌≡◌, ◌&&◌, ◌||◌, not, ◌<◌, eqb};
ghost use Rattle.std.specs.Iterator.{item_count};
ghost use Rattle.bitset.specs.Bitset.{has, Members, Lowest, size as Size};
ghost use Rattle.bitset.specs.Walk.{Steps, left};

// The set of one transaction.
pub fn single(transaction: u32) -> u64
    requires { transaction < 64 }
    ensures { Members result (λ h. eqb h transaction) }
{
    1u64 << transaction
}

// The union.
pub fn join(a: u64, b: u64) -> u64
    ensures { Members result (λ h. has a h || has b h) }
{
    a | b
}

// The intersection.
pub fn meet(a: u64, b: u64) -> u64
    ensures { Members result (λ h. has a h && has b h) }
{
    a & b
}

// The members of the first that are not in the second.
pub fn difference(a: u64, b: u64) -> u64
    ensures { Members result (λ h. has a h && not (has b h)) }
{
    a & !b
}

// Whether the transaction is a member.
pub fn contains(set: u64, transaction: u32) -> bool
    requires { transaction < 64 }
    ensures { result ≡ has set transaction }
{
    (set >> transaction) & 1 == 1
}

// The set without one transaction.
pub fn without(set: u64, transaction: u32) -> u64
    requires { transaction < 64 }
    ensures { Members result (λ h. has set h && not (eqb h transaction)) }
{
    difference(set, single(transaction))
}

// The lowest member of a set that has one.
pub fn lowest(set: u64) -> u32
    requires { set ≡ 0 → ⊥ }
    ensures { Lowest set result }
{
    u64::trailing_zeros(set)
}

// How many members the set has.
pub fn size(set: u64) -> u32
    ensures { result ≡ Size set }
{
    u64::count_ones(set)
}

// A walk over the members of a set, ascending by trailing zeros, as the paper says it: the set of those that are still
// to come.
#[derive(Drop)]
pub struct Walk {
    pub set: u64,
}

// The members one by one, for a loop.
pub fn members(set: u64) -> Walk
    ensures { result.set ≡ set }
{
    Walk { set }
}

impl Iterator for Walk {
    type Item = u32;

    ghost next_gives = { Steps };

    ghost remaining = { item_count left };

    fn next(&mut self) -> Option<u32> {
        if self.set == 0 {
            return None;
        }
        let member = lowest(self.set);
        self.set = without(self.set, member);
        Some(member)
    }
}
