//! The summary of a list by the sums of its consecutive items.
ghost use Rattle.std.specs.Prelude.{◌≡◌, ℕ, ℤ, ◌+◌, ◌≤◌, ◌↔◌, List, [], ◌∷◌, ◌++◌, All, length, true};
ghost use Rattle.apl_pool.specs.declared.kernel.TheConstants.{MOST_PLACES};
ghost use Rattle.apl_pool.specs.Summaries.{IsI64};
ghost use Rattle.apl_summary.specs.ConsecutiveSums.{AreConsecutiveSums, AreSumsOf, IsLawful, HasSums};

use crate::consecutive_sums::ConsecutiveSums;

/// The summary of a list by the sums of its consecutive items. It has the number of items, their total, and the
/// least and the greatest sum of a beginning, of an end and of consecutive items. Those of two neighbouring
/// lists are joined to that of both.
#[derive(Clone, Copy)]
pub struct Consecutive {
    sums: ConsecutiveSums,
    ghost lawful: { AreConsecutiveSums sums },
}

impl Consecutive {
    /// The summary of one item. It takes no memory.
    pub fn one(item: i64) -> Self
        ensures count { result.sums.count ≡ 1 }
        ensures list { AreSumsOf result.sums (item ∷ []) }
    {
        Consecutive {
            sums: ConsecutiveSums::one(item),
        }
    }

    /// The summary of the items of `left`, and then those of `right`. It takes no memory.
    pub fn join(left: &Self, right: &Self) -> Self
        requires { left.now.sums.count + right.now.sums.count ≤ MOST_PLACES }
        ensures count { result.sums.count ≡ left.now.sums.count + right.now.sums.count }
        ensures list { (xs ys : List ℤ) → AreSumsOf left.now.sums xs → AreSumsOf right.now.sums ys → AreSumsOf result.sums (xs ++ ys) }
    {
        Consecutive {
            sums: left.sums.joined(&right.sums),
        }
    }

    /// How many items there are.
    pub fn items(&self) -> u32
        ensures count { result ≡ self.now.sums.count }
        ensures list { (xs : List ℤ) → AreSumsOf self.now.sums xs → result ≡ length xs }
    {
        self.sums.count
    }

    /// Whether each sum of consecutive items is in the range. This is so exactly if none of their running sums
    /// is refused, each of which is folded from the right.
    pub fn lawful(&self) -> bool
        ensures list { (xs : List ℤ) → AreSumsOf self.now.sums xs → (result ≡ true) ↔ IsLawful xs }
        ensures running { (xs : List ℤ) → AreSumsOf self.now.sums xs → All IsI64 xs → (result ≡ true) ↔ HasSums xs }
    {
        self.sums.are_in_range()
    }
}
