//! The sums of consecutive items by plain numbers.
ghost use Rattle.std.specs.Prelude.{◌≡◌, ℕ, ◌+◌, ◌≤◌, ◌+ℤ◌};
ghost use Rattle.apl_pool.specs.declared.kernel.TheConstants.{MOST_PLACES};
ghost use Rattle.apl_summary.specs.Constants.{bounds, raised, of_both, are_in_range};
ghost use Rattle.apl_summary.specs.ConsecutiveSums.{AreBoundsWithin94Bits, AreSumsWithin94Bits, sums_of_one, sums_of_both, across};

use crate::constants::{Bounds, sum};

/// The number of items, their total, and the least and the greatest sum of a beginning, of an end and of
/// consecutive items. None of these is empty.
#[derive(Clone, Copy)]
pub struct ConsecutiveSums {
    pub count: u32,
    pub total: i128,
    pub beginnings: Bounds,
    pub ends: Bounds,
    pub all: Bounds,
}

/// The bounds of the sums of an end of the left items and a beginning of the right ones.
fn across(ends: &Bounds, beginnings: &Bounds) -> Bounds
    requires { AreBoundsWithin94Bits ends.now × AreBoundsWithin94Bits beginnings.now }
    ensures { result ≡ across ends.now beginnings.now }
{
    Bounds {
        least: sum(ends.least, beginnings.least),
        greatest: sum(ends.greatest, beginnings.greatest),
    }
}

impl ConsecutiveSums {
    /// The sums of one item.
    pub fn one(item: i64) -> ConsecutiveSums
        ensures { result ≡ sums_of_one item }
    {
        let item = i128::from(item);
        let only = Bounds::of(item);
        ConsecutiveSums {
            count: 1,
            total: item,
            beginnings: only,
            ends: only,
            all: only,
        }
    }

    fn total_beside(&self, right: &ConsecutiveSums) -> i128
        requires { AreSumsWithin94Bits self.now × AreSumsWithin94Bits right.now }
        ensures { result ≡ self.now.total +ℤ right.now.total }
    {
        sum(self.total, right.total)
    }

    fn beginnings_beside(&self, right: &ConsecutiveSums) -> Bounds
        requires { AreSumsWithin94Bits self.now × AreSumsWithin94Bits right.now }
        ensures { result ≡ of_both self.now.beginnings (raised right.now.beginnings self.now.total) }
    {
        self.beginnings.with(&right.beginnings.raised(self.total))
    }

    fn ends_beside(&self, right: &ConsecutiveSums) -> Bounds
        requires { AreSumsWithin94Bits self.now × AreSumsWithin94Bits right.now }
        ensures { result ≡ of_both right.now.ends (raised self.now.ends right.now.total) }
    {
        right.ends.with(&self.ends.raised(right.total))
    }

    fn all_beside(&self, right: &ConsecutiveSums) -> Bounds
        requires { AreSumsWithin94Bits self.now × AreSumsWithin94Bits right.now }
        ensures { result ≡ of_both (of_both self.now.all right.now.all) (across self.now.ends right.now.beginnings) }
    {
        let within = self.all.with(&right.all);
        within.with(&across(&self.ends, &right.beginnings))
    }

    /// The sums of these items followed by those of `right`.
    pub fn joined(&self, right: &ConsecutiveSums) -> ConsecutiveSums
        requires within { AreSumsWithin94Bits self.now × AreSumsWithin94Bits right.now }
        requires most { self.now.count + right.now.count ≤ MOST_PLACES }
        ensures { result ≡ sums_of_both self.now right.now }
    {
        ConsecutiveSums {
            count: self.count + right.count,
            total: self.total_beside(right),
            beginnings: self.beginnings_beside(right),
            ends: self.ends_beside(right),
            all: self.all_beside(right),
        }
    }

    /// Whether each sum of consecutive items is in the range.
    pub fn are_in_range(&self) -> bool
        ensures { result ≡ are_in_range self.now.all }
    {
        self.all.are_in_range()
    }
}
