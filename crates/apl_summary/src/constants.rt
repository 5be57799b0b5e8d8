//! Sums and differences of items by plain numbers.
ghost use Rattle.std.specs.Prelude.{◌≡◌, ℕ, ◌+◌, ◌≤◌, ◌+ℤ◌, ◌-ℤ◌, ◌&&◌, Bool, if◌then◌else◌};
ghost use Rattle.apl_pool.specs.declared.kernel.TheConstants.{MOST_PLACES};
ghost use Rattle.apl_summary.specs.Constants.{bounds, IsWithin94Bits, AreWithin94Bits, AreConstants, raised, lowered, of_both, are_in_range, keeps_range, constants_of_one, constants_of_both, signed_outcome};

use crate::range::{are_in_range, greater, lesser, narrow};
use apl_pool::Fault;

/// The least and the greatest of some constants.
#[derive(Clone, Copy)]
pub struct Bounds {
    pub least: i128,
    pub greatest: i128,
}

/// The constants of the partial results of some items, each of which is a constant plus what comes in, or a
/// constant minus it. `total` is the constant of the whole result, and `is_negated` says whether that has minus.
/// `plus` and `minus` are the bounds of the constants with plus and of those with minus.
///
/// 0 counts as one with plus, for what comes in itself. Under `+` there are none with minus, and both
/// bounds there are -1, which no number that comes in takes out of the range.
#[derive(Clone, Copy)]
pub struct Constants {
    pub count: u32,
    pub is_negated: bool,
    pub total: i128,
    pub plus: Bounds,
    pub minus: Bounds,
}

pub fn sum(a: i128, b: i128) -> i128
    requires { IsWithin94Bits a × IsWithin94Bits b }
    ensures { result ≡ a +ℤ b }
{
    a + b
}

fn difference(a: i128, b: i128) -> i128
    requires { IsWithin94Bits a × IsWithin94Bits b }
    ensures { result ≡ a -ℤ b }
{
    a - b
}

impl Bounds {
    /// The bounds of one constant.
    pub fn of(constant: i128) -> Bounds
        ensures { result ≡ bounds constant constant }
    {
        Bounds {
            least: constant,
            greatest: constant,
        }
    }

    /// Whether all constants are in the range.
    pub fn are_in_range(&self) -> bool
        ensures { result ≡ are_in_range self.now }
    {
        are_in_range(self.least, self.greatest)
    }

    /// The bounds of the constants plus `by`.
    pub fn raised(&self, by: i128) -> Bounds
        requires { IsWithin94Bits self.now.least × IsWithin94Bits self.now.greatest × IsWithin94Bits by }
        ensures { result ≡ raised self.now by }
    {
        Bounds {
            least: sum(self.least, by),
            greatest: sum(self.greatest, by),
        }
    }

    /// The bounds of the constants minus `by`.
    fn lowered(&self, by: i128) -> Bounds
        requires { IsWithin94Bits self.now.least × IsWithin94Bits self.now.greatest × IsWithin94Bits by }
        ensures { result ≡ lowered self.now by }
    {
        Bounds {
            least: difference(self.least, by),
            greatest: difference(self.greatest, by),
        }
    }

    /// The bounds of the constants of both.
    pub fn with(&self, other: &Bounds) -> Bounds
        ensures { result ≡ of_both self.now other.now }
    {
        Bounds {
            least: lesser(self.least, other.least),
            greatest: greater(self.greatest, other.greatest),
        }
    }
}

impl Constants {
    /// The constants of one item.
    pub fn one(is_plus: bool, item: i64) -> Constants
        ensures { result ≡ constants_of_one is_plus item }
    {
        let item = i128::from(item);
        let zero = Bounds::of(0);
        if is_plus {
            Constants {
                count: 1,
                is_negated: false,
                total: item,
                plus: zero.with(&Bounds::of(item)),
                minus: Bounds::of(-1),
            }
        } else {
            Constants {
                count: 1,
                is_negated: true,
                total: item,
                plus: zero,
                minus: Bounds::of(item),
            }
        }
    }

    fn total_beside(&self, right: &Constants) -> i128
        requires { IsWithin94Bits self.now.total × IsWithin94Bits right.now.total }
        ensures { result ≡ if self.now.is_negated then self.now.total -ℤ right.now.total else self.now.total +ℤ right.now.total }
    {
        if self.is_negated {
            difference(self.total, right.total)
        } else {
            sum(self.total, right.total)
        }
    }

    fn plus_beside(&self, right: &Constants) -> Bounds
        requires { AreWithin94Bits self.now × AreWithin94Bits right.now }
        ensures { result ≡ of_both right.now.plus (if right.now.is_negated then lowered self.now.minus right.now.total else raised self.now.plus right.now.total) }
    {
        if right.is_negated {
            right.plus.with(&self.minus.lowered(right.total))
        } else {
            right.plus.with(&self.plus.raised(right.total))
        }
    }

    fn minus_beside(&self, right: &Constants) -> Bounds
        requires { AreWithin94Bits self.now × AreWithin94Bits right.now }
        ensures { result ≡ of_both right.now.minus (if right.now.is_negated then raised self.now.plus right.now.total else lowered self.now.minus right.now.total) }
    {
        if right.is_negated {
            right.minus.with(&self.plus.raised(right.total))
        } else {
            right.minus.with(&self.minus.lowered(right.total))
        }
    }

    /// The constants of these items followed by those of `right`.
    pub fn joined(&self, is_plus: bool, right: &Constants) -> Constants
        requires within { AreWithin94Bits self.now × AreWithin94Bits right.now }
        requires most { self.now.count + right.now.count ≤ MOST_PLACES }
        ensures { result ≡ constants_of_both is_plus self.now right.now }
    {
        Constants {
            count: self.count + right.count,
            is_negated: if self.is_negated {
                !right.is_negated
            } else {
                right.is_negated
            },
            total: self.total_beside(right),
            plus: self.plus_beside(right),
            minus: if is_plus {
                right.minus
            } else {
                self.minus_beside(right)
            },
        }
    }

    fn keeps_range(&self, right: i128) -> bool
        requires { AreWithin94Bits self.now × IsWithin94Bits right }
        ensures { result ≡ keeps_range self.now right }
    {
        self.plus.raised(right).are_in_range() & self.minus.lowered(right).are_in_range()
    }

    fn whole(&self, right: i128) -> i128
        requires { AreWithin94Bits self.now × IsWithin94Bits right }
        ensures { result ≡ if self.now.is_negated then self.now.total -ℤ right else self.now.total +ℤ right }
    {
        if self.is_negated {
            difference(self.total, right)
        } else {
            sum(self.total, right)
        }
    }

    /// What the items do to the number that comes in.
    pub fn apply(&self, right: i64) -> Result<i64, Fault>
        requires lawful { (is_plus : Bool) × AreConstants is_plus self.now }
        requires within { AreWithin94Bits self.now }
        ensures { result ≡ signed_outcome self.now right }
    {
        let right = i128::from(right);
        if self.keeps_range(right) {
            Ok(narrow(self.whole(right)))
        } else {
            Err(Fault::Limit)
        }
    }
}
