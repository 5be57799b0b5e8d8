//! Products of items by plain numbers.
ghost use Rattle.std.specs.Prelude.{◌≡◌, ℕ, ◌+◌, ◌≤◌, ◌*ℤ◌};
ghost use Rattle.std.specs.Int.{int_min, int_max};
ghost use Rattle.apl_pool.specs.declared.kernel.TheConstants.{MOST_PLACES};
ghost use Rattle.apl_summary.specs.Coefficients.{IsHeld, held, AreCoefficients, coefficients_of_one, coefficients_of_both, products_keep_range, scaled_outcome};

use crate::range::{greater, is_in_range, lesser, narrow};
use apl_pool::Fault;

/// How far from 0 a coefficient may be.
const MOST_HELD: i128 = 9_223_372_036_854_775_809;

/// The coefficients of the partial results of some items, by which what comes in is multiplied. Here are how
/// many items there are, the coefficient of the whole result, and the least and the greatest of all. Each is
/// kept within 2^63 + 1 of 0.
#[derive(Clone, Copy)]
pub struct Coefficients {
    pub count: u32,
    pub total: i128,
    pub least: i128,
    pub greatest: i128,
}

fn product(a: i128, b: i128) -> i128
    requires { IsHeld a × IsHeld b }
    ensures { result ≡ a *ℤ b }
{
    a * b
}

fn hold(number: i128) -> i128
    ensures { result ≡ held number }
{
    lesser(greater(number, -MOST_HELD), MOST_HELD)
}

fn held_product(a: i128, b: i128) -> i128
    requires { IsHeld a × IsHeld b }
    ensures { result ≡ held (a *ℤ b) }
{
    hold(product(a, b))
}

impl Coefficients {
    /// The coefficients of one item.
    pub fn one(item: i64) -> Coefficients
        ensures { result ≡ coefficients_of_one item }
    {
        let item = i128::from(item);
        Coefficients {
            count: 1,
            total: item,
            least: item,
            greatest: item,
        }
    }

    fn total_beside(&self, right: &Coefficients) -> i128
        requires { AreCoefficients self.now × AreCoefficients right.now }
        ensures { result ≡ held (self.now.total *ℤ right.now.total) }
    {
        held_product(self.total, right.total)
    }

    fn least_beside(&self, right: &Coefficients) -> i128
        requires { AreCoefficients self.now × AreCoefficients right.now }
        ensures { result ≡ int_min right.now.least (int_min (held (self.now.least *ℤ right.now.total)) (held (self.now.greatest *ℤ right.now.total))) }
    {
        let first = held_product(self.least, right.total);
        let last = held_product(self.greatest, right.total);
        lesser(right.least, lesser(first, last))
    }

    fn greatest_beside(&self, right: &Coefficients) -> i128
        requires { AreCoefficients self.now × AreCoefficients right.now }
        ensures { result ≡ int_max right.now.greatest (int_max (held (self.now.least *ℤ right.now.total)) (held (self.now.greatest *ℤ right.now.total))) }
    {
        let first = held_product(self.least, right.total);
        let last = held_product(self.greatest, right.total);
        greater(right.greatest, greater(first, last))
    }

    /// The coefficients of these items followed by those of `right`.
    pub fn joined(&self, right: &Coefficients) -> Coefficients
        requires lawful { AreCoefficients self.now × AreCoefficients right.now }
        requires most { self.now.count + right.now.count ≤ MOST_PLACES }
        ensures { result ≡ coefficients_of_both self.now right.now }
    {
        Coefficients {
            count: self.count + right.count,
            total: self.total_beside(right),
            least: self.least_beside(right),
            greatest: self.greatest_beside(right),
        }
    }

    fn keep_range(&self, right: i128) -> bool
        requires { AreCoefficients self.now × IsHeld right }
        ensures { result ≡ products_keep_range self.now right }
    {
        is_in_range(product(self.least, right)) & is_in_range(product(self.greatest, right))
    }

    /// What the items do to the number that comes in.
    pub fn apply(&self, right: i64) -> Result<i64, Fault>
        requires { AreCoefficients self.now }
        ensures { result ≡ scaled_outcome self.now right }
    {
        let right = i128::from(right);
        if self.keep_range(right) {
            Ok(narrow(product(self.total, right)))
        } else {
            Err(Fault::Limit)
        }
    }
}
