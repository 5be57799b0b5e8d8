//! Sums of all numbers up to each, or differences, in numbers of 64 bits.
ghost use Rattle.std.specs.Prelude.{◌≡◌, ◌&&◌, ℕ, ℤ, pos, negsuc, ◌-ℤ◌, ◌+ℤ◌, ◌≤ℤ◌, [], Bool, true, false, not, nat_eq, IfSome, if◌then◌else◌};
ghost use Rattle.apl_pool.specs.Summaries.{IsI64};
ghost use Rattle.apl_summary.specs.Constants.{AreConstants, signed_outcome};
ghost use Rattle.apl_summary.specs.Fronts.{signed_total, mirrored, all_with_plus, sum_outcome, IsRunningSum};

use crate::constants::{Bounds, Constants};
use crate::range::{greater_of, lesser_of, narrow};
use crate::running::PrefixState;

/// The fold of numbers by `+` if `MINUS` is 0, else by `-`.
///
/// Each end of them is a constant and what comes in, with plus or with minus. A constant with minus is kept as -1 minus it,
/// since that with plus refuses the same. Of these are the least and the greatest, of which one is of no number.
#[derive(Clone, Copy)]
pub struct RunningSum<const MINUS: u8> {
    pub total: i64,
    /// Whether the next number is taken from the total.
    pub is_negated: bool,
    pub least: i64,
    pub greatest: i64,
}

/// The sum of two numbers, if it is in the range.
#[inline(always)]
fn sum(a: i64, b: i64) -> Option<i64>
    ensures value { IfSome result (λ z. z ≡ a +ℤ b) }
    ensures range { IfSome result (λ z. IsI64 z) }
{
    a.checked_add(b)
}

/// The total plus a number, or minus it, if that is in the range.
#[inline(always)]
fn total_with(is_negated: bool, total: i64, number: i64) -> Option<i64>
    ensures { IfSome result (λ z. z ≡ signed_total is_negated total number) }
{
    if is_negated {
        total.checked_sub(number)
    } else {
        total.checked_add(number)
    }
}

/// Whether the sign is minus, which under `+` it never is.
#[inline(always)]
pub fn is_minus(is_plus: bool, is_negated: bool) -> bool
    ensures { result ≡ (not is_plus && is_negated) }
{
    !is_plus & is_negated
}

/// The bound of the ends of numbers and one more, from the same bound and the opposite one of these with that number added.
#[inline(always)]
fn next_bound(is_plus: bool, same: i64, opposite: i64) -> i64
    ensures { result ≡ (if is_plus then same else (negsuc 0 -ℤ opposite)) }
{
    if is_plus { same } else { -1 - opposite }
}

/// The constant with plus that refuses what this one does with minus.
fn mirror(constant: i128) -> i128
    ensures { result ≡ negsuc 0 -ℤ constant }
{
    -1 - constant
}

fn mirrored(bounds: &Bounds) -> Bounds
    ensures { result ≡ mirrored bounds.now }
{
    Bounds {
        least: mirror(bounds.greatest),
        greatest: mirror(bounds.least),
    }
}

/// The bounds of all constants, those with minus mirrored.
fn all_with_plus(constants: &Constants) -> Bounds
    ensures { result ≡ all_with_plus constants.now }
{
    constants.plus.with(&mirrored(&constants.minus))
}

impl<const MINUS: u8> RunningSum<MINUS> {
    /// The running sum of no number.
    pub fn none() -> Self
        ensures { IsRunningSum (nat_eq MINUS 0) result.is_negated result.total result.least result.greatest [] }
    {
        RunningSum {
            total: 0,
            is_negated: false,
            least: 0,
            greatest: 0,
        }
    }

    /// The running sum of the numbers of which these are the constants, if all of these are in the range.
    pub fn of(constants: &Constants) -> Option<Self>
        requires { AreConstants (nat_eq MINUS 0) constants.now }
        ensures only_plus { IfSome result (λ s. nat_eq MINUS 0 ≡ true → s.is_negated ≡ false) }
        ensures least { IfSome result (λ s. s.least ≤ℤ pos 0) }
        ensures greatest { IfSome result (λ s. pos 0 ≤ℤ s.greatest) }
        ensures outcome { IfSome result (λ s. (right : ℤ) → IsI64 right → signed_outcome constants.now right ≡ sum_outcome s.is_negated s.total s.least s.greatest right) }
    {
        let bounds = all_with_plus(constants);
        if !bounds.are_in_range() || bounds.least > 0 || bounds.greatest < 0 {
            return None;
        }
        Some(RunningSum {
            total: narrow(constants.total),
            is_negated: constants.is_negated,
            least: narrow(bounds.least),
            greatest: narrow(bounds.greatest),
        })
    }
}

impl<const MINUS: u8> PrefixState for RunningSum<MINUS> {
    ghost use Rattle.std.specs.Prelude.{nat_eq};
    ghost use Rattle.apl_scalar.specs.Scalar.{dyadic_numbers};
    ghost use Rattle.apl_summary.specs.Constants.{signed_function};
    ghost use Rattle.apl_summary.specs.Fronts.{IsRunningSum};

    ghost step = { dyadic_numbers (signed_function (nat_eq MINUS 0)) };

    ghost is_of = { λ s. IsRunningSum (nat_eq MINUS 0) s.is_negated s.total s.least s.greatest };

    #[inline(always)]
    fn with(&self, number: i64) -> Option<(i64, Self)> {
        let low = sum(self.least, number)?;
        let high = sum(self.greatest, number)?;
        let subtracts = is_minus(MINUS == 0, self.is_negated);
        let total = total_with(subtracts, self.total, number)?;
        let is_negated = is_minus(MINUS == 0, !self.is_negated);
        let least = next_bound(MINUS == 0, low, high);
        let greatest = next_bound(MINUS == 0, high, low);
        Some((
            total,
            RunningSum {
                total,
                is_negated,
                least: lesser_of(least, 0),
                greatest: greater_of(greatest, 0),
            },
        ))
    }
}
