//! Sums of all numbers up to each, or differences, while the numbers are so small together that none is refused.
ghost use Rattle.std.specs.Prelude.{◌≡◌, ℕ, ℤ, pos, neg_ℤ, ◌-ℤ◌, ◌+◌, ◌≤ℤ◌, ◌≤◌, [], nat_eq, IfSome, length, map, vec_len, vec_capacity};
ghost use Rattle.apl_pool.specs.Summaries.{IsI64};
ghost use Rattle.apl_scalar.specs.Scalar.{dyadic_numbers};
ghost use Rattle.apl_summary.specs.Constants.{signed_function};
ghost use Rattle.apl_summary.specs.Running.{HasFoldsAppended};
ghost use Rattle.apl_summary.specs.Fronts.{signed_total, IsBoundedSum, IsBoundOf, AreSumsAfter};

use crate::range::{greater_of, lesser_of};
use crate::running::{PrefixState, append_scan_after, scan_run_after};
use crate::running_sum::{RunningSum, is_minus};
use apl_answer::Numeric;

/// The fold of numbers by `+` if `MINUS` is 0, else by `-`. Beside it is how far the fold of every end stays within the range.
#[derive(Clone, Copy)]
pub struct BoundedSum<const MINUS: u8> {
    total: i64,
    /// Whether the next number is taken from the total.
    is_negated: bool,
    /// A number of at most this magnitude after them is not refused.
    slack: i64,
    ghost some: { pos 0 ≤ℤ slack },
    ghost least: { (slack -ℤ pos 9223372036854775807) ≤ℤ total },
    ghost greatest: { total ≤ℤ (pos 9223372036854775807 -ℤ slack) },
}

/// A number's magnitude, if that is at most a bound.
#[inline(always)]
fn magnitude_within(number: i64, most: i64) -> Option<i64>
    requires { pos 0 ≤ℤ most }
    ensures most { IfSome result (λ m. m ≤ℤ most) }
    ensures least { IfSome result (λ m. neg_ℤ m ≤ℤ number) }
    ensures greatest { IfSome result (λ m. number ≤ℤ m) }
{
    let magnitude = number.unsigned_abs();
    if magnitude > most as u64 {
        return None;
    }
    Some(magnitude as i64)
}

/// How far the numbers from one that is not above 0 to one that is not below 0 are within the range.
fn slack_between(least: i64, greatest: i64) -> Option<i64>
    ensures some { IfSome result (λ s. pos 0 ≤ℤ s) }
    ensures least { IfSome result (λ s. (s -ℤ pos 9223372036854775807) ≤ℤ least) }
    ensures greatest { IfSome result (λ s. greatest ≤ℤ (pos 9223372036854775807 -ℤ s)) }
{
    if least == i64::MIN || least > 0 || greatest < 0 {
        return None;
    }
    Some((i64::MAX + least).min(i64::MAX - greatest))
}

/// The total plus a number, or minus it.
#[inline(always)]
fn total_with(is_negated: bool, total: i64, number: i64) -> i64
    requires { IsI64 (signed_total is_negated total number) }
    ensures { result ≡ signed_total is_negated total number }
{
    if is_negated {
        total - number
    } else {
        total + number
    }
}

impl<const MINUS: u8> BoundedSum<MINUS> {
    /// The bounded sum of no number.
    pub fn none() -> Self
        ensures { IsBoundedSum (nat_eq MINUS 0) result.is_negated result.total result.slack [] }
    {
        BoundedSum {
            total: 0,
            is_negated: false,
            slack: i64::MAX,
        }
    }

    /// The bounded sum of the numbers of this running sum, if it can be told.
    fn of(sum: &RunningSum<MINUS>) -> Option<Self>
        ensures { IfSome result (λ s. IsBoundOf (nat_eq MINUS 0) sum.now.is_negated sum.now.total sum.now.least sum.now.greatest s.is_negated s.total s.slack) }
    {
        let least = lesser_of(sum.least, sum.total);
        let greatest = greater_of(sum.greatest, sum.total);
        let slack = slack_between(least, greatest)?;
        Some(BoundedSum {
            total: sum.total,
            is_negated: sum.is_negated,
            slack,
        })
    }
}

impl<const MINUS: u8> PrefixState for BoundedSum<MINUS> {
    ghost use Rattle.std.specs.Prelude.{nat_eq};
    ghost use Rattle.apl_scalar.specs.Scalar.{dyadic_numbers};
    ghost use Rattle.apl_summary.specs.Constants.{signed_function};
    ghost use Rattle.apl_summary.specs.Fronts.{IsBoundedSum};

    ghost step = { dyadic_numbers (signed_function (nat_eq MINUS 0)) };

    ghost is_of = { λ s. IsBoundedSum (nat_eq MINUS 0) s.is_negated s.total s.slack };

    #[inline(always)]
    fn with(&self, number: i64) -> Option<(i64, Self)> {
        let magnitude = magnitude_within(number, self.slack)?;
        let subtracts = is_minus(MINUS == 0, self.is_negated);
        let total = total_with(subtracts, self.total, number);
        let is_negated = is_minus(MINUS == 0, !self.is_negated);
        let slack = self.slack - magnitude;
        Some((
            total,
            BoundedSum {
                total,
                is_negated,
                slack,
            },
        ))
    }
}

/// Puts into the room the folds by `+` or `-` of all numbers up to each of these. The numbers of the running sum come
/// before these. It stops before the first fold that it can't tell, and answers how many it put.
pub fn put_sums_behind<const MINUS: u8>(
    front: RunningSum<MINUS>,
    numbers: &[i64],
    room: &mut [i64],
) -> usize
    requires { length numbers.now ≡ length room.old }
    ensures most { result ≤ length room.old }
    ensures folds { AreSumsAfter (nat_eq MINUS 0) front.entry.is_negated front.entry.total front.entry.least front.entry.greatest numbers.now result room.new }
    ensures len { length room.new ≡ length room.old }
{
    if let Some(bounded) = BoundedSum::<MINUS>::of(&front) {
        let done = scan_run_after(bounded, numbers, room);
        if done == room.len() {
            return done;
        }
    }
    scan_run_after(front, numbers, room)
}

/// Appends the folds by `+` or `-` of all numbers up to each of these to a list that has room for them. It stops before the first that it
/// can't tell.
pub fn append_sums<const MINUS: u8, T: Numeric>(numbers: &[T], values: Vec<i64>) -> Vec<i64>
    requires room { vec_len values + length numbers.now ≤ vec_capacity values }
    ensures most { vec_len result ≤ vec_len values + length numbers.now }
    ensures folds { HasFoldsAppended (dyadic_numbers (signed_function (nat_eq MINUS 0))) (map T.number_in numbers.now) values.items result.items }
    ensures capacity { vec_capacity result ≡ vec_capacity values }
{
    let start = values.len();
    let mut values = append_scan_after(BoundedSum::<MINUS>::none(), numbers, values);
    if values.len() == start + numbers.len() {
        return values;
    }
    values.truncate(start);
    append_scan_after(RunningSum::<MINUS>::none(), numbers, values)
}
