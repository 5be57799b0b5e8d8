//! Right folds of neighbouring numbers by `+ - × ⌈ ⌊ ∧ ∨`, run by run from the last one.
ghost use Rattle.std.specs.Prelude.{◌≡◌, ℕ, ℤ, List, ◌+◌, ◌*◌, ◌<◌, ◌≤◌, ◌+ℤ◌, IfSome, Ok, length, map};
ghost use Rattle.apl_array.specs.declared.array.Elem.TheVariants.{Int};
ghost use Rattle.apl_array.specs.declared.function.ScalarFunction.{ScalarFunction};
ghost use Rattle.apl_pool.specs.declared.kernel.TheConstants.{MOST_PLACES};
ghost use Rattle.apl_reduce.specs.declared.four.Four.{Four};
ghost use Rattle.apl_reduce.specs.declared.near_sums.TheConstants.{MOST_QUARTER};
ghost use Rattle.apl_reduce.specs.Folded.{folded_onto};
ghost use Rattle.apl_reduce.specs.FourFolds.{AreRuns, AreFourFolds, IsChange, AreChanges};
ghost use Rattle.apl_reduce.specs.Items.{item_in};

use crate::bit_folds::bit_fold;
use crate::extreme_folds::{Greatest, Least, each_extreme, extreme_onto};
use crate::folding::fold_items;
use crate::four::Four;
use crate::near_sums::{
    MOST_PAIRS, MOST_QUARTER, NEAR, NEAR_TOTAL, NearSum, quarters_added, quarters_turned,
    runs_added, runs_turned,
};
use crate::sign_folds::sign_onto;
use apl_answer::{Numeric, elements_are_numbers};
use apl_array::ScalarFunction;
use apl_pool::Fault;
use apl_scalar::function_types::Function;

/// The sum of two numbers, if it is in the range.
#[inline(always)]
fn checked_sum(x: i64, y: i64) -> Option<i64>
    ensures { IfSome result (λ z. z ≡ x +ℤ y) }
{
    x.checked_add(y)
}

/// The total with what near numbers add to it, if these and the total are so near 0 that no step leaves the range.
#[inline(always)]
fn near_total(change: NearSum, total: i64) -> Option<i64>
    ensures { IfSome result (λ z. (f : ScalarFunction) (numbers : List ℤ) (first count : ℕ) → IsChange f numbers first count change
        → folded_onto f (item_in (map Int numbers)) first count (Ok total) ≡ Ok z) }
{
    if change.bits >= 2 * NEAR || total.unsigned_abs() >= NEAR_TOTAL {
        return None;
    }
    checked_sum(total, change.sum)
}

/// The totals of four runs, each with what its numbers add to it, if all numbers and the totals are near 0.
fn near_folds(changes: Four<NearSum>, totals: Four<i64>) -> Option<Four<i64>>
    ensures { IfSome result (λ folds. (f : ScalarFunction) (numbers : List ℤ) (starts : Four ℕ) (count : ℕ) → AreChanges f numbers starts count changes
        → AreFourFolds f (map Int numbers) starts count totals folds) }
{
    let first = near_total(changes.first, totals.first)?;
    let second = near_total(changes.second, totals.second)?;
    let third = near_total(changes.third, totals.third)?;
    let fourth = near_total(changes.fourth, totals.fourth)?;
    Some(Four {
        first,
        second,
        third,
        fourth,
    })
}

/// The folds of four runs of pairs of neighbours onto their totals at once, unless one is in doubt, or this is not quicker, as of long
/// runs.
#[inline(always)]
pub(crate) fn quick_folds<F: Function, T: Numeric>(
    numbers: &[T],
    starts: Four<usize>,
    pairs: usize,
    totals: Four<i64>,
) -> Option<Four<i64>>
    requires within { AreRuns starts (2 * pairs) (length numbers.now) }
    ensures { IfSome result (λ folds. AreFourFolds F.FUNCTION (map T.elem_of numbers.now) starts (2 * pairs) totals folds) }
{
    elements_are_numbers(numbers);
    match F::FUNCTION {
        ScalarFunction::Plus if pairs <= MOST_PAIRS => {
            near_folds(runs_added(numbers, starts, 2 * pairs), totals)
        }
        ScalarFunction::Minus if pairs <= MOST_PAIRS => {
            near_folds(runs_turned(numbers, starts, pairs), totals)
        }
        ScalarFunction::Ceiling => {
            Some(each_extreme::<Greatest, T>(numbers, starts, 2 * pairs, totals))
        }
        ScalarFunction::Floor => Some(each_extreme::<Least, T>(numbers, starts, 2 * pairs, totals)),
        _ => None,
    }
}

/// Whether folds by the function are made of several numbers at once, without a branch at each.
#[inline(always)]
pub(crate) fn has_quick_runs<F: Function>() -> bool {
    matches!(
        F::FUNCTION,
        ScalarFunction::Plus
            | ScalarFunction::Minus
            | ScalarFunction::Times
            | ScalarFunction::Ceiling
            | ScalarFunction::Floor
            | ScalarFunction::And
            | ScalarFunction::Or
    )
}

/// The fold of four quarters of a run onto a total at once, unless it is in doubt. A quarter has `quarter` pairs.
#[inline(always)]
fn quick_fold<F: Function, T: Numeric>(
    numbers: &[T],
    first: usize,
    quarter: usize,
    total: i64,
) -> Option<i64>
    requires within { first + 8 * quarter ≤ length numbers.now }
    ensures { IfSome result (λ z. folded_onto F.FUNCTION (item_in (map Int (map T.number_in numbers.now))) first (2 * (2 * (2 * quarter))) (Ok total) ≡ Ok z) }
{
    let half = 2 * (2 * quarter);
    match F::FUNCTION {
        ScalarFunction::Plus if quarter <= MOST_QUARTER => {
            near_total(quarters_added(numbers, first, 2 * quarter), total)
        }
        ScalarFunction::Minus if quarter <= MOST_QUARTER => {
            near_total(quarters_turned(numbers, first, quarter), total)
        }
        ScalarFunction::Times => sign_onto(numbers, first, half, total),
        ScalarFunction::Ceiling => Some(extreme_onto::<Greatest, T>(numbers, first, half, total)),
        ScalarFunction::Floor => Some(extreme_onto::<Least, T>(numbers, first, half, total)),
        _ => bit_fold::<F, T>(numbers, first, half, total),
    }
}

/// The fold of four quarters of a run onto a total: at once, or item by item if it is in doubt.
#[inline(always)]
fn fold_run<F: Function, T: Numeric>(
    numbers: &[T],
    first: usize,
    quarter: usize,
    total: i64,
) -> Result<i64, Fault>
    requires within { first + 8 * quarter < length numbers.now }
    requires most { length numbers.now ≤ MOST_PLACES }
    ensures { result ≡ folded_onto F.FUNCTION (item_in (map T.elem_of numbers.now)) first (2 * (2 * (2 * quarter))) (Ok total) }
{
    elements_are_numbers(numbers);
    match quick_fold::<F, T>(numbers, first, quarter, total) {
        Some(folded) => Ok(folded),
        None => fold_items::<F, T>(numbers, first, 1, 8 * quarter, total),
    }
}

/// The most pairs in each quarter of a run. Extremes have no bound to keep, and reading begins anew at each run.
fn most_quarter<F: Function>() -> usize
    ensures { 0 < result }
{
    match F::FUNCTION {
        ScalarFunction::Ceiling | ScalarFunction::Floor => 8 * MOST_QUARTER,
        _ => MOST_QUARTER,
    }
}

/// The right fold of neighbouring numbers onto what those after them gave.
pub(crate) fn fold_neighbours<F: Function, T: Numeric>(
    numbers: &[T],
    first: usize,
    count: usize,
    total: i64,
) -> Result<i64, Fault>
    requires within { first + count < length numbers.now }
    requires most { length numbers.now ≤ MOST_PLACES }
    ensures { result ≡ folded_onto F.FUNCTION (item_in (map T.elem_of numbers.now)) first count (Ok total) }
{
    let mut total = total;
    let mut rest = count;
    while rest >= 8 {
        let quarter = (rest / 8).min(most_quarter::<F>());
        rest -= 8 * quarter;
        match fold_run::<F, T>(numbers, first + rest, quarter, total) {
            Ok(number) => total = number,
            Err(fault) => return Err(fault),
        }
    }
    fold_items::<F, T>(numbers, first, 1, rest, total)
}
