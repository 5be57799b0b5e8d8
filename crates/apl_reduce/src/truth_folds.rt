//! Right folds of truth values, by how many of them are true.
ghost use Rattle.std.specs.Prelude.{◌≡◌, ◌+◌, ◌<◌, ◌≤◌, IfSome, Ok, length, map};
ghost use Rattle.apl_array.specs.declared.function.ScalarFunction.{ScalarFunction};
ghost use Rattle.apl_array.specs.declared.function.ScalarFunction.TheVariants.{Plus};
ghost use Rattle.apl_array.specs.Array.{truth_element};
ghost use Rattle.apl_pool.specs.declared.kernel.TheConstants.{MOST_PLACES};
ghost use Rattle.apl_reduce.specs.Folded.{folded_onto};
ghost use Rattle.apl_reduce.specs.Items.{item_in};
ghost use Rattle.apl_reduce.specs.TruthFolds.{IsConjunction, IsDisjunction, TurnsAt, turns_among};

use crate::folding::fold_items;
use crate::ones::ones;
use apl_array::{ScalarFunction, range_is_decided};
use apl_pool::Fault;
use apl_scalar::function_types::Function;

/// Whether how many truth values are true gives their fold.
#[inline(always)]
pub(crate) fn has_truth_runs(f: ScalarFunction) -> bool {
    matches!(
        f,
        ScalarFunction::Plus
            | ScalarFunction::Times
            | ScalarFunction::Floor
            | ScalarFunction::Ceiling
            | ScalarFunction::And
            | ScalarFunction::Or
            | ScalarFunction::Equal
            | ScalarFunction::NotEqual
    )
}

/// The fold of neighbours by `+` onto a total, if that is 0, 1 or 2.
fn sum_onto(truths: &[bool], first: usize, count: usize, total: i64) -> Option<i64>
    requires within { first + count ≤ length truths.now }
    requires most { length truths.now ≤ MOST_PLACES }
    ensures { IfSome result (λ z. folded_onto Plus (item_in (map truth_element truths.now)) first count (Ok total) ≡ Ok z) }
{
    range_is_decided();
    if total.cast_unsigned() > 2 {
        return None;
    }
    Some(total + ones(truths, first, count) as i64)
}

/// The fold of neighbours onto a total, if that is 0 or 1, by a function that gives 1 of two ones, and else 0.
fn all_onto(truths: &[bool], first: usize, count: usize, total: i64) -> Option<i64>
    requires within { first + count ≤ length truths.now }
    ensures { IfSome result (λ z. (f : ScalarFunction) → IsConjunction f → folded_onto f (item_in (map truth_element truths.now)) first count (Ok total) ≡ Ok z) }
{
    if total.cast_unsigned() > 1 {
        return None;
    }
    Some(if ones(truths, first, count) == count {
        total
    } else {
        0
    })
}

/// The fold of neighbours onto a total, if that is 0 or 1, by a function that gives 0 of two zeros, and else 1.
fn any_onto(truths: &[bool], first: usize, count: usize, total: i64) -> Option<i64>
    requires within { first + count ≤ length truths.now }
    ensures { IfSome result (λ z. (f : ScalarFunction) → IsDisjunction f → folded_onto f (item_in (map truth_element truths.now)) first count (Ok total) ≡ Ok z) }
{
    if total.cast_unsigned() > 1 {
        return None;
    }
    Some(if ones(truths, first, count) == 0 {
        total
    } else {
        1
    })
}

/// How many of neighbours are `turn`.
fn turn_count(truths: &[bool], first: usize, count: usize, turn: bool) -> usize
    requires within { first + count ≤ length truths.now }
    ensures { result ≡ turns_among truths.now first turn count }
{
    let ones = ones(truths, first, count);
    if turn { ones } else { count - ones }
}

/// The fold of neighbours onto a total, if that is 0 or 1, by a function that turns its right argument over where the left one is `turn`.
fn turned_onto(truths: &[bool], first: usize, count: usize, total: i64, turn: bool) -> Option<i64>
    requires within { first + count ≤ length truths.now }
    ensures { IfSome result (λ z. (f : ScalarFunction) → TurnsAt turn f → folded_onto f (item_in (map truth_element truths.now)) first count (Ok total) ≡ Ok z) }
{
    if total.cast_unsigned() > 1 {
        return None;
    }
    let turns = turn_count(truths, first, count, turn);
    Some(if turns % 2 == 0 { total } else { 1 - total })
}

/// The fold of neighbours onto a total by how many are true, unless it is in doubt.
#[inline(always)]
fn truth_fold<F: Function>(truths: &[bool], first: usize, count: usize, total: i64) -> Option<i64>
    requires within { first + count ≤ length truths.now }
    requires most { length truths.now ≤ MOST_PLACES }
    ensures { IfSome result (λ z. folded_onto F.FUNCTION (item_in (map truth_element truths.now)) first count (Ok total) ≡ Ok z) }
{
    match F::FUNCTION {
        ScalarFunction::Plus => sum_onto(truths, first, count, total),
        ScalarFunction::Times => all_onto(truths, first, count, total),
        ScalarFunction::Floor => all_onto(truths, first, count, total),
        ScalarFunction::And => all_onto(truths, first, count, total),
        ScalarFunction::Ceiling => any_onto(truths, first, count, total),
        ScalarFunction::Or => any_onto(truths, first, count, total),
        ScalarFunction::Equal => turned_onto(truths, first, count, total, false),
        ScalarFunction::NotEqual => turned_onto(truths, first, count, total, true),
        _ => None,
    }
}

/// The right fold of neighbouring truth values onto what those after them gave.
pub(crate) fn fold_truths<F: Function>(
    truths: &[bool],
    first: usize,
    count: usize,
    total: i64,
) -> Result<i64, Fault>
    requires within { first + count < length truths.now }
    requires most { length truths.now ≤ MOST_PLACES }
    ensures { result ≡ folded_onto F.FUNCTION (item_in (map truth_element truths.now)) first count (Ok total) }
{
    match truth_fold::<F>(truths, first, count, total) {
        Some(number) => Ok(number),
        None => fold_items::<F, bool>(truths, first, 1, count, total),
    }
}
