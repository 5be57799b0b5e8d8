//! Right folds of numbers near 0 by `+` and `-`. No step leaves the range, so the numbers are judged and not each result.
ghost use Rattle.std.specs.Prelude.{◌≡◌, ◌+◌, ◌*◌, ◌<◌, ◌≤◌, ◌^◌, Ok, length, map, unsigned_abs};
ghost use Rattle.apl_pool.specs.declared.kernel.TheConstants.{MOST_PLACES};
ghost use Rattle.apl_reduce.specs.declared.near_rows.TheConstants.{MOST_ROWS};
ghost use Rattle.apl_reduce.specs.Folded.{folded_onto, element_along};
ghost use Rattle.apl_reduce.specs.RowFolds.{IsNearStep};

use crate::near_sums::{NEAR, NEAR_TOTAL, above_least, wrapped_difference, wrapped_sum};
use apl_answer::Numeric;
use apl_array::{ScalarFunction, range_is_decided};
use apl_scalar::function_types::Function;

/// The most rows that are folded at once.
pub(crate) const MOST_ROWS: usize = 8;

/// Whether there are such folds by the function.
#[inline(always)]
pub(crate) fn has_near_rows<F: Function>() -> bool {
    matches!(F::FUNCTION, ScalarFunction::Plus | ScalarFunction::Minus)
}

/// What the function gives of a number and a total, modulo 2^64, and how far the number is above the least one that is near 0.
#[inline(always)]
fn near_step<F: Function>(number: i64, total: i64) -> (i64, u64)
    ensures { result.1 < 2 ^ 47 → unsigned_abs total + 2 ^ 46 < 2 ^ 63 → IsNearStep F.FUNCTION number total result.0 }
{
    range_is_decided();
    match F::FUNCTION {
        ScalarFunction::Plus => (wrapped_sum(number, total), above_least(number, NEAR)),
        ScalarFunction::Minus => (wrapped_difference(number, total), above_least(number, NEAR)),
        _ => (total, u64::MAX),
    }
}

/// No bits if all numbers and the total are near 0. The numbers have these bits, each counted from the least one that is near 0.
#[inline(always)]
fn doubts(bits: u64, total: i64) -> u64
    ensures bits { result ≡ 0 → bits < 2 ^ 47 }
    ensures total { result ≡ 0 → unsigned_abs total ≤ 2 ^ 62 }
{
    let above = total.cast_unsigned().wrapping_add(NEAR_TOTAL);
    (bits / (2 * NEAR)) | (above / (2 * NEAR_TOTAL))
}

/// A likely fold of `count` numbers that are `stride` apart from place `first` on, onto what those after them gave, and the doubts whether
/// it is that. It has no branches.
#[inline(always)]
pub(crate) fn near_onto<F: Function, T: Numeric>(
    numbers: &[T],
    first: usize,
    stride: usize,
    count: usize,
    total: i64,
) -> (i64, u64)
    requires few { count ≤ MOST_ROWS }
    requires within { first + count * stride < length numbers.now }
    requires most { length numbers.now ≤ MOST_PLACES }
    ensures { result.1 ≡ 0 → folded_onto F.FUNCTION (element_along (map T.elem_of numbers.now) first stride) 0 count (Ok total) ≡ Ok result.0 }
{
    let mut sum = total;
    let mut bits = 0;
    let mut place = first + count * stride;
    for _done in 0..count {
        place -= stride;
        let (next, above) = near_step::<F>(numbers[place].number(), sum);
        sum = next;
        bits |= above;
    }
    (sum, doubts(bits, total))
}
