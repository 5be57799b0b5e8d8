//! Sums and differences along columns of numbers near 0. An array has so few places that no total of them leaves the range.
ghost use Rattle.std.specs.Prelude.{◌≡◌, ◌+◌, ◌*◌, ◌/◌, ◌^◌, ◌<◌, ◌≤◌, ℕ, ℤ, List, pos, ◌+ℤ◌, Bool, true, nat_eq, length, map, vec_len, vec_capacity};
ghost use Rattle.apl_pool.specs.Summaries.{IsI64};
ghost use Rattle.apl_pool.specs.declared.kernel.TheConstants.{MOST_PLACES};
ghost use Rattle.apl_scalar.specs.Scalar.{dyadic_numbers};
ghost use Rattle.apl_summary.specs.Columns.{AreColumnFolds};
ghost use Rattle.apl_summary.specs.Constants.{signed_function};
ghost use Rattle.apl_summary.specs.Fronts.{signed_total};
ghost use Rattle.apl_summary.specs.NearTotals.{sign_after, AreNearFolds, IsRow};

use crate::running_sum::is_minus;
use apl_answer::{Numeric, number_at};
use apl_pool::MOST_PLACES;

/// Numbers are near 0 from the negative of this one up to before it. As many of them as an array has places add up to at most 2^62.
const NEAR: u64 = 1 << 32;

/// The folds of columns, up to a row.
#[derive(Drop)]
pub struct NearColumns {
    pub values: Vec<i64>,
    /// Whether all their numbers are near 0. If not, they may have wrapped.
    pub are_near: bool,
}

/// How far a number is above the least one that is near 0, modulo 2^64. So those below it are farther than all others.
#[inline(always)]
fn above_least(number: i64) -> u64
    ensures { result < 2 ^ 33 → pos result ≡ number +ℤ pos (2 ^ 32) }
{
    number.cast_unsigned().wrapping_add(NEAR)
}

/// The total plus a number, or minus it, where that is in the range.
#[inline(always)]
fn total_with(subtracts: bool, total: i64, number: i64) -> i64
    ensures { IsI64 (signed_total subtracts total number) → result ≡ signed_total subtracts total number }
{
    if subtracts {
        total.wrapping_sub(number)
    } else {
        total.wrapping_add(number)
    }
}

/// Appends the first row of a block, whose numbers are their own folds. It answers whether all are near 0.
#[inline(always)]
fn append_first_row<T: Numeric>(numbers: &[T], inner: usize, values: &mut Vec<i64>) -> bool
    requires places { vec_len values.old + inner ≤ length numbers.now }
    requires room { vec_len values.old + inner ≤ vec_capacity values.old }
    ensures len { vec_len values.new ≡ vec_len values.old + inner }
    ensures capacity { vec_capacity values.new ≡ vec_capacity values.old }
    ensures folds { result ≡ true → (is_plus : Bool) (before : ℕ → List ℤ) → IsRow before (map T.number_in numbers.now) (vec_len values.old) inner 0
        → AreNearFolds is_plus before (map T.number_in numbers.now) (vec_len values.old) values.old.items
        → AreNearFolds is_plus before (map T.number_in numbers.now) (vec_len values.new) values.new.items }
{
    let start = values.len();
    let mut most = 0;
    for column in 0..inner {
        let number = number_at(numbers, start + column);
        most |= above_least(number);
        values.push_reserved(number);
    }
    most < 2 * NEAR
}

/// Appends a row that is not the first of its block: the totals of the row before it plus the numbers, or minus them. It answers whether
/// all are near 0. The loop has no branch, and a processor adds several numbers at once.
#[inline(always)]
fn append_row<T: Numeric>(
    subtracts: bool,
    numbers: &[T],
    inner: usize,
    values: &mut Vec<i64>,
) -> bool
    requires past { inner ≤ vec_len values.old }
    requires places { vec_len values.old + inner ≤ length numbers.now }
    requires room { vec_len values.old + inner ≤ vec_capacity values.old }
    ensures len { vec_len values.new ≡ vec_len values.old + inner }
    ensures capacity { vec_capacity values.new ≡ vec_capacity values.old }
    ensures folds { result ≡ true → (is_plus : Bool) (before : ℕ → List ℤ) (count : ℕ)
        → 0 < count → count < MOST_PLACES → subtracts ≡ sign_after is_plus count → IsRow before (map T.number_in numbers.now) (vec_len values.old) inner count
        → AreNearFolds is_plus before (map T.number_in numbers.now) (vec_len values.old) values.old.items
        → AreNearFolds is_plus before (map T.number_in numbers.now) (vec_len values.new) values.new.items }
{
    let start = values.len();
    let mut most = 0;
    for column in 0..inner {
        let number = number_at(numbers, start + column);
        most |= above_least(number);
        let total = values[start + column - inner];
        values.push_reserved(total_with(subtracts, total, number));
    }
    most < 2 * NEAR
}

/// Appends the row that has `row` rows of its block before it. It answers whether all numbers are near 0.
#[inline(always)]
fn append_next_row<const MINUS: u8, T: Numeric>(
    row: usize,
    numbers: &[T],
    inner: usize,
    values: &mut Vec<i64>,
) -> bool
    requires past { 0 < row → inner ≤ vec_len values.old }
    requires few { row < MOST_PLACES }
    requires places { vec_len values.old + inner ≤ length numbers.now }
    requires room { vec_len values.old + inner ≤ vec_capacity values.old }
    ensures len { vec_len values.new ≡ vec_len values.old + inner }
    ensures capacity { vec_capacity values.new ≡ vec_capacity values.old }
    ensures folds { result ≡ true → (before : ℕ → List ℤ) → IsRow before (map T.number_in numbers.now) (vec_len values.old) inner row
        → AreNearFolds (nat_eq MINUS 0) before (map T.number_in numbers.now) (vec_len values.old) values.old.items
        → AreNearFolds (nat_eq MINUS 0) before (map T.number_in numbers.now) (vec_len values.new) values.new.items }
{
    if row == 0 {
        append_first_row(numbers, inner, values)
    } else if is_minus(MINUS == 0, row % 2 == 1) {
        append_row(true, numbers, inner, values)
    } else {
        append_row(false, numbers, inner, values)
    }
}

/// Puts the folds by `+` or `-` of all numbers of its column up to each place into a list that is empty and has room for them. The numbers
/// are in blocks of `items` rows of `inner` numbers. It stops after a row with a number that is not near 0.
pub fn append_near_columns<const MINUS: u8, T: Numeric>(
    numbers: &[T],
    items: usize,
    inner: usize,
    values: Vec<i64>,
) -> NearColumns
    requires items { 0 < items }
    requires inner { 0 < inner }
    requires empty { vec_len values ≡ 0 }
    requires room { length numbers.now ≤ vec_capacity values }
    ensures most { vec_len result.values ≤ length numbers.now }
    ensures all { result.are_near ≡ true → vec_len result.values ≡ length numbers.now / inner * inner }
    ensures folds { result.are_near ≡ true
        → AreColumnFolds (dyadic_numbers (signed_function (nat_eq MINUS 0)))
        (map T.number_in numbers.now) items inner (vec_len result.values) result.values.items }
    ensures capacity { vec_capacity result.values ≡ vec_capacity values }
{
    let mut values = values;
    if items > MOST_PLACES {
        return NearColumns {
            values,
            are_near: false,
        };
    }
    for row in 0..numbers.len() / inner {
        if !append_next_row::<MINUS, T>(row % items, numbers, inner, &mut values) {
            return NearColumns {
                values,
                are_near: false,
            };
        }
    }
    NearColumns {
        values,
        are_near: true,
    }
}
