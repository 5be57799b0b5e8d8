//! Sums of rows of neighbours near 0. The workers share the stretches of all rows.
ghost use Rattle.std.specs.Prelude.{◌≡◌, ℕ, ◌+◌, ◌-◌, ◌*◌, ◌^◌, ◌<◌, ◌≤◌, IfErr, IfOk, IfSome, length, map};
ghost use Rattle.apl_array.specs.declared.array.Elem.TheVariants.{Int};
ghost use Rattle.apl_array.specs.declared.function.ScalarFunction.TheVariants.{Plus};
ghost use Rattle.apl_pool.specs.Pool.{AreValues, IsStopOf};
ghost use Rattle.apl_pool.specs.declared.kernel.TheConstants.{MOST_PLACES};
ghost use Rattle.apl_reduce.specs.declared.stretch_sums.TheConstants.{STRETCH};
ghost use Rattle.apl_reduce.specs.Folded.{fold_at};
ghost use Rattle.apl_reduce.specs.Magnitudes.{IsSumNear};
ghost use Rattle.apl_reduce.specs.StretchSums.{IsStretchSum, number_from, sum_at};

use crate::magnitudes::sums_are_small;
use crate::near_sums::{NEAR, NearSum, above_least, wrapped_sum};
use crate::sharing::work_of;
use apl_answer::{Numeric, number_at};
use apl_array::range_is_decided;
use apl_pool::{Crew, Fault, Kernel, Stop, fill};

/// The most numbers of a stretch, which is a piece. It is short, so that workers have about as much each.
pub(crate) const STRETCH: usize = 1 << 14;

/// The sum with the number at a place.
#[inline(always)]
fn with_next<T: Numeric>(sum: NearSum, numbers: &[T], near: u64, place: usize) -> NearSum
    requires within { place < length numbers.now }
    requires near { near ≤ 2 ^ 46 }
    ensures { (first count : ℕ) → first + count ≡ place → IsStretchSum (map T.number_in numbers.now) near first count sum → IsStretchSum (map T.number_in numbers.now) near first (count + 1) result }
{
    let number = number_at(numbers, place);
    NearSum {
        sum: wrapped_sum(sum.sum, number),
        bits: sum.bits | above_least(number, near),
    }
}

/// The sum of neighbours. The loop has no branches, and a processor adds several numbers at once.
#[inline(never)]
fn neighbours_sum<T: Numeric>(numbers: &[T], first: usize, count: usize, near: u64) -> NearSum
    requires within { first + count ≤ length numbers.now }
    requires near { near ≤ 2 ^ 46 }
    ensures { IsStretchSum (map T.number_in numbers.now) near first count result }
{
    let mut sum = NearSum { sum: 0, bits: 0 };
    for k in 0..count {
        sum = with_next(sum, numbers, near, first + k);
    }
    sum
}

/// How far from 0 the numbers of a row of `items` may be. Then no sum of some of them leaves the range.
fn near_bound(items: usize) -> u64
    ensures near { result ≤ 2 ^ 46 }
    ensures small { result * items < 2 ^ 63 }
{
    let mut near = NEAR;
    while !sums_are_small(near, 1, items) {
        near /= 2;
    }
    near
}

/// Rows of as many neighbours each, all cut alike into stretches.
#[derive(Drop)]
pub(crate) struct Stretches<'a, T> {
    numbers: &'a [T],
    /// How many rows there are.
    rows: usize,
    /// How many numbers each has.
    items: usize,
    /// How far apart neighbouring rows begin.
    block: usize,
    /// How many stretches each has.
    stretches: usize,
    /// How far from 0 the numbers of a row may be.
    near: u64,
    ghost two: { 2 ≤ items },
    ghost all: { items ≤ stretches * STRETCH },
    ghost needed: { (stretches - 1) * STRETCH < items },
    ghost most: { rows * items ≤ MOST_PLACES },
    ghost numbers_most: { length numbers.now ≤ MOST_PLACES },
    ghost near_most: { near ≤ 2 ^ 46 },
    ghost small: { near * items < 2 ^ 63 },
    ghost within: { (row : ℕ) → row < rows → row * block + items ≤ length numbers.now },
}

impl<T: Numeric> Kernel for Stretches<'_, T> {
    ghost use Rattle.std.specs.Prelude.{◌*◌, map};
    ghost use Rattle.apl_reduce.specs.StretchSums.{sum_at};

    type Out = i64;

    ghost place_count = { λ s. s.rows * s.stretches };

    ghost outcome = { λ s. sum_at (map T.number_in s.numbers.now) s.near s.items s.block s.stretches };

    fn count(&self) -> usize {
        self.rows * self.stretches
    }

    /// Each stretch is a piece, by any cutting.
    fn piece(&self) -> usize {
        0
    }

    fn work(&self) -> usize {
        work_of(self.rows, self.items)
    }

    fn at(&self, place: usize) -> Result<i64, Fault> {
        let done = place % self.stretches * STRETCH;
        let first = place / self.stretches * self.block + done;
        let count = STRETCH.min(self.items - done);
        let sum = neighbours_sum(self.numbers, first, count, self.near);
        if sum.bits < 2 * self.near {
            Ok(sum.sum)
        } else {
            Err(Fault::Limit)
        }
    }
}

impl<T: Numeric> Stretches<'_, T> {
    /// The stretches of rows that begin `block` apart.
    pub(crate) fn new(numbers: &[T], rows: usize, items: usize, block: usize) -> Stretches<'_, T>
        requires two { 2 ≤ items }
        requires most { rows * items ≤ MOST_PLACES }
        requires numbers { length numbers.now ≤ MOST_PLACES }
        requires within { (row : ℕ) → row < rows → row * block + items ≤ length numbers.now }
        ensures numbers { result.numbers.now ≡ numbers.now }
        ensures rows { result.rows ≡ rows }
        ensures items { result.items ≡ items }
        ensures block { result.block ≡ block }
    {
        Stretches {
            numbers,
            rows,
            items,
            block,
            stretches: (items - 1) / STRETCH + 1,
            near: near_bound(items),
        }
    }

    /// The sum of a row, of those of its stretches.
    fn row_sum(&self, sums: &[i64], row: usize) -> i64
        requires row { row < self.now.rows }
        requires sums { let s = self.now in AreValues (sum_at (map T.number_in s.numbers.now) s.near s.items s.block s.stretches) (s.rows * s.stretches) sums.now }
        ensures { let s = self.now in IsSumNear (number_from (map T.number_in s.numbers.now) (row * s.block)) s.near s.items result }
    {
        let first = row * self.stretches;
        let mut total = 0;
        for k in 0..self.stretches {
            total = wrapped_sum(total, sums[first + k]);
        }
        total
    }
}

/// The sums of all rows, of those of their stretches.
#[derive(Drop)]
struct RowSums<'a, 'b, T: Numeric> {
    rows: &'a Stretches<'b, T>,
    sums: &'a [i64],
    ghost values: { let s = rows.now in AreValues (sum_at (map T.number_in s.numbers.now) s.near s.items s.block s.stretches) (s.rows * s.stretches) sums.now },
}

impl<T: Numeric> Kernel for RowSums<'_, '_, T> {
    ghost use Rattle.std.specs.Prelude.{map};
    ghost use Rattle.apl_array.specs.declared.array.Elem.TheVariants.{Int};
    ghost use Rattle.apl_array.specs.declared.function.ScalarFunction.TheVariants.{Plus};
    ghost use Rattle.apl_reduce.specs.Folded.{fold_at};

    type Out = i64;

    ghost place_count = { λ k. k.rows.now.rows };

    ghost outcome = { λ k. fold_at Plus (map Int (map T.number_in k.rows.now.numbers.now)) k.rows.now.items k.rows.now.block 1 };

    fn count(&self) -> usize {
        self.rows.rows
    }

    fn at(&self, row: usize) -> Result<i64, Fault> {
        range_is_decided();
        Ok(self.rows.row_sum(self.sums, row))
    }
}

/// The sums of all rows, unless a number may be far from 0.
pub(crate) fn fill_row_sums<T: Numeric + Sync, W: Crew>(
    workers: &W,
    rows: &Stretches<T>,
) -> Result<Option<Vec<i64>>, Stop>
    ensures values { let s = rows.now in
        IfOk result (λ sums. IfSome sums (λ v. AreValues (fold_at Plus (map Int (map T.number_in s.numbers.now)) s.items s.block 1) s.rows v.items)) }
    ensures stop { let s = rows.now in IfErr result (IsStopOf (fold_at Plus (map Int (map T.number_in s.numbers.now)) s.items s.block 1) s.rows) }
{
    match workers.pool().fill(workers.rt(), workers.alloc(), rows) {
        Ok(sums) => {
            let totals = fill(
                workers,
                &RowSums {
                    rows,
                    sums: sums.as_slice(),
                },
            )?;
            Ok(Some(totals))
        }
        Err(Stop::Fault { .. }) => Ok(None),
        Err(Stop::Memory) => Err(Stop::Memory),
    }
}
