//! Sums of products of numbers near 0, in neighbouring columns. No sum leaves the range, so the numbers are judged and not each result.
ghost use Rattle.std.specs.Prelude.{◌≡◌, ℕ, pos, ◌+◌, ◌*◌, ◌^◌, ◌<◌, ◌≤◌, true, length, map, slice_index_or};
ghost use Rattle.apl_reduce.specs.Magnitudes.{magnitude};
ghost use Rattle.apl_reduce.specs.ProductRows.{IsRowSum, AreRowSums};

use crate::folded_rows::put;
use crate::near_sums::{above_least, wrapped_sum};
use crate::product_sums::Bounds;
use crate::sums::narrow_product;
use apl_answer::{Numeric, number_at};

/// How many rows go in one pass over the totals, each of which is read and written once for all of them.
const PASS: usize = 4;

/// Puts 0 in place of all totals.
fn clear(totals: &mut [i64])
    ensures zeros { (j : ℕ) → j < length totals.new → slice_index_or totals.new j (pos 0) ≡ pos 0 }
    ensures len { length totals.new ≡ length totals.old }
{
    for j in 0..totals.len() {
        put(totals, j, 0);
    }
}

/// The factor of a row, beside a number that is near 0 and counted from the least such one. A factor that is the same in each turn would be
/// taken out of the loop. Then a compiler would forget that it is of 32 bits, and multiply as if it were of 64.
#[inline(always)]
fn held_factor(factor: i64, above: u64) -> i64
    ensures { above < 2 ^ 32 → result ≡ factor }
{
    factor.wrapping_add((above >> 32).cast_signed())
}

/// A line of numbers near 0, so few that no sum of their products with others near 0 leaves the range, and the rows of a matrix.
#[derive(Drop)]
pub(crate) struct NearProducts<'a, U> {
    pub line: &'a [i64],
    pub right: &'a [U],
    /// How far apart the rows are.
    pub stride: usize,
    /// How far from 0 the numbers of the line and of the rows may be.
    pub near: Bounds,
    ghost some: { 0 < length line.now },
    ghost near_most: { (near.left ≤ 2 ^ 30) × (near.right ≤ 2 ^ 30) },
    ghost small: { near.left * near.right * length line.now < 2 ^ 63 },
    ghost line_near: { magnitude line.now ≤ near.left },
}

impl<U: Numeric> NearProducts<'_, U> {
    /// A sum with the product of a row, and the row's number counted from the least one that is near 0.
    #[inline(always)]
    fn with_row(&self, column: usize, row: usize, sum: i64) -> (i64, u64)
        requires row { row < length self.now.line.now }
        requires within { column + row * self.now.stride < length self.now.right.now }
        ensures { let s = self.now in
            result.1 < 2 * s.near.right → IsRowSum s.line.now (map U.number_in s.right.now) s.stride (s.near.left * s.near.right) column row sum → IsRowSum s.line.now (map U.number_in s.right.now) s.stride (s.near.left * s.near.right) column (row + 1) result.0 }
    {
        let number = number_at(self.right, column + row * self.stride);
        let above = above_least(number, self.near.right);
        let product = narrow_product(held_factor(self.line[row], above), number);
        (wrapped_sum(sum, product), above)
    }

    /// A sum with the products of the next `count` rows, and the bits that one or more of their numbers has.
    #[inline(always)]
    fn with_rows(&self, column: usize, row: usize, count: usize, sum: i64) -> (i64, u64)
        requires rows { row + count ≤ length self.now.line.now }
        requires within { (k : ℕ) → k < length self.now.line.now → column + k * self.now.stride < length self.now.right.now }
        ensures { let s = self.now in
            result.1 < 2 * s.near.right → IsRowSum s.line.now (map U.number_in s.right.now) s.stride (s.near.left * s.near.right) column row sum → IsRowSum s.line.now (map U.number_in s.right.now) s.stride (s.near.left * s.near.right) column (row + count) result.0 }
    {
        let mut sum = sum;
        let mut bits = 0;
        for k in 0..count {
            let (next, above) = self.with_row(column, row + k, sum);
            sum = next;
            bits |= above;
        }
        (sum, bits)
    }

    /// Adds the products of the next `count` rows to the totals of neighbouring columns. It says whether all numbers of these rows are near
    /// 0. The loop has no branches. If `count` is constant, a processor does several columns at once.
    #[inline(always)]
    fn add_rows(&self, column: usize, row: usize, count: usize, totals: &mut [i64]) -> bool
        requires rows { row + count ≤ length self.now.line.now }
        requires within { (k : ℕ) → k < length self.now.line.now → column + k * self.now.stride + length totals.old ≤ length self.now.right.now }
        requires sums { let s = self.now in AreRowSums s.line.now (map U.number_in s.right.now) s.stride (s.near.left * s.near.right) column row totals.old }
        ensures sums { let s = self.now in
            result ≡ true → AreRowSums s.line.now (map U.number_in s.right.now) s.stride (s.near.left * s.near.right) column (row + count) totals.new }
        ensures len { length totals.new ≡ length totals.old }
    {
        let mut bits = 0;
        for j in 0..totals.len() {
            let (sum, above) = self.with_rows(column + j, row, count, totals[j]);
            put(totals, j, sum);
            bits |= above;
        }
        bits < 2 * self.near.right
    }

    /// Puts the sums of the products of all rows in neighbouring columns in place of the totals. It says whether all numbers of the rows
    /// are near 0, and so these are the sums.
    pub(crate) fn put_sums(&self, column: usize, totals: &mut [i64]) -> bool
        requires within { (k : ℕ) → k < length self.now.line.now → column + k * self.now.stride + length totals.old ≤ length self.now.right.now }
        ensures sums { let s = self.now in
            result ≡ true → AreRowSums s.line.now (map U.number_in s.right.now) s.stride (s.near.left * s.near.right) column (length s.line.now) totals.new }
        ensures len { length totals.new ≡ length totals.old }
    {
        clear(totals);
        let rows = self.line.len();
        let mut row = 0;
        while row < rows {
            let is_near = if rows - row >= PASS {
                row += PASS;
                self.add_rows(column, row - PASS, PASS, totals)
            } else {
                row += 1;
                self.add_rows(column, row - 1, 1, totals)
            };
            if !is_near {
                return false;
            }
        }
        true
    }
}
