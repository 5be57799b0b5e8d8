//! Sums of products that cannot leave the range.
ghost use Rattle.std.specs.Prelude.{◌≡◌, ℕ, pos, ◌+◌, ◌*◌, ◌+ℤ◌, ◌*ℤ◌, ◌^◌, ◌<◌, ◌≤◌, true, length, slice_index_or, unsigned_abs};
ghost use Rattle.apl_pool.specs.declared.kernel.TheConstants.{MOST_PLACES};
ghost use Rattle.apl_reduce.specs.FourFolds.{AreNeighbours};
ghost use Rattle.apl_reduce.specs.Layouts.{IsWithin, sum_in};
ghost use Rattle.apl_reduce.specs.Magnitudes.{magnitude};

use crate::four::{Four, put_four};
use crate::layouts::Layout;
use crate::near_sums::wrapped_sum;
use apl_pool::write_each;
use apl_walk::Lined;

/// The sums of products in the lines and columns of an inner product, which no sum of them takes out of the range.
#[derive(Drop)]
pub(crate) struct Sums<'a> {
    pub left: &'a [i64],
    pub right: &'a [i64],
    pub layout: &'a Layout,
    /// Whether all numbers are of 32 bits, and the items of each line are neighbours.
    pub is_narrow: bool,
    ghost within: { IsWithin layout.now (length left.now) (length right.now) },
    ghost small: { magnitude left.now * magnitude right.now * layout.now.items < 2 ^ 63 },
    ghost left_narrow: { is_narrow ≡ true → magnitude left.now < 2 ^ 31 },
    ghost right_narrow: { is_narrow ≡ true → magnitude right.now < 2 ^ 31 },
    ghost left_near: { is_narrow ≡ true → layout.now.left.item ≡ 1 },
    ghost right_near: { is_narrow ≡ true → layout.now.right.item ≡ 1 },
}

/// The number that the lower 32 bits of `x` are.
#[inline(always)]
fn lower_half(x: i64) -> i64
    ensures value { unsigned_abs x < 2 ^ 31 → result ≡ x }
    ensures small { unsigned_abs result ≤ 2 ^ 31 }
{
    (x << 32) >> 32
}

/// The product of the lower halves of two numbers: their own product if both are of 32 bits. A processor multiplies several such pairs at
/// once.
#[inline(always)]
pub(crate) fn narrow_product(x: i64, y: i64) -> i64
    ensures { unsigned_abs x < 2 ^ 31 → unsigned_abs y < 2 ^ 31 → result ≡ x *ℤ y }
{
    lower_half(x) * lower_half(y)
}

/// How many neighbouring columns of a line are summed at once.
pub(crate) const TURN: usize = 4;

/// How many lines are a piece, if there are enough for several pieces.
const PIECE_LINES: usize = 16;

impl Sums<'_> {
    /// Where the items of a line and of a column begin.
    #[inline(always)]
    fn starts(&self, line: usize, column: usize) -> (usize, usize)
        requires column { column < self.now.layout.now.columns }
        requires place { line * self.now.layout.now.columns + column < self.now.layout.now.count }
        ensures left { result.0 ≡ line * self.now.layout.now.left.line }
        ensures right { result.1 ≡ column * self.now.layout.now.right.line }
        ensures left_items { (k : ℕ) → k < self.now.layout.now.items → result.0 + k * self.now.layout.now.left.item < length self.now.left.now }
        ensures right_items { (k : ℕ) → k < self.now.layout.now.items → result.1 + k * self.now.layout.now.right.item < length self.now.right.now }
    {
        (
            line * self.layout.left.line,
            column * self.layout.right.line,
        )
    }

    /// The sum in a line and a column. Inlined into a loop over columns, it multiplies by the strides at each item.
    #[inline(never)]
    fn sum_at(&self, line: usize, column: usize) -> i64
        requires column { column < self.now.layout.now.columns }
        requires place { line * self.now.layout.now.columns + column < self.now.layout.now.count }
        ensures { result ≡ sum_in self.now.layout.now self.now.left.now self.now.right.now line column }
    {
        let (left_start, right_start) = self.starts(line, column);
        let mut total = 0;
        for k in 0..self.layout.items {
            let left = self.left[left_start + k * self.layout.left.item];
            let right = self.right[right_start + k * self.layout.right.item];
            total += left * right;
        }
        total
    }

    /// A sum and the product of the numbers of 32 bits that meet as item `k` of a line and a column that begin at these places.
    #[inline(always)]
    fn with_product(&self, sum: i64, left: usize, right: usize, k: usize) -> i64
        requires narrow { self.now.is_narrow ≡ true }
        requires item { k < self.now.layout.now.items }
        requires left { (i : ℕ) → i < self.now.layout.now.items → left + i * self.now.layout.now.left.item < length self.now.left.now }
        requires right { (i : ℕ) → i < self.now.layout.now.items → right + i * self.now.layout.now.right.item < length self.now.right.now }
        ensures { let product = slice_index_or self.now.left.now (left + k) (pos 0) *ℤ slice_index_or self.now.right.now (right + k) (pos 0) in
            unsigned_abs (sum +ℤ product) < 2 ^ 63 → result ≡ sum +ℤ product }
    {
        wrapped_sum(
            sum,
            narrow_product(self.left[left + k], self.right[right + k]),
        )
    }

    /// The sum in a line and a column whose items are numbers of 32 bits and neighbours.
    #[inline(never)]
    fn narrow_sum_at(&self, line: usize, column: usize) -> i64
        requires column { column < self.now.layout.now.columns }
        requires place { line * self.now.layout.now.columns + column < self.now.layout.now.count }
        requires narrow { self.now.is_narrow ≡ true }
        ensures { result ≡ sum_in self.now.layout.now self.now.left.now self.now.right.now line column }
    {
        let (left, right) = self.starts(line, column);
        let mut sum = 0;
        for k in 0..self.layout.items {
            sum = self.with_product(sum, left, right, k);
        }
        sum
    }

    /// The same in four neighbouring columns of a line, in one pass over its items.
    #[inline(always)]
    fn narrow_sums_at(&self, line: usize, column: usize) -> Four<i64>
        requires columns { column + 4 ≤ self.now.layout.now.columns }
        requires places { line * self.now.layout.now.columns + (column + 4) ≤ self.now.layout.now.count }
        requires narrow { self.now.is_narrow ≡ true }
        ensures { AreNeighbours (sum_in self.now.layout.now self.now.left.now self.now.right.now line) column result }
    {
        let (left, first) = self.starts(line, column);
        let (_, second) = self.starts(line, column + 1);
        let (_, third) = self.starts(line, column + 2);
        let (_, fourth) = self.starts(line, column + 3);
        let mut sums = Four {
            first: 0,
            second: 0,
            third: 0,
            fourth: 0,
        };
        for k in 0..self.layout.items {
            sums = Four {
                first: self.with_product(sums.first, left, first, k),
                second: self.with_product(sums.second, left, second, k),
                third: self.with_product(sums.third, left, third, k),
                fourth: self.with_product(sums.fourth, left, fourth, k),
            };
        }
        sums
    }
}

impl Lined for Sums<'_> {
    type Out = i64;

    type Start = ();

    ghost place_count = { λ s. s.layout.now.count };

    ghost extent = { λ s. s.layout.now.columns };

    ghost value = { λ s line column. sum_in s.layout.now s.left.now s.right.now line column };

    ghost is_start = { λ _ _ _. Unit {0} };

    fn count(&self) -> usize {
        self.layout.count
    }

    fn extent(&self) -> usize {
        self.layout.columns
    }

    /// Each piece reads all right items, so several lines are to meet them. Few lines are four pieces.
    fn piece(&self) -> usize {
        let lines = self.layout.columns.saturating_mul(PIECE_LINES);
        lines.min(self.layout.count / 4).max(self.layout.piece())
    }

    /// Four products of 32 bits are summed in the time of a function of two numbers.
    fn work(&self) -> usize {
        let work = self.layout.work();
        if self.is_narrow { work / 2 } else { work }
    }

    /// The right items of four columns stay in the first caches while all lines of a run meet them.
    fn tile(&self) -> usize {
        if self.is_narrow {
            TURN
        } else {
            self.layout.columns
        }
    }

    #[inline(always)]
    fn at(&self, line: usize, column: usize) -> i64 {
        if self.is_narrow {
            return self.narrow_sum_at(line, column);
        }
        self.sum_at(line, column)
    }

    fn start_of(&self, _line: usize) {}

    fn next_start(&self, _line: usize, _start: ()) {}

    #[inline(always)]
    fn write(&self, line: usize, _start: (), from: usize, count: usize, room: &mut [i64]) {
        if self.is_narrow && count == TURN {
            let sums = self.narrow_sums_at(line, from);
            return put_four(sums, room);
        }
        let sum = |k: usize| -> i64
            requires line { line ≤ MOST_PLACES }
            requires column { from + k < self.now.layout.now.columns }
            requires place { line * self.now.layout.now.columns + (from + k) < self.now.layout.now.count }
            ensures { result ≡ sum_in self.entry.now.layout.now self.entry.now.left.now self.entry.now.right.now line (from + k) }
        { self.at(line, from + k) };
        write_each(count, sum, room);
    }
}
