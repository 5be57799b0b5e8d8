//! A line of numbers times the rows of a matrix, folded by `+` in neighbouring columns. The rows are read as they lie.
ghost use Rattle.std.specs.Prelude.{◌≡◌, ℕ, pos, ◌+◌, ◌-◌, ◌*◌, ◌<◌, ◌≤◌, true, Ok, length, map, slice_index_or};
ghost use Rattle.apl_array.specs.declared.function.ScalarFunction.TheVariants.{Plus as PlusNamed, Times as TimesNamed};
ghost use Rattle.apl_pool.specs.Runs.{AreWritten};
ghost use Rattle.apl_scalar.specs.Scalar.{dyadic_numbers};
ghost use Rattle.apl_reduce.specs.Items.{number_step};
ghost use Rattle.apl_reduce.specs.ProductRows.{row_item, AreRowFolds};

use crate::folded_rows::put;
use apl_answer::{Numeric, number_at};
use apl_pool::Fault;
use apl_scalar::function_types::{Function, Plus, Times};

/// A product and what was folded on its right.
#[inline(always)]
fn with_product(x: i64, y: i64, folded: i64) -> Result<i64, Fault>
    ensures { result ≡ number_step PlusNamed (dyadic_numbers TimesNamed x y) (Ok folded) }
{
    let product = Times::apply(x, y)?;
    Plus::apply(product, folded)
}

/// A line of numbers, and the rows of a matrix: each number of the line meets all of a row.
#[derive(Drop)]
pub(crate) struct LineRows<'a, U> {
    pub line: &'a [i64],
    pub right: &'a [U],
    /// How far apart the rows are.
    pub stride: usize,
    ghost some: { 0 < length line.now },
}

impl<U: Numeric> LineRows<'_, U> {
    /// Puts the products of a row in neighbouring columns in place of the totals. It says whether no column has a fault.
    fn put_products(&self, column: usize, row: usize, totals: &mut [i64]) -> bool
        requires row { row < length self.now.line.now }
        requires within { (k : ℕ) → k < length self.now.line.now → column + k * self.now.stride + length totals.old ≤ length self.now.right.now }
        ensures values { let s = self.now in
            result ≡ true → AreWritten (λ j. row_item s.line.now (map U.number_in s.right.now) s.stride (column + j) row) 0 (length totals.old) totals.new }
        ensures len { length totals.new ≡ length totals.old }
    {
        for j in 0..totals.len() {
            let number = number_at(self.right, column + j + row * self.stride);
            match Times::apply(self.line[row], number) {
                Ok(product) => put(totals, j, product),
                Err(_) => return false,
            }
        }
        true
    }

    /// Folds the products of a row in neighbouring columns onto the totals of the rows after it. It says whether no column has a fault.
    fn fold_products(&self, column: usize, row: usize, totals: &mut [i64]) -> bool
        requires row { row < length self.now.line.now }
        requires within { (k : ℕ) → k < length self.now.line.now → column + k * self.now.stride + length totals.old ≤ length self.now.right.now }
        ensures values { let s = self.now in
            result ≡ true → AreWritten (λ j. number_step PlusNamed (row_item s.line.now (map U.number_in s.right.now) s.stride (column + j) row) (Ok (slice_index_or totals.old j (pos 0)))) 0 (length totals.old) totals.new }
        ensures len { length totals.new ≡ length totals.old }
    {
        for j in 0..totals.len() {
            let number = number_at(self.right, column + j + row * self.stride);
            match with_product(self.line[row], number, totals[j]) {
                Ok(total) => put(totals, j, total),
                Err(_) => return false,
            }
        }
        true
    }

    /// Puts the folds of the products of all rows in neighbouring columns in place of the totals, each step judged. It says whether no
    /// column has a fault.
    pub(crate) fn put_folds(&self, column: usize, totals: &mut [i64]) -> bool
        requires within { (k : ℕ) → k < length self.now.line.now → column + k * self.now.stride + length totals.old ≤ length self.now.right.now }
        ensures folds { let s = self.now in
            result ≡ true → AreRowFolds s.line.now (map U.number_in s.right.now) s.stride column 0 (length s.line.now - 1) totals.new }
        ensures len { length totals.new ≡ length totals.old }
    {
        let mut row = self.line.len() - 1;
        let mut is_sure = self.put_products(column, row, totals);
        while is_sure && row > 0 {
            row -= 1;
            is_sure = self.fold_products(column, row, totals);
        }
        is_sure
    }
}
