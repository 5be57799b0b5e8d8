//! Inner products `+.×` of few lines and a matrix of several columns, row by row. The right argument is read as it lies, once
//! for each line.
ghost use Rattle.std.specs.Prelude.{◌≡◌, ℕ, pos, ◌+◌, ◌*◌, ◌/◌, ◌%◌, ◌^◌, ◌<◌, ◌≤◌, true, length, map, slice_index_or};
ghost use Rattle.apl_array.specs.declared.array.Elem.TheVariants.{Int};
ghost use Rattle.apl_array.specs.declared.function.ScalarFunction.TheVariants.{Plus as PlusNamed, Times as TimesNamed};
ghost use Rattle.apl_pool.specs.Runs.{AreWritten};
ghost use Rattle.apl_reduce.specs.Filled.{IsFilled};
ghost use Rattle.apl_reduce.specs.Layouts.{IsWithin, inner_number};
ghost use Rattle.apl_reduce.specs.ProductRows.{IsByRows, AreRowSums};

use crate::axis_items::MOST_TOTALS;
use crate::dyadic::Typed;
use crate::items::reduced;
use crate::layouts::Layout;
use crate::line_rows::LineRows;
use crate::magnitudes::magnitude;
use crate::near_products::NearProducts;
use crate::outer_products::NARROW;
use crate::product_items::ProductItems;
use crate::product_sums::{Bounds, bounds_of};
use crate::sharing::FEWEST_COLUMNS;
use apl_answer::{Numeric, elements_are_numbers};
use apl_array::range_is_decided;
use apl_divisor::Divisor;
use apl_pool::{Crew, Fault, Kernel, Stop, fill};
use apl_scalar::function_types::{Plus, Times};
use std::marker::PhantomData;

impl Layout {
    /// Whether a sum of products goes row by row: few lines of neighbours meet rows of neighbours that are not too short.
    pub(crate) fn goes_by_rows(&self) -> bool
        ensures { result ≡ true → IsByRows self.now }
    {
        let are_rows = self.left.item == 1
            && self.right.line == 1
            && self.right.item == self.columns;
        are_rows && self.items > 0 && self.columns >= NARROW && !self.is_pass_worthwhile()
    }
}

/// The sums of products at the places of an inner product whose right argument has rows of neighbours.
#[derive(Drop)]
struct ProductRows<'a, U> {
    items: ProductItems<'a, i64, U, Typed<Times>>,
    /// How far from 0 numbers may be, so that no sum of their products leaves the range.
    near: Bounds,
    ghost near_most: { (near.left ≤ 2 ^ 30) × (near.right ≤ 2 ^ 30) },
    ghost small: { near.left * near.right * items.layout.now.items < 2 ^ 63 },
    ghost by_rows: { IsByRows items.layout.now },
}

impl<U: Numeric> Kernel for ProductRows<'_, U> {
    ghost use Rattle.std.specs.Prelude.{map};
    ghost use Rattle.apl_array.specs.declared.array.Elem.TheVariants.{Int};
    ghost use Rattle.apl_array.specs.declared.function.ScalarFunction.TheVariants.{Plus as PlusNamed, Times as TimesNamed};
    ghost use Rattle.apl_reduce.specs.Layouts.{inner_number};

    type Out = i64;

    ghost place_count = { λ k. k.items.layout.now.count };

    ghost outcome = { λ k place. inner_number k.items.layout.now (map Int k.items.left.now) (map U.elem_of k.items.right.now) PlusNamed TimesNamed place };

    fn count(&self) -> usize {
        self.items.layout.count
    }

    fn piece(&self) -> usize {
        self.items.layout.piece().max(FEWEST_COLUMNS)
    }

    fn work(&self) -> usize {
        self.items.layout.work()
    }

    fn at(&self, place: usize) -> Result<i64, Fault> {
        let items = self.items.line(place);
        reduced(&items, Typed::<Plus>(PhantomData))
    }

    fn write_run(&self, from: usize, to: usize, room: &mut [i64]) -> usize {
        if from == to {
            return from;
        }
        let len = self.run_length(from, to);
        if !self.put_run(from, &mut room[..len]) {
            return from;
        }
        from + len
    }
}

impl<'a, U: Numeric> ProductRows<'a, U> {
    /// How many places from one on up to before another go together, all of them in a line.
    fn run_length(&self, from: usize, to: usize) -> usize
        requires some { from < to }
        requires within { to ≤ self.now.items.layout.now.count }
        ensures some { 0 < result }
        ensures order { from + result ≤ to }
        ensures line { from % self.now.items.layout.now.columns + result ≤ self.now.items.layout.now.columns }
    {
        let columns = &self.items.columns;
        let rest = columns.number() - columns.remainder(from);
        rest.min(to - from).min(MOST_TOTALS)
    }

    /// The line of a place, and the rows that it meets.
    fn line_rows(&self, place: usize) -> LineRows<'a, U>
        requires { place < self.now.items.layout.now.count }
        ensures len { length result.line.now ≡ self.now.items.layout.now.items }
        ensures line { let x = self.now.items in
            (k : ℕ) → k < x.layout.now.items → slice_index_or result.line.now k (pos 0) ≡ slice_index_or x.left.now (place / x.layout.now.columns * x.layout.now.left.line + k) (pos 0) }
        ensures right { result.right.now ≡ self.now.items.right.now }
        ensures stride { result.stride ≡ self.now.items.layout.now.columns }
    {
        let items = self.items.line(place);
        LineRows {
            line: &items.left[items.left_start..items.left_start + items.count],
            right: items.right,
            stride: items.right_stride,
        }
    }

    /// Puts the sums of the products of a line and of rows in neighbouring columns in place of the totals. It says whether all numbers are
    /// near 0, and so these are the sums.
    fn put_sums(&self, rows: &LineRows<'_, U>, column: usize, totals: &mut [i64]) -> bool
        requires len { length rows.now.line.now ≡ self.now.items.layout.now.items }
        requires within { (k : ℕ) → k < length rows.now.line.now → column + k * rows.now.stride + length totals.old ≤ length rows.now.right.now }
        ensures sums { let r = rows.now in
            result ≡ true → AreRowSums r.line.now (map U.number_in r.right.now) r.stride (self.now.near.left * self.now.near.right) column (length r.line.now) totals.new }
        ensures len { length totals.new ≡ length totals.old }
    {
        if magnitude(rows.line) > self.near.left {
            return false;
        }
        let products = NearProducts {
            line: rows.line,
            right: rows.right,
            stride: rows.stride,
            near: self.near,
        };
        products.put_sums(column, totals)
    }

    /// Puts the sums at the places from `from` on, all of them in a line, in place of the totals: as if all numbers were near 0, and anew
    /// if one is not. It says whether no place has a fault.
    fn put_run(&self, from: usize, totals: &mut [i64]) -> bool
        requires some { 0 < length totals.old }
        requires within { from + length totals.old ≤ self.now.items.layout.now.count }
        requires line { from % self.now.items.layout.now.columns + length totals.old ≤ self.now.items.layout.now.columns }
        ensures values { let x = self.now.items in
            result ≡ true → AreWritten (inner_number x.layout.now (map Int x.left.now) (map U.elem_of x.right.now) PlusNamed TimesNamed) from (from + length totals.old) totals.new }
        ensures len { length totals.new ≡ length totals.old }
    {
        range_is_decided();
        elements_are_numbers(self.items.right);
        let rows = self.line_rows(from);
        let column = self.items.columns.remainder(from);
        self.put_sums(&rows, column, totals) || rows.put_folds(column, totals)
    }
}

/// The sums of products at all places, row by row.
pub(crate) fn fill_product_rows<U: Numeric + Sync, W: Crew>(
    workers: &W,
    layout: &Layout,
    left: &[i64],
    right: &[U],
) -> Result<Vec<i64>, Stop>
    requires within { IsWithin layout.now (length left.now) (length right.now) }
    requires by_rows { IsByRows layout.now }
    ensures { IsFilled (inner_number layout.now (map Int left.now) (map U.elem_of right.now) PlusNamed TimesNamed) layout.now.count result }
{
    let items = ProductItems {
        layout,
        columns: Divisor::new(layout.columns),
        left,
        right,
        pairing: Typed::<Times>(PhantomData),
    };
    let near = bounds_of(left, right, layout.items);
    fill(workers, &ProductRows { items, near })
}
