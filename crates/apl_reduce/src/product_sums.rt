//! Sums of products of neighbours. Each is made in one pass over its line, and item by item if that is in doubt.
ghost use Rattle.std.specs.Prelude.{◌≡◌, ℕ, ◌+◌, ◌*◌, ◌^◌, ◌<◌, ◌≤◌, List, ℤ, IfSome, Ok, length, map};
ghost use Rattle.apl_array.specs.declared.array.Elem.TheVariants.{Int};
ghost use Rattle.apl_array.specs.declared.function.ScalarFunction.TheVariants.{Plus as PlusNamed, Times as TimesNamed};
ghost use Rattle.apl_scalar.specs.Meeting.{meeting_number};
ghost use Rattle.apl_reduce.specs.Filled.{IsFilled};
ghost use Rattle.apl_reduce.specs.Items.{as_number, judged_items};
ghost use Rattle.apl_reduce.specs.Layouts.{IsWithin, inner_number};
ghost use Rattle.apl_reduce.specs.Magnitudes.{IsProductSum};

use crate::dyadic::Typed;
use crate::items::reduced;
use crate::layouts::Layout;
use crate::magnitudes::sums_are_small;
use crate::near_sums::{above_least, wrapped_sum};
use crate::product_items::{LineItems, ProductItems};
use crate::sums::narrow_product;
use apl_answer::{Numeric, elements_are_numbers, number_at};
use apl_array::range_is_decided;
use apl_divisor::Divisor;
use apl_pool::{Crew, Fault, Kernel, Stop, fill};
use apl_scalar::function_types::{Plus, Times};
use std::marker::PhantomData;

/// How far from 0 the numbers of two lists that meet may be.
#[derive(Clone, Copy)]
pub(crate) struct Bounds {
    pub left: u64,
    pub right: u64,
}

/// A sum of products. If one of the numbers is far from 0, it may have wrapped.
#[derive(Clone, Copy)]
pub(crate) struct ProductSum {
    sum: i64,
    /// The bits that one or more of the left numbers has, each counted from the least one that is near 0.
    left: u64,
    /// The same of the right numbers.
    right: u64,
}

impl ProductSum {
    /// The sum of no product.
    #[inline(always)]
    fn none() -> ProductSum
        ensures { (left right : List ℤ) (near : Bounds) (first : ℕ) → IsProductSum left right near first 0 result }
    {
        ProductSum {
            sum: 0,
            left: 0,
            right: 0,
        }
    }

    /// The sum with the product of the numbers that meet at a place.
    #[inline(always)]
    fn with_next<T: Numeric, U: Numeric>(
        &self,
        left: &[T],
        right: &[U],
        near: Bounds,
        place: usize,
    ) -> ProductSum
        requires left { place < length left.now }
        requires right { place < length right.now }
        requires near { (near.left ≤ 2 ^ 30) × (near.right ≤ 2 ^ 30) }
        ensures { (first count : ℕ) → first + count ≡ place → IsProductSum (map T.number_in left.now) (map U.number_in right.now) near first count self.now → IsProductSum (map T.number_in left.now) (map U.number_in right.now) near first (count + 1) result }
    {
        let x = number_at(left, place);
        let y = number_at(right, place);
        ProductSum {
            sum: wrapped_sum(self.sum, narrow_product(x, y)),
            left: self.left | above_least(x, near.left),
            right: self.right | above_least(y, near.right),
        }
    }

    /// The sum with that of the products that are next.
    #[inline(always)]
    fn joined(&self, next: &ProductSum) -> ProductSum
        ensures { (left right : List ℤ) (near : Bounds) (first count more : ℕ) → IsProductSum left right near first count self.now → IsProductSum left right near (first + count) more next.now
            → IsProductSum left right near first (count + more) result }
    {
        ProductSum {
            sum: wrapped_sum(self.sum, next.sum),
            left: self.left | next.left,
            right: self.right | next.right,
        }
    }
}

/// The sum of the products of the numbers that meet in two lists. A turn takes a pair of each half, since memory gives two streams
/// faster than one. The loop has no branches, and a processor multiplies several numbers at once.
#[inline(never)]
fn product_sum<T: Numeric, U: Numeric>(left: &[T], right: &[U], near: Bounds) -> ProductSum
    requires same { length right.now ≡ length left.now }
    requires near { (near.left ≤ 2 ^ 30) × (near.right ≤ 2 ^ 30) }
    ensures { IsProductSum (map T.number_in left.now) (map U.number_in right.now) near 0 (length left.now) result }
{
    let half = left.len() / 2;
    let mut low = ProductSum::none();
    let mut high = ProductSum::none();
    for k in 0..half {
        low = low.with_next(left, right, near, k);
        high = high.with_next(left, right, near, half + k);
    }
    let both = low.joined(&high);
    if 2 * half < left.len() {
        both.with_next(left, right, near, 2 * half)
    } else {
        both
    }
}

/// How many numbers at either end of a list are looked at before its bound is chosen.
const FEW: usize = 32;

/// How far the first and the last of some numbers are from 0: the rest may well be about so far.
fn typical<T: Numeric>(numbers: &[T]) -> u64 {
    let mut most = 0;
    for k in 0..numbers.len().min(FEW) {
        let (first, last) = (
            number_at(numbers, k),
            number_at(numbers, numbers.len() - 1 - k),
        );
        most = first.unsigned_abs().max(last.unsigned_abs()).max(most);
    }
    most
}

/// How far from 0 the numbers of two lists may be, of which so many meet at each place. Then no sum of their products leaves the range. The
/// list whose numbers seem to be farther from 0 may have greater ones.
pub(crate) fn bounds_of<T: Numeric, U: Numeric>(left: &[T], right: &[U], count: usize) -> Bounds
    ensures near { (result.left ≤ 2 ^ 30) × (result.right ≤ 2 ^ 30) }
    ensures small { result.left * result.right * count < 2 ^ 63 }
{
    let (left_most, right_most) = (typical(left).max(1), typical(right).max(1));
    let mut near = Bounds {
        left: 1 << 30,
        right: 1 << 30,
    };
    while !sums_are_small(near.left, near.right, count) {
        if near.left / left_most > near.right / right_most {
            near.left /= 2;
        } else {
            near.right /= 2;
        }
    }
    near
}

/// The sum of the products of some items that are neighbours, if all numbers are within these bounds.
fn sure_sum<T: Numeric, U: Numeric>(
    items: &LineItems<'_, T, U, Typed<Times>>,
    near: Bounds,
) -> Option<i64>
    requires some { 0 < items.now.count }
    requires near { (near.left ≤ 2 ^ 30) × (near.right ≤ 2 ^ 30) }
    requires small { near.left * near.right * items.now.count < 2 ^ 63 }
    requires left { items.now.left_stride ≡ 1 }
    requires right { items.now.right_stride ≡ 1 }
    ensures { let x = items.now in
        let item = meeting_number TimesNamed (map T.elem_of x.left.now) x.left_start x.left_stride (map U.elem_of x.right.now) x.right_start x.right_stride in
        IfSome result (λ z. as_number (judged_items item PlusNamed x.count) ≡ Ok z) }
{
    range_is_decided();
    elements_are_numbers(items.left);
    elements_are_numbers(items.right);
    let left = &items.left[items.left_start..items.left_start + items.count];
    let right = &items.right[items.right_start..items.right_start + items.count];
    let line = product_sum(left, right, near);
    if line.left < 2 * near.left && line.right < 2 * near.right {
        Some(line.sum)
    } else {
        None
    }
}

/// The sums of products at the places of an inner product whose items are neighbours.
#[derive(Drop)]
struct ProductSums<'a, T, U> {
    items: ProductItems<'a, T, U, Typed<Times>>,
    /// How far from 0 the numbers of a line may be.
    near: Bounds,
    ghost near_most: { (near.left ≤ 2 ^ 30) × (near.right ≤ 2 ^ 30) },
    ghost small: { near.left * near.right * items.layout.now.items < 2 ^ 63 },
    ghost some: { 0 < items.layout.now.items },
    ghost left_near: { items.layout.now.left.item ≡ 1 },
    ghost right_near: { items.layout.now.right.item ≡ 1 },
}

impl<T: Numeric, U: Numeric> Kernel for ProductSums<'_, T, U> {
    ghost use Rattle.std.specs.Prelude.{map};
    ghost use Rattle.apl_array.specs.declared.array.Elem.TheVariants.{Int};
    ghost use Rattle.apl_array.specs.declared.function.ScalarFunction.TheVariants.{Plus as PlusNamed, Times as TimesNamed};
    ghost use Rattle.apl_reduce.specs.Layouts.{inner_number};

    type Out = i64;

    ghost place_count = { λ k. k.items.layout.now.count };

    ghost outcome = { λ k place. inner_number k.items.layout.now (map T.elem_of k.items.left.now) (map U.elem_of k.items.right.now) PlusNamed TimesNamed place };

    fn count(&self) -> usize {
        self.items.layout.count
    }

    fn piece(&self) -> usize {
        self.items.layout.piece()
    }

    fn work(&self) -> usize {
        self.items.layout.work()
    }

    fn at(&self, place: usize) -> Result<i64, Fault> {
        let items = self.items.line(place);
        if let Some(sum) = sure_sum(&items, self.near) {
            return Ok(sum);
        }
        reduced(&items, Typed::<Plus>(PhantomData))
    }
}

/// The sums of products at all places.
pub(crate) fn fill_product_sums<T: Numeric + Sync, U: Numeric + Sync, W: Crew>(
    workers: &W,
    layout: &Layout,
    left: &[T],
    right: &[U],
) -> Result<Vec<i64>, Stop>
    requires within { IsWithin layout.now (length left.now) (length right.now) }
    requires some { 0 < layout.now.items }
    requires left_near { layout.now.left.item ≡ 1 }
    requires right_near { layout.now.right.item ≡ 1 }
    ensures { IsFilled (inner_number layout.now (map T.elem_of left.now) (map U.elem_of right.now) PlusNamed TimesNamed) layout.now.count result }
{
    let items = ProductItems {
        layout,
        columns: Divisor::new(layout.columns),
        left,
        right,
        pairing: Typed::<Times>(PhantomData),
    };
    let near = bounds_of(left, right, layout.items);
    fill(workers, &ProductSums { items, near })
}
