//! The items of inner products at their places.
ghost use Rattle.std.specs.Prelude.{◌≡◌, ℕ, ◌+◌, ◌*◌, ◌/◌, ◌%◌, ◌<◌, length};
ghost use Rattle.apl_reduce.specs.Layouts.{IsWithin};

use crate::dyadic::Dyadic;
use crate::items::Items;
use crate::layouts::Layout;
use apl_answer::ElementType;
use apl_divisor::Divisor;
use apl_pool::Fault;

/// The items at one place: a function of an element of a line and one of another line.
#[derive(Drop)]
pub(crate) struct LineItems<'a, T, U, P: Dyadic> {
    pub left: &'a [T],
    pub left_start: usize,
    pub left_stride: usize,
    pub right: &'a [U],
    pub right_start: usize,
    pub right_stride: usize,
    pub count: usize,
    pub pairing: P,
    ghost left_within: { (k : ℕ) → k < count → left_start + k * left_stride < length left.now },
    ghost right_within: { (k : ℕ) → k < count → right_start + k * right_stride < length right.now },
}

impl<T: ElementType, U: ElementType, P: Dyadic> Items for LineItems<'_, T, U, P> {
    ghost use Rattle.std.specs.Prelude.{map};
    ghost use Rattle.apl_scalar.specs.Meeting.{meeting_number};

    ghost outcome = { λ x. meeting_number (P.function x.pairing) (map T.elem_of x.left.now) x.left_start x.left_stride (map U.elem_of x.right.now) x.right_start x.right_stride };

    ghost item_count = { λ x. x.count };

    #[inline(always)]
    fn count(&self) -> usize {
        self.count
    }

    #[inline(always)]
    fn at(&self, k: usize) -> Result<i64, Fault> {
        let left = self.left[self.left_start + k * self.left_stride];
        let right = self.right[self.right_start + k * self.right_stride];
        self.pairing.of(left.elem(), right.elem())
    }
}

/// The items at each place of an inner product.
#[derive(Drop)]
pub(crate) struct ProductItems<'a, T, U, P: Dyadic> {
    pub layout: &'a Layout,
    pub columns: Divisor,
    pub left: &'a [T],
    pub right: &'a [U],
    pub pairing: P,
    ghost columns_are: { columns ≡ layout.now.columns },
    ghost within: { IsWithin layout.now (length left.now) (length right.now) },
}

impl<'a, T, U, P: Dyadic> ProductItems<'a, T, U, P> {
    /// The items at a place.
    #[inline(always)]
    pub(crate) fn line(&self, place: usize) -> LineItems<'a, T, U, P>
        requires { place < self.now.layout.now.count }
        ensures left { result.left.now ≡ self.now.left.now }
        ensures left_start { result.left_start ≡ place / self.now.layout.now.columns * self.now.layout.now.left.line }
        ensures left_stride { result.left_stride ≡ self.now.layout.now.left.item }
        ensures right { result.right.now ≡ self.now.right.now }
        ensures right_start { result.right_start ≡ place % self.now.layout.now.columns * self.now.layout.now.right.line }
        ensures right_stride { result.right_stride ≡ self.now.layout.now.right.item }
        ensures count { result.count ≡ self.now.layout.now.items }
        ensures pairing { result.pairing ≡ self.now.pairing }
    {
        let layout = self.layout;
        LineItems {
            left: self.left,
            left_start: self.columns.quotient(place) * layout.left.line,
            left_stride: layout.left.item,
            right: self.right,
            right_start: self.columns.remainder(place) * layout.right.line,
            right_stride: layout.right.item,
            count: layout.items,
            pairing: self.pairing,
        }
    }
}
