//! One element with each of others, as in a row of an outer product, and the elements of two lists that meet, as in an inner product.
ghost use Rattle.std.specs.Prelude.{◌≡◌, ◌<◌, ◌≤◌, pos, true, IsErr, length, map, slice_index_or};
ghost use Rattle.apl_array.specs.declared.array.Elem.TheVariants.{Int};
ghost use Rattle.apl_pool.specs.declared.kernel.TheConstants.{MOST_PLACES};
ghost use Rattle.apl_pool.specs.Runs.{AreWritten};
ghost use Rattle.apl_scalar.specs.Meeting.{meeting_number};
ghost use Rattle.apl_scalar.specs.Scalar.{dyadic_of};

use crate::function_types::Function;
use crate::kernels::{PairResults, TwoArguments};
use crate::loops::HeldLoops;
use crate::operands::{Spaced, Value, Whole};
use crate::runs::write_results;
use apl_answer::ElementType;
use apl_array::ScalarFunction;

/// Writes what a function gives of `x` and each of others into the room for them, as they are held, up to the first that has a fault. It
/// answers how many it wrote, and takes no memory.
#[inline(always)]
pub fn write_row<T: ElementType, U: ElementType, H: HeldLoops>(
    f: ScalarFunction,
    x: T,
    others: &[U],
    room: &mut [H],
) -> usize
    requires held { H.is_of f ≡ true }
    requires most { length others.now ≤ MOST_PLACES }
    requires room { length others.now ≤ length room.old }
    ensures within { result ≤ length others.now }
    ensures values { AreWritten (λ k. H.held (dyadic_of f (T.elem_of x) (slice_index_or (map U.elem_of others.now) k (Int (pos 0))))) 0 result room.new }
    ensures fault { result < length others.now → IsErr (H.held (dyadic_of f (T.elem_of x) (slice_index_or (map U.elem_of others.now) result (Int (pos 0))))) }
    ensures len { length room.new ≡ length room.old }
{
    let pairs = TwoArguments {
        left: Value(x),
        right: Whole(others),
    };
    let count = others.len();
    match H::write_results_of(f, pairs, 0, count, &mut room[..count]) {
        Ok(()) => count,
        Err(first) => first.place,
    }
}

/// Writes what the function of type `F` gives of the elements of two lists that meet at each place into the room for them, up to the
/// first that has a fault. It answers how many it wrote, and takes no memory.
#[inline(always)]
fn write_spaced<F: Function + Copy, T: ElementType, U: ElementType>(
    left: Spaced<T>,
    right: Spaced<U>,
    room: &mut [i64],
) -> usize
    requires same { right.count ≡ left.count }
    requires most { left.count ≤ MOST_PLACES }
    requires room { left.count ≤ length room.old }
    ensures within { result ≤ left.entry.count }
    ensures values { AreWritten (meeting_number F.FUNCTION (map T.elem_of left.entry.elements.now) left.entry.first left.entry.stride (map U.elem_of right.entry.elements.now) right.entry.first right.entry.stride) 0 result room.new }
    ensures fault { result < left.entry.count → IsErr (meeting_number F.FUNCTION (map T.elem_of left.entry.elements.now) left.entry.first left.entry.stride (map U.elem_of right.entry.elements.now) right.entry.first right.entry.stride result) }
    ensures len { length room.new ≡ length room.old }
{
    let results = PairResults::<Spaced<T>, Spaced<U>, F>::new(left, right);
    let count = left.count;
    match write_results(results, 0, count, &mut room[..count]) {
        Ok(()) => count,
        Err(first) => first.place,
    }
}

/// Writes what the function of type `F` gives of the elements of two lists that meet at each place into the room for them, up to the
/// first that has a fault. It answers how many it wrote, and takes no memory. A loop over neighbours has no strides.
pub fn write_items<F: Function + Copy, T: ElementType, U: ElementType>(
    left: Spaced<T>,
    right: Spaced<U>,
    room: &mut [i64],
) -> usize
    requires same { right.count ≡ left.count }
    requires most { left.count ≤ MOST_PLACES }
    requires room { left.count ≤ length room.old }
    ensures within { result ≤ left.entry.count }
    ensures values { AreWritten (meeting_number F.FUNCTION (map T.elem_of left.entry.elements.now) left.entry.first left.entry.stride (map U.elem_of right.entry.elements.now) right.entry.first right.entry.stride) 0 result room.new }
    ensures fault { result < left.entry.count → IsErr (meeting_number F.FUNCTION (map T.elem_of left.entry.elements.now) left.entry.first left.entry.stride (map U.elem_of right.entry.elements.now) right.entry.first right.entry.stride result) }
    ensures len { length room.new ≡ length room.old }
{
    if left.stride == 1 && right.stride == 1 {
        return write_spaced::<F, T, U>(left.as_neighbours(), right.as_neighbours(), room);
    }
    write_spaced::<F, T, U>(left, right, room)
}
