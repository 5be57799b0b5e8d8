//! Right folds of elements at equal distances, one by one.
ghost use Rattle.std.specs.Prelude.{◌≡◌, ◌+◌, ◌*◌, ◌<◌, ◌≤◌, pos, Ok, length, map, slice_index_or};
ghost use Rattle.apl_array.specs.declared.array.Elem.TheVariants.{Int};
ghost use Rattle.apl_pool.specs.declared.kernel.TheConstants.{MOST_PLACES};
ghost use Rattle.apl_reduce.specs.Folded.{folded_onto, element_along};

use apl_answer::ElementType;
use apl_array::Elem;
use apl_pool::Fault;
use apl_scalar::dyadic_elements;
use apl_scalar::function_types::Function;

/// The element at a place, of either kind.
#[inline(always)]
pub(crate) fn element_at<T: ElementType>(elements: &[T], place: usize) -> Elem
    requires { place < length elements.now }
    ensures { result ≡ slice_index_or (map T.elem_of elements.now) place (Int (pos 0)) }
{
    elements[place].elem()
}

/// The right fold of `count` elements that are `stride` apart from place `first` on, onto what those after them gave.
#[inline(always)]
pub(crate) fn fold_items<F: Function, T: ElementType>(
    elements: &[T],
    first: usize,
    stride: usize,
    count: usize,
    total: i64,
) -> Result<i64, Fault>
    requires within { first + count * stride < length elements.now }
    requires most { length elements.now ≤ MOST_PLACES }
    ensures { result ≡ folded_onto F.FUNCTION (element_along (map T.elem_of elements.now) first stride) 0 count (Ok total) }
{
    let mut total = total;
    let mut place = first + count * stride;
    for _done in 0..count {
        place -= stride;
        match dyadic_elements::<F>(element_at(elements, place), Elem::Int(total)) {
            Ok(number) => total = number,
            Err(fault) => return Err(fault),
        }
    }
    Ok(total)
}

/// How many items are folded in one turn of a loop.
const TURN: usize = 4;

/// The same of many elements, several in a turn.
pub(crate) fn fold_many<F: Function, T: ElementType>(
    elements: &[T],
    first: usize,
    stride: usize,
    count: usize,
    total: i64,
) -> Result<i64, Fault>
    requires within { first + count * stride < length elements.now }
    requires most { length elements.now ≤ MOST_PLACES }
    ensures { result ≡ folded_onto F.FUNCTION (element_along (map T.elem_of elements.now) first stride) 0 count (Ok total) }
{
    let mut total = total;
    let mut rest = count;
    while rest >= TURN {
        rest -= TURN;
        match fold_items::<F, T>(elements, first + rest * stride, stride, TURN, total) {
            Ok(number) => total = number,
            Err(refused) => return Err(refused),
        }
    }
    fold_items::<F, T>(elements, first, stride, rest, total)
}
