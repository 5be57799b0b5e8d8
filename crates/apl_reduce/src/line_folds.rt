//! Right folds of elements at equal distances.
ghost use Rattle.std.specs.Prelude.{◌≡◌, ◌+◌, ◌-◌, ◌*◌, ◌<◌, ◌≤◌, IfSome, length, map};
ghost use Rattle.apl_pool.specs.declared.kernel.TheConstants.{MOST_PLACES};
ghost use Rattle.apl_reduce.specs.Folded.{folded, element_along};
ghost use Rattle.apl_reduce.specs.FourFolds.{AreRuns, AreLineFolds};

use crate::foldable::Foldable;
use crate::folding::element_at;
use crate::four::Four;
use apl_pool::Fault;
use apl_scalar::dyadic_elements;
use apl_scalar::function_types::Function;

/// The right fold of `count` elements that are `stride` apart from place `first` on.
#[inline(never)]
pub(crate) fn fold_along<F: Function, T: Foldable>(
    elements: &[T],
    first: usize,
    stride: usize,
    count: usize,
) -> Result<i64, Fault>
    requires two { 2 ≤ count }
    requires within { first + (count - 1) * stride < length elements.now }
    requires most { length elements.now ≤ MOST_PLACES }
    ensures { result ≡ folded F.FUNCTION (element_along (map T.elem_of elements.now) first stride) 0 (count - 2) }
{
    let more = count - 2;
    let left = first + more * stride;
    let last = element_at(elements, left + stride);
    match dyadic_elements::<F>(element_at(elements, left), last) {
        Ok(total) => T::fold_onto::<F>(elements, first, stride, more, total),
        Err(fault) => Err(fault),
    }
}

/// The right fold of the last `count` elements of each of four lines, which are `done` after its start, if none has a fault.
fn last_folds<F: Function, T: Foldable>(
    elements: &[T],
    starts: Four<usize>,
    done: usize,
    count: usize,
) -> Option<Four<i64>>
    requires two { 2 ≤ count }
    requires within { AreRuns starts (done + count) (length elements.now) }
    requires most { length elements.now ≤ MOST_PLACES }
    ensures { IfSome result (λ folds. AreLineFolds F.FUNCTION (map T.elem_of elements.now) starts done count folds) }
{
    let first = fold_along::<F, T>(elements, starts.first + done, 1, count).ok()?;
    let second = fold_along::<F, T>(elements, starts.second + done, 1, count).ok()?;
    let third = fold_along::<F, T>(elements, starts.third + done, 1, count).ok()?;
    let fourth = fold_along::<F, T>(elements, starts.fourth + done, 1, count).ok()?;
    Some(Four {
        first,
        second,
        third,
        fourth,
    })
}

/// The right folds of four lines of `count` neighbours, read side by side, unless this is not quicker, or one is in doubt. The last two or
/// three of each are folded first, so that pairs are left.
pub(crate) fn fold_lines<F: Function, T: Foldable>(
    elements: &[T],
    starts: Four<usize>,
    count: usize,
) -> Option<Four<i64>>
    requires two { 2 ≤ count }
    requires within { AreRuns starts count (length elements.now) }
    requires most { length elements.now ≤ MOST_PLACES }
    ensures { IfSome result (λ folds. AreLineFolds F.FUNCTION (map T.elem_of elements.now) starts 0 count folds) }
{
    let pairs = count / 2 - 1;
    let done = 2 * pairs;
    let totals = last_folds::<F, T>(elements, starts, done, count - done)?;
    T::fold_pairs::<F>(elements, starts, pairs, totals)
}
