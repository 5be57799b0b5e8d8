//! Kinds of elements, each with its ways to fold them.
ghost use Rattle.std.specs.Prelude.{◌≡◌, ◌+◌, ◌*◌, ◌<◌, ◌≤◌, Ok, length, map};
ghost use Rattle.apl_pool.specs.declared.kernel.TheConstants.{MOST_PLACES};
ghost use Rattle.apl_reduce.specs.Folded.{folded_onto, element_along};

use crate::folded_rows::{Doubts, fold_each, fold_number_rows};
use crate::folding::fold_many;
use crate::four::Four;
use crate::run_folds::{fold_neighbours, has_quick_runs, quick_folds};
use crate::truth_folds::{fold_truths, has_truth_runs};
use apl_answer::{ElementType, Numeric};
use apl_pool::Fault;
use apl_scalar::function_types::Function;

/// Elements of one kind, which are folded onto what those after them gave.
pub(crate) trait Foldable: ElementType {
    ghost use Rattle.std.specs.Prelude.{◌≡◌, ◌+◌, ◌*◌, ◌<◌, ◌≤◌, true, IfSome, Ok, length, map};
    ghost use Rattle.apl_pool.specs.declared.kernel.TheConstants.{MOST_PLACES};
    ghost use Rattle.apl_reduce.specs.declared.near_rows.TheConstants.{MOST_ROWS};
    ghost use Rattle.apl_reduce.specs.Folded.{folded_onto, element_along};
    ghost use Rattle.apl_reduce.specs.FourFolds.{AreRuns, AreFourFolds};
    ghost use Rattle.apl_reduce.specs.RowFolds.{AreFoldedOnto};

    /// The right fold of `count` elements that are `stride` apart from place `first` on, onto a total.
    fn fold_onto<F: Function>(
        elements: &[Self],
        first: usize,
        stride: usize,
        count: usize,
        total: i64,
    ) -> Result<i64, Fault>
        requires within { first + count * stride < length elements.now }
        requires most { length elements.now ≤ MOST_PLACES }
        ensures { result ≡ folded_onto F.FUNCTION (element_along (map Self.elem_of elements.now) first stride) 0 count (Ok total) };

    /// Folds the items of `count` more rows on the left into the totals, in one pass over the totals. It says whether no place has a fault,
    /// or may have one.
    fn fold_pass<F: Function>(
        elements: &[Self],
        first: usize,
        stride: usize,
        count: usize,
        doubts: Doubts,
        totals: &mut [i64],
    ) -> bool
        requires few { count ≤ MOST_ROWS }
        requires within { first + count * stride + length totals.old ≤ length elements.now }
        requires most { length elements.now ≤ MOST_PLACES }
        ensures values { result ≡ true → AreFoldedOnto F.FUNCTION (map Self.elem_of elements.now) first stride count totals.old totals.new }
        ensures len { length totals.new ≡ length totals.old };

    /// The right folds of four runs of pairs of neighbours onto their totals at once, unless this is not quicker, or one is in doubt.
    fn fold_pairs<F: Function>(
        _elements: &[Self],
        _starts: Four<usize>,
        _pairs: usize,
        _totals: Four<i64>,
    ) -> Option<Four<i64>>
        requires within { AreRuns _starts (2 * _pairs) (length _elements.now) }
        ensures { IfSome result (λ folds. AreFourFolds F.FUNCTION (map Self.elem_of _elements.now) _starts (2 * _pairs) _totals folds) }
    {
        None
    }
}

/// The right fold of numbers onto what those after them gave. Runs of neighbours are folded at once.
#[inline(always)]
fn fold_numbers<F: Function, T: Numeric>(
    elements: &[T],
    first: usize,
    stride: usize,
    count: usize,
    total: i64,
) -> Result<i64, Fault>
    requires within { first + count * stride < length elements.now }
    requires most { length elements.now ≤ MOST_PLACES }
    ensures { result ≡ folded_onto F.FUNCTION (element_along (map T.elem_of elements.now) first stride) 0 count (Ok total) }
{
    if stride == 1 && has_quick_runs::<F>() {
        return fold_neighbours::<F, T>(elements, first, count, total);
    }
    fold_many::<F, T>(elements, first, stride, count, total)
}

impl Foldable for i64 {
    #[inline(always)]
    fn fold_onto<F: Function>(
        elements: &[i64],
        first: usize,
        stride: usize,
        count: usize,
        total: i64,
    ) -> Result<i64, Fault> {
        fold_numbers::<F, i64>(elements, first, stride, count, total)
    }

    #[inline(always)]
    fn fold_pass<F: Function>(
        elements: &[i64],
        first: usize,
        stride: usize,
        count: usize,
        doubts: Doubts,
        totals: &mut [i64],
    ) -> bool {
        fold_number_rows::<F, i64>(elements, first, stride, count, doubts, totals)
    }

    #[inline(always)]
    fn fold_pairs<F: Function>(
        elements: &[i64],
        starts: Four<usize>,
        pairs: usize,
        totals: Four<i64>,
    ) -> Option<Four<i64>> {
        quick_folds::<F, i64>(elements, starts, pairs, totals)
    }
}

impl Foldable for i32 {
    #[inline(always)]
    fn fold_onto<F: Function>(
        elements: &[i32],
        first: usize,
        stride: usize,
        count: usize,
        total: i64,
    ) -> Result<i64, Fault> {
        fold_numbers::<F, i32>(elements, first, stride, count, total)
    }

    #[inline(always)]
    fn fold_pass<F: Function>(
        elements: &[i32],
        first: usize,
        stride: usize,
        count: usize,
        doubts: Doubts,
        totals: &mut [i64],
    ) -> bool {
        fold_number_rows::<F, i32>(elements, first, stride, count, doubts, totals)
    }

    #[inline(always)]
    fn fold_pairs<F: Function>(
        elements: &[i32],
        starts: Four<usize>,
        pairs: usize,
        totals: Four<i64>,
    ) -> Option<Four<i64>> {
        quick_folds::<F, i32>(elements, starts, pairs, totals)
    }
}

impl Foldable for bool {
    #[inline(always)]
    fn fold_onto<F: Function>(
        elements: &[bool],
        first: usize,
        stride: usize,
        count: usize,
        total: i64,
    ) -> Result<i64, Fault> {
        if stride == 1 && has_truth_runs(F::FUNCTION) {
            return fold_truths::<F>(elements, first, count, total);
        }
        fold_many::<F, bool>(elements, first, stride, count, total)
    }

    #[inline(always)]
    fn fold_pass<F: Function>(
        elements: &[bool],
        first: usize,
        stride: usize,
        count: usize,
        doubts: Doubts,
        totals: &mut [i64],
    ) -> bool {
        fold_number_rows::<F, bool>(elements, first, stride, count, doubts, totals)
    }
}

impl Foldable for char {
    #[inline(always)]
    fn fold_onto<F: Function>(
        elements: &[char],
        first: usize,
        stride: usize,
        count: usize,
        total: i64,
    ) -> Result<i64, Fault> {
        fold_many::<F, char>(elements, first, stride, count, total)
    }

    #[inline(always)]
    fn fold_pass<F: Function>(
        elements: &[char],
        first: usize,
        stride: usize,
        count: usize,
        _doubts: Doubts,
        totals: &mut [i64],
    ) -> bool {
        fold_each::<F, char>(elements, first, stride, count, totals)
    }
}
