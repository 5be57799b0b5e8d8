//! The folds of numbers along their columns, in one pass over the rows.
ghost use Rattle.std.specs.Prelude.{◌≡◌, true, ◌+◌, ◌*◌, ◌<◌, ◌≤◌, [], IfOk, IfSome, length, map, vec_len};
ghost use Rattle.apl_pool.specs.declared.kernel.TheConstants.{MOST_PLACES};
ghost use Rattle.apl_scalar.specs.Scalar.{dyadic_numbers};
ghost use Rattle.apl_summary.specs.Columns.{AreColumnFolds};
ghost use Rattle.apl_summary.specs.Functions.{has_summary};
ghost use Rattle.apl_summary.specs.Running.{IsSummaryOrNone};

use crate::running::{fold_behind, with_next};
use crate::summarized::room_for;
use apl_answer::Numeric;
use apl_array::ScalarFunction;
use apl_pool::{Crew, MOST_PLACES, Summary};
use apl_summary::{PrefixState, Running, append_columns_after, with_summary};
use std::alloc::AllocError;

/// What some numbers do, of which there may be none. It can tell the fold of each number after them, unless that is a fault.
#[derive(Clone, Copy, Drop)]
struct ExactState<S: Summary> {
    before: Option<S>,
}

/// Whether a summary of one number more may be made.
#[inline(always)]
fn takes_one_more<S: Summary<Item = i64>>(before: &Option<S>) -> bool
    ensures { result ≡ true → IfSome before.now (λ s. S.item_count s + 1 ≤ MOST_PLACES) }
{
    match before {
        None => true,
        Some(before) => (before.items() as usize) < MOST_PLACES,
    }
}

impl<S: Summary<Item = i64> + Copy + Drop> PrefixState for ExactState<S> {
    ghost use Rattle.apl_summary.specs.Running.{IsSummaryOrNone};

    ghost step = { S.step };

    ghost is_of = { λ s numbers. IsSummaryOrNone S.step S.item_count S.outcome numbers s.before };

    #[inline(always)]
    fn with(&self, number: i64) -> Option<(i64, Self)> {
        let Ok(value) = fold_behind(&self.before, number) else {
            return None;
        };
        if !takes_one_more(&self.before) {
            return None;
        }
        let before = Some(with_next(&self.before, number));
        Some((value, ExactState { before }))
    }
}

/// The folds of all numbers of its column up to each place, up to the first that has a fault. The numbers are in blocks of `items` rows of
/// `inner` numbers.
fn fold_columns_by<S: Running + Copy + Drop, T: Numeric, W: Crew>(
    workers: &W,
    numbers: &[T],
    items: usize,
    inner: usize,
) -> Result<Vec<i64>, AllocError>
    requires items { 0 < items }
    requires inner { 0 < inner }
    ensures most { IfOk result (λ v. vec_len v ≤ length numbers.now) }
    ensures folds { IfOk result (λ v. AreColumnFolds S.step (map T.number_in numbers.now) items inner (vec_len v) v.items) }
{
    let room = room_for(workers, numbers.len())?;
    let mut values = S::append_columns(workers.alloc(), numbers, items, inner, room)?;
    if values.len() == numbers.len() {
        return Ok(values);
    }
    values.clear();
    let front = ExactState::<S> { before: None };
    append_columns_after(front, workers.alloc(), numbers, items, inner, values)
}

/// The folds of all numbers of its column up to each place, by a function whose folds have summaries. They end before the first that has
/// a fault.
pub(crate) fn fold_columns<T: Numeric, W: Crew>(
    workers: &W,
    f: ScalarFunction,
    numbers: &[T],
    items: usize,
    inner: usize,
) -> Result<Vec<i64>, AllocError>
    requires summary { has_summary f ≡ true }
    requires items { 0 < items }
    requires inner { 0 < inner }
    ensures most { IfOk result (λ v. vec_len v ≤ length numbers.now) }
    ensures folds { IfOk result (λ v. AreColumnFolds (dyadic_numbers f) (map T.number_in numbers.now) items inner (vec_len v) v.items) }
{
    with_summary!(
        f,
        fold_columns_by::<S, T, W>(workers, numbers, items, inner),
        unreachable!()
    )
}
