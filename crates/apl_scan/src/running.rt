//! What some numbers do, and one more after them.
ghost use Rattle.std.specs.Prelude.{◌≡◌, ◌+◌, ◌≤◌, ℤ, List, IfSome};
ghost use Rattle.apl_pool.specs.declared.kernel.TheConstants.{MOST_PLACES};
ghost use Rattle.apl_pool.specs.Summaries.{fold_onto};
ghost use Rattle.apl_summary.specs.Running.{IsSummaryOrNone};
ghost use Rattle.apl_scan.specs.Running.{IsWithNext};

use apl_pool::{Fault, Summary};

/// The summary of numbers, of which there may be none, and one more after them.
#[inline(always)]
pub(crate) fn with_next<S: Summary<Item = i64> + Drop>(before: &Option<S>, number: i64) -> S
    requires { IfSome before.now (λ s. S.item_count s + 1 ≤ MOST_PLACES) }
    ensures { IsWithNext S.step S.item_count S.outcome before.now number result }
{
    let next = S::one(number);
    match before {
        None => next,
        Some(before) => S::join(before, &next),
    }
}

/// The fold of numbers, of which there may be none, and one more after them.
#[inline(always)]
pub(crate) fn fold_behind<S: Summary<Item = i64> + Drop>(
    before: &Option<S>,
    number: i64,
) -> Result<i64, Fault>
    ensures { (numbers : List ℤ) → IsSummaryOrNone S.step S.item_count S.outcome numbers before.now
        → result ≡ fold_onto S.step numbers number }
{
    match before {
        None => Ok(number),
        Some(summary) => summary.apply(number),
    }
}
