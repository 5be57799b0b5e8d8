//! Summaries of which it is known that their results are in the range.
ghost use Rattle.std.specs.Prelude.{◌≡◌, ℤ, Ok, Some, None, MatchOption};
ghost use Rattle.apl_pool.specs.Summaries.{IsI64};

use apl_pool::{Fault, Kernel, Summary};

/// A summary that gives a number of the range, or a fault, for each number of the range.
#[derive(Drop)]
pub(crate) struct BoundedSummary<S: Summary> {
    summary: S,
    ghost range: { (right z : ℤ) → IsI64 right → S.outcome summary right ≡ Ok z → IsI64 z },
}

impl<S: Summary + Copy> BoundedSummary<S> {
    /// A copy of the summary.
    pub(crate) fn copied(&self) -> BoundedSummary<S>
        ensures { result.summary ≡ self.now.summary }
    {
        BoundedSummary {
            summary: self.summary,
        }
    }

    /// The summary that is kept, if there is one.
    pub(crate) fn summary_of(kept: &Option<BoundedSummary<S>>) -> Option<S>
        ensures { MatchOption kept.now (result ≡ None) (λ k. result ≡ Some k.summary) }
    {
        match kept {
            None => None,
            Some(kept) => Some(kept.summary),
        }
    }
}

impl<S: Summary<Item = i64>> Summary for BoundedSummary<S> {
    type Item = i64;

    ghost step = { S.step };

    ghost item_count = { λ k. S.item_count k.summary };

    ghost outcome = { λ k. S.outcome k.summary };

    #[inline(always)]
    fn one(item: i64) -> Self {
        BoundedSummary {
            summary: S::one(item),
        }
    }

    #[inline(always)]
    fn join(left: &Self, right: &Self) -> Self {
        BoundedSummary {
            summary: S::join(&left.summary, &right.summary),
        }
    }

    fn items(&self) -> u32 {
        self.summary.items()
    }

    #[inline(always)]
    fn apply(&self, right: i64) -> Result<i64, Fault> {
        self.summary.apply(right)
    }

    fn of_run<K: Kernel<Out = i64>>(kernel: &K, from: usize, to: usize) -> Option<Self> {
        let summary = S::of_run(kernel, from, to)?;
        Some(BoundedSummary { summary })
    }
}
