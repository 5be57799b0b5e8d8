//! Summaries of items that are folded from the right: what the items do to the number that comes in.
ghost use Rattle.std.specs.Prelude.{◌≡◌, ℕ, ◌+◌, ◌-◌, ◌<◌, ◌≤◌, ℤ, Result, Ok, IfSome};
ghost use Rattle.apl_pool.specs.declared.kernel.Fault.{Fault};
ghost use Rattle.apl_pool.specs.declared.summary.TheConstants.{LONGEST_RUN};
ghost use Rattle.apl_pool.specs.Summaries.{IsI64, and_then, IsSummaryFrom};

use crate::kernel::{Fault, Kernel, MOST_PLACES};

/// The most places of a run of items that are summarized at once.
pub const LONGEST_RUN: usize = 1024;

/// What some items do, folded from the right, to the number that comes in. Two summaries of neighbouring
/// items are joined to that of both, so the items can be cut anywhere.
pub trait Summary: Sized {
    /// What is folded.
    type Item;

    // What one item does to the number on its right.
    ghost step: { Self.Item → ℤ → Result ℤ Fault };

    // How many items there are.
    ghost item_count: { Self → ℕ };

    // What all its items do to the number that comes in.
    ghost outcome: { Self → ℤ → Result ℤ Fault };

    /// The summary of one item. It takes no memory.
    fn one(item: Self::Item) -> Self
        ensures count { item_count result ≡ 1 }
        ensures outcome { (right : ℤ) → IsI64 right → outcome result right ≡ step item right }
        ensures range { (right z : ℤ) → IsI64 right → outcome result right ≡ Ok z → IsI64 z };

    /// The summary of the items of `left`, and then those of `right`. It takes no memory.
    fn join(left: &Self, right: &Self) -> Self
        requires { item_count left.now + item_count right.now ≤ MOST_PLACES }
        ensures count { item_count result ≡ item_count left.now + item_count right.now }
        ensures outcome { (r : ℤ) → IsI64 r → outcome result r ≡ and_then (outcome right.now r) (outcome left.now) }
        ensures range { (r z : ℤ) → IsI64 r → outcome result r ≡ Ok z → IsI64 z };

    /// How many items there are.
    fn items(&self) -> u32
        ensures { result ≡ item_count self.now };

    /// What the items do to the number that comes in. It takes no memory.
    fn apply(&self, right: i64) -> Result<i64, Fault>
        ensures { result ≡ outcome self.now right };

    /// The summary of the items at the places of a kernel from `from` up to before `to`. It is for summaries
    /// that are made faster of several items at once than of each. If it answers `None`, the items are
    /// summarized and joined one by one. It takes no memory.
    fn of_run<K: Kernel<Out = Self::Item>>(_kernel: &K, from: usize, to: usize) -> Option<Self>
        requires some { from < to }
        requires places { to ≤ K.place_count _kernel.now }
        requires few { to - from ≤ LONGEST_RUN }
        ensures { IfSome result (λ s. IsSummaryFrom step item_count outcome (K.outcome _kernel.now) from to s) }
    {
        None
    }
}
