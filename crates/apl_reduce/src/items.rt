//! Items that are computed one by one, and folded from the last to the first.
ghost use Rattle.std.specs.Prelude.{◌≡◌, ◌+◌, ◌<◌, Ok};
ghost use Rattle.apl_reduce.specs.Items.{as_number, number_step, folded_from, first_fault, judged_items};

use crate::dyadic::Dyadic;
use apl_pool::Fault;

/// Numbers or faults in order, each computed when it is asked for.
pub(crate) trait Items {
    ghost use Rattle.std.specs.Prelude.{◌≡◌, ◌<◌, ℕ, ℤ, Result};
    ghost use Rattle.apl_pool.specs.declared.kernel.Fault.{Fault};

    // Item k.
    ghost outcome: { Self → ℕ → Result ℤ Fault };

    // How many items there are.
    ghost item_count: { Self → ℕ };

    fn count(&self) -> usize
        ensures { result ≡ item_count self.now };

    fn at(&self, k: usize) -> Result<i64, Fault>
        requires { k < item_count self.now }
        ensures { result ≡ outcome self.now k };
}

/// Items that are all alike.
#[derive(Drop)]
pub(crate) struct SameItems {
    pub item: Result<i64, Fault>,
    pub count: usize,
}

impl Items for SameItems {
    ghost outcome = { λ x k. x.item };

    ghost item_count = { λ x. x.count };

    fn count(&self) -> usize {
        self.count
    }

    fn at(&self, _k: usize) -> Result<i64, Fault> {
        self.item
    }
}

/// Item `k` and what was folded on its right.
#[inline(always)]
fn with_item<X: Items, F: Dyadic>(
    items: &X,
    function: F,
    k: usize,
    folded: i64,
) -> Result<i64, Fault>
    requires { k < X.item_count items.now }
    ensures { result ≡ number_step (F.function function) (X.outcome items.now k) (Ok folded) }
{
    let item = items.at(k)?;
    function.of_numbers(item, folded)
}

/// The fold of all items up to the last one, from the right, or the fault that it meets first.
#[inline(always)]
fn folded<X: Items, F: Dyadic>(items: &X, function: F, last: usize) -> Result<i64, Fault>
    requires { last + 1 ≡ X.item_count items.now }
    ensures { result ≡ folded_from (X.outcome items.now) (F.function function) 0 last }
{
    let mut k = last;
    let mut result = items.at(last)?;
    while k > 0 {
        k -= 1;
        result = with_item(items, function, k, result)?;
    }
    Ok(result)
}

/// The fault of the first faulty item. It is looked for only if a fold has met a fault.
#[cold]
fn first_fault<X: Items>(items: &X) -> Option<Fault>
    ensures { result ≡ first_fault (X.outcome items.now) 0 (X.item_count items.now) }
{
    for k in 0..items.count() {
        if let Err(fault) = items.at(k) {
            return Some(fault);
        }
    }
    None
}

/// The reduction of items, all of which are judged before the fold: the fault of the first faulty one,
/// else that of the fold. Of no items it is the function's identity, or `Domain`.
#[inline(always)]
pub(crate) fn reduced<X: Items, F: Dyadic>(items: &X, function: F) -> Result<i64, Fault>
    ensures { result ≡ as_number (judged_items (X.outcome items.now) (F.function function) (X.item_count items.now)) }
{
    let count = items.count();
    if count == 0 {
        return function.identity().ok_or(Fault::Domain);
    }
    let folded = folded(items, function, count - 1);
    if folded.is_ok() {
        return folded;
    }
    match first_fault(items) {
        Some(fault) => Err(fault),
        None => folded,
    }
}
