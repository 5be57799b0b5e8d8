//! The least or the greatest of items.
ghost use Rattle.std.specs.Prelude.{◌≡◌, ℕ, ◌+◌, ◌-◌, ◌*◌, ◌^◌, ◌<◌, ◌≤◌, Ok, IfSome};
ghost use Rattle.apl_pool.specs.declared.kernel.TheConstants.{MOST_PLACES};
ghost use Rattle.apl_pool.specs.declared.summary.TheConstants.{LONGEST_RUN};
ghost use Rattle.apl_pool.specs.Summaries.{IsI64, IsSummaryFrom};
ghost use Rattle.apl_scalar.specs.Scalar.{dyadic_numbers};
ghost use Rattle.apl_summary.specs.Extremes.{extreme_function, extreme_of_two, extreme_outcome, extremum_of_one, extremum_of_both};
ghost use Rattle.apl_summary.specs.ExtremeRuns.{IsBehindExtremum, IsExtremeOfPair};

use crate::range::{greater_of, lesser_of};
use apl_pool::Kernel;

/// How many items there are, and the least or the greatest of them.
#[derive(Clone, Copy)]
pub struct Extremum {
    pub count: u32,
    pub item: i64,
}

#[inline(always)]
pub fn extreme_of_two(is_least: bool, a: i64, b: i64) -> i64
    ensures { result ≡ extreme_of_two is_least a b }
{
    if is_least {
        lesser_of(a, b)
    } else {
        greater_of(a, b)
    }
}

impl Extremum {
    /// The extremum of one item.
    pub fn one(item: i64) -> Extremum
        ensures { result ≡ extremum_of_one item }
    {
        Extremum { count: 1, item }
    }

    /// The extremum of these items followed by those of `right`.
    pub fn joined(&self, is_least: bool, right: &Extremum) -> Extremum
        requires { self.now.count + right.now.count ≤ MOST_PLACES }
        ensures { result ≡ extremum_of_both is_least self.now right.now }
    {
        Extremum {
            count: self.count + right.count,
            item: extreme_of_two(is_least, self.item, right.item),
        }
    }

    /// The least or the greatest of the items and the number that comes in.
    pub fn apply(&self, is_least: bool, right: i64) -> i64
        ensures { result ≡ extreme_of_two is_least self.now.item right }
    {
        extreme_of_two(is_least, self.item, right)
    }
}

/// The item at a place, unless that has a fault.
#[inline(always)]
fn item_at<K: Kernel<Out = i64>>(kernel: &K, place: usize) -> Option<i64>
    requires { place < K.place_count kernel.now }
    ensures item { IfSome result (λ item. K.outcome kernel.now place ≡ Ok item) }
    ensures range { IfSome result (λ item. IsI64 item) }
{
    match kernel.at(place) {
        Ok(item) => Some(item),
        Err(_) => None,
    }
}

/// The least or the greatest of two items side by side, unless one has a fault.
#[inline(always)]
fn pair_at<K: Kernel<Out = i64>>(is_least: bool, kernel: &K, place: usize) -> Option<i64>
    requires places { place + 2 ≤ K.place_count kernel.now }
    requires fits { place + 2 < 2 ^ 64 }
    ensures { IfSome result (IsExtremeOfPair is_least (K.outcome kernel.now) place) }
{
    let first = item_at(kernel, place)?;
    let second = item_at(kernel, place + 1)?;
    Some(extreme_of_two(is_least, first, second))
}

/// The least or the greatest of four items side by side and of that of the items after them. The four are compared two by two first, so
/// that no comparison waits for the one before.
#[inline(always)]
fn with_four<K: Kernel<Out = i64>>(
    is_least: bool,
    kernel: &K,
    place: usize,
    behind: i64,
) -> Option<i64>
    requires places { place + 4 ≤ K.place_count kernel.now }
    requires fits { place + 4 < 2 ^ 64 }
    ensures { IfSome result (IsBehindExtremum is_least (K.outcome kernel.now) place (place + 4) behind) }
{
    let front = pair_at(is_least, kernel, place)?;
    let back = pair_at(is_least, kernel, place + 2)?;
    let four = extreme_of_two(is_least, front, back);
    Some(extreme_of_two(is_least, four, behind))
}

/// The least or the greatest of `fours` times four items from a place on, and of that of the items after them.
#[inline(always)]
fn with_fours<K: Kernel<Out = i64>>(
    is_least: bool,
    kernel: &K,
    from: usize,
    fours: usize,
    behind: i64,
) -> Option<i64>
    requires places { from + fours * 4 ≤ K.place_count kernel.now }
    requires fits { from + fours * 4 < 2 ^ 64 }
    ensures { IfSome result (IsBehindExtremum is_least (K.outcome kernel.now) from (from + fours * 4) behind) }
{
    let mut item = behind;
    let mut left = fours;
    while left > 0 {
        left -= 1;
        item = with_four(is_least, kernel, from + left * 4, item)?;
    }
    Some(item)
}

/// The least or the greatest of the items at the places from `from` up to before `to`, if none has a
/// fault.
#[inline(always)]
pub fn extremum_of_run<K: Kernel<Out = i64>>(
    is_least: bool,
    kernel: &K,
    from: usize,
    to: usize,
) -> Option<Extremum>
    requires some { from < to }
    requires places { to ≤ K.place_count kernel.now }
    requires few { to - from ≤ LONGEST_RUN }
    ensures summary { IfSome result (λ e. IsSummaryFrom (dyadic_numbers (extreme_function is_least)) (λ (e : Extremum). e.count) (extreme_outcome is_least) (K.outcome kernel.now) from to e) }
    ensures range { IfSome result (λ e. IsI64 e.item) }
{
    let fours = (to - 1 - from) / 4;
    let start = from + fours * 4;
    let mut place = to - 1;
    let mut item = item_at(kernel, place)?;
    while start < place {
        place -= 1;
        item = extreme_of_two(is_least, item_at(kernel, place)?, item);
    }
    let item = with_fours(is_least, kernel, from, fours, item)?;
    let count = (to - from) as u32;
    Some(Extremum { count, item })
}
