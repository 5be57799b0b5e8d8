//! Sums and differences of a few small items by numbers of 64 bits.
ghost use Rattle.std.specs.Prelude.{◌≡◌, ℕ, ◌+◌, ◌-◌, ◌<◌, ◌≤◌, true, Ok, IfSome, ◌+ℤ◌, ◌-ℤ◌, if◌then◌else◌};
ghost use Rattle.std.specs.Int.{int_min, int_max};
ghost use Rattle.apl_pool.specs.declared.summary.TheConstants.{LONGEST_RUN};
ghost use Rattle.apl_pool.specs.Summaries.{IsSummaryFrom};
ghost use Rattle.apl_scalar.specs.Scalar.{dyadic_numbers};
ghost use Rattle.apl_summary.specs.declared.constants.Constants.{Constants};
ghost use Rattle.apl_summary.specs.Constants.{AreConstants, constants_of_one, constants_of_both, signed_function, signed_outcome};
ghost use Rattle.apl_summary.specs.SmallConstants.{widened, with_constant, IsSmallSum, AreSmallConstants};

use crate::constants::{Bounds, Constants};
use crate::range::{greater_of, lesser_of};
use apl_pool::{Kernel, LONGEST_RUN};

/// The most magnitude of a small item, so that those of a run add up to 2^62 at most.
const MOST_SMALL: i64 = 1 << 52;

/// How many items are met in one turn of a loop.
const TURN: usize = 4;

/// `Bounds` in numbers of 64 bits.
#[derive(Clone, Copy)]
pub struct SmallBounds {
    pub least: i64,
    pub greatest: i64,
}

/// `Constants` in numbers of 64 bits.
#[derive(Clone, Copy)]
pub struct SmallConstants {
    pub count: u32,
    pub is_negated: bool,
    pub total: i64,
    pub plus: SmallBounds,
    pub minus: SmallBounds,
}

#[inline(always)]
fn is_small(item: i64) -> bool
    ensures { result ≡ true → IsSmallSum 1 item }
{
    (-MOST_SMALL <= item) & (item <= MOST_SMALL)
}

impl SmallBounds {
    /// The bounds of one constant.
    #[inline(always)]
    fn of(constant: i64) -> SmallBounds
        ensures least { result.least ≡ constant }
        ensures greatest { result.greatest ≡ constant }
    {
        SmallBounds {
            least: constant,
            greatest: constant,
        }
    }

    /// The bounds of these constants and one more.
    #[inline(always)]
    fn with(&self, constant: i64) -> SmallBounds
        ensures { result ≡ with_constant self.now constant }
    {
        SmallBounds {
            least: lesser_of(self.least, constant),
            greatest: greater_of(self.greatest, constant),
        }
    }

    fn widened(&self) -> Bounds
        ensures least { result.least ≡ self.now.least }
        ensures greatest { result.greatest ≡ self.now.greatest }
    {
        Bounds {
            least: i128::from(self.least),
            greatest: i128::from(self.greatest),
        }
    }
}

impl SmallConstants {
    /// The constants of one item.
    #[inline(always)]
    fn one(is_plus: bool, item: i64) -> SmallConstants
        requires { IsSmallSum 1 item }
        ensures value { widened result ≡ constants_of_one is_plus item }
        ensures small { AreSmallConstants 1 result }
    {
        let zero = SmallBounds::of(0);
        if is_plus {
            SmallConstants {
                count: 1,
                is_negated: false,
                total: item,
                plus: zero.with(item),
                minus: SmallBounds::of(-1),
            }
        } else {
            SmallConstants {
                count: 1,
                is_negated: true,
                total: item,
                plus: zero,
                minus: SmallBounds::of(item),
            }
        }
    }

    /// The total of one more item on the left.
    #[inline(always)]
    fn total_behind(&self, is_plus: bool, item: i64) -> i64
        requires items { self.now.count < LONGEST_RUN }
        requires small { IsSmallSum self.now.count self.now.total × IsSmallSum 1 item }
        ensures { result ≡ if is_plus then item +ℤ self.now.total else item -ℤ self.now.total }
    {
        if is_plus {
            item + self.total
        } else {
            item - self.total
        }
    }

    /// The bounds of the constants with plus and one more, unless that is with minus.
    #[inline(always)]
    fn plus_behind(&self, is_negated: bool, total: i64) -> SmallBounds
        ensures { result ≡ if is_negated then self.now.plus else with_constant self.now.plus total }
    {
        if is_negated {
            self.plus
        } else {
            self.plus.with(total)
        }
    }

    /// The bounds of the constants with minus and one more, unless that is with plus.
    #[inline(always)]
    fn minus_behind(&self, is_negated: bool, total: i64) -> SmallBounds
        ensures { result ≡ if is_negated then with_constant self.now.minus total else self.now.minus }
    {
        if is_negated {
            self.minus.with(total)
        } else {
            self.minus
        }
    }

    /// The constants of one more item on the left.
    #[inline(always)]
    fn behind(&self, is_plus: bool, item: i64) -> SmallConstants
        requires items { self.now.count < LONGEST_RUN }
        requires small { AreSmallConstants self.now.count self.now × IsSmallSum 1 item }
        requires lawful { AreConstants is_plus (widened self.now) }
        ensures value { widened result ≡ constants_of_both is_plus (constants_of_one is_plus item) (widened self.now) }
        ensures small { AreSmallConstants (self.now.count + 1) result }
    {
        let total = self.total_behind(is_plus, item);
        let is_negated = !is_plus & !self.is_negated;
        SmallConstants {
            count: self.count + 1,
            is_negated,
            total,
            plus: self.plus_behind(is_negated, total),
            minus: self.minus_behind(is_negated, total),
        }
    }

    /// These constants in numbers of 128 bits.
    pub fn widened(&self) -> Constants
        ensures { result ≡ widened self.now }
    {
        Constants {
            count: self.count,
            is_negated: self.is_negated,
            total: i128::from(self.total),
            plus: self.plus.widened(),
            minus: self.minus.widened(),
        }
    }
}

/// The item at a place, if it is small.
#[inline(always)]
fn small_item<K: Kernel<Out = i64>>(kernel: &K, place: usize) -> Option<i64>
    requires { place < K.place_count kernel.now }
    ensures item { IfSome result (λ item. K.outcome kernel.now place ≡ Ok item) }
    ensures small { IfSome result (λ item. IsSmallSum 1 item) }
{
    match kernel.at(place) {
        Ok(item) => { if is_small(item) { Some(item) } else { None } }
        Err(_) => None,
    }
}

impl SmallConstants {
    /// The constants of the `count` items before a place and of the items from there on, if they are small.
    #[inline(always)]
    fn with_places<K: Kernel<Out = i64>>(
        self,
        is_plus: bool,
        kernel: &K,
        place: usize,
        count: usize,
    ) -> Option<SmallConstants>
        requires before { count ≤ place }
        requires places { place ≤ K.place_count kernel.now }
        requires few { self.count + count ≤ LONGEST_RUN }
        requires small { AreSmallConstants self.count self }
        requires lawful { AreConstants is_plus (widened self) }
        ensures count { IfSome result (λ s. s.count ≡ self.count + count) }
        ensures small { IfSome result (λ s. AreSmallConstants s.count s) }
        ensures lawful { IfSome result (λ s. AreConstants is_plus (widened s)) }
        ensures summary { IfSome result (λ s. (to : ℕ) → place ≤ to → IsSummaryFrom (dyadic_numbers (signed_function is_plus)) (λ (c : Constants). c.count) signed_outcome (K.outcome kernel.now) place to (widened self) → IsSummaryFrom (dyadic_numbers (signed_function is_plus)) (λ (c : Constants). c.count) signed_outcome (K.outcome kernel.now) (place - count) to (widened s)) }
    {
        let mut constants = self;
        for offset in 0..count {
            let item = small_item(kernel, place - 1 - offset)?;
            constants = constants.behind(is_plus, item);
        }
        Some(constants)
    }
}

/// The constants of the items at the places from `from` up to before `to`, if all of them are small.
#[inline(always)]
pub fn small_constants<K: Kernel<Out = i64>>(
    is_plus: bool,
    kernel: &K,
    from: usize,
    to: usize,
) -> Option<SmallConstants>
    requires some { from < to }
    requires places { to ≤ K.place_count kernel.now }
    requires few { to - from ≤ LONGEST_RUN }
    ensures summary { IfSome result (λ s. IsSummaryFrom (dyadic_numbers (signed_function is_plus)) (λ (c : Constants). c.count) signed_outcome (K.outcome kernel.now) from to (widened s)) }
    ensures lawful { IfSome result (λ s. AreConstants is_plus (widened s)) }
{
    let last = to - 1;
    let mut constants = SmallConstants::one(is_plus, small_item(kernel, last)?);
    for turn in 0..(last - from) / TURN {
        let next = constants.with_places(is_plus, kernel, last - turn * TURN, TURN)?;
        constants = next;
    }
    let rest = (last - from) % TURN;
    constants.with_places(is_plus, kernel, from + rest, rest)
}
