//! Products of a few small items by numbers of 64 bits.
ghost use Rattle.std.specs.Prelude.{◌≡◌, ℕ, ◌+◌, ◌-◌, ◌<◌, ◌≤◌, ◌*ℤ◌, true, Ok, IfSome};
ghost use Rattle.apl_array.specs.declared.function.ScalarFunction.TheVariants.{Times};
ghost use Rattle.apl_pool.specs.declared.summary.TheConstants.{LONGEST_RUN};
ghost use Rattle.apl_pool.specs.Summaries.{IsSummaryFrom};
ghost use Rattle.apl_scalar.specs.Scalar.{dyadic_numbers};
ghost use Rattle.apl_summary.specs.declared.coefficients.Coefficients.{Coefficients};
ghost use Rattle.apl_summary.specs.Coefficients.{AreCoefficients, coefficients_of_one, coefficients_of_both, scaled_outcome};
ghost use Rattle.apl_summary.specs.SmallCoefficients.{widened, IsFactor};

use crate::coefficients::Coefficients;
use crate::range::{greater_of, lesser_of};
use apl_pool::{Kernel, LONGEST_RUN};

/// The most magnitude of two numbers whose product is not tested.
const MOST_FACTOR: i64 = 1 << 31;

/// How many items are met in one turn of a loop.
const TURN: usize = 4;

/// `Coefficients` in numbers of 64 bits.
#[derive(Clone, Copy)]
pub struct SmallCoefficients {
    pub count: u32,
    pub total: i64,
    pub least: i64,
    pub greatest: i64,
}

#[inline(always)]
fn is_factor(number: i64) -> bool
    ensures { result ≡ true → IsFactor number }
{
    (-MOST_FACTOR <= number) & (number <= MOST_FACTOR)
}

#[inline(always)]
fn product(a: i64, b: i64) -> i64
    requires { IsFactor a × IsFactor b }
    ensures { result ≡ a *ℤ b }
{
    a * b
}

impl SmallCoefficients {
    /// The coefficients of one item.
    #[inline(always)]
    fn one(item: i64) -> SmallCoefficients
        ensures { widened result ≡ coefficients_of_one item }
    {
        SmallCoefficients {
            count: 1,
            total: item,
            least: item,
            greatest: item,
        }
    }

    /// The coefficients of one more item on the left.
    #[inline(always)]
    fn behind(&self, item: i64) -> SmallCoefficients
        requires items { self.now.count < LONGEST_RUN }
        requires factors { IsFactor self.now.total × IsFactor item }
        ensures { widened result ≡ coefficients_of_both (coefficients_of_one item) (widened self.now) }
    {
        let total = product(item, self.total);
        SmallCoefficients {
            count: self.count + 1,
            total,
            least: lesser_of(self.least, total),
            greatest: greater_of(self.greatest, total),
        }
    }

    /// These coefficients in numbers of 128 bits.
    pub fn widened(&self) -> Coefficients
        ensures { result ≡ widened self.now }
    {
        Coefficients {
            count: self.count,
            total: i128::from(self.total),
            least: i128::from(self.least),
            greatest: i128::from(self.greatest),
        }
    }
}

/// The item at a place, if it is small.
#[inline(always)]
fn factor_at<K: Kernel<Out = i64>>(kernel: &K, place: usize) -> Option<i64>
    requires { place < K.place_count kernel.now }
    ensures item { IfSome result (λ item. K.outcome kernel.now place ≡ Ok item) }
    ensures factor { IfSome result (λ item. IsFactor item) }
{
    match kernel.at(place) {
        Ok(item) => { if is_factor(item) { Some(item) } else { None } }
        Err(_) => None,
    }
}

impl SmallCoefficients {
    /// The coefficients of the `count` items before a place and of the items from there on, if they and their partial products are small.
    #[inline(always)]
    fn with_places<K: Kernel<Out = i64>>(
        self,
        kernel: &K,
        place: usize,
        count: usize,
    ) -> Option<SmallCoefficients>
        requires before { count ≤ place }
        requires places { place ≤ K.place_count kernel.now }
        requires few { self.count + count ≤ LONGEST_RUN }
        requires lawful { AreCoefficients (widened self) }
        ensures count { IfSome result (λ s. s.count ≡ self.count + count) }
        ensures lawful { IfSome result (λ s. AreCoefficients (widened s)) }
        ensures summary { IfSome result (λ s. (to : ℕ) → place ≤ to → IsSummaryFrom (dyadic_numbers Times) (λ (c : Coefficients). c.count) scaled_outcome (K.outcome kernel.now) place to (widened self) → IsSummaryFrom (dyadic_numbers Times) (λ (c : Coefficients). c.count) scaled_outcome (K.outcome kernel.now) (place - count) to (widened s)) }
    {
        let mut coefficients = self;
        for offset in 0..count {
            if !is_factor(coefficients.total) {
                return None;
            }
            let item = factor_at(kernel, place - 1 - offset)?;
            coefficients = coefficients.behind(item);
        }
        Some(coefficients)
    }
}

/// The coefficients of the items at the places from `from` up to before `to`, if all of them and their
/// partial products are small.
#[inline(always)]
pub fn small_coefficients<K: Kernel<Out = i64>>(
    kernel: &K,
    from: usize,
    to: usize,
) -> Option<SmallCoefficients>
    requires some { from < to }
    requires places { to ≤ K.place_count kernel.now }
    requires few { to - from ≤ LONGEST_RUN }
    ensures summary { IfSome result (λ s. IsSummaryFrom (dyadic_numbers Times) (λ (c : Coefficients). c.count) scaled_outcome (K.outcome kernel.now) from to (widened s)) }
    ensures lawful { IfSome result (λ s. AreCoefficients (widened s)) }
{
    let last = to - 1;
    let mut coefficients = SmallCoefficients::one(factor_at(kernel, last)?);
    for turn in 0..(last - from) / TURN {
        let next = coefficients.with_places(kernel, last - turn * TURN, TURN)?;
        coefficients = next;
    }
    let rest = (last - from) % TURN;
    coefficients.with_places(kernel, from + rest, rest)
}
