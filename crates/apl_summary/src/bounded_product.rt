//! Products of all numbers up to each, while the product of no end of them is so large that one is refused.
ghost use Rattle.std.specs.Prelude.{◌≡◌, ℕ, ◌*◌, ◌≤◌, ℤ, pos, ◌*ℤ◌, [], Ok, IfSome, unsigned_abs, if◌then◌else◌};
ghost use Rattle.apl_summary.specs.Coefficients.{AreCoefficients, scaled_outcome};
ghost use Rattle.apl_summary.specs.Fronts.{IsBoundedProduct, product_of_all};

use crate::coefficients::Coefficients;
use crate::range::narrow;
use crate::running::PrefixState;

/// The greatest magnitude that a product may have.
const MOST_PRODUCT: u64 = 9_223_372_036_854_775_807;

/// The product of the numbers after the last 0, and whether there is a 0.
#[derive(Clone, Copy)]
pub struct BoundedProduct {
    /// No product of an end of all numbers has a greater magnitude.
    after_zero: i64,
    has_zero: bool,
    ghost some: { 1 ≤ unsigned_abs after_zero },
}

/// The product of all numbers, from that of those after the last 0.
#[inline(always)]
fn product_of_all(has_zero: bool, after_zero: i64) -> i64
    ensures { result ≡ product_of_all has_zero after_zero }
{
    if has_zero { 0 } else { after_zero }
}

/// The product of two numbers, if it is in the range.
#[inline(always)]
fn product(a: i64, b: i64) -> Option<i64>
    ensures { IfSome result (λ z. z ≡ a *ℤ b) }
{
    a.checked_mul(b)
}

/// The greatest magnitude of some coefficients, if it is in the range. Of no number it is 1.
fn magnitude_of(coefficients: &Coefficients) -> Option<u64>
    requires { AreCoefficients coefficients.now }
    ensures some { IfSome result (λ most. 1 ≤ most) }
    ensures most { IfSome result (λ most. most ≤ 9223372036854775807) }
    ensures least { IfSome result (λ most. unsigned_abs coefficients.now.least ≤ most) }
    ensures greatest { IfSome result (λ most. unsigned_abs coefficients.now.greatest ≤ most) }
{
    let least = coefficients.least.unsigned_abs();
    let greatest = coefficients.greatest.unsigned_abs();
    let most = least.max(greatest).max(1);
    if most > u128::from(MOST_PRODUCT) {
        return None;
    }
    Some(most as u64)
}

impl BoundedProduct {
    /// The product of no number.
    pub fn none() -> Self
        ensures { IsBoundedProduct (product_of_all result.has_zero result.after_zero) (unsigned_abs result.after_zero) [] }
    {
        BoundedProduct {
            after_zero: 1,
            has_zero: false,
        }
    }

    /// The product of the numbers of which these are the coefficients, if all of these have magnitudes in the range.
    pub fn of(coefficients: &Coefficients) -> Option<Self>
        requires { AreCoefficients coefficients.now }
        ensures { IfSome result (λ s. (right : ℤ) → unsigned_abs s.after_zero * unsigned_abs right ≤ 9223372036854775807 → scaled_outcome coefficients.now right ≡ Ok (product_of_all s.has_zero s.after_zero *ℤ right)) }
    {
        let most = magnitude_of(coefficients)?;
        let total = narrow(coefficients.total);
        let state = BoundedProduct::with_total(total, most)?;
        Some(state)
    }

    /// The state of numbers with this product, of which no end has one of a greater magnitude than `most`.
    fn with_total(total: i64, most: u64) -> Option<Self>
        requires some { 1 ≤ most }
        requires range { most ≤ 9223372036854775807 }
        ensures all { IfSome result (λ s. product_of_all s.has_zero s.after_zero ≡ total) }
        ensures most { IfSome result (λ s. most ≤ unsigned_abs s.after_zero) }
    {
        if total == 0 {
            return Some(BoundedProduct {
                after_zero: most as i64,
                has_zero: true,
            });
        }
        if total.unsigned_abs() != most {
            return None;
        }
        Some(BoundedProduct {
            after_zero: total,
            has_zero: false,
        })
    }

    /// The state after one more number, with which that product is `after_zero`. There is none if it is -2^63.
    #[inline(always)]
    fn next(&self, after_zero: i64) -> Option<Self>
        ensures range { IfSome result (λ s. unsigned_abs after_zero ≤ 9223372036854775807) }
        ensures all { IfSome result (λ s. product_of_all s.has_zero s.after_zero ≡ product_of_all self.now.has_zero after_zero) }
        ensures most { IfSome result (λ s. unsigned_abs after_zero ≤ unsigned_abs s.after_zero) }
    {
        if after_zero == 0 || after_zero == i64::MIN {
            if after_zero != 0 {
                return None;
            }
            return Some(BoundedProduct {
                after_zero: 1,
                has_zero: true,
            });
        }
        Some(BoundedProduct {
            after_zero,
            has_zero: self.has_zero,
        })
    }
}

impl PrefixState for BoundedProduct {
    ghost use Rattle.std.specs.Prelude.{unsigned_abs};
    ghost use Rattle.apl_array.specs.declared.function.ScalarFunction.TheVariants.{Times};
    ghost use Rattle.apl_scalar.specs.Scalar.{dyadic_numbers};
    ghost use Rattle.apl_summary.specs.Fronts.{IsBoundedProduct, product_of_all};

    ghost step = { dyadic_numbers Times };

    ghost is_of = { λ s. IsBoundedProduct (product_of_all s.has_zero s.after_zero) (unsigned_abs s.after_zero) };

    #[inline(always)]
    fn with(&self, number: i64) -> Option<(i64, Self)> {
        let after_zero = product(self.after_zero, number)?;
        let total = product_of_all(self.has_zero, after_zero);
        let next = self.next(after_zero)?;
        Some((total, next))
    }
}
