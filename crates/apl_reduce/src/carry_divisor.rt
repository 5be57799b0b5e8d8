//! What radices carry: one division serves for all of them.
ghost use Rattle.std.specs.Prelude.{◌≡◌, ℕ, ℤ, ◌+◌, ◌<◌, ◌∷◌, true, List, length, drop, IfOk, slice_index_or};
ghost use Rattle.apl_reduce.specs.declared.carry_divisor.CarryDivisor.TheVariants.{Nothing};
ghost use Rattle.apl_reduce.specs.Carrying.{carry_by, is_above_zero, StandsFor};

use crate::quotient::Quotient;
use std::alloc::{AllocError, Global};

/// What is carried past the radices after one.
#[derive(Clone, Copy)]
pub(crate) enum CarryDivisor {
    /// A radix is 0: nothing is carried past it.
    Nothing,
    /// The product of natural radices, by which a number is divided.
    Product(i64),
    /// If one is negative, or the product leaves 64 bits.
    Rounded(Quotient),
}

impl CarryDivisor {
    /// What is carried of a number. The least number by radix ¯1 leaves 64 bits.
    #[inline(always)]
    pub(crate) fn carry(self, number: i64) -> i128
        requires { is_above_zero self ≡ true }
        ensures { result ≡ carry_by self number }
    {
        match self {
            CarryDivisor::Nothing => 0,
            CarryDivisor::Product(product) => number.div_euclid(product) as i128,
            CarryDivisor::Rounded(quotient) => quotient.of(number),
        }
    }

    /// What is carried past one radix more, in front of the others.
    fn with(self, radix: i64) -> CarryDivisor
        requires { is_above_zero self ≡ true }
        ensures { (radices : List ℤ) → StandsFor self radices → StandsFor result (radix ∷ radices) }
    {
        if radix == 0 {
            return CarryDivisor::Nothing;
        }
        match self {
            CarryDivisor::Nothing => CarryDivisor::Nothing,
            CarryDivisor::Product(product) => match product.checked_mul(radix) {
                Some(longer) if radix > 0 => CarryDivisor::Product(longer),
                _ => CarryDivisor::Rounded(Quotient::by(product).with(radix)),
            },
            CarryDivisor::Rounded(quotient) => CarryDivisor::Rounded(quotient.with(radix)),
        }
    }
}

/// Writes what is carried past the radices after each, from the last radix to the first.
fn write_carry_divisors(radices: &[i64], behind: &mut [CarryDivisor])
    requires { length behind.old ≡ length radices.now }
    ensures each { length behind.new ≡ length radices.now }
    ensures stand { (k : ℕ) → k < length radices.now → StandsFor (slice_index_or behind.new k Nothing) (drop (k + 1) radices.now) }
{
    let mut all = CarryDivisor::Product(1);
    for k in (0..radices.len()).rev() {
        behind[k] = all;
        all = all.with(radices[k]);
    }
}

/// What is carried past the radices after each.
pub(crate) fn carry_divisors(
    alloc: Global,
    radices: &[i64],
) -> Result<Vec<CarryDivisor>, AllocError>
    ensures each { IfOk result (λ behind. length behind.items ≡ length radices.now) }
    ensures stand { IfOk result (λ behind. (k : ℕ) → k < length radices.now → StandsFor (slice_index_or behind.items k Nothing) (drop (k + 1) radices.now)) }
{
    let mut behind = vec![in alloc; CarryDivisor::Nothing; radices.len()]?;
    write_carry_divisors(radices, behind.as_mut_slice());
    Ok(behind)
}
