//! The digits that radices leave of what is carried.
ghost use Rattle.std.specs.Prelude.{◌≡◌, ◌≢◌, pos, ◌^◌, ◌≤◌, unsigned_abs};
ghost use Rattle.apl_scalar.specs.Arithmetic.{floor_quotient, residue};
ghost use Rattle.apl_scalar.specs.Scalar.{exact};

use crate::range::limited;
use apl_array::range_is_decided;
use apl_pool::Fault;
use apl_scalar::function_types::{Function, Stile};

/// The quotient, rounded down.
fn floor_quotient(number: i128, radix: i64) -> i128
    requires some { radix ≢ pos 0 }
    requires near { unsigned_abs number ≤ 2 ^ 63 }
    ensures value { result ≡ floor_quotient number radix }
    ensures near { unsigned_abs result ≤ 2 ^ 63 }
{
    let quotient = number.div_euclid(radix as i128);
    if radix < 0 && number.rem_euclid(radix as i128) != 0 {
        quotient - 1
    } else {
        quotient
    }
}

/// What a radix leaves of a carry: all of it if the radix is 0, else what its quotient does not take.
#[tactic(auto, using(crate::proofs::Left::left_fits_cast, crate::proofs::Left::carry_left))]
fn residue(radix: i64, carry: i128) -> i128
    requires { unsigned_abs carry ≤ 2 ^ 63 }
    ensures { result ≡ residue radix carry }
{
    if radix == 0 {
        return carry;
    }
    carry - radix as i128 * floor_quotient(carry, radix)
}

/// The digit that a radix leaves. It alone is judged against the range, and never what is carried.
#[inline(always)]
pub(crate) fn digit_left(radix: i64, carry: i128) -> Result<i64, Fault>
    requires { unsigned_abs carry ≤ 2 ^ 63 }
    ensures { result ≡ exact (residue radix carry) }
{
    range_is_decided();
    match i64::try_from(carry) {
        Ok(carry) => Stile::apply(radix, carry),
        Err(_) => limited(residue(radix, carry)),
    }
}
