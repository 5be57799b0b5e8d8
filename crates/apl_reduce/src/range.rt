//! Exact numbers, refused outside the range.
ghost use Rattle.std.specs.Prelude.{◌≡◌};
ghost use Rattle.apl_scalar.specs.Scalar.{exact};

use apl_array::range_is_decided;
use apl_pool::Fault;

/// The number if it is in the range, else `Limit`.
#[inline(always)]
pub(crate) fn limited(number: i128) -> Result<i64, Fault>
    ensures { result ≡ exact number }
{
    range_is_decided();
    match i64::try_from(number) {
        Ok(limited) => Ok(limited),
        Err(_) => Err(Fault::Limit),
    }
}
