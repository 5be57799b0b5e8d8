//! How far numbers are from 0, and whether their products can be added unchecked.
ghost use Rattle.std.specs.Prelude.{◌≡◌, ◌*◌, ◌^◌, ◌<◌, ◌↔◌, IsTrue};
ghost use Rattle.apl_reduce.specs.Magnitudes.{magnitude};

/// The greatest distance from 0 among numbers, and 0 among none.
pub(crate) fn magnitude(numbers: &[i64]) -> u64
    ensures { result ≡ magnitude numbers.now }
{
    let mut greatest = 0;
    for number in numbers {
        greatest = number.unsigned_abs().max(greatest);
    }
    greatest
}

/// Whether 32 bits hold each number of at most this magnitude, and its negation.
pub(crate) fn is_narrow(most: u64) -> bool
    ensures { IsTrue result ↔ most < 2 ^ 31 }
{
    most < 1 << 31
}

/// Whether `count` products of numbers of at most these magnitudes are within the range, and each sum of them, whatever their signs.
pub(crate) fn sums_are_small(left: u64, right: u64, count: usize) -> bool
    ensures { IsTrue result ↔ left * right * count < 2 ^ 63 }
{
    let product = left as u128 * right as u128;
    match product.checked_mul(count as u128) {
        Some(most) => most < 1 << 63,
        None => false,
    }
}
