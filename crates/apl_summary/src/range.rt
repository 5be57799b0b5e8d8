//! Numbers of 128 bits and the range of 64.
ghost use Rattle.std.specs.Prelude.{◌≡◌, ◌&&◌, int_le};
ghost use Rattle.std.specs.Int.{int_min, int_max};
ghost use Rattle.apl_array.specs.Range.{in_range, least_number, greatest_number};
ghost use Rattle.apl_pool.specs.Summaries.{IsI64};

const LEAST: i128 = -9_223_372_036_854_775_808;

const GREATEST: i128 = 9_223_372_036_854_775_807;

/// Whether a number is in the range.
pub fn is_in_range(number: i128) -> bool
    ensures { result ≡ in_range number }
{
    (LEAST <= number) & (number <= GREATEST)
}

/// Whether all numbers from the least to the greatest are in the range.
pub fn are_in_range(least: i128, greatest: i128) -> bool
    ensures { result ≡ (int_le least_number least && int_le greatest greatest_number) }
{
    (LEAST <= least) & (greatest <= GREATEST)
}

/// A number of the range.
pub fn narrow(number: i128) -> i64
    requires { IsI64 number }
    ensures { result ≡ number }
{
    number as i64
}

pub fn lesser(a: i128, b: i128) -> i128
    ensures { result ≡ int_min a b }
{
    if b < a { b } else { a }
}

pub fn greater(a: i128, b: i128) -> i128
    ensures { result ≡ int_max a b }
{
    if b < a { a } else { b }
}

/// The lesser of two numbers of 64 bits.
#[inline(always)]
pub fn lesser_of(a: i64, b: i64) -> i64
    ensures { result ≡ int_min a b }
{
    if b < a { b } else { a }
}

/// The greater of two numbers of 64 bits.
#[inline(always)]
pub fn greater_of(a: i64, b: i64) -> i64
    ensures { result ≡ int_max a b }
{
    if b < a { a } else { b }
}
