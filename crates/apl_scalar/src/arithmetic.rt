//! Exact arithmetic, refused only if the exact result leaves the range. No loop runs once for
//! each unit of a large number.
ghost use Rattle.std.specs.Prelude.{◌≡◌, ℕ, true, Ok, pos, negsuc, ◌+ℤ◌, ◌-ℤ◌, ◌*ℤ◌, FitsSigned, unsigned_abs, ◌+◌, ◌%◌, ◌^◌, ◌<◌, ◌≤◌, ◌==◌, if◌then◌else◌};
ghost use Rattle.std.specs.Int.{int_pow, int_signum, w32};
ghost use Rattle.apl_scalar.specs.Arithmetic.{factorial, binomial, residue};
ghost use Rattle.apl_scalar.specs.Scalar.{exact, reciprocal, quotient, power, factorial_of, combinations, has_narrow_residues};
ghost use Rattle.apl_scalar.specs.Limits.{limited_value};

use apl_array::range_is_decided;
use apl_pool::Fault;

/// The exact value, if 64 bits hold it.
#[inline(always)]
pub(crate) fn limited(exact: Option<i64>) -> Result<i64, Fault>
    ensures { result ≡ limited_value exact }
{
    match exact {
        Some(value) => Ok(value),
        None => Err(Fault::Limit),
    }
}

/// `x` times `y`. Numbers of 32 bits need no test.
#[inline(always)]
pub(crate) fn product(x: i64, y: i64) -> Result<i64, Fault>
    ensures { result ≡ exact (x *ℤ y) }
{
    if let (Ok(left), Ok(right)) = (i32::try_from(x), i32::try_from(y)) {
        return Ok(left as i64 * right as i64);
    }
    limited(x.checked_mul(y))
}

/// The value and no doubts, or else 0 and all bits.
#[inline(always)]
pub(crate) fn likely_value(outcome: Result<i64, Fault>) -> (i64, u64)
    ensures { result.1 ≡ 0 → outcome ≡ Ok result.0 }
{
    match outcome {
        Ok(value) => (value, 0),
        Err(_) => (0, u64::MAX),
    }
}

/// `x` plus `y`, wrapped, and doubts if it leaves the range. Then its sign is that of neither number.
#[inline(always)]
pub(crate) fn likely_sum(x: i64, y: i64) -> (i64, u64)
    ensures { result.1 ≡ 0 → exact (x +ℤ y) ≡ Ok result.0 }
{
    range_is_decided();
    let (left, right) = (x.cast_unsigned(), y.cast_unsigned());
    let sum = left.wrapping_add(right);
    (sum.cast_signed(), ((left ^ sum) & (right ^ sum)) >> 63)
}

/// `x` minus `y`, wrapped, and doubts if it leaves the range. Then the signs of both numbers differ, and its sign is not that of `x`.
#[inline(always)]
pub(crate) fn likely_difference(x: i64, y: i64) -> (i64, u64)
    ensures { result.1 ≡ 0 → exact (x -ℤ y) ≡ Ok result.0 }
{
    range_is_decided();
    let (left, right) = (x.cast_unsigned(), y.cast_unsigned());
    let difference = left.wrapping_sub(right);
    let doubts = (left ^ right) & (left ^ difference);
    (difference.cast_signed(), doubts >> 63)
}

/// The number that the lower 32 bits of `x` are.
#[inline(always)]
fn lower_half(x: i64) -> i64
    ensures value { FitsSigned w32 x → result ≡ x }
    ensures small { unsigned_abs result ≤ 2 ^ 31 }
{
    (x << 32) >> 32
}

/// How far `x` is above the least number of 32 bits, modulo 2^64. So all other numbers are 2^32 or more above it.
#[inline(always)]
fn above_least_half(x: i64) -> u64
    ensures { result < 2 ^ 32 → FitsSigned w32 x }
{
    x.cast_unsigned().wrapping_add(1 << 31)
}

/// The product of the lower halves of `x` and `y`: their own product if both are numbers of 32 bits.
#[inline(always)]
fn half_product(x: i64, y: i64) -> i64
    ensures { FitsSigned w32 x → FitsSigned w32 y → exact (x *ℤ y) ≡ Ok result }
{
    range_is_decided();
    lower_half(x) * lower_half(y)
}

/// `x` times `y` and no doubts if both are numbers of 32 bits, else some number and doubts. It has no branches.
#[inline(always)]
pub(crate) fn likely_product(x: i64, y: i64) -> (i64, u64)
    ensures { result.1 ≡ 0 → exact (x *ℤ y) ≡ Ok result.0 }
{
    let farther = above_least_half(x) | above_least_half(y);
    (half_product(x, y), farther >> 32)
}

/// `x` to the power `bit`, which is 0 or 1.
#[inline(always)]
fn power_of_bit(x: i64, bit: u64) -> i64
    requires { bit ≤ 1 }
    ensures { result ≡ int_pow x bit }
{
    if bit == 0 { 1 } else { x }
}

/// `root` times `x` to the power `bit`, of a root and an `x` of 32 bits.
#[inline(always)]
fn times_power_of_bit(root: i64, x: i64, bit: u64) -> i64
    requires { bit ≤ 1 }
    ensures { FitsSigned w32 x → FitsSigned w32 root → exact (root *ℤ int_pow x bit) ≡ Ok result }
{
    half_product(root, power_of_bit(x, bit))
}

/// As `times_power_of_bit`, but the product is chosen, and no factor. So a loop with one exponent for all bases has no product by 1.
#[inline(always)]
fn chosen_product(root: i64, x: i64, bit: u64) -> i64
    requires { bit ≤ 1 }
    ensures { FitsSigned w32 x → FitsSigned w32 root → exact (root *ℤ int_pow x bit) ≡ Ok result }
{
    range_is_decided();
    let product = half_product(root, x);
    if bit == 0 { root } else { product }
}

/// `x` to the power `y` as the product of two powers with half of its exponent, of which the second has the bit that is left over. The exponent
/// has three bits; doubts come if it has others, or if a factor has more than 32 bits. It has no branches. So come squares of all bases of 32
/// bits, and cubes up to a base of 46340.
#[inline(always)]
pub(crate) fn likely_power(x: i64, y: i64) -> (i64, u64)
    ensures { result.1 ≡ 0 → power x y ≡ Ok result.0 }
{
    let exponent = y.cast_unsigned();
    let square = power_of_bit(half_product(x, x), exponent / 4 % 2);
    let first = chosen_product(square, x, exponent / 2 % 2);
    let second = times_power_of_bit(first, x, exponent % 2);
    let above_base = above_least_half(x) | above_least_half(square);
    let farther = above_base | above_least_half(first) | above_least_half(second);
    (half_product(first, second), farther >> 32 | exponent / 8)
}

/// The magnitude of `x`, and the doubts whether 64 bits hold it.
#[inline(always)]
pub(crate) fn likely_magnitude(x: i64) -> (i64, u64)
    ensures { result.1 ≡ 0 → exact (pos (unsigned_abs x)) ≡ Ok result.0 }
{
    range_is_decided();
    let magnitude = x.wrapping_abs();
    (magnitude, magnitude.cast_unsigned() >> 63)
}

/// The sign of `x`: 1, 0 or -1. It has no branches.
#[inline(always)]
pub(crate) fn sign(x: i64) -> i64
    ensures { result ≡ int_signum x }
{
    i64::from(x > 0) - i64::from(x < 0)
}

/// 1 divided by `x`.
#[inline(always)]
pub(crate) fn reciprocal(x: i64) -> Result<i64, Fault>
    ensures { result ≡ reciprocal x }
{
    if x == 1 || x == -1 {
        Ok(x)
    } else {
        Err(Fault::Domain)
    }
}

/// `x` divided by `y`.
#[inline(always)]
pub(crate) fn quotient(x: i64, y: i64) -> Result<i64, Fault>
    ensures { result ≡ quotient x y }
{
    if y == 0 {
        return if x == 0 { Ok(1) } else { Err(Fault::Domain) };
    }
    if x.wrapping_rem(y) == 0 {
        limited(x.checked_div(y))
    } else {
        Err(Fault::Domain)
    }
}

/// `b` minus `a` times the quotient of `b` by `a`, rounded down.
#[inline(always)]
pub(crate) fn residue(a: i64, b: i64) -> i64
    ensures { result ≡ residue a b }
{
    if a == 0 {
        return b;
    }
    let rest = b.wrapping_rem_euclid(a);
    if a < 0 && rest != 0 { rest + a } else { rest }
}

/// Whether 32 bits hold all residues by the number.
pub(crate) fn has_narrow_residues(x: i64) -> bool
    ensures { result ≡ has_narrow_residues x }
{
    x != 0 && x.unsigned_abs() <= 1 << 31
}

/// `x` to the power `y`.
pub(crate) fn power(x: i64, y: i64) -> Result<i64, Fault>
    ensures { result ≡ power x y }
{
    let size = y.unsigned_abs();
    if y < 0 {
        return match x {
            1 => Ok(1),
            -1 => Ok(power_of_minus_one(size)),
            _ => Err(Fault::Domain),
        };
    }
    if size < 64 {
        return limited(x.checked_pow(size as u32));
    }
    large_power(x, size)
}

/// 1 if `n` is even, else -1.
fn power_of_minus_one(n: u64) -> i64
    ensures { result ≡ (if n % 2 == 0 then pos 1 else negsuc 0) }
{
    if n % 2 == 0 { 1 } else { -1 }
}

/// A power with an exponent of 64 or more leaves the range, but for those of -1, 0 and 1.
fn large_power(x: i64, n: u64) -> Result<i64, Fault>
    requires { 64 ≤ n }
    ensures { result ≡ exact (int_pow x n) }
{
    range_is_decided();
    if x.unsigned_abs() > 1 {
        return Err(Fault::Limit);
    }
    Ok(if x < 0 { power_of_minus_one(n) } else { x })
}

/// The factorial of `x`. That of 21 leaves the range.
pub(crate) fn factorial(x: i64) -> Result<i64, Fault>
    ensures { result ≡ factorial_of x }
{
    if x < 0 {
        return Err(Fault::Domain);
    }
    let n = x.unsigned_abs();
    range_is_decided();
    if n > 20 {
        return Err(Fault::Limit);
    }
    Ok(product_up_to(n) as i64)
}

/// The product of the numbers from 1 up to `n`.
fn product_up_to(n: u64) -> u64
    requires { n ≤ 20 }
    ensures value { result ≡ factorial n }
    ensures small { result < 2 ^ 63 }
{
    let mut product = 1;
    for k in 0..n {
        product *= k + 1;
    }
    product
}

/// In how many ways `x` of `y` things are chosen.
pub(crate) fn combinations(x: i64, y: i64) -> Result<i64, Fault>
    ensures { result ≡ combinations x y }
{
    if x < 0 || y < 0 {
        return Err(Fault::Domain);
    }
    limited(chosen(x.unsigned_abs(), y.unsigned_abs()))
}

/// In how many ways `x` of `y` things are chosen, if that is in the range: as many as leave
/// `y - x` of them.
fn chosen(x: u64, y: u64) -> Option<i64>
    requires { y < 2 ^ 63 }
    ensures { limited_value result ≡ exact (pos (binomial y x)) }
{
    if y < x {
        return Some(0);
    }
    let rest = y - x;
    if x < rest {
        choices(y, x)
    } else {
        choices(y, rest)
    }
}

/// In how many ways `k` of `n` things are chosen, if that is in the range. For i + 1 there are
/// n - i times as many as for i, divided by i + 1. They rise up to n / 2, so they leave the range
/// soon or never.
fn choices(n: u64, k: u64) -> Option<i64>
    requires range { n < 2 ^ 63 }
    requires half { k + k ≤ n }
    ensures { limited_value result ≡ exact (pos (binomial n k)) }
{
    range_is_decided();
    let mut count: u128 = 1;
    for i in 0..k {
        count = count * (n - i) as u128 / (i + 1) as u128;
        if count > i64::MAX as u128 {
            return None;
        }
    }
    Some(count as i64)
}
