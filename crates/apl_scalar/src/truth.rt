//! The functions of truth values, of which 1 is true and 0 is false. Tests are joined by `&` and `|`, without branches.
ghost use Rattle.std.specs.Prelude.{◌≡◌, true, Ok, Err, ◌&&◌, ◌||◌, not, if◌then◌else◌};
ghost use Rattle.apl_pool.specs.declared.kernel.Fault.TheVariants.{Domain};
ghost use Rattle.apl_array.specs.Array.{bit};
ghost use Rattle.apl_answer.specs.Arguments.{is_bit};
ghost use Rattle.apl_scalar.specs.Scalar.{is_one, logical, negation};

use apl_pool::Fault;

#[inline(always)]
pub(crate) fn bit(truth: bool) -> i64
    ensures { result ≡ bit truth }
{
    if truth { 1 } else { 0 }
}

#[inline(always)]
fn is_bit(x: i64) -> bool
    ensures { result ≡ is_bit x }
{
    (x == 0) | (x == 1)
}

#[inline(always)]
pub(crate) fn is_one(x: i64) -> bool
    ensures { result ≡ is_one x }
{
    x == 1
}

#[inline(always)]
pub(crate) fn negation(x: i64) -> Result<i64, Fault>
    ensures { result ≡ negation x }
{
    if is_bit(x) {
        Ok(bit(!is_one(x)))
    } else {
        Err(Fault::Domain)
    }
}

/// The truth values that two numbers are, if both are 0 or 1.
#[inline(always)]
fn truth_values(x: i64, y: i64) -> Result<(bool, bool), Fault>
    ensures { result ≡ (if is_bit x && is_bit y then Ok (is_one x, is_one y) else Err Domain) }
{
    if is_bit(x) & is_bit(y) {
        Ok((is_one(x), is_one(y)))
    } else {
        Err(Fault::Domain)
    }
}

#[inline(always)]
pub(crate) fn and(x: i64, y: i64) -> Result<i64, Fault>
    ensures { result ≡ logical (λ p q. p && q) x y }
{
    let (p, q) = truth_values(x, y)?;
    Ok(bit(p && q))
}

#[inline(always)]
pub(crate) fn or(x: i64, y: i64) -> Result<i64, Fault>
    ensures { result ≡ logical (λ p q. p || q) x y }
{
    let (p, q) = truth_values(x, y)?;
    Ok(bit(p || q))
}

#[inline(always)]
pub(crate) fn nand(x: i64, y: i64) -> Result<i64, Fault>
    ensures { result ≡ logical (λ p q. not (p && q)) x y }
{
    let (p, q) = truth_values(x, y)?;
    Ok(bit(!(p && q)))
}

#[inline(always)]
pub(crate) fn nor(x: i64, y: i64) -> Result<i64, Fault>
    ensures { result ≡ logical (λ p q. not (p || q)) x y }
{
    let (p, q) = truth_values(x, y)?;
    Ok(bit(!(p || q)))
}

/// The bits of two numbers above the lowest. There are none if both numbers are 0 or 1.
#[inline(always)]
fn higher_bits(x: i64, y: i64) -> u64
    ensures { result ≡ 0 → (is_bit x && is_bit y) ≡ true }
{
    (x.cast_unsigned() | y.cast_unsigned()) >> 1
}

/// `negation` by bits, and the doubts whether it is that.
#[inline(always)]
pub(crate) fn likely_negation(x: i64) -> (i64, u64)
    ensures { result.1 ≡ 0 → negation x ≡ Ok result.0 }
{
    (x ^ 1, higher_bits(x, x))
}

/// `and` by bits, and the doubts whether it is that.
#[inline(always)]
pub(crate) fn likely_and(x: i64, y: i64) -> (i64, u64)
    ensures { result.1 ≡ 0 → logical (λ p q. p && q) x y ≡ Ok result.0 }
{
    (x & y, higher_bits(x, y))
}

/// `or` by bits, and the doubts whether it is that.
#[inline(always)]
pub(crate) fn likely_or(x: i64, y: i64) -> (i64, u64)
    ensures { result.1 ≡ 0 → logical (λ p q. p || q) x y ≡ Ok result.0 }
{
    (x | y, higher_bits(x, y))
}

/// `nand` by bits, and the doubts whether it is that.
#[inline(always)]
pub(crate) fn likely_nand(x: i64, y: i64) -> (i64, u64)
    ensures { result.1 ≡ 0 → logical (λ p q. not (p && q)) x y ≡ Ok result.0 }
{
    (x & y ^ 1, higher_bits(x, y))
}

/// `nor` by bits, and the doubts whether it is that.
#[inline(always)]
pub(crate) fn likely_nor(x: i64, y: i64) -> (i64, u64)
    ensures { result.1 ≡ 0 → logical (λ p q. not (p || q)) x y ≡ Ok result.0 }
{
    ((x | y) ^ 1, higher_bits(x, y))
}
