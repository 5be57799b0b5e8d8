//! What the results of scalar functions are held as: numbers, of 64 bits or of 32, or truth values.
ghost use Rattle.std.specs.Prelude.{◌≡◌, refl};
ghost use Rattle.std.specs.Int.{int_wrap, w32};

use crate::truth::is_one;
use apl_answer::ElementType;
use apl_pool::Fault;

/// The number that the low 32 bits of a number are.
#[inline(always)]
fn low_bits(number: i64) -> i32
    ensures { result ≡ int_wrap w32 number }
{
    ((number.cast_unsigned() & 0xffff_ffff) as u32).cast_signed()
}

/// A type that results are held as.
pub trait Held: ElementType {
    ghost use Rattle.std.specs.Prelude.{◌≡◌, ℤ, Result, Ok, Err};
    ghost use Rattle.apl_pool.specs.declared.kernel.Fault.{Fault};

    // A result as it is held.
    ghost held: { Result ℤ Fault → Result Self Fault };

    ghost faults_stay: { (fault : Fault) → held (Err fault) ≡ Err fault };

    /// A number that is a result, as it is held. It takes no memory.
    fn of(number: i64) -> Self
        ensures { held (Ok number) ≡ Ok result };
}

impl Held for i64 {
    ghost held = { λ r. r };

    ghost faults_stay = { λ fault. refl };

    #[inline(always)]
    fn of(number: i64) -> i64 {
        number
    }
}

/// The low 32 bits. They are for functions whose results fit in them.
impl Held for i32 {
    ghost use Rattle.apl_scalar.specs.Scalar.{narrow_outcome};

    ghost held = { narrow_outcome };

    ghost faults_stay = { λ fault. refl };

    #[inline(always)]
    fn of(number: i64) -> i32 {
        low_bits(number)
    }
}

/// 1 is true. It is for functions whose results are 0 or 1.
impl Held for bool {
    ghost use Rattle.apl_scalar.specs.Scalar.{truth_outcome};

    ghost held = { truth_outcome };

    ghost faults_stay = { λ fault. refl };

    #[inline(always)]
    fn of(number: i64) -> bool {
        is_one(number)
    }
}

/// A result as it is held. It takes no memory.
#[inline(always)]
pub fn as_held<H: Held>(outcome: Result<i64, Fault>) -> Result<H, Fault>
    ensures { result ≡ H.held outcome }
{
    match outcome {
        Ok(number) => Ok(H::of(number)),
        Err(fault) => Err(fault),
    }
}
