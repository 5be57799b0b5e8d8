//! The scalar functions, each a type of its own with its bodies. So a pass over an array is compiled for each
//! function, and does not choose between functions at each element.
ghost use Rattle.std.specs.Prelude.{◌≡◌};
ghost use Rattle.apl_array.specs.Array.{bit};
ghost use Rattle.apl_scalar.specs.Scalar.{is_truth_valued};

use crate::arithmetic::{
    combinations, factorial, likely_difference, likely_magnitude, likely_power, likely_product,
    likely_sum, likely_value, limited, power, product, quotient, reciprocal, residue, sign,
};
use crate::truth::{
    and, bit, likely_and, likely_nand, likely_negation, likely_nor, likely_or, nand, negation, nor,
    or,
};
use apl_array::ScalarFunction;
use apl_pool::Fault;

/// A type that names a scalar function, and has its bodies.
pub trait Function {
    ghost use Rattle.std.specs.Prelude.{◌≡◌, Ok};
    ghost use Rattle.apl_array.specs.declared.function.ScalarFunction.{ScalarFunction};
    ghost use Rattle.apl_scalar.specs.Scalar.{monadic_number, dyadic_numbers, identity_of};

    ghost FUNCTION: { ScalarFunction };

    /// The function that the type names.
    const FUNCTION: ScalarFunction;

    /// The result of the monadic function of a number, or `Domain` if there is none. It takes no memory.
    fn apply_monadic(right: i64) -> Result<i64, Fault>
        ensures { result ≡ monadic_number FUNCTION right };

    /// The result of the dyadic function of two numbers. It takes no memory.
    fn apply(left: i64, right: i64) -> Result<i64, Fault>
        ensures { result ≡ dyadic_numbers FUNCTION left right };

    /// The identity, if there is one: what the reduction of no element gives.
    fn identity() -> Option<i64>
        ensures { result ≡ identity_of FUNCTION };

    /// A likely result of the dyadic function: a number, and the doubts whether it is the result. It is if the doubts are 0. They are
    /// bits, so that a loop joins those of all places by `|`. It takes no memory.
    #[inline(always)]
    fn likely(left: i64, right: i64) -> (i64, u64)
        ensures { result.1 ≡ 0 → dyadic_numbers FUNCTION left right ≡ Ok result.0 }
    {
        likely_value(Self::apply(left, right))
    }

    /// A likely result of the monadic function, and the doubts whether it is the result. It takes no memory.
    #[inline(always)]
    fn likely_monadic(right: i64) -> (i64, u64)
        ensures { result.1 ≡ 0 → monadic_number FUNCTION right ≡ Ok result.0 }
    {
        likely_value(Self::apply_monadic(right))
    }
}

/// The functions of one argument that have no branches, so that a run of their results is quick.
#[inline(always)]
pub(crate) fn has_monadic_runs(f: ScalarFunction) -> bool {
    matches!(
        f,
        ScalarFunction::Plus
            | ScalarFunction::Minus
            | ScalarFunction::Times
            | ScalarFunction::Stile
            | ScalarFunction::Floor
            | ScalarFunction::Ceiling
            | ScalarFunction::Tilde
    )
}

/// The functions of two arguments whose likely results have no branches, so that a run of them is quick.
#[inline(always)]
pub(crate) fn has_dyadic_runs(f: ScalarFunction) -> bool {
    !matches!(
        f,
        ScalarFunction::Divide
            | ScalarFunction::Stile
            | ScalarFunction::Bang
            | ScalarFunction::Tilde
    )
}

/// The functions of two arguments that take about as long as a sum.
pub(crate) fn is_quick_of_two(f: ScalarFunction) -> bool {
    has_dyadic_runs(f) && f != ScalarFunction::Star
}

/// Whether all results of the function are 0 or 1, or faults.
#[inline(always)]
pub fn is_truth_valued(f: ScalarFunction) -> bool
    ensures { result ≡ is_truth_valued f }
{
    matches!(
        f,
        ScalarFunction::And
            | ScalarFunction::Or
            | ScalarFunction::Nand
            | ScalarFunction::Nor
            | ScalarFunction::Less
            | ScalarFunction::LessOrEqual
            | ScalarFunction::Equal
            | ScalarFunction::GreaterOrEqual
            | ScalarFunction::Greater
            | ScalarFunction::NotEqual
            | ScalarFunction::Tilde
    )
}

/// The call of a generic function at the type of a scalar function whose results are numbers: `F` is first among the type arguments. For a
/// truth-valued function it is what comes last.
#[macro_export]
macro_rules! with_number_type {
    ($f:expr, $($call:ident).+::<F $(, $parameter:ident)*>($($argument:expr),*), $otherwise:expr) => {
        match $f {
            $crate::Prim::Plus => $($call).+::<$crate::function_types::Plus $(, $parameter)*>($($argument),*),
            $crate::Prim::Minus => $($call).+::<$crate::function_types::Minus $(, $parameter)*>($($argument),*),
            $crate::Prim::Times => $($call).+::<$crate::function_types::Times $(, $parameter)*>($($argument),*),
            $crate::Prim::Divide => $($call).+::<$crate::function_types::Divide $(, $parameter)*>($($argument),*),
            $crate::Prim::Stile => $($call).+::<$crate::function_types::Stile $(, $parameter)*>($($argument),*),
            $crate::Prim::Star => $($call).+::<$crate::function_types::Star $(, $parameter)*>($($argument),*),
            $crate::Prim::Bang => $($call).+::<$crate::function_types::Bang $(, $parameter)*>($($argument),*),
            $crate::Prim::Floor => $($call).+::<$crate::function_types::Floor $(, $parameter)*>($($argument),*),
            $crate::Prim::Ceiling => $($call).+::<$crate::function_types::Ceiling $(, $parameter)*>($($argument),*),
            _ => $otherwise,
        }
    };
}

/// The same for a truth-valued function, and what comes last for any other.
#[macro_export]
macro_rules! with_truth_type {
    ($f:expr, $($call:ident).+::<F $(, $parameter:ident)*>($($argument:expr),*), $otherwise:expr) => {
        match $f {
            $crate::Prim::And => $($call).+::<$crate::function_types::And $(, $parameter)*>($($argument),*),
            $crate::Prim::Or => $($call).+::<$crate::function_types::Or $(, $parameter)*>($($argument),*),
            $crate::Prim::Nand => $($call).+::<$crate::function_types::Nand $(, $parameter)*>($($argument),*),
            $crate::Prim::Nor => $($call).+::<$crate::function_types::Nor $(, $parameter)*>($($argument),*),
            $crate::Prim::Less => $($call).+::<$crate::function_types::Less $(, $parameter)*>($($argument),*),
            $crate::Prim::LessOrEqual => $($call).+::<$crate::function_types::LessOrEqual $(, $parameter)*>($($argument),*),
            $crate::Prim::Equal => $($call).+::<$crate::function_types::Equal $(, $parameter)*>($($argument),*),
            $crate::Prim::GreaterOrEqual => $($call).+::<$crate::function_types::GreaterOrEqual $(, $parameter)*>($($argument),*),
            $crate::Prim::Greater => $($call).+::<$crate::function_types::Greater $(, $parameter)*>($($argument),*),
            $crate::Prim::NotEqual => $($call).+::<$crate::function_types::NotEqual $(, $parameter)*>($($argument),*),
            $crate::Prim::Tilde => $($call).+::<$crate::function_types::Tilde $(, $parameter)*>($($argument),*),
            _ => $otherwise,
        }
    };
}

/// The same for each function.
#[macro_export]
macro_rules! with_type {
    ($f:expr, $($call:ident).+::<F $(, $parameter:ident)*>($($argument:expr),*)) => {
        $crate::with_number_type!(
            $f,
            $($call).+::<F $(, $parameter)*>($($argument),*),
            $crate::with_truth_type!($f, $($call).+::<F $(, $parameter)*>($($argument),*), unreachable!())
        )
    };
}

/// `+`: the number itself, and the sum.
#[derive(Clone, Copy)]
pub struct Plus;

impl Function for Plus {
    ghost use Rattle.apl_array.specs.declared.function.ScalarFunction.TheVariants.{Plus as Named};

    ghost FUNCTION = { Named };

    const FUNCTION: ScalarFunction = ScalarFunction::Plus;

    #[inline(always)]
    fn apply_monadic(right: i64) -> Result<i64, Fault> {
        Ok(right)
    }

    #[inline(always)]
    fn apply(left: i64, right: i64) -> Result<i64, Fault> {
        limited(left.checked_add(right))
    }

    fn identity() -> Option<i64> {
        Some(0)
    }

    #[inline(always)]
    fn likely(left: i64, right: i64) -> (i64, u64) {
        likely_sum(left, right)
    }
}

/// `-`: the number with the other sign, and the difference.
#[derive(Clone, Copy)]
pub struct Minus;

impl Function for Minus {
    ghost use Rattle.apl_array.specs.declared.function.ScalarFunction.TheVariants.{Minus as Named};

    ghost FUNCTION = { Named };

    const FUNCTION: ScalarFunction = ScalarFunction::Minus;

    #[inline(always)]
    fn apply_monadic(right: i64) -> Result<i64, Fault> {
        limited(right.checked_neg())
    }

    #[inline(always)]
    fn apply(left: i64, right: i64) -> Result<i64, Fault> {
        limited(left.checked_sub(right))
    }

    fn identity() -> Option<i64> {
        Some(0)
    }

    #[inline(always)]
    fn likely(left: i64, right: i64) -> (i64, u64) {
        likely_difference(left, right)
    }

    #[inline(always)]
    fn likely_monadic(right: i64) -> (i64, u64) {
        likely_difference(0, right)
    }
}

/// `×`: the sign, and the product.
#[derive(Clone, Copy)]
pub struct Times;

impl Function for Times {
    ghost use Rattle.apl_array.specs.declared.function.ScalarFunction.TheVariants.{Times as Named};

    ghost FUNCTION = { Named };

    const FUNCTION: ScalarFunction = ScalarFunction::Times;

    #[inline(always)]
    fn apply_monadic(right: i64) -> Result<i64, Fault> {
        Ok(sign(right))
    }

    #[inline(always)]
    fn apply(left: i64, right: i64) -> Result<i64, Fault> {
        product(left, right)
    }

    fn identity() -> Option<i64> {
        Some(1)
    }

    #[inline(always)]
    fn likely(left: i64, right: i64) -> (i64, u64) {
        likely_product(left, right)
    }
}

/// `÷`: the reciprocal, and the quotient.
#[derive(Clone, Copy)]
pub struct Divide;

impl Function for Divide {
    ghost use Rattle.apl_array.specs.declared.function.ScalarFunction.TheVariants.{Divide as Named};

    ghost FUNCTION = { Named };

    const FUNCTION: ScalarFunction = ScalarFunction::Divide;

    #[inline(always)]
    fn apply_monadic(right: i64) -> Result<i64, Fault> {
        reciprocal(right)
    }

    #[inline(always)]
    fn apply(left: i64, right: i64) -> Result<i64, Fault> {
        quotient(left, right)
    }

    fn identity() -> Option<i64> {
        Some(1)
    }
}

/// `|`: the magnitude, and the residue.
#[derive(Clone, Copy)]
pub struct Stile;

impl Function for Stile {
    ghost use Rattle.apl_array.specs.declared.function.ScalarFunction.TheVariants.{Stile as Named};

    ghost FUNCTION = { Named };

    const FUNCTION: ScalarFunction = ScalarFunction::Stile;

    #[inline(always)]
    fn apply_monadic(right: i64) -> Result<i64, Fault> {
        limited(right.checked_abs())
    }

    #[inline(always)]
    fn apply(left: i64, right: i64) -> Result<i64, Fault> {
        Ok(residue(left, right))
    }

    fn identity() -> Option<i64> {
        Some(0)
    }

    #[inline(always)]
    fn likely_monadic(right: i64) -> (i64, u64) {
        likely_magnitude(right)
    }
}

/// `*`: the power.
#[derive(Clone, Copy)]
pub struct Star;

impl Function for Star {
    ghost use Rattle.apl_array.specs.declared.function.ScalarFunction.TheVariants.{Star as Named};

    ghost FUNCTION = { Named };

    const FUNCTION: ScalarFunction = ScalarFunction::Star;

    #[inline(always)]
    fn apply_monadic(_right: i64) -> Result<i64, Fault> {
        Err(Fault::Domain)
    }

    #[inline(always)]
    fn apply(left: i64, right: i64) -> Result<i64, Fault> {
        power(left, right)
    }

    fn identity() -> Option<i64> {
        Some(1)
    }

    #[inline(always)]
    fn likely(left: i64, right: i64) -> (i64, u64) {
        likely_power(left, right)
    }
}

/// `!`: the factorial, and the combinations.
#[derive(Clone, Copy)]
pub struct Bang;

impl Function for Bang {
    ghost use Rattle.apl_array.specs.declared.function.ScalarFunction.TheVariants.{Bang as Named};

    ghost FUNCTION = { Named };

    const FUNCTION: ScalarFunction = ScalarFunction::Bang;

    #[inline(always)]
    fn apply_monadic(right: i64) -> Result<i64, Fault> {
        factorial(right)
    }

    #[inline(always)]
    fn apply(left: i64, right: i64) -> Result<i64, Fault> {
        combinations(left, right)
    }

    fn identity() -> Option<i64> {
        Some(1)
    }
}

/// `⌊`: the number itself, and the lesser.
#[derive(Clone, Copy)]
pub struct Floor;

impl Function for Floor {
    ghost use Rattle.apl_array.specs.declared.function.ScalarFunction.TheVariants.{Floor as Named};

    ghost FUNCTION = { Named };

    const FUNCTION: ScalarFunction = ScalarFunction::Floor;

    #[inline(always)]
    fn apply_monadic(right: i64) -> Result<i64, Fault> {
        Ok(right)
    }

    #[inline(always)]
    fn apply(left: i64, right: i64) -> Result<i64, Fault> {
        Ok(if right < left { right } else { left })
    }

    fn identity() -> Option<i64> {
        Some(i64::MAX)
    }
}

/// `⌈`: the number itself, and the greater.
#[derive(Clone, Copy)]
pub struct Ceiling;

impl Function for Ceiling {
    ghost use Rattle.apl_array.specs.declared.function.ScalarFunction.TheVariants.{Ceiling as Named};

    ghost FUNCTION = { Named };

    const FUNCTION: ScalarFunction = ScalarFunction::Ceiling;

    #[inline(always)]
    fn apply_monadic(right: i64) -> Result<i64, Fault> {
        Ok(right)
    }

    #[inline(always)]
    fn apply(left: i64, right: i64) -> Result<i64, Fault> {
        Ok(if right < left { left } else { right })
    }

    fn identity() -> Option<i64> {
        Some(i64::MIN)
    }
}

/// `∧` of truth values.
#[derive(Clone, Copy)]
pub struct And;

impl Function for And {
    ghost use Rattle.apl_array.specs.declared.function.ScalarFunction.TheVariants.{And as Named};

    ghost FUNCTION = { Named };

    const FUNCTION: ScalarFunction = ScalarFunction::And;

    #[inline(always)]
    fn apply_monadic(_right: i64) -> Result<i64, Fault> {
        Err(Fault::Domain)
    }

    #[inline(always)]
    fn apply(left: i64, right: i64) -> Result<i64, Fault> {
        and(left, right)
    }

    fn identity() -> Option<i64> {
        Some(1)
    }

    #[inline(always)]
    fn likely(left: i64, right: i64) -> (i64, u64) {
        likely_and(left, right)
    }
}

/// `∨` of truth values.
#[derive(Clone, Copy)]
pub struct Or;

impl Function for Or {
    ghost use Rattle.apl_array.specs.declared.function.ScalarFunction.TheVariants.{Or as Named};

    ghost FUNCTION = { Named };

    const FUNCTION: ScalarFunction = ScalarFunction::Or;

    #[inline(always)]
    fn apply_monadic(_right: i64) -> Result<i64, Fault> {
        Err(Fault::Domain)
    }

    #[inline(always)]
    fn apply(left: i64, right: i64) -> Result<i64, Fault> {
        or(left, right)
    }

    fn identity() -> Option<i64> {
        Some(0)
    }

    #[inline(always)]
    fn likely(left: i64, right: i64) -> (i64, u64) {
        likely_or(left, right)
    }
}

/// `⍲` of truth values.
#[derive(Clone, Copy)]
pub struct Nand;

impl Function for Nand {
    ghost use Rattle.apl_array.specs.declared.function.ScalarFunction.TheVariants.{Nand as Named};

    ghost FUNCTION = { Named };

    const FUNCTION: ScalarFunction = ScalarFunction::Nand;

    #[inline(always)]
    fn apply_monadic(_right: i64) -> Result<i64, Fault> {
        Err(Fault::Domain)
    }

    #[inline(always)]
    fn apply(left: i64, right: i64) -> Result<i64, Fault> {
        nand(left, right)
    }

    fn identity() -> Option<i64> {
        None
    }

    #[inline(always)]
    fn likely(left: i64, right: i64) -> (i64, u64) {
        likely_nand(left, right)
    }
}

/// `⍱` of truth values.
#[derive(Clone, Copy)]
pub struct Nor;

impl Function for Nor {
    ghost use Rattle.apl_array.specs.declared.function.ScalarFunction.TheVariants.{Nor as Named};

    ghost FUNCTION = { Named };

    const FUNCTION: ScalarFunction = ScalarFunction::Nor;

    #[inline(always)]
    fn apply_monadic(_right: i64) -> Result<i64, Fault> {
        Err(Fault::Domain)
    }

    #[inline(always)]
    fn apply(left: i64, right: i64) -> Result<i64, Fault> {
        nor(left, right)
    }

    fn identity() -> Option<i64> {
        None
    }

    #[inline(always)]
    fn likely(left: i64, right: i64) -> (i64, u64) {
        likely_nor(left, right)
    }
}

/// `<`: 1 if the left number is less, else 0.
#[derive(Clone, Copy)]
pub struct Less;

impl Function for Less {
    ghost use Rattle.apl_array.specs.declared.function.ScalarFunction.TheVariants.{Less as Named};

    ghost FUNCTION = { Named };

    const FUNCTION: ScalarFunction = ScalarFunction::Less;

    #[inline(always)]
    fn apply_monadic(_right: i64) -> Result<i64, Fault> {
        Err(Fault::Domain)
    }

    #[inline(always)]
    fn apply(left: i64, right: i64) -> Result<i64, Fault> {
        Ok(bit(left < right))
    }

    fn identity() -> Option<i64> {
        Some(0)
    }
}

/// `≤`: 1 if the left number is less or equal, else 0.
#[derive(Clone, Copy)]
pub struct LessOrEqual;

impl Function for LessOrEqual {
    ghost use Rattle.apl_array.specs.declared.function.ScalarFunction.TheVariants.{LessOrEqual as Named};

    ghost FUNCTION = { Named };

    const FUNCTION: ScalarFunction = ScalarFunction::LessOrEqual;

    #[inline(always)]
    fn apply_monadic(_right: i64) -> Result<i64, Fault> {
        Err(Fault::Domain)
    }

    #[inline(always)]
    fn apply(left: i64, right: i64) -> Result<i64, Fault> {
        Ok(bit(left <= right))
    }

    fn identity() -> Option<i64> {
        Some(1)
    }
}

/// `=`: 1 if the numbers are equal, else 0.
#[derive(Clone, Copy)]
pub struct Equal;

impl Function for Equal {
    ghost use Rattle.apl_array.specs.declared.function.ScalarFunction.TheVariants.{Equal as Named};

    ghost FUNCTION = { Named };

    const FUNCTION: ScalarFunction = ScalarFunction::Equal;

    #[inline(always)]
    fn apply_monadic(_right: i64) -> Result<i64, Fault> {
        Err(Fault::Domain)
    }

    #[inline(always)]
    fn apply(left: i64, right: i64) -> Result<i64, Fault> {
        Ok(bit(left == right))
    }

    fn identity() -> Option<i64> {
        Some(1)
    }
}

/// `≥`: 1 if the left number is greater or equal, else 0.
#[derive(Clone, Copy)]
pub struct GreaterOrEqual;

impl Function for GreaterOrEqual {
    ghost use Rattle.apl_array.specs.declared.function.ScalarFunction.TheVariants.{GreaterOrEqual as Named};

    ghost FUNCTION = { Named };

    const FUNCTION: ScalarFunction = ScalarFunction::GreaterOrEqual;

    #[inline(always)]
    fn apply_monadic(_right: i64) -> Result<i64, Fault> {
        Err(Fault::Domain)
    }

    #[inline(always)]
    fn apply(left: i64, right: i64) -> Result<i64, Fault> {
        Ok(bit(left >= right))
    }

    fn identity() -> Option<i64> {
        Some(1)
    }
}

/// `>`: 1 if the left number is greater, else 0.
#[derive(Clone, Copy)]
pub struct Greater;

impl Function for Greater {
    ghost use Rattle.apl_array.specs.declared.function.ScalarFunction.TheVariants.{Greater as Named};

    ghost FUNCTION = { Named };

    const FUNCTION: ScalarFunction = ScalarFunction::Greater;

    #[inline(always)]
    fn apply_monadic(_right: i64) -> Result<i64, Fault> {
        Err(Fault::Domain)
    }

    #[inline(always)]
    fn apply(left: i64, right: i64) -> Result<i64, Fault> {
        Ok(bit(left > right))
    }

    fn identity() -> Option<i64> {
        Some(0)
    }
}

/// `≠`: 1 if the numbers differ, else 0.
#[derive(Clone, Copy)]
pub struct NotEqual;

impl Function for NotEqual {
    ghost use Rattle.apl_array.specs.declared.function.ScalarFunction.TheVariants.{NotEqual as Named};

    ghost FUNCTION = { Named };

    const FUNCTION: ScalarFunction = ScalarFunction::NotEqual;

    #[inline(always)]
    fn apply_monadic(_right: i64) -> Result<i64, Fault> {
        Err(Fault::Domain)
    }

    #[inline(always)]
    fn apply(left: i64, right: i64) -> Result<i64, Fault> {
        Ok(bit(left != right))
    }

    fn identity() -> Option<i64> {
        Some(0)
    }
}

/// `~`: the negation of a truth value.
#[derive(Clone, Copy)]
pub struct Tilde;

impl Function for Tilde {
    ghost use Rattle.apl_array.specs.declared.function.ScalarFunction.TheVariants.{Tilde as Named};

    ghost FUNCTION = { Named };

    const FUNCTION: ScalarFunction = ScalarFunction::Tilde;

    #[inline(always)]
    fn apply_monadic(right: i64) -> Result<i64, Fault> {
        negation(right)
    }

    #[inline(always)]
    fn apply(_left: i64, _right: i64) -> Result<i64, Fault> {
        Err(Fault::Domain)
    }

    fn identity() -> Option<i64> {
        None
    }

    #[inline(always)]
    fn likely_monadic(right: i64) -> (i64, u64) {
        likely_negation(right)
    }
}
