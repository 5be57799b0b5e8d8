//! The scalar functions of elements.
ghost use Rattle.std.specs.Prelude.{◌≡◌, Bool, not, Ok, IsTrue};
ghost use Rattle.apl_array.specs.Array.{bit};
ghost use Rattle.apl_array.specs.Valences.{has_monadic, has_dyadic};
ghost use Rattle.apl_scalar.specs.Scalar.{monadic_of, dyadic_of, compare_elements, identity_of, as_element};

use crate::arithmetic::likely_value;
use crate::function_types::Function;
use crate::truth::bit;
use crate::with_type;
use apl_array::{Elem, ScalarFunction};
use apl_pool::Fault;

/// A monadic function of an element.
#[inline(always)]
pub(crate) fn monadic_element<F: Function>(x: Elem) -> Result<i64, Fault>
    ensures { result ≡ monadic_of F.FUNCTION x }
{
    match x {
        Elem::Int(x) => F::apply_monadic(x),
        Elem::Chr(_) => Err(Fault::Domain),
    }
}

/// A number, and the doubts whether it is the result of the monadic function of an element. It is if there are none.
#[inline(always)]
pub(crate) fn likely_element<F: Function>(x: Elem) -> (i64, u64)
    ensures { result.1 ≡ 0 → monadic_of F.FUNCTION x ≡ Ok result.0 }
{
    match x {
        Elem::Int(x) => F::likely_monadic(x),
        Elem::Chr(_) => likely_value(Err(Fault::Domain)),
    }
}

/// The dyadic function that the type `F` names, of two elements. It takes no memory.
#[inline(always)]
pub fn dyadic_elements<F: Function>(x: Elem, y: Elem) -> Result<i64, Fault>
    ensures { result ≡ dyadic_of F.FUNCTION x y }
{
    match (x, y) {
        (Elem::Int(x), Elem::Int(y)) => F::apply(x, y),
        (Elem::Chr(c), Elem::Chr(d)) => compare(F::FUNCTION, c == d),
        _ => compare(F::FUNCTION, false),
    }
}

/// A number, and the doubts whether it is the result of the dyadic function of two elements. It is if there are none.
#[inline(always)]
pub(crate) fn likely_elements<F: Function>(x: Elem, y: Elem) -> (i64, u64)
    ensures { result.1 ≡ 0 → dyadic_of F.FUNCTION x y ≡ Ok result.0 }
{
    match (x, y) {
        (Elem::Int(x), Elem::Int(y)) => F::likely(x, y),
        (x, y) => likely_value(dyadic_elements::<F>(x, y)),
    }
}

/// A dyadic function of two elements, of which one or both are characters.
#[inline(always)]
pub(crate) fn compare(f: ScalarFunction, same: bool) -> Result<i64, Fault>
    ensures { result ≡ compare_elements f same }
{
    match f {
        ScalarFunction::Equal => Ok(bit(same)),
        ScalarFunction::NotEqual => Ok(bit(!same)),
        _ => Err(Fault::Domain),
    }
}

/// A monadic function of an element, of which the function is chosen at the call. It takes no memory.
pub(crate) fn monadic_result(f: ScalarFunction, x: Elem) -> Result<i64, Fault>
    ensures { result ≡ monadic_of f x }
{
    with_type!(f, monadic_element::<F>(x))
}

/// A dyadic function of two elements, of which the function is chosen at the call. It takes no memory.
pub fn dyadic_result(f: ScalarFunction, x: Elem, y: Elem) -> Result<i64, Fault>
    ensures { result ≡ dyadic_of f x y }
{
    with_type!(f, dyadic_elements::<F>(x, y))
}

fn own_identity<F: Function>() -> Option<i64>
    ensures { result ≡ identity_of F.FUNCTION }
{
    F::identity()
}

/// `f B` of one element, a monadic scalar function. The result is a number.
/// Errors: DOMAIN of a character and where `f` isn't defined, LIMIT outside the range of 64 bits.
/// Source: APL\360 User's Manual, scalar functions. The range is this calculator's own.
/// It takes no memory.
pub fn apply1(f: ScalarFunction, x: Elem) -> Result<Elem, Fault>
    requires { IsTrue (has_monadic f) }
    ensures { result ≡ as_element (monadic_of f x) }
{
    match monadic_result(f, x) {
        Ok(z) => Ok(Elem::Int(z)),
        Err(fault) => Err(fault),
    }
}

/// `A f B` of two elements, a dyadic scalar function. The result is a number.
/// Errors: DOMAIN of a character, but for `=` and `≠`, and where `f` isn't defined; LIMIT outside
/// the range of 64 bits.
/// Source: APL\360 User's Manual, scalar functions. The range is this calculator's own.
/// It takes no memory.
pub fn apply2(f: ScalarFunction, x: Elem, y: Elem) -> Result<Elem, Fault>
    requires { IsTrue (has_dyadic f) }
    ensures { result ≡ as_element (dyadic_of f x y) }
{
    match dyadic_result(f, x, y) {
        Ok(z) => Ok(Elem::Int(z)),
        Err(fault) => Err(fault),
    }
}

/// The identity of `f`: what `f/` answers of an empty vector, a number. There is no error: `None`
/// is for functions without an identity, which are `⍲`, `⍱` and `~`.
/// Source: APL\360 User's Manual, reduction. Those of `⌊` and `⌈`, the ends of the range, are this
/// calculator's own.
pub fn identity(f: ScalarFunction) -> Option<i64>
    ensures { result ≡ identity_of f }
{
    with_type!(f, own_identity::<F>())
}
