//! A scalar function of two elements, known when the code is compiled or chosen at each call.
ghost use Rattle.std.specs.Prelude.{◌≡◌};
ghost use Rattle.apl_scalar.specs.Scalar.{dyadic_numbers};

use apl_array::{Elem, ScalarFunction};
use apl_pool::Fault;
use apl_scalar::function_types::Function;
use apl_scalar::{dyadic_elements, dyadic_result, identity, with_type};
use std::marker::PhantomData;

/// A scalar function of two elements.
pub(crate) trait Dyadic: Copy {
    ghost use Rattle.apl_array.specs.declared.function.ScalarFunction.{ScalarFunction};
    ghost use Rattle.apl_scalar.specs.Scalar.{dyadic_of, dyadic_numbers, identity_of};

    ghost function: { Self → ScalarFunction };

    /// What it gives of two elements.
    fn of(&self, x: Elem, y: Elem) -> Result<i64, Fault>
        ensures { result ≡ dyadic_of (function self.now) x y };

    /// What it gives of two numbers.
    fn of_numbers(&self, x: i64, y: i64) -> Result<i64, Fault>
        ensures { result ≡ dyadic_numbers (function self.now) x y };

    /// What the reduction of no element gives, if anything.
    fn identity(&self) -> Option<i64>
        ensures { result ≡ identity_of (function self.now) };
}

/// The function that a type names, for which a loop is compiled.
#[derive(Clone, Copy)]
pub(crate) struct Typed<F>(pub PhantomData<F>);

impl<F: Function + Copy> Dyadic for Typed<F> {
    ghost function = { λ d. F.FUNCTION };

    #[inline(always)]
    fn of(&self, x: Elem, y: Elem) -> Result<i64, Fault> {
        dyadic_elements::<F>(x, y)
    }

    #[inline(always)]
    fn of_numbers(&self, x: i64, y: i64) -> Result<i64, Fault> {
        F::apply(x, y)
    }

    #[inline(always)]
    fn identity(&self) -> Option<i64> {
        F::identity()
    }
}

/// The function that a type names, of two numbers.
#[inline(always)]
fn applied<F: Function>(x: i64, y: i64) -> Result<i64, Fault>
    ensures { result ≡ dyadic_numbers F.FUNCTION x y }
{
    F::apply(x, y)
}

/// A function that is chosen at each call.
#[derive(Clone, Copy)]
pub(crate) struct Chosen(pub ScalarFunction);

impl Dyadic for Chosen {
    ghost function = { λ d. d.0 };

    #[inline(always)]
    fn of(&self, x: Elem, y: Elem) -> Result<i64, Fault> {
        dyadic_result(self.0, x, y)
    }

    #[inline(always)]
    fn of_numbers(&self, x: i64, y: i64) -> Result<i64, Fault> {
        with_type!(self.0, applied::<F>(x, y))
    }

    #[inline(always)]
    fn identity(&self) -> Option<i64> {
        identity(self.0)
    }
}
