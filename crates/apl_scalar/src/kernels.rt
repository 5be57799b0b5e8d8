//! What a scalar function gives at each place.
ghost use Rattle.std.specs.Prelude.{◌≡◌, ◌≤◌, true};
ghost use Rattle.apl_pool.specs.declared.kernel.TheConstants.{MOST_PLACES};

use crate::elements::{
    dyadic_elements, dyadic_result, likely_element, likely_elements, monadic_element,
    monadic_result,
};
use crate::function_types::{Function, has_dyadic_runs, has_monadic_runs};
use crate::held::as_held;
use crate::loops::HeldLoops;
use crate::operands::Operand;
use crate::runs::{HeldRuns, Results, write_results};
use apl_array::ScalarFunction;
use apl_pool::{Fault, FirstFault, Kernel, Reused};
use std::marker::PhantomData;

/// The results of a monadic function of an argument.
#[derive(Clone, Copy)]
pub(crate) struct ElementResults<A, F> {
    argument: A,
    function: PhantomData<F>,
}

impl<A: Operand, F: Function + Copy> ElementResults<A, F> {
    ghost use Rattle.std.specs.Prelude.{◌≡◌};

    #[inline(always)]
    pub(crate) fn new(argument: A) -> ElementResults<A, F>
        ensures { result.argument ≡ argument }
    {
        ElementResults {
            argument,
            function: PhantomData,
        }
    }
}

impl<A: Operand, F: Function + Copy> Results for ElementResults<A, F> {
    ghost use Rattle.apl_scalar.specs.Scalar.{monadic_of};

    ghost served = { λ r. A.served r.argument };

    ghost outcome = { λ r place. monadic_of F.FUNCTION (A.element r.argument place) };

    #[inline(always)]
    fn result_at(&self, place: usize) -> Result<i64, Fault> {
        monadic_element::<F>(self.argument.at(place))
    }

    #[inline(always)]
    fn likely_at(&self, place: usize) -> (i64, u64) {
        likely_element::<F>(self.argument.at(place))
    }

    #[inline(always)]
    fn have_runs() -> bool {
        has_monadic_runs(F::FUNCTION)
    }

    #[inline(always)]
    fn are_of_truth_values() -> bool {
        A::PER_NUMBER == bool::PER_NUMBER
    }
}

/// The results of a dyadic function of two arguments.
#[derive(Clone, Copy)]
pub(crate) struct PairResults<L, R, F> {
    left: L,
    right: R,
    function: PhantomData<F>,
}

impl<L: Operand, R: Operand, F: Function + Copy> PairResults<L, R, F> {
    ghost use Rattle.std.specs.Prelude.{◌≡◌};

    #[inline(always)]
    pub(crate) fn new(left: L, right: R) -> PairResults<L, R, F>
        ensures left { result.left ≡ left }
        ensures right { result.right ≡ right }
    {
        PairResults {
            left,
            right,
            function: PhantomData,
        }
    }
}

impl<L: Operand, R: Operand, F: Function + Copy> Results for PairResults<L, R, F> {
    ghost use Rattle.std.specs.Prelude.{min};
    ghost use Rattle.apl_scalar.specs.Scalar.{dyadic_of};

    ghost served = { λ r. min (L.served r.left) (R.served r.right) };

    ghost outcome = { λ r place. dyadic_of F.FUNCTION (L.element r.left place) (R.element r.right place) };

    #[inline(always)]
    fn result_at(&self, place: usize) -> Result<i64, Fault> {
        dyadic_elements::<F>(self.left.at(place), self.right.at(place))
    }

    #[inline(always)]
    fn likely_at(&self, place: usize) -> (i64, u64) {
        likely_elements::<F>(self.left.at(place), self.right.at(place))
    }

    #[inline(always)]
    fn have_runs() -> bool {
        has_dyadic_runs(F::FUNCTION)
    }

    #[inline(always)]
    fn are_of_truth_values() -> bool {
        L::PER_NUMBER == bool::PER_NUMBER && R::PER_NUMBER == bool::PER_NUMBER
    }
}

/// The arguments of a scalar function at each place.
pub trait Arguments: Copy {
    ghost use Rattle.std.specs.Prelude.{◌≡◌, ◌+◌, ◌<◌, ◌≤◌, ℕ, ℤ, IfErr, OnOk, Result, length};
    ghost use Rattle.apl_array.specs.declared.function.ScalarFunction.{ScalarFunction};
    ghost use Rattle.apl_pool.specs.declared.kernel.Fault.{Fault};
    ghost use Rattle.apl_pool.specs.declared.kernel.TheConstants.{MOST_PLACES};
    ghost use Rattle.apl_pool.specs.Runs.{AreWritten, IsFaultAfter};

    // How many places there are.
    ghost served: { Self → ℕ };

    // What a function gives at a place.
    ghost outcome: { Self → ScalarFunction → ℕ → Result ℤ Fault };

    /// What a function gives at a place.
    fn result_at(&self, f: ScalarFunction, place: usize) -> Result<i64, Fault>
        requires { place < served self.now }
        ensures { result ≡ outcome self.now f place };

    /// Writes the results of the function of type `F`, as `write_results`.
    fn write<F: Function + Copy, H: HeldRuns>(
        &self,
        from: usize,
        to: usize,
        room: &mut [H],
    ) -> Result<(), FirstFault>
        requires order { from ≤ to }
        requires places { to ≤ served self.now }
        requires most { to ≤ MOST_PLACES }
        requires room { from + length room.old ≡ to }
        ensures values { OnOk result (AreWritten (λ place. H.held (outcome self.now F.FUNCTION place)) from to room.new) }
        ensures fault { IfErr result (λ first. IsFaultAfter (λ place. H.held (outcome self.now F.FUNCTION place)) from to first.place first.fault room.new) }
        ensures len { length room.new ≡ length room.old };
}

/// The argument of a monadic function.
#[derive(Clone, Copy)]
pub(crate) struct Argument<A>(pub A);

impl<A: Operand> Arguments for Argument<A> {
    ghost use Rattle.apl_scalar.specs.Scalar.{monadic_of};

    ghost served = { λ a. A.served a.0 };

    ghost outcome = { λ a f place. monadic_of f (A.element a.0 place) };

    fn result_at(&self, f: ScalarFunction, place: usize) -> Result<i64, Fault> {
        monadic_result(f, self.0.at(place))
    }

    #[inline(always)]
    fn write<F: Function + Copy, H: HeldRuns>(
        &self,
        from: usize,
        to: usize,
        room: &mut [H],
    ) -> Result<(), FirstFault> {
        write_results(ElementResults::<A, F>::new(self.0), from, to, room)
    }
}

/// The two arguments of a dyadic function.
#[derive(Clone, Copy)]
pub(crate) struct TwoArguments<L, R> {
    pub left: L,
    pub right: R,
}

impl<L: Operand, R: Operand> Arguments for TwoArguments<L, R> {
    ghost use Rattle.std.specs.Prelude.{min};
    ghost use Rattle.apl_scalar.specs.Scalar.{dyadic_of};

    ghost served = { λ a. min (L.served a.left) (R.served a.right) };

    ghost outcome = { λ a f place. dyadic_of f (L.element a.left place) (R.element a.right place) };

    fn result_at(&self, f: ScalarFunction, place: usize) -> Result<i64, Fault> {
        dyadic_result(f, self.left.at(place), self.right.at(place))
    }

    #[inline(always)]
    fn write<F: Function + Copy, H: HeldRuns>(
        &self,
        from: usize,
        to: usize,
        room: &mut [H],
    ) -> Result<(), FirstFault> {
        let results = PairResults::<L, R, F>::new(self.left, self.right);
        write_results(results, from, to, room)
    }
}

/// The results of a function at the first `count` places, as they are held. The function is chosen once for all places that the pool asks for
/// together. So a pass of the pool is compiled once for all functions, and the loop over these places for each of them.
#[derive(Drop)]
pub(crate) struct ResultKernel<A: Arguments, H: HeldLoops> {
    pub f: ScalarFunction,
    pub arguments: A,
    pub count: usize,
    pub work: usize,
    pub held: PhantomData<H>,
    ghost most: { count ≤ MOST_PLACES },
    ghost served: { count ≤ A.served arguments },
    ghost is_held: { H.is_of f ≡ true },
}

impl<A: Arguments, H: HeldLoops> Kernel for ResultKernel<A, H> {
    type Out = H;

    ghost place_count = { λ k. k.count };

    ghost outcome = { λ k place. H.held (A.outcome k.arguments k.f place) };

    fn count(&self) -> usize {
        self.count
    }

    fn work(&self) -> usize {
        self.work
    }

    fn at(&self, place: usize) -> Result<H, Fault> {
        as_held(self.arguments.result_at(self.f, place))
    }

    #[inline(always)]
    fn write_chosen(
        &self,
        from: usize,
        to: usize,
        room: &mut [H],
    ) -> Option<Result<(), FirstFault>> {
        Some(H::write_results_of(self.f, self.arguments, from, to, room))
    }
}
