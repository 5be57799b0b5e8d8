//! The passes over arguments, one compiled for each type of their elements and each way to extend them.
ghost use Rattle.std.specs.Prelude.{◌≡◌, ℕ, pos, ◌≤◌, ◌<◌, length, map, slice_index_or, IsTrue};
ghost use Rattle.apl_array.specs.declared.array.Elem.TheVariants.{Int};
ghost use Rattle.apl_array.specs.declared.array.Kind.TheVariants.{Number};
ghost use Rattle.apl_array.specs.declared.function.ScalarFunction.TheVariants.{Stile};
ghost use Rattle.apl_array.specs.Array.{truth_element};
ghost use Rattle.apl_array.specs.Shape.{count_of};
ghost use Rattle.apl_answer.specs.Elements.{element_outcome};
ghost use Rattle.apl_answer.specs.Pointwise.{IsAnswerAt};
ghost use Rattle.apl_scalar.specs.Scalar.{as_element, dyadic_of, has_narrow_residues, is_truth_valued, monadic_of, truth_outcome};

use crate::function_types::{has_monadic_runs, is_quick_of_two, is_truth_valued};
use crate::kernels::{Argument, Arguments, ResultKernel, TwoArguments};
use crate::laws::{narrow_residues_are_results, truth_values_are_results};
use crate::operands::{Operand, Value, Whole};
use apl_answer::{ElementType, OpFault, fill_array};
use apl_array::{Array, ScalarFunction, Shape};
use apl_pool::Crew;
use std::marker::PhantomData;

/// How many times as long as a sum a result takes that is no quick one.
const SLOW: usize = 4;

/// About how much work a function of `count` elements is, as `Kernel::work` has it. So many of them are read in the time of one number.
fn work_of(count: usize, per_number: usize, is_quick: bool) -> usize {
    let numbers = count / per_number.max(1);
    if is_quick {
        numbers
    } else {
        numbers.saturating_mul(SLOW)
    }
}

/// About how much work a function of so many pairs of elements is, as `Kernel::work` has it.
pub fn work_of_pairs<T: ElementType>(f: ScalarFunction, pairs: usize) -> usize {
    work_of(pairs, T::PER_NUMBER, is_quick_of_two(f))
}

/// The array of what a function gives at all places of a shape. The results of a truth-valued function are held as truth values.
fn fill_results<A: Arguments + Sync, W: Crew>(
    workers: &W,
    f: ScalarFunction,
    shape: Shape,
    arguments: A,
    work: usize,
) -> Result<Array, OpFault>
    requires places { count_of shape ≤ A.served arguments }
    requires truths { IsTrue (is_truth_valued f) → (place : ℕ) → place < count_of shape
        → element_outcome truth_element (truth_outcome (A.outcome arguments f place)) ≡ as_element (A.outcome arguments f place) }
    ensures { IsAnswerAt shape Number (λ place. as_element (A.outcome arguments f place)) result }
{
    let count = shape.count();
    if is_truth_valued(f) {
        fill_array(
            workers,
            shape,
            &ResultKernel::<A, bool> {
                f,
                arguments,
                count,
                work,
                held: PhantomData,
            },
        )
    } else {
        fill_array(
            workers,
            shape,
            &ResultKernel::<A, i64> {
                f,
                arguments,
                count,
                work,
                held: PhantomData,
            },
        )
    }
}

/// A monadic function of each element, which is a number or a truth value.
pub(crate) fn fill_elements<T: ElementType + Sync, W: Crew>(
    workers: &W,
    f: ScalarFunction,
    shape: Shape,
    elements: &[T],
) -> Result<Array, OpFault>
    requires { length elements.now ≡ count_of shape }
    ensures { IsAnswerAt shape Number (λ place. as_element (monadic_of f (slice_index_or (map T.elem_of elements.now) place (Int (pos 0))))) result }
{
    truth_values_are_results();
    let work = work_of(elements.len(), T::PER_NUMBER, has_monadic_runs(f));
    fill_results(workers, f, shape, Argument(Whole(elements)), work)
}

/// A dyadic function of each pair of elements. A pass is compiled for each way to hold either argument, and for one that serves at all places.
pub(crate) fn fill_pairs<L: Operand + Sync, R: Operand + Sync, W: Crew>(
    workers: &W,
    f: ScalarFunction,
    shape: Shape,
    left: L,
    right: R,
) -> Result<Array, OpFault>
    requires left { count_of shape ≤ L.served left }
    requires right { count_of shape ≤ R.served right }
    ensures { IsAnswerAt shape Number (λ place. as_element (dyadic_of f (L.element left place) (R.element right place))) result }
{
    truth_values_are_results();
    let count = shape.count();
    let work = work_of(count, L::PER_NUMBER.min(R::PER_NUMBER), is_quick_of_two(f));
    fill_results(workers, f, shape, TwoArguments { left, right }, work)
}

/// The residues of each element by one number, if 32 bits hold them all. They are held so.
pub(crate) fn fill_residues<T: ElementType + Sync, W: Crew>(
    workers: &W,
    shape: Shape,
    divisor: i64,
    elements: &[T],
) -> Result<Array, OpFault>
    requires narrow { IsTrue (has_narrow_residues divisor) }
    requires elements { length elements.now ≡ count_of shape }
    ensures { IsAnswerAt shape Number (λ place. as_element (dyadic_of Stile (Int divisor) (slice_index_or (map T.elem_of elements.now) place (Int (pos 0))))) result }
{
    narrow_residues_are_results();
    let f = ScalarFunction::Stile;
    let count = shape.count();
    let arguments = TwoArguments {
        left: Value(divisor),
        right: Whole(elements),
    };
    fill_array(
        workers,
        shape,
        &ResultKernel::<TwoArguments<Value<i64>, Whole<T>>, i32> {
            f,
            arguments,
            count,
            work: work_of_pairs::<i64>(f, count),
            held: PhantomData,
        },
    )
}
