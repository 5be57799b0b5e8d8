//! The scalar functions of arrays.
ghost use Rattle.std.specs.Prelude.{◌≡◌, true, false, Ok, IfSome, IsTrue, MatchOption, length, map, pos, slice_index_or};
ghost use Rattle.apl_array.specs.declared.array.Elem.TheVariants.{Int};
ghost use Rattle.apl_array.specs.declared.array.Kind.TheVariants.{Number};
ghost use Rattle.apl_array.specs.Array.{IsArray, element_in, truth_element};
ghost use Rattle.apl_array.specs.Shape.{count_of};
ghost use Rattle.apl_array.specs.Valences.{has_monadic, has_dyadic};
ghost use Rattle.apl_answer.specs.Arguments.{is_same_shape};
ghost use Rattle.apl_scalar.specs.Extension.{extended_shape};
ghost use Rattle.apl_scalar.specs.Scalar.{as_element, compare_elements, dyadic_of};
ghost use Rattle.apl_answer.specs.Pointwise.{IsAnswerAt, IsAnswerOf};
ghost use Rattle.apl_scalar.specs.Monadic.{monadic_answer};
ghost use Rattle.apl_scalar.specs.Dyadic.{answer_over, dyadic_answer};

use crate::arithmetic::has_narrow_residues;
use crate::elements::compare;
use crate::extend::extended;
use crate::operands::{Value, Whole};
use crate::passes::{fill_elements, fill_pairs, fill_residues};
use apl_answer::{ElementType, OpFault, constant_array};
use apl_array::{Array, Elem, Elements, ScalarFunction, Shape, places_match_index_lists};
use apl_pool::{Crew, Cut, Fault, Gate, Pool, Workers};
use std::alloc::Global;
use std::thread::Threads;

/// `f B`, a monadic scalar function. Shape: that of B. Kind: numbers.
/// Errors: the fault at the least place that has one, DOMAIN or LIMIT. `Memory` may come in place
/// of any answer.
/// Source: APL\360 User's Manual, scalar functions. The range of 64 bits is this calculator's own.
pub fn monadic<R: Threads + Sync, C: Cut + Sync, G: Gate + Sync>(
    rt: &R,
    alloc: Global,
    pool: &Pool<C, G>,
    f: ScalarFunction,
    right: &Array,
) -> Result<Array, OpFault>
    requires { IsTrue (has_monadic f) }
    ensures { IsAnswerOf (monadic_answer f right.now) result }
{
    let workers = Workers { rt, alloc, pool };
    let shape = right.shape().copy(alloc)?;
    fill_monadic(&workers, f, shape, right)
}

fn fill_monadic<W: Crew>(
    workers: &W,
    f: ScalarFunction,
    shape: Shape,
    right: &Array,
) -> Result<Array, OpFault>
    requires { shape ≡ right.now.shape }
    ensures { IsAnswerOf (monadic_answer f right.now) result }
{
    places_match_index_lists();
    match right.elements() {
        Elements::Numbers(numbers) => fill_elements(workers, f, shape, numbers),
        Elements::Narrow(numbers) => fill_elements(workers, f, shape, numbers),
        Elements::Truths(truths) => fill_elements(workers, f, shape, truths),
        Elements::Characters(_) => constant_array(workers, shape, Err(Fault::Domain)),
    }
}

/// `A f B`, a dyadic scalar function. Shape: that of both, if they are equal. Else an argument of
/// one element is extended to the other's shape. Of two such, the one of larger rank gives the
/// shape, the left one on a tie. Kind: numbers.
/// Errors in order: RANK, LENGTH, then the fault at the least place, DOMAIN or LIMIT. `Memory` may
/// come in place of any answer.
/// Source: APL\360 User's Manual, scalar functions. The range of 64 bits is this calculator's own.
pub fn dyadic<R: Threads + Sync, C: Cut + Sync, G: Gate + Sync>(
    rt: &R,
    alloc: Global,
    pool: &Pool<C, G>,
    f: ScalarFunction,
    left: &Array,
    right: &Array,
) -> Result<Array, OpFault>
    requires { IsTrue (has_dyadic f) }
    ensures { IsAnswerOf (dyadic_answer f left.now right.now) result }
{
    let workers = Workers { rt, alloc, pool };
    let shape = extended(left.shape(), right.shape())?.copy(alloc)?;
    fill_dyadic(&workers, f, shape, left, right)
}

/// The element of an argument that is extended to the shape of the result. One of that shape is not.
fn extended_element(a: &Array, shape: &Shape) -> Option<Elem>
    requires { is_same_shape a.now.shape shape.now ≡ false → count_of a.now.shape ≡ 1 }
    ensures element { MatchOption result (is_same_shape a.now.shape shape.now ≡ true) (λ x. (is_same_shape a.now.shape shape.now ≡ false) × (x ≡ element_in a.now 0)) }
    ensures lawful { IsArray a.now }
{
    if a.shape().lengths() == shape.lengths() {
        None
    } else {
        Some(a.get(0))
    }
}

/// The truth value that a number is, if it is 0 or 1.
fn truth_of(number: i64) -> Option<bool>
    ensures { IfSome result (λ truth. truth_element truth ≡ Int number) }
{
    match number {
        0 => Some(false),
        1 => Some(true),
        _ => None,
    }
}

/// A number and a character at each place of a shape.
fn fill_mixed<W: Crew>(workers: &W, f: ScalarFunction, shape: Shape) -> Result<Array, OpFault>
    ensures { IsAnswerAt shape Number (λ place. as_element (compare_elements f false)) result }
{
    constant_array(workers, shape, compare(f, false))
}

/// A function of each element of an argument and of one that serves at all places. A number serves truth values as one of them, if it can.
fn fill_with_right<W: Crew>(
    workers: &W,
    f: ScalarFunction,
    shape: Shape,
    left: &Array,
    y: Elem,
) -> Result<Array, OpFault>
    requires { count_of shape ≡ count_of left.now.shape }
    ensures { IsAnswerAt shape Number (λ place. as_element (dyadic_of f (element_in left.now place) y)) result }
{
    match (left.elements(), y) {
        (Elements::Numbers(xs), Elem::Int(y)) => fill_pairs(workers, f, shape, Whole(xs), Value(y)),
        (Elements::Narrow(xs), Elem::Int(y)) => fill_pairs(workers, f, shape, Whole(xs), Value(y)),
        (Elements::Truths(xs), Elem::Int(y)) => match truth_of(y) {
            Some(y) => fill_pairs(workers, f, shape, Whole(xs), Value(y)),
            None => fill_pairs(workers, f, shape, Whole(xs), Value(y)),
        },
        (Elements::Characters(xs), Elem::Chr(y)) => {
            fill_pairs(workers, f, shape, Whole(xs), Value(y))
        }
        _ => fill_mixed(workers, f, shape),
    }
}

/// A function of a number, which serves at all places, and of each element. Residues that fit in 32 bits are held so.
fn fill_with_number<T: ElementType + Sync, W: Crew>(
    workers: &W,
    f: ScalarFunction,
    shape: Shape,
    x: i64,
    ys: &[T],
) -> Result<Array, OpFault>
    requires { length ys.now ≡ count_of shape }
    ensures { IsAnswerAt shape Number (λ place. as_element (dyadic_of f (Int x) (slice_index_or (map T.elem_of ys.now) place (Int (pos 0))))) result }
{
    match f {
        ScalarFunction::Stile if has_narrow_residues(x) => fill_residues(workers, shape, x, ys),
        _ => fill_pairs(workers, f, shape, Value(x), Whole(ys)),
    }
}

/// The same of one element that serves at all places, and of each of an argument.
fn fill_with_left<W: Crew>(
    workers: &W,
    f: ScalarFunction,
    shape: Shape,
    x: Elem,
    right: &Array,
) -> Result<Array, OpFault>
    requires { count_of shape ≡ count_of right.now.shape }
    ensures { IsAnswerAt shape Number (λ place. as_element (dyadic_of f x (element_in right.now place))) result }
{
    match (x, right.elements()) {
        (Elem::Int(x), Elements::Numbers(ys)) => fill_with_number(workers, f, shape, x, ys),
        (Elem::Int(x), Elements::Narrow(ys)) => fill_with_number(workers, f, shape, x, ys),
        (Elem::Int(x), Elements::Truths(ys)) => match truth_of(x) {
            Some(x) => fill_pairs(workers, f, shape, Value(x), Whole(ys)),
            None => fill_pairs(workers, f, shape, Value(x), Whole(ys)),
        },
        (Elem::Chr(x), Elements::Characters(ys)) => {
            fill_pairs(workers, f, shape, Value(x), Whole(ys))
        }
        _ => fill_mixed(workers, f, shape),
    }
}

/// A function of the elements of two arguments at each place, of which the left ones are numbers.
fn fill_numbers<T: ElementType + Sync, W: Crew>(
    workers: &W,
    f: ScalarFunction,
    shape: Shape,
    left: &Array,
    xs: &[T],
    right: &Array,
) -> Result<Array, OpFault>
    requires lawful { IsArray left.now }
    requires kind { left.now.kind ≡ Number }
    requires elements { left.now.ravel ≡ map T.elem_of xs.now }
    requires left { count_of shape ≡ count_of left.now.shape }
    requires right { count_of shape ≡ count_of right.now.shape }
    ensures { IsAnswerAt shape Number (λ place. as_element (dyadic_of f (element_in left.now place) (element_in right.now place))) result }
{
    let xs = Whole(xs);
    match right.elements() {
        Elements::Numbers(ys) => fill_pairs(workers, f, shape, xs, Whole(ys)),
        Elements::Narrow(ys) => fill_pairs(workers, f, shape, xs, Whole(ys)),
        Elements::Truths(ys) => fill_pairs(workers, f, shape, xs, Whole(ys)),
        Elements::Characters(_) => fill_mixed(workers, f, shape),
    }
}

/// A function of the elements of two arguments at each place.
fn fill_wholes<W: Crew>(
    workers: &W,
    f: ScalarFunction,
    shape: Shape,
    left: &Array,
    right: &Array,
) -> Result<Array, OpFault>
    requires left { count_of shape ≡ count_of left.now.shape }
    requires right { count_of shape ≡ count_of right.now.shape }
    ensures { IsAnswerAt shape Number (λ place. as_element (dyadic_of f (element_in left.now place) (element_in right.now place))) result }
{
    match left.elements() {
        Elements::Numbers(xs) => fill_numbers(workers, f, shape, left, xs, right),
        Elements::Narrow(xs) => fill_numbers(workers, f, shape, left, xs, right),
        Elements::Truths(xs) => fill_numbers(workers, f, shape, left, xs, right),
        Elements::Characters(xs) => match right.elements() {
            Elements::Characters(ys) => fill_pairs(workers, f, shape, Whole(xs), Whole(ys)),
            _ => fill_mixed(workers, f, shape),
        },
    }
}

fn fill_dyadic<W: Crew>(
    workers: &W,
    f: ScalarFunction,
    shape: Shape,
    left: &Array,
    right: &Array,
) -> Result<Array, OpFault>
    requires { extended_shape left.now.shape right.now.shape ≡ Ok shape }
    ensures { IsAnswerOf (answer_over f left.now right.now (Ok shape)) result }
{
    places_match_index_lists();
    match (
        extended_element(left, &shape),
        extended_element(right, &shape),
    ) {
        (None, None) => fill_wholes(workers, f, shape, left, right),
        (None, Some(y)) => fill_with_right(workers, f, shape, left, y),
        (Some(x), _) => fill_with_left(workers, f, shape, x, right),
    }
}
