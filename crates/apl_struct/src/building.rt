//! Arrays as they are, without elements, or in other shapes, and numbers from the origin.
ghost use Rattle.std.specs.Prelude.{◌≡◌, ◌≤◌, ◌<◌, ◌==◌, map, Ok, Some, true, IfOk, ℕ, List};
ghost use Rattle.std.specs.List.{list_all};
ghost use Rattle.apl_array.specs.Axes.{place_number};
ghost use Rattle.apl_array.specs.Shape.{count_of, IsShape, is_shape};
ghost use Rattle.apl_array.specs.declared.shape.TheConstants.{MOST_ELEMENTS};
ghost use Rattle.apl_pool.specs.declared.kernel.TheConstants.{MOST_PLACES};
ghost use Rattle.apl_answer.specs.Arguments.{is_natural, size_of};
ghost use Rattle.apl_answer.specs.Pointwise.{IsArrayAt, IsShapeOf, answer_of, IsAnswerOf};
ghost use Rattle.apl_answer.specs.Rows.{Answers};
ghost use Rattle.apl_walk.specs.Gathered.{filled_at};
ghost use Rattle.apl_struct.specs.Building.{shape_of_row, ravel_row, reshape_source, reshape_row, iota_row};
ghost use Rattle.apl_array.specs.declared.array.Elem.{Elem};

use crate::arguments::numbers_among;
use apl_answer::{ElementType, Numeric, OpFault, array_of_elements, fill_array, number_at};
use apl_array::{
    Array, MOST_AXES, MOST_ELEMENTS, Origin, Shape, places_match_index_lists, with_elements,
};
use apl_pool::{Crew, Cut, Fault, Gate, Kernel, Pool, Workers};
use apl_walk::{ByLines, Cyclic};
use smallvec::SmallVec;
use std::alloc::{AllocError, Global};
use std::thread::Threads;

/// The shape with these lengths, which are lawful: so memory alone can be wanting.
pub(crate) fn lawful_shape(alloc: Global, lengths: &[usize]) -> Result<Shape, AllocError>
    requires { IsShape lengths.now }
    ensures shape { IfOk result (λ shape. shape ≡ lengths.now) }
    ensures test { IfOk result (λ shape. is_shape shape ≡ true) }
{
    match Shape::new(alloc, lengths) {
        Ok(shape) => Ok(shape),
        Err(_) => Err(AllocError),
    }
}

/// The lengths of a shape.
#[derive(Drop)]
struct Lengths<'a> {
    shape: &'a Shape,
}

impl Kernel for Lengths<'_> {
    ghost use Rattle.std.specs.Prelude.{Ok, pos, length, slice_index};

    type Out = i64;

    ghost place_count = { λ k. length k.shape.now };

    ghost outcome = { λ k place. Ok (pos (slice_index k.shape.now place)) };

    fn count(&self) -> usize {
        self.shape.rank()
    }

    #[inline(always)]
    fn at(&self, place: usize) -> Result<i64, Fault> {
        Ok(self.shape.axis(place) as i64)
    }
}

/// `⍴B`, shape: the axis lengths of `B`.
/// Shape: a vector of as many numbers as `B` has axes. Errors: none.
/// Source: APL\360 User's Manual, dimension vector.
pub fn shape_of<R: Threads + Sync, C: Cut + Sync, G: Gate + Sync>(
    rt: &R,
    alloc: Global,
    pool: &Pool<C, G>,
    b: &Array,
) -> Result<Array, OpFault>
    ensures { Answers (shape_of_row b.now) result }
{
    let workers = Workers { rt, alloc, pool };
    let shape = lawful_shape(alloc, &[b.shape().rank()])?;
    fill_array(&workers, shape, &Lengths { shape: b.shape() })
}

/// `,B`, ravel: the elements of `B` in row order.
/// Shape: a vector of the kind of `B`. Errors: none.
/// Source: APL\360 User's Manual, ravel.
pub fn ravel<R: Threads + Sync, C: Cut + Sync, G: Gate + Sync>(
    rt: &R,
    alloc: Global,
    pool: &Pool<C, G>,
    b: &Array,
) -> Result<Array, OpFault>
    ensures { Answers (ravel_row b.now) result }
{
    let workers = Workers { rt, alloc, pool };
    let count = b.shape().count();
    let shape = lawful_shape(alloc, &[count])?;
    repeat(&workers, shape, b)
}

fn repeat_elements<T: ElementType + Send + Sync, W: Crew>(
    workers: &W,
    shape: Shape,
    b: &Array,
    elements: &[T],
) -> Result<Array, OpFault>
    requires kind { b.now.kind ≡ T.kind }
    requires ravel { b.now.ravel ≡ map T.elem_of elements.now }
    ensures { IsArrayAt shape b.now.kind (λ place. filled_at b.now (Some (reshape_source (size_of b.now) place))) result }
{
    // An array that was asked something is known to be lawful.
    let _size = b.shape().count();
    let kernel = ByLines::new(Cyclic::new(elements, T::fill(), shape.count()));
    fill_array(workers, shape, &kernel)
}

/// The array of this shape with the elements of an argument in row order, again and again, and fills where it has none.
pub(crate) fn repeat<W: Crew>(workers: &W, shape: Shape, b: &Array) -> Result<Array, OpFault>
    ensures { IsArrayAt shape b.now.kind (λ place. filled_at b.now (Some (reshape_source (size_of b.now) place))) result }
{
    with_elements!(b.elements(), elements => repeat_elements(workers, shape, b, elements))
}

/// Whether all numbers are 0 and above.
pub(crate) fn are_natural<T: Numeric>(numbers: &[T]) -> bool
    ensures { result ≡ list_all is_natural (map T.number_in numbers.now) }
{
    for place in 0..numbers.len() {
        if number_at(numbers, place) < 0 {
            return false;
        }
    }
    true
}

/// The shape with these lengths, each from 0 up. It is refused where it passes a limit (`Limit`).
fn shape_with(alloc: Global, lengths: &[i64]) -> Result<Shape, OpFault>
    ensures { IsShapeOf (map place_number lengths.now) result }
{
    if lengths.len() > MOST_AXES {
        return Err(OpFault::Limit);
    }
    let lengths: SmallVec<usize, MOST_AXES> = lengths
        .iter()
        .map(|length| (*length).max(0) as usize)
        .collect(alloc)?;
    Ok(Shape::new(alloc, lengths.as_slice())?)
}

/// `A⍴B`, reshape: the elements of `B` in row order, again and again.
/// Shape: the numbers of `A`. Kind: that of `B`.
/// Errors in order: RANK of `A`, DOMAIN of its kind, then of its numbers, LIMIT, LENGTH where a result with elements is made of none.
/// Source: APL\360 User's Manual, restructuring; the order of errors is this calculator's own.
pub fn reshape<R: Threads + Sync, C: Cut + Sync, G: Gate + Sync>(
    rt: &R,
    alloc: Global,
    pool: &Pool<C, G>,
    a: &Array,
    b: &Array,
) -> Result<Array, OpFault>
    ensures { Answers (reshape_row a.now b.now) result }
{
    let workers = Workers { rt, alloc, pool };
    if a.shape().rank() > 1 {
        return Err(OpFault::Rank);
    }
    let numbers = numbers_among(&workers, a)?;
    let numbers = numbers.as_slice();
    if !are_natural(numbers) {
        return Err(OpFault::Domain);
    }
    let shape = shape_with(alloc, numbers)?;
    if b.shape().count() == 0 && shape.count() > 0 {
        return Err(OpFault::Length);
    }
    places_match_index_lists();
    repeat(&workers, shape, b)
}

/// Numbers one after the other.
#[derive(Drop)]
struct Consecutive {
    count: usize,
    first: usize,
    ghost most: { count ≤ MOST_PLACES },
    ghost low: { first ≤ 1 },
}

impl Kernel for Consecutive {
    ghost use Rattle.std.specs.Prelude.{Ok, pos, ◌+◌};

    type Out = i32;

    ghost place_count = { λ k. k.count };

    ghost outcome = { λ k place. Ok (pos (k.first + place)) };

    fn count(&self) -> usize {
        self.count
    }

    /// No number is read for these.
    fn work(&self) -> usize {
        self.count / 2
    }

    #[inline(always)]
    fn at(&self, place: usize) -> Result<i32, Fault> {
        Ok((self.first + place) as i32)
    }

    #[inline(always)]
    fn write_run(&self, from: usize, to: usize, room: &mut [i32]) -> usize {
        for k in 0..to - from {
            room[k] = (self.first + (from + k)) as i32;
        }
        to
    }
}

/// `⍳N`, index generator: the numbers from the origin on.
/// Shape: a vector of `N` numbers. Errors in order: RANK, LENGTH, DOMAIN of the kind, then of the number, LIMIT.
/// Source: APL\360 User's Manual, index generator; the order of errors is this calculator's own.
pub fn iota<R: Threads + Sync, C: Cut + Sync, G: Gate + Sync>(
    rt: &R,
    alloc: Global,
    pool: &Pool<C, G>,
    n: &Array,
    origin: Origin,
) -> Result<Array, OpFault>
    ensures { Answers (iota_row n.now origin) result }
{
    let workers = Workers { rt, alloc, pool };
    if n.shape().rank() > 1 {
        return Err(OpFault::Rank);
    }
    if n.shape().count() != 1 {
        return Err(OpFault::Length);
    }
    let numbers = numbers_among(&workers, n)?;
    let numbers = numbers.as_slice();
    if !are_natural(numbers) {
        return Err(OpFault::Domain);
    }
    let shape = shape_with(alloc, numbers)?;
    let count = shape.count();
    let first = origin.number() as usize;
    fill_array(&workers, shape, &Consecutive { count, first })
}

/// The array of this shape, which has no elements, of an argument's kind.
pub(crate) fn empty<W: Crew>(workers: &W, shape: Shape, b: &Array) -> Result<Array, OpFault>
    requires { count_of shape ≡ 0 }
    ensures { (element : List ℕ → Elem) → IsAnswerOf (answer_of shape (λ index. Ok (element index)) b.now.kind) result }
{
    array_of_elements(workers, shape, b)
}
