//! Elements taken from the ends of the axes, or left away there.
ghost use Rattle.std.specs.Prelude.{◌≡◌, ℕ, ◌*◌, ◌++◌, ◌<◌, ◌≤◌, ◌⊎◌, length, map, nat_abs, List, All, Ok, Err, Result, IfOk, IfErr, option_map};
ghost use Rattle.apl_array.specs.Array.{ArrayValue};
ghost use Rattle.apl_array.specs.Shape.{IsShape, count_of, place_of, index_at};
ghost use Rattle.apl_pool.specs.declared.kernel.TheConstants.{MOST_PLACES};
ghost use Rattle.apl_answer.specs.Arguments.{rank_of, size_of, numbers_of};
ghost use Rattle.apl_answer.specs.Numbers.{number_list};
ghost use Rattle.apl_answer.specs.declared.fault.OpFault.TheVariants.{Memory};
ghost use Rattle.apl_answer.specs.Rows.{Answers, first_failure_or};
ghost use Rattle.apl_struct.specs.Gathering.{element_or_fill};
ghost use Rattle.apl_struct.specs.Taking.{with_axes, taking_checks, taken_index, take_source, take_row, drop_row};
ghost use Rattle.apl_walk.specs.Maps.{step_of, extent_of, walked};
ghost use Rattle.apl_walk.specs.Walks.{maps_of};
ghost use Rattle.apl_struct.specs.Shaped.{with_shape, left_number, left_numbers, HavePassedButLimit, IsArrayOrLimit};

use crate::arguments::numbers_among;
use crate::building::{lawful_shape, repeat};
use apl_answer::{Numbers, OpFault};
use apl_array::{Array, MOST_AXES, Shape, places_match_index_lists};
use apl_pool::{Crew, Cut, Gate, Pool, Workers};
use apl_walk::{Map, Walk, Window, gather};
use std::alloc::{AllocError, Global};
use std::thread::Threads;

/// The window of an axis of which the first `number` elements are taken, or the last for a negative number.
fn taken_window(number: i64, length: usize, stride: usize) -> Window
    requires some { 0 < nat_abs number }
    requires most { nat_abs number ≤ MOST_PLACES }
    requires length { length ≤ MOST_PLACES }
    requires near { length * stride ≤ MOST_PLACES }
    ensures extent { result.extent ≡ nat_abs number }
    ensures step { (i : ℕ) → i < nat_abs number → step_of result i ≡ option_map (λ j. j * stride) (taken_index number length i) }
{
    let extent = number.unsigned_abs() as usize;
    if number >= 0 {
        return Window {
            extent,
            from: 0,
            to: extent.min(length),
            start: 0,
            stride,
        };
    }
    Window {
        extent,
        from: extent.saturating_sub(length),
        to: extent,
        start: length.saturating_sub(extent),
        stride,
    }
}

/// The walk over an argument of which so much is taken.
fn taken_walk(alloc: Global, numbers: &[i64], argument: &Shape) -> Result<Walk<'static>, AllocError>
    requires len { length numbers.now ≡ length argument.now }
    requires lawful { IsShape (map nat_abs numbers.now) }
    requires some { 0 < count_of (map nat_abs numbers.now) }
    requires argument_some { 0 < count_of argument.now }
    ensures extent { IfOk result (λ walk. extent_of (maps_of walk) ≡ count_of (map nat_abs numbers.now)) }
    ensures place { IfOk result (λ walk. (place : ℕ) → walked (maps_of walk) place
        ≡ option_map (place_of argument.now) (take_source numbers.now argument.now (index_at (map nat_abs numbers.now) place))) }
{
    let mut walk = Walk::new(alloc);
    for k in (0..numbers.len()).rev() {
        let window = taken_window(numbers[k], argument.axis(k), argument.inner(k));
        walk = walk.with(Map::Window(window))?;
    }
    Ok(walk)
}

/// How many elements are left, as the number that takes them: `number` are dropped from the front, or from the end if it is negative.
fn left_number(number: i64, length: usize) -> i64
    requires { length ≤ MOST_PLACES }
    ensures { result ≡ left_number number length }
{
    let left = (length as u64).saturating_sub(number.unsigned_abs()) as i64;
    if number < 0 { left } else { -left }
}

/// Adds what is left of each axis.
fn push_left(numbers: &[i64], lengths: &[usize], left: &mut Vec<i64>) -> Result<(), AllocError>
    requires { All (λ n. n ≤ MOST_PLACES) lengths.now }
    ensures { IfOk result (λ u. left.new.items ≡ left.old.items ++ left_numbers numbers.now lengths.now) }
{
    let [number, numbers @ ..] = numbers else {
        return Ok(());
    };
    let [length, lengths @ ..] = lengths else {
        return Ok(());
    };
    left.push(left_number(*number, *length))?;
    push_left(numbers, lengths, left)
}

/// The numbers by which an array is taken or dropped: `Rank`, `Length`, `Limit` or `Domain` where the
/// checks before that of the result's shape fail.
fn taking_numbers<'a, W: Crew>(workers: &W, a: &'a Array, b: &Array) -> Result<Numbers<'a>, OpFault>
    ensures refused { IfErr result (λ fault. ((shape : List ℕ) (answer : Result ArrayValue OpFault)
        → first_failure_or (taking_checks a.now (with_axes (size_of a.now) b.now) shape) answer ≡ Err fault) ⊎ (fault ≡ Memory)) }
    ensures judged { IfOk result (λ numbers. HavePassedButLimit (taking_checks a.now (with_axes (size_of a.now) b.now))) }
    ensures numbers { IfOk result (λ numbers. numbers_of a.now ≡ number_list numbers) }
    ensures len { IfOk result (λ numbers. length (number_list numbers) ≡ size_of a.now) }
    ensures axes { IfOk result (λ numbers. length (number_list numbers) ≡ rank_of (with_axes (size_of a.now) b.now)) }
    ensures few { IfOk result (λ numbers. length (number_list numbers) ≤ MOST_AXES) }
{
    if a.shape().rank() > 1 {
        return Err(OpFault::Rank);
    }
    let count = a.shape().count();
    let rank = b.shape().rank();
    if rank != 0 && rank != count {
        return Err(OpFault::Length);
    }
    if count > MOST_AXES {
        return Err(OpFault::Limit);
    }
    numbers_among(workers, a)
}

/// The shape of an array, where a scalar serves as an array of one element with `rank` axes.
fn shape_with_axes(alloc: Global, b: &Array, rank: usize) -> Result<Shape, AllocError>
    requires { rank ≤ MOST_AXES }
    ensures shape { IfOk result (λ shape. shape ≡ (with_axes rank b.now).shape) }
    ensures count { IfOk result (λ shape. count_of shape ≡ count_of b.now.shape) }
{
    if b.shape().rank() != 0 {
        return b.shape().copy(alloc);
    }
    lawful_shape(alloc, &[1; MOST_AXES][..rank])
}

/// The array with the elements that are taken from an argument, which serves as one of the shape
/// `argument`; `Limit` where it passes a limit.
fn taken<W: Crew>(
    workers: &W,
    numbers: &[i64],
    b: &Array,
    argument: &Shape,
) -> Result<Array, OpFault>
    requires count { count_of argument.now ≡ count_of b.now.shape }
    requires len { length numbers.now ≡ length argument.now }
    ensures { IsArrayOrLimit (map nat_abs numbers.now) b.now.kind (λ index. element_or_fill (with_shape argument.now b.now) (take_source numbers.now argument.now index)) result }
{
    places_match_index_lists();
    // An array that was asked something is known to be lawful.
    let _kind = b.kind();
    let lengths: Vec<usize> = numbers
        .iter()
        .map(|number| number.unsigned_abs() as usize)
        .collect(workers.alloc())?;
    let shape = Shape::new(workers.alloc(), lengths.as_slice())?;
    if shape.count() == 0 || argument.count() == 0 {
        return repeat(workers, shape, b);
    }
    let walk = taken_walk(workers.alloc(), numbers, argument)?;
    gather(workers, shape, b, walk)
}

/// `A↑B`, take: the first elements of each axis, or the last ones for a negative number, and fills where there are not as many.
/// Shape: the magnitudes of `A`. Kind: that of `B`. A scalar `B` serves as an array of one element.
/// Errors in order: RANK of `A`, LENGTH, LIMIT of the axes, DOMAIN, LIMIT of the result.
/// Source: APL\360 User's Manual, take; the order of errors is this calculator's own.
pub fn take<R: Threads + Sync, C: Cut + Sync, G: Gate + Sync>(
    rt: &R,
    alloc: Global,
    pool: &Pool<C, G>,
    a: &Array,
    b: &Array,
) -> Result<Array, OpFault>
    ensures { Answers (take_row a.now b.now) result }
{
    let workers = Workers { rt, alloc, pool };
    let numbers = taking_numbers(&workers, a, b)?;
    let numbers = numbers.as_slice();
    let argument = shape_with_axes(alloc, b, numbers.len())?;
    taken(&workers, numbers, b, &argument)
}

/// `A↓B`, drop: each axis without its first elements, or without the last ones for a negative number.
/// Shape: what is left of each axis. Kind: that of `B`. A scalar `B` serves as an array of one element.
/// Errors in order: RANK of `A`, LENGTH, LIMIT of the axes, DOMAIN, LIMIT of the result.
/// Source: APL\360 User's Manual, drop; the order of errors is this calculator's own.
pub fn drop<R: Threads + Sync, C: Cut + Sync, G: Gate + Sync>(
    rt: &R,
    alloc: Global,
    pool: &Pool<C, G>,
    a: &Array,
    b: &Array,
) -> Result<Array, OpFault>
    ensures { Answers (drop_row a.now b.now) result }
{
    let workers = Workers { rt, alloc, pool };
    let numbers = taking_numbers(&workers, a, b)?;
    let numbers = numbers.as_slice();
    let argument = shape_with_axes(alloc, b, numbers.len())?;
    let mut left = Vec::with_capacity(alloc, numbers.len())?;
    push_left(numbers, argument.lengths(), &mut left)?;
    taken(&workers, left.as_slice(), b, &argument)
}
