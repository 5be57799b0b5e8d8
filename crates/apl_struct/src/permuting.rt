//! Permuted axes, diagonals, and the axes that numbers name.
ghost use Rattle.std.specs.Prelude.{◌≡◌, ℕ, ◌+◌, ◌-◌, ◌*◌, ◌^◌, ◌<◌, [], All, Ok, Some, IfOk, MatchOption, true, length, sum, reverse, ◌==◌, map};
ghost use Rattle.std.specs.List.{range_with_len, list_all};
ghost use Rattle.apl_array.specs.Array.{element_at};
ghost use Rattle.apl_array.specs.Shape.{IsShape, count_of, index_at};
ghost use Rattle.apl_array.specs.Transposition.{AreAxesInto, strides, items_onto, least, inner_product, source_index, transposed_shape, source_strides};
ghost use Rattle.apl_answer.specs.Pointwise.{IsArrayBy};
ghost use Rattle.apl_answer.specs.Rows.{Answers};
ghost use Rattle.apl_struct.specs.Rearranging.{are_all_named, named_axes, transpose_row, transpose_by_row};
ghost use Rattle.apl_walk.specs.Maps.{extent_of, walked};
ghost use Rattle.apl_walk.specs.Walks.{maps_of};
ghost use Rattle.apl_array.specs.Axes.{from_origin, place_number};
ghost use Rattle.apl_answer.specs.Arguments.{is_natural};

use crate::arguments::numbers_among;
use crate::building::{empty, lawful_shape};
use apl_answer::OpFault;
use apl_array::{
    Array, Origin, Shape, places_match_index_lists, reversed_index_is_lawful,
    transposed_index_has_place,
};
use apl_pool::{Crew, Cut, Gate, Pool, Workers};
use apl_walk::{Map, Walk, Window, gather};
use std::alloc::{AllocError, Global};
use std::thread::Threads;

/// The axis that a number names, counted from 0, and 0 for a number below the origin.
fn axis_named(number: i64, origin: Origin) -> usize
    ensures axis { result ≡ place_number (from_origin origin number) }
    ensures below { result < 2 ^ 63 }
{
    number.saturating_sub(origin.number()).max(0) as usize
}

/// Whether no number is below the origin.
fn are_from_origin(numbers: &[i64], origin: Origin) -> bool
    ensures { result ≡ list_all is_natural (map (from_origin origin) numbers.now) }
{
    let first = origin.number();
    match numbers {
        [] => true,
        [number, numbers @ ..] => *number >= first && are_from_origin(numbers, origin),
    }
}

/// The axes that these numbers name.
fn axes_named(alloc: Global, numbers: &[i64], origin: Origin) -> Result<Vec<usize>, AllocError>
    ensures axes { IfOk result (λ axes. axes.items ≡ map place_number (map (from_origin origin) numbers.now)) }
    ensures below { IfOk result (λ axes. All (λ axis. axis < 2 ^ 63) axes.items) }
{
    numbers
        .iter()
        .map(|number| axis_named(*number, origin))
        .collect(alloc)
}

/// How many axes are named: one more than the greatest.
fn named_axes(axes: &[usize]) -> usize
    requires { All (λ axis. axis < 2 ^ 63) axes.now }
    ensures { result ≡ named_axes axes.now }
{
    match axes {
        [] => 0,
        [axis, axes @ ..] => (*axis + 1).max(named_axes(axes)),
    }
}

/// Whether each axis up to the greatest is named. It looks for no more axes than there are names, and one.
fn are_all_named(axes: &[usize]) -> bool
    requires { All (λ axis. axis < 2 ^ 63) axes.now }
    ensures { result ≡ are_all_named axes.now }
{
    (0..named_axes(axes)).all(|j| axes.contains(&j))
}

/// By how much a step along axis `j` of the result moves the place in the argument. It is a step along each axis that becomes it.
fn stride_along(argument: &Shape, axes: &[usize], j: usize) -> usize
    requires some { 0 < count_of argument.now }
    requires len { length axes.now ≡ length argument.now }
    ensures sum { result ≡ sum (items_onto j axes.now (strides argument.now)) }
    ensures lawful { IsShape argument.now }
{
    let mut stride = 0;
    for k in (0..argument.rank()).rev() {
        if axes[k] == j {
            stride += argument.inner(k);
        }
    }
    stride
}

/// The walk over an argument whose axes become those of this shape.
fn transposed_walk(
    alloc: Global,
    shape: &Shape,
    argument: &Shape,
    axes: &[usize],
) -> Result<Walk<'static>, AllocError>
    requires into { AreAxesInto argument.now axes.now shape.now }
    requires some { 0 < count_of shape.now }
    requires argument_some { 0 < count_of argument.now }
    ensures extent { IfOk result (λ walk. extent_of (maps_of walk) ≡ count_of shape.now) }
    ensures place { IfOk result (λ walk. (place : ℕ) → walked (maps_of walk) place
        ≡ Some (inner_product (index_at shape.now place) (source_strides (length shape.now) axes.now argument.now))) }
{
    let mut walk = Walk::new(alloc);
    for j in (0..shape.rank()).rev() {
        let stride = stride_along(argument, axes, j);
        walk = walk.with(Map::Window(Window::whole(shape.axis(j), stride)))?;
    }
    Ok(walk)
}

/// The array of this shape to whose axes those of an argument become.
fn transposed<W: Crew>(
    workers: &W,
    shape: Shape,
    b: &Array,
    axes: &[usize],
) -> Result<Array, OpFault>
    requires into { AreAxesInto b.now.shape axes.now shape }
    ensures { IsArrayBy shape b.now.kind (λ index. element_at b.now (source_index axes.now index)) result }
{
    places_match_index_lists();
    transposed_index_has_place();
    // An array that was asked something is known to be lawful.
    let _kind = b.kind();
    if shape.count() == 0 {
        return empty(workers, shape, b);
    }
    let walk = transposed_walk(workers.alloc(), &shape, b.shape(), axes)?;
    gather(workers, shape, b, walk)
}

/// `⍉B`, transpose: the axes in reverse order.
/// Shape: that of `B`, reversed. Errors: none.
/// Source: APL\360 User's Manual, transpose.
pub fn transpose<R: Threads + Sync, C: Cut + Sync, G: Gate + Sync>(
    rt: &R,
    alloc: Global,
    pool: &Pool<C, G>,
    b: &Array,
) -> Result<Array, OpFault>
    ensures { Answers (transpose_row b.now) result }
{
    reversed_index_is_lawful();
    transposed_index_has_place();
    let argument = b.shape();
    let axes = reversed_axes(alloc, argument.rank())?;
    let lengths: Vec<usize> = argument.lengths().iter().rev().copied().collect(alloc)?;
    let shape = lawful_shape(alloc, lengths.as_slice())?;
    let workers = Workers { rt, alloc, pool };
    transposed(&workers, shape, b, axes.as_slice())
}

fn reversed_axes(alloc: Global, rank: usize) -> Result<Vec<usize>, AllocError>
    ensures { IfOk result (λ axes. axes.items ≡ map (λ k. rank - 1 - k) (range_with_len 0 rank)) }
{
    (0..rank).map(|k| rank - 1 - k).collect(alloc)
}

/// `A⍉B`, transpose by `A`: axis `i` of `B` becomes axis `A[i]`. Axes that become one make a diagonal.
/// Shape: each axis as long as the shortest of those that become it. Kind: that of `B`.
/// Errors in order: RANK of `A`, LENGTH, DOMAIN of its kind, DOMAIN where its numbers do not name each axis up to the greatest.
/// Source: APL\360 User's Manual, transpose; the order of errors is this calculator's own.
pub fn transpose_by<R: Threads + Sync, C: Cut + Sync, G: Gate + Sync>(
    rt: &R,
    alloc: Global,
    pool: &Pool<C, G>,
    a: &Array,
    b: &Array,
    origin: Origin,
) -> Result<Array, OpFault>
    ensures { Answers (transpose_by_row a.now b.now origin) result }
{
    if a.shape().rank() > 1 {
        return Err(OpFault::Rank);
    }
    if a.shape().count() != b.shape().rank() {
        return Err(OpFault::Length);
    }
    let workers = Workers { rt, alloc, pool };
    let numbers = numbers_among(&workers, a)?;
    if !are_from_origin(numbers.as_slice(), origin) {
        return Err(OpFault::Domain);
    }
    let axes = axes_named(alloc, numbers.as_slice(), origin)?;
    if !are_all_named(axes.as_slice()) {
        return Err(OpFault::Domain);
    }
    let shape = transposed_shape(alloc, axes.as_slice(), b.shape())?;
    transposed(&workers, shape, b, axes.as_slice())
}

/// The shape of an argument whose axes become the axes that are named.
fn transposed_shape(alloc: Global, axes: &[usize], argument: &Shape) -> Result<Shape, AllocError>
    requires len { length axes.now ≡ length argument.now }
    requires below { All (λ axis. axis < 2 ^ 63) axes.now }
    requires named { are_all_named axes.now ≡ true }
    ensures shape { IfOk result (λ shape. shape ≡ transposed_shape (named_axes axes.now) axes.now argument.now) }
    ensures into { IfOk result (λ shape. AreAxesInto argument.now axes.now shape) }
{
    transposed_index_has_place();
    let lengths = argument.lengths();
    let least: Vec<usize> = (0..named_axes(axes))
        .map(|j| least_length_onto(j, axes, lengths).unwrap_or(0))
        .collect(alloc)?;
    lawful_shape(alloc, least.as_slice())
}

/// The least of the lengths of the axes that become axis `j`, where there is one.
fn least_length_onto(j: usize, axes: &[usize], lengths: &[usize]) -> Option<usize>
    ensures { MatchOption result (items_onto j axes.now lengths.now ≡ [])
        (λ n. (0 < length (items_onto j axes.now lengths.now)) × (least (items_onto j axes.now lengths.now) ≡ n)) }
{
    let [axis, axes @ ..] = axes else {
        return None;
    };
    let [axis_length, lengths @ ..] = lengths else {
        return None;
    };
    let least = least_length_onto(j, axes, lengths);
    if *axis != j {
        return least;
    }
    match least {
        Some(n) => Some((*axis_length).min(n)),
        None => Some(*axis_length),
    }
}
