//! Reversed and rotated lines.
ghost use Rattle.std.specs.Prelude.{◌≡◌, ◌==◌, ℕ, ◌+◌, ◌<◌, ◌≤◌, Some, map, length, slice_index};
ghost use Rattle.apl_array.specs.Array.{element_at};
ghost use Rattle.apl_pool.specs.declared.kernel.TheConstants.{MOST_PLACES};
ghost use Rattle.apl_answer.specs.Pointwise.{IsArrayAt, IsArrayBy};
ghost use Rattle.apl_answer.specs.Rows.{Answers};
ghost use Rattle.apl_struct.specs.Gathering.{along_axis};
ghost use Rattle.apl_struct.specs.Rearranging.{rotated_index, rotate_row, reverse_row};
ghost use Rattle.apl_struct.specs.Rotation.{rotation_of, turned_place, rotated_source};
ghost use Rattle.apl_walk.specs.Gathered.{filled_at};
ghost use Rattle.apl_walk.specs.Steps.{wrapped};

use crate::along::{Taking, gather_along};
use crate::arguments::{is_without_axis, numbers_among};
use crate::building::empty;
use apl_answer::{ElementType, OpFault, array_copy, fill_array};
use apl_array::{
    Array, Axis, Shape, inserted_index_has_place, places_match_index_lists,
    replaced_index_has_place, shape_is_decided, split_index_has_place, with_elements,
};
use apl_divisor::Divisor;
use apl_pool::{Crew, Cut, Gate, Pool, Workers};
use apl_walk::{ByLines, RotatedColumns, RotatedRows, Rotations};
use std::alloc::{AllocError, Global};
use std::thread::Threads;

/// `⌽B` and `⊖B`, reverse: the elements along an axis, the last one first.
/// Shape and kind: those of `B`. Errors: INDEX of the axis. A scalar is answered as it is.
/// Source: APL\360 User's Manual, reversal.
pub fn reverse<R: Threads + Sync, C: Cut + Sync, G: Gate + Sync>(
    rt: &R,
    alloc: Global,
    pool: &Pool<C, G>,
    b: &Array,
    axis: Axis,
) -> Result<Array, OpFault>
    ensures { Answers (reverse_row b.now axis) result }
{
    let workers = Workers { rt, alloc, pool };
    let Some(k) = axis.resolve(b.shape().rank()) else {
        return Err(OpFault::Index);
    };
    if b.shape().rank() == 0 {
        return array_copy(&workers, b);
    }
    shape_is_decided();
    let length = b.shape().axis(k);
    gather_along(&workers, b, k, length, length, Taking::Reversed)
}

/// By how many indexes an axis of this length is rotated, counted from 0.
fn rotation_within(rotation: i64, length: usize) -> usize
    requires { length ≤ MOST_PLACES }
    ensures value { result ≡ rotation_of length rotation }
    ensures below { result ≤ length }
    ensures each { (i : ℕ) → i < length → rotated_index rotation length i ≡ wrapped length (i + result) }
{
    if length == 0 {
        return 0;
    }
    rotation.rem_euclid(length as i64) as usize
}

/// All lines along axis `k` rotated by one number.
fn rotate_all<W: Crew>(workers: &W, b: &Array, k: usize, rotation: i64) -> Result<Array, OpFault>
    requires { k < length b.now.shape }
    ensures { IsArrayBy b.now.shape b.now.kind (λ index. element_at b.now (along_axis k (rotated_index rotation (slice_index b.now.shape k)) index)) result }
{
    shape_is_decided();
    let length = b.shape().axis(k);
    let by = rotation_within(rotation, length);
    gather_along(workers, b, k, length, length, Taking::Rotated(by))
}

/// An argument whose lines along an axis are rotated, where neighbours along it are `inner` apart.
fn rotate_elements<T: ElementType + Send + Sync, W: Crew>(
    workers: &W,
    shape: Shape,
    b: &Array,
    elements: &[T],
    rotations: Rotations,
    inner: usize,
) -> Result<Array, OpFault>
    requires some { 0 < inner }
    requires most { inner ≤ MOST_PLACES }
    requires kind { b.now.kind ≡ T.kind }
    requires ravel { b.now.ravel ≡ map T.elem_of elements.now }
    ensures { IsArrayAt shape b.now.kind (λ place. filled_at b.now (Some (turned_place rotations.entry.length inner rotations.entry.by.now place))) result }
{
    let count = shape.count();
    let past = T::fill();
    if inner == 1 {
        let rows = ByLines::new(RotatedRows {
            elements,
            past,
            rotations,
            count,
        });
        return fill_array(workers, shape, &rows);
    }
    let columns = ByLines::new(RotatedColumns {
        elements,
        past,
        rotations,
        length: Divisor::new(rotations.length),
        inner,
        count,
    });
    fill_array(workers, shape, &columns)
}

/// The same, of whatever kind.
fn rotate_lines<W: Crew>(
    workers: &W,
    shape: Shape,
    b: &Array,
    rotations: Rotations,
    inner: usize,
) -> Result<Array, OpFault>
    requires some { 0 < inner }
    requires most { inner ≤ MOST_PLACES }
    ensures { IsArrayAt shape b.now.kind (λ place. filled_at b.now (Some (turned_place rotations.entry.length inner rotations.entry.by.now place))) result }
{
    with_elements!(b.elements(), elements => rotate_elements(workers, shape, b, elements, rotations, inner))
}

/// Each line along axis `k` rotated by a number of its own.
fn rotate_each<W: Crew>(
    workers: &W,
    b: &Array,
    k: usize,
    rotations: &[i64],
) -> Result<Array, OpFault>
    requires { k < length b.now.shape }
    ensures { IsArrayBy b.now.shape b.now.kind (λ index. element_at b.now (rotated_source rotations.now b.now.shape k index)) result }
{
    places_match_index_lists();
    inserted_index_has_place();
    replaced_index_has_place();
    split_index_has_place();
    let shape = b.shape().copy(workers.alloc())?;
    if shape.count() == 0 {
        return empty(workers, shape, b);
    }
    let length = shape.axis(k);
    let inner = shape.inner(k);
    let by: Vec<usize> = rotations
        .iter()
        .map(|rotation| rotation_within(*rotation, length))
        .collect(workers.alloc())?;
    let by = by.as_slice();
    rotate_lines(workers, shape, b, Rotations { by, length }, inner)
}

/// `A⌽B` and `A⊖B`, rotate: index `i` of an axis takes the residue of `i` plus the number of its line by the axis length.
/// Shape and kind: those of `B`. One number in `A` serves all lines. A scalar `B` is answered as it is.
/// Errors in order: INDEX of the axis, RANK of `A`, LENGTH, DOMAIN.
/// Source: APL\360 User's Manual, rotation; the order of errors is this calculator's own.
pub fn rotate<R: Threads + Sync, C: Cut + Sync, G: Gate + Sync>(
    rt: &R,
    alloc: Global,
    pool: &Pool<C, G>,
    a: &Array,
    b: &Array,
    axis: Axis,
) -> Result<Array, OpFault>
    ensures { Answers (rotate_row a.now b.now axis) result }
{
    let workers = Workers { rt, alloc, pool };
    let Some(k) = axis.resolve(b.shape().rank()) else {
        return Err(OpFault::Index);
    };
    let serves_all = a.shape().count() == 1;
    if !serves_all && a.shape().rank() + 1 != b.shape().rank() {
        return Err(OpFault::Rank);
    }
    if !serves_all && !is_without_axis(a.shape().lengths(), b.shape().lengths(), k) {
        return Err(OpFault::Length);
    }
    let rotations = numbers_among(&workers, a)?;
    let rotations = rotations.as_slice();
    if b.shape().rank() == 0 {
        return array_copy(&workers, b);
    }
    if serves_all {
        return rotate_all(&workers, b, k, rotations[0]);
    }
    rotate_each(&workers, b, k, rotations)
}
