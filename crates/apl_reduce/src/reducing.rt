//! Reduction along an axis.
ghost use Rattle.std.specs.Prelude.{◌≡◌, ◌<◌, ◌≤◌, IsTrue, length, remove, slice_index};
ghost use Rattle.apl_array.specs.declared.array.Elem.TheVariants.{Int};
ghost use Rattle.apl_array.specs.declared.array.Kind.TheVariants.{Number};
ghost use Rattle.apl_array.specs.Valences.{has_dyadic};
ghost use Rattle.apl_answer.specs.Elements.{element_outcome};
ghost use Rattle.apl_answer.specs.Pointwise.{answer_of, IsAnswerOf};
ghost use Rattle.apl_answer.specs.Rows.{Answers};
ghost use Rattle.apl_scalar.specs.Scalar.{identity_of};
ghost use Rattle.apl_reduce.specs.Folding.{identity_or_fault, reduction};
ghost use Rattle.apl_reduce.specs.Reducing.{items_along, reduce_row};

use crate::axis_items::{AxisItems, fill_character_folds, fill_number_folds, fill_truth_folds};
use apl_answer::{OpFault, array_copy, array_from_fill, array_of_elements, constant_array};
use apl_array::{
    Array, Axis, Elements, ScalarFunction, Shape, inserted_index_has_place,
    places_match_index_lists, replaced_index_has_place,
};
use apl_pool::{Crew, Cut, Fault, Gate, Pool, Workers};
use apl_scalar::identity;
use std::alloc::Global;
use std::thread::Threads;

/// What the reduction of no element gives.
fn identity_or_fault(f: ScalarFunction) -> Result<i64, Fault>
    ensures { element_outcome Int result ≡ identity_or_fault (identity_of f) }
{
    match identity(f) {
        Some(number) => Ok(number),
        None => Err(Fault::Domain),
    }
}

/// The array of this shape with the folds along axis `k`, of two and more items each.
fn fold<W: Crew>(
    workers: &W,
    shape: Shape,
    f: ScalarFunction,
    b: &Array,
    k: usize,
) -> Result<Array, OpFault>
    requires axis { k < length b.now.shape }
    requires two { 2 ≤ slice_index b.now.shape k }
    requires shape { shape ≡ remove b.now.shape k }
    ensures { IsAnswerOf (answer_of shape (λ index. reduction f (items_along b.now k index)) Number) result }
{
    inserted_index_has_place();
    places_match_index_lists();
    if shape.count() == 0 {
        return constant_array(workers, shape, Ok(0));
    }
    let filled = match b.elements() {
        Elements::Numbers(numbers) => {
            let axis = AxisItems::new(b, numbers, k, &shape);
            fill_number_folds(workers, f, &axis)
        }
        Elements::Narrow(numbers) => {
            let axis = AxisItems::new(b, numbers, k, &shape);
            fill_number_folds(workers, f, &axis)
        }
        Elements::Truths(truths) => {
            let axis = AxisItems::new(b, truths, k, &shape);
            fill_truth_folds(workers, f, &axis)
        }
        Elements::Characters(characters) => {
            let axis = AxisItems::new(b, characters, k, &shape);
            fill_character_folds(workers, f, &axis)
        }
    };
    array_from_fill(shape, filled)
}

/// `f/B` and `f⌿B`, reduction: the right fold by `f` of the items along an axis. A single item is answered as it is.
/// Shape: that of `B` without the axis. If the axis has no item, the identity of `f`. A scalar is answered as it is.
/// Errors in order: INDEX of the axis, LIMIT of the shape, DOMAIN if `f` has no identity, then that of the least index list.
/// Source: APL\360 User's Manual, reduction; the order of errors is this calculator's own.
pub fn reduce<R: Threads + Sync, C: Cut + Sync, G: Gate + Sync>(
    rt: &R,
    alloc: Global,
    pool: &Pool<C, G>,
    f: ScalarFunction,
    b: &Array,
    axis: Axis,
) -> Result<Array, OpFault>
    requires { IsTrue (has_dyadic f) }
    ensures { Answers (reduce_row f b.now axis) result }
{
    let workers = Workers { rt, alloc, pool };
    let Some(k) = axis.resolve(b.shape().rank()) else {
        return Err(OpFault::Index);
    };
    if b.shape().rank() == 0 {
        return array_copy(&workers, b);
    }
    let mut lengths = b.shape().lengths().to_vec(alloc)?;
    lengths.remove(k);
    let shape = Shape::new(alloc, lengths.as_slice())?;
    inserted_index_has_place();
    replaced_index_has_place();
    match b.shape().axis(k) {
        0 => constant_array(&workers, shape, identity_or_fault(f)),
        1 => array_of_elements(&workers, shape, b),
        _ => fold(&workers, shape, f, b, k),
    }
}
