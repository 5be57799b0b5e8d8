//! Scan along an axis.
ghost use Rattle.std.specs.Prelude.{◌≡◌, ◌<◌, ◌≤◌, IsTrue, length, map, slice_index};
ghost use Rattle.apl_array.specs.declared.array.Elem.TheVariants.{Int};
ghost use Rattle.apl_array.specs.declared.array.Kind.TheVariants.{Number};
ghost use Rattle.apl_array.specs.Array.{truth_element};
ghost use Rattle.apl_array.specs.Shape.{count_of};
ghost use Rattle.apl_array.specs.Valences.{has_dyadic};
ghost use Rattle.apl_answer.specs.Pointwise.{answer_of, IsAnswerOf};
ghost use Rattle.apl_answer.specs.Rows.{Answers};
ghost use Rattle.apl_reduce.specs.Folding.{reduction};
ghost use Rattle.apl_scan.specs.Scanning.{items_up_to, scanned, scan_row};

use crate::lines::{AxisLines, fill_scans, scans_in_one_pass};
use crate::truth_scans::{TruthScan, scan_lines};
use apl_answer::{
    Numeric, OpFault, array_copy, array_from_fill, constant_array, elements_are_numbers, numbers_of,
};
use apl_array::{
    Array, Axis, Elements, ScalarFunction, Shape, places_match_index_lists,
    replaced_index_has_place, split_index_has_place,
};
use apl_pool::{Crew, Cut, Fault, Gate, Pool, Workers};
use apl_summary::has_summary;
use std::alloc::Global;
use std::thread::Threads;

/// The scan of numbers along axis `k`, of two and more items.
fn scan_numbers<W: Crew>(
    workers: &W,
    f: ScalarFunction,
    b: &Array,
    numbers: &[i64],
    k: usize,
) -> Result<Array, OpFault>
    requires axis { k < length b.now.shape }
    requires some { 0 < count_of b.now.shape }
    requires numbers { b.now.ravel ≡ map Int numbers.now }
    ensures { IsAnswerOf (answer_of b.now.shape (λ index. reduction f (items_up_to b.now k index)) Number) result }
{
    places_match_index_lists();
    replaced_index_has_place();
    split_index_has_place();
    let shape = b.shape().copy(workers.alloc())?;
    let lines = AxisLines::new(numbers, b.shape().axis(k), b.shape().inner(k));
    array_from_fill(shape, fill_scans(workers, f, &lines))
}

/// The scan of the numbers that are made of what an array of numbers holds.
fn scan_made<W: Crew>(workers: &W, f: ScalarFunction, b: &Array, k: usize) -> Result<Array, OpFault>
    requires axis { k < length b.now.shape }
    requires some { 0 < count_of b.now.shape }
    requires kind { b.now.kind ≡ Number }
    ensures { IsAnswerOf (answer_of b.now.shape (λ index. reduction f (items_up_to b.now k index)) Number) result }
{
    let Some(numbers) = numbers_of(workers, b)? else {
        unreachable!()
    };
    scan_numbers(workers, f, b, numbers.as_slice(), k)
}

/// The scan along axis `k`, of two and more items, of numbers as they are held: in one pass, if it can be.
fn scan_held<T: Numeric, W: Crew>(
    workers: &W,
    f: ScalarFunction,
    b: &Array,
    elements: &[T],
    k: usize,
) -> Result<Array, OpFault>
    requires axis { k < length b.now.shape }
    requires some { 0 < count_of b.now.shape }
    requires elements { b.now.ravel ≡ map T.elem_of elements.now }
    requires kind { b.now.kind ≡ Number }
    ensures { IsAnswerOf (answer_of b.now.shape (λ index. reduction f (items_up_to b.now k index)) Number) result }
{
    places_match_index_lists();
    replaced_index_has_place();
    split_index_has_place();
    elements_are_numbers(elements);
    if has_summary(f) {
        let (items, inner) = (b.shape().axis(k), b.shape().inner(k));
        if let Some(values) = scans_in_one_pass(workers, f, elements, items, inner)? {
            return array_from_fill(b.shape().copy(workers.alloc())?, Ok(values));
        }
    }
    scan_made(workers, f, b, k)
}

/// The scan of truth values along axis `k`, of two and more items. Along the last axis they are scanned as they are, if they can be. Else
/// the numbers that they are are scanned.
fn scan_truths<W: Crew>(
    workers: &W,
    f: ScalarFunction,
    b: &Array,
    truths: &[bool],
    k: usize,
) -> Result<Array, OpFault>
    requires axis { k < length b.now.shape }
    requires some { 0 < count_of b.now.shape }
    requires truths { b.now.ravel ≡ map truth_element truths.now }
    requires kind { b.now.kind ≡ Number }
    ensures { IsAnswerOf (answer_of b.now.shape (λ index. reduction f (items_up_to b.now k index)) Number) result }
{
    places_match_index_lists();
    replaced_index_has_place();
    split_index_has_place();
    if b.shape().inner(k) == 1 {
        let items = b.shape().axis(k);
        match scan_lines(workers, f, truths, items)? {
            Some(TruthScan::Truths(values)) => {
                return array_from_fill(b.shape().copy(workers.alloc())?, Ok(values));
            }
            Some(TruthScan::Numbers(values)) => {
                return array_from_fill(b.shape().copy(workers.alloc())?, Ok(values));
            }
            None => {}
        }
    }
    scan_made(workers, f, b, k)
}

/// The scan along axis `k`, of two and more items.
fn scan_items<W: Crew>(
    workers: &W,
    f: ScalarFunction,
    b: &Array,
    k: usize,
) -> Result<Array, OpFault>
    requires axis { k < length b.now.shape }
    ensures { IsAnswerOf (answer_of b.now.shape (λ index. scanned f b.now.kind (items_up_to b.now k index)) Number) result }
{
    if b.shape().count() == 0 {
        return constant_array(workers, b.shape().copy(workers.alloc())?, Ok(0));
    }
    match b.elements() {
        Elements::Numbers(numbers) => scan_held(workers, f, b, numbers, k),
        Elements::Narrow(numbers) => scan_held(workers, f, b, numbers, k),
        Elements::Truths(truths) => scan_truths(workers, f, b, truths, k),
        Elements::Characters(_) => constant_array(
            workers,
            b.shape().copy(workers.alloc())?,
            Err(Fault::Domain),
        ),
    }
}

/// `f\B` and `f⍀B`, scan: at each index of an axis the right fold by `f` of the items up to it.
/// Shape: that of `B`. A scalar, and an array of at most one item along the axis, is answered as it is, of either kind.
/// Errors in order: INDEX of the axis, DOMAIN of characters, then that of the least index list.
/// Source: ISO 8485:1989, scan; the order of errors is this calculator's own.
pub fn scan<R: Threads + Sync, C: Cut + Sync, G: Gate + Sync>(
    rt: &R,
    alloc: Global,
    pool: &Pool<C, G>,
    f: ScalarFunction,
    b: &Array,
    axis: Axis,
) -> Result<Array, OpFault>
    requires { IsTrue (has_dyadic f) }
    ensures { Answers (scan_row f b.now axis) result }
{
    let workers = Workers { rt, alloc, pool };
    let rank = b.shape().rank();
    let Some(k) = axis.resolve(rank) else {
        return Err(OpFault::Index);
    };
    if rank == 0 || b.shape().axis(k) < 2 {
        places_match_index_lists();
        return array_copy(&workers, b);
    }
    scan_items(&workers, f, b, k)
}
