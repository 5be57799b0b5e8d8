//! Elements at chosen indexes.
ghost use Rattle.std.specs.Prelude.{◌≡◌, ◌≤◌, ◌++◌, ◌∷◌, [], true, length, map, option_copied, Some, IfOk, IfSome};
ghost use Rattle.std.specs.List.{list_all};
ghost use Rattle.apl_array.specs.Axes.{from_origin, is_below};
ghost use Rattle.apl_answer.specs.Arguments.{rank_of};
ghost use Rattle.apl_answer.specs.Pointwise.{IsShapeOf};
ghost use Rattle.apl_answer.specs.Rows.{Answers};
ghost use Rattle.apl_struct.specs.Indexing.{are_slots_within, selected_shape, selection_checks, select_row};
ghost use Rattle.apl_struct.specs.Held.{held_list};
ghost use Rattle.apl_struct.specs.Selecting.{IsCheckedResult, IsSelection};

use crate::arguments::HeldNumbers;
use crate::building::empty;
use crate::chosen::select_of_vector;
use crate::selecting::{NumberArray, push_slots, selected_walk};
use apl_answer::{Numeric, OpFault, number_at};
use apl_array::{Array, Origin, Shape, places_match_index_lists};
use apl_pool::{Crew, Cut, Gate, Pool, Workers};
use apl_walk::gather;
use std::alloc::{AllocError, Global};
use std::thread::Threads;

/// Whether a number less the origin is an index of an axis of that length.
fn is_index(number: i64, origin: Origin, axis_length: usize) -> bool
    ensures { result ≡ is_below axis_length (from_origin origin number) }
{
    let first = origin.number();
    number >= first && ((number - first) as u64) < axis_length as u64
}

/// Whether all numbers, less the origin, are indexes of an axis of that length. The loop has no branches.
fn are_indexes<N: Numeric>(numbers: &[N], origin: Origin, axis_length: usize) -> bool
    ensures { result ≡ list_all (λ number. is_below axis_length (from_origin origin number)) (map N.number_in numbers.now) }
{
    let mut are_all = true;
    for place in 0..numbers.len() {
        are_all &= is_index(number_at(numbers, place), origin, axis_length);
    }
    are_all
}

/// The same of the numbers of a slot.
fn are_slot_indexes(numbers: &HeldNumbers, origin: Origin, axis_length: usize) -> bool
    ensures { result ≡ list_all (λ number. is_below axis_length (from_origin origin number)) (held_list numbers.now) }
{
    match numbers {
        HeldNumbers::Narrow(numbers) => are_indexes(numbers, origin, axis_length),
        HeldNumbers::Wide(numbers) => are_indexes(numbers.as_slice(), origin, axis_length),
    }
}

/// Whether each number of the slots, less the origin, is an index of the slot's axis.
fn are_within(lengths: &[usize], slots: &[Option<NumberArray>], origin: Origin) -> bool
    ensures { result ≡ are_slots_within origin lengths.now slots.now }
{
    let [axis_length, lengths @ ..] = lengths else {
        return true;
    };
    let [slot, slots @ ..] = slots else {
        return true;
    };
    match slot {
        Some(chosen) if !are_slot_indexes(&chosen.numbers, origin, *axis_length) => false,
        _ => are_within(lengths, slots, origin),
    }
}

/// Adds the shape of each slot, which is its axis where it is empty.
fn push_selected(
    lengths: &[usize],
    slots: &[Option<NumberArray>],
    selected: &mut Vec<usize>,
) -> Result<(), AllocError>
    ensures { IfOk result (λ u. selected.new.items ≡ selected.old.items ++ selected_shape lengths.now slots.now) }
{
    let [axis_length, lengths @ ..] = lengths else {
        return Ok(());
    };
    let [slot, slots @ ..] = slots else {
        return Ok(());
    };
    match slot {
        Some(chosen) => selected.extend_from_slice(chosen.array.shape().lengths())?,
        None => selected.push(*axis_length)?,
    }
    push_selected(lengths, slots, selected)
}

/// The shape that the slots choose. It is refused where it passes a limit (`Limit`).
fn selected_shape(
    alloc: Global,
    lengths: &[usize],
    slots: &[Option<NumberArray>],
) -> Result<Shape, OpFault>
    ensures { IsShapeOf (selected_shape lengths.now slots.now) result }
{
    let mut selected = Vec::new(alloc);
    push_selected(lengths, slots, &mut selected)?;
    Ok(Shape::new(alloc, selected.as_slice())?)
}

/// The slots, and the shape that they choose. The slots number the rank (`Rank`) and are of numbers (`Domain`).
/// Each number is an index of its axis (`Index`), and what they choose is within the limits (`Limit`).
pub(crate) fn selection<'a, W: Crew>(
    workers: &W,
    a: &Array,
    slots: &[Option<&'a Array>],
    origin: Origin,
) -> Result<(Vec<Option<NumberArray<'a>>>, Shape), OpFault>
    ensures { IsCheckedResult (selection_checks a.now (map option_copied slots.now) origin)
        (λ s. (s.0.items ≡ map option_copied slots.now) × IsSelection a.now s.0.items origin s.1) result }
{
    let lengths = a.shape().lengths();
    if slots.len() != lengths.len() {
        return Err(OpFault::Rank);
    }
    let alloc = workers.alloc();
    let mut judged = Vec::with_capacity(alloc, slots.len())?;
    push_slots(workers, slots, &mut judged)?;
    if !are_within(lengths, judged.as_slice(), origin) {
        return Err(OpFault::Index);
    }
    let shape = selected_shape(alloc, lengths, judged.as_slice())?;
    Ok((judged, shape))
}

/// The elements that the slots choose, along a walk.
fn select_along<W: Crew>(
    workers: &W,
    a: &Array,
    slots: &[Option<&Array>],
    origin: Origin,
) -> Result<Array, OpFault>
    ensures { Answers (select_row a.now (map option_copied slots.now) origin) result }
{
    let (slots, shape) = selection(workers, a, slots, origin)?;
    if shape.count() == 0 {
        return empty(workers, shape, a);
    }
    places_match_index_lists();
    // An array that was asked something is known to be lawful.
    let _kind = a.kind();
    let walk = selected_walk(workers.alloc(), a, slots.as_slice(), origin, &shape)?;
    gather(workers, shape, a, walk)
}

/// The only slot of a vector, if it is not empty.
fn slot_of_vector<'a>(a: &Array, slots: &[Option<&'a Array>]) -> Option<&'a Array>
    ensures { IfSome result (λ slot. (rank_of a.now ≡ 1) × (map option_copied slots.now ≡ Some slot.now ∷ [])) }
{
    match slots {
        [slot] if a.shape().rank() == 1 => *slot,
        _ => None,
    }
}

/// The elements that the slots choose: in one pass by the only slot of a vector, else along a walk.
fn select_elements<W: Crew>(
    workers: &W,
    a: &Array,
    slots: &[Option<&Array>],
    origin: Origin,
) -> Result<Array, OpFault>
    ensures { Answers (select_row a.now (map option_copied slots.now) origin) result }
{
    match slot_of_vector(a, slots) {
        Some(slot) => select_of_vector(workers, a, slot, origin),
        None => select_along(workers, a, slots, origin),
    }
}

/// `A[I;J]`, indexing: the elements that the slots choose; an empty slot chooses the whole axis.
/// Shape: those of the slots, one after the other. Kind: that of `A`.
/// Errors in order: RANK of the number of slots, DOMAIN of their kinds, INDEX, LIMIT.
/// Source: APL\360 User's Manual, indexing; the order of errors is this calculator's own.
pub fn select<R: Threads + Sync, C: Cut + Sync, G: Gate + Sync>(
    rt: &R,
    alloc: Global,
    pool: &Pool<C, G>,
    a: &Array,
    slots: &[Option<&Array>],
    origin: Origin,
) -> Result<Array, OpFault>
    ensures { Answers (select_row a.now (map option_copied slots.now) origin) result }
{
    let workers = Workers { rt, alloc, pool };
    select_elements(&workers, a, slots, origin)
}
