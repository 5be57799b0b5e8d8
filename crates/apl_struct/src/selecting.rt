//! The slots of an index, each of them empty or of numbers, and the walk over an array of which they choose.
ghost use Rattle.std.specs.Prelude.{◌≡◌, ℕ, ◌+◌, ◌*◌, ◌<◌, ◌≤◌, ◌⊎◌, true, Some, IfOk, length, vec_len, ◌++◌, ◌∷◌, [], map, Ok, Err, option_copied, if◌then◌else◌, vec_capacity};
ghost use Rattle.apl_array.specs.declared.shape.TheConstants.{MOST_AXES};
ghost use Rattle.apl_array.specs.Shape.{IsIndexOf, count_of};
ghost use Rattle.apl_pool.specs.declared.kernel.TheConstants.{MOST_PLACES};
ghost use Rattle.apl_walk.specs.declared.map.TheConstants.{MOST_STEP};
ghost use Rattle.apl_walk.specs.declared.maps.TheConstants.{MOST_MAPS};
ghost use Rattle.apl_walk.specs.Maps.{extent_of, map_extent, map_step, walked};
ghost use Rattle.apl_walk.specs.Walks.{maps_of};
ghost use Rattle.apl_struct.specs.Indexing.{is_slot_within, selected_shape, is_slot_of_numbers};
ghost use Rattle.apl_struct.specs.Held.{held_list};
ghost use Rattle.apl_struct.specs.Selecting.{reached_from, reached_with, slot_count, slot_index, chosen_index, chosen_place, AreSelectable, IsSelection, AreArrays, IsCheckedResult};
ghost use Rattle.std.specs.List.{list_all};
ghost use Rattle.apl_array.specs.Array.{ArrayValue, IsArray};
ghost use Rattle.apl_answer.specs.Arguments.{numbers_of};
ghost use Rattle.apl_answer.specs.declared.fault.OpFault.TheVariants.{Domain, Memory};

use crate::arguments::{HeldNumbers, held_numbers};
use apl_answer::OpFault;
use apl_array::{Array, Origin, Shape, places_match_index_lists};
use apl_pool::Crew;
use apl_walk::{AxisMap, Listed, Map, Numbered, Walk, Window};
use std::alloc::{AllocError, Global};
use std::marker::Model;

/// An array of numbers, or without elements, and its numbers in row order.
#[derive(Drop)]
pub(crate) struct NumberArray<'a> {
    pub array: &'a Array,
    pub numbers: HeldNumbers<'a>,
}

impl<'a> Model for NumberArray<'a> {
    ghost Value = { ArrayValue };

    ghost view = { λ n. n.array.now };

    ghost invariant = { λ n. IsArray n.array.now × (numbers_of n.array.now ≡ held_list n.numbers) };
}

/// A slot that is empty or of numbers, and no other (`Domain`).
fn slot_of_numbers<'a, W: Crew>(
    workers: &W,
    slot: Option<&'a Array>,
) -> Result<Option<NumberArray<'a>>, OpFault>
    ensures slot { (result ≡ (if is_slot_of_numbers (option_copied slot.entry) then Ok (option_copied slot.entry) else Err Domain)) ⊎ (result ≡ Err Memory) }
    ensures lawful { AreArrays (option_copied slot.entry ∷ []) }
{
    let Some(array) = slot else {
        return Ok(None);
    };
    let numbers = held_numbers(workers, array)?;
    Ok(Some(NumberArray { array, numbers }))
}

/// Adds the slots, each of which is empty or of numbers (`Domain`).
pub(crate) fn push_slots<'a, W: Crew>(
    workers: &W,
    slots: &[Option<&'a Array>],
    judged: &mut Vec<Option<NumberArray<'a>>>,
) -> Result<(), OpFault>
    requires { vec_len judged.old + length slots.now ≤ vec_capacity judged.old }
    ensures { let all = map option_copied slots.now in
        IsCheckedResult ((list_all is_slot_of_numbers all, Domain) ∷ []) (λ u. (judged.new.items ≡ judged.old.items ++ all) × AreArrays all) result }
{
    let [slot, slots @ ..] = slots else {
        return Ok(());
    };
    judged.push_reserved(slot_of_numbers(workers, *slot)?);
    push_slots(workers, slots, judged)
}

/// The indexes that a slot chooses of an axis whose neighbours are `stride` apart.
fn slot_map<'a>(
    slot: &'a Option<NumberArray<'_>>,
    origin: Origin,
    axis_length: usize,
    stride: usize,
) -> Map<'a>
    requires within { is_slot_within origin axis_length slot.now ≡ true }
    requires some { 0 < slot_count axis_length slot.now }
    requires length { axis_length ≤ MOST_PLACES }
    requires near { axis_length * stride ≤ MOST_PLACES }
    ensures extent { map_extent result ≡ slot_count axis_length slot.now }
    ensures step { (i : ℕ) → i < slot_count axis_length slot.now → map_step result i ≡ Some (slot_index origin slot.now i * stride) }
{
    let Some(chosen) = slot else {
        return Map::Window(Window::whole(axis_length, stride));
    };
    let first = origin.number();
    match &chosen.numbers {
        HeldNumbers::Narrow(numbers) => Map::Listed(Listed::Narrow(Numbered {
            numbers,
            first,
            axis_length,
            stride,
        })),
        HeldNumbers::Wide(numbers) => Map::Listed(Listed::Numbers(Numbered {
            numbers: numbers.as_slice(),
            first,
            axis_length,
            stride,
        })),
    }
}

/// What slots choose of the last axes of an array.
#[derive(Drop)]
struct Selected<'a> {
    /// The axes of which several indexes are chosen.
    walk: Walk<'a>,
    /// What the only indexes of the other axes add.
    start: usize,
    /// How many places the axes have.
    count: usize,
}

impl<'a> Selected<'a> {
    /// The same with an axis before the others.
    fn with(self, map: Map<'a>, axis_length: usize) -> Result<Selected<'a>, AllocError>
        requires few { vec_len self.walk.inner < MOST_MAPS }
        requires extent { map_extent map * extent_of (maps_of self.walk) ≤ MOST_PLACES }
        requires start { self.start ≤ MOST_AXES * MOST_STEP }
        requires count { axis_length * self.count ≤ MOST_PLACES }
        ensures extent { IfOk result (λ s. extent_of (maps_of s.walk) ≡ map_extent map.entry * extent_of (maps_of self.entry.walk)) }
        ensures place { IfOk result (λ s. (place : ℕ) → reached_from s.start (maps_of s.walk) place ≡ reached_with self.entry.start (maps_of self.entry.walk) map.entry place) }
        ensures few { IfOk result (λ s. vec_len s.walk.inner ≤ vec_len self.entry.walk.inner + 1) }
        ensures start { IfOk result (λ s. s.start ≤ self.entry.start + MOST_STEP) }
        ensures count { IfOk result (λ s. s.count ≡ axis_length * self.entry.count) }
    {
        let Selected { walk, start, count } = self;
        let count = axis_length * count;
        if map.extent() == 1
            && let Some(step) = map.step(0)
        {
            let start = start + step;
            return Ok(Selected { walk, start, count });
        }
        let walk = walk.with(map)?;
        Ok(Selected { walk, start, count })
    }

    /// The walk along the axes.
    fn into_walk(self) -> Result<Walk<'a>, AllocError>
        requires few { vec_len self.walk.inner < MOST_MAPS }
        requires start { self.start < MOST_STEP }
        requires extent { extent_of (maps_of self.walk) ≤ MOST_PLACES }
        ensures extent { IfOk result (λ walk. extent_of (maps_of walk) ≡ extent_of (maps_of self.entry.walk)) }
        ensures place { IfOk result (λ walk. (place : ℕ) → walked (maps_of walk) place ≡ reached_from self.entry.start (maps_of self.entry.walk) place) }
    {
        let Selected { walk, start, .. } = self;
        if start == 0 {
            return Ok(walk);
        }
        walk.with(Map::Window(Window {
            extent: 1,
            from: 0,
            to: 1,
            start,
            stride: 1,
        }))
    }
}

/// What the slots choose of these axes.
fn selected_axes<'a>(
    alloc: Global,
    lengths: &[usize],
    slots: &'a [Option<NumberArray<'_>>],
    origin: Origin,
) -> Result<Selected<'a>, AllocError>
    requires { AreSelectable origin lengths.now slots.now }
    ensures extent { IfOk result (λ s. extent_of (maps_of s.walk) ≡ count_of (selected_shape lengths.now slots.now)) }
    ensures place { IfOk result (λ s. (place : ℕ) → reached_from s.start (maps_of s.walk) place ≡ Some (chosen_place origin lengths.now (selected_shape lengths.now slots.now) slots.now place)) }
    ensures few { IfOk result (λ s. vec_len s.walk.inner ≤ length lengths.now) }
    ensures start { IfOk result (λ s. s.start ≤ length lengths.now * MOST_STEP) }
    ensures count { IfOk result (λ s. s.count ≡ count_of lengths.now) }
{
    let [axis_length, lengths @ ..] = lengths else {
        return Ok(Selected {
            walk: Walk::new(alloc),
            start: 0,
            count: 1,
        });
    };
    let [slot, slots @ ..] = slots else {
        unreachable!()
    };
    let inner = selected_axes(alloc, lengths, slots, origin)?;
    let map = slot_map(slot, origin, *axis_length, inner.count);
    inner.with(map, *axis_length)
}

/// The walk over an array of which the slots choose an array of this shape.
pub(crate) fn selected_walk<'a>(
    alloc: Global,
    a: &Array,
    slots: &'a [Option<NumberArray<'_>>],
    origin: Origin,
    selected: &Shape,
) -> Result<Walk<'a>, AllocError>
    requires selection { IsSelection a.now slots.now origin selected.now }
    requires some { 0 < count_of selected.now }
    ensures extent { IfOk result (λ walk. extent_of (maps_of walk) ≡ count_of selected.now) }
    ensures place { IfOk result (λ walk. (place : ℕ) → walked (maps_of walk) place ≡ Some (chosen_place origin a.now.shape selected.now slots.now place)) }
    ensures lawful { IfOk result (λ walk. (place : ℕ) → IsIndexOf a.now.shape (chosen_index origin selected.now slots.now place)) }
{
    places_match_index_lists();
    // A shape that was asked something is known to be lawful.
    let _count = selected.count();
    let axes = selected_axes(alloc, a.shape().lengths(), slots, origin)?;
    axes.into_walk()
}
