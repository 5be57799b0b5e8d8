//! Elements in the place of chosen ones.
ghost use Rattle.std.specs.Prelude.{◌≡◌, ℕ, ◌+◌, ◌<◌, ◌≤◌, ◌∷◌, Ok, Err, Some, IfOk, IfErr, OnOk, OnErr, length, map, option_copied, vec_len};
ghost use Rattle.apl_array.specs.declared.array.Elem.TheVariants.{Int};
ghost use Rattle.apl_array.specs.declared.array.Kind.TheVariants.{Number};
ghost use Rattle.apl_array.specs.Shape.{count_of};
ghost use Rattle.apl_array.specs.Array.{ArrayValue, IsArray};
ghost use Rattle.apl_array.specs.ArrayView.{array_of};
ghost use Rattle.apl_array.specs.Elements.{AreElementsOf};
ghost use Rattle.apl_pool.specs.declared.kernel.TheConstants.{MOST_PLACES};
ghost use Rattle.apl_answer.specs.declared.fault.OpFault.TheVariants.{Memory};
ghost use Rattle.apl_answer.specs.Arguments.{fill_of};
ghost use Rattle.apl_answer.specs.Pointwise.{answer_of, IsAnswerOf, IsArrayAt};
ghost use Rattle.apl_answer.specs.Rows.{Answers};
ghost use Rattle.apl_struct.specs.Indexing.{last_choice, replaced_element, replace_row};
ghost use Rattle.apl_walk.specs.declared.maps.TheConstants.{MOST_MAPS};
ghost use Rattle.apl_walk.specs.Maps.{map_extent, map_step, extent_of};
ghost use Rattle.apl_walk.specs.Steps.{and_step};
ghost use Rattle.apl_struct.specs.Selecting.{IsCheckedResult, IsSelection};
ghost use Rattle.apl_struct.specs.Numbering.{place_or_zero, chosen_at, number_at, AreWithin, HaveValues, AreWrittenOver, AreWrittenUpTo, IsReached, value_numbered, element_numbered, replacement_checks, value_step, IsReplacement};

use crate::arguments::{TURN, numbers_among};
use crate::building::lawful_shape;
use crate::indexing::selection;
use crate::selecting::{NumberArray, selected_walk};
use apl_answer::{ElementType, Numbers, OpFault, answer_is_each_outcome};
use apl_array::{Array, Elements, Origin, Ravel, Shape, places_match_index_lists};
use apl_pool::{Crew, Cut, Gate, Pool, Workers};
use apl_walk::{AxisMap, Listed, Map, element_or, start_at};
use std::alloc::{AllocError, Global};
use std::mem;
use std::thread::Threads;

/// A line of choices.
#[derive(Clone, Copy)]
struct Line {
    /// The place where the line begins.
    base: usize,
    /// The number of the first choice.
    from: usize,
    /// How far apart the values of neighbouring choices are.
    step: usize,
    ghost near: { step ≤ 1 },
}

/// Writes the values of the choices of a line from `first` up to before `end`, each at its place.
#[inline(always)]
fn write_up_to<T: Copy, M: AxisMap>(
    last: M,
    line: Line,
    first: usize,
    end: usize,
    values: &[T],
    fill: T,
    room: &mut [T],
)
    requires order { first ≤ end }
    requires end { end ≤ M.extent last }
    requires most { line.from + M.extent last ≤ MOST_PLACES }
    requires within { (i : ℕ) → i < M.extent last → IsReached (length room.old) (and_step (M.step last i) (Some line.base)) }
    ensures values { AreWrittenUpTo (λ i. place_or_zero (and_step (M.step last i) (Some line.base))) (M.extent last) line.from first end line.step values.now fill room.old room.new }
    ensures len { length room.new ≡ length room.old }
{
    for i in first..end {
        match last.step(i) {
            Some(taken) => {
                let value = element_or(values, (line.from + i) * line.step, fill);
                room[taken + line.base] = value;
            }
            None => unreachable!(),
        }
    }
}

/// Writes the values of the choices of a line, each at its place. The map of its axis is known by its type.
#[inline(always)]
fn write_along<T: Copy, M: AxisMap>(last: M, line: Line, values: &[T], fill: T, room: &mut [T])
    requires most { line.from + M.extent last ≤ MOST_PLACES }
    requires within { (i : ℕ) → i < M.extent last → IsReached (length room.old) (and_step (M.step last i) (Some line.base)) }
    ensures values { AreWrittenOver (λ i. place_or_zero (and_step (M.step last i) (Some line.base))) (M.extent last) line.from line.step values.now fill room.old room.new }
    ensures len { length room.new ≡ length room.old }
{
    let extent = last.extent();
    let turns = extent / TURN;
    for turn in 0..turns {
        write_up_to(
            last,
            line,
            turn * TURN,
            turn * TURN + TURN,
            values,
            fill,
            room,
        );
    }
    write_up_to(last, line, turns * TURN, extent, values, fill, room);
}

/// Writes the values of the choices of a line, from the choice `from` on, each at its place. The line begins at the place `base`, and
/// the values of neighbouring choices are `step` apart.
fn write_line<T: Copy>(
    last: Map,
    base: usize,
    from: usize,
    step: usize,
    values: &[T],
    fill: T,
    room: &mut [T],
)
    requires step { step ≤ 1 }
    requires most { from + map_extent last ≤ MOST_PLACES }
    requires within { (i : ℕ) → i < map_extent last → IsReached (length room.old) (and_step (map_step last i) (Some base)) }
    ensures values { AreWrittenOver (λ i. place_or_zero (and_step (map_step last.entry i) (Some base))) (map_extent last.entry) from step values.now fill room.old room.new }
    ensures len { length room.new ≡ length room.old }
{
    let line = Line { base, from, step };
    match last {
        Map::Listed(list) => match list {
            Listed::Numbers(last) => write_along(last, line, values, fill, room),
            Listed::Narrow(last) => write_along(last, line, values, fill, room),
        },
        Map::Window(last) => write_along(last, line, values, fill, room),
        last => write_along(last, line, values, fill, room),
    }
}

/// Places that are chosen in row order, along these axes.
#[derive(Clone, Copy)]
struct Choices<'a> {
    last: Map<'a>,
    /// The other axes, the last one first.
    outer: &'a [Map<'a>],
    /// How many index lists the other axes have.
    lines: usize,
    /// How far apart the values of neighbouring choices are.
    step: usize,
    ghost few: { length outer.now ≤ MOST_MAPS },
    ghost all: { lines ≡ extent_of outer.now },
    ghost most: { extent_of (last ∷ outer.now) ≤ MOST_PLACES },
    ghost near: { step ≤ 1 },
}

/// Writes at each place the value of the last choice of it.
fn write_lines<T: Copy>(choices: Choices, values: &[T], fill: T, room: &mut [T])
    requires within { AreWithin (length room.old) (choices.last ∷ choices.outer.now) }
    ensures values { HaveValues (chosen_at (choices.entry.last ∷ choices.entry.outer.now)) choices.entry.step (extent_of (choices.entry.last ∷ choices.entry.outer.now)) room.old values.now fill (length room.old) room.new }
    ensures len { length room.new ≡ length room.old }
{
    let Choices { last, step, .. } = choices;
    let extent = last.extent();
    for line in 0..choices.lines {
        match start_at(choices.outer, line) {
            Some(base) => write_line(last, base, line * extent, step, values, fill, room),
            None => unreachable!(),
        }
    }
}

/// The array of a list, but at each place that is chosen the value of the last choice of it. The values are written into the list.
fn written<T: ElementType>(shape: Shape, list: Vec<T>, values: &[T], choices: Choices) -> Array
    requires all { vec_len list ≡ count_of shape }
    requires within { AreWithin (count_of shape) (choices.last ∷ choices.outer.now) }
    ensures { IsArrayAt shape T.kind (λ place. value_numbered (map T.elem_of list.items) (map T.elem_of values.now) (fill_of T.kind) (number_at (choices.entry.last ∷ choices.entry.outer.now) choices.entry.step place) place) (Ok result) }
{
    places_match_index_lists();
    answer_is_each_outcome();
    let mut list = list;
    write_lines(choices, values, T::fill(), list.as_mut_slice());
    let array = T::array(shape, list);
    // An array that was asked something is known to be lawful.
    let _kind = array.kind();
    array
}

/// The same of a list and values that are held alike. Where they are not, it is the array of the list as it was.
fn written_alike(
    shape: Shape,
    ravel: Ravel,
    values: Elements,
    choices: Choices,
) -> Result<Array, Array>
    requires lawful { IsArray (array_of shape ravel) }
    requires within { AreWithin (count_of shape) (choices.last ∷ choices.outer.now) }
    ensures written { (b : ArrayValue) → AreElementsOf b values.entry → let a = array_of shape ravel in
        IfOk result (λ array. IsArrayAt shape a.kind (λ place. element_numbered a b (number_at (choices.entry.last ∷ choices.entry.outer.now) choices.entry.step place) place) (Ok array)) }
    ensures back { IfErr result (λ array. array ≡ array_of shape ravel) }
    ensures numbers { (b : ArrayValue) → AreElementsOf b values.entry → (array_of shape ravel).kind ≡ b.kind → OnErr result (b.kind ≡ Number) }
{
    match (ravel, values) {
        (Ravel::Numbers(list), Elements::Numbers(values)) => {
            Ok(written(shape, list, values, choices))
        }
        (Ravel::Narrow(list), Elements::Narrow(values)) => {
            Ok(written(shape, list, values, choices))
        }
        (Ravel::Truths(list), Elements::Truths(values)) => {
            Ok(written(shape, list, values, choices))
        }
        (Ravel::Characters(list), Elements::Characters(values)) => {
            Ok(written(shape, list, values, choices))
        }
        (Ravel::Numbers(list), _) => Err(Array::ints(shape, list)),
        (Ravel::Narrow(list), _) => Err(Array::narrow(shape, list)),
        (Ravel::Truths(list), _) => Err(Array::truths(shape, list)),
        (Ravel::Characters(list), _) => Err(Array::chars(shape, list)),
    }
}

/// The numbers of an array of numbers, in a list of their own.
fn own_numbers<W: Crew>(workers: &W, a: &Array) -> Result<Vec<i64>, OpFault>
    requires { a.now.kind ≡ Number }
    ensures ok { IfOk result (λ list. a.now.ravel ≡ map Int list.items) }
    ensures err { IfErr result (λ fault. fault ≡ Memory) }
{
    match numbers_among(workers, a)? {
        Numbers::Held(numbers) => Ok(Vec::from_slice(workers.alloc(), numbers)?),
        Numbers::Made(list) => Ok(list),
    }
}

/// The array of numbers with these values at the places that are chosen, in a list of its own.
fn with_numbers<W: Crew>(
    workers: &W,
    a: &Array,
    b: &Array,
    choices: Choices,
) -> Result<Array, OpFault>
    requires within { AreWithin (count_of a.now.shape) (choices.last ∷ choices.outer.now) }
    requires elements { a.now.kind ≡ Number }
    requires values { b.now.kind ≡ Number }
    ensures ok { IfOk result (λ array. IsArrayAt a.now.shape a.now.kind (λ place. element_numbered a.now b.now (number_at (choices.entry.last ∷ choices.entry.outer.now) choices.entry.step place) place) (Ok array)) }
    ensures err { IfErr result (λ fault. fault ≡ Memory) }
{
    let shape = a.shape().copy(workers.alloc())?;
    let list = own_numbers(workers, a)?;
    let values = numbers_among(workers, b)?;
    Ok(written(shape, list, values.as_slice(), choices))
}

/// An array without elements.
fn hollow(alloc: Global) -> Result<Array, AllocError>
    ensures { IfOk result (λ array. count_of array.shape ≡ 0) }
{
    let shape = lawful_shape(alloc, &[0])?;
    Ok(Array::ints(shape, Vec::new(alloc)))
}

/// Writes values into the list of an array, each at the place that is chosen for it. A list that holds numbers in less room is none for other
/// numbers: then the array gets one of 64 bits. After an error it is as it was.
fn write_values<W: Crew>(
    workers: &W,
    a: &mut Array,
    b: &Array,
    values: Elements,
    choices: Choices,
) -> Result<(), OpFault>
    requires within { AreWithin (count_of a.old.shape) (choices.last ∷ choices.outer.now) }
    requires kinds { a.old.kind ≡ b.now.kind }
    requires values { AreElementsOf b.now values }
    ensures ok { OnOk result (IsArrayAt a.old.shape a.old.kind (λ place. element_numbered a.old b.now (number_at (choices.entry.last ∷ choices.entry.outer.now) choices.entry.step place) place) (Ok a.new)) }
    ensures err { IfErr result (λ fault. fault ≡ Memory) }
    ensures unchanged { OnErr result (a.new ≡ a.old) }
{
    let shape = a.shape().copy(workers.alloc())?;
    let hollow = hollow(workers.alloc())?;
    let ravel = mem::replace(a, hollow).into_ravel();
    match written_alike(shape, ravel, values, choices) {
        Ok(array) => *a = array,
        Err(array) => {
            *a = array;
            *a = with_numbers(workers, a, b, choices)?;
        }
    }
    Ok(())
}

/// The same of the values of an array. Those that are held in less room become numbers of 64 bits where the list is of these.
fn write_chosen<W: Crew>(
    workers: &W,
    a: &mut Array,
    b: &Array,
    choices: Choices,
) -> Result<(), OpFault>
    requires within { AreWithin (count_of a.old.shape) (choices.last ∷ choices.outer.now) }
    requires kinds { a.old.kind ≡ b.now.kind }
    ensures ok { OnOk result (IsArrayAt a.old.shape a.old.kind (λ place. element_numbered a.old b.now (number_at (choices.entry.last ∷ choices.entry.outer.now) choices.entry.step place) place) (Ok a.new)) }
    ensures err { IfErr result (λ fault. fault ≡ Memory) }
    ensures unchanged { OnErr result (a.new ≡ a.old) }
{
    match (a.elements(), b.elements()) {
        (Elements::Numbers(_), Elements::Narrow(_) | Elements::Truths(_)) => {
            let numbers = numbers_among(workers, b)?;
            let values = Elements::Numbers(numbers.as_slice());
            write_values(workers, a, b, values, choices)
        }
        (_, values) => write_values(workers, a, b, values, choices),
    }
}

/// Values go in the place of the chosen elements: one for all, or an array of the selected shape. Its rank is judged first (`Rank`),
/// then its lengths (`Length`). They are of the kind of the elements, unless there are none (`Domain`).
fn judge_values(a: &Array, b: &Array, selected: &Shape) -> Result<(), OpFault>
    ensures { IsCheckedResult (replacement_checks a.now b.now selected.now) (λ u. IsReplacement a.now b.now selected.now) result }
{
    let count = b.shape().count();
    if count != 1 && b.shape().rank() != selected.rank() {
        return Err(OpFault::Rank);
    }
    if count != 1 && b.shape().lengths() != selected.lengths() {
        return Err(OpFault::Length);
    }
    if count != 0 && a.kind() != b.kind() {
        return Err(OpFault::Domain);
    }
    Ok(())
}

/// How far apart the values of neighbouring choices are: the only value serves all.
fn value_step(b: &Array) -> usize
    ensures value { result ≡ value_step b.now }
    ensures most { result ≤ 1 }
    ensures lawful { IsArray b.now }
{
    if b.shape().count() == 1 { 0 } else { 1 }
}

/// Writes the values in the place of the elements that the slots choose. After an error the array is as it was.
fn replace_selected<W: Crew>(
    workers: &W,
    a: &mut Array,
    slots: &[Option<NumberArray>],
    b: &Array,
    origin: Origin,
    selected: &Shape,
) -> Result<(), OpFault>
    requires selection { IsSelection a.old slots.now origin selected.now }
    requires values { IsReplacement a.old b.now selected.now }
    ensures ok { OnOk result (IsAnswerOf (answer_of a.old.shape
        (λ index. Ok (replaced_element a.old b.now index (last_choice origin slots.now selected.now index (count_of selected.now)))) a.old.kind) (Ok a.new)) }
    ensures err { IfErr result (λ fault. fault ≡ Memory) }
    ensures unchanged { OnErr result (a.new ≡ a.old) }
{
    places_match_index_lists();
    answer_is_each_outcome();
    // An array that was asked something is known to be lawful.
    let _kind = a.kind();
    let count = selected.count();
    if count == 0 {
        return Ok(());
    }
    let walk = selected_walk(workers.alloc(), a, slots, origin, selected)?;
    let maps = walk.into_maps()?;
    let step = value_step(b);
    match maps.as_slice() {
        [last, outer @ ..] => {
            let (last, lines) = (*last, count / last.extent());
            let choices = Choices {
                last,
                outer,
                lines,
                step,
            };
            write_chosen(workers, a, b, choices)
        }
        [] => unreachable!(),
    }
}

/// `A[I;J]←B`, indexed assignment: `A` gets the values of `B` in the place of the elements that the slots choose.
/// Shape and kind: those of `A`. One value serves all; of an element that is chosen twice the later value stays.
/// Errors in order: those of indexing; then RANK and LENGTH of `B`, and DOMAIN of its kind. After an error `A` is as it was.
/// Source: APL\360 User's Manual, indexing; the order of errors is this calculator's own.
pub fn replace<R: Threads + Sync, C: Cut + Sync, G: Gate + Sync>(
    rt: &R,
    alloc: Global,
    pool: &Pool<C, G>,
    a: &mut Array,
    slots: &[Option<&Array>],
    b: &Array,
    origin: Origin,
) -> Result<(), OpFault>
    ensures ok { OnOk result (Answers (replace_row a.old (map option_copied slots.now) b.now origin) (Ok a.new)) }
    ensures err { IfErr result (λ fault. Answers (replace_row a.old (map option_copied slots.now) b.now origin) (Err fault)) }
    ensures unchanged { OnErr result (a.new ≡ a.old) }
{
    let workers = Workers { rt, alloc, pool };
    let (slots, selected) = selection(&workers, a, slots, origin)?;
    judge_values(a, b, &selected)?;
    replace_selected(&workers, a, slots.as_slice(), b, origin, &selected)
}
