//! The items along an axis, folded at each place of the result.
ghost use Rattle.std.specs.Prelude.{◌≡◌, ℕ, ◌+◌, ◌-◌, ◌*◌, ◌/◌, ◌%◌, ◌<◌, ◌≤◌, true, Ok, IfErr, IfOk, IfSome, OnOk, length, map, remove, slice_index, slice_index_or, drop};
ghost use Rattle.apl_pool.specs.Pool.{AreValues, IsStopOf};
ghost use Rattle.apl_pool.specs.Runs.{AreWritten, IsFaultAfter};
ghost use Rattle.apl_array.specs.declared.array.Elem.TheVariants.{Int, Chr};
ghost use Rattle.apl_array.specs.Array.{truth_element};
ghost use Rattle.apl_array.specs.Shape.{count_of};
ghost use Rattle.apl_pool.specs.declared.kernel.TheConstants.{MOST_PLACES};
ghost use Rattle.apl_reduce.specs.Filled.{IsFilled};
ghost use Rattle.apl_reduce.specs.Folded.{fold_at, number_of_axis};
ghost use Rattle.apl_scalar.specs.Scalar.{dyadic_numbers};
ghost use Rattle.apl_summary.specs.RowFolds.{AreRowFolds};

use crate::foldable::Foldable;
use crate::folded_rows::{Doubts, fold_last_rows, fold_rows, from_place};
use crate::four::{Four, put_four};
use crate::item_rows::ItemRows;
use crate::line_folds::{fold_along, fold_lines};
use crate::near_rows::has_near_rows;
use crate::outer_products::NARROW;
use crate::sharing::{
    FEWEST_COLUMNS, piece_of, repays_summaries, shares_items, shares_sums, work_of,
};
use crate::stretch_sums::{STRETCH, Stretches, fill_row_sums};
use crate::truth_folds::has_truth_runs;
use apl_answer::{ElementType, Numeric, elements_are_numbers};
use apl_array::{
    Array, ScalarFunction, Shape, inserted_index_has_place, places_match_index_lists,
    replaced_index_has_place,
};
use apl_divisor::Divisor;
use apl_pool::{Crew, Fault, FirstFault, Kernel, Stop, fill, write_values};
use apl_scalar::function_types::Function;
use apl_scalar::with_type;
use std::marker::PhantomData;

/// The items along an axis of an array, two and more at each place of a result with elements.
#[derive(Drop)]
pub(crate) struct AxisItems<'a, T> {
    elements: &'a [T],
    /// How many items there are at each place.
    pub items: usize,
    /// How many elements there are for one index list of the axes to the left.
    block: usize,
    /// How far apart neighbours along the axis are.
    inner: Divisor,
    pub count: usize,
    ghost most: { count ≤ MOST_PLACES },
    ghost elements_most: { length elements.now ≤ MOST_PLACES },
    ghost two: { 2 ≤ items },
    ghost most_items: { items ≤ MOST_PLACES },
    ghost within: { (place : ℕ) → place < count → place / inner * block + place % inner + (items - 1) * inner < length elements.now },
}

impl<'a, T: ElementType> AxisItems<'a, T> {
    /// The items along axis `k`, at the places of the shape without it.
    pub(crate) fn new(b: &Array, elements: &'a [T], k: usize, shape: &Shape) -> AxisItems<'a, T>
        requires axis { k < length b.now.shape }
        requires two { 2 ≤ slice_index b.now.shape k }
        requires shape { shape.now ≡ remove b.now.shape k }
        requires some { 0 < count_of shape.now }
        requires ravel { b.now.ravel ≡ map T.elem_of elements.now }
        ensures elements { result.elements.now ≡ elements.now }
        ensures items { result.items ≡ slice_index b.now.shape k }
        ensures inner { result.inner ≡ count_of (drop (k + 1) b.now.shape) }
        ensures block { result.block ≡ slice_index b.now.shape k * count_of (drop (k + 1) b.now.shape) }
        ensures count { result.count ≡ count_of shape.now }
    {
        places_match_index_lists();
        inserted_index_has_place();
        replaced_index_has_place();
        let count = shape.count();
        let items = b.shape().axis(k);
        let inner = b.shape().inner(k);
        AxisItems {
            elements,
            items,
            block: items * inner,
            inner: Divisor::new(inner),
            count,
        }
    }
}

/// The most places whose totals are kept beside one another.
pub(crate) const MOST_TOTALS: usize = 4096;

impl<T> AxisItems<'_, T> {
    /// Where the items at a place begin.
    #[inline(always)]
    fn first_item(&self, place: usize) -> usize
        requires { place < self.now.count }
        ensures { result ≡ place / self.now.inner * self.now.block + place % self.now.inner }
    {
        self.inner.quotient(place) * self.block + self.inner.remainder(place)
    }

    /// Where the items at four places begin.
    #[inline(always)]
    fn four_lines(&self, place: usize) -> Four<usize>
        requires { place + 4 ≤ self.now.count }
        ensures first { result.first ≡ place / self.now.inner * self.now.block + place % self.now.inner }
        ensures second { result.second ≡ (place + 1) / self.now.inner * self.now.block + (place + 1) % self.now.inner }
        ensures third { result.third ≡ (place + 2) / self.now.inner * self.now.block + (place + 2) % self.now.inner }
        ensures fourth { result.fourth ≡ (place + 3) / self.now.inner * self.now.block + (place + 3) % self.now.inner }
    {
        Four {
            first: self.first_item(place),
            second: self.first_item(place + 1),
            third: self.first_item(place + 2),
            fourth: self.first_item(place + 3),
        }
    }

    /// Whether too few places are side by side to be folded together.
    #[inline(always)]
    fn has_narrow_rows(&self) -> bool {
        self.inner.number() < NARROW
    }

    /// How many places from one on up to before another are folded together, all of them in a row.
    fn run_length(&self, from: usize, to: usize) -> usize
        requires order { from ≤ to }
        requires within { to ≤ self.now.count }
        ensures order { from + result ≤ to }
        ensures row { 0 < result → from % self.now.inner + result ≤ self.now.inner }
    {
        if from == to || self.has_narrow_rows() {
            return 0;
        }
        let rest = self.inner.number() - self.inner.remainder(from);
        rest.min(to - from).min(MOST_TOTALS)
    }
}

impl<T: Numeric> AxisItems<'_, T> {
    /// Number `k` at a place.
    #[inline(always)]
    pub(crate) fn number(&self, place: usize, k: usize) -> i64
        requires place { place < self.now.count }
        requires item { k < self.now.items }
        ensures { let a = self.now in result ≡ number_of_axis (map T.number_in a.elements.now) a.block a.inner place k }
    {
        self.elements[self.first_item(place) + k * self.inner.number()].number()
    }
}

impl<T: Foldable> AxisItems<'_, T> {
    /// Puts the folds at the places from `from` on, all of them in a row, in place of the totals. It says whether no place has a fault, or
    /// may have one.
    #[inline(always)]
    fn fold_with<F: Function>(&self, doubts: Doubts, from: usize, totals: &mut [i64]) -> bool
        requires some { 0 < length totals.old }
        requires within { from + length totals.old ≤ self.now.count }
        requires row { from % self.now.inner + length totals.old ≤ self.now.inner }
        ensures values { let a = self.now in
            result ≡ true → AreWritten (fold_at F.FUNCTION (map T.elem_of a.elements.now) a.items a.block a.inner) from (from + length totals.old) totals.new }
        ensures len { length totals.new ≡ length totals.old }
    {
        let stride = self.inner.number();
        let first = self.first_item(from);
        let more = self.items - 2;
        let last = first + more * stride;
        let left = from_place(self.elements, last);
        let right = from_place(self.elements, last + stride);
        fold_last_rows::<F, T>(left, right, totals)
            && fold_rows::<F, T>(self.elements, first, stride, more, doubts, totals)
    }

    /// The same: as if all numbers were near 0, if that is quicker, and anew if one is not.
    fn fold_run<F: Function>(&self, from: usize, totals: &mut [i64]) -> bool
        requires some { 0 < length totals.old }
        requires within { from + length totals.old ≤ self.now.count }
        requires row { from % self.now.inner + length totals.old ≤ self.now.inner }
        ensures values { let a = self.now in
            result ≡ true → AreWritten (fold_at F.FUNCTION (map T.elem_of a.elements.now) a.items a.block a.inner) from (from + length totals.old) totals.new }
        ensures len { length totals.new ≡ length totals.old }
    {
        (has_near_rows::<F>() && self.fold_with::<F>(Doubts::Numbers, from, totals))
            || self.fold_with::<F>(Doubts::Results, from, totals)
    }

    /// Writes the folds at four places, the items of each of which are neighbours. It answers the place after them, or `from` if it
    /// wrote none.
    fn write_lines<F: Function>(&self, from: usize, to: usize, room: &mut [i64]) -> usize
        requires order { from ≤ to }
        requires places { to ≤ self.now.count }
        requires room { from + length room.old ≡ to }
        requires near { self.now.inner ≡ 1 }
        ensures order { from ≤ result }
        ensures within { result ≤ to }
        ensures values { let a = self.now in
            AreWritten (fold_at F.FUNCTION (map T.elem_of a.elements.now) a.items a.block a.inner) from result room.new }
        ensures len { length room.new ≡ length room.old }
    {
        if to - from < 4 {
            return from;
        }
        match fold_lines::<F, T>(self.elements, self.four_lines(from), self.items) {
            Some(folds) => {
                put_four(folds, room);
                from + 4
            }
            None => from,
        }
    }
}

/// The folds of the items at each place, by the function of type `F`.
#[derive(Drop)]
struct TypedFolds<'a, T, F> {
    axis: &'a AxisItems<'a, T>,
    function: PhantomData<F>,
}

impl<T: Foldable, F: Function> Kernel for TypedFolds<'_, T, F> {
    ghost use Rattle.std.specs.Prelude.{map};
    ghost use Rattle.apl_reduce.specs.Folded.{fold_at};

    type Out = i64;

    ghost place_count = { λ k. k.axis.now.count };

    ghost outcome = { λ k. fold_at F.FUNCTION (map T.elem_of k.axis.now.elements.now) k.axis.now.items k.axis.now.block k.axis.now.inner };

    fn count(&self) -> usize {
        self.axis.count
    }

    #[inline(always)]
    fn at(&self, place: usize) -> Result<i64, Fault> {
        let axis = self.axis;
        let stride = axis.inner.number();
        fold_along::<F, T>(axis.elements, axis.first_item(place), stride, axis.items)
    }

    /// Of a row of folds, or of four whose items are neighbours.
    #[inline(always)]
    fn write_run(&self, from: usize, to: usize, room: &mut [i64]) -> usize {
        let axis = self.axis;
        if axis.inner.number() == 1 {
            return axis.write_lines::<F>(from, to, room);
        }
        let len = axis.run_length(from, to);
        if len == 0 || !axis.fold_run::<F>(from, &mut room[..len]) {
            return from;
        }
        from + len
    }
}

/// The fold of the items at a place.
fn fold_place<F: Function, T: Foldable>(axis: &AxisItems<T>, place: usize) -> Result<i64, Fault>
    requires { place < axis.now.count }
    ensures { let a = axis.now in result ≡ fold_at F.FUNCTION (map T.elem_of a.elements.now) a.items a.block a.inner place }
{
    let folds = TypedFolds::<T, F> {
        axis,
        function: PhantomData,
    };
    folds.at(place)
}

/// Writes the folds at the places from `from` up to before `to`, up to the first that has a fault.
#[inline(never)]
fn write_folds<F: Function, T: Foldable>(
    axis: &AxisItems<T>,
    from: usize,
    to: usize,
    room: &mut [i64],
) -> Result<(), FirstFault>
    requires order { from ≤ to }
    requires places { to ≤ axis.now.count }
    requires room { from + length room.old ≡ to }
    ensures values { let a = axis.now in
        OnOk result (AreWritten (fold_at F.FUNCTION (map T.elem_of a.elements.now) a.items a.block a.inner) from to room.new) }
    ensures fault { let a = axis.now in
        IfErr result (λ first. IsFaultAfter (fold_at F.FUNCTION (map T.elem_of a.elements.now) a.items a.block a.inner) from to first.place first.fault room.new) }
    ensures len { length room.new ≡ length room.old }
{
    let folds = TypedFolds::<T, F> {
        axis,
        function: PhantomData,
    };
    write_values(&folds, from, to, room)
}

/// The folds of the items at each place. The function is chosen once for all places of a piece, so that a pass of the pool is compiled once
/// for all functions.
#[derive(Drop)]
struct AxisFolds<'a, T> {
    f: ScalarFunction,
    axis: &'a AxisItems<'a, T>,
}

impl<T: Foldable> Kernel for AxisFolds<'_, T> {
    ghost use Rattle.std.specs.Prelude.{map};
    ghost use Rattle.apl_reduce.specs.Folded.{fold_at};

    type Out = i64;

    ghost place_count = { λ k. k.axis.now.count };

    ghost outcome = { λ k place. fold_at k.f (map T.elem_of k.axis.now.elements.now) k.axis.now.items k.axis.now.block k.axis.now.inner place };

    fn count(&self) -> usize {
        self.axis.count
    }

    fn piece(&self) -> usize {
        let piece = piece_of(self.axis.items);
        if self.axis.inner.number() == 1 {
            piece
        } else {
            piece.max(FEWEST_COLUMNS)
        }
    }

    fn work(&self) -> usize {
        work_of(self.axis.count, self.axis.items) / T::PER_NUMBER.max(1)
    }

    fn at(&self, place: usize) -> Result<i64, Fault> {
        with_type!(self.f, fold_place::<F, T>(self.axis, place))
    }

    #[inline(always)]
    fn write_chosen(
        &self,
        from: usize,
        to: usize,
        room: &mut [i64],
    ) -> Option<Result<(), FirstFault>> {
        Some(with_type!(self.f, write_folds::<F, T>(self.axis, from, to, room)))
    }
}

fn fill_folds<T: Foldable + Sync, W: Crew>(
    workers: &W,
    f: ScalarFunction,
    axis: &AxisItems<T>,
) -> Result<Vec<i64>, Stop>
    ensures { IsFilled (fold_at f (map T.elem_of axis.now.elements.now) axis.now.items axis.now.block axis.now.inner) axis.now.count result }
{
    fill(workers, &AxisFolds { f, axis })
}

/// The sums of the items at each place, if the workers share the numbers, and no number is far from 0. Then the items of a place are
/// neighbours, and more than a stretch.
fn fill_by_stretches<T: Numeric + Sync, W: Crew>(
    workers: &W,
    f: ScalarFunction,
    axis: &AxisItems<T>,
) -> Result<Option<Vec<i64>>, Stop>
    ensures values { let a = axis.now in IfOk result (λ sums. IfSome sums (λ v. AreValues (fold_at f (map T.elem_of a.elements.now) a.items a.block a.inner) a.count v.items)) }
    ensures stop { let a = axis.now in IfErr result (IsStopOf (fold_at f (map T.elem_of a.elements.now) a.items a.block a.inner) a.count) }
{
    let has_stretches = axis.inner.number() == 1 && axis.items > STRETCH;
    if !has_stretches || !shares_sums(workers, f, axis.count, axis.items) {
        return Ok(None);
    }
    elements_are_numbers(axis.elements);
    fill_row_sums(
        workers,
        &Stretches::new(axis.elements, axis.count, axis.items, axis.block),
    )
}

/// The items at each place, folded as a row, give the fold of the place.
fn rows_have_folds<T: Numeric>(_f: ScalarFunction, _axis: &AxisItems<T>)
    ensures { let a = _axis.now in let number = number_of_axis (map T.number_in a.elements.now) a.block a.inner in
        AreRowFolds (dyadic_numbers _f) (λ place k. Ok (number place k)) a.count (a.items - 1) (λ place. Ok (number place (a.items - 1))) (fold_at _f (map T.elem_of a.elements.now) a.items a.block a.inner) }
{}

/// The folds of numbers at each place. The workers share the items of each place, or the places.
pub(crate) fn fill_number_folds<T: Foldable + Numeric + Sync, W: Crew>(
    workers: &W,
    f: ScalarFunction,
    axis: &AxisItems<T>,
) -> Result<Vec<i64>, Stop>
    ensures { IsFilled (fold_at f (map T.elem_of axis.now.elements.now) axis.now.items axis.now.block axis.now.inner) axis.now.count result }
{
    if let Some(sums) = fill_by_stretches(workers, f, axis)? {
        return Ok(sums);
    }
    rows_have_folds(f, axis);
    if repays_summaries(workers, f) && shares_items(workers, f, axis.count, axis.items) {
        return apl_summary::fold_rows(workers, f, &ItemRows { axis });
    }
    fill_folds(workers, f, axis)
}

/// The folds of truth values at each place. If how many are true gives the fold of neighbours, one worker finds it sooner than several.
pub(crate) fn fill_truth_folds<W: Crew>(
    workers: &W,
    f: ScalarFunction,
    axis: &AxisItems<bool>,
) -> Result<Vec<i64>, Stop>
    ensures { IsFilled (fold_at f (map truth_element axis.now.elements.now) axis.now.items axis.now.block axis.now.inner) axis.now.count result }
{
    rows_have_folds(f, axis);
    let is_quick = axis.inner.number() == 1 && has_truth_runs(f);
    if !is_quick && shares_items(workers, f, axis.count, axis.items) {
        return apl_summary::fold_rows(workers, f, &ItemRows { axis });
    }
    fill_folds(workers, f, axis)
}

/// The folds of characters at each place.
pub(crate) fn fill_character_folds<W: Crew>(
    workers: &W,
    f: ScalarFunction,
    axis: &AxisItems<char>,
) -> Result<Vec<i64>, Stop>
    ensures { IsFilled (fold_at f (map Chr axis.now.elements.now) axis.now.items axis.now.block axis.now.inner) axis.now.count result }
{
    fill_folds(workers, f, axis)
}
