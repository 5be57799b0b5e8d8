//! Lines along an axis that are each rotated by a number of their own.
ghost use Rattle.std.specs.Prelude.{◌≡◌, ℕ, ◌+◌, ◌*◌, ◌<◌, ◌≤◌, slice_index, slice_index_or};
ghost use Rattle.apl_pool.specs.declared.kernel.TheConstants.{MOST_PLACES};
ghost use Rattle.apl_walk.specs.Steps.{wrapped, rotated_place, rotated_column};

use crate::fronts::{element_or, write_or};
use crate::lined::Lined;
use crate::turned::counted_round;
use apl_divisor::Divisor;
use apl_pool::write_each;

/// By how many indexes each line is rotated. Lines are counted in the row order of the other axes' index lists.
#[derive(Clone, Copy)]
pub struct Rotations<'a> {
    pub by: &'a [usize],
    pub length: usize,
    ghost some: { 0 < length },
    ghost most: { length ≤ MOST_PLACES },
    ghost below: { (line : ℕ) → slice_index by.now line ≤ length },
}

impl Rotations<'_> {
    /// The index of a line that is at an index of its rotation.
    #[inline(always)]
    fn index(&self, line: usize, i: usize) -> usize
        requires { i < self.now.length }
        ensures value { result ≡ wrapped self.now.length (i + slice_index self.now.by.now line) }
        ensures below { result < self.now.length }
    {
        counted_round(self.length, i + element_or(self.by, line, 0))
    }
}

/// An argument whose lines along its last axis are rotated.
#[derive(Drop)]
pub struct RotatedRows<'a, T> {
    pub elements: &'a [T],
    pub past: T,
    pub rotations: Rotations<'a>,
    pub count: usize,
    ghost count_most: { count ≤ MOST_PLACES },
}

impl<T: Copy> Lined for RotatedRows<'_, T> {
    type Out = T;

    type Start = ();

    ghost place_count = { λ r. r.count };

    ghost extent = { λ r. r.rotations.length };

    ghost value = { λ r line index. slice_index_or r.elements.now (rotated_place r.rotations.length r.rotations.by.now line line index) r.past };

    ghost is_start = { λ _ _ _. Unit {0} };

    fn count(&self) -> usize {
        self.count
    }

    fn extent(&self) -> usize {
        self.rotations.length
    }

    #[inline(always)]
    fn at(&self, line: usize, index: usize) -> T {
        let place = line * self.rotations.length + self.rotations.index(line, index);
        element_or(self.elements, place, self.past)
    }

    fn start_of(&self, _line: usize) {}

    fn next_start(&self, _line: usize, _start: ()) {}

    #[inline(always)]
    fn write(&self, line: usize, _start: (), from: usize, count: usize, room: &mut [T]) {
        if count == 0 {
            return;
        }
        let base = line * self.rotations.length;
        let start = self.rotations.index(line, from);
        let first = count.min(self.rotations.length - start);
        write_or(self.elements, self.past, base + start, first, room);
        let rest = &mut room[first..];
        write_or(self.elements, self.past, base, count - first, rest);
    }
}

/// An argument whose lines along another axis are rotated: there is one line for each of the `inner` places at one index of that axis.
#[derive(Drop)]
pub struct RotatedColumns<'a, T> {
    pub elements: &'a [T],
    pub past: T,
    pub rotations: Rotations<'a>,
    pub length: Divisor,
    pub inner: usize,
    pub count: usize,
    ghost length_is: { length ≡ rotations.length },
    ghost some: { 0 < inner },
    ghost most: { inner ≤ MOST_PLACES },
    ghost count_most: { count ≤ MOST_PLACES },
}

impl<T: Copy> RotatedColumns<'_, T> {
    /// What there is in a column at index `i` of the lines that begin after `outer` such groups of lines.
    #[inline(always)]
    fn at_column(&self, outer: usize, i: usize, column: usize) -> T
        requires outer { outer * self.now.rotations.length ≤ MOST_PLACES }
        requires index { i < self.now.rotations.length }
        requires column { column < self.now.inner }
        ensures { result ≡ slice_index_or self.now.elements.now
            (rotated_place self.now.rotations.length self.now.rotations.by.now outer (outer * self.now.inner + column) i * self.now.inner + column) self.now.past }
    {
        let line = outer * self.inner + column;
        let taken = outer * self.rotations.length + self.rotations.index(line, i);
        element_or(self.elements, taken * self.inner + column, self.past)
    }
}

impl<T: Copy> Lined for RotatedColumns<'_, T> {
    type Out = T;

    type Start = ();

    ghost place_count = { λ r. r.count };

    ghost extent = { λ r. r.inner };

    ghost value = { λ r row column. slice_index_or r.elements.now (rotated_column r.rotations.length r.rotations.by.now r.inner row column) r.past };

    ghost is_start = { λ _ _ _. Unit {0} };

    fn count(&self) -> usize {
        self.count
    }

    fn extent(&self) -> usize {
        self.inner
    }

    #[inline(always)]
    fn at(&self, row: usize, column: usize) -> T {
        let outer = self.length.quotient(row);
        self.at_column(outer, self.length.remainder(row), column)
    }

    fn start_of(&self, _line: usize) {}

    fn next_start(&self, _line: usize, _start: ()) {}

    #[inline(always)]
    fn write(&self, row: usize, _start: (), from: usize, count: usize, room: &mut [T]) {
        let outer = self.length.quotient(row);
        let index = self.length.remainder(row);
        let element = |k: usize| -> T
            requires outer { outer * self.now.rotations.length ≤ MOST_PLACES }
            requires index { index < self.now.rotations.length }
            requires column { from + k < self.now.inner }
            ensures { result ≡ slice_index_or self.entry.now.elements.now
                (rotated_place self.entry.now.rotations.length self.entry.now.rotations.by.now outer (outer * self.entry.now.inner + (from + k)) index * self.entry.now.inner + (from + k)) self.entry.now.past }
        { self.at_column(outer, index, from + k) };
        write_each(count, element, room);
    }
}
