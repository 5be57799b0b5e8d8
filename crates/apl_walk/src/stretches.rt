//! Lines of neighbours, and past the last of them always the same.
ghost use Rattle.std.specs.Prelude.{◌≡◌, ℕ, ◌+◌, ◌*◌, ◌%◌, ◌<◌, ◌≤◌, length, slice_index_or};
ghost use Rattle.apl_pool.specs.declared.kernel.TheConstants.{MOST_PLACES};
ghost use Rattle.apl_walk.specs.Seams.{joined_value};

use crate::fronts::{element_or, write_or};
use crate::lined::Lined;

/// The elements of an argument in each line, and past the last of them always the same.
#[derive(Drop)]
pub struct Cyclic<'a, T> {
    pub elements: &'a [T],
    pub past: T,
    pub extent: usize,
    pub count: usize,
    ghost some: { 0 < extent },
    ghost extent_most: { extent ≤ MOST_PLACES },
    ghost count_most: { count ≤ MOST_PLACES },
}

impl<'a, T: Copy> Cyclic<'a, T> {
    /// The elements in row order, again and again.
    pub fn new(elements: &'a [T], fill: T, count: usize) -> Cyclic<'a, T>
        requires size { length elements.now ≤ MOST_PLACES }
        requires most { count ≤ MOST_PLACES }
        ensures count { result.count ≡ count }
        ensures elements { result.elements.now ≡ elements.now }
        ensures values { (place : ℕ) → place < count → slice_index_or elements.now (place % result.extent) result.past ≡ slice_index_or elements.now (place % length elements.now) fill }
    {
        // An only element makes one line.
        let extent = if elements.len() > 1 {
            elements.len()
        } else {
            count.max(1)
        };
        Cyclic {
            elements,
            past: element_or(elements, 0, fill),
            extent,
            count,
        }
    }
}

impl<T: Copy> Lined for Cyclic<'_, T> {
    type Out = T;

    type Start = ();

    ghost place_count = { λ r. r.count };

    ghost extent = { λ r. r.extent };

    ghost value = { λ r line index. slice_index_or r.elements.now index r.past };

    ghost is_start = { λ _ _ _. Unit {0} };

    fn count(&self) -> usize {
        self.count
    }

    fn extent(&self) -> usize {
        self.extent
    }

    #[inline(always)]
    fn at(&self, _line: usize, index: usize) -> T {
        element_or(self.elements, index, self.past)
    }

    fn start_of(&self, _line: usize) {}

    fn next_start(&self, _line: usize, _start: ()) {}

    #[inline(always)]
    fn write(&self, _line: usize, _start: (), from: usize, count: usize, room: &mut [T]) {
        write_or(self.elements, self.past, from, count, room);
    }
}

/// An argument's part of each line: its next elements, and past the last of them always the same.
#[derive(Drop)]
pub struct Part<'a, T> {
    pub elements: &'a [T],
    pub past: T,
    pub length: usize,
    ghost most: { length ≤ MOST_PLACES },
}

impl<'a, T: Copy> Part<'a, T> {
    /// `length` elements in each line. Past the last element there is always the first one.
    pub fn new(elements: &'a [T], fill: T, length: usize) -> Part<'a, T>
        requires { length ≤ MOST_PLACES }
        ensures elements { result.elements.now ≡ elements.now }
        ensures past { result.past ≡ slice_index_or elements.now 0 fill }
        ensures length { result.length ≡ length }
    {
        Part {
            elements,
            past: element_or(elements, 0, fill),
            length,
        }
    }
}

/// The parts of two arguments, one after the other.
#[derive(Drop)]
pub struct Joined<'a, T> {
    pub left: Part<'a, T>,
    pub right: Part<'a, T>,
    pub count: usize,
    ghost some: { 0 < left.length + right.length },
    ghost extent_most: { left.length + right.length ≤ MOST_PLACES },
    ghost count_most: { count ≤ MOST_PLACES },
}

impl<T: Copy> Lined for Joined<'_, T> {
    type Out = T;

    type Start = ();

    ghost place_count = { λ j. j.count };

    ghost extent = { λ j. j.left.length + j.right.length };

    ghost value = { λ j line index. joined_value j.left.elements.now j.right.elements.now j.left.past j.right.past j.left.length j.right.length line index };

    ghost is_start = { λ _ _ _. Unit {0} };

    fn count(&self) -> usize {
        self.count
    }

    fn extent(&self) -> usize {
        self.left.length + self.right.length
    }

    #[inline(always)]
    fn at(&self, line: usize, index: usize) -> T {
        let (part, index) = if index < self.left.length {
            (&self.left, index)
        } else {
            (&self.right, index - self.left.length)
        };
        element_or(part.elements, line * part.length + index, part.past)
    }

    fn start_of(&self, _line: usize) {}

    fn next_start(&self, _line: usize, _start: ()) {}

    #[inline(always)]
    fn write(&self, line: usize, _start: (), from: usize, count: usize, room: &mut [T]) {
        let Joined { left, right, .. } = self;
        let first = count.min(left.length.saturating_sub(from));
        let start = line * left.length + from;
        write_or(left.elements, left.past, start, first, room);
        let start = line * right.length + from.saturating_sub(left.length);
        let rest = &mut room[first..];
        write_or(right.elements, right.past, start, count - first, rest);
    }
}
