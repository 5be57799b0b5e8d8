//! The arguments of a dyadic function in row order. An argument of one element that is extended is
//! that element, and no list is read for it.
ghost use Rattle.std.specs.Prelude.{◌≡◌, ℕ, ◌+◌, ◌*◌, ◌<◌, length};
ghost use Rattle.apl_pool.specs.declared.kernel.TheConstants.{MOST_PLACES};

use apl_answer::ElementType;
use apl_array::Elem;
use std::alloc::AllocError;

/// An argument at each place.
pub(crate) trait Operand: Copy {
    ghost use Rattle.apl_array.specs.declared.array.Elem.{Elem};

    // The element at a place.
    ghost element: { Self → ℕ → Elem };

    // How many places it serves.
    ghost served: { Self → ℕ };

    /// How many elements are read in the time of one number.
    const PER_NUMBER: usize;

    fn at(&self, place: usize) -> Elem
        requires { place < served self.now }
        ensures { result ≡ element self.now place };
}

/// Each element serves at its own place.
#[derive(Clone, Copy)]
pub(crate) struct Whole<'a, T>(pub &'a [T]);

impl<T: ElementType> Operand for Whole<'_, T> {
    ghost use Rattle.std.specs.Prelude.{length, map, pos, slice_index_or};
    ghost use Rattle.apl_array.specs.declared.array.Elem.TheVariants.{Int};

    ghost element = { λ k place. slice_index_or (map T.elem_of k.0.now) place (Int (pos 0)) };

    ghost served = { λ k. length k.0.now };

    const PER_NUMBER: usize = T::PER_NUMBER;

    #[inline(always)]
    fn at(&self, place: usize) -> Elem {
        self.0[place].elem()
    }
}

/// One element serves at all places.
#[derive(Clone, Copy)]
pub(crate) struct Value<T>(pub T);

impl<T: ElementType> Operand for Value<T> {
    ghost element = { λ k place. T.elem_of k.0 };

    ghost served = { λ k. MOST_PLACES };

    const PER_NUMBER: usize = T::PER_NUMBER;

    #[inline(always)]
    fn at(&self, _place: usize) -> Elem {
        self.0.elem()
    }
}

/// Elements that are `stride` apart, from place `first` on.
pub struct Spaced<'a, T> {
    pub elements: &'a [T],
    pub first: usize,
    pub stride: usize,
    pub count: usize,
    ghost within: { (k : ℕ) → k < count → first + k * stride < length elements.now },
}

impl<T> Clone for Spaced<'_, T> {
    fn clone(&self) -> Result<Self, AllocError> {
        Ok(*self)
    }
}

impl<T> Copy for Spaced<'_, T> {}

impl<'a, T> Spaced<'a, T> {
    /// The same elements, of which a loop is told that they are neighbours.
    #[inline(always)]
    pub(crate) fn as_neighbours(self) -> Spaced<'a, T>
        requires { self.stride ≡ 1 }
        ensures elements { result.elements.now ≡ self.entry.elements.now }
        ensures first { result.first ≡ self.entry.first }
        ensures stride { result.stride ≡ self.entry.stride }
        ensures count { result.count ≡ self.entry.count }
    {
        Spaced {
            elements: self.elements,
            first: self.first,
            stride: 1,
            count: self.count,
        }
    }
}

impl<T: ElementType> Operand for Spaced<'_, T> {
    ghost use Rattle.std.specs.Prelude.{map};
    ghost use Rattle.apl_scalar.specs.Meeting.{spaced_element};

    ghost element = { λ s. spaced_element (map T.elem_of s.elements.now) s.first s.stride };

    ghost served = { λ s. s.count };

    const PER_NUMBER: usize = T::PER_NUMBER;

    #[inline(always)]
    fn at(&self, place: usize) -> Elem {
        self.elements[self.first + place * self.stride].elem()
    }
}
