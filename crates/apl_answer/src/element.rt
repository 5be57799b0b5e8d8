//! Numbers, of 64 bits or of 32, truth values and characters.
ghost use Rattle.std.specs.Prelude.{◌≡◌, ◌<◌, refl, pos, length, map, slice_index_or};
ghost use Rattle.apl_array.specs.declared.array.Elem.TheVariants.{Int};
ghost use Rattle.apl_array.specs.Array.{bit};

use apl_array::{Array, Elem, Shape};
use apl_pool::Reused;

/// An element of an array as it is held: a number, of 64 bits or of 32, a truth value, which is the number 0 or 1, or a character.
pub trait ElementType: Reused {
    ghost use Rattle.std.specs.Prelude.{◌≡◌, vec_len};
    ghost use Rattle.apl_array.specs.declared.array.Elem.{Elem};
    ghost use Rattle.apl_array.specs.declared.array.Kind.{Kind};
    ghost use Rattle.apl_array.specs.Shape.{count_of};
    ghost use Rattle.apl_answer.specs.Elements.{array_with};
    ghost use Rattle.apl_answer.specs.Arguments.{fill_of};

    // The value as an element of any kind.
    ghost elem_of: { Self → Elem };

    // Of this kind.
    ghost kind: { Kind };

    /// The value as an element of any kind.
    fn elem(self) -> Elem
        ensures { result ≡ elem_of self };

    /// The fill of the kind: 0 or the blank.
    fn fill() -> Self
        ensures { elem_of result ≡ fill_of kind };

    /// The array of this shape whose elements in row order are these values.
    fn array(shape: Shape, values: Vec<Self>) -> Array
        requires { vec_len values ≡ count_of shape }
        ensures { result ≡ array_with elem_of kind shape values.items };
}

impl ElementType for i64 {
    ghost use Rattle.std.specs.Prelude.{◌≡◌, vec_len};
    ghost use Rattle.apl_array.specs.Shape.{count_of};
    ghost use Rattle.apl_array.specs.Array.{number_array};
    ghost use Rattle.apl_array.specs.declared.array.Elem.TheVariants.{Int};
    ghost use Rattle.apl_array.specs.declared.array.Kind.TheVariants.{Number};

    ghost elem_of = { Int };

    ghost kind = { Number };

    #[inline(always)]
    fn elem(self) -> Elem {
        Elem::Int(self)
    }

    fn fill() -> i64 {
        0
    }

    fn array(shape: Shape, values: Vec<i64>) -> Array
        requires { vec_len values ≡ count_of shape }
        ensures { result ≡ number_array shape values.items }
    {
        Array::ints(shape, values)
    }
}

impl ElementType for i32 {
    ghost use Rattle.std.specs.Prelude.{◌≡◌, vec_len};
    ghost use Rattle.apl_array.specs.Shape.{count_of};
    ghost use Rattle.apl_array.specs.Array.{number_array};
    ghost use Rattle.apl_array.specs.declared.array.Elem.TheVariants.{Int};
    ghost use Rattle.apl_array.specs.declared.array.Kind.TheVariants.{Number};

    ghost elem_of = { Int };

    ghost kind = { Number };

    #[inline(always)]
    fn elem(self) -> Elem {
        Elem::Int(self as i64)
    }

    fn fill() -> i32 {
        0
    }

    fn array(shape: Shape, values: Vec<i32>) -> Array
        requires { vec_len values ≡ count_of shape }
        ensures { result ≡ number_array shape values.items }
    {
        Array::narrow(shape, values)
    }
}

impl ElementType for bool {
    ghost use Rattle.std.specs.Prelude.{◌≡◌, vec_len};
    ghost use Rattle.apl_array.specs.Shape.{count_of};
    ghost use Rattle.apl_array.specs.Array.{truth_array, truth_element};
    ghost use Rattle.apl_array.specs.declared.array.Kind.TheVariants.{Number};

    ghost elem_of = { truth_element };

    ghost kind = { Number };

    #[inline(always)]
    fn elem(self) -> Elem {
        Elem::Int(if self { 1 } else { 0 })
    }

    fn fill() -> bool {
        false
    }

    fn array(shape: Shape, values: Vec<bool>) -> Array
        requires { vec_len values ≡ count_of shape }
        ensures { result ≡ truth_array shape values.items }
    {
        Array::truths(shape, values)
    }
}

impl ElementType for char {
    ghost use Rattle.std.specs.Prelude.{◌≡◌, vec_len};
    ghost use Rattle.apl_array.specs.Shape.{count_of};
    ghost use Rattle.apl_array.specs.Array.{character_array};
    ghost use Rattle.apl_array.specs.declared.array.Elem.TheVariants.{Chr};
    ghost use Rattle.apl_array.specs.declared.array.Kind.TheVariants.{Character};

    ghost elem_of = { Chr };

    ghost kind = { Character };

    #[inline(always)]
    fn elem(self) -> Elem {
        Elem::Chr(self)
    }

    fn fill() -> char {
        ' '
    }

    fn array(shape: Shape, values: Vec<char>) -> Array
        requires { vec_len values ≡ count_of shape }
        ensures { result ≡ character_array shape values.items }
    {
        Array::chars(shape, values)
    }
}

/// An element that is a number, however it is held.
pub trait Numeric: ElementType {
    ghost use Rattle.std.specs.Prelude.{◌≡◌, ℤ};
    ghost use Rattle.apl_array.specs.declared.array.Elem.TheVariants.{Int};

    // The number that an element is.
    ghost number_in: { Self → ℤ };

    /// The number that an element is. It takes no memory.
    fn number(self) -> i64
        ensures { result ≡ number_in self };

    ghost is_number: { (x : Self) → Self.elem_of x ≡ Int (number_in x) };
}

impl Numeric for i64 {
    ghost number_in = { λ x. x };

    ghost is_number = { λ x. refl };

    #[inline(always)]
    fn number(self) -> i64 {
        self
    }
}

impl Numeric for i32 {
    ghost number_in = { λ x. x };

    ghost is_number = { λ x. refl };

    #[inline(always)]
    fn number(self) -> i64 {
        self as i64
    }
}

impl Numeric for bool {
    ghost number_in = { bit };

    ghost is_number = { λ x. refl };

    #[inline(always)]
    fn number(self) -> i64 {
        if self { 1 } else { 0 }
    }
}

/// The number that the element at a place is. It takes no memory.
#[inline(always)]
pub fn number_at<T: Numeric>(elements: &[T], place: usize) -> i64
    requires { place < length elements.now }
    ensures { result ≡ slice_index_or (map T.number_in elements.now) place (pos 0) }
{
    elements[place].number()
}

/// Elements are the numbers that each of them is.
pub fn elements_are_numbers<T: Numeric>(_elements: &[T])
    ensures { map T.elem_of _elements.now ≡ map Int (map T.number_in _elements.now) }
{}
