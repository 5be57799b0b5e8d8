//! The shapes of results, and the characters of arguments.
ghost use Rattle.std.specs.Prelude.{◌≡◌, ◌≢◌, ◌≤◌, ◌<◌, ◌++◌, ◌⊎◌, true, false, drop, length, MatchResult};
ghost use Rattle.apl_array.specs.declared.array.Kind.TheVariants.{Number};
ghost use Rattle.apl_array.specs.Array.{character_array};
ghost use Rattle.apl_array.specs.Shape.{is_shape, count_of};
ghost use Rattle.apl_pool.specs.declared.kernel.TheConstants.{MOST_PLACES};
ghost use Rattle.apl_answer.specs.Pointwise.{IsShapeOf};

use apl_answer::OpFault;
use apl_array::{Array, Elements, Shape, joined_index_has_place};
use std::alloc::Global;

/// The shape with the lengths of two. It is refused if it passes a limit (`Limit`).
pub(crate) fn joined_shape(alloc: Global, left: &[usize], right: &[usize]) -> Result<Shape, OpFault>
    ensures { IsShapeOf (left.now ++ right.now) result }
{
    let mut lengths = left.to_vec(alloc)?;
    lengths.extend_from_slice(right)?;
    Ok(Shape::new(alloc, lengths.as_slice())?)
}

/// The product of the lengths from axis `k` on, or 1 if the shape has no place.
pub(crate) fn columns_from(shape: &Shape, k: usize) -> usize
    requires { k ≤ length shape.now }
    ensures value { 0 < count_of shape.now → result ≡ count_of (drop k shape.now) }
    ensures some { 0 < result }
    ensures most { result ≤ MOST_PLACES }
{
    joined_index_has_place();
    let count = shape.count();
    if count == 0 {
        1
    } else if k == 0 {
        count
    } else {
        shape.inner(k - 1)
    }
}

/// The characters of an array that is not of numbers.
pub(crate) fn characters_of(a: &Array) -> &[char]
    requires { a.now.kind ≢ Number }
    ensures { a.now ≡ character_array a.now.shape result.now }
{
    let Elements::Characters(characters) = a.elements() else {
        unreachable!()
    };
    characters
}
