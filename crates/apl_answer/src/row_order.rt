//! The elements of an array in row order, in another shape.
ghost use Rattle.std.specs.Prelude.{◌≡◌, ◌≤◌, pos, Ok, IfOk, IfErr, length, map, slice_index_or};
ghost use Rattle.apl_array.specs.declared.array.Elem.TheVariants.{Int};
ghost use Rattle.apl_array.specs.Array.{element_in};
ghost use Rattle.apl_array.specs.Shape.{count_of};
ghost use Rattle.apl_pool.specs.declared.kernel.TheConstants.{MOST_PLACES};
ghost use Rattle.apl_answer.specs.declared.fault.OpFault.TheVariants.{Memory as OutOfMemory};
ghost use Rattle.apl_answer.specs.Pointwise.{IsAnswerAt};

use crate::element::ElementType;
use crate::fault::OpFault;
use crate::fill::fill_array;
use crate::laws::answer_is_each_outcome;
use apl_array::{Array, Shape, places_match_index_lists, with_elements};
use apl_pool::{Crew, Fault, Kernel};

/// Each element at its own place, and the fill past the last.
#[derive(Drop)]
struct RowOrder<'a, T> {
    elements: &'a [T],
    fill: T,
    count: usize,
    ghost most: { count ≤ MOST_PLACES },
}

impl<T: ElementType> Kernel for RowOrder<'_, T> {
    ghost use Rattle.std.specs.Prelude.{Ok, slice_index_or};

    type Out = T;

    ghost place_count = { λ k. k.count };

    ghost outcome = { λ k place. Ok (slice_index_or k.elements.now place k.fill) };

    fn count(&self) -> usize {
        self.count
    }

    fn work(&self) -> usize {
        self.count / T::PER_NUMBER.max(1)
    }

    #[inline(always)]
    fn at(&self, place: usize) -> Result<T, Fault> {
        match self.elements.get(place) {
            Some(element) => Ok(*element),
            None => Ok(self.fill),
        }
    }
}

fn in_row_order<T: ElementType + Send + Sync, W: Crew>(
    workers: &W,
    shape: Shape,
    elements: &[T],
) -> Result<Array, OpFault>
    requires { count_of shape ≤ length elements.now }
    ensures { IsAnswerAt shape T.kind (λ place. Ok (slice_index_or (map T.elem_of elements.now) place (Int (pos 0)))) result }
{
    let kernel = RowOrder {
        elements,
        fill: T::fill(),
        count: shape.count(),
    };
    fill_array(workers, shape, &kernel)
}

/// The array of this shape with the elements of an array in row order. It needs no more elements than
/// that array has.
pub fn array_of_elements<W: Crew>(workers: &W, shape: Shape, b: &Array) -> Result<Array, OpFault>
    requires { count_of shape ≤ count_of b.now.shape }
    ensures { IsAnswerAt shape b.now.kind (λ place. Ok (element_in b.now place)) result }
{
    with_elements!(b.elements(), elements => in_row_order(workers, shape, elements))
}

/// A copy of an array.
pub fn array_copy<W: Crew>(workers: &W, b: &Array) -> Result<Array, OpFault>
    ensures ok { IfOk result (λ copy. copy ≡ b.now) }
    ensures err { IfErr result (λ fault. fault ≡ OutOfMemory) }
    ensures by_place { IsAnswerAt b.now.shape b.now.kind (λ place. Ok (element_in b.now place)) result }
{
    answer_is_each_outcome();
    places_match_index_lists();
    let shape = b.shape().copy(workers.alloc())?;
    array_of_elements(workers, shape, b)
}
