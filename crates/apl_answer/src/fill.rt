//! The array that a pool fills.
ghost use Rattle.std.specs.Prelude.{◌≡◌, IfOk, vec_len};
ghost use Rattle.apl_array.specs.Shape.{count_of};
ghost use Rattle.apl_answer.specs.Elements.{HaveOutcomes, IsAnswerOfPool};
ghost use Rattle.apl_answer.specs.Pointwise.{Outcomes, answer_of, IsAnswerOf};

use crate::element::ElementType;
use crate::fault::OpFault;
use apl_array::{Array, Shape};
use apl_pool::{Crew, Kernel, Stop, fill};

/// The array of this shape with a kernel's values in row order, or the fault at the least place that
/// has one. `Memory` may come in place of any answer.
pub fn fill_array<K: Kernel + Sync, W: Crew>(
    workers: &W,
    shape: Shape,
    kernel: &K,
) -> Result<Array, OpFault>
where
    K::Out: ElementType + Send,
    requires { K.place_count kernel.now ≡ count_of shape }
    ensures { (outcome : Outcomes) → HaveOutcomes K.Out.elem_of (K.outcome kernel.now) shape outcome
        → IsAnswerOf (answer_of shape outcome K.Out.kind) result }
{
    array_from_fill(shape, fill(workers, kernel))
}

/// The array of this shape that a pool's values make in row order, or why there are none: the fault,
/// or `Memory`.
pub fn array_from_fill<T: ElementType>(
    shape: Shape,
    filled: Result<Vec<T>, Stop>,
) -> Result<Array, OpFault>
    requires { IfOk filled (λ values. vec_len values ≡ count_of shape) }
    ensures { IsAnswerOfPool T.elem_of shape T.kind filled result }
{
    match filled {
        Ok(values) => Ok(T::array(shape, values)),
        Err(stop) => Err(OpFault::from(stop)),
    }
}
