//! One number, or one fault, at all places.
ghost use Rattle.std.specs.Prelude.{◌≡◌, ◌≤◌, IfOk, IfErr};
ghost use Rattle.apl_array.specs.declared.array.Elem.TheVariants.{Int};
ghost use Rattle.apl_array.specs.declared.array.Kind.TheVariants.{Number};
ghost use Rattle.apl_pool.specs.declared.kernel.TheConstants.{MOST_PLACES};
ghost use Rattle.apl_pool.specs.Pool.{AreValues, IsStopOf};
ghost use Rattle.apl_answer.specs.Elements.{element_outcome};
ghost use Rattle.apl_answer.specs.Pointwise.{IsAnswerAt};

use crate::fault::OpFault;
use crate::fill::array_from_fill;
use apl_array::{Array, Shape};
use apl_pool::{Crew, Fault, Kernel, Stop, fill};

/// One number, or one fault, at all places.
#[derive(Drop)]
struct Uniform {
    count: usize,
    outcome: Result<i64, Fault>,
    ghost most: { count ≤ MOST_PLACES },
}

impl Kernel for Uniform {
    type Out = i64;

    ghost place_count = { λ k. k.count };

    ghost outcome = { λ k place. k.outcome };

    fn count(&self) -> usize {
        self.count
    }

    #[inline(always)]
    fn at(&self, _place: usize) -> Result<i64, Fault> {
        self.outcome
    }
}

/// The number at each of `count` places, or the fault at the first of them.
pub fn fill_uniform<W: Crew>(
    workers: &W,
    count: usize,
    outcome: Result<i64, Fault>,
) -> Result<Vec<i64>, Stop>
    requires { count ≤ MOST_PLACES }
    ensures values { IfOk result (λ v. AreValues (λ place. outcome) count v.items) }
    ensures stop { IfErr result (IsStopOf (λ place. outcome) count) }
{
    fill(workers, &Uniform { count, outcome })
}

/// The array of this shape with one number at all places, or the fault at the first of them. `Memory` may come in place of any answer.
pub fn constant_array<W: Crew>(
    workers: &W,
    shape: Shape,
    outcome: Result<i64, Fault>,
) -> Result<Array, OpFault>
    ensures { IsAnswerAt shape Number (λ place. element_outcome Int outcome) result }
{
    let filled = fill_uniform(workers, shape.count(), outcome);
    array_from_fill(shape, filled)
}
