//! The shape to which two arguments are extended.
ghost use Rattle.std.specs.Prelude.{◌≡◌, Ok, Err, MatchResult};
ghost use Rattle.apl_scalar.specs.Extension.{extended_shape};

use apl_answer::OpFault;
use apl_array::Shape;

/// The shape of the result, or why the arguments do not agree.
pub(crate) fn extended<'a>(left: &'a Shape, right: &'a Shape) -> Result<&'a Shape, OpFault>
    ensures { MatchResult result (λ shape. extended_shape left.now right.now ≡ Ok shape.now) (λ fault. extended_shape left.now right.now ≡ Err fault) }
{
    if left.lengths() == right.lengths() {
        return Ok(left);
    }
    match (left.count() == 1, right.count() == 1) {
        (true, true) => Ok(if left.rank() < right.rank() {
            right
        } else {
            left
        }),
        (true, false) => Ok(right),
        (false, true) => Ok(left),
        (false, false) => Err(if left.rank() == right.rank() {
            OpFault::Length
        } else {
            OpFault::Rank
        }),
    }
}
