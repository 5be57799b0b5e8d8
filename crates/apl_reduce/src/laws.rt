//! What is true of all reductions and products, each law the contract of a function that does nothing.
ghost use Rattle.std.specs.Prelude.{◌≡◌, ℤ, List, ◌∷◌, Ok, Some, All};
ghost use Rattle.apl_array.specs.declared.axis.Axis.{Axis};
ghost use Rattle.apl_array.specs.declared.function.ScalarFunction.{ScalarFunction};
ghost use Rattle.apl_array.specs.Array.{ArrayValue};
ghost use Rattle.apl_array.specs.Range.{IsInRange};
ghost use Rattle.apl_array.specs.Limits.{IsWithinLimits};
ghost use Rattle.apl_answer.specs.Rows.{result_of};
ghost use Rattle.apl_reduce.specs.Folding.{number_fold};
ghost use Rattle.apl_reduce.specs.Partial.{exact_function, fold_by_partial_results};
ghost use Rattle.apl_reduce.specs.Reducing.{reduce_row};
ghost use Rattle.apl_reduce.specs.Products.{outer_row, inner_row};
ghost use Rattle.apl_reduce.specs.Decoding.{decode_row};
ghost use Rattle.apl_reduce.specs.Encoding.{encode_row};

use apl_answer::answer_is_within_limits;
use apl_array::{range_is_decided, shape_is_decided};
use apl_scalar::answers_are_in_range;

/// A fold of numbers by `+`, `-` or `×` is the exact one. It is refused exactly if the exact fold of some end of the list is outside the
/// range.
pub fn partial_results_decide()
    ensures { (f : ScalarFunction) (exact : ℤ → ℤ → ℤ) (x : ℤ) (rest : List ℤ) → exact_function f ≡ Some exact → All IsInRange (x ∷ rest)
        → number_fold f x rest ≡ fold_by_partial_results exact x rest }
{
    range_is_decided();
}

/// The answers to arguments within all limits are within all limits.
pub fn reduced_answers_are_within_limits()
    ensures reduce { (f : ScalarFunction) (b answer : ArrayValue) (axis : Axis) → IsWithinLimits b
        → result_of (reduce_row f b axis) ≡ Ok answer → IsWithinLimits answer }
    ensures outer { (f : ScalarFunction) (a b answer : ArrayValue) → IsWithinLimits a → IsWithinLimits b
        → result_of (outer_row f a b) ≡ Ok answer → IsWithinLimits answer }
    ensures inner { (f g : ScalarFunction) (a b answer : ArrayValue) → IsWithinLimits a → IsWithinLimits b
        → result_of (inner_row f g a b) ≡ Ok answer → IsWithinLimits answer }
    ensures decode { (a b answer : ArrayValue) → IsWithinLimits a → IsWithinLimits b
        → result_of (decode_row a b) ≡ Ok answer → IsWithinLimits answer }
    ensures encode { (a b answer : ArrayValue) → IsWithinLimits a → IsWithinLimits b
        → result_of (encode_row a b) ≡ Ok answer → IsWithinLimits answer }
{
    answer_is_within_limits();
    answers_are_in_range();
    range_is_decided();
    shape_is_decided();
}
