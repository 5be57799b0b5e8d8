//! Where `+`, `-` and `×` leave the range in reductions and inner products, each law the contract of a
//! function that does nothing.
ghost use Rattle.std.specs.Prelude.{◌≡◌, ℕ, ℤ, List, Some};
ghost use Rattle.apl_array.specs.declared.array.Kind.TheVariants.{Number};
ghost use Rattle.apl_array.specs.declared.function.ScalarFunction.{ScalarFunction};
ghost use Rattle.apl_array.specs.Range.{AreInRange};
ghost use Rattle.apl_answer.specs.Pointwise.{Outcomes, answer_of};
ghost use Rattle.apl_reduce.specs.Partial.{exact_function};
ghost use Rattle.apl_reduce.specs.Refusals.{IsLimitOr};
ghost use Rattle.apl_reduce.specs.ExactFolds.{IsExactly, FoldsExactly, numbers_at, AreLimitOr, HasLimit, ReducesExactly, MultipliesExactly};

use apl_array::{places_match_index_lists, range_is_decided};

/// If each outcome is `Limit` or a number, the answer is `Limit` exactly where some outcome is, and else
/// the array of the numbers.
pub fn limits_are_answered()
    ensures { (shape : List ℕ) (outcome : Outcomes) (value : List ℕ → ℤ) → AreLimitOr shape value outcome
        → IsLimitOr (HasLimit shape outcome) (numbers_at shape value) (answer_of shape outcome Number) }
{
    places_match_index_lists();
}

/// A reduction by `+`, `-` or `×` of numbers is `Limit` exactly where some end of a line has an exact fold
/// outside the range. Otherwise it has the exact fold of each line. So it is of an inner product, which is
/// `Limit` also where some exact item is outside the range.
pub fn exact_folds_decide()
    ensures list { (f : ScalarFunction) (exact : ℤ → ℤ → ℤ) (identity : ℤ) (numbers : List ℤ) → IsExactly f exact identity → AreInRange numbers
        → FoldsExactly f exact identity numbers }
    ensures reduce { (f : ScalarFunction) (exact : ℤ → ℤ → ℤ) (identity : ℤ) → IsExactly f exact identity
        → ReducesExactly f exact identity }
    ensures inner { (f g : ScalarFunction) (exact product : ℤ → ℤ → ℤ) (identity : ℤ) → IsExactly f exact identity
        → exact_function g ≡ Some product → MultipliesExactly f g exact identity product }
{
    range_is_decided();
    places_match_index_lists();
}
