//! What is true of all answers, each law the contract of a function that does nothing.
ghost use Rattle.std.specs.Prelude.{◌≡◌, ℤ, Ok, IfOk, IsTrue};
ghost use Rattle.apl_array.specs.declared.array.Elem.{Elem};
ghost use Rattle.apl_array.specs.declared.array.Elem.TheVariants.{Int};
ghost use Rattle.apl_array.specs.Array.{ArrayValue, truth_element};
ghost use Rattle.apl_array.specs.Range.{IsInRange, IsElementInRange, HasNumbersInRange};
ghost use Rattle.apl_array.specs.Limits.{IsWithinLimits};
ghost use Rattle.apl_answer.specs.Elements.{element_outcome};
ghost use Rattle.apl_scalar.specs.Scalar.{monadic_of, dyadic_of, as_element, is_truth_valued, truth_outcome, has_narrow_residues, narrow_outcome};
ghost use Rattle.apl_scalar.specs.Monadic.{monadic_answer};
ghost use Rattle.apl_scalar.specs.Dyadic.{dyadic_answer};
ghost use Rattle.apl_array.specs.declared.function.ScalarFunction.{ScalarFunction};
ghost use Rattle.apl_array.specs.declared.function.ScalarFunction.TheVariants.{Stile};

use apl_answer::{answer_is_in_range, answer_is_within_limits};
use apl_array::range_is_decided;

/// The answers to arguments whose numbers are in the range have their numbers in the range.
pub fn answers_are_in_range()
    ensures monadic { (f : ScalarFunction) (b answer : ArrayValue) → HasNumbersInRange b
        → monadic_answer f b ≡ Ok answer → HasNumbersInRange answer }
    ensures dyadic { (f : ScalarFunction) (a b answer : ArrayValue) → HasNumbersInRange a → HasNumbersInRange b
        → dyadic_answer f a b ≡ Ok answer → HasNumbersInRange answer }
    ensures element { (f : ScalarFunction) (x : Elem) → IsElementInRange x → IfOk (monadic_of f x) IsInRange }
    ensures elements { (f : ScalarFunction) (x y : Elem) → IsElementInRange x → IsElementInRange y → IfOk (dyadic_of f x y) IsInRange }
{
    range_is_decided();
    answer_is_in_range();
}

/// The answers to arguments within all limits are within all limits.
pub fn answers_are_within_limits()
    ensures monadic { (f : ScalarFunction) (b answer : ArrayValue) → IsWithinLimits b
        → monadic_answer f b ≡ Ok answer → IsWithinLimits answer }
    ensures dyadic { (f : ScalarFunction) (a b answer : ArrayValue) → IsWithinLimits a → IsWithinLimits b
        → dyadic_answer f a b ≡ Ok answer → IsWithinLimits answer }
{
    range_is_decided();
    answer_is_within_limits();
}

/// The residues by a number are the same elements as 32 bits hold them, if these hold all residues by it.
pub(crate) fn narrow_residues_are_results()
    ensures { (x : ℤ) (y : Elem) → IsTrue (has_narrow_residues x)
        → element_outcome Int (narrow_outcome (dyadic_of Stile (Int x) y)) ≡ as_element (dyadic_of Stile (Int x) y) }
{}

/// The results of a truth-valued function are the same elements if they are read as truth values.
pub fn truth_values_are_results()
    ensures monadic { (f : ScalarFunction) (x : Elem) → IsTrue (is_truth_valued f)
        → element_outcome truth_element (truth_outcome (monadic_of f x)) ≡ as_element (monadic_of f x) }
    ensures dyadic { (f : ScalarFunction) (x y : Elem) → IsTrue (is_truth_valued f)
        → element_outcome truth_element (truth_outcome (dyadic_of f x y)) ≡ as_element (dyadic_of f x y) }
{}
