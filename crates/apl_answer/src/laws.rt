//! What is true of all answers, each law the contract of a function that does nothing.
ghost use Rattle.std.specs.Prelude.{◌≡◌, ◌↔◌, ℕ, List, Ok, Err};
ghost use Rattle.apl_array.specs.declared.array.Kind.{Kind};
ghost use Rattle.apl_array.specs.Array.{ArrayValue, IsArray};
ghost use Rattle.apl_array.specs.Range.{HasNumbersInRange};
ghost use Rattle.apl_array.specs.Shape.{IsShape};
ghost use Rattle.apl_array.specs.Limits.{IsWithinLimits};
ghost use Rattle.apl_pool.specs.declared.kernel.Fault.{Fault};
ghost use Rattle.apl_answer.specs.Faults.{op_fault_of};
ghost use Rattle.apl_answer.specs.Pointwise.{Outcomes, answer_of, HaveElementsInRange, IsArrayOf, IsLeastFaultOf};
ghost use Rattle.apl_answer.specs.Rows.{Row, HasShape, HasElementsInRange, result_of};

use apl_array::places_match_index_lists;

/// The answer is an array exactly if that array has the outcome at each index list. It is a fault
/// exactly if that is the fault of the least place that has one.
pub fn answer_is_each_outcome()
    ensures array { (shape : List ℕ) (outcome : Outcomes) (kind : Kind) (a : ArrayValue)
        → IsArray a → (answer_of shape outcome kind ≡ Ok a) ↔ IsArrayOf shape outcome kind a }
    ensures fault { (shape : List ℕ) (outcome : Outcomes) (kind : Kind) (fault : Fault)
        → (answer_of shape outcome kind ≡ Err (op_fault_of fault)) ↔ IsLeastFaultOf shape outcome fault }
{
    places_match_index_lists();
}

/// An answer whose outcomes are in the range has its numbers in the range.
pub fn answer_is_in_range()
    ensures { (shape : List ℕ) (outcome : Outcomes) (kind : Kind) (a : ArrayValue)
        → HaveElementsInRange shape outcome → answer_of shape outcome kind ≡ Ok a → HasNumbersInRange a }
{
    places_match_index_lists();
}

/// An answer of a lawful shape whose outcomes are in the range is within all limits. So is that of a
/// row, of which both are needed only if its checks have passed.
pub fn answer_is_within_limits()
    ensures answer { (shape : List ℕ) (outcome : Outcomes) (kind : Kind) (a : ArrayValue)
        → IsShape shape → HaveElementsInRange shape outcome → answer_of shape outcome kind ≡ Ok a → IsWithinLimits a }
    ensures row { (row : Row) (a : ArrayValue) → HasShape row → HasElementsInRange row
        → result_of row ≡ Ok a → IsWithinLimits a }
{
    places_match_index_lists();
}
