//! What is true of all scans, as the contract of a function that does nothing.
ghost use Rattle.std.specs.Prelude.{◌≡◌, Ok};
ghost use Rattle.apl_array.specs.declared.axis.Axis.{Axis};
ghost use Rattle.apl_array.specs.declared.function.ScalarFunction.{ScalarFunction};
ghost use Rattle.apl_array.specs.Array.{ArrayValue};
ghost use Rattle.apl_array.specs.Limits.{IsWithinLimits};
ghost use Rattle.apl_answer.specs.Rows.{result_of};
ghost use Rattle.apl_scan.specs.Scanning.{scan_row};

use apl_answer::answer_is_within_limits;
use apl_array::range_is_decided;
use apl_scalar::answers_are_in_range;

/// The answers to arguments within all limits are within all limits.
pub fn scanned_answers_are_within_limits()
    ensures { (f : ScalarFunction) (b answer : ArrayValue) (axis : Axis) → IsWithinLimits b
        → result_of (scan_row f b axis) ≡ Ok answer → IsWithinLimits answer }
{
    answer_is_within_limits();
    answers_are_in_range();
    range_is_decided();
}
