//! Where `+` leaves the range in a scan, as the contract of a function that does nothing.
ghost use Rattle.std.specs.Prelude.{◌≡◌, ◌↔◌, ℕ, ◌≤◌, ℤ, List, Err};
ghost use Rattle.apl_array.specs.declared.axis.Axis.{Axis};
ghost use Rattle.apl_array.specs.Array.{number_array};
ghost use Rattle.apl_array.specs.Range.{AreInRange};
ghost use Rattle.apl_answer.specs.declared.fault.OpFault.TheVariants.{Limit};
ghost use Rattle.apl_scan.specs.RunningSums.{HasAxis, length_along, sum_scan, HasSumOutside, ScansToSums};

use apl_array::{range_is_decided, replaced_index_has_place};
use apl_reduce::{exact_folds_decide, limits_are_answered};

/// Numbers are scanned by `+` along an axis that exists. The answer is `Limit` exactly if some consecutive items of a line have a sum
/// outside the range. Otherwise, along an axis of length 2 or more, it is the running sums.
pub fn consecutive_sums_decide()
    ensures limit { (shape : List ℕ) (numbers : List ℤ) (axis : Axis) → let b = number_array shape numbers in
        AreInRange numbers → HasAxis b axis → (sum_scan b axis ≡ Err Limit) ↔ HasSumOutside b axis }
    ensures sums { (shape : List ℕ) (numbers : List ℤ) (axis : Axis) → let b = number_array shape numbers in
        AreInRange numbers → HasAxis b axis → 2 ≤ length_along b axis → ScansToSums b axis }
{
    range_is_decided();
    replaced_index_has_place();
    exact_folds_decide();
    limits_are_answered();
}
