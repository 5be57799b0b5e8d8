//! What is true of all structural functions, as the contract of a function that does nothing.
ghost use Rattle.std.specs.Prelude.{◌≡◌, Ok};
ghost use Rattle.apl_array.specs.declared.axis.Axis.{Axis};
ghost use Rattle.apl_array.specs.declared.axis.Origin.{Origin};
ghost use Rattle.apl_array.specs.Array.{ArrayValue};
ghost use Rattle.apl_array.specs.Limits.{IsWithinLimits};
ghost use Rattle.apl_answer.specs.Rows.{result_of};
ghost use Rattle.apl_struct.specs.Building.{shape_of_row, ravel_row, reshape_row, iota_row};
ghost use Rattle.apl_struct.specs.Joining.{catenate_row};
ghost use Rattle.apl_struct.specs.Taking.{take_row, drop_row};
ghost use Rattle.apl_struct.specs.Rearranging.{reverse_row, rotate_row, transpose_row, transpose_by_row};
ghost use Rattle.apl_struct.specs.Compressing.{replicate_row, expand_row};
ghost use Rattle.apl_struct.specs.Indexing.{Slots, select_row, replace_row};

use apl_answer::answer_is_within_limits;
use apl_array::{reversed_index_is_lawful, shape_is_decided, transposed_index_has_place};

/// The answers to arguments within all limits are within all limits, whatever the axis, the origin and the slots.
pub fn structural_answers_are_within_limits()
    ensures shape_of { (b answer : ArrayValue) → IsWithinLimits b
        → result_of (shape_of_row b) ≡ Ok answer → IsWithinLimits answer }
    ensures ravel { (b answer : ArrayValue) → IsWithinLimits b
        → result_of (ravel_row b) ≡ Ok answer → IsWithinLimits answer }
    ensures reshape { (a b answer : ArrayValue) → IsWithinLimits a → IsWithinLimits b
        → result_of (reshape_row a b) ≡ Ok answer → IsWithinLimits answer }
    ensures iota { (origin : Origin) (n answer : ArrayValue) → IsWithinLimits n
        → result_of (iota_row n origin) ≡ Ok answer → IsWithinLimits answer }
    ensures catenate { (axis : Axis) (a b answer : ArrayValue) → IsWithinLimits a → IsWithinLimits b
        → result_of (catenate_row a b axis) ≡ Ok answer → IsWithinLimits answer }
    ensures take { (a b answer : ArrayValue) → IsWithinLimits a → IsWithinLimits b
        → result_of (take_row a b) ≡ Ok answer → IsWithinLimits answer }
    ensures drop { (a b answer : ArrayValue) → IsWithinLimits a → IsWithinLimits b
        → result_of (drop_row a b) ≡ Ok answer → IsWithinLimits answer }
    ensures reverse { (axis : Axis) (b answer : ArrayValue) → IsWithinLimits b
        → result_of (reverse_row b axis) ≡ Ok answer → IsWithinLimits answer }
    ensures rotate { (axis : Axis) (a b answer : ArrayValue) → IsWithinLimits a → IsWithinLimits b
        → result_of (rotate_row a b axis) ≡ Ok answer → IsWithinLimits answer }
    ensures transpose { (b answer : ArrayValue) → IsWithinLimits b
        → result_of (transpose_row b) ≡ Ok answer → IsWithinLimits answer }
    ensures transpose_by { (origin : Origin) (a b answer : ArrayValue) → IsWithinLimits a → IsWithinLimits b
        → result_of (transpose_by_row a b origin) ≡ Ok answer → IsWithinLimits answer }
    ensures replicate { (axis : Axis) (a b answer : ArrayValue) → IsWithinLimits a → IsWithinLimits b
        → result_of (replicate_row a b axis) ≡ Ok answer → IsWithinLimits answer }
    ensures expand { (axis : Axis) (a b answer : ArrayValue) → IsWithinLimits a → IsWithinLimits b
        → result_of (expand_row a b axis) ≡ Ok answer → IsWithinLimits answer }
    ensures select { (a answer : ArrayValue) (slots : Slots) (origin : Origin) → IsWithinLimits a
        → result_of (select_row a slots origin) ≡ Ok answer → IsWithinLimits answer }
    ensures replace { (a b answer : ArrayValue) (slots : Slots) (origin : Origin) → IsWithinLimits a → IsWithinLimits b
        → result_of (replace_row a slots b origin) ≡ Ok answer → IsWithinLimits answer }
{
    answer_is_within_limits();
    shape_is_decided();
    reversed_index_is_lawful();
    transposed_index_has_place();
}
