//! What is true of searches and grades, each law the contract of a function that does nothing.
ghost use Rattle.std.specs.Prelude.{◌≡◌, ◌↔◌, ℕ, ℤ, List, Ok};
ghost use Rattle.apl_array.specs.declared.axis.Origin.{Origin};
ghost use Rattle.apl_array.specs.Array.{ArrayValue};
ghost use Rattle.apl_array.specs.Limits.{IsWithinLimits};
ghost use Rattle.apl_answer.specs.Rows.{result_of};
ghost use Rattle.apl_search.specs.Searching.{index_of_row, member_row};
ghost use Rattle.apl_search.specs.Ordering.{upwards, downwards, IsGrade, grade_of, grade_up_row, grade_down_row};

use apl_answer::answer_is_within_limits;

/// A list of numbers has one grade upwards and one downwards. It is the one list of all places, each once,
/// in which each comes before the next by value, and equal ones by place.
pub fn one_grade()
    ensures up { (values : List ℤ) (grade : List ℕ) → IsGrade upwards values grade ↔ (grade ≡ grade_of upwards values) }
    ensures down { (values : List ℤ) (grade : List ℕ) → IsGrade downwards values grade ↔ (grade ≡ grade_of downwards values) }
{}

/// The answers to arguments within all limits are within all limits, whatever the origin.
pub fn search_answers_are_within_limits()
    ensures index_of { (origin : Origin) (a b answer : ArrayValue) → IsWithinLimits a → IsWithinLimits b
        → result_of (index_of_row a b origin) ≡ Ok answer → IsWithinLimits answer }
    ensures member { (a b answer : ArrayValue) → IsWithinLimits a → IsWithinLimits b
        → result_of (member_row a b) ≡ Ok answer → IsWithinLimits answer }
    ensures grade_up { (origin : Origin) (v answer : ArrayValue) → IsWithinLimits v
        → result_of (grade_up_row v origin) ≡ Ok answer → IsWithinLimits answer }
    ensures grade_down { (origin : Origin) (v answer : ArrayValue) → IsWithinLimits v
        → result_of (grade_down_row v origin) ≡ Ok answer → IsWithinLimits answer }
{
    answer_is_within_limits();
}
