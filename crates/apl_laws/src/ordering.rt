//! Grades, each law the contract of a function that does nothing.
ghost use Rattle.std.specs.Prelude.{ℕ, [], ◌∷◌, Some};
ghost use Rattle.apl_array.specs.declared.axis.Origin.{Origin};
ghost use Rattle.apl_array.specs.Array.{ArrayValue};
ghost use Rattle.apl_answer.specs.Arguments.{numbers_of};
ghost use Rattle.apl_struct.specs.Building.{shape_of_row, iota_row};
ghost use Rattle.apl_struct.specs.Indexing.{select_row};
ghost use Rattle.apl_search.specs.Ordering.{grade_up_row, grade_down_row};
ghost use Rattle.apl_laws.specs.Giving.{Gives, IsVector};
ghost use Rattle.apl_laws.specs.Order.{IsAscending, IsDescending, IsPermutationOf};

use apl_array::places_match_index_lists;
use apl_search::one_grade;

/// `V[⍋V]` goes upwards and `V[⍒V]` downwards: the elements in the order of a grade are in order.
pub fn grade_orders()
    ensures up { (v g w : ArrayValue) (n : ℕ) (origin : Origin) → IsVector n v
        → Gives (grade_up_row v origin) g → Gives (select_row v (Some g ∷ []) origin) w → IsAscending (numbers_of w) }
    ensures down { (v g w : ArrayValue) (n : ℕ) (origin : Origin) → IsVector n v
        → Gives (grade_down_row v origin) g → Gives (select_row v (Some g ∷ []) origin) w → IsDescending (numbers_of w) }
{
    places_match_index_lists();
    one_grade();
}

/// `⍋V` and `⍒V` are permutations of `⍳⍴V`: they have each index once.
pub fn grade_permutes_indexes()
    ensures up { (v g s i : ArrayValue) (n : ℕ) (origin : Origin) → IsVector n v → Gives (grade_up_row v origin) g
        → Gives (shape_of_row v) s → Gives (iota_row s origin) i → IsPermutationOf i g }
    ensures down { (v g s i : ArrayValue) (n : ℕ) (origin : Origin) → IsVector n v → Gives (grade_down_row v origin) g
        → Gives (shape_of_row v) s → Gives (iota_row s origin) i → IsPermutationOf i g }
{
    places_match_index_lists();
    one_grade();
}
