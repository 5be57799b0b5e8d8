//! Indexing, compression and expansion, each law the contract of a function that does nothing.
ghost use Rattle.std.specs.Prelude.{◌≡◌, ℕ, ◌<◌, [], ◌∷◌, Some};
ghost use Rattle.apl_array.specs.declared.axis.Axis.{Axis};
ghost use Rattle.apl_array.specs.declared.axis.Origin.{Origin};
ghost use Rattle.apl_array.specs.Array.{ArrayValue, IsArray};
ghost use Rattle.apl_answer.specs.Arguments.{rank_of};
ghost use Rattle.apl_struct.specs.Building.{shape_of_row, iota_row};
ghost use Rattle.apl_struct.specs.Compressing.{replicate_row, expand_row};
ghost use Rattle.apl_struct.specs.Indexing.{select_row};
ghost use Rattle.apl_laws.specs.Giving.{Gives};

use apl_array::{changed_axis_has_place, places_match_index_lists, shape_is_decided};

/// `A[⍳⍴A]` is `A`, a vector: its elements at all indexes in order are the vector.
pub fn all_indexes_choose_whole()
    ensures { (a s i : ArrayValue) (n : ℕ) (origin : Origin) → IsArray a → a.shape ≡ n ∷ []
        → Gives (shape_of_row a) s → Gives (iota_row s origin) i → Gives (select_row a (Some i ∷ []) origin) a }
{
    places_match_index_lists();
    shape_is_decided();
}

/// `U/U\B` is `B`, along any axis of an array that has one: what is expanded and then compressed by the same bits
/// is as before.
pub fn compress_undoes_expand()
    ensures { (u b e : ArrayValue) (axis : Axis) → IsArray u → IsArray b → 0 < rank_of b
        → Gives (expand_row u b axis) e → Gives (replicate_row u e axis) b }
{
    places_match_index_lists();
    shape_is_decided();
    changed_axis_has_place();
}
