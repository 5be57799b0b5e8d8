//! Take, drop and catenate, each law the contract of a function that does nothing.
ghost use Rattle.std.specs.Prelude.{◌≡◌, ℕ, ◌≤◌, pos, [], ◌∷◌};
ghost use Rattle.apl_array.specs.declared.axis.Axis.TheVariants.{Last};
ghost use Rattle.apl_array.specs.Array.{ArrayValue};
ghost use Rattle.apl_answer.specs.Arguments.{numbers_of};
ghost use Rattle.apl_struct.specs.Building.{shape_of_row};
ghost use Rattle.apl_struct.specs.Joining.{catenate_row};
ghost use Rattle.apl_struct.specs.Taking.{take_row, drop_row};
ghost use Rattle.apl_laws.specs.Giving.{Gives, IsVector};

use apl_array::{places_match_index_lists, shape_is_decided};

/// `(K↑B),K↓B` is `B`, a vector that has `K` elements at least: what is taken and what is left make the whole.
pub fn taken_and_left_make_whole()
    ensures { (k b t d : ArrayValue) (n m : ℕ) → IsVector n b → numbers_of k ≡ pos m ∷ [] → m ≤ n
        → Gives (take_row k b) t → Gives (drop_row k b) d → Gives (catenate_row t d Last) b }
{
    places_match_index_lists();
    shape_is_decided();
}

/// `(⍴A)↑A,B` is `A` and `(⍴A)↓A,B` is `B`, vectors of one kind: what is joined can be taken apart.
pub fn joined_can_be_taken_apart()
    ensures first { (a b c s : ArrayValue) (m n : ℕ) → IsVector m a → IsVector n b → a.kind ≡ b.kind
        → Gives (catenate_row a b Last) c → Gives (shape_of_row a) s → Gives (take_row s c) a }
    ensures second { (a b c s : ArrayValue) (m n : ℕ) → IsVector m a → IsVector n b → a.kind ≡ b.kind
        → Gives (catenate_row a b Last) c → Gives (shape_of_row a) s → Gives (drop_row s c) b }
{
    places_match_index_lists();
    shape_is_decided();
}
