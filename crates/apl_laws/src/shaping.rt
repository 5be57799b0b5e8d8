//! Ravel and reshape, each law the contract of a function that does nothing.
ghost use Rattle.apl_array.specs.Array.{ArrayValue, IsArray};
ghost use Rattle.apl_struct.specs.Building.{shape_of_row, ravel_row, reshape_row};
ghost use Rattle.apl_laws.specs.Giving.{Gives};

use apl_array::{places_match_index_lists, shape_is_decided};

/// `(⍴B)⍴,B` is `B`: what is ravelled and reshaped to its own shape is as before.
pub fn reshape_undoes_ravel()
    ensures { (b r s : ArrayValue) → IsArray b → Gives (ravel_row b) r → Gives (shape_of_row b) s → Gives (reshape_row s r) b }
{
    places_match_index_lists();
    shape_is_decided();
}
