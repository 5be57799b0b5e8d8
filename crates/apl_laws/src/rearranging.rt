//! Reversal, rotation and transposition, each law the contract of a function that does nothing.
ghost use Rattle.apl_array.specs.declared.axis.Axis.{Axis};
ghost use Rattle.apl_array.specs.declared.axis.Origin.{Origin};
ghost use Rattle.apl_array.specs.Array.{ArrayValue, IsArray};
ghost use Rattle.apl_struct.specs.Rearranging.{reverse_row, rotate_row, transpose_row, transpose_by_row};
ghost use Rattle.apl_laws.specs.Giving.{Gives};
ghost use Rattle.apl_laws.specs.Turning.{opposite, AreReversedAxes};

use apl_array::{
    places_match_index_lists, replaced_index_has_place, reversed_index_is_lawful,
    transposed_index_has_place,
};

/// `⌽⌽B` is `B`: what is reversed twice along an axis is as before.
pub fn reverse_undoes_itself()
    ensures { (b c : ArrayValue) (axis : Axis) → IsArray b → Gives (reverse_row b axis) c → Gives (reverse_row c axis) b }
{
    places_match_index_lists();
    replaced_index_has_place();
}

/// `(-K)⌽K⌽B` is `B`: what is rotated along an axis is as before when it is rotated back. The numbers of `K` are one for
/// all lines, or one for each.
pub fn rotate_undoes_opposite()
    ensures { (k b c : ArrayValue) (axis : Axis) → IsArray b → Gives (rotate_row k b axis) c → Gives (rotate_row (opposite k) c axis) b }
{
    places_match_index_lists();
    replaced_index_has_place();
}

/// `⍉⍉B` is `B`: the axes in reverse order, twice, are as before.
pub fn transpose_undoes_itself()
    ensures { (b c : ArrayValue) → IsArray b → Gives (transpose_row b) c → Gives (transpose_row c) b }
{
    places_match_index_lists();
    reversed_index_is_lawful();
}

/// `(⌽⍳⍴⍴B)⍉B` is `⍉B`: to transpose is to name the axes in reverse order.
pub fn transpose_names_axes_in_reverse()
    ensures { (a b c : ArrayValue) (origin : Origin) → AreReversedAxes b origin a
        → Gives (transpose_row b) c → Gives (transpose_by_row a b origin) c }
{
    places_match_index_lists();
    transposed_index_has_place();
}
