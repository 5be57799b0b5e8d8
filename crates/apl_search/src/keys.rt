//! The numbers by which elements of either kind are found, however they are held.
ghost use Rattle.std.specs.Prelude.{◌≡◌, ◌<◌, length, pos, slice_index_or};
ghost use Rattle.apl_search.specs.Keys.{keys_in};

use crate::sorting::Keyed;
use apl_array::{Elements, with_elements};

/// How many elements there are.
pub(crate) fn count_in(elements: Elements<'_>) -> usize
    ensures { result ≡ length (keys_in elements.entry) }
{
    with_elements!(elements, list => list.len())
}

/// The number by which the element at a place is found.
#[inline(always)]
pub(crate) fn key_at(elements: Elements<'_>, place: usize) -> i64
    requires { place < length (keys_in elements) }
    ensures { result ≡ slice_index_or (keys_in elements.entry) place (pos 0) }
{
    with_elements!(elements, list => list[place].key())
}
