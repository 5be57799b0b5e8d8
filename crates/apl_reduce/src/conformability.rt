//! How the arguments of an inner product meet.
ghost use Rattle.std.specs.Prelude.{◌≡◌, ℕ, ◌++◌, ◌<◌, ◌≤◌, true, false, length, MatchOption};
ghost use Rattle.apl_array.specs.Shape.{count_of, index_at};
ghost use Rattle.apl_pool.specs.declared.kernel.TheConstants.{MOST_PLACES};
ghost use Rattle.apl_reduce.specs.Items.{item_in};
ghost use Rattle.apl_reduce.specs.Layouts.{left_place, right_place, IsWithin};
ghost use Rattle.apl_reduce.specs.Products.{is_single, last_length, first_length, is_common, common_length, left_shape, right_shape, left_element, right_element};

use crate::layouts::{Layout, Strides};
use crate::shapes::columns_from;
use apl_array::{Array, Shape, joined_index_has_place, places_match_index_lists};

/// Whether an array serves as one element: a scalar, or a vector of one element.
fn is_single(a: &Array) -> bool
    ensures { result ≡ is_single a.now }
{
    a.shape().rank() <= 1 && a.shape().count() == 1
}

/// The length of the last axis of an array that has axes.
fn last_length(a: &Array) -> usize
    requires { is_single a.now ≡ false }
    ensures most { result ≤ MOST_PLACES }
    ensures length { result ≡ last_length a.now }
{
    a.shape().axis(a.shape().rank() - 1)
}

/// The length of the first axis of an array that has axes.
fn first_length(b: &Array) -> usize
    requires { is_single b.now ≡ false }
    ensures most { result ≤ MOST_PLACES }
    ensures length { result ≡ first_length b.now }
{
    b.shape().axis(0)
}

/// How many items are folded at each place, if the arguments agree on that.
pub(crate) fn common_length(a: &Array, b: &Array) -> Option<usize>
    ensures { MatchOption result (is_common a.now b.now ≡ false) (λ n. (is_common a.now b.now ≡ true) × (n ≡ common_length a.now b.now) × (n ≤ MOST_PLACES)) }
{
    match (is_single(a), is_single(b)) {
        (true, true) => Some(1),
        (true, false) => Some(first_length(b)),
        (false, true) => Some(last_length(a)),
        (false, false) => {
            let length = last_length(a);
            if length == first_length(b) {
                Some(length)
            } else {
                None
            }
        }
    }
}

/// The lengths of the axes that the left argument gives to the result.
pub(crate) fn left_lengths(a: &Array) -> &[usize]
    ensures { result.now ≡ left_shape a.now }
{
    let lengths = a.shape().lengths();
    if is_single(a) {
        return &lengths[..0];
    }
    &lengths[..lengths.len() - 1]
}

/// The lengths of the axes that the right argument gives to the result.
pub(crate) fn right_lengths(b: &Array) -> &[usize]
    ensures { result.now ≡ right_shape b.now }
{
    let lengths = b.shape().lengths();
    if is_single(b) {
        return &lengths[..0];
    }
    &lengths[1..]
}

/// The layout for two arguments that agree on the number of items, and for the shape of their result. The left one gives it `left_axes`
/// axes.
pub(crate) fn layout_of(
    a: &Array,
    b: &Array,
    items: usize,
    shape: &Shape,
    left_axes: usize,
) -> Layout
    requires common { is_common a.now b.now ≡ true }
    requires items { items ≡ common_length a.now b.now }
    requires most { items ≤ MOST_PLACES }
    requires shape { shape.now ≡ left_shape a.now ++ right_shape b.now }
    requires axes { left_axes ≡ length (left_shape a.now) }
    ensures count { result.count ≡ count_of shape.now }
    ensures items { result.items ≡ items }
    ensures within { IsWithin result (length a.now.ravel) (length b.now.ravel) }
    ensures left { (place k : ℕ) → place < count_of shape.now → item_in a.now.ravel (left_place result place k) ≡ left_element a.now (index_at shape.now place) k }
    ensures right { (place k : ℕ) → place < count_of shape.now → item_in b.now.ravel (right_place result place k) ≡ right_element a.now b.now (index_at shape.now place) k }
{
    places_match_index_lists();
    joined_index_has_place();
    // Arrays that were asked something are known to be lawful.
    let _kinds = (a.kind(), b.kind());
    let count = shape.count();
    let columns = columns_from(shape, left_axes);
    Layout {
        left: Strides::new(is_single(a), items, 1),
        right: Strides::new(is_single(b), 1, columns),
        items,
        columns,
        count,
    }
}
