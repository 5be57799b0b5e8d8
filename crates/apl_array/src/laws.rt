//! What is true of all arrays, their places and their numbers, each law the contract of a function
//! that does nothing.
ghost use Rattle.std.specs.Prelude.{◌≡◌, ◌↔◌, ◌<◌, ◌+◌, ◌*◌, ◌/◌, ◌%◌, ℕ, ℤ, List, ◌++◌, true, length, reverse, take, drop, slice_index, slice_set, insert, remove, FitsSigned};
ghost use Rattle.std.specs.List.{range_with_len};
ghost use Rattle.std.specs.Int.{w64};
ghost use Rattle.apl_array.specs.Range.{IsInRange, in_range};
ghost use Rattle.apl_array.specs.Shape.{IsShape, is_shape, IsIndexOf, count_of, place_of, index_at, place_around, line_place, replaced_place, changed_place, changed_index};
ghost use Rattle.apl_array.specs.Transposition.{strides, inner_product, source_index, transposed_shape, source_strides, AreAxesBelow, NameEachAxis, AreAxesInto};
ghost use Rattle.apl_array.specs.Array.{ArrayValue, IsArray, HaveSameElements};

/// An array is determined by its shape, its kind and the element at each index list.
pub fn elements_determine_array()
    ensures { (a b : ArrayValue) → IsArray a → IsArray b → HaveSameElements a b → a ≡ b }
{}

/// The places and the index lists of a shape correspond one to one. Each index list has a place
/// below the count, each such place has an index list, and each gives the other back.
pub fn places_match_index_lists()
    ensures below { (shape index : List ℕ) → IsIndexOf shape index → place_of shape index < count_of shape }
    ensures same_index { (shape index : List ℕ) → IsIndexOf shape index → index_at shape (place_of shape index) ≡ index }
    ensures lawful { (shape : List ℕ) (place : ℕ) → place < count_of shape → IsIndexOf shape (index_at shape place) }
    ensures same_place { (shape : List ℕ) (place : ℕ) → place < count_of shape → place_of shape (index_at shape place) ≡ place }
{}

/// An index is put in at an axis of an index list of the shape without that axis. The place is
/// counted in steps of the axis, and leaving the index out gives the list back.
pub fn inserted_index_has_place()
    ensures count { (shape : List ℕ) (k : ℕ) → k < length shape
        → count_of (remove shape k) ≡ count_of (take k shape) * count_of (drop (k + 1) shape) }
    ensures lawful { (shape index : List ℕ) (k i : ℕ) → k < length shape → IsIndexOf (remove shape k) index → i < slice_index shape k
        → IsIndexOf shape (insert index k i) }
    ensures without { (shape index : List ℕ) (k : ℕ) → k < length shape → IsIndexOf shape index
        → IsIndexOf (remove shape k) (remove index k) }
    ensures place { (shape : List ℕ) (k place i : ℕ) → k < length shape → place < count_of (remove shape k)
        → place_of shape (insert (index_at (remove shape k) place) k i) ≡ line_place shape k place i }
{}

/// An index takes the place of another along an axis.
pub fn replaced_index_has_place()
    ensures count { (shape : List ℕ) (k : ℕ) → k < length shape
        → count_of shape ≡ count_of (take k shape) * slice_index shape k * count_of (drop (k + 1) shape) }
    ensures lawful { (shape index : List ℕ) (k i : ℕ) → IsIndexOf shape index → i < slice_index shape k → IsIndexOf shape (slice_set index k i) }
    ensures place { (shape : List ℕ) (k place i : ℕ) → k < length shape → place < count_of shape
        → place_of shape (slice_set (index_at shape place) k i) ≡ replaced_place shape k place i }
{}

/// Index lists of two shapes that are joined to one of the joined shape, as the axes of an outer
/// product are.
pub fn joined_index_has_place()
    ensures count { (a b : List ℕ) → count_of (a ++ b) ≡ count_of a * count_of b }
    ensures lawful { (a b i j : List ℕ) → IsIndexOf a i → IsIndexOf b j → IsIndexOf (a ++ b) (i ++ j) }
    ensures front { (a b index : List ℕ) → IsIndexOf (a ++ b) index → IsIndexOf a (take (length a) index) }
    ensures back { (a b index : List ℕ) → IsIndexOf (a ++ b) index → IsIndexOf b (drop (length a) index) }
    ensures place { (a b i j : List ℕ) → length i ≡ length a → place_of (a ++ b) (i ++ j) ≡ place_of a i * count_of b + place_of b j }
    ensures index { (a b : List ℕ) (place : ℕ) → place < count_of a * count_of b
        → index_at (a ++ b) place ≡ index_at a (place / count_of b) ++ index_at b (place % count_of b) }
{}

/// Index lists of the axes in reverse order.
pub fn reversed_index_is_lawful()
    ensures count { (shape : List ℕ) → count_of (reverse shape) ≡ count_of shape }
    ensures lawful { (shape index : List ℕ) → IsIndexOf (reverse shape) index → IsIndexOf shape (reverse index) }
{}

/// The parts of an index list on both sides of an axis.
pub fn split_index_has_place()
    ensures place { (shape index : List ℕ) (k : ℕ) → k < length shape → length index ≡ length shape
        → place_of shape index ≡ place_around shape k index }
    ensures outer { (shape : List ℕ) (k place : ℕ) → k < length shape
        → take k (index_at shape place) ≡ index_at (take k shape) (place / (slice_index shape k * count_of (drop (k + 1) shape))) }
    ensures index { (shape : List ℕ) (k place : ℕ) → k < length shape
        → slice_index (index_at shape place) k ≡ place / count_of (drop (k + 1) shape) % slice_index shape k }
    ensures inner { (shape : List ℕ) (k place : ℕ) → place < count_of shape
        → drop (k + 1) (index_at shape place) ≡ index_at (drop (k + 1) shape) (place % count_of (drop (k + 1) shape)) }
{}

/// Index lists of a shape in which an axis has another length.
pub fn changed_axis_has_place()
    ensures count { (shape : List ℕ) (k m : ℕ) → k < length shape
        → count_of (slice_set shape k m) ≡ count_of (take k shape) * m * count_of (drop (k + 1) shape) }
    ensures index { (shape : List ℕ) (k m place : ℕ) → k < length shape
        → slice_index (index_at (slice_set shape k m) place) k ≡ place / count_of (drop (k + 1) shape) % m }
    ensures lawful { (shape index : List ℕ) (k m i : ℕ) → k < length shape → IsIndexOf (slice_set shape k m) index → i < slice_index shape k
        → IsIndexOf shape (slice_set index k i) }
    ensures place { (shape : List ℕ) (k m place i : ℕ) → k < length shape → place < count_of (slice_set shape k m)
        → place_of shape (changed_index shape k m place i) ≡ changed_place shape k m place i }
{}

/// The place of an index list, counted in strides, and that of one in reverse order.
pub fn place_is_sum_of_strides()
    ensures place { (shape index : List ℕ) → place_of shape index ≡ inner_product index (strides shape) }
    ensures reversed { (shape index : List ℕ) → length index ≡ length shape
        → place_of shape (reverse index) ≡ inner_product index (reverse (strides shape)) }
{}

/// Index lists of a source whose axes become axes of another shape. They are lawful, and their places
/// are counted with one stride for each axis of that shape. No axis of a transposition is too long,
/// and it has a lawful shape if each of its axes is named. The axes in reverse order reverse the
/// index list.
pub fn transposed_index_has_place()
    ensures lawful { (source axes result index : List ℕ) → AreAxesInto source axes result → IsIndexOf result index
        → IsIndexOf source (source_index axes index) }
    ensures place { (source axes index : List ℕ) → AreAxesBelow (length index) axes
        → place_of source (source_index axes index) ≡ inner_product index (source_strides (length index) axes source) }
    ensures fits { (source axes : List ℕ) (rank : ℕ) → length axes ≡ length source → AreAxesBelow rank axes
        → AreAxesInto source axes (transposed_shape rank axes source) }
    ensures shape { (source axes : List ℕ) (rank : ℕ) → IsShape source → length axes ≡ length source → AreAxesBelow rank axes
        → NameEachAxis rank axes → IsShape (transposed_shape rank axes source) }
    ensures reversed { (index : List ℕ) → source_index (reverse (range_with_len 0 (length index))) index ≡ reverse index }
{}

/// `is_shape` decides what is a shape.
pub fn shape_is_decided()
    ensures { (lengths : List ℕ) → (is_shape lengths ≡ true) ↔ IsShape lengths }
{}

/// `in_range` decides what is in the range, and the range is what 64 bits hold.
pub fn range_is_decided()
    ensures decided { (z : ℤ) → (in_range z ≡ true) ↔ IsInRange z }
    ensures bits { (z : ℤ) → IsInRange z ↔ FitsSigned w64 z }
{}
