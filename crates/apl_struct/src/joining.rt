//! Joined arrays.
ghost use Rattle.std.specs.Prelude.{◌-◌, MatchOption, [], ◌≡◌, ◌+◌, ◌*◌, ◌<◌, ◌≤◌, ◌==◌, ◌&&◌, ◌||◌, map, length, not, true, Ok, IfOk, slice_index, slice_set, insert, remove, drop};
ghost use Rattle.apl_array.specs.Shape.{count_of};
ghost use Rattle.apl_array.specs.declared.shape.TheConstants.{MOST_ELEMENTS};
ghost use Rattle.smallvec.specs.SmallVec.{small_vec_len};
ghost use Rattle.apl_pool.specs.declared.kernel.TheConstants.{MOST_PLACES};
ghost use Rattle.apl_array.specs.declared.array.Elem.TheVariants.{Chr};
ghost use Rattle.apl_array.specs.declared.array.Kind.TheVariants.{Number};
ghost use Rattle.apl_answer.specs.Arguments.{has_elements, is_number_kind, is_numbers, is_same_kind, is_same_shape};
ghost use Rattle.apl_answer.specs.Pointwise.{answer_of, IsAnswerOf, IsArrayAt};
ghost use Rattle.apl_answer.specs.Rows.{Answers};
ghost use Rattle.apl_struct.specs.Joined.{joined_at, IsJoint};
ghost use Rattle.apl_struct.specs.Joining.{joined_rank, can_join, slices_shape, joined_kind, catenated_element, catenate_row};

use crate::arguments::{is_without_axis, numbers_among};
use apl_answer::{ElementType, OpFault, fill_array};
use apl_array::{
    Array, Axis, Elements, Kind, MOST_AXES, Shape, changed_axis_has_place,
    places_match_index_lists, replaced_index_has_place,
};
use apl_pool::{Crew, Cut, Gate, Pool, Workers};
use apl_walk::{ByLines, Joined, Part};
use smallvec::SmallVec;
use std::alloc::{AllocError, Global};
use std::thread::Threads;

/// The lengths of what an argument is taken for, along axis `k` of `rank` axes, beside the other.
fn slices_lengths(
    alloc: Global,
    own: &Array,
    other: &Array,
    rank: usize,
    k: usize,
) -> Result<SmallVec<usize, MOST_AXES>, AllocError>
    requires rank { rank ≡ joined_rank own.now other.now }
    requires axis { k < rank }
    ensures lengths { IfOk result (λ lengths. lengths.items ≡ slices_shape rank k own.now other.now) }
    ensures axes { IfOk result (λ lengths. small_vec_len lengths ≡ rank) }
    ensures most { IfOk result (λ lengths. slice_index lengths.items k ≤ MOST_ELEMENTS) }
{
    if own.shape().rank() == rank {
        return SmallVec::from_slice(alloc, own.shape().lengths());
    }
    if own.shape().rank() + 1 == rank {
        let mut lengths = SmallVec::from_slice(alloc, own.shape().lengths())?;
        lengths.insert(k, 1)?;
        return Ok(lengths);
    }
    let mut lengths = SmallVec::from_slice(alloc, other.shape().lengths())?;
    lengths.as_mut_slice()[k] = 1;
    Ok(lengths)
}

/// The lengths of two arguments that are joined along axis `k` of `rank` axes, and how many indexes along it are the left one's. Other
/// axes that differ are refused (`Length`).
fn joint_of(
    alloc: Global,
    a: &Array,
    b: &Array,
    rank: usize,
    k: usize,
) -> Result<(SmallVec<usize, MOST_AXES>, usize), OpFault>
    requires rank { rank ≡ joined_rank a.now b.now }
    requires axis { k < rank }
    ensures { IsJoint (slices_shape rank k a.now b.now) (slices_shape rank k b.now a.now) k result }
{
    let mut lengths = slices_lengths(alloc, a, b, rank, k)?;
    let mut joined = slices_lengths(alloc, b, a, rank, k)?;
    let left = lengths.remove(k);
    if !is_without_axis(lengths.as_slice(), joined.as_slice(), k) {
        return Err(OpFault::Length);
    }
    joined.as_mut_slice()[k] += left;
    Ok((joined, left))
}

/// The kind of the argument that has elements, else the left one's.
fn joined_kind(a: &Array, b: &Array) -> Kind
    ensures { result ≡ joined_kind a.now b.now }
{
    if a.shape().count() > 0 || b.shape().count() == 0 {
        a.kind()
    } else {
        b.kind()
    }
}

/// Whether the kinds agree, unless an argument has no elements.
fn have_same_kind(a: &Array, b: &Array) -> bool
    ensures { result ≡ (not (has_elements a.now && has_elements b.now) || is_same_kind a.now.kind b.now.kind) }
{
    a.shape().count() == 0 || b.shape().count() == 0 || a.kind() == b.kind()
}

/// The larger rank, at least 1.
fn joined_rank(a: &Array, b: &Array) -> usize
    ensures rank { result ≡ joined_rank a.now b.now }
    ensures most { result ≤ MOST_AXES }
{
    a.shape().rank().max(b.shape().rank()).max(1)
}

/// Whether the ranks differ by at most 1, or an argument is a scalar.
fn can_join(a: &Array, b: &Array) -> bool
    ensures { result ≡ can_join a.now b.now }
{
    let left = a.shape().rank();
    let right = b.shape().rank();
    left == 0 || right == 0 || (left <= right + 1 && right <= left + 1)
}

/// How many elements of each argument there are in a line: in all that has one index list of the axes to the left.
#[derive(Clone, Copy)]
struct Seam {
    left: usize,
    right: usize,
    ghost some: { 0 < left + right },
    ghost most: { left + right ≤ MOST_PLACES },
}

/// The lines along axis `k` of a joined array, of whose indexes the first `left` are the left argument's.
fn seam_along(shape: &Shape, k: usize, left: usize) -> Seam
    requires axis { k < length shape.now }
    requires part { left ≤ slice_index shape.now k }
    ensures left { 0 < count_of shape.now → result.left ≡ left * count_of (drop (k + 1) shape.now) }
    ensures right { 0 < count_of shape.now → result.right ≡ (slice_index shape.now k - left) * count_of (drop (k + 1) shape.now) }
{
    replaced_index_has_place();
    if shape.count() == 0 {
        return Seam { left: 1, right: 0 };
    }
    let inner = shape.inner(k);
    let right = shape.axis(k) - left;
    Seam {
        left: left * inner,
        right: right * inner,
    }
}

/// The array of this shape whose lines have the elements of two arguments by turns.
fn join_elements<T: ElementType + Send + Sync, W: Crew>(
    workers: &W,
    shape: Shape,
    a: &Array,
    b: &Array,
    left: &[T],
    right: &[T],
    seam: Seam,
) -> Result<Array, OpFault>
    requires kind { joined_kind a.now b.now ≡ T.kind }
    requires left { a.now.ravel ≡ map T.elem_of left.now }
    requires right { b.now.ravel ≡ map T.elem_of right.now }
    ensures { IsArrayAt shape (joined_kind a.now b.now) (joined_at a.now b.now seam.left seam.right) result }
{
    let fill = T::fill();
    let kernel = ByLines::new(Joined {
        left: Part::new(left, fill, seam.left),
        right: Part::new(right, fill, seam.right),
        count: shape.count(),
    });
    fill_array(workers, shape, &kernel)
}

/// The same of numbers. Those of both arguments that are held in 32 bits, or as truth values, stay so.
fn join_numbers<W: Crew>(
    workers: &W,
    shape: Shape,
    a: &Array,
    b: &Array,
    seam: Seam,
) -> Result<Array, OpFault>
    requires kind { joined_kind a.now b.now ≡ Number }
    requires left { is_numbers a.now ≡ true }
    requires right { is_numbers b.now ≡ true }
    ensures { IsArrayAt shape (joined_kind a.now b.now) (joined_at a.now b.now seam.left seam.right) result }
{
    match (a.elements(), b.elements()) {
        (Elements::Narrow(left), Elements::Narrow(right)) => {
            join_elements(workers, shape, a, b, left, right, seam)
        }
        (Elements::Truths(left), Elements::Truths(right)) => {
            join_elements(workers, shape, a, b, left, right, seam)
        }
        _ => {
            let left = numbers_among(workers, a)?;
            let right = numbers_among(workers, b)?;
            join_elements(
                workers,
                shape,
                a,
                b,
                left.as_slice(),
                right.as_slice(),
                seam,
            )
        }
    }
}

/// The characters of an array in row order. It has no other elements.
fn characters_among(a: &Array) -> &[char]
    requires { (not (has_elements a.now) || not (is_number_kind a.now.kind)) ≡ true }
    ensures { a.now.ravel ≡ map Chr result.now }
{
    match a.elements() {
        Elements::Characters(characters) => characters,
        _ => &[],
    }
}

/// The two arguments joined along axis `k`, of whose indexes the first `left` are the left argument's.
fn join_along<W: Crew>(
    workers: &W,
    shape: Shape,
    a: &Array,
    b: &Array,
    k: usize,
    left: usize,
) -> Result<Array, OpFault>
    requires axis { k < joined_rank a.now b.now }
    requires ranks { can_join a.now b.now ≡ true }
    requires others { let rank = joined_rank a.now b.now in
        is_same_shape (remove (slices_shape rank k a.now b.now) k) (remove (slices_shape rank k b.now a.now) k) ≡ true }
    requires kinds { (not (has_elements a.now && has_elements b.now) || is_same_kind a.now.kind b.now.kind) ≡ true }
    requires left { left ≡ slice_index (slices_shape (joined_rank a.now b.now) k a.now b.now) k }
    requires shape { shape ≡ slice_set (slices_shape (joined_rank a.now b.now) k a.now b.now) k (left + slice_index (slices_shape (joined_rank a.now b.now) k b.now a.now) k) }
    ensures { IsAnswerOf (answer_of shape (λ index. Ok (catenated_element (joined_rank a.now b.now) k left a.now b.now index)) (joined_kind a.now b.now)) result }
{
    places_match_index_lists();
    changed_axis_has_place();
    // An array that was asked something is known to be lawful.
    let _kinds = (a.kind(), b.kind());
    let seam = seam_along(&shape, k, left);
    match joined_kind(a, b) {
        Kind::Number => join_numbers(workers, shape, a, b, seam),
        Kind::Character => {
            let (left, right) = (characters_among(a), characters_among(b));
            join_elements(workers, shape, a, b, left, right, seam)
        }
    }
}

/// `A,B`, catenate: the slices of `A` along an axis, then those of `B`.
/// Shape: that of the argument of higher rank, where the axis has both lengths. A scalar, and an argument of a rank lower by one, is one
/// slice.
/// Errors in order: INDEX of the axis, RANK, LENGTH of the other axes, DOMAIN of the kinds, LIMIT.
/// Source: APL\360 User's Manual, catenation of vectors; ISO 8485:1989, along an axis; the order of errors is this calculator's own.
pub fn catenate<R: Threads + Sync, C: Cut + Sync, G: Gate + Sync>(
    rt: &R,
    alloc: Global,
    pool: &Pool<C, G>,
    a: &Array,
    b: &Array,
    axis: Axis,
) -> Result<Array, OpFault>
    ensures { Answers (catenate_row a.now b.now axis) result }
{
    let workers = Workers { rt, alloc, pool };
    let rank = joined_rank(a, b);
    let Some(k) = axis.resolve(rank) else {
        return Err(OpFault::Index);
    };
    if !can_join(a, b) {
        return Err(OpFault::Rank);
    }
    let (lengths, left) = joint_of(alloc, a, b, rank, k)?;
    if !have_same_kind(a, b) {
        return Err(OpFault::Domain);
    }
    let shape = Shape::new(alloc, lengths.as_slice())?;
    join_along(&workers, shape, a, b, k, left)
}
