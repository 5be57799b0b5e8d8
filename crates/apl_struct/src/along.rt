//! Results that differ from an argument along one axis, where a scalar serves as a vector.
ghost use Rattle.std.specs.Prelude.{◌≡◌, ℕ, ◌*◌, ◌<◌, ◌≤◌, if◌then◌else◌, IfOk, max, option_map, slice_index, slice_set};
ghost use Rattle.apl_pool.specs.declared.kernel.TheConstants.{MOST_PLACES};
ghost use Rattle.apl_answer.specs.Arguments.{rank_of, is_scalar};
ghost use Rattle.apl_answer.specs.Pointwise.{IsShapeOf};
ghost use Rattle.apl_struct.specs.Along.{taking_extent, taking_index, IsTakingOf, IsWalkAlong};
ghost use Rattle.apl_struct.specs.Compressing.{as_vector};
ghost use Rattle.apl_struct.specs.Gathering.{element_or_fill, along_axis_or_none};
ghost use Rattle.apl_struct.specs.Shaped.{IsArrayOrLimit};
ghost use Rattle.apl_walk.specs.declared.map.TheConstants.{MOST_STEP};
ghost use Rattle.apl_walk.specs.Maps.{extent_of, map_extent, map_step};
ghost use Rattle.apl_walk.specs.Walks.{maps_of};

use crate::building::empty;
use apl_answer::OpFault;
use apl_array::{
    Array, Shape, changed_axis_has_place, places_match_index_lists, replaced_index_has_place,
};
use apl_pool::Crew;
use apl_walk::{
    AxisMap, CountedBits, Expanded, Indexed, Map, Ones, Repeated, Reversed, Rotated, Walk, Window,
    gather,
};
use std::alloc::{AllocError, Global};

/// How many axes an array has where a scalar serves as a vector.
pub(crate) fn vector_rank(b: &Array) -> usize
    ensures rank { result ≡ max 1 (rank_of b.now) }
    ensures vector { (n : ℕ) → result ≡ rank_of (as_vector n b.now) }
{
    b.shape().rank().max(1)
}

/// The length of axis `k` where a scalar serves as a vector of `n`.
pub(crate) fn vector_length(b: &Array, k: usize, n: usize) -> usize
    requires axis { k < max 1 (rank_of b.now) }
    requires most { n ≤ MOST_PLACES }
    ensures length { result ≡ slice_index (as_vector n b.now).shape k }
    ensures most { result ≤ MOST_PLACES }
{
    if b.shape().rank() == 0 {
        n
    } else {
        b.shape().axis(k)
    }
}

/// The shape in which axis `k` has this length. It is refused where it passes a limit (`Limit`).
pub(crate) fn shape_with_axis(
    alloc: Global,
    b: &Array,
    k: usize,
    length: usize,
) -> Result<Shape, OpFault>
    requires { k < max 1 (rank_of b.now) }
    ensures { (n : ℕ) → IsShapeOf (slice_set (as_vector n b.now).shape k length) result }
{
    if b.shape().rank() == 0 {
        return Ok(Shape::new(alloc, &[length])?);
    }
    let mut lengths = b.shape().lengths().to_vec(alloc)?;
    lengths[k] = length;
    Ok(Shape::new(alloc, lengths.as_slice())?)
}

/// Which index of an argument's axis each index of a result's axis takes.
#[derive(Clone, Copy)]
pub(crate) enum Taking<'a> {
    /// The last one first.
    Reversed,
    /// The one that is so much further, counted round.
    Rotated(usize),
    /// Each one so many times.
    Repeated(usize),
    /// Those that are listed.
    Listed(&'a [u32]),
    /// Those at which truth values are true.
    Ones(CountedBits<'a>),
    /// The next one where a truth value is true, and a fill elsewhere.
    Expanded(CountedBits<'a>),
}

impl<'a> Taking<'a> {
    /// What they add to a place, where the axis has this length and its neighbours are `stride` apart.
    fn map(self, length: usize, stride: usize) -> Map<'a>
        requires taking { IsTakingOf length self }
        requires some { 0 < taking_extent length self }
        requires most { taking_extent length self ≤ MOST_PLACES }
        requires near { length * stride ≤ MOST_STEP }
        ensures extent { map_extent result ≡ taking_extent length self.entry }
        ensures step { (i : ℕ) → map_step result i ≡ option_map (λ j. j * stride) (taking_index length self.entry i) }
    {
        match self {
            Taking::Reversed => Map::Reversed(Reversed::new(length, stride)),
            Taking::Rotated(by) => Map::Rotated(Rotated {
                extent: length,
                by,
                stride,
            }),
            Taking::Repeated(times) => Map::Repeated(Repeated {
                axis_length: length,
                times,
                stride,
            }),
            Taking::Listed(indexes) => Map::Indexed(Indexed {
                indexes,
                axis_length: length,
                stride,
            }),
            Taking::Ones(counted) => Map::Ones(Ones { counted, stride }),
            Taking::Expanded(counted) => Map::Expanded(Expanded { counted, stride }),
        }
    }
}

/// How far apart neighbours along an axis are: those of a scalar are its only element.
fn stride_of(b: &Array, inner: usize) -> usize
    ensures { result ≡ (if is_scalar b.now then 0 else inner) }
{
    if b.shape().rank() == 0 { 0 } else { inner }
}

/// The walk along an axis whose neighbours are `inner` apart. The argument has `block` places for each of `outer` index lists of the
/// axes to the left.
fn walk_along<'a>(
    alloc: Global,
    outer: usize,
    block: usize,
    map: Map<'a>,
    inner: usize,
) -> Result<Walk<'a>, AllocError>
    requires outer { 0 < outer }
    requires inner { 0 < inner }
    requires some { 0 < map_extent map }
    requires most { outer * (map_extent map * inner) ≤ MOST_PLACES }
    requires near { outer * block ≤ MOST_STEP }
    ensures extent { IfOk result (λ walk. extent_of (maps_of walk) ≡ outer * (map_extent map.entry * inner)) }
    ensures place { IfOk result (λ walk. IsWalkAlong (maps_of walk) outer inner block (map_extent map.entry) (map_step map.entry)) }
{
    let walk = Walk::new(alloc).with(Map::Window(Window::whole(inner, 1)))?;
    let walk = walk.with(map)?;
    walk.with(Map::Window(Window::whole(outer, block)))
}

/// An argument of whose axis `k`, which has this length, as many indexes are taken. All those of a scalar are its only element. It is
/// refused where its shape passes a limit (`Limit`).
pub(crate) fn gather_along<W: Crew>(
    workers: &W,
    b: &Array,
    k: usize,
    length: usize,
    extent: usize,
    taking: Taking,
) -> Result<Array, OpFault>
    requires axis { k < max 1 (rank_of b.now) }
    requires taking { IsTakingOf length taking }
    requires length { length ≡ slice_index (as_vector length b.now).shape k }
    requires extent { extent ≡ taking_extent length taking }
    ensures { IsArrayOrLimit (slice_set (as_vector length b.now).shape k extent) b.now.kind (λ index. element_or_fill (as_vector length b.now) (along_axis_or_none k (taking_index length taking.entry) index)) result }
{
    places_match_index_lists();
    changed_axis_has_place();
    replaced_index_has_place();
    let shape = shape_with_axis(workers.alloc(), b, k, extent)?;
    if shape.count() == 0 {
        return empty(workers, shape, b);
    }
    let inner = shape.inner(k);
    let outer = shape.count() / (shape.axis(k) * inner);
    let block = b.shape().count() / outer;
    let map = taking.map(length, stride_of(b, inner));
    let walk = walk_along(workers.alloc(), outer, block, map, inner)?;
    gather(workers, shape, b, walk)
}
