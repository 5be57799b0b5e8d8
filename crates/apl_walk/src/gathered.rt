//! Results whose elements are an argument's, at the places that a walk reaches.
ghost use Rattle.std.specs.Prelude.{◌≡◌, ◌+◌, ◌*◌, ◌/◌, ◌%◌, ◌<◌, ◌≤◌, length, ◌∷◌, map};
ghost use Rattle.apl_pool.specs.declared.kernel.TheConstants.{MOST_PLACES};
ghost use Rattle.apl_answer.specs.Arguments.{fill_of};
ghost use Rattle.apl_array.specs.Shape.{count_of};
ghost use Rattle.apl_answer.specs.Pointwise.{IsArrayAt};
ghost use Rattle.apl_walk.specs.declared.map.TheConstants.{MOST_STEP};
ghost use Rattle.apl_walk.specs.declared.maps.TheConstants.{MOST_MAPS};
ghost use Rattle.apl_walk.specs.Gathered.{value_or, filled_at};
ghost use Rattle.apl_walk.specs.Maps.{extent_of, first_extent, walked};
ghost use Rattle.apl_walk.specs.Starts.{IsStart};
ghost use Rattle.apl_walk.specs.Steps.{and_step};
ghost use Rattle.apl_walk.specs.Walks.{maps_of};

use crate::fronts::{element_or, write_same};
use crate::lined::{ByLines, Lined};
use crate::map::AxisMap;
use crate::maps::{MOST_MAPS, Map, start_at, with_kind};
use crate::starts::{Start, first_extent};
use crate::walk::Walk;
use apl_answer::{ElementType, OpFault, fill_array};
use apl_array::{Array, Shape, with_elements};
use apl_pool::{Crew, write_each};

/// How many indexes of a line are written before those of the next one, where neighbours in it are read far apart and those below them nearby.
const TILE: usize = 256;

/// A walk over an argument, of whose last axis the map is known by its type.
#[derive(Drop)]
pub struct Gathered<'a, T, M: AxisMap> {
    pub elements: &'a [T],
    pub fill: T,
    /// The other axes, the last one first.
    pub outer: &'a [Map<'a>],
    /// How many indexes the first of these has.
    pub first: usize,
    pub last: M,
    /// The most that an index of the last axis adds.
    pub reach: usize,
    pub count: usize,
    ghost few: { length outer.now ≤ MOST_MAPS },
    ghost first_is: { first ≡ first_extent outer.now },
    ghost reach_is: { reach ≡ M.reach last },
    ghost reach_most: { reach ≤ MOST_STEP },
    ghost extent_most: { M.extent last ≤ MOST_PLACES },
    ghost all: { count ≡ extent_of outer.now * M.extent last },
    ghost most: { count ≤ MOST_PLACES },
}

impl<'a, T: ElementType, M: AxisMap> Gathered<'a, T, M> {
    /// The walk along these axes. The others have `lines` index lists.
    pub fn new(elements: &'a [T], outer: &'a [Map<'a>], lines: usize, last: M) -> Gathered<'a, T, M>
        requires few { length outer.now ≤ MOST_MAPS }
        requires lines { lines ≡ extent_of outer.now }
        requires most { lines * M.extent last ≤ MOST_PLACES }
        ensures count { result.count ≡ extent_of outer.now * M.extent last }
        ensures elements { result.elements.now ≡ elements.now }
        ensures outer { result.outer.now ≡ outer.now }
        ensures last { result.last ≡ last }
        ensures fill { T.elem_of result.fill ≡ fill_of T.kind }
    {
        Gathered {
            elements,
            fill: T::fill(),
            outer,
            first: first_extent(outer),
            last,
            reach: last.reach(),
            count: lines * last.extent(),
        }
    }
}

impl<T: ElementType, M: AxisMap> Lined for Gathered<'_, T, M> {
    type Out = T;

    type Start = Start;

    ghost place_count = { λ g. g.count };

    ghost extent = { λ g. M.extent g.last };

    ghost value = { λ g line index. value_or g.elements.now g.fill (and_step (M.step g.last index) (walked g.outer.now line)) };

    ghost is_start = { λ g line start. IsStart g.outer.now line start };

    fn count(&self) -> usize {
        self.count
    }

    fn extent(&self) -> usize {
        self.last.extent()
    }

    fn tile(&self) -> usize {
        if self.last.is_spread() {
            TILE
        } else {
            self.last.extent()
        }
    }

    #[inline(always)]
    fn at(&self, line: usize, index: usize) -> T {
        match (start_at(self.outer, line), self.last.step(index)) {
            (Some(start), Some(step)) => element_or(self.elements, step + start, self.fill),
            _ => self.fill,
        }
    }

    #[inline(always)]
    fn start_of(&self, line: usize) -> Start {
        Start::new(self.outer, line)
    }

    #[inline(always)]
    fn next_start(&self, line: usize, start: Start) -> Start {
        start.next(self.outer, self.first, line)
    }

    #[inline(always)]
    fn write(&self, line: usize, start: Start, from: usize, count: usize, room: &mut [T]) {
        let Some(place) = start.place(self.outer, line) else {
            return write_same(self.fill, count, room);
        };
        if place + self.reach < self.elements.len() {
            let rest = &self.elements[place..];
            return self.last.write_line(rest, from, count, self.fill, room);
        }
        let element = |k: usize| -> T
            requires line { line ≤ MOST_PLACES }
            requires index { from + k < M.extent self.now.last }
            requires place { line * M.extent self.now.last + (from + k) < self.now.count }
            ensures { result ≡ value_or self.entry.now.elements.now self.entry.now.fill (and_step (M.step self.entry.now.last (from + k)) (walked self.entry.now.outer.now line)) }
        { self.at(line, from + k) };
        write_each(count, element, room);
    }
}

fn gather_elements<T: ElementType + Send + Sync, M: AxisMap + Sync + Drop, W: Crew>(
    workers: &W,
    shape: Shape,
    b: &Array,
    elements: &[T],
    outer: &[Map],
    last: M,
) -> Result<Array, OpFault>
    requires few { length outer.now ≤ MOST_MAPS }
    requires extent { extent_of outer.now * M.extent last ≡ count_of shape }
    requires kind { b.now.kind ≡ T.kind }
    requires ravel { b.now.ravel ≡ map T.elem_of elements.now }
    ensures { IsArrayAt shape b.now.kind (λ place. filled_at b.now (and_step (M.step last (place % M.extent last)) (walked outer.now (place / M.extent last)))) result }
{
    let lines = shape.count() / last.extent();
    let kernel = ByLines::new(Gathered::new(elements, outer, lines, last));
    fill_array(workers, shape, &kernel)
}

/// The array of this shape with an argument's elements at the places that these axes reach.
fn gather_maps<T: ElementType + Send + Sync, W: Crew>(
    workers: &W,
    shape: Shape,
    b: &Array,
    elements: &[T],
    outer: &[Map],
    last: &Map,
) -> Result<Array, OpFault>
    requires few { length outer.now ≤ MOST_MAPS }
    requires extent { extent_of (last.now ∷ outer.now) ≡ count_of shape }
    requires kind { b.now.kind ≡ T.kind }
    requires ravel { b.now.ravel ≡ map T.elem_of elements.now }
    ensures { IsArrayAt shape b.now.kind (λ place. filled_at b.now (walked (last.now ∷ outer.now) place)) result }
{
    with_kind!(last, last => gather_elements(workers, shape, b, elements, outer, *last))
}

/// The array of this shape with an argument's elements at the places that a walk reaches, and the
/// fill where it reaches none.
pub fn gather<W: Crew>(workers: &W, shape: Shape, b: &Array, walk: Walk) -> Result<Array, OpFault>
    requires extent { extent_of (maps_of walk) ≡ count_of shape }
    ensures { IsArrayAt shape b.now.kind (λ place. filled_at b.now (walked (maps_of walk.entry) place)) result }
{
    let maps = walk.into_maps()?;
    let [last, outer @ ..] = maps.as_slice() else {
        unreachable!()
    };
    with_elements!(b.elements(), elements => gather_maps(workers, shape, b, elements, outer, last))
}
