//! An axis of any kind, and what several axes add.
ghost use Rattle.std.specs.Prelude.{◌≡◌, ◌*◌, ◌/◌, ◌%◌, ◌<◌, ◌≤◌, IfSome, length};
ghost use Rattle.apl_pool.specs.declared.kernel.TheConstants.{MOST_PLACES};
ghost use Rattle.apl_walk.specs.declared.map.TheConstants.{MOST_STEP};
ghost use Rattle.apl_walk.specs.Maps.{walked};
ghost use Rattle.apl_walk.specs.declared.maps.TheConstants.{MOST_MAPS};

use crate::expanded::Expanded;
use crate::listed::{Indexed, Listed};
use crate::map::AxisMap;
use crate::ones::Ones;
use crate::turned::{Repeated, Reversed, Rotated};
use crate::window::Window;

/// An axis of any kind.
#[derive(Clone, Copy)]
pub enum Map<'a> {
    Window(Window),
    Reversed(Reversed),
    Rotated(Rotated),
    Listed(Listed<'a>),
    Indexed(Indexed<'a>),
    Repeated(Repeated),
    Ones(Ones<'a>),
    Expanded(Expanded<'a>),
}

/// The same of an axis of any kind.
macro_rules! with_kind {
    ($any:expr, $map:ident => $answer:expr) => {
        match $any {
            $crate::maps::Map::Window($map) => $answer,
            $crate::maps::Map::Reversed($map) => $answer,
            $crate::maps::Map::Rotated($map) => $answer,
            $crate::maps::Map::Listed($map) => $answer,
            $crate::maps::Map::Indexed($map) => $answer,
            $crate::maps::Map::Repeated($map) => $answer,
            $crate::maps::Map::Ones($map) => $answer,
            $crate::maps::Map::Expanded($map) => $answer,
        }
    };
}

pub(crate) use with_kind;

impl AxisMap for Map<'_> {
    ghost use Rattle.apl_walk.specs.Maps.{map_extent, map_reach, map_step};

    ghost extent = { map_extent };

    ghost reach = { map_reach };

    ghost step = { map_step };

    #[inline(always)]
    fn extent(&self) -> usize {
        with_kind!(self, map => map.extent())
    }

    fn reach(&self) -> usize {
        with_kind!(self, map => map.reach())
    }

    #[inline(always)]
    fn step(&self, i: usize) -> Option<usize> {
        with_kind!(self, map => map.step(i))
    }

    fn write_line<T: Copy>(&self, line: &[T], from: usize, count: usize, fill: T, room: &mut [T]) {
        with_kind!(self, map => map.write_line(line, from, count, fill, room))
    }
}

/// The most axes of a walk.
pub const MOST_MAPS: usize = 16;

/// The index on an axis, and the place on the axes before it. Few places need a division.
#[inline(always)]
pub(crate) fn divided(place: u32, extent: u32) -> (u32, u32)
    requires { 0 < extent }
    ensures index { result.0 ≡ place % extent }
    ensures rest { result.1 ≡ place / extent }
{
    if place < extent {
        (place, 0)
    } else {
        (place % extent, place / extent)
    }
}

/// What the index list at a place of some axes adds, the last axis first.
#[inline(always)]
pub fn start_at(maps: &[Map], place: usize) -> Option<usize>
    requires few { length maps.now ≤ MOST_MAPS }
    requires most { place ≤ MOST_PLACES }
    ensures value { result ≡ walked maps.now place }
    ensures most { IfSome result (λ start. start ≤ MOST_MAPS * MOST_STEP) }
{
    match maps {
        [] => Some(0),
        [only] => {
            let (index, _) = divided(place as u32, only.extent() as u32);
            only.step(index as usize)
        }
        maps => start_of_several(maps, place),
    }
}

fn start_of_several(maps: &[Map], place: usize) -> Option<usize>
    requires few { length maps.now ≤ MOST_MAPS }
    requires most { place ≤ MOST_PLACES }
    ensures value { result ≡ walked maps.now place }
    ensures most { IfSome result (λ start. start ≤ MOST_MAPS * MOST_STEP) }
{
    let mut rest = place as u32;
    let mut total = 0;
    for map in maps {
        let (index, before) = divided(rest, map.extent() as u32);
        total += map.step(index as usize)?;
        rest = before;
    }
    Some(total)
}
