//! Where the lines of a walk begin, one after the other.
ghost use Rattle.std.specs.Prelude.{◌≡◌, ◌+◌, ◌*◌, ◌<◌, ◌≤◌, IfSome, length};
ghost use Rattle.apl_pool.specs.declared.kernel.TheConstants.{MOST_PLACES};
ghost use Rattle.apl_walk.specs.declared.map.TheConstants.{MOST_STEP};
ghost use Rattle.apl_walk.specs.declared.maps.TheConstants.{MOST_MAPS};
ghost use Rattle.apl_walk.specs.Maps.{first_extent, walked};

use crate::map::AxisMap;
use crate::maps::{Map, divided, start_at};

/// How many indexes the first of some axes has.
pub(crate) fn first_extent(maps: &[Map]) -> usize
    ensures { result ≡ first_extent maps.now }
{
    match maps {
        [] => 1,
        [first, ..] => first.extent(),
    }
}

/// Where a line begins: at which index of the first of the other axes, and what the axes after that one add.
#[derive(Clone, Copy)]
pub struct Start {
    index: usize,
    others: Option<usize>,
}

impl Start {
    ghost use Rattle.apl_walk.specs.Starts.{IsStart};

    /// The start of the line at an index list of these axes.
    #[inline(never)]
    pub fn new(maps: &[Map], line: usize) -> Start
        requires few { length maps.now ≤ MOST_MAPS }
        requires most { line ≤ MOST_PLACES }
        ensures { IsStart maps.now line result }
    {
        match maps {
            [] => Start {
                index: 0,
                others: Some(0),
            },
            [first, others @ ..] => {
                let (index, rest) = divided(line as u32, first.extent() as u32);
                Start {
                    index: index as usize,
                    others: start_at(others, rest as usize),
                }
            }
        }
    }

    /// The start of the next line. It takes a division only past the last index of the first axis.
    #[inline(always)]
    pub fn next(self, maps: &[Map], extent: usize, line: usize) -> Start
        requires few { length maps.now ≤ MOST_MAPS }
        requires extent { extent ≡ first_extent maps.now }
        requires most { line < MOST_PLACES }
        requires start { IsStart maps.now line self }
        ensures { IsStart maps.now (line + 1) result }
    {
        if self.index + 1 < extent {
            Start {
                index: self.index + 1,
                others: self.others,
            }
        } else {
            Start::new(maps, line + 1)
        }
    }

    /// What the index list of the line adds.
    #[inline(always)]
    pub fn place(self, maps: &[Map], line: usize) -> Option<usize>
        requires { IsStart maps.now line self }
        ensures value { result ≡ walked maps.now line }
        ensures most { IfSome result (λ place. place ≤ (MOST_MAPS + 1) * MOST_STEP) }
    {
        let others = self.others?;
        match maps {
            [] => Some(others),
            [first, ..] => Some(first.step(self.index)? + others),
        }
    }
}
