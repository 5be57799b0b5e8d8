//! The axes of a result.
ghost use Rattle.std.specs.Prelude.{◌≡◌, ℕ, ◌+◌, ◌*◌, ◌%◌, ◌<◌, ◌≤◌, vec_len, Some, IfOk, IfSome};
ghost use Rattle.apl_pool.specs.declared.kernel.TheConstants.{MOST_PLACES};
ghost use Rattle.apl_walk.specs.declared.maps.TheConstants.{MOST_MAPS};
ghost use Rattle.apl_walk.specs.Maps.{map_extent, map_step, extent_of, maps_step};

use crate::maps::{MOST_MAPS, Map};
use crate::window::Window;
use std::alloc::{AllocError, Global};

/// The axes of a result, of which neighbours are joined where they can be.
#[derive(Drop)]
pub struct Walk<'a> {
    /// All but the first, the last axis first.
    pub(crate) inner: Vec<Map<'a>>,
    /// The first axis.
    pub(crate) first: Map<'a>,
    ghost few: { vec_len inner ≤ MOST_MAPS },
}

/// Two neighbouring axes as one axis, where a step along the first is one past the end of the second.
fn joined<'a>(outer: &Map<'a>, inner: &Map<'a>) -> Option<Map<'a>>
    requires { map_extent outer.now * map_extent inner.now ≤ MOST_PLACES }
    ensures extent { IfSome result (λ m. map_extent m ≡ map_extent outer.now * map_extent inner.now) }
    ensures step { IfSome result (λ m. (place : ℕ) → map_step m (place % map_extent m) ≡ maps_step outer.now inner.now place) }
{
    match (outer, inner) {
        (_, Map::Window(inner)) if inner.extent == 1 && inner.is_whole() => Some(*outer),
        (Map::Window(outer), Map::Window(inner)) => Some(Map::Window(outer.joined(inner)?)),
        _ => None,
    }
}

impl<'a> Walk<'a> {
    ghost use Rattle.apl_walk.specs.Maps.{walked, walked_with};
    ghost use Rattle.apl_walk.specs.Walks.{maps_of};

    /// The walk of no axes.
    pub fn new(alloc: Global) -> Walk<'a>
        ensures extent { extent_of (maps_of result) ≡ 1 }
        ensures place { (place : ℕ) → walked (maps_of result) place ≡ Some 0 }
        ensures none { vec_len result.inner ≡ 0 }
    {
        Walk {
            inner: Vec::new(alloc),
            first: Map::Window(Window::whole(1, 1)),
        }
    }

    /// The walk with an axis before the others.
    pub fn with(self, map: Map<'a>) -> Result<Walk<'a>, AllocError>
        requires few { vec_len self.inner < MOST_MAPS }
        requires extent { map_extent map * extent_of (maps_of self) ≤ MOST_PLACES }
        ensures extent { IfOk result (λ walk. extent_of (maps_of walk) ≡ map_extent map.entry * extent_of (maps_of self.entry)) }
        ensures place { IfOk result (λ walk. (place : ℕ) → walked (maps_of walk) place ≡ walked_with (maps_of self.entry) map.entry place) }
        ensures one { IfOk result (λ walk. vec_len walk.inner ≤ vec_len self.entry.inner + 1) }
    {
        let Walk { mut inner, first } = self;
        if let Some(first) = joined(&map, &first) {
            return Ok(Walk { inner, first });
        }
        inner.push(first)?;
        Ok(Walk { inner, first: map })
    }

    /// The axes, the last one first.
    pub fn into_maps(self) -> Result<Vec<Map<'a>>, AllocError>
        ensures maps { IfOk result (λ maps. maps.items ≡ maps_of self.entry) }
        ensures few { IfOk result (λ maps. vec_len maps ≤ MOST_MAPS + 1) }
    {
        let Walk { mut inner, first } = self;
        inner.push(first)?;
        Ok(inner)
    }
}
