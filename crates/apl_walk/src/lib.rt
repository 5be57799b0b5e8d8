//! Results whose elements are an argument's, made line by line along the last axis.
//!
//! Below it: `apl_array` for arrays and shapes, and `apl_pool`, which fills results. `apl_divisor` finds the line that has a place, and
//! `apl_answer` makes the array of what was filled.
//! Begin with `specs/Maps.antt`, which says what a walk reaches, and then `map.rt`, `lined.rt` and `gathered.rt`.
#![tactic(auto)]

mod counted;
mod expanded;
mod fronts;
mod gathered;
mod lined;
mod listed;
mod map;
mod maps;
mod ones;
mod rotated_lines;
mod starts;
mod stretches;
mod turned;
mod walk;
mod window;

pub use counted::{CountedBits, count_blocks, few_ones};
pub use expanded::Expanded;
pub use fronts::element_or;
pub use gathered::{Gathered, gather};
pub use lined::{ByLines, Lined};
pub use listed::{Indexed, Listed, Numbered};
pub use map::{AxisMap, MOST_STEP};
pub use maps::{MOST_MAPS, Map, start_at};
pub use ones::Ones;
pub use rotated_lines::{RotatedColumns, RotatedRows, Rotations};
pub use stretches::{Cyclic, Joined, Part};
pub use turned::{Repeated, Reversed, Rotated};
pub use walk::Walk;
pub use window::Window;
