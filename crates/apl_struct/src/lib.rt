//! The structural functions: those that build, join, move, select and index arrays.
//!
//! They are those of the APL\360 User's Manual (1968).
//!
//! Below it: `apl_walk`, which makes most results, `apl_answer` for the rows and the answers, `apl_array` for arrays, and `apl_pool` for
//! passes over them. `smallvec` has the lengths of a shape, and `apl_divisor` divides places.
//! Begin with `specs/Rearranging.antt`, and then `rotating.rt` and `along.rt`. The other functions are made likewise.
#![tactic(auto)]

mod along;
mod arguments;
mod bits;
mod building;
mod chosen;
mod compressing;
mod indexing;
mod joining;
mod laws;
mod permuting;
mod replacing;
mod rotating;
mod selecting;
mod taking;

pub use arguments::axis_number;
pub use building::{iota, ravel, reshape, shape_of};
pub use compressing::{compress, expand};
pub use indexing::select;
pub use joining::catenate;
pub use laws::structural_answers_are_within_limits;
pub use permuting::{transpose, transpose_by};
pub use replacing::replace;
pub use rotating::{reverse, rotate};
pub use taking::{drop, take};
