//! The laws of APL that tie the structural functions together.
//!
//! Below it: `apl_struct` and `apl_search`, with `apl_answer`, `apl_pool` and `apl_array`, for their definitions.
//! Begin with `parts.rt`. Each law is the contract of a function that does nothing.
#![tactic(auto)]

mod choosing;
mod ordering;
mod parts;
mod rearranging;
mod shaping;

pub use choosing::{all_indexes_choose_whole, compress_undoes_expand};
pub use ordering::{grade_orders, grade_permutes_indexes};
pub use parts::{joined_can_be_taken_apart, taken_and_left_make_whole};
pub use rearranging::{
    reverse_undoes_itself, rotate_undoes_opposite, transpose_names_axes_in_reverse,
    transpose_undoes_itself,
};
pub use shaping::reshape_undoes_ravel;
