//! Summaries of numbers that are folded from the right by a scalar function, so that a fold can be cut anywhere.
//!
//! Below it: `apl_array` for the names of functions, `apl_pool` for its trait `Summary`, `apl_answer` for numbers as they are held, and
//! `apl_scalar` for the functions.
//! Begin with `signed_sum.rt`, the summary under `+` and `-`, and then `folding.rt`, which chooses a summary.
#![tactic(auto)]

mod answers;
mod bounded_product;
mod bounded_sum;
mod coefficients;
mod consecutive;
mod consecutive_sums;
mod constants;
mod extreme;
mod extremum;
mod folded_rows;
mod folding;
mod near_columns;
mod range;
mod running;
mod running_bits;
mod running_columns;
mod running_extreme;
mod running_sum;
mod scaled;
mod signed_sum;
mod small_coefficients;
mod small_constants;
mod two_valued;

pub use apl_array::ScalarFunction as Prim;
pub use apl_scalar::function_types;
pub use consecutive::Consecutive;
pub use extreme::Extreme;
pub use folded_rows::{FoldedRows, fold_rows};
pub use folding::has_summary;
pub use running::{PrefixState, Running};
pub use running_columns::append_columns_after;
pub use scaled::Scaled;
pub use signed_sum::SignedSum;
pub use two_valued::{TwoValued, TwoValuedFunction};
