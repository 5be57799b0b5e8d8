//! What a function of arrays answers: the array of the outcomes at all index lists, or the fault
//! at the least place that has one.
//!
//! Here are the words for it, the elements of either kind, and the array of what a pool fills.
//!
//! Below it: `apl_array` for arrays and shapes, and `apl_pool`, which fills kernels.
//! Begin with `specs/Rows.antt`, and then `fill.rt`.
#![tactic(auto)]

mod element;
mod fault;
mod fill;
mod laws;
mod numbers;
mod row_order;
mod uniform;

pub use element::{ElementType, Numeric, elements_are_numbers, number_at};
pub use fault::OpFault;
pub use fill::{array_from_fill, fill_array};
pub use laws::{answer_is_each_outcome, answer_is_in_range, answer_is_within_limits};
pub use numbers::{Numbers, numbers_of};
pub use row_order::{array_copy, array_of_elements};
pub use uniform::{constant_array, fill_uniform};
