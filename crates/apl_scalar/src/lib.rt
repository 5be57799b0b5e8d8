//! The scalar functions of elements and of arrays.
//!
//! They are those of the APL\360 User's Manual (1968), over whole numbers of 64 bits; the integer
//! cases are those of ISO 8485:1989. Only a function's exact result is tested against the range.
//!
//! Below it: `apl_array` for arrays, `apl_pool` for passes over them, and `apl_answer` for answers.
//! Begin with the tables of `specs/Scalar.antt`, and then `arrays.rt`.
#![tactic(auto)]

mod arithmetic;
mod arrays;
mod elements;
mod extend;
pub mod function_types;
mod held;
mod kernels;
mod laws;
mod loops;
mod operands;
mod passes;
mod rows;
mod runs;
mod truth;

pub use apl_answer::{OpFault, answer_is_each_outcome};
pub use apl_array::ScalarFunction as Prim;
pub use arrays::{dyadic, monadic};
pub use elements::{apply1, apply2, dyadic_elements, dyadic_result, identity};
pub use function_types::is_truth_valued;
pub use held::{Held, as_held};
pub use laws::{answers_are_in_range, answers_are_within_limits, truth_values_are_results};
pub use loops::HeldLoops;
pub use operands::Spaced;
pub use passes::work_of_pairs;
pub use rows::{write_items, write_row};
