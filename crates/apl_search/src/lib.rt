//! Elements found in an array, and the order of a vector's numbers.
//!
//! The functions are those of the APL\360 User's Manual (1968).
//!
//! Below it: `apl_answer` for answers, `apl_pool`, which fills them, and `apl_array` for arrays.
//! Begin with `specs/Searching.antt` and `searching.rt`. The order is in `specs/Ordering.antt` and `ordering.rt`.
#![tactic(auto)]

mod finding;
mod keys;
mod laws;
mod ordering;
mod replies;
mod searching;
mod shares;
mod sorting;
mod table;

pub use laws::{one_grade, search_answers_are_within_limits};
pub use ordering::{grade_down, grade_up};
pub use searching::{index_of, member};
