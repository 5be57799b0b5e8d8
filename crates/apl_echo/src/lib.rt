//! What is printed reads back: printing and reading agree on arrays of numbers, and on texts of one line.
//!
//! Below it: `apl_print` and `apl_syntax`, with `apl_array`, `apl_tokens` and `apl_grammar`, for their definitions.
//! Begin with `laws.rt`.
#![tactic(auto)]

mod laws;

pub use laws::{printed_lines_read_back, printed_numbers_read_back, printed_text_reads_back};
