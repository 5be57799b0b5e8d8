//! The options of the program's command line.
//!
//! Below it: `clap`, which reads the words, and `apl_pool` for the most workers and for the schedules.
//! Begin with `options.rt`.
#![tactic(auto)]

mod command_line;
mod options;

pub use command_line::{refusal, settings};
pub use options::{LONGEST_PIECE, Settings};
