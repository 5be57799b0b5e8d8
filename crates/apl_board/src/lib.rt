//! A board gives the numbers of pieces to several threads, each number once, and keeps the least place that was reported.
//!
//! Below it: `atomic_table`, whose words are the next number and the least place.
//! Begin with `board.rt`. What holds between any two steps is in `specs/Rule.antt`.
#![tactic(auto)]

mod board;
mod seat;
mod shares;
mod steps;
mod view;

pub use board::{Board, Closed};
pub use seat::{BoardSeat, SplitStop};
pub use view::MOST_SHARES;
