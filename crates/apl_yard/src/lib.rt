//! Deques of pieces. The owner of a deque pushes pieces and takes them back, the first one first. Thieves take them at the same
//! end, each perhaps in a thread of its own. Each piece is taken once at most.
//!
//! Memory is taken where a deque is made, and nowhere else. No call waits for another.
//!
//! Below it: `crossbeam_deque`, which has the deque itself.
//! Begin with `yard.rt`. What holds between any two steps is in `specs/Rule.antt`.
#![tactic(auto)]

mod rule;
mod yard;

pub use yard::{Hand, Taken, Thief, Yard};
