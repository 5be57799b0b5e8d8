//! Work over the places of an array, cut into pieces and shared out to workers.
//!
//! A pass over all places answers the value at each, or the least place that has a fault. So would one worker who
//! goes from place 0 upwards: neither the number of workers nor the cutting changes the answer.
//!
//! Below it: `apl_board` and `apl_yard` give pieces to workers, and in `apl_rooms` they write the values.
//! The slots of `core` and the lists of `std_alloc` are the room for these.
//! Begin with `kernel.rt`, and then `pool.rt`.
#![tactic(auto)]

mod complete;
mod crew;
mod cut;
mod ends;
mod folds;
mod gate;
mod kept;
mod kernel;
mod pass;
mod pieces;
mod pool;
mod rows;
mod schedule;
mod shares;
mod summary;
mod tasks;
mod turns;
mod work;
mod workers;

pub use cut::{Cut, Every, Thrifty, USUAL_PIECE};
pub use gate::{Gate, Open};
pub use kept::{KeptLists, Reused};
pub use kernel::{Fault, FirstFault, Kernel, MOST_PLACES, Stop};
pub use pool::{MOST_WORKERS, Pool};
pub use rows::{RowSummaries, Rows};
pub use schedule::Schedule;
pub use summary::{LONGEST_RUN, Summary};
pub use turns::write_each;
pub use work::write_values;
pub use workers::{Crew, Workers, fill};
