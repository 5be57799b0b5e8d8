//! Scan along an axis: at each item the reduction of the items up to it.
//!
//! It is that of ISO 8485:1989, over whole numbers of 64 bits.
//!
//! Below it: `apl_summary`, whose summaries put most folds, `apl_reduce` for the reduction of a list, `apl_pool`, which fills
//! results, and `apl_answer` for the row.
//! Begin with `specs/Scanning.antt`, and then `scanning.rt` and `lines.rt`.
#![tactic(auto)]

mod bounded_summary;
mod chunks;
mod columns;
mod laws;
mod lines;
mod parities;
mod running;
mod running_sums;
mod scanning;
mod summarized;
mod truth_lines;
mod truth_scans;
mod truth_sums;

pub use laws::scanned_answers_are_within_limits;
pub use running_sums::consecutive_sums_decide;
pub use scanning::scan;
