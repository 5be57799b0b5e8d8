//! What the calculator writes: printed values, reports, and the sinks that take them.
//!
//! Below it: `apl_array` for arrays, `itoa` for the digits of numbers, and `arrayvec` for short reports.
//! Begin with `specs/Shown.antt`, which says how an array is printed, and then `values.rt`.
#![tactic(auto)]

mod countdowns;
mod memory;
mod replies;
mod reporting;
mod reports;
mod rows;
mod sinks;
mod streams;
mod values;

pub use countdowns::Countdown;
pub use memory::MemorySink;
pub use replies::Reply;
pub use reporting::{reply, report};
pub use reports::Report;
pub use sinks::{Sink, SinkFault, put_all};
pub use streams::Out;
pub use values::{LEAST_WIDTH, MOST_WIDTH, numerals, print, shown_always, shown_once};
