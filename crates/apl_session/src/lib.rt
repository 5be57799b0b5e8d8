//! Sessions: the lines of a source, answered one after the other.
//!
//! Below it: `apl_syntax` reads a line, `apl_eval` evaluates its statement, `apl_print` writes the answer, and `apl_pool` has the workers.
//! Begin with `answering.rt`, whose `run` carries the theorem, and then `specs/Run.antt` and `specs/Step.antt`.
#![tactic(auto)]

mod answering;
mod endings;
mod interpreter;
mod lines;
mod memory;
mod runs;
mod sessions;
mod sources;
mod streams;
mod trying;

pub use answering::{one_run, one_step, run, some_run, some_step};
pub use endings::ending;
pub use interpreter::{Next, RunFault};
pub use memory::MemorySource;
pub use runs::BLOCK;
pub use sessions::Session;
pub use sources::{Source, SourceFault};
pub use streams::In;
