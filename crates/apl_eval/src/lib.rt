//! Workspaces, and statements evaluated in them.
//!
//! Below it: `apl_grammar` for programs, the crates of functions of arrays with their pool, and `apl_print` for texts.
//! Begin with `specs/Meaning.antt`, which says what a statement means, and then `statement.rt`.
#![tactic(auto)]

mod functions;
mod laws;
mod names;
mod spent;
mod stack;
mod statement;
mod workspace;

pub use laws::{lawful_stays, reports_are_of_evaluation};
pub use statement::{EvalStop, Shown, eval};
pub use workspace::Workspace;
