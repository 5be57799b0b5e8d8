//! Lines of a session, read: a command, a blank line, the program of a statement, or a fault at a column.
//!
//! Below it: `apl_tokens` and `apl_grammar`, which it puts together, and `apl_array` for the origin.
//! Begin with `lines.rt`, and then `reader.rt`.
#![tactic(auto)]

mod commands;
mod lines;
mod reader;

pub use apl_grammar::{
    AxisBrackets, AxisFunction, BoxedIndexedName, Brackets, Columns, DefaultAxis, DyadicForm,
    DyadicFunction, DyadicScalar, IndexedName, MonadicForm, MonadicFunction, MonadicScalar,
    Operation, Operator, Program,
};
pub use lines::{Command, Line, ReadStop};
pub use reader::{one_reading, read, some_reading};
