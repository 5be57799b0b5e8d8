//! Programs from tokens: the grammar, and the column of a grammar fault.
//!
//! Below it: `apl_tokens` for tokens, and `apl_array`, which says how many arguments a scalar function has.
//! Begin with `specs/Tree.antt`, which is the grammar, and then `reader.rt`.
#![tactic(auto)]

mod forms;
mod functions;
mod partial_program;
mod program;
mod reader;
mod statement;

pub use forms::{
    AxisFunction, DefaultAxis, DyadicForm, DyadicFunction, DyadicScalar, MonadicForm,
    MonadicFunction, MonadicScalar, Operator,
};
pub use program::{
    AxisBrackets, BoxedIndexedName, Brackets, Columns, IndexedName, Operation, Program,
};
pub use statement::{GrammarStop, one_caret, one_reading, one_tree, program_of, tree_or_caret};
