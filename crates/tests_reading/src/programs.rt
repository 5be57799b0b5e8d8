//! Operations of statements, in the order of evaluation.
use crate::tables::rows_of;
use apl_grammar::{
    DyadicForm, GrammarStop, MonadicForm, Operation, Program, one_caret, one_reading, one_tree,
    program_of, tree_or_caret,
};
use apl_tokens::{front, tokens};
use std::alloc::Global;
use std::test::Fail;

/// The program of a line that has tokens.
fn program(alloc: Global, line: &str) -> Result<Program, Fail> {
    let characters = front(alloc, line.as_bytes())?;
    let tokens = tokens(alloc, characters.as_slice())?;
    if tokens.is_empty() {
        return Err(Fail::new("no tokens"));
    }
    Ok(program_of(alloc, tokens)?)
}

/// The column by which a report of the operation's fault would name it; none for an empty slot.
fn column_of(operation: &Operation) -> Option<usize> {
    match operation {
        Operation::Constant(column, _) | Operation::Name(column, _) => Some(*column),
        Operation::Group(brackets) | Operation::Index(_, brackets) => Some(brackets.left),
        Operation::EmptySlot => None,
        Operation::Assign(column, _, _) => Some(*column),
        Operation::AssignAt(target) => Some(target.indexed_name().arrow),
        Operation::Monadic(form, _) => match form {
            MonadicForm::Plain { column, .. } | MonadicForm::Reverse { column, .. } => Some(
                *column,
            ),
            MonadicForm::Reduce { slash_column, .. } => Some(*slash_column),
        },
        Operation::Dyadic(form, _) => match form {
            DyadicForm::Plain { column, .. } | DyadicForm::Along { column, .. } => Some(*column),
            DyadicForm::Inner { dot, .. } | DyadicForm::Outer { dot, .. } => Some(*dot),
        },
    }
}

/// The columns of the program's operations, in the order of evaluation.
fn columns_of(alloc: Global, line: &str) -> Result<String, Fail> {
    let program = program(alloc, line)?;
    let mut columns = String::new(alloc);
    for operation in program.operations() {
        match column_of(operation) {
            Some(column) => write!(columns, " {column}")?,
            None => columns.push_str(" -")?,
        }
    }
    Ok(columns)
}

/// Statements, and the columns of their operations in the order of evaluation.
const ORDERED: &str = "
    ⍝ the expression, the axis, the operand, the function
    :A,[1]+B → 6 5 3 0 1
    ⍝ the slots, the array, the index, and then the function
    :A[1]+B → 5 2 0 1 4
    ⍝ the slots from the last to the first
    :A[1;;2] → 5 - 2 0 1
    ⍝ the expression, the slots, the name
    :A[1;]←2 → 6 - 2 5
    :(A∘.×B)+.×C←+/D → 14 13 10 5 1 3 0 8
    ";

#[test]
fn order_of_evaluation(rt: HostRuntime) -> Result<(), Fail> {
    for (line, wanted) in rows_of(rt.alloc(), (ORDERED, 5))? {
        let columns = columns_of(rt.alloc(), line)?;
        assert!(rt; columns.trim_start() == wanted, "of {line}");
    }
    Ok(())
}

/// Symbols of functions, and which of four forms are statements: monadic, dyadic, monadic with an axis, dyadic with an axis.
const VALENCES: &str = "
    :+ → yes yes no no
    :< → no yes no no
    :~ → yes no no no
    :⍴ → yes yes no no
    :, → yes yes no yes
    :⍳ → yes yes no no
    :∊ → no yes no no
    :↑ → no yes no no
    :↓ → no yes no no
    :⌽ → yes yes yes yes
    :⊖ → yes yes yes yes
    :⍉ → yes yes no no
    :⍋ → yes no no no
    :⍒ → yes no no no
    :/ → no yes no yes
    :⌿ → no yes no yes
    :\\ → no yes no yes
    :⍀ → no yes no yes
    :⊥ → no yes no no
    :⊤ → no yes no no
    :+/ → yes no yes no
    :<⍀ → yes no yes no
    :+.× → no yes no no
    :∘.< → no yes no no
    ";

/// Whether a line is a statement: yes or no.
fn is_statement(alloc: Global, line: &str) -> Result<&'static str, Fail> {
    let characters = front(alloc, line.as_bytes())?;
    let tokens = tokens(alloc, characters.as_slice())?;
    if tokens.is_empty() {
        return Err(Fail::new("no tokens"));
    }
    match program_of(alloc, tokens) {
        Ok(_program) => Ok("yes"),
        Err(GrammarStop::Syntax { .. }) => Ok("no"),
        Err(GrammarStop::Memory) => Err(Fail::new("no memory")),
    }
}

#[test]
fn valences(rt: HostRuntime) -> Result<(), Fail> {
    let alloc = rt.alloc();
    for (symbol, wanted) in rows_of(alloc, (VALENCES, 24))? {
        let mut forms = String::new(alloc);
        for (left, right) in [("", "B"), ("A", "B"), ("", "[1]B"), ("A", "[1]B")] {
            let line = format!(in alloc; "{left}{symbol}{right}")?;
            write!(forms, " {}", is_statement(alloc, line.as_str())?)?;
        }
        assert!(rt; forms.trim_start() == wanted, "of {symbol}");
    }
    Ok(())
}

#[test]
fn laws() {
    one_caret();
    one_reading();
    one_tree();
    tree_or_caret();
}
