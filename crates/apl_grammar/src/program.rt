//! Operations in the order of evaluation.
ghost use Rattle.std.specs.Prelude.{◌≡◌, IfOk};

use crate::forms::{DyadicForm, MonadicForm};
use apl_tokens::{Constant, Name};
use std::alloc::{AllocError, AllocFailed, Global};
use std::marker::Model;

/// The columns of a pair of brackets or parentheses.
#[derive(Clone, Copy, Debug, PartialEq, Eq, Drop)]
pub struct Brackets {
    pub left: usize,
    pub right: usize,
}

/// The columns of the semicolons between the slots of a list, from right to left.
#[derive(Drop)]
pub struct Columns {
    columns: Vec<usize>,
}

impl Model for Columns {
    ghost use Rattle.std.specs.Prelude.{List, ℕ};

    ghost Value = { List ℕ };

    ghost view = { λ c. c.columns.items };
}

/// The brackets of an axis, if there is one, in little room.
#[derive(Drop)]
pub struct AxisBrackets {
    brackets: Option<Box<Brackets>>,
}

impl Model for AxisBrackets {
    ghost use Rattle.std.specs.Prelude.{Option, option_map};
    ghost use Rattle.apl_grammar.specs.declared.program.Brackets.{Brackets};

    ghost Value = { Option Brackets };

    ghost view = { λ a. option_map (λ b. b.value) a.brackets };
}

impl AxisBrackets {
    ghost use Rattle.std.specs.Prelude.{Some, None, is_some};

    /// No axis.
    pub(crate) fn none() -> AxisBrackets
        ensures { result ≡ None }
    {
        AxisBrackets { brackets: None }
    }

    /// The axis of these brackets.
    pub(crate) fn new(alloc: Global, brackets: Brackets) -> Result<AxisBrackets, AllocError>
        ensures { IfOk result (λ axis. axis ≡ Some brackets) }
    {
        let boxed = Box::new(alloc, brackets)?;
        Ok(AxisBrackets {
            brackets: Some(boxed),
        })
    }

    /// Whether there is one.
    pub(crate) fn is_some(&self) -> bool
        ensures { result ≡ is_some self.now }
    {
        self.brackets.is_some()
    }

    /// Its brackets.
    pub fn brackets(&self) -> Option<Brackets>
        ensures { result ≡ self.now }
    {
        match &self.brackets {
            Some(brackets) => Some(**brackets),
            None => None,
        }
    }
}

/// What an indexed assignment is made to: a name, the columns of its index and the column of the arrow.
#[derive(Drop)]
pub struct IndexedName {
    pub column: usize,
    pub name: Name,
    pub semicolons: Columns,
    pub brackets: Brackets,
    pub arrow: usize,
}

/// An indexed name, in little room.
#[derive(Drop)]
pub struct BoxedIndexedName {
    boxed: Box<IndexedName>,
}

impl Model for BoxedIndexedName {
    ghost use Rattle.apl_grammar.specs.declared.program.IndexedName.{IndexedName};

    ghost Value = { IndexedName };

    ghost view = { λ n. n.boxed.value };
}

impl BoxedIndexedName {
    pub(crate) fn new(alloc: Global, indexed: IndexedName) -> Result<BoxedIndexedName, AllocError>
        ensures { IfOk result (λ boxed. boxed ≡ indexed) }
    {
        let boxed = Box::new(alloc, indexed)?;
        Ok(BoxedIndexedName { boxed })
    }

    /// The name and the columns.
    pub fn indexed_name(&self) -> &IndexedName
        ensures { result.now ≡ self.now }
    {
        &self.boxed
    }
}

/// One operation of a program, with the columns of its tokens.
#[derive(Drop)]
pub enum Operation {
    /// The value of a constant at this column.
    Constant(usize, Constant),
    /// The value of a name at this column.
    Name(usize, Name),
    /// A pair of parentheses round the value.
    Group(Brackets),
    /// An empty slot of a list.
    EmptySlot,
    /// The elements of the array that the slots choose. There is one slot more than semicolons.
    Index(Columns, Brackets),
    /// The name at the first column gets the value; the arrow is at the second.
    Assign(usize, Name, usize),
    /// The chosen elements of a name's array get the value.
    AssignAt(BoxedIndexedName),
    /// The function of one argument, perhaps along an axis.
    Monadic(MonadicForm, AxisBrackets),
    /// The function of two arguments, perhaps along an axis.
    Dyadic(DyadicForm, AxisBrackets),
}

impl Columns {
    ghost use Rattle.std.specs.Prelude.{◌≡◌, ◌++◌, ◌∷◌, [], OnOk, OnErr};

    /// No columns.
    pub(crate) fn new(alloc: Global) -> Columns
        ensures { result ≡ [] }
    {
        Columns {
            columns: Vec::new(alloc),
        }
    }

    /// One more column, to the left of the others.
    pub(crate) fn push(&mut self, column: usize) -> Result<(), AllocFailed<usize>>
        ensures { OnOk result (self.new ≡ self.old ++ column ∷ []) }
    {
        self.columns.push(column)
    }

    /// The columns from right to left.
    pub fn as_slice(&self) -> &[usize]
        ensures { result.now ≡ self.now }
    {
        self.columns.as_slice()
    }
}

/// The operations of a statement from right to left, each after its operands. None lacks an operand.
#[derive(Drop)]
pub struct Program {
    operations: Vec<Operation>,
}

impl Model for Program {
    ghost use Rattle.std.specs.Prelude.{List};
    ghost use Rattle.apl_grammar.specs.declared.program.Operation.{Operation};

    ghost Value = { List Operation };

    ghost use Rattle.apl_grammar.specs.Tree.{IsProgram};

    ghost view = { λ p. p.operations.items };

    ghost invariant = { λ p. IsProgram p.operations.items };
}

impl Program {
    ghost use Rattle.std.specs.Prelude.{◌≡◌};
    ghost use Rattle.apl_grammar.specs.Tree.{IsProgram};

    /// The operations in the order of evaluation, each after its operands.
    pub fn operations(&self) -> &[Operation]
        ensures all { result.now ≡ self.now }
        ensures of_a_tree { IsProgram self.now }
    {
        self.operations.as_slice()
    }

    pub(crate) fn new(operations: Vec<Operation>) -> Self
        requires { IsProgram operations.items }
        ensures { result ≡ operations.items }
    {
        Program { operations }
    }
}
