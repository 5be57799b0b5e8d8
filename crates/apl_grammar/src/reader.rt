//! From tokens to operations, in one pass from the right.
ghost use Rattle.std.specs.Prelude.{◌≡◌, ◌<◌, ◌++◌, ◌∷◌, [], List, Option, Some, None, reverse, IfOk, IfErr, IfSome, OnOk, option_and_then, option_map, ℕ, vec_len};
ghost use Rattle.apl_grammar.specs.Automaton.{Machine, machine, after_operand, with_dyadic, with_index, stack_for_operand, with_operand, with_name, expression_operations, with_leading_function, with_monadic, with_function, leading_dot, with_leading_dot, with_dot, with_jot, with_arrow, closed_group, with_open_paren, with_close_paren, with_close_bracket, with_slot, with_next_slot, with_semicolon, closed_list, with_open_bracket, step, without_empty_places, statement_operations, run, IsRefusedBy, stack_of, machine_of};
ghost use Rattle.apl_grammar.specs.Functions.{dyadic_counterpart};
ghost use Rattle.apl_grammar.specs.declared.program.Operation.{Operation};
ghost use Rattle.apl_grammar.specs.declared.reader.State.TheVariants.{Expression, OperandWanted};

use crate::forms::{DyadicForm, DyadicFunction, DyadicScalar, MonadicForm};
use crate::functions::{dyadic_counterpart, dyadic_form, dyadic_scalar, monadic_form, reduced};
use crate::partial_program::PartialProgram;
use crate::program::{AxisBrackets, BoxedIndexedName, Brackets, Columns, IndexedName, Operation};
use crate::statement::GrammarStop;
use apl_tokens::{Glyph, Name, Token, TokenKind};
use std::alloc::{AllocError, AllocFailed, Global};
use std::marker::Model;
use std::mem;

/// A function before a bracket, whose valence isn't known yet. If the bracket has an axis, the function is monadic, and its
/// operation has a place. If it has an index, the function is dyadic.
#[derive(Drop)]
pub(crate) struct UndecidedFunction {
    function: MonadicForm,
    axis: AxisBrackets,
    place: usize,
}

/// An undecided function, if there is one, in little room.
#[derive(Drop)]
pub(crate) struct MaybeUndecided {
    function: Option<Box<UndecidedFunction>>,
}

impl Model for MaybeUndecided {
    ghost use Rattle.std.specs.Prelude.{Option, option_map};
    ghost use Rattle.apl_grammar.specs.declared.reader.UndecidedFunction.{UndecidedFunction};

    ghost Value = { Option UndecidedFunction };

    ghost view = { λ u. option_map (λ b. b.value) u.function };
}

impl MaybeUndecided {
    /// No function is undecided.
    fn none() -> MaybeUndecided
        ensures { result ≡ None }
    {
        MaybeUndecided { function: None }
    }

    /// This function is undecided.
    fn new(alloc: Global, function: UndecidedFunction) -> Result<MaybeUndecided, AllocError>
        ensures { IfOk result (λ undecided. undecided ≡ Some function) }
    {
        let boxed = Box::new(alloc, function)?;
        Ok(MaybeUndecided {
            function: Some(boxed),
        })
    }

    /// The function that is undecided.
    fn into_option(self) -> Option<UndecidedFunction>
        ensures { result ≡ self }
    {
        match self.function {
            Some(function) => Some(Box::into_inner(function)),
            None => None,
        }
    }
}

/// What was read inside the innermost open bracket, seen from its left end.
#[derive(Drop)]
pub(crate) enum State {
    /// An operand is wanted, or nothing was read.
    OperandWanted,
    /// An expression.
    Expression,
    /// An expression that begins with a function. Its operation is not emitted yet: it may still be dyadic.
    LeadingFunction(MonadicForm, AxisBrackets),
    /// A dot and a function, with their columns, before an expression.
    LeadingDot(usize, usize, DyadicScalar),
    /// An arrow before an expression.
    LeadingArrow(usize),
    /// An axis or an index before an expression.
    LeadingBrackets(Brackets, MaybeUndecided),
    /// The slots of an indexed assignment and its arrow before an expression.
    LeadingSlots(Columns, Brackets, usize),
}

/// What the reader comes back to.
#[derive(Drop)]
pub(crate) enum Pending {
    /// An operation that waits for its operand.
    Operation(Operation),
    /// The parenthesis on the right of an operand.
    Group(usize),
    /// The bracket on the right of an index, and the semicolons so far.
    Index(usize, Columns),
    /// The bracket on the right of an axis or an index.
    AxisOrIndex(usize, MaybeUndecided),
    /// The bracket on the right of an indexed assignment's slots, the semicolons so far, and the arrow.
    IndexedAssignment(usize, Columns, usize),
}

/// Why a token is not taken.
#[derive(Drop)]
pub(crate) enum TokenRefusal {
    Syntax,
    Memory,
}

impl From<AllocError> for TokenRefusal {
    ghost use Rattle.std.specs.Prelude.{◌≡◌};
    ghost use Rattle.apl_grammar.specs.declared.reader.TokenRefusal.TheVariants.{Memory};

    ghost from_gives = { λ _ e. e ≡ Memory };

    fn from(_error: AllocError) -> TokenRefusal {
        TokenRefusal::Memory
    }
}

impl<T: Drop> From<AllocFailed<T>> for TokenRefusal {
    ghost use Rattle.std.specs.Prelude.{◌≡◌};
    ghost use Rattle.apl_grammar.specs.declared.reader.TokenRefusal.TheVariants.{Memory};

    ghost from_gives = { λ _ e. e ≡ Memory };

    fn from(_error: AllocFailed<T>) -> TokenRefusal {
        TokenRefusal::Memory
    }
}

/// The most pending items for which room is taken at once, if there are as many tokens.
const SHORT: usize = 12;

/// The operations emitted so far, with places kept among them; what waits to the left of what was read; and what was read.
#[derive(Drop)]
pub(crate) struct Reader {
    alloc: Global,
    operations: PartialProgram,
    stack: Vec<Pending>,
    state: State,
}

impl Reader {
    /// A reader that has read nothing yet of `count` tokens.
    fn new(alloc: Global, count: usize) -> Result<Reader, AllocError>
        ensures operations { IfOk result (λ r. r.operations ≡ []) }
        ensures stack { IfOk result (λ r. stack_of r ≡ []) }
        ensures state { IfOk result (λ r. r.state ≡ OperandWanted) }
    {
        let operations = PartialProgram::with_capacity(alloc, count)?;
        let stack = Vec::with_capacity(alloc, count.min(SHORT))?;
        Ok(Reader {
            alloc,
            operations,
            stack,
            state: State::OperandWanted,
        })
    }

    // Inlined, as others below, so that an operation is built where it is kept.
    #[inline]
    fn emit(&mut self, operation: Operation) -> Result<(), TokenRefusal>
        ensures ok { OnOk result (self.new.operations ≡ self.old.operations ++ Some operation ∷ []) }
        ensures stack { self.new.stack ≡ self.old.stack }
        ensures err { result ≡ Err TokenRefusal.Syntax → ⊥ }
    {
        self.operations.push(operation)?;
        Ok(())
    }

    /// What waits innermost.
    #[inline(always)]
    fn pop_pending(&mut self) -> Option<Pending>
        ensures some { IfSome result (λ p. stack_of self.old ≡ p ∷ stack_of self.new) }
        ensures none { result ≡ None → stack_of self.old ≡ [] }
        ensures operations { self.new.operations ≡ self.old.operations }
    {
        self.stack.pop()
    }

    /// The operation that waits for the operand which has just ended.
    fn pop_operation(&mut self) -> Option<Operation>
        ensures some { IfSome result (λ o. stack_of self.old ≡ Pending.Operation o ∷ stack_of self.new) }
        ensures none { result ≡ None → (os : List (Option Operation)) → after_operand os (stack_of self.old) ≡ machine os (stack_of self.new) Expression }
        ensures operations { self.new.operations ≡ self.old.operations }
    {
        match self.stack.last() {
            Some(Pending::Operation(_)) => match self.stack.pop() {
                Some(Pending::Operation(operation)) => Some(operation),
                _ => None,
            },
            _ => None,
        }
    }

    /// The operations that waited for the operand which has just ended.
    fn complete(&mut self) -> Result<(), TokenRefusal>
        ensures ok { OnOk result (after_operand self.old.operations (stack_of self.old) ≡ machine_of self.new) }
        ensures err { result ≡ Err TokenRefusal.Syntax → ⊥ }
    {
        while let Some(waiting) = self.pop_operation() {
            self.emit(waiting)?;
        }
        self.state = State::Expression;
        Ok(())
    }

    /// Makes the function of two arguments of the same symbol wait for its left argument.
    fn push_dyadic(&mut self, function: MonadicForm, axis: AxisBrackets) -> Result<(), TokenRefusal>
        ensures ok { OnOk result (with_dyadic function axis (stack_of self.old) ≡ Some (stack_of self.new)) }
        ensures err { result ≡ Err TokenRefusal.Syntax → with_dyadic function axis (stack_of self.old) ≡ None }
        ensures operations { self.new.operations ≡ self.old.operations }
    {
        let Some(function) = dyadic_counterpart(&function, axis.is_some()) else {
            return Err(TokenRefusal::Syntax);
        };
        self.stack
            .push(Pending::Operation(Operation::Dyadic(function, axis)))?;
        Ok(())
    }

    /// The function before the index is dyadic: it waits for its left argument.
    fn push_undecided(&mut self, undecided: MaybeUndecided) -> Result<(), TokenRefusal>
        ensures ok { OnOk result (option_and_then (λ p. with_dyadic p.function p.axis (stack_of self.old)) undecided ≡ Some (stack_of self.new)) }
        ensures err { result ≡ Err TokenRefusal.Syntax → option_and_then (λ p. with_dyadic p.function p.axis (stack_of self.old)) undecided ≡ None }
        ensures operations { self.new.operations ≡ self.old.operations }
    {
        match undecided.into_option() {
            Some(undecided) => self.push_dyadic(undecided.function, undecided.axis),
            None => Err(TokenRefusal::Syntax),
        }
    }

    /// Makes an index of one slot wait for its array.
    fn push_index(&mut self, brackets: Brackets) -> Result<(), TokenRefusal>
        ensures ok { OnOk result (stack_of self.new ≡ with_index brackets (stack_of self.old)) }
        ensures err { result ≡ Err TokenRefusal.Syntax → ⊥ }
        ensures operations { self.new.operations ≡ self.old.operations }
    {
        let semicolons = Columns::new(self.alloc);
        self.stack
            .push(Pending::Operation(Operation::Index(semicolons, brackets)))?;
        Ok(())
    }

    /// The function before an index of one slot is dyadic: the index waits for its array, and the function for its left argument.
    fn push_undecided_index(
        &mut self,
        undecided: MaybeUndecided,
        brackets: Brackets,
    ) -> Result<(), TokenRefusal>
        ensures ok { OnOk result (option_map (with_index brackets) (option_and_then (λ p. with_dyadic p.function p.axis (stack_of self.old)) undecided) ≡ Some (stack_of self.new)) }
        ensures err { result ≡ Err TokenRefusal.Syntax → option_and_then (λ p. with_dyadic p.function p.axis (stack_of self.old)) undecided ≡ None }
        ensures operations { self.new.operations ≡ self.old.operations }
    {
        self.push_undecided(undecided)?;
        self.push_index(brackets)
    }

    /// An operand ends here: what wants it waits for it.
    fn want_operand(&mut self, state: State) -> Result<(), TokenRefusal>
        ensures ok { OnOk result (stack_for_operand state (stack_of self.old) ≡ Some (stack_of self.new)) }
        ensures err { result ≡ Err TokenRefusal.Syntax → stack_for_operand state (stack_of self.old) ≡ None }
        ensures operations { self.new.operations ≡ self.old.operations }
    {
        match state {
            State::OperandWanted => Ok(()),
            State::LeadingFunction(function, axis) => self.push_dyadic(function, axis),
            State::LeadingBrackets(brackets, undecided) => {
                self.push_undecided_index(undecided, brackets)
            }
            _ => Err(TokenRefusal::Syntax),
        }
    }

    #[inline(always)]
    fn take_operand(&mut self, state: State, operand: Operation) -> Result<(), TokenRefusal>
        ensures ok { OnOk result (with_operand self.old.operations (stack_of self.old) state operand ≡ Some (machine_of self.new)) }
        ensures err { result ≡ Err TokenRefusal.Syntax → with_operand self.old.operations (stack_of self.old) state operand ≡ None }
    {
        self.want_operand(state)?;
        self.emit(operand)?;
        self.complete()
    }

    fn take_name(&mut self, state: State, column: usize, name: Name) -> Result<(), TokenRefusal>
        ensures ok { OnOk result (with_name self.old.operations (stack_of self.old) state column name ≡ Some (machine_of self.new)) }
        ensures err { result ≡ Err TokenRefusal.Syntax → with_name self.old.operations (stack_of self.old) state column name ≡ None }
    {
        match state {
            State::LeadingArrow(arrow) => self.emit(Operation::Assign(column, name, arrow))?,
            State::LeadingSlots(semicolons, brackets, arrow) => {
                let indexed = IndexedName {
                    column,
                    name,
                    semicolons,
                    brackets,
                    arrow,
                };
                self.emit(Operation::AssignAt(BoxedIndexedName::new(self.alloc, indexed)?))?
            }
            _ => return self.take_operand(state, Operation::Name(column, name)),
        }
        self.state = State::Expression;
        Ok(())
    }

    /// An expression ends here: a function that begins it is monadic.
    fn end_expression(&mut self, state: State) -> Result<(), TokenRefusal>
        ensures ok { OnOk result (expression_operations self.old.operations state ≡ Some self.new.operations) }
        ensures err { result ≡ Err TokenRefusal.Syntax → expression_operations self.old.operations state ≡ None }
        ensures stack { self.new.stack ≡ self.old.stack }
    {
        match state {
            State::Expression => Ok(()),
            State::LeadingFunction(function, axis) => self.emit(Operation::Monadic(function, axis)),
            _ => Err(TokenRefusal::Syntax),
        }
    }

    /// A function before an expression.
    fn set_leading_function(
        &mut self,
        column: usize,
        glyph: Glyph,
        axis: AxisBrackets,
    ) -> Result<(), TokenRefusal>
        ensures ok { OnOk result (with_leading_function column glyph axis self.old.operations (stack_of self.old) ≡ Some (machine_of self.new)) }
        ensures err { result ≡ Err TokenRefusal.Syntax → with_leading_function column glyph axis self.old.operations (stack_of self.old) ≡ None }
    {
        if let Some(function) = monadic_form(column, glyph, axis.is_some()) {
            self.state = State::LeadingFunction(function, axis);
            return Ok(());
        }
        let Some(function) = dyadic_form(column, glyph, axis.is_some()) else {
            return Err(TokenRefusal::Syntax);
        };
        self.push_pending(Pending::Operation(Operation::Dyadic(function, axis)))
    }

    /// The function before the axis is monadic.
    fn fill(&mut self, undecided: MaybeUndecided)
        ensures operations { self.new.operations ≡ with_monadic self.old.operations undecided }
        ensures stack { self.new.stack ≡ self.old.stack }
    {
        if let Some(undecided) = undecided.into_option() {
            let operation = Operation::Monadic(undecided.function, undecided.axis);
            self.operations.fill(undecided.place, operation);
        }
    }

    /// Pushes what is pending. To its left an operand is wanted.
    #[inline(always)]
    fn push_pending(&mut self, pending: Pending) -> Result<(), TokenRefusal>
        ensures ok { OnOk result ((self.new.state ≡ OperandWanted) × (stack_of self.new ≡ pending ∷ stack_of self.old)) }
        ensures err { result ≡ Err TokenRefusal.Syntax → ⊥ }
        ensures operations { self.new.operations ≡ self.old.operations }
    {
        self.stack.push(pending)?;
        self.state = State::OperandWanted;
        Ok(())
    }

    /// Makes a product wait for its left argument.
    fn push_product(&mut self, form: DyadicForm) -> Result<(), TokenRefusal>
        ensures ok { OnOk result ((self.new.state ≡ OperandWanted) × (stack_of self.new ≡ Pending.Operation (Operation.Dyadic form None) ∷ stack_of self.old)) }
        ensures err { result ≡ Err TokenRefusal.Syntax → ⊥ }
        ensures operations { self.new.operations ≡ self.old.operations }
    {
        self.push_pending(Pending::Operation(Operation::Dyadic(form, AxisBrackets::none())))
    }

    /// A function on the left of a slash that waits for its operand.
    fn take_reduced(&mut self, column: usize, glyph: Glyph) -> Result<(), TokenRefusal>
        ensures ok { OnOk result (with_function self.old.operations (stack_of self.old) OperandWanted column glyph ≡ Some (machine_of self.new)) }
        ensures err { result ≡ Err TokenRefusal.Syntax → with_function self.old.operations (stack_of self.old) OperandWanted column glyph ≡ None }
    {
        let Some(Pending::Operation(Operation::Dyadic(slash, axis))) = self.pop_pending() else {
            return Err(TokenRefusal::Syntax);
        };
        let Some(function) = reduced(column, glyph, &slash) else {
            return Err(TokenRefusal::Syntax);
        };
        self.state = State::LeadingFunction(function, axis);
        Ok(())
    }

    fn take_function(
        &mut self,
        state: State,
        column: usize,
        glyph: Glyph,
    ) -> Result<(), TokenRefusal>
        ensures ok { OnOk result (with_function self.old.operations (stack_of self.old) state column glyph ≡ Some (machine_of self.new)) }
        ensures err { result ≡ Err TokenRefusal.Syntax → with_function self.old.operations (stack_of self.old) state column glyph ≡ None }
    {
        match state {
            State::LeadingBrackets(brackets, undecided) => {
                self.fill(undecided);
                let axis = AxisBrackets::new(self.alloc, brackets)?;
                self.set_leading_function(column, glyph, axis)
            }
            State::LeadingDot(dot, right_column, right) => {
                let Some(left) = dyadic_scalar(glyph) else {
                    return Err(TokenRefusal::Syntax);
                };
                self.push_product(DyadicForm::Inner {
                    left_column: column,
                    left,
                    dot,
                    right_column,
                    right,
                })
            }
            State::OperandWanted => self.take_reduced(column, glyph),
            _ => {
                self.end_expression(state)?;
                self.set_leading_function(column, glyph, AxisBrackets::none())
            }
        }
    }

    /// A dot on the left of the function.
    fn set_leading_dot(
        &mut self,
        dot: usize,
        function: DyadicForm,
        axis: AxisBrackets,
    ) -> Result<(), TokenRefusal>
        ensures ok { OnOk result (with_leading_dot self.old.operations (stack_of self.old) dot axis function ≡ Some (machine_of self.new)) }
        ensures err { result ≡ Err TokenRefusal.Syntax → with_leading_dot self.old.operations (stack_of self.old) dot axis function ≡ None }
    {
        match function {
            DyadicForm::Plain {
                column,
                function: DyadicFunction::Scalar(function),
            } if !axis.is_some() => {
                self.state = State::LeadingDot(dot, column, function);
                Ok(())
            }
            _ => Err(TokenRefusal::Syntax),
        }
    }

    fn take_dot(&mut self, state: State, dot: usize) -> Result<(), TokenRefusal>
        ensures ok { OnOk result (with_dot self.old.operations (stack_of self.old) state dot ≡ Some (machine_of self.new)) }
        ensures err { result ≡ Err TokenRefusal.Syntax → with_dot self.old.operations (stack_of self.old) state dot ≡ None }
    {
        match state {
            State::LeadingFunction(function, axis) => {
                match dyadic_counterpart(&function, axis.is_some()) {
                    Some(function) => self.set_leading_dot(dot, function, axis),
                    None => Err(TokenRefusal::Syntax),
                }
            }
            State::OperandWanted => match self.pop_pending() {
                Some(Pending::Operation(Operation::Dyadic(function, axis))) => {
                    self.set_leading_dot(dot, function, axis)
                }
                _ => Err(TokenRefusal::Syntax),
            },
            _ => Err(TokenRefusal::Syntax),
        }
    }

    fn take_jot(&mut self, state: State, jot: usize) -> Result<(), TokenRefusal>
        ensures ok { OnOk result (with_jot self.old.operations (stack_of self.old) state jot ≡ Some (machine_of self.new)) }
        ensures err { result ≡ Err TokenRefusal.Syntax → with_jot self.old.operations (stack_of self.old) state jot ≡ None }
    {
        match state {
            State::LeadingDot(dot, column, function) => {
                self.push_product(DyadicForm::Outer {
                    jot,
                    dot,
                    column,
                    function,
                })
            }
            _other => Err(TokenRefusal::Syntax),
        }
    }

    fn take_arrow(&mut self, state: State, arrow: usize) -> Result<(), TokenRefusal>
        ensures ok { OnOk result (with_arrow self.old.operations (stack_of self.old) state arrow ≡ Some (machine_of self.new)) }
        ensures err { result ≡ Err TokenRefusal.Syntax → with_arrow self.old.operations (stack_of self.old) state arrow ≡ None }
    {
        self.end_expression(state)?;
        self.state = State::LeadingArrow(arrow);
        Ok(())
    }

    /// The parenthesis on the right, if the innermost open bracket is one.
    fn pop_group(&mut self) -> Option<usize>
        ensures some { IfSome result (λ right. stack_of self.old ≡ Pending.Group right ∷ stack_of self.new) }
        ensures none { result ≡ None → (os : List (Option Operation)) (l : ℕ) → closed_group l os (stack_of self.old) ≡ None }
        ensures operations { self.new.operations ≡ self.old.operations }
    {
        let popped = self.pop_pending();
        match &popped {
            Some(Pending::Group(right)) => Some(*right),
            _ => None,
        }
    }

    fn take_open_paren(&mut self, state: State, left: usize) -> Result<(), TokenRefusal>
        ensures ok { OnOk result (with_open_paren self.old.operations (stack_of self.old) state left ≡ Some (machine_of self.new)) }
        ensures err { result ≡ Err TokenRefusal.Syntax → with_open_paren self.old.operations (stack_of self.old) state left ≡ None }
    {
        self.end_expression(state)?;
        let Some(right) = self.pop_group() else {
            return Err(TokenRefusal::Syntax);
        };
        self.emit(Operation::Group(Brackets { left, right }))?;
        self.complete()
    }

    fn take_close_paren(&mut self, state: State, right: usize) -> Result<(), TokenRefusal>
        ensures ok { OnOk result (with_close_paren self.old.operations (stack_of self.old) state right ≡ Some (machine_of self.new)) }
        ensures err { result ≡ Err TokenRefusal.Syntax → with_close_paren self.old.operations (stack_of self.old) state right ≡ None }
    {
        self.want_operand(state)?;
        self.push_pending(Pending::Group(right))
    }

    fn take_close_bracket(&mut self, state: State, right: usize) -> Result<(), TokenRefusal>
        ensures ok { OnOk result (with_close_bracket self.old.operations (stack_of self.old) state right ≡ Some (machine_of self.new)) }
        ensures err { result ≡ Err TokenRefusal.Syntax → with_close_bracket self.old.operations (stack_of self.old) state right ≡ None }
    {
        match state {
            State::Expression => self.push_pending(Pending::AxisOrIndex(
                right,
                MaybeUndecided::none(),
            )),
            State::LeadingFunction(function, axis) => {
                let place = self.operations.keep_place(self.alloc)?;
                let undecided = MaybeUndecided::new(
                    self.alloc,
                    UndecidedFunction {
                        function,
                        axis,
                        place,
                    },
                )?;
                self.push_pending(Pending::AxisOrIndex(right, undecided))
            }
            State::LeadingArrow(arrow) => {
                let semicolons = Columns::new(self.alloc);
                self.push_pending(Pending::IndexedAssignment(right, semicolons, arrow))
            }
            _ => {
                self.want_operand(state)?;
                let semicolons = Columns::new(self.alloc);
                self.push_pending(Pending::Index(right, semicolons))
            }
        }
    }

    /// A slot ends here.
    fn end_slot(&mut self, state: State) -> Result<(), TokenRefusal>
        ensures ok { OnOk result (with_slot self.old.operations state ≡ Some self.new.operations) }
        ensures err { result ≡ Err TokenRefusal.Syntax → with_slot self.old.operations state ≡ None }
        ensures stack { self.new.stack ≡ self.old.stack }
    {
        match state {
            State::OperandWanted => self.emit(Operation::EmptySlot),
            _ => self.end_expression(state),
        }
    }

    /// One more semicolon of the list in the innermost brackets.
    fn begin_slot(&mut self, column: usize) -> Result<(), TokenRefusal>
        ensures ok { OnOk result (with_next_slot column self.old.operations (stack_of self.old) ≡ Some (machine_of self.new)) }
        ensures err { result ≡ Err TokenRefusal.Syntax → with_next_slot column self.old.operations (stack_of self.old) ≡ None }
    {
        match self.pop_pending() {
            Some(Pending::Index(right, mut semicolons)) => {
                semicolons.push(column)?;
                self.push_pending(Pending::Index(right, semicolons))
            }
            Some(Pending::IndexedAssignment(right, mut semicolons, arrow)) => {
                semicolons.push(column)?;
                self.push_pending(Pending::IndexedAssignment(right, semicolons, arrow))
            }
            Some(Pending::AxisOrIndex(right, undecided)) => {
                self.push_undecided(undecided)?;
                let mut semicolons = Columns::new(self.alloc);
                semicolons.push(column)?;
                self.push_pending(Pending::Index(right, semicolons))
            }
            _ => Err(TokenRefusal::Syntax),
        }
    }

    fn take_semicolon(&mut self, state: State, column: usize) -> Result<(), TokenRefusal>
        ensures ok { OnOk result (with_semicolon self.old.operations (stack_of self.old) state column ≡ Some (machine_of self.new)) }
        ensures err { result ≡ Err TokenRefusal.Syntax → with_semicolon self.old.operations (stack_of self.old) state column ≡ None }
    {
        self.end_slot(state)?;
        self.begin_slot(column)
    }

    /// The bracket on the left of the innermost list; whether its first slot is empty.
    fn close_list(&mut self, is_empty: bool, left: usize) -> Result<(), TokenRefusal>
        ensures ok { OnOk result (closed_list is_empty left self.old.operations (stack_of self.old) ≡ Some (machine_of self.new)) }
        ensures err { result ≡ Err TokenRefusal.Syntax → closed_list is_empty left self.old.operations (stack_of self.old) ≡ None }
    {
        match self.pop_pending() {
            Some(Pending::Index(right, semicolons)) => {
                let brackets = Brackets { left, right };
                self.push_pending(Pending::Operation(Operation::Index(semicolons, brackets)))
            }
            Some(Pending::IndexedAssignment(right, semicolons, arrow)) => {
                self.state = State::LeadingSlots(semicolons, Brackets { left, right }, arrow);
                Ok(())
            }
            Some(Pending::AxisOrIndex(right, undecided)) if !is_empty => {
                self.state = State::LeadingBrackets(Brackets { left, right }, undecided);
                Ok(())
            }
            Some(Pending::AxisOrIndex(right, undecided)) => {
                let pushed = self.push_undecided_index(undecided, Brackets { left, right });
                self.state = State::OperandWanted;
                pushed
            }
            _ => Err(TokenRefusal::Syntax),
        }
    }

    fn take_open_bracket(&mut self, state: State, left: usize) -> Result<(), TokenRefusal>
        ensures ok { OnOk result (with_open_bracket self.old.operations (stack_of self.old) state left ≡ Some (machine_of self.new)) }
        ensures err { result ≡ Err TokenRefusal.Syntax → with_open_bracket self.old.operations (stack_of self.old) state left ≡ None }
    {
        let is_empty = matches!(state, State::OperandWanted);
        self.end_slot(state)?;
        self.close_list(is_empty, left)
    }

    #[inline(always)]
    fn take(&mut self, token: Token) -> Result<(), TokenRefusal>
        ensures ok { OnOk result (step token (machine_of self.old) ≡ Some (machine_of self.new)) }
        ensures err { result ≡ Err TokenRefusal.Syntax → step token (machine_of self.old) ≡ None }
    {
        let state = mem::replace(&mut self.state, State::OperandWanted);
        let column = token.column;
        match token.kind {
            TokenKind::Constant(value) => self.take_operand(
                state,
                Operation::Constant(column, value),
            ),
            TokenKind::Name(name) => self.take_name(state, column, name),
            TokenKind::Function(glyph) => self.take_function(state, column, glyph),
            TokenKind::Dot => self.take_dot(state, column),
            TokenKind::Jot => self.take_jot(state, column),
            TokenKind::Arrow => self.take_arrow(state, column),
            TokenKind::OpenParen => self.take_open_paren(state, column),
            TokenKind::CloseParen => self.take_close_paren(state, column),
            TokenKind::OpenBracket => self.take_open_bracket(state, column),
            TokenKind::CloseBracket => self.take_close_bracket(state, column),
            TokenKind::Semicolon => self.take_semicolon(state, column),
        }
    }

    /// The operations of a whole statement.
    fn finish(mut self) -> Result<Vec<Operation>, TokenRefusal>
        ensures ok { IfOk result (λ operations. statement_operations (machine_of self) ≡ Some operations.items) }
        ensures err { result ≡ Err TokenRefusal.Syntax → statement_operations (machine_of self) ≡ None }
    {
        let state = mem::replace(&mut self.state, State::OperandWanted);
        self.end_expression(state)?;
        if !self.stack.is_empty() {
            return Err(TokenRefusal::Syntax);
        }
        let operations = self.operations.into_operations(self.alloc)?;
        Ok(operations)
    }
}

/// The operations of the tokens, or why they are no statement.
pub(crate) fn parse(alloc: Global, tokens: Vec<Token>) -> Result<Vec<Operation>, GrammarStop>
    requires { 0 < vec_len tokens }
    ensures ok { IfOk result (λ operations. option_and_then statement_operations (run tokens.items) ≡ Some operations.items) }
    ensures err { IfErr result (IsRefusedBy tokens.items) }
{
    let mut rest = tokens;
    let Ok(mut reader) = Reader::new(alloc, rest.len()) else {
        return Err(GrammarStop::Memory);
    };
    let mut first = 0;
    while let Some(token) = rest.pop() {
        first = token.column;
        match reader.take(token) {
            Ok(()) => {}
            Err(TokenRefusal::Syntax) => return Err(GrammarStop::Syntax { column: first }),
            Err(TokenRefusal::Memory) => return Err(GrammarStop::Memory),
        }
    }
    match reader.finish() {
        Ok(operations) => Ok(operations),
        Err(TokenRefusal::Syntax) => Err(GrammarStop::Syntax { column: first }),
        Err(TokenRefusal::Memory) => Err(GrammarStop::Memory),
    }
}
