//! Statements evaluated in a workspace.
ghost use Rattle.std.specs.Prelude.{◌≡◌, ◌≢◌, ◌≤◌, ◌+◌, ◌++◌, [], length, Some, None, option_copied, MatchOption, Result, IfOk, OnErr};
ghost use Rattle.std.specs.FinMap.{empty, get};
ghost use Rattle.apl_array.specs.Array.{ArrayValue};
ghost use Rattle.apl_grammar.specs.Tree.{Expr, IsProgram, operations};
ghost use Rattle.apl_grammar.specs.declared.program.Operation.TheVariants as op;
ghost use Rattle.apl_print.specs.Width.{least_width, most_width};
ghost use Rattle.apl_print.specs.declared.reports.Report.{Report};
ghost use Rattle.apl_eval.specs.Workspace.{WorkspaceValue, value_of};
ghost use Rattle.apl_eval.specs.Meaning.{Outcome, done, outcome_at, name_outcome, assign_at_column, meaning_of, is_assignment};
ghost use Rattle.apl_eval.specs.Evaluates.{Evaluates, IsShownAs};
ghost use Rattle.apl_eval.specs.Refusals.{Answers};
ghost use Rattle.apl_eval.specs.Steps.{step, steps, stuck, onto, last_assign_at, staged_in, HasValue, HasValueAbove, HasAxisAbove, HasSlotsAbove, IsOutcome, IsState};

use crate::functions::{Context, FunctionRefusal, dyadic_column, monadic_column};
use crate::names::Names;
use crate::spent::let_go;
use crate::stack::{Stack, array_of};
use crate::workspace::Workspace;
use apl_array::Array;
use apl_grammar::{
    AxisBrackets, Brackets, Columns, DyadicForm, IndexedName, MonadicForm, Operation, Program,
};
use apl_pool::{Crew, Cut, Gate, KeptLists, Pool, Workers};
use apl_print::{Report, print};
use apl_tokens::Constant;
use std::alloc::{AllocError, AllocFailed, Global};
use std::rc::Rc;
use std::thread::Threads;

/// What a statement shows.
#[derive(Drop)]
pub enum Shown {
    /// Nothing: the statement is an assignment.
    Silent,
    /// The printed text of its value.
    Text(String),
}

/// Why a statement has no value.
#[derive(Clone, Copy, Debug, PartialEq, Eq, Drop)]
pub enum EvalStop {
    /// The report of an error, and its column in characters from 0.
    Error { report: Report, column: usize },
    /// A growth was refused.
    Memory,
}

impl From<AllocError> for EvalStop {
    ghost use Rattle.std.specs.Prelude.{◌≡◌};
    ghost use Rattle.apl_eval.specs.declared.statement.EvalStop.TheVariants.{Memory};

    ghost from_gives = { λ _ e. e ≡ Memory };

    fn from(_error: AllocError) -> EvalStop {
        EvalStop::Memory
    }
}

impl<T: Drop> From<AllocFailed<T>> for EvalStop {
    ghost use Rattle.std.specs.Prelude.{◌≡◌};
    ghost use Rattle.apl_eval.specs.declared.statement.EvalStop.TheVariants.{Memory};

    ghost from_gives = { λ _ e. e ≡ Memory };

    fn from(_error: AllocFailed<T>) -> EvalStop {
        EvalStop::Memory
    }
}

/// The value of a constant.
fn constant_value(alloc: Global, constant: &Constant) -> Result<Rc<Array>, EvalStop>
    ensures { (w : WorkspaceValue) → IsOutcome (done constant.now w) w result }
{
    Ok(constant.array(alloc)?)
}

/// The value of a name: the one that the line gave it, or else the workspace's.
fn look_up<'a>(workspace: &'a Workspace, staged: &'a Names, name: &str) -> Option<&'a Rc<Array>>
    ensures { MatchOption result (value_of name.now (staged_in staged.now workspace.now) ≡ None) (λ v. value_of name.now (staged_in staged.now workspace.now) ≡ Some v.now.value) }
{
    match staged.get(name) {
        Some(value) => Some(value),
        None => workspace.names().get(name),
    }
}

/// The value of a name at this column.
fn name_value(
    workspace: &Workspace,
    staged: &Names,
    column: usize,
    name: &str,
) -> Result<Rc<Array>, EvalStop>
    ensures { let w = staged_in staged.now workspace.now in IsOutcome (name_outcome column name.now w) w result }
{
    match look_up(workspace, staged, name) {
        Some(value) => Ok(value.clone()?),
        None => Err(EvalStop::Error {
            report: Report::Value,
            column,
        }),
    }
}

/// The value of a result, or its error at this column.
fn outcome_at(
    alloc: Global,
    column: usize,
    answer: Result<Array, FunctionRefusal>,
) -> Result<Rc<Array>, EvalStop>
    ensures { (wanted : Result ArrayValue Report) → (w : WorkspaceValue) → Answers wanted answer → IsOutcome (outcome_at column wanted w) w result }
{
    match answer {
        Ok(value) => Ok(Rc::new(alloc, value)?),
        Err(FunctionRefusal::Error(report)) => Err(EvalStop::Error { report, column }),
        Err(FunctionRefusal::Memory) => Err(EvalStop::Memory),
    }
}

/// Puts a value on the stack, if there is one.
fn put(stack: &mut Stack, value: Result<Rc<Array>, EvalStop>) -> Result<(), EvalStop>
    ensures { (outcome : Outcome ArrayValue) → (w : WorkspaceValue) → IsOutcome outcome w value → IsState (onto stack.old outcome) stack.new w result }
{
    match value {
        Ok(value) => {
            stack.push_value(value)?;
            Ok(())
        }
        Err(stop) => Err(stop),
    }
}

/// Puts a function's result in the place of its arguments on the stack, of which the axis argument is on top.
fn apply_monadic<W: Crew>(
    context: &Context<'_, W>,
    stack: &mut Stack,
    form: &MonadicForm,
    axis: &AxisBrackets,
) -> Result<(), EvalStop>
    requires { HasAxisAbove HasValue axis.now stack.old }
    ensures { (w : WorkspaceValue) → w.origin ≡ context.now.workspace.now.origin → IsState (step (op.Monadic form.now axis.now) stack.old w) stack.new w result }
{
    let axis = stack.pop_axis(axis.brackets());
    let right = stack.pop_value();
    let axis = array_of(&axis);
    let answer = context.monadic(form, axis, &right);
    context.let_go(right);
    put(
        stack,
        outcome_at(context.alloc(), monadic_column(form), answer),
    )
}

/// Puts a function's result in the place of its arguments on the stack. The left one is on top, and the axis argument is next.
fn apply_dyadic<W: Crew>(
    context: &Context<'_, W>,
    stack: &mut Stack,
    form: &DyadicForm,
    axis: &AxisBrackets,
) -> Result<(), EvalStop>
    requires { HasValueAbove (HasAxisAbove HasValue axis.now) stack.old }
    ensures { (w : WorkspaceValue) → w.origin ≡ context.now.workspace.now.origin → IsState (step (op.Dyadic form.now axis.now) stack.old w) stack.new w result }
{
    let left = stack.pop_value();
    let axis = stack.pop_axis(axis.brackets());
    let right = stack.pop_value();
    let axis = array_of(&axis);
    let answer = context.dyadic(form, axis, &left, &right);
    context.let_go(left);
    context.let_go(right);
    put(
        stack,
        outcome_at(context.alloc(), dyadic_column(form), answer),
    )
}

/// Puts the chosen elements of the array on top of the stack in the place of the array and of the slots below it.
fn apply_index<W: Crew>(
    context: &Context<'_, W>,
    stack: &mut Stack,
    semicolons: &Columns,
    brackets: &Brackets,
) -> Result<(), EvalStop>
    requires { HasValueAbove (HasSlotsAbove (λ below. Unit {0}) (length semicolons.now + 1)) stack.old }
    ensures { (w : WorkspaceValue) → w.origin ≡ context.now.workspace.now.origin → IsState (step (op.Index semicolons.now brackets.now) stack.old w) stack.new w result }
{
    let array = stack.pop_value();
    let slots = stack.pop_slots(context.alloc(), semicolons)?;
    let chosen = slots.arrays(context.alloc())?;
    let answer = context.index(&array, chosen.as_slice());
    context.let_go(array);
    put(stack, outcome_at(context.alloc(), brackets.left, answer))
}

/// The column of an indexed assignment's error.
fn assign_at_column(target: &IndexedName, report: Report) -> usize
    ensures { result ≡ assign_at_column target.now.column target.now.arrow report }
{
    match report {
        Report::Value => target.column,
        _ => target.arrow,
    }
}

/// Has the line's assignments share the array of a name, if the workspace has it and they do not.
fn share_array<W: Crew>(
    context: &Context<'_, W>,
    staged: &mut Names,
    name: &str,
) -> Result<(), AllocError>
    ensures value { IfOk result (λ u. get staged.new name.now ≡ value_of name.now (staged_in staged.old context.now.workspace.now)) }
    ensures same { staged_in staged.new context.now.workspace.now ≡ staged_in staged.old context.now.workspace.now }
{
    if staged.get(name).is_some() {
        return Ok(());
    }
    if let Some(array) = context.workspace.names().get(name) {
        let array = array.clone()?;
        staged.insert(context.alloc(), name, array)?;
    }
    Ok(())
}

/// Changes the array of a name: the value on the stack goes in the place of the chosen elements. The value stays on the stack.
fn apply_assign_at<W: Crew>(
    context: &Context<'_, W>,
    staged: &mut Names,
    stack: &mut Stack,
    target: &IndexedName,
) -> Result<(), EvalStop>
    requires { HasSlotsAbove HasValue (length target.now.semicolons + 1) stack.old }
    ensures state { IsState (step (op.AssignAt target.now) stack.old (staged_in staged.old context.now.workspace.now)) stack.new (staged_in staged.new context.now.workspace.now) result }
    ensures unchanged { OnErr result (staged_in staged.new context.now.workspace.now ≡ staged_in staged.old context.now.workspace.now) }
{
    let slots = stack.pop_slots(context.alloc(), &target.semicolons)?;
    let chosen = slots.arrays(context.alloc())?;
    let name = target.name.as_str();
    share_array(context, staged, name)?;
    let value = stack.top_value();
    match staged.assign_at(context, name, chosen.as_slice(), value) {
        Ok(()) => Ok(()),
        Err(FunctionRefusal::Error(report)) => Err(EvalStop::Error {
            report,
            column: assign_at_column(target, report),
        }),
        Err(FunctionRefusal::Memory) => Err(EvalStop::Memory),
    }
}

/// Changes the array of a name of the workspace. It is not copied, unless something else has it as well.
fn assign_at_in_workspace<W: Crew>(
    workers: &W,
    workspace: &mut Workspace,
    stack: &mut Stack,
    target: &IndexedName,
) -> Result<(), EvalStop>
    requires { HasSlotsAbove HasValue (length target.now.semicolons + 1) stack.old }
    ensures state { IsState (step (op.AssignAt target.now) stack.old workspace.old) stack.new workspace.new result }
    ensures unchanged { OnErr result (workspace.new ≡ workspace.old) }
{
    let mut names = workspace.take_names(workers.alloc());
    let context = Context { workers, workspace };
    let answer = apply_assign_at(&context, &mut names, stack, target);
    workspace.put_names(names);
    answer
}

/// Carries out one operation. The line's assignments are staged, and read before the workspace's names.
fn carry_out<W: Crew>(
    context: &Context<'_, W>,
    staged: &mut Names,
    stack: &mut Stack,
    operation: &Operation,
) -> Result<(), EvalStop>
    requires { step operation.now stack.old (staged_in staged.old context.now.workspace.now) ≢ stuck }
    ensures { IsState (step operation.now stack.old (staged_in staged.old context.now.workspace.now)) stack.new (staged_in staged.new context.now.workspace.now) result }
{
    match operation {
        Operation::Constant(_, constant) => put(stack, constant_value(context.alloc(), constant)),
        Operation::Name(column, name) => {
            let name = name.as_str();
            put(stack, name_value(context.workspace, staged, *column, name))
        }
        Operation::Group(_) => Ok(()),
        Operation::EmptySlot => Ok(stack.push_empty_slot()?),
        Operation::Assign(_, name, _) => {
            let value = stack.top_value().clone()?;
            staged.insert(context.alloc(), name.as_str(), value)?;
            Ok(())
        }
        Operation::Dyadic(form, axis) => apply_dyadic(context, stack, form, axis),
        Operation::Monadic(form, axis) => apply_monadic(context, stack, form, axis),
        Operation::Index(semicolons, brackets) => {
            apply_index(context, stack, semicolons, brackets)
        }
        Operation::AssignAt(target) => {
            apply_assign_at(context, staged, stack, target.indexed_name())
        }
    }
}

/// Carries out the operations of a line, one after another. Its assignments are staged.
fn carry_out_all<W: Crew>(
    context: &Context<'_, W>,
    staged: &mut Names,
    stack: &mut Stack,
    operations: &[Operation],
) -> Result<(), EvalStop>
    requires staged { staged.old ≡ empty }
    requires stack { stack.old ≡ [] }
    requires possible { steps operations.now [] context.now.workspace.now ≢ stuck }
    ensures { IsState (steps operations.now [] context.now.workspace.now) stack.new (staged_in staged.new context.now.workspace.now) result }
{
    'operations: for operation in operations {
        match carry_out(context, staged, stack, operation) {
            Ok(()) => {}
            Err(stop) => return Err(stop),
        }
    }
    Ok(())
}

/// The operations of a program without an indexed assignment at their end, and what that assigns to.
fn without_last_assign_at(program: &Program) -> (&[Operation], Option<&IndexedName>)
    ensures all { program.now ≡ result.0.now ++ last_assign_at (option_copied result.1) }
    ensures of_a_tree { IsProgram program.now }
{
    match program.operations() {
        [first @ .., Operation::AssignAt(target)] => (first, Some(target.indexed_name())),
        operations => (operations, None),
    }
}

/// Whether the statement is an assignment.
fn is_assignment_program(program: &Program) -> bool
    ensures { (tree : Expr) → operations tree ≡ program.now → result ≡ is_assignment tree }
{
    matches!(
        program.operations().last(),
        Some(Operation::Assign(..) | Operation::AssignAt(_))
    )
}

/// What the statement shows, where this is its value.
fn text_of(alloc: Global, program: &Program, value: &Array, width: u8) -> Result<Shown, AllocError>
    requires low { least_width ≤ width }
    requires high { width ≤ most_width }
    ensures { IfOk result (λ shown. (tree : Expr) → operations tree ≡ program.now → IsShownAs tree value.now width shown) }
{
    if is_assignment_program(program) {
        return Ok(Shown::Silent);
    }
    Ok(Shown::Text(print(alloc, value, width)?))
}

/// Keeps the assignments of a line whose operations have been carried out, and answers what it shows or its error.
fn finish(
    workspace: &mut Workspace,
    alloc: Global,
    kept: &KeptLists,
    program: &Program,
    staged: Names,
    stack: Stack,
    carried: Result<(), EvalStop>,
) -> Result<Shown, EvalStop>
    requires { IsState (steps program.now [] workspace.old) stack (staged_in staged workspace.old) carried }
    ensures { (tree : Expr) → operations tree ≡ program.now → Evaluates tree workspace.old workspace.new result }
{
    let mut stack = stack;
    let _of_a_tree = program.operations();
    match carried {
        Ok(()) => {
            let value = stack.pop_value();
            let shown = text_of(alloc, program, &value, workspace.width())?;
            workspace.keep(staged, kept)?;
            let_go(kept, value);
            Ok(shown)
        }
        Err(EvalStop::Error { report, column }) => {
            workspace.keep(staged, kept)?;
            Err(EvalStop::Error { report, column })
        }
        Err(EvalStop::Memory) => Err(EvalStop::Memory),
    }
}

/// Evaluates a statement in a workspace.
///
/// An assignment shows nothing, and another statement the text of its value, printed at the workspace's width. After an error the
/// assignments made before it are kept. If memory runs out, the workspace is as it was. The pool computes the elements of results,
/// and is not seen in the answer.
pub fn eval<R: Threads + Sync, C: Cut + Sync, G: Gate + Sync>(
    workspace: &mut Workspace,
    rt: &R,
    alloc: Global,
    pool: &Pool<C, G>,
    program: &Program,
) -> Result<Shown, EvalStop>
    ensures { (tree : Expr) → operations tree ≡ program.now → Evaluates tree workspace.old workspace.new result }
{
    let mut staged = Names::new(alloc);
    let mut stack = Stack::new(alloc);
    let workers = &Workers { rt, alloc, pool };
    let kept = pool.kept();
    let (first, target) = without_last_assign_at(program);
    let context = Context { workers, workspace };
    let carried = carry_out_all(&context, &mut staged, &mut stack, first);
    let carried = match (carried, target) {
        (Ok(()), Some(target)) if staged.is_empty() => {
            // Nothing comes after it that could be refused.
            assign_at_in_workspace(workers, workspace, &mut stack, target)?;
            let_go(kept, stack.pop_value());
            return Ok(Shown::Silent);
        }
        (Ok(()), Some(target)) => apply_assign_at(&context, &mut staged, &mut stack, target),
        (Ok(()), None) => Ok(()),
        (Err(stop), _) => Err(stop),
    };
    finish(workspace, alloc, kept, program, staged, stack, carried)
}
