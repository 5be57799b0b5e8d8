//! Functions of arrays.
ghost use Rattle.std.specs.Prelude.{◌≡◌, Result, Ok, Err, Some, IfOk, IfErr, OnOk, OnErr, map, option_copied};
ghost use Rattle.apl_array.specs.declared.axis.Axis.TheVariants.{At};
ghost use Rattle.apl_array.specs.Array.{ArrayValue};
ghost use Rattle.apl_answer.specs.declared.fault.OpFault.{OpFault};
ghost use Rattle.apl_answer.specs.Pointwise.{IsAnswerOf};
ghost use Rattle.apl_reduce.specs.Products.{outer_row, inner_row};
ghost use Rattle.apl_eval.specs.Functions.{monadic_column, dyadic_column, result_of, result_by, default_axis, function_axis, operator_axis, monadic_plain, dyadic_plain, reversed_along, reduced_along, dyadic_along, monadic_result, dyadic_result, index_result, assign_at_result};
ghost use Rattle.apl_eval.specs.Refusals.{Answers};

use crate::spent::let_go;
use crate::workspace::Workspace;
use apl_answer::{OpFault, array_copy};
use apl_array::{Array, Axis};
use apl_grammar::{
    AxisFunction, DefaultAxis, DyadicForm, DyadicFunction, DyadicScalar, MonadicForm,
    MonadicFunction, Operator,
};
use apl_pool::{Crew, Pool};
use apl_print::Report;
use apl_struct::axis_number;
use std::alloc::{AllocFailed, Global};
use std::rc::Rc;

/// Why a function has no value.
#[derive(Drop)]
pub(crate) enum FunctionRefusal {
    Error(Report),
    Memory,
}

impl From<OpFault> for FunctionRefusal {
    ghost use Rattle.std.specs.Prelude.{◌≡◌};
    ghost use Rattle.apl_eval.specs.Refusals.{refusal_of};

    ghost from_gives = { λ fault r. r ≡ refusal_of fault };

    fn from(fault: OpFault) -> FunctionRefusal {
        match fault {
            OpFault::Rank => FunctionRefusal::Error(Report::Rank),
            OpFault::Length => FunctionRefusal::Error(Report::Length),
            OpFault::Index => FunctionRefusal::Error(Report::Index),
            OpFault::Domain => FunctionRefusal::Error(Report::Domain),
            OpFault::Limit => FunctionRefusal::Error(Report::Limit),
            OpFault::Memory => FunctionRefusal::Memory,
        }
    }
}

impl<T: Drop> From<AllocFailed<T>> for FunctionRefusal {
    ghost use Rattle.std.specs.Prelude.{◌≡◌};
    ghost use Rattle.apl_eval.specs.declared.functions.FunctionRefusal.TheVariants.{Memory};

    ghost from_gives = { λ _ r. r ≡ Memory };

    fn from(_error: AllocFailed<T>) -> FunctionRefusal {
        FunctionRefusal::Memory
    }
}

/// The column of the errors of a function of one argument.
pub(crate) fn monadic_column(form: &MonadicForm) -> usize
    ensures { result ≡ monadic_column form.now }
{
    match form {
        MonadicForm::Plain { column, .. } | MonadicForm::Reverse { column, .. } => *column,
        MonadicForm::Reduce { slash_column, .. } => *slash_column,
    }
}

/// The column of the errors of a function of two arguments.
pub(crate) fn dyadic_column(form: &DyadicForm) -> usize
    ensures { result ≡ dyadic_column form.now }
{
    match form {
        DyadicForm::Plain { column, .. } | DyadicForm::Along { column, .. } => *column,
        DyadicForm::Inner { dot, .. } | DyadicForm::Outer { dot, .. } => *dot,
    }
}

/// What a function answered, its fault as a report.
fn result_of(answer: Result<Array, OpFault>) -> Result<Array, FunctionRefusal>
    ensures { (wanted : Result ArrayValue OpFault) → IsAnswerOf wanted answer → Answers (result_of wanted) result }
{
    match answer {
        Ok(array) => Ok(array),
        Err(fault) => Err(FunctionRefusal::from(fault)),
    }
}

/// The axis that a symbol works along where no axis is given.
fn default_axis(axis: DefaultAxis) -> Axis
    ensures { result ≡ default_axis axis }
{
    match axis {
        DefaultAxis::First => Axis::First,
        DefaultAxis::Last => Axis::Last,
    }
}

/// The axis of a function of two arguments where none is given.
fn function_axis(function: AxisFunction) -> Axis
    ensures { result ≡ function_axis function }
{
    match function {
        AxisFunction::Catenate => Axis::Last,
        AxisFunction::Rotate(axis) => default_axis(axis),
        AxisFunction::Replicate(axis) => default_axis(axis),
        AxisFunction::Expand(axis) => default_axis(axis),
    }
}

/// The axis of a reduction or a scan where none is given.
fn operator_axis(operator: Operator) -> Axis
    ensures { result ≡ operator_axis operator }
{
    match operator {
        Operator::Reduction(axis) => default_axis(axis),
        Operator::Scan(axis) => default_axis(axis),
    }
}

/// What a line is evaluated with: who works on it, and the workspace before it.
#[derive(Drop)]
pub(crate) struct Context<'a, W: Crew> {
    pub(crate) workers: &'a W,
    pub(crate) workspace: &'a Workspace,
}

impl<'a, W: Crew> Context<'a, W> {
    /// The memory.
    pub(crate) fn alloc(&self) -> Global {
        self.workers.alloc()
    }

    /// Keeps the numbers of a value for a later result, if they are many and nothing else has the value.
    pub(crate) fn let_go(&self, value: Rc<Array>) {
        let_go(self.workers.pool().kept(), value);
    }

    /// The threads, the memory and the pool, as functions of arrays take them.
    fn parts(&self) -> (&W::Runtime, Global, &Pool<W::Cutting, W::Passing>) {
        let workers = self.workers;
        (workers.rt(), workers.alloc(), workers.pool())
    }

    /// The axis of this number.
    fn axis_at(&self, number: i64) -> Axis
        ensures { result ≡ At number self.now.workspace.now.origin }
    {
        Axis::At {
            number,
            origin: self.workspace.origin(),
        }
    }

    /// The answer of a function of one array that takes no axis.
    fn monadic_plain_answer(&self, function: &MonadicFunction, b: &Array) -> Result<Array, OpFault>
        ensures { IsAnswerOf (monadic_plain self.now.workspace.now.origin function.now b.now) result }
    {
        let (rt, alloc, pool) = self.parts();
        let origin = self.workspace.origin();
        match function {
            MonadicFunction::Scalar(scalar) => {
                let f = scalar.function();
                apl_scalar::monadic(rt, alloc, pool, f, b)
            }
            MonadicFunction::Shape => apl_struct::shape_of(rt, alloc, pool, b),
            MonadicFunction::Ravel => apl_struct::ravel(rt, alloc, pool, b),
            MonadicFunction::Iota => apl_struct::iota(rt, alloc, pool, b, origin),
            MonadicFunction::Transpose => apl_struct::transpose(rt, alloc, pool, b),
            MonadicFunction::GradeUp => apl_search::grade_up(rt, alloc, pool, b, origin),
            MonadicFunction::GradeDown => apl_search::grade_down(rt, alloc, pool, b, origin),
        }
    }

    /// A function of one array that takes no axis.
    fn monadic_plain(&self, function: &MonadicFunction, b: &Array) -> Result<Array, FunctionRefusal>
        ensures { Answers (result_of (monadic_plain self.now.workspace.now.origin function.now b.now)) result }
    {
        result_of(self.monadic_plain_answer(function, b))
    }

    /// The reversal of an array along an axis.
    fn reversed_along(&self, axis: Axis, b: &Array) -> Result<Array, FunctionRefusal>
        ensures { Answers (reversed_along axis b.now) result }
    {
        let (rt, alloc, pool) = self.parts();
        result_of(apl_struct::reverse(rt, alloc, pool, b, axis))
    }

    /// The reduction or the scan of an array along an axis.
    fn reduced_along(
        &self,
        operator: Operator,
        function: &DyadicScalar,
        axis: Axis,
        b: &Array,
    ) -> Result<Array, FunctionRefusal>
        ensures { Answers (reduced_along operator function.now axis b.now) result }
    {
        let (rt, alloc, pool) = self.parts();
        let f = function.function();
        match operator {
            Operator::Reduction(_) => result_of(apl_reduce::reduce(rt, alloc, pool, f, b, axis)),
            Operator::Scan(_) => result_of(apl_scan::scan(rt, alloc, pool, f, b, axis)),
        }
    }

    /// The answer of a function of two arrays that takes no axis.
    fn dyadic_plain_answer(
        &self,
        function: &DyadicFunction,
        a: &Array,
        b: &Array,
    ) -> Result<Array, OpFault>
        ensures { IsAnswerOf (dyadic_plain self.now.workspace.now.origin function.now a.now b.now) result }
    {
        let (rt, alloc, pool) = self.parts();
        let origin = self.workspace.origin();
        match function {
            DyadicFunction::Scalar(scalar) => {
                let f = scalar.function();
                apl_scalar::dyadic(rt, alloc, pool, f, a, b)
            }
            DyadicFunction::Reshape => apl_struct::reshape(rt, alloc, pool, a, b),
            DyadicFunction::IndexOf => apl_search::index_of(rt, alloc, pool, a, b, origin),
            DyadicFunction::Member => apl_search::member(rt, alloc, pool, a, b),
            DyadicFunction::Take => apl_struct::take(rt, alloc, pool, a, b),
            DyadicFunction::Drop => apl_struct::drop(rt, alloc, pool, a, b),
            DyadicFunction::TransposeBy => {
                apl_struct::transpose_by(rt, alloc, pool, a, b, origin)
            }
            DyadicFunction::Decode => apl_reduce::decode(rt, alloc, pool, a, b),
            DyadicFunction::Encode => apl_reduce::encode(rt, alloc, pool, a, b),
        }
    }

    /// A function of two arrays that takes no axis.
    fn dyadic_plain(
        &self,
        function: &DyadicFunction,
        a: &Array,
        b: &Array,
    ) -> Result<Array, FunctionRefusal>
        ensures { Answers (result_of (dyadic_plain self.now.workspace.now.origin function.now a.now b.now)) result }
    {
        result_of(self.dyadic_plain_answer(function, a, b))
    }

    /// The answer of a function of two arrays along an axis.
    fn dyadic_along_answer(
        &self,
        function: AxisFunction,
        axis: Axis,
        a: &Array,
        b: &Array,
    ) -> Result<Array, OpFault>
        ensures { IsAnswerOf (dyadic_along function axis a.now b.now) result }
    {
        let (rt, alloc, pool) = self.parts();
        match function {
            AxisFunction::Catenate => apl_struct::catenate(rt, alloc, pool, a, b, axis),
            AxisFunction::Rotate(_) => apl_struct::rotate(rt, alloc, pool, a, b, axis),
            AxisFunction::Replicate(_) => apl_struct::compress(rt, alloc, pool, a, b, axis),
            AxisFunction::Expand(_) => apl_struct::expand(rt, alloc, pool, a, b, axis),
        }
    }

    /// A function of two arrays along an axis.
    fn dyadic_along(
        &self,
        function: AxisFunction,
        axis: Axis,
        a: &Array,
        b: &Array,
    ) -> Result<Array, FunctionRefusal>
        ensures { Answers (result_of (dyadic_along function axis a.now b.now)) result }
    {
        result_of(self.dyadic_along_answer(function, axis, a, b))
    }

    /// The outer product of two arrays.
    fn outer_by(
        &self,
        function: &DyadicScalar,
        a: &Array,
        b: &Array,
    ) -> Result<Array, FunctionRefusal>
        ensures { Answers (result_by (outer_row function.now a.now b.now)) result }
    {
        let (rt, alloc, pool) = self.parts();
        let f = function.function();
        result_of(apl_reduce::outer(rt, alloc, pool, f, a, b))
    }

    /// The inner product of two arrays.
    fn inner_by(
        &self,
        left: &DyadicScalar,
        right: &DyadicScalar,
        a: &Array,
        b: &Array,
    ) -> Result<Array, FunctionRefusal>
        ensures { Answers (result_by (inner_row left.now right.now a.now b.now)) result }
    {
        let (rt, alloc, pool) = self.parts();
        let f = left.function();
        let g = right.function();
        result_of(apl_reduce::inner(rt, alloc, pool, f, g, a, b))
    }

    /// The result of a function of one array, perhaps along an axis.
    #[tactic(auto, unfolding(crate::specs::Functions::monadic_result))]
    pub(crate) fn monadic(
        &self,
        form: &MonadicForm,
        axis: Option<&Array>,
        right: &Array,
    ) -> Result<Array, FunctionRefusal>
        ensures { Answers (monadic_result self.now.workspace.now.origin form.now (option_copied axis.entry) right.now) result }
    {
        match (form, axis) {
            (MonadicForm::Plain { function, .. }, _) => self.monadic_plain(function, right),
            (MonadicForm::Reverse { axis, .. }, None) => {
                self.reversed_along(default_axis(*axis), right)
            }
            (MonadicForm::Reverse { .. }, Some(axis)) => {
                let axis = self.axis_at(axis_number(axis)?);
                self.reversed_along(axis, right)
            }
            (
                MonadicForm::Reduce {
                    function,
                    operator,
                    ..
                },
                None,
            ) => self.reduced_along(*operator, function, operator_axis(*operator), right),
            (
                MonadicForm::Reduce {
                    function,
                    operator,
                    ..
                },
                Some(axis),
            ) => {
                let axis = self.axis_at(axis_number(axis)?);
                self.reduced_along(*operator, function, axis, right)
            }
        }
    }

    /// The result of a function of two arrays, perhaps along an axis.
    #[tactic(auto, unfolding(crate::specs::Functions::dyadic_result))]
    pub(crate) fn dyadic(
        &self,
        form: &DyadicForm,
        axis: Option<&Array>,
        left: &Array,
        right: &Array,
    ) -> Result<Array, FunctionRefusal>
        ensures { Answers (dyadic_result self.now.workspace.now.origin form.now (option_copied axis.entry) left.now right.now) result }
    {
        match (form, axis) {
            (DyadicForm::Plain { function, .. }, _) => self.dyadic_plain(function, left, right),
            (DyadicForm::Along { function, .. }, None) => {
                self.dyadic_along(*function, function_axis(*function), left, right)
            }
            (DyadicForm::Along { function, .. }, Some(axis)) => {
                let axis = self.axis_at(axis_number(axis)?);
                self.dyadic_along(*function, axis, left, right)
            }
            (
                DyadicForm::Inner {
                    left: f,
                    right: g,
                    ..
                },
                _,
            ) => self.inner_by(f, g, left, right),
            (DyadicForm::Outer { function, .. }, _) => self.outer_by(function, left, right),
        }
    }

    /// The elements of an array that the slots choose.
    #[tactic(auto, unfolding(crate::specs::Functions::index_result))]
    pub(crate) fn index(
        &self,
        array: &Array,
        slots: &[Option<&Array>],
    ) -> Result<Array, FunctionRefusal>
        ensures { Answers (index_result self.now.workspace.now.origin array.now (map option_copied slots.now)) result }
    {
        let (rt, alloc, pool) = self.parts();
        let origin = self.workspace.origin();
        result_of(apl_struct::select(rt, alloc, pool, array, slots, origin))
    }

    /// Puts the value in the place of the elements of an array that the slots choose. After an error the array is as it was.
    #[tactic(auto, unfolding(crate::specs::Functions::assign_at_result))]
    pub(crate) fn assign_at(
        &self,
        array: &mut Array,
        slots: &[Option<&Array>],
        value: &Array,
    ) -> Result<(), FunctionRefusal>
        ensures ok { OnOk result (assign_at_result self.now.workspace.now.origin (Some array.old) (map option_copied slots.now) value.now ≡ Ok array.new) }
        ensures err { IfErr result (λ refusal. Answers (assign_at_result self.now.workspace.now.origin (Some array.old) (map option_copied slots.now) value.now) (Err refusal)) }
        ensures unchanged { OnErr result (array.new ≡ array.old) }
    {
        let (rt, alloc, pool) = self.parts();
        let origin = self.workspace.origin();
        match apl_struct::replace(rt, alloc, pool, array, slots, value, origin) {
            Ok(()) => Ok(()),
            Err(fault) => Err(FunctionRefusal::from(fault)),
        }
    }

    /// A copy of an array, with the value in the place of the elements that the slots choose.
    pub(crate) fn changed_copy(
        &self,
        array: &Array,
        slots: &[Option<&Array>],
        value: &Array,
    ) -> Result<Rc<Array>, FunctionRefusal>
        ensures ok { IfOk result (λ changed. assign_at_result self.now.workspace.now.origin (Some array.now) (map option_copied slots.now) value.now ≡ Ok changed.value) }
        ensures err { IfErr result (λ refusal. Answers (assign_at_result self.now.workspace.now.origin (Some array.now) (map option_copied slots.now) value.now) (Err refusal)) }
    {
        let mut copy = array_copy(self.workers, array)?;
        self.assign_at(&mut copy, slots, value)?;
        Ok(Rc::new(self.alloc(), copy)?)
    }
}
