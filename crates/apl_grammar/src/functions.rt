//! Which function a symbol is.
ghost use Rattle.std.specs.Prelude.{◌≡◌};
ghost use Rattle.apl_grammar.specs.Functions.{dyadic_scalar, reversal_glyph, reversal, monadic_form, dyadic_form, dyadic_counterpart, operator_of, reduced};

use crate::forms::{
    AxisFunction, DefaultAxis, DyadicForm, DyadicFunction, DyadicScalar, MonadicForm,
    MonadicFunction, Operator,
};
use apl_tokens::Glyph;

/// The scalar function of two arguments that the symbol is, if it is one.
pub(crate) fn dyadic_scalar(glyph: Glyph) -> Option<DyadicScalar>
    ensures { result ≡ dyadic_scalar glyph }
{
    match glyph {
        Glyph::Scalar(function) => DyadicScalar::new(function),
        _ => None,
    }
}

/// The symbol of a reversal.
fn reversal_glyph(axis: DefaultAxis) -> Glyph
    ensures { result ≡ reversal_glyph axis }
{
    match axis {
        DefaultAxis::Last => Glyph::CircleStile,
        DefaultAxis::First => Glyph::CircleBar,
    }
}

/// The axis along which the symbol reverses, if it does.
fn reversal(glyph: Glyph) -> Option<DefaultAxis>
    ensures { result ≡ reversal glyph }
{
    match glyph {
        Glyph::CircleStile => Some(DefaultAxis::Last),
        Glyph::CircleBar => Some(DefaultAxis::First),
        _ => None,
    }
}

/// The symbol as a function of one argument, without or with an axis, if it is one.
pub(crate) fn monadic_form(column: usize, glyph: Glyph, has_axis: bool) -> Option<MonadicForm>
    ensures { result ≡ monadic_form column glyph has_axis }
{
    if let Some(axis) = reversal(glyph) {
        return Some(MonadicForm::Reverse { column, axis });
    }
    if has_axis {
        return None;
    }
    match MonadicFunction::of(glyph) {
        Some(function) => Some(MonadicForm::Plain { column, function }),
        None => None,
    }
}

/// The symbol as a function of two arguments, without or with an axis, if it is one.
pub(crate) fn dyadic_form(column: usize, glyph: Glyph, has_axis: bool) -> Option<DyadicForm>
    ensures { result ≡ dyadic_form column glyph has_axis }
{
    if let Some(function) = AxisFunction::of(glyph) {
        return Some(DyadicForm::Along { column, function });
    }
    if has_axis {
        return None;
    }
    match DyadicFunction::of(glyph) {
        Some(function) => Some(DyadicForm::Plain { column, function }),
        None => None,
    }
}

/// The function of two arguments of the same symbol, without or with an axis, if there is one.
pub(crate) fn dyadic_counterpart(form: &MonadicForm, has_axis: bool) -> Option<DyadicForm>
    ensures { result ≡ dyadic_counterpart form.now has_axis }
{
    match form {
        MonadicForm::Plain { column, function } => {
            dyadic_form(*column, function.glyph(), has_axis)
        }
        MonadicForm::Reverse { column, axis } => {
            dyadic_form(*column, reversal_glyph(*axis), has_axis)
        }
        MonadicForm::Reduce { .. } => None,
    }
}

/// What the slash of a replication or an expansion makes of a scalar function on its left.
fn operator_of(function: AxisFunction) -> Option<Operator>
    ensures { result ≡ operator_of function }
{
    match function {
        AxisFunction::Replicate(axis) => Some(Operator::Reduction(axis)),
        AxisFunction::Expand(axis) => Some(Operator::Scan(axis)),
        _ => None,
    }
}

/// The reduction or the scan by a symbol on the left of a slash.
pub(crate) fn reduced(column: usize, glyph: Glyph, form: &DyadicForm) -> Option<MonadicForm>
    ensures { result ≡ reduced column glyph form.now }
{
    let DyadicForm::Along {
        column: slash_column,
        function: slash,
    } = form
    else {
        return None;
    };
    match (dyadic_scalar(glyph), operator_of(*slash)) {
        (Some(function), Some(operator)) => Some(MonadicForm::Reduce {
            column,
            function,
            slash_column: *slash_column,
            operator,
        }),
        _ => None,
    }
}
