//! The functions of statements, with their symbols and the columns of their tokens.
ghost use Rattle.std.specs.Prelude.{◌≡◌, IsTrue, Option, Some, None, if◌then◌else◌};
ghost use Rattle.apl_array.specs.Valences.{has_monadic, has_dyadic};
ghost use Rattle.apl_grammar.specs.Functions.{monadic_glyph, monadic_function, dyadic_function, axis_function};

use apl_array::ScalarFunction;
use apl_tokens::Glyph;
use std::marker::Model;

/// A scalar function of one argument.
#[derive(Drop)]
pub struct MonadicScalar {
    function: ScalarFunction,
}

impl Model for MonadicScalar {
    ghost use Rattle.std.specs.Prelude.{IsTrue};
    ghost use Rattle.apl_array.specs.declared.function.ScalarFunction.{ScalarFunction};
    ghost use Rattle.apl_array.specs.Valences.{has_monadic};

    ghost Value = { ScalarFunction };

    ghost view = { λ f. f.function };

    ghost invariant = { λ f. IsTrue (has_monadic f.function) };
}

impl MonadicScalar {
    /// The scalar function, if it is one of one argument.
    pub(crate) fn new(function: ScalarFunction) -> Option<MonadicScalar>
        ensures { result ≡ (if has_monadic function then Some function else None) }
    {
        if !function.is_monadic() {
            return None;
        }
        Some(MonadicScalar { function })
    }

    /// The scalar function.
    pub fn function(&self) -> ScalarFunction
        ensures value { result ≡ self.now }
        ensures monadic { IsTrue (has_monadic result) }
    {
        self.function
    }
}

/// A scalar function of two arguments.
#[derive(Drop)]
pub struct DyadicScalar {
    function: ScalarFunction,
}

impl Model for DyadicScalar {
    ghost use Rattle.std.specs.Prelude.{IsTrue};
    ghost use Rattle.apl_array.specs.declared.function.ScalarFunction.{ScalarFunction};
    ghost use Rattle.apl_array.specs.Valences.{has_dyadic};

    ghost Value = { ScalarFunction };

    ghost view = { λ f. f.function };

    ghost invariant = { λ f. IsTrue (has_dyadic f.function) };
}

impl DyadicScalar {
    /// The scalar function, if it is one of two arguments.
    pub(crate) fn new(function: ScalarFunction) -> Option<DyadicScalar>
        ensures { result ≡ (if has_dyadic function then Some function else None) }
    {
        if !function.is_dyadic() {
            return None;
        }
        Some(DyadicScalar { function })
    }

    /// The scalar function.
    pub fn function(&self) -> ScalarFunction
        ensures value { result ≡ self.now }
        ensures dyadic { IsTrue (has_dyadic result) }
    {
        self.function
    }
}

/// The axis that a symbol works along if no axis is given.
#[derive(Clone, Copy, Debug, PartialEq, Eq, Drop)]
pub enum DefaultAxis {
    First,
    Last,
}

/// A function of one argument that takes no axis.
#[derive(Drop)]
pub enum MonadicFunction {
    Scalar(MonadicScalar),
    Shape,
    Ravel,
    Iota,
    Transpose,
    GradeUp,
    GradeDown,
}

impl MonadicFunction {
    /// The function of one argument that takes no axis, if the symbol is one.
    pub(crate) fn of(glyph: Glyph) -> Option<MonadicFunction>
        ensures { result ≡ monadic_function glyph }
    {
        match glyph {
            Glyph::Scalar(function) => match MonadicScalar::new(function) {
                Some(scalar) => Some(MonadicFunction::Scalar(scalar)),
                None => None,
            },
            Glyph::Rho => Some(MonadicFunction::Shape),
            Glyph::Comma => Some(MonadicFunction::Ravel),
            Glyph::Iota => Some(MonadicFunction::Iota),
            Glyph::Transpose => Some(MonadicFunction::Transpose),
            Glyph::GradeUp => Some(MonadicFunction::GradeUp),
            Glyph::GradeDown => Some(MonadicFunction::GradeDown),
            _ => None,
        }
    }

    /// The symbol of the function.
    pub(crate) fn glyph(&self) -> Glyph
        ensures { result ≡ monadic_glyph self.now }
    {
        match self {
            MonadicFunction::Scalar(scalar) => Glyph::Scalar(scalar.function()),
            MonadicFunction::Shape => Glyph::Rho,
            MonadicFunction::Ravel => Glyph::Comma,
            MonadicFunction::Iota => Glyph::Iota,
            MonadicFunction::Transpose => Glyph::Transpose,
            MonadicFunction::GradeUp => Glyph::GradeUp,
            MonadicFunction::GradeDown => Glyph::GradeDown,
        }
    }
}

/// A function of two arguments that takes no axis.
#[derive(Drop)]
pub enum DyadicFunction {
    Scalar(DyadicScalar),
    Reshape,
    IndexOf,
    Member,
    Take,
    Drop,
    TransposeBy,
    Decode,
    Encode,
}

impl DyadicFunction {
    /// The function of two arguments that takes no axis, if the symbol is one.
    pub(crate) fn of(glyph: Glyph) -> Option<DyadicFunction>
        ensures { result ≡ dyadic_function glyph }
    {
        match glyph {
            Glyph::Scalar(function) => match DyadicScalar::new(function) {
                Some(scalar) => Some(DyadicFunction::Scalar(scalar)),
                None => None,
            },
            Glyph::Rho => Some(DyadicFunction::Reshape),
            Glyph::Iota => Some(DyadicFunction::IndexOf),
            Glyph::Epsilon => Some(DyadicFunction::Member),
            Glyph::UpArrow => Some(DyadicFunction::Take),
            Glyph::DownArrow => Some(DyadicFunction::Drop),
            Glyph::Transpose => Some(DyadicFunction::TransposeBy),
            Glyph::UpTack => Some(DyadicFunction::Decode),
            Glyph::DownTack => Some(DyadicFunction::Encode),
            _ => None,
        }
    }
}

/// A function of two arguments that takes an axis. Catenation works along the last if none is given.
#[derive(Clone, Copy, Debug, PartialEq, Eq, Drop)]
pub enum AxisFunction {
    Catenate,
    Rotate(DefaultAxis),
    Replicate(DefaultAxis),
    Expand(DefaultAxis),
}

impl AxisFunction {
    /// The function of two arguments that takes an axis, if the symbol is one.
    pub(crate) fn of(glyph: Glyph) -> Option<AxisFunction>
        ensures { result ≡ axis_function glyph }
    {
        match glyph {
            Glyph::Comma => Some(AxisFunction::Catenate),
            Glyph::CircleStile => Some(AxisFunction::Rotate(DefaultAxis::Last)),
            Glyph::CircleBar => Some(AxisFunction::Rotate(DefaultAxis::First)),
            Glyph::Slash => Some(AxisFunction::Replicate(DefaultAxis::Last)),
            Glyph::SlashBar => Some(AxisFunction::Replicate(DefaultAxis::First)),
            Glyph::Backslash => Some(AxisFunction::Expand(DefaultAxis::Last)),
            Glyph::BackslashBar => Some(AxisFunction::Expand(DefaultAxis::First)),
            _ => None,
        }
    }
}

/// What a slash after a scalar function makes of it.
#[derive(Clone, Copy, Debug, PartialEq, Eq, Drop)]
pub enum Operator {
    Reduction(DefaultAxis),
    Scan(DefaultAxis),
}

/// A function of one argument, with the columns of its tokens.
#[derive(Drop)]
pub enum MonadicForm {
    /// A function that takes no axis.
    Plain {
        column: usize,
        function: MonadicFunction,
    },
    /// Reversal, perhaps along a given axis.
    Reverse {
        column: usize,
        axis: DefaultAxis,
    },
    /// A reduction or a scan, perhaps along a given axis.
    Reduce {
        column: usize,
        function: DyadicScalar,
        slash_column: usize,
        operator: Operator,
    },
}

/// A function of two arguments, with the columns of its tokens.
#[derive(Drop)]
pub enum DyadicForm {
    /// A function that takes no axis.
    Plain {
        column: usize,
        function: DyadicFunction,
    },
    /// A function that works along an axis, perhaps a given one.
    Along {
        column: usize,
        function: AxisFunction,
    },
    /// The inner product of two functions.
    Inner {
        left_column: usize,
        left: DyadicScalar,
        dot: usize,
        right_column: usize,
        right: DyadicScalar,
    },
    /// The outer product of a function.
    Outer {
        jot: usize,
        dot: usize,
        column: usize,
        function: DyadicScalar,
    },
}
