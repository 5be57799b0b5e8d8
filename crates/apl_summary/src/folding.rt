//! Which scalar function has which summaries.
ghost use Rattle.std.specs.Prelude.{◌≡◌};
ghost use Rattle.apl_summary.specs.Functions.{has_summary};

use apl_array::ScalarFunction;

/// The call of a generic function at the type of the summaries under a scalar function: `S` is first among the type arguments. If
/// there are none, it is something else. No other code lists the functions' summaries.
#[macro_export]
macro_rules! with_summary {
    ($f:expr, $call:ident::<S $(, $parameter:ident)*>($($argument:expr),*), $otherwise:expr) => {
        match $f {
            $crate::Prim::Plus => $call::<$crate::SignedSum<0> $(, $parameter)*>($($argument),*),
            $crate::Prim::Minus => $call::<$crate::SignedSum<1> $(, $parameter)*>($($argument),*),
            $crate::Prim::Times => $call::<$crate::Scaled $(, $parameter)*>($($argument),*),
            $crate::Prim::Floor => $call::<$crate::Extreme<0> $(, $parameter)*>($($argument),*),
            $crate::Prim::Ceiling => $call::<$crate::Extreme<1> $(, $parameter)*>($($argument),*),
            $crate::Prim::And => $call::<$crate::TwoValued<$crate::function_types::And> $(, $parameter)*>($($argument),*),
            $crate::Prim::Or => $call::<$crate::TwoValued<$crate::function_types::Or> $(, $parameter)*>($($argument),*),
            $crate::Prim::Nand => $call::<$crate::TwoValued<$crate::function_types::Nand> $(, $parameter)*>($($argument),*),
            $crate::Prim::Nor => $call::<$crate::TwoValued<$crate::function_types::Nor> $(, $parameter)*>($($argument),*),
            $crate::Prim::Less => $call::<$crate::TwoValued<$crate::function_types::Less> $(, $parameter)*>($($argument),*),
            $crate::Prim::LessOrEqual => $call::<$crate::TwoValued<$crate::function_types::LessOrEqual> $(, $parameter)*>($($argument),*),
            $crate::Prim::Equal => $call::<$crate::TwoValued<$crate::function_types::Equal> $(, $parameter)*>($($argument),*),
            $crate::Prim::GreaterOrEqual => $call::<$crate::TwoValued<$crate::function_types::GreaterOrEqual> $(, $parameter)*>($($argument),*),
            $crate::Prim::Greater => $call::<$crate::TwoValued<$crate::function_types::Greater> $(, $parameter)*>($($argument),*),
            $crate::Prim::NotEqual => $call::<$crate::TwoValued<$crate::function_types::NotEqual> $(, $parameter)*>($($argument),*),
            $crate::Prim::Divide | $crate::Prim::Stile | $crate::Prim::Star | $crate::Prim::Bang | $crate::Prim::Tilde => $otherwise,
        }
    };
}

/// Whether folds by a scalar function have summaries.
pub fn has_summary(function: ScalarFunction) -> bool
    ensures { result ≡ has_summary function }
{
    !matches!(
        function,
        ScalarFunction::Divide
            | ScalarFunction::Stile
            | ScalarFunction::Star
            | ScalarFunction::Bang
            | ScalarFunction::Tilde
    )
}
