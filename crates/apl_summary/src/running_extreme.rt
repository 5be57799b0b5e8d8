//! The least or the greatest of all numbers up to each.
ghost use Rattle.std.specs.Prelude.{◌≡◌, nat_eq, []};
ghost use Rattle.apl_summary.specs.Fronts.{IsRunningExtreme};

use crate::extremum::extreme_of_two;
use crate::running::PrefixState;

/// The least of numbers if `GREATEST` is 0, else the greatest.
#[derive(Clone, Copy)]
pub struct RunningExtreme<const GREATEST: u8> {
    pub item: i64,
}

impl<const GREATEST: u8> RunningExtreme<GREATEST> {
    /// The extreme of no number.
    pub fn none() -> Self
        ensures { IsRunningExtreme (nat_eq GREATEST 0) result.item [] }
    {
        RunningExtreme {
            item: if GREATEST == 0 { i64::MAX } else { i64::MIN },
        }
    }
}

impl<const GREATEST: u8> PrefixState for RunningExtreme<GREATEST> {
    ghost use Rattle.std.specs.Prelude.{nat_eq};
    ghost use Rattle.apl_scalar.specs.Scalar.{dyadic_numbers};
    ghost use Rattle.apl_summary.specs.Extremes.{extreme_function};
    ghost use Rattle.apl_summary.specs.Fronts.{IsRunningExtreme};

    ghost step = { dyadic_numbers (extreme_function (nat_eq GREATEST 0)) };

    ghost is_of = { λ s. IsRunningExtreme (nat_eq GREATEST 0) s.item };

    #[inline(always)]
    fn with(&self, number: i64) -> Option<(i64, Self)> {
        let item = extreme_of_two(GREATEST == 0, self.item, number);
        Some((item, RunningExtreme { item }))
    }
}
