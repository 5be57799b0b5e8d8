//! Summaries under `×`.
ghost use Rattle.std.specs.Prelude.{◌≡◌, ℕ};
ghost use Rattle.apl_summary.specs.Coefficients.{AreCoefficients};

use crate::bounded_product::BoundedProduct;
use crate::coefficients::Coefficients;
use crate::running::{Running, append_scan_after, scan_run_after};
use crate::running_columns::append_columns_after;
use crate::small_coefficients::small_coefficients;
use apl_answer::Numeric;
use apl_pool::{Fault, Kernel, Summary};
use std::alloc::{AllocError, Global};

/// The summary of numbers under `×`.
///
/// Each partial result is a coefficient times what comes in. A number that comes in is refused if the least
/// or the greatest coefficient times it is outside the range, so 0 never is.
#[derive(Clone, Copy)]
pub struct Scaled {
    coefficients: Coefficients,
    ghost lawful: { AreCoefficients coefficients },
}

impl Summary for Scaled {
    type Item = i64;

    ghost use Rattle.apl_array.specs.declared.function.ScalarFunction.TheVariants.{Times};
    ghost use Rattle.apl_scalar.specs.Scalar.{dyadic_numbers};
    ghost use Rattle.apl_summary.specs.Coefficients.{scaled_outcome};

    ghost step = { dyadic_numbers Times };

    ghost item_count = { λ s. s.coefficients.count };

    ghost outcome = { λ s right. scaled_outcome s.coefficients right };

    fn one(item: i64) -> Self {
        Scaled {
            coefficients: Coefficients::one(item),
        }
    }

    fn join(left: &Self, right: &Self) -> Self {
        Scaled {
            coefficients: left.coefficients.joined(&right.coefficients),
        }
    }

    fn items(&self) -> u32 {
        self.coefficients.count
    }

    fn apply(&self, right: i64) -> Result<i64, Fault> {
        self.coefficients.apply(right)
    }

    fn of_run<K: Kernel<Out = i64>>(kernel: &K, from: usize, to: usize) -> Option<Self> {
        let small = small_coefficients(kernel, from, to)?;
        Some(Scaled {
            coefficients: small.widened(),
        })
    }
}

impl Running for Scaled {
    fn scan_run(before: &Option<Self>, numbers: &[i64], room: &mut [i64]) -> usize {
        let Some(before) = before else {
            return scan_run_after(BoundedProduct::none(), numbers, room);
        };
        match BoundedProduct::of(&before.coefficients) {
            Some(front) => scan_run_after(front, numbers, room),
            None => 0,
        }
    }

    fn append_scan<T: Numeric>(numbers: &[T], values: Vec<i64>) -> Vec<i64> {
        append_scan_after(BoundedProduct::none(), numbers, values)
    }

    fn append_columns<T: Numeric>(
        alloc: Global,
        numbers: &[T],
        items: usize,
        inner: usize,
        values: Vec<i64>,
    ) -> Result<Vec<i64>, AllocError> {
        append_columns_after(BoundedProduct::none(), alloc, numbers, items, inner, values)
    }
}
