//! Summaries under `+` and under `-`.
ghost use Rattle.std.specs.Prelude.{◌≡◌, ℕ, nat_eq};
ghost use Rattle.apl_summary.specs.Constants.{AreConstants};

use crate::bounded_sum::{BoundedSum, append_sums, put_sums_behind};
use crate::constants::Constants;
use crate::near_columns::append_near_columns;
use crate::running::Running;
use crate::running_columns::append_columns_after;
use crate::running_sum::RunningSum;
use crate::small_constants::small_constants;
use apl_answer::Numeric;
use apl_pool::{Fault, Kernel, Summary};
use std::alloc::{AllocError, Global};

/// The summary of numbers under `+` if `MINUS` is 0, else under `-`.
///
/// Each partial result is a constant plus what comes in, or a constant minus it. A number that comes in
/// is refused if it takes the least or the greatest of these constants out of the range.
#[derive(Clone, Copy)]
pub struct SignedSum<const MINUS: u8> {
    constants: Constants,
    ghost lawful: { AreConstants (nat_eq MINUS 0) constants },
}

impl<const MINUS: u8> Summary for SignedSum<MINUS> {
    type Item = i64;

    ghost use Rattle.std.specs.Prelude.{nat_eq};
    ghost use Rattle.apl_scalar.specs.Scalar.{dyadic_numbers};
    ghost use Rattle.apl_summary.specs.Constants.{signed_function, signed_outcome};

    ghost step = { dyadic_numbers (signed_function (nat_eq MINUS 0)) };

    ghost item_count = { λ s. s.constants.count };

    ghost outcome = { λ s right. signed_outcome s.constants right };

    fn one(item: i64) -> Self {
        SignedSum {
            constants: Constants::one(MINUS == 0, item),
        }
    }

    fn join(left: &Self, right: &Self) -> Self {
        SignedSum {
            constants: left.constants.joined(MINUS == 0, &right.constants),
        }
    }

    fn items(&self) -> u32 {
        self.constants.count
    }

    fn apply(&self, right: i64) -> Result<i64, Fault> {
        self.constants.apply(right)
    }

    fn of_run<K: Kernel<Out = i64>>(kernel: &K, from: usize, to: usize) -> Option<Self> {
        let small = small_constants(MINUS == 0, kernel, from, to)?;
        Some(SignedSum {
            constants: small.widened(),
        })
    }
}

impl<const MINUS: u8> Running for SignedSum<MINUS> {
    fn scan_run(before: &Option<Self>, numbers: &[i64], room: &mut [i64]) -> usize {
        let Some(before) = before else {
            return put_sums_behind(RunningSum::<MINUS>::none(), numbers, room);
        };
        match RunningSum::<MINUS>::of(&before.constants) {
            Some(front) => put_sums_behind(front, numbers, room),
            None => 0,
        }
    }

    fn append_scan<T: Numeric>(numbers: &[T], values: Vec<i64>) -> Vec<i64> {
        append_sums::<MINUS, T>(numbers, values)
    }

    fn append_columns<T: Numeric>(
        alloc: Global,
        numbers: &[T],
        items: usize,
        inner: usize,
        values: Vec<i64>,
    ) -> Result<Vec<i64>, AllocError> {
        let near = append_near_columns::<MINUS, T>(numbers, items, inner, values);
        let mut values = near.values;
        if near.are_near {
            return Ok(values);
        }
        values.clear();
        let front = BoundedSum::<MINUS>::none();
        let mut values = append_columns_after(front, alloc, numbers, items, inner, values)?;
        if values.len() == numbers.len() {
            return Ok(values);
        }
        values.clear();
        let front = RunningSum::<MINUS>::none();
        append_columns_after(front, alloc, numbers, items, inner, values)
    }
}
