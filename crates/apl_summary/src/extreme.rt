//! Summaries under `⌊` and under `⌈`.
ghost use Rattle.std.specs.Prelude.{◌≡◌, ℕ};
ghost use Rattle.apl_pool.specs.Summaries.{IsI64};

use crate::extremum::{Extremum, extremum_of_run};
use crate::running::{Running, append_scan_after, scan_run_after};
use crate::running_columns::append_columns_after;
use crate::running_extreme::RunningExtreme;
use apl_answer::Numeric;
use apl_pool::{Fault, Kernel, Summary};
use std::alloc::{AllocError, Global};

/// The summary of numbers under `⌊` if `GREATEST` is 0, else under `⌈`: the least or the greatest of
/// them. Nothing that comes in is refused.
#[derive(Clone, Copy)]
pub struct Extreme<const GREATEST: u8> {
    extremum: Extremum,
    ghost lawful: { IsI64 extremum.item },
}

impl<const GREATEST: u8> Summary for Extreme<GREATEST> {
    type Item = i64;

    ghost use Rattle.std.specs.Prelude.{nat_eq};
    ghost use Rattle.apl_scalar.specs.Scalar.{dyadic_numbers};
    ghost use Rattle.apl_summary.specs.Extremes.{extreme_function, extreme_outcome};

    ghost step = { dyadic_numbers (extreme_function (nat_eq GREATEST 0)) };

    ghost item_count = { λ s. s.extremum.count };

    ghost outcome = { λ s right. extreme_outcome (nat_eq GREATEST 0) s.extremum right };

    fn one(item: i64) -> Self {
        Extreme {
            extremum: Extremum::one(item),
        }
    }

    fn join(left: &Self, right: &Self) -> Self {
        Extreme {
            extremum: left.extremum.joined(GREATEST == 0, &right.extremum),
        }
    }

    fn items(&self) -> u32 {
        self.extremum.count
    }

    fn apply(&self, right: i64) -> Result<i64, Fault> {
        Ok(self.extremum.apply(GREATEST == 0, right))
    }

    fn of_run<K: Kernel<Out = i64>>(kernel: &K, from: usize, to: usize) -> Option<Self> {
        let extremum = extremum_of_run(GREATEST == 0, kernel, from, to)?;
        Some(Extreme { extremum })
    }
}

impl<const GREATEST: u8> Running for Extreme<GREATEST> {
    fn scan_run(before: &Option<Self>, numbers: &[i64], room: &mut [i64]) -> usize {
        let front = match before {
            None => RunningExtreme::<GREATEST>::none(),
            Some(before) => RunningExtreme {
                item: before.extremum.item,
            },
        };
        scan_run_after(front, numbers, room)
    }

    fn append_scan<T: Numeric>(numbers: &[T], values: Vec<i64>) -> Vec<i64> {
        append_scan_after(RunningExtreme::<GREATEST>::none(), numbers, values)
    }

    fn append_columns<T: Numeric>(
        alloc: Global,
        numbers: &[T],
        items: usize,
        inner: usize,
        values: Vec<i64>,
    ) -> Result<Vec<i64>, AllocError> {
        let front = RunningExtreme::<GREATEST>::none();
        append_columns_after(front, alloc, numbers, items, inner, values)
    }
}
