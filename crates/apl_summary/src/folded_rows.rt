//! Folds of rows by their summaries.
ghost use Rattle.std.specs.Prelude.{◌≡◌, ℤ, ◌<◌, ◌≤◌, true, List};
ghost use Rattle.apl_pool.specs.declared.kernel.TheConstants.{MOST_PLACES};
ghost use Rattle.apl_pool.specs.Summaries.{and_then, fold_onto, IsSummaryOf, AreFolds};
ghost use Rattle.apl_scalar.specs.Scalar.{dyadic_numbers};
ghost use Rattle.apl_summary.specs.Functions.{has_summary};
ghost use Rattle.apl_summary.specs.RowFolds.{HasRowFolds, HasRowStop, stop_at_row};

use crate::with_summary;
use apl_array::ScalarFunction;
use apl_pool::{Crew, Fault, RowSummaries, Rows, Stop, Summary};
use std::alloc::Global;

/// Rows of numbers, each with the number that comes in to it from the right, or a fault in its place.
pub trait FoldedRows: Rows<Out = i64> {
    ghost use Rattle.std.specs.Prelude.{◌≡◌, ◌<◌, ℕ, ℤ, Result};
    ghost use Rattle.apl_pool.specs.declared.kernel.Fault.{Fault};

    // What comes in to each row.
    ghost incoming: { Self → ℕ → Result ℤ Fault };

    /// What comes in to a row. It takes no memory.
    fn incoming(&self, row: usize) -> Result<i64, Fault>
        requires { row < Self.row_count self.now }
        ensures { result ≡ incoming self.now row };
}

/// What the summary of a row gives for what comes in to it.
fn row_fold<S: Summary<Item = i64>, K: FoldedRows>(
    rows: &K,
    row: usize,
    summary: &S,
) -> Result<i64, Fault>
    requires { row < K.row_count rows.now }
    ensures { (items : List ℤ) → IsSummaryOf S.step S.item_count S.outcome summary.now items → result ≡ and_then (K.incoming rows.now row) (fold_onto S.step items) }
{
    match rows.incoming(row) {
        Ok(number) => summary.apply(number),
        Err(fault) => Err(fault),
    }
}

/// The stop of all rows that a stop within a row is.
fn stop_at_row(row: usize, stop: Stop) -> Stop
    requires { row ≤ MOST_PLACES }
    ensures { result ≡ stop_at_row row stop }
{
    match stop {
        Stop::Fault { fault, .. } => {
            let place = row as u32;
            Stop::Fault { place, fault }
        }
        Stop::Memory => Stop::Memory,
    }
}

/// The folds of the rows that have summaries, and why there are no more.
fn row_folds<S: Summary<Item = i64> + Drop, K: FoldedRows>(
    alloc: Global,
    rows: &K,
    folds: RowSummaries<S>,
) -> Result<Vec<i64>, Stop>
    requires most { K.row_count rows.now ≤ MOST_PLACES }
    requires folds { AreFolds S.step S.item_count S.outcome (K.outcome rows.now) (K.row_count rows.now) (K.place_count rows.now) folds.summaries.items folds.end }
    ensures values { HasRowFolds S.step (K.outcome rows.now) (K.row_count rows.now) (K.place_count rows.now) (K.incoming rows.now) result }
    ensures stop { HasRowStop S.step (K.outcome rows.now) (K.row_count rows.now) (K.place_count rows.now) (K.incoming rows.now) result }
{
    let summaries = folds.summaries.as_slice();
    let mut numbers = Vec::with_capacity(alloc, summaries.len())?;
    for row in 0..summaries.len() {
        match row_fold(rows, row, &summaries[row]) {
            Ok(number) => numbers.push_reserved(number),
            Err(fault) => {
                let place = row as u32;
                return Err(Stop::Fault { place, fault });
            }
        }
    }
    match folds.end {
        Ok(()) => Ok(numbers),
        Err(stop) => Err(stop_at_row(summaries.len(), stop)),
    }
}

/// The folds of all rows by one type of summaries.
fn fold_rows_by_summary<S: Summary<Item = i64> + Drop + Send, W: Crew, K: FoldedRows + Sync>(
    workers: &W,
    rows: &K,
) -> Result<Vec<i64>, Stop>
    requires some { 0 < K.place_count rows.now }
    requires most { K.row_count rows.now ≤ MOST_PLACES }
    ensures values { HasRowFolds S.step (K.outcome rows.now) (K.row_count rows.now) (K.place_count rows.now) (K.incoming rows.now) result }
    ensures stop { HasRowStop S.step (K.outcome rows.now) (K.row_count rows.now) (K.place_count rows.now) (K.incoming rows.now) result }
{
    let folds: RowSummaries<S> = workers
        .pool()
        .fold_rows(workers.rt(), workers.alloc(), rows);
    row_folds(workers.alloc(), rows, folds)
}

/// The right fold of the numbers of each row onto what comes in to it, by a function whose folds have summaries. Else the answer is the
/// least row that has a fault, with that fault. In a row they are judged in this order: at its least faulty place, in place of what
/// comes in, of the fold. `Memory` may come in place of any answer. The rows have at least one place.
pub fn fold_rows<W: Crew, K: FoldedRows + Sync>(
    workers: &W,
    function: ScalarFunction,
    rows: &K,
) -> Result<Vec<i64>, Stop>
    requires summary { has_summary function ≡ true }
    requires some { 0 < K.place_count rows.now }
    requires most { K.row_count rows.now ≤ MOST_PLACES }
    ensures values { HasRowFolds (dyadic_numbers function) (K.outcome rows.now) (K.row_count rows.now) (K.place_count rows.now) (K.incoming rows.now) result }
    ensures stop { HasRowStop (dyadic_numbers function) (K.outcome rows.now) (K.row_count rows.now) (K.place_count rows.now) (K.incoming rows.now) result }
{
    with_summary!(
        function,
        fold_rows_by_summary::<S, W, K>(workers, rows),
        unreachable!()
    )
}
