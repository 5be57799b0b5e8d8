//! The folds of truth values up to each place of lines of neighbours, as they are.
ghost use Rattle.std.specs.Prelude.{◌≡◌, ◌*◌, ◌/◌, ◌<◌, ◌≤◌, IfOk, IfSome, length};
ghost use Rattle.apl_pool.specs.declared.kernel.TheConstants.{MOST_PLACES};
ghost use Rattle.apl_scan.specs.TruthLines.{AreTruthScans};
ghost use Rattle.apl_scan.specs.TruthScans.{number_list};

use crate::parities::join_by_parity;
use crate::truth_lines::{end_of, join_lines};
use crate::truth_sums::add_lines;
use apl_array::ScalarFunction;
use apl_pool::{Crew, MOST_PLACES};
use std::alloc::AllocError;

/// A scan of truth values. It is of numbers by `+` and `-`, and of truth values by other functions.
#[derive(Drop)]
pub(crate) enum TruthScan {
    Truths(Vec<bool>),
    Numbers(Vec<i64>),
}

/// The scan of truth values along lines of neighbours, if the function is one by which they are scanned as they are. Sums can't leave the
/// range.
pub(crate) fn scan_lines<W: Crew>(
    workers: &W,
    f: ScalarFunction,
    truths: &[bool],
    items: usize,
) -> Result<Option<TruthScan>, AllocError>
    requires most { length truths.now ≤ MOST_PLACES }
    requires items { 0 < items }
    requires lines { length truths.now / items * items ≡ length truths.now }
    ensures { IfOk result (λ found. IfSome found (λ scan. AreTruthScans f truths.now items (number_list scan))) }
{
    if let Some(end) = end_of(f) {
        return Ok(Some(TruthScan::Truths(join_lines(workers, truths, items, end)?)));
    }
    match f {
        ScalarFunction::NotEqual => Ok(Some(TruthScan::Truths(join_by_parity(
            workers, truths, items,
        )?))),
        ScalarFunction::Plus => Ok(Some(TruthScan::Numbers(add_lines::<0, W>(
            workers, truths, items,
        )?))),
        ScalarFunction::Minus => Ok(Some(TruthScan::Numbers(add_lines::<1, W>(
            workers, truths, items,
        )?))),
        _ => Ok(None),
    }
}
