//! The items along an axis as rows, of which all workers share the items.
ghost use Rattle.std.specs.Prelude.{◌*◌, ◌≤◌};
ghost use Rattle.apl_pool.specs.declared.kernel.TheConstants.{MOST_PLACES};

use crate::axis_items::AxisItems;
use apl_answer::Numeric;
use apl_pool::{Fault, Rows};
use apl_summary::FoldedRows;

/// All items at each place but the last as a row, to which the last one comes in.
#[derive(Drop)]
pub(crate) struct ItemRows<'a, T> {
    pub axis: &'a AxisItems<'a, T>,
    ghost all: { axis.now.count * axis.now.items ≤ MOST_PLACES },
}

impl<T: Numeric> Rows for ItemRows<'_, T> {
    ghost use Rattle.std.specs.Prelude.{◌-◌, Ok, map};
    ghost use Rattle.apl_reduce.specs.Folded.{number_of_axis};

    type Out = i64;

    ghost row_count = { λ r. r.axis.now.count };

    ghost place_count = { λ r. r.axis.now.items - 1 };

    ghost outcome = { λ r row k. Ok (number_of_axis (map T.number_in r.axis.now.elements.now) r.axis.now.block r.axis.now.inner row k) };

    fn rows(&self) -> usize {
        self.axis.count
    }

    fn count(&self) -> usize {
        self.axis.items - 1
    }

    #[inline(always)]
    fn at(&self, row: usize, place: usize) -> Result<i64, Fault> {
        Ok(self.axis.number(row, place))
    }
}

impl<T: Numeric> FoldedRows for ItemRows<'_, T> {
    ghost use Rattle.std.specs.Prelude.{◌-◌, Ok, map};
    ghost use Rattle.apl_reduce.specs.Folded.{number_of_axis};

    ghost incoming = { λ r row. Ok (number_of_axis (map T.number_in r.axis.now.elements.now) r.axis.now.block r.axis.now.inner row (r.axis.now.items - 1)) };

    fn incoming(&self, row: usize) -> Result<i64, Fault> {
        Ok(self.axis.number(row, self.axis.items - 1))
    }
}
