//! The right argument of an inner product in the order of its columns.
ghost use Rattle.std.specs.Prelude.{◌≡◌, ◌*◌, ◌<◌, ◌≤◌, ◌↔◌, IsTrue, IfOk, IfErr, length};
ghost use Rattle.apl_pool.specs.declared.kernel.Stop.TheVariants.{Memory};
ghost use Rattle.apl_pool.specs.declared.kernel.TheConstants.{MOST_PLACES};
ghost use Rattle.apl_reduce.specs.Layouts.{RepaysAnOrder, HasColumns, IsByColumns, AreByColumns};

use crate::layouts::{Layout, SEVERAL_ITEMS, Strides};
use apl_pool::{Crew, MOST_PLACES, Stop, fill};
use apl_walk::{ByLines, Gathered, Map, Window};

impl Layout {
    /// Whether it pays to bring the right argument into the order of its columns, and there is room for that.
    pub(crate) fn repays_an_order(&self) -> bool
        ensures { IsTrue result ↔ RepaysAnOrder self.now }
    {
        let by_rows = self.right.line == 1 && self.right.item == self.columns;
        let has_columns = self.columns > 1 && self.count >= self.columns;
        let has_several = self.items >= SEVERAL_ITEMS || self.is_pass_worthwhile();
        by_rows
            && has_columns
            && has_several
            && self.items > 0
            && self.columns * self.items <= MOST_PLACES
    }

    /// The layout for a right argument in the order of its columns.
    pub(crate) fn by_columns(&self) -> Layout
        ensures { IsByColumns self.now result }
    {
        let right = Strides {
            line: self.items,
            item: 1,
        };
        Layout {
            left: self.left,
            right,
            items: self.items,
            columns: self.columns,
            count: self.count,
        }
    }
}

/// The numbers of a right argument, one column after the other.
pub(crate) fn fill_columns<W: Crew>(
    workers: &W,
    layout: &Layout,
    numbers: &[i64],
) -> Result<Vec<i64>, Stop>
    requires line { layout.now.right.line ≡ 1 }
    requires item { layout.now.right.item ≡ layout.now.columns }
    requires some { 0 < layout.now.items }
    requires within { HasColumns layout.now (length numbers.now) }
    requires most { layout.now.columns * layout.now.items ≤ MOST_PLACES }
    ensures values { IfOk result (λ v. AreByColumns layout.now numbers.now v.items) }
    ensures stop { IfErr result (λ stop. stop ≡ Memory) }
{
    let strides = layout.right;
    let columns = [Map::Window(Window::whole(layout.columns, strides.line))];
    let items = Window::whole(layout.items, strides.item);
    let kernel = ByLines::new(Gathered::new(numbers, &columns, layout.columns, items));
    fill(workers, &kernel)
}
