//! Inner products by runs of items. A place that meets a fault is computed item by item.
ghost use Rattle.std.specs.Prelude.{◌≡◌, ◌+◌, ◌<◌, Ok, IfSome, length, map};
ghost use Rattle.apl_reduce.specs.declared.item_runs.TheConstants.{LONGEST_RUN};
ghost use Rattle.apl_reduce.specs.Filled.{IsFilled};
ghost use Rattle.apl_reduce.specs.Layouts.{IsWithin, inner_number};

use crate::dyadic::Chosen;
use crate::item_runs::LONGEST_RUN;
use crate::items::reduced;
use crate::layouts::Layout;
use crate::product_items::ProductItems;
use apl_answer::ElementType;
use apl_array::ScalarFunction;
use apl_divisor::Divisor;
use apl_pool::{Crew, Fault, Kernel, Stop, fill};

/// The reduction of the items at each place of an inner product, by runs of items.
#[derive(Drop)]
struct RunReductions<'a, T, U> {
    items: ProductItems<'a, T, U, Chosen>,
    f: ScalarFunction,
    ghost some: { 0 < items.layout.now.items },
}

impl<T: ElementType, U: ElementType> RunReductions<'_, T, U> {
    /// The number at a place, if neither an item nor a step of its fold has a fault.
    fn sure_number(&self, place: usize, run: &mut [i64]) -> Option<i64>
        requires place { place < self.now.items.layout.now.count }
        requires run { length run.old ≡ LONGEST_RUN + 1 }
        ensures value { let x = self.now.items in
            IfSome result (λ z. inner_number x.layout.now (map T.elem_of x.left.now) (map U.elem_of x.right.now) self.now.f x.pairing.0 place ≡ Ok z) }
        ensures len { length run.new ≡ length run.old }
    {
        self.items.line(place).sure_fold(self.f, run)
    }
}

impl<T: ElementType, U: ElementType> Kernel for RunReductions<'_, T, U> {
    ghost use Rattle.std.specs.Prelude.{map};
    ghost use Rattle.apl_reduce.specs.Layouts.{inner_number};

    type Out = i64;

    ghost place_count = { λ k. k.items.layout.now.count };

    ghost outcome = { λ k place. inner_number k.items.layout.now (map T.elem_of k.items.left.now) (map U.elem_of k.items.right.now) k.f k.items.pairing.0 place };

    fn count(&self) -> usize {
        self.items.layout.count
    }

    fn piece(&self) -> usize {
        self.items.layout.piece()
    }

    fn work(&self) -> usize {
        self.items.layout.work()
    }

    fn at(&self, place: usize) -> Result<i64, Fault> {
        let mut run = [0; LONGEST_RUN + 1];
        if let Some(number) = self.sure_number(place, &mut run) {
            return Ok(number);
        }
        let items = self.items.line(place);
        reduced(&items, Chosen(self.f))
    }

    fn write_run(&self, from: usize, to: usize, room: &mut [i64]) -> usize {
        let mut run = [0; LONGEST_RUN + 1];
        for place in from..to {
            match self.sure_number(place, &mut run) {
                Some(number) => room[place - from] = number,
                None => return place,
            }
        }
        to
    }
}

/// The reduction of the items at each place, by runs of items.
pub(crate) fn fill_runs<T: ElementType + Sync, U: ElementType + Sync, W: Crew>(
    workers: &W,
    layout: &Layout,
    left: &[T],
    right: &[U],
    f: ScalarFunction,
    g: ScalarFunction,
) -> Result<Vec<i64>, Stop>
    requires within { IsWithin layout.now (length left.now) (length right.now) }
    requires some { 0 < layout.now.items }
    ensures { IsFilled (inner_number layout.now (map T.elem_of left.now) (map U.elem_of right.now) f g) layout.now.count result }
{
    let items = ProductItems {
        layout,
        columns: Divisor::new(layout.columns),
        left,
        right,
        pairing: Chosen(g),
    };
    fill(workers, &RunReductions { items, f })
}
