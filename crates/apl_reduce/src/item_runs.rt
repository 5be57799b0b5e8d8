//! Items of an inner product by runs, of which all are sure before they are folded.
ghost use Rattle.std.specs.Prelude.{◌≡◌, ℕ, ◌+◌, ◌-◌, ◌*◌, ◌<◌, ◌≤◌, IfSome, Ok, length, map};
ghost use Rattle.apl_array.specs.declared.array.Elem.TheVariants.{Int};
ghost use Rattle.apl_pool.specs.declared.kernel.TheConstants.{MOST_PLACES};
ghost use Rattle.apl_pool.specs.Runs.{AreWritten};
ghost use Rattle.apl_reduce.specs.declared.item_runs.TheConstants.{LONGEST_RUN};
ghost use Rattle.apl_reduce.specs.Folded.{folded_onto, element_along};
ghost use Rattle.apl_reduce.specs.Items.{folded_from};
ghost use Rattle.apl_scalar.specs.Meeting.{meeting_number};

use crate::dyadic::Chosen;
use crate::foldable::Foldable;
use crate::items::Items;
use crate::product_items::LineItems;
use apl_answer::ElementType;
use apl_array::ScalarFunction;
use apl_pool::Fault;
use apl_scalar::function_types::Function;
use apl_scalar::{Spaced, with_type, write_items};

/// The most items of a run. A processor fetches memory ahead within a run, and not from one run to the next, which is before it.
pub(crate) const LONGEST_RUN: usize = 1024;

/// Writes what a function gives of the elements of two lists that meet at each place into the room for them. It ends at some place, or at
/// the first that has a fault, and answers how many it wrote.
fn write_meeting<T: ElementType, U: ElementType>(
    g: ScalarFunction,
    left: Spaced<T>,
    right: Spaced<U>,
    room: &mut [i64],
) -> usize
    requires same { right.count ≡ left.count }
    requires most { left.count ≤ MOST_PLACES }
    requires room { left.count ≤ length room.old }
    ensures within { result ≤ left.entry.count }
    ensures values { AreWritten (meeting_number g (map T.elem_of left.entry.elements.now) left.entry.first left.entry.stride (map U.elem_of right.entry.elements.now) right.entry.first right.entry.stride) 0 result room.new }
    ensures len { length room.new ≡ length room.old }
{
    with_type!(g, write_items::<F, T, U>(left, right, room))
}

fn fold_typed<F: Function>(numbers: &[i64], count: usize, total: i64) -> Result<i64, Fault>
    requires within { count < length numbers.now }
    requires most { length numbers.now ≤ MOST_PLACES }
    ensures { result ≡ folded_onto F.FUNCTION (element_along (map Int numbers.now) 0 1) 0 count (Ok total) }
{
    i64::fold_onto::<F>(numbers, 0, 1, count, total)
}

/// The right fold of the first `count` numbers onto what those after them gave.
fn fold_front(f: ScalarFunction, numbers: &[i64], count: usize, total: i64) -> Result<i64, Fault>
    requires within { count < length numbers.now }
    requires most { length numbers.now ≤ MOST_PLACES }
    ensures { result ≡ folded_onto f (element_along (map Int numbers.now) 0 1) 0 count (Ok total) }
{
    with_type!(f, fold_typed::<F>(numbers, count, total))
}

impl<T: ElementType, U: ElementType> LineItems<'_, T, U, Chosen> {
    /// The fold of a run of items onto what those after them gave, if neither an item nor a step has a fault. The items are put into the
    /// room first.
    fn fold_run(
        &self,
        f: ScalarFunction,
        first: usize,
        count: usize,
        folded: i64,
        room: &mut [i64],
    ) -> Option<i64>
        requires within { first + count < self.now.count }
        requires room { count < length room.old }
        requires most { length room.old ≤ MOST_PLACES }
        ensures value { let x = self.now in
            let item = meeting_number x.pairing.0 (map T.elem_of x.left.now) x.left_start x.left_stride (map U.elem_of x.right.now) x.right_start x.right_stride in
            (last : ℕ) → first + count ≤ last → folded_from item f (first + count) (last - (first + count)) ≡ Ok folded → IfSome result (λ z. folded_from item f first (last - first) ≡ Ok z) }
        ensures len { length room.new ≡ length room.old }
    {
        let left = Spaced {
            elements: self.left,
            first: self.left_start + first * self.left_stride,
            stride: self.left_stride,
            count,
        };
        let right = Spaced {
            elements: self.right,
            first: self.right_start + first * self.right_stride,
            stride: self.right_stride,
            count,
        };
        let written = write_meeting(self.pairing.0, left, right, room);
        if written < count {
            return None;
        }
        fold_front(f, room, count, folded).ok()
    }

    /// The fold of all items, run by run from the last one, if neither an item nor a step has a fault.
    pub(crate) fn sure_fold(&self, f: ScalarFunction, room: &mut [i64]) -> Option<i64>
        requires some { 0 < self.now.count }
        requires room { length room.old ≡ LONGEST_RUN + 1 }
        ensures value { let x = self.now in
            let item = meeting_number x.pairing.0 (map T.elem_of x.left.now) x.left_start x.left_stride (map U.elem_of x.right.now) x.right_start x.right_stride in
            IfSome result (λ z. folded_from item f 0 (x.count - 1) ≡ Ok z) }
        ensures len { length room.new ≡ length room.old }
    {
        let mut k = self.count - 1;
        let mut folded = self.at(k).ok()?;
        while k > 0 {
            let count = k.min(LONGEST_RUN);
            k -= count;
            folded = self.fold_run(f, k, count, folded, room)?;
        }
        Some(folded)
    }
}
