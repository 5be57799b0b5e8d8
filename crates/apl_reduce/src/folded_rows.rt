//! Right folds of rows at equal distances, all places of a stretch at once.
ghost use Rattle.std.specs.Prelude.{◌≡◌, ℕ, ◌+◌, ◌*◌, ◌<◌, ◌≤◌, true, Ok, pos, drop, length, map, slice_index_or, slice_set};
ghost use Rattle.apl_array.specs.declared.array.Elem.TheVariants.{Int};
ghost use Rattle.apl_pool.specs.Runs.{AreWritten};
ghost use Rattle.apl_pool.specs.declared.kernel.TheConstants.{MOST_PLACES};
ghost use Rattle.apl_scalar.specs.Scalar.{dyadic_of};
ghost use Rattle.apl_reduce.specs.declared.near_rows.TheConstants.{MOST_ROWS};
ghost use Rattle.apl_reduce.specs.Folded.{folded_onto, element_along, AreFolds};
ghost use Rattle.apl_reduce.specs.Items.{item_in};
ghost use Rattle.apl_reduce.specs.RowFolds.{AreFoldedOnto};

use crate::foldable::Foldable;
use crate::folding::{element_at, fold_items};
use crate::near_rows::{MOST_ROWS, near_onto};
use apl_answer::{ElementType, Numeric};
use apl_array::ScalarFunction;
use apl_pool::Fault;
use apl_scalar::dyadic_elements;
use apl_scalar::function_types::Function;

/// Puts a value into the room for it.
#[inline(always)]
pub(crate) fn put<X: Copy>(room: &mut [X], place: usize, value: X)
    requires { place < length room.old }
    ensures { room.new ≡ slice_set room.old place value }
{
    room[place] = value;
}

/// The elements from a place on.
#[inline(always)]
pub(crate) fn from_place<T>(elements: &[T], place: usize) -> &[T]
    requires { place ≤ length elements.now }
    ensures { result.now ≡ drop place elements.now }
{
    &elements[place..]
}

/// What the function gives of an item of the last row but one and that below it.
#[inline(always)]
fn last_total<F: Function, T: ElementType>(left: &[T], right: &[T], j: usize) -> Result<i64, Fault>
    requires left { j < length left.now }
    requires right { j < length right.now }
    ensures { result ≡ dyadic_of F.FUNCTION (item_in (map T.elem_of left.now) j) (item_in (map T.elem_of right.now) j) }
{
    dyadic_elements::<F>(element_at(left, j), element_at(right, j))
}

/// Puts what the function gives of each item of the last two rows in place of the totals. It says
/// whether no place has a fault.
#[inline(always)]
pub(crate) fn fold_last_rows<F: Function, T: ElementType>(
    left: &[T],
    right: &[T],
    totals: &mut [i64],
) -> bool
    requires left { length totals.old ≤ length left.now }
    requires right { length totals.old ≤ length right.now }
    ensures values { result ≡ true → AreWritten (λ j. dyadic_of F.FUNCTION (item_in (map T.elem_of left.now) j) (item_in (map T.elem_of right.now) j)) 0 (length totals.old) totals.new }
    ensures len { length totals.new ≡ length totals.old }
{
    for j in 0..totals.len() {
        match last_total::<F, T>(left, right, j) {
            Ok(total) => put(totals, j, total),
            Err(_) => return false,
        }
    }
    true
}

/// Whether the likely results of the function have no branches, and few of them are in doubt. Those of `×` are in doubt past 32 bits.
#[inline(always)]
fn has_likely_rows<F: Function>() -> bool {
    !matches!(
        F::FUNCTION,
        ScalarFunction::Times
            | ScalarFunction::Divide
            | ScalarFunction::Stile
            | ScalarFunction::Star
            | ScalarFunction::Bang
            | ScalarFunction::Tilde
    )
}

/// How many rows are folded in one pass by results, and by numbers where there are too few for a longer one.
const FEW: usize = 4;

/// What the doubts about a likely fold of rows are of.
#[derive(Clone, Copy)]
pub(crate) enum Doubts {
    /// Whether each number is near 0. There are such folds by `+` and `-`, and they are the quickest.
    Numbers,
    /// Whether each result is in the range.
    Results,
}

impl Doubts {
    /// How many rows are folded in one pass over the totals, each of which is read and written once for all of them.
    #[inline(always)]
    fn rows(self) -> usize
        ensures some { 0 < result }
        ensures few { result ≤ MOST_ROWS }
    {
        match self {
            Doubts::Numbers => MOST_ROWS,
            Doubts::Results => FEW,
        }
    }
}

/// A likely fold of `count` numbers that are `stride` apart from place `first` on, onto what those after them gave, and the doubts whether
/// it is that. Each result is judged. It has no branches if likely results have none.
#[inline(always)]
fn judged_onto<F: Function, T: Numeric>(
    numbers: &[T],
    first: usize,
    stride: usize,
    count: usize,
    total: i64,
) -> (i64, u64)
    requires within { first + count * stride < length numbers.now }
    requires most { length numbers.now ≤ MOST_PLACES }
    ensures { result.1 ≡ 0 → folded_onto F.FUNCTION (element_along (map T.elem_of numbers.now) first stride) 0 count (Ok total) ≡ Ok result.0 }
{
    let mut total = total;
    let mut all_doubts = 0;
    let mut place = first + count * stride;
    for _done in 0..count {
        place -= stride;
        let (next, doubts) = F::likely(numbers[place].number(), total);
        total = next;
        all_doubts |= doubts;
    }
    (total, all_doubts)
}

/// The same with doubts of this kind.
#[inline(always)]
fn likely_onto<F: Function, T: Numeric>(
    numbers: &[T],
    first: usize,
    stride: usize,
    count: usize,
    doubts: Doubts,
    total: i64,
) -> (i64, u64)
    requires few { count ≤ MOST_ROWS }
    requires within { first + count * stride < length numbers.now }
    requires most { length numbers.now ≤ MOST_PLACES }
    ensures { result.1 ≡ 0 → folded_onto F.FUNCTION (element_along (map T.elem_of numbers.now) first stride) 0 count (Ok total) ≡ Ok result.0 }
{
    match doubts {
        Doubts::Numbers => near_onto::<F, T>(numbers, first, stride, count, total),
        Doubts::Results => judged_onto::<F, T>(numbers, first, stride, count, total),
    }
}

/// Folds the numbers of `count` more rows on the left into the totals, place by place. It says whether all results are sure. If likely
/// results have no branches, and `count` is constant, a processor does several places at once.
#[inline(always)]
fn fold_likely<F: Function, T: Numeric>(
    numbers: &[T],
    first: usize,
    stride: usize,
    count: usize,
    doubts: Doubts,
    totals: &mut [i64],
) -> bool
    requires few { count ≤ MOST_ROWS }
    requires within { first + count * stride + length totals.old ≤ length numbers.now }
    requires most { length numbers.now ≤ MOST_PLACES }
    ensures values { result ≡ true → AreFoldedOnto F.FUNCTION (map T.elem_of numbers.now) first stride count totals.old totals.new }
    ensures len { length totals.new ≡ length totals.old }
{
    let mut all_doubts = 0;
    for j in 0..totals.len() {
        let (total, own_doubts) = likely_onto::<F, T>(
            numbers,
            first + j,
            stride,
            count,
            doubts,
            totals[j],
        );
        put(totals, j, total);
        all_doubts |= own_doubts;
    }
    all_doubts == 0
}

/// Folds the items of `count` more rows on the left into the totals, place by place. It says whether no place has a fault.
#[inline(always)]
pub(crate) fn fold_each<F: Function, T: ElementType>(
    elements: &[T],
    first: usize,
    stride: usize,
    count: usize,
    totals: &mut [i64],
) -> bool
    requires within { first + count * stride + length totals.old ≤ length elements.now }
    requires most { length elements.now ≤ MOST_PLACES }
    ensures values { result ≡ true → AreFoldedOnto F.FUNCTION (map T.elem_of elements.now) first stride count totals.old totals.new }
    ensures len { length totals.new ≡ length totals.old }
{
    for j in 0..totals.len() {
        match fold_items::<F, T>(elements, first + j, stride, count, totals[j]) {
            Ok(total) => put(totals, j, total),
            Err(_) => return false,
        }
    }
    true
}

/// Folds the numbers of `count` more rows on the left into the totals, by likely results if these are quick. It says whether no place
/// has a fault.
#[inline(always)]
pub(crate) fn fold_number_rows<F: Function, T: Numeric>(
    numbers: &[T],
    first: usize,
    stride: usize,
    count: usize,
    doubts: Doubts,
    totals: &mut [i64],
) -> bool
    requires few { count ≤ MOST_ROWS }
    requires within { first + count * stride + length totals.old ≤ length numbers.now }
    requires most { length numbers.now ≤ MOST_PLACES }
    ensures values { result ≡ true → AreFoldedOnto F.FUNCTION (map T.elem_of numbers.now) first stride count totals.old totals.new }
    ensures len { length totals.new ≡ length totals.old }
{
    if has_likely_rows::<F>() {
        fold_likely::<F, T>(numbers, first, stride, count, doubts, totals)
    } else {
        fold_each::<F, T>(numbers, first, stride, count, totals)
    }
}

/// Folds the items of the first `more` rows into the totals of those after them. It says whether no place has a fault, or may have one.
#[inline(always)]
pub(crate) fn fold_rows<F: Function, T: Foldable>(
    elements: &[T],
    first: usize,
    stride: usize,
    more: usize,
    doubts: Doubts,
    totals: &mut [i64],
) -> bool
    requires within { first + more * stride + length totals.old ≤ length elements.now }
    requires most { length elements.now ≤ MOST_PLACES }
    requires folds { AreFolds F.FUNCTION (map T.elem_of elements.now) first stride more 0 totals.old }
    ensures folds { result ≡ true → AreFolds F.FUNCTION (map T.elem_of elements.now) first stride 0 more totals.new }
    ensures len { length totals.new ≡ length totals.old }
{
    let rows = doubts.rows();
    let mut row = more;
    while row > 0 {
        let folded = if row >= rows {
            row -= rows;
            T::fold_pass::<F>(elements, first + row * stride, stride, rows, doubts, totals)
        } else if row >= FEW {
            row -= FEW;
            T::fold_pass::<F>(elements, first + row * stride, stride, FEW, doubts, totals)
        } else {
            row -= 1;
            T::fold_pass::<F>(elements, first + row * stride, stride, 1, doubts, totals)
        };
        if !folded {
            return false;
        }
    }
    true
}
