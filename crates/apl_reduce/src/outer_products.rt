//! Outer products.
ghost use Rattle.std.specs.Prelude.{◌≡◌, ◌+◌, ◌<◌, ◌≤◌, ◌*◌, true, IfErr, IfOk, IsErr, IsTrue, length, map};
ghost use Rattle.apl_array.specs.declared.array.Kind.TheVariants.{Number};
ghost use Rattle.apl_array.specs.Shape.{count_of};
ghost use Rattle.apl_array.specs.Valences.{has_dyadic};
ghost use Rattle.apl_pool.specs.declared.kernel.TheConstants.{MOST_PLACES};
ghost use Rattle.apl_pool.specs.Runs.{AreWritten};
ghost use Rattle.apl_answer.specs.Pointwise.{IsAnswerAt};
ghost use Rattle.apl_answer.specs.Rows.{Answers};
ghost use Rattle.apl_scalar.specs.Scalar.{as_element};
ghost use Rattle.apl_reduce.specs.Items.{outer_number, pair_number, IsOuterRun};
ghost use Rattle.apl_reduce.specs.Products.{outer_row};

use crate::dyadic::{Chosen, Dyadic};
use crate::shapes::{characters_of, joined_shape};
use apl_answer::{ElementType, OpFault, constant_array, fill_array, numbers_of};
use apl_array::{
    Array, Elem, ScalarFunction, Shape, joined_index_has_place, places_match_index_lists,
};
use apl_divisor::Divisor;
use apl_pool::{Crew, Cut, Fault, Gate, Kernel, Pool, Workers};
use apl_scalar::{
    HeldLoops, as_held, dyadic_result, is_truth_valued, truth_values_are_results, work_of_pairs,
    write_row,
};
use std::alloc::Global;
use std::marker::PhantomData;
use std::thread::Threads;

/// Rows of fewer elements are gone through place by place.
pub(crate) const NARROW: usize = 8;

/// Each element of one list with each element of another, the right one varying fastest.
#[derive(Drop)]
struct EachPair<'a, T, U> {
    left: &'a [T],
    right: &'a [U],
    columns: Divisor,
    count: usize,
    f: ScalarFunction,
    ghost most: { count ≤ MOST_PLACES },
    ghost count_is: { count ≡ length left.now * length right.now },
    ghost columns_are: { columns ≡ length right.now },
}

impl<T: ElementType, U: ElementType> EachPair<'_, T, U> {
    /// The left element of a place's row, and the right ones from that place on. They end before another place, or at the end of the row.
    #[inline(always)]
    fn row_from(&self, from: usize, to: usize) -> (T, &[U])
        requires some { from < to }
        requires within { to ≤ self.now.count }
        ensures within { from + length result.1.now ≤ to }
        ensures pairs { IsOuterRun (map T.elem_of self.now.left.now) (map U.elem_of self.now.right.now) from (length result.1.now)
            (T.elem_of result.0) (map U.elem_of result.1.now) }
    {
        let column = self.columns.remainder(from);
        let end = self.right.len().min(column + (to - from));
        let x = self.left[self.columns.quotient(from)];
        (x, &self.right[column..end])
    }

    /// What the function gives at a place.
    #[inline(always)]
    fn number_at(&self, place: usize) -> Result<i64, Fault>
        requires { place < self.now.count }
        ensures { result ≡ outer_number self.now.f (map T.elem_of self.now.left.now) (map U.elem_of self.now.right.now) place }
    {
        let row = self.columns.quotient(place);
        let column = self.columns.remainder(place);
        Chosen(self.f).of(self.left[row].elem(), self.right[column].elem())
    }
}

/// What a function gives of each pair, as results are held.
#[derive(Drop)]
struct HeldPairs<'a, T, U, H: HeldLoops> {
    pairs: EachPair<'a, T, U>,
    held: PhantomData<H>,
    ghost is_held: { H.is_of pairs.f ≡ true },
}

impl<T: ElementType, U: ElementType, H: HeldLoops> Kernel for HeldPairs<'_, T, U, H> {
    ghost use Rattle.std.specs.Prelude.{map};
    ghost use Rattle.apl_reduce.specs.Items.{outer_number};

    type Out = H;

    ghost place_count = { λ k. k.pairs.count };

    ghost outcome = { λ k place. H.held (outer_number k.pairs.f (map T.elem_of k.pairs.left.now) (map U.elem_of k.pairs.right.now) place) };

    fn count(&self) -> usize {
        self.pairs.count
    }

    fn work(&self) -> usize {
        work_of_pairs::<H>(self.pairs.f, self.pairs.count)
    }

    #[inline(always)]
    fn at(&self, place: usize) -> Result<H, Fault> {
        as_held(self.pairs.number_at(place))
    }

    #[inline(always)]
    fn write_run(&self, from: usize, to: usize, room: &mut [H]) -> usize {
        if from == to || self.pairs.right.len() < NARROW {
            return from;
        }
        let (x, others) = self.pairs.row_from(from, to);
        from + write_row(self.pairs.f, x, others, room)
    }
}

/// The array of this shape of a function of each element of one list and each element of another.
fn outer_array<T: ElementType + Sync, U: ElementType + Sync, W: Crew>(
    workers: &W,
    shape: Shape,
    f: ScalarFunction,
    left: &[T],
    right: &[U],
) -> Result<Array, OpFault>
    requires { count_of shape ≡ length left.now * length right.now }
    ensures { IsAnswerAt shape Number (λ place. as_element (outer_number f (map T.elem_of left.now) (map U.elem_of right.now) place)) result }
{
    let count = shape.count();
    if count == 0 {
        return constant_array(workers, shape, Ok(0));
    }
    let pairs = EachPair {
        left,
        right,
        columns: Divisor::new(right.len()),
        count,
        f,
    };
    if is_truth_valued(f) {
        truth_values_are_results();
        return fill_array(
            workers,
            shape,
            &HeldPairs::<T, U, bool> {
                pairs,
                held: PhantomData,
            },
        );
    }
    fill_array(
        workers,
        shape,
        &HeldPairs::<T, U, i64> {
            pairs,
            held: PhantomData,
        },
    )
}

/// The array of this shape of a function of each element of `a` and each element of `b`.
fn outer_elements<W: Crew>(
    workers: &W,
    shape: Shape,
    f: ScalarFunction,
    a: &Array,
    b: &Array,
) -> Result<Array, OpFault>
    requires places { count_of shape ≡ length a.now.ravel * length b.now.ravel }
    ensures { IsAnswerAt shape Number (λ place. as_element (outer_number f a.now.ravel b.now.ravel place)) result }
{
    match (numbers_of(workers, a)?, numbers_of(workers, b)?) {
        (Some(left), Some(right)) => {
            outer_array(workers, shape, f, left.as_slice(), right.as_slice())
        }
        (None, None) => outer_array(workers, shape, f, characters_of(a), characters_of(b)),
        _ => {
            let same = dyadic_result(f, Elem::Int(0), Elem::Chr(' '));
            constant_array(workers, shape, same)
        }
    }
}

/// `A∘.f B`, outer product: `f` of each element of `A` and each element of `B`.
/// Shape: that of `A`, then that of `B`; of numbers. Errors in order: LIMIT of the shape, then that of the least index list.
/// Source: APL\360 User's Manual, outer product; the order of errors is this calculator's own.
pub fn outer<R: Threads + Sync, C: Cut + Sync, G: Gate + Sync>(
    rt: &R,
    alloc: Global,
    pool: &Pool<C, G>,
    f: ScalarFunction,
    a: &Array,
    b: &Array,
) -> Result<Array, OpFault>
    requires { IsTrue (has_dyadic f) }
    ensures { Answers (outer_row f a.now b.now) result }
{
    places_match_index_lists();
    joined_index_has_place();
    // Arrays and shapes that were asked something are known to be lawful.
    let _kinds = (a.kind(), b.kind());
    let shape = joined_shape(alloc, a.shape().lengths(), b.shape().lengths())?;
    let workers = Workers { rt, alloc, pool };
    outer_elements(&workers, shape, f, a, b)
}
