//! Inner products.
ghost use Rattle.std.specs.Prelude.{◌≢◌, IsTrue, length, map};
ghost use Rattle.apl_array.specs.declared.array.Elem.TheVariants.{Int, Chr};
ghost use Rattle.apl_array.specs.declared.function.ScalarFunction.TheVariants.{Plus as PlusNamed, Times as TimesNamed};
ghost use Rattle.apl_array.specs.Array.{IsArray};
ghost use Rattle.apl_array.specs.Valences.{has_dyadic};
ghost use Rattle.apl_answer.specs.Rows.{Answers};
ghost use Rattle.apl_reduce.specs.Filled.{IsFilled};
ghost use Rattle.apl_reduce.specs.Layouts.{IsWithin, inner_number};
ghost use Rattle.apl_reduce.specs.Products.{inner_row};

use crate::columns::fill_columns;
use crate::conformability::{common_length, layout_of, left_lengths, right_lengths};
use crate::dyadic::{Chosen, Dyadic, Typed};
use crate::inner_runs::fill_runs;
use crate::items::{SameItems, reduced};
use crate::layouts::{Layout, SEVERAL_ITEMS};
use crate::magnitudes::{is_narrow, magnitude, sums_are_small};
use crate::narrow_products::fill_narrow_products;
use crate::product_items::ProductItems;
use crate::product_rows::fill_product_rows;
use crate::product_sums::fill_product_sums;
use crate::shapes::{characters_of, joined_shape};
use crate::sums::Sums;
use apl_answer::{ElementType, OpFault, array_from_fill, fill_uniform, numbers_of};
use apl_array::{Array, Elem, ScalarFunction, range_is_decided};
use apl_divisor::Divisor;
use apl_pool::{Crew, Cut, Fault, Gate, Kernel, Pool, Stop, Workers, fill};
use apl_scalar::function_types::{
    And, Ceiling, Equal, Floor, Function, NotEqual, Or, Plus, Star, Times,
};
use apl_scalar::{Prim, dyadic_result};
use apl_walk::ByLines;
use std::alloc::Global;
use std::marker::PhantomData;
use std::thread::Threads;

/// The reduction of the items at each place of an inner product.
#[derive(Drop)]
struct Reductions<'a, T, U, F: Dyadic, P: Dyadic> {
    items: ProductItems<'a, T, U, P>,
    function: F,
}

impl<T: ElementType, U: ElementType, F: Dyadic, P: Dyadic> Kernel for Reductions<'_, T, U, F, P> {
    ghost use Rattle.std.specs.Prelude.{map};
    ghost use Rattle.apl_reduce.specs.Layouts.{inner_number};

    type Out = i64;

    ghost place_count = { λ k. k.items.layout.now.count };

    ghost outcome = { λ k place. inner_number k.items.layout.now (map T.elem_of k.items.left.now) (map U.elem_of k.items.right.now) (F.function k.function) (P.function k.items.pairing) place };

    fn count(&self) -> usize {
        self.items.layout.count
    }

    fn piece(&self) -> usize {
        self.items.layout.piece()
    }

    fn work(&self) -> usize {
        self.items.layout.work()
    }

    fn at(&self, place: usize) -> Result<i64, Fault> {
        let items = self.items.line(place);
        reduced(&items, self.function)
    }
}

/// The reduction of the items at each place.
fn fill_inner<
    T: ElementType + Sync,
    U: ElementType + Sync,
    F: Dyadic + Sync,
    P: Dyadic + Sync,
    W: Crew,
>(
    workers: &W,
    layout: &Layout,
    left: &[T],
    right: &[U],
    function: F,
    pairing: P,
) -> Result<Vec<i64>, Stop>
    requires { IsWithin layout.now (length left.now) (length right.now) }
    ensures { IsFilled (inner_number layout.now (map T.elem_of left.now) (map U.elem_of right.now) (F.function function) (P.function pairing)) layout.now.count result }
{
    let items = ProductItems {
        layout,
        columns: Divisor::new(layout.columns),
        left,
        right,
        pairing,
    };
    let kernel = Reductions { items, function };
    fill(workers, &kernel)
}

/// The reduction of the items at each place by two functions, for which the loop over the items is compiled.
fn compiled<T: ElementType + Sync, F: Function + Copy + Sync, P: Function + Copy + Sync, W: Crew>(
    workers: &W,
    layout: &Layout,
    left: &[T],
    right: &[T],
) -> Result<Vec<i64>, Stop>
    requires { IsWithin layout.now (length left.now) (length right.now) }
    ensures { IsFilled (inner_number layout.now (map T.elem_of left.now) (map T.elem_of right.now) F.FUNCTION P.FUNCTION) layout.now.count result }
{
    let (function, pairing) = (Typed::<F>(PhantomData), Typed::<P>(PhantomData));
    fill_inner(workers, layout, left, right, function, pairing)
}

/// The reduction of the items at each place by two functions: of a few items by a compiled loop, and of more by runs.
fn typed<T: ElementType + Sync, F: Function + Copy + Sync, P: Function + Copy + Sync, W: Crew>(
    workers: &W,
    layout: &Layout,
    left: &[T],
    right: &[T],
) -> Result<Vec<i64>, Stop>
    requires { IsWithin layout.now (length left.now) (length right.now) }
    ensures { IsFilled (inner_number layout.now (map T.elem_of left.now) (map T.elem_of right.now) F.FUNCTION P.FUNCTION) layout.now.count result }
{
    if layout.items >= SEVERAL_ITEMS {
        return fill_runs(workers, layout, left, right, F::FUNCTION, P::FUNCTION);
    }
    compiled::<T, F, P, W>(workers, layout, left, right)
}

/// The reduction of the items at each place by two functions, which are chosen at each of a few items.
fn chosen<T: ElementType + Sync, W: Crew>(
    workers: &W,
    f: ScalarFunction,
    g: ScalarFunction,
    layout: &Layout,
    left: &[T],
    right: &[T],
) -> Result<Vec<i64>, Stop>
    requires { IsWithin layout.now (length left.now) (length right.now) }
    ensures { IsFilled (inner_number layout.now (map T.elem_of left.now) (map T.elem_of right.now) f g) layout.now.count result }
{
    if layout.items >= SEVERAL_ITEMS {
        return fill_runs(workers, layout, left, right, f, g);
    }
    fill_inner(workers, layout, left, right, Chosen(f), Chosen(g))
}

/// The sums of products where no look at all numbers has shown that each sum is in the range.
fn fill_doubtful_sums<W: Crew>(
    workers: &W,
    layout: &Layout,
    left: &[i64],
    right: &[i64],
) -> Result<Vec<i64>, Stop>
    requires { IsWithin layout.now (length left.now) (length right.now) }
    ensures { IsFilled (inner_number layout.now (map Int left.now) (map Int right.now) PlusNamed TimesNamed) layout.now.count result }
{
    if layout.items_are_neighbours() && layout.items >= SEVERAL_ITEMS {
        return fill_product_sums(workers, layout, left, right);
    }
    typed::<i64, Plus, Times, W>(workers, layout, left, right)
}

/// The sums of products, each added with no check if no sum can leave the range.
fn fill_sums<W: Crew>(
    workers: &W,
    layout: &Layout,
    left: &[i64],
    right: &[i64],
) -> Result<Vec<i64>, Stop>
    requires { IsWithin layout.now (length left.now) (length right.now) }
    ensures { IsFilled (inner_number layout.now (map Int left.now) (map Int right.now) PlusNamed TimesNamed) layout.now.count result }
{
    if !layout.is_pass_worthwhile() {
        return fill_doubtful_sums(workers, layout, left, right);
    }
    let (left_most, right_most) = (magnitude(left), magnitude(right));
    if !sums_are_small(left_most, right_most, layout.items) {
        return fill_doubtful_sums(workers, layout, left, right);
    }
    range_is_decided();
    let is_near = layout.items_are_neighbours();
    let sums = Sums {
        left,
        right,
        layout,
        is_narrow: is_near && is_narrow(left_most) && is_narrow(right_most),
    };
    fill(workers, &ByLines::new(sums))
}

/// An inner product of numbers, compiled for each of the usual pairs of functions. Those by `∧.=` and `∨.≠` are quicker item by item than
/// by runs.
fn fill_inner_numbers<W: Crew>(
    workers: &W,
    f: ScalarFunction,
    g: ScalarFunction,
    layout: &Layout,
    left: &[i64],
    right: &[i64],
) -> Result<Vec<i64>, Stop>
    requires { IsWithin layout.now (length left.now) (length right.now) }
    ensures { IsFilled (inner_number layout.now (map Int left.now) (map Int right.now) f g) layout.now.count result }
{
    match (f, g) {
        (Prim::Plus, Prim::Times) => fill_sums(workers, layout, left, right),
        (Prim::Plus, Prim::And) => { typed::<i64, Plus, And, W>(workers, layout, left, right) }
        (Prim::Plus, Prim::Equal) => { typed::<i64, Plus, Equal, W>(workers, layout, left, right) }
        (Prim::Or, Prim::And) => typed::<i64, Or, And, W>(workers, layout, left, right),
        (Prim::And, Prim::Equal) => { compiled::<i64, And, Equal, W>(workers, layout, left, right) }
        (Prim::Or, Prim::NotEqual) => {
            compiled::<i64, Or, NotEqual, W>(workers, layout, left, right)
        }
        (Prim::Floor, Prim::Plus) => { typed::<i64, Floor, Plus, W>(workers, layout, left, right) }
        (Prim::Ceiling, Prim::Plus) => {
            typed::<i64, Ceiling, Plus, W>(workers, layout, left, right)
        }
        (Prim::Ceiling, Prim::Times) => {
            typed::<i64, Ceiling, Times, W>(workers, layout, left, right)
        }
        (Prim::Times, Prim::Star) => { typed::<i64, Times, Star, W>(workers, layout, left, right) }
        _ => chosen(workers, f, g, layout, left, right),
    }
}

/// An inner product of numbers. The right ones are brought into the order of their columns first if that pays.
fn fill_inner_ordered<W: Crew>(
    workers: &W,
    f: ScalarFunction,
    g: ScalarFunction,
    layout: &Layout,
    left: &[i64],
    right: &[i64],
) -> Result<Vec<i64>, Stop>
    requires { IsWithin layout.now (length left.now) (length right.now) }
    ensures { IsFilled (inner_number layout.now (map Int left.now) (map Int right.now) f g) layout.now.count result }
{
    if !layout.repays_an_order() {
        return fill_inner_numbers(workers, f, g, layout, left, right);
    }
    let columns = fill_columns(workers, layout, right)?;
    let ordered = layout.by_columns();
    fill_inner_numbers(workers, f, g, &ordered, left, columns.as_slice())
}

/// An inner product of numbers. Sums of products of few lines go row by row.
fn fill_inner_rows<W: Crew>(
    workers: &W,
    f: ScalarFunction,
    g: ScalarFunction,
    layout: &Layout,
    left: &[i64],
    right: &[i64],
) -> Result<Vec<i64>, Stop>
    requires { IsWithin layout.now (length left.now) (length right.now) }
    ensures { IsFilled (inner_number layout.now (map Int left.now) (map Int right.now) f g) layout.now.count result }
{
    match (f, g) {
        (Prim::Plus, Prim::Times) if layout.goes_by_rows() => {
            fill_product_rows(workers, layout, left, right)
        }
        _ => fill_inner_ordered(workers, f, g, layout, left, right),
    }
}

/// An inner product of characters, which only `=` and `≠` give items of.
fn fill_inner_characters<W: Crew>(
    workers: &W,
    f: ScalarFunction,
    g: ScalarFunction,
    layout: &Layout,
    left: &[char],
    right: &[char],
) -> Result<Vec<i64>, Stop>
    requires { IsWithin layout.now (length left.now) (length right.now) }
    ensures { IsFilled (inner_number layout.now (map Chr left.now) (map Chr right.now) f g) layout.now.count result }
{
    match (f, g) {
        (Prim::And, Prim::Equal) => {
            compiled::<char, And, Equal, W>(workers, layout, left, right)
        }
        (Prim::Plus, Prim::Equal) => { typed::<char, Plus, Equal, W>(workers, layout, left, right) }
        (Prim::Or, Prim::NotEqual) => {
            compiled::<char, Or, NotEqual, W>(workers, layout, left, right)
        }
        _ => chosen(workers, f, g, layout, left, right),
    }
}

/// An inner product of numbers and characters, whose items are all alike.
fn fill_mixed_items<W: Crew>(
    workers: &W,
    f: ScalarFunction,
    g: ScalarFunction,
    layout: &Layout,
    a: &Array,
    b: &Array,
) -> Result<Vec<i64>, Stop>
    requires within { IsWithin layout.now (length a.now.ravel) (length b.now.ravel) }
    requires kinds { a.now.kind ≢ b.now.kind }
    requires left { IsArray a.now }
    requires right { IsArray b.now }
    ensures { IsFilled (inner_number layout.now a.now.ravel b.now.ravel f g) layout.now.count result }
{
    let items = SameItems {
        item: dyadic_result(g, Elem::Int(0), Elem::Chr(' ')),
        count: layout.items,
    };
    fill_uniform(workers, layout.count, reduced(&items, Chosen(f)))
}

/// An inner product of any two arguments.
fn fill_inner_elements<W: Crew>(
    workers: &W,
    f: ScalarFunction,
    g: ScalarFunction,
    layout: &Layout,
    a: &Array,
    b: &Array,
) -> Result<Vec<i64>, Stop>
    requires { IsWithin layout.now (length a.now.ravel) (length b.now.ravel) }
    ensures { IsFilled (inner_number layout.now a.now.ravel b.now.ravel f g) layout.now.count result }
{
    if let Some(filled) = fill_narrow_products(workers, f, g, layout, a, b) {
        return filled;
    }
    match (numbers_of(workers, a)?, numbers_of(workers, b)?) {
        (Some(left), Some(right)) => {
            fill_inner_rows(workers, f, g, layout, left.as_slice(), right.as_slice())
        }
        (None, None) => {
            fill_inner_characters(workers, f, g, layout, characters_of(a), characters_of(b))
        }
        _ => fill_mixed_items(workers, f, g, layout, a, b),
    }
}

/// `A f.g B`, inner product: the reduction by `f` of `g` of the items along the last axis of `A` and the first axis of `B`.
/// Shape: that of `A` without its last axis, then that of `B` without its first. A scalar or a vector of one element serves all items.
/// Errors in order: LENGTH of the items, LIMIT of the shape, then that of the least index list. There the items by `g` come before the
/// fold by `f`.
/// Source: APL\360 User's Manual, inner product; the order of errors is this calculator's own.
pub fn inner<R: Threads + Sync, C: Cut + Sync, G: Gate + Sync>(
    rt: &R,
    alloc: Global,
    pool: &Pool<C, G>,
    f: ScalarFunction,
    g: ScalarFunction,
    a: &Array,
    b: &Array,
) -> Result<Array, OpFault>
    requires reduction { IsTrue (has_dyadic f) }
    requires items { IsTrue (has_dyadic g) }
    ensures { Answers (inner_row f g a.now b.now) result }
{
    let Some(items) = common_length(a, b) else {
        return Err(OpFault::Length);
    };
    let left = left_lengths(a);
    let shape = joined_shape(alloc, left, right_lengths(b))?;
    let layout = layout_of(a, b, items, &shape, left.len());
    let workers = Workers { rt, alloc, pool };
    array_from_fill(shape, fill_inner_elements(&workers, f, g, &layout, a, b))
}
