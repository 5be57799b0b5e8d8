//! Sums of products of arrays that hold their numbers in 32 bits. Numbers that are read once are read as they are held.
ghost use Rattle.std.specs.Prelude.{◌≡◌, ◌<◌, IfSome, length, map};
ghost use Rattle.apl_array.specs.declared.array.Elem.TheVariants.{Int};
ghost use Rattle.apl_array.specs.declared.function.ScalarFunction.TheVariants.{Plus as PlusNamed, Times as TimesNamed};
ghost use Rattle.apl_reduce.specs.Filled.{IsFilled};
ghost use Rattle.apl_reduce.specs.Layouts.{IsWithin, inner_number};
ghost use Rattle.apl_reduce.specs.ProductRows.{IsByRows};

use crate::layouts::{Layout, SEVERAL_ITEMS};
use crate::product_rows::fill_product_rows;
use crate::product_sums::fill_product_sums;
use apl_answer::numbers_of;
use apl_array::{Array, Elements, ScalarFunction};
use apl_pool::{Crew, Stop};
use std::alloc::AllocError;

/// The sums of products of few lines and the rows of a matrix. There are none of characters.
fn fill_narrow_rows<W: Crew>(
    workers: &W,
    layout: &Layout,
    a: &Array,
    right: &[i32],
) -> Option<Result<Vec<i64>, Stop>>
    requires within { IsWithin layout.now (length a.now.ravel) (length right.now) }
    requires by_rows { IsByRows layout.now }
    ensures { IfSome result (IsFilled (inner_number layout.now a.now.ravel (map Int right.now) PlusNamed TimesNamed) layout.now.count) }
{
    match numbers_of(workers, a) {
        Ok(Some(left)) => Some(fill_product_rows(workers, layout, left.as_slice(), right)),
        Ok(None) => None,
        Err(AllocError) => Some(Err(Stop::Memory)),
    }
}

/// The sums of products of lines of neighbours. There are none where no argument holds its numbers in 32 bits.
fn fill_narrow_lines<W: Crew>(
    workers: &W,
    layout: &Layout,
    a: &Array,
    b: &Array,
) -> Option<Result<Vec<i64>, Stop>>
    requires within { IsWithin layout.now (length a.now.ravel) (length b.now.ravel) }
    requires some { 0 < layout.now.items }
    requires left_near { layout.now.left.item ≡ 1 }
    requires right_near { layout.now.right.item ≡ 1 }
    ensures { IfSome result (IsFilled (inner_number layout.now a.now.ravel b.now.ravel PlusNamed TimesNamed) layout.now.count) }
{
    match (a.elements(), b.elements()) {
        (Elements::Narrow(left), Elements::Narrow(right)) => {
            Some(fill_product_sums(workers, layout, left, right))
        }
        (Elements::Narrow(left), Elements::Numbers(right)) => {
            Some(fill_product_sums(workers, layout, left, right))
        }
        (Elements::Numbers(left), Elements::Narrow(right)) => {
            Some(fill_product_sums(workers, layout, left, right))
        }
        _ => None,
    }
}

/// The sums of products of numbers as they are held. There are none where the numbers are read several times, or an argument holds none in
/// 32 bits.
fn fill_held_sums<W: Crew>(
    workers: &W,
    layout: &Layout,
    a: &Array,
    b: &Array,
) -> Option<Result<Vec<i64>, Stop>>
    requires { IsWithin layout.now (length a.now.ravel) (length b.now.ravel) }
    ensures { IfSome result (IsFilled (inner_number layout.now a.now.ravel b.now.ravel PlusNamed TimesNamed) layout.now.count) }
{
    if layout.goes_by_rows() {
        let Elements::Narrow(right) = b.elements() else {
            return None;
        };
        return fill_narrow_rows(workers, layout, a, right);
    }
    if layout.is_pass_worthwhile()
        || layout.items < SEVERAL_ITEMS
        || !layout.items_are_neighbours()
    {
        return None;
    }
    fill_narrow_lines(workers, layout, a, b)
}

/// An inner product of numbers as they are held. There is none by other functions than `+` and `×`.
pub(crate) fn fill_narrow_products<W: Crew>(
    workers: &W,
    f: ScalarFunction,
    g: ScalarFunction,
    layout: &Layout,
    a: &Array,
    b: &Array,
) -> Option<Result<Vec<i64>, Stop>>
    requires { IsWithin layout.now (length a.now.ravel) (length b.now.ravel) }
    ensures { IfSome result (IsFilled (inner_number layout.now a.now.ravel b.now.ravel f g) layout.now.count) }
{
    match (f, g) {
        (ScalarFunction::Plus, ScalarFunction::Times) => fill_held_sums(workers, layout, a, b),
        _ => None,
    }
}
