//! What functions write of the elements of two lists that meet, as in an inner product.
ghost use Rattle.std.specs.Prelude.{◌≡◌, IfSome};

use crate::notation::{array_of, held_numbers, rows_of, scalar_of};
use apl_answer::ElementType;
use apl_array::{Array, Elements};
use apl_pool::MOST_PLACES;
use apl_scalar::function_types::{Equal, Function, Plus, Times};
use apl_scalar::{Prim, Spaced, write_items};
use std::alloc::Global;
use std::test::Fail;

/// How many items there are, the lists with the first element of each that meets and how far apart these are, and the numbers up to the
/// first fault.
const ITEMS: &str = "\
    ⍝ neighbours
    4 (4: 1 2 3 4 from 0 by 1) + (4: 10 20 30 40 from 0 by 1) → 4: 11 22 33 44
    3 (5: 1 2 3 4 5 from 2 by 1) + (4: 10 20 30 40 from 1 by 1) → 3: 23 34 45
    2 (2: 9223372036854775807 ¯9223372036854775808 from 0 by 1) + (2: ¯1 1 from 0 by 1) → 2: 9223372036854775806 ¯9223372036854775807
    2 (2: ¯9223372036854775808 4611686018427387904 from 0 by 1) × (2: 1 ¯2 from 0 by 1) → 2: ¯9223372036854775808
    4 (4: 1 2 3 4 from 0 by 1) = (4: 1 3 3 1 from 0 by 1) → 4: 1 0 1 0
    4 (4: truths 1 1 0 0 from 0 by 1) = (4: truths 1 0 1 0 from 0 by 1) → 4: 1 0 0 1
    4 (4: 'ABCD' from 0 by 1) = (4: 'ABBD' from 0 by 1) → 4: 1 1 0 1
    ⍝ two and three apart
    3 (6: 1 2 3 4 5 6 from 1 by 2) + (9: 10 20 30 40 50 60 70 80 90 from 2 by 3) → 3: 32 64 96
    3 (5: ¯1 0 2 0 ¯3 from 0 by 2) × (3: 4 5 6 from 0 by 1) → 3: ¯4 10 ¯18
    3 (6: truths 1 0 0 from 0 by 2) = (6: truths 1 0 from 1 by 2) → 3: 0 1 1
    ⍝ one for all
    4 (4: 1 2 3 4 from 0 by 1) × (3: 5 6 7 from 1 by 0) → 4: 6 12 18 24
    3 (1: 7 from 0 by 0) + (2: 1 2 from 1 by 0) → 3: 9
    3 (3: 5 6 5 from 0 by 1) = (1: 5 from 0 by 0) → 3: 1 0 1
    3 (6: 'ABC' from 0 by 2) = (1: 'C' from 0 by 0) → 3: 0 1 0
    ⍝ a fault
    4 (4: 1 2 9223372036854775807 4 from 0 by 1) + (4: 1 from 0 by 1) → 2: 2 3
    4 (8: 1 0 2 0 ¯9223372036854775808 0 4 0 from 0 by 2) × (1: ¯1 from 0 by 0) → 2: ¯1 ¯2
    2 (2: 9223372036854775807 1 from 0 by 1) + (2: 1 from 0 by 1) → 0:
    ⍝ no items
    0 (0: from 0 by 1) + (0: from 0 by 1) → 0:
    0 (3: 1 2 3 from 9 by 5) × (0: from 0 by 0) → 0:
    0 (0: '' from 0 by 1) = (0: '' from 0 by 3) → 0:
    ⍝ many
    5000 (5000: 1 2 from 0 by 1) + (5000: 10 20 30 from 0 by 1) → 5000: 11 22 31 12 21 32
    5000 (15000: 1 2 3 4 from 1 by 3) × (7: 5 6 7 from 2 by 0) → 5000: 14 7 28 21
    5000 (10000: 1 2 3 from 0 by 2) = (5000: 3 1 from 0 by 1) → 5000: 0 0 0 1 1 0
    5000 (5000: truths 1 0 from 0 by 1) = (5000: truths 1 1 0 from 0 by 1) → 5000: 1 0 0 0 1 1
    5000 (5000: 'AB' from 0 by 1) = (10000: 'ABC' from 0 by 2) → 5000: 1 0 0 0 0 1
    ⍝ many, where the last of 33 meets the last of 32
    5000 (5000: 0 0 0 0 0 0 0 0 0 0 0 0 0 0 0 0 0 0 0 0 0 0 0 0 0 0 0 0 0 0 0 0 4611686018427387904 from 0 by 1) × \
        (5000: 0 0 0 0 0 0 0 0 0 0 0 0 0 0 0 0 0 0 0 0 0 0 0 0 0 0 0 0 0 0 0 2 from 0 by 1) → 1055: 0
    ";

/// A list, the first of its elements that meets, and how far apart these are.
type Side = (Array, (usize, usize));

/// The side of a text `ARRAY from FIRST by STRIDE`.
fn side_of(alloc: Global, text: &str) -> Option<Side> {
    let (array, places) = text.split_once(" from ")?;
    let (first, stride) = places.split_once(" by ")?;
    let places = (first.parse::<usize>().ok()?, stride.parse::<usize>().ok()?);
    Some((array_of(alloc, array)?, places))
}

/// The elements of a list that are so far apart from the first on, if it has so many.
fn spaced_elements<T>(elements: &[T], places: (usize, usize), count: usize) -> Option<Spaced<'_, T>>
    ensures { IfSome result (λ s. s.count ≡ count) }
{
    let (first, stride) = places;
    if count > 0 {
        let last = first.checked_add((count - 1).checked_mul(stride)?)?;
        elements.get(last)?;
    }
    Some(Spaced {
        elements,
        first,
        stride,
        count,
    })
}

/// Writes items into the room for them, if the lists have so many. It answers how many it wrote.
fn written<F: Function + Copy, T: ElementType, U: ElementType>(
    (left, left_places): (&[T], (usize, usize)),
    (right, right_places): (&[U], (usize, usize)),
    room: &mut [i64],
) -> Option<usize> {
    let count = room.len();
    if count > MOST_PLACES {
        return None;
    }
    let left = spaced_elements(left, left_places, count)?;
    let right = spaced_elements(right, right_places, count)?;
    Some(write_items::<F, T, U>(left, right, room))
}

/// Writes the items of two sides into the room for them. It answers how many it wrote.
fn written_of(f: Prim, left: &Side, right: &Side, room: &mut [i64]) -> Option<usize> {
    let (x, y) = (left.1, right.1);
    match (f, left.0.elements(), right.0.elements()) {
        (Prim::Plus, Elements::Numbers(left), Elements::Numbers(right)) => {
            written::<Plus, i64, i64>((left, x), (right, y), room)
        }
        (Prim::Times, Elements::Numbers(left), Elements::Numbers(right)) => {
            written::<Times, i64, i64>((left, x), (right, y), room)
        }
        (Prim::Equal, Elements::Numbers(left), Elements::Numbers(right)) => {
            written::<Equal, i64, i64>((left, x), (right, y), room)
        }
        (Prim::Equal, Elements::Truths(left), Elements::Truths(right)) => {
            written::<Equal, bool, bool>((left, x), (right, y), room)
        }
        (Prim::Equal, Elements::Characters(left), Elements::Characters(right)) => {
            written::<Equal, char, char>((left, x), (right, y), room)
        }
        _ => None,
    }
}

/// The words of a row `COUNT (LEFT) F (RIGHT) → NUMBERS`.
fn words_of(row: &str) -> Option<(usize, &str, Prim, &str, &str)> {
    let (call, wanted) = row.split_once(" → ")?;
    let (count, sides) = call.split_once(" (")?;
    let (left, rest) = sides.split_once(") ")?;
    let (symbol, right) = rest.split_once(" (")?;
    let f = scalar_of(symbol.chars().next()?)?;
    let right = right.strip_suffix(')')?;
    Some((count.parse::<usize>().ok()?, left, f, right, wanted))
}

/// Whether what is written of a row is as wanted. It ends at or before the first fault, and is all if there is none.
fn is_wanted(alloc: Global, row: &str) -> Option<bool> {
    let (count, left, f, right, wanted) = words_of(row)?;
    let left = side_of(alloc, left)?;
    let right = side_of(alloc, right)?;
    let mut room = vec![in alloc; 0; count].ok()?;
    let written = written_of(f, &left, &right, room.as_mut_slice())?;
    let wanted = array_of(alloc, wanted)?;
    let wanted = held_numbers(&wanted)?;
    let is_whole = wanted.len() < count || written == count;
    Some(is_whole && room.as_slice().get(..written) == wanted.get(..written))
}

#[test]
fn items_that_meet(rt: HostRuntime) -> Result<(), Fail> {
    let rows = rows_of(rt.alloc(), ITEMS)?;
    assert_eq!(rt; rows.len(), 26);
    for row in &rows {
        let Some(is_wanted) = is_wanted(rt.alloc(), row) else {
            return Err(Fail::new(format_args!("not a row: {row}")));
        };
        assert!(rt; is_wanted, "{row}");
    }
    Ok(())
}
