//! Shapes, places of a small array, and arrays that keep their kind.
use crate::notation::{held_characters, held_numbers, held_truths, lengths_of};
use apl_answer::number_at;
use apl_array::{
    Array, Elem, Kind, Ravel, Shape, ShapeError, changed_axis_has_place, elements_determine_array,
    inserted_index_has_place, joined_index_has_place, place_is_sum_of_strides,
    places_match_index_lists, range_is_decided, replaced_index_has_place, reversed_index_is_lawful,
    shape_is_decided, split_index_has_place, transposed_index_has_place,
};
use std::test::Fail;

/// Lengths, and how many elements there are, or why there is no such shape.
const SHAPES: [(&str, Result<usize, ShapeError>); 8] = [
    ("1 1 1 1 1 1 1 1 1", Ok(1)),
    ("1 1 1 1 1 1 1 1 1 1 1 1 1 1 1", Ok(1)),
    ("1 1 1 1 1 1 1 1 1 1 1 1 1 1 1 1", Err(ShapeError::Rank)),
    (
        "1073741825 1073741825 1073741825 1073741825 1073741825 1073741825 1073741825 1073741825 \
         1073741825 1073741825 1073741825 1073741825 1073741825 1073741825 1073741825 1073741825",
        Err(ShapeError::Rank),
    ),
    ("1073741824 2", Err(ShapeError::Count)),
    ("0 1073741825", Err(ShapeError::Count)),
    ("1073741824 1073741824 0", Ok(0)),
    ("", Ok(1)),
];

#[test]
fn shapes(rt: HostRuntime) -> Result<(), Fail> {
    for (text, wanted) in SHAPES {
        let Some(lengths) = lengths_of(rt.alloc(), text) else {
            return Err(Fail::new(format_args!("not lengths: {text}")));
        };
        let count = Shape::new(rt.alloc(), lengths.as_slice()).map(|shape| shape.count());
        assert!(rt; count == wanted, "{text}");
    }
    Ok(())
}

/// Whether each of 24 places has its indexes along three axes.
fn has_coordinates(shape: &Shape) -> bool {
    if shape.rank() != 3 || shape.count() != 24 {
        return false;
    }
    for place in 0..24 {
        let plane = shape.coordinate(place, 0);
        let row = shape.coordinate(place, 1);
        let column = shape.coordinate(place, 2);
        if (plane, row, column) != (place / 12, place / 4 % 3, place % 4) {
            return false;
        }
    }
    true
}

/// Each place of a shape is found again from the indexes along its axes.
#[test]
fn places(rt: HostRuntime) -> Result<(), Fail> {
    let shape = Shape::new(rt.alloc(), &[2, 3, 4])?.copy(rt.alloc())?;
    assert!(rt; shape.rank() == 3 && shape.count() == 24);
    assert!(rt; shape.axis(1) == 3 && shape.lengths()[2] == 4);
    assert!(rt; shape.inner(0) == 12 && shape.inner(1) == 4 && shape.inner(2) == 1);
    assert!(rt; shape.place(&[1, 2, 3]) == 23 && shape.place(&[1, 0, 2]) == 14);
    assert!(rt; has_coordinates(&shape));
    Ok(())
}

/// A shape of more axes than it holds in itself is copied.
#[test]
fn many_axes(rt: HostRuntime) -> Result<(), Fail> {
    let lengths = lengths_of(rt.alloc(), "1 1 1 1 1 1 1 1 1 1 1 1 2 1 3").ok_or("not lengths")?;
    let shape = Shape::new(rt.alloc(), lengths.as_slice())?;
    let copy = shape.copy(rt.alloc())?;
    assert!(rt; copy.rank() == 15 && copy.count() == 6);
    assert!(rt; copy.lengths() == shape.lengths());
    Ok(())
}

/// The indexes of the place 4 along the first and the last of nine axes.
fn ends_of_four(nine: &Shape) -> Option<(usize, usize)> {
    if nine.rank() != 9 || nine.count() <= 4 {
        return None;
    }
    Some((nine.coordinate(4, 0), nine.coordinate(4, 8)))
}

/// A shape of more axes than it holds in itself has its places.
#[test]
fn places_of_many_axes(rt: HostRuntime) -> Result<(), Fail> {
    let nine = Shape::new(rt.alloc(), &[2, 1, 1, 1, 1, 1, 1, 1, 3])?;
    assert!(rt; nine.place(&[1, 0, 0, 0, 0, 0, 0, 0, 2]) == 5);
    assert!(rt; ends_of_four(&nine) == Some((1, 1)));
    Ok(())
}

#[test]
fn laws_of_places() {
    shape_is_decided();
    places_match_index_lists();
    inserted_index_has_place();
    replaced_index_has_place();
    joined_index_has_place();
    reversed_index_is_lawful();
    split_index_has_place();
    changed_axis_has_place();
    place_is_sum_of_strides();
    transposed_index_has_place();
}

#[test]
fn numbers_in_row_order(rt: HostRuntime) -> Result<(), Fail> {
    let alloc = rt.alloc();
    let shape = Shape::new(alloc, &[2, 3])?;
    assert!(rt; shape.count() == 6);
    let table = Array::ints(shape, vec![in alloc; 1, 2, 3, 4, i64::MIN, i64::MAX]?);
    assert!(rt; table.shape().rank() == 2 && table.kind() == Kind::Number);
    assert!(rt; table.get(4) == Elem::Int(i64::MIN) && table.get(5) == Elem::Int(i64::MAX));
    assert!(rt;
        held_numbers(&table).is_some_and(|numbers| numbers.len() == 6)
            && held_truths(&table).is_none()
    );
    let Ravel::Numbers(numbers) = table.into_ravel() else {
        return Err(Fail::new("no numbers"));
    };
    assert!(rt; numbers.last() == Some(&i64::MAX));
    elements_determine_array();
    range_is_decided();
    Ok(())
}

/// Numbers of 32 bits, the ends of their range among them.
#[test]
fn narrow_numbers_in_row_order(rt: HostRuntime) -> Result<(), Fail> {
    let alloc = rt.alloc();
    let shape = Shape::new(alloc, &[2, 3])?;
    assert!(rt; shape.count() == 6);
    let numbers = vec![in alloc; 1, 2, 3, 4, i32::MIN, i32::MAX]?;
    let table = Array::narrow(shape, numbers).copy(alloc)?;
    assert!(rt; table.shape().lengths() == [2, 3].as_slice() && table.kind() == Kind::Number);
    assert!(rt; table.get(4) == Elem::Int(-2147483648) && table.get(5) == Elem::Int(2147483647));
    assert!(rt; held_numbers(&table).is_none() && held_truths(&table).is_none());
    let Ravel::Narrow(numbers) = table.into_ravel() else {
        return Err(Fail::new("no numbers of 32 bits"));
    };
    assert!(rt; numbers.len() == 6);
    assert!(rt; number_at(numbers.as_slice(), 0) == 1);
    assert!(rt; number_at(numbers.as_slice(), 4) == -2147483648);
    assert!(rt; number_at(numbers.as_slice(), 5) == 2147483647);
    Ok(())
}

/// A truth value is the number 0 or 1.
#[test]
fn truth_values_in_row_order(rt: HostRuntime) -> Result<(), Fail> {
    let alloc = rt.alloc();
    let shape = Shape::new(alloc, &[2, 3])?;
    assert!(rt; shape.count() == 6);
    let truths = vec![in alloc; true, false, false, true, true, false]?;
    let table = Array::truths(shape, truths).copy(alloc)?;
    assert!(rt; table.shape().lengths() == [2, 3].as_slice() && table.kind() == Kind::Number);
    assert!(rt; table.get(0) == Elem::Int(1) && table.get(5) == Elem::Int(0));
    let wanted = [true, false, false, true, true, false];
    assert!(rt; held_truths(&table) == Some(wanted.as_slice()));
    assert!(rt; held_numbers(&table).is_none() && held_characters(&table).is_none());
    let Ravel::Truths(truths) = table.into_ravel() else {
        return Err(Fail::new("no truth values"));
    };
    assert!(rt; truths.as_slice() == wanted.as_slice());
    Ok(())
}

/// Many truth values, of which the last alone is true.
#[test]
fn many_truth_values(rt: HostRuntime) -> Result<(), Fail> {
    let alloc = rt.alloc();
    let shape = Shape::new(alloc, &[100_000])?;
    let mut truths = vec![in alloc; false; 99_999]?;
    truths.push(true)?;
    assert!(rt; shape.count() == 100_000 && truths.len() == 100_000);
    let vector = Array::truths(shape, truths).copy(alloc)?;
    assert!(rt; vector.shape().count() == 100_000);
    assert!(rt; vector.get(99_998) == Elem::Int(0) && vector.get(99_999) == Elem::Int(1));
    let first = held_truths(&vector).and_then(|truths| truths.iter().position(|truth| *truth));
    assert!(rt; first == Some(99_999));
    Ok(())
}

#[test]
fn an_empty_array_keeps_its_kind(rt: HostRuntime) -> Result<(), Fail> {
    let alloc = rt.alloc();
    let shape = Shape::new(alloc, &[0])?;
    assert!(rt; shape.count() == 0);
    let text = Array::chars(shape, Vec::new(alloc)).copy(alloc)?;
    assert!(rt; text.kind() == Kind::Character && held_numbers(&text).is_none());
    assert!(rt; held_characters(&text).is_some_and(|characters| characters.is_empty()));
    let none = Array::truths(Shape::new(alloc, &[0])?, Vec::new(alloc));
    assert!(rt;
        none.kind() == Kind::Number && held_truths(&none).is_some_and(|truths| truths.is_empty())
    );
    Ok(())
}
