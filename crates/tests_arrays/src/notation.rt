//! Arrays and tables as text.
//!
//! A table has a row a line, and comments, lines that begin with `⍝`.
//!
//! An array is `SHAPE: ELEMENTS`, where a scalar has an empty shape. Its elements, in row order, are characters between quotes, numbers, or
//! truth values after a word, again and again: `2 3: 'AB'`, `2 3: 1 0 ¯1`, `2 3: truths 1 0`.

use apl_array::{Array, Elements, Shape};
use apl_scalar::Prim;
use std::alloc::{AllocError, Global};

/// The rows of a table.
pub(crate) fn rows_of<'a>(alloc: Global, table: &'a str) -> Result<Vec<&'a str>, AllocError> {
    let mut rows = Vec::new(alloc);
    for line in table.trim().lines() {
        let line = line.trim();
        if !line.starts_with('⍝') {
            rows.push(line)?;
        }
    }
    Ok(rows)
}

/// A number, with a high minus.
pub(crate) fn number_of(word: &str) -> Option<i64> {
    match word.strip_prefix('¯') {
        Some(digits) => 0i64.checked_sub_unsigned(digits.parse::<u64>().ok()?),
        None => word.parse::<i64>().ok(),
    }
}

/// `count` numbers: those between blanks, again and again.
fn numbers_of(alloc: Global, count: usize, text: &str) -> Option<Vec<i64>> {
    let mut list = Vec::new(alloc);
    for word in text.split_whitespace() {
        list.push(number_of(word)?).ok()?;
    }
    let mut items = Vec::new(alloc);
    for place in 0..count {
        items.push(*list.get(place % list.len().max(1))?).ok()?;
    }
    Some(items)
}

/// `count` characters: those of a text, again and again.
fn characters_of(alloc: Global, count: usize, text: &str) -> Option<Vec<char>> {
    let characters: Vec<char> = text.chars().collect(alloc).ok()?;
    let mut items = Vec::new(alloc);
    for place in 0..count {
        let character = characters.get(place % characters.len().max(1))?;
        items.push(*character).ok()?;
    }
    Some(items)
}

/// `count` truth values: those of numbers between blanks, each 0 or 1, again and again.
fn truths_of(alloc: Global, count: usize, text: &str) -> Option<Vec<bool>> {
    let mut items = Vec::new(alloc);
    for number in numbers_of(alloc, count, text)? {
        if number != 0 && number != 1 {
            return None;
        }
        items.push(number == 1).ok()?;
    }
    Some(items)
}

/// The lengths of a shape.
pub(crate) fn lengths_of(alloc: Global, text: &str) -> Option<Vec<usize>> {
    let mut lengths = Vec::new(alloc);
    for length in text.split_whitespace() {
        lengths.push(length.parse::<usize>().ok()?).ok()?;
    }
    Some(lengths)
}

/// The array that a text has.
pub(crate) fn array_of(alloc: Global, text: &str) -> Option<Array> {
    let (lengths, elements) = text.split_once(':')?;
    let shape = Shape::new(alloc, lengths_of(alloc, lengths)?.as_slice()).ok()?;
    if let Some(quoted) = elements.trim().strip_prefix('\'') {
        let items = characters_of(alloc, shape.count(), quoted.strip_suffix('\'')?)?;
        if items.len() != shape.count() {
            return None;
        }
        return Some(Array::chars(shape, items));
    }
    if let Some(words) = elements.trim().strip_prefix("truths") {
        let items = truths_of(alloc, shape.count(), words)?;
        if items.len() != shape.count() {
            return None;
        }
        return Some(Array::truths(shape, items));
    }
    let items = numbers_of(alloc, shape.count(), elements.trim())?;
    if items.len() != shape.count() {
        return None;
    }
    Some(Array::ints(shape, items))
}

/// The numbers of an array that holds them in 64 bits.
pub(crate) fn held_numbers(array: &Array) -> Option<&[i64]> {
    match array.elements() {
        Elements::Numbers(numbers) => Some(numbers),
        Elements::Narrow(_) | Elements::Truths(_) | Elements::Characters(_) => None,
    }
}

/// The truth values of an array that holds them.
pub(crate) fn held_truths(array: &Array) -> Option<&[bool]> {
    match array.elements() {
        Elements::Truths(truths) => Some(truths),
        Elements::Numbers(_) | Elements::Narrow(_) | Elements::Characters(_) => None,
    }
}

/// The characters of an array of characters.
pub(crate) fn held_characters(array: &Array) -> Option<&[char]> {
    match array.elements() {
        Elements::Characters(characters) => Some(characters),
        Elements::Numbers(_) | Elements::Narrow(_) | Elements::Truths(_) => None,
    }
}

/// The scalar function of a symbol.
pub(crate) fn scalar_of(symbol: char) -> Option<Prim> {
    Some(match symbol {
        '+' => Prim::Plus,
        '-' => Prim::Minus,
        '×' => Prim::Times,
        '÷' => Prim::Divide,
        '|' => Prim::Stile,
        '*' => Prim::Star,
        '!' => Prim::Bang,
        '⌊' => Prim::Floor,
        '⌈' => Prim::Ceiling,
        '∧' => Prim::And,
        '∨' => Prim::Or,
        '⍲' => Prim::Nand,
        '⍱' => Prim::Nor,
        '<' => Prim::Less,
        '≤' => Prim::LessOrEqual,
        '=' => Prim::Equal,
        '≥' => Prim::GreaterOrEqual,
        '>' => Prim::Greater,
        '≠' => Prim::NotEqual,
        '~' => Prim::Tilde,
        _ => return None,
    })
}
