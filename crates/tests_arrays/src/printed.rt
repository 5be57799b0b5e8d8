//! The texts of arrays.
use crate::notation::{array_of, rows_of};
use apl_print::print;
use std::alloc::Global;
use std::process::Abort;
use std::test::Fail;

/// Of a row `WIDTH (ARRAY) → TEXT` the array's text, and the text that is wanted. Each has `⏎` for the end of a line.
fn texts_of<'a>(alloc: Global, row: &'a str) -> Option<(String, &'a str)> {
    let (width, rest) = row.split_once(" (")?;
    let (array, wanted) = rest.split_once(") →")?;
    let array = array_of(alloc, array)?;
    let width = width.parse::<u8>().ok()?;
    if width < 30 || 130 < width {
        return None;
    }
    let mut marked = String::new(alloc);
    for character in print(alloc, &array, width).ok()?.as_str().chars() {
        let mark = if character == '\n' { '⏎' } else { character };
        marked.push(mark).ok()?;
    }
    Some((marked, wanted.strip_prefix(' ').unwrap_or(wanted)))
}

/// Checks the rows of a table, and how many there are.
fn check(rt: &impl Abort, alloc: Global, table: &str, count: usize) -> Result<(), Fail> {
    let rows = rows_of(alloc, table)?;
    assert_eq!(rt; rows.len(), count);
    for row in &rows {
        let Some((text, wanted)) = texts_of(alloc, row) else {
            return Err(Fail::new(format_args!("not a row: {row}")));
        };
        assert!(rt; text.as_str() == wanted, "{row}");
    }
    Ok(())
}

const NUMBERS: &str = "\
    ⍝ scalars and vectors
    120 (: 9) → 9⏎
    120 (: 9223372036854775807) → 9223372036854775807⏎
    30 (: ¯9223372036854775808) → ¯9223372036854775808⏎
    120 (3: 5 6 7) → 5 6 7⏎
    120 (3: 0 5 ¯6) → 0 5 ¯6⏎
    120 (0:) → ⏎
    30 (20: 1 2 3 4 5 6 7 8 9 10 11 12 13 14 15 16 17 18 19 20) → 1 2 3 4 5 6 7 8 9 10 11 12 13⏎      14 15 16 17 18 19 20⏎
    ⍝ columns
    120 (2 3: 1 2 3 4 5 6) → 1 2 3⏎4 5 6⏎
    120 (2 2: 1 ¯10 100 2) →   1 ¯10⏎100   2⏎
    120 (2 3: 3 4 5 6 8 10) → 3 4  5⏎6 8 10⏎
    30 (2 8: 1 22 333 4444) → 1 22 333 4444 1 22 333 4444⏎1 22 333 4444 1 22 333 4444⏎
    30 (2 4: 10000000 2 300000000 4 5 60000000 7 80000000) → \
        10000000        2 300000000⏎             4⏎       5 60000000         7⏎      80000000⏎
    30 (2 9: 1 22 333 4444 5) → 1 22 333 4444    5 1 22 333⏎      4444⏎5  1  22  333 4444 5  1  22⏎       333⏎
    ⍝ planes
    120 (2 2 2: 1 2 3 4 5 6 7 8) → 1 2⏎3 4⏎⏎5 6⏎7 8⏎
    120 (2 1 2: 1 2 100 3) →   1 2⏎⏎100 3⏎
    120 (2 2 1 1: 1 2 3 4) → 1⏎⏎2⏎⏎⏎3⏎⏎4⏎
    120 (1 2 1 1 1: 1 2) → 1⏎⏎⏎2⏎
    120 (2 1 1 1 1 1: 1 2) → 1⏎⏎⏎⏎⏎2⏎
    120 (1 1 1 1 1 1 2: 1 2) → 1 2⏎
    120 (1 1 2 1 1 1 1 2: 1 2) → 1 2⏎⏎⏎⏎⏎1 2⏎
    ⍝ without elements
    120 (0 3:) →
    120 (3 0:) →
    120 (0 0:) →
    120 (2 0 3:) →
    ";

const CHARACTERS: &str = "\
    ⍝ scalars and vectors
    120 (: 'A') → A⏎
    120 (0: '') → ⏎
    120 (3: 'AB ') → AB ⏎
    120 (1: ''') → '⏎
    120 (1: ' ') →  ⏎
    30 (40: 'ABCDEFGHIJ') → ABCDEFGHIJABCDEFGHIJABCDEFGHIJ⏎      ABCDEFGHIJ⏎
    30 (30: 'AB') → ABABABABABABABABABABABABABABAB⏎
    30 (56: 'AB') → ABABABABABABABABABABABABABABAB⏎      ABABABABABABABABABABABAB⏎      AB⏎
    30 (31: 'A ') → A A A A A A A A A A A A A A A ⏎      A⏎
    ⍝ rows and planes
    120 (2 3: 'ABCDE ') → ABC⏎DE ⏎
    120 (2 2 2: '⍳⍴⍉⌽⊖⍋⍒×') → ⍳⍴⏎⍉⌽⏎⏎⊖⍋⏎⍒×⏎
    120 (2 2 1 1: 'ABCD') → A⏎⏎B⏎⏎⏎C⏎⏎D⏎
    120 (1 2 1 1 1: 'AB') → A⏎⏎⏎B⏎
    120 (2 1 1 1 1 1: 'AB') → A⏎⏎⏎⏎⏎B⏎
    120 (1 1 1 1 1 1 2: 'AB') → AB⏎
    120 (1 1 1 1 1 1 1 2: 'AB') → AB⏎
    120 (2 1 1 1 1 1 1 1: 'AB') → A⏎⏎⏎⏎⏎⏎⏎B⏎
    ⍝ without elements
    120 (2 0: '') →
    ";

#[test]
fn arrays_of_numbers(rt: HostRuntime) -> Result<(), Fail> {
    check(&rt, rt.alloc(), NUMBERS, 24)
}

#[test]
fn arrays_of_characters(rt: HostRuntime) -> Result<(), Fail> {
    check(&rt, rt.alloc(), CHARACTERS, 18)
}

/// A matrix of which each row takes a hundred bytes and more.
#[test]
fn many_wide_rows(rt: HostRuntime) -> Result<(), Fail> {
    let mut wanted = String::new(rt.alloc());
    for _ in 0..8192 {
        for _ in 0..4 {
            wanted.push_str("¯9223372036854775808 ")?;
        }
        wanted.push_str("¯9223372036854775808\n")?;
    }
    let Some(array) = array_of(rt.alloc(), "8192 5: ¯9223372036854775808") else {
        return Err(Fail::new("not an array"));
    };
    assert!(rt; print(rt.alloc(), &array, 120)? == wanted);
    Ok(())
}
