//! All short lines, against a plain recogniser of the grammar.
use crate::lines::{Answer, read_as, syntax};
use crate::recogniser::{Symbol, derives, ends_some};
use apl_syntax::Command;
use std::alloc::{AllocError, Global};
use std::ops::Range;
use std::process::Abort;
use std::test::Fail;

/// One symbol for each class of tokens. A letter is a name, and a digit a constant.
const CLASSES: [char; 19] = [
    '1', 'A', '+', '*', '~', '⍴', '⌽', ',', '↑', '/', '\\', '.', '∘', '←', '(', ')', '[', ']', ';',
];

/// The list of `length` classes with this number. Without its first class it has the number by 19.
fn list_of(alloc: Global, length: usize, number: usize) -> Result<Vec<char>, AllocError> {
    let mut classes = Vec::new(alloc);
    let mut rest = number;
    for _ in 0..length {
        classes.push(CLASSES[rest % 19])?;
        rest /= 19;
    }
    Ok(classes)
}

/// A line of tokens of these classes, each with a blank after it, and their columns. A constant is a text, since two numerals would be one
/// constant.
fn line_of(alloc: Global, classes: &[char]) -> Result<(String, Vec<usize>), AllocError> {
    let mut line = String::new(alloc);
    let mut columns = Vec::new(alloc);
    for class in classes {
        columns.push(line.chars().count())?;
        if *class == '1' {
            line.push_str("'B' ")?;
        } else {
            line.push(*class)?;
            line.push(' ')?;
        }
    }
    Ok((line, columns))
}

/// The length of the shortest ending of the classes that ends no statement, if there is one. That of the classes without
/// the first is handed in.
fn shortest_fault(classes: &[char], shorter: Option<usize>) -> Option<usize> {
    if shorter.is_some() || ends_some(Symbol::Expr, classes, 64) {
        return shorter;
    }
    Some(classes.len())
}

/// What a line of the classes reads as by the grammar's rules, from the length of the shortest faulty ending.
fn read_by_rules(classes: &[char], columns: &[usize], fault: Option<usize>) -> Answer {
    if classes.first() == Some(&')') {
        return Answer::Command(Command::Incorrect);
    }
    let Some(length) = fault else {
        return if derives(Symbol::Expr, classes, 64) {
            Answer::Statement
        } else {
            syntax(0)
        };
    };
    match columns.get(columns.len().saturating_sub(length)) {
        Some(column) => syntax(*column),
        None => Answer::Blank,
    }
}

/// The first of the lines of `length` tokens with these numbers that does not read as the rules say. The shortest faults of the lists are
/// handed out, and those of the lists of one class less handed in.
fn first_misread(
    alloc: Global,
    length: usize,
    numbers: Range<usize>,
    shorter: &[Option<usize>],
    faults: &mut Vec<Option<usize>>,
) -> Result<Option<String>, AllocError> {
    for number in numbers {
        let classes = list_of(alloc, length, number)?;
        let (line, columns) = line_of(alloc, &classes)?;
        let shortest = match shorter.get(number / 19) {
            Some(shortest) => *shortest,
            None => None,
        };
        let fault = shortest_fault(&classes, shortest);
        if read_as(alloc, line.as_bytes()) != read_by_rules(&classes, &columns, fault) {
            return Ok(Some(line));
        }
        faults.push(fault)?;
    }
    Ok(None)
}

/// The first line of one to three tokens, or of four with these numbers, that does not read as the rules say.
fn first_short_misread(alloc: Global, numbers: Range<usize>) -> Result<Option<String>, AllocError> {
    let mut shorter = Vec::new(alloc);
    for (length, count) in [(1, 19), (2, 361), (3, 6859)] {
        let mut faults = Vec::new(alloc);
        if let Some(line) = first_misread(alloc, length, 0..count, &shorter, &mut faults)? {
            return Ok(Some(line));
        }
        shorter = faults;
    }
    let mut faults = Vec::new(alloc);
    first_misread(alloc, 4, numbers, &shorter, &mut faults)
}

/// Checks all lines of one to three tokens, and those of four with these numbers.
fn check(rt: &impl Abort, alloc: Global, numbers: Range<usize>) -> Result<(), Fail> {
    let misread = first_short_misread(alloc, numbers)?;
    assert_eq!(rt; misread.as_deref(), None);
    Ok(())
}

#[test]
fn all_short_lines_that_end_with_a_constant(rt: HostRuntime) -> Result<(), Fail> {
    check(&rt, rt.alloc(), 0..6859)
}

#[test]
fn all_short_lines_that_end_with_a_name(rt: HostRuntime) -> Result<(), Fail> {
    check(&rt, rt.alloc(), 6859..13718)
}

#[test]
fn all_short_lines_that_end_otherwise(rt: HostRuntime) -> Result<(), Fail> {
    check(&rt, rt.alloc(), 13718..130321)
}
