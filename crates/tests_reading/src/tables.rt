//! Tables as text.
//!
//! A row `:LINE → WANTED` has a line that is read, and what is wanted of it. Lines that begin with `⍝` are comments.

use std::alloc::Global;
use std::test::Fail;

/// A table as text, and how many rows it has.
pub(crate) type Table = (&'static str, usize);

/// The rows of a table, as many as it says: each line that is read, and what is wanted of it.
pub(crate) fn rows_of(
    alloc: Global,
    (table, count): Table,
) -> Result<Vec<(&'static str, &'static str)>, Fail> {
    let mut rows = Vec::new(alloc);
    for text in table.trim().lines() {
        let text = text.trim_start();
        if text.starts_with('⍝') {
            continue;
        }
        let Some((line, wanted)) = text.split_once(" →") else {
            return Err(Fail::new(format_args!("not a row: {text}")));
        };
        let Some(line) = line.strip_prefix(':') else {
            return Err(Fail::new(format_args!("not a line: {text}")));
        };
        rows.push((line, wanted.trim_start()))?;
    }
    if rows.len() != count {
        return Err(Fail::new("a table has another number of rows"));
    }
    Ok(rows)
}
