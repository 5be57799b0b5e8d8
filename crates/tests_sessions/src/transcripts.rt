//! Sessions, and what they write, as text.
//!
//! A table has sessions, with an empty line between two. Of a session each line that is typed has `:` before it, and each line that is
//! written has `|`. The last one that is typed has `.`, if it has no end. After blanks at the end of a line is `⏎`.
//!
//! A table of lines has a row `LINE → TEXT` for each line that is typed, where `⏎` ends each line of the text that is written.

use std::alloc::{AllocError, Global};
use std::test::Fail;

/// A table as text, and how many rows it has.
pub(crate) type Table = (&'static str, usize);

/// A session, and what it writes.
#[derive(Drop)]
pub(crate) struct Transcript {
    pub(crate) session: String,
    pub(crate) text: String,
}

fn push_line(lines: &mut String, line: &str) -> Result<(), AllocError> {
    lines.push_str(line)?;
    lines.push('\n')
}

/// The transcript that is in lines one after the other.
fn transcript_of(alloc: Global, lines: &str) -> Result<Transcript, Fail> {
    let mut session = String::new(alloc);
    let mut text = String::new(alloc);
    for line in lines.split('\n') {
        let line = line.trim_start();
        let line = line.strip_suffix('⏎').unwrap_or(line);
        if let Some(typed) = line.strip_prefix(':') {
            push_line(&mut session, typed)?;
        } else if let Some(typed) = line.strip_prefix('.') {
            session.push_str(typed)?;
        } else if let Some(written) = line.strip_prefix('|') {
            push_line(&mut text, written)?;
        } else {
            return Err(Fail::new(format_args!("neither typed nor written: {line}")));
        }
    }
    Ok(Transcript { session, text })
}

/// The transcripts of a table, as many as it has rows.
pub(crate) fn transcripts_of(
    alloc: Global,
    (table, count): Table,
) -> Result<Vec<Transcript>, Fail> {
    let mut transcripts = Vec::new(alloc);
    for lines in table.trim().split("\n\n") {
        transcripts.push(transcript_of(alloc, lines)?)?;
    }
    if transcripts.len() != count {
        return Err(Fail::new("a table has another number of sessions"));
    }
    Ok(transcripts)
}

/// The rows of a table of lines, as many as it says: each line that is typed, and the text that is written.
pub(crate) fn lines_of(
    alloc: Global,
    (table, count): Table,
) -> Result<Vec<(&'static str, String)>, Fail> {
    let mut rows = Vec::new(alloc);
    for row in table.trim().lines() {
        let Some((line, text)) = row.trim_start().split_once(" →") else {
            return Err(Fail::new(format_args!("not a row: {row}")));
        };
        let text = text.strip_prefix(' ').unwrap_or(text);
        rows.push((line, text.replace(alloc, '⏎', "\n")?))?;
    }
    if rows.len() != count {
        return Err(Fail::new("a table has another number of lines"));
    }
    Ok(rows)
}
