//! Writing reports and replies.
ghost use Rattle.std.specs.Prelude.{◌≡◌, ℕ, ◌∷◌, ◌++◌, Some, IfOk, OnOk};
ghost use Rattle.apl_print.specs.Failures.{CountsFailure};
ghost use Rattle.apl_print.specs.Put.{Writes};
ghost use Rattle.apl_print.specs.Reported.{report_text, caret_line};
ghost use Rattle.apl_print.specs.Replied.{reply_text};
ghost use Rattle.apl_print.specs.declared.replies.Reply.TheVariants.{Was};
ghost use Rattle.apl_print.specs.Text.{blanks, line_feed};

use crate::replies::Reply;
use crate::reports::Report;
use crate::sinks::{Sink, SinkFault, put_all};
use arrayvec::{ArrayVec, CapacityError};
use itoa::Buffer;

/// A report of at most this many bytes is put in one write.
const AT_ONCE: usize = 256;

/// A run of blanks, of which slices are put.
static BLANKS: [u8; AT_ONCE] = [b' '; AT_ONCE];

/// Puts a report: its name, the line as it came, and a caret below a column of the line, if one is given. Columns count
/// characters from 0. It takes no memory. After a fault the sink has taken a beginning of the report.
pub fn report<S: Sink>(
    sink: &mut S,
    report: Report,
    line: &[u8],
    column: Option<usize>,
) -> Result<(), SinkFault>
    ensures writes { Writes (S.taken sink.old) (S.taken sink.new) (report_text report line.now column) result }
    ensures failures { CountsFailure (S.failures sink.old) (S.failures sink.new) result }
{
    match short_report(report, line, column) {
        Ok(text) => put_all(sink, text.as_slice()),
        Err(_) => put_report(sink, report, line, column),
    }
}

/// A report that is short enough to be put at once.
fn short_report(
    report: Report,
    line: &[u8],
    column: Option<usize>,
) -> Result<ArrayVec<u8, AT_ONCE>, CapacityError>
    ensures { IfOk result (λ text. text.items ≡ report_text report line.now column) }
{
    let mut text = ArrayVec::new();
    text.try_extend_from_slice(report.heading())?;
    text.try_extend_from_slice(line)?;
    match column {
        None => text.try_extend_from_slice(b"\n")?,
        Some(column) => add_caret(&mut text, column)?,
    }
    Ok(text)
}

/// Ends a line, and adds the line with the caret.
fn add_caret(text: &mut ArrayVec<u8, AT_ONCE>, column: usize) -> Result<(), CapacityError>
    ensures { OnOk result (text.new.items ≡ text.old.items ++ line_feed ∷ caret_line (Some column)) }
{
    if column > BLANKS.len() {
        return Err(CapacityError::new(()));
    }
    text.try_extend_from_slice(b"\n      ")?;
    text.try_extend_from_slice(&BLANKS[..column])?;
    text.try_extend_from_slice("∧\n".as_bytes())
}

/// Puts a report piece by piece.
fn put_report<S: Sink>(
    sink: &mut S,
    report: Report,
    line: &[u8],
    column: Option<usize>,
) -> Result<(), SinkFault>
    ensures writes { Writes (S.taken sink.old) (S.taken sink.new) (report_text report line.now column) result }
    ensures failures { CountsFailure (S.failures sink.old) (S.failures sink.new) result }
{
    put_all(sink, report.heading())?;
    put_all(sink, line)?;
    match column {
        None => put_all(sink, b"\n"),
        Some(column) => put_caret(sink, column),
    }
}

/// Ends a line, and puts the line with the caret.
fn put_caret<S: Sink>(sink: &mut S, column: usize) -> Result<(), SinkFault>
    ensures writes { Writes (S.taken sink.old) (S.taken sink.new) (line_feed ∷ caret_line (Some column)) result }
    ensures failures { CountsFailure (S.failures sink.old) (S.failures sink.new) result }
{
    put_all(sink, b"\n      ")?;
    put_blanks(sink, column)?;
    put_all(sink, "∧\n".as_bytes())
}

/// Puts `count` blanks.
fn put_blanks<S: Sink>(sink: &mut S, count: usize) -> Result<(), SinkFault>
    ensures writes { Writes (S.taken sink.old) (S.taken sink.new) (blanks count) result }
    ensures failures { CountsFailure (S.failures sink.old) (S.failures sink.new) result }
{
    let mut rest = count;
    'runs: while rest > 0 {
        let n = rest.min(BLANKS.len());
        put_all(sink, &BLANKS[..n])?;
        rest -= n;
    }
    Ok(())
}

/// Puts a reply, as a line. It takes no memory. After a fault the sink has taken a beginning of the line.
pub fn reply<S: Sink>(sink: &mut S, reply: Reply) -> Result<(), SinkFault>
    ensures writes { Writes (S.taken sink.old) (S.taken sink.new) (reply_text reply) result }
    ensures failures { CountsFailure (S.failures sink.old) (S.failures sink.new) result }
{
    match reply {
        Reply::Was(setting) => put_was(sink, setting),
        Reply::Clear => put_all(sink, b"CLEAR WS\n"),
        Reply::Incorrect => put_all(sink, b"INCORRECT COMMAND\n"),
    }
}

/// Puts what a setting was.
fn put_was<S: Sink>(sink: &mut S, setting: u8) -> Result<(), SinkFault>
    ensures writes { Writes (S.taken sink.old) (S.taken sink.new) (reply_text (Was setting)) result }
    ensures failures { CountsFailure (S.failures sink.old) (S.failures sink.new) result }
{
    put_all(sink, b"WAS ")?;
    put_all(sink, Buffer::new().format(setting).as_bytes())?;
    put_all(sink, b"\n")
}
