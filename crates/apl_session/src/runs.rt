//! The lines that a block of a source completes.
ghost use Rattle.std.specs.Prelude.{◌≡◌, ◌≢◌, ◌<◌, ◌++◌, length, Ok, Err, OnOk, []};
ghost use Rattle.apl_print.specs.Failures.{one_more};
ghost use Rattle.apl_session.specs.Lines.{IsUnbroken};
ghost use Rattle.apl_session.specs.LineAnswer.{IsLineAnswered};
ghost use Rattle.apl_session.specs.Step.{session_semantics};
ghost use Rattle.apl_session.specs.Progress.{IsBlockAnswered};

use crate::interpreter::{Interpreter, Next, RunFault};
use crate::lines::split_line;
use crate::trying::hold;
use apl_pool::Crew;
use apl_print::Sink;

/// The most bytes that one take of the source gives.
pub const BLOCK: usize = 65536;

/// Answers the line that begins with what is held, and then holds nothing.
fn answer_line<W: Crew, S: Sink>(
    interpreter: &mut Interpreter<'_, W>,
    held: &mut Vec<u8>,
    end: &[u8],
    sink: &mut S,
) -> Result<Next, RunFault>
    requires { IsUnbroken (held.old.items ++ end.now) }
    ensures answered { result ≢ Err RunFault.Memory → IsLineAnswered session_semantics interpreter.old interpreter.new
        (held.old.items ++ end.now) (S.taken sink.old) (S.taken sink.new) result }
    ensures memory { result ≡ Err RunFault.Memory → (interpreter.new ≡ interpreter.old) × (sink.new ≡ sink.old)
        × (0 < length held.old.items) }
    ensures emptied { OnOk result (held.new.items ≡ []) }
    ensures sound { OnOk result (S.failures sink.new ≡ S.failures sink.old) }
    ensures failed { result ≡ Err RunFault.Write → S.failures sink.new ≡ one_more (S.failures sink.old) }
{
    if held.is_empty() {
        return interpreter.answer(end, sink);
    }
    hold(interpreter.kept(), held, end).map_err(|_| RunFault::Memory)?;
    let next = interpreter.answer(held.as_slice(), sink)?;
    held.clear();
    Ok(next)
}

/// Answers the lines that a block of the text completes, and holds what is left of it.
pub(crate) fn answer_block<W: Crew, S: Sink>(
    interpreter: &mut Interpreter<'_, W>,
    held: &mut Vec<u8>,
    block: &[u8],
    sink: &mut S,
) -> Result<Next, RunFault>
    requires { IsUnbroken held.old.items }
    ensures outcome { IsBlockAnswered session_semantics interpreter.old interpreter.new (length block.now)
        (held.old.items ++ block.now) held.new.items (S.taken sink.old) (S.taken sink.new) result }
    ensures sound { result ≢ Err RunFault.Write → S.failures sink.new ≡ S.failures sink.old }
    ensures failed { result ≡ Err RunFault.Write → S.failures sink.new ≡ one_more (S.failures sink.old) }
{
    let mut rest = block;
    'lines: while let Some((line, after)) = split_line(rest) {
        match answer_line(interpreter, held, line, sink) {
            Ok(Next::Go) => rest = after,
            Ok(Next::End) => return Ok(Next::End),
            Err(fault) => return Err(fault),
        }
    }
    match hold(interpreter.kept(), held, rest) {
        Ok(()) => Ok(Next::Go),
        Err(_) => Err(RunFault::Memory),
    }
}
