//! A session over a whole source.
ghost use Rattle.std.specs.Prelude.{◌≡◌, ◌≢◌, ℕ, List, Err, OnOk};
ghost use Rattle.apl_print.specs.Failures.{one_more};
ghost use Rattle.apl_eval.specs.Workspace.{WorkspaceValue, opening_workspace};
ghost use Rattle.apl_eval.specs.Lawful.{IsLawful};
ghost use Rattle.apl_session.specs.Step.{session_semantics};
ghost use Rattle.apl_session.specs.Run.{Answer, IsAnswer, IsDefinedRun, IsDeterministic, IsTotal, HasDefinedRun, HasOneDefinedRun};
ghost use Rattle.apl_session.specs.Outcome.{AnswersAll, AnswersFront, AnswersLines, BeginsUnbroken, BeginsUnanswered};

use crate::interpreter::{Interpreter, Next, RunFault};
use crate::runs::{BLOCK, answer_block};
use crate::sources::Source;
use apl_eval::lawful_stays;
use apl_pool::{Cut, Gate, Pool, Workers};
use apl_print::{Sink, shown_always, shown_once};
use apl_syntax::{one_reading, some_reading};
use apl_tokens::constants_are_within_limits;
use std::alloc::Global;
use std::thread::Threads;

/// Answers the lines of a source in a new session, and writes the answers to a sink. It goes up to the first line whose answer ends the
/// run, or to the end of the source.
pub fn run<R: Threads + Sync, C: Cut + Sync, G: Gate + Sync, I: Source, S: Sink>(
    rt: &R,
    alloc: Global,
    pool: &Pool<C, G>,
    source: &mut I,
    sink: &mut S,
) -> Result<(), RunFault>
    // What was written is the text of a run over all of the source's lines, and nothing else.
    ensures ok { OnOk result (AnswersAll session_semantics opening_workspace (I.coming source.old)
        (S.taken sink.old) (S.taken sink.new)) }

    // The text of the whole lines that the source gave is written, and nothing else.
    ensures read { result ≡ Err RunFault.Read → AnswersLines session_semantics opening_workspace (I.coming source.old)
        (S.taken sink.old) (S.taken sink.new) (BeginsUnbroken (I.coming source.new)) }

    // A beginning of the text of a run over the first of the source's lines is written, and nothing else.
    ensures write { result ≡ Err RunFault.Write → AnswersFront session_semantics opening_workspace (I.coming source.old)
        (S.taken sink.old) (S.taken sink.new) }

    // The text of the first lines is written, and nothing else. What is left begins with a byte of the next line, after which
    // at most one block was taken.
    ensures memory { result ≡ Err RunFault.Memory → AnswersLines session_semantics opening_workspace (I.coming source.old)
        (S.taken sink.old) (S.taken sink.new) (BeginsUnanswered (I.coming source.new)) }

    // A fault of a device comes only where the device's count of failures rose in the call, and then it rose by one.
    ensures source_failed { result ≡ Err RunFault.Read → I.failures source.new ≡ one_more (I.failures source.old) }
    ensures source_sound { result ≢ Err RunFault.Read → I.failures source.new ≡ I.failures source.old }
    ensures sink_failed { result ≡ Err RunFault.Write → S.failures sink.new ≡ one_more (S.failures sink.old) }
    ensures sink_sound { result ≢ Err RunFault.Write → S.failures sink.new ≡ S.failures sink.old }
{
    let workers = Workers { rt, alloc, pool };
    let mut interpreter = Interpreter::new(&workers);
    let mut room = [0; BLOCK];
    let mut held = Vec::new(alloc);
    'takes: loop {
        let n = match source.take(&mut room) {
            Ok(n) => n,
            Err(_) => return Err(RunFault::Read),
        };
        if n == 0 {
            break;
        }
        match answer_block(&mut interpreter, &mut held, &room[..n], sink) {
            Ok(Next::Go) => {}
            Ok(Next::End) => return Ok(()),
            Err(fault) => return Err(fault),
        }
    }
    if held.is_empty() {
        return Ok(());
    }
    match interpreter.answer(held.as_slice(), sink) {
        Ok(_) => Ok(()),
        Err(fault) => Err(fault),
    }
}

/// A line has one step at most in each workspace.
pub fn one_step()
    ensures { IsDeterministic session_semantics }
{
    one_reading();
    shown_once();
}

/// A text has one run at most in which no line is refused, and such a run is a run.
pub fn one_run()
    ensures { HasOneDefinedRun WorkspaceValue session_semantics }
{
    one_step();
}

/// A line has a step in each lawful workspace, and each of its answers leaves the workspace lawful.
pub fn some_step()
    ensures some { IsTotal IsLawful session_semantics }
    ensures lawful { (w : WorkspaceValue) (line : List ℕ) (answer : Answer WorkspaceValue) → IsLawful w
        → IsAnswer session_semantics w line answer → IsLawful answer.after }
{
    one_step();
    some_reading();
    constants_are_within_limits();
    lawful_stays();
    shown_always();
}

/// Lines have a run in which none is refused, in a new session and from each lawful workspace.
pub fn some_run()
    ensures opening { (lines : List (List ℕ)) → (answers : List (Answer WorkspaceValue))
        × IsDefinedRun session_semantics opening_workspace lines answers }
    ensures lawful { HasDefinedRun WorkspaceValue IsLawful session_semantics }
{
    some_step();
    lawful_stays();
}
