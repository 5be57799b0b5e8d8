//! A session: a workspace, and the answer to each line.
ghost use Rattle.std.specs.Prelude.{◌≡◌, ℕ, List};
ghost use Rattle.apl_print.specs.Failures.{CountsFailure};
ghost use Rattle.apl_grammar.specs.Tree.{Expr, operations};
ghost use Rattle.apl_array.specs.Axes.{origin_number};
ghost use Rattle.apl_print.specs.declared.replies.Reply.TheVariants.{Was};
ghost use Rattle.apl_syntax.specs.Reading.{command as command_reading, statement, IsReading};
ghost use Rattle.apl_eval.specs.Workspace.{opening_workspace};
ghost use Rattle.apl_session.specs.Lines.{IsUnbroken};
ghost use Rattle.apl_session.specs.LineAnswer.{IsLineOutcome, IsLineAnswered, next_after};
ghost use Rattle.apl_session.specs.Step.{session_semantics};
ghost use Rattle.apl_session.specs.LineStep.{IsLineStep};

use crate::interpreter::{Next, RunFault};
use crate::lines::trim_return;
use crate::trying::{evaluate, read_line};
use apl_array::Origin;
use apl_eval::{EvalStop, Shown, Workspace};
use apl_grammar::Program;
use apl_pool::{Crew, Cut, Gate, Pool, Workers};
use apl_print::{
    Reply, Report, Sink, SinkFault, put_all, reply as put_reply, report as put_report,
};
use apl_syntax::{Command, Line, ReadStop};
use std::alloc::Global;
use std::marker::Model;
use std::thread::Threads;

/// A session: what the lines so far left behind.
#[derive(Drop)]
pub struct Session {
    workspace: Workspace,
}

impl Model for Session {
    ghost use Rattle.apl_eval.specs.contracts.workspace.Workspace as stored;
    ghost use Rattle.apl_eval.specs.Workspace.{WorkspaceValue};

    ghost Value = { WorkspaceValue };

    ghost coded = { stored.the_row.coded };

    ghost view = { λ s. s.workspace };
}

impl Session {
    /// A session in which no name has a value. It takes no memory.
    pub fn new(alloc: Global) -> Session
        ensures { result ≡ opening_workspace }
    {
        Session {
            workspace: Workspace::new(alloc),
        }
    }

    /// Answers a line, which is given without its LF, and writes the answer. If the write fails, the session is as after the line, and a
    /// beginning of the answer's text was written.
    pub fn line<R: Threads + Sync, C: Cut + Sync, G: Gate + Sync, S: Sink>(
        &mut self,
        rt: &R,
        alloc: Global,
        pool: &Pool<C, G>,
        line: &[u8],
        sink: &mut S,
    ) -> Result<Next, RunFault>
        requires { IsUnbroken line.now }
        ensures answered { IsLineAnswered session_semantics self.old self.new line.now (S.taken sink.old) (S.taken sink.new) result }
        ensures failures { CountsFailure (S.failures sink.old) (S.failures sink.new) result }
    {
        let workers = Workers { rt, alloc, pool };
        answer(&mut self.workspace, &workers, trim_return(line), sink)
    }
}

/// Answers a line without its carriage return.
fn answer<W: Crew, S: Sink>(
    workspace: &mut Workspace,
    workers: &W,
    line: &[u8],
    sink: &mut S,
) -> Result<Next, RunFault>
    ensures answered { IsLineOutcome IsLineStep workspace.old workspace.new line.now (S.taken sink.old) (S.taken sink.new) result }
    ensures failures { CountsFailure (S.failures sink.old) (S.failures sink.new) result }
{
    match read_line(workers, line) {
        Ok(Line::Blank) => Ok(Next::Go),
        Ok(Line::Command(command)) => answer_command(workspace, command, line, sink),
        Ok(Line::Statement(program)) => answer_statement(workspace, workers, &program, line, sink),
        Err(ReadStop::Character { bytes, column }) => {
            go_on(put_report(sink, Report::Character, &line[..bytes], Some(column)))
        }
        Err(ReadStop::Syntax { column }) => go_on(put_report(
            sink,
            Report::Syntax,
            line,
            Some(column),
        )),
        Err(ReadStop::Limit { column }) => go_on(put_report(
            sink,
            Report::Limit,
            line,
            Some(column),
        )),
        Err(ReadStop::Memory) => go_on(put_report(sink, Report::WsFull, line, None)),
    }
}

/// Answers a line that is this command.
fn answer_command<S: Sink>(
    workspace: &mut Workspace,
    command: Command,
    line: &[u8],
    sink: &mut S,
) -> Result<Next, RunFault>
    requires { IsReading line.now (command_reading command) }
    ensures answered { IsLineOutcome IsLineStep workspace.old workspace.new line.now (S.taken sink.old) (S.taken sink.new) result }
    ensures failures { CountsFailure (S.failures sink.old) (S.failures sink.new) result }
{
    match command {
        Command::Origin(origin) => {
            let was = origin_reply(workspace.origin());
            workspace.set_origin(origin);
            go_on(put_reply(sink, was))
        }
        Command::Width(width) => {
            let was = Reply::Was(workspace.width());
            workspace.set_width(width);
            go_on(put_reply(sink, was))
        }
        Command::Clear => {
            workspace.clear();
            go_on(put_reply(sink, Reply::Clear))
        }
        Command::Off => Ok(Next::End),
        Command::Incorrect => go_on(put_reply(sink, Reply::Incorrect)),
    }
}

/// The reply that tells an origin.
fn origin_reply(origin: Origin) -> Reply
    ensures { result ≡ Was (origin_number origin) }
{
    match origin {
        Origin::Zero => Reply::Was(0),
        Origin::One => Reply::Was(1),
    }
}

/// Answers a line that is this statement.
fn answer_statement<W: Crew, S: Sink>(
    workspace: &mut Workspace,
    workers: &W,
    program: &Program,
    line: &[u8],
    sink: &mut S,
) -> Result<Next, RunFault>
    requires { (tree : Expr) × IsReading line.now (statement tree) × (operations tree ≡ program.now) }
    ensures answered { IsLineOutcome IsLineStep workspace.old workspace.new line.now (S.taken sink.old) (S.taken sink.new) result }
    ensures failures { CountsFailure (S.failures sink.old) (S.failures sink.new) result }
{
    match evaluate(workspace, workers, program) {
        Ok(Shown::Silent) => Ok(Next::Go),
        Ok(Shown::Text(text)) => go_on(put_all(sink, text.as_bytes())),
        Err(EvalStop::Error { report, column }) => {
            go_on(put_report(sink, report, line, Some(column)))
        }
        Err(EvalStop::Memory) => go_on(put_report(sink, Report::WsFull, line, None)),
    }
}

/// A run goes on after a line whose text was put.
fn go_on(put: Result<(), SinkFault>) -> Result<Next, RunFault>
    ensures { result ≡ next_after put }
{
    match put {
        Ok(()) => Ok(Next::Go),
        Err(_) => Err(RunFault::Write),
    }
}
