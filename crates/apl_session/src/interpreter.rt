//! What answers the lines of a run.
ghost use Rattle.std.specs.Prelude.{◌≡◌};
ghost use Rattle.apl_print.specs.Failures.{CountsFailure};
ghost use Rattle.apl_eval.specs.Workspace.{opening_workspace};
ghost use Rattle.apl_session.specs.Lines.{IsUnbroken};
ghost use Rattle.apl_session.specs.LineAnswer.{IsLineAnswered};
ghost use Rattle.apl_session.specs.Step.{session_semantics};

use crate::sessions::Session;
use apl_pool::{Crew, KeptLists};
use apl_print::Sink;
use std::marker::Model;
use thiserror::Error;

/// Whether a run goes on after a line.
#[derive(Clone, Copy, Debug, PartialEq, Eq)]
pub enum Next {
    Go,
    End,
}

/// Why a run stopped before its end.
#[derive(Clone, Copy, Debug, PartialEq, Eq, Error)]
pub enum RunFault {
    #[error("the source failed")]
    Read,
    #[error("the sink failed")]
    Write,
    #[error("no memory for a line")]
    Memory,
}

/// A session, and who works on its lines.
#[derive(Drop)]
pub(crate) struct Interpreter<'a, W: Crew> {
    workers: &'a W,
    session: Session,
}

impl<'a, W: Crew> Model for Interpreter<'a, W> {
    ghost use Rattle.apl_eval.specs.contracts.workspace.Workspace as stored;
    ghost use Rattle.apl_eval.specs.Workspace.{WorkspaceValue};

    ghost Value = { WorkspaceValue };

    ghost coded = { stored.the_row.coded };

    ghost view = { λ i. i.session };
}

impl<'a, W: Crew> Interpreter<'a, W> {
    /// A new session.
    pub(crate) fn new(workers: &'a W) -> Interpreter<'a, W>
        ensures { result ≡ opening_workspace }
    {
        Interpreter {
            workers,
            session: Session::new(workers.alloc()),
        }
    }

    /// The list that the pool keeps.
    pub(crate) fn kept(&self) -> &'a KeptLists {
        self.workers.pool().kept()
    }

    /// Answers a line. If the write fails, the session is as after the line, and a beginning of the answer's text was written.
    pub(crate) fn answer<S: Sink>(&mut self, line: &[u8], sink: &mut S) -> Result<Next, RunFault>
        requires unbroken { IsUnbroken line.now }
        ensures answered { IsLineAnswered session_semantics self.old self.new line.now (S.taken sink.old) (S.taken sink.new) result }
        ensures failures { CountsFailure (S.failures sink.old) (S.failures sink.new) result }
    {
        let workers = self.workers;
        self.session
            .line(workers.rt(), workers.alloc(), workers.pool(), line, sink)
    }
}
