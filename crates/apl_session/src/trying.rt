//! What is tried once more if memory runs out, after the pool has given back the list that it keeps.
ghost use Rattle.std.specs.Prelude.{◌≡◌, ◌<◌, ◌++◌, length, OnOk, OnErr, IfOk, IfErr};
ghost use Rattle.apl_grammar.specs.Tree.{Expr, operations};
ghost use Rattle.apl_syntax.specs.Answers.{IsLineOf, IsReadStopOf};
ghost use Rattle.apl_eval.specs.Evaluates.{Evaluates};

use apl_eval::{EvalStop, Shown, Workspace, eval};
use apl_grammar::Program;
use apl_pool::{Crew, KeptLists};
use apl_syntax::{Line, ReadStop, read};
use std::alloc::AllocError;

/// Reads a line.
pub(crate) fn read_line<W: Crew>(workers: &W, line: &[u8]) -> Result<Line, ReadStop>
    ensures line { IfOk result (IsLineOf line.now) }
    ensures stop { IfErr result (IsReadStopOf line.now) }
{
    let kept = workers.pool().kept();
    match read(workers.alloc(), line) {
        Err(ReadStop::Memory) if kept.give_back() => {
            let again = read(workers.alloc(), line);
            kept.keep_again();
            again
        }
        answer => answer,
    }
}

/// Evaluates a statement in a workspace.
pub(crate) fn evaluate<W: Crew>(
    workspace: &mut Workspace,
    workers: &W,
    program: &Program,
) -> Result<Shown, EvalStop>
    ensures { (tree : Expr) → operations tree ≡ program.now → Evaluates tree workspace.old workspace.new result }
{
    let (rt, alloc, pool) = (workers.rt(), workers.alloc(), workers.pool());
    match eval(workspace, rt, alloc, pool, program) {
        Err(EvalStop::Memory) if pool.kept().give_back() => {
            let again = eval(workspace, rt, alloc, pool, program);
            pool.kept().keep_again();
            again
        }
        answer => answer,
    }
}

/// Adds bytes to those of a line that are held.
pub(crate) fn hold(kept: &KeptLists, held: &mut Vec<u8>, bytes: &[u8]) -> Result<(), AllocError>
    ensures ok { OnOk result (held.new.items ≡ held.old.items ++ bytes.now) }
    ensures err { OnErr result (held.new.items ≡ held.old.items) }
    ensures some { OnErr result (0 < length bytes.now) }
{
    match held.extend_from_slice(bytes) {
        Err(AllocError) if kept.give_back() => {
            let again = held.extend_from_slice(bytes);
            kept.keep_again();
            again
        }
        added => added,
    }
}
