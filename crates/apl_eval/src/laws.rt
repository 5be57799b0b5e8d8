//! What is true of all statements: in lawful workspaces, and of their errors.
ghost use Rattle.std.specs.Prelude.{◌≡◌, ℕ, ◌≤◌, Result};
ghost use Rattle.apl_array.specs.declared.axis.Origin.{Origin};
ghost use Rattle.apl_tokens.specs.Constants.{HasConstantsWithinLimits};
ghost use Rattle.apl_grammar.specs.Tree.{Expr, spells};
ghost use Rattle.apl_print.specs.Width.{least_width, most_width};
ghost use Rattle.apl_print.specs.declared.reports.Report.{Report};
ghost use Rattle.apl_eval.specs.declared.statement.Shown.{Shown};
ghost use Rattle.apl_eval.specs.declared.statement.EvalStop.{EvalStop};
ghost use Rattle.apl_eval.specs.Workspace.{WorkspaceValue, with_origin, with_width, opening_workspace};
ghost use Rattle.apl_eval.specs.Meaning.{failed, meaning_of};
ghost use Rattle.apl_eval.specs.Reports.{IsOfEvaluation};
ghost use Rattle.apl_eval.specs.Evaluates.{Evaluates};
ghost use Rattle.apl_eval.specs.Lawful.{IsLawful, IsLawfulOutcome};

use apl_reduce::reduced_answers_are_within_limits;
use apl_scalar::answers_are_within_limits;
use apl_scan::scanned_answers_are_within_limits;
use apl_search::search_answers_are_within_limits;
use apl_struct::structural_answers_are_within_limits;

/// A new workspace is lawful. Settings and statements keep it so, and a statement's value is within all limits.
pub fn lawful_stays()
    ensures opening { IsLawful opening_workspace }
    ensures origin { (origin : Origin) (w : WorkspaceValue) → IsLawful w → IsLawful (with_origin origin w) }
    ensures width { (width : ℕ) (w : WorkspaceValue) → least_width ≤ width → width ≤ most_width → IsLawful w → IsLawful (with_width width w) }
    ensures outcome { (tree : Expr) (w : WorkspaceValue) → HasConstantsWithinLimits (spells tree) → IsLawful w → IsLawfulOutcome (meaning_of tree w) }
    ensures evaluated { (tree : Expr) (old new : WorkspaceValue) (result : Result Shown EvalStop) → HasConstantsWithinLimits (spells tree)
        → IsLawful old → Evaluates tree old new result → IsLawful new }
{
    answers_are_within_limits();
    search_answers_are_within_limits();
    structural_answers_are_within_limits();
    scanned_answers_are_within_limits();
    reduced_answers_are_within_limits();
}

/// The report of each error of a statement is one of evaluation, in any workspace: it is not Syntax, Character or WsFull.
pub fn reports_are_of_evaluation()
    ensures { (tree : Expr) (old new : WorkspaceValue) (report : Report) (column : ℕ) → meaning_of tree old ≡ failed report column new → IsOfEvaluation report }
{}
