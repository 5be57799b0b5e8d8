//! The program of a statement.
ghost use Rattle.std.specs.Prelude.{◌≡◌, ◌⊎◌, ◌<◌, ◌∷◌, ℕ, List, IfOk, IfErr, vec_len};
ghost use Rattle.apl_tokens.specs.declared.token.Token.{Token};
ghost use Rattle.apl_grammar.specs.Tree.{Expr, IsTree, IsProgramOf, operations, spells};
ghost use Rattle.apl_grammar.specs.Caret.{IsCaret, HasNoTree};
ghost use Rattle.apl_grammar.specs.Stops.{IsStopOf};

use crate::program::Program;
use crate::reader::parse;
use apl_tokens::Token;
use std::alloc::Global;

/// Why tokens are no program.
#[derive(Clone, Copy, Debug, PartialEq, Eq, Drop)]
pub enum GrammarStop {
    /// No statement has these tokens. The column is that of the rightmost token such that no statement's tokens end with
    /// the tokens from there on. If there is none, it is that of the first token.
    Syntax { column: usize },
    /// A growth was refused.
    Memory,
}

/// The program that the tokens spell.
pub fn program_of(alloc: Global, tokens: Vec<Token>) -> Result<Program, GrammarStop>
    requires { 0 < vec_len tokens }
    ensures program { IfOk result (IsProgramOf tokens.items) }
    ensures stop { IfErr result (IsStopOf tokens.items) }
{
    match parse(alloc, tokens) {
        Ok(operations) => Ok(Program::new(operations)),
        Err(stop) => Err(stop),
    }
}

/// The operations of a tree have one reading.
pub fn one_reading()
    ensures { (e f : Expr) → operations e ≡ operations f → e ≡ f }
{}

/// A list of tokens has one tree at most.
pub fn one_tree()
    ensures { (e f : Expr) → IsTree e → IsTree f → spells e ≡ spells f → e ≡ f }
{}

/// Tokens have one caret at most.
pub fn one_caret()
    ensures { (tokens : List Token) (c d : ℕ) → IsCaret tokens c → IsCaret tokens d → c ≡ d }
{}

/// One or more tokens have a tree or a caret.
pub fn tree_or_caret()
    ensures { (first : Token) (others : List Token) → ((e : Expr) × IsTree e × (spells e ≡ first ∷ others)) ⊎ ((column : ℕ) × IsCaret (first ∷ others) column × HasNoTree (first ∷ others)) }
{}
