//! From the bytes of a line to what it is.
ghost use Rattle.std.specs.Prelude.{◌≡◌, ℕ, List, IfOk, IfErr};
ghost use Rattle.apl_syntax.specs.Reading.{Reading, IsReading};
ghost use Rattle.apl_syntax.specs.Answers.{IsLineOf, IsReadStopOf};
ghost use Rattle.apl_syntax.specs.Parses.{IsParsedLine, IsParseStop};

use crate::commands::command;
use crate::lines::{Line, ReadStop};
use apl_grammar::{GrammarStop, one_caret, one_tree, program_of, tree_or_caret};
use apl_tokens::{
    FrontStop, LexicalStop, Token, front, front_is_total, front_is_unique, lexing_is_total,
    lexing_is_unique, tokens,
};
use std::alloc::Global;

/// Reads a line. An unlisted symbol is found before all else, and without memory; then a command.
pub fn read(alloc: Global, line: &[u8]) -> Result<Line, ReadStop>
    ensures line { IfOk result (IsLineOf line.now) }
    ensures stop { IfErr result (IsReadStopOf line.now) }
{
    let characters = match front(alloc, line) {
        Ok(characters) => characters,
        Err(FrontStop::Unlisted { bytes, column }) => {
            return Err(ReadStop::Character { bytes, column });
        }
        Err(FrontStop::Memory) => return Err(ReadStop::Memory),
    };
    if let Some(command) = command(characters.as_slice()) {
        return Ok(Line::Command(command));
    }
    one_reading();
    match tokens(alloc, characters.as_slice()) {
        Ok(tokens) => parsed(alloc, tokens),
        Err(LexicalStop::Syntax { column }) => Err(ReadStop::Syntax { column }),
        Err(LexicalStop::Limit { column }) => Err(ReadStop::Limit { column }),
        Err(LexicalStop::Memory) => Err(ReadStop::Memory),
    }
}

/// The statement of the tokens, or a blank line if there are none.
fn parsed(alloc: Global, tokens: Vec<Token>) -> Result<Line, ReadStop>
    ensures line { IfOk result (IsParsedLine tokens.items) }
    ensures stop { IfErr result (IsParseStop tokens.items) }
{
    if tokens.is_empty() {
        return Ok(Line::Blank);
    }
    match program_of(alloc, tokens) {
        Ok(program) => Ok(Line::Statement(program)),
        Err(GrammarStop::Syntax { column }) => Err(ReadStop::Syntax { column }),
        Err(GrammarStop::Memory) => Err(ReadStop::Memory),
    }
}

/// A line reads in one way at most.
pub fn one_reading()
    ensures { (line : List ℕ) (one other : Reading) → IsReading line one → IsReading line other → one ≡ other }
{
    front_is_unique();
    lexing_is_unique();
    one_tree();
    one_caret();
}

/// Each line reads in some way.
pub fn some_reading()
    ensures { (line : List ℕ) → (reading : Reading) × IsReading line reading }
{
    front_is_total();
    lexing_is_total();
    tree_or_caret();
}
