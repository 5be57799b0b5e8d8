//! What a line is, and why it can't be read.

use apl_array::Origin;
use apl_grammar::Program;

/// A command of the session.
#[derive(Clone, Copy, Debug, PartialEq, Eq, Drop)]
pub enum Command {
    /// `)ORIGIN`, with 0 or 1.
    Origin(Origin),
    /// `)WIDTH`, with 30 to 130 characters.
    Width(u8),
    /// `)CLEAR`
    Clear,
    /// `)OFF`
    Off,
    /// Anything else after `)`.
    Incorrect,
}

/// What a line is.
#[derive(Drop)]
pub enum Line {
    /// The line has no token.
    Blank,
    /// The first symbol of the line after blanks is `)`.
    Command(Command),
    Statement(Program),
}

/// Why a line is not read. Columns count characters from 0.
#[derive(Clone, Copy, Debug, PartialEq, Eq, Drop)]
pub enum ReadStop {
    /// The line has a symbol that is not listed. The longest front of listed symbols has this many bytes, and the column
    /// is the number of its characters.
    Character { bytes: usize, column: usize },
    /// At this column no token fits, or it is the caret of tokens that no statement has.
    Syntax { column: usize },
    /// A constant exceeds a limit: a numeral at this column is out of range, or a constant there has too many elements.
    Limit { column: usize },
    /// A growth was refused. Each symbol of the line is listed.
    Memory,
}
