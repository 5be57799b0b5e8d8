//! The listed symbols, the front of a line, and the tokens of a line.
//!
//! Below it: `apl_array`, whose arrays are the values of constants.
//! Begin with `specs/Lexis.antt`, which says what a token is, and then `lexer.rt`.
#![tactic(auto)]

mod fronts;
mod laws;
mod lexer;
mod symbols;
mod token;

pub use fronts::{FrontStop, front};
pub use laws::{
    constants_are_within_limits, front_is_total, front_is_unique, lexing_is_total, lexing_is_unique,
};
pub use lexer::{LexicalStop, blanks_before, tokens};
pub use symbols::is_digit;
pub use token::{Constant, Glyph, Name, Token, TokenKind};
