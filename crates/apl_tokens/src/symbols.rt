//! The listed symbols, and the tokens of one symbol.
ghost use Rattle.std.specs.Prelude.{◌≡◌, ◌==◌};
ghost use Rattle.apl_tokens.specs.Symbols.{is_digit, is_letter, is_name_character, is_blank, is_quote, comment_mark, is_listed_ascii, is_listed, symbol_kind};

use crate::token::{Glyph, TokenKind};
use apl_array::ScalarFunction;

/// Whether this is `0` to `9`.
pub fn is_digit(c: char) -> bool
    ensures { result ≡ is_digit c }
{
    '0' <= c && c <= '9'
}

/// Whether this is `A` to `Z`, `a` to `z`, `∆` or `⍙`.
pub(crate) fn is_letter(c: char) -> bool
    ensures { result ≡ is_letter c }
{
    ('A' <= c && c <= 'Z') || ('a' <= c && c <= 'z') || c == '∆' || c == '⍙'
}

pub(crate) fn is_name_character(c: char) -> bool
    ensures { result ≡ is_name_character c }
{
    is_letter(c) || is_digit(c) || c == '_'
}

pub(crate) fn is_blank(c: char) -> bool
    ensures { result ≡ is_blank c }
{
    c == ' '
}

pub(crate) fn is_quote(c: char) -> bool
    ensures { result ≡ is_quote c }
{
    c == '\''
}

/// Whether this begins a comment.
pub(crate) fn is_comment_mark(c: char) -> bool
    ensures { result ≡ (c == comment_mark) }
{
    c == '⍝'
}

/// The listed symbols that are not ASCII.
const NON_ASCII_SYMBOLS: [char; 31] = [
    '¯', '×', '÷', '←', '↑', '↓', '∆', '∊', '∘', '∧', '∨', '≠', '≤', '≥', '⊖', '⊤', '⊥', '⌈', '⌊',
    '⌽', '⌿', '⍀', '⍉', '⍋', '⍒', '⍙', '⍝', '⍱', '⍲', '⍳', '⍴',
];

fn is_listed_ascii(c: char) -> bool
    ensures { result ≡ is_listed_ascii c }
{
    ' ' <= c && c <= '~'
}

/// Whether this is a listed symbol: of ASCII from the blank to the tilde, or one of the others.
pub(crate) fn is_listed(c: char) -> bool
    ensures { result ≡ is_listed c }
{
    is_listed_ascii(c) || NON_ASCII_SYMBOLS.contains(&c)
}

/// The token that this symbol is by itself.
pub(crate) fn symbol_kind(c: char) -> Option<TokenKind>
    ensures { result ≡ symbol_kind c }
{
    match c {
        '+' => Some(TokenKind::Function(Glyph::Scalar(ScalarFunction::Plus))),
        '-' => Some(TokenKind::Function(Glyph::Scalar(ScalarFunction::Minus))),
        '×' => Some(TokenKind::Function(Glyph::Scalar(ScalarFunction::Times))),
        '÷' => Some(TokenKind::Function(Glyph::Scalar(ScalarFunction::Divide))),
        '|' => Some(TokenKind::Function(Glyph::Scalar(ScalarFunction::Stile))),
        '*' => Some(TokenKind::Function(Glyph::Scalar(ScalarFunction::Star))),
        '!' => Some(TokenKind::Function(Glyph::Scalar(ScalarFunction::Bang))),
        '⌊' => Some(TokenKind::Function(Glyph::Scalar(ScalarFunction::Floor))),
        '⌈' => Some(TokenKind::Function(Glyph::Scalar(ScalarFunction::Ceiling))),
        '∧' => Some(TokenKind::Function(Glyph::Scalar(ScalarFunction::And))),
        '∨' => Some(TokenKind::Function(Glyph::Scalar(ScalarFunction::Or))),
        '⍲' => Some(TokenKind::Function(Glyph::Scalar(ScalarFunction::Nand))),
        '⍱' => Some(TokenKind::Function(Glyph::Scalar(ScalarFunction::Nor))),
        '<' => Some(TokenKind::Function(Glyph::Scalar(ScalarFunction::Less))),
        '≤' => Some(TokenKind::Function(Glyph::Scalar(ScalarFunction::LessOrEqual))),
        '=' => Some(TokenKind::Function(Glyph::Scalar(ScalarFunction::Equal))),
        '≥' => Some(TokenKind::Function(Glyph::Scalar(ScalarFunction::GreaterOrEqual))),
        '>' => Some(TokenKind::Function(Glyph::Scalar(ScalarFunction::Greater))),
        '≠' => Some(TokenKind::Function(Glyph::Scalar(ScalarFunction::NotEqual))),
        '~' => Some(TokenKind::Function(Glyph::Scalar(ScalarFunction::Tilde))),
        '⍴' => Some(TokenKind::Function(Glyph::Rho)),
        ',' => Some(TokenKind::Function(Glyph::Comma)),
        '⍳' => Some(TokenKind::Function(Glyph::Iota)),
        '∊' => Some(TokenKind::Function(Glyph::Epsilon)),
        '↑' => Some(TokenKind::Function(Glyph::UpArrow)),
        '↓' => Some(TokenKind::Function(Glyph::DownArrow)),
        '⌽' => Some(TokenKind::Function(Glyph::CircleStile)),
        '⊖' => Some(TokenKind::Function(Glyph::CircleBar)),
        '⍉' => Some(TokenKind::Function(Glyph::Transpose)),
        '⍋' => Some(TokenKind::Function(Glyph::GradeUp)),
        '⍒' => Some(TokenKind::Function(Glyph::GradeDown)),
        '/' => Some(TokenKind::Function(Glyph::Slash)),
        '⌿' => Some(TokenKind::Function(Glyph::SlashBar)),
        '\\' => Some(TokenKind::Function(Glyph::Backslash)),
        '⍀' => Some(TokenKind::Function(Glyph::BackslashBar)),
        '⊥' => Some(TokenKind::Function(Glyph::UpTack)),
        '⊤' => Some(TokenKind::Function(Glyph::DownTack)),
        '.' => Some(TokenKind::Dot),
        '∘' => Some(TokenKind::Jot),
        '←' => Some(TokenKind::Arrow),
        '(' => Some(TokenKind::OpenParen),
        ')' => Some(TokenKind::CloseParen),
        '[' => Some(TokenKind::OpenBracket),
        ']' => Some(TokenKind::CloseBracket),
        ';' => Some(TokenKind::Semicolon),
        _ => None,
    }
}
