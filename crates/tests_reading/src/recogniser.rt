//! The grammar as rules over characters, one for each class of kinds, and plain slow recognisers of them.

/// What is in a rule.
#[derive(Clone, Copy, PartialEq, Eq)]
pub(super) enum Symbol {
    Token(char),
    Expr,
    Operand,
    List,
    Slot,
    Axis,
    Scalar,
    Monadic,
    Dyadic,
}

use Symbol::{Axis, Dyadic, Expr, List, Monadic, Operand, Scalar, Slot, Token};

const EXPR: &[&[Symbol]] = &[
    &[Operand],
    &[Operand, Dyadic, Expr],
    &[Monadic, Expr],
    &[Token('A'), Token('←'), Expr],
    &[Token('A'), Token('['), List, Token(']'), Token('←'), Expr],
];

const OPERAND: &[&[Symbol]] = &[
    &[Token('1')],
    &[Token('A')],
    &[Token('('), Expr, Token(')')],
    &[Operand, Token('['), List, Token(']')],
];

const LIST: &[&[Symbol]] = &[&[Slot], &[Slot, Token(';'), List]];

const SLOT: &[&[Symbol]] = &[&[], &[Expr]];

const AXIS: &[&[Symbol]] = &[&[Token('['), Expr, Token(']')]];

const SCALAR: &[&[Symbol]] = &[&[Token('+')], &[Token('*')]];

const MONADIC: &[&[Symbol]] = &[
    &[Token('+')],
    &[Token('~')],
    &[Token('⍴')],
    &[Token('⌽')],
    &[Token(',')],
    &[Token('⌽'), Axis],
    &[Scalar, Token('/')],
    &[Scalar, Token('/'), Axis],
    &[Scalar, Token('\\')],
    &[Scalar, Token('\\'), Axis],
];

const DYADIC: &[&[Symbol]] = &[
    &[Scalar],
    &[Token('⍴')],
    &[Token('⌽')],
    &[Token(',')],
    &[Token('↑')],
    &[Token('/')],
    &[Token('\\')],
    &[Token('⌽'), Axis],
    &[Token(','), Axis],
    &[Token('/'), Axis],
    &[Token('\\'), Axis],
    &[Scalar, Token('.'), Scalar],
    &[Token('∘'), Token('.'), Scalar],
];

fn rules(symbol: Symbol) -> &'static [&'static [Symbol]] {
    match symbol {
        Token(_) => &[],
        Expr => EXPR,
        Operand => OPERAND,
        List => LIST,
        Slot => SLOT,
        Axis => AXIS,
        Scalar => SCALAR,
        Monadic => MONADIC,
        Dyadic => DYADIC,
    }
}

/// Whether the symbol derives the characters, by derivations of at most this depth.
#[cycle(recogniser)]
pub(super) fn derives(symbol: Symbol, characters: &[char], depth: u32) -> bool {
    if depth == 0 {
        return false;
    }
    if let Token(character) = symbol {
        return characters.len() == 1 && characters[0] == character;
    }
    for rule in rules(symbol) {
        if derive(rule, characters, depth - 1) {
            return true;
        }
    }
    false
}

/// Whether the symbols, one after the other, derive the characters.
#[cycle(recogniser)]
fn derive(symbols: &[Symbol], characters: &[char], depth: u32) -> bool {
    if depth == 0 {
        return false;
    }
    if symbols.is_empty() {
        return characters.is_empty();
    }
    if let Token(character) = symbols[0] {
        return !characters.is_empty()
            && characters[0] == character
            && derive(&symbols[1..], &characters[1..], depth - 1);
    }
    // all but a list and a slot derive one character at least
    let least = usize::from(!matches!(symbols[0], List | Slot));
    for end in least..characters.len() + 1 {
        if derive(&symbols[1..], &characters[end..], depth - 1)
            && derives(symbols[0], &characters[..end], depth - 1)
        {
            return true;
        }
    }
    false
}

/// Whether what the symbol derives may end with the characters: they are derived where symbols at the front are missing.
pub(super) fn ends_some(symbol: Symbol, characters: &[char], depth: u32) -> bool {
    if depth == 0 {
        return false;
    }
    if characters.is_empty() {
        return true;
    }
    if let Token(character) = symbol {
        return characters.len() == 1 && characters[0] == character;
    }
    for rule in rules(symbol) {
        for place in 0..rule.len() {
            for end in 0..characters.len() + 1 {
                // a symbol that ends itself with these characters tells nothing new
                if (rule[place] != symbol || end < characters.len())
                    && derive(&rule[place + 1..], &characters[end..], 64)
                    && ends_some(rule[place], &characters[..end], depth - 1)
                {
                    return true;
                }
            }
        }
    }
    false
}
