//! Tokens of lines, as text: each token with its column, or the stop.
use crate::tables::{Table, rows_of};
use apl_array::Elements;
use apl_tokens::{
    Constant, Glyph, Token, TokenKind, blanks_before, constants_are_within_limits, front,
    front_is_total, front_is_unique, is_digit, lexing_is_total, lexing_is_unique, tokens,
};
use std::alloc::{AllocError, Global};
use std::process::Abort;
use std::test::Fail;

fn describe_constant(text: &mut String, constant: &Constant) -> Result<(), AllocError> {
    let value = constant.array(*text.allocator())?;
    match value.elements() {
        Elements::Numbers(numbers) => {
            for number in numbers {
                write!(text, " {number}")?;
            }
        }
        Elements::Narrow(_) => text.push_str(" numbers of 32 bits")?,
        Elements::Truths(_) => text.push_str(" truth values")?,
        Elements::Characters(characters) => {
            text.push_str(" ")?;
            for character in characters {
                text.push(*character)?;
            }
        }
    }
    write!(text, " rank {}", value.shape().rank())
}

fn describe_token(text: &mut String, token: &Token) -> Result<(), AllocError> {
    write!(text, "{}:", token.column)?;
    match &token.kind {
        TokenKind::Constant(value) => describe_constant(text, value)?,
        TokenKind::Name(name) => text.push_str(name.as_str())?,
        TokenKind::Function(Glyph::Scalar(function)) => write!(text, "{function:?}")?,
        TokenKind::Function(glyph) => write!(text, "{glyph:?}")?,
        TokenKind::Dot => text.push_str("Dot")?,
        TokenKind::Jot => text.push_str("Jot")?,
        TokenKind::Arrow => text.push_str("Arrow")?,
        TokenKind::OpenParen => text.push_str("OpenParen")?,
        TokenKind::CloseParen => text.push_str("CloseParen")?,
        TokenKind::OpenBracket => text.push_str("OpenBracket")?,
        TokenKind::CloseBracket => text.push_str("CloseBracket")?,
        TokenKind::Semicolon => text.push_str("Semicolon")?,
    }
    text.push_str(";")
}

/// The tokens of a line, or why there are none.
fn described(alloc: Global, line: &[u8]) -> Result<String, AllocError> {
    let characters = match front(alloc, line) {
        Ok(characters) => characters,
        Err(stop) => return format!(in alloc; "{stop:?}"),
    };
    let tokens = match tokens(alloc, &characters) {
        Ok(tokens) => tokens,
        Err(stop) => return format!(in alloc; "{stop:?}"),
    };
    let mut text = String::new(alloc);
    for token in &tokens {
        describe_token(&mut text, token)?;
    }
    Ok(text)
}

/// Lines and their tokens. A constant is written as its elements and its rank.
const LINES: &str = r"
    : →
    :    →
    :  A_1 ← ¯5 → 2:A_1;6:Arrow;8: -5 rank 0;
    :1¯2 → 0: 1 rank 0;1: -2 rank 0;
    :1 2¯3 4 → 0: 1 2 rank 1;3: -3 4 rank 1;
    :1A → 0: 1 rank 0;1:A;
    :A¯1 → 0:A;1: -1 rank 0;
    :000000000000000000000000000007 ¯0 → 0: 7 0 rank 1;
    :¯9223372036854775808 9223372036854775807 → 0: -9223372036854775808 9223372036854775807 rank 1;
    :'⍝' → 0: ⍝ rank 0;
    :'''''' → 0: '' rank 1;
    :'' ⍝ 'A → 0:  rank 1;
    :'A' 'BC' → 0: A rank 0;4: BC rank 1;
    :1.5 → 0: 1 rank 0;1:Dot;2: 5 rank 0;
    :∆1∘⍙ → 0:∆1;2:Jot;3:⍙;
    ";

/// Lines with functions, each of which is written as its glyph's name.
const GLYPHS: &str = r"
    :2+3 4 5 → 0: 2 rank 0;1:Plus;2: 3 4 5 rank 1;
    :a×B-c → 0:a;1:Times;2:B;3:Minus;4:c;
    :+-×÷|*!⌊⌈∧∨⍲⍱ → 0:Plus;1:Minus;2:Times;3:Divide;4:Stile;5:Star;6:Bang;7:Floor;8:Ceiling;9:And;10:Or;11:Nand;12:Nor;
    :<≤=≥>≠~⍴,⍳∊↑↓ → 0:Less;1:LessOrEqual;2:Equal;3:GreaterOrEqual;4:Greater;5:NotEqual;6:Tilde;7:Rho;8:Comma;9:Iota;10:Epsilon;11:UpArrow;12:DownArrow;
    :⌽⊖⍉⍋⍒/⌿\⍀⊥⊤ → 0:CircleStile;1:CircleBar;2:Transpose;3:GradeUp;4:GradeDown;5:Slash;6:SlashBar;7:Backslash;8:BackslashBar;9:UpTack;10:DownTack;
    :.∘←()[]; → 0:Dot;1:Jot;2:Arrow;3:OpenParen;4:CloseParen;5:OpenBracket;6:CloseBracket;7:Semicolon;
    ";

fn check(rt: &impl Abort, alloc: Global, table: Table) -> Result<(), Fail> {
    for (line, wanted) in rows_of(alloc, table)? {
        let got = described(alloc, line.as_bytes())?;
        assert!(rt; got.as_str() == wanted, "at {line}");
    }
    Ok(())
}

#[test]
fn tokens_of_lines(rt: HostRuntime) -> Result<(), Fail> {
    check(&rt, rt.alloc(), (LINES, 15))?;
    check(&rt, rt.alloc(), (GLYPHS, 6))
}

#[test]
fn listed_symbols(rt: HostRuntime) -> Result<(), Fail> {
    let mut line = String::new(rt.alloc());
    for symbol in ' '..='~' {
        line.push(symbol)?;
    }
    line.push_str("¯×÷←↑↓∆∊∘∧∨≠≤≥⊖⊤⊥⌈⌊⌽⌿⍀⍉⍋⍒⍙⍝⍱⍲⍳⍴")?;
    assert!(rt; front(rt.alloc(), line.as_bytes()).is_ok());
    Ok(())
}

#[test]
fn digits_and_blanks(rt: HostRuntime) {
    for (c, is) in [('/', false), ('0', true), ('9', true), (':', false)] {
        assert!(rt; is_digit(c) == is, "at {c}");
    }
    assert!(rt; blanks_before(&[' ', ' ', 'A', ' ']) == 2 && blanks_before(&[]) == 0);
}

/// The count and the last of the numbers of a line that is one constant.
fn count_and_last(alloc: Global, line: &str) -> Result<Option<(usize, i64)>, Fail> {
    let characters = front(alloc, line.as_bytes())?;
    let tokens = tokens(alloc, &characters)?;
    let [token] = tokens.as_slice() else {
        return Ok(None);
    };
    let TokenKind::Constant(constant) = &token.kind else {
        return Ok(None);
    };
    let value = constant.array(alloc)?;
    let Elements::Numbers(numbers) = value.elements() else {
        return Ok(None);
    };
    let last = numbers.last().copied();
    Ok(last.map(|last| (value.shape().count(), last)))
}

#[test]
fn a_long_line(rt: HostRuntime) -> Result<(), Fail> {
    let mut line = String::new(rt.alloc());
    for i in 0..100000 {
        write!(line, "{i} ")?;
    }
    assert!(rt; count_and_last(rt.alloc(), line.as_str())? == Some((100000, 99999)));
    Ok(())
}

#[test]
fn laws() {
    front_is_total();
    front_is_unique();
    lexing_is_total();
    lexing_is_unique();
    constants_are_within_limits();
}
