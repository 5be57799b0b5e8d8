//! Tokens from characters.
ghost use Rattle.std.specs.Prelude.{if◌then◌else◌, ◌-◌, ◌≡◌, ◌⊎◌, ◌≤◌, ◌<◌, ◌+◌, ◌^◌, ◌∷◌, [], ◌++◌, ℕ, ℤ, pos, Bool, true, false, List, IsTrue, IfSome, IfNone, IfOk, IfErr, length, take, drop, encode_utf8_all, string_bytes};
ghost use Rattle.apl_tokens.specs.Symbols.{is_blank, is_digit, is_letter, is_name_character};
ghost use Rattle.apl_tokens.specs.Fronts.{AllPass};
ghost use Rattle.apl_array.specs.Array.{number_array, character_array};
ghost use Rattle.apl_tokens.specs.Lexis.{BeginsWithNo, number_of_digits, negated, HasNoNextNumeral, AreBlanks, EndsNumerals, constant_shape, Lexes};
ghost use Rattle.apl_tokens.specs.Stops.{IsLexicalStopOf};
ghost use Rattle.apl_tokens.specs.Scans.{is_of_class, IsCheckedNumber, IsNumeralAt, HasNoNumeral, IsNextNumeralAt, with_number, IsNumeralRow, IsSpelling, BeginsWithClosingQuote, IsQuotation, HasNoQuotation, BeginsWithQuote, IsTokenAt, IsStopAt};

use crate::symbols::{
    is_blank, is_comment_mark, is_digit, is_letter, is_name_character, is_quote, symbol_kind,
};
use crate::token::{Constant, Name, Token, TokenKind};
use apl_array::{Array, MOST_ELEMENTS, Shape};
use std::alloc::{AllocError, AllocFailed, Global};

/// Why characters have no tokens. Columns count characters from 0.
#[derive(Clone, Copy, Debug, PartialEq, Eq, Drop)]
pub enum LexicalStop {
    /// No token fits here.
    Syntax { column: usize },
    /// A numeral out of range, or a constant of more elements than the limit, begins here.
    Limit { column: usize },
    /// A growth was refused.
    Memory,
}

impl From<AllocError> for LexicalStop {
    ghost use Rattle.apl_tokens.specs.declared.lexer.LexicalStop.TheVariants.{Memory};

    ghost from_gives = { λ _ stop. stop ≡ Memory };

    fn from(_error: AllocError) -> LexicalStop {
        LexicalStop::Memory
    }
}

impl<T: Drop> From<AllocFailed<T>> for LexicalStop {
    ghost use Rattle.apl_tokens.specs.declared.lexer.LexicalStop.TheVariants.{Memory};

    ghost from_gives = { λ _ stop. stop ≡ Memory };

    fn from(_error: AllocFailed<T>) -> LexicalStop {
        LexicalStop::Memory
    }
}

/// A class of characters.
#[derive(Clone, Copy, Drop)]
pub(crate) enum CharacterClass {
    Blank,
    Digit,
    NamePart,
}

fn is_in(class: CharacterClass, c: char) -> bool
    ensures { result ≡ is_of_class class c }
{
    match class {
        CharacterClass::Blank => is_blank(c),
        CharacterClass::Digit => is_digit(c),
        CharacterClass::NamePart => is_name_character(c),
    }
}

/// The length of the longest front of the class.
fn run_length(text: &[char], class: CharacterClass) -> usize
    ensures within { result ≤ length text.now }
    ensures front { AllPass (is_of_class class) (take result text.now) }
    ensures longest { BeginsWithNo (is_of_class class) (drop result text.now) }
{
    for (i, c) in text.iter().enumerate() {
        if !is_in(class, *c) {
            return i;
        }
    }
    text.len()
}

/// How many blanks the text begins with.
pub fn blanks_before(text: &[char]) -> usize
    ensures within { result ≤ length text.now }
    ensures blank { AllPass is_blank (take result text.now) }
    ensures longest { BeginsWithNo is_blank (drop result text.now) }
{
    run_length(text, CharacterClass::Blank)
}

/// The number that digits spell, if it is at most 2 to the 63rd.
fn magnitude(digits: &[char]) -> Option<u64>
    requires { AllPass is_digit digits.now }
    ensures found { IfSome result (λ n. (n ≡ number_of_digits digits.now) × (n ≤ 2 ^ 63)) }
    ensures none { IfNone result (2 ^ 63 < number_of_digits digits.now) }
{
    let mut n: u64 = 0;
    for c in digits {
        let digit = u64::from(u32::from(*c) - 48);
        if n > (9223372036854775808 - digit) / 10 {
            return None;
        }
        n = 10 * n + digit;
    }
    Some(n)
}

/// The number that digits spell, after a high minus or none, if it is in range.
fn number(digits: &[char], negative: bool) -> Option<i64>
    requires { AllPass is_digit digits.now }
    ensures { IsCheckedNumber (if negative then negated (number_of_digits digits.now) else pos (number_of_digits digits.now)) result }
{
    match magnitude(digits) {
        None => None,
        Some(0) => Some(0),
        Some(n) => {
            if negative {
                Some(-1 - (n - 1) as i64)
            } else if n < 9223372036854775808 {
                Some(n as i64)
            } else {
                None
            }
        }
    }
}

/// The length of a numeral, and its number if it is in range.
#[derive(Clone, Copy, Drop)]
struct Numeral {
    length: usize,
    number: Option<i64>,
}

/// The numeral at the front, if one is there.
fn numeral_at(text: &[char]) -> Option<Numeral>
    ensures found { IfSome result (λ n. IsNumeralAt text.now n.length n.number) }
    ensures none { IfNone result (HasNoNumeral text.now) }
{
    if !text.is_empty() && text[0] == '¯' {
        let rest = &text[1..];
        let digits = run_length(rest, CharacterClass::Digit);
        if digits == 0 {
            return None;
        }
        let number = number(&rest[..digits], true);
        return Some(Numeral {
            length: digits + 1,
            number,
        });
    }
    let digits = run_length(text, CharacterClass::Digit);
    if digits == 0 {
        return None;
    }
    let number = number(&text[..digits], false);
    Some(Numeral {
        length: digits,
        number,
    })
}

/// A numeral after some blanks.
#[derive(Clone, Copy, Drop)]
struct NextNumeral {
    gap: usize,
    numeral: Numeral,
}

/// The numeral after blanks at the front, if one is there.
fn next_numeral(text: &[char]) -> Option<NextNumeral>
    ensures found { IfSome result (λ next. IsNextNumeralAt text.now next.gap next.numeral.length next.numeral.number) }
    ensures none { IfNone result (HasNoNextNumeral text.now) }
{
    let gap = run_length(text, CharacterClass::Blank);
    if gap == 0 {
        return None;
    }
    match numeral_at(&text[gap..]) {
        Some(numeral) => Some(NextNumeral { gap, numeral }),
        None => None,
    }
}

/// The numerals of a constant: their length in characters, how many, and their numbers or the first place out of range.
#[derive(Drop)]
struct Row {
    length: usize,
    count: usize,
    beyond: Option<usize>,
    values: Vec<i64>,
}

/// Adds one more number, or its place if it is the first out of range.
fn add_number(
    values: &mut Vec<i64>,
    beyond: Option<usize>,
    place: usize,
    number: Option<i64>,
) -> Result<Option<usize>, AllocError>
    ensures { IfOk result (λ b. with_number values.old.items beyond place number ≡ (values.new.items, b)) }
{
    if beyond.is_some() {
        return Ok(beyond);
    }
    match number {
        None => Ok(Some(place)),
        Some(z) => {
            values.push(z)?;
            Ok(None)
        }
    }
}

/// All numerals at the front, of which the first two are given.
fn row_at(
    alloc: Global,
    text: &[char],
    first: Numeral,
    second: NextNumeral,
) -> Result<Row, AllocError>
    requires first { IsNumeralAt text.now first.length first.number }
    requires second { IsNextNumeralAt (drop first.length text.now) second.gap second.numeral.length second.numeral.number }
    ensures row { IfOk result (λ r. IsNumeralRow text.now r.length r.count r.beyond r.values.items) }
    ensures ends { IfOk result (λ r. EndsNumerals (drop r.length text.now)) }
    ensures several { IfOk result (λ r. 1 < r.count) }
{
    let mut values = Vec::new(alloc);
    let mut length = first.length;
    let mut count = 1;
    let mut beyond = add_number(&mut values, None, 0, first.number)?;
    let mut next = Some(second);
    while let Some(NextNumeral { gap, numeral }) = next {
        beyond = add_number(&mut values, beyond, length + gap, numeral.number)?;
        length += gap + numeral.length;
        count += 1;
        next = next_numeral(&text[length..]);
    }
    Ok(Row {
        length,
        count,
        beyond,
        values,
    })
}

/// A token and its length in characters.
#[derive(Drop)]
struct Scanned {
    kind: TokenKind,
    length: usize,
}

/// The vector of these numbers.
fn number_vector(alloc: Global, numbers: Vec<i64>) -> Array
    requires few { length numbers.items ≤ MOST_ELEMENTS }
    ensures { result ≡ number_array (length numbers.items ∷ []) numbers.items }
{
    let Ok(shape) = Shape::new(alloc, &[numbers.len()]) else {
        unreachable!()
    };
    Array::ints(shape, numbers)
}

/// The number constant at the front of a text that begins at this column. Its first numeral is given.
fn number_constant_at(
    alloc: Global,
    text: &[char],
    first: Numeral,
    column: usize,
) -> Result<Scanned, LexicalStop>
    requires numeral { IsNumeralAt text.now first.length first.number }
    requires fits { column + length text.now < 2 ^ 64 }
    ensures token { IfOk result (λ t. IsTokenAt text.now t.length t.kind) }
    ensures stop { IfErr result (IsStopAt text.now column) }
{
    let Some(second) = next_numeral(&text[first.length..]) else {
        return match first.number {
            Some(number) => Ok(Scanned {
                kind: TokenKind::Constant(Constant::number(number)),
                length: first.length,
            }),
            None => Err(LexicalStop::Limit { column }),
        };
    };
    let row = row_at(alloc, text, first, second)?;
    if row.count > MOST_ELEMENTS {
        return Err(LexicalStop::Limit { column });
    }
    if let Some(place) = row.beyond {
        return Err(LexicalStop::Limit {
            column: column + place,
        });
    }
    let constant = Constant::new(alloc, number_vector(alloc, row.values))?;
    Ok(Scanned {
        kind: TokenKind::Constant(constant),
        length: row.length,
    })
}

/// The characters of a text constant, and its length after the opening quote.
#[derive(Drop)]
struct Quotation {
    characters: Vec<char>,
    length: usize,
}

/// How many symbols spell the first character after an opening quote: none for the quote that closes.
fn spelling_length(text: &[char]) -> Option<usize>
    requires { 0 < length text.now }
    ensures found { IfSome result (λ n. IsSpelling text.now n) }
    ensures none { IfNone result (BeginsWithClosingQuote text.now) }
{
    if !is_quote(text[0]) {
        Some(1)
    } else if 1 < text.len() && is_quote(text[1]) {
        Some(2)
    } else {
        None
    }
}

/// The text constant whose opening quote is before this text, if it is closed.
fn quotation_at(alloc: Global, text: &[char]) -> Result<Option<Quotation>, AllocError>
    ensures closed { IfOk result (λ found. IfSome found (λ q. IsQuotation text.now q.characters.items q.length)) }
    ensures unclosed { IfOk result (λ found. IfNone found (HasNoQuotation text.now)) }
{
    let mut characters = Vec::new(alloc);
    let mut length = 0;
    while length < text.len() {
        let Some(n) = spelling_length(&text[length..]) else {
            return Ok(Some(Quotation {
                characters,
                length: length + 1,
            }));
        };
        characters.push(text[length])?;
        length += n;
    }
    Ok(None)
}

/// The scalar or vector of these characters.
fn character_array(alloc: Global, characters: Vec<char>) -> Array
    requires few { length characters.items ≤ MOST_ELEMENTS }
    ensures { result ≡ character_array (constant_shape characters.items) characters.items }
{
    let lengths = [characters.len()];
    let lengths: &[usize] = if characters.len() == 1 { &[] } else { &lengths };
    let Ok(shape) = Shape::new(alloc, lengths) else {
        unreachable!()
    };
    Array::chars(shape, characters)
}

/// The text constant at the front of a text that begins at this column, with a quote.
fn text_constant_at(alloc: Global, text: &[char], column: usize) -> Result<Scanned, LexicalStop>
    requires { BeginsWithQuote text.now }
    ensures token { IfOk result (λ t. IsTokenAt text.now t.length t.kind) }
    ensures stop { IfErr result (IsStopAt text.now column) }
{
    let Some(quotation) = quotation_at(alloc, &text[1..])? else {
        return Err(LexicalStop::Syntax { column });
    };
    if quotation.characters.len() > MOST_ELEMENTS {
        return Err(LexicalStop::Limit { column });
    }
    let constant = Constant::new(alloc, character_array(alloc, quotation.characters))?;
    Ok(Scanned {
        kind: TokenKind::Constant(constant),
        length: quotation.length + 1,
    })
}

/// The name of these characters.
fn name_of(alloc: Global, characters: &[char]) -> Result<Name, AllocError>
    ensures { IfOk result (λ name. name ≡ encode_utf8_all characters.now) }
{
    let mut text = String::with_capacity(alloc, characters.len())?;
    for c in characters {
        text.push(*c)?;
    }
    Ok(Name::new(text))
}

/// The token at the front of a text that begins at this column.
fn token_at(alloc: Global, text: &[char], column: usize) -> Result<Scanned, LexicalStop>
    requires more { 0 < length text.now }
    requires fits { column + length text.now < 2 ^ 64 }
    ensures token { IfOk result (λ t. IsTokenAt text.now t.length t.kind) }
    ensures stop { IfErr result (IsStopAt text.now column) }
{
    let first = text[0];
    if is_letter(first) {
        let length = run_length(text, CharacterClass::NamePart);
        let name = name_of(alloc, &text[..length])?;
        return Ok(Scanned {
            kind: TokenKind::Name(name),
            length,
        });
    }
    if is_quote(first) {
        return text_constant_at(alloc, text, column);
    }
    if let Some(numeral) = numeral_at(text) {
        return number_constant_at(alloc, text, numeral, column);
    }
    match symbol_kind(first) {
        Some(kind) => Ok(Scanned { kind, length: 1 }),
        None => Err(LexicalStop::Syntax { column }),
    }
}

/// The most tokens for which room is taken before they are counted; more room is taken as they come. It is 30 MiB, near the largest
/// block that the C library's heap keeps for the next line by default.
const ROOM: usize = 3 << 18;

/// The tokens of a line's characters.
///
/// # Errors
///
/// `Syntax` if no token fits, `Limit` if a constant is beyond a limit: at the leftmost such place.
/// `Memory` if a growth was refused.
pub fn tokens(alloc: Global, characters: &[char]) -> Result<Vec<Token>, LexicalStop>
    ensures tokens { IfOk result (λ tokens. Lexes characters.now tokens.items) }
    ensures stop { IfErr result (IsLexicalStopOf characters.now) }
{
    let mut tokens = Vec::with_capacity(alloc, characters.len().min(ROOM))?;
    let mut column = run_length(characters, CharacterClass::Blank);
    while column < characters.len() && !is_comment_mark(characters[column]) {
        let token = token_at(alloc, &characters[column..], column)?;
        let kind = token.kind;
        tokens.push(Token { kind, column })?;
        column += token.length;
        column += run_length(&characters[column..], CharacterClass::Blank);
    }
    Ok(tokens)
}
