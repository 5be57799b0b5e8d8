//! Commands of the session.
ghost use Rattle.std.specs.Prelude.{◌≡◌, ◌≤◌, ◌<◌, ℕ, [], List, length, take, drop, codes, IfSome, IfNone};
ghost use Rattle.apl_tokens.specs.Symbols.{is_blank};
ghost use Rattle.apl_tokens.specs.Fronts.{AllPass};
ghost use Rattle.apl_tokens.specs.Lexis.{BeginsWithNo};
ghost use Rattle.apl_syntax.specs.Commands.{IsCommandLine, is_no_blank, EndsWithNoBlank, HasWordAndArgument, AreDigitsOf, IsCommandOf, IsCommand};

use crate::lines::Command;
use apl_array::Origin;
use apl_tokens::{blanks_before, is_digit};

/// How many symbols are before the first blank.
fn word_length(text: &[char]) -> usize
    ensures within { result ≤ length text.now }
    ensures word { AllPass is_no_blank (take result text.now) }
    ensures longest { BeginsWithNo is_no_blank (drop result text.now) }
{
    for (i, c) in text.iter().enumerate() {
        if *c == ' ' {
            return i;
        }
    }
    text.len()
}

/// How many symbols are before the blanks at the end of the text.
fn length_without_blanks(text: &[char]) -> usize
    ensures within { result ≤ length text.now }
    ensures blank { AllPass is_blank (drop result text.now) }
    ensures ends { EndsWithNoBlank (take result text.now) }
{
    let mut length = text.len();
    while 0 < length && text[length - 1] == ' ' {
        length -= 1;
    }
    length
}

/// The number that the symbols spell as digits, if it fits a byte.
fn number(argument: &[char]) -> Option<u8>
    ensures found { IfSome result (λ n. AreDigitsOf n argument.now) }
    ensures none { IfNone result ((n : ℕ) → AreDigitsOf n argument.now → 255 < n) }
{
    if argument.is_empty() {
        return None;
    }
    let mut number = 0;
    for c in argument {
        if !is_digit(*c) {
            return None;
        }
        let digit = u32::from(*c) - 48;
        if 255 < 10 * number + digit {
            return None;
        }
        number = 10 * number + digit;
    }
    Some(number as u8)
}

fn origin(argument: &[char]) -> Command
    ensures { IsCommandOf (codes "ORIGIN") argument.now result }
{
    match number(argument) {
        Some(0) => Command::Origin(Origin::Zero),
        Some(1) => Command::Origin(Origin::One),
        _ => Command::Incorrect,
    }
}

/// The least width of printed lines, in characters.
const LEAST_WIDTH: u8 = 30;

/// The greatest width of printed lines, in characters.
const MOST_WIDTH: u8 = 130;

fn width(argument: &[char]) -> Command
    ensures { IsCommandOf (codes "WIDTH") argument.now result }
{
    match number(argument) {
        Some(width) if LEAST_WIDTH <= width && width <= MOST_WIDTH => Command::Width(width),
        _ => Command::Incorrect,
    }
}

const ORIGIN: [char; 6] = ['O', 'R', 'I', 'G', 'I', 'N'];

const WIDTH: [char; 5] = ['W', 'I', 'D', 'T', 'H'];

const CLEAR: [char; 5] = ['C', 'L', 'E', 'A', 'R'];

const OFF: [char; 3] = ['O', 'F', 'F'];

fn command_of(word: &[char], argument: &[char]) -> Command
    ensures { IsCommandOf word.now argument.now result }
{
    if word == ORIGIN.as_slice() {
        origin(argument)
    } else if word == WIDTH.as_slice() {
        width(argument)
    } else if word == CLEAR.as_slice() && argument.is_empty() {
        Command::Clear
    } else if word == OFF.as_slice() && argument.is_empty() {
        Command::Off
    } else {
        Command::Incorrect
    }
}

/// The command of the text after the parenthesis.
fn command_behind(text: &[char]) -> Command
    ensures { (word argument : List ℕ) × HasWordAndArgument text.now word argument × IsCommandOf word argument result }
{
    let (word, rest) = text.split_at(word_length(text));
    let rest = &rest[blanks_before(rest)..];
    command_of(word, &rest[..length_without_blanks(rest)])
}

/// The command of a line, if its first symbol after blanks is `)`.
pub(crate) fn command(characters: &[char]) -> Option<Command>
    ensures found { IfSome result (IsCommand characters.now) }
    ensures none { IfNone result (IsCommandLine characters.now → ⊥) }
{
    let text = &characters[blanks_before(characters)..];
    if text.is_empty() || text[0] != ')' {
        return None;
    }
    Some(command_behind(&text[1..]))
}
