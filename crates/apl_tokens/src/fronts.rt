//! The front of a line: its longest beginning made of listed symbols.
ghost use Rattle.std.specs.Prelude.{◌≡◌, ℕ, ◌++◌, List, [], length, take, drop, IfOk, IfErr, encode_utf8, encode_utf8_all};
ghost use Rattle.std.specs.Str.{StartsWithNoChar, chars};
ghost use Rattle.apl_tokens.specs.Fronts.{IsFront};
ghost use Rattle.apl_tokens.specs.Stops.{IsFrontStopOf};
ghost use Rattle.apl_tokens.specs.Scans.{ListsUpTo, EndsOrUnlisted};

use crate::symbols::is_listed;
use std::alloc::{AllocError, Global};

/// Why a line has no characters.
#[derive(Clone, Copy, Debug, PartialEq, Eq, Drop)]
pub enum FrontStop {
    /// An unlisted symbol follows the front of the line, which has this many bytes and characters.
    Unlisted { bytes: usize, column: usize },
    /// A growth was refused. Each symbol of the line is listed.
    Memory,
}

impl From<AllocError> for FrontStop {
    ghost use Rattle.apl_tokens.specs.declared.fronts.FrontStop.TheVariants.{Memory};

    ghost from_gives = { λ _ stop. stop ≡ Memory };

    fn from(_error: AllocError) -> FrontStop {
        FrontStop::Memory
    }
}

/// The longest text that the bytes begin with.
fn text_front(bytes: &[u8]) -> &str
    ensures front { result.now ≡ take (length result.now) bytes.now }
    ensures longest { StartsWithNoChar (drop (length result.now) bytes.now) }
{
    match str::from_utf8(bytes) {
        Ok(text) => text,
        Err(error) => match str::from_utf8(&bytes[..error.valid_up_to()]) {
            Ok(text) => text,
            Err(_) => unreachable!(),
        },
    }
}

/// How far listed symbols go.
#[derive(Clone, Copy, Drop)]
struct Extent {
    bytes: usize,
    characters: usize,
}

/// How far the listed symbols of the text go from its front.
fn listed_front(text: &str) -> Extent
    ensures lists { ListsUpTo text.now (drop result.bytes text.now) result.bytes result.characters }
    ensures ends { EndsOrUnlisted (drop result.bytes text.now) }
{
    let mut bytes = 0;
    let mut characters = 0;
    for c in text.chars() {
        if !is_listed(c) {
            break;
        }
        bytes += c.len_utf8();
        characters += 1;
    }
    Extent { bytes, characters }
}

fn characters_of(alloc: Global, text: &str) -> Result<Vec<char>, AllocError>
    ensures { IfOk result (λ characters. characters.items ≡ chars text.now) }
{
    let mut characters = Vec::with_capacity(alloc, text.len())?;
    for c in text.chars() {
        characters.push(c)?;
    }
    Ok(characters)
}

/// The characters of a line of listed symbols.
///
/// # Errors
///
/// `Unlisted` if a symbol of the line is not listed: that is found first, and takes no memory.
/// `Memory` if a growth was refused.
pub fn front(alloc: Global, line: &[u8]) -> Result<Vec<char>, FrontStop>
    ensures listed { IfOk result (λ characters. IsFront line.now characters.items []) }
    ensures stop { IfErr result (IsFrontStopOf line.now) }
{
    let text = text_front(line);
    let front = listed_front(text);
    if front.bytes < line.len() {
        return Err(FrontStop::Unlisted {
            bytes: front.bytes,
            column: front.characters,
        });
    }
    Ok(characters_of(alloc, text)?)
}
