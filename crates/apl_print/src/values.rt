//! Printed values.
ghost use Rattle.std.specs.Prelude.{◌≡◌, ℕ, ◌^◌, ◌<◌, ◌≤◌, List, IfOk, string_bytes, encode_utf8_all, slice_index, decimal};
ghost use Rattle.std.specs.Str.Parse.{IsNumeral, digits_value};
ghost use Rattle.apl_array.specs.Array.{ArrayValue};
ghost use Rattle.apl_array.specs.Range.{HasNumbersInRange};
ghost use Rattle.apl_print.specs.Shown.{IsShown};

use crate::rows::{Layout, put_rows};
use apl_array::Array;
use std::alloc::{AllocError, Global};

/// The least width of lines, in characters.
pub const LEAST_WIDTH: u8 = 30;

/// The greatest width of lines, in characters.
pub const MOST_WIDTH: u8 = 130;

/// The text of an array on lines of at most `width` characters, each ended by a line feed.
///
/// A scalar or a vector is one row of fields, and a vector without elements is an empty line. A field
/// is the digits of a number, after `¯` if it is negative, or a character. Numbers have a blank
/// between them. A field that does not fit on its line begins a continuation line after six blanks.
///
/// An array of rank 2 and above is its rows, with empty lines between its planes. Each column is as wide
/// as its widest field in the whole array. Without elements the array has no line.
///
/// Memory is taken for the text, and for a byte for each column of an array of rank 2 and above.
pub fn print(alloc: Global, array: &Array, width: u8) -> Result<String, AllocError>
    requires low { LEAST_WIDTH ≤ width }
    requires high { width ≤ MOST_WIDTH }
    ensures shown { IfOk result (λ text. (characters : List ℕ) × IsShown array.now width characters
        × (string_bytes text ≡ encode_utf8_all characters)) }
{
    let layout = Layout::new(width, array.kind());
    let count = array.shape().count();
    let mut text = String::with_capacity(alloc, layout.least_length(count))?;
    if array.shape().rank() <= 1 {
        layout.put_row(&mut text, array, 0, count, &[])?;
    } else if count > 0 {
        put_rows(alloc, &mut text, layout, array)?;
    }
    Ok(text)
}

/// The law that an array has one text at a width.
pub fn shown_once()
    ensures { (a : ArrayValue) (width : ℕ) (s t : List ℕ) → IsShown a width s → IsShown a width t
        → s ≡ t }
{}

/// The law that an array has some text at each width that lines may have.
pub fn shown_always()
    ensures { (a : ArrayValue) (width : ℕ) → HasNumbersInRange a → LEAST_WIDTH ≤ width
        → (text : List ℕ) × IsShown a width text }
{}

/// The law of numerals: the digits of a number have it as their value, and the first of them is 0 for 0 alone.
pub fn numerals()
    ensures digits { (n : ℕ) → n < 2 ^ 64 → IsNumeral 10 (decimal n) × (digits_value 10 (decimal n) ≡ n) }
    ensures first { (n : ℕ) → 0 < n → n < 2 ^ 64 → 48 < slice_index (decimal n) 0 }
{}
