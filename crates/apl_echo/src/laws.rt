//! What is printed reads back, each law the contract of a function that does nothing.
ghost use Rattle.std.specs.Prelude.{◌≡◌, ℕ, ◌<◌, ◌≤◌, ℤ, List, [], ◌∷◌, ◌++◌, length};
ghost use Rattle.apl_array.specs.Array.{number_array, character_array};
ghost use Rattle.apl_array.specs.Limits.{IsWithinLimits};
ghost use Rattle.apl_array.specs.Range.{IsInRange, HasNumbersInRange};
ghost use Rattle.apl_print.specs.Shown.{IsShown};
ghost use Rattle.apl_tokens.specs.Symbols.{quote};
ghost use Rattle.apl_tokens.specs.Fronts.{AllPass};
ghost use Rattle.apl_tokens.specs.Lexis.{quoted};
ghost use Rattle.apl_echo.specs.Lines.{number_value, text_value, number_line, is_no_quote, IsPrintedLine, FitWidth, AreListed, on_one_line, ReadsAs, TextReadsAs, ReadsAsBlank};

/// Let the text of a number, or of a vector of two numbers or more, be one line. It reads as the constant
/// of that value. The line of a vector of one number reads as that number, a scalar. That of a
/// vector without numbers is blank.
///
/// The text is one line if the numerals, with a blank between them, fit the width.
pub fn printed_numbers_read_back()
    ensures value { (numbers : List ℤ) (width : ℕ) (line : List ℕ) → let a = number_value numbers in
        0 < length numbers → IsWithinLimits a → IsPrintedLine a width line → ReadsAs line a }
    ensures vector_of_one { (n : ℤ) (width : ℕ) (line : List ℕ) → IsInRange n
        → IsPrintedLine (number_array (1 ∷ []) (n ∷ [])) width line → ReadsAs line (number_value (n ∷ [])) }
    ensures no_number { (width : ℕ) (line : List ℕ) → IsPrintedLine (number_value []) width line
        → ReadsAsBlank line }
    ensures fits { (numbers : List ℤ) (width : ℕ) → let a = number_value numbers in
        0 < length numbers → HasNumbersInRange a → FitWidth numbers width → IsPrintedLine a width (number_line numbers) }
{}

/// The text of an array of numbers, with a blank in the place of each line feed, reads as the constant of the
/// ravel. That is a vector, or a scalar if there is one number. If there is none, the line is blank.
///
/// The array has any rank, and rows may have continuation lines. Only blanks come before the constant, as in a
/// table whose first number is narrower than its column.
pub fn printed_lines_read_back()
    ensures value { (shape : List ℕ) (numbers : List ℤ) (width : ℕ) → let a = number_array shape numbers in
        0 < length numbers → IsWithinLimits a → TextReadsAs a width (number_value numbers) }
    ensures no_number { (shape : List ℕ) (width : ℕ) (text : List ℕ) → IsShown (number_array shape []) width text
        → ReadsAsBlank (on_one_line text) }
{}

/// Let the text of a character, or of a vector of any other number of them, be one line. That line between
/// quotes, each quote of its own doubled, reads as the constant of that value. For a vector of one
/// character it reads as that character, a scalar. The characters are listed symbols, as in lines.
///
/// A line without quotes is between the two as it is. The text is one line if the characters fit the
/// width. The law is not about continuation lines and matrices.
pub fn printed_text_reads_back()
    ensures value { (characters : List ℕ) (width : ℕ) (line : List ℕ) → let a = text_value characters in
        AreListed characters → IsWithinLimits a → IsPrintedLine a width line → ReadsAs (quoted line) a }
    ensures vector_of_one { (c width : ℕ) (line : List ℕ) → AreListed (c ∷ [])
        → IsPrintedLine (character_array (1 ∷ []) (c ∷ [])) width line
        → ReadsAs (quoted line) (text_value (c ∷ [])) }
    ensures without_quotes { (line : List ℕ) → AllPass is_no_quote line
        → quoted line ≡ quote ∷ (line ++ quote ∷ []) }
    ensures fits { (characters : List ℕ) (width : ℕ) → AreListed characters
        → length characters ≤ width → IsPrintedLine (text_value characters) width characters }
{}
