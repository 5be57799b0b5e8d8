//! Laws of the definitions, each the contract of a function that does nothing. A line has one front, its characters have one
//! list of tokens or one fault, and its constants are within all limits.
ghost use Rattle.std.specs.Prelude.{◌≡◌, ◌⊎◌, ℕ, List};
ghost use Rattle.apl_tokens.specs.declared.token.Token.{Token};
ghost use Rattle.apl_tokens.specs.Fronts.{IsFront};
ghost use Rattle.apl_tokens.specs.Lexis.{Lexes, HasLexicalFault, HasLimitFault};
ghost use Rattle.apl_tokens.specs.Constants.{HasConstantsWithinLimits};

/// A line has one front, and one rest after it.
pub fn front_is_unique()
    ensures { (bytes c d r s : List ℕ) → IsFront bytes c r → IsFront bytes d s → (c ≡ d) × (r ≡ s) }
{}

/// Each line has a front.
pub fn front_is_total()
    ensures { (bytes : List ℕ) → (characters rest : List ℕ) × IsFront bytes characters rest }
{}

/// Characters have a list of tokens, a lexical fault, or a fault of a limit.
pub fn lexing_is_total()
    ensures { (characters : List ℕ) → ((ts : List Token) × Lexes characters ts) ⊎ (((c : ℕ) × HasLexicalFault characters c) ⊎ ((c : ℕ) × HasLimitFault characters c)) }
{}

/// Characters have one list of tokens, a lexical fault at one column, or a fault of a limit at one column.
pub fn lexing_is_unique()
    ensures tokens { (characters : List ℕ) (ts us : List Token) → Lexes characters ts → Lexes characters us → ts ≡ us }
    ensures fault { (characters : List ℕ) (c d : ℕ) → HasLexicalFault characters c → HasLexicalFault characters d → c ≡ d }
    ensures limit { (characters : List ℕ) (c d : ℕ) → HasLimitFault characters c → HasLimitFault characters d → c ≡ d }
    ensures no_fault { (characters : List ℕ) (ts : List Token) (c : ℕ) → Lexes characters ts → HasLexicalFault characters c → ⊥ }
    ensures no_limit { (characters : List ℕ) (ts : List Token) (c : ℕ) → Lexes characters ts → HasLimitFault characters c → ⊥ }
    ensures one_kind { (characters : List ℕ) (c d : ℕ) → HasLexicalFault characters c → HasLimitFault characters d → ⊥ }
{}

/// The constants of tokens that characters have are within all limits.
pub fn constants_are_within_limits()
    ensures { (characters : List ℕ) (tokens : List Token) → Lexes characters tokens → HasConstantsWithinLimits tokens }
{}
