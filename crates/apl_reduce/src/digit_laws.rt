//! What the digits of encode and the value of decode are, each law the contract of a function that does
//! nothing.
ghost use Rattle.std.specs.Prelude.{◌≡◌, ℕ, ◌<◌, ◌≤◌, ℤ, ◌+ℤ◌, ◌*ℤ◌, List, length};
ghost use Rattle.apl_scalar.specs.Scalar.{exact, as_element};
ghost use Rattle.apl_reduce.specs.Decoding.{product, value_of};
ghost use Rattle.apl_reduce.specs.Encoding.{digit_at};
ghost use Rattle.apl_reduce.specs.Digits.{AreDigitsOf, HasDigits, DecodesExactly, exact_digit, exact_carry, place_sum};

/// The digits of a number by radices and what is carried are the only whole numbers of which this holds.
/// The last carry is the number, and each carry is the one before it times the radix plus the digit. A
/// digit is 0 or has its radix' sign and a smaller magnitude, and before radix 0 the carry is 0. Each digit
/// is tested against the range.
pub fn digits_are_the_only_ones()
    ensures tested { (radices : List ℤ) (b : ℤ) (k : ℕ) → digit_at radices k b ≡ as_element (exact (exact_digit radices b k)) }
    ensures holds { (radices : List ℤ) (b : ℤ) → AreDigitsOf b radices (exact_digit radices b) (exact_carry radices b) }
    ensures digits { (radices : List ℤ) (b : ℤ) (digit carry : ℕ → ℤ) → AreDigitsOf b radices digit carry
        → (k : ℕ) → k < length radices → digit k ≡ exact_digit radices b k }
    ensures carries { (radices : List ℤ) (b : ℤ) (digit carry : ℕ → ℤ) → AreDigitsOf b radices digit carry
        → (k : ℕ) → k ≤ length radices → carry k ≡ exact_carry radices b k }
{}

/// The value of digits is the sum of each digit times the product of the radices after its own. It is
/// `Limit` exactly where that of some first digits is outside the range. What is carried before the first
/// radix, times the product of all radices, plus the value is the number whose digits these are.
pub fn value_is_sum_of_place_values()
    ensures value { (radices digits : List ℤ) → length radices ≡ length digits → value_of radices digits ≡ place_sum radices digits }
    ensures limit { (n : ℕ) (radices digits : List ℤ) → length radices ≡ n → length digits ≡ n
        → DecodesExactly n radices digits }
    ensures number { (radices digits : List ℤ) (b : ℤ) (carry : ℕ → ℤ) → length radices ≡ length digits
        → HasDigits b radices digits carry → b ≡ carry 0 *ℤ product radices +ℤ place_sum radices digits }
{}
