//! Quotients rounded down, of numbers of any sign, that are divided further.
ghost use Rattle.std.specs.Prelude.{◌≡◌, ◌≢◌, ◌≤◌, ◌<ℤ◌, ◌≤ℤ◌, ◌^◌, ℤ, pos, neg_ℤ, unsigned_abs};
ghost use Rattle.apl_array.specs.Range.{IsInRange};
ghost use Rattle.apl_scalar.specs.Arithmetic.{floor_quotient};
ghost use Rattle.apl_reduce.specs.Encoding.{carried};

/// The largest divisor that is kept. By any larger one a quotient is ¯1 or 0, by the sign of what is divided.
const MOST_DIVISOR: i128 = 1 << 65;

/// A number or its negative, plus `added`, divided and rounded down.
#[derive(Clone, Copy)]
pub(crate) struct Quotient {
    is_negated: bool,
    added: i128,
    divisor: i128,
    ghost natural: { pos 0 ≤ℤ added },
    ghost below: { added <ℤ divisor },
    ghost most: { divisor ≤ℤ pos (2 ^ 65) },
}

impl Quotient {
    ghost use Rattle.apl_reduce.specs.Carrying.{signed, quotient_of};

    /// The quotient of the number itself.
    pub(crate) fn by(divisor: i64) -> Quotient
        requires { pos 0 <ℤ divisor }
        ensures { (b : ℤ) → quotient_of result b ≡ floor_quotient b divisor }
    {
        Quotient {
            is_negated: false,
            added: 0,
            divisor: divisor as i128,
        }
    }

    /// The number or its negative.
    #[inline(always)]
    fn signed(self, number: i64) -> i128
        ensures value { result ≡ signed self.is_negated number }
        ensures near { unsigned_abs result ≤ 2 ^ 63 }
    {
        let number = number as i128;
        if self.is_negated { -number } else { number }
    }

    /// The quotient of this number.
    #[inline(always)]
    pub(crate) fn of(self, number: i64) -> i128
        ensures { result ≡ quotient_of self number }
    {
        (self.signed(number) + self.added).div_euclid(self.divisor)
    }

    /// Its negative: rounded down, what was rounded up.
    fn negated(self) -> Quotient
        ensures { (b : ℤ) → quotient_of result b ≡ neg_ℤ (quotient_of self b) }
    {
        Quotient {
            is_negated: !self.is_negated,
            added: self.divisor - 1 - self.added,
            divisor: self.divisor,
        }
    }

    /// It divided by a number, and rounded down.
    fn divided(self, by: i128) -> Quotient
        requires { pos 0 <ℤ by }
        ensures { (b : ℤ) → IsInRange b → quotient_of result b ≡ floor_quotient (quotient_of self b) by }
    {
        let divisor = self.divisor.saturating_mul(by);
        if divisor > MOST_DIVISOR {
            // No number outweighs 2^63, so the sign stays if no more of it is added.
            return Quotient {
                is_negated: self.is_negated,
                added: self.added.min(1 << 63),
                divisor: MOST_DIVISOR,
            };
        }
        Quotient {
            is_negated: self.is_negated,
            added: self.added,
            divisor,
        }
    }

    /// What is carried of it past a radix.
    pub(crate) fn with(self, radix: i64) -> Quotient
        requires { radix ≢ pos 0 }
        ensures { (b : ℤ) → IsInRange b → quotient_of result b ≡ carried radix (quotient_of self b) }
    {
        let size = radix.unsigned_abs() as i128;
        if radix < 0 {
            self.negated().divided(size)
        } else {
            self.divided(size)
        }
    }
}
