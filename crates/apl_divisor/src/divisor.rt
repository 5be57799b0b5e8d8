//! Division of many places by one divisor.
ghost use Rattle.std.specs.Prelude.{◌≡◌, ◌+◌, ◌/◌, ◌%◌, ◌<◌, ◌≤◌};
ghost use Rattle.apl_pool.specs.declared.kernel.TheConstants.{MOST_PLACES};

use std::marker::Model;

/// A divisor with its reciprocal. A place is multiplied by the reciprocal, since a division takes
/// several times as long. The contracts see the divisor.
#[derive(Drop)]
pub struct Divisor {
    by: usize,
    /// 2^62 divided by the divisor, rounded down, and one more.
    reciprocal: u64,
}

impl Model for Divisor {
    ghost use Rattle.std.specs.Prelude.{ℕ};
    ghost use Rattle.apl_divisor.specs.Reciprocal.{HasReciprocal};

    ghost Value = { ℕ };

    ghost view = { λ d. d.by };

    ghost invariant = { λ d. HasReciprocal d.by d.reciprocal };
}

impl Divisor {
    /// The divisor `by`, which is not 0.
    pub fn new(by: usize) -> Divisor
        requires some { 0 < by }
        requires most { by ≤ MOST_PLACES }
        ensures { result ≡ by }
    {
        let reciprocal = (1 << 62) / by as u64 + 1;
        Divisor { by, reciprocal }
    }

    /// The number that it divides by.
    #[inline(always)]
    pub fn number(&self) -> usize
        ensures value { result ≡ self.now }
        ensures some { 0 < self.now }
        ensures most { self.now ≤ MOST_PLACES }
    {
        self.by
    }

    /// How many times the divisor goes into a place.
    #[inline(always)]
    pub fn quotient(&self, place: usize) -> usize
        requires { place ≤ MOST_PLACES }
        ensures value { result ≡ place / self.now }
        ensures most { result ≤ place }
        ensures some { 0 < self.now }
    {
        ((place as u128 * self.reciprocal as u128) >> 62) as usize
    }

    /// What is left of a place after the division.
    #[inline(always)]
    pub fn remainder(&self, place: usize) -> usize
        requires { place ≤ MOST_PLACES }
        ensures value { result ≡ place % self.now }
        ensures below { result < self.now }
    {
        place - self.quotient(place) * self.by
    }
}
