//! What bits answer for the next one, under a function with two values.
ghost use Rattle.std.specs.Prelude.{◌≡◌, ℕ, ◌+◌, ◌-◌, ◌<◌, ◌≤◌, ◌^◌, pos, [], Ok, IfSome, if◌then◌else◌};
ghost use Rattle.apl_pool.specs.declared.summary.TheConstants.{LONGEST_RUN};
ghost use Rattle.apl_pool.specs.Summaries.{IsSummaryFrom};
ghost use Rattle.apl_scalar.specs.Scalar.{bit, is_one, dyadic_numbers};
ghost use Rattle.apl_summary.specs.Answers.{two_valued_outcome};
ghost use Rattle.apl_summary.specs.Fronts.{AreRunningBits, IsBitsAnswer, AreNextBits, IsNextAnswer, AreBitsFrom};

use crate::answers::{Answers, number};
use crate::running::PrefixState;
use crate::two_valued::TwoValuedFunction;
use apl_pool::Kernel;
use std::alloc::AllocError;
use std::marker::PhantomData;

/// How many items are met in one turn of a loop.
const TURN: usize = 4;

/// What numbers answer for 0 and for 1. The answers are kept as numbers, since the compiler packs two of type `bool` into one at each step.
pub struct RunningBits<P> {
    pub for_zero: i64,
    pub for_one: i64,
    pub function: PhantomData<P>,
    ghost zero: { for_zero ≡ bit (is_one for_zero) },
    ghost one: { for_one ≡ bit (is_one for_one) },
}

impl<P> Clone for RunningBits<P> {
    fn clone(&self) -> Result<Self, AllocError> {
        Ok(*self)
    }
}

impl<P> Copy for RunningBits<P> {}

/// Whether a number is 1.
#[inline(always)]
fn is_one(number: i64) -> bool
    ensures { result ≡ is_one number }
{
    number == 1
}

impl<P: TwoValuedFunction> RunningBits<P> {
    /// The answers of no number.
    pub fn none() -> Self
        ensures { AreRunningBits P.FUNCTION (is_one result.for_zero) (is_one result.for_one) [] }
    {
        RunningBits {
            for_zero: 0,
            for_one: 1,
            function: PhantomData,
        }
    }

    /// Numbers with these answers, if neither is a fault.
    pub fn of(answers: &Answers) -> Option<Self>
        ensures zero { IfSome result (λ s. two_valued_outcome P.FUNCTION answers.now (pos 0) ≡ Ok (bit (is_one s.for_zero))) }
        ensures one { IfSome result (λ s. two_valued_outcome P.FUNCTION answers.now (pos 1) ≡ Ok (bit (is_one s.for_one))) }
    {
        match (answers.whole::<P>(0), answers.whole::<P>(1)) {
            (Ok(for_zero), Ok(for_one)) => Some(RunningBits {
                for_zero: number(for_zero),
                for_one: number(for_one),
                function: PhantomData,
            }),
            _ => None,
        }
    }

    /// What the numbers answer for 1, or else for 0.
    #[inline(always)]
    fn answer(&self, to_one: bool) -> i64
        ensures { result ≡ bit (if to_one then is_one self.now.for_one else is_one self.now.for_zero) }
    {
        if to_one { self.for_one } else { self.for_zero }
    }

    /// What the numbers and one more after them answer for a number.
    #[inline(always)]
    fn answer_behind(&self, item: i64, right: i64) -> Option<i64>
        ensures bit { IfSome result (λ b. b ≡ bit (is_one b)) }
        ensures fold { IfSome result (IsNextAnswer P.FUNCTION (is_one self.now.for_zero) (is_one self.now.for_one) item right) }
    {
        match P::apply(item, right) {
            Ok(value) => Some(self.answer(is_one(value))),
            Err(_) => None,
        }
    }
}

impl<P: TwoValuedFunction + Drop> RunningBits<P> {
    /// The fold of the numbers and a bit after them, and the answers of all of these.
    #[inline(always)]
    fn with_bit(&self, item: i64) -> Option<(i64, Self)>
        requires { item ≡ bit (is_one item) }
        ensures value { IfSome result (λ next. IsBitsAnswer P.FUNCTION (is_one self.now.for_zero) (is_one self.now.for_one) item next.0) }
        ensures front { IfSome result (λ next. AreNextBits P.FUNCTION (is_one self.now.for_zero) (is_one self.now.for_one) item (is_one next.1.for_zero) (is_one next.1.for_one)) }
    {
        let value = self.answer(is_one(item));
        let next = RunningBits {
            for_zero: self.answer_behind(item, 0)?,
            for_one: self.answer_behind(item, 1)?,
            function: PhantomData,
        };
        Some((value, next))
    }

    /// The answers of the numbers and of the items at the next `count` places, if these are bits.
    #[inline(always)]
    fn with_places<K: Kernel<Out = i64>>(
        self,
        kernel: &K,
        place: usize,
        count: usize,
    ) -> Option<Self>
        requires places { place + count ≤ K.place_count kernel.now }
        requires fits { place + count < 2 ^ 64 }
        ensures { IfSome result (λ s. (from : ℕ) → from ≤ place → AreBitsFrom P.FUNCTION (K.outcome kernel.now) from place (is_one self.for_zero) (is_one self.for_one) → AreBitsFrom P.FUNCTION (K.outcome kernel.now) from (place + count) (is_one s.for_zero) (is_one s.for_one)) }
    {
        let mut bits = self;
        for offset in 0..count {
            let Ok(item) = kernel.at(place + offset) else {
                return None;
            };
            let (_, next) = bits.with(item)?;
            bits = next;
        }
        Some(bits)
    }

    /// The answers of the items at the places from `from` up to before `to`, if they are bits.
    #[inline(always)]
    fn of_places<K: Kernel<Out = i64>>(kernel: &K, from: usize, to: usize) -> Option<Self>
        requires order { from ≤ to }
        requires places { to ≤ K.place_count kernel.now }
        ensures { IfSome result (λ s. AreBitsFrom P.FUNCTION (K.outcome kernel.now) from to (is_one s.for_zero) (is_one s.for_one)) }
    {
        let mut bits = RunningBits::none();
        for turn in 0..(to - from) / TURN {
            let next = bits.with_places(kernel, from + turn * TURN, TURN)?;
            bits = next;
        }
        let rest = (to - from) % TURN;
        bits.with_places(kernel, to - rest, rest)
    }
}

impl<P: TwoValuedFunction + Drop> PrefixState for RunningBits<P> {
    ghost use Rattle.apl_scalar.specs.Scalar.{dyadic_numbers, is_one};
    ghost use Rattle.apl_summary.specs.Fronts.{AreRunningBits};

    ghost step = { dyadic_numbers P.FUNCTION };

    ghost is_of = { λ s. AreRunningBits P.FUNCTION (is_one s.for_zero) (is_one s.for_one) };

    #[inline(always)]
    fn with(&self, item: i64) -> Option<(i64, Self)> {
        if item < 0 || item > 1 {
            return None;
        }
        // Made from one test, by which the compiler then chooses all answers.
        self.with_bit(number(item == 1))
    }
}

/// What the items at the places from `from` up to before `to` answer, if all but the last are bits.
#[inline(always)]
pub fn answers_of_run<P: TwoValuedFunction + Drop, K: Kernel<Out = i64>>(
    kernel: &K,
    from: usize,
    to: usize,
) -> Option<Answers>
    requires some { from < to }
    requires places { to ≤ K.place_count kernel.now }
    requires few { to - from ≤ LONGEST_RUN }
    ensures { IfSome result (IsSummaryFrom (dyadic_numbers P.FUNCTION) (λ (a : Answers). a.count) (two_valued_outcome P.FUNCTION) (K.outcome kernel.now) from to) }
{
    let bits = RunningBits::<P>::of_places(kernel, from, to - 1)?;
    let Ok(last) = kernel.at(to - 1) else {
        return None;
    };
    Some(Answers {
        count: (to - from) as u32,
        last,
        for_zero: Ok(is_one(bits.for_zero)),
        for_one: Ok(is_one(bits.for_one)),
    })
}
