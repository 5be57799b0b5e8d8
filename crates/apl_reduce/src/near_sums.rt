//! Sums of numbers near 0, so few that 64 bits hold each sum of some of them.
ghost use Rattle.std.specs.Prelude.{◌≡◌, ℕ, pos, ◌+◌, ◌*◌, ◌^◌, ◌<◌, ◌≤◌, ◌+ℤ◌, ◌-ℤ◌, ℤ, List, length, map, unsigned_abs};
ghost use Rattle.apl_array.specs.declared.function.ScalarFunction.TheVariants.{Plus, Minus};
ghost use Rattle.apl_reduce.specs.declared.near_sums.TheConstants.{MOST_NUMBERS, MOST_PAIRS, MOST_QUARTER};
ghost use Rattle.apl_reduce.specs.FourFolds.{AreRuns, IsChange, AreChanges, ArePairSums};
ghost use Rattle.apl_reduce.specs.Magnitudes.{IsSum, above};

use crate::four::{Four, quarters};
use apl_answer::{Numeric, number_at};
use apl_array::range_is_decided;

/// The most numbers that are added in one pass.
pub(crate) const MOST_NUMBERS: usize = 2 * MOST_PAIRS;

/// The most pairs that are, and the most in each quarter of a run.
pub(crate) const MOST_PAIRS: usize = 4 * MOST_QUARTER;

pub(crate) const MOST_QUARTER: usize = 8192;

/// Numbers are near 0 from the negative of this one up to before it.
pub(crate) const NEAR: u64 = 1 << 46;

/// Totals are near 0 if they are less than this far from it.
pub(crate) const NEAR_TOTAL: u64 = 1 << 62;

/// The sum modulo 2^64.
#[inline(always)]
pub(crate) fn wrapped_sum(x: i64, y: i64) -> i64
    ensures { unsigned_abs (x +ℤ y) < 2 ^ 63 → result ≡ x +ℤ y }
{
    x.wrapping_add(y)
}

/// The difference modulo 2^64.
#[inline(always)]
pub(crate) fn wrapped_difference(x: i64, y: i64) -> i64
    ensures { unsigned_abs (x -ℤ y) < 2 ^ 63 → result ≡ x -ℤ y }
{
    x.wrapping_sub(y)
}

/// How far a number is above the least one that is at most `near` from 0, modulo 2^64. So those below it are farther than all others.
#[inline(always)]
pub(crate) fn above_least(number: i64, near: u64) -> u64
    requires { near ≤ 2 ^ 46 }
    ensures near { result < 2 * near → pos result ≡ number +ℤ pos near }
    ensures exact { result ≡ above near number }
{
    number.cast_unsigned().wrapping_add(near)
}

/// A sum of numbers. If one is far from 0, it may have wrapped.
#[derive(Clone, Copy)]
pub(crate) struct NearSum {
    pub sum: i64,
    /// The bits that one or more of the numbers has, each counted from the least one that is near 0.
    pub bits: u64,
}

impl NearSum {
    /// The sum of no number.
    #[inline(always)]
    fn none() -> NearSum
        ensures { (numbers : List ℤ) (first step : ℕ) → IsSum numbers first step 0 result }
    {
        NearSum { sum: 0, bits: 0 }
    }

    /// The sum of one more number than the `count` that it is of.
    #[inline(always)]
    fn with_next<T: Numeric>(
        &self,
        numbers: &[T],
        first: usize,
        step: usize,
        count: usize,
    ) -> NearSum
        requires { first + count * step < length numbers.now }
        ensures { count < MOST_NUMBERS → IsSum (map T.number_in numbers.now) first step count self.now → IsSum (map T.number_in numbers.now) first step (count + 1) result }
    {
        let number = number_at(numbers, first + count * step);
        NearSum {
            sum: wrapped_sum(self.sum, number),
            bits: self.bits | above_least(number, NEAR),
        }
    }

    /// The sum with that of as many numbers that are next.
    #[inline(always)]
    fn joined(&self, next: &NearSum) -> NearSum
        ensures { (numbers : List ℤ) (first step count : ℕ) → 2 * count ≤ MOST_NUMBERS → IsSum numbers first step count self.now
            → IsSum numbers (first + count * step) step count next.now → IsSum numbers first step (2 * count) result }
    {
        NearSum {
            sum: wrapped_sum(self.sum, next.sum),
            bits: self.bits | next.bits,
        }
    }

    /// What pairs add to a total by `-`, if these are the sums of their first numbers and of their second ones. Each second number is
    /// turned once, and the total twice.
    #[inline(always)]
    fn less(&self, seconds: &NearSum) -> NearSum
        ensures { (numbers : List ℤ) (first pairs : ℕ) → pairs ≤ MOST_PAIRS → IsSum numbers first 2 pairs self.now → IsSum numbers (first + 1) 2 pairs seconds.now
            → IsChange Minus numbers first (2 * pairs) result }
    {
        range_is_decided();
        NearSum {
            sum: wrapped_difference(self.sum, seconds.sum),
            bits: self.bits | seconds.bits,
        }
    }
}

/// The sums of four runs of neighbours. A turn takes a number of each run. The loop has no branches, and a processor adds several numbers
/// at once.
fn four_sums<T: Numeric>(numbers: &[T], starts: Four<usize>, count: usize) -> Four<NearSum>
    requires within { AreRuns starts count (length numbers.now) }
    requires few { count ≤ MOST_NUMBERS }
    ensures first { IsSum (map T.number_in numbers.now) starts.first 1 count result.first }
    ensures second { IsSum (map T.number_in numbers.now) starts.second 1 count result.second }
    ensures third { IsSum (map T.number_in numbers.now) starts.third 1 count result.third }
    ensures fourth { IsSum (map T.number_in numbers.now) starts.fourth 1 count result.fourth }
{
    let mut one = NearSum::none();
    let mut two = NearSum::none();
    let mut three = NearSum::none();
    let mut four = NearSum::none();
    for k in 0..count {
        one = one.with_next(numbers, starts.first, 1, k);
        two = two.with_next(numbers, starts.second, 1, k);
        three = three.with_next(numbers, starts.third, 1, k);
        four = four.with_next(numbers, starts.fourth, 1, k);
    }
    Four {
        first: one,
        second: two,
        third: three,
        fourth: four,
    }
}

/// The sums of the first numbers of pairs of neighbours, and of the second ones.
#[derive(Clone, Copy)]
pub(crate) struct PairSums {
    pub firsts: NearSum,
    pub seconds: NearSum,
}

impl PairSums {
    ghost use Rattle.apl_reduce.specs.FourFolds.{ArePairSums};

    /// The sums of no pair.
    #[inline(always)]
    fn none() -> PairSums
        ensures { (numbers : List ℤ) (first : ℕ) → ArePairSums numbers first 0 result }
    {
        PairSums {
            firsts: NearSum::none(),
            seconds: NearSum::none(),
        }
    }

    /// The sums of one more pair than the `count` that they are of.
    #[inline(always)]
    fn with_pair<T: Numeric>(&self, numbers: &[T], first: usize, count: usize) -> PairSums
        requires { first + 2 * (count + 1) ≤ length numbers.now }
        ensures { count < MOST_PAIRS → ArePairSums (map T.number_in numbers.now) first count self.now → ArePairSums (map T.number_in numbers.now) first (count + 1) result }
    {
        PairSums {
            firsts: self.firsts.with_next(numbers, first, 2, count),
            seconds: self.seconds.with_next(numbers, first + 1, 2, count),
        }
    }

    /// The sums with those of as many pairs that are next.
    #[inline(always)]
    fn both(&self, next: &PairSums) -> PairSums
        ensures { (numbers : List ℤ) (first pairs : ℕ) → 2 * pairs ≤ MOST_PAIRS → ArePairSums numbers first pairs self.now
            → ArePairSums numbers (first + 2 * pairs) pairs next.now → ArePairSums numbers first (2 * pairs) result }
    {
        PairSums {
            firsts: self.firsts.joined(&next.firsts),
            seconds: self.seconds.joined(&next.seconds),
        }
    }

    /// What the pairs add to a total by `-`.
    #[inline(always)]
    fn turned(&self) -> NearSum
        ensures { (numbers : List ℤ) (first pairs : ℕ) → pairs ≤ MOST_PAIRS → ArePairSums numbers first pairs self.now → IsChange Minus numbers first (2 * pairs) result }
    {
        self.firsts.less(&self.seconds)
    }
}

/// The sums of four runs of pairs of neighbours. A turn takes a pair of each run.
#[inline(always)]
fn pair_sums<T: Numeric>(numbers: &[T], starts: Four<usize>, pairs: usize) -> Four<PairSums>
    requires within { AreRuns starts (2 * pairs) (length numbers.now) }
    requires few { pairs ≤ MOST_PAIRS }
    ensures first { ArePairSums (map T.number_in numbers.now) starts.first pairs result.first }
    ensures second { ArePairSums (map T.number_in numbers.now) starts.second pairs result.second }
    ensures third { ArePairSums (map T.number_in numbers.now) starts.third pairs result.third }
    ensures fourth { ArePairSums (map T.number_in numbers.now) starts.fourth pairs result.fourth }
{
    let mut one = PairSums::none();
    let mut two = PairSums::none();
    let mut three = PairSums::none();
    let mut four = PairSums::none();
    for k in 0..pairs {
        one = one.with_pair(numbers, starts.first, k);
        two = two.with_pair(numbers, starts.second, k);
        three = three.with_pair(numbers, starts.third, k);
        four = four.with_pair(numbers, starts.fourth, k);
    }
    Four {
        first: one,
        second: two,
        third: three,
        fourth: four,
    }
}

/// What four quarters of neighbours add to a total by `+`.
pub(crate) fn quarters_added<T: Numeric>(numbers: &[T], first: usize, quarter: usize) -> NearSum
    requires within { first + 4 * quarter ≤ length numbers.now }
    requires few { quarter ≤ 2 * MOST_QUARTER }
    ensures { IsChange Plus (map T.number_in numbers.now) first (2 * (2 * quarter)) result }
{
    range_is_decided();
    let sums = four_sums(numbers, quarters(first, quarter), quarter);
    let low = sums.first.joined(&sums.second);
    let high = sums.third.joined(&sums.fourth);
    low.joined(&high)
}

/// What four quarters of neighbours add to a total by `-`. A quarter has `quarter` pairs.
pub(crate) fn quarters_turned<T: Numeric>(numbers: &[T], first: usize, quarter: usize) -> NearSum
    requires within { first + 8 * quarter ≤ length numbers.now }
    requires few { quarter ≤ MOST_QUARTER }
    ensures { IsChange Minus (map T.number_in numbers.now) first (2 * (2 * (2 * quarter))) result }
{
    let sums = pair_sums(numbers, quarters(first, 2 * quarter), quarter);
    let low = sums.first.both(&sums.second);
    let high = sums.third.both(&sums.fourth);
    low.both(&high).turned()
}

/// What four runs of neighbours add to totals by `+`.
pub(crate) fn runs_added<T: Numeric>(
    numbers: &[T],
    starts: Four<usize>,
    count: usize,
) -> Four<NearSum>
    requires within { AreRuns starts count (length numbers.now) }
    requires few { count ≤ MOST_NUMBERS }
    ensures { AreChanges Plus (map T.number_in numbers.now) starts count result }
{
    range_is_decided();
    four_sums(numbers, starts, count)
}

/// What four runs of pairs of neighbours add to totals by `-`.
pub(crate) fn runs_turned<T: Numeric>(
    numbers: &[T],
    starts: Four<usize>,
    pairs: usize,
) -> Four<NearSum>
    requires within { AreRuns starts (2 * pairs) (length numbers.now) }
    requires few { pairs ≤ MOST_PAIRS }
    ensures { AreChanges Minus (map T.number_in numbers.now) starts (2 * pairs) result }
{
    let sums = pair_sums(numbers, starts, pairs);
    Four {
        first: sums.first.turned(),
        second: sums.second.turned(),
        third: sums.third.turned(),
        fourth: sums.fourth.turned(),
    }
}
