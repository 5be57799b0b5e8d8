//! Right folds by `⌈` and `⌊`, of a run or of four at once.
ghost use Rattle.std.specs.Prelude.{◌≡◌, ◌+◌, ◌*◌, ◌≤◌, Ok, length, map};
ghost use Rattle.apl_array.specs.declared.array.Elem.TheVariants.{Int};
ghost use Rattle.apl_reduce.specs.Folded.{folded_onto};
ghost use Rattle.apl_reduce.specs.FourFolds.{AreRuns, AreFourFolds};
ghost use Rattle.apl_reduce.specs.Items.{item_in};

use crate::four::Four;
use apl_answer::{Numeric, number_at};

/// The greatest of numbers, or the least.
pub(crate) trait Extreme {
    ghost use Rattle.std.specs.Prelude.{◌≡◌, ℤ};
    ghost use Rattle.apl_array.specs.declared.function.ScalarFunction.{ScalarFunction};
    ghost use Rattle.apl_reduce.specs.ExtremeFolds.{IsExtreme};

    // The scalar function that gives it.
    ghost function: { ScalarFunction };

    // That of two numbers.
    ghost of_two: { ℤ → ℤ → ℤ };

    /// That of two numbers.
    fn of_two(x: i64, y: i64) -> i64
        ensures value { result ≡ of_two x y }
        ensures laws { IsExtreme function of_two };
}

/// The greatest, by `⌈`.
pub(crate) struct Greatest;

impl Extreme for Greatest {
    ghost use Rattle.std.specs.Int.{int_max};
    ghost use Rattle.apl_array.specs.declared.function.ScalarFunction.TheVariants.{Ceiling};

    ghost function = { Ceiling };

    ghost of_two = { int_max };

    #[inline(always)]
    fn of_two(x: i64, y: i64) -> i64 {
        x.max(y)
    }
}

/// The least, by `⌊`.
pub(crate) struct Least;

impl Extreme for Least {
    ghost use Rattle.std.specs.Int.{int_min};
    ghost use Rattle.apl_array.specs.declared.function.ScalarFunction.TheVariants.{Floor};

    ghost function = { Floor };

    ghost of_two = { int_min };

    #[inline(always)]
    fn of_two(x: i64, y: i64) -> i64 {
        x.min(y)
    }
}

/// The extreme of each total and of as many neighbours from its place on. A turn takes a number of each run. The loop has no branches, and
/// a processor compares several numbers at once.
pub(crate) fn each_extreme<E: Extreme, T: Numeric>(
    numbers: &[T],
    starts: Four<usize>,
    count: usize,
    totals: Four<i64>,
) -> Four<i64>
    requires within { AreRuns starts count (length numbers.now) }
    ensures { AreFourFolds E.function (map Int (map T.number_in numbers.now)) starts count totals result }
{
    let mut one = totals.first;
    let mut two = totals.second;
    let mut three = totals.third;
    let mut four = totals.fourth;
    for k in 0..count {
        one = E::of_two(number_at(numbers, starts.first + k), one);
        two = E::of_two(number_at(numbers, starts.second + k), two);
        three = E::of_two(number_at(numbers, starts.third + k), three);
        four = E::of_two(number_at(numbers, starts.fourth + k), four);
    }
    Four {
        first: one,
        second: two,
        third: three,
        fourth: four,
    }
}

/// The extreme of a total and both halves of neighbours from a place on. It is the same from the first number on as from the last. A turn
/// takes a number of each half, since memory gives two streams faster than one.
pub(crate) fn extreme_onto<E: Extreme, T: Numeric>(
    numbers: &[T],
    first: usize,
    half: usize,
    total: i64,
) -> i64
    requires within { first + 2 * half ≤ length numbers.now }
    ensures { folded_onto E.function (item_in (map Int (map T.number_in numbers.now))) first (2 * half) (Ok total) ≡ Ok result }
{
    let second = first + half;
    let mut low = total;
    let mut high = total;
    for k in 0..half {
        low = E::of_two(number_at(numbers, first + k), low);
        high = E::of_two(number_at(numbers, second + k), high);
    }
    E::of_two(low, high)
}
