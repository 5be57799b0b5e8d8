//! Right folds of neighbours that are 1 or ¯1 by `×`, of a run at once.
ghost use Rattle.std.specs.Prelude.{◌≡◌, ◌+◌, ◌*◌, ◌^◌, ◌%◌, ◌≤◌, ◌⊎◌, IfSome, Ok, length, map};
ghost use Rattle.apl_array.specs.declared.array.Elem.TheVariants.{Int};
ghost use Rattle.apl_array.specs.declared.function.ScalarFunction.TheVariants.{Times};
ghost use Rattle.apl_reduce.specs.Folded.{folded_onto};
ghost use Rattle.apl_reduce.specs.Items.{item_in};

use crate::halves::{KnownRun, of_halves};
use apl_answer::{Numeric, number_at};
use apl_array::range_is_decided;

/// The sign of the product of numbers, and whether each of them is 1 or ¯1.
#[derive(Clone, Copy)]
struct RunSigns {
    /// The highest bit is set if an odd number of them are negative.
    signs: u64,
    /// The bits that one number or more has if 1 is added to each. They are 0 or 2 exactly if each is 1 or ¯1.
    sums: u64,
}

/// One more than the number that these bits are, modulo 2^64.
#[inline(always)]
fn one_more(bits: u64) -> u64
    ensures { result ≡ (bits + 1) % 2 ^ 64 }
{
    bits.wrapping_add(1)
}

impl KnownRun for RunSigns {
    ghost use Rattle.apl_reduce.specs.SignFolds.{AreRunSigns};

    ghost is_of = { λ run numbers first count. AreRunSigns numbers first count run.signs run.sums };

    #[inline(always)]
    fn none() -> RunSigns {
        RunSigns { signs: 0, sums: 0 }
    }

    #[inline(always)]
    fn with_next<T: Numeric>(&self, numbers: &[T], place: usize) -> RunSigns {
        range_is_decided();
        let bits = number_at(numbers, place).cast_unsigned();
        RunSigns {
            signs: self.signs ^ bits,
            sums: self.sums | one_more(bits),
        }
    }

    #[inline(always)]
    fn joined(&self, next: &RunSigns) -> RunSigns {
        RunSigns {
            signs: self.signs ^ next.signs,
            sums: self.sums | next.sums,
        }
    }
}

/// The fold of both halves of neighbours onto a total by `×`, if each of them is 1 or ¯1, and the total has a negative in the range.
pub(crate) fn sign_onto<T: Numeric>(
    numbers: &[T],
    first: usize,
    half: usize,
    total: i64,
) -> Option<i64>
    requires within { first + 2 * half ≤ length numbers.now }
    ensures { IfSome result (λ z. folded_onto Times (item_in (map Int (map T.number_in numbers.now))) first (2 * half) (Ok total) ≡ Ok z) }
{
    let run: RunSigns = of_halves(numbers, first, half);
    let are_units = run.sums == 0 || run.sums == 2;
    if !are_units || total == i64::MIN {
        return None;
    }
    Some(if run.signs < 1 << 63 { total } else { -total })
}
