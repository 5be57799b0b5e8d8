//! Right folds of truth values, of a run at once.
ghost use Rattle.std.specs.Prelude.{◌≡◌, ◌+◌, ◌*◌, ◌≤◌, IfSome, Ok, length, map};
ghost use Rattle.apl_array.specs.declared.array.Elem.TheVariants.{Int};
ghost use Rattle.apl_reduce.specs.Folded.{folded_onto};
ghost use Rattle.apl_reduce.specs.Items.{item_in};

use crate::halves::{KnownRun, of_halves};
use apl_answer::{Numeric, number_at};
use apl_array::ScalarFunction;
use apl_scalar::function_types::Function;

/// What the bits of numbers have in common.
#[derive(Clone, Copy)]
struct RunBits {
    /// 1 if all numbers have the lowest bit, else 0.
    all: u64,
    /// The bits that one number or more has. They are 0 or 1 exactly if each number is.
    any: u64,
}

impl KnownRun for RunBits {
    ghost use Rattle.apl_reduce.specs.BitFolds.{AreRunBits};

    ghost is_of = { λ bits numbers first count. AreRunBits numbers first count bits.all bits.any };

    #[inline(always)]
    fn none() -> RunBits {
        RunBits { all: 1, any: 0 }
    }

    #[inline(always)]
    fn with_next<T: Numeric>(&self, numbers: &[T], place: usize) -> RunBits {
        let bits = number_at(numbers, place).cast_unsigned();
        RunBits {
            all: self.all & bits,
            any: self.any | bits,
        }
    }

    #[inline(always)]
    fn joined(&self, next: &RunBits) -> RunBits {
        RunBits {
            all: self.all & next.all,
            any: self.any | next.any,
        }
    }
}

/// The fold of both halves of neighbours onto a total by `∧` or `∨`, if the total and all numbers are 0 or 1.
#[inline(always)]
pub(crate) fn bit_fold<F: Function, T: Numeric>(
    numbers: &[T],
    first: usize,
    half: usize,
    total: i64,
) -> Option<i64>
    requires within { first + 2 * half ≤ length numbers.now }
    ensures { IfSome result (λ z. folded_onto F.FUNCTION (item_in (map Int (map T.number_in numbers.now))) first (2 * half) (Ok total) ≡ Ok z) }
{
    let bits: RunBits = of_halves(numbers, first, half);
    if bits.any > 1 || total.cast_unsigned() > 1 {
        return None;
    }
    match F::FUNCTION {
        ScalarFunction::And => Some(if bits.all == 1 { total } else { 0 }),
        ScalarFunction::Or => Some(if bits.any == 1 { 1 } else { total }),
        _ => None,
    }
}
