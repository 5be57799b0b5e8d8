//! Summaries under the logical functions and the comparisons.
ghost use Rattle.std.specs.Prelude.{◌≡◌, ℕ, true, refl};
ghost use Rattle.apl_summary.specs.Answers.{is_two_valued};

use crate::answers::Answers;
use crate::running::{Running, append_scan_after, scan_run_after};
use crate::running_bits::{RunningBits, answers_of_run};
use crate::running_columns::append_columns_after;
use apl_answer::Numeric;
use apl_pool::{Fault, Kernel, Summary};
use apl_scalar::function_types::{
    And, Equal, Function, Greater, GreaterOrEqual, Less, LessOrEqual, Nand, Nor, NotEqual, Or,
};
use std::alloc::{AllocError, Global};
use std::marker::PhantomData;

/// A scalar function whose results are 0 and 1 alone.
pub trait TwoValuedFunction: Function {
    ghost two_valued: { is_two_valued Self.Function.FUNCTION ≡ true };
}

impl TwoValuedFunction for And {
    ghost two_valued = { refl };
}

impl TwoValuedFunction for Or {
    ghost two_valued = { refl };
}

impl TwoValuedFunction for Nand {
    ghost two_valued = { refl };
}

impl TwoValuedFunction for Nor {
    ghost two_valued = { refl };
}

impl TwoValuedFunction for Less {
    ghost two_valued = { refl };
}

impl TwoValuedFunction for LessOrEqual {
    ghost two_valued = { refl };
}

impl TwoValuedFunction for Equal {
    ghost two_valued = { refl };
}

impl TwoValuedFunction for GreaterOrEqual {
    ghost two_valued = { refl };
}

impl TwoValuedFunction for Greater {
    ghost two_valued = { refl };
}

impl TwoValuedFunction for NotEqual {
    ghost two_valued = { refl };
}

/// The summary of numbers under the function that `P` names.
///
/// The last item is the first that meets what comes in. Its result is 0 or 1, so it is enough to know what
/// the items to its left answer for these two.
#[derive(Clone, Copy)]
pub struct TwoValued<P> {
    answers: Answers,
    function: PhantomData<P>,
}

impl<P: TwoValuedFunction + Drop> Summary for TwoValued<P> {
    type Item = i64;

    ghost use Rattle.apl_scalar.specs.Scalar.{dyadic_numbers};
    ghost use Rattle.apl_summary.specs.Answers.{two_valued_outcome};

    ghost step = { dyadic_numbers P.FUNCTION };

    ghost item_count = { λ s. s.answers.count };

    ghost outcome = { λ s right. two_valued_outcome P.FUNCTION s.answers right };

    fn one(item: i64) -> Self {
        TwoValued {
            answers: Answers::one(item),
            function: PhantomData,
        }
    }

    fn join(left: &Self, right: &Self) -> Self {
        TwoValued {
            answers: left.answers.joined::<P>(&right.answers),
            function: PhantomData,
        }
    }

    fn items(&self) -> u32 {
        self.answers.count
    }

    fn apply(&self, right: i64) -> Result<i64, Fault> {
        self.answers.apply::<P>(right)
    }

    fn of_run<K: Kernel<Out = i64>>(kernel: &K, from: usize, to: usize) -> Option<Self> {
        let answers = answers_of_run::<P, K>(kernel, from, to)?;
        Some(TwoValued {
            answers,
            function: PhantomData,
        })
    }
}

impl<P: TwoValuedFunction + Drop> Running for TwoValued<P> {
    fn scan_run(before: &Option<Self>, numbers: &[i64], room: &mut [i64]) -> usize {
        let Some(before) = before else {
            return scan_run_after(RunningBits::<P>::none(), numbers, room);
        };
        match RunningBits::<P>::of(&before.answers) {
            Some(front) => scan_run_after(front, numbers, room),
            None => 0,
        }
    }

    fn append_scan<T: Numeric>(numbers: &[T], values: Vec<i64>) -> Vec<i64> {
        append_scan_after(RunningBits::<P>::none(), numbers, values)
    }

    fn append_columns<T: Numeric>(
        alloc: Global,
        numbers: &[T],
        items: usize,
        inner: usize,
        values: Vec<i64>,
    ) -> Result<Vec<i64>, AllocError> {
        append_columns_after(
            RunningBits::<P>::none(),
            alloc,
            numbers,
            items,
            inner,
            values,
        )
    }
}
