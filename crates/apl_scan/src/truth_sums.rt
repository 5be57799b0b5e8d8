//! The folds of truth values by `+` or `-` up to each place of lines of neighbours, in one pass that can't fault.
ghost use Rattle.std.specs.Prelude.{◌≡◌, ◌≤ℤ◌, ℤ, pos, negsuc, not, ◌&&◌, ◌+◌, ◌*◌, ◌/◌, ◌<◌, ◌≤◌, ◌++◌, ◌∷◌, [], List, Ok, IfOk, length, map, nat_eq, take, vec_len, vec_capacity};
ghost use Rattle.apl_array.specs.Array.{bit};
ghost use Rattle.apl_pool.specs.declared.kernel.TheConstants.{MOST_PLACES};
ghost use Rattle.apl_pool.specs.Summaries.{fold_onto};
ghost use Rattle.apl_scalar.specs.Scalar.{dyadic_numbers};
ghost use Rattle.apl_summary.specs.Constants.{signed_function};
ghost use Rattle.apl_summary.specs.Fronts.{HasMoreAppended, signed_total};
ghost use Rattle.apl_summary.specs.Running.{HasFoldsAppended};
ghost use Rattle.apl_scan.specs.TruthLines.{AreTruthScans, IsTruthSum};

use crate::summarized::room_for;
use apl_pool::{Crew, MOST_PLACES};
use std::alloc::AllocError;

/// How many truth values are folded in one turn of a loop.
const TURN: usize = 4;

/// The total with a truth value added, or taken from it.
#[inline(always)]
fn total_with(is_negated: bool, total: i64, truth: bool) -> i64
    requires least { negsuc 4611686018427387903 ≤ℤ total }
    requires greatest { total ≤ℤ pos 4611686018427387904 }
    ensures { result ≡ signed_total is_negated total (bit truth) }
{
    if is_negated {
        total - truth as i64
    } else {
        total + truth as i64
    }
}

/// Whether the number after the next one is taken from the total.
#[inline(always)]
fn next_sign(is_plus: bool, is_negated: bool) -> bool
    ensures { result ≡ (not is_plus && not is_negated) }
{
    !is_plus & !is_negated
}

/// The sum of the truth values if `MINUS` is 0. Else it is the first without the second, with the third, without the fourth and so on.
#[derive(Clone, Copy, Drop)]
struct TruthSum<const MINUS: u8> {
    total: i64,
    /// Whether the next truth value is taken from the total.
    is_negated: bool,
}

impl<const MINUS: u8> TruthSum<MINUS> {
    /// The sum of no truth value.
    #[inline(always)]
    fn none() -> Self
        ensures { IsTruthSum (nat_eq MINUS 0) result.is_negated result.total [] }
    {
        TruthSum {
            total: 0,
            is_negated: false,
        }
    }

    /// The sum of the truth values and one more after them, whose total is their fold.
    #[inline(always)]
    fn with(&self, truth: bool) -> Self
        requires { (xs : List ℤ) × IsTruthSum (nat_eq MINUS 0) self.now.is_negated self.now.total xs × (length xs < MOST_PLACES) }
        ensures total { (xs : List ℤ) → IsTruthSum (nat_eq MINUS 0) self.now.is_negated self.now.total xs → length xs < MOST_PLACES → fold_onto (dyadic_numbers (signed_function (nat_eq MINUS 0))) xs (bit truth) ≡ Ok result.total }
        ensures sum { (xs : List ℤ) → IsTruthSum (nat_eq MINUS 0) self.now.is_negated self.now.total xs → length xs < MOST_PLACES → IsTruthSum (nat_eq MINUS 0) result.is_negated result.total (xs ++ bit truth ∷ []) }
    {
        let total = total_with(self.is_negated, self.total, truth);
        let is_negated = next_sign(MINUS == 0, self.is_negated);
        TruthSum { total, is_negated }
    }
}

/// Appends the folds of all truth values of a line up to each of `count` from a place on. The sum is of those before that place. It
/// answers the sum of all of these.
#[inline(always)]
fn append_some<const MINUS: u8>(
    sum: TruthSum<MINUS>,
    truths: &[bool],
    values: &mut Vec<i64>,
    from: usize,
    count: usize,
) -> TruthSum<MINUS>
    requires most { length truths.now ≤ MOST_PLACES }
    requires places { from + count ≤ length truths.now }
    requires room { vec_len values.old + count ≤ vec_capacity values.old }
    requires sum { IsTruthSum (nat_eq MINUS 0) sum.is_negated sum.total (take from (map bit truths.now)) }
    ensures len { vec_len values.new ≡ vec_len values.old + count }
    ensures sum { IsTruthSum (nat_eq MINUS 0) result.is_negated result.total (take (from + count) (map bit truths.now)) }
    ensures folds { HasMoreAppended (dyadic_numbers (signed_function (nat_eq MINUS 0))) (map bit truths.now) from values.old.items values.new.items }
    ensures capacity { vec_capacity values.new ≡ vec_capacity values.old }
{
    let mut sum = sum;
    for offset in 0..count {
        sum = sum.with(truths[from + offset]);
        values.push_reserved(sum.total);
    }
    sum
}

/// Appends the folds of all truth values of a line up to each of these to a list that has room for them.
fn append_line<const MINUS: u8>(truths: &[bool], values: Vec<i64>) -> Vec<i64>
    requires most { length truths.now ≤ MOST_PLACES }
    requires room { vec_len values + length truths.now ≤ vec_capacity values }
    ensures len { vec_len result ≡ vec_len values + length truths.now }
    ensures folds { HasFoldsAppended (dyadic_numbers (signed_function (nat_eq MINUS 0))) (map bit truths.now) values.items result.items }
    ensures capacity { vec_capacity result ≡ vec_capacity values }
{
    let mut sum = TruthSum::<MINUS>::none();
    let mut values = values;
    for turn in 0..truths.len() / TURN {
        sum = append_some(sum, truths, &mut values, turn * TURN, TURN);
    }
    let rest = truths.len() % TURN;
    let _all = append_some(sum, truths, &mut values, truths.len() - rest, rest);
    values
}

/// The sums of all truth values up to each place of lines of neighbours, each with `items` of them. By minus they are the alternating sums.
pub(crate) fn add_lines<const MINUS: u8, W: Crew>(
    workers: &W,
    truths: &[bool],
    items: usize,
) -> Result<Vec<i64>, AllocError>
    requires most { length truths.now ≤ MOST_PLACES }
    requires items { 0 < items }
    requires lines { length truths.now / items * items ≡ length truths.now }
    ensures { IfOk result (λ v. AreTruthScans (signed_function (nat_eq MINUS 0)) truths.now items v.items) }
{
    let mut values = room_for(workers, truths.len())?;
    for line in 0..truths.len() / items {
        let first = line * items;
        values = append_line::<MINUS>(&truths[first..first + items], values);
    }
    Ok(values)
}
