//! Truth values, and numbers that are each 0 or 1.
ghost use Rattle.std.specs.Prelude.{◌≡◌, ◌+◌, ◌≤◌, ◌++◌, replicate, false, true, map, length, take, IfOk, MatchOption, vec_len, vec_capacity};
ghost use Rattle.std.specs.List.{list_all};
ghost use Rattle.apl_array.specs.Array.{bit};
ghost use Rattle.apl_array.specs.Axes.{place_number};
ghost use Rattle.apl_pool.specs.declared.kernel.TheConstants.{MOST_PLACES};
ghost use Rattle.apl_answer.specs.Arguments.{is_bit};
ghost use Rattle.apl_struct.specs.Compressing.{repeated_indexes};
ghost use Rattle.apl_struct.specs.Held.{held_list};

use crate::arguments::{HeldNumbers, TURN};
use apl_answer::{Numeric, number_at};
use std::alloc::{AllocError, Global};

/// Puts an index several times after others.
#[inline(always)]
pub(crate) fn push_times(table: &mut Vec<u32>, index: u32, times: usize)
    requires { vec_len table.old + times ≤ vec_capacity table.old }
    ensures items { table.new.items ≡ table.old.items ++ replicate times index }
    ensures capacity { vec_capacity table.new ≡ vec_capacity table.old }
{
    for _again in 0..times {
        table.push_reserved(index);
    }
}

/// Puts the indexes of the ones from `from` up to before `to` into a table, after those of the ones before them. What is put at the index
/// of a zero is written over by the next, so no jump depends on a truth value, which no processor can foresee.
#[inline(always)]
fn keep_up_to(truths: &[bool], from: usize, to: usize, table: &mut Vec<u32>)
    requires order { from ≤ to }
    requires places { to ≤ length truths.now }
    requires most { length truths.now ≤ MOST_PLACES }
    requires room { length truths.now ≤ vec_capacity table.old }
    requires few { vec_len table.old ≤ from }
    requires kept { table.old.items ≡ repeated_indexes (take from (map place_number (map bit truths.now))) }
    ensures few { vec_len table.new ≤ to }
    ensures kept { table.new.items ≡ repeated_indexes (take to (map place_number (map bit truths.now))) }
    ensures capacity { vec_capacity table.new ≡ vec_capacity table.old }
{
    let mut kept = table.len();
    push_times(table, 0, to - from);
    let places = table.as_mut_slice();
    for i in from..to {
        places[kept] = i as u32;
        kept += truths[i] as usize;
    }
    table.truncate(kept);
}

/// The indexes at which truth values are true.
pub(crate) fn indexes_of_ones(alloc: Global, truths: &[bool]) -> Result<Vec<u32>, AllocError>
    requires most { length truths.now ≤ MOST_PLACES }
    ensures { IfOk result (λ table. table.items ≡ repeated_indexes (map place_number (map bit truths.now))) }
{
    let mut table = Vec::with_capacity(alloc, truths.len())?;
    let turns = truths.len() / TURN;
    for turn in 0..turns {
        keep_up_to(truths, turn * TURN, turn * TURN + TURN, &mut table);
    }
    keep_up_to(truths, turns * TURN, truths.len(), &mut table);
    Ok(table)
}

/// Whether a number is 0 or 1.
#[inline(always)]
fn is_bit(number: i64) -> bool
    ensures { result ≡ is_bit number }
{
    number == 0 || number == 1
}

/// Puts the numbers from `from` up to before `to` as truth values into a list, after those before them. It answers whether all up to there
/// are bits.
#[inline(always)]
fn judge_up_to<T: Numeric>(numbers: &[T], from: usize, to: usize, truths: &mut Vec<bool>) -> bool
    requires before { map bit truths.old.items ≡ take from (map T.number_in numbers.now) }
    requires order { from ≤ to }
    requires places { to ≤ length numbers.now }
    requires room { length numbers.now ≤ vec_capacity truths.old }
    ensures bits { result ≡ list_all is_bit (take to (map T.number_in numbers.now)) }
    ensures truths { result ≡ true → map bit truths.new.items ≡ take to (map T.number_in numbers.now) }
    ensures capacity { vec_capacity truths.new ≡ vec_capacity truths.old }
{
    let mut are_bits = true;
    for i in from..to {
        let number = number_at(numbers, i);
        are_bits &= is_bit(number);
        truths.push_reserved(number == 1);
    }
    are_bits
}

/// Numbers as truth values, if all are bits.
fn truths_of<T: Numeric>(alloc: Global, numbers: &[T]) -> Result<Option<Vec<bool>>, AllocError>
    requires most { length numbers.now ≤ MOST_PLACES }
    ensures { IfOk result (λ found. MatchOption found (list_all is_bit (map T.number_in numbers.now) ≡ false) (λ truths. map bit truths.items ≡ map T.number_in numbers.now)) }
{
    let mut truths = Vec::with_capacity(alloc, numbers.len())?;
    let turns = numbers.len() / TURN;
    for turn in 0..turns {
        if !judge_up_to(numbers, turn * TURN, turn * TURN + TURN, &mut truths) {
            return Ok(None);
        }
    }
    if judge_up_to(numbers, turns * TURN, numbers.len(), &mut truths) {
        Ok(Some(truths))
    } else {
        Ok(None)
    }
}

/// The same of numbers as they are held.
pub(crate) fn truths_of_held(
    alloc: Global,
    numbers: &HeldNumbers,
) -> Result<Option<Vec<bool>>, AllocError>
    requires most { length (held_list numbers.now) ≤ MOST_PLACES }
    ensures { IfOk result (λ found. MatchOption found (list_all is_bit (held_list numbers.now) ≡ false) (λ truths. map bit truths.items ≡ held_list numbers.now)) }
{
    match numbers {
        HeldNumbers::Narrow(numbers) => truths_of(alloc, numbers),
        HeldNumbers::Wide(numbers) => truths_of(alloc, numbers.as_slice()),
    }
}
