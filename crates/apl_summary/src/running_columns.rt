//! Numbers in rows, each folded with all before it in its column.
ghost use Rattle.std.specs.Prelude.{◌≡◌, ◌+◌, ◌<◌, ◌≤◌, ℕ, List, ℤ, [], IfOk, true, length, map, slice_index_or, vec_len, vec_capacity};
ghost use Rattle.apl_summary.specs.Columns.{ArePlaceFolds, AreColumnFolds, AreFrontsAt, AreFrontsInRow};

use crate::running::PrefixState;
use apl_answer::{Numeric, number_at};
use std::alloc::{AllocError, Global};

/// How many columns go on in one turn of a loop.
const TURN: usize = 4;

/// Appends the folds of `count` columns from one on up to the next place of each. It answers whether the fronts can tell all of them.
#[inline(always)]
fn append_some<F: PrefixState + Copy + Drop, T: Numeric>(
    fronts: &mut [F],
    numbers: &[T],
    values: &mut Vec<i64>,
    from: usize,
    count: usize,
) -> bool
    requires columns { from + count ≤ length fronts.old }
    requires places { vec_len values.old + count ≤ length numbers.now }
    requires room { vec_len values.old + count ≤ vec_capacity values.old }
    ensures len { length fronts.new ≡ length fronts.old }
    ensures capacity { vec_capacity values.new ≡ vec_capacity values.old }
    ensures most { vec_len values.new ≤ vec_len values.old + count }
    ensures all { result ≡ true → vec_len values.new ≡ vec_len values.old + count }
    ensures folds { (before : ℕ → List ℤ) (start : ℕ) → vec_len values.old ≡ start + from → AreFrontsInRow F.is_of before (map T.number_in numbers.now) start from fronts.old
        → ArePlaceFolds F.step before (map T.number_in numbers.now) (vec_len values.old) values.old.items → ArePlaceFolds F.step before (map T.number_in numbers.now) (vec_len values.new) values.new.items }
    ensures fronts { result ≡ true → (before : ℕ → List ℤ) (start : ℕ) → vec_len values.old ≡ start + from
        → AreFrontsInRow F.is_of before (map T.number_in numbers.now) start from fronts.old → AreFrontsInRow F.is_of before (map T.number_in numbers.now) start (from + count) fronts.new }
{
    let place = values.len();
    for offset in 0..count {
        let front = fronts[from + offset];
        match front.with(number_at(numbers, place + offset)) {
            Some((value, next)) => {
                values.push_reserved(value);
                fronts[from + offset] = next;
            }
            None => return false,
        }
    }
    true
}

/// Appends the folds of all columns up to the next row. It answers whether the fronts can tell all of them.
#[inline(always)]
fn append_row<F: PrefixState + Copy + Drop, T: Numeric>(
    fronts: &mut [F],
    numbers: &[T],
    values: &mut Vec<i64>,
) -> bool
    requires places { vec_len values.old + length fronts.old ≤ length numbers.now }
    requires room { vec_len values.old + length fronts.old ≤ vec_capacity values.old }
    ensures len { length fronts.new ≡ length fronts.old }
    ensures capacity { vec_capacity values.new ≡ vec_capacity values.old }
    ensures most { vec_len values.new ≤ vec_len values.old + length fronts.old }
    ensures all { result ≡ true → vec_len values.new ≡ vec_len values.old + length fronts.old }
    ensures folds { (before : ℕ → List ℤ) → AreFrontsAt F.is_of before (vec_len values.old) fronts.old
        → ArePlaceFolds F.step before (map T.number_in numbers.now) (vec_len values.old) values.old.items → ArePlaceFolds F.step before (map T.number_in numbers.now) (vec_len values.new) values.new.items }
    ensures fronts { result ≡ true → (before : ℕ → List ℤ) → AreFrontsAt F.is_of before (vec_len values.old) fronts.old
        → AreFrontsInRow F.is_of before (map T.number_in numbers.now) (vec_len values.old) (length fronts.old) fronts.new }
{
    for turn in 0..fronts.len() / TURN {
        if !append_some(fronts, numbers, values, turn * TURN, TURN) {
            return false;
        }
    }
    let rest = fronts.len() % TURN;
    append_some(fronts, numbers, values, fronts.len() - rest, rest)
}

/// Makes all fronts anew before the first row of a block.
fn begin_row<F: Copy + Drop>(fronts: &mut [F], front: F, row: usize)
    ensures len { length fronts.new ≡ length fronts.old }
    ensures first { row ≡ 0 → (c : ℕ) (d : F) → c < length fronts.old → slice_index_or fronts.new c d ≡ front }
    ensures later { (row ≡ 0 → ⊥) → fronts.new ≡ fronts.old }
{
    if row != 0 {
        return;
    }
    for column in 0..fronts.len() {
        fronts[column] = front;
    }
}

/// Appends the folds of all columns up to each row. The front is of no number, and begins each column of each block.
fn append_rows<F: PrefixState + Copy + Drop, T: Numeric>(
    fronts: &mut [F],
    front: F,
    numbers: &[T],
    items: usize,
    values: Vec<i64>,
) -> Vec<i64>
    requires none { F.is_of front [] }
    requires some { 0 < length fronts.old }
    requires items { 0 < items }
    requires empty { vec_len values ≡ 0 }
    requires room { length numbers.now ≤ vec_capacity values }
    ensures most { vec_len result ≤ length numbers.now }
    ensures folds { AreColumnFolds F.step (map T.number_in numbers.now) items (length fronts.old) (vec_len result) result.items }
    ensures capacity { vec_capacity result ≡ vec_capacity values }
{
    let mut values = values;
    for row in 0..numbers.len() / fronts.len() {
        begin_row(fronts, front, row % items);
        if !append_row(fronts, numbers, &mut values) {
            return values;
        }
    }
    values
}

/// Puts the folds of all numbers of its column up to each place into a list that is empty and has room for them. The numbers are in blocks
/// of `items` rows of `inner` numbers. The front is of no number. It stops before the first fold that this can't tell.
pub fn append_columns_after<F: PrefixState + Copy + Drop, T: Numeric>(
    front: F,
    alloc: Global,
    numbers: &[T],
    items: usize,
    inner: usize,
    values: Vec<i64>,
) -> Result<Vec<i64>, AllocError>
    requires none { F.is_of front [] }
    requires items { 0 < items }
    requires inner { 0 < inner }
    requires empty { vec_len values ≡ 0 }
    requires room { length numbers.now ≤ vec_capacity values }
    ensures most { IfOk result (λ v. vec_len v ≤ length numbers.now) }
    ensures folds { IfOk result (λ v. AreColumnFolds F.step (map T.number_in numbers.now) items inner (vec_len v) v.items) }
    ensures capacity { IfOk result (λ v. vec_capacity v ≡ vec_capacity values) }
{
    let mut fronts = vec![in alloc; front; inner]?;
    Ok(append_rows(fronts.as_mut_slice(), front, numbers, items, values))
}
