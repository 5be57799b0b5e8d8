//! Numbers after others, each folded with all before it.
ghost use Rattle.std.specs.Prelude.{◌≡◌, ◌<◌, ◌≤◌, ◌+◌, ℕ, ℤ, List, [], ◌∷◌, ◌++◌, Result, Ok, IfOk, IfErr, IfSome, length, map, take, vec_len, vec_capacity};
ghost use Rattle.apl_pool.specs.declared.kernel.Fault.{Fault};
ghost use Rattle.apl_pool.specs.Summaries.{fold_onto};
ghost use Rattle.apl_summary.specs.Running.{AreFoldsBehind, AreFoldsAfter, HasFoldsAppended};
ghost use Rattle.apl_summary.specs.Fronts.{AreMoreFolds, HasMoreAppended, IsFrontBehind};
ghost use Rattle.apl_summary.specs.Columns.{AreColumnFolds};

use apl_answer::{Numeric, number_at};
use apl_pool::{Fault, Summary};
use std::alloc::{AllocError, Global};

/// A summary after which numbers are folded, each with all before it.
pub trait Running: Summary<Item = i64> {
    /// Puts into the room the folds of all numbers up to each of these, and answers how many it put. The
    /// summary is of the numbers before these. It is for summaries that do so faster than by `apply` and
    /// `join`. What it leaves out is folded by these. It takes no memory.
    fn scan_run(_before: &Option<Self>, _numbers: &[i64], _room: &mut [i64]) -> usize
        requires { length _numbers.now ≡ length _room.old }
        ensures most { result ≤ length _room.old }
        ensures folds { AreFoldsAfter Self.Summary.step Self.Summary.item_count Self.Summary.outcome _before.now _numbers.now result _room.new }
        ensures len { length _room.new ≡ length _room.old }
    {
        0
    }

    /// Appends the folds of all numbers up to each of these to a list that has room for them. It appends the first of them, all or fewer,
    /// and takes no memory.
    fn append_scan<T: Numeric>(_numbers: &[T], values: Vec<i64>) -> Vec<i64>
        requires room { vec_len values + length _numbers.now ≤ vec_capacity values }
        ensures most { vec_len result ≤ vec_len values + length _numbers.now }
        ensures folds { HasFoldsAppended Self.Summary.step (map T.number_in _numbers.now) values.items result.items }
        ensures capacity { vec_capacity result ≡ vec_capacity values }
    {
        values
    }

    /// Puts the folds of all numbers of its column up to each place into a list that is empty and has room for them. The numbers are in
    /// blocks of `items` rows of `inner` numbers. It puts the first of them, all or fewer.
    fn append_columns<T: Numeric>(
        _alloc: Global,
        _numbers: &[T],
        _items: usize,
        _inner: usize,
        values: Vec<i64>,
    ) -> Result<Vec<i64>, AllocError>
        requires items { 0 < _items }
        requires inner { 0 < _inner }
        requires empty { vec_len values ≡ 0 }
        requires room { length _numbers.now ≤ vec_capacity values }
        ensures most { IfOk result (λ v. vec_len v ≤ length _numbers.now) }
        ensures folds { IfOk result (λ v. AreColumnFolds Self.Summary.step (map T.number_in _numbers.now) _items _inner (vec_len v) v.items) }
        ensures capacity { IfOk result (λ v. vec_capacity v ≡ vec_capacity values) }
    {
        Ok(values)
    }
}

/// The numbers before others, by what matters to these.
pub trait PrefixState: Sized {
    // What a number does to the one on its right.
    ghost step: { ℤ → ℤ → Result ℤ Fault };

    // Which numbers they may be.
    ghost is_of: { Self → List ℤ → Type 0 };

    /// The fold of the numbers and one more after them, and the front of all of these; or none, if it can't tell.
    fn with(&self, number: i64) -> Option<(i64, Self)>
        ensures value { IfSome result (λ next. (xs : List ℤ) → is_of self.now xs → fold_onto step xs number ≡ Ok next.0) }
        ensures front { IfSome result (λ next. (xs : List ℤ) → is_of self.now xs → is_of next.1 (xs ++ number ∷ [])) };
}

/// How many numbers are folded in one turn of a loop.
const TURN: usize = 4;

/// Puts the folds of all numbers up to each of `count` from a place on. It answers the front of all of these, or else how many folds the
/// room has before the first that the front can't tell.
#[inline(always)]
fn scan_some<F: PrefixState + Drop>(
    front: F,
    numbers: &[i64],
    room: &mut [i64],
    from: usize,
    count: usize,
) -> Result<F, usize>
    requires numbers { length numbers.now ≡ length room.old }
    requires places { from + count ≤ length room.old }
    ensures front { IfOk result (λ next. IsFrontBehind F.is_of front numbers.now from (from + count) next) }
    ensures folds { IfOk result (λ next. AreMoreFolds F.step F.is_of front numbers.now from room.old (from + count) room.new) }
    ensures most { IfErr result (λ done. done ≤ length room.old) }
    ensures put { IfErr result (λ done. AreMoreFolds F.step F.is_of front numbers.now from room.old done room.new) }
    ensures len { length room.new ≡ length room.old }
{
    let mut front = front;
    for offset in 0..count {
        match front.with(numbers[from + offset]) {
            Some((value, next)) => {
                room[from + offset] = value;
                front = next;
            }
            None => return Err(from + offset),
        }
    }
    Ok(front)
}

/// Puts into the room the folds of all numbers up to each of these, and answers how many it put. It stops
/// before the first that the front can't tell.
#[inline(always)]
pub fn scan_run_after<F: PrefixState + Drop>(front: F, numbers: &[i64], room: &mut [i64]) -> usize
    requires { length numbers.now ≡ length room.old }
    ensures most { result ≤ length room.old }
    ensures folds { (before : List ℤ) → F.is_of front before → AreFoldsBehind F.step before numbers.now result room.new }
    ensures len { length room.new ≡ length room.old }
{
    let mut front = front;
    for turn in 0..room.len() / TURN {
        match scan_some(front, numbers, room, turn * TURN, TURN) {
            Ok(next) => front = next,
            Err(done) => return done,
        }
    }
    let rest = room.len() % TURN;
    match scan_some(front, numbers, room, room.len() - rest, rest) {
        Ok(_) => room.len(),
        Err(done) => done,
    }
}

/// Appends the folds of all numbers up to each of `count` from a place on. The front is of the numbers before that place. It answers the
/// front of all of these, or none if it stopped before the first that the front can't tell.
#[inline(always)]
fn append_some<F: PrefixState + Drop, T: Numeric>(
    front: F,
    numbers: &[T],
    values: &mut Vec<i64>,
    from: usize,
    count: usize,
) -> Option<F>
    requires places { from + count ≤ length numbers.now }
    requires room { vec_len values.old + count ≤ vec_capacity values.old }
    requires front { F.is_of front (take from (map T.number_in numbers.now)) }
    ensures all { IfSome result (λ next. vec_len values.new ≡ vec_len values.old + count) }
    ensures most { vec_len values.new ≤ vec_len values.old + count }
    ensures front { IfSome result (λ next. F.is_of next (take (from + count) (map T.number_in numbers.now))) }
    ensures folds { HasMoreAppended F.step (map T.number_in numbers.now) from values.old.items values.new.items }
    ensures capacity { vec_capacity values.new ≡ vec_capacity values.old }
{
    let mut state = front;
    for offset in 0..count {
        let (value, next) = state.with(number_at(numbers, from + offset))?;
        values.push_reserved(value);
        state = next;
    }
    Some(state)
}

/// Appends the folds of all numbers up to each of these to a list that has room for them. The front is of no number. It stops before the
/// first that this can't tell.
#[inline(always)]
pub fn append_scan_after<F: PrefixState + Drop, T: Numeric>(
    front: F,
    numbers: &[T],
    values: Vec<i64>,
) -> Vec<i64>
    requires none { F.is_of front [] }
    requires room { vec_len values + length numbers.now ≤ vec_capacity values }
    ensures most { vec_len result ≤ vec_len values + length numbers.now }
    ensures folds { HasFoldsAppended F.step (map T.number_in numbers.now) values.items result.items }
    ensures capacity { vec_capacity result ≡ vec_capacity values }
{
    let mut front = front;
    let mut values = values;
    for turn in 0..numbers.len() / TURN {
        match append_some(front, numbers, &mut values, turn * TURN, TURN) {
            Some(next) => front = next,
            None => return values,
        }
    }
    let rest = numbers.len() % TURN;
    let _all = append_some(front, numbers, &mut values, numbers.len() - rest, rest);
    values
}
