//! Indexes of an axis that numbers keep, repeat or leave for fills.
ghost use Rattle.std.specs.Prelude.{◌≡◌, ℕ, ◌<◌, ◌≤◌, List, if◌then◌else◌, Err, map, max, length, replicate, slice_index, take, ◌+◌, ◌&&◌, ◌++◌, true, false, IfOk, sum, vec_len, vec_capacity, pos};
ghost use Rattle.std.specs.List.{list_all};
ghost use Rattle.apl_array.specs.Array.{bit};
ghost use Rattle.apl_array.specs.Axes.{place_number};
ghost use Rattle.apl_pool.specs.declared.kernel.TheConstants.{MOST_PLACES};
ghost use Rattle.apl_answer.specs.Arguments.{is_natural, is_numbers, numbers_of, rank_of, size_of};
ghost use Rattle.apl_answer.specs.Pointwise.{IsAnswerOf};
ghost use Rattle.apl_answer.specs.Rows.{Answers};
ghost use Rattle.apl_struct.specs.Compressing.{as_vector, repeated_indexes, replicate_row, expand_row};
ghost use Rattle.apl_struct.specs.Held.{held_list};
ghost use Rattle.apl_struct.specs.Replicating.{replicated, IsSumOf};
ghost use Rattle.apl_struct.specs.Expanding.{expanded};
ghost use Rattle.std.specs.Ordering.{int_eq};

use crate::along::{Taking, gather_along, shape_with_axis, vector_length, vector_rank};
use crate::arguments::{HeldNumbers, TURN, held_numbers, numbers_among};
use crate::bits::{indexes_of_ones, push_times, truths_of_held};
use crate::building::{are_natural, empty};
use apl_answer::{Numeric, OpFault, number_at};
use apl_array::{Array, Axis, Elements, MOST_ELEMENTS};
use apl_pool::{Crew, Cut, Gate, Pool, Workers};
use apl_walk::{CountedBits, count_blocks};
use std::alloc::{AllocError, Global};
use std::thread::Threads;

/// How many times an index is put into a table at once, whatever its count is.
const SPARE: usize = 4;

/// More than the most elements. Each larger count is summed as this one, and so is one below 0. So no sum passes 64 bits.
const PAST: u64 = MOST_ELEMENTS as u64 + 1;

/// The sum of counts. A count below 0 is refused first (`Domain`), and then a sum past the most elements (`Limit`).
fn sum_of_counts<T: Numeric>(counts: &[T]) -> Result<usize, OpFault>
    requires { length counts.now ≤ MOST_PLACES }
    ensures { IsSumOf (map T.number_in counts.now) result }
{
    let mut all: u64 = 0;
    for i in 0..counts.len() {
        all += number_at(counts, i).cast_unsigned().min(PAST);
    }
    if all < PAST {
        return Ok(all as usize);
    }
    if are_natural(counts) {
        Err(OpFault::Limit)
    } else {
        Err(OpFault::Domain)
    }
}

/// The same of counts as they are held.
fn sum_of_held(counts: &HeldNumbers) -> Result<usize, OpFault>
    requires { length (held_list counts.now) ≤ MOST_PLACES }
    ensures { IsSumOf (held_list counts.now) result }
{
    match counts {
        HeldNumbers::Narrow(counts) => sum_of_counts(counts),
        HeldNumbers::Wide(counts) => sum_of_counts(counts.as_slice()),
    }
}

/// Puts an index as often behind others as its count says. It is put there `SPARE` times in any case, and what is past its count is
/// taken away again. So nothing hangs on a small count, which no processor can foresee.
#[inline(always)]
fn append_times(table: &mut Vec<u32>, index: u32, count: usize)
    requires { vec_len table.old + count + SPARE ≤ vec_capacity table.old }
    ensures items { table.new.items ≡ table.old.items ++ replicate count index }
    ensures capacity { vec_capacity table.new ≡ vec_capacity table.old }
{
    let end = table.len() + count;
    push_times(table, index, SPARE);
    if count > SPARE {
        push_times(table, index, count - SPARE);
    }
    table.truncate(end);
}

/// Puts the indexes from `from` up to before `to` into a table, each as often as its count says, after those before them.
#[inline(always)]
fn list_up_to<T: Numeric>(counts: &[T], from: usize, to: usize, table: &mut Vec<u32>)
    requires counts { list_all is_natural (map T.number_in counts.now) ≡ true }
    requires order { from ≤ to }
    requires places { to ≤ length counts.now }
    requires most { length counts.now ≤ MOST_PLACES }
    requires room { sum (map place_number (map T.number_in counts.now)) + SPARE ≤ vec_capacity table.old }
    requires before { table.old.items ≡ repeated_indexes (take from (map place_number (map T.number_in counts.now))) }
    ensures items { table.new.items ≡ repeated_indexes (take to (map place_number (map T.number_in counts.now))) }
    ensures capacity { vec_capacity table.new ≡ vec_capacity table.old }
{
    for i in from..to {
        append_times(table, i as u32, number_at(counts, i) as usize);
    }
}

/// Each index as often as its count says, which is so often in all.
fn listed_indexes<T: Numeric>(
    alloc: Global,
    counts: &[T],
    all: usize,
) -> Result<Vec<u32>, AllocError>
    requires counts { list_all is_natural (map T.number_in counts.now) ≡ true }
    requires most { length counts.now ≤ MOST_PLACES }
    requires all { all ≡ sum (map place_number (map T.number_in counts.now)) }
    requires few { all ≤ MOST_PLACES }
    ensures { IfOk result (λ table. table.items ≡ repeated_indexes (map place_number (map T.number_in counts.now))) }
{
    let mut table = Vec::with_capacity(alloc, all + SPARE)?;
    let turns = counts.len() / TURN;
    for turn in 0..turns {
        list_up_to(counts, turn * TURN, turn * TURN + TURN, &mut table);
    }
    list_up_to(counts, turns * TURN, counts.len(), &mut table);
    Ok(table)
}

/// The same by counts as they are held.
fn listed_of_held(alloc: Global, counts: &HeldNumbers, all: usize) -> Result<Vec<u32>, AllocError>
    requires counts { list_all is_natural (held_list counts.now) ≡ true }
    requires most { length (held_list counts.now) ≤ MOST_PLACES }
    requires all { all ≡ sum (map place_number (held_list counts.now)) }
    requires few { all ≤ MOST_PLACES }
    ensures { IfOk result (λ table. table.items ≡ repeated_indexes (map place_number (held_list counts.now))) }
{
    match counts {
        HeldNumbers::Narrow(counts) => listed_indexes(alloc, counts, all),
        HeldNumbers::Wide(counts) => listed_indexes(alloc, counts.as_slice(), all),
    }
}

/// Each index of axis `k`, which has this length, as often as its count says.
fn replicate_listed<W: Crew>(
    workers: &W,
    b: &Array,
    k: usize,
    axis_length: usize,
    counts: &HeldNumbers,
) -> Result<Array, OpFault>
    requires axis { k < max 1 (rank_of b.now) }
    requires each { length (held_list counts.now) ≡ axis_length }
    requires length { axis_length ≡ slice_index (as_vector axis_length b.now).shape k }
    requires most { axis_length ≤ MOST_PLACES }
    ensures { IsAnswerOf (if list_all is_natural (held_list counts.now) then replicated (as_vector axis_length b.now) k (map place_number (held_list counts.now)) else Err OpFault.Domain) result }
{
    let alloc = workers.alloc();
    let extent = sum_of_held(counts)?;
    let shape = shape_with_axis(alloc, b, k, extent)?;
    if shape.count() == 0 {
        return empty(workers, shape, b);
    }
    let indexes = listed_of_held(alloc, counts, extent)?;
    let taking = Taking::Listed(indexes.as_slice());
    gather_along(workers, b, k, axis_length, indexes.len(), taking)
}

/// The indexes of axis `k` at which truth values are true. Those of a vector are not listed, so that the workers look for them.
fn keep_ones<W: Crew>(workers: &W, b: &Array, k: usize, truths: &[bool]) -> Result<Array, OpFault>
    requires axis { k < max 1 (rank_of b.now) }
    requires length { length truths.now ≡ slice_index (as_vector (length truths.now) b.now).shape k }
    requires most { length truths.now ≤ MOST_PLACES }
    ensures { IsAnswerOf (replicated (as_vector (length truths.now) b.now) k (map place_number (map bit truths.now))) result }
{
    let alloc = workers.alloc();
    if vector_rank(b) > 1 {
        let indexes = indexes_of_ones(alloc, truths)?;
        let taking = Taking::Listed(indexes.as_slice());
        return gather_along(workers, b, k, truths.len(), indexes.len(), taking);
    }
    let (before, count) = count_blocks(alloc, truths)?;
    let counted = CountedBits {
        bits: truths,
        before: before.as_slice(),
        count,
    };
    gather_along(workers, b, k, truths.len(), count, Taking::Ones(counted))
}

/// Each index of axis `k` as often as its number says. Numbers that are all 0 or 1 serve as truth values.
fn replicate_each<W: Crew>(workers: &W, a: &Array, b: &Array, k: usize) -> Result<Array, OpFault>
    requires axis { k < max 1 (rank_of b.now) }
    requires length { size_of a.now ≡ slice_index (as_vector (size_of a.now) b.now).shape k }
    ensures { IsAnswerOf (if is_numbers a.now && list_all is_natural (numbers_of a.now) then replicated (as_vector (size_of a.now) b.now) k (map place_number (numbers_of a.now)) else Err OpFault.Domain) result }
{
    if let Elements::Truths(truths) = a.elements() {
        return keep_ones(workers, b, k, truths);
    }
    let numbers = held_numbers(workers, a)?;
    match truths_of_held(workers.alloc(), &numbers)? {
        Some(truths) => keep_ones(workers, b, k, truths.as_slice()),
        None => replicate_listed(workers, b, k, a.shape().count(), &numbers),
    }
}

/// Each index of axis `k`, which has this length, several times.
fn replicate_all<W: Crew>(
    workers: &W,
    b: &Array,
    k: usize,
    length: usize,
    count: i64,
) -> Result<Array, OpFault>
    requires axis { k < max 1 (rank_of b.now) }
    requires length { length ≡ slice_index (as_vector 1 b.now).shape k }
    requires most { length ≤ MOST_PLACES }
    ensures { IsAnswerOf (if is_natural count then replicated (as_vector 1 b.now) k (replicate length (place_number count)) else Err OpFault.Domain) result }
{
    if count < 0 {
        return Err(OpFault::Domain);
    }
    let times = count as usize;
    let extent = length.saturating_mul(times);
    if extent > MOST_ELEMENTS {
        return Err(OpFault::Limit);
    }
    gather_along(workers, b, k, length, extent, Taking::Repeated(times))
}

/// `A/B`, compress and replicate: each index of an axis as often as its number in `A` says, in order.
/// Shape: that of `B`, where the axis has the sum of `A`. One number serves all indexes, and a scalar `B` serves as a vector of
/// `A`'s count.
/// Errors in order: INDEX of the axis, RANK of `A`, LENGTH, DOMAIN of its kind and its numbers, LIMIT.
/// Source: APL\360 User's Manual, compression; numbers other than 0 and 1, and the order of errors, are this calculator's own.
pub fn compress<R: Threads + Sync, C: Cut + Sync, G: Gate + Sync>(
    rt: &R,
    alloc: Global,
    pool: &Pool<C, G>,
    a: &Array,
    b: &Array,
    axis: Axis,
) -> Result<Array, OpFault>
    ensures { Answers (replicate_row a.now b.now axis) result }
{
    let workers = Workers { rt, alloc, pool };
    let Some(k) = axis.resolve(vector_rank(b)) else {
        return Err(OpFault::Index);
    };
    if a.shape().rank() > 1 {
        return Err(OpFault::Rank);
    }
    let count = a.shape().count();
    let length = vector_length(b, k, count);
    if count != 1 && count != length {
        return Err(OpFault::Length);
    }
    if count == 1 {
        let counts = numbers_among(&workers, a)?;
        return replicate_all(&workers, b, k, length, counts.as_slice()[0]);
    }
    replicate_each(&workers, a, b, k)
}

/// The next index of axis `k` where a truth value is true, and a fill elsewhere. It is refused if the axis has not as many indexes as there
/// are ones (`Length`), and then where its shape passes a limit (`Limit`).
fn expand_by<W: Crew>(workers: &W, truths: &[bool], b: &Array, k: usize) -> Result<Array, OpFault>
    requires axis { k < max 1 (rank_of b.now) }
    requires most { length truths.now ≤ MOST_PLACES }
    ensures { (bits : List ℕ) → bits ≡ map place_number (map bit truths.now) → IsAnswerOf (expanded (as_vector (sum bits) b.now) k bits) result }
{
    let (before, count) = count_blocks(workers.alloc(), truths)?;
    if count != vector_length(b, k, count) {
        return Err(OpFault::Length);
    }
    let counted = CountedBits {
        bits: truths,
        before: before.as_slice(),
        count,
    };
    gather_along(
        workers,
        b,
        k,
        count,
        truths.len(),
        Taking::Expanded(counted),
    )
}

/// `A\B`, expand: the next index of an axis at each one of `A`, and a fill at each zero.
/// Shape: that of `B`, where the axis has `A`'s count. A scalar `B` serves as a vector of as many elements as `A` has ones.
/// Errors in order: INDEX of the axis, RANK of `A`, DOMAIN of its kind and its numbers, LENGTH of the ones, LIMIT.
/// Source: APL\360 User's Manual, expansion; the order of errors is this calculator's own.
pub fn expand<R: Threads + Sync, C: Cut + Sync, G: Gate + Sync>(
    rt: &R,
    alloc: Global,
    pool: &Pool<C, G>,
    a: &Array,
    b: &Array,
    axis: Axis,
) -> Result<Array, OpFault>
    ensures { Answers (expand_row a.now b.now axis) result }
{
    let workers = Workers { rt, alloc, pool };
    let Some(k) = axis.resolve(vector_rank(b)) else {
        return Err(OpFault::Index);
    };
    if a.shape().rank() > 1 {
        return Err(OpFault::Rank);
    }
    if let Elements::Truths(truths) = a.elements() {
        return expand_by(&workers, truths, b, k);
    }
    let numbers = held_numbers(&workers, a)?;
    match truths_of_held(alloc, &numbers)? {
        Some(truths) => expand_by(&workers, truths.as_slice(), b, k),
        None => Err(OpFault::Domain),
    }
}
