//! Truth values in lines of neighbours, each joined with all before it in its line by "and" or "or". A line keeps one value up to the first
//! that ends it, and has that one from there on.
ghost use Rattle.std.specs.Prelude.{◌≡◌, ◌⊎◌, ℕ, ◌+◌, ◌*◌, ◌/◌, ◌<◌, ◌≤◌, Bool, true, false, not, IfOk, IfSome, length, slice_index_or, vec_len};
ghost use Rattle.apl_scan.specs.TruthLines.{IsEndOf, IsEnded, AreEnded};

use apl_array::ScalarFunction;
use apl_pool::Crew;
use std::alloc::AllocError;

/// The value that ends a line: false for `∧`, `×` and `⌊`, which are all "and" of truth values, and true for `∨` and `⌈`.
#[tactic(auto, using(crate::proofs::TruthLines::end_of_and, crate::proofs::TruthLines::end_of_times, crate::proofs::TruthLines::end_of_floor, crate::proofs::TruthLines::end_of_or, crate::proofs::TruthLines::end_of_ceiling))]
pub(crate) fn end_of(f: ScalarFunction) -> Option<bool>
    ensures { IfSome result (IsEndOf f) }
{
    match f {
        ScalarFunction::And | ScalarFunction::Times | ScalarFunction::Floor => Some(false),
        ScalarFunction::Or | ScalarFunction::Ceiling => Some(true),
        _ => None,
    }
}

/// How many truth values are looked at before a test whether one of them ends a line.
const BLOCK: usize = 64;

/// Whether one of these truth values is `end`.
#[inline(always)]
fn has_end(truths: &[bool], end: bool) -> bool
    ensures { result ≡ false → (k : ℕ) (d : Bool) → k < length truths.now → slice_index_or truths.now k d ≡ not end }
{
    let mut found = false;
    for truth in truths {
        found |= *truth == end;
    }
    found
}

/// How many truth values are in the blocks before the first that has one that is `end`.
#[inline(always)]
fn count_in_blocks(truths: &[bool], end: bool) -> usize
    ensures most { result ≤ length truths.now }
    ensures before { (k : ℕ) (d : Bool) → k < result → slice_index_or truths.now k d ≡ not end }
{
    let blocks = truths.len() / BLOCK;
    for block in 0..blocks {
        let first = block * BLOCK;
        if has_end(&truths[first..first + BLOCK], end) {
            return first;
        }
    }
    blocks * BLOCK
}

/// How many truth values are before the first that is `end`: all if none is.
fn count_before(truths: &[bool], end: bool) -> usize
    ensures most { result ≤ length truths.now }
    ensures before { (k : ℕ) (d : Bool) → k < result → slice_index_or truths.now k d ≡ not end }
    ensures first { (d : Bool) → result < length truths.now → slice_index_or truths.now result d ≡ end }
{
    for place in count_in_blocks(truths, end)..truths.len() {
        if truths[place] == end {
            return place;
        }
    }
    truths.len()
}

/// Writes a truth value at each place from `from` up to before `to`.
#[inline(always)]
fn write_equal(value: bool, from: usize, to: usize, room: &mut [bool])
    requires order { from ≤ to }
    requires room { to ≤ length room.old }
    ensures within { (k : ℕ) (d : Bool) → from ≤ k → k < to → slice_index_or room.new k d ≡ value }
    ensures outside { (k : ℕ) (d : Bool) → (k < from) ⊎ (to ≤ k) → slice_index_or room.new k d ≡ slice_index_or room.old k d }
    ensures len { length room.new ≡ length room.old }
{
    for k in from..to {
        room[k] = value;
    }
}

/// Writes the line of `items` truth values from place `first` on.
fn write_line(truths: &[bool], first: usize, items: usize, end: bool, room: &mut [bool])
    requires line { first + items ≤ length truths.now }
    requires room { length room.old ≡ length truths.now }
    ensures line { IsEnded end truths.now first items room.new }
    ensures outside { (k : ℕ) (d : Bool) → (k < first) ⊎ (first + items ≤ k) → slice_index_or room.new k d ≡ slice_index_or room.old k d }
    ensures len { length room.new ≡ length room.old }
{
    let count = count_before(&truths[first..first + items], end);
    write_equal(!end, first, first + count, room);
    write_equal(end, first + count, first + items, room);
}

/// A list of `count` truth values, whichever they are: the one that the pool keeps, or a new one.
fn list_of<W: Crew>(workers: &W, count: usize) -> Result<Vec<bool>, AllocError>
    ensures { IfOk result (λ list. vec_len list ≡ count) }
{
    match workers.pool().kept().take(count) {
        Some(list) => Ok(list),
        None => vec![in workers.alloc(); false; count],
    }
}

/// Lines of neighbours, each with `items` truth values, of which each is joined with all before it in its line.
pub(crate) fn join_lines<W: Crew>(
    workers: &W,
    truths: &[bool],
    items: usize,
    end: bool,
) -> Result<Vec<bool>, AllocError>
    requires items { 0 < items }
    requires lines { length truths.now / items * items ≡ length truths.now }
    ensures len { IfOk result (λ v. vec_len v ≡ length truths.now) }
    ensures lines { IfOk result (λ v. AreEnded end truths.now items (length truths.now / items) v.items) }
{
    let mut values = list_of(workers, truths.len())?;
    let room = values.as_mut_slice();
    for line in 0..truths.len() / items {
        write_line(truths, line * items, items, end, room);
    }
    Ok(values)
}
