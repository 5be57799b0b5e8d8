//! The folds of numbers up to each place of lines of neighbours, by summaries.
ghost use Rattle.std.specs.Prelude.{◌≡◌, ℕ, true, ◌+◌, ◌-◌, ◌*◌, ◌/◌, ◌%◌, ◌<◌, ◌≤◌, IfOk, IfErr, IfSome, MatchOption, length, map, vec_len, vec_capacity};
ghost use Rattle.apl_pool.specs.declared.kernel.TheConstants.{MOST_PLACES};
ghost use Rattle.apl_pool.specs.Pool.{AreValues, IsStopOf};
ghost use Rattle.apl_pool.specs.Runs.{AreWritten};
ghost use Rattle.apl_scalar.specs.Scalar.{dyadic_numbers};
ghost use Rattle.apl_summary.specs.Functions.{has_summary};
ghost use Rattle.apl_summary.specs.Running.{IsSummaryOrNone};
ghost use Rattle.apl_scan.specs.declared.chunks.TheConstants.{CHUNK};
ghost use Rattle.apl_scan.specs.Lines.{scan_at};
ghost use Rattle.apl_scan.specs.Running.{line_before, chunks_before, IsChunkBefore, AreUpToChunks};

use crate::bounded_summary::BoundedSummary;
use crate::chunks::{CHUNK, Chunks, summarize};
use crate::running::{fold_behind, with_next};
use apl_answer::Numeric;
use apl_array::ScalarFunction;
use apl_divisor::Divisor;
use apl_pool::{Crew, Fault, Kernel, Reused, Stop, Summary, fill};
use apl_summary::{Running, with_summary};
use std::alloc::AllocError;

/// Numbers in lines of neighbours, and the summaries of the beginnings of each line.
#[derive(Drop)]
struct Scans<'a, S: Summary<Item = i64>> {
    numbers: &'a [i64],
    /// How many numbers a line has.
    items: Divisor,
    /// How many beginnings of a line have a summary: that of one chunk, of two and so on.
    per_line: usize,
    beginnings: &'a [BoundedSummary<S>],
    ghost most: { length numbers.now ≤ MOST_PLACES },
    ghost beginnings_most: { length beginnings.now ≤ MOST_PLACES },
    ghost chunks: { items ≤ (per_line + 1) * CHUNK },
    ghost rows: { (line : ℕ) → line * items < length numbers.now → (line + 1) * per_line ≤ length beginnings.now },
    ghost joined: { AreUpToChunks S.step (λ k. S.item_count k.summary) (λ k. S.outcome k.summary) numbers.now items per_line (length beginnings.now) beginnings.now },
}

impl<S: Running + Copy + Drop> Scans<'_, S> {
    /// The row of the last whole chunk of a line before a place, if there is one.
    fn chunk_before(&self, place: usize) -> Option<usize>
        requires { place < length self.now.numbers.now }
        ensures within { IfSome result (λ row. row < length self.now.beginnings.now) }
        ensures row { MatchOption result (place % self.now.items / CHUNK ≡ 0) (λ row. IsChunkBefore self.now.per_line self.now.items place row) }
    {
        let chunks = self.items.remainder(place) / CHUNK;
        if chunks == 0 {
            return None;
        }
        Some(self.items.quotient(place) * self.per_line + (chunks - 1))
    }

    /// The summary of the whole chunks of a line before a place, if there are some.
    fn chunks_before(&self, place: usize) -> Option<BoundedSummary<S>>
        requires { place < length self.now.numbers.now }
        ensures { IsSummaryOrNone S.step (λ k. S.item_count k.summary) (λ k. S.outcome k.summary) (chunks_before self.now.numbers.now self.now.items place) result }
    {
        let beginnings = self.beginnings;
        match self.chunk_before(place) {
            None => None,
            Some(row) => Some(beginnings[row].copied()),
        }
    }

    /// The summary of the numbers of a line before a place, if there are some.
    fn before(&self, place: usize) -> Option<BoundedSummary<S>>
        requires { place < length self.now.numbers.now }
        ensures { IsSummaryOrNone S.step (λ k. S.item_count k.summary) (λ k. S.outcome k.summary) (line_before self.now.numbers.now self.now.items place) result }
    {
        let rest = self.items.remainder(place) % CHUNK;
        let mut running = self.chunks_before(place);
        for done in 0..rest {
            running = Some(with_next(&running, self.numbers[place - rest + done]));
        }
        running
    }

    /// How many places from one on up to before another are in one line.
    fn run_length(&self, from: usize, to: usize) -> usize
        requires order { from ≤ to }
        requires within { to ≤ length self.now.numbers.now }
        ensures order { from + result ≤ to }
        ensures line { 0 < result → from % self.now.items + result ≤ self.now.items }
    {
        if from == to {
            return 0;
        }
        (self.items.number() - self.items.remainder(from)).min(to - from)
    }

    /// Puts the folds up to the places from `from` on into the room, if the summaries do so themselves. All places are in one line. It says
    /// how many folds they are.
    #[inline(always)]
    fn scan_by_summary(
        &self,
        running: &Option<BoundedSummary<S>>,
        from: usize,
        room: &mut [i64],
    ) -> usize
        requires within { from + length room.old ≤ length self.now.numbers.now }
        requires line { from % self.now.items + length room.old ≤ self.now.items }
        requires running { IsSummaryOrNone S.step (λ k. S.item_count k.summary) (λ k. S.outcome k.summary) (line_before self.now.numbers.now self.now.items from) running.now }
        ensures most { result ≤ length room.old }
        ensures values { AreWritten (scan_at S.step self.now.numbers.now self.now.items 1) from (from + result) room.new }
        ensures len { length room.new ≡ length room.old }
    {
        let numbers = &self.numbers[from..from + room.len()];
        S::scan_run(&BoundedSummary::summary_of(running), numbers, room)
    }

    /// Puts the folds up to the places from `from` on into the room, up to before the first that has a fault. All places are in one line.
    /// It says how many folds they are.
    fn scan_run(&self, from: usize, room: &mut [i64]) -> usize
        requires some { 0 < length room.old }
        requires within { from + length room.old ≤ length self.now.numbers.now }
        requires line { from % self.now.items + length room.old ≤ self.now.items }
        ensures most { result ≤ length room.old }
        ensures values { AreWritten (scan_at S.step self.now.numbers.now self.now.items 1) from (from + result) room.new }
        ensures len { length room.new ≡ length room.old }
    {
        let mut running = self.before(from);
        let done = self.scan_by_summary(&running, from, room);
        if done > 0 {
            return done;
        }
        for k in 0..room.len() {
            let number = self.numbers[from + k];
            match fold_behind(&running, number) {
                Ok(value) => room[k] = value,
                Err(_) => return k,
            }
            running = Some(with_next(&running, number));
        }
        room.len()
    }
}

impl<S: Running + Copy + Drop> Kernel for Scans<'_, S> {
    ghost use Rattle.std.specs.Prelude.{length};
    ghost use Rattle.apl_scan.specs.Lines.{scan_at};

    type Out = i64;

    ghost place_count = { λ k. length k.numbers.now };

    ghost outcome = { λ k place. scan_at S.step k.numbers.now k.items 1 place };

    fn count(&self) -> usize {
        self.numbers.len()
    }

    fn at(&self, place: usize) -> Result<i64, Fault> {
        fold_behind(&self.before(place), self.numbers[place])
    }

    fn write_run(&self, from: usize, to: usize, room: &mut [i64]) -> usize {
        let len = self.run_length(from, to);
        if len == 0 {
            return from;
        }
        from + self.scan_run(from, &mut room[..len])
    }
}

/// The summaries of the beginnings of all lines, as many of each.
fn summarize_lines<S: Summary<Item = i64> + Copy + Drop + Send, W: Crew>(
    workers: &W,
    numbers: &[i64],
    items: usize,
    per_line: usize,
) -> Result<Vec<BoundedSummary<S>>, Stop>
    requires most { length numbers.now ≤ MOST_PLACES }
    requires items { (0 < items) × (items ≤ MOST_PLACES) }
    requires within { per_line * CHUNK < items }
    ensures rows { IfOk result (λ summaries. vec_len summaries ≡ length numbers.now / items * per_line) }
    ensures joined { IfOk result (λ summaries. AreUpToChunks S.step (λ k. S.item_count k.summary) (λ k. S.outcome k.summary) numbers.now items per_line (length numbers.now / items * per_line) summaries.items) }
    ensures memory { IfErr result (λ stop. stop ≡ Stop.Memory) }
{
    if per_line == 0 {
        return Ok(Vec::new(workers.alloc()));
    }
    let rows = numbers.len() / items * per_line;
    let chunks = Chunks {
        numbers,
        items,
        per_line: Divisor::new(per_line),
        rows,
    };
    summarize(workers, &chunks)
}

/// An empty list with room for `count` values: the one that the pool keeps, or a new one.
pub(crate) fn room_for<T: Reused, W: Crew>(workers: &W, count: usize) -> Result<Vec<T>, AllocError>
    ensures empty { IfOk result (λ room. vec_len room ≡ 0) }
    ensures room { IfOk result (λ room. count ≤ vec_capacity room) }
{
    match workers.pool().kept().take(count) {
        Some(mut list) => {
            list.truncate(0);
            Ok(list)
        }
        None => Vec::with_capacity(workers.alloc(), count),
    }
}

/// The folds of numbers up to each place of lines of neighbours, line after line in one pass, if the summaries put all of them.
fn put_lines<S: Running, T: Numeric, W: Crew>(
    workers: &W,
    numbers: &[T],
    items: usize,
) -> Result<Option<Vec<i64>>, AllocError>
    requires items { 0 < items }
    requires lines { length numbers.now / items * items ≡ length numbers.now }
    ensures { IfOk result (λ lines. IfSome lines (λ v. AreValues (scan_at S.step (map T.number_in numbers.now) items 1) (length numbers.now) v.items)) }
{
    let mut values = room_for(workers, numbers.len())?;
    for line in 0..numbers.len() / items {
        let first = line * items;
        values = S::append_scan(&numbers[first..first + items], values);
        if values.len() < first + items {
            return Ok(None);
        }
    }
    Ok(Some(values))
}

/// Whether workers share the folds up to each of `count` numbers of lines. They go twice over the numbers of lines that are longer than a
/// chunk, since they summarize these first. So as many workers are no quicker than one there.
fn shares_lines<W: Crew>(workers: &W, count: usize, items: usize) -> bool
    requires { count ≤ MOST_PLACES }
{
    let passes = if items > CHUNK { 2 } else { 1 };
    let pool = workers.pool();
    pool.workers() > passes && pool.is_shared(count, count / passes as usize)
}

/// The folds of numbers up to each place of lines of neighbours, as `put_lines` has them, by a function whose folds have summaries. There
/// are none if the workers are to share them. Numbers of fewer than 64 bits are one worker's: several would have them widened first, which
/// takes longer.
pub(crate) fn put_scans<T: Numeric, W: Crew>(
    workers: &W,
    f: ScalarFunction,
    numbers: &[T],
    items: usize,
) -> Result<Option<Vec<i64>>, AllocError>
    requires summary { has_summary f ≡ true }
    requires most { length numbers.now ≤ MOST_PLACES }
    requires items { 0 < items }
    requires lines { length numbers.now / items * items ≡ length numbers.now }
    ensures { IfOk result (λ lines. IfSome lines (λ v. AreValues (scan_at (dyadic_numbers f) (map T.number_in numbers.now) items 1) (length numbers.now) v.items)) }
{
    if T::PER_NUMBER == 1 && shares_lines(workers, numbers.len(), items) {
        return Ok(None);
    }
    with_summary!(
        f,
        put_lines::<S, T, W>(workers, numbers, items),
        unreachable!()
    )
}

/// The folds of numbers up to each place of lines of neighbours, by one type of summaries.
fn fill_summarized<S: Running + Copy + Drop + Send + Sync, W: Crew>(
    workers: &W,
    numbers: &[i64],
    items: usize,
) -> Result<Vec<i64>, Stop>
    requires most { length numbers.now ≤ MOST_PLACES }
    requires items { (0 < items) × (items ≤ MOST_PLACES) }
    requires lines { length numbers.now / items * items ≡ length numbers.now }
    ensures values { IfOk result (λ v. AreValues (scan_at S.step numbers.now items 1) (length numbers.now) v.items) }
    ensures stop { IfErr result (IsStopOf (scan_at S.step numbers.now items 1) (length numbers.now)) }
{
    let per_line = (items - 1) / CHUNK;
    let beginnings: Vec<BoundedSummary<S>> = summarize_lines(workers, numbers, items, per_line)?;
    let scans = Scans {
        numbers,
        items: Divisor::new(items),
        per_line,
        beginnings: beginnings.as_slice(),
    };
    fill(workers, &scans)
}

/// The folds of numbers up to each place of lines of neighbours, by a function whose folds have summaries.
pub(crate) fn fill_by_summary<W: Crew>(
    workers: &W,
    f: ScalarFunction,
    numbers: &[i64],
    items: usize,
) -> Result<Vec<i64>, Stop>
    requires summary { has_summary f ≡ true }
    requires most { length numbers.now ≤ MOST_PLACES }
    requires items { (0 < items) × (items ≤ MOST_PLACES) }
    requires lines { length numbers.now / items * items ≡ length numbers.now }
    ensures values { IfOk result (λ v. AreValues (scan_at (dyadic_numbers f) numbers.now items 1) (length numbers.now) v.items) }
    ensures stop { IfErr result (IsStopOf (scan_at (dyadic_numbers f) numbers.now items 1) (length numbers.now)) }
{
    with_summary!(
        f,
        fill_summarized::<S, W>(workers, numbers, items),
        unreachable!()
    )
}
