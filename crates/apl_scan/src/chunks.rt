//! Summaries of the beginnings of lines, chunk by chunk.
ghost use Rattle.std.specs.Prelude.{◌≡◌, ℕ, pos, ◌+◌, ◌*◌, ◌/◌, ◌%◌, ◌<◌, ◌≤◌, Ok, IfOk, IfErr, length, slice_index_or, vec_len};
ghost use Rattle.apl_pool.specs.declared.kernel.TheConstants.{MOST_PLACES};
ghost use Rattle.apl_scan.specs.declared.chunks.TheConstants.{CHUNK};
ghost use Rattle.apl_scan.specs.Running.{chunk_start, AreOfChunks, AreUpToChunks};

use crate::bounded_summary::BoundedSummary;
use apl_divisor::Divisor;
use apl_pool::{Crew, Fault, RowSummaries, Rows, Stop, Summary};

/// How many numbers of a line are summarized together.
pub(crate) const CHUNK: usize = 1024;

/// The chunks of all lines, a row each: as many of each line as are before its last number.
#[derive(Drop)]
pub(crate) struct Chunks<'a> {
    pub numbers: &'a [i64],
    /// How many numbers a line has.
    pub items: usize,
    /// How many chunks of a line are taken.
    pub per_line: Divisor,
    pub rows: usize,
    ghost most: { length numbers.now ≤ MOST_PLACES },
    ghost some: { 0 < per_line },
    ghost within: { (row : ℕ) → row < rows → chunk_start items per_line row + CHUNK ≤ length numbers.now },
    ghost all: { rows * CHUNK ≤ MOST_PLACES },
}

impl Rows for Chunks<'_> {
    ghost use Rattle.std.specs.Prelude.{pos, ◌+◌, Ok, slice_index_or};
    ghost use Rattle.apl_scan.specs.declared.chunks.TheConstants.{CHUNK};
    ghost use Rattle.apl_scan.specs.Running.{chunk_start};

    type Out = i64;

    ghost row_count = { λ r. r.rows };

    ghost place_count = { λ r. CHUNK };

    ghost outcome = { λ r row place. Ok (slice_index_or r.numbers.now (chunk_start r.items r.per_line row + place) (pos 0)) };

    fn rows(&self) -> usize {
        self.rows
    }

    fn count(&self) -> usize {
        CHUNK
    }

    #[inline(always)]
    fn at(&self, row: usize, place: usize) -> Result<i64, Fault> {
        let line = self.per_line.quotient(row);
        let chunk = self.per_line.remainder(row);
        Ok(self.numbers[line * self.items + chunk * CHUNK + place])
    }
}

/// Joins to the summary of each chunk those in front of it in its line.
fn carry_on<S: Summary<Item = i64> + Copy + Drop>(
    chunks: &Chunks,
    summaries: &mut [BoundedSummary<S>],
)
    requires rows { length summaries.old ≡ chunks.now.rows }
    requires alone { AreOfChunks S.step (λ k. S.item_count k.summary) (λ k. S.outcome k.summary) chunks.now.numbers.now chunks.now.items chunks.now.per_line chunks.now.rows summaries.old }
    ensures rows { length summaries.new ≡ chunks.now.rows }
    ensures joined { AreUpToChunks S.step (λ k. S.item_count k.summary) (λ k. S.outcome k.summary) chunks.now.numbers.now chunks.now.items chunks.now.per_line chunks.now.rows summaries.new }
{
    for row in 1..summaries.len() {
        if chunks.per_line.remainder(row) != 0 {
            summaries[row] = BoundedSummary::join(&summaries[row - 1], &summaries[row]);
        }
    }
}

/// For each chunk the summary of its line up to the end of the chunk.
pub(crate) fn summarize<S: Summary<Item = i64> + Copy + Drop + Send, W: Crew>(
    workers: &W,
    chunks: &Chunks,
) -> Result<Vec<BoundedSummary<S>>, Stop>
    ensures rows { IfOk result (λ summaries. vec_len summaries ≡ chunks.now.rows) }
    ensures joined { let c = chunks.now in
        IfOk result (λ summaries. AreUpToChunks S.step (λ k. S.item_count k.summary) (λ k. S.outcome k.summary) c.numbers.now c.items c.per_line c.rows summaries.items) }
    ensures memory { IfErr result (λ stop. stop ≡ Stop.Memory) }
{
    let folds: RowSummaries<BoundedSummary<S>> = workers
        .pool()
        .fold_rows(workers.rt(), workers.alloc(), chunks);
    folds.end?;
    let mut summaries = folds.summaries;
    carry_on(chunks, summaries.as_mut_slice());
    Ok(summaries)
}
