//! Runs of results. A run is first written as if no place had a fault.
ghost use Rattle.std.specs.Prelude.{◌≡◌, ◌+◌, ◌*◌, ◌<◌, ◌≤◌, true, IfErr, OnOk, length};
ghost use Rattle.apl_pool.specs.declared.kernel.TheConstants.{MOST_PLACES};
ghost use Rattle.apl_pool.specs.Runs.{AreWritten, IsFaultAfter};
ghost use Rattle.apl_scalar.specs.Scalar.{truth_outcome};
ghost use Rattle.apl_scalar.specs.Runs.{HasPart, DiffersIn};

use crate::held::{Held, as_held};
use apl_pool::{Fault, FirstFault, Kernel, write_values};
use std::marker::PhantomData;

/// The most places of the first run, which tells what the next ones are like. What it leaves of a piece of 4096 places, or of a stretch of
/// such pieces, has halves that are no whole number of pages long. So their numbers do not meet in the same lines of a processor's cache.
const FIRST_RUN: usize = 512;

/// The most places of each run after it. As many are one stretch of a worker who is alone.
const LONGEST_RUN: usize = 32_768;

/// The results of a scalar function at places. They are passed by value, so that a loop that writes reads no pointer anew.
pub trait Results: Copy {
    ghost use Rattle.std.specs.Prelude.{◌≡◌, ◌<◌, ℕ, ℤ, Result, Ok};
    ghost use Rattle.apl_pool.specs.declared.kernel.Fault.{Fault};

    // How many places there are.
    ghost served: { Self → ℕ };

    // The result at a place.
    ghost outcome: { Self → ℕ → Result ℤ Fault };

    /// The result at a place.
    fn result_at(&self, place: usize) -> Result<i64, Fault>
        requires { place < served self.now }
        ensures { result ≡ outcome self.now place };

    /// A value, and the doubts whether it is the result at a place. It is if there are none.
    fn likely_at(&self, place: usize) -> (i64, u64)
        requires { place < served self.now }
        ensures { result.1 ≡ 0 → outcome self.now place ≡ Ok result.0 };

    /// Whether the likely results have no branches, so that a run of them is quick.
    fn have_runs() -> bool;

    /// Whether all arguments are truth values, a byte each. A loop over these takes as many at once as the compiler likes.
    fn are_of_truth_values() -> bool;
}

/// Writes the likely results into the room for the places from `from` on. It answers the doubts whether they are right.
#[inline(always)]
fn write_likely<P: Results, H: Held>(results: P, from: usize, count: usize, room: &mut [H]) -> u64
    requires places { from + count ≤ P.served results }
    requires most { from + count ≤ MOST_PLACES }
    requires room { count ≤ length room.old }
    ensures values { result ≡ 0 → AreWritten (λ place. H.held (P.outcome results place)) from (from + count) room.new }
    ensures len { length room.new ≡ length room.old }
{
    let mut all_doubts = 0;
    for k in 0..count {
        let (value, doubts) = results.likely_at(from + k);
        room[k] = H::of(value);
        all_doubts |= doubts;
    }
    all_doubts
}

/// How many truth values are a block.
const BLOCK: usize = 16;

/// A type that results are held as, with its quick runs of these.
pub trait HeldRuns: Held {
    ghost use Rattle.std.specs.Prelude.{◌≡◌, ℕ, ◌+◌, ◌<◌, ◌≤◌, length};
    ghost use Rattle.apl_pool.specs.declared.kernel.TheConstants.{MOST_PLACES};
    ghost use Rattle.apl_pool.specs.Runs.{AreWritten};
    ghost use Rattle.apl_scalar.specs.declared.runs.TheConstants.{BLOCK};
    ghost use Rattle.apl_scalar.specs.Runs.{HasPart, DiffersIn};

    // How many places are a block.
    ghost block: { ℕ };

    /// How many places are a block.
    fn block_places() -> usize
        ensures value { result ≡ block }
        ensures some { 0 < result }
        ensures few { result ≤ BLOCK };

    /// Writes the block of likely results after the first `done` into the room for the places from `from` on. It answers the doubts whether
    /// they are right. It takes no memory.
    fn write_block<P: Results>(results: P, from: usize, done: usize, room: &mut [Self]) -> u64
        requires places { from + done + block ≤ P.served results }
        requires most { from + done + block ≤ MOST_PLACES }
        requires room { done + block ≤ length room.old }
        ensures values { result ≡ 0 → HasPart (λ place. Self.held (P.outcome results place)) from done block room.new }
        ensures others { DiffersIn done block room.old room.new }
        ensures len { length room.new ≡ length room.old };

    /// Writes the likely results of a run of `count` places from `from` on, of which the first `done` are written. It answers the doubts
    /// whether they are right. It takes no memory.
    fn write_rest<P: Results>(
        results: P,
        from: usize,
        done: usize,
        count: usize,
        room: &mut [Self],
    ) -> u64
        requires order { done ≤ count }
        requires places { from + count ≤ P.served results }
        requires most { from + count ≤ MOST_PLACES }
        requires room { count ≤ length room.old }
        requires before { AreWritten (λ place. Self.held (P.outcome results place)) from (from + done) room.old }
        ensures values { result ≡ 0 → AreWritten (λ place. Self.held (P.outcome results place)) from (from + count) room.new }
        ensures len { length room.new ≡ length room.old };
}

/// Writes the likely result after the first `done` into the room for the places from `from` on. It answers the doubts whether it is right.
#[inline(always)]
fn write_one<P: Results, H: Held>(results: P, from: usize, done: usize, room: &mut [H]) -> u64
    requires places { from + done + 1 ≤ P.served results }
    requires most { from + done + 1 ≤ MOST_PLACES }
    requires room { done + 1 ≤ length room.old }
    ensures values { result ≡ 0 → HasPart (λ place. H.held (P.outcome results place)) from done 1 room.new }
    ensures others { DiffersIn done 1 room.old room.new }
    ensures len { length room.new ≡ length room.old }
{
    let (value, doubts) = results.likely_at(from + done);
    room[done] = H::of(value);
    doubts
}

impl HeldRuns for i64 {
    ghost block = { 1 };

    #[inline(always)]
    fn block_places() -> usize {
        1
    }

    #[inline(always)]
    fn write_block<P: Results>(results: P, from: usize, done: usize, room: &mut [i64]) -> u64 {
        write_one(results, from, done, room)
    }

    #[inline(always)]
    fn write_rest<P: Results>(
        results: P,
        from: usize,
        done: usize,
        count: usize,
        room: &mut [i64],
    ) -> u64 {
        write_likely(results, from + done, count - done, &mut room[done..])
    }
}

impl HeldRuns for i32 {
    ghost block = { 1 };

    #[inline(always)]
    fn block_places() -> usize {
        1
    }

    #[inline(always)]
    fn write_block<P: Results>(results: P, from: usize, done: usize, room: &mut [i32]) -> u64 {
        write_one(results, from, done, room)
    }

    #[inline(always)]
    fn write_rest<P: Results>(
        results: P,
        from: usize,
        done: usize,
        count: usize,
        room: &mut [i32],
    ) -> u64 {
        write_likely(results, from + done, count - done, &mut room[done..])
    }
}

/// Truth values are written beside the room first, so that no store comes between two reads, and a processor compares a block at once.
impl HeldRuns for bool {
    ghost use Rattle.apl_scalar.specs.declared.runs.TheConstants.{BLOCK};

    ghost block = { BLOCK };

    #[inline(always)]
    fn block_places() -> usize {
        BLOCK
    }

    #[inline(always)]
    fn write_block<P: Results>(results: P, from: usize, done: usize, room: &mut [bool]) -> u64 {
        let mut block = [false; BLOCK];
        let doubts = write_likely(results, from + done, BLOCK, &mut block);
        for k in 0..BLOCK {
            room[done + k] = block[k];
        }
        doubts
    }

    /// The last block ends where the run does, and what it has in common with the one before it is written twice. A run of less than a block
    /// is in doubt.
    #[inline(always)]
    fn write_rest<P: Results>(
        results: P,
        from: usize,
        done: usize,
        count: usize,
        room: &mut [bool],
    ) -> u64 {
        if count < BLOCK {
            return 1;
        }
        let mut all_doubts = 0;
        for k in 0..(count - done + (BLOCK - 1)) / BLOCK {
            let first = (done + k * BLOCK).min(count - BLOCK);
            all_doubts |= Self::write_block(results, from, first, room);
        }
        all_doubts
    }
}

/// Writes the likely results of two halves, each of so many blocks, into the room for the places from `from` on. It answers whether all are
/// sure. A turn takes a block of each half, since memory gives two streams faster than one.
#[inline(always)]
fn write_halves<P: Results, H: HeldRuns>(
    results: P,
    from: usize,
    blocks: usize,
    room: &mut [H],
) -> bool
    requires places { from + blocks * H.block * 2 ≤ P.served results }
    requires most { from + blocks * H.block * 2 ≤ MOST_PLACES }
    requires room { blocks * H.block * 2 ≤ length room.old }
    ensures values { result ≡ true → AreWritten (λ place. H.held (P.outcome results place)) from (from + blocks * H.block * 2) room.new }
    ensures len { length room.new ≡ length room.old }
{
    let size = H::block_places();
    let half = blocks * size;
    let mut all_doubts = 0;
    for block in 0..blocks {
        all_doubts |= H::write_block(results, from, block * size, room);
        all_doubts |= H::write_block(results, from, half + block * size, room);
    }
    all_doubts == 0
}

/// How many blocks of each half of a run are written in turn. Numbers at the front have none: those of a short array are in a processor's
/// caches, which give one stream faster than two.
#[inline(always)]
fn blocks_of_half<H: HeldRuns>(from: usize, count: usize) -> usize
    requires most { from + count ≤ MOST_PLACES }
    ensures within { result * H.block * 2 ≤ count }
{
    let size = H::block_places();
    if size == 1 && from + count <= LONGEST_RUN {
        return 0;
    }
    count / (size * 2)
}

/// Writes a run of likely results into the room for the places from `from` on. It answers whether all are sure. Those of truth values go in
/// one stream, which is quicker than two wherever they are.
#[inline(always)]
fn write_run<P: Results, H: HeldRuns>(results: P, from: usize, count: usize, room: &mut [H]) -> bool
    requires places { from + count ≤ P.served results }
    requires most { from + count ≤ MOST_PLACES }
    requires room { count ≤ length room.old }
    ensures values { result ≡ true → AreWritten (λ place. H.held (P.outcome results place)) from (from + count) room.new }
    ensures len { length room.new ≡ length room.old }
{
    if P::are_of_truth_values() {
        return write_likely(results, from, count, room) == 0;
    }
    let blocks = blocks_of_half::<H>(from, count);
    let done = blocks * H::block_places() * 2;
    write_halves(results, from, blocks, room)
        && H::write_rest(results, from, done, count, room) == 0
}

/// Writes runs of likely results into the room for the places from `from` on, up to the first run of which one result is not sure. It answers
/// how many results are sure.
#[inline(always)]
fn write_sure_runs<P: Results, H: HeldRuns>(
    results: P,
    from: usize,
    count: usize,
    room: &mut [H],
) -> usize
    requires places { from + count ≤ P.served results }
    requires most { from + count ≤ MOST_PLACES }
    requires room { count ≤ length room.old }
    ensures within { result ≤ count }
    ensures values { AreWritten (λ place. H.held (P.outcome results place)) from (from + result) room.new }
    ensures len { length room.new ≡ length room.old }
{
    let mut done = 0;
    let mut longest = FIRST_RUN;
    while done < count {
        let run = (count - done).min(longest);
        if !write_run(results, from + done, run, &mut room[done..]) {
            return done;
        }
        done += run;
        longest = LONGEST_RUN;
    }
    done
}

/// The results at the places up to before `to`, as they are held.
#[derive(Drop)]
struct HeldResults<P: Results, H> {
    results: P,
    to: usize,
    held: PhantomData<H>,
    ghost most: { to ≤ MOST_PLACES },
    ghost served: { to ≤ P.served results },
}

impl<P: Results, H: HeldRuns> Kernel for HeldResults<P, H> {
    type Out = H;

    ghost place_count = { λ k. k.to };

    ghost outcome = { λ k place. H.held (P.outcome k.results place) };

    #[inline(always)]
    fn count(&self) -> usize {
        self.to
    }

    #[inline(always)]
    fn at(&self, place: usize) -> Result<H, Fault> {
        as_held(self.results.result_at(place))
    }

    #[inline(always)]
    fn write_run(&self, from: usize, to: usize, room: &mut [H]) -> usize {
        if !P::have_runs() {
            return from;
        }
        from + write_sure_runs(self.results, from, to - from, room)
    }
}

/// Writes results into the room for the places from `from` up to before `to`, up to the first that has a fault. If one result of the first
/// run is not sure, all are written one by one, since the next runs tend to be like this one. After a later run that is not sure it begins
/// anew with a first run. Results that have no quick runs are written one by one too.
#[inline(always)]
pub(crate) fn write_results<P: Results, H: HeldRuns>(
    results: P,
    from: usize,
    to: usize,
    room: &mut [H],
) -> Result<(), FirstFault>
    requires order { from ≤ to }
    requires places { to ≤ P.served results }
    requires most { to ≤ MOST_PLACES }
    requires room { from + length room.old ≡ to }
    ensures values { OnOk result (AreWritten (λ place. H.held (P.outcome results place)) from to room.new) }
    ensures fault { IfErr result (λ first. IsFaultAfter (λ place. H.held (P.outcome results place)) from to first.place first.fault room.new) }
    ensures len { length room.new ≡ length room.old }
{
    let kernel = HeldResults {
        results,
        to,
        held: PhantomData,
    };
    write_values(&kernel, from, to, room)
}
