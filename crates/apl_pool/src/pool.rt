//! The pool: how many workers there are, how the places are cut, and what a worker passes before each piece.
ghost use Rattle.std.specs.Prelude.{◌≡◌, ℕ, ◌<◌, ◌≤◌, false, List, Ok, IfOk, IfErr, vec_len};
ghost use Rattle.apl_pool.specs.declared.kernel.TheConstants.{MOST_PLACES};
ghost use Rattle.apl_pool.specs.declared.pool.TheConstants.{MOST_WORKERS};
ghost use Rattle.apl_pool.specs.Pool.{AreValues, IsStopOf};
ghost use Rattle.apl_pool.specs.Parts.{AreValuesAt};
ghost use Rattle.apl_pool.specs.Summaries.{IsSummaryOf, AreFolds};

use crate::complete::fill_values;
use crate::cut::{Cut, Scaled};
use crate::folds::{fold_rows_alone, fold_rows_together};
use crate::gate::Gate;
use crate::kept::KeptLists;
use crate::kernel::{Kernel, MOST_PLACES, Stop};
use crate::pass::Pass;
use crate::pieces::piece_end;
use crate::rows::{OneRow, RowSummaries, Rows};
use crate::schedule::Schedule;
use crate::shares::Shares;
use crate::summary::Summary;
use crate::work::{extend_to, write_all};
use std::alloc::{AllocError, Global};
use std::thread::Threads;

/// The most workers.
pub const MOST_WORKERS: u8 = 64;

/// Starting one worker takes nearly as long as starting several. So less work than so many shares is one worker's.
const LEAST_SHARES: usize = 4;

/// Workers, a cutting and a gate, and the lists that were let go last.
#[derive(Drop)]
pub struct Pool<C, G> {
    workers: u8,
    schedule: Schedule,
    cut: C,
    gate: G,
    kept: KeptLists,
    ghost some: { 1 ≤ workers },
    ghost most: { workers ≤ MOST_WORKERS },
}

impl<C: Cut + Sync, G: Gate + Sync> Pool<C, G> {
    /// A pool of 1 to 64 workers, who have deques of pieces. It takes no memory.
    pub fn new(workers: u8, cut: C, gate: G) -> Self
        requires some { 1 ≤ workers }
        requires most { workers ≤ MOST_WORKERS }
    {
        Pool::with(workers, Schedule::Deques, cut, gate)
    }

    /// As `new`, but with a schedule, by which the pieces come to the workers. It takes no memory.
    pub fn with(workers: u8, schedule: Schedule, cut: C, gate: G) -> Self
        requires some { 1 ≤ workers }
        requires most { workers ≤ MOST_WORKERS }
    {
        Pool {
            workers,
            schedule,
            cut,
            gate,
            kept: KeptLists::new(),
        }
    }

    /// How many workers there are, from 1 to 64.
    pub fn workers(&self) -> u8
        ensures workers { result ≡ self.now.workers }
        ensures some { 1 ≤ result }
        ensures most { result ≤ MOST_WORKERS }
    {
        self.workers
    }

    /// The lists that were let go last.
    pub fn kept(&self) -> &KeptLists {
        &self.kept
    }

    /// How many workers do so much work: one, if it is not enough for several.
    fn crew(&self, work: usize) -> u8
        ensures some { 1 ≤ result }
        ensures most { result ≤ self.now.workers }
    {
        match work.checked_div(self.cut.least_work()) {
            Some(shares) if shares < LEAST_SHARES => 1,
            Some(shares) => shares.min(self.workers as usize) as u8,
            None => self.workers,
        }
    }

    /// Whether several workers share a pass over `count` places that is so much work, as `Kernel::work` counts it. With one worker or one
    /// piece none do. It takes no memory.
    pub fn is_shared(&self, count: usize, work: usize) -> bool
        requires most { count ≤ MOST_PLACES }
        ensures alone { self.now.workers ≡ 1 → result ≡ false }
        ensures few { count ≤ 1 → result ≡ false }
    {
        self.crew(work) > 1 && count > 0 && piece_end(&self.cut, 0, count) < count
    }

    /// The value at each place, or the least place that has a fault, and that fault. `Memory` may
    /// come in place of any answer, and then no more is known.
    ///
    /// Let there be p pieces and m workers, counted from 0. Under `Deques` worker w begins with those
    /// from w × p / m up to before (w + 1) × p / m, rounded down. No more workers get a thread than there are
    /// pieces, and one piece or one worker needs none. A fault at place 0 is found before the places are cut
    /// and room is taken.
    pub fn fill<R: Threads + Sync, K: Kernel + Sync>(
        &self,
        rt: &R,
        alloc: Global,
        kernel: &K,
    ) -> Result<Vec<K::Out>, Stop>
    where
        K::Out: Copy + Send,
        ensures values { IfOk result (λ v. AreValues (K.outcome kernel.now) (K.place_count kernel.now) v.items) }
        ensures stop { IfErr result (IsStopOf (K.outcome kernel.now) (K.place_count kernel.now)) }
    {
        let count = kernel.count();
        if count == 0 {
            return Ok(Vec::new(alloc));
        }
        let first = first_value(kernel)?;
        let mut values = Vec::with_capacity(alloc, count)?;
        values.push_reserved(first);
        self.fill_into(rt, alloc, kernel, values, 1)
    }

    /// As `fill`, but the values are written over those of a list, which is made longer if it is too short. The values at the first `done`
    /// places are there already.
    pub(crate) fn fill_into<R: Threads + Sync, K: Kernel + Sync>(
        &self,
        rt: &R,
        alloc: Global,
        kernel: &K,
        values: Vec<K::Out>,
        done: usize,
    ) -> Result<Vec<K::Out>, Stop>
    where
        K::Out: Copy + Send,
        requires some { 0 < vec_len values }
        requires most { vec_len values ≤ K.place_count kernel.now }
        requires few { done ≤ 1 }
        requires done { AreValuesAt (K.outcome kernel.now) 0 done values.items }
        ensures values { IfOk result (λ v. AreValues (K.outcome kernel.now) (K.place_count kernel.now) v.items) }
        ensures stop { IfErr result (IsStopOf (K.outcome kernel.now) (K.place_count kernel.now)) }
    {
        let count = kernel.count();
        let cut = Scaled {
            cut: &self.cut,
            piece: kernel.piece(),
        };
        let end = piece_end(&cut, 0, count);
        let crew = self.crew(kernel.work());
        if crew == 1 || end == count {
            let last = self.workers - 1;
            return write_all(kernel, &cut, &self.gate, last, end, values, done);
        }
        let mut values = extend_to(values, count)?;
        let shares = Shares::new(alloc, &cut, 1, count, end, crew)?;
        fill_values(
            &self.pass(rt, alloc, &shares),
            kernel,
            values.as_mut_slice(),
        )?;
        Ok(values)
    }

    /// The summary of the items at all places, in their order, or the least place that has a fault, and
    /// that fault. `Memory` may come in place of any answer, and then no more is known. There is at
    /// least one place.
    ///
    /// All workers share the pieces, however little work that is: `is_shared` says whether it repays them. How their summaries are
    /// nested changes nothing. No item is stored.
    pub fn fold<R: Threads + Sync, S: Summary + Drop + Send, K: Kernel<Out = S::Item> + Sync>(
        &self,
        rt: &R,
        alloc: Global,
        kernel: &K,
    ) -> Result<S, Stop>
        requires some { 0 < K.place_count kernel.now }
        ensures summary { IfOk result (λ s. (items : List S.Item) × AreValues (K.outcome kernel.now) (K.place_count kernel.now) items × IsSummaryOf S.step S.item_count S.outcome s items) }
        ensures stop { IfErr result (IsStopOf (K.outcome kernel.now) (K.place_count kernel.now)) }
    {
        let mut folds = self.fold_rows(rt, alloc, &OneRow { kernel });
        folds.end?;
        match folds.summaries.pop() {
            Some(summary) => Ok(summary),
            None => unreachable!(),
        }
    }

    /// The summaries of the rows before the first that has a fault, and the least place of that row which has one, with its fault.
    /// `Memory` may come in place of any answer, and then no more is known. The rows have at least one place.
    ///
    /// All rows are cut alike, and the workers share the pieces of all of them, so that threads are started once.
    pub fn fold_rows<R: Threads + Sync, S: Summary + Drop + Send, K: Rows<Out = S::Item> + Sync>(
        &self,
        rt: &R,
        alloc: Global,
        rows: &K,
    ) -> RowSummaries<S>
        requires some { 0 < K.place_count rows.now }
        ensures { AreFolds S.step S.item_count S.outcome (K.outcome rows.now) (K.row_count rows.now) (K.place_count rows.now) result.summaries.items result.end }
    {
        match self.fold_pieces(rt, alloc, rows) {
            Ok(folds) => folds,
            Err(AllocError) => RowSummaries {
                summaries: Vec::new(alloc),
                end: Err(Stop::Memory),
            },
        }
    }

    /// What `fold_rows` answers if there is memory.
    fn fold_pieces<R: Threads + Sync, S: Summary + Drop + Send, K: Rows<Out = S::Item> + Sync>(
        &self,
        rt: &R,
        alloc: Global,
        rows: &K,
    ) -> Result<RowSummaries<S>, AllocError>
        requires some { 0 < K.place_count rows.now }
        ensures { IfOk result (λ f. AreFolds S.step S.item_count S.outcome (K.outcome rows.now) (K.row_count rows.now) (K.place_count rows.now) f.summaries.items f.end) }
    {
        let (row_count, places) = (rows.rows(), rows.count());
        let room = Vec::with_capacity(alloc, row_count)?;
        let end = piece_end(&self.cut, 0, places);
        if self.workers == 1 || row_count == 0 || (row_count == 1 && end == places) {
            let last = self.workers - 1;
            return Ok(fold_rows_alone(rows, &self.cut, &self.gate, last, end, room));
        }
        let shares = Shares::new(alloc, &self.cut, row_count, places, end, self.workers)?;
        fold_rows_together(&self.pass(rt, alloc, &shares), rows, room)
    }

    /// A pass of several workers who have these shares.
    fn pass<'a, R>(&'a self, rt: &'a R, alloc: Global, shares: &'a Shares) -> Pass<'a, R, G>
        ensures { result.shares.now ≡ shares.now }
    {
        Pass {
            rt,
            alloc,
            gate: &self.gate,
            shares,
            schedule: self.schedule,
        }
    }
}

/// The value at the first place.
fn first_value<K: Kernel>(kernel: &K) -> Result<K::Out, Stop>
    requires { 0 < K.place_count kernel.now }
    ensures value { IfOk result (λ value. K.outcome kernel.now 0 ≡ Ok value) }
    ensures stop { IfErr result (IsStopOf (K.outcome kernel.now) (K.place_count kernel.now)) }
{
    match kernel.at(0) {
        Ok(value) => Ok(value),
        Err(fault) => Err(Stop::Fault { place: 0, fault }),
    }
}
