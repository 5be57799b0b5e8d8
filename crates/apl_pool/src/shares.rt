//! Who has which pieces.
ghost use Rattle.std.specs.Prelude.{◌≡◌, ℕ, ◌+◌, ◌-◌, ◌*◌, ◌/◌, ◌<◌, ◌≤◌, IfOk};
ghost use Rattle.apl_pool.specs.declared.kernel.TheConstants.{MOST_PLACES};
ghost use Rattle.apl_pool.specs.declared.pool.TheConstants.{MOST_WORKERS};

use crate::cut::Cut;
use crate::kernel::MOST_PLACES;
use crate::pieces::Pieces;
use crate::pool::MOST_WORKERS;
use std::alloc::{AllocError, Global};

/// The pieces of one worker: those from `from` up to before `to`.
#[derive(Clone, Copy)]
pub(crate) struct Share {
    pub worker: u8,
    pub from: usize,
    pub to: usize,
}

/// How the pieces of all rows are shared out among `workers` workers. Of p pieces, worker w has those
/// from w × p / workers up to before (w + 1) × p / workers, rounded down. Those who have none are
/// left out, so `tasks` workers have a share. The rows are cut alike, and `pieces` are those of one.
#[derive(Drop)]
pub(crate) struct Shares {
    workers: u8,
    tasks: usize,
    rows: usize,
    pieces: Pieces,
    ghost some_rows: { 0 < rows },
    ghost most_places: { rows * pieces.places ≤ MOST_PLACES },
    ghost some: { 0 < tasks },
    ghost most: { tasks ≤ workers },
    ghost most_workers: { workers ≤ MOST_WORKERS },
}

impl Shares {
    /// The shares of `rows` rows of `places` places each, whose first pieces end at `end`.
    pub(crate) fn new<C: Cut>(
        alloc: Global,
        cut: &C,
        rows: usize,
        places: usize,
        end: usize,
        workers: u8,
    ) -> Result<Shares, AllocError>
        requires some { 0 < end }
        requires within { end ≤ places }
        requires some_rows { 0 < rows }
        requires most { rows * places ≤ MOST_PLACES }
        requires some_workers { 0 < workers }
        requires most_workers { workers ≤ MOST_WORKERS }
        ensures places { IfOk result (λ shares. shares.pieces.places ≡ places) }
        ensures rows { IfOk result (λ shares. shares.rows ≡ rows) }
    {
        let pieces = Pieces::new(alloc, cut, places, end)?;
        let tasks = (rows * pieces.count()).min(workers as usize);
        Ok(Shares {
            workers,
            tasks,
            rows,
            pieces,
        })
    }

    /// How many pieces all rows have.
    pub(crate) fn count(&self) -> usize
        ensures count { result ≡ self.now.rows * self.now.pieces.count }
        ensures some { 0 < result }
        ensures most { result ≤ MOST_PLACES }
    {
        self.rows * self.pieces.count()
    }

    /// The place at which a piece begins, counted through all rows. The rows' first pieces are numbered first, then their second ones,
    /// and so on.
    pub(crate) fn start(&self, number: usize) -> usize
        requires { number < self.now.rows * self.now.pieces.count }
    {
        let row = number % self.rows;
        row * self.pieces.places() + self.pieces.start(number / self.rows)
    }

    /// The pieces of each row.
    pub(crate) fn pieces(&self) -> &Pieces
        ensures { result.now ≡ self.now.pieces }
    {
        &self.pieces
    }

    /// How many workers have a share.
    pub(crate) fn tasks(&self) -> usize
        ensures { result ≡ self.now.tasks }
    {
        self.tasks
    }

    /// The first piece of the share with this number.
    fn first_piece(&self, task: usize) -> usize
        requires { task ≤ self.now.tasks }
        ensures first { result ≡ task * (self.now.rows * self.now.pieces.count) / self.now.tasks }
        ensures within { result ≤ self.now.rows * self.now.pieces.count }
    {
        task * self.count() / self.tasks
    }

    /// The share with this number.
    pub(crate) fn share(&self, task: usize) -> Share
        requires { task < self.now.tasks }
        ensures from { result.from ≡ task * (self.now.rows * self.now.pieces.count) / self.now.tasks }
        ensures to { result.to ≡ (task + 1) * (self.now.rows * self.now.pieces.count) / self.now.tasks }
        ensures order { result.from ≤ result.to }
        ensures within { result.to ≤ self.now.rows * self.now.pieces.count }
    {
        let worker = ((task + 1) * self.workers as usize - 1) / self.tasks;
        Share {
            worker: worker as u8,
            from: self.first_piece(task),
            to: self.first_piece(task + 1),
        }
    }
}
