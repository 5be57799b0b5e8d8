//! What the options of the program's command line ask for.
ghost use Rattle.std.specs.Prelude.{◌≤◌};
ghost use Rattle.apl_pool.specs.declared.pool.TheConstants.{MOST_WORKERS};
ghost use Rattle.apl_options.specs.declared.options.TheConstants.{LONGEST_PIECE};

use apl_pool::Schedule;

/// The most elements that a piece may be asked to have.
pub const LONGEST_PIECE: u32 = 1_048_576;

/// How the work is shared out: the number of workers, the number of elements in each piece, and how the pieces come to the workers.
#[derive(Clone, Copy, Debug, PartialEq, Eq)]
pub struct Settings {
    pub workers: u8,
    pub piece: u32,
    pub schedule: Schedule,
    ghost some_worker: { 1 ≤ workers },
    ghost few_workers: { workers ≤ MOST_WORKERS },
    ghost some_piece: { 1 ≤ piece },
    ghost short_piece: { piece ≤ LONGEST_PIECE },
}
