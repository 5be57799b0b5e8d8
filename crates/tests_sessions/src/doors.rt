//! The gate of the pools that answer sessions here. All have one type, since all functions of arrays are compiled for each.
ghost use Rattle.std.specs.Prelude.{◌≤◌};

use apl_pool::Gate;
use std::sync::atomic::{AtomicU64, Ordering};

/// A gate that does nothing, or one at which two workers meet.
#[derive(Clone, Copy, Drop)]
pub(crate) enum Door<'a> {
    Open,
    Meeting(&'a Meeting),
}

impl Gate for Door<'_> {
    fn pass(&self, worker: u8, _piece: u32) {
        match self {
            Door::Open => {}
            Door::Meeting(meeting) => meeting.wait(worker),
        }
    }
}

/// Each of two workers waits at each of its pieces until the other one has come as often. The one that has the last share of the pieces is
/// the last of all workers.
#[derive(Drop)]
pub(crate) struct Meeting {
    last: u8,
    come: [AtomicU64; 2],
    met: AtomicU64,
}

impl Meeting {
    /// A meeting of two of so many workers.
    pub(crate) fn new(workers: u8) -> Meeting
        requires some { 1 ≤ workers }
    {
        Meeting {
            last: workers - 1,
            come: [AtomicU64::new(0), AtomicU64::new(0)],
            met: AtomicU64::new(0),
        }
    }

    /// How often a worker has met the other one.
    pub(crate) fn met(&self) -> u64 {
        self.met.load(Ordering::SeqCst)
    }

    fn wait(&self, worker: u8) {
        let [first, second] = &self.come;
        let (here, there) = if worker == self.last {
            (second, first)
        } else {
            (first, second)
        };
        let before = here.fetch_add(1, Ordering::SeqCst);
        for _ in 0..2_000_000_000u64 {
            if there.load(Ordering::SeqCst) > before {
                self.met.fetch_add(1, Ordering::SeqCst);
                return;
            }
        }
    }
}
