//! What is computed at each place, and why a pass may stop.
ghost use Rattle.std.specs.Prelude.{◌≡◌, ℕ, ◌<◌, ◌≤◌, ◌^◌, Result};

use crate::cut::USUAL_PIECE;
use std::alloc::AllocError;

/// Why an element has no value.
#[derive(Clone, Copy, Debug, PartialEq, Eq)]
pub enum Fault {
    /// A function isn't defined there.
    Domain,
    /// The exact value exceeds a limit.
    Limit,
    /// An index isn't one of the axis.
    Index,
}

/// The first of some places that has a fault, and that fault.
#[derive(Clone, Copy, Debug, PartialEq, Eq)]
pub struct FirstFault {
    pub place: usize,
    pub fault: Fault,
}

/// Why a pass over all places gave no values.
#[derive(Clone, Copy, Debug, PartialEq, Eq)]
pub enum Stop {
    /// The least place that has a fault, and that fault.
    Fault { place: u32, fault: Fault },
    /// A growth was refused.
    Memory,
}

impl From<AllocError> for Stop {
    ghost use Rattle.std.specs.Prelude.{◌≡◌};
    ghost use Rattle.apl_pool.specs.declared.kernel.Stop.TheVariants.{Memory};

    ghost from_gives = { λ e r. r ≡ Memory };

    fn from(_: AllocError) -> Self {
        Stop::Memory
    }
}

/// The most places that a kernel may have.
pub const MOST_PLACES: usize = 1 << 30;

/// A value or a fault at each place below a count. A kernel is lent to all workers.
pub trait Kernel {
    ghost use Rattle.std.specs.Prelude.{◌+◌, ◌≤◌, IfErr, IfSome, OnOk, length};
    ghost use Rattle.apl_pool.specs.declared.kernel.Fault.{Fault};
    ghost use Rattle.apl_pool.specs.Runs.{AreWritten, IsFaultAfter};

    /// The type of the values.
    type Out;

    // How many places there are.
    ghost place_count: { Self → ℕ };

    // The value or the fault at a place.
    ghost outcome: { Self → ℕ → Result Self.Out Fault };

    /// How many places there are.
    fn count(&self) -> usize
        ensures value { result ≡ place_count self.now }
        ensures most { result ≤ MOST_PLACES };

    /// The value or the fault at a place: a function of the kernel and the place alone. It takes no memory.
    fn at(&self, place: usize) -> Result<Self::Out, Fault>
        requires { place < place_count self.now }
        ensures { result ≡ outcome self.now place };

    /// How many places are to be a piece where a cutting has the usual length. By other cuttings pieces are longer or shorter in
    /// proportion, and by 0 each place is one by any cutting. The values are the same.
    fn piece(&self) -> usize {
        USUAL_PIECE
    }

    /// About how much work all values are: as much as a function of two numbers at so many places. Little work is not worth a thread.
    fn work(&self) -> usize {
        self.count()
    }

    /// Writes values into the room for the places from `from` up to before `to`. It answers the place at which it
    /// stopped: at most `to`, and `from` if it wrote none. It is for kernels that are faster over a run of places
    /// than at each of them. Values that it leaves out are asked for one by one.
    fn write_run(&self, from: usize, to: usize, _room: &mut [Self::Out]) -> usize
        requires order { from ≤ to }
        requires places { to ≤ place_count self.now }
        requires room { from + length _room.old ≡ to }
        ensures order { from ≤ result }
        ensures within { result ≤ to }
        ensures values { AreWritten (outcome self.now) from result _room.new }
        ensures len { length _room.new ≡ length _room.old }
    {
        from
    }

    /// Writes the values into the room for the places from `from` up to before `to`, up to the first that has a fault. It is for kernels that
    /// choose among others: such a kernel lends the one that it chose to `write_values`. So it chooses once for all these places, and the
    /// pool asks for no place again to tell its fault. `None` says that it is no such kernel.
    fn write_chosen(
        &self,
        _from: usize,
        _to: usize,
        _room: &mut [Self::Out],
    ) -> Option<Result<(), FirstFault>>
        requires order { _from ≤ _to }
        requires places { _to ≤ place_count self.now }
        requires room { _from + length _room.old ≡ _to }
        ensures values { IfSome result (λ written. OnOk written (AreWritten (outcome self.now) _from _to _room.new)) }
        ensures fault { IfSome result (λ written. IfErr written (λ first. IsFaultAfter (outcome self.now) _from _to first.place first.fault _room.new)) }
        ensures len { length _room.new ≡ length _room.old }
    {
        None
    }
}
