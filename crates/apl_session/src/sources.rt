//! Where bytes come from.
ghost use Rattle.std.specs.Prelude.{◌≡◌, ℕ, ◌<◌, ◌≤◌, List, Option, take, length, IfOk, OnErr};
ghost use Rattle.std.specs.Io.KnownBytes.{Consumes, Keeps, IsAtEnd};
ghost use Rattle.apl_print.specs.Failures.{CountsFailure};

/// A source failed, and gave nothing in that call.
#[derive(Clone, Copy, Debug, PartialEq, Eq)]
pub struct SourceFault;

/// Gives bytes, some at a time, until there are none.
pub trait Source {
    // the bytes that are still to come, if it tells them
    ghost coming: { Self → Option (List ℕ) };

    // how many calls failed
    ghost failures: { Self → ℕ };

    // how many calls can still give bytes at most
    ghost takes_left: { Self → ℕ };

    /// Gives the next bytes, in the front of the room, and says how many: 0 for a room that is not empty means the end.
    fn take(&mut self, room: &mut [u8]) -> Result<usize, SourceFault>
        ensures count { IfOk result (λ n. n ≤ length room.new) }
        ensures bytes { IfOk result (λ n. Consumes (coming self.old) (coming self.new) (take n room.new)) }
        ensures end { IfOk result (λ n. n ≡ 0 → 0 < length room.new → IsAtEnd (coming self.new)) }
        ensures falls { IfOk result (λ n. 0 < n → takes_left self.new < takes_left self.old) }
        ensures nothing { OnErr result (Keeps (coming self.old) (coming self.new)) }
        ensures failures { CountsFailure (failures self.old) (failures self.new) result };
}
