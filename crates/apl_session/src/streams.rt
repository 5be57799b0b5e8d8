//! The system's readers as sources.
ghost use Rattle.std.specs.Prelude.{◌≡◌, ℕ, ◌<◌, ◌≤◌, ◌-◌, ◌^◌, min, take, length, IsErr, IfOk, OnErr};
ghost use Rattle.std.specs.Io.KnownBytes.{Consumes, Keeps, IsAtEnd};
ghost use Rattle.apl_print.specs.Failures.{CountsFailure};

use crate::sources::{Source, SourceFault};
use std::io::Read;
use std::marker::Model;

/// A reader as a source. It tells what the reader tells. A read that is interrupted counts as a failure, and so does each
/// take after 2^64 - 1 that gave bytes.
#[derive(Drop)]
pub struct In<R> {
    inner: R,
    takes_left: u64,
    failures: u64,
}

impl<R> Model for In<R> {
    ghost use Rattle.apl_session.specs.SourceValues.{InValue};

    ghost Value = { InValue R };

    ghost view = { λ s. record { inner = s.inner; takes_left = s.takes_left; failures = s.failures } };
}

impl<R: Read> In<R> {
    /// A source over this reader that has given nothing yet, and has not failed.
    pub fn new(inner: R) -> In<R>
        ensures inner { result.inner ≡ inner }
        ensures unspent { result.takes_left ≡ 2 ^ 64 - 1 }
        ensures sound { result.failures ≡ 0 }
    {
        In {
            inner,
            takes_left: u64::MAX,
            failures: 0,
        }
    }
}

impl<R: Read> Source for In<R> {
    ghost coming = { λ s. R.remaining s.inner };

    ghost failures = { λ s. s.failures };

    ghost takes_left = { λ s. s.takes_left };

    fn take(&mut self, room: &mut [u8]) -> Result<usize, SourceFault>
        ensures count { IfOk result (λ n. n ≤ length room.new) }
        ensures bytes { IfOk result (λ n. Consumes (R.remaining self.old.inner) (R.remaining self.new.inner) (take n room.new)) }
        ensures end { IfOk result (λ n. n ≡ 0 → 0 < length room.new → IsAtEnd (R.remaining self.new.inner)) }
        ensures nothing { OnErr result (Keeps (R.remaining self.old.inner) (R.remaining self.new.inner)) }
        ensures failures { CountsFailure self.old.failures self.new.failures result }

        // Only a take that gives bytes counts, and after the last of them each take fails.
        ensures spent { self.old.takes_left ≡ 0 → IsErr result }
        ensures counted { IfOk result (λ n. self.new.takes_left ≡ self.old.takes_left - min n 1) }
        ensures uncounted { OnErr result (self.new.takes_left ≡ self.old.takes_left) }
    {
        if self.takes_left > 0
            && let Ok(n) = self.inner.read(room)
        {
            if n > 0 {
                self.takes_left -= 1;
            }
            return Ok(n);
        }
        self.failures = self.failures.saturating_add(1);
        Err(SourceFault)
    }
}
