//! Where bytes go.
ghost use Rattle.std.specs.Prelude.{◌≡◌, ℕ, ◌<◌, ◌≤◌, List, Option, ◌++◌, take, length, IfOk, OnErr};
ghost use Rattle.std.specs.Io.KnownBytes.{Appends, Keeps};
ghost use Rattle.apl_print.specs.Failures.{CountsFailure};
ghost use Rattle.apl_print.specs.Put.{Writes};

/// A sink failed, and took nothing in that call.
#[derive(Clone, Copy, Debug, PartialEq, Eq)]
pub struct SinkFault;

/// Takes bytes, a front of what it is given at a time.
pub trait Sink {
    // the bytes that it took so far, if it tells them
    ghost taken: { Self → Option (List ℕ) };

    // how many calls failed
    ghost failures: { Self → ℕ };

    /// Takes a front of the bytes, at least one of them, or fails and takes none.
    fn put(&mut self, bytes: &[u8]) -> Result<usize, SinkFault>
        requires { 0 < length bytes.now }
        ensures count { IfOk result (λ n. (0 < n) × (n ≤ length bytes.now)) }
        ensures front { IfOk result (λ n. Appends (taken self.old) (taken self.new) (take n bytes.now)) }
        ensures nothing { OnErr result (Keeps (taken self.old) (taken self.new)) }
        ensures failures { CountsFailure (failures self.old) (failures self.new) result };
}

/// Puts all bytes. After a fault the sink has taken a beginning of them.
pub fn put_all<S: Sink>(sink: &mut S, bytes: &[u8]) -> Result<(), SinkFault>
    ensures writes { Writes (S.taken sink.old) (S.taken sink.new) bytes.now result }
    ensures failures { CountsFailure (S.failures sink.old) (S.failures sink.new) result }
{
    let mut rest = bytes;
    'puts: while !rest.is_empty() {
        match sink.put(rest) {
            Ok(n) => rest = &rest[n..],
            Err(fault) => return Err(fault),
        }
    }
    Ok(())
}
