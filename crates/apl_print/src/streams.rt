//! A writer as a sink.
ghost use Rattle.std.specs.Prelude.{◌≡◌, ℕ};

use crate::sinks::{Sink, SinkFault};
use std::io::Write;
use std::marker::Model;

/// A writer as a sink. It tells what the writer tells. A write that takes nothing or is interrupted counts as a failure.
#[derive(Drop)]
pub struct Out<W> {
    inner: W,
    failures: u64,
}

impl<W> Model for Out<W> {
    ghost use Rattle.apl_print.specs.SinkValues.{OutValue};

    ghost Value = { OutValue W };

    ghost view = { λ s. record { inner = s.inner; failures = s.failures } };
}

impl<W: Write> Out<W> {
    /// A sink over this writer that has not failed yet.
    pub fn new(inner: W) -> Out<W>
        ensures inner { result.inner ≡ inner }
        ensures sound { result.failures ≡ 0 }
    {
        Out { inner, failures: 0 }
    }
}

impl<W: Write> Sink for Out<W> {
    ghost taken = { λ s. W.contents s.inner };

    ghost failures = { λ s. s.failures };

    fn put(&mut self, bytes: &[u8]) -> Result<usize, SinkFault> {
        match self.inner.write(bytes) {
            Ok(n) if n > 0 => Ok(n),
            _ => {
                self.failures = self.failures.saturating_add(1);
                Err(SinkFault)
            }
        }
    }
}
