//! A sink in memory, which fails at a chosen call.
ghost use Rattle.std.specs.Prelude.{◌≡◌, ℕ, ◌<◌, ◌≤◌, ◌↔◌, ◌++◌, min, take, [], length, Some, IsTrue, IsErr, IfOk, OnErr};
ghost use Rattle.apl_print.specs.Failures.{CountsFailure};
ghost use Rattle.apl_print.specs.Countdowns.{after_call};

use crate::countdowns::Countdown;
use crate::sinks::{Sink, SinkFault};
use std::alloc::Global;
use std::marker::Model;

/// Keeps what it takes, at most a chosen number of bytes a call.
#[derive(Drop)]
pub struct MemorySink {
    bytes: Vec<u8>,
    most: usize,
    countdown: Countdown,
    failures: u64,
}

impl Model for MemorySink {
    ghost use Rattle.std.specs.Prelude.{◌<◌};
    ghost use Rattle.apl_print.specs.SinkValues.{MemorySinkValue};

    ghost Value = { MemorySinkValue };

    ghost view = { λ s. record { bytes = s.bytes.items; most = s.most; calls_to_failure = s.countdown; failures = s.failures } };

    ghost invariant = { λ s. 0 < s.most };
}

impl MemorySink {
    /// An empty sink that takes at most `most` bytes a call. If a number is given, it fails at the call with that number,
    /// counted from 1. It takes no memory: `alloc` is kept for what the sink takes later.
    pub fn new(alloc: Global, most: usize, fail_at: Option<u64>) -> MemorySink
        requires { 0 < most }
        ensures empty { result.bytes ≡ [] }
        ensures most { result.most ≡ most }
        ensures fails { result.calls_to_failure ≡ fail_at }
        ensures sound { result.failures ≡ 0 }
    {
        MemorySink {
            bytes: Vec::new(alloc),
            most,
            countdown: Countdown::new(fail_at),
            failures: 0,
        }
    }

    /// What it took.
    pub fn bytes(&self) -> &[u8]
        ensures { result.now ≡ self.now.bytes }
    {
        self.bytes.as_slice()
    }
}

impl Sink for MemorySink {
    ghost taken = { λ s. Some s.bytes };

    ghost failures = { λ s. s.failures };

    fn put(&mut self, bytes: &[u8]) -> Result<usize, SinkFault>
        requires { 0 < length bytes.now }
        ensures count { IfOk result (λ n. (0 < n) × (n ≡ min (length bytes.now) self.old.most)) }
        ensures front { IfOk result (λ n. self.new.bytes ≡ self.old.bytes ++ take n bytes.now) }
        ensures nothing { OnErr result (self.new.bytes ≡ self.old.bytes) }
        ensures failures { CountsFailure self.old.failures self.new.failures result }
        ensures due { self.old.calls_to_failure ≡ Some 1 → IsErr result }
        ensures counted { self.new.calls_to_failure ≡ after_call self.old.calls_to_failure }
        ensures most { self.new.most ≡ self.old.most }
    {
        let n = bytes.len().min(self.most);
        if self.countdown.is_due() || self.bytes.extend_from_slice(&bytes[..n]).is_err() {
            self.failures = self.failures.saturating_add(1);
            return Err(SinkFault);
        }
        Ok(n)
    }
}
