//! A source in memory, which fails at a chosen call.
ghost use Rattle.std.specs.Prelude.{◌≡◌, ℕ, ◌<◌, ◌≤◌, ◌↔◌, ◌++◌, [], min, take, length, Some, IsTrue, IsErr, IfOk, OnErr};
ghost use Rattle.apl_print.specs.Failures.{CountsFailure};
ghost use Rattle.apl_print.specs.Countdowns.{after_call};

use crate::sources::{Source, SourceFault};
use apl_print::Countdown;
use std::marker::Model;

/// Gives the bytes of a slice, at most a chosen number a call.
#[derive(Drop)]
pub struct MemorySource<'a> {
    bytes: &'a [u8],
    most: usize,
    countdown: Countdown,
    failures: u64,
}

impl<'a> Model for MemorySource<'a> {
    ghost use Rattle.std.specs.Prelude.{◌<◌};
    ghost use Rattle.apl_session.specs.SourceValues.{MemorySourceValue};

    ghost Value = { MemorySourceValue };

    ghost view = { λ s. record { bytes = s.bytes.now; most = s.most; calls_to_failure = s.countdown; failures = s.failures } };

    ghost invariant = { λ s. 0 < s.most };
}

impl<'a> MemorySource<'a> {
    /// A source of these bytes that gives at most `most` a call. If a number is given, it fails at the call with that number, counted from
    /// 1. It takes no memory.
    pub fn new(bytes: &'a [u8], most: usize, fail_at: Option<u64>) -> MemorySource<'a>
        requires { 0 < most }
        ensures bytes { result.bytes ≡ bytes.now }
        ensures most { result.most ≡ most }
        ensures fails { result.calls_to_failure ≡ fail_at }
        ensures sound { result.failures ≡ 0 }
    {
        MemorySource {
            bytes,
            most,
            countdown: Countdown::new(fail_at),
            failures: 0,
        }
    }
}

impl Source for MemorySource<'_> {
    ghost coming = { λ s. Some s.bytes };

    ghost failures = { λ s. s.failures };

    ghost takes_left = { λ s. length s.bytes };

    fn take(&mut self, room: &mut [u8]) -> Result<usize, SourceFault>
        ensures count { IfOk result (λ n. n ≤ length room.new) }
        ensures exact_count { IfOk result (λ n. n ≡ min (min (length self.old.bytes) self.old.most) (length room.new)) }
        ensures bytes { IfOk result (λ n. self.old.bytes ≡ take n room.new ++ self.new.bytes) }
        ensures end { IfOk result (λ n. n ≡ 0 → 0 < length room.new → self.new.bytes ≡ []) }
        ensures falls { IfOk result (λ n. 0 < n → length self.new.bytes < length self.old.bytes) }
        ensures nothing { OnErr result (self.new.bytes ≡ self.old.bytes) }
        ensures failures { CountsFailure self.old.failures self.new.failures result }
        ensures due { IsErr result ↔ (self.old.calls_to_failure ≡ Some 1) }
        ensures counted { self.new.calls_to_failure ≡ after_call self.old.calls_to_failure }
        ensures most { self.new.most ≡ self.old.most }
    {
        if self.countdown.is_due() {
            self.failures = self.failures.saturating_add(1);
            return Err(SourceFault);
        }
        let n = self.bytes.len().min(self.most).min(room.len());
        let (front, rest) = self.bytes.split_at(n);
        room[..n].copy_from_slice(front);
        self.bytes = rest;
        Ok(n)
    }
}
