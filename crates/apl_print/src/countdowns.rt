//! The call that is to fail.
ghost use Rattle.std.specs.Prelude.{◌≡◌, ◌↔◌, Some, IsTrue};
ghost use Rattle.apl_print.specs.Countdowns.{after_call};

use std::marker::Model;

/// A countdown to the call that is to fail, if there is one. No call after it is to fail.
#[derive(Drop)]
pub struct Countdown {
    calls: Option<u64>,
}

impl Model for Countdown {
    ghost use Rattle.std.specs.Prelude.{Option, ℕ};

    ghost Value = { Option ℕ };

    ghost view = { λ c. c.calls };
}

impl Countdown {
    /// A countdown to the call with this number, counted from 1, if one is given.
    pub fn new(fail_at: Option<u64>) -> Countdown
        ensures { result ≡ fail_at }
    {
        Countdown { calls: fail_at }
    }

    /// Counts a call, and says whether it is the one that fails.
    pub fn is_due(&mut self) -> bool
        ensures due { IsTrue result ↔ (self.old ≡ Some 1) }
        ensures counted { self.new ≡ after_call self.old }
    {
        let is_due = self.calls == Some(1);
        self.calls = self.calls.and_then(|calls| calls.checked_sub(1));
        is_due
    }
}
