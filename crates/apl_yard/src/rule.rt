//! The rule of a deque of pieces, and what each kind of step tells. All of it is for proofs: no value of these types is made.
ghost use Rattle.apl_yard.specs.Views.{opening_view, with_thief};
ghost use Rattle.apl_yard.specs.Rule.{IsDequeState, PushTells, PopTells, StealTells};

use crossbeam_deque::protocol::{Outcome, Protocol, Split};
use std::collections::LinkedList;

/// What an end of a deque knows.
pub(crate) struct TakerView {
    /// The pieces that were pushed, in order. The owner alone knows them; a thief has none here.
    pub pushed: LinkedList<u32>,
    /// How many thieves there are. The owner alone knows it; a thief has 0 here.
    pub thieves: u32,
    /// What this end took, in order: the position at which each piece was pushed, counted from 0, and the piece.
    pub taken: LinkedList<(u32, u32)>,
}

/// The rule that each step keeps.
pub(crate) struct DequeRule;

impl Protocol<u32, TakerView> for DequeRule {
    ghost holds = { IsDequeState };

    ghost first = { opening_view 0 };

    ghost guest = { opening_view 0 };
}

/// The owner pushes a piece.
pub(crate) struct PushStep;

impl Outcome<u32, TakerView> for PushStep {
    ghost then = { PushTells };
}

/// The owner takes the first piece.
pub(crate) struct PopStep;

impl Outcome<u32, TakerView> for PopStep {
    ghost use Rattle.apl_yard.specs.Rule.{WasEmpty};

    ghost then = { PopTells };

    ghost empty = { WasEmpty };
}

/// A thief takes the first piece.
pub(crate) struct StealStep;

impl Outcome<u32, TakerView> for StealStep {
    ghost then = { StealTells };
}

/// The owner lets one more thief in.
pub(crate) struct ThiefSplit;

impl Split<TakerView> for ThiefSplit {
    ghost left = { with_thief };

    ghost right = { λ _. opening_view 0 };
}
