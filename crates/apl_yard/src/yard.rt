//! The ends of a deque of pieces: its owner's, and the thieves'.
ghost use Rattle.std.specs.Prelude.{◌≡◌, ◌+◌, ◌<◌, ◌≤◌, All, length, IfOk, IfErr, MatchResult, vec_len};
ghost use Rattle.crossbeam_deque.specs.Handles.{IsPassOf, worker_capacity, worker_flavor, worker_index, worker_port, worker_view};
ghost use Rattle.crossbeam_deque.specs.Handles.{stealer_deque, stealer_flavor, view};
ghost use Rattle.apl_yard.specs.Views.{opening_view, with_pushed, with_thief};
ghost use Rattle.apl_yard.specs.Rule.{IsPossible, IsPopAnswer};

use crate::rule::{DequeRule, PopStep, PushStep, StealStep, TakerView, ThiefSplit};
use crossbeam_deque::{Pass, Steal, Stealer, Worker};
use std::alloc::{AllocError, Global};

/// Makes deques of pieces. They are the lock-free ones of Chase and Lev, in the FIFO flavor of the crate `crossbeam_deque`. Every end
/// takes the piece that was pushed first.
#[derive(Clone, Copy, Debug, PartialEq, Eq)]
pub struct Yard;

/// The owner's end of a deque. It alone pushes, and it takes as the thieves do.
#[derive(Drop)]
pub struct Hand {
    worker: Worker<u32, Global, TakerView, DequeRule>,
    room: u32,
    ghost first: { (worker_flavor worker ≡ 0) × (worker_port worker ≡ 0) },
    ghost index: { worker_index worker ≤ length (worker_view worker).pushed },
    ghost fits: { length (worker_view worker).pushed + room ≤ worker_capacity worker },
}

/// A thief's end of a deque. It takes, and can't push. It may be sent to another thread.
#[derive(Drop)]
pub struct Thief {
    stealer: Stealer<u32, Global, TakerView, DequeRule>,
    pass: Pass<u32, TakerView>,
    ghost own: { IsPassOf (stealer_deque stealer) pass × (stealer_flavor stealer ≡ 0) },
    ghost possible: { IsPossible (view pass) },
}

/// What a thief's try came to. No clause says which of the last two comes: whatever a thief knows, the others may have taken all
/// the rest. Tests show it.
#[derive(Clone, Copy, Debug, PartialEq, Eq)]
pub enum Taken {
    /// The piece that was the first. The thief has it now, and no other end gets it.
    Piece(u32),
    /// Nothing was taken. It is meant for a deque that was empty at one moment of the call.
    Nothing,
    /// Nothing was taken. It is meant for a call in which another end took a piece. The next try may find one.
    Busy,
}

impl Yard {
    ghost use Rattle.apl_yard.specs.Ends.{hand_view, thief_view, room, IsThiefOf};

    /// An empty deque, for at most `capacity` pushes: its owner's end, and `thieves` thieves' ends. The only error is out of memory.
    /// All memory of the deque is taken here, and given back with its last end.
    #[tactic(auto, using(crate::proofs::Keeps::begins))]
    pub fn new(alloc: Global, capacity: u32, thieves: u8) -> Result<(Hand, Vec<Thief>), AllocError>
        ensures view { IfOk result (λ ends. hand_view ends.0 ≡ opening_view thieves) }
        ensures room { IfOk result (λ ends. room ends.0 ≡ capacity) }
        ensures count { IfOk result (λ ends. vec_len ends.1 ≡ thieves) }
        ensures each { IfOk result (λ ends. All (λ t. IsThiefOf ends.0 t × (thief_view t ≡ opening_view 0)) ends.1.items) }
    {
        let worker = Worker::fifo_as(alloc, capacity as usize)?;
        let mut hand = Hand {
            worker,
            room: capacity,
        };
        let mut ends = Vec::new(alloc);
        for _ in 0..thieves {
            ends.push(hand.thief()?)?;
        }
        Ok((hand, ends))
    }
}

impl Hand {
    ghost use Rattle.apl_yard.specs.Ends.{hand_view, thief_view, room, IsThiefOf, IsSameDeque};

    /// One more thief's end of the deque.
    fn thief(&mut self) -> Result<Thief, AllocError>
        ensures same { IsSameDeque self.old self.new }
        ensures view { IfOk result (λ _. hand_view self.new ≡ with_thief (hand_view self.old)) }
        ensures room { room self.new ≡ room self.old }
        ensures thief { IfOk result (λ t. IsThiefOf self.new t × (thief_view t ≡ opening_view 0)) }
    {
        let stealer = self.worker.stealer()?;
        let pass = self.worker.another::<ThiefSplit>();
        Ok(Thief { stealer, pass })
    }

    /// Puts a piece after all others. The first `capacity` pushes succeed, whatever was taken meanwhile. Each later one is refused: the
    /// piece comes back as the error, and nothing changes. It takes no memory and doesn't wait.
    pub fn push(&mut self, piece: u32) -> Result<(), u32>
        ensures same { IsSameDeque self.old self.new }
        ensures when { MatchResult result (λ _. 0 < room self.old) (λ _. room self.old ≡ 0) }
        ensures refused { IfErr result (λ back. (back ≡ piece) × (self.new ≡ self.old)) }
        ensures view { IfOk result (λ _. hand_view self.new ≡ with_pushed (hand_view self.old) piece) }
        ensures room { IfOk result (λ _. room self.new + 1 ≡ room self.old) }
    {
        if self.room == 0 {
            return Err(piece);
        }
        match self.worker.push_as::<PushStep>(piece) {
            Ok(()) => {
                self.room -= 1;
                Ok(())
            }
            Err(_) => unreachable!(),
        }
    }

    /// Takes the first piece. `None` means that the deque was empty at one moment of the call. It takes no memory and doesn't wait.
    pub fn pop(&mut self) -> Option<u32>
        ensures same { IsSameDeque self.old self.new }
        ensures room { room self.new ≡ room self.old }
        ensures took { IsPopAnswer (hand_view self.old) result (hand_view self.new) }
    {
        self.worker.pop_as::<PopStep>()
    }
}

impl Thief {
    ghost use Rattle.apl_yard.specs.Ends.{thief_view, StealsFromSame};
    ghost use Rattle.apl_yard.specs.Steals.{IsTry};

    /// Takes the first piece, if there is one and no other end takes it at this moment. It takes no memory and doesn't wait.
    pub fn steal(&mut self) -> Taken
        ensures same { StealsFromSame self.old self.new }
        ensures took { IsTry (thief_view self.old) result (thief_view self.new) }
        ensures possible { IsPossible (thief_view self.new) }
    {
        match self.stealer.steal_as::<StealStep>(&mut self.pass) {
            Steal::Success(piece) => Taken::Piece(piece),
            Steal::Empty => Taken::Nothing,
            Steal::Retry => Taken::Busy,
        }
    }
}
