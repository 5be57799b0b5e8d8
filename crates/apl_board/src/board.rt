//! The board: its numbers, its least place, and what it has come to.
ghost use Rattle.std.specs.Prelude.{◌≡◌, ℕ, ◌<◌, ◌≤◌, min, true, false, All, Contains, IfOk, IfSome, MatchOption};
ghost use Rattle.apl_board.specs.View.{extent_of, blank, times, once_below, with_given, with_reported, with_seen, after_none, IsAtMostEach, IsLeastOf};

use crate::seat::BoardSeat;
use crate::steps::{BoardRule, Claim, Look, Report};
use crate::view::{Extent, LEAST, MOST_SHARES, NEXT, NOWHERE, View};
use atomic_table::Table;
use std::alloc::{AllocError, Global};

/// Gives each number below its pieces once, and keeps the least place that was reported.
///
/// Threads use a board through seats, among which its shares are divided. Only a seat that has all shares
/// again can close it.
#[derive(Drop)]
pub struct Board {
    pub(crate) table: Table<(), View, Extent, BoardRule, Global>,
    pieces: u32,
    seats: u8,
    ghost words: { table.shared.table_id.words ≡ 2 },
    ghost slots: { table.shared.table_id.slots ≡ 0 },
    ghost key: { table.shared.key ≡ extent_of pieces seats },
}

/// What a board has come to.
#[derive(Clone, Copy, Debug, PartialEq, Eq)]
pub struct Closed {
    /// How many pieces were given: those with the numbers below it.
    pub given: u32,
    /// The least place that was reported.
    pub least: Option<u32>,
}

impl Board {
    ghost use Rattle.apl_board.specs.Seats.{view, pieces_of, seats_of, IsSeatOf};

    /// A board of `pieces` pieces, and the seat that has all of its `seats` shares, 1 to 64.
    ///
    /// It is the one call that takes memory, and an error says that memory is out. It makes no atomic step
    /// and never waits.
    pub fn new(alloc: Global, pieces: u32, seats: u8) -> Result<(Board, BoardSeat), AllocError>
        requires some { 0 < seats }
        requires most { seats ≤ MOST_SHARES }
        ensures pieces { IfOk result (λ made. pieces_of made.0 ≡ pieces) }
        ensures seats { IfOk result (λ made. seats_of made.0 ≡ seats) }
        ensures board { IfOk result (λ made. IsSeatOf made.0 made.1) }
        ensures view { IfOk result (λ made. view made.1 ≡ blank pieces seats seats) }
    {
        let (table, seat) = Table::of_words(alloc, &[0, NOWHERE], &Extent { pieces, seats })?;
        let board = Board {
            table,
            pieces,
            seats,
        };
        let seat = BoardSeat {
            seat,
            share: seats,
            told: false,
        };
        Ok((board, seat))
    }

    /// The number of a piece that no seat has got before, or `None` if none is left. The numbers that a seat
    /// gets grow.
    ///
    /// It makes one atomic step, and none for a seat that has got `None` before. It takes no memory and never
    /// waits.
    pub fn claim(&self, seat: &mut BoardSeat) -> Option<u32>
        requires { IsSeatOf self.now seat.old }
        ensures board { IsSeatOf self.now seat.new }
        ensures view { MatchOption result (view seat.new ≡ after_none (view seat.old)) (λ n. view seat.new ≡ with_given (view seat.old) n) }
        ensures below { IfSome result (λ n. n < pieces_of self.now) }
        ensures untold { IfSome result (λ _. (view seat.old).told ≡ false) }
        ensures later { IfSome result (λ n. All (λ x. x < n) (view seat.old).given) }
    {
        if seat.told {
            return None;
        }
        let number = self
            .table
            .shared
            .fetch_add::<Claim>(&mut seat.seat, NEXT, 1);
        if number < u64::from(self.pieces) {
            Some(number as u32)
        } else {
            seat.told = true;
            None
        }
    }

    /// The board's least place becomes this place, if that is less or is the first.
    ///
    /// It makes one atomic step, takes no memory and never waits.
    pub fn report(&self, seat: &mut BoardSeat, place: u32)
        requires { IsSeatOf self.now seat.old }
        ensures board { IsSeatOf self.now seat.new }
        ensures view { view seat.new ≡ with_reported (view seat.old) place }
    {
        self.table
            .shared
            .fetch_min::<Report>(&mut seat.seat, LEAST, u64::from(place));
    }

    /// The least of all places that seats have reported, or `None` if there is none yet. It is at most each
    /// that this seat reported or saw before.
    ///
    /// It makes one atomic step, takes no memory and never waits.
    pub fn least(&self, seat: &mut BoardSeat) -> Option<u32>
        requires { IsSeatOf self.now seat.old }
        ensures board { IsSeatOf self.now seat.new }
        ensures view { MatchOption result (view seat.new ≡ view seat.old) (λ p. view seat.new ≡ with_seen (view seat.old) p) }
        ensures reported { IsAtMostEach result (view seat.old).reported }
        ensures seen { IsAtMostEach result (view seat.old).seen }
    {
        let found = self.table.shared.load::<Look>(&mut seat.seat, LEAST);
        place_of(found)
    }

    /// How many pieces were given and the least place that was reported, by the seat that has all shares.
    ///
    /// It makes no atomic step, takes no memory and never waits.
    pub fn close(self, seat: BoardSeat) -> Closed
        requires board { IsSeatOf self seat }
        requires all { (view seat).share ≡ seats_of self }
        ensures given { (x : ℕ) → times x (view seat).given ≡ once_below x result.given }
        ensures every { (x : ℕ) → x < result.given → Contains (view seat).given x }
        ensures below { All (λ x. x < result.given) (view seat).given }
        ensures most { result.given ≤ pieces_of self }
        ensures told { (view seat).told ≡ true → result.given ≡ pieces_of self }
        ensures least { IsLeastOf result.least (view seat).reported }
        ensures seen { All (λ x. Contains (view seat).reported x) (view seat).seen }
    {
        let Board { table, pieces, .. } = self;
        let BoardSeat { seat, .. } = seat;
        let closed = table.close_with(seat);
        let next = closed.word(NEXT);
        let least = closed.word(LEAST);
        closed.free();
        Closed {
            given: lesser(next, pieces),
            least: place_of(least),
        }
    }
}

/// The lesser of the next number and the pieces.
fn lesser(next: u64, pieces: u32) -> u32
    ensures { result ≡ min next pieces }
{
    if next < u64::from(pieces) {
        next as u32
    } else {
        pieces
    }
}

/// The place in the word of the least place, if there is one.
fn place_of(word: u64) -> Option<u32>
    ensures { MatchOption result (NOWHERE ≤ word) (λ p. (p ≡ word) × (word < NOWHERE)) }
{
    if word < NOWHERE {
        Some(word as u32)
    } else {
        None
    }
}
