//! Seats that are split and joined.
ghost use Rattle.std.specs.Prelude.{◌≡◌, ◌+◌, ◌*◌, ◌<◌, ◌≤◌, ◌⊎◌, IfOk, IfErr};
ghost use Rattle.apl_board.specs.View.{rest_of, part_of, joined};
ghost use Rattle.apl_board.specs.Seats.{view, IsSeatOf};

use crate::board::Board;
use crate::seat::{BoardSeat, SplitStop};
use crate::steps::{CutShare, JoinSeats, ShareBound};
use crate::view::{MOST_SHARES, NEXT};

impl Board {
    /// Makes two seats of one: the second has this share, and the first the rest. The first keeps what the seat
    /// was given and reported. Both keep what it saw, and whether no piece was left.
    ///
    /// It makes one atomic step, and none if it answers an error. It takes no memory and never waits.
    pub fn split(&self, seat: BoardSeat, share: u8) -> Result<(BoardSeat, BoardSeat), SplitStop>
        requires { IsSeatOf self.now seat }
        ensures board { IfOk result (λ s. IsSeatOf self.now s.0 × IsSeatOf self.now s.1) }
        ensures rest { IfOk result (λ s. view s.0 ≡ rest_of (view seat) share) }
        ensures part { IfOk result (λ s. view s.1 ≡ part_of (view seat) share) }
        ensures lawful { IfOk result (λ _. (0 < share) × (share < (view seat).share)) }
        ensures refused { IfErr result (λ _. (share ≡ 0) ⊎ ((view seat).share ≤ share)) }
        ensures unchanged { IfErr result (λ e. e ≡ SplitStop.NoShare seat) }
    {
        if share == 0 || share >= seat.share {
            return Err(SplitStop::NoShare(seat));
        }
        let low = share % 8;
        Ok(match share / 8 {
            0 => self.cut_low::<0>(seat, low),
            1 => self.cut_low::<1>(seat, low),
            2 => self.cut_low::<2>(seat, low),
            3 => self.cut_low::<3>(seat, low),
            4 => self.cut_low::<4>(seat, low),
            5 => self.cut_low::<5>(seat, low),
            6 => self.cut_low::<6>(seat, low),
            _ => self.cut_low::<7>(seat, low),
        })
    }

    /// Makes one seat of two: the shares add up, and it has what either was given, reported, saw or
    /// was told.
    ///
    /// It makes one atomic step, takes no memory and never waits.
    pub fn join(&self, first: BoardSeat, second: BoardSeat) -> BoardSeat
        requires first { IsSeatOf self.now first }
        requires second { IsSeatOf self.now second }
        ensures board { IsSeatOf self.now result }
        ensures view { view result ≡ joined (view first) (view second) }
    {
        let BoardSeat {
            mut seat,
            share,
            told,
        } = first;
        let BoardSeat {
            seat: other,
            share: more,
            told: also,
        } = second;
        self.table.shared.join_seat::<JoinSeats>(&mut seat, other);
        let share = share + more;
        if share > MOST_SHARES {
            // No run comes here. A join doesn't show that both seats have no more than all shares, and this step would.
            self.table.shared.load::<ShareBound>(&mut seat, NEXT);
            unreachable!();
        }
        BoardSeat {
            seat,
            share,
            told: told || also,
        }
    }

    /// Cuts off a share of 8 × `HIGH` + `LOW`.
    fn cut<const HIGH: u8, const LOW: u8>(&self, seat: BoardSeat) -> (BoardSeat, BoardSeat)
        requires board { IsSeatOf self.now seat }
        requires some { 0 < 8 * HIGH + LOW }
        requires less { 8 * HIGH + LOW < (view seat).share }
        ensures board { IsSeatOf self.now result.0 × IsSeatOf self.now result.1 }
        ensures rest { view result.0 ≡ rest_of (view seat) (8 * HIGH + LOW) }
        ensures part { view result.1 ≡ part_of (view seat) (8 * HIGH + LOW) }
    {
        let BoardSeat {
            mut seat,
            share,
            told,
        } = seat;
        let part = self
            .table
            .shared
            .split_seat::<CutShare<HIGH, LOW>>(&mut seat);
        let cut = 8 * HIGH + LOW;
        let first = BoardSeat {
            seat,
            share: share - cut,
            told,
        };
        let second = BoardSeat {
            seat: part,
            share: cut,
            told,
        };
        (first, second)
    }

    /// Cuts off a share of 8 × `HIGH` + `low`.
    fn cut_low<const HIGH: u8>(&self, seat: BoardSeat, low: u8) -> (BoardSeat, BoardSeat)
        requires board { IsSeatOf self.now seat }
        requires low { low < 8 }
        requires some { 0 < 8 * HIGH + low }
        requires less { 8 * HIGH + low < (view seat).share }
        ensures board { IsSeatOf self.now result.0 × IsSeatOf self.now result.1 }
        ensures rest { view result.0 ≡ rest_of (view seat) (8 * HIGH + low) }
        ensures part { view result.1 ≡ part_of (view seat) (8 * HIGH + low) }
    {
        match low {
            0 => self.cut::<HIGH, 0>(seat),
            1 => self.cut::<HIGH, 1>(seat),
            2 => self.cut::<HIGH, 2>(seat),
            3 => self.cut::<HIGH, 3>(seat),
            4 => self.cut::<HIGH, 4>(seat),
            5 => self.cut::<HIGH, 5>(seat),
            6 => self.cut::<HIGH, 6>(seat),
            _ => self.cut::<HIGH, 7>(seat),
        }
    }
}
