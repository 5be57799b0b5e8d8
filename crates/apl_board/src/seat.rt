//! Seats of a board.
ghost use Rattle.std.specs.Prelude.{◌≡◌, ◌<◌, ◌≤◌, []};
ghost use Rattle.apl_board.specs.declared.view.TheConstants.{MOST_SHARES};

use crate::view::{MOST_SHARES, View};
use atomic_table::Seat;

/// The right to use a board, or a part of it. A seat has from 1 share to all shares of its board.
///
/// The contracts see what the seat was given, what it reported and saw, and whether no piece is left for it.
/// At run time it has only its share and the last of these.
#[derive(Drop)]
pub struct BoardSeat {
    pub(crate) seat: Seat<(), View>,
    pub(crate) share: u8,
    pub(crate) told: bool,
    ghost counted: { share ≡ seat.me.0.share },
    ghost some: { 0 < share },
    ghost most: { share ≤ MOST_SHARES },
    ghost heard: { told ≡ seat.me.0.told },
    ghost bare: { seat.me.1 ≡ [] },
}

/// Why a seat was not split.
#[derive(Drop)]
pub enum SplitStop {
    /// The share that was to be cut off is 0, or leaves none. The seat comes back as it was.
    NoShare(BoardSeat),
}

impl BoardSeat {
    ghost use Rattle.apl_board.specs.Seats.{view};

    /// How many shares the seat has. It makes no atomic step, takes no memory and never waits.
    pub fn share(&self) -> u8
        ensures value { result ≡ (view self.now).share }
        ensures some { 0 < result }
        ensures most { result ≤ MOST_SHARES }
    {
        self.share
    }
}
