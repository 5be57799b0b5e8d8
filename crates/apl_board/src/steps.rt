//! The rule of the board's table, and what a seat learns by each kind of step.
ghost use Rattle.apl_board.specs.Rule.{IsLawfulBoard, first_view};
ghost use Rattle.apl_board.specs.Steps.{TellsClaim, TellsReport, TellsLook, TellsShareBound};
ghost use Rattle.apl_board.specs.View.{joined, spent};

use crate::view::{Extent, View};
use atomic_table::{Join, Play, Split, TableRule};

pub(crate) struct BoardRule;

impl TableRule<(), View, Extent> for BoardRule {
    ghost holds = { IsLawfulBoard };

    ghost first = { first_view };
}

/// Takes the next number.
pub(crate) struct Claim;

impl Play<(), View> for Claim {
    ghost then = { TellsClaim };
}

/// Makes the least place the lesser of itself and a place.
pub(crate) struct Report;

impl Play<(), View> for Report {
    ghost then = { TellsReport };
}

/// Reads the least place.
pub(crate) struct Look;

impl Play<(), View> for Look {
    ghost then = { TellsLook };
}

/// A step that no run makes: by it no seat has more shares than a board can have.
pub(crate) struct ShareBound;

impl Play<(), View> for ShareBound {
    ghost then = { TellsShareBound };
}

/// Cuts off a share of 8 × `HIGH` + `LOW`: the type of a split fixes what it does.
pub(crate) struct CutShare<const HIGH: u8, const LOW: u8>;

impl<const HIGH: u8, const LOW: u8> Split<View> for CutShare<HIGH, LOW> {
    ghost use Rattle.std.specs.Prelude.{◌+◌, ◌*◌};
    ghost use Rattle.apl_board.specs.View.{rest_of, part_of};

    ghost left = { λ v. rest_of v (8 * HIGH + LOW) };

    ghost right = { λ v. part_of v (8 * HIGH + LOW) };
}

/// Makes one seat of two.
pub(crate) struct JoinSeats;

impl Join<View> for JoinSeats {
    ghost both = { joined };

    ghost spent = { spent };
}
