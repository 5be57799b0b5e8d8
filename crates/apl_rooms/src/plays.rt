//! The rule of a table of rooms, and what a seat learns by each kind of step.
ghost use Rattle.apl_rooms.specs.Views.{rest_of, part_of, joined, spent};

use crate::room::Room;
use crate::task::Task;
use crate::view::View;
use atomic_table::{Join, Play, Split, TableRule};
use core::slots::Slots;
use std::marker::PhantomData;
use std::snapshot::Snapshot;

/// What a table of rooms is made of, for proofs alone.
#[derive(Drop)]
pub struct Laid<T, F> {
    pub(crate) rooms: Snapshot<Vec<Option<Room<T>>>>,
    pub(crate) task: Snapshot<F>,
    pub(crate) row: Snapshot<Slots<T>>,
    pub(crate) seats: u8,
}

/// A room is at home, or out with one seat. If its word says that it is right, it has the values of its piece.
pub struct RoomRule<F> {
    task: PhantomData<F>,
}

impl<T, F: Task<T>> TableRule<Option<Room<T>>, View<T>, Laid<T, F>> for RoomRule<F> {
    ghost use Rattle.apl_rooms.specs.Rule.{IsLawful, opening_view};

    ghost holds = { λ k. IsLawful (F.is_right k.task.value) k.seats k.rooms.value.items };

    ghost first = { λ k. opening_view k.seats k.rooms.value.items };
}

/// A room that is at home is taken.
pub struct Take;

impl<T> Play<Option<Room<T>>, View<T>> for Take {
    ghost use Rattle.apl_rooms.specs.Steps.{taken};

    ghost then = { taken };
}

/// The room that is out comes home.
pub struct Lay;

impl<T> Play<Option<Room<T>>, View<T>> for Lay {
    ghost use Rattle.apl_rooms.specs.Steps.{laid};

    ghost then = { laid };
}

/// One share is cut off.
pub struct CutShare;

impl<T> Split<View<T>> for CutShare {
    ghost left = { rest_of };

    ghost right = { part_of };
}

/// Two seats become one.
pub struct JoinSeats;

impl<T> Join<View<T>> for JoinSeats {
    ghost both = { joined };

    ghost spent = { spent };
}
