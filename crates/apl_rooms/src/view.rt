//! What the rule of a table of rooms speaks of.
use crate::room::Room;
use std::collections::LinkedList;

/// What a seat knows, for proofs alone: no value of it is made.
pub struct View<T> {
    /// The rooms as they were laid out.
    pub rooms: LinkedList<Option<Room<T>>>,
    /// How many shares of the right to all rooms the seat has.
    pub share: u8,
    /// The numbers of the rooms that are out with the seat.
    pub out: LinkedList<u32>,
}
