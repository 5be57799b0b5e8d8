//! Rooms: a row of places is cut into pieces, and each is written in its place by the thread that takes it.
//!
//! Below it: `atomic_table`, in whose slots the rooms are, the slots of `core` for the row, and `std_alloc` for lists.
//! Begin with `rooms.rt`. The unsafe code is in `room.rt`.
#![tactic(auto)]

mod layout;
mod plays;
mod room;
mod rooms;
mod task;
mod view;

pub use rooms::{Filled, RoomSeat, Rooms};
pub use task::Task;
