//! Places side by side that are owned, so that they can be cut and glued and go to another thread.
//!
//! This is the only unsafe code of the crate. If a borrowed row were laid into a table, the proof would no longer know which row
//! it was. So a room owns its places, as a pointer and a length.
ghost use Rattle.std.specs.Prelude.{◌≡◌, ◌^◌, ◌<◌, ◌≤◌, List, length, replicate, true};
ghost use Rattle.core.specs.Mem.Slots.{slots_items, slots_ptr, slots_len, IsFull};
ghost use Rattle.core.specs.Mem.Slots.Ownership.{owned};

use core::slots::Slots;
use std::marker::Model;

/// Places side by side, each with a value. A room that is dropped is forgotten, with its values.
#[derive(Drop)]
pub struct Room<T> {
    ptr: *mut T,
    len: usize,
    pub ghost items: { List T },
    pub ghost ok: { len ≡ length items },
    pub ghost small: { len < 2 ^ 64 },
}

impl<T> Model for Room<T> {
    ghost also_owns = { λ r. owned T.row r.ptr r.len r.items (replicate r.len true) };
}

unsafe impl<T: Send> Send for Room<T> {}

// No value of a room is reached through a `&`.
unsafe impl<T: Send> Sync for Room<T> {}

impl<T> Room<T> {
    ghost use Rattle.apl_rooms.specs.Rooms.{room_follows_slice, IsCut, AreNeighbours, IsGlued};
    ghost use types.Logic.{sem};

    /// The values, to be read and written. When the borrow ends, the room has what was written.
    pub fn as_mut_slice(&mut self) -> &mut [T]
        ensures* writes_back { sem 𝓛 (room_follows_slice T.row self.entry result) }
        ensures value { result.now ≡ self.old.items }
        ensures len { length result.now ≡ self.old.len }
    {
        unsafe { core::slice::from_raw_parts_mut(self.ptr, self.len) }
    }

    /// The first `mid` places, and the rest.
    pub fn cut(self, mid: usize) -> (Room<T>, Room<T>)
        requires { mid ≤ self.len }
        ensures { IsCut T.row self mid result.0 result.1 }
    {
        let Room { ptr, len } = self;
        let rest = len - mid;
        let upper = unsafe { ptr.add(mid) };
        (
            Room { ptr, len: mid },
            Room {
                ptr: upper,
                len: rest,
            },
        )
    }

    /// The places of both, where `other` begins at the end of `self`.
    pub fn glue(self, other: Room<T>) -> Room<T>
        requires { AreNeighbours T.row self other }
        ensures { IsGlued self other result }
    {
        let Room { ptr, len } = self;
        let Room { ptr: _, len: more } = other;
        Room {
            ptr,
            len: len + more,
        }
    }

    /// The places of a full row.
    pub fn of(row: Slots<T>) -> Room<T>
        requires { IsFull row }
        ensures { (result.ptr ≡ slots_ptr row) × (result.len ≡ slots_len row) × (result.items ≡ slots_items row) }
    {
        let parts = unsafe { row.into_raw_parts() };
        Room {
            ptr: parts.0,
            len: parts.1,
        }
    }

    /// The places as a row, each filled.
    pub fn into_slots(self) -> Slots<T>
        requires { self.len ≡ length self.items }
        ensures { (slots_ptr result ≡ self.ptr) × (slots_len result ≡ self.len) × (slots_items result ≡ self.items) × IsFull result }
    {
        let Room { ptr, len } = self;
        unsafe { Slots::from_raw_parts(ptr, len) }
    }
}
