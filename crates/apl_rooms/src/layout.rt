//! How a row is cut into the rooms of its pieces, and glued.
ghost use Rattle.std.specs.Prelude.{◌≡◌, ◌<◌, ◌≤◌, [], vec_capacity};
ghost use Rattle.apl_rooms.specs.Layout.{AreRoomsFrom};

use crate::room::Room;
use crate::task::Task;

/// The rooms of all pieces, cut from the front.
pub(crate) fn lay_out<T, F: Task<T>>(
    row: Room<T>,
    task: &F,
    homes: Vec<Option<Room<T>>>,
) -> Vec<Option<Room<T>>>
    requires empty { homes.items ≡ [] }
    requires room { F.piece_count task.now ≤ vec_capacity homes }
    requires all { F.start_of task.now (F.piece_count task.now) ≡ row.len }
    requires some { 0 < F.piece_count task.now }
    ensures { AreRoomsFrom T.row (F.start_of task.now) row.ptr row.len (F.piece_count task.now) result.items }
{
    let mut homes = homes;
    let mut rest = row;
    let mut start = task.start(0);
    for number in 0..task.count() {
        let end = task.start(number + 1);
        let (room, behind) = rest.cut(end - start);
        homes.push_reserved(Some(room));
        rest = behind;
        start = end;
    }
    homes
}

/// The rooms of all pieces, glued after `front`, which has no place.
pub(crate) fn glue_all<T, F: Task<T>>(
    front: Room<T>,
    task: &F,
    homes: Vec<Option<Room<T>>>,
) -> Room<T>
    requires front { front.len ≡ 0 }
    requires rooms { AreRoomsFrom T.row (F.start_of task.now) front.ptr (F.start_of task.now (F.piece_count task.now))
        (F.piece_count task.now) homes.items }
    ensures { (result.ptr ≡ front.ptr) × (result.len ≡ F.start_of task.now (F.piece_count task.now)) }
{
    let mut homes = homes;
    let mut whole = front;
    for number in 0..homes.len() {
        let Some(room) = homes[number].take() else {
            unreachable!()
        };
        whole = whole.glue(room);
    }
    whole
}
