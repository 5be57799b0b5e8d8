//! The rooms of the pieces of a row, each in a slot of a table: who takes one writes it and lays it back.
ghost use Rattle.std.specs.Prelude.{◌≡◌, ◌≢◌, ◌+◌, ◌<◌, ◌≤◌, ◌∷◌, [], true, IfOk, IfErr, MatchOption, length};
ghost use Rattle.std.specs.Prelude.{vec_len, vec_capacity, None};
ghost use Rattle.core.specs.Mem.Slots.{slots_items, slots_ptr, slots_len, IsFull, Refills};
ghost use Rattle.apl_rooms.specs.Layout.{AreRoomsOf, AreMarkedRight};
ghost use Rattle.apl_rooms.specs.Rule.{IsRoomAt};
ghost use Rattle.apl_rooms.specs.Views.{with_out, with_none};

use crate::layout::{glue_all, lay_out};
use crate::plays::{CutShare, JoinSeats, Laid, Lay, RoomRule, Take};
use crate::room::Room;
use crate::task::Task;
use crate::view::View;
use atomic_table::{Closed, Refused, Seat, Table};
use core::slots::Slots;
use std::alloc::{AllocError, Global};
use std::snapshot::Snapshot;

// The words of a room: it is at home, it is out, or it is at home and right.
const HOME: u64 = 0;

const OUT: u64 = 1;

const RIGHT: u64 = 2;

/// The rooms of all pieces of a row. Threads share them by reference: each room is with one seat at a time, or at home. Rooms that
/// are dropped and not closed are forgotten, with their values.
#[derive(Drop)]
pub struct Rooms<T, F: Task<T>> {
    table: Table<Option<Room<T>>, View<T>, Laid<T, F>, RoomRule<F>, Global>,
    front: Room<T>,
    marks: Vec<bool>,
    ghost words: { table.shared.table_id.words ≡ length table.shared.key.rooms.value.items },
    ghost slots: { table.shared.table_id.slots ≡ length table.shared.key.rooms.value.items },
    ghost some: { 0 < length table.shared.key.rooms.value.items },
    ghost empty: { (front.len ≡ 0) × (front.ptr ≡ slots_ptr table.shared.key.row.value) },
    ghost unmarked: { marks.items ≡ [] },
    ghost room: { length table.shared.key.rooms.value.items ≤ vec_capacity marks },
}

/// The right to the rooms, or a part of it: each thread fills them with a seat of its own. A seat has one or more of the rooms'
/// shares, and no bytes. If one is dropped, its shares are lost, and the rooms can't be closed.
#[derive(Drop)]
pub struct RoomSeat<T> {
    seat: Seat<Option<Room<T>>, View<T>>,
    ghost bare: { seat.me.1 ≡ [] },
    ghost idle: { seat.me.0.out ≡ [] },
    ghost some: { 0 < seat.me.0.share },
}

/// What became of a room that a seat wanted to fill.
#[derive(Clone, Copy, Debug, PartialEq, Eq)]
pub enum Filled {
    /// The room has the values of its piece, and stays as it is.
    Right,
    /// The task answered this place. The room is at home again, to be filled once more.
    Stopped(u32),
    /// The room wasn't there: another seat has it, it is right already, or there is no such piece. Nothing was written.
    Gone,
}

// The word of a room that is laid back.
fn word_of(is_right: bool) -> u64
    ensures { (result ≢ 1) × (result ≡ 2 → is_right ≡ true) × (is_right ≡ true → result ≡ 2) }
{
    if is_right { RIGHT } else { HOME }
}

impl<T, F: Task<T>> Rooms<T, F> {
    ghost use Rattle.apl_rooms.specs.Seats.{share_of, seats_of, task_of, row_of, laid_out, IsSeatOf};

    /// The rooms of a row, cut where the task's pieces begin, and the seat that has all shares, as many as `seats`. None is right
    /// yet. The row comes back, full and in its places, if the allocator refuses memory, and only then. No other call takes any.
    pub fn new(
        alloc: Global,
        row: Slots<T>,
        task: &F,
        seats: u8,
    ) -> Result<(Rooms<T, F>, RoomSeat<T>), Slots<T>>
        requires full { IsFull row }
        requires all { F.start_of task.now (F.piece_count task.now) ≡ slots_len row }
        requires some { 0 < F.piece_count task.now }
        requires seats { 0 < seats }
        ensures made { IfOk result (λ m. (row_of m.0 ≡ row) × (task_of m.0 ≡ task.now) × (seats_of m.0 ≡ seats)
            × IsSeatOf m.0 m.1 × (share_of m.1 ≡ seats)) }
        ensures rooms { IfOk result (λ m.
            AreRoomsOf T.row (F.start_of task.now) row (F.piece_count task.now) (laid_out m.0)) }
        ensures refused { IfErr result (Refills row) }
    {
        let count = task.count();
        let Ok(marks) = Vec::with_capacity(alloc, count) else {
            return Err(row);
        };
        let Ok(words) = vec![in alloc; HOME; count] else {
            return Err(row);
        };
        let Ok(homes) = Vec::with_capacity(alloc, count) else {
            return Err(row);
        };
        let about = Snapshot::of(&row);
        let (front, all) = Room::of(row).cut(0);
        let homes = lay_out(all, task, homes);
        let laid = Laid {
            rooms: Snapshot::of(&homes),
            task: Snapshot::of(task),
            row: about,
            seats,
        };
        match Table::new(alloc, words.as_slice(), homes, &laid) {
            Ok((table, seat)) => Ok((
                Rooms {
                    table,
                    front,
                    marks,
                },
                RoomSeat { seat },
            )),
            Err(Refused { slots }) => Err(glue_all(front, task, slots).into_slots()),
        }
    }

    /// Takes the room of the piece with this number, has the task write its values there, and lays it back. If the task answers
    /// `Ok`, the room is marked as right (`Filled::Right`), and else not (`Filled::Stopped`, with the task's place). If the room
    /// isn't there to be taken, the answer is `Filled::Gone`. It takes no memory and never waits for another thread, if the task's
    /// `write` does neither.
    pub fn fill(&self, seat: &mut RoomSeat<T>, task: &F, number: usize) -> Filled
        requires seat { IsSeatOf self.now seat.old }
        requires task { task_of self.now ≡ task.now }
        requires rooms { AreRoomsOf T.row (F.start_of task.now) (row_of self.now) (F.piece_count task.now) (laid_out self.now) }
        ensures seat { IsSeatOf self.now seat.new }
        ensures share { share_of seat.new ≡ share_of seat.old }
    {
        if number >= self.table.word_count() {
            return Filled::Gone;
        }
        let Some(mut room) = self.take(&mut seat.seat, number) else {
            return Filled::Gone;
        };
        let written = task.write(number, room.as_mut_slice());
        self.lay(&mut seat.seat, number, room, written.is_ok());
        match written {
            Ok(()) => Filled::Right,
            Err(place) => Filled::Stopped(place),
        }
    }

    /// Cuts off one share, for another thread: the second seat has it, and the first keeps the others. It takes no memory and
    /// never waits.
    pub fn split(&self, seat: RoomSeat<T>) -> (RoomSeat<T>, RoomSeat<T>)
        requires seat { IsSeatOf self.now seat }
        requires several { 1 < share_of seat }
        ensures seats { IsSeatOf self.now result.0 × IsSeatOf self.now result.1 }
        ensures shares { (share_of result.0 + 1 ≡ share_of seat) × (share_of result.1 ≡ 1) }
    {
        let RoomSeat { mut seat } = seat;
        let part = self.table.shared.split_seat::<CutShare>(&mut seat);
        (RoomSeat { seat }, RoomSeat { seat: part })
    }

    /// Makes one seat of two, with the shares of both. It takes no memory and never waits.
    pub fn join(&self, first: RoomSeat<T>, second: RoomSeat<T>) -> RoomSeat<T>
        requires seats { IsSeatOf self.now first × IsSeatOf self.now second }
        ensures seat { IsSeatOf self.now result }
        ensures share { share_of result ≡ share_of first + share_of second }
    {
        let RoomSeat { mut seat } = first;
        let RoomSeat { seat: other } = second;
        self.table.shared.join_seat::<JoinSeats>(&mut seat, other);
        RoomSeat { seat }
    }

    /// The whole row, and for each piece a mark. Each place has a value, whatever the threads did. A marked piece has its values;
    /// of one that isn't marked nothing is known. It takes no memory: `new` took that of the marks.
    pub fn close(self, seat: RoomSeat<T>) -> (Slots<T>, Vec<bool>)
        requires seat { IsSeatOf self seat }
        requires all { share_of seat ≡ seats_of self }
        requires rooms { AreRoomsOf T.row (F.start_of (task_of self)) (row_of self) (F.piece_count (task_of self)) (laid_out self) }
        ensures row { Refills (row_of self) result.0 }
        ensures marks { vec_len result.1 ≡ F.piece_count (task_of self) }
        ensures right { AreMarkedRight (F.is_right (task_of self)) (F.start_of (task_of self)) (F.piece_count (task_of self))
            (slots_items result.0) result.1.items }
    {
        let Rooms {
            table,
            front,
            marks,
        } = self;
        let RoomSeat { seat } = seat;
        let mut closed = table.close_with(seat);
        let mut marks = marks;
        let mut whole = front;
        for number in 0..closed.slot_count() {
            let Some(room) = closed.take(number) else {
                unreachable!()
            };
            whole = whole.glue(room);
            marks.push_reserved(closed.word(number) == RIGHT);
        }
        closed.free();
        (whole.into_slots(), marks)
    }

    /// Takes the room of a piece out of its slot, if it is at home and not right.
    fn take(&self, seat: &mut Seat<Option<Room<T>>, View<T>>, number: usize) -> Option<Room<T>>
        requires number { number < self.now.table.shared.table_id.words }
        requires seat { seat.old.table_id ≡ self.now.table.shared.table_id }
        requires idle { (seat.old.me.1 ≡ []) × (seat.old.me.0.out ≡ []) × (0 < seat.old.me.0.share) }
        ensures seat { seat.new.table_id ≡ seat.old.table_id }
        ensures none { MatchOption result (seat.new.me ≡ seat.old.me)
            (λ r. (seat.new.me ≡ (with_out seat.old.me.0 number, (number, None) ∷ [])) × IsRoomAt seat.old.me.0.rooms number r) }
    {
        let found = self
            .table
            .shared
            .compare_exchange::<Take>(seat, number, HOME, OUT);
        if found != HOME {
            return None;
        }
        self.table.shared.exchange(seat, number, None)
    }

    /// Lays a room back into its slot. If it is right, it stays there.
    fn lay(
        &self,
        seat: &mut Seat<Option<Room<T>>, View<T>>,
        number: usize,
        room: Room<T>,
        is_right: bool,
    )
        requires number { number < self.now.table.shared.table_id.words }
        requires seat { (seat.old.table_id ≡ self.now.table.shared.table_id) × (seat.old.me.0.rooms ≡ laid_out self.now) }
        requires out { (seat.old.me.1 ≡ (number, None) ∷ []) × (seat.old.me.0.out ≡ number ∷ []) × (0 < seat.old.me.0.share) }
        requires same { IsRoomAt seat.old.me.0.rooms number room }
        requires right { is_right ≡ true → F.is_right (task_of self.now) number room.items }
        ensures { (seat.new.table_id ≡ seat.old.table_id) × (seat.new.me ≡ (with_none seat.old.me.0, [])) }
    {
        let word = word_of(is_right);
        self.table.shared.exchange(seat, number, Some(room));
        self.table.shared.store::<Lay>(seat, number, word);
    }
}
