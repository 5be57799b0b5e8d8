//! Rooms that two threads fill, and a piece that stops at a place.
ghost use Rattle.std.specs.Prelude.{◌≡◌, ◌+◌, ◌*◌, ◌<◌, ℕ, length, min, slice_index};
ghost use Rattle.core.specs.Mem.Slots.{slots_len, IsFull, Refills};
ghost use Rattle.apl_rooms.specs.Layout.{AreRoomsOf};
ghost use Rattle.apl_rooms.specs.Seats.{share_of, seats_of, task_of, row_of, laid_out, IsSeatOf};

use apl_rooms::{Filled, RoomSeat, Rooms, Task};
use core::slots::{Slots, with_slots};
use std::alloc::{AllocError, Global};
use std::test::Fail;
use std::thread::{self, Threads};

/// The numbers 2, 7, 12 and so on, ten of them in pieces of three, but for place 7, which has none.
struct Fives;

impl Task<u64> for Fives {
    ghost piece_count = { λ t. 4 };

    ghost start_of = { λ t n. min (3 * n) 10 };

    ghost is_right = { λ t n values. (i : ℕ) → i < length values → slice_index values i ≡ 5 * (3 * n + i) + 2 };

    fn count(&self) -> usize {
        4
    }

    fn start(&self, number: usize) -> usize {
        if number < 4 { 3 * number } else { 10 }
    }

    fn write(&self, number: usize, values: &mut [u64]) -> Result<(), u32> {
        let start = 3 * number as u64;
        for index in 0..values.len() {
            let place = start + index as u64;
            if place == 7 {
                return Err(7);
            }
            values[index] = 5 * place + 2;
        }
        Ok(())
    }
}

/// What became of four rooms, one after the other.
fn fill_each<T, F: Task<T>>(
    rooms: &Rooms<T, F>,
    seat: RoomSeat<T>,
    task: &F,
    numbers: [usize; 4],
) -> (RoomSeat<T>, [Filled; 4])
    requires seat { IsSeatOf rooms.now seat }
    requires task { task_of rooms.now ≡ task.now }
    requires rooms { AreRoomsOf T.row (F.start_of task.now) (row_of rooms.now) (F.piece_count task.now) (laid_out rooms.now) }
    ensures seat { IsSeatOf rooms.now result.0 }
    ensures share { share_of result.0 ≡ share_of seat }
{
    let mut seat = seat;
    let first = rooms.fill(&mut seat, task, numbers[0]);
    let second = rooms.fill(&mut seat, task, numbers[1]);
    let third = rooms.fill(&mut seat, task, numbers[2]);
    let fourth = rooms.fill(&mut seat, task, numbers[3]);
    (seat, [first, second, third, fourth])
}

/// What two threads were answered, what the seat of both was at the end, and the marks.
type Filling = ([Filled; 4], [Filled; 4], Filled, Vec<bool>);

/// A seat that comes back, with what it was answered.
type Answered<T> = (RoomSeat<T>, [Filled; 4]);

/// Two threads fill the rooms in turn, each also one that is right already, and the first also one that there isn't.
fn fill_apart<T: Send, F: Task<T> + Sync, R: Threads + Sync>(
    rt: &R,
    rooms: &Rooms<T, F>,
    task: &F,
    first: RoomSeat<T>,
    second: RoomSeat<T>,
) -> (Answered<T>, Answered<T>)
    requires seats { IsSeatOf rooms.now first × IsSeatOf rooms.now second }
    requires task { task_of rooms.now ≡ task.now }
    requires rooms { AreRoomsOf T.row (F.start_of task.now) (row_of rooms.now) (F.piece_count task.now) (laid_out rooms.now) }
    ensures first { IsSeatOf rooms.now result.0.0 × (share_of result.0.0 ≡ share_of first) }
    ensures second { IsSeatOf rooms.now result.1.0 × (share_of result.1.0 ≡ share_of second) }
{
    thread::join(
        rt,
        move ||
            requires { IsSeatOf rooms.now first × (task_of rooms.now ≡ task.now)
                × AreRoomsOf T.row (F.start_of task.now) (row_of rooms.now) (F.piece_count task.now) (laid_out rooms.now) }
            ensures { IsSeatOf rooms.entry.now result.0 × (share_of result.0 ≡ share_of first) }
        { fill_each(rooms, first, task, [0, 2, 0, 4]) },
        move ||
            requires { IsSeatOf rooms.now second × (task_of rooms.now ≡ task.now)
                × AreRoomsOf T.row (F.start_of task.now) (row_of rooms.now) (F.piece_count task.now) (laid_out rooms.now) }
            ensures { IsSeatOf rooms.entry.now result.0 × (share_of result.0 ≡ share_of second) }
        { fill_each(rooms, second, task, [1, 3, 1, 3]) },
    )
}

/// What two threads were answered, and then the seat of both, and the marks; or out of memory.
fn fill_by_two<T: Send, F: Task<T> + Sync, R: Threads + Sync>(
    rt: &R,
    alloc: Global,
    row: Slots<T>,
    task: &F,
) -> (Slots<T>, Result<Filling, AllocError>)
    requires full { IsFull row }
    requires all { F.start_of task.now (F.piece_count task.now) ≡ slots_len row }
    requires some { 0 < F.piece_count task.now }
    ensures { Refills row result.0 }
{
    let (rooms, seat) = match Rooms::new(alloc, row, task, 2) {
        Ok(made) => made,
        Err(row) => return (row, Err(AllocError)),
    };
    let (first, second) = rooms.split(seat);
    let (one, two) = fill_apart(rt, &rooms, task, first, second);
    let (first, even) = one;
    let (second, odd) = two;
    let mut seat = rooms.join(first, second);
    let again = rooms.fill(&mut seat, task, 2);
    let (row, marks) = rooms.close(seat);
    (row, Ok((even, odd, again, marks)))
}

/// Ten places, filled by two threads: those of the stopped piece before the place are written, and those after it stay.
#[test]
fn rooms_by_two(rt: HostRuntime) -> Result<(), Fail> {
    let alloc = rt.alloc();
    let mut values = vec![in alloc; 0u64; 10]?;
    let filling = unsafe {
        with_slots(
            values.as_mut_slice(),
            &mut (),
            &rt,
            |row: Slots<u64>, _: (), rt: &HostRuntime| -> (
                Slots<u64>,
                (),
                Result<Filling, AllocError>,
            )
                requires { IsFull row × (slots_len row ≡ 10) }
                ensures { Refills row result.0 }
            {
                let (row, filling) = fill_by_two(rt, alloc, row, &Fives);
                (row, (), filling)
            },
        )
    };
    let (even, odd, again, marks) = filling?;
    let right = Filled::Right;
    let gone = Filled::Gone;
    let stopped = Filled::Stopped(7);
    assert!(rt;
        (even, odd, again, marks.as_slice(), values.as_slice())
            == (
                [right, stopped, gone, gone],
                [right, right, gone, gone],
                stopped,
                [true, true, false, true].as_slice(),
                [2, 7, 12, 17, 22, 27, 32, 0, 0, 47].as_slice()
            )
    );
    Ok(())
}
