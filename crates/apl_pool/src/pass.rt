//! One pass of several workers over the rooms of all pieces.
ghost use Rattle.std.specs.Thread.{IsSync};
ghost use Rattle.std.specs.Prelude.{◌≡◌, ◌<◌, ◌≤◌, IfOk, length, ◌*◌};
ghost use Rattle.core.specs.Mem.Slots.{slots_items, slots_len, IsFull, Refills};
ghost use Rattle.apl_board.specs.Seats.{view, IsSeatOf};
ghost use Rattle.apl_pool.specs.Crew.{AreMarksOf, HasMarks, IsPassReady};

use crate::crew::{Seats, work_together};
use crate::ends::{Ends, deal};
use crate::gate::Gate;
use crate::schedule::Schedule;
use crate::shares::Shares;
use apl_board::{Board, BoardSeat};
use apl_rooms::{Rooms, Task};
use core::slots::{Slots, with_slots};
use std::alloc::{AllocError, Global};
use std::thread::Threads;

/// What the workers of a pass share: threads, memory, the gate, who has which pieces, and how these come to the workers.
#[derive(Drop)]
pub(crate) struct Pass<'a, R, G> {
    pub rt: &'a R,
    pub alloc: Global,
    pub gate: &'a G,
    pub shares: &'a Shares,
    pub schedule: Schedule,
}

/// All workers fill the rooms of a row, which comes back with a mark for each piece, or without marks if memory is out.
fn fill_row<T: Send, R: Threads + Sync, F: Task<T> + Sync, G: Gate + Sync>(
    rt: &R,
    alloc: Global,
    task: &F,
    gate: &G,
    shares: &Shares,
    board: &Board,
    seat: BoardSeat,
    ends: Vec<Ends>,
    row: Slots<T>,
) -> (Slots<T>, Option<Vec<bool>>)
    requires full { IsFull row }
    requires all { F.start_of task.now (F.piece_count task.now) ≡ slots_len row }
    requires pieces { F.piece_count task.now ≡ shares.now.rows * shares.now.pieces.count }
    requires seat { IsSeatOf board.now seat × ((view seat).share ≡ shares.now.tasks) }
    ensures row { Refills row result.0 }
    ensures marks { HasMarks F.is_right F.start_of F.piece_count task.now (slots_items result.0) result.1 }
{
    let workers = shares.tasks() as u8;
    match Rooms::new(alloc, row, task, workers) {
        Ok((rooms, places)) => {
            let seats = Seats {
                rooms: places,
                board: seat,
            };
            let seats = work_together(rt, &rooms, board, task, gate, shares, workers, ends, seats);
            let (row, marks) = rooms.close(seats.rooms);
            (row, Some(marks))
        }
        Err(row) => (row, None),
    }
}

/// All workers fill the rooms of the pieces in the list, and bring a mark for each piece. The values of a piece that is marked are right;
/// of another one nothing is known.
pub(crate) fn fill_rooms<T: Send, R: Threads + Sync, F: Task<T> + Sync, G: Gate + Sync>(
    pass: &Pass<R, G>,
    task: &F,
    values: &mut [T],
) -> Result<Vec<bool>, AllocError>
    requires all { F.start_of task.now (F.piece_count task.now) ≡ length values.old }
    requires pieces { F.piece_count task.now ≡ pass.now.shares.now.rows * pass.now.shares.now.pieces.count }
    ensures len { length values.new ≡ length values.old }
    ensures marks { IfOk result (λ b. AreMarksOf F.is_right F.start_of F.piece_count task.now values.new b.items) }
{
    let (alloc, gate, shares) = (pass.alloc, pass.gate, pass.shares);
    let (board, seat) = Board::new(alloc, shares.count() as u32, shares.tasks() as u8)?;
    let ends = match pass.schedule {
        Schedule::Claims => Vec::new(alloc),
        Schedule::Deques => deal(alloc, shares)?,
    };
    let marks = unsafe {
        with_slots(
            values,
            &mut (),
            pass.rt,
            |row: Slots<T>, _: (), rt: &R| -> (Slots<T>, (), Option<Vec<bool>>)
                requires { IsSync F.row × IsSync G.row × IsFull row
                    × IsPassReady F.start_of F.piece_count task.now (slots_len row) (shares.now.rows * shares.now.pieces.count) board seat shares.now.tasks }
                ensures { Refills row result.0 × HasMarks F.is_right F.start_of F.piece_count task.entry.now (slots_items result.0) result.2 }
            {
                let (row, marks) = fill_row(rt, alloc, task, gate, shares, &board, seat, ends, row);
                (row, (), marks)
            },
        )
    };
    marks.ok_or(AllocError)
}
