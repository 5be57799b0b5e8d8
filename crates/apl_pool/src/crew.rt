//! What several workers do at once: the first in this thread, and each other one in a thread of its own. This thread starts all
//! of them, since a thread that has only just begun tends to share its processor with those that it starts.
ghost use Rattle.std.specs.Thread.{IsSync};
ghost use Rattle.std.specs.Prelude.{◌≡◌, ◌+◌, ◌-◌, ◌<◌, ◌≤◌, ◌*◌};
ghost use Rattle.apl_board.specs.Seats.{view, IsSeatOf};
ghost use Rattle.apl_pool.specs.Crew.{AreSeatsOf, AreRoomsFor, AreReady, IsCrew};

use crate::ends::Ends;
use crate::gate::Gate;
use crate::shares::Shares;
use apl_board::{Board, BoardSeat};
use apl_rooms::{Filled, RoomSeat, Rooms, Task};
use std::thread::{Threads, join};

/// The seats of some workers, at the rooms of all pieces and at the board.
#[derive(Drop)]
pub(crate) struct Seats<T> {
    pub rooms: RoomSeat<T>,
    pub board: BoardSeat,
}

/// The number of the next piece: from the worker's deques if it has some, else from the board.
fn next_piece(ends: &mut Option<Ends>, board: &Board, seat: &mut BoardSeat) -> Option<u32>
    requires { IsSeatOf board.now seat.old }
    ensures seat { IsSeatOf board.now seat.new }
    ensures share { (view seat.new).share ≡ (view seat.old).share }
{
    match ends.as_mut() {
        Some(ends) => ends.next(),
        None => board.claim(seat),
    }
}

/// Whether a place before `start` is known to have a fault.
fn is_behind(board: &Board, seat: &mut BoardSeat, start: usize) -> bool
    requires { IsSeatOf board.now seat.old }
    ensures seat { IsSeatOf board.now seat.new }
    ensures share { (view seat.new).share ≡ (view seat.old).share }
{
    match board.least(seat) {
        Some(place) => (place as usize) < start,
        None => false,
    }
}

/// What one worker does. For each piece it passes the gate, fills the piece's room, and reports the place at which that stopped. It leaves
/// out a piece that begins after a place that was reported.
fn work<T, F: Task<T>, G: Gate>(
    rooms: &Rooms<T, F>,
    board: &Board,
    task: &F,
    gate: &G,
    shares: &Shares,
    worker: u8,
    own: Option<Ends>,
    seats: Seats<T>,
) -> Seats<T>
    requires rooms { AreRoomsFor T.row F.start_of F.piece_count rooms.now task.now }
    requires pieces { F.piece_count task.now ≡ shares.now.rows * shares.now.pieces.count }
    requires seats { AreSeatsOf rooms.now board.now seats 1 }
    ensures { AreSeatsOf rooms.now board.now result 1 }
{
    let mut ends = own;
    let mut seats = seats;
    for _ in 0..task.count() {
        let Some(number) = next_piece(&mut ends, board, &mut seats.board) else {
            break;
        };
        let number = number as usize;
        if number >= task.count() || is_behind(board, &mut seats.board, shares.start(number)) {
            continue;
        }
        gate.pass(worker, number as u32);
        if let Filled::Stopped(place) = rooms.fill(&mut seats.rooms, task, number) {
            board.report(&mut seats.board, place);
        }
    }
    seats
}

/// Cuts one share off the seats.
fn split_one<T, F: Task<T>>(
    rooms: &Rooms<T, F>,
    board: &Board,
    seats: Seats<T>,
    share: u8,
) -> (Seats<T>, Seats<T>)
    requires several { 1 < share }
    requires seats { AreSeatsOf rooms.now board.now seats share }
    ensures rest { AreSeatsOf rooms.now board.now result.0 (share - 1) }
    ensures one { AreSeatsOf rooms.now board.now result.1 1 }
{
    let (rest, one) = rooms.split(seats.rooms);
    match board.split(seats.board, 1) {
        Ok((others, own)) => (
            Seats {
                rooms: rest,
                board: others,
            },
            Seats {
                rooms: one,
                board: own,
            },
        ),
        Err(_) => unreachable!(),
    }
}

/// The seats of both.
fn join_seats<T, F: Task<T>>(
    rooms: &Rooms<T, F>,
    board: &Board,
    rest: Seats<T>,
    one: Seats<T>,
    share: u8,
) -> Seats<T>
    requires share { 0 < share }
    requires rest { AreSeatsOf rooms.now board.now rest (share - 1) }
    requires one { AreSeatsOf rooms.now board.now one 1 }
    ensures { AreSeatsOf rooms.now board.now result share }
{
    Seats {
        rooms: rooms.join(rest.rooms, one.rooms),
        board: board.join(rest.board, one.board),
    }
}

/// What the first `workers` workers do, each with its own ends of the deques if there are some.
#[cycle(crew)]
pub(crate) fn work_together<T: Send, R: Threads + Sync, F: Task<T> + Sync, G: Gate + Sync>(
    rt: &R,
    rooms: &Rooms<T, F>,
    board: &Board,
    task: &F,
    gate: &G,
    shares: &Shares,
    workers: u8,
    ends: Vec<Ends>,
    seats: Seats<T>,
) -> Seats<T>
    requires some { 0 < workers }
    requires within { workers ≤ shares.now.tasks }
    requires rooms { AreRoomsFor T.row F.start_of F.piece_count rooms.now task.now }
    requires pieces { F.piece_count task.now ≡ shares.now.rows * shares.now.pieces.count }
    requires seats { AreSeatsOf rooms.now board.now seats workers }
    ensures { AreSeatsOf rooms.now board.now result workers }
{
    let mut ends = ends;
    let own = ends.pop();
    let others = workers - 1;
    let worker = shares.share(others as usize).worker;
    if others == 0 {
        return work(rooms, board, task, gate, shares, worker, own, seats);
    }
    let (rest, one) = split_one(rooms, board, seats, workers);
    let last = move || -> Seats<T>
        requires { IsSync F.row × IsSync G.row × AreReady T.row F.start_of F.piece_count rooms.now task.now board.now (shares.now.rows * shares.now.pieces.count) one 1 }
        ensures { AreSeatsOf rooms.entry.now board.entry.now result 1 }
    { work(rooms, board, task, gate, shares, worker, own, one) };
    let before = move || -> Seats<T>
        requires { IsSync R.row × IsSync F.row × IsSync G.row
            × IsCrew T.row F.start_of F.piece_count rooms.now task.now board.now (shares.now.rows * shares.now.pieces.count) rest others shares.now.tasks }
        ensures { AreSeatsOf rooms.entry.now board.entry.now result others }
    { work_together(rt, rooms, board, task, gate, shares, others, ends, rest) };
    let (one, rest) = join(rt, last, before);
    join_seats(rooms, board, rest, one, workers)
}
