//! Boards with one seat and with several, by one thread and by three.
ghost use Rattle.std.specs.Prelude.{◌≡◌, ◌+◌, ◌<◌, ◌≤◌, IfOk};
ghost use Rattle.apl_board.specs.Seats.{view, IsSeatOf};

use apl_board::{Board, BoardSeat, Closed, SplitStop};
use std::alloc::{AllocError, Global};
use std::test::Fail;
use std::thread;
use std::thread::Threads;

/// A seat of share 1, and what is left of the seat that it is cut off.
fn cut_one(board: &Board, seat: BoardSeat) -> (BoardSeat, BoardSeat)
    requires board { IsSeatOf board.now seat }
    requires some { 1 < (view seat).share }
    ensures board { IsSeatOf board.now result.0 × IsSeatOf board.now result.1 }
    ensures share { ((view result.0).share + 1 ≡ (view seat).share) × ((view result.1).share ≡ 1) }
{
    match board.split(seat, 1) {
        Ok(both) => both,
        Err(_) => unreachable!(),
    }
}

/// What a seat sees at first, and after each report of two seats.
fn four_looks(board: &Board, first: &mut BoardSeat, second: &mut BoardSeat) -> [Option<u32>; 4]
    requires { IsSeatOf board.now first.old × IsSeatOf board.now second.old }
    ensures first { IsSeatOf board.now first.new × ((view first.new).share ≡ (view first.old).share) }
    ensures second { IsSeatOf board.now second.new × ((view second.new).share ≡ (view second.old).share) }
{
    let mut least = [board.least(second); 4];
    board.report(first, 5);
    least[1] = board.least(second);
    board.report(second, 2);
    least[2] = board.least(first);
    board.report(first, 4);
    least[3] = board.least(first);
    least
}

/// What two seats are given in turn.
fn five_claims(board: &Board, first: &mut BoardSeat, second: &mut BoardSeat) -> [Option<u32>; 5]
    requires { IsSeatOf board.now first.old × IsSeatOf board.now second.old }
    ensures first { IsSeatOf board.now first.new × ((view first.new).share ≡ (view first.old).share) }
    ensures second { IsSeatOf board.now second.new × ((view second.new).share ≡ (view second.old).share) }
{
    let mut given = [board.claim(second); 5];
    given[1] = board.claim(first);
    given[2] = board.claim(second);
    given[3] = board.claim(first);
    given[4] = board.claim(second);
    given
}

/// Two seats see what the other reports, and share the numbers.
#[test]
fn board_two(rt: HostRuntime) -> Result<(), Fail> {
    let (board, seat) = Board::new(rt.alloc(), 3, 2)?;
    let (mut first, mut second) = cut_one(&board, seat);
    let shares = [first.share(), second.share()];
    let least = four_looks(&board, &mut first, &mut second);
    let given = five_claims(&board, &mut first, &mut second);
    let seat = board.join(first, second);
    let closed = board.close(seat);
    let wanted = Closed {
        given: 3,
        least: Some(2),
    };
    assert!(rt;
        (shares, least, given, closed)
            == (
                [1, 1],
                [None, Some(5), Some(2), Some(2)],
                [Some(0), Some(1), Some(2), None, None],
                wanted
            )
    );
    Ok(())
}

/// A board with no pieces, by its one seat.
#[test]
fn board_empty(rt: HostRuntime) -> Result<(), Fail> {
    let (board, mut seat) = Board::new(rt.alloc(), 0, 1)?;
    let none = [
        board.claim(&mut seat),
        board.claim(&mut seat),
        board.least(&mut seat),
    ];
    let closed = board.close(seat);
    let wanted = Closed {
        given: 0,
        least: None,
    };
    assert!(rt; (none, closed) == ([None; 3], wanted));
    Ok(())
}

/// The shares of both seats of a split, or of the seat that came back and of none.
fn split_shares(board: &Board, seat: BoardSeat, share: u8) -> ([u8; 2], BoardSeat)
    requires { IsSeatOf board.now seat }
    ensures { IsSeatOf board.now result.1 }
{
    match board.split(seat, share) {
        Ok((first, second)) => ([first.share(), second.share()], first),
        Err(SplitStop::NoShare(seat)) => ([seat.share(), 0], seat),
    }
}

/// The shares after a split of a seat with all 64, and after a split of one more share.
fn two_splits(alloc: Global, share: u8) -> Result<([u8; 2], [u8; 2]), AllocError> {
    let (board, seat) = Board::new(alloc, 3, 64)?;
    let (shares, seat) = split_shares(&board, seat, share);
    let (then, _) = split_shares(&board, seat, 1);
    Ok((shares, then))
}

/// Every share that can be cut off a seat with all 64, and those that can't. These leave it as it was: one can be cut off it then.
#[test]
fn board_split(rt: HostRuntime) -> Result<(), Fail> {
    for share in 0u8..=65 {
        let wanted = match share {
            63 => ([1, 63], [1, 0]),
            1..=62 => ([64 - share, share], [63 - share, 1]),
            _ => ([64, 0], [63, 1]),
        };
        assert!(rt; two_splits(rt.alloc(), share)? == wanted, "{share}");
    }
    Ok(())
}

/// How many pieces three threads share.
const PIECES: u32 = 10_000;

/// How often a seat looks for a place before it goes on without it.
const LOOKS: u32 = 1_000_000;

/// Looks until some seat has reported at most this place, or for long enough.
fn await_place(board: &Board, seat: &mut BoardSeat, place: u32)
    requires { IsSeatOf board.now seat.old }
    ensures board { IsSeatOf board.now seat.new }
    ensures share { (view seat.new).share ≡ (view seat.old).share }
{
    for _ in 0..LOOKS {
        if board.least(seat).is_some_and(|least| least <= place) {
            break;
        }
    }
}

/// A seat, and what it was given, or that there was no memory for it.
type Drained = Result<(BoardSeat, Vec<u32>), AllocError>;

/// Reports a place after the one above it, and claims until no piece is left once the places 9, 8 and 7 are
/// reported. So threads that run at the same time claim at the same time.
fn drain(alloc: Global, board: &Board, mut seat: BoardSeat, place: u32) -> Drained
    requires board { IsSeatOf board.now seat }
    requires place { place ≤ 9 }
    ensures { IfOk result (λ r. IsSeatOf board.now r.0 × ((view r.0).share ≡ (view seat).share)) }
{
    await_place(board, &mut seat, place + 1);
    board.report(&mut seat, place);
    await_place(board, &mut seat, 7);
    let mut given = Vec::new(alloc);
    for _ in 0..=PIECES {
        let Some(number) = board.claim(&mut seat) else {
            break
        };
        given.push(number)?;
    }
    Ok((seat, given))
}

/// Two seats in two threads: the places 8 and 7.
fn drain_both<R: Threads + Sync>(
    rt: &R,
    alloc: Global,
    board: &Board,
    second: BoardSeat,
    third: BoardSeat,
) -> (Drained, Drained)
    requires { IsSeatOf board.now second × IsSeatOf board.now third }
    ensures second { IfOk result.0 (λ r. IsSeatOf board.now r.0 × ((view r.0).share ≡ (view second).share)) }
    ensures third { IfOk result.1 (λ r. IsSeatOf board.now r.0 × ((view r.0).share ≡ (view third).share)) }
{
    thread::join(
        rt,
        move ||
            requires { IsSeatOf board.now second }
            ensures { IfOk result (λ r. IsSeatOf board.entry.now r.0 × ((view r.0).share ≡ (view second).share)) }
        { drain(alloc, board, second, 8) },
        move ||
            requires { IsSeatOf board.now third }
            ensures { IfOk result (λ r. IsSeatOf board.entry.now r.0 × ((view r.0).share ≡ (view third).share)) }
        { drain(alloc, board, third, 7) },
    )
}

/// Three threads share the pieces: each number is given once, and the least of their places is known.
#[test]
fn board_threads(rt: HostRuntime) -> Result<(), Fail> {
    let alloc = rt.alloc();
    let (board, mut seat) = Board::new(alloc, PIECES, 3)?;
    board.report(&mut seat, 10);
    let (seat, third) = cut_one(&board, seat);
    let (first, second) = cut_one(&board, seat);
    let shared = &board;
    let (one, (two, three)) = thread::join(
        &rt,
        move ||
            requires { IsSeatOf shared.now first }
            ensures { IfOk result (λ r. IsSeatOf shared.entry.now r.0 × ((view r.0).share ≡ (view first).share)) }
        { drain(alloc, shared, first, 9) },
        || drain_both(&rt, alloc, shared, second, third),
    );
    let ((first, one), (second, two), (third, three)) = (one?, two?, three?);
    let mut times = vec![in alloc; 0u8; PIECES as usize]?;
    for given in [&one, &two, &three] {
        for number in given {
            if let Some(n) = times.get_mut(*number as usize) {
                *n = n.saturating_add(1);
            }
        }
    }
    let once = times.iter().all(|n| *n == 1);
    let seat = board.join(board.join(first, second), third);
    let closed = board.close(seat);
    let wanted = Closed {
        given: PIECES,
        least: Some(7),
    };
    assert!(rt; (once, closed) == (true, wanted));
    Ok(())
}
