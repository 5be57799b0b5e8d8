//! Calls that take memory, each by itself. With enough of it each answers as here. `checks/faults/run` refuses each growth of memory of these
//! tests in turn: then a call says so, and nothing else.
use crate::doors::Door;
use crate::gates::AllOnes;
use crate::pools::{Numbers, are_places};
use apl_array::{Array, Shape};
use apl_board::Board;
use apl_pool::{Every, Fault, Open, Pool, Schedule, Stop, Summary};
use apl_print::{Out, print};
use apl_session::{Next, Session};
use apl_summary::SignedSum;
use apl_syntax::{Line, read};
use apl_yard::{Taken, Yard};
use std::test::Fail;

#[test]
fn refused_board(rt: HostRuntime) -> Result<(), Fail> {
    let (board, mut seat) = Board::new(rt.alloc(), 2, 1)?;
    let claims = [
        board.claim(&mut seat),
        board.claim(&mut seat),
        board.claim(&mut seat),
    ];
    assert!(rt; claims == [Some(0), Some(1), None]);
    Ok(())
}

#[test]
fn refused_yard(rt: HostRuntime) -> Result<(), Fail> {
    let (mut hand, mut thieves) = Yard::new(rt.alloc(), 2, 1)?;
    let Some(mut thief) = thieves.pop() else {
        return Err(Fail::new("one thief is asked for"));
    };
    let _ = hand.push(7);
    let _ = hand.push(8);
    let taken = (thief.steal(), hand.pop(), hand.pop());
    assert!(rt; taken == (Taken::Piece(7), Some(8), None));
    Ok(())
}

#[test]
fn refused_fill(rt: HostRuntime) -> Result<(), Fail> {
    for schedule in [Schedule::Claims, Schedule::Deques] {
        for workers in [1, 3, 64] {
            let pool = Pool::with(workers, schedule, Every(2), Open);
            let whole = Numbers {
                count: 50,
                limit: 50,
            };
            let values = pool.fill(&rt, rt.alloc(), &whole)?;
            let is_whole = values.len() == 50 && are_places(values.as_slice());
            let faulty = Numbers {
                count: 50,
                limit: 30,
            };
            let stop = match pool.fill(&rt, rt.alloc(), &faulty) {
                Err(Stop::Memory) => return Err(Fail::new("no memory")),
                Err(Stop::Fault { place, fault }) => Some((place, fault)),
                Ok(_) => None,
            };
            assert!(rt;
                is_whole && stop == Some((30, Fault::Limit)),
                "{workers} workers"
            );
        }
    }
    Ok(())
}

#[test]
fn refused_fold(rt: HostRuntime) -> Result<(), Fail> {
    for schedule in [Schedule::Claims, Schedule::Deques] {
        for workers in [1, 3, 64] {
            let pool = Pool::with(workers, schedule, Every(2), Open);
            let sum: SignedSum<0> = pool.fold(&rt, rt.alloc(), &AllOnes { count: 50 })?;
            assert!(rt; sum.apply(0) == Ok(50), "{workers} workers");
        }
    }
    Ok(())
}

#[test]
fn refused_print(rt: HostRuntime) -> Result<(), Fail> {
    let alloc = rt.alloc();
    let shape = Shape::new(alloc, &[2, 15]).map_err(|_| "a shape")?;
    let mut ravel = Vec::new(alloc);
    for number in 1..=30i64 {
        ravel.push(number)?;
    }
    assert!(rt; ravel.len() == shape.count());
    let text = print(alloc, &Array::ints(shape, ravel), 30)?;
    assert!(rt;
        text.as_str()
            == " 1  2  3  4  5  6  7  8  9 10\n      11 12 13 14 15\n16 17 18 19 20 21 22 23 24 25\n      26 27 28 29 30\n"
    );
    Ok(())
}

#[test]
fn refused_read(rt: HostRuntime) -> Result<(), Fail> {
    match read(rt.alloc(), "A←2 3 4+×/(B[1;2])⍴'TEXT' ⍝ TOLD".as_bytes())? {
        Line::Statement(_) => Ok(()),
        _ => Err(Fail::new("a statement is read")),
    }
}

/// A line with an unlisted symbol is answered with no memory.
#[test]
fn never_refused_line(rt: HostRuntime) {
    let alloc = rt.alloc();
    let pool = Pool::new(64, Every(1), Door::Open);
    let mut room = [0; 64];
    let mut sink = Out::new(room.as_mut_slice());
    let mut session = Session::new(alloc);
    let outcome = session.line(&rt, alloc, &pool, "2○3".as_bytes(), &mut sink);
    let text = "CHARACTER ERROR\n      2\n       ∧\n".as_bytes();
    assert!(rt; outcome == Ok(Next::Go) && room.starts_with(text));
}
