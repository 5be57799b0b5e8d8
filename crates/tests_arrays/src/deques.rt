//! Deques of pieces: what an owner and thieves get, one after the other and at the same time.
use apl_yard::{Hand, Taken, Thief, Yard};
use std::alloc::{AllocError, Global};
use std::sync::atomic::{AtomicU64, Ordering};
use std::test::Fail;
use std::thread::{self, Threads};

/// The most tries of an end that takes in a loop.
const MOST_TRIES: usize = 1000;

#[test]
fn yard_one(rt: HostRuntime) -> Result<(), Fail> {
    let (mut hand, mut thieves) = Yard::new(rt.alloc(), 2, 1)?;
    let Some(mut thief) = thieves.pop() else {
        return Err(Fail::new("one thief is asked for"));
    };
    let (no_pop, no_steal) = (hand.pop(), thief.steal());
    let _ = hand.push(7);
    let _ = hand.push(8);
    let (first_steal, first_pop) = (thief.steal(), hand.pop());
    let (last_pop, last_steal) = (hand.pop(), thief.steal());
    assert!(rt; [no_pop, first_pop, last_pop] == [None, Some(8), None]);
    assert!(rt;
        [no_steal, first_steal, last_steal] == [Taken::Nothing, Taken::Piece(7), Taken::Nothing]
    );
    Ok(())
}

/// The piece that is one too many comes back, and room isn't given back by a piece that was taken.
#[test]
fn yard_full(rt: HostRuntime) -> Result<(), Fail> {
    for (capacity, wanted) in [
        (0, (Err(5), Err(6), None, Err(7))),
        (1, (Ok(()), Err(6), Some(5), Err(7))),
        (2, (Ok(()), Ok(()), Some(5), Err(7))),
        (3, (Ok(()), Ok(()), Some(5), Ok(()))),
    ] {
        let (mut hand, _) = Yard::new(rt.alloc(), capacity, 0)?;
        let answers = (hand.push(5), hand.push(6), hand.pop(), hand.push(7));
        assert!(rt; answers == wanted, "{capacity}");
    }
    Ok(())
}

/// Three threads wait here until each of them has come, or for long enough.
#[derive(Drop)]
struct Start {
    come: AtomicU64,
}

impl Start {
    fn meet(&self) {
        self.come.fetch_add(1, Ordering::SeqCst);
        for _ in 0..2_000_000_000u64 {
            if self.come.load(Ordering::SeqCst) >= 3 {
                return;
            }
        }
    }
}

/// What an end took, or out of memory.
type Pieces = Result<Vec<u32>, AllocError>;

/// The owner's share: it pushes `pieces` pieces, and takes until there is none, once the thieves have come.
fn push_and_pop(alloc: Global, start: &Start, hand: &mut Hand, pieces: u32) -> Pieces {
    let mut taken = Vec::new(alloc);
    for piece in 0..pieces {
        let _ = hand.push(piece);
    }
    start.meet();
    for _ in 0..MOST_TRIES {
        let Some(piece) = hand.pop() else { break };
        taken.push(piece)?;
    }
    Ok(taken)
}

/// A thief's share: it takes until there is nothing, once the pieces are pushed.
fn steal_all(alloc: Global, start: &Start, thief: &mut Thief) -> Pieces {
    let mut taken = Vec::new(alloc);
    start.meet();
    for _ in 0..MOST_TRIES {
        match thief.steal() {
            Taken::Piece(piece) => taken.push(piece)?,
            Taken::Nothing => break,
            Taken::Busy => {}
        }
    }
    Ok(taken)
}

/// How often each of 200 pieces is in one of these lists.
fn times(lists: [&Vec<u32>; 3]) -> [u8; 200] {
    let mut times = [0; 200];
    for list in lists {
        for piece in list {
            if let Some(count) = times.get_mut(*piece as usize) {
                *count = u8::saturating_add(*count, 1);
            }
        }
    }
    times
}

/// How often each of 200 pieces is taken by an owner, who pushes them first, and two thieves at the same time.
fn share_out<R: Threads + Sync>(rt: &R, alloc: Global) -> Result<[u8; 200], Fail> {
    let (mut hand, mut thieves) = Yard::new(alloc, 200, 2)?;
    let (Some(mut first), Some(mut second)) = (thieves.pop(), thieves.pop()) else {
        return Err(Fail::new("two thieves are asked for"));
    };
    let start = &Start {
        come: AtomicU64::new(0),
    };
    let (owner, (first, second)) = thread::join(
        rt,
        move || push_and_pop(alloc, start, &mut hand, 200),
        || {
            thread::join(
                rt,
                move || steal_all(alloc, start, &mut first),
                move || steal_all(alloc, start, &mut second),
            )
        },
    );
    Ok(times([&owner?, &first?, &second?]))
}

#[test]
fn yard_threads(rt: HostRuntime) -> Result<(), Fail> {
    for _ in 0..100 {
        assert!(rt; share_out(&rt, rt.alloc())? == [1; 200]);
    }
    Ok(())
}
