//! The ends of the deques that one worker has: its own, and one of each other worker's.
ghost use Rattle.std.specs.Prelude.{◌≡◌, ◌<◌, vec_len};

use crate::shares::Shares;
use apl_yard::{Hand, Taken, Thief, Yard};
use std::alloc::{AllocError, Global};

/// The most tries to take a piece from another worker's deque before the next one's turn.
const MOST_TRIES: u8 = 8;

/// A worker's own deque, and thieves' ends of the others', those of the workers above it first.
#[derive(Drop)]
pub(crate) struct Ends {
    own: Hand,
    others: Vec<Thief>,
}

impl Ends {
    /// The next piece: from the worker's own deque, or else from another one. `None` ends the worker's part.
    pub(crate) fn next(&mut self) -> Option<u32> {
        match self.own.pop() {
            Some(number) => Some(number),
            None => self.steal_any(),
        }
    }

    /// A piece of another worker's deque, after one round of tries.
    fn steal_any(&mut self) -> Option<u32> {
        for thief in self.others.iter_mut() {
            if let Some(number) = steal(thief) {
                return Some(number);
            }
        }
        None
    }
}

/// A piece of one other deque.
fn steal(thief: &mut Thief) -> Option<u32> {
    for _ in 0..MOST_TRIES {
        match thief.steal() {
            Taken::Piece(number) => return Some(number),
            Taken::Nothing => return None,
            Taken::Busy => {}
        }
    }
    None
}

/// A deque with all pieces of a worker's share, and as many thieves' ends.
fn filled(
    alloc: Global,
    shares: &Shares,
    task: usize,
    thieves: u8,
) -> Result<(Hand, Vec<Thief>), AllocError>
    requires { task < shares.now.tasks }
{
    let share = shares.share(task);
    let (mut hand, ends) = Yard::new(alloc, (share.to - share.from) as u32, thieves)?;
    for number in share.from..share.to {
        if hand.push(number as u32).is_err() {
            break;
        }
    }
    Ok((hand, ends))
}

/// The ends that each worker who has a share gets, of deques that are filled with the workers' pieces.
pub(crate) fn deal(alloc: Global, shares: &Shares) -> Result<Vec<Ends>, AllocError> {
    let tasks = shares.tasks();
    let mut ends = Vec::with_capacity(alloc, tasks)?;
    let mut thieves = Vec::with_capacity(alloc, tasks)?;
    for task in 0..tasks {
        let (own, spare) = filled(alloc, shares, task, (tasks - 1) as u8)?;
        let others = Vec::with_capacity(alloc, tasks - 1)?;
        ends.push(Ends { own, others })?;
        thieves.push(spare)?;
    }
    for step in 1..tasks {
        hand_out(&mut ends, &mut thieves, step)?;
    }
    Ok(ends)
}

/// Gives each worker an end of the deque of the worker who is `step` above it. After the last worker comes the first.
fn hand_out(
    ends: &mut Vec<Ends>,
    thieves: &mut Vec<Vec<Thief>>,
    step: usize,
) -> Result<(), AllocError>
    requires { step < vec_len thieves.old }
    ensures { vec_len thieves.new ≡ vec_len thieves.old }
{
    let lower = thieves.len() - step;
    for task in 0..ends.len() {
        let above = if task < lower {
            task + step
        } else {
            task - lower
        };
        if let (Some(mine), Some(spare)) = (ends.get_mut(task), thieves.get_mut(above)) {
            if let Some(thief) = spare.pop() {
                mine.others.push(thief)?;
            }
        }
    }
    Ok(())
}
