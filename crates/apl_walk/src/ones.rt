//! An axis that takes the indexes at which truth values are true.
ghost use Rattle.std.specs.Prelude.{◌≡◌, ℕ, ◌+◌, ◌-◌, ◌*◌, ◌<◌, ◌≤◌, length, slice_index_or};
ghost use Rattle.apl_walk.specs.declared.map.TheConstants.{MOST_STEP};
ghost use Rattle.apl_walk.specs.Ones.{one_index, one_step, ones_before, HasOnes};

use crate::counted::CountedBits;
use crate::map::{AxisMap, MOST_STEP};

/// How many truth values are gone over before a test whether the room is full.
const TURN: usize = 8;

/// The indexes of the ones, of an axis whose neighbours are `stride` apart.
#[derive(Clone, Copy)]
pub struct Ones<'a> {
    pub counted: CountedBits<'a>,
    pub stride: usize,
    ghost some: { 0 < counted.count },
    ghost near: { length counted.bits.now * stride ≤ MOST_STEP },
}

/// Writes the elements at the ones among `count` truth values from index `first` on behind `done` others, and answers how many are written
/// then. What is written at a zero is written over by the next, so no jump depends on a bit, which no processor can foresee.
#[inline(always)]
fn write_few<T: Copy>(
    bits: &[bool],
    line: &[T],
    stride: usize,
    first: usize,
    count: usize,
    done: usize,
    room: &mut [T],
) -> usize
    requires within { first + count ≤ length bits.now }
    requires near { (length bits.now - 1) * stride < length line.now }
    requires room { done + count ≤ length room.old }
    requires before { HasOnes bits.now line.now stride first done room.old }
    ensures written { HasOnes bits.now line.now stride (first + count) result room.new }
    ensures count { result + ones_before bits.now first ≡ done + ones_before bits.now (first + count) }
    ensures most { result ≤ done + count }
    ensures len { length room.new ≡ length room.old }
{
    let mut written = done;
    for k in 0..count {
        room[written] = line[(first + k) * stride];
        written += bits[first + k] as usize;
    }
    written
}

/// The same, `turn` truth values at once, as long as there is room for as many. Answers the next index too.
#[inline(always)]
fn write_turns<T: Copy>(
    bits: &[bool],
    line: &[T],
    stride: usize,
    turn: usize,
    begin: (usize, usize),
    room: &mut [T],
) -> (usize, usize)
    requires some { 0 < turn }
    requires few { begin.1 ≤ length room.old }
    requires ones { ones_before bits.now begin.0 + length room.old ≤ ones_before bits.now (length bits.now) + begin.1 }
    requires near { (length bits.now - 1) * stride < length line.now }
    requires before { HasOnes bits.now line.now stride begin.0 begin.1 room.old }
    ensures written { HasOnes bits.now line.now stride result.0 result.1 room.new }
    ensures count { result.1 + ones_before bits.now begin.0 ≡ begin.1 + ones_before bits.now result.0 }
    ensures few { result.1 ≤ length room.old }
    ensures full { length room.old < result.1 + turn }
    ensures len { length room.new ≡ length room.old }
{
    let (mut i, mut done) = begin;
    while room.len() - done >= turn {
        done = write_few(bits, line, stride, i, turn, done, room);
        i += turn;
    }
    (i, done)
}

impl Ones<'_> {
    /// Writes elements at the next ones, as many as there is room for.
    #[inline(always)]
    fn write_ones<T: Copy>(&self, line: &[T], stride: usize, first: usize, room: &mut [T])
        requires ones { ones_before self.now.counted.bits.now first + length room.old ≤ self.now.counted.count }
        requires near { (length self.now.counted.bits.now - 1) * stride < length line.now }
        ensures each { (k : ℕ) (d : T) → k < length room.old → slice_index_or room.new k d ≡ slice_index_or line.now (one_index self.now.counted.bits.now (ones_before self.now.counted.bits.now first + k) * stride) d }
        ensures len { length room.new ≡ length room.old }
    {
        let bits = self.counted.bits;
        let begun = write_turns(bits, line, stride, TURN, (first, 0), room);
        write_turns(bits, line, stride, 1, begun, room);
    }
}

impl AxisMap for Ones<'_> {
    ghost extent = { λ o. o.counted.count };

    ghost reach = { λ o. (length o.counted.bits.now - 1) * o.stride };

    ghost step = { λ o i. one_step o.counted.bits.now o.stride i };

    #[inline(always)]
    fn extent(&self) -> usize {
        self.counted.count
    }

    fn reach(&self) -> usize {
        self.counted.bits.len().saturating_sub(1) * self.stride
    }

    fn step(&self, i: usize) -> Option<usize> {
        Some(self.counted.index(i) * self.stride)
    }

    #[inline(always)]
    fn write_line<T: Copy>(&self, line: &[T], from: usize, count: usize, _fill: T, room: &mut [T]) {
        let first = self.counted.index_after(from);
        let part = &mut room[..count];
        if self.stride == 1 {
            self.write_ones(line, 1, first, part);
        } else {
            self.write_ones(line, self.stride, first, part);
        }
    }
}
