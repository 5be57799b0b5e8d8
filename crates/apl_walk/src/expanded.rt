//! An axis that takes the next index where a truth value is true, and has a fill elsewhere.
ghost use Rattle.std.specs.Prelude.{◌≡◌, ◌+◌, ◌-◌, ◌*◌, ◌<◌, ◌≤◌, length};
ghost use Rattle.apl_walk.specs.declared.expanded.TheConstants.{GROUP};
ghost use Rattle.apl_walk.specs.declared.map.TheConstants.{MOST_STEP};
ghost use Rattle.apl_walk.specs.Ones.{expanded_value, next_step, ones_before, HasNext};
ghost use Rattle.apl_walk.specs.Steps.{BeginsWith};

use crate::counted::CountedBits;
use crate::map::{AxisMap, MOST_STEP};

/// How many elements are read before one of them is written.
const GROUP: usize = 8;

/// The next index at each one, of an axis whose neighbours are `stride` apart, and a fill at each zero.
#[derive(Clone, Copy)]
pub struct Expanded<'a> {
    pub counted: CountedBits<'a>,
    pub stride: usize,
    ghost some: { 0 < length counted.bits.now },
    ghost near: { counted.count * stride ≤ MOST_STEP },
}

impl Expanded<'_> {
    /// The number of a one, or that of the last one where there are no more.
    #[inline(always)]
    fn nearest(self, number: usize) -> usize
        ensures most { result ≤ self.entry.counted.count - 1 }
        ensures same { number < self.entry.counted.count → result ≡ number }
    {
        self.counted.count.saturating_sub(1).min(number)
    }

    /// Reads the next elements at the ones among the truth values from index `first` on into a group. `before` ones are before them, and it
    /// answers how many are before the index after them. What is read at a zero does not matter.
    #[inline(always)]
    fn read_next<T: Copy>(self, line: &[T], first: usize, before: usize, group: &mut [T]) -> usize
        requires within { first + length group.old ≤ length self.counted.bits.now }
        requires near { (self.counted.count - 1) * self.stride < length line.now }
        requires before { before ≡ ones_before self.counted.bits.now first }
        ensures read { HasNext self.entry.counted.bits.now line.now self.entry.stride first (length group.old) group.new }
        ensures before { result ≡ ones_before self.entry.counted.bits.now (first + length group.old) }
        ensures len { length group.new ≡ length group.old }
    {
        let mut ones = before;
        for k in 0..group.len() {
            group[k] = line[self.nearest(ones) * self.stride];
            ones += self.counted.bits[first + k] as usize;
        }
        ones
    }

    /// Writes the next group of a line's elements, after the first `done` of the room. `before` ones are before them, and it answers how many
    /// are before the next group. All are read before one is written. So no jump depends on a bit, which no processor can foresee.
    #[inline(always)]
    fn write_group<T: Copy>(
        self,
        line: &[T],
        from: usize,
        done: usize,
        before: usize,
        fill: T,
        room: &mut [T],
    ) -> usize
        requires within { from + done + GROUP ≤ length self.counted.bits.now }
        requires near { (self.counted.count - 1) * self.stride < length line.now }
        requires room { done + GROUP ≤ length room.old }
        requires before { before ≡ ones_before self.counted.bits.now (from + done) }
        requires written { BeginsWith (λ k. expanded_value self.counted.bits.now line.now self.stride fill (from + k)) done room.old }
        ensures written { BeginsWith (λ k. expanded_value self.entry.counted.bits.now line.now self.entry.stride fill (from + k)) (done + GROUP) room.new }
        ensures before { result ≡ ones_before self.entry.counted.bits.now (from + done + GROUP) }
        ensures len { length room.new ≡ length room.old }
    {
        let mut group = [fill; GROUP];
        let after = self.read_next(line, from + done, before, &mut group);
        for k in 0..GROUP {
            let is_one = self.counted.bits[from + done + k];
            room[done + k] = if is_one { group[k] } else { fill };
        }
        after
    }

    /// The next element at a one, and the fill at a zero. `before` ones are before it.
    #[inline(always)]
    fn next_or<T: Copy>(self, line: &[T], index: usize, before: usize, fill: T) -> T
        requires within { index < length self.counted.bits.now }
        requires near { (self.counted.count - 1) * self.stride < length line.now }
        requires before { before ≡ ones_before self.counted.bits.now index }
        ensures { result ≡ expanded_value self.entry.counted.bits.now line.now self.entry.stride fill index }
    {
        if self.counted.bits[index] {
            line[before * self.stride]
        } else {
            fill
        }
    }

    /// Writes the last elements of a line one by one, after the first `done` of the room. `before` ones are before them.
    #[inline(always)]
    fn write_rest<T: Copy>(
        self,
        line: &[T],
        from: usize,
        done: usize,
        count: usize,
        before: usize,
        fill: T,
        room: &mut [T],
    )
        requires order { done ≤ count }
        requires within { from + count ≤ length self.counted.bits.now }
        requires near { (self.counted.count - 1) * self.stride < length line.now }
        requires room { count ≤ length room.old }
        requires before { before ≡ ones_before self.counted.bits.now (from + done) }
        requires written { BeginsWith (λ k. expanded_value self.counted.bits.now line.now self.stride fill (from + k)) done room.old }
        ensures written { BeginsWith (λ k. expanded_value self.entry.counted.bits.now line.now self.entry.stride fill (from + k)) count room.new }
        ensures len { length room.new ≡ length room.old }
    {
        let mut ones = before;
        for k in done..count {
            room[k] = self.next_or(line, from + k, ones, fill);
            ones += self.counted.bits[from + k] as usize;
        }
    }
}

impl AxisMap for Expanded<'_> {
    ghost extent = { λ e. length e.counted.bits.now };

    ghost reach = { λ e. (e.counted.count - 1) * e.stride };

    ghost step = { λ e i. next_step e.counted.bits.now e.stride i };

    #[inline(always)]
    fn extent(&self) -> usize {
        self.counted.bits.len()
    }

    fn reach(&self) -> usize {
        self.counted.count.saturating_sub(1) * self.stride
    }

    #[inline(always)]
    fn step(&self, i: usize) -> Option<usize> {
        if self.counted.bits[i] {
            Some(self.counted.count_before(i) * self.stride)
        } else {
            None
        }
    }

    #[inline(always)]
    fn write_line<T: Copy>(&self, line: &[T], from: usize, count: usize, fill: T, room: &mut [T]) {
        let axis = *self;
        let mut ones = axis.counted.count_before(from);
        let groups = count / GROUP;
        for group in 0..groups {
            ones = axis.write_group(line, from, group * GROUP, ones, fill, room);
        }
        axis.write_rest(line, from, groups * GROUP, count, ones, fill, room);
    }
}
