//! Axes whose indexes follow one another in the argument as well.
ghost use Rattle.std.specs.Prelude.{◌≡◌, ◌+◌, ◌-◌, ◌*◌, ◌<◌, ◌≤◌, length};
ghost use Rattle.apl_pool.specs.declared.kernel.TheConstants.{MOST_PLACES};
ghost use Rattle.apl_walk.specs.declared.map.TheConstants.{MOST_STEP};
ghost use Rattle.apl_walk.specs.Gathered.{value_or};
ghost use Rattle.apl_walk.specs.Steps.{window_step, BeginsWith};

use crate::fronts::{write_same, write_stretch};
use crate::map::{AxisMap, MOST_STEP};

/// Index i, from `from` up to before `to`, adds i + start - from strides. At the others there is no
/// place.
#[derive(Clone, Copy)]
pub struct Window {
    pub extent: usize,
    pub from: usize,
    pub to: usize,
    pub start: usize,
    pub stride: usize,
    ghost extent_some: { 0 < extent },
    ghost extent_most: { extent ≤ MOST_PLACES },
    ghost from_most: { from ≤ extent },
    ghost to_most: { to ≤ extent },
    ghost start_most: { start ≤ MOST_STEP },
    ghost start_near: { start * stride ≤ MOST_STEP },
    ghost end_near: { (to + start) * stride ≤ from * stride + MOST_STEP },
}

impl Window {
    ghost use Rattle.std.specs.Prelude.{◌↔◌, IsTrue, ℕ, ◌%◌, Some, IfSome};
    ghost use Rattle.apl_walk.specs.Maps.{step_of, windows_step};

    /// The window of an axis whose indexes each take their own.
    pub fn whole(extent: usize, stride: usize) -> Window
        requires some { 0 < extent }
        requires most { extent ≤ MOST_PLACES }
        requires near { extent * stride ≤ MOST_STEP }
        ensures extent { result.extent ≡ extent }
        ensures step { (i : ℕ) → i < extent → step_of result i ≡ Some (i * stride) }
    {
        Window {
            extent,
            from: 0,
            to: extent,
            start: 0,
            stride,
        }
    }

    /// Whether each index takes its own.
    pub(crate) fn is_whole(&self) -> bool
        ensures { IsTrue result ↔ ((self.now.from ≡ 0) × (self.now.start ≡ 0) × (self.now.to ≡ self.now.extent)) }
    {
        self.from == 0 && self.start == 0 && self.to == self.extent
    }

    /// The window of this axis and the next as one axis, where a step along this one is one past the end of the next.
    pub(crate) fn joined(&self, inner: &Window) -> Option<Window>
        requires { self.now.extent * inner.now.extent ≤ MOST_PLACES }
        ensures extent { IfSome result (λ w. w.extent ≡ self.now.extent * inner.now.extent) }
        ensures step { IfSome result (λ w. (place : ℕ) → step_of w (place % w.extent) ≡ windows_step self.now inner.now place) }
    {
        if !inner.is_whole() || inner.stride == 0 || self.stride != inner.stride * inner.extent {
            return None;
        }
        let count = inner.extent;
        Some(Window {
            extent: self.extent * count,
            from: self.from * count,
            to: self.to * count,
            start: self.start * count,
            stride: inner.stride,
        })
    }

    /// Writes the elements of indexes that each have a place.
    #[inline(always)]
    fn write_within<T: Copy>(&self, line: &[T], from: usize, count: usize, fill: T, room: &mut [T])
        requires from { self.now.from ≤ from }
        requires to { from + count ≤ self.now.to }
        requires near { (self.now.to + self.now.start - (self.now.from + 1)) * self.now.stride < length line.now }
        requires room { count ≤ length room.old }
        ensures values { BeginsWith (λ k. value_or line.now fill (window_step self.now.from self.now.to self.now.start self.now.stride (from + k))) count room.new }
        ensures len { length room.new ≡ length room.old }
    {
        if count == 0 {
            return;
        }
        let first = (from + self.start - self.from) * self.stride;
        write_stretch(&line[first..], self.stride, count, room);
    }
}

impl AxisMap for Window {
    ghost extent = { λ w. w.extent };

    ghost reach = { λ w. (w.to + w.start - (w.from + 1)) * w.stride };

    ghost step = { λ w i. window_step w.from w.to w.start w.stride i };

    #[inline(always)]
    fn extent(&self) -> usize {
        self.extent
    }

    fn reach(&self) -> usize {
        (self.to + self.start).saturating_sub(self.from + 1) * self.stride
    }

    #[inline(always)]
    fn step(&self, i: usize) -> Option<usize> {
        if self.from <= i && i < self.to {
            Some((i + self.start - self.from) * self.stride)
        } else {
            None
        }
    }

    fn is_spread(&self) -> bool {
        self.stride >= 8
    }

    #[inline(always)]
    fn write_line<T: Copy>(&self, line: &[T], from: usize, count: usize, fill: T, room: &mut [T]) {
        let to = from + count;
        if self.from <= from && to <= self.to {
            return self.write_within(line, from, count, fill, room);
        }
        let first = self.from.max(from).min(to);
        let end = self.to.min(to).max(first);
        write_same(fill, first - from, room);
        if first < end {
            let middle = &mut room[first - from..];
            self.write_within(line, first, end - first, fill, middle);
        }
        write_same(fill, to - end, &mut room[end - from..]);
    }
}
