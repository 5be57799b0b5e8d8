//! Four values of a kind.
ghost use Rattle.std.specs.Prelude.{◌≡◌, ◌+◌, ◌*◌, ◌<◌, ◌≤◌, ◌^◌, length, slice_index_or};
ghost use Rattle.apl_reduce.specs.FourFolds.{AreNeighbours};

/// A value for each of four runs of neighbours, which are read side by side. Memory gives four streams faster than one.
#[derive(Clone, Copy)]
pub(crate) struct Four<T> {
    pub first: T,
    pub second: T,
    pub third: T,
    pub fourth: T,
}

/// Where the quarters of a run begin.
#[inline(always)]
pub(crate) fn quarters(first: usize, quarter: usize) -> Four<usize>
    requires { first + 4 * quarter < 2 ^ 64 }
    ensures first { result.first ≡ first }
    ensures second { result.second ≡ first + quarter }
    ensures third { result.third ≡ first + 2 * quarter }
    ensures fourth { result.fourth ≡ first + 2 * quarter + quarter }
{
    let third = first + 2 * quarter;
    Four {
        first,
        second: first + quarter,
        third,
        fourth: third + quarter,
    }
}

/// Puts four values on the first places of a room.
#[inline(always)]
pub(crate) fn put_four<T: Copy>(four: Four<T>, room: &mut [T])
    requires { 4 ≤ length room.old }
    ensures values { (d : T) → AreNeighbours (λ k. slice_index_or room.new k d) 0 four }
    ensures len { length room.new ≡ length room.old }
{
    room[0] = four.first;
    room[1] = four.second;
    room[2] = four.third;
    room[3] = four.fourth;
}
