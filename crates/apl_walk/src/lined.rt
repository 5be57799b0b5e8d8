//! Results that are made line by line.
ghost use Rattle.std.specs.Prelude.{◌≡◌, ℕ, max, ◌+◌, ◌-◌, ◌*◌, ◌/◌, ◌%◌, ◌<◌, ◌≤◌, Ok, length};
ghost use Rattle.apl_pool.specs.declared.kernel.TheConstants.{MOST_PLACES};
ghost use Rattle.apl_walk.specs.Steps.{BeginsWith};
ghost use Rattle.apl_walk.specs.Columns.{HasColumns};

use apl_divisor::Divisor;
use apl_pool::{Fault, Kernel, Reused, USUAL_PIECE};

/// What there is at each index of lines that are equally long.
pub trait Lined {
    /// What there is at an index.
    type Out;

    /// What is known where a line begins, and carried on to the next line.
    type Start: Copy;

    // How many places all lines have: the last line may end early.
    ghost place_count: { Self → ℕ };

    // How many indexes a line has.
    ghost extent: { Self → ℕ };

    // What there is at an index of a line.
    ghost value: { Self → ℕ → ℕ → Self.Out };

    // Whether this is what is known where a line begins.
    ghost is_start: { Self → ℕ → Self.Start → Type 0 };

    fn count(&self) -> usize
        ensures value { result ≡ place_count self.now }
        ensures most { result ≤ MOST_PLACES };

    fn extent(&self) -> usize
        ensures value { result ≡ extent self.now }
        ensures some { 0 < result }
        ensures most { result ≤ MOST_PLACES };

    /// How many places are to be a piece, as `Kernel::piece` has it.
    fn piece(&self) -> usize {
        USUAL_PIECE
    }

    /// About how much work all values are, if they are numbers.
    fn work(&self) -> usize {
        self.count()
    }

    /// How many indexes of a line are written before those of the next one.
    fn tile(&self) -> usize
        ensures { 0 < result }
    {
        self.extent()
    }

    fn at(&self, line: usize, index: usize) -> Self::Out
        requires line { line ≤ MOST_PLACES }
        requires index { index < extent self.now }
        requires place { line * extent self.now + index < place_count self.now }
        ensures { result ≡ value self.now line index };

    fn start_of(&self, line: usize) -> Self::Start
        requires { line ≤ MOST_PLACES }
        ensures { is_start self.now line result };

    /// The start of the line after this one.
    fn next_start(&self, line: usize, start: Self::Start) -> Self::Start
        requires line { line < MOST_PLACES }
        requires start { is_start self.now line start }
        ensures { is_start self.now (line + 1) result };

    /// Writes the values at `count` indexes from `from` on to the front of a room.
    fn write(
        &self,
        line: usize,
        start: Self::Start,
        from: usize,
        count: usize,
        room: &mut [Self::Out],
    )
        requires line { line ≤ MOST_PLACES }
        requires start { is_start self.now line start }
        requires within { from + count ≤ extent self.now }
        requires places { line * extent self.now + (from + count) ≤ place_count self.now }
        requires room { count ≤ length room.old }
        ensures values { BeginsWith (λ k. value self.now line (from + k)) count room.new }
        ensures len { length room.new ≡ length room.old };
}

/// The places of lines, one line after the other. Where a tile is less than a line, the same tile of
/// several lines is written before the next.
#[derive(Drop)]
pub struct ByLines<L: Lined> {
    pub lines: L,
    pub extent: Divisor,
    pub count: usize,
    pub tile: usize,
    ghost line: { extent ≡ L.extent lines },
    ghost all: { count ≡ L.place_count lines },
    ghost most: { count ≤ MOST_PLACES },
    ghost some: { 0 < tile },
}

impl<L: Lined> ByLines<L> {
    pub fn new(lines: L) -> ByLines<L>
        ensures { result.lines ≡ lines }
    {
        let extent = lines.extent();
        ByLines {
            extent: Divisor::new(extent),
            count: lines.count(),
            tile: lines.tile(),
            lines,
        }
    }

    /// The first place from `from` on whose index is from `first` up to before `end`, as its line and its index.
    #[inline(always)]
    fn begin(&self, from: usize, first: usize, end: usize) -> (usize, usize)
        requires most { from ≤ MOST_PLACES }
        requires order { first < end }
        requires within { end ≤ L.extent self.now.lines }
        ensures end { result.1 < end }
        ensures low { from ≤ result.0 * L.extent self.now.lines + result.1 }
        ensures few { result.0 ≤ from }
        ensures most { result.0 * L.extent self.now.lines ≤ from + L.extent self.now.lines }
        ensures once { result.0 * L.extent self.now.lines + result.1 ≤ max from (result.0 * L.extent self.now.lines + first) }
        ensures earlier { (place : ℕ) → from ≤ place → place < result.0 * L.extent self.now.lines → end ≤ place % L.extent self.now.lines }
    {
        let line = self.extent.quotient(from);
        let index = self.extent.remainder(from);
        if index < end {
            (line, index.max(first))
        } else {
            (line + 1, first)
        }
    }

    /// Writes, line by line, the values at those places of a run whose indexes are from `first` up to before `end`.
    #[inline(always)]
    fn write_columns(&self, from: usize, to: usize, first: usize, end: usize, room: &mut [L::Out])
        requires places { to ≤ L.place_count self.now.lines }
        requires most { to ≤ MOST_PLACES }
        requires room { from + length room.old ≡ to }
        requires order { first < end }
        requires within { end ≤ L.extent self.now.lines }
        requires before { HasColumns (L.value self.now.lines) (L.extent self.now.lines) from to first room.old }
        ensures values { HasColumns (L.value self.now.lines) (L.extent self.now.lines) from to end room.new }
        ensures len { length room.new ≡ length room.old }
    {
        let extent = self.extent.number();
        let (mut line, mut index) = self.begin(from, first, end);
        let mut start = self.lines.start_of(line);
        let mut place = line * extent + index;
        while place < to {
            let count = (end - index).min(to - place);
            let done = place - from;
            // The first tiles of lines come before all others, so that they may write past their own places.
            let end_of_room = if first == 0 { room.len() } else { done + count };
            let rest = &mut room[done..end_of_room];
            self.lines.write(line, start, index, count, rest);
            start = self.lines.next_start(line, start);
            line += 1;
            index = first;
            place = line * extent + index;
        }
    }
}

impl<L: Lined> Kernel for ByLines<L>
where
    L::Out: Reused,
{
    type Out = L::Out;

    ghost place_count = { λ k. L.place_count k.lines };

    ghost outcome = { λ k place. Ok (L.value k.lines (place / L.extent k.lines) (place % L.extent k.lines)) };

    fn count(&self) -> usize {
        self.count
    }

    fn piece(&self) -> usize {
        self.lines.piece()
    }

    fn work(&self) -> usize {
        self.lines.work() / L::Out::PER_NUMBER.max(1)
    }

    fn at(&self, place: usize) -> Result<L::Out, Fault> {
        let line = self.extent.quotient(place);
        Ok(self.lines.at(line, self.extent.remainder(place)))
    }

    fn write_run(&self, from: usize, to: usize, room: &mut [L::Out]) -> usize {
        let extent = self.extent.number();
        if self.tile >= extent {
            self.write_columns(from, to, 0, extent, room);
            return to;
        }
        let mut first = 0;
        while first < extent {
            let end = first + self.tile.min(extent - first);
            self.write_columns(from, to, first, end, room);
            first = end;
        }
        to
    }
}
