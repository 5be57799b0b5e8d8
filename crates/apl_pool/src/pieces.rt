//! The pieces of a pass.
ghost use Rattle.std.specs.Prelude.{◌≡◌, ℕ, ◌+◌, ◌-◌, ◌<◌, ◌≤◌, max, IfOk, slice_index, vec_len};
ghost use Rattle.apl_pool.specs.declared.kernel.TheConstants.{MOST_PLACES};
ghost use Rattle.apl_pool.specs.Parts.{AreBounds};

use crate::cut::Cut;
use crate::kernel::MOST_PLACES;
use std::alloc::{AllocError, Global};

/// The place after the piece that begins at `start`, of `count` places.
pub(crate) fn piece_end<C: Cut>(cut: &C, start: usize, count: usize) -> usize
    requires { start < count }
    ensures after { start < result }
    ensures within { result ≤ count }
{
    let rest = count - start;
    start + cut.first(start, rest).max(1).min(rest)
}

/// The number of a piece, and its places: those from `from` up to before `to`.
#[derive(Clone, Copy)]
pub(crate) struct Piece {
    pub number: u32,
    pub from: usize,
    pub to: usize,
}

impl Piece {
    /// The places of this piece and of those after it up to before the next one, but the first `done` places.
    pub(crate) fn between(self, done: usize, next: Piece) -> Piece
        ensures number { result.number ≡ self.number }
        ensures from { result.from ≡ max self.from done }
        ensures to { result.to ≡ next.from }
    {
        Piece {
            number: self.number,
            from: self.from.max(done),
            to: next.from,
        }
    }
}

/// All places cut into pieces. The cut was asked once for each piece.
#[derive(Drop)]
pub(crate) struct Pieces {
    places: usize,
    count: usize,
    starts: Vec<u32>,
    ghost some: { 0 < count },
    ghost few: { count ≤ places },
    ghost most_places: { places ≤ MOST_PLACES },
    ghost starts_are: { AreBounds count places starts.items },
}

impl Pieces {
    /// The pieces of `places` places, of which the first ends at `end`. They take 4 bytes each, in a list that grows.
    pub(crate) fn new<C: Cut>(
        alloc: Global,
        cut: &C,
        places: usize,
        end: usize,
    ) -> Result<Pieces, AllocError>
        requires some { 0 < end }
        requires within { end ≤ places }
        requires most { places ≤ MOST_PLACES }
        ensures { IfOk result (λ pieces. pieces.places ≡ places) }
    {
        let mut starts = Vec::new(alloc);
        starts.push(0u32)?;
        starts.push(end as u32)?;
        let mut start = end;
        while start < places {
            start = piece_end(cut, start, places);
            starts.push(start as u32)?;
        }
        Ok(Pieces {
            places,
            count: starts.len() - 1,
            starts,
        })
    }

    /// How many places there are.
    pub(crate) fn places(&self) -> usize
        ensures { result ≡ self.now.places }
    {
        self.places
    }

    /// How many pieces there are.
    pub(crate) fn count(&self) -> usize
        ensures { result ≡ self.now.count }
    {
        self.count
    }

    /// Where the piece with this number begins or, at the number of pieces, where the last one ends.
    pub(crate) fn start(&self, number: usize) -> usize
        requires { number ≤ self.now.count }
        ensures start { result ≡ slice_index self.now.starts.items number }
        ensures within { result ≤ self.now.places }
    {
        self.starts[number] as usize
    }

    /// The piece with this number.
    pub(crate) fn piece(&self, number: usize) -> Piece
        requires { number < self.now.count }
        ensures number { result.number ≡ number }
        ensures from { result.from ≡ slice_index self.now.starts.items number }
        ensures to { result.to ≡ slice_index self.now.starts.items (number + 1) }
        ensures order { result.from ≤ result.to }
        ensures within { result.to ≤ self.now.places }
    {
        Piece {
            number: number as u32,
            from: self.start(number),
            to: self.start(number + 1),
        }
    }

    /// The piece with this number, under another number.
    pub(crate) fn piece_as(&self, number: usize, told: u32) -> Piece
        requires { number < self.now.count }
        ensures from { result.from ≡ slice_index self.now.starts.items number }
        ensures to { result.to ≡ slice_index self.now.starts.items (number + 1) }
        ensures order { result.from ≤ result.to }
        ensures within { result.to ≤ self.now.places }
    {
        let piece = self.piece(number);
        Piece {
            number: told,
            from: piece.from,
            to: piece.to,
        }
    }
}
