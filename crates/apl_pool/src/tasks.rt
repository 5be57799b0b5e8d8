//! What the workers of a pass write into the room of each piece: the values at its places, or a summary of them.
ghost use Rattle.std.specs.Prelude.{◌≡◌, ◌≤◌, ◌*◌, slice_index};
ghost use Rattle.apl_pool.specs.declared.kernel.TheConstants.{MOST_PLACES};
ghost use Rattle.apl_pool.specs.Parts.{AreValuesOfPiece};
ghost use Rattle.apl_pool.specs.Folds.{IsPieceOfRows};

use crate::folds::fold_places;
use crate::kernel::{Kernel, Stop};
use crate::pieces::Pieces;
use crate::rows::{Row, Rows};
use crate::summary::Summary;
use crate::work::write_piece;
use apl_rooms::Task;

/// The values of a kernel in pieces.
#[derive(Drop)]
pub(crate) struct Values<'a, K: Kernel> {
    pub kernel: &'a K,
    pub pieces: &'a Pieces,
    ghost all: { pieces.now.places ≡ K.place_count kernel.now },
}

impl<'a, T: Copy, K: Kernel<Out = T>> Task<T> for Values<'a, K> {
    ghost piece_count = { λ t. t.pieces.now.count };

    ghost start_of = { λ t n. slice_index t.pieces.now.starts.items n };

    ghost is_right = { λ t. AreValuesOfPiece (K.outcome t.kernel.now) t.pieces.now.starts.items };

    fn count(&self) -> usize {
        self.pieces.count()
    }

    fn start(&self, number: usize) -> usize {
        self.pieces.start(number)
    }

    fn write(&self, number: usize, values: &mut [T]) -> Result<(), u32> {
        let piece = self.pieces.piece(number);
        match write_piece(self.kernel, piece, values) {
            Ok(()) => Ok(()),
            Err(Stop::Fault { place, .. }) => Err(place),
            Err(Stop::Memory) => Err(0),
        }
    }
}

/// A summary of the items of each piece of each row, if there are some.
#[derive(Drop)]
pub(crate) struct Summaries<'a, K: Rows> {
    pub rows: &'a K,
    pub pieces: &'a Pieces,
    ghost all: { pieces.now.places ≡ K.place_count rows.now },
    ghost most: { K.row_count rows.now * pieces.now.places ≤ MOST_PLACES },
}

impl<'a, S: Summary + Drop, K: Rows<Out = S::Item>> Task<Option<S>> for Summaries<'a, K> {
    ghost piece_count = { λ t. K.row_count t.rows.now * t.pieces.now.count };

    ghost start_of = { λ t n. n };

    ghost is_right = { λ t. IsPieceOfRows S.step S.item_count S.outcome (K.outcome t.rows.now) (K.row_count t.rows.now) t.pieces.now.starts.items };

    fn count(&self) -> usize {
        self.rows.rows() * self.pieces.count()
    }

    fn start(&self, number: usize) -> usize {
        number
    }

    fn write(&self, number: usize, values: &mut [Option<S>]) -> Result<(), u32> {
        let piece = self.pieces.piece(number / self.rows.rows());
        let row = number % self.rows.rows();
        let kernel = Row {
            rows: self.rows,
            row,
        };
        match fold_places(&kernel, piece.from, piece.to) {
            Ok(folded) => {
                values[0] = folded;
                Ok(())
            }
            Err(Stop::Fault { place, .. }) => {
                Err((row * self.pieces.places() + place as usize) as u32)
            }
            Err(Stop::Memory) => Err(0),
        }
    }
}
