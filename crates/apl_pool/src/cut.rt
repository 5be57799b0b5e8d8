//! How the places are cut into pieces, and how much work is worth a thread.

/// A cutting of places. Any answers give one, since each is brought into `1..=rest`.
pub trait Cut {
    /// How many places the piece that begins at `start` has, if `rest` places are left from there on.
    /// In a pass it is asked once for each piece.
    fn first(&self, start: usize, rest: usize) -> usize;

    /// How much work each of several workers is to have at least, as `Kernel::work` counts it. By default a piece is enough.
    fn least_work(&self) -> usize {
        0
    }
}

/// Each piece but the last has this length, and is enough work for a thread.
#[derive(Clone, Copy, Debug, PartialEq, Eq)]
pub struct Every(pub usize);

impl Cut for Every {
    fn first(&self, _start: usize, _rest: usize) -> usize {
        self.0
    }
}

/// Each piece but the last has this length, and threads are started only for as much work as repays them. Who asks for shorter pieces than
/// usual wants several workers, so then each piece is enough work for a thread.
#[derive(Clone, Copy, Debug, PartialEq, Eq)]
pub struct Thrifty(pub usize);

/// The usual length of a piece. From it on a thread has to be repaid.
pub const USUAL_PIECE: usize = 4096;

/// One worker takes about as long for this work as the start of the others takes.
const LEAST_WORK: usize = 3 << 15;

impl Cut for Thrifty {
    fn first(&self, _start: usize, _rest: usize) -> usize {
        self.0
    }

    fn least_work(&self) -> usize {
        if self.0 < USUAL_PIECE { 0 } else { LEAST_WORK }
    }
}

/// A cutting whose pieces are longer or shorter in proportion: one of the usual length has `piece` places.
#[derive(Drop)]
pub(crate) struct Scaled<'a, C> {
    pub cut: &'a C,
    pub piece: usize,
}

impl<C: Cut> Cut for Scaled<'_, C> {
    fn first(&self, start: usize, rest: usize) -> usize {
        self.cut.first(start, rest).saturating_mul(self.piece) / USUAL_PIECE
    }
}
