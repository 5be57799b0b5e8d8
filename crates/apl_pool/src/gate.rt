//! What a worker passes before it begins a piece.

/// A gate has no effect on answers.
pub trait Gate {
    /// A worker calls this before it begins a piece. Workers and pieces are counted from 0.
    fn pass(&self, worker: u8, piece: u32);
}

/// A gate that does nothing.
#[derive(Clone, Copy, Debug, PartialEq, Eq)]
pub struct Open;

impl Gate for Open {
    fn pass(&self, _worker: u8, _piece: u32) {}
}

impl<G: Gate> Gate for &G {
    fn pass(&self, worker: u8, piece: u32) {
        (**self).pass(worker, piece);
    }
}
