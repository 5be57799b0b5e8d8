//! Rows of places, each of which is folded by itself.
ghost use Rattle.std.specs.Prelude.{◌≡◌, ℕ, ◌*◌, ◌<◌, ◌≤◌, Result};

use crate::kernel::{Fault, Kernel, MOST_PLACES, Stop};

/// Rows with as many places each: a value or a fault at each place of a row.
pub trait Rows {
    ghost use Rattle.apl_pool.specs.declared.kernel.Fault.{Fault};

    /// The type of the values.
    type Out;

    // How many rows there are.
    ghost row_count: { Self → ℕ };

    // How many places each row has.
    ghost place_count: { Self → ℕ };

    // The value or the fault at a place of a row.
    ghost outcome: { Self → ℕ → ℕ → Result Self.Out Fault };

    /// How many rows there are.
    fn rows(&self) -> usize
        ensures { result ≡ row_count self.now };

    /// How many places each row has.
    fn count(&self) -> usize
        ensures value { result ≡ place_count self.now }
        ensures most { result ≤ MOST_PLACES }
        ensures all { row_count self.now * result ≤ MOST_PLACES };

    /// The value or the fault at a place of a row: a function of these alone. It takes no memory.
    fn at(&self, row: usize, place: usize) -> Result<Self::Out, Fault>
        requires row { row < row_count self.now }
        requires place { place < place_count self.now }
        ensures { result ≡ outcome self.now row place };
}

/// One of several rows.
#[derive(Drop)]
pub(crate) struct Row<'a, K: Rows> {
    pub rows: &'a K,
    pub row: usize,
    ghost within: { row < K.row_count rows.now },
}

impl<X, K: Rows<Out = X>> Kernel for Row<'_, K> {
    type Out = X;

    ghost place_count = { λ k. K.place_count k.rows.now };

    ghost outcome = { λ k. K.outcome k.rows.now k.row };

    fn count(&self) -> usize {
        self.rows.count()
    }

    #[inline(always)]
    fn at(&self, place: usize) -> Result<X, Fault> {
        self.rows.at(self.row, place)
    }
}

/// A kernel as the only row.
#[derive(Drop)]
pub(crate) struct OneRow<'a, K: Kernel> {
    pub kernel: &'a K,
}

impl<X, K: Kernel<Out = X>> Rows for OneRow<'_, K> {
    type Out = X;

    ghost row_count = { λ r. 1 };

    ghost place_count = { λ r. K.place_count r.kernel.now };

    ghost outcome = { λ r row. K.outcome r.kernel.now };

    fn rows(&self) -> usize {
        1
    }

    fn count(&self) -> usize {
        self.kernel.count()
    }

    #[inline(always)]
    fn at(&self, _row: usize, place: usize) -> Result<X, Fault> {
        self.kernel.at(place)
    }
}

/// The summaries of the rows before the first that has none, and why that has none.
#[derive(Drop)]
pub struct RowSummaries<S> {
    /// The summaries of the rows from the first on.
    pub summaries: Vec<S>,
    /// `Ok` if each row has one.
    pub end: Result<(), Stop>,
}
