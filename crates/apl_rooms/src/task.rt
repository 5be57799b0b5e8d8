//! What is written into the room of each piece.
ghost use Rattle.std.specs.Prelude.{◌≡◌, ℕ, ◌+◌, ◌-◌, ◌<◌, ◌≤◌, List, OnOk, length};

/// Values in pieces, one after the other. A task is lent to all threads, and each piece may be written by any of them.
pub trait Task<T> {
    // How many pieces there are.
    ghost piece_count: { Self → ℕ };

    // Where each piece begins, and, at the number of pieces, where the last one ends.
    ghost start_of: { Self → ℕ → ℕ };

    // Whether these are the values of a piece.
    ghost is_right: { Self → ℕ → List T → Type 0 };

    /// How many pieces there are.
    fn count(&self) -> usize
        ensures { result ≡ piece_count self.now };

    /// Where the piece with this number begins or, at the number of pieces, where the last one ends. The first begins at 0.
    fn start(&self, number: usize) -> usize
        requires { number ≤ piece_count self.now }
        ensures start { result ≡ start_of self.now number }
        ensures first { number ≡ 0 → result ≡ 0 }
        ensures within { result ≤ start_of self.now (piece_count self.now) }
        ensures order { 0 < number → start_of self.now (number - 1) ≤ result };

    /// Writes the values of a piece over what is in its places. If there is no value at one of them, it answers this place,
    /// and then any values may be in the others. `Rooms::fill` takes memory and waits only if this does.
    fn write(&self, number: usize, values: &mut [T]) -> Result<(), u32>
        requires number { number < piece_count self.now }
        requires room { start_of self.now number + length values.old ≡ start_of self.now (number + 1) }
        ensures right { OnOk result (is_right self.now number values.new) }
        ensures len { length values.new ≡ length values.old };
}
