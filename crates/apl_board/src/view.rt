//! What the rule of a board speaks of.
use std::collections::LinkedList;

/// The most shares that a board's seats have together.
pub const MOST_SHARES: u8 = 64;

/// The word of the board's table that has the next number.
pub(crate) const NEXT: usize = 0;

/// The word that has the least place.
pub(crate) const LEAST: usize = 1;

/// The least place while nothing was reported.
pub(crate) const NOWHERE: u64 = 1 << 32;

/// How many pieces a board has, and how many shares its seats have together.
#[derive(Clone, Copy)]
pub(crate) struct Extent {
    pub pieces: u32,
    pub seats: u8,
}

/// What a seat knows, for contracts alone: no value of it is ever made.
pub(crate) struct View {
    /// How many pieces the board has.
    pub pieces: u32,
    /// How many shares all seats of the board have together.
    pub seats: u8,
    /// How many of them this seat has: 0 once it was joined to another.
    pub share: u8,
    /// The numbers that it was given, in order.
    pub given: LinkedList<u32>,
    /// The places that it reported, in order.
    pub reported: LinkedList<u32>,
    /// The least places that it saw, in order.
    pub seen: LinkedList<u32>,
    /// Whether it knows that no piece is left.
    pub told: bool,
    /// How many of its steps took a number past the end, where there is no piece.
    pub past: u8,
}
