//! The axis that a function works along.
ghost use Rattle.std.specs.Prelude.{◌≡◌, pos, ◌≤ℤ◌, ◌<◌, ◌⊎◌, true, false, MatchOption};
ghost use Rattle.apl_array.specs.Axes.{origin_number, has_axis, axis_of};

/// The number of the first index: 0 or 1.
#[derive(Clone, Copy, Debug, PartialEq, Eq)]
pub enum Origin {
    Zero,
    One,
}

impl Origin {
    /// The number of the first index.
    pub fn number(self) -> i64
        ensures value { result ≡ pos (origin_number self) }
        ensures most { result ≤ℤ pos 1 }
        ensures least { pos 0 ≤ℤ result }
    {
        match self {
            Origin::Zero => 0,
            Origin::One => 1,
        }
    }
}

/// An axis argument.
#[derive(Clone, Copy, Debug, PartialEq, Eq)]
pub enum Axis {
    /// The first axis.
    First,
    /// The last axis.
    Last,
    /// The axis `number` less the origin, counted from 0.
    At { number: i64, origin: Origin },
}

impl Axis {
    /// The axis that it names among `rank` axes, counted from 0, if there is such an axis. The first
    /// and the last axis of a scalar are 0, though it has no lengths.
    pub fn resolve(self, rank: usize) -> Option<usize>
        ensures { MatchOption result (has_axis self rank ≡ false) (λ k. (has_axis self rank ≡ true) × (k ≡ axis_of self rank) × ((k < rank) ⊎ (rank ≡ 0))) }
    {
        match self {
            Axis::First => Some(0),
            Axis::Last => Some(rank.saturating_sub(1)),
            Axis::At { number, origin } => {
                let first = origin.number();
                if number < first {
                    return None;
                }
                let k = (number - first) as u64;
                if k < rank as u64 {
                    Some(k as usize)
                } else {
                    None
                }
            }
        }
    }
}
