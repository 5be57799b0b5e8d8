//! How the pieces of a pass come to its workers.

/// By which rule a worker gets its next piece. No answer depends on it.
#[derive(Clone, Copy, Debug, PartialEq, Eq)]
pub enum Schedule {
    /// All workers claim the pieces in their order, each the next one.
    Claims,
    /// Each worker has a stretch of the pieces in a deque of its own, and takes from other deques when it is done.
    Deques,
}
