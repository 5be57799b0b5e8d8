//! Replies to commands.

/// What a command is answered.
#[derive(Clone, Copy, Debug, PartialEq, Eq)]
pub enum Reply {
    /// A setting is changed. This is what it was.
    Was(u8),
    /// The workspace is as it was at first.
    Clear,
    /// The line is no command.
    Incorrect,
}
