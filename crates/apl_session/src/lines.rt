//! Where lines end.
ghost use Rattle.std.specs.Prelude.{◌≡◌, ℕ, ◌++◌, ◌∷◌, IfSome, IfNone};
ghost use Rattle.apl_print.specs.Text.{line_feed};
ghost use Rattle.apl_session.specs.Lines.{IsUnbroken, without_return};

/// The first line and what follows its end, or nothing if no line ends.
pub(crate) fn split_line(bytes: &[u8]) -> Option<(&[u8], &[u8])>
    ensures split { IfSome result (λ parts. (bytes.now ≡ parts.0.now ++ line_feed ∷ parts.1.now) × IsUnbroken parts.0.now) }
    ensures none { IfNone result (IsUnbroken bytes.now) }
{
    for (at, byte) in bytes.iter().enumerate() {
        if *byte == b'\n' {
            return Some((&bytes[..at], &bytes[at + 1..]));
        }
    }
    None
}

/// The line without the one carriage return at its end.
pub(crate) fn trim_return(line: &[u8]) -> &[u8]
    ensures { result.now ≡ without_return line.now }
{
    match line.last() {
        Some(b'\r') => &line[..line.len() - 1],
        _ => line,
    }
}
