//! The kinds of reports.

/// Why a line has no value.
#[derive(Clone, Copy, Debug, PartialEq, Eq)]
pub enum Report {
    Syntax,
    Value,
    Index,
    Rank,
    Length,
    Domain,
    Limit,
    Character,
    /// A growth was refused.
    WsFull,
}

impl Report {
    ghost use Rattle.std.specs.Prelude.{◌≡◌, ◌++◌, codes};
    ghost use Rattle.apl_print.specs.Reported.{report_name};

    /// The first line of the report, and the blanks that the second begins with.
    pub(crate) fn heading(self) -> &'static [u8]
        ensures { result.now ≡ report_name self ++ codes "\n      " }
    {
        match self {
            Report::Syntax => b"SYNTAX ERROR\n      ",
            Report::Value => b"VALUE ERROR\n      ",
            Report::Index => b"INDEX ERROR\n      ",
            Report::Rank => b"RANK ERROR\n      ",
            Report::Length => b"LENGTH ERROR\n      ",
            Report::Domain => b"DOMAIN ERROR\n      ",
            Report::Limit => b"LIMIT ERROR\n      ",
            Report::Character => b"CHARACTER ERROR\n      ",
            Report::WsFull => b"WS FULL\n      ",
        }
    }
}
