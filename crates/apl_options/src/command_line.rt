//! The program's command line.
ghost use Rattle.std.specs.Prelude.{◌≡◌, ◌≢◌, ◌<◌, ◌≤◌, length, IfOk};
ghost use Rattle.clap.specs.Words.{kind_of};

use crate::options::{LONGEST_PIECE, Settings};
use apl_pool::{MOST_WORKERS, Schedule};
use clap::error::ErrorKind;
use clap::{Arg, Command, Error, value_parser};
use std::alloc::Global;

/// What the words ask for. The first of them is the program's name. An error is the text for one who asked for help or gave words
/// that are refused, or it is out of memory.
pub fn settings(alloc: Global, words: &[&str]) -> Result<Settings, Error>
    requires { 0 < length words.now }
    ensures workers { IfOk result (λ s. (1 ≤ s.workers) × (s.workers ≤ MOST_WORKERS)) }
    ensures piece { IfOk result (λ s. (1 ≤ s.piece) × (s.piece ≤ LONGEST_PIECE)) }
{
    let workers = Arg::new(alloc, "workers")
        .long("workers")
        .value_name("N")
        .help("How many workers share the work, from 1 to 64")
        .value_parser(value_parser!(u8).range(1..=i64::from(MOST_WORKERS)))
        .default_value(WORKERS);
    let piece = Arg::new(alloc, "piece")
        .long("piece")
        .value_name("N")
        .help("How many elements each piece of the work has, from 1 to 1048576")
        .value_parser(value_parser!(u32).range(1..=i64::from(LONGEST_PIECE)))
        .default_value(PIECE);
    let schedule = Arg::new(alloc, "schedule")
        .long("schedule")
        .value_name("RULE")
        .help("How the pieces come to the workers")
        .value_parser([CLAIMS, DEQUES].as_slice())
        .default_value(DEQUES);
    let command = Command::new(alloc, "aplcalc")
        .about(
            "Reads lines of APL from standard input, and writes the answer to each to standard output.",
        )
        .after_help(STATUSES)
        .arg(workers)?
        .arg(piece)?
        .arg(schedule)?;
    let matches = command.try_get_matches_from(words)?;
    // The ranges are checked and the defaults are filled in by now, so nothing changes below.
    let workers = matches.get_one::<u8>("workers").unwrap_or(1);
    let piece = matches.get_one::<u32>("piece").unwrap_or(1);
    Ok(Settings {
        workers: workers.clamp(1, MOST_WORKERS),
        piece: piece.clamp(1, LONGEST_PIECE),
        schedule: match matches.get_str("schedule") {
            Some(CLAIMS) => Schedule::Claims,
            _ => Schedule::Deques,
        },
    })
}

/// How many workers there are by default.
const WORKERS: &str = "4";

/// How many elements a piece has by default.
const PIECE: &str = "4096";

/// The word for workers who claim the pieces in their order, each the next one.
const CLAIMS: &str = "claims";

/// The word for workers who have deques of pieces, which is the default.
const DEQUES: &str = "deques";

/// The end of the help.
const STATUSES: &str = "Exit status:
  0  at the end of the input, after )OFF, and for help
  1  where a read or a write failed, or memory was wanting outside a line
  2  where the options are refused

A line and its answer:
      1 2 3∘.×1 2 3 4 5
1 2 3  4  5
2 4 6  8 10
3 6 9 12 15

The manual is docs/MANUAL.md, and docs/KEYBOARD.md tells how to type the symbols.";

/// The exit status if the words gave no settings: 0 for help, 1 if out of memory, else 2.
pub fn refusal(error: &Error) -> u8
    ensures help { kind_of error.now ≡ ErrorKind.DisplayHelp → result ≡ 0 }
    ensures memory { kind_of error.now ≡ ErrorKind.OutOfMemory → result ≡ 1 }
    ensures mistake { kind_of error.now ≢ ErrorKind.DisplayHelp → kind_of error.now ≢ ErrorKind.OutOfMemory → result ≡ 2 }
{
    match error.kind() {
        ErrorKind::DisplayHelp => 0,
        ErrorKind::OutOfMemory => 1,
        _ => 2,
    }
}
