//! The options of the program's command line.
use crate::tables::{Table, rows_of};
use apl_options::{refusal, settings};
use clap::error::ErrorKind;
use std::alloc::Global;
use std::process::Abort;
use std::test::Fail;

/// Command lines, and the workers, the length of pieces and the schedule that they set.
const SET: &str = "
    :aplcalc → 4 4096 Deques
    :aplcalc --workers 3 --piece 7 → 3 7 Deques
    :aplcalc --piece=1 --workers=64 → 64 1 Deques
    :aplcalc --workers 1 → 1 4096 Deques
    :aplcalc --piece 1048576 → 4 1048576 Deques
    :aplcalc --schedule claims → 4 4096 Claims
    :aplcalc --schedule=deques → 4 4096 Deques
    :aplcalc --schedule=claims --piece 2 --workers 2 → 2 2 Claims
    ";

/// Command lines that are refused.
const REFUSED: &str = "
    :aplcalc --workers 0 → refused
    :aplcalc --workers 65 → refused
    :aplcalc --piece 0 → refused
    :aplcalc --piece 1048577 → refused
    :aplcalc x → refused
    :aplcalc --workers x → refused
    :aplcalc --workers → refused
    :aplcalc --workers 2 --workers 3 → refused
    :aplcalc --schedule fair → refused
    :aplcalc --schedule Claims → refused
    :aplcalc --schedule → refused
    :aplcalc --schedule claims --schedule deques → refused
    ";

/// What the words of a command line set, or that they are refused.
fn told(alloc: Global, line: &str) -> Result<String, Fail> {
    let words: Vec<&str> = line.split_whitespace().collect(alloc)?;
    if words.is_empty() {
        return Err(Fail::new("no words"));
    }
    match settings(alloc, &words) {
        Ok(given) => {
            let (workers, piece, schedule) = (given.workers, given.piece, given.schedule);
            Ok(format!(in alloc; "{workers} {piece} {schedule:?}")?)
        }
        Err(error) if error.kind() == ErrorKind::OutOfMemory => Err(Fail::new("no memory")),
        Err(error) if refusal(&error) == 2 => Ok(String::from_str(alloc, "refused")?),
        Err(_) => Err(Fail::new("another exit status")),
    }
}

fn check(rt: &impl Abort, alloc: Global, table: Table) -> Result<(), Fail> {
    for (line, wanted) in rows_of(alloc, table)? {
        let got = told(alloc, line)?;
        assert!(rt; got.as_str() == wanted, "{line}");
    }
    Ok(())
}

#[test]
fn options_and_their_defaults(rt: HostRuntime) -> Result<(), Fail> {
    check(&rt, rt.alloc(), (SET, 8))
}

#[test]
fn words_that_are_refused(rt: HostRuntime) -> Result<(), Fail> {
    check(&rt, rt.alloc(), (REFUSED, 12))
}

/// The help has one text for each option, with its range and its default, and names the exit statuses and the manual.
#[test]
fn help_names_what_there_is(rt: HostRuntime) -> Result<(), Fail> {
    let help = settings(rt.alloc(), &["aplcalc", "--help"])
        .err()
        .ok_or("no help")?;
    let text = format!(in rt.alloc(); "{help}")?;
    for part in [
        "standard input",
        "standard output",
        "--workers <N>",
        "from 1 to 64",
        "[default: 4]",
        "--piece <N>",
        "from 1 to 1048576",
        "[default: 4096]",
        "--schedule <RULE>",
        "[default: deques]",
        "[possible values: claims, deques]",
        "Exit status:",
        "docs/MANUAL.md",
    ] {
        assert!(rt; refusal(&help) == 0 && text.contains(part), "{part}");
    }
    Ok(())
}
