//! Whole sessions, and what they write.
mod reductions;
mod scans;
mod structures;
mod tables;

use crate::doors::Door;
use crate::transcripts::{Table, Transcript, transcripts_of};
use apl_pool::{Every, Pool, Schedule};
use apl_print::MemorySink;
use apl_session::{MemorySource, run};
use reductions::{DIGITS, FOLDED, PRODUCTS};
use scans::SCANS;
use std::alloc::{AllocError, Global};
use std::process::Abort;
use std::test::Fail;
use std::thread::Threads;
use structures::{
    AXES, BUILT, CHOSEN, EXTENDED, FOUND, INDEXED, JOINED, LIMITS, MANY_AXES, MOVED, PRINTED,
    REPLICATED, TAKEN, WORKED,
};
use tables::{CARETS, COMMANDS, LINES, NUMERALS, OPERANDS, SCALARS, TEXTS, UNLISTED, VALUES};

/// Whether a session writes exactly this on a pool, by takes and puts of at most `most` bytes.
fn writes<R: Threads + Sync>(
    rt: &R,
    alloc: Global,
    pool: &Pool<Every, Door>,
    session: &[u8],
    most: usize,
    text: &[u8],
) -> bool {
    let mut source = MemorySource::new(session, most.max(1), None);
    let mut sink = MemorySink::new(alloc, most.max(1), None);
    let outcome = run(rt, alloc, pool, &mut source, &mut sink);
    outcome.is_ok() && sink.bytes() == text
}

/// Takes and puts of single bytes, of a few, and of as many as there are.
const SIZES: [usize; 3] = [1, 7, ALL];

/// More bytes than a session here has.
const ALL: usize = 1 << 20;

const WORKERS: [u8; 4] = [1, 2, 3, 64];

/// What a cut answers to how many elements a piece has. One of none and one of more than there are cut too.
const PIECES: [usize; 6] = [1, 2, 3, 4096, 0, usize::MAX];

/// Checks what each session of the tables writes.
fn check<R: Abort + Threads + Sync>(rt: &R, alloc: Global, tables: &[Table]) -> Result<(), Fail> {
    for table in tables {
        for Transcript { session, text } in transcripts_of(alloc, *table)? {
            check_session(
                rt,
                alloc,
                session.as_bytes(),
                text.as_bytes(),
                session.as_str(),
            );
        }
    }
    Ok(())
}

/// Checks what a session writes, by takes and puts of each size, and on each pool under both schedules.
fn check_session<R: Abort + Threads + Sync>(
    rt: &R,
    alloc: Global,
    session: &[u8],
    text: &[u8],
    name: &str,
) {
    let pool = Pool::new(3, Every(2), Door::Open);
    for most in SIZES {
        assert!(rt; writes(rt, alloc, &pool, session, most, text), "{name}");
    }
    for workers in WORKERS {
        for piece in PIECES {
            for schedule in [Schedule::Claims, Schedule::Deques] {
                let pool = Pool::with(workers, schedule, Every(piece), Door::Open);
                assert!(rt; writes(rt, alloc, &pool, session, ALL, text), "{name}");
            }
        }
    }
}

#[test]
fn statements(rt: HostRuntime) -> Result<(), Fail> {
    let tables = [(VALUES, 20), (SCALARS, 34), (OPERANDS, 15)];
    check(&rt, rt.alloc(), &tables)
}

#[test]
fn structural_functions(rt: HostRuntime) -> Result<(), Fail> {
    let tables = [
        (WORKED, 34),
        (EXTENDED, 9),
        (AXES, 18),
        (BUILT, 14),
        (JOINED, 15),
        (TAKEN, 15),
        (MOVED, 22),
        (CHOSEN, 12),
    ];
    check(&rt, rt.alloc(), &tables)
}

#[test]
fn replication(rt: HostRuntime) -> Result<(), Fail> {
    check(&rt, rt.alloc(), &[(REPLICATED, 31)])
}

#[test]
fn searches_indexes_and_limits(rt: HostRuntime) -> Result<(), Fail> {
    let tables = [
        (FOUND, 8),
        (INDEXED, 20),
        (PRINTED, 5),
        (LIMITS, 5),
        (MANY_AXES, 10),
    ];
    check(&rt, rt.alloc(), &tables)
}

#[test]
fn reductions_and_products(rt: HostRuntime) -> Result<(), Fail> {
    let tables = [(FOLDED, 43), (PRODUCTS, 36), (DIGITS, 34)];
    check(&rt, rt.alloc(), &tables)
}

#[test]
fn scans_of_each_kind(rt: HostRuntime) -> Result<(), Fail> {
    check(&rt, rt.alloc(), &[(SCANS, 42)])
}

#[test]
fn lines(rt: HostRuntime) -> Result<(), Fail> {
    let tables = [
        (LINES, 9),
        (NUMERALS, 13),
        (TEXTS, 11),
        (CARETS, 50),
        (COMMANDS, 22),
        (UNLISTED, 9),
    ];
    check(&rt, rt.alloc(), &tables)
}

#[test]
fn bytes_that_are_no_text(rt: HostRuntime) {
    let sessions: [(&[u8], &str); 4] = [
        (b"A\xff\n", "CHARACTER ERROR\n      A\n       ∧\n"),
        (b"1+\xe2\x8d\n", "CHARACTER ERROR\n      1+\n        ∧\n"),
        (b"\xc0\x80\n", "CHARACTER ERROR\n      \n      ∧\n"),
        (b"\xed\xa0\x80\n", "CHARACTER ERROR\n      \n      ∧\n"),
    ];
    for (session, text) in sessions {
        check_session(&rt, rt.alloc(), session, text.as_bytes(), text);
    }
}

/// A report of three lines, with the caret at a column.
fn report(alloc: Global, name: &str, line: &[u8], column: usize) -> Result<Vec<u8>, AllocError> {
    let mut text = Vec::new(alloc);
    text.extend_from_slice(name.as_bytes())?;
    text.extend_from_slice(b" ERROR\n      ")?;
    text.extend_from_slice(line)?;
    text.extend_from_slice(b"\n      ")?;
    for _ in 0..column {
        text.push(b' ')?;
    }
    text.extend_from_slice("∧\n".as_bytes())?;
    Ok(text)
}

/// How many brackets or digits a long line has.
const MANY: usize = 10_000;

#[test]
fn long_lines(rt: HostRuntime) -> Result<(), Fail> {
    let alloc = rt.alloc();
    let digits = vec![in alloc; b'9'; 1000]?;
    let limit = report(alloc, "LIMIT", digits.as_slice(), 0)?;
    check_session(&rt, alloc, digits.as_slice(), limit.as_slice(), "digits");
    let unlisted = vec![in alloc; 0xe2; 100_000]?;
    let character = report(alloc, "CHARACTER", b"", 0)?;
    check_session(
        &rt,
        alloc,
        unlisted.as_slice(),
        character.as_slice(),
        "unlisted",
    );
    Ok(())
}

#[test]
fn many_parentheses(rt: HostRuntime) -> Result<(), Fail> {
    let alloc = rt.alloc();
    let mut opened = vec![in alloc; b'('; MANY]?;
    opened.push(b'1')?;
    let unclosed = report(alloc, "SYNTAX", opened.as_slice(), MANY - 1)?;
    check_session(
        &rt,
        alloc,
        opened.as_slice(),
        unclosed.as_slice(),
        "unclosed",
    );
    let closing = vec![in alloc; b')'; MANY]?;
    opened.extend_from_slice(closing.as_slice())?;
    check_session(&rt, alloc, opened.as_slice(), b"1\n", "closed");
    let mut closed = vec![in alloc; b'1'; 1]?;
    closed.extend_from_slice(closing.as_slice())?;
    let unopened = report(alloc, "SYNTAX", closed.as_slice(), 0)?;
    check_session(
        &rt,
        alloc,
        closed.as_slice(),
        unopened.as_slice(),
        "unopened",
    );
    Ok(())
}
