//! Runs whose sources or sinks fail, and how they end.
use crate::doors::Door;
use apl_pool::{Every, Pool};
use apl_print::MemorySink;
use apl_session::{BLOCK, MemorySource, Next, RunFault, Session, ending, one_run, run, some_run};
use std::alloc::Global;
use std::process::Abort;
use std::test::Fail;
use std::thread::Threads;

/// What a run over the text writes, with room for `most` bytes a call, and its result.
fn written<R: Threads + Sync>(
    rt: &R,
    alloc: Global,
    text: &[u8],
    most: usize,
    read_fails: Option<u64>,
) -> (Result<(), RunFault>, MemorySink) {
    let pool = Pool::new(1, Every(4096), Door::Open);
    let mut source = MemorySource::new(text, most.max(1), read_fails);
    let mut sink = MemorySink::new(alloc, most.max(1), None);
    let outcome = run(rt, alloc, &pool, &mut source, &mut sink);
    (outcome, sink)
}

/// A name without a value is reported with the line as it came.
#[test]
fn answers_lines_across_blocks(rt: HostRuntime) -> Result<(), Fail> {
    let alloc = rt.alloc();
    for (width, count) in [
        (1, 20_000),
        (7, 10_000),
        (BLOCK - 2, 3),
        (BLOCK - 1, 3),
        (BLOCK, 3),
        (3 * BLOCK, 2),
    ] {
        let line = vec![in alloc; b'x'; width]?;
        let mut text = Vec::new(alloc);
        let mut wanted = Vec::new(alloc);
        for _ in 0..count {
            text.extend_from_slice(line.as_slice())?;
            text.push(b'\n')?;
            wanted.extend_from_slice(b"VALUE ERROR\n      ")?;
            wanted.extend_from_slice(line.as_slice())?;
            wanted.extend_from_slice("\n      ∧\n".as_bytes())?;
        }
        for most in [4097, BLOCK, 10 * BLOCK] {
            let (outcome, sink) = written(&rt, alloc, text.as_slice(), most, None);
            assert!(rt;
                outcome.is_ok() && sink.bytes() == wanted.as_slice(),
                "lines of {width}, {most} at a time"
            );
        }
    }
    one_run();
    some_run();
    Ok(())
}

#[test]
fn answers_whole_lines_before_a_failed_read(rt: HostRuntime) {
    let failed = Err(RunFault::Read);
    let rows: [(usize, u64, Result<(), RunFault>, &[u8]); 8] = [
        (100, 2, failed, b"12\n"),
        (1, 1, failed, b""),
        (1, 2, failed, b""),
        (1, 3, failed, b""),
        (1, 4, failed, b"12\n"),
        (1, 5, failed, b"12\n"),
        (1, 6, failed, b"12\n"),
        (1, 7, Ok(()), b"12\n34\n"),
    ];
    for (most, fail_at, wanted, text) in rows {
        let (outcome, sink) = written(&rt, rt.alloc(), b"12\n34", most, Some(fail_at));
        assert!(rt; outcome == wanted && sink.bytes() == text, "call {fail_at}");
    }
}

#[test]
fn a_source_that_fails(rt: HostRuntime) {
    for workers in [1, 64] {
        let pool = Pool::new(workers, Every(1), Door::Open);
        let mut source = MemorySource::new(b"1+1\n2+", 6, Some(2));
        let mut sink = MemorySink::new(rt.alloc(), 7, None);
        let outcome = run(&rt, rt.alloc(), &pool, &mut source, &mut sink);
        assert!(rt; outcome == Err(RunFault::Read) && sink.bytes() == b"2\n".as_slice());
    }
}

/// Sessions, and what they write: values, a row of them, and reports.
const WRITTEN: [(&str, &str); 4] = [
    ("2+3 4 5\n", "5 6 7\n"),
    (
        "A+A←3\n1 2+1 2 3\n",
        "6\nLENGTH ERROR\n      1 2+1 2 3\n         ∧\n",
    ),
    ("M←2 2⍴⍳4\nM[2;]←9\nM\n", "1 2\n9 9\n"),
    (
        "A←2 2⍴⍳4\nA[3;1]\n(⍳3)[1;1]\nA\n",
        "INDEX ERROR\n      A[3;1]\n       ∧\nRANK ERROR\n      (⍳3)[1;1]\n          ∧\n1 2\n3 4\n",
    ),
];

#[test]
fn a_sink_that_fails_at_each_call_in_turn(rt: HostRuntime) {
    for workers in [1, 64] {
        let pool = Pool::new(workers, Every(1), Door::Open);
        for most in [1, 7] {
            for (session, text) in WRITTEN {
                let text = text.as_bytes();
                fail_in_turn(&rt, rt.alloc(), &pool, session.as_bytes(), most, text);
            }
        }
    }
}

/// Fails each put in turn, until a run has no failure: a beginning of the text was written, and then the whole.
fn fail_in_turn<R: Abort + Threads + Sync>(
    rt: &R,
    alloc: Global,
    pool: &Pool<Every, Door>,
    session: &[u8],
    most: usize,
    text: &[u8],
) {
    let mut is_whole = false;
    for call in 1..1000 {
        let mut source = MemorySource::new(session, most.max(1), None);
        let mut sink = MemorySink::new(alloc, most.max(1), Some(call));
        let outcome = run(rt, alloc, pool, &mut source, &mut sink);
        is_whole = outcome.is_ok();
        assert!(rt;
            text.starts_with(sink.bytes())
                && is_whole == (sink.bytes() == text)
                && (is_whole || outcome == Err(RunFault::Write))
                && (call > 1 || sink.bytes().is_empty())
        );
        if is_whole {
            break;
        }
    }
    assert!(rt; is_whole);
}

#[test]
fn a_session_is_as_after_a_line_whose_write_fails(rt: HostRuntime) {
    let alloc = rt.alloc();
    for workers in [1, 64] {
        let pool = Pool::new(workers, Every(1), Door::Open);
        let mut session = Session::new(alloc);
        let mut failing = MemorySink::new(alloc, 7, Some(1));
        let failed = session.line(&rt, alloc, &pool, "A+A←3".as_bytes(), &mut failing);
        let mut sink = MemorySink::new(alloc, 7, None);
        let outcome = session.line(&rt, alloc, &pool, b"A", &mut sink);
        assert!(rt; failed == Err(RunFault::Write) && failing.bytes().is_empty());
        assert!(rt; outcome == Ok(Next::Go) && sink.bytes() == b"3\n".as_slice());
    }
}

#[test]
fn how_the_program_ends(rt: HostRuntime) -> Result<(), Fail> {
    assert!(rt; ending(&Ok(())) == (0, ""));
    for (fault, words, message) in [
        (RunFault::Read, "the source failed", "aplcalc: read failed"),
        (RunFault::Write, "the sink failed", "aplcalc: write failed"),
        (
            RunFault::Memory,
            "no memory for a line",
            "aplcalc: no memory",
        ),
    ] {
        let told = format!(in rt.alloc(); "{fault}")?;
        assert!(rt;
            told.as_str() == words && ending(&Err(fault)) == (1, message),
            "{words}"
        );
    }
    Ok(())
}
