//! The texts of reports and replies.
use apl_print::{MemorySink, Reply, Report, SinkFault, reply, report};
use std::alloc::Global;
use std::test::Fail;

/// What a report puts into a sink that takes a few bytes a call.
fn reported(
    alloc: Global,
    report_kind: Report,
    line: &str,
    column: Option<usize>,
) -> Result<MemorySink, SinkFault> {
    let mut sink = MemorySink::new(alloc, 5, None);
    report(&mut sink, report_kind, line.as_bytes(), column)?;
    Ok(sink)
}

#[test]
fn reports(rt: HostRuntime) -> Result<(), Fail> {
    let cases = [
        (
            Report::Limit,
            "+/¯1 1 9223372036854775807",
            Some(1),
            "LIMIT ERROR\n      +/¯1 1 9223372036854775807\n       ∧\n",
        ),
        (
            Report::Character,
            "2",
            Some(1),
            "CHARACTER ERROR\n      2\n       ∧\n",
        ),
        (
            Report::Character,
            "A",
            Some(1),
            "CHARACTER ERROR\n      A\n       ∧\n",
        ),
        (
            Report::Length,
            "  1 2+1 2 3 ⍝ x ",
            Some(5),
            "LENGTH ERROR\n        1 2+1 2 3 ⍝ x \n           ∧\n",
        ),
        (
            Report::WsFull,
            "A←⍳100000",
            None,
            "WS FULL\n      A←⍳100000\n",
        ),
        (
            Report::Syntax,
            "3+",
            Some(1),
            "SYNTAX ERROR\n      3+\n       ∧\n",
        ),
        (
            Report::Value,
            "B",
            Some(0),
            "VALUE ERROR\n      B\n      ∧\n",
        ),
        (
            Report::Index,
            "A[3;1]",
            Some(1),
            "INDEX ERROR\n      A[3;1]\n       ∧\n",
        ),
        (
            Report::Rank,
            "(⍳3)[1;1]",
            Some(4),
            "RANK ERROR\n      (⍳3)[1;1]\n          ∧\n",
        ),
        (
            Report::Domain,
            "B←5+÷0×C←4",
            Some(4),
            "DOMAIN ERROR\n      B←5+÷0×C←4\n          ∧\n",
        ),
    ];
    for (report_kind, line, column, wanted) in cases {
        let sink = reported(rt.alloc(), report_kind, line, column)?;
        assert!(rt; sink.bytes() == wanted.as_bytes(), "{line}");
    }
    Ok(())
}

#[test]
fn report_far_along_a_line(rt: HostRuntime) -> Result<(), Fail> {
    for column in [64, 226, 227, 256, 257, 512, 1000] {
        let sink = reported(rt.alloc(), Report::Domain, "", Some(column))?;
        let length = "DOMAIN ERROR\n      \n      ∧\n".len() + column;
        let blanks = sink.bytes().iter().filter(|byte| **byte == b' ').count();
        assert!(rt;
            sink.bytes().len() == length
                && blanks == 13 + column
                && sink.bytes().ends_with("∧\n".as_bytes())
        );
    }
    Ok(())
}

/// A short report is put at once, and a long one in pieces.
#[test]
fn report_to_a_sink_that_fails(rt: HostRuntime) -> Result<(), Fail> {
    for (column, most, calls) in [(1, 7, 5), (100, 40, 4), (300, 40, 13)] {
        let whole = reported(rt.alloc(), Report::Value, "B", Some(column))?;
        for fail_at in 1..calls + 2 {
            let mut sink = MemorySink::new(rt.alloc(), most, Some(fail_at));
            let outcome = report(&mut sink, Report::Value, b"B", Some(column));
            assert!(rt;
                outcome.is_ok() == (fail_at > calls) && whole.bytes().starts_with(sink.bytes()),
                "call {fail_at}"
            );
        }
    }
    Ok(())
}

#[test]
fn replies(rt: HostRuntime) -> Result<(), Fail> {
    for (kind, want) in [
        (Reply::Was(0), "WAS 0\n"),
        (Reply::Was(30), "WAS 30\n"),
        (Reply::Was(120), "WAS 120\n"),
        (Reply::Clear, "CLEAR WS\n"),
        (Reply::Incorrect, "INCORRECT COMMAND\n"),
    ] {
        let mut sink = MemorySink::new(rt.alloc(), 3, None);
        assert!(rt;
            reply(&mut sink, kind).is_ok() && sink.bytes() == want.as_bytes(),
            "{want}"
        );
    }
    Ok(())
}
