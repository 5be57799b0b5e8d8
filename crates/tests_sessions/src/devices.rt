//! Sources and sinks: in memory, and over readers and writers that fail at one call.
use crate::doors::Door;
use apl_pool::{Every, Pool};
use apl_print::{Countdown, MemorySink, Out, Sink, SinkFault, put_all};
use apl_session::{In, MemorySource, Source, SourceFault, run};
use std::cell::Cell;
use std::io;
use std::io::ErrorKind::{Interrupted, TimedOut};
use std::test::Fail;

#[test]
fn countdown_is_due_at_its_call_alone(rt: HostRuntime) {
    for fail_at in [None, Some(0), Some(1), Some(3)] {
        let mut countdown = Countdown::new(fail_at);
        for call in 1..6u64 {
            assert!(rt;
                countdown.is_due() == (fail_at == Some(call)),
                "call {call}"
            );
        }
    }
}

/// A slice as a writer takes as much as it has room for, and then nothing.
#[test]
fn write_of_nothing_is_a_failure(rt: HostRuntime) {
    let mut room = [0; 3];
    let mut sink = Out::new(room.as_mut_slice());
    let puts = [sink.put(b"12"), sink.put(b"34"), sink.put(b"4")];
    assert!(rt; puts == [Ok(2), Ok(1), Err(SinkFault)]);
    assert!(rt; put_all(&mut sink, b"4") == Err(SinkFault));
}

#[test]
fn memory_sink_fails_at_its_call_and_no_other(rt: HostRuntime) {
    for fail_at in 0..5 {
        let mut sink = MemorySink::new(rt.alloc(), 2, Some(fail_at));
        for call in 1..5 {
            let wanted = if call == fail_at {
                Err(SinkFault)
            } else {
                Ok(2)
            };
            assert!(rt;
                sink.put(b"123") == wanted,
                "call {call} of a sink that fails at {fail_at}"
            );
        }
    }
}

#[test]
fn put_all_stops_at_a_fault(rt: HostRuntime) {
    let mut sink = MemorySink::new(rt.alloc(), 3, Some(2));
    let failed = put_all(&mut sink, b"1234567");
    assert!(rt; failed == Err(SinkFault) && sink.bytes() == b"123".as_slice());
    let done = put_all(&mut sink, b"4567");
    assert!(rt; done.is_ok() && sink.bytes() == b"1234567".as_slice());
}

#[test]
fn memory_source_fails_at_its_call_alone(rt: HostRuntime) {
    let mut source = MemorySource::new(b"abcd", 2, Some(2));
    let mut room = [0; 3];
    for wanted in [Ok(2), Err(SourceFault), Ok(2)] {
        assert!(rt; source.take(&mut room) == wanted);
    }
    assert!(rt; room == *b"cd\0" && source.take(&mut room) == Ok(0));
}

/// Reads bytes or keeps those that are written, at most `most` a call, and fails at one call. The calls are counted.
#[derive(Drop)]
struct Flaky<'a, B> {
    bytes: B,
    most: usize,
    countdown: Countdown,
    fault: io::ErrorKind,
    calls: &'a Cell<u64>,
}

impl<'a, B> Flaky<'a, B> {
    fn new(
        bytes: B,
        most: usize,
        (fail_at, fault): (u64, io::ErrorKind),
        calls: &'a Cell<u64>,
    ) -> Flaky<'a, B> {
        Flaky {
            bytes,
            most,
            countdown: Countdown::new(Some(fail_at)),
            fault,
            calls,
        }
    }

    /// Counts a call, which may be the one that fails.
    fn call(&mut self) -> io::Result<()> {
        self.calls.set(self.calls.get().saturating_add(1));
        if self.countdown.is_due() {
            return Err(io::Error::from(self.fault));
        }
        Ok(())
    }
}

impl<'a> io::Read for Flaky<'a, &'a [u8]> {
    fn read(&mut self, room: &mut [u8]) -> io::Result<usize> {
        self.call()?;
        let n = self.bytes.len().min(self.most).min(room.len());
        let (front, rest) = self.bytes.split_at(n);
        room[..n].copy_from_slice(front);
        self.bytes = rest;
        Ok(n)
    }
}

impl<'a> io::Write for Flaky<'a, Vec<u8>> {
    fn write(&mut self, bytes: &[u8]) -> io::Result<usize> {
        self.call()?;
        let n = bytes.len().min(self.most);
        self.bytes.extend_from_slice(&bytes[..n])?;
        Ok(n)
    }

    fn flush(&mut self) -> io::Result<()> {
        Ok(())
    }
}

/// How many bytes are taken and put here.
const MANY: usize = 20_000;

/// A take is one read. The fault comes once, at the read that fails, and the bytes go on after it.
#[test]
fn takes_of_a_reader_that_fails_once(rt: HostRuntime) -> Result<(), Fail> {
    let bytes = vec![in rt.alloc(); b'x'; MANY]?;
    for (most, fail_at, fault) in [
        (1, 1, TimedOut),
        (1, 5000, Interrupted),
        (1, 20_001, TimedOut),
        (5000, 2, Interrupted),
        (5000, 5, TimedOut),
    ] {
        let calls = Cell::new(0);
        let mut source = In::new(Flaky::new(bytes.as_slice(), most, (fail_at, fault), &calls));
        let mut room = [0; 8192];
        let mut taken = 0usize;
        for take in 1..=20_002u64 {
            let outcome = source.take(&mut room);
            assert!(rt;
                calls.get() == take && outcome.is_err() == (take == fail_at),
                "take {take} of at most {most}"
            );
            taken = outcome.unwrap_or(0).saturating_add(taken);
        }
        assert!(rt; taken == MANY, "at most {most}");
    }
    Ok(())
}

/// The fault comes once, at the write that fails: what was taken by then is kept, and the rest is taken after it.
#[test]
fn puts_to_a_writer_that_fails_once(rt: HostRuntime) -> Result<(), Fail> {
    let alloc = rt.alloc();
    let mut bytes = Vec::new(alloc);
    for i in 0..MANY {
        bytes.push((i % 251) as u8)?;
    }
    for (most, fail_at, fault, taken) in [
        (1, 1, Interrupted, 0),
        (1, 5001, TimedOut, 5000),
        (5000, 4, Interrupted, 15_000),
        (MANY, 1, TimedOut, 0),
    ] {
        let calls = Cell::new(0);
        let mut writer = Flaky::new(Vec::new(alloc), most, (fail_at, fault), &calls);
        let mut sink = Out::new(&mut writer);
        let failed = put_all(&mut sink, bytes.as_slice());
        let is_once = calls.get() == fail_at;
        let done = put_all(&mut sink, &bytes[taken.min(bytes.len())..]);
        assert!(rt;
            failed.is_err() && is_once && done.is_ok(),
            "at most {most}"
        );
        assert!(rt; writer.bytes == bytes, "at most {most}");
    }
    Ok(())
}

/// A reader of lines of two bytes, and a writer of their answers, which are as long. It has how many bytes were read that are not written
/// yet, and whether a line was read while there were some.
#[derive(Drop)]
struct Turns<'a> {
    lines: &'a [u8],
    open: &'a Cell<usize>,
    is_early: &'a Cell<bool>,
}

impl<'a> io::Read for Turns<'a> {
    fn read(&mut self, room: &mut [u8]) -> io::Result<usize> {
        if self.open.get() != 0 {
            self.is_early.set(true);
        }
        let n = self.lines.len().min(2).min(room.len());
        let (front, rest) = self.lines.split_at(n);
        room[..n].copy_from_slice(front);
        self.lines = rest;
        self.open.set(n);
        Ok(n)
    }
}

impl<'a> io::Write for Turns<'a> {
    fn write(&mut self, bytes: &[u8]) -> io::Result<usize> {
        self.open.set(self.open.get().saturating_sub(bytes.len()));
        Ok(bytes.len())
    }

    fn flush(&mut self) -> io::Result<()> {
        Ok(())
    }
}

#[test]
fn each_answer_is_written_before_the_next_line_is_read(rt: HostRuntime) -> Result<(), Fail> {
    let (open, is_early) = (Cell::new(0), Cell::new(false));
    let turns = |lines| Turns {
        lines,
        open: &open,
        is_early: &is_early,
    };
    let mut session = String::new(rt.alloc());
    for _ in 0..1000 {
        session.push_str("1\n2\n3\n")?;
    }
    let pool = Pool::new(2, Every(1), Door::Open);
    let mut source = In::new(turns(session.as_bytes()));
    let mut sink = Out::new(turns(b""));
    let outcome = run(&rt, rt.alloc(), &pool, &mut source, &mut sink);
    assert!(rt; outcome.is_ok() && open.get() == 0 && !is_early.get());
    Ok(())
}

#[test]
fn a_reader_and_a_writer(rt: HostRuntime) -> Result<(), Fail> {
    let pool = Pool::new(1, Every(4096), Door::Open);
    let mut written = Vec::new(rt.alloc());
    let mut source = In::new(b"12\r\n\n34".as_slice());
    let mut sink = Out::new(&mut written);
    let outcome = run(&rt, rt.alloc(), &pool, &mut source, &mut sink);
    assert!(rt; outcome.is_ok() && put_all(&mut sink, b"").is_ok() && sink.put(b"3") == Ok(1));
    assert!(rt; written.as_slice() == b"12\n34\n3".as_slice());
    Ok(())
}
