//! Runs of scripts over memory, with each read and each write failing in turn: what is read and written between lines,
//! and after a failure, no contract says.

use fakes::{FakeReader, FakeWriter, LastField};
use line_script::{LONGEST_SCRIPT, ReadError, Stop, read_whole, run_script, run_stream};
use std::alloc::Global;
use std::io;
use std::io::{BufReader, BufWriter, Read};
use std::process::Abort;
use std::test::Fail;

mod fakes;

const SCRIPT: &[u8] = b"say one\n# a comment\n\nquiet\nsay two\nsay three";

const PRINTED: &[u8] = b"one\ntwo\nthree\n";

/// How a run ended, and what was written.
#[derive(Drop)]
struct Ran {
    ended: Result<(), Stop>,
    out: FakeWriter,
}

/// Runs a script that is read seven bytes at a time, with one of the reads failing. What it prints is kept together.
fn run(alloc: Global, script: &[u8], read_fails_at: u32, out: FakeWriter) -> Result<Ran, Fail> {
    let mut reader = FakeReader::new(script, 7, read_fails_at);
    let mut buffered = BufWriter::new(alloc, out).ok().ok_or("memory")?;
    let ended = run_script(alloc, &mut LastField {}, &mut reader, &mut buffered);
    let (out, _) = buffered.into_parts();
    Ok(Ran { ended, out })
}

#[test]
fn runs_nothing_after_a_failed_read(rt: HostRuntime) -> Result<(), Fail> {
    let mut failed = 0u32;
    for fails_at in 1..100u32 {
        let out = FakeWriter::new(rt.alloc(), 5, 0);
        let Ran { ended, out } = run(rt.alloc(), SCRIPT, fails_at, out)?;
        if ended == Ok(()) {
            break;
        }
        failed = fails_at;
        assert!(rt; ended == Err(Stop::CannotRead), "read {fails_at}");
        assert_eq!(rt; out.calls, 0, "read {fails_at}");
    }
    assert!(rt; failed >= 7, "{failed} reads");
    Ok(())
}

/// Has each write of a run fail in turn: nothing is written after it.
fn fail_each_write<A: Abort>(rt: &A, alloc: Global, script: &[u8]) -> Result<u32, Fail> {
    let mut failed = 0u32;
    for fails_at in 1..100u32 {
        let out = FakeWriter::new(alloc, 5, fails_at);
        let Ran { ended, out } = run(alloc, script, 0, out)?;
        if out.calls < fails_at {
            break;
        }
        failed = fails_at;
        assert!(rt; ended == Err(Stop::CannotWrite), "write {fails_at}");
        assert!(rt; !out.called_after_failure, "write {fails_at}");
        assert!(rt;
            PRINTED.starts_with(out.written.as_slice()),
            "write {fails_at}"
        );
    }
    Ok(failed)
}

#[test]
fn writes_nothing_after_a_failed_write(rt: HostRuntime) -> Result<(), Fail> {
    let whole = fail_each_write(&rt, rt.alloc(), SCRIPT)?;
    assert!(rt; whole >= 3, "{whole} writes");
    let stopped = fail_each_write(&rt, rt.alloc(), b"say one\nsay two\nsay  three")?;
    assert!(rt; stopped >= 3, "{stopped} writes");
    Ok(())
}

#[test]
fn writes_many_lines_at_once(rt: HostRuntime) -> Result<(), Fail> {
    let mut script = Vec::new(rt.alloc());
    for _ in 0..5000u32 {
        script.extend_from_slice(b"say something\n")?;
    }
    let out = FakeWriter::new(rt.alloc(), 1_000_000, 0);
    let Ran { ended, out } = run(rt.alloc(), script.as_slice(), 0, out)?;
    assert!(rt; ended == Ok(()) && out.written.len() == 50_000);
    assert!(rt; out.calls < 20, "{} calls", out.calls);
    Ok(())
}

/// Runs a script as it comes, three bytes at a time through a small buffer, with one of the reads failing.
fn stream(alloc: Global, script: &[u8], read_fails_at: u32, out: FakeWriter) -> Result<Ran, Fail> {
    let mut reader = FakeReader::new(script, 7, read_fails_at);
    let mut input = BufReader::with_capacity(alloc, 3, &mut reader)
        .ok()
        .ok_or("memory")?;
    let mut buffered = BufWriter::new(alloc, out).ok().ok_or("memory")?;
    let ended = run_stream(alloc, &mut LastField {}, &mut input, &mut buffered);
    let (out, _) = buffered.into_parts();
    Ok(Ran { ended, out })
}

/// Each answer is flushed before the next read: one write and one flush a line that prints, and one
/// flush a line that does not.
#[test]
fn flushes_each_answer(rt: HostRuntime) -> Result<(), Fail> {
    let out = FakeWriter::new(rt.alloc(), 100, 0);
    let Ran { ended, out } = stream(rt.alloc(), b"say one\nquiet\nsay two\n", 0, out)?;
    assert!(rt; ended == Ok(()) && out.written.as_slice() == b"one\ntwo\n".as_slice());
    assert_eq!(rt; out.calls, 5);
    Ok(())
}

#[test]
fn keeps_the_answers_before_a_failed_read(rt: HostRuntime) -> Result<(), Fail> {
    let mut last = 0usize;
    for fails_at in 1..100u32 {
        let out = FakeWriter::new(rt.alloc(), 100, 0);
        let Ran { ended, out } = stream(rt.alloc(), SCRIPT, fails_at, out)?;
        if ended == Ok(()) {
            break;
        }
        assert!(rt; ended == Err(Stop::CannotRead), "read {fails_at}");
        assert!(rt;
            PRINTED.starts_with(out.written.as_slice()),
            "read {fails_at}"
        );
        assert!(rt; last <= out.written.len(), "read {fails_at}");
        last = out.written.len();
    }
    assert_eq!(rt; last, 8);
    Ok(())
}

#[test]
fn reads_up_to_the_limit(rt: HostRuntime) -> Result<(), Fail> {
    let limit = LONGEST_SCRIPT as u64;
    let mut longest = io::repeat(b'#').take(limit);
    match read_whole(rt.alloc(), &mut longest) {
        Ok(bytes) => assert_eq!(rt; bytes.len(), LONGEST_SCRIPT),
        Err(_) => assert!(rt; false, "the longest is refused"),
    }
    let mut longer = io::repeat(b'#').take(limit + 2);
    let refused = matches!(read_whole(rt.alloc(), &mut longer), Err(ReadError::TooLong));
    assert!(rt; refused);
    assert_eq!(rt; longer.limit(), 1, "one byte past the limit is read");
    Ok(())
}
