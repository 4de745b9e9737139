//! Live hosts over memory: what each stop may leave of a journal is run again, each call of a desk fails in turn, and
//! lines of each length and ends of each kind are read. That a desk can say what it does is seen here too.

use crate::deeds::Deed;
use counter::Counter;
use line_script::Stop;
use live_feed::{Fault, Feed, JournalEnd, LONGEST_LINE, replay};
use memory::MemoryDesk;
use std::alloc::{AllocError, Global};
use std::io::{BufRead, Read};
use std::process::Abort;
use std::sync::Wait;
use std::test::Fail;
use std::thread::Threads;

mod counter;
mod memory;

/// What a run is sent, in two pieces, of which the first ends in the middle of a line.
const FIRST: &[u8] = b"+\n# a comment\n-\n+";

const SECOND: &[u8] = b"++\nno\n++++\n";

const TOLD: &[u8] = b"1 1\n3 bad\n4 4\n5 bad\n6 8\n";

const JOURNAL: &[u8] = b"+\n\n\n+++\n\n++++\n";

/// The calls of its desk, each by the fault that it is if it fails.
const CALLS: [Fault; 12] = [
    Fault::NotAppended,
    Fault::NotAppended,
    Fault::NotAppended,
    Fault::NotSynced,
    Fault::CannotWrite,
    Fault::NotAppended,
    Fault::NotAppended,
    Fault::NotAppended,
    Fault::NotSynced,
    Fault::CannotWrite,
    Fault::NotSynced,
    Fault::CannotWrite,
];

/// How a host's run ended, and its desk.
#[derive(Drop)]
struct Ran<R: Abort + Drop> {
    ended: Result<(), Fault>,
    desk: MemoryDesk<R>,
}

/// Serves what is sent by a host to which nothing has come yet. Call number `fails_at` of its desk fails, or none at 0.
fn serve<R: Threads + Wait + Abort + AllocGlobal + Sync + Copy + Drop>(
    rt: R,
    input: &mut impl BufRead,
    fails_at: u32,
) -> Ran<R> {
    let alloc = rt.alloc();
    let mut desk = MemoryDesk::new(rt, alloc, fails_at);
    let mut feed = Feed::new(alloc, Counter::new(), 0);
    let ended = feed.serve(&rt, input, &mut desk);
    Ran { ended, desk }
}

/// What the journal has on the disk at a moment, what it has behind that, which is all that a stop changes, and what
/// was told.
#[derive(Drop)]
struct Moment {
    safe: Vec<u8>,
    tail: Vec<u8>,
    told: Vec<u8>,
}

/// The moment at which these things had been done, and no more.
fn moment_after(alloc: Global, deeds: &[Deed]) -> Result<Moment, AllocError> {
    let mut safe = Vec::new(alloc);
    let mut tail = Vec::new(alloc);
    let mut told = Vec::new(alloc);
    for deed in deeds {
        match deed {
            Deed::Wrote(bytes) => tail.extend_from_slice(bytes.as_slice())?,
            Deed::Synced => {
                safe.extend_from_slice(tail.as_slice())?;
                tail.clear();
            }
            Deed::Told(bytes) => told.extend_from_slice(bytes.as_slice())?,
        }
    }
    Ok(Moment { safe, tail, told })
}

/// The number of the last line of which something is told.
fn last_told(told: &[u8]) -> u64 {
    let mut last = 0;
    for block in told.split(|byte| *byte == b'\n') {
        if let Some(digit) = block.first() {
            last = u64::from(digit.saturating_sub(b'0'));
        }
    }
    last
}

/// What is told of lines, without those that are bad.
fn without_bad(alloc: Global, told: &[u8]) -> Result<Vec<u8>, AllocError> {
    let mut others = Vec::new(alloc);
    for block in told.split(|byte| *byte == b'\n') {
        if !block.is_empty() && !block.ends_with(b"bad") {
            others.extend_from_slice(block)?;
            others.push(b'\n')?;
        }
    }
    Ok(others)
}

/// Where a journal ends that is run again by a host to which nothing has come yet, and what is told.
#[derive(Drop)]
struct Again {
    ended: Result<JournalEnd, Stop>,
    told: Vec<u8>,
}

/// Runs a journal again, and tells what lines from a number on are answered.
fn run_again<R: Threads + Wait + AllocGlobal + Sync>(
    rt: &R,
    file: &[u8],
    from: Option<u64>,
) -> Again {
    let mut journal = file;
    let mut told = Vec::new(rt.alloc());
    let ended = replay(rt, &mut Counter::new(), &mut journal, from, &mut told);
    Again { ended, told }
}

/// Runs a file that a stop left at a moment. The lines that it runs have to be the first of the journal, with all of
/// which something had been told. Of these the same has to be told again.
fn survives<R: Threads + Wait + AllocGlobal + Sync>(
    rt: &R,
    now: &Moment,
    file: &[u8],
) -> Result<bool, AllocError> {
    let told = without_bad(rt.alloc(), now.told.as_slice())?;
    let whole = without_bad(rt.alloc(), TOLD)?;
    let again = run_again(rt, file, Some(1));
    let Ok(end) = again.ended else {
        return Ok(false);
    };
    let Some(ran) = file.get(..end.bytes as usize) else {
        return Ok(false);
    };
    let lines = ran.iter().filter(|byte| **byte == b'\n').count();
    Ok(
        lines as u64 == end.lines
            && JOURNAL.starts_with(ran)
            && last_told(now.told.as_slice()) <= end.lines
            && again.told.as_slice().starts_with(told.as_slice())
            && whole.as_slice().starts_with(again.told.as_slice()),
    )
}

/// Runs each file that a stop may leave at a moment, and answers how many there are: each length of the tail, and each
/// choice of its bytes that are 0.
fn survive_each<R: Threads + Wait + Abort + AllocGlobal + Sync>(
    rt: &R,
    now: &Moment,
) -> Result<u32, Fail> {
    let mut files = 0u32;
    let mut choices = 1u32;
    for length in 0..=now.tail.len() {
        for choice in 0..choices {
            let mut file = Vec::new(rt.alloc());
            file.extend_from_slice(now.safe.as_slice())?;
            let mut rest = choice;
            for byte in now.tail.iter().take(length) {
                file.push(if rest % 2 == 1 { 0 } else { *byte })?;
                rest /= 2;
            }
            assert!(rt;
                survives(rt, now, file.as_slice())?,
                "choice {choice} of {length}"
            );
            files = files.saturating_add(1);
        }
        choices = choices.saturating_mul(2);
    }
    Ok(files)
}

#[test]
fn survives_each_stop(rt: HostRuntime) -> Result<(), Fail> {
    let Ran { ended, desk } = serve(rt, &mut FIRST.chain(SECOND), 0);
    assert_eq!(rt; ended, Ok(()));
    assert!(rt; desk.told.as_slice() == TOLD);
    let last = moment_after(rt.alloc(), desk.deeds.as_slice())?;
    assert!(rt; last.safe.as_slice() == JOURNAL && last.tail.is_empty());
    assert!(rt; last.told.as_slice() == TOLD);
    let mut files = 0u32;
    for moment in 0..=desk.deeds.len() {
        let now = moment_after(rt.alloc(), &desk.deeds.as_slice()[..moment])?;
        files = files.saturating_add(survive_each(&rt, &now)?);
    }
    // The tails have 0, 2, 3, 4, 0, 0, 4, 5, 10 and four times 0 bytes. At n bytes there are 2^(n + 1) - 1 files.
    assert_eq!(rt; files, 2201);
    Ok(())
}

#[test]
fn tells_nothing_behind_a_failed_call(rt: HostRuntime) -> Result<(), Fail> {
    let mut fails_at = 0u32;
    for fault in CALLS {
        fails_at = fails_at.saturating_add(1);
        let Ran { ended, desk } = serve(rt, &mut FIRST.chain(SECOND), fails_at);
        assert_eq!(rt; ended, Err(fault), "call {fails_at}");
        assert!(rt; TOLD.starts_with(desk.told.as_slice()), "call {fails_at}");
        for moment in 0..=desk.deeds.len() {
            let now = moment_after(rt.alloc(), &desk.deeds.as_slice()[..moment])?;
            let synced = now.safe.iter().filter(|byte| **byte == b'\n').count();
            assert!(rt;
                last_told(now.told.as_slice()) <= synced as u64,
                "call {fails_at}"
            );
            assert!(rt; survive_each(&rt, &now)? > 0, "call {fails_at}");
        }
    }
    let Ran { ended, desk: _ } = serve(rt, &mut FIRST.chain(SECOND), 13);
    assert_eq!(rt; ended, Ok(()));
    Ok(())
}

/// A line of `count` plus signs, and its line feed.
fn pluses(alloc: Global, count: usize) -> Result<Vec<u8>, AllocError> {
    let mut line = Vec::new(alloc);
    line.resize(count, b'+')?;
    line.push(b'\n')?;
    Ok(line)
}

#[test]
fn keeps_the_longest_line_and_none_that_is_longer(rt: HostRuntime) -> Result<(), Fail> {
    let longest = pluses(rt.alloc(), LONGEST_LINE)?;
    let longer = pluses(rt.alloc(), LONGEST_LINE + 1)?;
    let mut input = longest
        .as_slice()
        .chain(longer.as_slice())
        .chain(b"++\n+".as_slice());
    let Ran { ended, desk } = serve(rt, &mut input, 0);
    assert_eq!(rt; ended, Ok(()));
    assert!(rt; desk.told.as_slice() == b"1 262144\n2 bad\n3 262146\n".as_slice());
    let mut journal = pluses(rt.alloc(), LONGEST_LINE)?;
    journal.extend_from_slice(b"\n++\n")?;
    let last = moment_after(rt.alloc(), desk.deeds.as_slice())?;
    assert!(rt; last.safe.as_slice() == journal.as_slice() && last.tail.is_empty());
    let Again { ended, told } = run_again(&rt, journal.as_slice(), Some(3));
    assert!(rt;
        ended
            == Ok(JournalEnd {
                lines: 3,
                bytes: 262_149
            })
    );
    assert!(rt; told.as_slice() == b"3 262146\n".as_slice());
    assert!(rt; run_again(&rt, longer.as_slice(), None).ended == Err(Stop::BadLine(1)));
    assert!(rt; run_again(&rt, journal.as_slice(), None).told.is_empty());
    Ok(())
}

#[test]
fn finds_the_end_of_a_journal(rt: HostRuntime) {
    for (file, lines, bytes, wanted) in [
        (b"".as_slice(), 0, 0, b"".as_slice()),
        (b"+".as_slice(), 0, 0, b"".as_slice()),
        (b"+\n# a comment\n++\n", 3, 17, b"1 1\n3 3\n"),
        (b"+\n\n++", 2, 3, b"1 1\n"),
        (b"+\n+\0+\n+\n", 1, 2, b"1 1\n"),
        (b"+\n\0\n+\n", 1, 2, b"1 1\n"),
        (b"+\n++\nno\0\n", 2, 5, b"1 1\n2 3\n"),
    ] {
        let Again { ended, told } = run_again(&rt, file, Some(1));
        assert!(rt; ended == Ok(JournalEnd { lines, bytes }));
        assert!(rt; told.as_slice() == wanted);
    }
}

#[test]
fn names_the_first_line_that_is_none_of_a_journal(rt: HostRuntime) {
    for (file, number, wanted) in [
        (b"no\n".as_slice(), 1, b"".as_slice()),
        (b"+\n\n+-\n+\nno\n", 3, b"1 1\n"),
        (b"+\n++\n+ \n\0\n", 3, b"1 1\n2 3\n"),
    ] {
        let Again { ended, told } = run_again(&rt, file, Some(1));
        assert!(rt; ended == Err(Stop::BadLine(number)));
        assert!(rt; told.as_slice() == wanted);
    }
}
