//! Running a script as it comes: each line is answered before the next one is waited for.

ghost use Rattle.std.specs.Prelude.{◌≡◌, ◌<◌, ◌≤◌, length, vec_len, Err, IfOk, IfSome};
ghost use Rattle.std.specs.Io.BufRead.{ends_with_byte, strip_last};
ghost use Rattle.line_script.specs.Runs.{HasRunLine};
ghost use Rattle.line_script.specs.Streams.{HasRunStream, IsNext};

use crate::input::{LONGEST_SCRIPT, ReadError};
use crate::run::{LineRunner, Stop, flush, run_line};
use crate::script::Line;
use std::alloc::Global;
use std::io::{BufRead, ErrorKind, Read, Write};

/// Reads a script line by line and runs each line before it waits for the next one, up to the first
/// that is bad. What a line prints is written, and `out` flushed, before the next line is waited for.
///
/// Lines, their numbers and the limit are those of [`crate::run_script`], which reads its script whole first. Here the
/// lines before a fault have been run, whatever the fault. It may be a read that fails ([`Stop::CannotRead`]), a line
/// with which there are more than `LONGEST_SCRIPT` bytes ([`Stop::TooLong`]), or running out of memory for a line. What
/// the lines before printed stays printed. A last line without a line feed is run at the end of the input, and nothing
/// is read after it.
pub fn run_stream<S: LineRunner, R: BufRead, W: Write>(
    alloc: Global,
    runner: &mut S,
    script: &mut R,
    out: &mut W,
) -> Result<(), Stop>
    ensures { HasRunStream LONGEST_SCRIPT S.tells S.refuses runner.old
        (R.remaining script.old) (W.contents out.old) (W.contents out.new) result runner.new }
{
    // One byte more than a script may have, so that one that is too long shows.
    let mut limited = script.take(LONGEST_SCRIPT as u64 + 1);
    run_limited(alloc, runner, &mut limited, out)
}

/// Runs the lines that a reader gives.
fn run_limited<S: LineRunner, R: BufRead, W: Write>(
    alloc: Global,
    runner: &mut S,
    script: &mut R,
    out: &mut W,
) -> Result<(), Stop>
    ensures { HasRunStream LONGEST_SCRIPT S.tells S.refuses runner.old
        (R.remaining script.old) (W.contents out.old) (W.contents out.new) result runner.new }
{
    let mut number = 1;
    let mut room = LONGEST_SCRIPT;
    loop {
        let bytes = next_bytes(alloc, script, room)?;
        if bytes.is_empty() {
            return Ok(());
        }
        let (line, is_ended) = without_feed(&bytes);
        answer_line(
            alloc,
            runner,
            Line {
                number,
                bytes: line,
            },
            out,
        )?;
        if !is_ended {
            return Ok(());
        }
        room -= bytes.len();
        number += 1;
    }
}

/// The next bytes of a reader, up to its next line feed, at most `room` of them. If there are none, nothing is left.
fn next_bytes<R: BufRead>(alloc: Global, reader: &mut R, room: usize) -> Result<Vec<u8>, ReadError>
    ensures next { IfOk result (λ bytes. IsNext (R.remaining reader.old) (R.remaining reader.new) bytes.items) }
    ensures fits { IfOk result (λ bytes. vec_len bytes ≤ room) }
    ensures too_long { result ≡ Err ReadError.TooLong → IfSome (R.remaining reader.old) (λ left. room < length left) }
{
    let mut bytes = Vec::new(alloc);
    match reader.read_until(b'\n', &mut bytes) {
        Ok(_) if bytes.len() > room => Err(ReadError::TooLong),
        Ok(_) => Ok(bytes),
        Err(error) if error.kind() == ErrorKind::OutOfMemory => Err(ReadError::NoMemory),
        Err(_) => Err(ReadError::CannotRead),
    }
}

/// The bytes without a line feed at their end, and whether there was one.
fn without_feed(bytes: &[u8]) -> (&[u8], bool)
    ensures line { result.0.now ≡ strip_last 10 bytes.now }
    ensures ended { result.1 ≡ ends_with_byte 10 bytes.now }
{
    match bytes {
        [line @ .., b'\n'] => (line, true),
        _ => (bytes, false),
    }
}

/// Runs one line and flushes what it prints.
fn answer_line<S: LineRunner, W: Write>(
    alloc: Global,
    runner: &mut S,
    line: Line<'_>,
    out: &mut W,
) -> Result<(), Stop>
    ensures { HasRunLine S.tells S.refuses runner.old line.entry.number line.entry.bytes.now
        (W.contents out.old) (W.contents out.new) result runner.new }
{
    run_line(alloc, runner, line, out)?;
    flush(out)
}
