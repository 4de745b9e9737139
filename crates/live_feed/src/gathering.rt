//! Lines that come together.

ghost use Rattle.std.specs.Prelude.{◌≡◌, ◌+◌, ◌++◌, ◌<◌, ◌^◌, ◌∷◌, [], IfErr, OnOk, length, position, take};
ghost use Rattle.live_feed.specs.Reading.{HasGathered, whole_of};

use crate::reading::{KeptLine, LONGEST_LINE, next_line};
use line_script::ReadError;
use std::alloc::Global;
use std::io::BufRead;
use std::sync::Wait;

/// How many lines one thread is given together at most (this host's profile).
pub const MOST_LINES: usize = 2048;

/// How many bytes an answer may have on average if as many lines as may be were taken. Behind longer ones fewer are.
const LONG_ANSWER: usize = 256;

/// How many lines are taken at most, behind `most` at most whose answers have `bytes` bytes: `all`, or about half of
/// `most` if these are long.
pub(crate) fn most_behind(most: usize, all: usize, bytes: usize) -> usize {
    if bytes / LONG_ANSWER > all {
        most / 2 + 1
    } else {
        all
    }
}

/// Reads the next line, and those at hand behind it, `most` at most. It answers whether the input may go on.
pub(crate) fn gather<X: Wait, R: BufRead>(
    rt: &X,
    alloc: Global,
    most: usize,
    input: &mut R,
    lines: &mut Vec<KeptLine>,
) -> Result<bool, ReadError>
    ensures { HasGathered LONGEST_LINE (R.remaining input.old) (R.remaining input.new) lines.new.items result }
{
    lines.clear();
    for _ in 0..most {
        let mut line = KeptLine::new(alloc);
        match next_line(rt, input, &mut line)? {
            Some(more) => {
                keep(lines, line)?;
                if !more {
                    return Ok(true);
                }
            }
            None => return Ok(false),
        }
    }
    Ok(true)
}

/// Puts a line behind others. The error says that it is out of memory.
fn keep(lines: &mut Vec<KeptLine>, line: KeptLine) -> Result<(), ReadError>
    ensures kept { OnOk result (lines.new.items ≡ lines.old.items ++ line ∷ []) }
    ensures none { IfErr result (λ why. (why ≡ ReadError.NoMemory) × (lines.new.items ≡ lines.old.items)) }
{
    match lines.push(line) {
        Ok(()) => Ok(()),
        Err(_) => Err(ReadError::NoMemory),
    }
}

/// The lines before the first that has a byte 0.
pub(crate) fn whole_lines(lines: &[KeptLine]) -> &[KeptLine]
    ensures { result.now ≡ whole_of lines.now }
{
    match first_hole(lines) {
        Some(place) => &lines[..place],
        None => lines,
    }
}

/// The place of the first line that has a byte 0.
fn first_hole(lines: &[KeptLine]) -> Option<usize>
    ensures { result ≡ position (λ h. h.hole) lines.now }
{
    lines.iter().position(|line| line.is_holed())
}

/// Those of the lines for which a number below 2^64 is left behind `count` others.
pub(crate) fn numbered(count: u64, lines: &[KeptLine]) -> &[KeptLine]
    ensures first { result.now ≡ take (length result.now) lines.now }
    ensures numbers { count + length result.now < 2 ^ 64 }
    ensures none { length result.now < length lines.now → count + length result.now + 1 ≡ 2 ^ 64 }
{
    let left = u64::MAX - count;
    if (lines.len() as u64) <= left {
        lines
    } else {
        &lines[..left as usize]
    }
}
