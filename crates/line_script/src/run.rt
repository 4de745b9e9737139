//! Running a script: its lines go one by one through what runs them, and what they print is
//! written.

ghost use Rattle.std.specs.Prelude.{◌≡◌, ◌≢◌, ◌⊎◌, ◌<◌, ◌≤◌, ◌++◌, ◌∷◌, ℕ, [], length, map, option_map, string_bytes, vec_len, Err, IfOk, IfSome, OnOk, IsOkUnless};
ghost use Rattle.std.specs.Io.KnownBytes.{Appends, Keeps};
ghost use Rattle.line_script.specs.Runs.{Passes, LineFails, HasRunLine, HasRunText, HasRunScript, on_a_line};

use crate::input::{LONGEST_SCRIPT, ReadError, read_whole};
use crate::remaining::RemainingLines;
use crate::script::{Line, LineError, fields_of};
use std::alloc::Global;
use std::io::{Read, Write};

/// What runs the lines of one kind of script.
///
/// `tells` says what a line prints and which state it leaves, and `refuses` which lines are bad. Only running out of
/// memory is neither.
pub trait LineRunner {
    ghost use Rattle.line_script.specs.Runs.{BadLinesAreUntold, Telling, Refusing};

    ghost tells: { Telling Self };

    ghost refuses: { Refusing Self };

    /// Runs one line, given as its fields, of which there is at least one, and answers what it
    /// prints, without a line feed at the end. After an error nothing is run.
    fn line(&mut self, alloc: Global, fields: &[&[u8]]) -> Result<Option<String>, LineError>
        ensures told { IfOk result (λ printed.
            tells self.old (map (λ field. field.now) fields.now) (option_map string_bytes printed) self.new) }
        ensures bad { result ≡ Err LineError.Bad → refuses self.old (map (λ field. field.now) fields.now) };

    /// No line is both bad and told. So a line that is called bad is never told, and one that is run is not bad.
    ghost untold: { BadLinesAreUntold tells refuses };
}

/// Why a run ended before the end of its script.
#[derive(Clone, Copy, Debug, PartialEq, Eq)]
pub enum Stop {
    /// The file could not be opened or read. Of a file nothing was run, of a stream the lines before were.
    CannotRead,
    /// It is longer than a script may be. Of a file nothing was run, of a stream the lines before were.
    TooLong,
    /// The line with this number is bad. What the lines before it printed was written.
    BadLine(usize),
    /// There was no memory. What the lines before printed was written.
    NoMemory,
    /// A write failed, and nothing was written after it.
    CannotWrite,
}

impl From<ReadError> for Stop {
    ghost use Rattle.std.specs.Prelude.{◌≡◌};
    ghost use Rattle.line_script.specs.Stops.{stop_of_read};

    ghost from_gives = { λ error stop. stop ≡ stop_of_read error };

    fn from(error: ReadError) -> Stop {
        match error {
            ReadError::CannotRead => Stop::CannotRead,
            ReadError::TooLong => Stop::TooLong,
            ReadError::NoMemory => Stop::NoMemory,
        }
    }
}

/// Reads a script whole and runs its lines in order, up to the first that is bad. What they print is written as it
/// comes, and `out` is flushed at the end. So a caller with many short lines gives a writer that keeps them together.
/// If the script was not read, or a write failed, nothing is flushed.
pub fn run_script<S: LineRunner, R: Read, W: Write>(
    alloc: Global,
    runner: &mut S,
    script: &mut R,
    out: &mut W,
) -> Result<(), Stop>
    ensures done { OnOk result
        (IfSome (R.remaining script.old) (λ left. length left ≤ LONGEST_SCRIPT)) }
    ensures too_long { result ≡ Err Stop.TooLong
        → IfSome (R.remaining script.old) (λ left. LONGEST_SCRIPT < length left) }
    ensures ran { HasRunScript LONGEST_SCRIPT S.tells S.refuses runner.old
        (R.remaining script.old) (W.contents out.old) (W.contents out.new) result runner.new }
{
    match read_whole(alloc, script) {
        Ok(text) => {
            let ran = run_lines(alloc, runner, text, out);
            hand_on(ran, out)
        }
        Err(error) => Err(Stop::from(error)),
    }
}

/// Flushes what a run printed, and says how it ended. After a write that failed nothing is flushed.
fn hand_on<W: Write>(ran: Result<(), Stop>, out: &mut W) -> Result<(), Stop>
    ensures { (result ≡ Err Stop.CannotWrite) ⊎ ((result ≡ ran) × Keeps (W.contents out.old) (W.contents out.new)) }
{
    if ran != Err(Stop::CannotWrite) {
        flush(out)?;
    }
    ran
}

/// Flushes what was written.
pub(crate) fn flush<W: Write>(out: &mut W) -> Result<(), Stop>
    ensures kept { OnOk result (Keeps (W.contents out.old) (W.contents out.new)) }
    ensures failed { IsOkUnless result Stop.CannotWrite }
{
    match out.flush() {
        Ok(()) => Ok(()),
        Err(_) => Err(Stop::CannotWrite),
    }
}

/// Runs the lines of a text in order, up to the first that does not run.
fn run_lines<S: LineRunner, W: Write>(
    alloc: Global,
    runner: &mut S,
    text: Vec<u8>,
    out: &mut W,
) -> Result<(), Stop>
    requires { vec_len text ≤ LONGEST_SCRIPT }
    ensures { HasRunText S.tells S.refuses runner.old text.items
        (W.contents out.old) (W.contents out.new) result runner.new }
{
    let mut left = RemainingLines::of(text);
    loop {
        let Some(line) = left.first() else {
            return Ok(());
        };
        let bytes = line.bytes.len();
        run_line(alloc, runner, line, out)?;
        left.pass(bytes);
    }
}

/// Runs one line and writes what it prints.
pub(crate) fn run_line<S: LineRunner, W: Write>(
    alloc: Global,
    runner: &mut S,
    line: Line<'_>,
    out: &mut W,
) -> Result<(), Stop>
    ensures { HasRunLine S.tells S.refuses runner.old line.entry.number line.entry.bytes.now
        (W.contents out.old) (W.contents out.new) result runner.new }
{
    match answer(alloc, runner, line.bytes) {
        Ok(Some(text)) => print(out, text.as_str()),
        Ok(None) => Ok(()),
        Err(LineError::Bad) => Err(Stop::BadLine(line.number)),
        Err(LineError::NoMemory) => Err(Stop::NoMemory),
    }
}

/// Runs one line and answers what it prints.
fn answer<S: LineRunner>(
    alloc: Global,
    runner: &mut S,
    line: &[u8],
) -> Result<Option<String>, LineError>
    ensures passes { IfOk result (λ printed.
        Passes S.tells runner.old line.now (on_a_line (option_map string_bytes printed)) runner.new) }
    ensures fails { result ≡ Err LineError.Bad → LineFails S.refuses runner.old line.now }
{
    match fields_of(alloc, line) {
        Ok(Some(fields)) => runner.line(alloc, fields.as_slice()),
        Ok(None) => Ok(None),
        Err(error) => Err(error),
    }
}

/// Writes one printed line.
fn print<W: Write>(out: &mut W, text: &str) -> Result<(), Stop>
    ensures printed { OnOk result
        (Appends (W.contents out.old) (W.contents out.new) (text.now ++ 10 ∷ [])) }
    ensures failed { IsOkUnless result Stop.CannotWrite }
{
    match writeln!(out, "{text}") {
        Ok(()) => Ok(()),
        Err(_) => Err(Stop::CannotWrite),
    }
}
