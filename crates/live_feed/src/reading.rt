//! Reading one line in bounded memory.

ghost use Rattle.std.specs.Prelude.{◌≡◌, ◌≢◌, ◌==◌, option_map, position, IfErr, IfOk, OnOk};
ghost use Rattle.live_feed.specs.Reading.{IsNextLine, IsNextPiece, longer, nothing_held};
ghost use Rattle.live_feed.specs.WholeLines.{has_hole};

use line_script::ReadError;
use memchr::memchr;
use std::alloc::{AllocError, Global};
use std::io::{BufRead, Error, ErrorKind};
use std::marker::Model;
use std::sync::Wait;

/// The longest line of a live host, in bytes, without its line feed (this host's profile).
pub const LONGEST_LINE: usize = 262_144;

/// How many bytes of lines are read at a time (this host's profile).
pub const READ_SIZE: usize = 262_144;

/// A line as far as it has come. Of one with more than `LONGEST_LINE` bytes it shows only that, and whether one of its
/// bytes is 0.
#[derive(Drop)]
pub struct KeptLine {
    bytes: Vec<u8>,
    too_long: bool,
    hole: bool,
}

impl Model for KeptLine {
    ghost use Rattle.std.specs.Prelude.{◌≤◌, Some, None, length, if◌then◌else◌};
    ghost use Rattle.live_feed.specs.Reading.{HeldLine};
    ghost use Rattle.live_feed.specs.declared.reading.TheConstants.{LONGEST_LINE};

    ghost Value = { HeldLine };

    ghost view = { λ line. record { given = if line.too_long then None else Some line.bytes.items; hole = line.hole } };

    ghost invariant = { λ line. length line.bytes.items ≤ LONGEST_LINE };
}

impl KeptLine {
    /// A line of which nothing has come yet.
    pub(crate) fn new(alloc: Global) -> KeptLine
        ensures { result ≡ nothing_held }
    {
        KeptLine {
            bytes: Vec::new(alloc),
            too_long: false,
            hole: false,
        }
    }

    /// Lets go of the line, for the next one, of which nothing has come yet.
    fn clear(&mut self)
        ensures { self.new ≡ nothing_held }
    {
        self.bytes.clear();
        self.too_long = false;
        self.hole = false;
    }

    /// Takes what comes next of the line.
    fn add(&mut self, more: &[u8]) -> Result<(), AllocError>
        ensures { OnOk result (self.new ≡ longer LONGEST_LINE self.old more.now) }
    {
        self.hole = self.hole || has_hole(more);
        if !self.too_long {
            if more.len() > LONGEST_LINE - self.bytes.len() {
                self.too_long = true;
            } else {
                self.bytes.extend_from_slice(more)?;
            }
        }
        Ok(())
    }

    /// The line, or `None` if it is too long.
    pub fn given(&self) -> Option<&[u8]>
        ensures { option_map (λ bytes. bytes.now) result ≡ self.now.given }
    {
        if self.too_long {
            None
        } else {
            Some(self.bytes.as_slice())
        }
    }

    /// Whether a byte of the line is 0.
    pub(crate) fn is_holed(&self) -> bool
        ensures { result ≡ self.now.hole }
    {
        self.hole
    }
}

/// Whether one of these bytes is 0.
fn has_hole(bytes: &[u8]) -> bool
    ensures { result ≡ has_hole bytes.now }
{
    first_place(bytes, 0).is_some()
}

/// What was read last of a line.
pub(crate) enum Piece {
    /// Bytes behind which the line goes on.
    Part,
    /// The last bytes of the line, and its line feed; and whether a further line is at hand, which needs no waiting.
    Last(bool),
    /// Nothing: the input has ended.
    End,
}

/// Reads the next line and the line feed behind it, and answers whether a further line is at hand, which needs no
/// waiting. `None` says that the input has ended; what stood behind its last line feed is no line.
///
/// A line with more than `LONGEST_LINE` bytes is read to its line feed and not kept. After an error a part of the line
/// may have been read.
pub(crate) fn next_line<X: Wait, R: BufRead>(
    rt: &X,
    reader: &mut R,
    line: &mut KeptLine,
) -> Result<Option<bool>, ReadError>
    ensures next { IfOk result (IsNextLine LONGEST_LINE (R.remaining reader.old) (R.remaining reader.new) line.new) }
    ensures failed { IfErr result (λ why. why ≢ ReadError.TooLong) }
{
    line.clear();
    for _ in rt.forever() {
        match read_piece(reader, line)? {
            Piece::Part => {}
            Piece::Last(more) => return Ok(Some(more)),
            Piece::End => return Ok(None),
        }
    }
    unreachable!()
}

/// Reads what the reader has at hand of a line, or waits for more.
fn read_piece<R: BufRead>(reader: &mut R, line: &mut KeptLine) -> Result<Piece, ReadError>
    ensures next { IfOk result (IsNextPiece LONGEST_LINE (R.remaining reader.old) (R.remaining reader.new) line.old line.new) }
    ensures failed { IfErr result (λ why. why ≢ ReadError.TooLong) }
{
    let available = match reader.fill_buf() {
        Ok(available) => available,
        Err(error) => return after_error(&error),
    };
    if available.is_empty() {
        return Ok(Piece::End);
    }
    match first_place(available, b'\n') {
        Some(end) => {
            add_piece(line, &available[..end])?;
            let more = first_place(&available[end + 1..], b'\n').is_some();
            reader.consume(end + 1);
            Ok(Piece::Last(more))
        }
        None => {
            let length = available.len();
            add_piece(line, available)?;
            reader.consume(length);
            Ok(Piece::Part)
        }
    }
}

/// What follows a read that failed: one that was interrupted has read nothing, and is done again.
fn after_error(error: &Error) -> Result<Piece, ReadError>
    ensures again { IfOk result (λ piece. piece ≡ Piece.Part) }
    ensures failed { IfErr result (λ why. why ≢ ReadError.TooLong) }
{
    match error.kind() {
        ErrorKind::Interrupted => Ok(Piece::Part),
        ErrorKind::OutOfMemory => Err(ReadError::NoMemory),
        _ => Err(ReadError::CannotRead),
    }
}

/// Takes what comes next of the line, as a step of a read.
fn add_piece(line: &mut KeptLine, more: &[u8]) -> Result<(), ReadError>
    ensures added { OnOk result (line.new ≡ longer LONGEST_LINE line.old more.now) }
    ensures failed { IfErr result (λ why. why ≢ ReadError.TooLong) }
{
    match line.add(more) {
        Ok(()) => Ok(()),
        Err(_) => Err(ReadError::NoMemory),
    }
}

/// The place of the first such byte.
pub(crate) fn first_place(bytes: &[u8], at: u8) -> Option<usize>
    ensures { result ≡ position (λ byte. byte == at) bytes.now }
{
    memchr(at, bytes)
}
