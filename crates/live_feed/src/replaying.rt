//! Running the lines of a journal again, up to its end.

ghost use Rattle.std.specs.Prelude.{◌≡◌, ◌+◌, ◌<◌, ◌^◌, false, length, map, Err, IfErr, IfOk, IsOkUnless, OnOk};
ghost use Rattle.std.specs.Io.KnownBytes.{Appends};
ghost use Rattle.live_feed.specs.Reading.{given_of};
ghost use Rattle.live_feed.specs.Served.{is_kept, reply_of};
ghost use Rattle.live_feed.specs.Replayed.{HasReplayed, HasReplayedLine, HasReplayedLines, IsJournalReply, is_told, told_if};

use crate::answering::{Answer, BatchServer, LineServer};
use crate::gathering::{gather, most_behind, numbered, whole_lines};
use crate::reading::{KeptLine, LONGEST_LINE};
use line_script::Stop;
use std::io::{BufRead, Write};
use std::sync::Wait;
use std::thread::Threads;

/// Where a journal ends.
#[derive(Clone, Copy, Debug, PartialEq, Eq)]
pub struct JournalEnd {
    /// How many lines it has before its end.
    pub lines: u64,
    /// How many bytes these lines have, with their line feeds.
    pub bytes: u64,
}

/// Has the lines of a journal answered again, up to its end. That is before the first line that has a byte 0 in it or
/// lacks its line feed. What lines from the number `from` on are answered is written; of the others, and without a
/// number, nothing is. Only lines that come in one read are kept, and their answers. They are answered together, as
/// many as the server takes at once, and fewer behind answers of many bytes.
///
/// It stops early if a line is no line of a journal ([`Stop::BadLine`], with its number). Such a line is too long, or
/// its answer says that a journal does not keep it. It also stops if a read or a write fails, or if it is out of
/// memory. And it stops if no number below 2^64 is left for the lines or their bytes ([`Stop::TooLong`]).
pub fn replay<X: Threads + Wait + AllocGlobal + Sync, S: BatchServer, R: BufRead, W: Write>(
    rt: &X,
    server: &mut S,
    journal: &mut R,
    from: Option<u64>,
    out: &mut W,
) -> Result<JournalEnd, Stop>
    ensures { HasReplayed S.serves LONGEST_LINE from server.old (R.remaining journal.old) (W.contents out.old) (W.contents out.new) result server.new }
{
    let alloc = rt.alloc();
    let mut lines = Vec::new(alloc);
    let mut end = JournalEnd { lines: 0, bytes: 0 };
    let mut most = server.lines_at_once();
    for _ in rt.forever() {
        let read = gather(rt, alloc, most, journal, &mut lines);
        let whole = whole_lines(lines.as_slice());
        let mut answered = 0;
        end = replay_lines(rt, server, whole, Place { from, end }, out, &mut answered)?;
        most = most_behind(most, server.lines_at_once(), answered);
        if whole.len() < lines.len() || !read? {
            return Ok(end);
        }
    }
    unreachable!()
}

/// Where the journal ends before a line, and from which line on answers are told.
#[derive(Clone, Copy)]
struct Place {
    from: Option<u64>,
    end: JournalEnd,
}

/// Has lines answered again, and tells the answers that are asked for. It answers where the journal ends behind them,
/// and adds to `answered` how many bytes all their answers have.
fn replay_lines<X: Threads + AllocGlobal + Sync, S: BatchServer, W: Write>(
    rt: &X,
    server: &mut S,
    lines: &[KeptLine],
    place: Place,
    out: &mut W,
    answered: &mut usize,
) -> Result<JournalEnd, Stop>
    ensures { HasReplayedLines S.serves place.from server.old place.end (map given_of lines.now) (W.contents out.old) (W.contents out.new) result server.new }
{
    let Place { from, mut end } = place;
    let numbered = numbered(end.lines, lines);
    let mut answers = server.serve_batch(rt, rt.alloc(), end.lines, numbered);
    for line in numbered {
        match answers.pop_front() {
            Some(answer) => {
                *answered = answered.saturating_add(length_of(&answer));
                end = take_line::<S, W>(line, answer, Place { from, end }, out)?;
            }
            // Memory: an answer is missing, so there was none for it.
            None => return Err(Stop::NoMemory),
        }
    }
    if numbered.len() < lines.len() {
        return Err(Stop::TooLong);
    }
    Ok(end)
}

fn length_of(answer: &Option<Answer>) -> usize {
    match answer {
        Some(answer) => answer.block.len(),
        None => 0,
    }
}

/// Takes a line that was answered again, and tells its answer if that is asked for. It answers where the journal ends
/// behind it.
fn take_line<S: LineServer, W: Write>(
    line: &KeptLine,
    answer: Option<Answer>,
    place: Place,
    out: &mut W,
) -> Result<JournalEnd, Stop>
    requires { place.end.lines + 1 < 2 ^ 64 }
    ensures { (s t : S) → S.serves s (place.end.lines + 1) line.now.given (reply_of answer) t → HasReplayedLine S.serves place.from s place.end line.now.given (W.contents out.old) (W.contents out.new) result t }
{
    let number = place.end.lines + 1;
    let Some(bytes) = line.given() else {
        drop(answer);
        return Err(Stop::BadLine(number as usize));
    };
    tell_again(answer, number, place.from, out)?;
    end_behind(place.end, number, bytes)
}

/// Tells what a line of a journal was answered, if that is asked for and it is a line of a journal.
fn tell_again<W: Write>(
    answer: Option<Answer>,
    number: u64,
    from: Option<u64>,
    out: &mut W,
) -> Result<(), Stop>
    ensures told { OnOk result (IsJournalReply (reply_of answer) × Appends (W.contents out.old) (W.contents out.new) (told_if (is_told from number) (reply_of answer).text)) }
    ensures bad { (n : _) → result ≡ Err (Stop.BadLine n) → (n ≡ number) × (is_kept (reply_of answer) ≡ false) }
{
    let Some(Answer { block, done }) = answer else {
        return Ok(());
    };
    let told = if done.is_none() {
        Err(Stop::BadLine(number as usize))
    } else if is_told(from, number) {
        write_block(out, block.as_str())
    } else {
        Ok(())
    };
    drop(block);
    told
}

/// The end behind a line with this number. The error says that there are too many bytes.
fn end_behind(end: JournalEnd, number: u64, line: &[u8]) -> Result<JournalEnd, Stop>
    ensures behind { IfOk result (λ now. (now.lines ≡ number) × (now.bytes ≡ end.bytes + length line.now + 1)) }
    ensures none { IfErr result (λ why. why ≡ Stop.TooLong) }
{
    let Some(bytes) = end.bytes.checked_add(line.len() as u64) else {
        return Err(Stop::TooLong);
    };
    match bytes.checked_add(1) {
        Some(bytes) => Ok(JournalEnd {
            lines: number,
            bytes,
        }),
        None => Err(Stop::TooLong),
    }
}

/// Whether a line with this number is told.
fn is_told(from: Option<u64>, number: u64) -> bool
    ensures { result ≡ is_told from number }
{
    match from {
        Some(first) => first <= number,
        None => false,
    }
}

/// Writes what a line was answered.
fn write_block<W: Write>(out: &mut W, block: &str) -> Result<(), Stop>
    ensures written { OnOk result (Appends (W.contents out.old) (W.contents out.new) block.now) }
    ensures failed { IsOkUnless result Stop.CannotWrite }
{
    match out.write_all(block.as_bytes()) {
        Ok(()) => Ok(()),
        Err(_) => Err(Stop::CannotWrite),
    }
}
