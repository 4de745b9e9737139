//! Going on from a journal.

ghost use Rattle.std.specs.Prelude.{◌≡◌, IfErr, IfOk};
ghost use Rattle.std.specs.Io.KnownBytes.{Appends};
ghost use Rattle.live_journal.specs.Resuming.{HasFirst, HasReplayedFile, HasResumed, resumed_line};

use crate::fault::JournalFault;
use live_feed::{BatchServer, JournalEnd, LONGEST_LINE, Lasting, LineServer, READ_SIZE, replay};
use std::fs::File;
use std::io::{BufReader, Seek, SeekFrom, Write, sink};
use std::sync::Wait;
use std::thread::Threads;

/// Has the lines of a journal answered, up to its end, cuts the file there and brings it to the disk. Then it writes
/// `resumed L`, and answers L, which is how many lines the file has. What lines from the number `from` on are answered
/// is written before that; of the others, and without a number, nothing is.
///
/// After an error the file has the lines that it had; behind their end it may have been cut
/// ([`JournalFault::CannotWrite`], [`JournalFault::CannotTell`]).
pub fn resume<X: Threads + Wait + AllocGlobal + Sync, S: BatchServer, W: Write>(
    rt: &X,
    file: &File,
    server: &mut S,
    from: Option<u64>,
    out: &mut W,
) -> Result<u64, JournalFault>
    ensures { HasResumed S.serves LONGEST_LINE from server.old (W.contents out.old) (W.contents out.new) result server.new }
{
    let end = replay_file(rt, file, server, from, out)?;
    if file.set_len(end.bytes).is_err() || file.sync_all().is_err() {
        return Err(JournalFault::CannotWrite);
    }
    write_resumed(end.lines, out)
}

/// The number of the first line of a journal that concerns a slot which is still open at its end; `None` if no slot is
/// open. The lines are answered by `server`, which has no networks yet. The file is as it was.
pub fn first_open_line<X: Threads + Wait + AllocGlobal + Sync, S: LineServer + Drop>(
    rt: &X,
    file: &File,
    server: S,
) -> Result<Option<u64>, JournalFault>
    ensures { HasFirst S.serves LONGEST_LINE server result }
{
    let mut lasting = Lasting::new(rt.alloc(), server);
    let replayed = replay_file(rt, file, &mut lasting, None, &mut sink());
    let first = lasting.first_line();
    drop(lasting);
    match replayed {
        Ok(_) => Ok(first),
        Err(fault) => Err(fault),
    }
}

/// Has the lines of a file answered, from its beginning up to its end.
fn replay_file<X: Threads + Wait + AllocGlobal + Sync, S: BatchServer, W: Write>(
    rt: &X,
    file: &File,
    server: &mut S,
    from: Option<u64>,
    out: &mut W,
) -> Result<JournalEnd, JournalFault>
    ensures { HasReplayedFile S.serves LONGEST_LINE from server.old (W.contents out.old) (W.contents out.new) result server.new }
{
    let mut start = file;
    if start.seek(SeekFrom::Start(0)).is_err() {
        return Err(JournalFault::CannotRead);
    }
    let Ok(mut reader) = BufReader::with_capacity(rt.alloc(), READ_SIZE, file) else {
        return Err(JournalFault::NoMemory);
    };
    let replayed = replay(rt, server, &mut reader, from, out);
    drop(reader);
    Ok(replayed?)
}

/// Writes how many lines a journal has, and flushes it.
fn write_resumed<W: Write>(lines: u64, out: &mut W) -> Result<u64, JournalFault>
    ensures written { IfOk result (λ n. (n ≡ lines) × Appends (W.contents out.old) (W.contents out.new) (resumed_line lines)) }
    ensures failed { IfErr result (λ why. why ≡ JournalFault.CannotTell) }
{
    let written = writeln!(out, "resumed {lines}");
    if written.is_ok() && out.flush().is_ok() {
        Ok(lines)
    } else {
        Err(JournalFault::CannotTell)
    }
}
