//! What answers the lines of a live host, and what is done with its answers.

ghost use Rattle.std.specs.Prelude.{◌≡◌, ◌+◌, ◌<◌, ◌^◌, length, map, true};
ghost use Rattle.std.specs.Io.KnownBytes.{Appends};
ghost use Rattle.live_feed.specs.Reading.{given_of};
ghost use Rattle.live_feed.specs.Served.{AreAnswered, reply_of};

use crate::reading::KeptLine;
use std::alloc::{AllocError, Global};
use std::collections::VecDeque;
use std::io::Write;
use std::thread::Threads;

/// What a line is answered.
#[derive(Drop)]
pub struct Answer {
    /// What is told: whole lines with their line feeds.
    pub block: String,
    /// What it did, if a journal keeps it. A line that no journal keeps has changed nothing.
    pub done: Option<Done>,
}

/// What a line that a journal keeps did to a network.
#[derive(Clone, Copy)]
pub struct Done {
    /// The number of the network.
    pub network: u32,
    /// What it did there.
    pub deed: Deed,
}

/// What a line did to its network.
#[derive(Clone, Copy)]
pub enum Deed {
    /// It declared the network, one of its nodes or its roster.
    Declared,
    /// It was an event that was refused. It still names the network, which takes no declaration after it.
    Refused,
    /// It was applied at this slot, and drew this much. The first such line opened the slot.
    Applied(u64, Drawn),
    /// It closed this slot, and drew this much.
    Closed(u64, Drawn),
    /// It took the network back.
    Dropped,
}

/// How much a line drew on the budgets of its network, with all that came of it.
#[derive(Clone, Copy)]
pub struct Drawn {
    /// Events.
    pub events: u64,
    /// Bytes of deliveries.
    pub bytes: u64,
    /// Openings and closings, of a network with a roster.
    pub opens: u64,
}

/// What answers the lines of a live host.
///
/// `serves` says what a line is answered, and which state it leaves.
pub trait LineServer {
    ghost use Rattle.std.specs.Prelude.{IfOk, option_map};
    ghost use Rattle.live_feed.specs.Served.{EmptyLinesAreSkipped, KeptLinesAreWhole, OnlyKeptLinesCount, Serving, reply_of};

    ghost serves: { Serving Self };

    ghost only_kept: { OnlyKeptLinesCount serves };

    ghost skipped: { EmptyLinesAreSkipped serves };

    ghost whole: { KeptLinesAreWhole serves };

    /// Answers a line with its number; `None` is a line that is too long. Nothing is told of an empty line or a
    /// comment. An error says that it is out of memory; then nothing is served any more.
    fn serve(
        &mut self,
        alloc: Global,
        number: u64,
        line: Option<&[u8]>,
    ) -> Result<Option<Answer>, AllocError>
        ensures { IfOk result (λ answer.
            serves self.old number (option_map (λ bytes. bytes.now) line.entry) (reply_of answer) self.new) };
}

/// What answers lines that came together.
pub trait BatchServer: LineServer {
    ghost use Rattle.std.specs.Prelude.{◌≡◌, ◌+◌, ◌<◌, ◌^◌, length, map};
    ghost use Rattle.std.specs.Thread.{IsSync};
    ghost use Rattle.live_feed.specs.Reading.{given_of};
    ghost use Rattle.live_feed.specs.Served.{AreAnswered, reply_of};

    /// How many lines it is best given together, at most: more if threads share them. No answer depends on it.
    fn lines_at_once(&self) -> usize;

    /// Answers lines as if one after the other, as [`serve_in_turn`] does, by threads if it has any. `count` lines came
    /// before them. If there are fewer answers than lines, it is out of memory; then nothing is served any more.
    fn serve_batch<X: Threads + Sync>(
        &mut self,
        rt: &X,
        alloc: Global,
        count: u64,
        lines: &[KeptLine],
    ) -> VecDeque<Option<Answer>>
        requires shared { IsSync X.row }
        requires numbers { count + length lines.now < 2 ^ 64 }
        ensures { (t : Self) × AreAnswered Self.serves self.old (count + 1) (map given_of lines.now) (map reply_of result.items) t × (length result.items ≡ length lines.now → t ≡ self.new) };
}

/// Answers lines one after the other, each by itself; `count` lines came before them. If there are fewer answers than
/// lines, it is out of memory.
pub fn serve_in_turn<S: LineServer>(
    server: &mut S,
    alloc: Global,
    count: u64,
    lines: &[KeptLine],
) -> VecDeque<Option<Answer>>
    requires { count + length lines.now < 2 ^ 64 }
    ensures { (t : S) × AreAnswered S.serves server.old (count + 1) (map given_of lines.now) (map reply_of result.items) t × (length result.items ≡ length lines.now → t ≡ server.new) }
{
    let mut answers = VecDeque::new(alloc);
    let mut number = count;
    for line in lines {
        number += 1;
        let Ok(answer) = server.serve(alloc, number, line.given()) else {
            return answers;
        };
        let Ok(()) = answers.push_back(answer) else {
            return answers;
        };
    }
    answers
}

/// Where a live host keeps its journal and tells what lines are answered.
///
/// `acts` says what was done, one after the other, if that is known, and `told` what was told. What a stop leaves of a
/// journal rests on what a sync promises: bytes that it found in the file stay. Each byte that was written later is as
/// it was written, or is 0, or the file ends before it.
pub trait Desk {
    ghost use Rattle.std.specs.Prelude.{◌≡◌, ◌∷◌, [], true, List, Option};
    ghost use Rattle.std.specs.Io.KnownBytes.{Appends, Keeps};
    ghost use Rattle.line_script.specs.Script.{Bytes};
    ghost use Rattle.live_feed.specs.Acts.{Act, Did, SyncedIf, WroteLine};
    ghost use Rattle.live_feed.specs.Acts.Act.{Told};

    ghost acts: { Self → Option (List Act) };

    ghost told: { Self → Option Bytes };

    /// Writes a line and a line feed behind what the journal has, and answers whether they stand there. If not, a
    /// beginning of the line may.
    fn append(&mut self, line: &[u8]) -> bool
        ensures done { WroteLine result line.now (acts self.old) (acts self.new) }
        ensures told { Keeps (told self.old) (told self.new) };

    /// Brings the journal to the disk, and answers whether it is there.
    fn sync(&mut self) -> bool
        ensures done { SyncedIf result (acts self.old) (acts self.new) }
        ensures told { Keeps (told self.old) (told self.new) };

    /// Tells these bytes, and answers whether they were written. If not, some of them may have been.
    fn tell(&mut self, text: &[u8]) -> bool
        ensures done { Did (acts self.old) (acts self.new) (Told text.now ∷ []) }
        ensures told { result ≡ true → Appends (told self.old) (told self.new) text.now };

    /// Says elsewhere why a line is bad, if it is and if that is asked for. The line is `None` if it is too long;
    /// `waiting` ends with the block that answers it.
    fn explain(&mut self, number: u64, line: Option<&[u8]>, waiting: &[u8])
        ensures done { acts self.new ≡ acts self.old }
        ensures told { told self.new ≡ told self.old };
}

/// Writes bytes and flushes them, and answers whether both were done.
pub fn write_and_flush<W: Write>(out: &mut W, text: &[u8]) -> bool
    ensures { result ≡ true → Appends (W.contents out.old) (W.contents out.new) text.now }
{
    out.write_all(text).is_ok() && out.flush().is_ok()
}
