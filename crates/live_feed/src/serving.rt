//! Serving the lines of a live host as they come.

ghost use Rattle.std.specs.Prelude.{◌≡◌, ◌+◌, ◌++◌, ◌<◌, ◌^◌, [], IfErr, IfOk, OnErr, OnOk, map};
ghost use Rattle.std.specs.Io.KnownBytes.{Keeps};
ghost use Rattle.live_feed.specs.Hosted.{HasDone, HasHostedStream};
ghost use Rattle.live_feed.specs.Reading.{given_of};
ghost use Rattle.live_feed.specs.Served.{is_kept, kept_as, reply_of};
ghost use Rattle.live_feed.specs.Steps.{HasServedLine, HasServedLines, HasTold};

use crate::answering::{Answer, BatchServer, Desk};
use crate::fault::Fault;
use crate::gathering::{gather, most_behind, numbered};
use crate::reading::{KeptLine, LONGEST_LINE};
use std::alloc::{AllocError, Global};
use std::io::BufRead;
use std::sync::Wait;
use std::thread::Threads;

/// A live host at work: what answers its lines, and how many there were.
#[derive(Drop)]
pub struct Feed<S: BatchServer> {
    alloc: Global,
    server: S,
    count: u64,
    most: usize,
    waiting: Vec<u8>,
}

impl<S: BatchServer> Feed<S> {
    /// A host of which `count` lines have been served.
    pub fn new(alloc: Global, server: S, count: u64) -> Feed<S>
        ensures server { result.server ≡ server }
        ensures count { result.count ≡ count }
        ensures waiting { result.waiting.items ≡ [] }
    {
        let most = server.lines_at_once();
        Feed {
            alloc,
            server,
            count,
            most,
            waiting: Vec::new(alloc),
        }
    }

    /// Reads lines until the input ends, and has each of them answered, with its number, counted over all lines. A line
    /// stands in the journal, and the journal is on the disk, before its answer is told. The lines at hand go there
    /// together, and what they are answered is told before a further one is waited for.
    ///
    /// A line ends with its line feed, and is given without it; what stands behind the last line feed when the input
    /// ends is no line. One with more than [`LONGEST_LINE`] bytes is given as too long, and skipped.
    ///
    /// It stops early at a [`Fault`]. If a read fails, no number is left, or it is out of memory, the lines before have
    /// been told. If a line cannot be written to the journal they have been told too, unless they could not be brought
    /// to the disk.
    pub fn serve<X: Threads + Wait + Sync, R: BufRead, D: Desk>(
        &mut self,
        rt: &X,
        input: &mut R,
        desk: &mut D,
    ) -> Result<(), Fault>
        requires { self.old.waiting.items ≡ [] }
        ensures { HasHostedStream S.serves LONGEST_LINE self.old.server (self.old.count + 1) (R.remaining input.old) (R.remaining input.new)
            (HasDone (D.acts desk.old) (D.acts desk.new) (D.told desk.old) (D.told desk.new)) result self.new.server }
    {
        let mut lines = Vec::new(self.alloc);
        for _ in rt.forever() {
            let read = gather(rt, self.alloc, self.most, input, &mut lines);
            let served = self.serve_lines(rt, lines.as_slice(), desk);
            self.tell(desk)?;
            served?;
            if !read? {
                return Ok(());
            }
        }
        unreachable!()
    }

    /// Has lines answered, and writes each of them to the journal.
    fn serve_lines<X: Threads + Sync, D: Desk>(
        &mut self,
        rt: &X,
        lines: &[KeptLine],
        desk: &mut D,
    ) -> Result<(), Fault>
        ensures served { HasServedLines S.serves self.old.server self.old.count (map given_of lines.now) self.old.waiting.items
            (D.acts desk.old) (D.acts desk.new) result self.new.waiting.items self.new.count self.new.server }
        ensures told { Keeps (D.told desk.old) (D.told desk.new) }
    {
        let numbered = numbered(self.count, lines);
        let mut answers = self
            .server
            .serve_batch(rt, self.alloc, self.count, numbered);
        for line in numbered {
            match answers.pop_front() {
                Some(answer) => self.settle(line, answer, desk)?,
                // Memory: an answer is missing, so there was none for it.
                None => return Err(Fault::NoMemory),
            }
        }
        if numbered.len() < lines.len() {
            return Err(Fault::TooLong);
        }
        Ok(())
    }

    /// Writes a line that was answered to the journal. Its answer waits to be told.
    fn settle<D: Desk>(
        &mut self,
        line: &KeptLine,
        answer: Option<Answer>,
        desk: &mut D,
    ) -> Result<(), Fault>
        requires { self.old.count + 1 < 2 ^ 64 }
        ensures served { OnOk result ((s t : S) → S.serves s (self.old.count + 1) line.now.given (reply_of answer) t → HasServedLine S.serves s self.old.count line.now.given self.old.waiting.items
            (D.acts desk.old) (D.acts desk.new) result self.new.waiting.items self.new.count t) }
        ensures unserved { IfErr result (λ why. (s t : S) → HasServedLine S.serves s self.old.count line.now.given self.old.waiting.items
            (D.acts desk.old) (D.acts desk.new) result self.new.waiting.items self.new.count t) }
        ensures told { Keeps (D.told desk.old) (D.told desk.new) }
        ensures server { self.new.server ≡ self.old.server }
    {
        let told = self.waiting.len();
        let kept = push_answer(&mut self.waiting, answer)?;
        if desk.append(journal_line(line, kept)) {
            self.count += 1;
            if told < self.waiting.len() {
                desk.explain(self.count, line.given(), self.waiting.as_slice());
            }
            Ok(())
        } else {
            self.waiting.truncate(told);
            Err(Fault::NotAppended)
        }
    }

    /// Brings what was written to the disk, and then tells what lines were answered.
    fn tell<D: Desk>(&mut self, desk: &mut D) -> Result<(), Fault>
        ensures told { HasTold self.old.waiting.items (D.acts desk.old) (D.acts desk.new) (D.told desk.old) (D.told desk.new) result self.new.waiting.items }
        ensures same { (self.new.server ≡ self.old.server) × (self.new.count ≡ self.old.count) }
    {
        if !desk.sync() {
            return Err(Fault::NotSynced);
        }
        if !desk.tell(self.waiting.as_slice()) {
            return Err(Fault::CannotWrite);
        }
        let all = self.server.lines_at_once();
        self.most = most_behind(self.most, all, self.waiting.len());
        self.waiting.clear();
        Ok(())
    }
}

/// Adds what is told of a line, and answers whether the journal keeps the line.
fn push_answer(waiting: &mut Vec<u8>, answer: Option<Answer>) -> Result<bool, AllocError>
    ensures answered { IfOk result (λ kept. (kept ≡ is_kept (reply_of answer)) × (waiting.new.items ≡ waiting.old.items ++ (reply_of answer).text)) }
    ensures unanswered { OnErr result (waiting.new.items ≡ waiting.old.items) }
{
    match answer {
        None => Ok(false),
        Some(Answer { block, done }) => {
            let pushed = waiting.extend_from_slice(block.as_str().as_bytes());
            drop(block);
            pushed?;
            Ok(done.is_some())
        }
    }
}

/// The line of the journal that stands for a line: the line, or an empty one.
fn journal_line(line: &KeptLine, kept: bool) -> &[u8]
    ensures { result.now ≡ kept_as line.now.given kept }
{
    match line.given() {
        Some(bytes) if kept => bytes,
        _ => &[],
    }
}
