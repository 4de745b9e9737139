//! A live host that ends if its journal could not tell what it did.

ghost use Rattle.std.specs.Prelude.{◌≡◌, ◌<◌, ◌≤◌, IfOk, false, length, map, take};
ghost use Rattle.live_feed.specs.Served.{reply_of};
ghost use Rattle.live_host.specs.Blocks.{TellsOfNoWant};
ghost use Rattle.live_host.specs.Hosts.{new_live};
ghost use Rattle.scphost.specs.Remembering.{AllTellOfNoWant};

use live_feed::{Answer, BatchServer, KeptLine, LineServer};
use live_shards::ShardedHost;
use std::alloc::{AllocError, Global};
use std::collections::VecDeque;
use std::marker::Model;
use std::thread::Threads;

/// A live host of which a journal is kept.
///
/// If an event or a hearing is refused because it is out of memory, the host answers that it is out of memory itself.
/// When the line is run again there might be enough, and then the journal would not tell what happened.
#[derive(Drop)]
pub struct RememberedHost {
    host: ShardedHost,
}

impl Model for RememberedHost {
    ghost use Rattle.std.specs.Coded.{codes};
    ghost use Rattle.scp_types.specs.Trees.{members_code};
    ghost use Rattle.live_host.specs.Hosts.{Live};

    ghost Value = { Live };

    ghost coded = { Prim.hlevel (codes, members_code) };

    ghost view = { λ remembered. remembered.host };
}

impl RememberedHost {
    /// A host without networks for `workers` workers, which prints envelopes as bytes if that is asked for. An error
    /// says that it is out of memory.
    pub fn new(alloc: Global, bytes: bool, workers: usize) -> Result<RememberedHost, AllocError>
        requires { 0 < workers }
        ensures { IfOk result (λ host. host ≡ new_live bytes) }
    {
        let host = ShardedHost::new(alloc, bytes, workers)?;
        Ok(RememberedHost { host })
    }
}

impl LineServer for RememberedHost {
    ghost use Rattle.live_host.specs.Hosts.{Remembers};
    ghost use Rattle.live_host.specs.Keeping.{empty_lines_are_remembered, only_remembered_lines_count, remembered_lines_are_whole};

    ghost serves = { Remembers };

    ghost only_kept = { only_remembered_lines_count };

    ghost skipped = { empty_lines_are_remembered };

    ghost whole = { remembered_lines_are_whole };

    fn serve(
        &mut self,
        alloc: Global,
        number: u64,
        line: Option<&[u8]>,
    ) -> Result<Option<Answer>, AllocError> {
        let answer = self.host.serve(alloc, number, line)?;
        if lacked_memory(&answer) {
            drop(answer);
            // Memory: the host had none for an event or a hearing.
            return Err(AllocError);
        }
        Ok(answer)
    }
}

impl BatchServer for RememberedHost {
    fn lines_at_once(&self) -> usize {
        self.host.lines_at_once()
    }

    /// The answers before the first that says that it was out of memory.
    fn serve_batch<R: Threads + Sync>(
        &mut self,
        rt: &R,
        alloc: Global,
        count: u64,
        lines: &[KeptLine],
    ) -> VecDeque<Option<Answer>> {
        let mut answers = self.host.serve_batch(rt, alloc, count, lines);
        let told = told_of(&answers);
        answers.truncate(told);
        answers
    }
}

/// How many answers there are before the first that says that it was out of memory.
fn told_of(answers: &VecDeque<Option<Answer>>) -> usize
    ensures all { AllTellOfNoWant (take result (map reply_of answers.now.items)) }
    ensures few { result ≤ length answers.now.items }
{
    for told in 0..answers.len() {
        if lacked_memory(&answers[told]) {
            return told;
        }
    }
    answers.len()
}

/// Whether an event or a hearing was refused because it was out of memory. No other line of a block has these words.
fn lacked_memory(answer: &Option<Answer>) -> bool
    ensures { result ≡ false → TellsOfNoWant (reply_of answer.now).text }
{
    match answer {
        // Memory: these words say that there was none.
        Some(answer) => answer.block.as_str().contains(" refused 13 NoMemory\n"),
        None => false,
    }
}
