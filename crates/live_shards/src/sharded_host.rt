//! A live host in shards.

ghost use Rattle.std.specs.Prelude.{◌≡◌, ◌<◌, ◌≤◌, ◌+◌, ◌++◌, ◌∷◌, ◌^◌, ℕ, true, false, IfNone, IfOk, IfSome, List, Option, [], length, map, nat_lt, not, slice_index_or};
ghost use Rattle.std.specs.List.{All};
ghost use Rattle.live_feed.specs.Reading.{given_of};
ghost use Rattle.live_feed.specs.Served.{AreAnswered, reply_of};
ghost use Rattle.live_feed.specs.declared.answering.Answer.{Answer};
ghost use Rattle.live_host.specs.Hosts.{Live, Serves, new_live};
ghost use Rattle.live_shards.specs.Parts.{AreGathered, ArePlaced, networks_of_all};
ghost use Rattle.live_shards.specs.Sharded.{AllLess, AreErrands, AreAnsweredUntil, AreBatchAnswered, AreShards, hosts_of, waiting_answers};
ghost use Rattle.live_shards.specs.declared.shard.Errand.{Errand};
ghost use Rattle.live_shards.specs.declared.shard.Shard.{Shard};

use crate::batch::Batch;
use crate::dealing::{Dealt, answer_in_vain, deal};
use crate::shard::{Errand, Shard};
use live_feed::{Answer, BatchServer, KeptLine, LineServer, MOST_LINES, serve_in_turn};
use live_host::{LiveHost, MOST_NETWORKS};
use pool_queue::do_all;
use std::alloc::{AllocError, Global};
use std::collections::VecDeque;
use std::marker::Model;
use std::mem::{replace, swap};
use std::thread::Threads;

/// Fewer lines than this are answered one after the other, since to start threads for them would take longer.
const FEW_LINES: usize = 16;

/// How many shards there are for each of several threads. A thread that has its own behind it takes one that is left. So
/// a thread that is held up by others of the machine, or a shard with more to do, holds up nobody for long.
const SHARDS_A_THREAD: usize = 16;

/// For how many threads lines are taken together at most: all of these lines and their answers are kept at a time.
const MOST_SHARES: usize = 4;

/// A live host whose networks are shared out among shards, which threads answer for. Contracts see it as one live host,
/// with the networks of all shards. If a line that was dealt has no answer because it is out of memory, shards may have
/// answered lines behind it. So no further line is answered.
#[derive(Drop)]
pub struct ShardedHost {
    shards: Vec<Shard>,
    threads: usize,
    lost: bool,
}

impl Model for ShardedHost {
    ghost use Rattle.std.specs.Coded.{codes};
    ghost use Rattle.scp_types.specs.Trees.{members_code};
    ghost use Rattle.live_host.specs.Hosts.{Live};
    ghost use Rattle.live_shards.specs.Parts.{joined};
    ghost use Rattle.live_shards.specs.Sharded.{AreShards, hosts_of};

    ghost Value = { Live };

    ghost coded = { Prim.hlevel (codes, members_code) };

    ghost view = { λ h. joined (hosts_of h.shards.items) };

    ghost invariant = { λ h. AreShards h.lost h.shards.items };
}

impl ShardedHost {
    /// A host without networks, for this many threads, which prints envelopes as bytes if `bytes` is set. An error says
    /// that it is out of memory.
    pub fn new(alloc: Global, bytes: bool, threads: usize) -> Result<ShardedHost, AllocError>
        requires { 0 < threads }
        ensures { IfOk result (λ host. host ≡ new_live bytes) }
    {
        let count = if threads < 2 {
            1
        } else {
            threads.saturating_mul(SHARDS_A_THREAD)
        };
        let mut shards = Vec::with_capacity(alloc, count)?;
        for _made in 0..count {
            shards.push_reserved(Shard::new(alloc, bytes));
        }
        Ok(ShardedHost {
            shards,
            threads,
            lost: false,
        })
    }

    /// The answers to lines, by all shards side by side; `count` lines stand before them. `None` says that one of them
    /// may declare a network, or that there is no memory to deal them out. Then nothing was done. If there are fewer
    /// answers than lines, it is out of memory, and no further line is answered.
    fn serve_together<R: Threads + Sync>(
        &mut self,
        rt: &R,
        alloc: Global,
        count: u64,
        lines: &[KeptLine],
    ) -> Option<VecDeque<Option<Answer>>>
        requires some { 0 < length lines.now }
        requires numbers { count + length lines.now < 2 ^ 64 }
        ensures none { IfNone result (self.new ≡ self.old) }
        ensures answered { IfSome result (λ answers. AreAnsweredUntil self.old (count + 1) (map given_of lines.now) (map reply_of answers.items) self.new) }
    {
        if self.lost {
            // Memory: there was none for a line before.
            return Some(VecDeque::new(alloc));
        }
        let places = places_of(alloc, lines, self.shards.len())?;
        let batch = Batch {
            alloc,
            count,
            lines,
            places: places.as_slice(),
        };
        let Some(answers) = serve_dealt(rt, self.threads, &mut self.shards, batch) else {
            drop(places);
            return None;
        };
        self.lost = answers.len() < lines.len();
        drop(places);
        Some(answers)
    }

    /// The answers to lines, by all shards side by side, or in turn if that cannot be; `count` lines stand before them.
    fn serve_shared<R: Threads + Sync>(
        &mut self,
        rt: &R,
        alloc: Global,
        count: u64,
        lines: &[KeptLine],
    ) -> VecDeque<Option<Answer>>
        requires some { 0 < length lines.now }
        requires numbers { count + length lines.now < 2 ^ 64 }
        ensures { (t : Live) × AreAnswered Serves self.old (count + 1) (map given_of lines.now) (map reply_of result.items) t × (length result.items ≡ length lines.now → t ≡ self.new) }
    {
        match self.serve_together(rt, alloc, count, lines) {
            Some(answers) => answers,
            None => serve_in_turn(self, alloc, count, lines),
        }
    }
}

/// How many lines stand up to the last one that begins as one does that declares a network.
fn up_to_nets(lines: &[KeptLine]) -> usize
    ensures { result ≤ length lines.now }
{
    let mut last = 0;
    for (place, line) in lines.iter().enumerate() {
        if let Some([b'n', b'e', b't', ..]) = line.given() {
            last = place + 1;
        }
    }
    last
}

/// Adds answers behind others, and answers whether all were. If not, it is out of memory, and the last are let go.
fn add_behind(answers: &mut VecDeque<Option<Answer>>, mut more: VecDeque<Option<Answer>>) -> bool
    ensures all { result ≡ true → answers.new.items ≡ answers.old.items ++ more.items }
    ensures some { result ≡ false → (a : Option Answer) × (left : List (Option Answer)) × (answers.new.items ++ (a ∷ left) ≡ answers.old.items ++ more.items) }
{
    while let Some(answer) = more.pop_front() {
        if answers.push_back(answer).is_err() {
            drop(more);
            return false;
        }
    }
    true
}

/// Whether as many networks are declared in all shards as may be.
fn are_full(shards: &[Shard]) -> bool
    ensures { result ≡ not (nat_lt (networks_of_all (hosts_of shards.now)) 4096) }
{
    let mut left = MOST_NETWORKS;
    for shard in shards {
        let count = shard.host.len();
        if count >= left {
            return true;
        }
        left -= count;
    }
    false
}

/// Whether there is room for the network that a line may declare.
fn has_room(dealt: Dealt, shards: &[Shard]) -> bool
    ensures room { result ≡ true → dealt.declares ≡ true → networks_of_all (hosts_of shards.now) < 4096 }
    ensures none { result ≡ false → (dealt.declares ≡ true) × (4096 ≤ networks_of_all (hosts_of shards.now)) }
{
    !dealt.declares || !are_full(shards)
}

/// To which shards lines go; `None` if one of them may declare a network, or it is out of memory.
fn places_of(alloc: Global, lines: &[KeptLine], count: usize) -> Option<Vec<usize>>
    requires { 0 < count }
    ensures { IfSome result (λ places. ArePlaced count (map given_of lines.now) places.items) }
{
    let mut places = Vec::with_capacity(alloc, lines.len()).ok()?;
    for line in lines {
        let dealt = deal(line.given(), count);
        if dealt.declares {
            drop(places);
            return None;
        }
        places.push_reserved(dealt.place);
    }
    Some(places)
}

/// An errand for each shard, which leaves an empty one in its place. `None` says that it is out of memory; then nothing
/// has changed.
fn errands<'a>(shards: &mut [Shard], batch: Batch<'a>) -> Option<Vec<Errand<'a>>>
    ensures none { IfNone result (shards.new ≡ shards.old) }
    ensures some { IfSome result (λ errands. AreErrands batch.entry shards.old errands.items) }
    ensures idle { IfSome result (λ _. All (λ s. s.answers.items ≡ []) shards.new) }
    ensures length { length shards.new ≡ length shards.old }
{
    let mut errands = Vec::with_capacity(batch.alloc, shards.len()).ok()?;
    for place in 0..shards.len() {
        let shard = replace(&mut shards[place], Shard::new(batch.alloc, false));
        errands.push_reserved(Errand {
            shard,
            place,
            batch,
        });
    }
    Some(errands)
}

/// Puts each shard back in its place.
fn bring_back(shards: &mut [Shard], mut errands: Vec<Errand<'_>>)
    requires { length errands.items ≡ length shards.old }
    ensures back { (k : ℕ) (d : Shard) (e : Errand) → k < length shards.old → slice_index_or shards.new k d ≡ (slice_index_or errands.entry.items k e).shard }
    ensures length { length shards.new ≡ length shards.old }
{
    for place in 0..shards.len() {
        swap(&mut shards[place], &mut errands[place].shard);
    }
    drop(errands);
}

/// The answers of all shards in the order of these places, until one is missing.
fn gather(alloc: Global, shards: &mut [Shard], places: &[usize]) -> VecDeque<Option<Answer>>
    requires { AllLess (length shards.old) places.now }
    ensures gathered { AreGathered places.now (waiting_answers shards.old) (map reply_of result.items) }
    ensures hosts { hosts_of shards.new ≡ hosts_of shards.old }
{
    let mut answers = VecDeque::new(alloc);
    for place in places {
        let Some(answer) = shards[*place].answers.pop_front() else {
            return answers;
        };
        let Ok(()) = answers.push_back(answer) else {
            return answers;
        };
    }
    answers
}

/// Lets go of all answers that were not gathered.
fn rest(shards: &mut [Shard])
    ensures idle { All (λ s. s.answers.items ≡ []) shards.new }
    ensures hosts { hosts_of shards.new ≡ hosts_of shards.old }
{
    for place in 0..shards.len() {
        shards[place].answers.clear();
    }
}

/// The answers to lines, by their shards, until one is missing. `None` says that there is no memory to share them out;
/// then nothing has changed.
fn serve_dealt<R: Threads + Sync>(
    rt: &R,
    threads: usize,
    shards: &mut [Shard],
    batch: Batch<'_>,
) -> Option<VecDeque<Option<Answer>>>
    requires shards { AreShards false shards.old }
    requires some { 0 < length batch.lines.now }
    requires places { ArePlaced (length shards.old) (map given_of batch.lines.now) batch.places.now }
    ensures none { IfNone result (shards.new ≡ shards.old) }
    ensures answered { IfSome result (λ answers. AreBatchAnswered shards.old (batch.entry.count + 1) (map given_of batch.entry.lines.now) (map reply_of answers.items) shards.new) }
    ensures idle { IfSome result (λ _. All (λ s. s.answers.items ≡ []) shards.new) }
    ensures length { length shards.new ≡ length shards.old }
{
    let errands = errands(shards, batch)?;
    let Some(errands) = do_all(rt, batch.alloc, errands, threads) else {
        // A shard did not come back, which no thread lets happen.
        return Some(VecDeque::new(batch.alloc));
    };
    bring_back(shards, errands);
    let answers = gather(batch.alloc, shards, batch.places);
    rest(shards);
    Some(answers)
}

impl LineServer for ShardedHost {
    ghost use Rattle.live_host.specs.Hosts.{Serves};
    ghost use Rattle.live_host.specs.Keeping.{live_empty_lines_are_skipped, live_kept_lines_are_whole, live_only_kept_lines_count};

    ghost serves = { Serves };

    ghost only_kept = { live_only_kept_lines_count };

    ghost skipped = { live_empty_lines_are_skipped };

    ghost whole = { live_kept_lines_are_whole };

    /// The answer to a line, by the shard to which it goes. One that may declare a network is bad if all shards have
    /// 4,096 together. An error says that it is out of memory; then the line has no answer. If that was so in its
    /// shard, no further line has one.
    fn serve(
        &mut self,
        alloc: Global,
        number: u64,
        line: Option<&[u8]>,
    ) -> Result<Option<Answer>, AllocError> {
        if self.lost {
            // Memory: there was none for a line before.
            return Err(AllocError);
        }
        let dealt = deal(line, self.shards.len());
        if !has_room(dealt, &self.shards) {
            return answer_in_vain(alloc, number, line);
        }
        let answered = self.shards[dealt.place].host.serve(alloc, number, line);
        self.lost = answered.is_err();
        answered
    }
}

impl BatchServer for ShardedHost {
    /// [`MOST_LINES`] for each thread, for at most `MOST_SHARES` of them. A thread is given that many since to start it
    /// takes as long as some lines, and may wait until a processor is free.
    fn lines_at_once(&self) -> usize {
        let shares = if self.threads < MOST_SHARES {
            self.threads
        } else {
            MOST_SHARES
        };
        shares * MOST_LINES
    }

    /// Answers lines, each by the shard to which it goes, and those of different shards in different threads. They are
    /// answered in turn if they are few, if there is one shard, or if there is no memory to deal them out. So are those
    /// up to the last that may declare a network, since its limit counts the networks of all shards.
    fn serve_batch<R: Threads + Sync>(
        &mut self,
        rt: &R,
        alloc: Global,
        count: u64,
        lines: &[KeptLine],
    ) -> VecDeque<Option<Answer>> {
        let turn = up_to_nets(lines);
        if lines.len() - turn < FEW_LINES || self.shards.len() < 2 {
            return serve_in_turn(self, alloc, count, lines);
        }
        if turn == 0 {
            return self.serve_shared(rt, alloc, count, lines);
        }
        let (first, others) = lines.split_at(turn);
        let mut answers = serve_in_turn(self, alloc, count, first);
        if answers.len() < turn {
            return answers;
        }
        let more = self.serve_shared(rt, alloc, count + turn as u64, others);
        if !add_behind(&mut answers, more) {
            self.lost = true;
        }
        answers
    }
}
