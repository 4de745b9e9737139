//! The part of a host that one thread at a time answers for.

ghost use Rattle.std.specs.Prelude.{◌≡◌, ◌+◌, [], map};
ghost use Rattle.live_feed.specs.Reading.{given_of};
ghost use Rattle.live_feed.specs.Served.{reply_of};
ghost use Rattle.live_host.specs.Hosts.{new_live};
ghost use Rattle.live_shards.specs.Parts.{AreOwnAnswered};
ghost use Rattle.live_shards.specs.Sharded.{HasAnsweredItsOwn};

use crate::batch::Batch;
use live_feed::{Answer, LineServer};
use live_host::LiveHost;
use pool_queue::Task;
use std::alloc::Global;
use std::collections::VecDeque;

/// A live host, and what it answered of lines that are not gathered yet.
#[derive(Drop)]
pub(crate) struct Shard {
    pub host: LiveHost,
    pub answers: VecDeque<Option<Answer>>,
}

impl Shard {
    /// A shard without networks. It takes no memory.
    pub(crate) fn new(alloc: Global, bytes: bool) -> Shard
        ensures host { result.host ≡ new_live bytes }
        ensures idle { result.answers.items ≡ [] }
    {
        Shard {
            host: LiveHost::new(alloc, bytes),
            answers: VecDeque::new(alloc),
        }
    }

    /// Answers those of the lines that go to this place, one after the other, until it is out of memory.
    fn work(&mut self, place: usize, batch: Batch<'_>)
        requires { self.old.answers.items ≡ [] }
        ensures { AreOwnAnswered place self.old.host (batch.entry.count + 1) (map given_of batch.entry.lines.now) batch.entry.places.now (map reply_of self.new.answers.items) self.new.host }
    {
        let Batch {
            alloc,
            count,
            lines,
            places,
        } = batch;
        for at in 0..lines.len() {
            if places[at] == place {
                let number = count + 1 + at as u64;
                let Ok(answer) = self.host.serve(alloc, number, lines[at].given()) else {
                    return;
                };
                let Ok(()) = self.answers.push_back(answer) else {
                    return;
                };
            }
        }
    }
}

/// A shard that is to answer those of the lines that go to its place.
#[derive(Drop)]
pub(crate) struct Errand<'a> {
    pub shard: Shard,
    pub place: usize,
    pub batch: Batch<'a>,
}

impl<'a> Task for Errand<'a> {
    ghost does = { HasAnsweredItsOwn };

    fn run(&mut self) {
        self.shard.answers.clear();
        self.shard.work(self.place, self.batch);
    }
}
