//! A live host between two calls.

ghost use Rattle.std.specs.Prelude.{◌≡◌, length, option_map, string_bytes};
ghost use Rattle.live_feed.specs.Served.{is_kept, reply_of};
ghost use Rattle.live_feed.specs.WholeLines.{given};
ghost use Rattle.live_embed.specs.Embedding.{HostHasAnswered, filled, just_made};

use crate::status::Status;
use live_feed::{Answer, LONGEST_LINE, LineServer};
use live_host::LiveHost;
use std::alloc::Global;
use std::marker::Model;

/// A live host, how many lines it was given, and the block of the last of them.
#[derive(Drop)]
pub struct Embedded {
    server: LiveHost,
    count: u64,
    block: String,
}

impl Model for Embedded {
    ghost use Rattle.std.specs.Prelude.{string_bytes};
    ghost use Rattle.std.specs.Coded.{codes};
    ghost use Rattle.scp_types.specs.Trees.{members_code};
    ghost use Rattle.live_embed.specs.Embedding.{Host};

    ghost Value = { Host };

    ghost coded = { Prim.hlevel (codes, members_code) };

    ghost view = { λ e. record { live = e.server; count = e.count; block = string_bytes e.block } };
}

impl Embedded {
    /// A host without networks, which was given no line. It takes no memory.
    pub(crate) fn new(alloc: Global, bytes: bool) -> Embedded
        ensures { result ≡ just_made bytes }
    {
        Embedded {
            server: LiveHost::new(alloc, bytes),
            count: 0,
            block: String::new(alloc),
        }
    }

    /// Answers the next line. If it is out of memory the host is no longer what it was, and nobody may use it.
    pub(crate) fn line(&mut self, alloc: Global, line: &[u8]) -> Status
        ensures { HostHasAnswered result line.now self.old self.new }
    {
        let Some(number) = self.count.checked_add(1) else {
            return Status::NoNumber;
        };
        match self.server.serve(alloc, number, given(line)) {
            Ok(answer) => {
                let (block, kept) = told(alloc, answer);
                self.count = number;
                self.block = block;
                if kept { Status::Kept } else { Status::Done }
            }
            // Memory: the line has no answer, and a part may have happened.
            Err(_) => Status::NoMemory,
        }
    }

    /// How long the block is. It is copied to the front of the room if it fits.
    pub(crate) fn block(&self, room: &mut [u8]) -> usize
        ensures length { result ≡ length self.now.block }
        ensures room { room.new ≡ filled self.now.block room.old }
    {
        let block = self.block.as_bytes();
        if block.len() <= room.len() {
            room[..block.len()].copy_from_slice(block);
        }
        block.len()
    }
}

/// A line as a live host is given it: `None` if it is too long.
fn given(line: &[u8]) -> Option<&[u8]>
    ensures { option_map (λ bytes. bytes.now) result ≡ given LONGEST_LINE line.now }
{
    if line.len() > LONGEST_LINE {
        None
    } else {
        Some(line)
    }
}

/// The block of an answer, and whether a journal keeps the line.
fn told(alloc: Global, answer: Option<Answer>) -> (String, bool)
    ensures block { string_bytes result.0 ≡ (reply_of answer).text }
    ensures kept { result.1 ≡ is_kept (reply_of answer) }
{
    match answer {
        Some(Answer { block, done }) => (block, done.is_some()),
        None => (String::new(alloc), false),
    }
}
