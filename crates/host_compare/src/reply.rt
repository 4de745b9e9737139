//! What a network answers to what is submitted to it.

ghost use Rattle.std.specs.Prelude.{◌≡◌, map};
ghost use Rattle.host_compare.specs.Replies.{reply_of_answer};

use scp_types::{Out, Refusal};
use std::marker::Model;

/// What a network answers to an event: what it gives out, or why it is refused.
#[derive(Drop)]
pub enum Reply {
    /// The event is applied, and gives out these.
    Done(Vec<Out>),
    /// The event is refused.
    Refused(Refusal),
}

/// Replies, in the order of their events.
///
/// Contracts see them as the replies of the protocol's definitions.
#[derive(Drop)]
pub struct Replies {
    replies: Vec<Reply>,
}

impl Model for Replies {
    ghost use Rattle.std.specs.Coded.{codes};
    ghost use Rattle.std.specs.Prelude.{List, map};
    ghost use Rattle.scp_types.specs.Trees.{members_code};
    ghost use Rattle.scp_spec.specs.Networks.{Reply};
    ghost use Rattle.host_compare.specs.Replies.{reply_of_answer};

    ghost Value = { List Reply };

    ghost coded = { Prim.hlevel (codes, members_code) };

    ghost view = { λ r. map reply_of_answer r.replies.items };
}

impl Replies {
    pub(crate) fn of(replies: Vec<Reply>) -> Replies
        ensures { result ≡ map reply_of_answer replies.items }
    {
        Replies { replies }
    }

    /// The replies, in order.
    pub fn as_slice(&self) -> &[Reply]
        ensures { map reply_of_answer result.now ≡ self.now }
    {
        &self.replies
    }
}
