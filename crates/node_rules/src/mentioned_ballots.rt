//! What the rules choose from: the ballots of which reached rows and the node itself speak.

ghost use Rattle.std.specs.Prelude.{◌++◌, option_to_list};
ghost use Rattle.scp_types.specs.declared.kind.Kind.{Kind};
ghost use Rattle.scp_voting.specs.Mentions.{mentioned_in};

use crate::search::Candidates;
use scp_types::{LentBallot, Statement};
use scp_voting::{Mention, Sight, better_mentioned};

/// The ballots that are mentioned in a way by the ballot rows of reached senders and by the node's own position.
/// Ballots whose counter is 0 do not count.
#[derive(Drop)]
pub(crate) struct MentionedBallots<'a, S> {
    pub sight: &'a S,
    pub own: &'a Option<Statement>,
}

impl<'a, S: Sight> Candidates for MentionedBallots<'a, S> {
    ghost listed = { λ s mention. mentioned_in mention ((S.seen s.sight.now).rows Kind.Ballot ++ option_to_list s.own.now) };

    fn next<'b>(&'b self, mention: Mention, bound: &Option<LentBallot>) -> Option<LentBallot<'b>> {
        let best = self.sight.next_mentioned(mention, bound);
        match self.own {
            None => best,
            Some(own) => better_mentioned(mention, best, bound, own),
        }
    }
}
