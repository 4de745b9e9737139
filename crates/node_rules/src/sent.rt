//! What a node sends of its position in balloting.

ghost use Rattle.std.specs.Prelude.{◌≡◌, option_map};
ghost use Rattle.scp_types.specs.declared.state.Phase.{Phase};
ghost use Rattle.scp_spec.specs.States.{prepared_as_sent, sent_in, sent_vote};

use crate::positions::{commit_counter, high_counter, position};
use scp_types::{Ballot, LentBallot, LentStatement, Phase, Votes};

/// The ballot statement that a node with these votes sends; one without a ballot sends none. It takes no memory.
///
/// In [`Phase::Preparing`] nothing that is sent is above the node's ballot. If the highest ballot that it accepts as
/// prepared is, the greatest ballot of the same value that is not above is sent instead (after the Stellar Consensus
/// Protocol draft). If the aborted counter is above the ballot's counter, that counter is sent (this host's profile).
#[tactic(auto, unfolding(scp_spec::specs::States::sent_vote, scp_spec::specs::States::sent_in, scp_spec::specs::States::position, scp_spec::specs::States::position_in))]
#[inline(always)]
pub fn sent_vote<'a>(votes: &'a Votes) -> Option<LentStatement<'a>>
    ensures { result ≡ sent_vote votes.now }
{
    match votes.phase {
        Phase::Preparing => match &votes.ballot {
            None => None,
            Some(ballot) => Some(sent_prepare(votes, ballot)),
        },
        Phase::Committing | Phase::Externalized => position(votes),
    }
}

/// The PREPARE that is sent of these votes. `ballot` is the node's.
#[tactic(auto, unfolding(scp_spec::specs::States::sent_in))]
fn sent_prepare<'a>(votes: &'a Votes, ballot: &'a Ballot) -> LentStatement<'a>
    ensures { result ≡ sent_in Phase.Preparing votes.now ballot.now }
{
    let prepared = highest_accepted(ballot, &votes.prepared);
    let aborted_counter = votes.aborted.min(ballot.counter);
    let high_counter = high_counter(votes, ballot);
    let commit_counter = commit_counter(votes, ballot);
    LentStatement::prepare(
        LentBallot::of(ballot),
        prepared,
        (aborted_counter, high_counter, commit_counter),
    )
}

/// The highest accepted ballot, if there is one, as it is sent.
fn highest_accepted<'a>(ballot: &Ballot, prepared: &'a Option<Ballot>) -> Option<LentBallot<'a>>
    ensures { result ≡ option_map (prepared_as_sent ballot.now) prepared.now }
{
    match prepared {
        None => None,
        Some(prepared) => Some(prepared_as_sent(ballot, prepared)),
    }
}

/// The highest accepted ballot as it is sent: if it is above the ballot, the greatest of its value that is not. At
/// counter 0 there may be none, and then it stays above.
#[tactic(auto, unfolding(scp_spec::specs::States::prepared_as_sent))]
fn prepared_as_sent<'a>(ballot: &Ballot, prepared: &'a Ballot) -> LentBallot<'a>
    ensures { result ≡ prepared_as_sent ballot.now prepared.now }
{
    if *ballot < *prepared {
        let counter = if prepared.value > ballot.value {
            ballot.counter.saturating_sub(1)
        } else {
            ballot.counter
        };
        LentBallot::at(counter, &prepared.value)
    } else {
        LentBallot::of(prepared)
    }
}
