//! The first ballot.
//!
//! An error of a function here says that it is out of memory, or that values have too many owners.

ghost use Rattle.std.specs.Prelude.{◌≡◌, IfOk, None, OnOk, filter};
ghost use Rattle.node_rules.specs.Drafted.{after};
ghost use Rattle.scp_spec.specs.Candidates.{combine, greatest, named_ballots};
ghost use Rattle.scp_spec.specs.Balloting.{is_accepted, start, with_first_ballot};

use crate::Draft;
use crate::checks::{PrepareAt, Stage};
use crate::counters::combine;
use crate::mentioned_ballots::MentionedBallots;
use crate::positions::own_position;
use crate::search::greatest_of;
use scp_types::{Ballot, Votes};
use scp_voting::{Mention, Sight};
use std::alloc::{AllocError, Global};

/// Sets the first ballot if there is none: counter 1 with the combined confirmed value. If no value is confirmed, it is
/// the greatest named ballot whose prepare is accepted, with its counter (the latter is this host's profile).
#[tactic(auto, unfolding(scp_spec::specs::Balloting::start))]
pub fn start<S: Sight>(alloc: Global, sight: &S, draft: &mut Draft<'_>) -> Result<(), AllocError>
    ensures { OnOk result (draft.new ≡ after (start (S.seen sight.now)) draft.old) }
{
    if draft.votes().ballot.is_some() {
        return Ok(());
    }
    match first_ballot(alloc, sight, draft.votes())? {
        None => Ok(()),
        Some(ballot) => draft.set_ballot(ballot),
    }
}

/// The first ballot, if there may be one.
#[tactic(auto, unfolding(scp_spec::specs::Balloting::with_first_ballot))]
fn first_ballot<S: Sight>(
    alloc: Global,
    sight: &S,
    votes: &Votes,
) -> Result<Option<Ballot>, AllocError>
    ensures { IfOk result (λ o. record votes.now { ballot = o } ≡ with_first_ballot (S.seen sight.now) votes.now (combine votes.now.confirms)) }
{
    match combine(&votes.confirms) {
        None => greatest_with_prepare_accepted(alloc, sight, votes),
        Some(value) => Ok(Some(Ballot {
            counter: 1,
            value: value.try_copy()?,
        })),
    }
}

/// The greatest named ballot whose prepare is accepted.
fn greatest_with_prepare_accepted<S: Sight>(
    alloc: Global,
    sight: &S,
    votes: &Votes,
) -> Result<Option<Ballot>, AllocError>
    ensures { IfOk result (λ o. o ≡ greatest None (filter (is_accepted (S.seen sight.now) votes.now) (named_ballots (S.seen sight.now) votes.now))) }
{
    let own = own_position(votes)?;
    let candidates = MentionedBallots { sight, own: &own };
    let check = PrepareAt {
        stage: Stage::Accepted,
        sight,
        own: &own,
    };
    greatest_of(alloc, Mention::Named, &candidates, &check)
}
