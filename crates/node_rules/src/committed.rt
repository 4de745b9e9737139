//! What is accepted and confirmed as committed.
//!
//! An error of a function here says that it is out of memory, or that values have too many owners.

ghost use Rattle.std.specs.Prelude.{◌≡◌, ◌∷◌, [], IfOk, OnOk, Some};
ghost use Rattle.node_rules.specs.Intervals.{moved_to};
ghost use Rattle.node_rules.specs.Stages.{has_come_to};
ghost use Rattle.node_rules.specs.Drafted.{after};
ghost use Rattle.scp_spec.specs.Candidates.{commits, greatest, lowest};
ghost use Rattle.scp_spec.specs.Balloting.{accept_commit, confirm_commit, confirmed_commit, enter_commit, externalize, first_committed, next_committed, widen_commit};
ghost use Rattle.scp_spec.specs.Passes.{on_ballot};
ghost use Rattle.scp_spec.specs.States.{position};
ghost use Rattle.scp_types.specs.declared.state.Votes.{Votes};
ghost use Rattle.scp_voting.specs.declared.claim.Claim.TheVariants.{Commit};

use crate::Draft;
use crate::checks::Stage;
use crate::intervals::{CommitConfirmed, CommitUpTo, EntersCommit, WidensCommit};
use crate::lowest::lowest_of;
use crate::mentioned_ballots::MentionedBallots;
use crate::positions::follow;
use crate::search::greatest_of;
use scp_types::{Ballot, Phase, Statement, Votes};
use scp_voting::{Mention, Sight};
use std::alloc::{AllocError, Global};

/// Accepts commit. In [`scp_types::Phase::Preparing`]: of the greatest counter, over all values, that is
/// accepted as committed, confirmed as prepared and not aborted, with the widest interval below it, and
/// the phase becomes [`scp_types::Phase::Committing`]. In that phase: of a greater counter of the ballot's
/// value (after the Stellar Consensus Protocol draft). Without a ballot nothing changes.
#[tactic(auto, unfolding(scp_spec::specs::Balloting::accept_commit))]
pub fn accept_commit<S: Sight>(
    alloc: Global,
    sight: &S,
    own: &mut Option<Statement>,
    draft: &mut Draft<'_>,
) -> Result<(), AllocError>
    requires { own.old ≡ position draft.old.now }
    ensures draft { OnOk result (draft.new ≡ after (on_ballot (λ b w. accept_commit w.phase (S.seen sight.now) b w)) draft.old) }
    ensures position { OnOk result (own.new ≡ position draft.new.now) }
{
    match draft.votes().phase {
        Phase::Preparing => enter_commit(alloc, sight, own, draft),
        Phase::Committing => widen_commit(alloc, sight, own, draft),
        Phase::Externalized => Ok(()),
    }
}

/// The greatest counter, over all values, that is accepted as committed, confirmed as prepared and not
/// aborted.
#[tactic(auto, unfolding(scp_spec::specs::Balloting::first_committed, scp_spec::specs::Candidates::commits))]
fn first_committed<S: Sight>(
    alloc: Global,
    sight: &S,
    own: &Option<Statement>,
    votes: &Votes,
) -> Result<Option<Ballot>, AllocError>
    requires { own.now ≡ position votes.now }
    ensures { IfOk result (λ t. t ≡ first_committed (S.seen sight.now) votes.now) }
{
    let candidates = MentionedBallots { sight, own };
    let test = EntersCommit { sight, own, votes };
    greatest_of(alloc, Mention::Committed, &candidates, &test)
}

/// The greatest counter of the ballot's value above the interval that is accepted as committed.
#[tactic(auto, unfolding(scp_spec::specs::Balloting::next_committed, scp_spec::specs::Candidates::commits))]
fn next_committed<S: Sight>(
    alloc: Global,
    sight: &S,
    own: &Option<Statement>,
    ballot: &Ballot,
    votes: &Votes,
) -> Result<Option<Ballot>, AllocError>
    requires { own.now ≡ position votes.now }
    ensures { IfOk result (λ t. t ≡ next_committed (S.seen sight.now) ballot.now votes.now) }
{
    let candidates = MentionedBallots { sight, own };
    let test = WidensCommit {
        sight,
        own,
        value: &ballot.value,
        high: votes.high,
    };
    greatest_of(alloc, Mention::Committed, &candidates, &test)
}

/// The least commit counter of the value from which on the interval up to the counter of `end` has come to this stage.
#[tactic(auto, unfolding(scp_spec::specs::Candidates::commits))]
fn interval_from<S: Sight>(
    alloc: Global,
    stage: Stage,
    sight: &S,
    own: &Option<Statement>,
    end: &Ballot,
) -> Result<u32, AllocError>
    ensures { (w : Votes) → own.now ≡ position w → IfOk result (λ n. n ≡ lowest (λ low. has_come_to stage (S.seen sight.now) (position w) (Commit end.now.value low end.now.counter)) end.now.value end.now.counter (commits (S.seen sight.now) w)) }
{
    let candidates = MentionedBallots { sight, own };
    let test = CommitUpTo {
        stage,
        sight,
        own,
        high: end.counter,
    };
    lowest_of(alloc, Mention::Committed, &candidates, &test, end)
}

/// The phase becomes [`scp_types::Phase::Committing`], with the interval up to the first counter, if there is one. The
/// ballot, the highest accepted and the highest confirmed one are then not below that.
#[tactic(auto, unfolding(scp_spec::specs::Balloting::enter_commit, scp_spec::specs::Balloting::accepted_from))]
fn enter_commit<S: Sight>(
    alloc: Global,
    sight: &S,
    own: &mut Option<Statement>,
    draft: &mut Draft<'_>,
) -> Result<(), AllocError>
    requires { own.old ≡ position draft.old.now }
    ensures draft { OnOk result (draft.new ≡ after (on_ballot (λ b w. enter_commit (S.seen sight.now) b w (first_committed (S.seen sight.now) w))) draft.old) }
    ensures position { OnOk result (own.new ≡ position draft.new.now) }
{
    let Some(_) = &draft.votes().ballot else {
        return Ok(());
    };
    let Some(first) = first_committed(alloc, sight, own, draft.votes())? else {
        return Ok(());
    };
    let low = interval_from(alloc, Stage::Accepted, sight, own, &first)?;
    move_interval(draft, &first, low)?;
    let confirmed_prepared = greater(&draft.votes().confirmed_prepared, &first)?;
    draft.set_confirmed_prepared(confirmed_prepared)?;
    draft.set_phase(Phase::Committing)?;
    follow(own, draft.votes())
}

/// The interval goes up to the next counter, if there is one, with the ballot's counter and the highest accepted
/// ballot.
#[tactic(auto, unfolding(scp_spec::specs::Balloting::widen_commit, scp_spec::specs::Balloting::accepted_from))]
fn widen_commit<S: Sight>(
    alloc: Global,
    sight: &S,
    own: &mut Option<Statement>,
    draft: &mut Draft<'_>,
) -> Result<(), AllocError>
    requires { own.old ≡ position draft.old.now }
    ensures draft { OnOk result (draft.new ≡ after (on_ballot (λ b w. widen_commit (S.seen sight.now) b w (next_committed (S.seen sight.now) b w))) draft.old) }
    ensures position { OnOk result (own.new ≡ position draft.new.now) }
{
    let votes = draft.votes();
    let Some(ballot) = &votes.ballot else {
        return Ok(());
    };
    let Some(next) = next_committed(alloc, sight, own, ballot, votes)? else {
        return Ok(());
    };
    let low = interval_from(alloc, Stage::Accepted, sight, own, &next)?;
    move_interval(draft, &next, low)?;
    follow(own, draft.votes())
}

/// The interval that is accepted as committed goes from `low` to the counter of `end`. The node's ballot has the value
/// of `end` and is not below it, nor is the highest accepted ballot.
fn move_interval(draft: &mut Draft<'_>, end: &Ballot, low: u32) -> Result<(), AllocError>
    ensures { OnOk result (draft.new ≡ after (on_ballot (λ b w. moved_to low end.now b w)) draft.old) }
{
    let votes = draft.votes();
    let Some(ballot) = &votes.ballot else {
        return Ok(());
    };
    let ballot = end.at(ballot.counter.max(end.counter))?;
    let prepared = greater(&votes.prepared, end)?;
    draft.set_ballot(ballot)?;
    draft.set_prepared(prepared)?;
    draft.set_interval(low, end.counter)
}

/// The ballot that is there, or this one if that is below it or there is none.
#[tactic(auto, unfolding(scp_spec::specs::Candidates::greatest))]
fn greater(there: &Option<Ballot>, ballot: &Ballot) -> Result<Ballot, AllocError>
    ensures { IfOk result (λ b. Some b ≡ greatest there.now (ballot.now ∷ [])) }
{
    match there {
        None => ballot.try_copy(),
        Some(there) => {
            let greater = if *there < *ballot { ballot } else { there };
            greater.try_copy()
        }
    }
}

/// Confirms commit of the ballot's value, in [`scp_types::Phase::Committing`]: of the greatest counter that
/// is confirmed as committed, with the widest interval below it, and the phase becomes
/// [`scp_types::Phase::Externalized`] (after the Stellar Consensus Protocol draft). Without a ballot nothing
/// changes.
#[tactic(auto, unfolding(scp_spec::specs::Balloting::confirm_commit))]
pub fn confirm_commit<S: Sight>(
    alloc: Global,
    sight: &S,
    own: &mut Option<Statement>,
    draft: &mut Draft<'_>,
) -> Result<(), AllocError>
    requires { own.old ≡ position draft.old.now }
    ensures draft { OnOk result (draft.new ≡ after (on_ballot (λ b w. confirm_commit w.phase (S.seen sight.now) b w)) draft.old) }
    ensures position { OnOk result (own.new ≡ position draft.new.now) }
{
    match draft.votes().phase {
        Phase::Committing => externalize(alloc, sight, own, draft),
        Phase::Preparing | Phase::Externalized => Ok(()),
    }
}

/// The greatest commit counter of the ballot's value that is confirmed as committed.
#[tactic(auto, unfolding(scp_spec::specs::Balloting::confirmed_commit, scp_spec::specs::Candidates::commits))]
fn confirmed_commit<S: Sight>(
    alloc: Global,
    sight: &S,
    own: &Option<Statement>,
    ballot: &Ballot,
    votes: &Votes,
) -> Result<Option<Ballot>, AllocError>
    requires { own.now ≡ position votes.now }
    ensures { IfOk result (λ t. t ≡ confirmed_commit (S.seen sight.now) ballot.now votes.now) }
{
    let candidates = MentionedBallots { sight, own };
    let test = CommitConfirmed {
        sight,
        own,
        value: &ballot.value,
    };
    greatest_of(alloc, Mention::Committed, &candidates, &test)
}

/// The phase becomes [`scp_types::Phase::Externalized`], with the confirmed interval up to the last counter, if there is
/// one.
#[tactic(auto, unfolding(scp_spec::specs::Balloting::externalize))]
fn externalize<S: Sight>(
    alloc: Global,
    sight: &S,
    own: &mut Option<Statement>,
    draft: &mut Draft<'_>,
) -> Result<(), AllocError>
    requires { own.old ≡ position draft.old.now }
    ensures draft { OnOk result (draft.new ≡ after (on_ballot (λ b w. externalize (S.seen sight.now) w (confirmed_commit (S.seen sight.now) b w))) draft.old) }
    ensures position { OnOk result (own.new ≡ position draft.new.now) }
{
    let votes = draft.votes();
    let Some(ballot) = &votes.ballot else {
        return Ok(());
    };
    let Some(last) = confirmed_commit(alloc, sight, own, ballot, votes)? else {
        return Ok(());
    };
    let low = interval_from(alloc, Stage::Confirmed, sight, own, &last)?;
    draft.set_phase(Phase::Externalized)?;
    draft.set_interval(low, last.counter)?;
    follow(own, draft.votes())
}
