//! What is accepted and confirmed as prepared.

ghost use Rattle.std.specs.Option.{option_or};
ghost use Rattle.std.specs.Prelude.{◌≡◌, ◌+◌, ◌&&◌, IfOk, None, OnOk, Some, false, filter, if◌then◌else◌, is_some};
ghost use Rattle.std.specs.Ordering.{is_lt};
ghost use Rattle.scp_types.specs.Orders.{bytes_cmp};
ghost use Rattle.scp_types.specs.Votes.{same_value};
ghost use Rattle.node_rules.specs.Drafted.{after};
ghost use Rattle.scp_spec.specs.Candidates.{greatest, named_ballots};
ghost use Rattle.scp_spec.specs.States.{Under, below, position};
ghost use Rattle.scp_spec.specs.Balloting.{aborted_by, accept_prepared, or_confirmed_ballot, unless_aborted, confirm_prepared, follow_confirmed_prepared, is_aborted, is_accepted, is_confirmed, is_overtaken, may_be_prepared, raise_confirmed_prepared, set_commit};
ghost use Rattle.scp_spec.specs.Passes.{in_prepare, on_ballot};

use crate::Draft;
use crate::checks::{MayBePrepared, PrepareAt, Stage};
use crate::mentioned_ballots::MentionedBallots;
use crate::positions::{follow, high_counter};
use crate::search::greatest_above;
use scp_types::{Ballot, LentBallot, Phase, Statement, Votes};
use scp_voting::{Mention, Sight};
use std::alloc::{AllocError, Global};

/// Accepts as prepared the greatest of the highest accepted ballot and the named ballots whose prepare is accepted; in
/// [`scp_types::Phase::Committing`] only those of the ballot's value count. If the highest accepted ballot goes to another
/// value, lower ballots are aborted (after the Stellar Consensus Protocol draft; the aborted counter is this host's
/// profile). Without a ballot nothing changes.
pub fn accept_prepared<S: Sight>(
    alloc: Global,
    sight: &S,
    own: &mut Option<Statement>,
    draft: &mut Draft<'_>,
) -> Result<(), AllocError>
    requires { own.old ≡ position draft.old.now }
    ensures draft { OnOk result (draft.new ≡ after (on_ballot (accept_prepared (S.seen sight.now))) draft.old) }
    ensures position { OnOk result (own.new ≡ position draft.new.now) }
{
    let votes = draft.votes();
    let Some(ballot) = &votes.ballot else {
        return Ok(());
    };
    let Some(prepared) = higher_prepared(alloc, sight, own, votes, ballot)? else {
        return Ok(());
    };
    let aborted = aborted_by(&votes.prepared, &prepared, votes.aborted);
    draft.set_prepared(prepared)?;
    draft.set_aborted(aborted)?;
    follow(own, draft.votes())
}

/// The highest accepted ballot, if it is above the one that was. `ballot` is the node's.
#[tactic(auto, unfolding(scp_spec::specs::Candidates::named_ballots))]
fn higher_prepared<'a, S: Sight>(
    alloc: Global,
    sight: &'a S,
    own: &'a Option<Statement>,
    votes: &'a Votes,
    ballot: &'a Ballot,
) -> Result<Option<Ballot>, AllocError>
    requires { own.now ≡ position votes.now }
    ensures { IfOk result (λ o. option_or o votes.now.prepared ≡ greatest votes.now.prepared (filter (λ t. may_be_prepared votes.now.phase ballot.now.value t && is_accepted (S.seen sight.now) votes.now t) (named_ballots (S.seen sight.now) votes.now))) }
{
    let candidates = MentionedBallots { sight, own };
    let check = MayBePrepared {
        prepare: PrepareAt {
            stage: Stage::Accepted,
            sight,
            own,
        },
        phase: votes.phase,
        value: &ballot.value,
    };
    greatest_above(alloc, Mention::Named, &candidates, &check, &votes.prepared)
}

/// The aborted counter once `new` is the highest accepted ballot: if its value is another than that of `old`, the
/// counter of `old` or one more, but never less than the counter was.
#[tactic(auto, unfolding(scp_spec::specs::Balloting::aborted_by))]
fn aborted_by(old: &Option<Ballot>, new: &Ballot, aborted: u32) -> u32
    requires { Under old.now (Some new.now) }
    ensures { result ≡ aborted_by old.now (Some new.now) aborted }
{
    match old {
        Some(old) if old.value != new.value => aborted.max(first_kept(old, new)),
        _ => aborted,
    }
}

/// The least counter whose ballots are not aborted when this ballot gives way to one of another value, which is not
/// below it. It is the ballot's own, or the next one if the ballot has the greater value, for then it is aborted
/// itself.
fn first_kept(old: &Ballot, new: &Ballot) -> u32
    requires rises { below new.now old.now ≡ false }
    requires differ { same_value old.now.value new.now.value ≡ false }
    ensures { result ≡ (if is_lt (bytes_cmp old.now.value new.now.value) then old.now.counter else old.now.counter + 1) }
{
    if old.value < new.value {
        old.counter
    } else {
        // The new one is not below but has the lesser value: its counter is greater.
        let _greater = new.counter;
        old.counter + 1
    }
}

/// Confirms as prepared: the highest confirmed ballot, the ballot, which follows it, and the ballot
/// whose commit is voted for, in this order; for [`scp_types::Phase::Preparing`] (after the Stellar
/// Consensus Protocol draft; that the ballot follows is this host's profile). Without a ballot nothing
/// changes.
#[tactic(auto, unfolding(scp_spec::specs::Balloting::confirm_prepared, scp_spec::specs::Balloting::raise_confirmed_prepared))]
pub fn confirm_prepared<S: Sight>(
    alloc: Global,
    sight: &S,
    own: &mut Option<Statement>,
    draft: &mut Draft<'_>,
) -> Result<(), AllocError>
    requires { own.old ≡ position draft.old.now }
    ensures draft { OnOk result (draft.new ≡ after (in_prepare (on_ballot (confirm_prepared (S.seen sight.now)))) draft.old) }
    ensures position { OnOk result (own.new ≡ position draft.new.now) }
{
    match draft.votes().phase {
        Phase::Preparing => confirm_on_ballot(alloc, sight, own, draft),
        Phase::Committing | Phase::Externalized => Ok(()),
    }
}

/// What [`confirm_prepared`] does in [`scp_types::Phase::Preparing`].
#[tactic(auto, unfolding(scp_spec::specs::Balloting::confirm_prepared, scp_spec::specs::Balloting::raise_confirmed_prepared))]
fn confirm_on_ballot<S: Sight>(
    alloc: Global,
    sight: &S,
    own: &mut Option<Statement>,
    draft: &mut Draft<'_>,
) -> Result<(), AllocError>
    requires { own.old ≡ position draft.old.now }
    ensures draft { OnOk result (draft.new ≡ after (on_ballot (confirm_prepared (S.seen sight.now))) draft.old) }
    ensures position { OnOk result (own.new ≡ position draft.new.now) }
{
    let Some(_) = &draft.votes().ballot else {
        return Ok(());
    };
    raise_confirmed_prepared(alloc, sight, own, draft)?;
    follow_confirmed_prepared(own, draft)?;
    set_commit(own, draft)
}

/// The highest confirmed ballot becomes the greatest of itself and the named ballots whose prepare is
/// confirmed.
#[tactic(auto, unfolding(scp_spec::specs::Balloting::raise_confirmed_prepared))]
fn raise_confirmed_prepared<S: Sight>(
    alloc: Global,
    sight: &S,
    own: &mut Option<Statement>,
    draft: &mut Draft<'_>,
) -> Result<(), AllocError>
    requires { own.old ≡ position draft.old.now }
    ensures draft { OnOk result (draft.new ≡ after (raise_confirmed_prepared (S.seen sight.now)) draft.old) }
    ensures position { OnOk result (own.new ≡ position draft.new.now) }
{
    match higher_confirmed(alloc, sight, own, draft.votes())? {
        None => Ok(()),
        Some(confirmed_prepared) => {
            draft.set_confirmed_prepared(confirmed_prepared)?;
            follow(own, draft.votes())
        }
    }
}

/// The highest confirmed ballot, if it is above the one that was.
#[tactic(auto, unfolding(scp_spec::specs::Candidates::named_ballots))]
fn higher_confirmed<'a, S: Sight>(
    alloc: Global,
    sight: &'a S,
    own: &'a Option<Statement>,
    votes: &'a Votes,
) -> Result<Option<Ballot>, AllocError>
    requires { own.now ≡ position votes.now }
    ensures { IfOk result (λ o. option_or o votes.now.confirmed_prepared ≡ greatest votes.now.confirmed_prepared (filter (is_confirmed (S.seen sight.now) votes.now) (named_ballots (S.seen sight.now) votes.now))) }
{
    let candidates = MentionedBallots { sight, own };
    let check = PrepareAt {
        stage: Stage::Confirmed,
        sight,
        own,
    };
    greatest_above(
        alloc,
        Mention::Named,
        &candidates,
        &check,
        &votes.confirmed_prepared,
    )
}

/// The ballot becomes the highest confirmed one if that is above it.
fn follow_confirmed_prepared(
    own: &mut Option<Statement>,
    draft: &mut Draft<'_>,
) -> Result<(), AllocError>
    requires { own.old ≡ position draft.old.now }
    ensures draft { OnOk result (draft.new ≡ after (on_ballot follow_confirmed_prepared) draft.old) }
    ensures position { OnOk result (own.new ≡ position draft.new.now) }
{
    match high_above_ballot(draft.votes())? {
        None => Ok(()),
        Some(confirmed_prepared) => {
            draft.set_ballot(confirmed_prepared)?;
            follow(own, draft.votes())
        }
    }
}

/// The highest confirmed ballot, if it is above the ballot.
#[tactic(auto, unfolding(scp_spec::specs::Balloting::follow_confirmed_prepared))]
fn high_above_ballot(votes: &Votes) -> Result<Option<Ballot>, AllocError>
    ensures { IfOk result (λ o. record votes.now { ballot = option_or o votes.now.ballot } ≡ on_ballot follow_confirmed_prepared votes.now) }
{
    match (&votes.ballot, &votes.confirmed_prepared) {
        (Some(ballot), Some(confirmed_prepared)) if *ballot < *confirmed_prepared => Ok(Some(
            confirmed_prepared.try_copy()?,
        )),
        _ => Ok(None),
    }
}

/// The ballot whose commit is voted for is reset if it is aborted. If there is none then, it becomes the ballot once
/// that is confirmed as prepared and is not aborted.
#[tactic(auto, unfolding(scp_spec::specs::Balloting::set_commit))]
fn set_commit(own: &mut Option<Statement>, draft: &mut Draft<'_>) -> Result<(), AllocError>
    requires { own.old ≡ position draft.old.now }
    ensures draft { OnOk result (draft.new ≡ after set_commit draft.old) }
    ensures position { OnOk result (own.new ≡ position draft.new.now) }
{
    if keeps_commit(draft.votes()) {
        return Ok(());
    }
    let commit = ballot_to_commit(draft.votes())?;
    if commit.is_none() && draft.votes().commit.is_none() {
        return Ok(());
    }
    draft.set_commit(commit)?;
    follow(own, draft.votes())
}

/// Whether there is a ballot whose commit is voted for, and it is not aborted.
fn keeps_commit(votes: &Votes) -> bool
    ensures { result ≡ is_some (unless_aborted votes.now votes.now.commit) }
{
    match &votes.commit {
        None => false,
        Some(commit) => !is_aborted(votes, &LentBallot::of(commit)),
    }
}

/// The ballot whose commit is to be voted for if there is none: the node's, if it is confirmed as prepared and not
/// aborted.
fn ballot_to_commit(votes: &Votes) -> Result<Option<Ballot>, AllocError>
    ensures { IfOk result (λ o. o ≡ or_confirmed_ballot votes.now votes.now.ballot None) }
{
    match &votes.ballot {
        None => Ok(None),
        Some(ballot) => {
            if high_counter(votes, ballot) == ballot.counter
                && !is_aborted(votes, &LentBallot::of(ballot))
            {
                Ok(Some(ballot.try_copy()?))
            } else {
                Ok(None)
            }
        }
    }
}

/// Whether a ballot is aborted: its counter is below the aborted one, or the highest accepted ballot is
/// above it and has another value.
#[tactic(auto, unfolding(scp_spec::specs::Balloting::is_aborted))]
pub(crate) fn is_aborted(votes: &Votes, ballot: &LentBallot) -> bool
    ensures { result ≡ is_aborted votes.now ballot.now }
{
    is_overtaken(&votes.prepared, ballot) || ballot.counter() < votes.aborted
}

/// Whether the highest accepted ballot is above this one and has another value.
fn is_overtaken(prepared: &Option<Ballot>, ballot: &LentBallot) -> bool
    ensures { result ≡ is_overtaken prepared.now ballot.now }
{
    match prepared {
        None => false,
        Some(prepared) => {
            ballot.is_below(&LentBallot::of(prepared)) && prepared.value != *ballot.value()
        }
    }
}
