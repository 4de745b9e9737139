//! The node's own position in balloting.

ghost use Rattle.std.specs.Prelude.{◌≡◌, IfOk, OnOk};
ghost use Rattle.scp_spec.specs.States.{commit_counter, counter_of, high_counter, position};

use scp_types::{Ballot, LentBallot, LentStatement, Phase, Statement, Votes, statement_of};
use std::alloc::AllocError;

/// The ballot statement of the votes as they are, whether or not it may be sent like that; a node without a
/// ballot has none (the Stellar Consensus Protocol draft). It takes no memory.
#[tactic(auto, unfolding(scp_spec::specs::States::position, scp_spec::specs::States::position_in))]
#[inline(always)]
pub fn position<'a>(votes: &'a Votes) -> Option<LentStatement<'a>>
    ensures { result ≡ position votes.now }
{
    let Some(ballot) = &votes.ballot else {
        return None;
    };
    let lent = LentBallot::of(ballot);
    Some(match votes.phase {
        Phase::Preparing => {
            let high = high_counter(votes, ballot);
            let commit = commit_counter(votes, ballot);
            LentStatement::prepare(
                lent,
                lent_of(&votes.prepared),
                (votes.aborted, high, commit),
            )
        }
        Phase::Committing => {
            let prepared = counter_of(&votes.prepared);
            LentStatement::commit(lent, (prepared, votes.high, votes.low))
        }
        Phase::Externalized => {
            LentStatement::externalize(LentBallot::at(votes.low, &ballot.value), votes.high)
        }
    })
}

/// The position as a statement of its own. It takes no memory; an error says that a value has too many
/// owners.
#[inline(always)]
pub fn own_position(votes: &Votes) -> Result<Option<Statement>, AllocError>
    ensures { IfOk result (λ o. o ≡ position votes.now) }
{
    statement_of(&position(votes))
}

/// The own position becomes that of these votes.
pub(crate) fn follow(own: &mut Option<Statement>, votes: &Votes) -> Result<(), AllocError>
    ensures { OnOk result (own.new ≡ position votes.now) }
{
    let position = own_position(votes)?;
    *own = position;
    Ok(())
}

/// The ballot that is there, if one is.
fn lent_of<'a>(ballot: &'a Option<Ballot>) -> Option<LentBallot<'a>>
    ensures { result ≡ ballot.now }
{
    match ballot {
        None => None,
        Some(ballot) => Some(LentBallot::of(ballot)),
    }
}

/// The counter of the highest confirmed ballot, if that has the ballot's value; else 0.
#[tactic(auto, unfolding(scp_spec::specs::States::high_counter))]
pub(crate) fn high_counter(votes: &Votes, ballot: &Ballot) -> u32
    ensures { result ≡ high_counter votes.now ballot.now }
{
    match &votes.confirmed_prepared {
        None => 0,
        Some(confirmed_prepared) => {
            if confirmed_prepared.value == ballot.value {
                confirmed_prepared.counter
            } else {
                0
            }
        }
    }
}

/// The counter from which on commit is voted for; 0 if it is not.
#[tactic(auto, unfolding(scp_spec::specs::States::commit_counter))]
#[inline(always)]
pub(crate) fn commit_counter(votes: &Votes, ballot: &Ballot) -> u32
    ensures { result ≡ commit_counter votes.now ballot.now }
{
    let high = high_counter(votes, ballot);
    match &votes.commit {
        None => 0,
        Some(commit) => {
            if commit.value == ballot.value && commit.counter <= high {
                commit.counter
            } else {
                0
            }
        }
    }
}

/// The counter of a ballot, or 0 if there is none. It takes no memory.
pub fn counter_of(ballot: &Option<Ballot>) -> u32
    ensures { result ≡ counter_of ballot.now }
{
    match ballot {
        None => 0,
        Some(ballot) => ballot.counter,
    }
}
