//! An event's own change of a node's inputs and votes, before any pass.

ghost use Rattle.std.specs.Prelude.{◌≡◌, ◌<◌, ◌+◌, IfOk, Some, is_some, option_map};
ghost use Rattle.scp_spec.specs.Nodes.{at_next_counter, is_externalized};
ghost use Rattle.scp_spec.specs.Timers.{is_ballot_timer_live, is_nomination_timer_live};
ghost use Rattle.scp_spec.specs.States.{counter_of};
ghost use Rattle.node_core.specs.NodeParts.{inputs_in_round};

use crate::outs::is_externalized;
use node_leaders::{Draws, leader};
use node_rules::{ballot_at_counter, ballot_is_live, nomination_is_live};
use node_view::Configured;
use scp_types::{Inputs, Value, Votes};
use std::alloc::{AllocError, Global};

/// What an event's own change makes of the inputs and of the votes.
#[derive(Drop)]
pub(crate) struct Changed {
    pub inputs: Inputs,
    pub votes: Votes,
}

pub(crate) fn is_round_live(inputs: &Inputs, votes: &Votes, round: u32) -> bool
    ensures { result ≡ is_nomination_timer_live round inputs.now.round (is_some votes.now.confirmed_prepared) }
{
    nomination_is_live(round, inputs.round, votes.confirmed_prepared.is_some())
}

pub(crate) fn is_counter_live(votes: &Votes, counter: u32) -> bool
    ensures { result ≡ is_ballot_timer_live counter votes.now.armed (option_map (λ b. b.counter) votes.now.ballot) (is_externalized votes.now.phase) }
{
    let current = match &votes.ballot {
        None => None,
        Some(ballot) => Some(ballot.counter),
    };
    ballot_is_live(counter, votes.armed, current, is_externalized(votes.phase))
}

/// Inputs and votes once the node is to propose a value: round 1 begins, with its leader. An error says that it is out
/// of memory, or that a value has too many owners.
pub(crate) fn with_proposal(
    alloc: Global,
    draws: &mut Draws,
    configured: &Configured,
    inputs: &Inputs,
    votes: &Votes,
    value: Value,
) -> Result<Changed, AllocError>
    ensures { IfOk result (λ d. d ≡ record { inputs = inputs_in_round configured.now (record inputs.now { proposal = Some value }) 1; votes = votes.now }) }
{
    let copy = inputs.try_copy(alloc)?;
    let inputs = Inputs {
        proposal: Some(value),
        ..copy
    };
    Ok(Changed {
        inputs: in_round(draws, configured, inputs, 1)?,
        votes: votes.try_copy()?,
    })
}

/// Inputs and votes once the timer of this round has fired: the next round begins, with its leader. An error says that
/// it is out of memory, or that a value has too many owners.
pub(crate) fn in_next_round(
    alloc: Global,
    draws: &mut Draws,
    configured: &Configured,
    inputs: &Inputs,
    votes: &Votes,
    round: u32,
) -> Result<Changed, AllocError>
    requires { round < 4294967295 }
    ensures { IfOk result (λ d. d ≡ record { inputs = inputs_in_round configured.now inputs.now (round + 1); votes = votes.now }) }
{
    Ok(Changed {
        inputs: in_round(draws, configured, inputs.try_copy(alloc)?, round + 1)?,
        votes: votes.try_copy()?,
    })
}

/// Begins the round, with its leader; earlier leaders stay.
fn in_round(
    draws: &mut Draws,
    configured: &Configured,
    inputs: Inputs,
    round: u32,
) -> Result<Inputs, AllocError>
    ensures { IfOk result (λ g. g ≡ inputs_in_round configured.now inputs round) }
{
    let mut inputs = inputs;
    let leader = leader(
        draws,
        configured.slot,
        round,
        &configured.name,
        &configured.slices,
    );
    inputs.leaders.push(leader)?;
    inputs.round = round;
    Ok(inputs)
}

/// Inputs and votes once one more ballot timer has fired. An error says that it is out of memory, or that a value has
/// too many owners.
pub(crate) fn with_timeout(
    alloc: Global,
    inputs: &Inputs,
    votes: &Votes,
) -> Result<Changed, AllocError>
    requires timeouts { inputs.now.ballot_timeouts < 4294967295 }
    requires counter { counter_of votes.now.ballot < 4294967295 }
    ensures { IfOk result (λ d. d ≡ record { inputs = record inputs.now { ballot_timeouts = inputs.now.ballot_timeouts + 1 }; votes = at_next_counter votes.now votes.now.ballot }) }
{
    let mut inputs = inputs.try_copy(alloc)?;
    inputs.ballot_timeouts += 1;
    Ok(Changed {
        inputs,
        votes: votes_at_next_counter(votes)?,
    })
}

/// The votes with the ballot one counter up, its value chosen as by the rule that raises counters. It takes no memory;
/// an error says that a value has too many owners.
fn votes_at_next_counter(votes: &Votes) -> Result<Votes, AllocError>
    requires { counter_of votes.now.ballot < 4294967295 }
    ensures { IfOk result (λ w. w ≡ at_next_counter votes.now votes.now.ballot) }
{
    let mut next = votes.try_copy()?;
    if let Some(ballot) = &votes.ballot {
        next.ballot = Some(ballot_at_counter(votes, ballot, ballot.counter + 1).try_copy()?);
    }
    Ok(next)
}
