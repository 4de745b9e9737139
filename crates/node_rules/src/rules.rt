//! The rules of nomination, in their order.
//!
//! An error of a function here says that it is out of memory, or that values have too many owners.

ghost use Rattle.std.specs.Prelude.{◌≡◌, ◌-◌, ◌++◌, IfOk, OnOk, flat_map, length, option_map, option_to_list, unwrap_or};
ghost use Rattle.node_rules.specs.Drafted.{after};
ghost use Rattle.scp_types.specs.Nominations.{most_nominated};
ghost use Rattle.scp_types.specs.declared.kind.Kind.{Kind};
ghost use Rattle.scp_spec.specs.Candidates.{all_with, as_set, values_by};
ghost use Rattle.scp_spec.specs.Sets.{among};
ghost use Rattle.scp_spec.specs.Nominating.{accept_values, confirm_values, echo, nominate, own_proposal};

use crate::Draft;
use crate::choosing::{NotYetVoted, choose, larger_set, with_all};
use crate::voting::{NewlyAccepted, NewlyConfirmed};
use scp_types::{Inputs, MAX_NOMINATED, NodeId, SharedValues, Value, Values, Votes};
use scp_voting::Sight;
use std::alloc::{AllocError, Global};

/// The rules of nomination, in order, each with what the one before it made; while no ballot is confirmed as prepared
/// (after the Stellar Consensus Protocol draft).
#[tactic(auto, unfolding(scp_spec::specs::Nominating::nominate))]
pub fn nominate<S: Sight>(
    alloc: Global,
    own: &NodeId,
    sight: &S,
    inputs: &Inputs,
    draft: &mut Draft<'_>,
) -> Result<(), AllocError>
    ensures { OnOk result (draft.new ≡ after (nominate own.now (S.seen sight.now) inputs.now) draft.old) }
{
    if draft.votes().confirmed_prepared.is_some() {
        return Ok(());
    }
    echo(alloc, own, sight, inputs, draft)?;
    accept_values(alloc, sight, draft)?;
    confirm_values(alloc, sight, draft)
}

/// Echo: from round 1 on, while nothing is confirmed, the node votes for each value that its leaders
/// propose, as far as there is room (after the Stellar Consensus Protocol draft).
fn echo<S: Sight>(
    alloc: Global,
    own: &NodeId,
    sight: &S,
    inputs: &Inputs,
    draft: &mut Draft<'_>,
) -> Result<(), AllocError>
    ensures { OnOk result (draft.new ≡ after (echo own.now (S.seen sight.now) inputs.now) draft.old) }
{
    match values_to_vote_for(alloc, own, sight, inputs, draft.votes())? {
        None => Ok(()),
        Some(voted) => draft.set_voted(voted),
    }
}

/// The values that the node votes for by its leaders, with those that it voted for; `None` if there are no new ones.
#[tactic(auto, unfolding(scp_spec::specs::Nominating::echo, scp_spec::specs::Candidates::with_up_to_sixteen))]
fn values_to_vote_for<S: Sight>(
    alloc: Global,
    own: &NodeId,
    sight: &S,
    inputs: &Inputs,
    votes: &Votes,
) -> Result<Option<SharedValues>, AllocError>
    ensures { IfOk result (λ o. record votes.now { voted = unwrap_or o votes.now.voted } ≡ echo own.now (S.seen sight.now) inputs.now votes.now) }
{
    if inputs.round == 0 || !votes.confirms.as_slice().is_empty() {
        return Ok(None);
    }
    let proposed = proposed_values(alloc, own, sight, inputs)?;
    let is_new = NotYetVoted { set: &votes.voted };
    let new = choose(alloc, proposed.as_slice(), room_in(&votes.voted), &is_new)?;
    let larger = larger_set(alloc, &votes.voted, new.as_slice())?;
    Ok(larger)
}

/// Accept: the values of reached nominations and of the node itself that are accepted are added, as
/// far as there is room (after the Stellar Consensus Protocol draft).
fn accept_values<S: Sight>(
    alloc: Global,
    sight: &S,
    draft: &mut Draft<'_>,
) -> Result<(), AllocError>
    ensures { OnOk result (draft.new ≡ after (accept_values (S.seen sight.now)) draft.old) }
{
    match values_to_accept(alloc, sight, draft.votes())? {
        None => Ok(()),
        Some(accepts) => draft.set_accepts(accepts),
    }
}

/// The values that are accepted, with those that were; `None` if there are no new ones.
#[tactic(auto, unfolding(scp_spec::specs::Nominating::accept_values, scp_spec::specs::Candidates::with_up_to_sixteen))]
fn values_to_accept<'a, S: Sight>(
    alloc: Global,
    sight: &'a S,
    votes: &'a Votes,
) -> Result<Option<SharedValues>, AllocError>
    ensures { IfOk result (λ o. record votes.now { accepts = unwrap_or o votes.now.accepts } ≡ accept_values (S.seen sight.now) votes.now) }
{
    let candidates = candidates(alloc, sight, votes)?;
    let is_accepted = NewlyAccepted { sight, votes };
    let room = room_in(&votes.accepts);
    let new = choose(alloc, candidates.as_slice(), room, &is_accepted)?;
    let larger = larger_set(alloc, &votes.accepts, new.as_slice())?;
    Ok(larger)
}

/// The values of reached nominations and those that the node itself votes for, ascending.
fn candidates<S: Sight>(alloc: Global, sight: &S, votes: &Votes) -> Result<Values, AllocError>
    ensures { IfOk result (λ v. v ≡ all_with votes.now.voted (as_set (flat_map values_by ((S.seen sight.now).rows Kind.Nomination)))) }
{
    let nominated = sight.nominated_values(alloc)?;
    with_all(nominated, votes.voted.as_slice())
}

/// Confirm: of the accepted values those that are confirmed are added (after the Stellar Consensus
/// Protocol draft).
fn confirm_values<S: Sight>(
    alloc: Global,
    sight: &S,
    draft: &mut Draft<'_>,
) -> Result<(), AllocError>
    ensures { OnOk result (draft.new ≡ after (confirm_values (S.seen sight.now)) draft.old) }
{
    match values_to_confirm(alloc, sight, draft.votes())? {
        None => Ok(()),
        Some(confirms) => draft.set_confirms(confirms),
    }
}

/// The values that are confirmed, with those that were; `None` if there are no new ones.
#[tactic(auto, unfolding(scp_spec::specs::Nominating::confirm_values))]
fn values_to_confirm<'a, S: Sight>(
    alloc: Global,
    sight: &'a S,
    votes: &'a Votes,
) -> Result<Option<SharedValues>, AllocError>
    ensures { IfOk result (λ o. record votes.now { confirms = unwrap_or o votes.now.confirms } ≡ confirm_values (S.seen sight.now) votes.now) }
{
    let is_confirmed = NewlyConfirmed { sight, votes };
    let accepted = votes.accepts.as_slice();
    let new = choose(alloc, accepted, accepted.len(), &is_confirmed)?;
    let larger = larger_set(alloc, &votes.confirms, new.as_slice())?;
    Ok(larger)
}

/// What the node's leaders propose, ascending: the values of their nominations, and the node's own proposal if it is a
/// leader.
fn proposed_values<S: Sight>(
    alloc: Global,
    own: &NodeId,
    sight: &S,
    inputs: &Inputs,
) -> Result<Values, AllocError>
    ensures { IfOk result (λ v. v ≡ as_set (flat_map values_by (S.seen sight.now).led ++ own_proposal own.now inputs.now)) }
{
    let mut proposed = sight.led_values(alloc)?;
    if let Some(proposal) = own_proposal(own, inputs) {
        proposed.insert(proposal.try_copy()?)?;
    }
    Ok(proposed)
}

/// The node's own proposal, if it is a leader.
fn own_proposal<'a>(own: &NodeId, inputs: &'a Inputs) -> Option<&'a Value>
    ensures { option_to_list (option_map (λ v. v.now) result) ≡ own_proposal own.now inputs.now }
{
    if leads(own, inputs) {
        inputs.proposal.as_ref()
    } else {
        None
    }
}

/// Whether a node is among the leaders of the rounds so far. It takes no memory.
pub fn leads(node: &NodeId, inputs: &Inputs) -> bool
    ensures { result ≡ among inputs.now.leaders node.now }
{
    inputs
        .leaders
        .as_slice()
        .iter()
        .any(|leader| *leader == *node)
}

/// How many values may still be added.
fn room_in(set: &SharedValues) -> usize
    ensures { result ≡ most_nominated - length set.now }
{
    MAX_NOMINATED.saturating_sub(set.as_slice().len())
}
