//! Comparing two submissions.

ghost use Rattle.std.specs.Prelude.{◌≡◌, ℕ, IfOk, IsTrue, is_some};
ghost use Rattle.scp_spec.specs.Hosts.{entries, nodes_of};
ghost use Rattle.scp_spec.specs.Isolation.{closure};
ghost use Rattle.scp_spec.specs.Networks.{slices_of};
ghost use Rattle.scp_spec.specs.Sets.{among};
ghost use Rattle.host_closure.specs.Announcing.{member_names};
ghost use Rattle.host_network.specs.Decoding.{reading};
ghost use Rattle.host_compare.specs.Crowding.{AreNeverCrowdedOut, IsCrowdHere};

use crate::crowd_cast::{least_unlike, slices_among};
use crate::crowd_inputs::first_difference;
use crate::crowd_verdict::Crowd;
use crate::replay::{replay, replies_to};
use crate::reply::Replies;
use crate::rosters::{has_same_reserves, least_outside};
use crate::submission::Submission;
use host_closure::{ClosureList, closure};
use host_network::envelopes_have_one_length;
use scp_spec::{lengths_follow_from_envelopes, members_are_never_crowded_out};
use scp_types::Subject;
use std::alloc::{AllocError, Global};

/// Compares what was submitted to the network of a subject in two submissions (this host's profile). It goes by the
/// closure of the subject's node at its slot, in the run of the first. If all that is reserved and all that concerns
/// the closure are the same, it answers the replies. A submission that does not declare the network hosts nobody there.
///
/// The following holds whatever is answered, even out of memory. Let both networks host the members of the closure
/// alike, and have one roster with equal shares, which holds the closure, and equal budgets of open slots. If the
/// submitted steps that concern the closure are the same in order, their replies are the same, refusals included, and
/// so is what each hosted member gives out. There is no answer for a member that is crowded out.
///
/// Of deliveries it is enough that the envelopes are the same, since an envelope tells how many bytes it has.
///
/// An error says that it is out of memory, for an event or for anything else.
pub fn crowd(
    alloc: Global,
    one: &Submission,
    other: &Submission,
    subject: &Subject,
) -> Result<Crowd, AllocError>
    ensures verdict { IfOk result (IsCrowdHere one.now other.now subject.now.net subject.now.slot subject.now.node) }
    ensures never_crowded_out { AreNeverCrowdedOut one.now other.now subject.now.net subject.now.slot subject.now.node }
{
    are_never_crowded_out(one, other, subject);
    let Some(config) = one.config(subject.net) else {
        return Ok(Crowd::CastDiffers(subject.node));
    };
    if slices_among(one.nodes(subject.net), &subject.node).is_none() {
        return Ok(Crowd::CastDiffers(subject.node));
    }
    let journal = replay(alloc, one, config, subject.net)?;
    let members = closure(alloc, &journal, subject.slot, &subject.node)?;
    crowd_among(alloc, one, other, subject, &members)
}

/// Compares what was submitted, with the members of the closure at hand, if the first network hosts the node.
fn crowd_among(
    alloc: Global,
    one: &Submission,
    other: &Submission,
    subject: &Subject,
    members: &ClosureList,
) -> Result<Crowd, AllocError>
    requires hosted { IsTrue (is_some (slices_of (nodes_of one.now.configs subject.now.net) subject.now.node)) }
    requires members { (u : ℕ) → among (member_names members.now) u ≡ closure (nodes_of one.now.configs subject.now.net) subject.now.slot subject.now.node (entries reading one.now subject.now.net) u }
    ensures { IfOk result (IsCrowdHere one.now other.now subject.now.net subject.now.slot subject.now.node) }
{
    are_never_crowded_out(one, other, subject);
    let net = subject.net;
    let slot = subject.slot;
    if let Some(name) = least_unlike(one.nodes(net), other.nodes(net), members) {
        return Ok(Crowd::CastDiffers(name));
    }
    let Some(config) = one.config(net) else {
        return Ok(Crowd::RosterDiffers);
    };
    let Some(counterpart) = other.config(net) else {
        return Ok(Crowd::RosterDiffers);
    };
    if !has_same_reserves(config, counterpart) {
        return Ok(Crowd::RosterDiffers);
    }
    let Some(roster) = config.roster() else {
        return Ok(Crowd::RosterDiffers);
    };
    if let Some(name) = least_outside(members, roster) {
        return Ok(Crowd::OutsideRoster(name));
    }
    let difference = first_difference(alloc, one.calls(), other.calls(), net, members, slot)?;
    if let Some(place) = difference {
        return Ok(Crowd::InputsDiffer(place));
    }
    let replies = replies_to(alloc, other, counterpart, net, members, slot)?;
    Ok(Crowd::Same(Replies::of(replies)))
}

/// A law: nobody crowds out the members of a closure that the roster holds.
fn are_never_crowded_out(one: &Submission, other: &Submission, subject: &Subject)
    ensures { AreNeverCrowdedOut one.now other.now subject.now.net subject.now.slot subject.now.node }
{
    members_are_never_crowded_out();
    lengths_follow_from_envelopes();
    envelopes_have_one_length();
}
