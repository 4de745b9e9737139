//! Which submitted events concern the members of a closure.
//!
//! An error of a function here says that it is out of memory.

ghost use Rattle.std.specs.Prelude.{◌≡◌, ℕ, IfOk, map};
ghost use Rattle.scp_spec.specs.Networks.Step.{Delivers};
ghost use Rattle.scp_spec.specs.Sets.{among};
ghost use Rattle.scp_spec.specs.Submissions.{concerns};
ghost use Rattle.host_closure.specs.Announcing.{member_names};
ghost use Rattle.host_network.specs.Decoding.{reading, step_of};
ghost use Rattle.host_compare.specs.Submitted.{IsReadAs, concerning_steps_in, concerns_members};

use host_closure::ClosureList;
use scp_codec::{CodecError, decode};
use scp_types::{Bytes, Envelope, Event, NodeId};
use std::alloc::{AllocError, Global};

/// The events of the network that concern the members at the slot, in order. Each delivery to a member is decoded once.
pub(crate) fn concerning_events<'a>(
    alloc: Global,
    calls: &'a [(u32, Event)],
    net: u32,
    members: &ClosureList,
    slot: u64,
) -> Result<Vec<&'a Event>, AllocError>
    ensures { IfOk result (λ v. map (λ e. step_of e.now) v.items ≡ concerning_steps_in (among (member_names members.now)) slot net calls.now) }
{
    let mut events = Vec::new(alloc);
    for call in calls {
        if concerns_members(alloc, call, net, members, slot)? {
            events.push(&call.1)?;
        }
    }
    Ok(events)
}

fn concerns_members(
    alloc: Global,
    call: &(u32, Event),
    net: u32,
    members: &ClosureList,
    slot: u64,
) -> Result<bool, AllocError>
    ensures { IfOk result (λ b. b ≡ concerns_members (among (member_names members.now)) slot net call.now) }
{
    let (number, event) = call;
    if *number != net {
        return Ok(false);
    }
    concerns(alloc, event, members, slot)
}

/// Whether an event, applied or refused, concerns the members at the slot. It does if it opens or closes any slot, or
/// happens there to a member, unless it comes from a node that is no member.
pub(crate) fn concerns(
    alloc: Global,
    event: &Event,
    members: &ClosureList,
    slot: u64,
) -> Result<bool, AllocError>
    ensures { IfOk result (λ b. b ≡ concerns (among (member_names members.now)) slot (step_of event.now)) }
{
    match event {
        Event::OpenSlot { .. } | Event::CloseSlot { .. } => Ok(true),
        Event::Propose { slot: at, node, .. }
        | Event::NominationTimer { slot: at, node, .. }
        | Event::BallotTimer { slot: at, node, .. }
        | Event::Reslice { slot: at, node, .. } => Ok(*at == slot && members.has(node)),
        Event::Deliver { node, bytes } => is_between_members(alloc, node, bytes, members, slot),
        Event::Hear {
            slot: at,
            node,
            from,
            ..
        } => Ok(*at == slot && members.has(node) && members.has(from)),
    }
}

/// Whether the bytes are an envelope of the slot, delivered to a member from a member.
fn is_between_members(
    alloc: Global,
    node: &NodeId,
    bytes: &Bytes,
    members: &ClosureList,
    slot: u64,
) -> Result<bool, AllocError>
    ensures { (size : ℕ) → IfOk result (λ b. b ≡ concerns (among (member_names members.now)) slot (Delivers node.now size (reading bytes.now))) }
{
    if !members.has(node) {
        return Ok(false);
    }
    match envelope_of(alloc, bytes.as_slice())? {
        None => Ok(false),
        Some(envelope) => Ok(envelope.slot() == slot && members.has(envelope.sender())),
    }
}

/// The envelope that the bytes spell, if they spell one.
fn envelope_of(alloc: Global, bytes: &[u8]) -> Result<Option<Envelope>, AllocError>
    ensures { IfOk result (IsReadAs (reading bytes.now)) }
{
    match decode(alloc, bytes) {
        Ok(envelope) => Ok(Some(envelope)),
        Err(CodecError::NoMemory) => Err(AllocError),
        Err(CodecError::Fault(_)) => Ok(None),
    }
}
