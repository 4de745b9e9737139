//! Which steps concern the members of a closure, and whose they are.

ghost use Rattle.std.specs.Prelude.{◌≡◌};
ghost use Rattle.scp_spec.specs.Sets.{among};
ghost use Rattle.host_closure.specs.Announcing.{member_names};
ghost use Rattle.host_journal.specs.Lending.{lent_step};
ghost use Rattle.host_compare.specs.Steps.{event_at, is_kept_in, is_kept_step, node_in, node_of_step};

use host_closure::ClosureList;
use host_journal::{Journal, LentEvent};
use node_store::Shelf;
use scp_types::NodeId;

/// Whether there is an entry of this number, and its step concerns the members at the slot.
pub fn is_kept_at<S: Shelf>(
    journal: &Journal<S>,
    number: usize,
    members: &ClosureList,
    slot: u64,
) -> bool
    ensures { result ≡ is_kept_in (among (member_names members.now)) slot (event_at journal.now.entries number) }
{
    match journal.event(number) {
        None => false,
        Some(step) => is_kept(&step, members, slot),
    }
}

/// Whether a step concerns the members at the slot. It does if it opens or closes the slot, or happens there to a
/// member, unless it comes from a node that is no member.
fn is_kept(step: &LentEvent<'_>, members: &ClosureList, slot: u64) -> bool
    ensures { result ≡ is_kept_step (among (member_names members.now)) slot (lent_step step.now) }
{
    match step {
        LentEvent::OpenSlot { slot: at } | LentEvent::CloseSlot { slot: at } => *at == slot,
        LentEvent::Propose { slot: at, node, .. }
        | LentEvent::NominationTimer { slot: at, node, .. }
        | LentEvent::BallotTimer { slot: at, node, .. }
        | LentEvent::Reslice { slot: at, node, .. } => *at == slot && members.has(node),
        LentEvent::Deliver { node, envelope, .. } => {
            envelope.slot() == slot && members.has(node) && members.has(envelope.sender())
        }
        LentEvent::Hear {
            slot: at,
            node,
            from,
            ..
        } => *at == slot && members.has(node) && members.has(from),
    }
}

/// The node to which an entry happened, if there is an entry of this number, it is of the slot, and it has a node.
pub fn node_of_entry<S: Shelf>(journal: &Journal<S>, number: usize, slot: u64) -> Option<NodeId>
    ensures { result ≡ node_in slot (event_at journal.now.entries number) }
{
    match journal.event(number) {
        None => None,
        Some(step) => node_of(&step, slot),
    }
}

/// The node of a step, if it is at the slot and has one.
fn node_of(step: &LentEvent<'_>, slot: u64) -> Option<NodeId>
    ensures { result ≡ node_of_step slot (lent_step step.now) }
{
    let (at, node) = match step {
        LentEvent::OpenSlot { .. } | LentEvent::CloseSlot { .. } => return None,
        LentEvent::Deliver { node, envelope, .. } => (envelope.slot(), node),
        LentEvent::Propose { slot: at, node, .. }
        | LentEvent::Hear { slot: at, node, .. }
        | LentEvent::NominationTimer { slot: at, node, .. }
        | LentEvent::BallotTimer { slot: at, node, .. }
        | LentEvent::Reslice { slot: at, node, .. } => (*at, node),
    };
    if at == slot { Some(*node) } else { None }
}
