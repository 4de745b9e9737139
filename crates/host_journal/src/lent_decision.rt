//! A decision of a journal, read in place.

ghost use Rattle.std.specs.Prelude.{◌≡◌, ◌≤◌, length, option_map, option_to_list, slice_get, true};
ghost use Rattle.host_network.specs.Decoding.{step_of};
ghost use Rattle.host_network.specs.Marks.{slot_and_node_of};
ghost use Rattle.node_core.specs.Filings.{whole_outs};
ghost use Rattle.host_journal.specs.Deciding.{decided_at, decided_by, externalized_values};
ghost use Rattle.host_journal.specs.Boxing.{is_large};
ghost use Rattle.host_journal.specs.Keeping.{IsKeptEvent, step_in};

use crate::kept::KeptEvent;
use host_network::Network;
use node_core::FiledOut;
use node_store::Shelf;
use scp_types::{Event, NodeId, Value};

/// A hosted node externalized a value for a slot. The value stands where the journal keeps it.
#[derive(Clone, Copy)]
pub struct LentDecision<'a> {
    pub slot: u64,
    pub node: NodeId,
    pub value: &'a Value,
}

/// What an entry with this event and these outs decided, read in place. It takes no memory.
pub(crate) fn lent_decision<'a, S: Shelf>(
    network: &'a Network<S>,
    event: &'a KeptEvent,
    outs: &'a [FiledOut],
) -> Option<LentDecision<'a>>
    requires filed { IsKeptEvent network.now.config.nodes network.now.archive event.now }
    requires once { length (externalized_values (whole_outs outs.now)) ≤ 1 }
    ensures { option_to_list (option_map decided_by result) ≡ decided_at (slot_and_node_of (step_in event.now)) (externalized_values (whole_outs outs.now)) }
{
    decision_at(slot_and_node_of(network, event), first_value(outs))
}

fn decision_at(place: Option<(u64, NodeId)>, value: Option<&Value>) -> Option<LentDecision<'_>>
    ensures { option_to_list (option_map decided_by result) ≡ decided_at place (option_to_list (option_map (λ v. v.now) value.entry)) }
{
    match place {
        None => None,
        Some((slot, node)) => match value {
            None => None,
            Some(value) => Some(LentDecision { slot, node, value }),
        },
    }
}

fn first_value(outs: &[FiledOut]) -> Option<&Value>
    ensures { option_map (λ v. v.now) result ≡ slice_get (externalized_values (whole_outs outs.now)) 0 }
{
    match outs {
        [] => None,
        [FiledOut::Externalized(value), ..] => Some(value),
        [_, rest @ ..] => first_value(rest),
    }
}

/// The slot and the node of an event, if it is one of a node.
fn slot_and_node_of<S: Shelf>(network: &Network<S>, event: &KeptEvent) -> Option<(u64, NodeId)>
    requires { IsKeptEvent network.now.config.nodes network.now.archive event.now }
    ensures { result ≡ slot_and_node_of (step_in event.now) }
{
    let config = network.config();
    match event {
        KeptEvent::OpenSlot { .. } | KeptEvent::CloseSlot { .. } => None,
        KeptEvent::Deliver { node, envelope, .. } => {
            Some((network.read(envelope).slot(), node.name(config)))
        }
        KeptEvent::Hear { node, slot, .. } => Some((*slot as u64, node.name(config))),
        KeptEvent::NominationTimer { node, slot, .. } => Some((*slot, node.name(config))),
        KeptEvent::BallotTimer { node, slot, .. } => Some((*slot, node.name(config))),
        KeptEvent::Large(event) => place_of_large(event),
    }
}

fn place_of_large(event: &Event) -> Option<(u64, NodeId)>
    requires { is_large event.now ≡ true }
    ensures { result ≡ slot_and_node_of (step_of event.now) }
{
    match event {
        Event::Propose { slot, node, .. }
        | Event::Reslice { slot, node, .. }
        | Event::Hear { slot, node, .. } => Some((*slot, *node)),
        _ => unreachable!(),
    }
}
