//! One step of a network, answered whole.

ghost use Rattle.std.specs.Prelude.{◌≡◌, IfErr, IfOk, OnErr, ℕ};
ghost use Rattle.host_network.specs.Decoding.{said_by, step_of};
ghost use Rattle.host_network.specs.Marks.{slot_and_node_of};
ghost use Rattle.host_network.specs.Standing.{IsRefusal, StandsFor, machine_of, node_at};
ghost use Rattle.scp_spec.specs.Networks.{Net};
ghost use Rattle.scp_spec.specs.Networks.Step.{Delivers};
ghost use Rattle.scp_types.specs.declared.event.NodeEvent.TheVariants as node_event;
ghost use Rattle.live_network.specs.Serving.{is_left, is_stale};
ghost use Rattle.live_network.specs.Steps.{IsStepped};

use host_network::{Given, Network, Reading, read};
use node_store::Shelf;
use scp_types::{Event, NodeId, Refusal};
use std::alloc::Global;

/// An applied event: the slot and the node, if it is an event of a node; whether it is stale; and what it gave out.
#[derive(Drop)]
pub(crate) struct Stepped {
    pub place: Option<(u64, NodeId)>,
    pub stale: bool,
    pub given: Given,
}

/// Applies one event. An error is the first refusal that applies, or says that it is out of memory; then the network is
/// as it was.
pub(crate) fn step<S: Shelf>(
    alloc: Global,
    network: &mut Network<S>,
    event: &Event,
) -> Result<Stepped, Refusal>
    ensures stepped { IfOk result (λ stepped. IsStepped (machine_of network.old) (step_of event.now) stepped (machine_of network.new)) }
    ensures err { IfErr result (IsRefusal (machine_of network.old) (step_of event.now)) }
    ensures same { OnErr result (machine_of network.new ≡ machine_of network.old) }
    ensures config { network.new.config ≡ network.old.config }
{
    match event {
        Event::OpenSlot { .. } | Event::CloseSlot { .. } => apply(network, event, None, false),
        Event::Deliver { node, bytes } => {
            let bytes = bytes.as_slice();
            match read(alloc, bytes) {
                Ok(said) => deliver(network, node, said, bytes.len() as u64),
                Err(_) => Err(network.refusal(event)),
            }
        }
        Event::Propose { slot, node, .. }
        | Event::Hear { slot, node, .. }
        | Event::Reslice { slot, node, .. } => {
            apply(network, event, Some((*slot, *node)), false)
        }
        Event::NominationTimer { slot, node, round } => {
            let stale = is_round_over(network, *slot, node, *round);
            apply(network, event, Some((*slot, *node)), stale)
        }
        Event::BallotTimer {
            slot,
            node,
            counter,
        } => {
            let stale = is_counter_over(network, *slot, node, *counter);
            apply(network, event, Some((*slot, *node)), stale)
        }
    }
}

/// Applies an event of which it is known where it is and whether it is stale. An error is as that of [`step`].
fn apply<S: Shelf>(
    network: &mut Network<S>,
    event: &Event,
    place: Option<(u64, NodeId)>,
    stale: bool,
) -> Result<Stepped, Refusal>
    requires place { place ≡ slot_and_node_of (step_of event.now) }
    requires stale { (net : Net) → StandsFor (machine_of network.old) net → stale ≡ is_stale net (step_of event.now) }
    ensures stepped { IfOk result (λ stepped. IsStepped (machine_of network.old) (step_of event.now) stepped (machine_of network.new)) }
    ensures err { IfErr result (IsRefusal (machine_of network.old) (step_of event.now)) }
    ensures same { OnErr result (machine_of network.new ≡ machine_of network.old) }
    ensures config { network.new.config ≡ network.old.config }
{
    let given = network.apply(event)?.given;
    Ok(Stepped {
        place,
        stale,
        given,
    })
}

/// Delivers `size` bytes that say this to a node. An error is as that of [`step`].
#[tactic(auto, using(crate::proofs::Leading::right_is))]
pub(crate) fn deliver<S: Shelf>(
    network: &mut Network<S>,
    node: &NodeId,
    said: Reading,
    size: u64,
) -> Result<Stepped, Refusal>
    ensures stepped { IfOk result (λ stepped. IsStepped (machine_of network.old) (Delivers node.now size (said_by said)) stepped (machine_of network.new)) }
    ensures err { IfErr result (IsRefusal (machine_of network.old) (Delivers node.now size (said_by said))) }
    ensures same { OnErr result (machine_of network.new ≡ machine_of network.old) }
    ensures config { network.new.config ≡ network.old.config }
{
    let place = place_of(node, &said);
    let stale = is_old(network, node, &said);
    let given = network.deliver(node, said, size)?.given;
    Ok(Stepped {
        place,
        stale,
        given,
    })
}

/// The slot of an envelope that bytes say, and the node that they reach; `None` if they say none.
fn place_of(node: &NodeId, said: &Reading) -> Option<(u64, NodeId)>
    ensures { (size : ℕ) → result ≡ slot_and_node_of (Delivers node.now size (said_by said.now)) }
{
    match said {
        Reading::Says(envelope) => Some((envelope.slot(), *node)),
        Reading::Faulty(_) => None,
    }
}

/// Whether bytes say an envelope that is not newer than what a hosted node has of the same slot, sender and kind.
#[tactic(auto, unfolding(scp_spec::specs::Nodes::change))]
fn is_old<S: Shelf>(network: &Network<S>, node: &NodeId, said: &Reading) -> bool
    ensures { (size : ℕ) (net : Net) → StandsFor (machine_of network.now) net → result ≡ is_stale net (Delivers node.now size (said_by said.now)) }
{
    let Reading::Says(envelope) = said else {
        return false;
    };
    match network.node(envelope.slot(), node) {
        None => false,
        Some(node) => !network.rows(node).takes(envelope),
    }
}

/// Whether the nomination timer of a round of a hosted node at an open slot is not live.
#[tactic(auto, unfolding(scp_spec::specs::Nodes::change))]
fn is_round_over<S: Shelf>(network: &Network<S>, slot: u64, node: &NodeId, round: u32) -> bool
    ensures { (net : Net) → StandsFor (machine_of network.now) net → result ≡ is_left (node_at net slot node.now) (node_event.NominationTimer round) }
{
    match network.node(slot, node) {
        None => false,
        Some(node) => !node.is_round_live(round),
    }
}

/// Whether the ballot timer for a counter of a hosted node at an open slot is not live.
#[tactic(auto, unfolding(scp_spec::specs::Nodes::change))]
fn is_counter_over<S: Shelf>(network: &Network<S>, slot: u64, node: &NodeId, counter: u32) -> bool
    ensures { (net : Net) → StandsFor (machine_of network.now) net → result ≡ is_left (node_at net slot node.now) (node_event.BallotTimer counter) }
{
    match network.node(slot, node) {
        None => false,
        Some(node) => !node.is_counter_live(counter),
    }
}
