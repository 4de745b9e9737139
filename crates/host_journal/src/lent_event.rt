//! An event of a journal, read in place.

ghost use Rattle.std.specs.Prelude.{◌≡◌, true};
ghost use Rattle.node_store.specs.Archives.{IsFiled, sent_of};
ghost use Rattle.scp_spec.specs.Networks.Reading.{Read};
ghost use Rattle.scp_spec.specs.Networks.Step.{Delivers};
ghost use Rattle.host_network.specs.Decoding.{step_of};
ghost use Rattle.host_journal.specs.Boxing.{is_large};
ghost use Rattle.host_journal.specs.Keeping.{IsKeptEvent, step_in};
ghost use Rattle.host_journal.specs.Lending.{lent_step};

use crate::kept::KeptEvent;
use host_network::Network;
use node_store::{Filed, Shelf};
use scp_types::{Bytes, Envelope, Event, Kind, Nested, NodeId};

/// An event that a network applied, without a copy of anything: values, envelopes and slices stand where the network
/// and its journal keep them.
#[derive(Clone, Copy)]
pub enum LentEvent<'a> {
    /// The slot was opened.
    OpenSlot {
        slot: u64,
    },
    /// The slot was closed.
    CloseSlot {
        slot: u64,
    },
    /// A hosted node was told to propose a value.
    Propose {
        slot: u64,
        node: NodeId,
        value: &'a Bytes,
    },
    /// `size` bytes reached a hosted node, the one spelling of the envelope.
    Deliver {
        node: NodeId,
        size: u64,
        envelope: &'a Envelope,
    },
    /// A hosted node heard an emission of another one, named by its kind and its number, from 1 on since the slot was
    /// opened.
    Hear {
        slot: u64,
        node: NodeId,
        from: NodeId,
        kind: Kind,
        number: u64,
    },
    /// A hosted node's nomination timer of this round fired.
    NominationTimer {
        slot: u64,
        node: NodeId,
        round: u32,
    },
    /// A hosted node's ballot timer for this counter fired.
    BallotTimer {
        slot: u64,
        node: NodeId,
        counter: u32,
    },
    /// From then on, until the slot was closed, these were a hosted node's configured slices there.
    Reslice {
        slot: u64,
        node: NodeId,
        slices: &'a Nested,
    },
}

/// An event as it is kept, read in place. It takes no memory.
pub(crate) fn lent_event<'a, S: Shelf>(
    network: &'a Network<S>,
    event: &'a KeptEvent,
) -> LentEvent<'a>
    requires { IsKeptEvent network.now.config.nodes network.now.archive event.now }
    ensures { lent_step result ≡ step_in event.now }
{
    match event {
        KeptEvent::OpenSlot { slot } => LentEvent::OpenSlot { slot: *slot },
        KeptEvent::CloseSlot { slot } => LentEvent::CloseSlot { slot: *slot },
        KeptEvent::Deliver {
            node,
            size,
            envelope,
        } => lent_delivery(network, node.name(network.config()), *size as u64, envelope),
        KeptEvent::Hear {
            node,
            from,
            kind,
            slot,
            number,
        } => LentEvent::Hear {
            slot: *slot as u64,
            node: node.name(network.config()),
            from: from.name(network.config()),
            kind: *kind,
            number: *number as u64,
        },
        KeptEvent::NominationTimer { node, round, slot } => LentEvent::NominationTimer {
            slot: *slot,
            node: node.name(network.config()),
            round: *round,
        },
        KeptEvent::BallotTimer {
            node,
            counter,
            slot,
        } => LentEvent::BallotTimer {
            slot: *slot,
            node: node.name(network.config()),
            counter: *counter,
        },
        KeptEvent::Large(event) => lent_large(event),
    }
}

fn lent_large(event: &Event) -> LentEvent<'_>
    requires { is_large event.now ≡ true }
    ensures { lent_step result ≡ step_of event.now }
{
    match event {
        Event::Propose { slot, node, value } => LentEvent::Propose {
            slot: *slot,
            node: *node,
            value,
        },
        Event::Reslice { slot, node, slices } => LentEvent::Reslice {
            slot: *slot,
            node: *node,
            slices,
        },
        Event::Hear {
            slot,
            node,
            from,
            kind,
            number,
        } => LentEvent::Hear {
            slot: *slot,
            node: *node,
            from: *from,
            kind: *kind,
            number: *number,
        },
        _ => unreachable!(),
    }
}

fn lent_delivery<'a, S: Shelf>(
    network: &'a Network<S>,
    node: NodeId,
    size: u64,
    filed: &'a Filed,
) -> LentEvent<'a>
    requires { IsFiled network.now.archive filed.now }
    ensures { lent_step result ≡ Delivers node size (Read (sent_of filed.now)) }
{
    LentEvent::Deliver {
        node,
        size,
        envelope: network.read(filed),
    }
}
