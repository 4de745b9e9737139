//! What is to be done for an event.

use crate::open_slot::OpenSlot;
use node_core::FiledEvent;
use scp_types::{Envelope, NodeId};

/// What is to be done, by places among the open slots and among the hosted nodes. What needs memory is made already,
/// but a delivered envelope is filed only when it is handed over.
#[derive(Drop)]
pub(crate) enum Deed {
    /// This slot is to be open.
    Open(OpenSlot),
    /// The open slot at this place is to be closed.
    Close { slot_at: usize },
    /// The node at these places has this event.
    Act { spot: Spot, event: FiledEvent },
    /// The node at these places is handed this envelope, which no archive has yet.
    Hand { spot: Spot, envelope: Envelope },
}

/// On what an event draws, by places.
#[derive(Clone, Copy)]
pub(crate) enum Drawn {
    /// The budgets of the network.
    Budgets,
    /// The openings and closings of the network.
    Opens,
    /// The own share of the node at these places.
    Own(Spot),
    /// The share of the node at these places in what comes from that name.
    Pair { spot: Spot, from: NodeId },
}

/// Where a hosted node stands at an open slot: the places of the slot and of the node.
#[derive(Clone, Copy)]
pub(crate) struct Spot {
    pub slot_at: usize,
    pub node_at: usize,
}

/// On what an event draws, and the bytes that count as delivered by it.
#[derive(Clone, Copy)]
pub(crate) struct Charge {
    pub drawn: Drawn,
    pub size: u64,
}

/// A deed, and what it is charged.
#[derive(Drop)]
pub(crate) struct Plan {
    pub deed: Deed,
    pub charge: Charge,
}
