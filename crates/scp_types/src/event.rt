//! What happens to a node and to a network, what they give out, and why an event is refused.

ghost use Rattle.std.specs.Prelude.{◌≡◌, IfOk};

use crate::bytes::Bytes;
use crate::envelope::Envelope;
use crate::kind::Kind;
use crate::nested::Nested;
use crate::node_id::NodeId;
use crate::value::Value;
use std::alloc::{AllocError, Global};

/// What happens to one node at one slot.
#[derive(Drop)]
pub enum NodeEvent {
    /// The node is to propose a value.
    Propose(Value),
    /// An envelope reaches it.
    Take(Envelope),
    /// The nomination timer of this round fires.
    NominationTimer(u32),
    /// The ballot timer that was armed for this counter fires.
    BallotTimer(u32),
    /// From now on these are its configured slices.
    Reslice(Nested),
}

/// What one node at one slot gives out.
#[derive(Drop)]
pub enum Out {
    /// The timer of this round of nomination is to be armed.
    ArmNomination(u32),
    /// The ballot timer is to be armed for this counter.
    ArmBallot(u32),
    /// This envelope is to be sent.
    Emit(Envelope),
    /// This value is what the slot decides.
    Externalized(Value),
}

impl Out {
    /// A copy. An error says that it is out of memory, or that a value or slices have too many owners.
    pub fn try_copy(&self, alloc: Global) -> Result<Out, AllocError>
        ensures { IfOk result (λ o. o ≡ self.now) }
    {
        match self {
            Out::ArmNomination(round) => Ok(Out::ArmNomination(*round)),
            Out::ArmBallot(counter) => Ok(Out::ArmBallot(*counter)),
            Out::Emit(envelope) => Ok(Out::Emit(envelope.try_copy(alloc)?)),
            Out::Externalized(value) => Ok(Out::Externalized(value.try_copy()?)),
        }
    }
}

/// What happens to a network, as it comes: the bytes of a delivery and of a proposal are not read yet.
#[derive(Drop)]
pub enum Event {
    /// The slot is opened: each hosted node begins anew there.
    OpenSlot {
        slot: u64,
    },
    /// The slot is closed, and its nodes' states are forgotten.
    CloseSlot {
        slot: u64,
    },
    /// A hosted node is to propose a value.
    Propose {
        slot: u64,
        node: NodeId,
        value: Bytes,
    },
    /// Bytes reach a hosted node.
    Deliver {
        node: NodeId,
        bytes: Bytes,
    },
    /// A hosted node hears another's emission of this kind and number, counted from 1 on since the slot was opened.
    Hear {
        slot: u64,
        node: NodeId,
        from: NodeId,
        kind: Kind,
        number: u64,
    },
    /// A hosted node's nomination timer of this round fires.
    NominationTimer {
        slot: u64,
        node: NodeId,
        round: u32,
    },
    /// A hosted node's ballot timer for this counter fires.
    BallotTimer {
        slot: u64,
        node: NodeId,
        counter: u32,
    },
    /// From now on, until the slot is closed, these are a hosted node's configured slices there.
    Reslice {
        slot: u64,
        node: NodeId,
        slices: Nested,
    },
}

impl Event {
    /// A copy. An error says that it is out of memory, or that slices have too many owners.
    pub fn try_copy(&self, alloc: Global) -> Result<Event, AllocError>
        ensures { IfOk result (λ e. e ≡ self.now) }
    {
        match self {
            Event::OpenSlot { slot } => Ok(Event::OpenSlot { slot: *slot }),
            Event::CloseSlot { slot } => Ok(Event::CloseSlot { slot: *slot }),
            Event::Propose { slot, node, value } => Ok(Event::Propose {
                slot: *slot,
                node: *node,
                value: value.try_copy(alloc)?,
            }),
            Event::Deliver { node, bytes } => Ok(Event::Deliver {
                node: *node,
                bytes: bytes.try_copy(alloc)?,
            }),
            Event::Hear {
                slot,
                node,
                from,
                kind,
                number,
            } => Ok(Event::Hear {
                slot: *slot,
                node: *node,
                from: *from,
                kind: *kind,
                number: *number,
            }),
            Event::NominationTimer { slot, node, round } => Ok(Event::NominationTimer {
                slot: *slot,
                node: *node,
                round: *round,
            }),
            Event::BallotTimer {
                slot,
                node,
                counter,
            } => Ok(Event::BallotTimer {
                slot: *slot,
                node: *node,
                counter: *counter,
            }),
            Event::Reslice { slot, node, slices } => Ok(Event::Reslice {
                slot: *slot,
                node: *node,
                slices: slices.try_copy()?,
            }),
        }
    }
}

/// Why a network refuses an event (this host's profile). A refused event changes nothing.
#[derive(Clone, Copy, Debug, PartialEq, Eq)]
pub enum Refusal {
    /// There is no such network.
    NoSuchNetwork,
    /// The node is not hosted, or would hear itself.
    NoSuchNode,
    /// The slot is not open.
    SlotNotOpen,
    /// The slot is open already.
    SlotOpenAlready,
    /// No more slots may be open: the budget of open slots is used up.
    TooManySlots,
    /// The bytes are no envelope, with the number of their fault.
    BadEnvelope(u8),
    /// The sender of the envelope is hosted: its emissions are heard, not delivered.
    HostedSender,
    /// The node has no such emission.
    NotEmitted,
    /// The budget of events is used up.
    JournalFull,
    /// The delivered bytes that draw on the budget of bytes would exceed it.
    BytesFull,
    /// The bytes are no value: there are none, or more than 256.
    BadValue,
    /// The node has a proposal already.
    ProposedAlready,
    /// The events that are reserved for the step are used up.
    ShareFull,
    /// The delivered bytes would exceed those that are reserved for the step.
    ShareBytesFull,
    /// It is out of memory. No definition answers this.
    NoMemory,
}
