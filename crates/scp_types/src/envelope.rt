//! A statement with its sender.

ghost use Rattle.std.specs.Prelude.{◌≡◌, ◌↔◌, IsSome, IfSome, IfOk};
ghost use Rattle.scp_types.specs.Statements.{IsWellFormed, IsEnvelope, Sent};

use crate::nested::Nested;
use crate::node_id::NodeId;
use crate::statement::{Statement, read_widths};
use std::alloc::{AllocError, Global};
use std::marker::Model;

/// A statement with its sender, its slot and the sender's slices. It is well formed by its type.
///
/// For example, it may be a PREPARE of counter 2 with the high counter 1 or 2, but not one with the high counter 3.
#[derive(Drop)]
pub struct Envelope {
    sender: NodeId,
    slot: u64,
    slices: Nested,
    body: Statement,
}

impl Model for Envelope {
    ghost use Rattle.scp_types.specs.Statements.{Sent, IsEnvelope};
    ghost use Rattle.scp_types.specs.Trees.{members_code};
    ghost use Rattle.std.specs.Coded.{codes};

    ghost Value = { Sent };

    ghost coded = { Prim.hlevel (codes, members_code) };

    ghost view = { λ a. record { sender = a.sender; slot = a.slot; slices = a.slices; body = a.body } };

    ghost invariant = { λ a. IsEnvelope (record { sender = a.sender; slot = a.slot; slices = a.slices; body = a.body }) };
}

impl Envelope {
    /// An envelope whose statement is known to be well formed.
    pub fn of(sender: NodeId, slot: u64, slices: Nested, body: Statement) -> Envelope
        requires { IsWellFormed body }
        ensures { result ≡ record { sender = sender; slot = slot; slices = slices; body = body } }
    {
        read_widths(&body);
        Envelope {
            sender,
            slot,
            slices,
            body,
        }
    }

    /// An envelope of these parts, or `None` if the statement breaks a rule of its kind.
    pub fn new(sender: NodeId, slot: u64, slices: Nested, body: Statement) -> Option<Envelope>
        ensures exactly { IsSome result ↔ IsWellFormed body }
        ensures some { IfSome result (λ e. e ≡ record { sender = sender; slot = slot; slices = slices; body = body }) }
    {
        if !body.is_well_formed() {
            return None;
        }
        Some(Envelope::of(sender, slot, slices, body))
    }

    /// A copy. An error says that it is out of memory, or that a value or the slices have too many owners.
    pub fn try_copy(&self, alloc: Global) -> Result<Envelope, AllocError>
        ensures { IfOk result (λ e. e ≡ self.now) }
    {
        Ok(Envelope {
            sender: self.sender,
            slot: self.slot,
            slices: self.slices.try_copy()?,
            body: self.body.try_copy(alloc)?,
        })
    }

    /// The node that says it.
    pub fn sender(&self) -> &NodeId
        ensures value { result.now ≡ self.now.sender }
        ensures rules { IsEnvelope self.now }
    {
        &self.sender
    }

    /// The slot that it is about.
    pub fn slot(&self) -> u64
        ensures { result ≡ self.now.slot }
    {
        self.slot
    }

    /// The slices that the sender announces.
    pub fn slices(&self) -> &Nested
        ensures { result.now ≡ self.now.slices }
    {
        &self.slices
    }

    /// The statement.
    pub fn body(&self) -> &Statement
        ensures value { result.now ≡ self.now.body }
        ensures rules { IsWellFormed self.now.body }
    {
        &self.body
    }
}
