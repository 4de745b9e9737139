//! A hosted node at a slot.

ghost use Rattle.std.specs.Prelude.{◌≡◌, [], IfOk, IfSome, None, OnErr, OnOk, Some, option_map};
ghost use Rattle.node_store.specs.Archives.{AreHeld, Archived, HoldsAll, IsFiled, Keeps, sent_of};
ghost use Rattle.scp_spec.specs.Networks.{emissions, has_proposal, after_event};
ghost use Rattle.scp_spec.specs.Nodes.{fresh, step};
ghost use Rattle.host_network.specs.Answers.{IsOutcome};
ghost use Rattle.host_network.specs.Marks.{numbers_by_kind};
ghost use Rattle.node_core.specs.Filings.{IsFiledEvent, event_of};
ghost use Rattle.host_network.specs.Charges.{HasRoomForCharge, IsActed};
ghost use Rattle.host_network.specs.FiledSlots.{IsInstanceFiled, IsInstanceHeld, bytes_from, events_from, instance_of_filed};
ghost use Rattle.host_network.specs.EmissionsByKind.{nth_of};

use crate::applied::Outcome;
use crate::emission_log::EmissionLog;
use crate::plan::Charge;
use crate::tallies::{Tallies, count};
use node_core::{FiledEvent, Node};
use node_leaders::Draws;
use node_store::{Archive, Filed, Held, Shelf};
use node_view::SharedReach;
use scp_types::{Kind, Nested, NodeId};
use std::alloc::{AllocError, Global};
use std::marker::Model;

/// A hosted node at a slot, what it has emitted since the slot was opened, and what it drew on its shares.
#[derive(Drop)]
pub(crate) struct Instance {
    node: Node,
    emitted: EmissionLog,
    own: u64,
    heard: Tallies,
}

impl Model for Instance {
    ghost use Rattle.std.specs.Coded.{codes};
    ghost use Rattle.scp_types.specs.Trees.{members_code};
    ghost use Rattle.host_network.specs.FiledSlots.{FiledInstance};

    ghost Value = { FiledInstance };

    ghost coded = { Prim.hlevel (codes, members_code) };

    ghost view = { λ p. record { held = p.node; emitted = p.emitted; own = p.own; heard = p.heard.tallies } };
}

impl Instance {
    /// A node to which nothing has happened. It takes no memory.
    pub(crate) fn new(alloc: Global, name: NodeId, slot: u64, slices: Nested) -> Instance
        ensures instance { instance_of_filed result ≡ record { node = fresh slot name slices; emitted = [] } }
        ensures rows { result.held.rows ≡ [] }
        ensures emitted { result.emitted ≡ [] }
        ensures own { result.own ≡ 0 }
        ensures heard { result.heard ≡ [] }
    {
        Instance {
            node: Node::new(alloc, name, slot, slices),
            emitted: EmissionLog::nothing(alloc),
            own: 0,
            heard: Tallies::nothing(alloc),
        }
    }

    /// Whether the node has been told to propose a value.
    pub(crate) fn has_proposal(&self) -> bool
        ensures { result ≡ has_proposal (Some (instance_of_filed self.now)) }
    {
        self.node.inputs().proposal.is_some()
    }

    /// Has what the node knows of whom it reaches, and may be new, share memory with that of others at the slot, unless it
    /// is alone there. What contracts see stays.
    #[inline(always)]
    pub(crate) fn share_reach(&mut self, is_alone: bool, shared: &mut SharedReach)
        ensures { self.new ≡ self.old }
    {
        if !is_alone {
            self.node.share_reach(shared);
        }
    }

    /// The node, as it is now.
    pub(crate) fn node(&self) -> &Node
        ensures { result.now ≡ self.now.held }
    {
        &self.node
    }

    /// The slices of the node, as they are now.
    pub(crate) fn slices(&self) -> &Nested
        ensures { result.now ≡ (instance_of_filed self.now).node.slices }
    {
        self.node.slices()
    }

    /// The node's emission of a kind with this number, which counts from 1.
    pub(crate) fn emission(&self, kind: Kind, number: u64) -> Option<&Filed>
        ensures sent { option_map (λ f. sent_of f.now) result ≡ nth_of kind number (instance_of_filed self.now).emitted }
        ensures filed { (archive : Archived) → IsInstanceFiled archive self.now → IfSome result (λ f. IsFiled archive f.now) }
    {
        self.emitted.emission(kind, number)
    }

    /// Holds the rows of the node's table and what it has emitted, beside what is held.
    pub(crate) fn hold(&self, held: &mut Held)
        ensures held { IsInstanceHeld held.new self.now }
        ensures kept { HoldsAll held.old held.new }
    {
        hold_all(self.node.table().rows(), held);
        hold_all(self.emitted.emitted(), held);
    }

    /// How many events of its own it drew since the slot was opened.
    pub(crate) fn own_events(&self) -> u64
        ensures { result ≡ self.now.own }
    {
        self.own
    }

    /// How many events from a name it drew since the slot was opened.
    pub(crate) fn events_from(&self, from: &NodeId) -> u64
        ensures { result ≡ events_from self.now.heard from.now }
    {
        self.heard.events_from(from)
    }

    /// How many delivered bytes from a name it drew since the slot was opened.
    pub(crate) fn bytes_from(&self, from: &NodeId) -> u64
        ensures { result ≡ bytes_from self.now.heard from.now }
    {
        self.heard.bytes_from(from)
    }

    /// Does one event of the node, keeps what it emits, and counts the event if it draws on a share of the node. An
    /// error says that it is out of memory; then nothing changed, but the archive may have more.
    #[tactic(auto, unfolding(scp_spec::specs::Networks::after_event))]
    pub(crate) fn act<S: Shelf>(
        &mut self,
        archive: &mut Archive<S>,
        draws: &mut Draws,
        event: FiledEvent,
        charge: &Charge,
    ) -> Result<Outcome, AllocError>
        requires archived { IsInstanceFiled archive.old self.old }
        requires event { IsFiledEvent archive.old event }
        requires room { HasRoomForCharge charge.now self.old }
        ensures acted { OnOk result (IsActed charge.now (event_of event) self.old self.new) }
        ensures outcome { IfOk result (IsOutcome (step (instance_of_filed self.old).node (event_of event)).1 (numbers_by_kind (instance_of_filed self.old).emitted (emissions (step (instance_of_filed self.old).node (event_of event)).1)) None archive.new) }
        ensures err { OnErr result (self.new ≡ self.old) }
        ensures archived { IsInstanceFiled archive.new self.new }
        ensures kept { Keeps archive.old archive.new }
    {
        let Instance {
            node,
            emitted,
            own,
            heard,
        } = self;
        let Ok(()) = heard.make_room(&charge.drawn) else {
            drop(event);
            return Err(AllocError);
        };
        let applied = emitted.advance(archive, draws, node, event);
        if applied.is_ok() {
            node.rows_are_its_table();
            count(own, heard, charge);
        }
        applied
    }
}

/// Holds all of these, beside what is held.
fn hold_all(all: &[Filed], held: &mut Held)
    ensures held { AreHeld held.new all.now }
    ensures kept { HoldsAll held.old held.new }
{
    for filed in all {
        held.hold(filed);
    }
}
