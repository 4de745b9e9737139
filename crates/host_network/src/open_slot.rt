//! An open slot.

ghost use Rattle.std.specs.Prelude.{◌≡◌, ◌<◌, IfOk, IfSome, None, OnErr, OnOk, length, map, slice_get};
ghost use Rattle.std.specs.List.{All};
ghost use Rattle.node_store.specs.Archives.{Archived, HoldsAll, Keeps};
ghost use Rattle.scp_spec.specs.Networks.{emissions, instances_of_new_slot, outs_at};
ghost use Rattle.host_network.specs.Answers.{IsOutcome};
ghost use Rattle.host_network.specs.Marks.{numbers_by_kind, emitted_at};
ghost use Rattle.node_core.specs.Filings.{IsFiledEvent, event_of};
ghost use Rattle.host_network.specs.Changes.{IsChangedAt};
ghost use Rattle.host_network.specs.Charges.{HasRoomForCharge, IsActed};
ghost use Rattle.host_network.specs.FiledSlots.{IsInstanceFiled, IsInstanceHeld, HasDrawnNothing, instance_of_filed};

use crate::applied::Outcome;
use crate::instance::Instance;
use crate::plan::Charge;
use host_config::{HostedNode, NetConfig};
use node_core::FiledEvent;
use node_leaders::Draws;
use node_store::{Archive, Held, Shelf};
use node_view::SharedReach;
use std::alloc::{AllocError, Global};
use std::marker::Model;

/// An open slot, with the hosted nodes there in the order of the configuration, hashes that were drawn for leaders there,
/// and what its nodes know alike of whom they reach.
#[derive(Drop)]
pub(crate) struct OpenSlot {
    number: u64,
    instances: Vec<Instance>,
    draws: Draws,
    shared: SharedReach,
}

impl Model for OpenSlot {
    ghost use Rattle.std.specs.Coded.{codes};
    ghost use Rattle.scp_types.specs.Trees.{members_code};
    ghost use Rattle.host_network.specs.FiledSlots.{FiledSlot};

    ghost Value = { FiledSlot };

    ghost coded = { Prim.hlevel (codes, members_code) };

    ghost view = { λ s. record { number = s.number; instances = s.instances.items } };
}

impl OpenSlot {
    /// A slot that is just opened: each hosted node begins anew, and has drawn nothing. An error says that it is out of
    /// memory.
    pub(crate) fn new(
        alloc: Global,
        number: u64,
        config: &NetConfig,
    ) -> Result<OpenSlot, AllocError>
        ensures number { IfOk result (λ s. s.number ≡ number) }
        ensures instances { IfOk result (λ s. map instance_of_filed s.instances ≡ instances_of_new_slot config.now.nodes number) }
        ensures archived { IfOk result (λ s. (archive : Archived) → All (IsInstanceFiled archive) s.instances) }
        ensures counts { IfOk result (λ s. All HasDrawnNothing s.instances) }
    {
        let instances = fresh_instances(alloc, number, config.nodes())?;
        Ok(OpenSlot {
            number,
            instances,
            draws: Draws::new(alloc),
            shared: SharedReach::new(alloc),
        })
    }

    /// The number of the slot.
    pub(crate) fn number(&self) -> u64
        ensures { result ≡ self.now.number }
    {
        self.number
    }

    /// The hosted nodes.
    pub(crate) fn instances(&self) -> &[Instance]
        ensures { result.now ≡ self.now.instances }
    {
        &self.instances
    }

    /// Holds the rows and the emissions of all nodes there, beside what is held.
    pub(crate) fn hold(&self, held: &mut Held)
        ensures held { All (IsInstanceHeld held.new) self.now.instances }
        ensures kept { HoldsAll held.old held.new }
    {
        for instance in &self.instances {
            instance.hold(held);
        }
    }

    /// Does one event of the node at this place, as [`Instance::act`].
    pub(crate) fn act<S: Shelf>(
        &mut self,
        archive: &mut Archive<S>,
        at: usize,
        event: FiledEvent,
        charge: &Charge,
    ) -> Result<Outcome, AllocError>
        requires at { at < length self.old.instances }
        requires archived { All (IsInstanceFiled archive.old) self.old.instances }
        requires event { IsFiledEvent archive.old event }
        requires room { IfSome (slice_get self.old.instances at) (HasRoomForCharge charge.now) }
        ensures acted { OnOk result (IsChangedAt (IsActed charge.now (event_of event)) at self.old.instances self.new.instances) }
        ensures outcome { IfOk result (IsOutcome (outs_at (event_of event) (slice_get (map instance_of_filed self.old.instances) at)) (numbers_by_kind (emitted_at (slice_get (map instance_of_filed self.old.instances) at)) (emissions (outs_at (event_of event) (slice_get (map instance_of_filed self.old.instances) at)))) None archive.new) }
        ensures err { OnErr result (self.new ≡ self.old) }
        ensures number { self.new.number ≡ self.old.number }
        ensures archived { All (IsInstanceFiled archive.new) self.new.instances }
        ensures kept { Keeps archive.old archive.new }
    {
        let OpenSlot {
            instances,
            draws,
            shared,
            ..
        } = self;
        let is_alone = instances.len() == 1;
        let instance = &mut instances[at];
        let outcome = instance.act(archive, draws, event, charge);
        instance.share_reach(is_alone, shared);
        outcome
    }
}

#[tactic(auto, unfolding(scp_spec::specs::Networks::instances_of_new_slot))]
fn fresh_instances(
    alloc: Global,
    number: u64,
    nodes: &[HostedNode],
) -> Result<Vec<Instance>, AllocError>
    ensures instances { IfOk result (λ v. map instance_of_filed v.items ≡ instances_of_new_slot nodes.now number) }
    ensures archived { IfOk result (λ v. (archive : Archived) → All (IsInstanceFiled archive) v.items) }
    ensures counts { IfOk result (λ v. All HasDrawnNothing v.items) }
{
    let mut instances = Vec::with_capacity(alloc, nodes.len())?;
    for hosted in nodes {
        let slices = hosted.slices().try_copy()?;
        instances.push(Instance::new(alloc, *hosted.name(), number, slices))?;
    }
    Ok(instances)
}
