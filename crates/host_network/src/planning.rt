//! What is to be done for an event of a network or of a node's own, or why it is refused.

ghost use Rattle.std.specs.Prelude.{◌≡◌, MatchResult, Some, length, nat_lt, not, ℕ};
ghost use Rattle.scp_spec.specs.Networks.{is_bad_value};
ghost use Rattle.scp_spec.specs.Networks.Step.{Opens, Closes, Proposes, Reslices};
ghost use Rattle.host_config.specs.Configs.{index_of_name};
ghost use Rattle.host_network.specs.Decoding.{step_of};
ghost use Rattle.host_network.specs.Deeds.{IsOwnRoom, IsPlanned, IsPlannedOwn, IsPlannedSurely, IsSlotThere, IsSpot, IsSpotRefused};
ghost use Rattle.host_network.specs.Standing.{IsRefusal, machine_of};
ghost use Rattle.host_network.specs.declared.plan.Deed.TheVariants.{Act};
ghost use Rattle.node_core.specs.Filings.{IsFiledEvent};

use crate::emission::Emission;
use crate::network::Network;
use crate::open_slot::OpenSlot;
use crate::plan::{Charge, Deed, Drawn, Plan, Spot};
use node_core::FiledEvent;
use node_store::Shelf;
use scp_types::{Event, MAX_VALUE_LENGTH, Nested, NodeId, Refusal, Value};

impl<S: Shelf> Network<S> {
    /// What is to be done for an event, or the first refusal that applies, or that it is out of memory. In the last
    /// case no refusal applies, or bytes came to a hosted node that may take memory to be read. Nothing is changed.
    #[tactic(auto, using(crate::proofs::Planned::planned))]
    #[inline(always)]
    pub(crate) fn plan(&self, event: &Event) -> Result<Plan, Refusal>
        ensures { IsPlanned self.now (step_of event.now) result }
    {
        match event {
            Event::OpenSlot { slot } => self.plan_open(*slot),
            Event::CloseSlot { slot } => self.plan_close(*slot),
            Event::Propose { slot, node, value } => {
                self.plan_propose(*slot, node, value.as_slice())
            }
            Event::Deliver { node, bytes } => self.plan_deliver(node, bytes.as_slice()),
            Event::Hear {
                slot,
                node,
                from,
                kind,
                number,
            } => {
                let emission = Emission {
                    from: *from,
                    kind: *kind,
                    number: *number,
                };
                self.plan_hear(*slot, node, &emission)
            }
            Event::NominationTimer { slot, node, round } => {
                self.plan_own(*slot, node, FiledEvent::NominationTimer(*round))
            }
            Event::BallotTimer {
                slot,
                node,
                counter,
            } => self.plan_own(*slot, node, FiledEvent::BallotTimer(*counter)),
            Event::Reslice { slot, node, slices } => self.plan_reslice(*slot, node, slices),
        }
    }

    /// Why an event is refused if its caller has no room for it: the first refusal that applies, or else that it is out
    /// of memory. Nothing is changed.
    pub fn refusal(&self, event: &Event) -> Refusal
        ensures { IsRefusal (machine_of self.now) (step_of event.now) result }
    {
        match self.plan(event) {
            Err(refusal) => refusal,
            Ok(plan) => {
                drop(plan);
                // Memory: whoever asks has none, and no refusal applies.
                Refusal::NoMemory
            }
        }
    }

    fn plan_open(&self, slot: u64) -> Result<Plan, Refusal>
        ensures { IsPlanned self.now (Opens slot) result }
    {
        if self.slot_at(slot).is_some() {
            return Err(Refusal::SlotOpenAlready);
        }
        if self.slots_are_full() {
            return Err(Refusal::TooManySlots);
        }
        let drawn = self.openings();
        self.has_room(&drawn)?;
        match OpenSlot::new(self.alloc, slot, &self.config) {
            Err(_) => Err(Refusal::NoMemory),
            Ok(opened) => Ok(Plan {
                deed: Deed::Open(opened),
                charge: Charge { drawn, size: 0 },
            }),
        }
    }

    fn slots_are_full(&self) -> bool
        ensures { result ≡ not (nat_lt (length self.now.slots) self.now.config.budgets.slots) }
    {
        self.slots.len() as u64 >= self.config.budgets().slots()
    }

    /// What is to be done to close a slot. It takes no memory.
    fn plan_close(&self, slot: u64) -> Result<Plan, Refusal>
        ensures { IsPlannedSurely self.now (Closes slot) result }
    {
        let _slots = &self.slots;
        let slot_at = self.open_slot(slot)?;
        let drawn = self.openings();
        self.has_room(&drawn)?;
        Ok(Plan {
            deed: Deed::Close { slot_at },
            charge: Charge { drawn, size: 0 },
        })
    }

    /// What is to be done if a node is to propose a value, which has 1 to 256 bytes.
    fn plan_propose(&self, slot: u64, node: &NodeId, value: &[u8]) -> Result<Plan, Refusal>
        ensures { IsPlanned self.now (Proposes slot node.now value.now) result }
    {
        let _slots = &self.slots;
        let spot = self.spot(slot, node)?;
        if is_bad(value) {
            return Err(Refusal::BadValue);
        }
        if self.instance(spot.slot_at, spot.node_at).has_proposal() {
            return Err(Refusal::ProposedAlready);
        }
        let drawn = self.own_room(&spot, node)?;
        match Value::of(self.alloc, value) {
            Err(_) => Err(Refusal::NoMemory),
            Ok(value) => Ok(plan_at(&spot, drawn, FiledEvent::Propose(value))),
        }
    }

    /// What is to be done for an event of a node's own that nothing but its place and its room can refuse. It takes no
    /// memory.
    fn plan_own(&self, slot: u64, node: &NodeId, event: FiledEvent) -> Result<Plan, Refusal>
        requires { IsFiledEvent self.now.archive event }
        ensures { IsPlannedOwn self.now slot node.now event result }
    {
        let _slots = &self.slots;
        let spot = self.spot(slot, node)?;
        let drawn = self.own_room(&spot, node)?;
        Ok(plan_at(&spot, drawn, event))
    }

    /// What is to be done if the slices of a node change.
    fn plan_reslice(&self, slot: u64, node: &NodeId, slices: &Nested) -> Result<Plan, Refusal>
        ensures { IsPlanned self.now (Reslices slot node.now slices.now) result }
    {
        let _slots = &self.slots;
        let spot = self.spot(slot, node)?;
        let drawn = self.own_room(&spot, node)?;
        match slices.try_copy() {
            Err(_) => Err(Refusal::NoMemory),
            Ok(slices) => Ok(plan_at(&spot, drawn, FiledEvent::Reslice(slices))),
        }
    }

    /// Where a hosted node stands at an open slot, or why it does not.
    fn spot(&self, slot: u64, node: &NodeId) -> Result<Spot, Refusal>
        ensures { MatchResult result (IsSpot self.now slot node.now) (IsSpotRefused self.now slot node.now) }
    {
        let node_at = self.node_place(node)?;
        let slot_at = self.open_slot(slot)?;
        Ok(Spot { slot_at, node_at })
    }

    /// On what a node's own event draws, if that has room for one more.
    fn own_room(&self, spot: &Spot, node: &NodeId) -> Result<Drawn, Refusal>
        requires slot { (i : ℕ) × IsSlotThere self.now i spot.now.slot_at }
        requires node { index_of_name self.now.config.nodes node.now ≡ Some spot.now.node_at }
        ensures { IsOwnRoom self.now spot.now node.now result }
    {
        let drawn = self.own_events(spot, node);
        self.has_room(&drawn)?;
        Ok(drawn)
    }
}

/// Whether bytes are no value: a value has 1 to 256.
fn is_bad(value: &[u8]) -> bool
    ensures { result ≡ is_bad_value value.now }
{
    value.is_empty() || value.len() > MAX_VALUE_LENGTH
}

fn plan_at(spot: &Spot, drawn: Drawn, event: FiledEvent) -> Plan
    ensures { result ≡ record { deed = Act spot.now event; charge = record { drawn = drawn; size = 0 } } }
{
    Plan {
        deed: Deed::Act { spot: *spot, event },
        charge: Charge { drawn, size: 0 },
    }
}
