//! What was planned is done.
//!
//! An `AllocError` of a function here says that it is out of memory. Then nothing changed, but the archive may have
//! what was already filed for the event.

ghost use Rattle.std.specs.Prelude.{◌≡◌, ◌<◌, ◌≤◌, ◌+◌, ◌^◌, ◌++◌, ◌∷◌, [], IfErr, IfOk, None, OnErr, OnOk, Some, length, true};
ghost use Rattle.std.specs.List.{All, remove};
ghost use Rattle.scp_types.specs.Trees.{all_differ};
ghost use Rattle.host_config.specs.Budgets.{AreShares};
ghost use Rattle.host_config.specs.Configs.{index_in};
ghost use Rattle.node_store.specs.Archives.{Keeps};
ghost use Rattle.scp_spec.specs.Networks.{Step};
ghost use Rattle.scp_spec.specs.Networks.Step.{Delivers};
ghost use Rattle.scp_spec.specs.Rosters.{Roster as Names};
ghost use Rattle.node_core.specs.Filings.{IsFiledEvent, event_of};
ghost use Rattle.scp_types.specs.declared.event.NodeEvent.{NodeEvent};
ghost use Rattle.scp_types.specs.declared.event.Refusal.TheVariants.{NoMemory};
ghost use Rattle.host_network.specs.Answers.{IsApplied, IsLeftOrOutOfMemory, IsOutcome};
ghost use Rattle.host_network.specs.Changes.{IsChangedAt};
ghost use Rattle.host_network.specs.Charges.{HasReadyNode, HasRoomOnNetwork, IsSlotActed, on_budgets_of, on_opens_of};
ghost use Rattle.host_network.specs.Decoding.{said_by, step_of};
ghost use Rattle.host_network.specs.Deeds.{IsPlan, envelope_to_file, outs_of_deed};
ghost use Rattle.host_network.specs.Doings.{IsDoable, IsDone, marks_after, slots_of};
ghost use Rattle.host_network.specs.FiledSlots.{AreSlotsFiled, IsInstanceFiled};
ghost use Rattle.host_network.specs.SlotPlaces.{slot_numbers};
ghost use Rattle.host_network.specs.Standing.{IsAllowed, IsRefusal, IsRightRefusal, machine_of};

use crate::applied::{Given, Outcome};
use crate::network::Network;
use crate::open_slot::OpenSlot;
use crate::open_slots::OpenSlots;
use crate::plan::{Charge, Deed, Drawn, Plan, Spot};
use crate::reading::Reading;
use node_core::FiledEvent;
use node_store::{Archive, Shelf};
use scp_types::{Envelope, Event, NodeId, Refusal};
use std::alloc::{AllocError, Global};

impl<S: Shelf> Network<S> {
    /// Applies one event. It is tested in the order of the refusals, what needs memory is made, and then it is done.
    ///
    /// An error is the first refusal that applies, or says that it is out of memory. In the latter case no refusal
    /// applies, or bytes came to a hosted node that may take memory to be read. Those are at most 65,536, of a version
    /// and a kind that exist.
    ///
    /// After a refusal that applies all is as it was, the archive too. If none applies and it is out of memory, all
    /// else is as it was, but the archive may have what was already filed for the event.
    pub fn apply(&mut self, event: &Event) -> Result<Outcome, Refusal>
        ensures applied { IfOk result (IsApplied self.old (step_of event.now) self.new) }
        ensures err { IfErr result (IsRefusal (machine_of self.old) (step_of event.now)) }
        ensures same { OnErr result (machine_of self.new ≡ machine_of self.old) }
        ensures left { IfErr result (IsLeftOrOutOfMemory self.old (step_of event.now) self.new) }
        ensures config { self.new.config ≡ self.old.config }
        ensures kept { Keeps self.old.archive self.new.archive }
    {
        self.look_for_sender(event);
        match self.plan(event) {
            Err(refusal) => Err(refusal),
            Ok(plan) => self.carry_out(plan),
        }
    }

    /// Notes where the node stands whose emission is to be heard, so that it is not searched for at each hearing.
    fn look_for_sender(&mut self, event: &Event)
        ensures { self.new ≡ self.old }
    {
        if let Event::Hear { from, .. } = event {
            if let Ok(place) = self.place_from(self.from_node, from) {
                self.from_node = place;
            }
        }
    }

    /// Applies the delivery of `size` bytes that say this to a node, as [`Network::apply`] does one whose bytes it reads.
    ///
    /// An error is the first refusal that applies, or says that it is out of memory. After a refusal that applies all is
    /// as it was, the archive too. If none applies and it is out of memory, all else is as it was, but the archive may
    /// have what was already filed for the delivery.
    pub fn deliver(&mut self, node: &NodeId, said: Reading, size: u64) -> Result<Outcome, Refusal>
        ensures applied { IfOk result (IsApplied self.old (Delivers node.now size (said_by said)) self.new) }
        ensures err { IfErr result (IsRightRefusal (machine_of self.old) (Delivers node.now size (said_by said))) }
        ensures same { OnErr result (machine_of self.new ≡ machine_of self.old) }
        ensures left { IfErr result (IsLeftOrOutOfMemory self.old (Delivers node.now size (said_by said)) self.new) }
        ensures config { self.new.config ≡ self.old.config }
        ensures kept { Keeps self.old.archive self.new.archive }
    {
        match self.plan_read(node, said, size) {
            Err(refusal) => Err(refusal),
            Ok(plan) => self.carry_out(plan),
        }
    }

    /// Does and counts what was planned, for each event that it is a plan for. An error says that it is out of memory;
    /// then nothing changed, but the archive may have what was already filed.
    fn carry_out(&mut self, plan: Plan) -> Result<Outcome, Refusal>
        requires { (e : Step) × IsPlan self.old e plan }
        ensures applied { (e : Step) → IsPlan self.old e plan → IfOk result (IsApplied self.old e self.new) }
        ensures err { (e : Step) → IsPlan self.old e plan → IfErr result (λ r. (r ≡ NoMemory) × IsAllowed (machine_of self.old) e) }
        ensures same { OnErr result (machine_of self.new ≡ machine_of self.old) }
        ensures left { (e : Step) → IsPlan self.old e plan → IfErr result (IsLeftOrOutOfMemory self.old e self.new) }
        ensures config { self.new.config ≡ self.old.config }
        ensures kept { Keeps self.old.archive self.new.archive }
    {
        self.limits();
        let Plan { deed, charge } = plan;
        let next_node = place_behind(&deed, self.next_node);
        match perform(
            self.alloc,
            &mut self.archive,
            &mut self.slots,
            deed,
            &charge,
        ) {
            Err(_) => Err(Refusal::NoMemory),
            Ok(outcome) => {
                count(&mut self.events, &mut self.bytes, &mut self.opens, &charge);
                self.next_node = next_node;
                Ok(outcome)
            }
        }
    }

    /// A law: budgets and shares are at most 2^40.
    fn limits(&self)
        ensures events { self.now.config.budgets.events ≤ 2 ^ 40 }
        ensures bytes { self.now.config.budgets.bytes ≤ 2 ^ 40 }
        ensures shares { (r : Names) → self.now.config.roster ≡ Some r → AreShares r.shares.own r.shares.pair r.shares.bytes r.shares.opens }
    {
        let budgets = self.config.budgets();
        let _events = budgets.events();
        let _bytes = budgets.bytes();
        match self.config.roster() {
            None => {}
            Some(roster) => {
                let shares = roster.shares();
                let _own = shares.own();
                let _pair = shares.pair();
                let _bytes = shares.bytes();
                let _opens = shares.opens();
            }
        }
    }
}

/// The place behind the node that the deed is for, and `before` if it is for a slot.
fn place_behind(deed: &Deed, before: usize) -> usize {
    match deed {
        Deed::Act { spot, .. } | Deed::Hand { spot, .. } => spot.node_at.saturating_add(1),
        Deed::Open(_) | Deed::Close { .. } => before,
    }
}

/// Counts an event that draws on the budgets, or on openings and closings.
fn count(events: &mut u64, bytes: &mut u64, opens: &mut u64, charge: &Charge)
    requires { HasRoomOnNetwork charge.now.drawn charge.now.size events.old bytes.old opens.old }
    ensures events { events.new ≡ events.old + on_budgets_of charge.now.drawn 1 }
    ensures bytes { bytes.new ≡ bytes.old + on_budgets_of charge.now.drawn charge.now.size }
    ensures opens { opens.new ≡ opens.old + on_opens_of charge.now.drawn }
{
    match charge.drawn {
        Drawn::Budgets => {
            *events += 1;
            *bytes += charge.size;
        }
        Drawn::Opens => *opens += 1,
        Drawn::Own(_) | Drawn::Pair { .. } => {}
    }
}

/// Does a deed, and counts it if it draws on a share of a node.
fn perform<S: Shelf>(
    alloc: Global,
    archive: &mut Archive<S>,
    slots: &mut OpenSlots,
    deed: Deed,
    charge: &Charge,
) -> Result<Outcome, AllocError>
    requires archived { AreSlotsFiled archive.old slots.old }
    requires doable { IsDoable archive.old charge.now slots.old deed }
    ensures done { OnOk result (IsDone charge.now deed slots.old slots.new) }
    ensures outcome { IfOk result (IsOutcome (outs_of_deed (slots_of slots.old) deed) (marks_after (slots_of slots.old) deed) (envelope_to_file deed) archive.new) }
    ensures err { OnErr result (slots.new ≡ slots.old) }
    ensures archived { AreSlotsFiled archive.new slots.new }
    ensures kept { Keeps archive.old archive.new }
{
    match deed {
        Deed::Open(slot) => open(alloc, archive, slots, slot),
        Deed::Close { slot_at } => Ok(close(alloc, archive, slots, slot_at)),
        Deed::Act { spot, event } => act(archive, &mut slots.slots, &spot, event, charge),
        Deed::Hand { spot, envelope } => {
            hand(archive, &mut slots.slots, &spot, envelope, charge)
        }
    }
}

fn open<S: Shelf>(
    alloc: Global,
    archive: &Archive<S>,
    slots: &mut OpenSlots,
    slot: OpenSlot,
) -> Result<Outcome, AllocError>
    requires archived { AreSlotsFiled archive.now slots.old }
    requires slot { All (IsInstanceFiled archive.now) slot.instances }
    requires fresh { index_in (slot_numbers slots.old) slot.number ≡ None }
    ensures done { OnOk result (slots.new ≡ slots.old ++ slot ∷ []) }
    ensures outcome { IfOk result (IsOutcome [] [] None archive.now) }
    ensures err { OnErr result (slots.new ≡ slots.old) }
    ensures archived { AreSlotsFiled archive.now slots.new }
{
    slots.open(slot)?;
    Ok(nothing(alloc, archive))
}

/// Lets the open slot at this place go. It takes no memory.
fn close<S: Shelf>(
    alloc: Global,
    archive: &Archive<S>,
    slots: &mut OpenSlots,
    slot_at: usize,
) -> Outcome
    requires archived { AreSlotsFiled archive.now slots.old }
    requires at { slot_at < length slots.old }
    requires apart { all_differ (slot_numbers slots.old) ≡ true }
    ensures done { slots.new ≡ remove slots.old slot_at }
    ensures outcome { IsOutcome [] [] None archive.now result }
    ensures archived { AreSlotsFiled archive.now slots.new }
{
    slots.close(slot_at);
    nothing(alloc, archive)
}

fn act<S: Shelf>(
    archive: &mut Archive<S>,
    slots: &mut Vec<OpenSlot>,
    spot: &Spot,
    event: FiledEvent,
    charge: &Charge,
) -> Result<Outcome, AllocError>
    requires archived { AreSlotsFiled archive.old slots.old.items }
    requires ready { HasReadyNode charge.now slots.old.items spot.now.slot_at spot.now.node_at }
    requires event { IsFiledEvent archive.old event }
    ensures done { OnOk result (IsChangedAt (IsSlotActed charge.now spot.now.node_at (event_of event)) spot.now.slot_at slots.old.items slots.new.items) }
    ensures outcome { IfOk result (IsOutcome (outs_of_deed (slots_of slots.old.items) (Deed.Act spot.now event)) (marks_after (slots_of slots.old.items) (Deed.Act spot.now event)) None archive.new) }
    ensures err { OnErr result (slots.new.items ≡ slots.old.items) }
    ensures archived { AreSlotsFiled archive.new slots.new.items }
    ensures kept { Keeps archive.old archive.new }
{
    slots[spot.slot_at].act(archive, spot.node_at, event, charge)
}

/// Hands an envelope, which is filed first, to the node at these places.
fn hand<S: Shelf>(
    archive: &mut Archive<S>,
    slots: &mut Vec<OpenSlot>,
    spot: &Spot,
    envelope: Envelope,
    charge: &Charge,
) -> Result<Outcome, AllocError>
    requires archived { AreSlotsFiled archive.old slots.old.items }
    requires ready { HasReadyNode charge.now slots.old.items spot.now.slot_at spot.now.node_at }
    ensures done { OnOk result (IsChangedAt (IsSlotActed charge.now spot.now.node_at (NodeEvent.Take envelope)) spot.now.slot_at slots.old.items slots.new.items) }
    ensures outcome { IfOk result (IsOutcome (outs_of_deed (slots_of slots.old.items) (Deed.Hand spot.now envelope)) (marks_after (slots_of slots.old.items) (Deed.Hand spot.now envelope)) (Some envelope) archive.new) }
    ensures err { OnErr result (slots.new.items ≡ slots.old.items) }
    ensures archived { AreSlotsFiled archive.new slots.new.items }
    ensures kept { Keeps archive.old archive.new }
{
    let envelope = archive.with_shared_slices(envelope);
    let delivered = archive.put(envelope)?;
    let event = FiledEvent::Take(archive.copy_of(&delivered));
    let mut applied = act(archive, slots, spot, event, charge)?;
    applied.delivered = Some(delivered);
    Ok(applied)
}

/// Nothing is given out. It takes no memory.
fn nothing<S: Shelf>(alloc: Global, archive: &Archive<S>) -> Outcome
    ensures { IsOutcome [] [] None archive.now result }
{
    Outcome {
        filed: Vec::new(alloc),
        given: Given {
            outs: Vec::new(alloc),
            marks: Vec::new(alloc),
        },
        delivered: None,
    }
}
