//! What is to be done if an envelope reaches a node, delivered or heard, or why it is refused.

ghost use Rattle.std.specs.Prelude.{◌≡◌, IfOk, MatchResult, Some, length, ℕ};
ghost use Rattle.scp_spec.specs.Networks.Reading.{Read};
ghost use Rattle.scp_spec.specs.Networks.Step.{Delivers, Hears};
ghost use Rattle.host_config.specs.Configs.{index_of_name};
ghost use Rattle.host_network.specs.Decoding.{reading, said_by};
ghost use Rattle.host_network.specs.Deeds.{IsPairRoom, IsOfBudgetsOrPair, IsPlan, IsPlanned, IsPlannedSurely, IsSlotThere};
ghost use Rattle.host_network.specs.Standing.{IsFirstRefusal, machine_of};
ghost use Rattle.host_network.specs.declared.plan.Deed.TheVariants.{Hand};

use crate::emission::Emission;
use crate::network::Network;
use crate::plan::{Charge, Deed, Drawn, Plan, Spot};
use crate::reading::{Reading, read};
use node_core::FiledEvent;
use node_store::Shelf;
use scp_types::{Envelope, NodeId, Refusal};

impl<S: Shelf> Network<S> {
    /// What is to be done if bytes reach a node; they are read only if it is hosted. If it is out of memory to read them,
    /// that is answered at once: only here can it hide a refusal that applies.
    pub(crate) fn plan_deliver(&self, node: &NodeId, bytes: &[u8]) -> Result<Plan, Refusal>
        ensures { IsPlanned self.now (Delivers node.now (length bytes.now) (reading bytes.now)) result }
    {
        self.node_place(node)?;
        match read(self.alloc, bytes) {
            Err(_) => Err(Refusal::NoMemory),
            Ok(said) => self.plan_read(node, said, bytes.len() as u64),
        }
    }

    /// What is to be done if `size` bytes that say this reach a node. It takes no memory.
    pub(crate) fn plan_read(&self, node: &NodeId, said: Reading, size: u64) -> Result<Plan, Refusal>
        ensures { IsPlannedSurely self.now (Delivers node.now size (said_by said)) result }
    {
        match said {
            Reading::Faulty(number) => {
                self.node_place(node)?;
                Err(Refusal::BadEnvelope(number))
            }
            Reading::Says(envelope) => {
                match self.envelope_room(node, &envelope, size) {
                    Err(refusal) => {
                        drop(envelope);
                        Err(refusal)
                    }
                    Ok((spot, drawn)) => Ok(Plan {
                        deed: Deed::Hand { spot, envelope },
                        charge: Charge { drawn, size },
                    }),
                }
            }
        }
    }

    /// Where the node stands at an envelope's slot, and on what its delivery draws, or the first refusal that applies.
    /// It takes no memory.
    fn envelope_room(
        &self,
        node: &NodeId,
        envelope: &Envelope,
        size: u64,
    ) -> Result<(Spot, Drawn), Refusal>
        ensures { MatchResult result (λ r. IsPlan self.now (Delivers node.now size (Read envelope.now)) (record { deed = Hand r.0 envelope.now; charge = record { drawn = r.1; size = size } })) (IsFirstRefusal (machine_of self.now) (Delivers node.now size (Read envelope.now))) }
    {
        let _slots = &self.slots;
        let node_at = self.node_place(node)?;
        if self.config.place(envelope.sender()).is_some() {
            return Err(Refusal::HostedSender);
        }
        let slot_at = self.open_slot(envelope.slot())?;
        let spot = Spot { slot_at, node_at };
        let drawn = self.pair_room(&spot, node, envelope.sender())?;
        self.has_room_for_bytes(&drawn, size)?;
        Ok((spot, drawn))
    }

    /// What is to be done if a node hears what another one has emitted. It takes no memory.
    #[inline(always)]
    pub(crate) fn plan_hear(
        &self,
        slot: u64,
        node: &NodeId,
        emission: &Emission,
    ) -> Result<Plan, Refusal>
        ensures { IsPlannedSurely self.now (Hears slot node.now emission.now.from emission.now.kind emission.now.number) result }
    {
        let _slots = &self.slots;
        let node_at = self.place_from(self.next_node, node)?;
        let from_at = self.place_from(self.from_node, &emission.from)?;
        if *node == emission.from {
            return Err(Refusal::NoSuchNode);
        }
        let slot_at = self.open_slot(slot)?;
        let Some(emitted) = self
            .instance(slot_at, from_at)
            .emission(emission.kind, emission.number)
        else {
            return Err(Refusal::NotEmitted);
        };
        let spot = Spot { slot_at, node_at };
        let drawn = self.pair_room(&spot, node, &emission.from)?;
        Ok(Plan {
            deed: Deed::Act {
                spot,
                event: FiledEvent::Take(self.archive.copy_of(emitted)),
            },
            charge: Charge { drawn, size: 0 },
        })
    }

    /// On what an envelope from a name to a node draws, if that has room for one more event.
    #[inline(always)]
    fn pair_room(&self, spot: &Spot, node: &NodeId, from: &NodeId) -> Result<Drawn, Refusal>
        requires slot { (i : ℕ) × IsSlotThere self.now i spot.now.slot_at }
        requires node { index_of_name self.now.config.nodes node.now ≡ Some spot.now.node_at }
        ensures room { IsPairRoom self.now spot.now node.now from.now result }
        ensures paired { IfOk result IsOfBudgetsOrPair }
    {
        let drawn = self.pair(spot, node, from);
        self.has_room(&drawn)?;
        Ok(drawn)
    }
}
