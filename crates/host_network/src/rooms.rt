//! On what events draw, and whether there is room on it.

ghost use Rattle.std.specs.Prelude.{◌≡◌, ◌≤◌, ◌<◌, ◌+◌, ℕ, MatchResult, Some, IsTrue, is_some, map, option_map};
ghost use Rattle.scp_spec.specs.Networks.{source};
ghost use Rattle.scp_spec.specs.Networks.Step.{Opens, Closes};
ghost use Rattle.host_config.specs.Configs.{index_of_name};
ghost use Rattle.host_network.specs.Deeds.{HasNoRoomForBytes, HasNoRoom, HasRoomForDrawnBytes, HasRoomForEvent, IsDrawn, IsDrawnThere, IsOfBudgetsOrPair, index_of_slot, own_source, pair_source};
ghost use Rattle.host_network.specs.FiledSlots.{slot_of};
ghost use Rattle.host_network.specs.Standing.{machine_of};

use crate::network::Network;
use crate::plan::{Drawn, Spot};
use host_config::Shares;
use node_store::Shelf;
use scp_types::{NodeId, Refusal};

impl<S: Shelf> Network<S> {
    /// On what openings and closings draw.
    pub(crate) fn openings(&self) -> Drawn
        ensures opens { (i : ℕ) → IsDrawn (machine_of self.now) result (source self.now.config.roster (Opens i)) }
        ensures closes { (i : ℕ) → IsDrawn (machine_of self.now) result (source self.now.config.roster (Closes i)) }
    {
        match self.config.roster() {
            None => Drawn::Budgets,
            Some(_) => Drawn::Opens,
        }
    }

    /// On what a node's own events draw.
    pub(crate) fn own_events(&self, spot: &Spot, node: &NodeId) -> Drawn
        requires node { index_of_name self.now.config.nodes node.now ≡ Some spot.now.node_at }
        ensures { (i : ℕ) → index_of_slot (map slot_of (machine_of self.now).slots) i ≡ Some spot.now.slot_at → IsDrawn (machine_of self.now) result (own_source self.now.config.roster i node.now) }
    {
        match self.config.roster() {
            None => Drawn::Budgets,
            Some(roster) => {
                if roster.has(node) {
                    Drawn::Own(*spot)
                } else {
                    Drawn::Budgets
                }
            }
        }
    }

    /// On what an event from a name to a node draws.
    #[inline(always)]
    pub(crate) fn pair(&self, spot: &Spot, node: &NodeId, from: &NodeId) -> Drawn
        requires node { index_of_name self.now.config.nodes node.now ≡ Some spot.now.node_at }
        ensures drawn { (i : ℕ) → index_of_slot (map slot_of (machine_of self.now).slots) i ≡ Some spot.now.slot_at → IsDrawn (machine_of self.now) result (pair_source self.now.config.roster i node.now from.now) }
        ensures paired { IsOfBudgetsOrPair result }
    {
        match self.config.roster() {
            None => Drawn::Budgets,
            Some(roster) => {
                if roster.has(node) && roster.has(from) {
                    Drawn::Pair {
                        spot: *spot,
                        from: *from,
                    }
                } else {
                    Drawn::Budgets
                }
            }
        }
    }

    /// Whether what is drawn on has room for one more event, or why not.
    #[inline(always)]
    pub(crate) fn has_room(&self, drawn: &Drawn) -> Result<(), Refusal>
        requires { IsDrawnThere (machine_of self.now) drawn.now }
        ensures { MatchResult result (λ _. HasRoomForEvent (machine_of self.now) drawn.now) (λ r. HasNoRoom (machine_of self.now) drawn.now r) }
    {
        match drawn {
            Drawn::Budgets => {
                keeps_within(
                    self.events,
                    1,
                    self.config.budgets().events(),
                    Refusal::JournalFull,
                )
            }
            Drawn::Opens => keeps_within(self.opens, 1, self.shares().opens(), Refusal::ShareFull),
            Drawn::Own(spot) => {
                let used = self.instance(spot.slot_at, spot.node_at).own_events();
                keeps_within(used, 1, self.shares().own(), Refusal::ShareFull)
            }
            Drawn::Pair { spot, from } => {
                let used = self.instance(spot.slot_at, spot.node_at).events_from(from);
                keeps_within(used, 1, self.shares().pair(), Refusal::ShareFull)
            }
        }
    }

    /// Whether what an event from a name to a node draws on has room for `size` more bytes, or why not.
    pub(crate) fn has_room_for_bytes(&self, drawn: &Drawn, size: u64) -> Result<(), Refusal>
        requires drawn { IsDrawnThere (machine_of self.now) drawn.now }
        requires paired { IsOfBudgetsOrPair drawn.now }
        ensures { MatchResult result (λ _. HasRoomForDrawnBytes (machine_of self.now) drawn.now size) (λ r. HasNoRoomForBytes (machine_of self.now) drawn.now size r) }
    {
        match drawn {
            Drawn::Budgets => {
                keeps_within(
                    self.bytes,
                    size,
                    self.config.budgets().bytes(),
                    Refusal::BytesFull,
                )
            }
            Drawn::Pair { spot, from } => {
                let used = self.instance(spot.slot_at, spot.node_at).bytes_from(from);
                keeps_within(used, size, self.shares().bytes(), Refusal::ShareBytesFull)
            }
            Drawn::Opens | Drawn::Own(_) => unreachable!(),
        }
    }

    /// The shares of the roster.
    pub(crate) fn shares(&self) -> Shares
        requires { IsTrue (is_some self.now.config.roster) }
        ensures { option_map (λ r. r.shares) self.now.config.roster ≡ Some result }
    {
        let Some(roster) = self.config.roster() else {
            unreachable!()
        };
        *roster.shares()
    }
}

/// Whether `more` keeps within a limit; else this refusal. The sum may not fit a `u64`.
fn keeps_within(used: u64, more: u64, limit: u64, refusal: Refusal) -> Result<(), Refusal>
    ensures { MatchResult result (λ _. used + more ≤ limit) (λ r. (r ≡ refusal) × (limit < used + more)) }
{
    if used > limit || more > limit - used {
        return Err(refusal);
    }
    Ok(())
}
