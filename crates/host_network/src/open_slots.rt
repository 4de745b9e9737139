//! The open slots of a network.

ghost use Rattle.std.specs.Prelude.{◌≡◌, ◌<◌, ◌++◌, ◌∷◌, [], None, OnErr, OnOk, length, slice_index_or, true};
ghost use Rattle.std.specs.List.{remove};
ghost use Rattle.scp_types.specs.Trees.{all_differ};
ghost use Rattle.host_config.specs.Configs.{index_in};
ghost use Rattle.host_network.specs.FiledSlots.{AreSlotsHeld};
ghost use Rattle.host_network.specs.SlotPlaces.{slot_numbers};

use crate::open_slot::OpenSlot;
use crate::slot_index::SlotIndex;
use node_store::Held;
use std::alloc::{AllocError, Global};
use std::marker::Model;

/// The open slots, in the order in which they were opened, with the place of each by its number, so that a slot is
/// found by a binary search.
///
/// Contracts see only the slots. An event of a node is lent them without the places, since it leaves the numbers as
/// they are.
///
/// For example, if slot 7 was opened and then 3, the place of 7 is 0, that of 3 is 1, and no other number has one.
#[derive(Drop)]
pub(crate) struct OpenSlots {
    pub(crate) slots: Vec<OpenSlot>,
    index: SlotIndex,
}

impl Model for OpenSlots {
    ghost use Rattle.std.specs.Prelude.{List};
    ghost use Rattle.std.specs.Coded.{codes};
    ghost use Rattle.scp_types.specs.Trees.{members_code};
    ghost use Rattle.host_network.specs.FiledSlots.{FiledSlot};
    ghost use Rattle.host_network.specs.SlotPlaces.{AreSlotsIndexed};

    ghost Value = { List FiledSlot };

    ghost coded = { Prim.hlevel (codes, members_code) };

    ghost view = { λ s. s.slots.items };

    ghost invariant = { λ s. AreSlotsIndexed s.slots.items s.index };
}

impl OpenSlots {
    /// No slot is open. It takes no memory.
    pub(crate) fn nothing(alloc: Global) -> OpenSlots
        ensures { result ≡ [] }
    {
        OpenSlots {
            slots: Vec::new(alloc),
            index: SlotIndex::nothing(alloc),
        }
    }

    /// How many are open.
    pub(crate) fn len(&self) -> usize
        ensures { result ≡ length self.now }
    {
        self.slots.len()
    }

    /// The slot at this place.
    pub(crate) fn slot(&self, place: usize) -> &OpenSlot
        requires { place < length self.now }
        ensures { result.now ≡ slice_index_or self.now place result.now }
    {
        &self.slots[place]
    }

    /// The place of the slot of this number, by a binary search.
    pub(crate) fn place(&self, number: u64) -> Option<usize>
        ensures { result ≡ index_in (slot_numbers self.now) number }
    {
        self.index.place(number)
    }

    /// Holds the rows and the emissions of all nodes at all open slots, beside what is held.
    pub(crate) fn hold(&self, held: &mut Held)
        ensures { AreSlotsHeld held.new self.now }
    {
        for slot in &self.slots {
            slot.hold(held);
        }
    }

    /// Adds an open slot, of a number that none of them has. An error says that it is out of memory; then nothing
    /// changed.
    pub(crate) fn open(&mut self, slot: OpenSlot) -> Result<(), AllocError>
        requires { index_in (slot_numbers self.old) slot.number ≡ None }
        ensures open { OnOk result (self.new ≡ self.old ++ slot ∷ []) }
        ensures err { OnErr result (self.new ≡ self.old) }
    {
        self.slots.reserve(1)?;
        self.index.note(slot.number(), self.slots.len())?;
        self.slots.push_reserved(slot);
        Ok(())
    }

    /// Lets the slot at this place go. It takes no memory.
    pub(crate) fn close(&mut self, place: usize)
        requires at { place < length self.old }
        requires apart { all_differ (slot_numbers self.old) ≡ true }
        ensures { self.new ≡ remove self.old place }
    {
        let closed = self.slots.remove(place);
        self.index.forget(closed.number(), place);
    }
}
