//! Where the open slots of a network stand, by number.

ghost use Rattle.std.specs.Prelude.{◌≡◌, [], None, OnErr, OnOk, Some, ℕ};
ghost use Rattle.host_network.specs.Keyed.{IsKeyPlace};
ghost use Rattle.host_network.specs.SlotPlaces.{slot_places_without, place_without, kept_for, kept_with, kept_without, number_kept};

use std::alloc::{AllocError, Global};
use std::marker::Model;

/// Where the slot of a number stands among the open slots.
#[derive(Clone, Copy)]
pub(crate) struct SlotPlace {
    pub number: u64,
    pub place: usize,
}

/// The places of open slots, ascending by number, found by a binary search.
///
/// For example, if slot 7 was opened and then 3, first comes 3 with the place 1, then 7 with the place 0.
#[derive(Drop)]
pub(crate) struct SlotIndex {
    entries: Vec<SlotPlace>,
}

impl Model for SlotIndex {
    ghost use Rattle.std.specs.Prelude.{List, map};
    ghost use Rattle.std.specs.Coded.{codes};
    ghost use Rattle.scp_spec.specs.Sets.{IsAscending};
    ghost use Rattle.host_network.specs.SlotPlaces.{number_kept};
    ghost use Rattle.host_network.specs.declared.slot_index.SlotPlace.{SlotPlace};

    ghost Value = { List SlotPlace };

    ghost coded = { Prim.hlevel codes };

    ghost view = { λ x. x.entries.items };

    ghost invariant = { λ x. IsAscending (map number_kept x.entries.items) };
}

impl SlotIndex {
    /// No place is kept. It takes no memory.
    pub(crate) fn nothing(alloc: Global) -> SlotIndex
        ensures { result ≡ [] }
    {
        SlotIndex {
            entries: Vec::new(alloc),
        }
    }

    /// The place that is kept for a number.
    pub(crate) fn place(&self, number: u64) -> Option<usize>
        ensures { result ≡ kept_for self.now number }
    {
        match self.find(number) {
            Ok(at) => Some(self.entries[at].place),
            Err(_) => None,
        }
    }

    /// Keeps the place of a number for which none is kept. An error says that it is out of memory; then nothing
    /// changed.
    pub(crate) fn note(&mut self, number: u64, place: usize) -> Result<(), AllocError>
        requires { kept_for self.old number ≡ None }
        ensures noted { OnOk result ((i : ℕ) → kept_for self.new i ≡ kept_with number place self.old i) }
        ensures err { OnErr result (self.new ≡ self.old) }
    {
        let Err(at) = self.find(number) else {
            unreachable!()
        };
        self.entries.insert(at, SlotPlace { number, place })?;
        Ok(())
    }

    /// Forgets a number; each place behind its own is one less.
    pub(crate) fn forget(&mut self, number: u64, place: usize)
        requires { kept_for self.old number ≡ Some place }
        ensures { (i : ℕ) → kept_for self.new i ≡ kept_without number place self.old i }
    {
        let Ok(at) = self.find(number) else {
            unreachable!()
        };
        let _ = self.entries.remove(at);
        close_up(&mut self.entries, place);
    }

    /// Where a number stands, or where it would stand, by a binary search.
    fn find(&self, number: u64) -> Result<usize, usize>
        ensures { IsKeyPlace number_kept self.now number result }
    {
        self.entries
            .binary_search_by_key(&number, |entry| entry.number)
    }
}

/// Has each place behind this one be one less.
fn close_up(entries: &mut [SlotPlace], gone: usize)
    ensures { entries.new ≡ slot_places_without gone entries.old }
{
    for entry in entries.iter_mut() {
        *entry = SlotPlace {
            number: entry.number,
            place: place_without(gone, entry.place),
        };
    }
}

/// A place, once the slot at `gone` is gone.
fn place_without(gone: usize, place: usize) -> usize
    ensures { result ≡ place_without gone place }
{
    if gone < place { place - 1 } else { place }
}
