//! What was drawn on shares.

ghost use Rattle.std.specs.Prelude.{◌≡◌, ◌<◌, ◌+◌, ◌^◌, ◌==◌, OnOk, if◌then◌else◌, ℕ, []};
ghost use Rattle.host_network.specs.Charges.{FitsOrNone, HasRoomInCounts, HasRoomToTally, on_own, on_pair};
ghost use Rattle.host_network.specs.FiledSlots.{bytes_from, events_from};
ghost use Rattle.host_network.specs.TallyBooks.{IsTallyPlace};

use crate::plan::{Charge, Drawn};
use scp_types::NodeId;
use std::alloc::{AllocError, Global};
use std::marker::Model;

/// How many events and delivered bytes a node drew from a name since its slot was opened.
#[derive(Drop)]
pub(crate) struct Tally {
    pub from: NodeId,
    pub events: u64,
    pub bytes: u64,
}

/// What a node drew from each name since its slot was opened: a tally for each name, ascending by name, found
/// by a binary search.
///
/// Contracts see the tallies, and for how many more names there is room.
///
/// For example, if a node drew from C and then from A, the tally of A comes first; no name has two.
#[derive(Drop)]
pub(crate) struct Tallies {
    entries: Vec<Tally>,
}

impl Model for Tallies {
    ghost use Rattle.std.specs.Prelude.{◌-◌};
    ghost use Rattle.std.specs.Coded.{codes};
    ghost use Rattle.std.specs.Vec.{vec_capacity, vec_len};
    ghost use Rattle.scp_spec.specs.Sets.{IsAscending};
    ghost use Rattle.host_network.specs.TallyBooks.{TallyBook, tallied_names};

    ghost Value = { TallyBook };

    ghost coded = { Prim.hlevel codes };

    ghost view = { λ b. record { tallies = b.entries.items; room = vec_capacity b.entries - vec_len b.entries } };

    ghost invariant = { λ b. IsAscending (tallied_names b.entries.items) };
}

impl Tallies {
    /// Nothing was drawn. It takes no memory.
    pub(crate) fn nothing(alloc: Global) -> Tallies
        ensures { result.tallies ≡ [] }
    {
        Tallies {
            entries: Vec::new(alloc),
        }
    }

    /// How many events were drawn from a name.
    pub(crate) fn events_from(&self, from: &NodeId) -> u64
        ensures { result ≡ events_from self.now.tallies from.now }
    {
        match self.place(from) {
            Ok(at) => self.entries[at].events,
            Err(_) => 0,
        }
    }

    /// How many delivered bytes were drawn from a name.
    pub(crate) fn bytes_from(&self, from: &NodeId) -> u64
        ensures { result ≡ bytes_from self.now.tallies from.now }
    {
        match self.place(from) {
            Ok(at) => self.entries[at].bytes,
            Err(_) => 0,
        }
    }

    /// Makes room for one more name, if an event draws on what a node gets from a name. An error says that it is out of
    /// memory.
    pub(crate) fn make_room(&mut self, drawn: &Drawn) -> Result<(), AllocError>
        ensures same { self.new.tallies ≡ self.old.tallies }
        ensures room { OnOk result (HasRoomToTally drawn.now self.new) }
    {
        match drawn {
            Drawn::Budgets | Drawn::Opens | Drawn::Own(_) => Ok(()),
            Drawn::Pair { .. } => self.entries.reserve(1),
        }
    }

    /// Counts one more event from a name, with `size` bytes; there is room for the name.
    fn count_from(&mut self, from: &NodeId, size: u64)
        requires room { 0 < self.old.room }
        requires few_events { events_from self.old.tallies from.now < 2 ^ 40 }
        requires few_bytes { FitsOrNone (bytes_from self.old.tallies from.now) size }
        ensures events { (u : ℕ) → events_from self.new.tallies u ≡ events_from self.old.tallies u + (if from.now == u then 1 else 0) }
        ensures bytes { (u : ℕ) → bytes_from self.new.tallies u ≡ bytes_from self.old.tallies u + (if from.now == u then size else 0) }
    {
        match self.place(from) {
            Ok(at) => add(&mut self.entries[at], size),
            Err(at) => {
                let tally = Tally {
                    from: *from,
                    events: 1,
                    bytes: size,
                };
                let Ok(()) = self.entries.insert(at, tally) else {
                    unreachable!()
                };
            }
        }
    }

    /// The place of a name's tally, or where it would stand, by a binary search.
    fn place(&self, from: &NodeId) -> Result<usize, usize>
        ensures { IsTallyPlace self.now.tallies from.now result }
    {
        self.entries.binary_search_by_key(from, |tally| tally.from)
    }
}

/// Counts an event of a node, if it draws on a share of the node. There is room for it.
#[inline(always)]
pub(crate) fn count(own: &mut u64, heard: &mut Tallies, charge: &Charge)
    requires few { HasRoomInCounts charge.now.drawn charge.now.size own.old heard.old.tallies }
    requires room { HasRoomToTally charge.now.drawn heard.old }
    ensures own { own.new ≡ own.old + on_own charge.now.drawn }
    ensures events { (u : ℕ) → events_from heard.new.tallies u ≡ events_from heard.old.tallies u + on_pair charge.now.drawn 1 u }
    ensures bytes { (u : ℕ) → bytes_from heard.new.tallies u ≡ bytes_from heard.old.tallies u + on_pair charge.now.drawn charge.now.size u }
{
    match &charge.drawn {
        Drawn::Budgets | Drawn::Opens => {}
        Drawn::Own(_) => *own += 1,
        Drawn::Pair { from, .. } => heard.count_from(from, charge.size),
    }
}

fn add(tally: &mut Tally, size: u64)
    requires events { tally.old.events < 2 ^ 40 }
    requires bytes { FitsOrNone tally.old.bytes size }
    ensures from { tally.new.from ≡ tally.old.from }
    ensures events { tally.new.events ≡ tally.old.events + 1 }
    ensures bytes { tally.new.bytes ≡ tally.old.bytes + size }
{
    tally.events += 1;
    tally.bytes += size;
}
