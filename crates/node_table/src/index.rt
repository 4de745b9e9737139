//! Where the rows of each sender stand: an index ordered by name.

ghost use Rattle.std.specs.Prelude.{◌≡◌, ◌<◌, ◌-◌, ◌^◌, [], IfOk, OnErr, OnOk, length, map, true};
ghost use Rattle.node_table.specs.Places.{Places, ascends, index_without_place, place_in_index, places_in_index, index_with_place, of_sender};

use crate::places::{RowPlace, RowPlaces};
use crate::sender_names::SenderNames;
use scp_types::{Kind, NodeId};
use std::alloc::{AllocError, Global};
use std::collections::BTreeMap;
use std::marker::Model;

/// The places of the rows of all senders. A look-up, a sender more and one less each take a number of
/// steps that is logarithmic in the number of senders.
///
/// Contracts see it as the list of the senders, ascending, each with its places.
#[derive(Drop)]
pub struct Index {
    by_sender: BTreeMap<NodeId, RowPlaces>,
}

impl Model for Index {
    ghost use Rattle.std.specs.Coded.{codes};
    ghost use Rattle.std.specs.Prelude.{List};
    ghost use Rattle.node_table.specs.Places.{Places, index_of_entries};

    ghost Value = { List Places };

    ghost coded = { Prim.hlevel codes };

    ghost view = { λ a. index_of_entries a.by_sender.entries };
}

impl Index {
    /// An index of no senders. It takes no memory.
    pub fn new(alloc: Global) -> Index
        ensures { result ≡ [] }
    {
        Index {
            by_sender: BTreeMap::new(alloc),
        }
    }

    /// The place of a sender's row of a kind.
    pub fn place(&self, sender: &NodeId, kind: Kind) -> RowPlace
        ensures { result ≡ place_in_index self.now sender.now kind }
    {
        self.places(sender).place(kind)
    }

    /// The places of a sender's rows; none, if it has no row.
    pub fn places(&self, sender: &NodeId) -> RowPlaces
        ensures { of_sender sender.now result ≡ places_in_index self.now sender.now }
    {
        match self.by_sender.get(sender) {
            Some(places) => *places,
            None => RowPlaces::none(),
        }
    }

    /// Notes the place of a new row. If it is out of memory, the index stays as it was.
    pub fn note(&mut self, sender: NodeId, kind: Kind, place: usize) -> Result<(), AllocError>
        requires ascends { ascends self.old ≡ true }
        requires small { place < 2 ^ 32 - 1 }
        ensures ok { OnOk result (self.new ≡ index_with_place self.old sender kind place) }
        ensures err { OnErr result (self.new ≡ self.old) }
    {
        let places = self.places(&sender).with_place(kind, place);
        self.by_sender.insert(sender, places)?;
        Ok(())
    }

    /// Forgets the place of a row, and its sender if it has no other. It takes no memory.
    pub fn forget(&mut self, sender: &NodeId, kind: Kind)
        requires { ascends self.old ≡ true }
        ensures { self.new ≡ index_without_place self.old sender.now kind }
    {
        let places = self.places(sender).without_place(kind);
        if places.is_vacant() {
            let _ = self.by_sender.remove(sender);
        } else {
            let _ = self.by_sender.insert(*sender, places);
        }
    }

    /// The names of all senders, ascending.
    pub fn senders(&self) -> SenderNames<'_>
        ensures { result ≡ map (λ (p : Places). p.sender) self.now }
    {
        SenderNames::of(self.by_sender.keys())
    }

    /// How many senders there are.
    pub fn sender_count(&self) -> usize
        ensures { result ≡ length self.now }
    {
        self.by_sender.len()
    }

    /// A copy. An error says that it is out of memory.
    pub fn try_copy(&self) -> Result<Index, AllocError>
        ensures { IfOk result (λ index. index ≡ self.now) }
    {
        Ok(Index {
            by_sender: self.by_sender.clone()?,
        })
    }
}
