//! The rows of a table, as they read in the archive where they lie.

ghost use Rattle.std.specs.Prelude.{◌≡◌, ℕ, Some, length, option_map, slice_get, true};
ghost use Rattle.node_store.specs.Archives.{AreFiled, sents_of};
ghost use Rattle.node_table.specs.Places.{place_of_row};
ghost use Rattle.node_table.specs.Senders.{senders};
ghost use Rattle.scp_spec.specs.Rows.{has_single_rows, is_taken, row};
ghost use Rattle.scp_types.specs.declared.kind.Kind.{Kind};
ghost use Rattle.scp_types.specs.declared.kind.Kind.TheVariants.{Nomination};

use crate::newer::is_newer;
use crate::places::{RowPlace, RowPlaces};
use crate::sender_names::SenderNames;
use crate::table::Table;
use node_store::Archive;
use scp_types::{Envelope, Kind, NodeId};
use std::marker::Model;

/// A table, and the archive in which its rows lie.
///
/// Contracts see it as the envelopes of these rows, in the order of the table.
///
/// Each row lies in this archive: if the rows are those of the numbers 0 and 2, the archive has three numbers or more.
#[derive(Drop)]
pub struct Rows<'a, S: node_store::Places> {
    table: &'a Table,
    archive: &'a Archive<S>,
}

impl<'a, S: node_store::Places> Model for Rows<'a, S> {
    ghost use Rattle.std.specs.Coded.{codes};
    ghost use Rattle.std.specs.Prelude.{List};
    ghost use Rattle.node_store.specs.Archives.{AreFiled, sents_of};
    ghost use Rattle.scp_types.specs.Statements.{Sent};
    ghost use Rattle.scp_types.specs.Trees.{members_code};

    ghost Value = { List Sent };

    ghost coded = { Prim.hlevel (codes, members_code) };

    ghost view = { λ a. sents_of a.table.now };

    ghost invariant = { λ a. AreFiled a.archive.now a.table.now };
}

/// The rows of one sender, if it has any.
#[derive(Drop)]
pub struct SenderRows<'a> {
    pub nomination: Option<&'a Envelope>,
    pub ballot: Option<&'a Envelope>,
}

impl<'a, S: node_store::Places> Rows<'a, S> {
    /// The rows of a table that lie in this archive.
    pub fn of(table: &'a Table, archive: &'a Archive<S>) -> Rows<'a, S>
        requires { AreFiled archive.now table.now }
        ensures { result ≡ sents_of table.now }
    {
        Rows { table, archive }
    }

    /// The sender's row of a kind. It takes no memory.
    pub fn row(&self, sender: &NodeId, kind: Kind) -> Option<&'a Envelope>
        ensures { option_map (λ r. r.now) result ≡ row self.now sender.now kind }
    {
        self.table.row(self.archive, sender, kind)
    }

    /// The place of the sender's row of a kind among all rows. A newer row stands in the place of the older one, and a
    /// first one behind all others. So a place stays as long as the table only takes envelopes. It takes no memory.
    pub fn place(&self, sender: &NodeId, kind: Kind) -> RowPlace
        ensures { result ≡ place_of_row self.now sender.now kind }
    {
        let places = self.places(sender);
        match kind {
            Kind::Nomination => places.nomination,
            Kind::Ballot => places.ballot,
        }
    }

    /// The place behind all rows. It takes no memory.
    pub fn end(&self) -> RowPlace
        ensures { result ≡ Some (length self.now) }
    {
        RowPlace::at(self.table.len())
    }

    /// The places of the sender's rows of both kinds, by one look-up. It takes no memory.
    pub fn places(&self, sender: &NodeId) -> RowPlaces
        ensures nomination { result.nomination ≡ place_of_row self.now sender.now Nomination }
        ensures ballot { result.ballot ≡ place_of_row self.now sender.now Kind.Ballot }
    {
        self.table.places(sender)
    }

    /// The sender's rows of both kinds, by one look-up. It takes no memory.
    pub fn rows_of(&self, sender: &NodeId) -> SenderRows<'a>
        ensures nomination { option_map (λ r. r.now) result.nomination ≡ row self.now sender.now Nomination }
        ensures ballot { option_map (λ r. r.now) result.ballot ≡ row self.now sender.now Kind.Ballot }
    {
        let places = self.places(sender);
        SenderRows {
            nomination: self.row_where(places.nomination),
            ballot: self.row_where(places.ballot),
        }
    }

    /// The row at the place of a sender's row of a kind, if it has one. It takes no memory.
    pub fn row_where(&self, place: RowPlace) -> Option<&'a Envelope>
        ensures { (u : ℕ) (kind : Kind) → place ≡ place_of_row self.now u kind → option_map (λ r. r.now) result ≡ row self.now u kind }
    {
        match place.get() {
            None => None,
            Some(place) => self.at(place),
        }
    }

    /// The row at this place, `None` behind the last one. It takes no memory.
    pub fn at(&self, place: usize) -> Option<&'a Envelope>
        ensures { option_map (λ r. r.now) result ≡ slice_get self.now place }
    {
        self.table.row_at(self.archive, place)
    }

    /// How many rows there are. It takes no memory.
    pub fn len(&self) -> usize
        ensures { result ≡ length self.now }
    {
        self.table.len()
    }

    /// Whether the table takes the envelope: its sender has no row of its kind, or the envelope is newer than
    /// that row. What it does not take is stale. It takes no memory.
    #[tactic(auto, unfolding(scp_spec::specs::Rows::is_taken))]
    pub fn takes(&self, envelope: &Envelope) -> bool
        ensures { result ≡ is_taken self.now envelope.now }
    {
        match self.row(envelope.sender(), envelope.body().kind()) {
            None => true,
            Some(row) => is_newer(envelope.body(), row.body()),
        }
    }

    /// The senders with a row, in ascending order, each once. It takes no memory.
    pub fn senders(&self) -> SenderNames<'a>
        ensures { result ≡ senders self.now }
    {
        self.table.senders()
    }

    /// How many senders have a row. It takes no memory.
    pub fn sender_count(&self) -> usize
        ensures { result ≡ length (senders self.now) }
    {
        self.table.sender_count()
    }

    /// A law: there is at most one row of each sender and kind.
    pub fn are_single(&self)
        ensures { has_single_rows self.now ≡ true }
    {
        self.table.rows();
    }
}
