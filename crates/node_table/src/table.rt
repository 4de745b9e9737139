//! The table of newest rows.

ghost use Rattle.std.specs.Prelude.{◌≡◌, ◌≢◌, ◌↔◌, ◌++◌, ◌∷◌, [], ◌<◌, ◌-◌, ◌^◌, List, IfOk, IfSome, OnErr, OnOk, IsTrue, None, Some, false, length, option_map, slice_get, slice_index_or, slice_set, true, vec_capacity, vec_len};
ghost use Rattle.node_store.specs.Archives.{AreFiled, IsFiled, sent_of, sents_of};
ghost use Rattle.node_table.specs.Places.{ascends, index_without_place, place_of_row};
ghost use Rattle.node_table.specs.Puts.{IsFiledPut, IsPut, offer_of, before_put, with_known_row, without_last};
ghost use Rattle.node_table.specs.Senders.{senders};
ghost use Rattle.scp_spec.specs.Rows.{has_single_rows, is_taken, table_with_offer, row, table_after};
ghost use Rattle.scp_types.specs.Statements.{Sent, kind_of};
ghost use Rattle.scp_types.specs.declared.kind.Kind.{Kind};
ghost use Rattle.scp_types.specs.declared.kind.Kind.TheVariants.{Nomination};

use crate::index::Index;
use crate::newer::is_newer;
use crate::places::{MOST_ROWS, RowPlaces};
use crate::sender_names::SenderNames;
use node_store::{Archive, Filed};
use scp_types::{Envelope, Kind, NodeId};
use std::alloc::{AllocError, Global};
use std::marker::Model;
use std::mem;

/// What a table made of an envelope.
#[derive(Clone, Copy, Debug, PartialEq, Eq)]
pub enum Offer {
    /// It is its sender's row now: it was newer than the row of its kind, or the first.
    Replaced,
    /// It was not newer, and the table is as it was.
    Stale,
    /// The table is out of memory for a first row, and is as it was.
    NoMemory,
}

/// What a table made of an envelope, by which [`Table::undo`] leads back.
#[derive(Drop)]
pub enum Put {
    /// It was not newer, and the table is as it was.
    Stale,
    /// The table is out of memory for a first row, and is as it was.
    NoMemory,
    /// It is its sender's first row of its kind, and the last of all.
    Added,
    /// It stands in the place of this row, than which it is newer.
    Replaced(Filed),
}

impl Put {
    /// The answer without the way back.
    fn offer(&self) -> Offer
        ensures { result ≡ offer_of self.now }
    {
        match self {
            Put::Stale => Offer::Stale,
            Put::NoMemory => Offer::NoMemory,
            Put::Added | Put::Replaced(_) => Offer::Replaced,
        }
    }
}

/// The newest envelopes of all senders: one row of each sender and kind (this host's profile).
///
/// A row is the number of an envelope in an archive, which the caller lends to each call that reads a row.
///
/// Contracts see it as the list of its rows, in the order in which their senders first had one of that kind; a newer
/// envelope stands in the place of the older one. A look-up, a row more and one less each take a number of steps that
/// is logarithmic in the number of senders.
///
/// It has at most 4,294,967,294 rows (this host's profile). For one more there is no memory.
///
/// The index follows the rows, and no sender has two rows of one kind. For example, the rows are a ballot row of B,
/// then rows of both kinds of A. Then the index has A with the places 1 and 2, and B with 0.
#[derive(Drop)]
pub struct Table {
    rows: Vec<Filed>,
    index: Index,
}

impl Model for Table {
    ghost use Rattle.std.specs.Coded.{codes};
    ghost use Rattle.std.specs.Prelude.{◌<◌, ◌-◌, ◌^◌, List, length};
    ghost use Rattle.node_store.specs.Archives.{sents_of};
    ghost use Rattle.node_store.specs.declared.filed.Filed.{Filed};
    ghost use Rattle.node_table.specs.Places.{IsIndexed};
    ghost use Rattle.scp_types.specs.Trees.{members_code};

    ghost Value = { List Filed };

    ghost coded = { Prim.hlevel (codes, members_code) };

    ghost view = { λ a. a.rows.items };

    ghost invariant = { λ a. IsIndexed (sents_of a.rows.items) a.index × (length a.rows.items < 2 ^ 32 - 1) };
}

impl Table {
    /// A table with no rows. It takes no memory.
    pub fn new(alloc: Global) -> Table
        ensures { result ≡ [] }
    {
        Table {
            rows: Vec::new(alloc),
            index: Index::new(alloc),
        }
    }

    /// Takes an envelope that is newer than its sender's row of its kind, or the first of them.
    ///
    /// It is stale exactly if it is neither. Memory is asked for only if its sender has no row of its kind. If the
    /// answer is not [`Offer::Replaced`], the table is as it was. Offers of a whole list, one after another, make the
    /// table of that list.
    pub fn offer<S: node_store::Places>(&mut self, archive: &Archive<S>, envelope: Filed) -> Offer
        requires rows { AreFiled archive.now self.old }
        requires envelope { IsFiled archive.now envelope }
        ensures stale { result ≡ Offer.Stale ↔ is_taken (sents_of self.old) (sent_of envelope) ≡ false }
        ensures table { result ≢ Offer.NoMemory → sents_of self.new ≡ table_with_offer (sents_of self.old) (sent_of envelope) }
        ensures unchanged { result ≢ Offer.Replaced → self.new ≡ self.old }
        ensures memory { result ≡ Offer.NoMemory → row (sents_of self.old) (sent_of envelope).sender (kind_of (sent_of envelope).body) ≡ None }
        ensures whole { (taken : List Sent) → sents_of self.old ≡ table_after taken → result ≢ Offer.NoMemory → sents_of self.new ≡ table_after (taken ++ sent_of envelope ∷ []) }
        ensures filed { AreFiled archive.now self.new }
    {
        self.put(archive, envelope).offer()
    }

    /// Takes an envelope as [`Table::offer`] does, and answers what leads back: for a step that may
    /// still fail after it.
    ///
    /// Memory is asked for only if its sender has no row of its kind.
    pub fn put<S: node_store::Places>(&mut self, archive: &Archive<S>, envelope: Filed) -> Put
        requires rows { AreFiled archive.now self.old }
        requires envelope { IsFiled archive.now envelope }
        ensures put { IsPut self.old (sent_of envelope) result self.new }
        ensures back { before_put result self.new ≡ self.old }
        ensures filed { AreFiled archive.now self.new }
        ensures known { IsFiledPut archive.now result }
    {
        let new = archive.read(&envelope);
        let sender = *new.sender();
        let kind = new.body().kind();
        match self.place(&sender, kind) {
            Some(place) => self.put_at(archive, place, envelope),
            None => match self.add(sender, kind, envelope) {
                Ok(()) => Put::Added,
                Err(_) => Put::NoMemory,
            },
        }
    }

    /// Takes an envelope as [`Table::put`] does, if its sender's row of its kind is known to stand at this place. No
    /// row is looked up, and no memory is asked for.
    pub fn put_at<S: node_store::Places>(
        &mut self,
        archive: &Archive<S>,
        place: usize,
        envelope: Filed,
    ) -> Put
        requires rows { AreFiled archive.now self.old }
        requires envelope { IsFiled archive.now envelope }
        requires row { place_of_row (sents_of self.old) (sent_of envelope).sender (kind_of (sent_of envelope).body) ≡ Some place }
        ensures put { IsPut self.old (sent_of envelope) result self.new }
        ensures back { before_put result self.new ≡ self.old }
        ensures filed { AreFiled archive.now self.new }
        ensures known { IsFiledPut archive.now result }
    {
        if self.is_newer_than_row(archive, place, archive.read(&envelope)) {
            Put::Replaced(self.replace(place, envelope))
        } else {
            Put::Stale
        }
    }

    /// Undoes what [`Table::put`] made of an envelope. It takes no memory, and cannot fail. If the table is as that
    /// call left it, it is then as it was before that call.
    pub fn undo<S: node_store::Places>(&mut self, archive: &Archive<S>, put: Put)
        requires rows { AreFiled archive.now self.old }
        requires known { IsFiledPut archive.now put }
        ensures { self.new ≡ before_put put self.old }
    {
        match put {
            Put::Stale | Put::NoMemory => {}
            Put::Added => self.remove_last(archive),
            Put::Replaced(row) => self.restore(archive, row),
        }
    }

    /// The sender's row of a kind. It takes no memory.
    pub fn row<'a, S: node_store::Places>(
        &self,
        archive: &'a Archive<S>,
        sender: &NodeId,
        kind: Kind,
    ) -> Option<&'a Envelope>
        requires { AreFiled archive.now self.now }
        ensures { option_map (λ r. r.now) result ≡ row (sents_of self.now) sender.now kind }
    {
        match self.place(sender, kind) {
            Some(place) => Some(archive.read(&self.rows[place])),
            None => None,
        }
    }

    /// The row at this place among all rows, `None` behind the last one. It takes no memory.
    pub(crate) fn row_at<'a, S: node_store::Places>(
        &self,
        archive: &'a Archive<S>,
        place: usize,
    ) -> Option<&'a Envelope>
        requires { AreFiled archive.now self.now }
        ensures { option_map (λ r. r.now) result ≡ slice_get (sents_of self.now) place }
    {
        match self.filed_at(archive, place) {
            Some(row) => Some(archive.read(row)),
            None => None,
        }
    }

    /// The row at this place among all rows as the archive has it, `None` behind the last one. It takes no memory.
    pub fn filed_at<S: node_store::Places>(
        &self,
        archive: &Archive<S>,
        place: usize,
    ) -> Option<&Filed>
        requires { AreFiled archive.now self.now }
        ensures row { option_map (λ f. sent_of f.now) result ≡ slice_get (sents_of self.now) place }
        ensures filed { IfSome result (λ f. IsFiled archive.now f.now) }
    {
        self.rows.get(place)
    }

    /// The senders with a row, in ascending order, each once. It takes no memory.
    pub fn senders(&self) -> SenderNames<'_>
        ensures { result ≡ senders (sents_of self.now) }
    {
        self.index.senders()
    }

    /// How many senders have a row. It takes no memory.
    pub fn sender_count(&self) -> usize
        ensures { result ≡ length (senders (sents_of self.now)) }
    {
        self.index.sender_count()
    }

    /// All rows, in the order in which their senders first had one of that kind.
    pub fn rows(&self) -> &[Filed]
        ensures value { result.now ≡ self.now }
        ensures single { has_single_rows (sents_of self.now) ≡ true }
    {
        self.rows.as_slice()
    }

    /// How many rows there are.
    pub fn len(&self) -> usize
        ensures value { result ≡ length self.now }
        ensures small { result < 2 ^ 32 - 1 }
    {
        self.rows.len()
    }

    /// Whether there is no row.
    pub fn is_empty(&self) -> bool
        ensures { IsTrue result ↔ self.now ≡ [] }
    {
        self.rows.is_empty()
    }

    /// A copy, whose rows are numbers of the same archive. An error says that it is out of memory.
    pub fn try_copy<S: node_store::Places>(
        &self,
        alloc: Global,
        archive: &Archive<S>,
    ) -> Result<Table, AllocError>
        requires { AreFiled archive.now self.now }
        ensures { IfOk result (λ t. t ≡ self.now) }
    {
        let rows = copy_of_rows(alloc, archive, &self.rows)?;
        let index = self.index.try_copy()?;
        Ok(Table { rows, index })
    }

    /// The place of the sender's row of a kind.
    pub(crate) fn place(&self, sender: &NodeId, kind: Kind) -> Option<usize>
        ensures value { result ≡ place_of_row (sents_of self.now) sender.now kind }
        ensures within { IfSome result (λ place. place < length self.now) }
    {
        self.index.place(sender, kind).get()
    }

    /// The places of a sender's rows of both kinds, by one look-up.
    pub(crate) fn places(&self, sender: &NodeId) -> RowPlaces
        ensures nomination { result.nomination ≡ place_of_row (sents_of self.now) sender.now Nomination }
        ensures ballot { result.ballot ≡ place_of_row (sents_of self.now) sender.now Kind.Ballot }
    {
        self.index.places(sender)
    }

    /// Whether an envelope is newer than its sender's row of its kind, which stands at this place.
    fn is_newer_than_row<S: node_store::Places>(
        &self,
        archive: &Archive<S>,
        place: usize,
        envelope: &Envelope,
    ) -> bool
        requires rows { AreFiled archive.now self.now }
        requires within { place < length self.now }
        requires row { place_of_row (sents_of self.now) envelope.now.sender (kind_of envelope.now.body) ≡ Some place }
        ensures { result ≡ is_taken (sents_of self.now) envelope.now }
    {
        is_newer(envelope.body(), archive.read(&self.rows[place]).body())
    }

    /// Puts an envelope in the place of its sender's row of its kind, and answers that row.
    fn replace(&mut self, place: usize, envelope: Filed) -> Filed
        requires within { place < length self.old }
        requires row { place_of_row (sents_of self.old) (sent_of envelope).sender (kind_of (sent_of envelope).body) ≡ Some place }
        ensures table { self.new ≡ slice_set self.old place envelope }
        ensures row { result ≡ slice_index_or self.old place result }
    {
        mem::replace(&mut self.rows[place], envelope)
    }

    /// Puts a row back in the place of its sender's row of its kind, if there is one.
    fn restore<S: node_store::Places>(&mut self, archive: &Archive<S>, row: Filed)
        requires { IsFiled archive.now row }
        ensures { self.new ≡ with_known_row row self.old }
    {
        let known = archive.read(&row);
        if let Some(place) = self.place(known.sender(), known.body().kind()) {
            let _ = self.replace(place, row);
        }
    }

    /// Removes the last row, if there is one.
    fn remove_last<S: node_store::Places>(&mut self, archive: &Archive<S>)
        requires { AreFiled archive.now self.old }
        ensures { self.new ≡ without_last self.old }
    {
        if let Some(row) = self.rows.pop() {
            let known = archive.read(&row);
            self.index.forget(known.sender(), known.body().kind());
        }
    }

    /// Adds an envelope whose sender has no row of its kind. If it is out of memory, the table stays as it was.
    fn add(&mut self, sender: NodeId, kind: Kind, envelope: Filed) -> Result<(), AllocError>
        requires none { place_of_row (sents_of self.old) (sent_of envelope).sender (kind_of (sent_of envelope).body) ≡ None }
        requires sender { sender ≡ (sent_of envelope).sender }
        requires kind { kind ≡ kind_of (sent_of envelope).body }
        ensures ok { OnOk result (self.new ≡ self.old ++ envelope ∷ []) }
        ensures err { OnErr result (self.new ≡ self.old) }
    {
        let place = self.len();
        if place >= MOST_ROWS {
            // Memory: no row more has a place, whatever memory there is.
            return Err(AllocError);
        }
        self.rows.reserve(1)?;
        self.index.note(sender, kind, place)?;
        push_reserved(&mut self.rows, envelope);
        Ok(())
    }
}

/// Adds an envelope, for which there is room.
fn push_reserved(rows: &mut Vec<Filed>, envelope: Filed)
    requires { vec_len rows.old < vec_capacity rows.old }
    ensures { rows.new.items ≡ rows.old.items ++ envelope ∷ [] }
{
    let _ = rows.push(envelope);
}

fn copy_of_rows<S: node_store::Places>(
    alloc: Global,
    archive: &Archive<S>,
    rows: &[Filed],
) -> Result<Vec<Filed>, AllocError>
    requires { AreFiled archive.now rows.now }
    ensures { IfOk result (λ v. v.items ≡ rows.now) }
{
    rows.iter().map(|row| archive.copy_of(row)).collect(alloc)
}
