//! Who a node is, the rows that it has, and the nodes that it reaches by them.

ghost use Rattle.std.specs.Prelude.{◌≡◌, IfOk, IsTrue, List, OnErr, OnOk, [], box_value, false, is_ok, is_some};
ghost use Rattle.node_store.specs.Archives.{AreFiled, IsFiled, sent_of, sents_of};
ghost use Rattle.node_table.specs.Puts.{IsFiledPut, IsPut, before_put};
ghost use Rattle.node_view.specs.Listening.{IsKnownOf, IsStranger};
ghost use Rattle.scp_spec.specs.Rows.{is_taken, table_with_offer};
ghost use Rattle.scp_spec.specs.Stirring.{ReachesSame};

use crate::KnownReach;
use crate::configured::Configured;
use crate::known::{FiledRow, copy_of_known, put_row, share_known, take_known};
use crate::shared::SharedReach;
use node_store::{Archive, Filed, Places};
use node_table::{Put, Rows, Table};
use scp_bits::place_near;
use scp_types::{Nested, NodeId};
use std::alloc::{AllocError, Global};
use std::marker::Model;
use std::mem;

/// Who a node is, and the rows that it has.
///
/// What is known of the reach is kept from one event to the next: the nodes that it reaches and their slices, compiled.
/// If a reached node's row surely leaves the reach as it is, but its slices are new, one entry changes. After a row by
/// which the node reaches others, it follows if it was asked for since the last such row; else it is forgotten, as when
/// the node's own slices change.
///
/// With it the ballots are kept that rows of reached nodes speak of, in order, and the values of their nominations,
/// once the owner has listed them. Such a row adds its own, and takes away the ballots that only the row before it
/// spoke of.
///
/// The rows lie in one archive, which is lent to each call that reads one. Contracts see who the node is and its
/// rows, and nothing of what is known.
///
/// What is known is what the configuration and the table give. For example, if A's slices name only B, and B's row
/// names C, it is of A, B and C, or nothing is known.
#[derive(Drop)]
pub struct Listener {
    configured: Configured,
    table: Table,
    known: Option<Box<KnownReach>>,
}

impl Model for Listener {
    ghost use Rattle.std.specs.Coded.{codes};
    ghost use Rattle.scp_types.specs.Trees.{members_code};
    ghost use Rattle.node_store.specs.Archives.{sents_of};
    ghost use Rattle.node_view.specs.Listening.{ListenerState, KnowsReach, reach_in};

    ghost Value = { ListenerState };

    ghost coded = { Prim.hlevel (codes, members_code) };

    ghost view = { λ l. record { configured = l.configured; table = l.table } };

    ghost invariant = { λ l. KnowsReach l.configured (sents_of l.table) (reach_in l.known) };
}

impl Listener {
    /// A listener that has taken no row. It takes no memory.
    pub fn new(alloc: Global, configured: Configured) -> Listener
        ensures { result ≡ record { configured = configured; table = [] } }
    {
        Listener {
            configured,
            table: Table::new(alloc),
            known: None,
        }
    }

    /// A copy, which knows what this one knows. An error says that it is out of memory.
    pub fn try_copy<S: Places>(
        &self,
        alloc: Global,
        archive: &Archive<S>,
    ) -> Result<Listener, AllocError>
        requires { AreFiled archive.now self.now.table }
        ensures { IfOk result (λ l. l ≡ self.now) }
    {
        Ok(Listener {
            configured: self.configured.try_copy()?,
            table: self.table.try_copy(alloc, archive)?,
            known: copy_of_known(alloc, &self.known)?,
        })
    }

    /// Who the node is.
    pub fn configuration(&self) -> &Configured
        ensures { result.now ≡ self.now.configured }
    {
        &self.configured
    }

    /// The rows.
    pub fn table(&self) -> &Table
        ensures { result.now ≡ self.now.table }
    {
        &self.table
    }

    /// Whether the sender is surely not reached: the reached nodes are known, and it is not among them.
    pub fn is_stranger(&self, sender: &NodeId) -> bool
        ensures { IsTrue result → IsStranger self.now sender.now }
    {
        match &self.known {
            None => false,
            Some(known) => place_near(&known.region.nodes, known.next, sender).is_none(),
        }
    }

    /// Offers the envelope to the table, which takes it unless it is stale. An error says that it is out of memory, and
    /// nothing changed.
    pub fn offer<S: Places>(
        &mut self,
        alloc: Global,
        archive: &Archive<S>,
        envelope: Filed,
    ) -> Result<(), AllocError>
        requires rows { AreFiled archive.now self.old.table }
        requires envelope { IsFiled archive.now envelope }
        ensures offered { OnOk result (sents_of self.new.table ≡ table_with_offer (sents_of self.old.table) (sent_of envelope)) }
        ensures same { self.new.configured ≡ self.old.configured }
        ensures err { OnErr result (self.new ≡ self.old) }
        ensures idle { is_taken (sents_of self.old.table) (sent_of envelope) ≡ false → IsTrue (is_ok result) }
        ensures filed { AreFiled archive.now self.new.table }
    {
        let (put, _) = self.put(alloc, archive, envelope);
        match put {
            Put::NoMemory => Err(AllocError),
            Put::Stale => Ok(()),
            Put::Added | Put::Replaced(_) => Ok(()),
        }
    }

    /// Puts the envelope into the table, as [`Table::put`] does, and says whether the node surely reaches whom it
    /// reached before.
    pub fn put<S: Places>(
        &mut self,
        alloc: Global,
        archive: &Archive<S>,
        envelope: Filed,
    ) -> (Put, bool)
        requires rows { AreFiled archive.now self.old.table }
        requires envelope { IsFiled archive.now envelope }
        ensures put { IsPut self.old.table (sent_of envelope) result.0 self.new.table }
        ensures back { before_put result.0 self.new.table ≡ self.old.table }
        ensures reach { IsTrue result.1 → ReachesSame self.old.configured.name self.old.configured.slices (sents_of self.old.table) (sents_of self.new.table) }
        ensures same { self.new.configured ≡ self.old.configured }
        ensures filed { AreFiled archive.now self.new.table }
        ensures known { IsFiledPut archive.now result.0 }
    {
        put_row(
            alloc,
            &self.configured,
            &mut self.table,
            &mut self.known,
            FiledRow { archive, envelope },
        )
    }

    /// Undoes a put, as [`Table::undo`] does. The reach is not known afterwards.
    pub fn undo<S: Places>(&mut self, archive: &Archive<S>, put: Put)
        requires rows { AreFiled archive.now self.old.table }
        requires known { IsFiledPut archive.now put }
        ensures { self.new ≡ record self.old { table = before_put put self.old.table } }
    {
        self.table.undo(archive, put);
        self.known = None;
    }

    /// Configures these slices from now on, and hands back those before. The reach is not known afterwards.
    pub fn exchange_slices(&mut self, slices: Nested) -> Nested
        ensures now { self.new ≡ record self.old { configured = record self.old.configured { slices = slices } } }
        ensures before { result ≡ self.old.configured.slices }
    {
        self.known.take();
        mem::replace(&mut self.configured.slices, slices)
    }

    /// What is known of the node's reach, or found now. It is not known afterwards, until [`Listener::keep_reach`]
    /// gives it back. An error says that it is out of memory.
    pub fn take_reach<S: Places>(
        &mut self,
        alloc: Global,
        archive: &Archive<S>,
    ) -> Result<Box<KnownReach>, AllocError>
        requires rows { AreFiled archive.now self.old.table }
        ensures reach { IfOk result (λ k. IsKnownOf self.old (box_value k)) }
        ensures same { self.new ≡ self.old }
    {
        let known = take_known(
            alloc,
            &mut self.known,
            &self.configured,
            &self.table,
            archive,
        )?;
        Ok(known)
    }

    /// Has forms of slices that are known, and may be new, share memory with those of other nodes. What contracts see
    /// stays.
    #[inline(always)]
    pub fn share_reach(&mut self, shared: &mut SharedReach)
        ensures { self.new ≡ self.old }
    {
        share_known(&mut self.known, shared);
    }

    /// Keeps what is known of the node's reach, for whoever asks next.
    pub fn keep_reach(&mut self, mut known: Box<KnownReach>)
        requires { IsKnownOf self.old (box_value known) }
        ensures { self.new ≡ self.old }
    {
        known.is_asked = true;
        self.known = Some(known);
    }
}
