//! The rows of one kind that the reached nodes have, at hand for many look-ups.

ghost use Rattle.std.specs.Prelude.{◌≡◌, ◌<◌, IfOk, get_or, length, option_map};
ghost use Rattle.scp_spec.specs.Rows.{row};
ghost use Rattle.node_view.specs.Regions.{row_places};
ghost use Rattle.node_view.specs.Watching.{said_by_another};

use crate::rows::{row_where, rows_where};
use node_store::Places;
use node_table::{RowPlace, Rows};
use scp_types::{Envelope, Kind, NodeId, Statement};
use std::alloc::{AllocError, Global};
use std::marker::Model;

/// Of at most this many nodes each row is read where it stands, since to gather them would cost more.
const MOST_IN_PLACE: usize = 64;

/// The rows of one kind that the reached nodes have in a table.
///
/// Each is found by its place in the table, if that is kept. So it costs the same however many rows of strangers the
/// table holds. Rows that are gathered are read there once, and later found by their nodes' places among the nodes.
/// Contracts see the nodes, the table and the kind.
///
/// For example, let A and C have rows of the kind, and B none. The places of A, B and C are then that of A's row,
/// nothing, and that of C's; gathered are A's row, nothing and C's.
#[derive(Drop)]
pub(crate) struct ReachedRows<'a, S: Places> {
    nodes: &'a [NodeId],
    places: &'a [RowPlace],
    gathered: Vec<Option<&'a Envelope>>,
    table: &'a Rows<'a, S>,
    kind: Kind,
}

impl<'a, S: Places> Model for ReachedRows<'a, S> {
    ghost use Rattle.std.specs.Coded.{codes};
    ghost use Rattle.std.specs.Prelude.{◌≡◌, ◌<◌, ℕ, None, get_or, length, option_map};
    ghost use Rattle.scp_spec.specs.Rows.{row};
    ghost use Rattle.scp_types.specs.Trees.{members_code};
    ghost use Rattle.node_view.specs.Watching.{ArePlaces, RowsOfNodes};

    ghost Value = { RowsOfNodes };

    ghost coded = { Prim.hlevel (codes, members_code) };

    ghost view = { λ a. record { nodes = a.nodes.now; table = a.table.now; kind = a.kind } };

    ghost invariant = { λ a. ArePlaces a.table.now a.kind a.nodes.now a.places.now × ((i : ℕ) → i < length a.gathered.items → option_map (λ r. r.now) (get_or a.gathered.items i None) ≡ row a.table.now (get_or a.nodes.now i 0) a.kind) };
}

impl<'a, S: Places> ReachedRows<'a, S> {
    /// The rows of a kind of these nodes, whose places in the table are known. None is gathered, and it takes no
    /// memory.
    pub(crate) fn in_place(
        alloc: Global,
        nodes: &'a [NodeId],
        places: &'a [RowPlace],
        table: &'a Rows<'a, S>,
        kind: Kind,
    ) -> ReachedRows<'a, S>
        requires { places.now ≡ row_places table.now kind nodes.now }
        ensures { result ≡ record { nodes = nodes.now; table = table.now; kind = kind } }
    {
        ReachedRows {
            nodes,
            places,
            gathered: Vec::new(alloc),
            table,
            kind,
        }
    }

    /// The table in which the rows stand.
    pub(crate) fn table(&self) -> &'a Rows<'a, S>
        ensures { result.now ≡ self.now.table }
    {
        self.table
    }

    /// The rows of a kind of these nodes, whose places are not known: each row is looked up when it is asked for.
    pub(crate) fn by_look_up(
        alloc: Global,
        nodes: &'a [NodeId],
        table: &'a Rows<'a, S>,
        kind: Kind,
    ) -> ReachedRows<'a, S>
        ensures { result ≡ record { nodes = nodes.now; table = table.now; kind = kind } }
    {
        ReachedRows {
            nodes,
            places: &[],
            gathered: Vec::new(alloc),
            table,
            kind,
        }
    }

    /// The rows of a kind of these nodes, if they are asked for often: of many nodes they are gathered. An error says
    /// that it is out of memory.
    pub(crate) fn gather(
        alloc: Global,
        nodes: &'a [NodeId],
        places: &'a [RowPlace],
        table: &'a Rows<'a, S>,
        kind: Kind,
    ) -> Result<ReachedRows<'a, S>, AllocError>
        requires { places.now ≡ row_places table.now kind nodes.now }
        ensures { IfOk result (λ r. r ≡ record { nodes = nodes.now; table = table.now; kind = kind }) }
    {
        if nodes.len() <= MOST_IN_PLACE {
            return Ok(ReachedRows::in_place(alloc, nodes, places, table, kind));
        }
        let gathered = rows_where(alloc, places, table)?;
        Ok(ReachedRows {
            nodes,
            places,
            gathered,
            table,
            kind,
        })
    }

    /// The reached nodes.
    pub(crate) fn nodes(&self) -> &[NodeId]
        ensures { result.now ≡ self.now.nodes }
    {
        self.nodes
    }

    /// The row of the node at this place among the reached ones.
    #[inline(always)]
    pub(crate) fn row_at(&self, place: usize) -> Option<&'a Envelope>
        requires { place < length self.now.nodes }
        ensures { option_map (λ r. r.now) result ≡ row self.now.table (get_or self.now.nodes place 0) self.now.kind }
    {
        match self.gathered.get(place) {
            Some(row) => *row,
            None => self.row_there(place),
        }
    }

    /// The row of a node that is not gathered: by its place in the table, if that is kept, or else by a look-up.
    #[inline(always)]
    fn row_there(&self, place: usize) -> Option<&'a Envelope>
        requires { place < length self.now.nodes }
        ensures { option_map (λ r. r.now) result ≡ row self.now.table (get_or self.now.nodes place 0) self.now.kind }
    {
        match self.places.get(place) {
            Some(row) => row_where(self.table, *row),
            None => self.table.row(&self.nodes[place], self.kind),
        }
    }

    /// What the row of the node at this place says, if it is not this node's own.
    pub(crate) fn said_by_another(&self, own: &NodeId, place: usize) -> Option<&'a Statement>
        requires { place < length self.now.nodes }
        ensures { option_map (λ s. s.now) result ≡ said_by_another own.now (row self.now.table (get_or self.now.nodes place 0) self.now.kind) }
    {
        match self.row_at(place) {
            None => None,
            Some(row) => {
                if *own == *row.sender() {
                    None
                } else {
                    Some(row.body())
                }
            }
        }
    }
}
