//! Where the sender of an envelope stands.

ghost use Rattle.std.specs.Arc.{arc_slice_items};
ghost use Rattle.std.specs.Prelude.{◌≡◌, IfSome, List, None, get_or};
ghost use Rattle.node_table.specs.Places.{place_of_row};
ghost use Rattle.node_view.specs.Regions.{IsFoundAmong, row_places, rows_of};
ghost use Rattle.scp_spec.specs.Sets.{IsAscending};
ghost use Rattle.scp_types.specs.Statements.{Sent, kind_of};

use crate::Region;
use node_table::RowPlace;
use scp_bits::place_near;
use scp_types::{Envelope, Kind};

/// Where a reached node stands among the reached ones, and where its row of one kind stands in the table.
#[derive(Clone, Copy, Debug, PartialEq, Eq)]
pub struct Standing {
    pub node: usize,
    pub row: RowPlace,
}

impl Region {
    /// Where the sender of an envelope stands, if it is reached, and its row of the envelope's kind. It is looked for at
    /// the place `first`, and else costs one search among the nodes. It takes no memory.
    pub fn standing(&self, first: usize, envelope: &Envelope) -> Option<Standing>
        requires { IsAscending (arc_slice_items self.now.nodes) }
        ensures among { IsFoundAmong (arc_slice_items self.now.nodes) envelope.now.sender result }
        ensures row { (table : List Sent) → rows_of (kind_of envelope.now.body) self.now ≡ row_places table (kind_of envelope.now.body) (arc_slice_items self.now.nodes) → IfSome result (λ s. place_of_row table envelope.now.sender (kind_of envelope.now.body) ≡ s.row) }
    {
        match place_near(&self.nodes, first, envelope.sender()) {
            None => None,
            Some(node) => {
                let row = self.row_there(envelope.body().kind(), node);
                Some(Standing { node, row })
            }
        }
    }

    /// Where the row of a kind stands that the node at this place has, if it has one.
    pub(crate) fn row_there(&self, kind: Kind, node: usize) -> RowPlace
        ensures { result ≡ get_or (rows_of kind self.now) node None }
    {
        let rows = match kind {
            Kind::Nomination => &self.nomination_rows,
            Kind::Ballot => &self.ballot_rows,
        };
        match rows.get(node) {
            None => RowPlace::none(),
            Some(row) => *row,
        }
    }
}
