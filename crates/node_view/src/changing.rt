//! A region whose node reaches others than it did.

ghost use Rattle.std.specs.Arc.{arc_slice_items};
ghost use Rattle.std.specs.Prelude.{◌≡◌, ◌<◌, IfOk, IfSome, get_or, is_some, length};
ghost use Rattle.scp_types.specs.declared.kind.Kind.{Kind};
ghost use Rattle.scp_types.specs.declared.kind.Kind.TheVariants.{Nomination};
ghost use Rattle.scp_spec.specs.Reach.{IsReach};
ghost use Rattle.scp_spec.specs.Sets.{IsAscending, among};
ghost use Rattle.scp_bits.specs.Moving.{AreMoved};
ghost use Rattle.node_reach.specs.Searching.{ArePlacesBut};
ghost use Rattle.node_table.specs.Places.{place_of_row};
ghost use Rattle.node_view.specs.Regions.{AreRowPlaces, IsKeptRegion, IsOfExtent, IsRegion};

use crate::own::Own;
use crate::region::{FormerRegion, KindPlaces, Placed, Region};
use node_reach::{KnownNodes, reach_among, wider_reach};
use node_store::Places;
use node_table::{RowPlaces, Rows};
use scp_bits::place_near;
use scp_types::NodeId;
use std::alloc::{AllocError, Global};

/// Whom a node reaches after a new row of a reached node.
#[derive(Clone, Copy, Debug, PartialEq, Eq)]
pub enum Extent {
    /// All whom it reached, and maybe more.
    Wider,
    /// Maybe not all whom it reached.
    Other,
}

/// A reached node that has a new row, and what that means for whom the node reaches.
#[derive(Clone, Copy)]
pub struct NewReach<'a> {
    pub sender: &'a NodeId,
    pub extent: Extent,
}

impl Region {
    /// The region of the node after a new row of the sender, if whom it reaches may have changed. An error says that it
    /// is out of memory.
    ///
    /// If the reach is wider, only the rows of newly reached nodes and of the sender are looked at. Else the reach is
    /// searched for from the node on, among the nodes of this region. In both cases the other rows stand where they
    /// stood, and their slices stay compiled, with their places moved.
    pub fn after_row<'a, S: Places>(
        &self,
        alloc: Global,
        own: Own<'a>,
        table: &'a Rows<'a, S>,
        by: NewReach<'_>,
    ) -> Result<Region, AllocError>
        requires kept { IsKeptRegion own.name.now own.slices.now table.now by.sender.now self.now }
        requires extent { IsOfExtent own.name.now own.slices.now table.now by.sender.now (arc_slice_items self.now.nodes) by.extent }
        ensures { IfOk result (λ r. IsRegion own.entry.name.now own.entry.slices.now table.now r) }
    {
        let nodes = self.new_reach(alloc, own, &*table, by)?;
        let places = moved_places(alloc, &self.nodes, &nodes)?;
        let rows = kept_row_places(alloc, &*table, &nodes, self, by.sender)?;
        let former = FormerRegion {
            region: self,
            places: &places,
            sender: by.sender,
        };
        Region::over(alloc, own, table, Placed { nodes, rows }, Some(former))
    }

    /// Whom a node reaches behind the new row. If it is all whom it reached before, and maybe more, the search begins at
    /// those; else all is looked for anew. An error says that it is out of memory.
    fn new_reach<S: Places>(
        &self,
        alloc: Global,
        own: Own<'_>,
        table: &Rows<'_, S>,
        by: NewReach<'_>,
    ) -> Result<Vec<NodeId>, AllocError>
        requires kept { IsKeptRegion own.name.now own.slices.now table.now by.sender.now self.now }
        requires extent { IsOfExtent own.name.now own.slices.now table.now by.sender.now (arc_slice_items self.now.nodes) by.extent }
        ensures { IfOk result (λ v. IsReach own.entry.name.now own.entry.slices.now table.now v.items) }
    {
        match by.extent {
            Extent::Wider => wider_reach(alloc, table, &self.nodes, by.sender),
            Extent::Other => {
                let known = KnownNodes {
                    nodes: &self.nodes,
                    ballots: &self.ballot_rows,
                    nominations: &self.nomination_rows,
                    sender: by.sender,
                };
                reach_among(alloc, table, own.name, own.slices, known)
            }
        }
    }
}

/// Where each node stands in another list; for one that is not there, a place that means nothing. An error says that it
/// is out of memory.
fn moved_places(alloc: Global, nodes: &[NodeId], all: &[NodeId]) -> Result<Vec<usize>, AllocError>
    requires before { IsAscending nodes.now }
    requires now { IsAscending all.now }
    ensures { IfOk result (λ v. AreMoved nodes.now all.now v.items) }
{
    let mut places = Vec::with_capacity(alloc, nodes.len())?;
    let mut next = 0;
    for node in nodes {
        let place = place_behind(all, &mut next, node);
        places.push(place.unwrap_or(next))?;
    }
    Ok(places)
}

/// The place of a node. It is tried at `next` before it is searched for, since nodes come in order.
fn place_behind(nodes: &[NodeId], next: &mut usize, node: &NodeId) -> Option<usize>
    requires { IsAscending nodes.now }
    ensures exactly { is_some result ≡ among nodes.now node.now }
    ensures place { IfSome result (λ i. (i < length nodes.now) × (get_or nodes.now i 0 ≡ node.now)) }
{
    let place = place_near(nodes, *next, node);
    if let Some(place) = place {
        *next = place + 1;
    }
    place
}

/// Where the rows of the nodes stand in the table. The region has it of its own nodes but the sender; the others are
/// looked up. An error says that it is out of memory.
fn kept_row_places<S: Places>(
    alloc: Global,
    table: &Rows<'_, S>,
    nodes: &[NodeId],
    region: &Region,
    sender: &NodeId,
) -> Result<KindPlaces, AllocError>
    requires ascending { IsAscending (arc_slice_items region.now.nodes) }
    requires known_ballots { ArePlacesBut sender.now table.now Kind.Ballot (arc_slice_items region.now.nodes) region.now.ballot_rows.items }
    requires known_nominations { ArePlacesBut sender.now table.now Nomination (arc_slice_items region.now.nodes) region.now.nomination_rows.items }
    ensures { IfOk result (AreRowPlaces table.now nodes.now) }
{
    let mut found = KindPlaces::with_capacity(alloc, nodes.len())?;
    let mut next = 0;
    for node in nodes {
        let place = place_behind(&region.nodes, &mut next, node);
        found.push(places_of(table, node, region, place, sender))?;
    }
    Ok(found)
}

/// Where the rows of one node stand in the table, by its place in the region, if it has one there. It takes no memory.
fn places_of<S: Places>(
    table: &Rows<'_, S>,
    node: &NodeId,
    region: &Region,
    place: Option<usize>,
    sender: &NodeId,
) -> RowPlaces
    requires known_ballots { ArePlacesBut sender.now table.now Kind.Ballot (arc_slice_items region.now.nodes) region.now.ballot_rows.items }
    requires known_nominations { ArePlacesBut sender.now table.now Nomination (arc_slice_items region.now.nodes) region.now.nomination_rows.items }
    requires place { IfSome place (λ i. (i < length (arc_slice_items region.now.nodes)) × (get_or (arc_slice_items region.now.nodes) i 0 ≡ node.now)) }
    ensures ballot { result.ballot ≡ place_of_row table.now node.now Kind.Ballot }
    ensures nomination { result.nomination ≡ place_of_row table.now node.now Nomination }
{
    let Some(place) = place else {
        return table.places(node);
    };
    if *node == *sender {
        return table.places(node);
    }
    match (
        region.ballot_rows.get(place),
        region.nomination_rows.get(place),
    ) {
        (Some(ballot), Some(nomination)) => RowPlaces {
            nomination: *nomination,
            ballot: *ballot,
        },
        _ => table.places(node),
    }
}
