//! The search for a quorum: nodes are taken away until the slices of all that are left are satisfied.
//!
//! An error of a function here says that it is out of memory.

ghost use Rattle.std.specs.Prelude.{◌≡◌, IfOk, IsTrue, ◌↔◌, filter};
ghost use Rattle.scp_spec.specs.Sets.{among, IsAscending};
ghost use Rattle.scp_spec.specs.Quorums.{HasQuorum, is_satisfied, NamesWithin};

use crate::slices_of::SlicesOf;
use crate::{SliceFamily, is_among};
use scp_types::NodeId;
use std::alloc::{AllocError, Global};

/// Whether some quorum within the supporters contains the node (Mazières 2015, of quorums).
///
/// The supporters are ascending, none twice.
pub fn in_quorum<S: SlicesOf>(
    alloc: Global,
    node: &NodeId,
    supporters: &[NodeId],
    slices_of: &S,
) -> Result<bool, AllocError>
    requires { IsAscending supporters.now }
    ensures { IfOk result (λ b. IsTrue b ↔ HasQuorum S.Family.sat (S.slices_at slices_of.now) (among supporters.now) node.now) }
{
    let mut left = Vec::from_slice(alloc, supporters)?;
    loop {
        let satisfied = satisfied_among(alloc, &left, slices_of)?;
        if satisfied.len() == left.len() {
            return Ok(is_among(&left, node));
        }
        left = satisfied;
    }
}

/// What [`in_quorum`] answers, if a region holds the node and all names of its members' slices: no supporter outside
/// the region is looked at, and the answer is still that over all of them.
///
/// Supporters and region are ascending, none twice.
pub fn in_quorum_within<S: SlicesOf>(
    alloc: Global,
    node: &NodeId,
    supporters: &[NodeId],
    slices_of: &S,
    region: &[NodeId],
) -> Result<bool, AllocError>
    requires ascending { IsAscending supporters.now }
    requires region { IsAscending region.now }
    requires member { IsTrue (among region.now node.now) }
    requires closed { NamesWithin S.Family.names (S.slices_at slices_of.now) (among region.now) }
    ensures { IfOk result (λ b. IsTrue b ↔ HasQuorum S.Family.sat (S.slices_at slices_of.now) (among supporters.now) node.now) }
{
    let inside = kept_within(alloc, supporters, region)?;
    in_quorum(alloc, node, &inside, slices_of)
}

/// Those of the nodes whose slices all of them together satisfy.
fn satisfied_among<S: SlicesOf>(
    alloc: Global,
    nodes: &[NodeId],
    slices_of: &S,
) -> Result<Vec<NodeId>, AllocError>
    requires { IsAscending nodes.now }
    ensures { IfOk result (λ v. v.items ≡ filter (λ u. is_satisfied S.Family.sat (S.slices_at slices_of.now u) (among nodes.now)) nodes.now) }
{
    nodes
        .iter()
        .copied()
        .filter(|node| stays_among(node, nodes, slices_of))
        .collect(alloc)
}

/// Whether the nodes satisfy the slices of this one.
fn stays_among<S: SlicesOf>(node: &NodeId, nodes: &[NodeId], slices_of: &S) -> bool
    requires { IsAscending nodes.now }
    ensures { result ≡ is_satisfied S.Family.sat (S.slices_at slices_of.now node.now) (among nodes.now) }
{
    match slices_of.slices(node) {
        None => false,
        Some(slices) => slices.satisfied_by(nodes),
    }
}

/// Those of the nodes that are in the region.
fn kept_within(
    alloc: Global,
    nodes: &[NodeId],
    region: &[NodeId],
) -> Result<Vec<NodeId>, AllocError>
    requires { IsAscending region.now }
    ensures { IfOk result (λ v. v.items ≡ filter (among region.now) nodes.now) }
{
    nodes
        .iter()
        .copied()
        .filter(|node| is_among(region, node))
        .collect(alloc)
}
