//! Federated voting on one claim.
//!
//! An error of a function here says that it is out of memory.

ghost use Rattle.std.specs.Prelude.{◌≡◌, IfOk, IsSomeAnd, IsTrue, ◌↔◌, filter};
ghost use Rattle.scp_spec.specs.Quorums.{NamesWithin};
ghost use Rattle.scp_spec.specs.Satisfaction.{Blocks};
ghost use Rattle.scp_spec.specs.Sets.{Names, among, IsAscending};
ghost use Rattle.scp_voting.specs.Voting.{Accepted, Confirmed};

use crate::blocking::blocks;
use scp_slices::{SlicesOf, in_quorum};
use scp_types::NodeId;
use std::alloc::{AllocError, Global};

/// Who says what of one claim (the Stellar Consensus Protocol draft, of federated voting).
///
/// Contracts see two sets of nodes: `backing` is those that vote for the claim or accept it, `accepting`
/// those that accept it. Nothing ties the one to the other.
pub trait Voters {
    ghost backing: { Self → Names };

    ghost accepting: { Self → Names };

    /// Whether a node votes for the claim or accepts it. It takes no memory.
    fn votes_or_accepts(&self, node: &NodeId) -> bool
        ensures { result ≡ backing self.now node.now };

    /// Whether a node accepts the claim. It takes no memory.
    fn accepts(&self, node: &NodeId) -> bool
        ensures { result ≡ accepting self.now node.now };
}

/// Whether the node accepts the claim: some quorum that contains it all votes for or accepts the claim, or
/// those who accept it block the node's slices (the Stellar Consensus Protocol draft, of federated voting;
/// Mazières 2015, of accepting). The quorum is one of whatever nodes.
///
/// The region holds the node and all names of its members' slices, as the list of all names of a federation
/// does; it is ascending, none twice. Nobody outside it is asked, and the answer is still that over all nodes.
pub fn accepts<S: SlicesOf, V: Voters>(
    alloc: Global,
    node: &NodeId,
    voters: &V,
    slices_of: &S,
    region: &[NodeId],
) -> Result<bool, AllocError>
    requires ascending { IsAscending region.now }
    requires member { IsTrue (among region.now node.now) }
    requires closed { NamesWithin S.Family.names (S.slices_at slices_of.now) (among region.now) }
    ensures { IfOk result (λ b. IsTrue b ↔ Accepted S.Family.sat (S.slices_at slices_of.now) (V.backing voters.now) (V.accepting voters.now) node.now) }
{
    let backing = backing_among(alloc, voters, region)?;
    if in_quorum(alloc, node, &backing, slices_of)? {
        return Ok(true);
    }
    let accepting = accepting_among(alloc, voters, region)?;
    Ok(are_blocking(&accepting, node, slices_of))
}

/// Whether the node confirms the claim: some quorum that contains it all accepts the claim (the Stellar
/// Consensus Protocol draft, of federated voting; Mazières 2015, of confirming). The quorum is one of
/// whatever nodes, and the region as in [`accepts`].
pub fn confirms<S: SlicesOf, V: Voters>(
    alloc: Global,
    node: &NodeId,
    voters: &V,
    slices_of: &S,
    region: &[NodeId],
) -> Result<bool, AllocError>
    requires ascending { IsAscending region.now }
    requires member { IsTrue (among region.now node.now) }
    requires closed { NamesWithin S.Family.names (S.slices_at slices_of.now) (among region.now) }
    ensures { IfOk result (λ b. IsTrue b ↔ Confirmed S.Family.sat (S.slices_at slices_of.now) (V.accepting voters.now) node.now) }
{
    let accepting = accepting_among(alloc, voters, region)?;
    in_quorum(alloc, node, &accepting, slices_of)
}

/// Whether these nodes block the slices of this one; one without slices is blocked by nobody.
fn are_blocking<S: SlicesOf>(nodes: &[NodeId], node: &NodeId, slices_of: &S) -> bool
    requires { IsAscending nodes.now }
    ensures { IsTrue result ↔ IsSomeAnd (S.slices_at slices_of.now node.now) (λ q. Blocks S.Family.sat q (among nodes.now)) }
{
    match slices_of.slices(node) {
        None => false,
        Some(slices) => blocks(slices, nodes),
    }
}

/// Those of the region who vote for the claim or accept it.
fn backing_among<V: Voters>(
    alloc: Global,
    voters: &V,
    region: &[NodeId],
) -> Result<Vec<NodeId>, AllocError>
    ensures { IfOk result (λ v. v.items ≡ filter (V.backing voters.now) region.now) }
{
    region
        .iter()
        .copied()
        .filter(|node| voters.votes_or_accepts(node))
        .collect(alloc)
}

/// Those of the region who accept the claim.
fn accepting_among<V: Voters>(
    alloc: Global,
    voters: &V,
    region: &[NodeId],
) -> Result<Vec<NodeId>, AllocError>
    ensures { IfOk result (λ v. v.items ≡ filter (V.accepting voters.now) region.now) }
{
    region
        .iter()
        .copied()
        .filter(|node| voters.accepts(node))
        .collect(alloc)
}
