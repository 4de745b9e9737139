//! The walk over all names of a tree.

ghost use Rattle.std.specs.Prelude.{◌≡◌, IsTrue};
ghost use Rattle.scp_types.specs.Trees.{member_count, depth_of, HasThreshold, HaveThresholds};
ghost use Rattle.scp_slices.specs.Weighing.{part_of};
ghost use Rattle.scp_spec.specs.Leaders.{hash, beats, leader};
ghost use Rattle.scp_spec.specs.Satisfaction.{names};
ghost use Rattle.scp_spec.specs.Sets.{also, among};
ghost use Rattle.node_leaders.specs.Leaders.{IsLeader};
ghost use Rattle.node_leaders.specs.Walk.{best_among, is_drawn, HasRoomForLevels};

use crate::candidate::Candidate;
use crate::draw::Draw;
use crate::draws::Draws;
use scp_slices::Weight;
use scp_types::{Member, Nested, NodeId, SliceSet};

/// The node that leads a round of nomination, as this node with these slices sees it: of its neighbours in the round
/// the one with the greatest priority, and of several such the one with the greatest name. It is the node itself or a
/// name of its slices. It takes at most two hashes for each name of the slices and one more; a name that is not better
/// than the best before it costs one. A hash that was drawn for this round before is not drawn again, if there was memory
/// to keep it.
///
/// A node is a neighbour if the first hash, 64 bits, lies below the share of all hashes that its weight is; the node
/// itself weighs all and so is always a neighbour. The second hash is the priority (the Stellar Consensus Protocol
/// draft, of neighbors and leaders). The hashes are this host's profile: the first eight bytes of the SHA-256 digest of
/// slot, a tag of 1 or 2, round and name, 45 bytes with all numbers big-endian.
pub fn leader(draws: &mut Draws, slot: u64, round: u32, node: &NodeId, slices: &Nested) -> NodeId
    ensures best { IsLeader slot round node.now slices.now result }
    ensures known { IsTrue (also node.now (among (names slices.now)) result) }
    ensures computed { result ≡ leader slot round node.now slices.now }
{
    draws.turn_to(Draw { slot, round });
    let own = Candidate::new(draws, node);
    best_in(draws, slices.set(), Weight::one(), own).node
}

/// The best of a candidate and of the neighbours among the names of a set whose weight is `outer`.
fn best_in(draws: &mut Draws, set: &SliceSet, outer: Weight, own: Candidate) -> Candidate
    requires threshold { HasThreshold set.now.threshold set.now.members }
    requires inner_sets { HaveThresholds set.now.members }
    requires room { HasRoomForLevels outer (depth_of set.now.members) }
    requires priority { own.priority ≡ hash draws.old.slot 2 draws.old.round own.node }
    ensures node { result.node ≡ best_among (is_drawn draws.old.slot draws.old.round) (beats draws.old.slot draws.old.round) (part_of set.now.threshold (member_count set.now.members) outer) set.now.members own.node }
    ensures priority { result.priority ≡ hash draws.old.slot 2 draws.old.round result.node }
    ensures same { draws.new ≡ draws.old }
{
    let members = set.members();
    let weight = outer.part(set.threshold(), members.len() as u8);
    let mut best = own;
    for member in members {
        best = match member {
            Member::Node(node) => best.or_node(draws, node, weight),
            Member::Set(inner) => best_in(draws, inner, weight, best),
        };
    }
    best
}
