//! Laws of neighbours and leaders.

ghost use Rattle.node_leaders.specs.Leaders.{NeighboursAreNear, LeadersAreUnique, LeadersAreKnown};

/// A node's neighbours are those whose first hash lies below their weight. The node itself weighs all
/// and so is one in each round: there is always a leader (the Stellar Consensus Protocol draft, of
/// neighbors).
#[tactic(auto, using(crate::proofs::Near::near))]
pub fn neighbours_are_near()
    ensures { NeighboursAreNear }
{}

/// A round has one leader at most, as a node sees it.
#[tactic(auto, using(crate::proofs::LeaderLaws::unique))]
pub fn leaders_are_unique()
    ensures { LeadersAreUnique }
{}

/// The leader is the node itself or one that its slices name.
#[tactic(auto, using(crate::proofs::LeaderLaws::known))]
pub fn leaders_are_known()
    ensures { LeadersAreKnown }
{}
