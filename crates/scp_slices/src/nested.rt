//! Slices as trees.

ghost use Rattle.std.specs.Prelude.{◌≡◌, ◌==◌, ◌+◌, ◌++◌, ◌≤◌, nat_lt, if◌then◌else◌, Some, None, OnOk, IfSome, ◌^◌};
ghost use Rattle.scp_types.specs.Trees.{names_in, member_count, depth_of, most_levels, HasThreshold, HaveThresholds};
ghost use Rattle.scp_spec.specs.Sets.{among, IsAscending};
ghost use Rattle.scp_spec.specs.Satisfaction.{satisfied_count, blocked_count};
ghost use Rattle.scp_slices.specs.Weighing.{share_of, whole};

use crate::family::SliceFamily;
use crate::sets::is_among;
use crate::weight::Weight;
use scp_types::{Member, Nested, NodeId, SliceSet, push_names};
use std::alloc::{AllocError, Global};

impl SliceFamily for Nested {
    ghost use Rattle.scp_spec.specs.Satisfaction.{sat, is_blocked, names};
    ghost use Rattle.scp_spec.specs.Weights.{weight};
    ghost use Rattle.scp_spec.proofs.Slices.Satisfaction.{sat_monotone, sat_local, sat_dual};

    ghost sat = { sat };

    ghost blocked = { is_blocked };

    ghost names = { names };

    ghost weight = { weight };

    ghost monotone = { sat_monotone };

    ghost local = { sat_local };

    ghost dual = { sat_dual };

    fn satisfied_by(&self, nodes: &[NodeId]) -> bool {
        let set = self.set();
        count_satisfied(set, nodes) >= set.threshold() as usize
    }

    fn blocked_by(&self, nodes: &[NodeId]) -> bool {
        let set = self.set();
        leaves_too_few(set, count_blocked(set, nodes))
    }

    fn names(&self, alloc: Global) -> Result<Vec<NodeId>, AllocError> {
        let mut names = Vec::new(alloc);
        push_names(self.set(), &mut names)?;
        names.sort_unstable();
        Ok(names)
    }

    fn weight(&self, node: &NodeId) -> Option<Weight> {
        weight_in(self.set(), node)
    }
}

/// How many members are nodes in the set, or inner sets that it satisfies.
fn count_satisfied(set: &SliceSet, nodes: &[NodeId]) -> usize
    requires { IsAscending nodes.now }
    ensures { result ≡ satisfied_count set.now.members (among nodes.now) }
{
    let members = set.members();
    let mut count = 0;
    for member in members {
        let satisfied = match member {
            Member::Node(node) => is_among(nodes, node),
            Member::Set(inner) => count_satisfied(inner, nodes) >= inner.threshold() as usize,
        };
        if satisfied {
            count += 1;
        }
    }
    count
}

/// How many members are nodes in the set, or inner sets that it blocks.
fn count_blocked(set: &SliceSet, nodes: &[NodeId]) -> usize
    requires { IsAscending nodes.now }
    ensures { result ≡ blocked_count set.now.members (among nodes.now) }
{
    let members = set.members();
    let mut count = 0;
    for member in members {
        let blocked = match member {
            Member::Node(node) => is_among(nodes, node),
            Member::Set(inner) => leaves_too_few(inner, count_blocked(inner, nodes)),
        };
        if blocked {
            count += 1;
        }
    }
    count
}

/// Whether fewer members than the threshold are left when `blocked` of them are blocked.
#[tactic(auto, using(crate::proofs::MemberLaws::member_count_is))]
fn leaves_too_few(set: &SliceSet, blocked: usize) -> bool
    ensures { result ≡ nat_lt (member_count set.now.members) (set.now.threshold + blocked) }
{
    match set.members().len().checked_sub(set.threshold() as usize) {
        None => true,
        Some(spare) => spare < blocked,
    }
}

/// The weight of a node in one set of a tree, by its first member that has the node.
fn weight_in(set: &SliceSet, node: &NodeId) -> Option<Weight>
    requires threshold { HasThreshold set.now.threshold set.now.members }
    requires inner_sets { HaveThresholds set.now.members }
    requires levels { depth_of set.now.members ≤ most_levels }
    ensures value { result ≡ share_of set.now node.now }
    ensures fits { IfSome result (λ w. (w.numerator ≤ 64 ^ 9) × (w.denominator ≤ 64 ^ 9)) }
{
    let members = set.members();
    for member in members {
        let found = match member {
            Member::Node(other) => own_weight(other, node),
            Member::Set(inner) => weight_in(inner, node),
        };
        if let Some(share) = found {
            return Some(share.part(set.threshold(), members.len() as u8));
        }
    }
    None
}

/// The weight of a node in a member that is itself a node.
fn own_weight(member: &NodeId, node: &NodeId) -> Option<Weight>
    ensures value { result ≡ (if member.now == node.now then Some whole else None) }
    ensures fits { IfSome result (λ w. (w.numerator ≤ 64 ^ 9) × (w.denominator ≤ 64 ^ 9)) }
{
    if *member == *node {
        Some(Weight::one())
    } else {
        None
    }
}
