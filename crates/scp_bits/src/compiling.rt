//! From slices to their compiled form.

ghost use Rattle.std.specs.Prelude.{◌≡◌, ◌+◌, ◌<◌, ◌≤◌, ◌^◌, ℕ, List, IfOk, IfSome, OnOk, get_or, is_some, length};
ghost use Rattle.scp_types.specs.Trees.{names_in};
ghost use Rattle.scp_spec.specs.Sets.{IsAscending, among, within};
ghost use Rattle.scp_bits.specs.Met.{IsCompiled, one_where, nodes_at, needed_of};
ghost use Rattle.scp_bits.specs.Places.{count_in, places_in};

use crate::mask::{Mask, add_place};
use crate::set::CompiledSet;
use scp_types::{Member, NodeId, SliceSet};
use std::alloc::{AllocError, Global};

/// The compiled form of a set against a list of nodes: it is met by places exactly if the nodes at those places satisfy
/// the set or, if `blocking`, block it.
///
/// The nodes are ascending, none twice. Names that are not among them are in no such set of nodes. An error says that
/// it is out of memory.
pub fn compile(
    alloc: Global,
    set: &SliceSet,
    nodes: &[NodeId],
    blocking: bool,
) -> Result<CompiledSet, AllocError>
    requires { IsAscending nodes.now }
    ensures { IfOk result (λ c. IsCompiled blocking nodes.now set.now c) }
{
    let members = set.members();
    let mut masks = Vec::new(alloc);
    let mut inner = Vec::new(alloc);
    // Names mostly come in the order of the nodes, so each is looked for behind the last one first.
    let mut next = 0;
    for member in members {
        match member {
            Member::Node(node) => next = add_node(&mut masks, nodes, next, node)?,
            Member::Set(set) => inner.push(compile(alloc, set, nodes, blocking)?)?,
        }
    }
    let needed = needed_of(set.threshold(), members.len(), blocking);
    Ok(CompiledSet::new(needed, members.len(), masks, inner))
}

/// How many members are needed to meet the set: its threshold or, to block it, one more than it can spare.
fn needed_of(threshold: u8, members: usize, blocking: bool) -> usize
    requires { members < 2 ^ 63 }
    ensures { result ≡ needed_of blocking threshold members }
{
    if blocking {
        (members + 1).saturating_sub(threshold as usize)
    } else {
        threshold as usize
    }
}

/// Adds the place of a node, if it has one, which is looked for at `next` first. Answers where the next node is to be
/// looked for.
fn add_node(
    masks: &mut Vec<Mask>,
    nodes: &[NodeId],
    next: usize,
    node: &NodeId,
) -> Result<usize, AllocError>
    requires { IsAscending nodes.now }
    ensures places { OnOk result ((ws : List ℕ) → places_in masks.new.items ws ≡ places_in masks.old.items ws + one_where (among (nodes_at nodes.now ws) node.now)) }
    ensures count { OnOk result (count_in masks.new.items ≤ count_in masks.old.items + 1) }
{
    match place_near(nodes, next, node) {
        None => Ok(next),
        Some(place) => {
            add_place(masks, place)?;
            Ok(place + 1)
        }
    }
}

/// Whether each name in a set, and in the sets within it, has a place. It takes no memory.
pub fn has_places(set: &SliceSet, nodes: &[NodeId]) -> bool
    requires { IsAscending nodes.now }
    ensures { result ≡ within (names_in set.now.members) (among nodes.now) }
{
    let members = set.members();
    let mut next = 0;
    for member in members {
        match member {
            Member::Node(node) => {
                let Some(place) = place_near(nodes, next, node) else {
                    return false;
                };
                next = place + 1;
            }
            Member::Set(inner) => {
                if !has_places(inner, nodes) {
                    return false;
                }
            }
        }
    }
    true
}

/// The place of a node, if it has one.
pub fn place_in_nodes(nodes: &[NodeId], node: &NodeId) -> Option<usize>
    requires { IsAscending nodes.now }
    ensures exactly { is_some result ≡ among nodes.now node.now }
    ensures place { IfSome result (λ i. (i < length nodes.now) × (get_or nodes.now i 0 ≡ node.now)) }
{
    nodes.binary_search(node).ok()
}

/// The place of a node, if it has one: `first`, if the node stands there, or else it is searched for. So nodes in order
/// cost a search only if others stand between.
pub fn place_near(nodes: &[NodeId], first: usize, node: &NodeId) -> Option<usize>
    requires { IsAscending nodes.now }
    ensures exactly { is_some result ≡ among nodes.now node.now }
    ensures place { IfSome result (λ i. (i < length nodes.now) × (get_or nodes.now i 0 ≡ node.now)) }
{
    if let Some(there) = nodes.get(first) {
        if *there == *node {
            return Some(first);
        }
    }
    place_in_nodes(nodes, node)
}
