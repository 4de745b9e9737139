//! Names, slices and nodes of which tests make their networks.

use host_config::HostedNode;
use scp_types::{Member, Nested, NodeId, SliceSet};
use std::alloc::Global;

/// The name of a number.
pub fn name(number: u64) -> NodeId {
    NodeId::from_words(0, 0, 0, number)
}

/// Slices of one name.
pub fn slices_of(alloc: Global, number: u64) -> Option<Nested> {
    let members = vec![in alloc; Member::Node(name(number))].ok()?;
    Nested::new(alloc, SliceSet::new(1, members)).ok()?
}

/// Only the node of this number, which needs the node of number `needed`.
pub fn one_node(alloc: Global, number: u64, needed: u64) -> Option<Vec<HostedNode>> {
    let slices = slices_of(alloc, needed)?;
    vec![in alloc; HostedNode::new(name(number), slices)].ok()
}
