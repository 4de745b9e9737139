//! Networks of a few nodes that are to agree on one value.

use host_config::{Budgets, HostedNode, NetConfig};
use scp_types::{Bytes, Event, Member, Nested, NodeId, SliceSet};
use std::alloc::Global;

/// The name of a number.
pub fn name(number: u64) -> NodeId {
    NodeId::from_words(0, 0, 0, number)
}

/// Slices that ask for a majority of `count` nodes, one or three.
pub fn slices(alloc: Global, count: u64) -> Option<Nested> {
    let mut members = Vec::new(alloc);
    for number in 0..count {
        members.push(Member::Node(name(number))).ok()?;
    }
    let majority = if count == 1 { 1 } else { 2 };
    Nested::new(alloc, SliceSet::new(majority, members)).ok()?
}

/// A network of `count` nodes, each of which asks for a majority of them.
pub fn config(alloc: Global, number: u32, count: u64) -> Option<NetConfig> {
    let mut nodes = Vec::new(alloc);
    for node in 0..count {
        let slices = slices(alloc, count)?;
        nodes.push(HostedNode::new(name(node), slices)).ok()?;
    }
    let budgets = Budgets::new(10_000, 0, 4)?;
    NetConfig::new(alloc, number, nodes, budgets).ok()
}

/// A node is to propose `x` at a slot.
pub fn proposal(alloc: Global, slot: u64, node: u64) -> Option<Event> {
    let value = Bytes::new(vec![in alloc; b'x'].ok()?);
    Some(Event::Propose {
        slot,
        node: name(node),
        value,
    })
}
