//! Whom a question about networks is about.

use crate::node_id::NodeId;

/// A node of a network, at a slot: whom a report or a comparison is about.
#[derive(Clone, Copy)]
pub struct Subject {
    /// The number of the network.
    pub net: u32,
    /// The slot.
    pub slot: u64,
    /// The name of the node.
    pub node: NodeId,
}
