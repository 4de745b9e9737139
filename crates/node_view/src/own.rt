//! The node whose table it is.

use scp_types::{Nested, NodeId};

/// The node itself: its name, and the slices that it has at the moment.
#[derive(Clone, Copy)]
pub struct Own<'a> {
    pub name: &'a NodeId,
    pub slices: &'a Nested,
}
