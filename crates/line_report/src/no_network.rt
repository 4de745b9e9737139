//! A network that nobody declared.

ghost use Rattle.std.specs.Prelude.{[]};

use host_closure::{Announcement, Announcements};
use scp_types::{Nested, NodeId};

/// A network that nobody declared: it hosts nobody, and nothing happened in it. The closure of a node in it is only the
/// node.
#[derive(Clone, Copy, Debug)]
pub struct NoNetwork;

impl Announcements for NoNetwork {
    ghost nodes = { λ _. [] };

    ghost entries = { λ _. [] };

    fn slices(&self, _node: &NodeId) -> Option<&Nested> {
        None
    }

    fn slices_then(&self, _node: &NodeId, _slot: u64) -> Option<&Nested> {
        None
    }

    fn len(&self) -> usize {
        0
    }

    fn announcement(&self, _number: usize) -> Option<Announcement<'_>> {
        None
    }
}
