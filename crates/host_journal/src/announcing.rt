//! Journals as closures read them.

ghost use Rattle.std.specs.Prelude.{◌≡◌, map, option_map};
ghost use Rattle.scp_spec.specs.Networks.{slices_of};
ghost use Rattle.scp_spec.specs.Sets.{IsAscending};

use crate::journal::Journal;
use crate::lent_event::LentEvent;
use host_closure::{Announcement, Announcements};
use host_config::NetConfig;
use node_store::Shelf;
use scp_types::{Nested, NodeId};

/// A journal announces what its deliveries and its changes of slices do. A hosted node is found by a binary search. So
/// are its slices at the end of the journal: those of the node at an open slot, or else the configured ones.
impl<S: Shelf> Announcements for Journal<S> {
    ghost nodes = { λ j. j.config.nodes };

    ghost entries = { λ j. j.entries };

    fn slices(&self, node: &NodeId) -> Option<&Nested> {
        configured_slices(self.config(), node)
    }

    fn slices_then(&self, node: &NodeId, slot: u64) -> Option<&Nested> {
        self.replays();
        match self.slices_now(slot, node) {
            Some(slices) => Some(slices),
            None => configured_slices(self.config(), node),
        }
    }

    fn len(&self) -> usize {
        self.len()
    }

    fn announcement(&self, number: usize) -> Option<Announcement<'_>> {
        match &self.event(number) {
            Some(LentEvent::Deliver { node, envelope, .. }) => Some(Announcement {
                slot: envelope.slot(),
                receiver: *node,
                sender: *envelope.sender(),
                slices: envelope.slices(),
            }),
            Some(LentEvent::Reslice { slot, node, slices }) => Some(Announcement {
                slot: *slot,
                receiver: *node,
                sender: *node,
                slices,
            }),
            _ => None,
        }
    }
}

/// The configured slices of a node, if it is hosted, by a binary search.
fn configured_slices<'a>(config: &'a NetConfig, node: &NodeId) -> Option<&'a Nested>
    ensures value { option_map (λ q. q.now) result ≡ slices_of config.now.nodes node.now }
    ensures ascending { IsAscending (map (λ h. h.name) config.now.nodes) }
{
    let nodes = config.nodes();
    match config.place(node) {
        None => None,
        Some(place) => Some(nodes[place].slices()),
    }
}
