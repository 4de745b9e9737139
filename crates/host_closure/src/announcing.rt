//! What a closure reads of a journal.

ghost use Rattle.std.specs.Prelude.{◌≡◌, ◌<◌, List, ℕ, length, map, option_map};
ghost use Rattle.scp_spec.specs.Hosts.{Entry};
ghost use Rattle.scp_spec.specs.Networks.{HostedNode, slices_of};
ghost use Rattle.scp_spec.specs.Sets.{IsAscending};
ghost use Rattle.host_closure.specs.Announcing.{announced_at, slices_then};

use scp_types::{Nested, NodeId};

/// What an applied event of a journal announces: which slices of a node, to which hosted node, and at which slot. A
/// hosted node that is given new slices announces them to itself.
#[derive(Clone, Copy)]
pub struct Announcement<'a> {
    /// The slot of the envelope, or the one at which the slices were given.
    pub slot: u64,
    /// The hosted node that learnt the slices.
    pub receiver: NodeId,
    /// The node that announced the slices.
    pub sender: NodeId,
    /// The announced slices.
    pub slices: &'a Nested,
}

/// A journal as closures see it: the hosted nodes with their configured slices, and what each entry announces.
///
/// The ghost members are the hosted nodes and the entries of the definitions. No method takes memory.
pub trait Announcements {
    /// The hosted nodes, as they are configured.
    ghost nodes: { Self → List HostedNode };

    /// The applied events, in order, with what they gave out.
    ghost entries: { Self → List Entry };

    /// The configured slices of a node, if it is hosted.
    fn slices(&self, node: &NodeId) -> Option<&Nested>
        ensures value { option_map (λ q. q.now) result ≡ slices_of (nodes self.now) node.now }
        ensures ascending { IsAscending (map (λ h. h.name) (nodes self.now)) };

    /// The slices of a node at a slot after all entries, if it is hosted: those that it was given last since the slot
    /// was opened, else the configured ones.
    fn slices_then(&self, node: &NodeId, slot: u64) -> Option<&Nested>
        ensures { option_map (λ q. q.now) result ≡ slices_then (nodes self.now) slot (entries self.now) node.now };

    /// How many entries there are.
    fn len(&self) -> usize
        ensures { result ≡ length (entries self.now) };

    /// What the entry with this number announces, from 0 on. It is `None` if the entry is neither a delivery nor a
    /// change of slices, or if there is no such entry.
    fn announcement(&self, number: usize) -> Option<Announcement<'_>>
        ensures { option_map (λ a. record { slot = a.slot; receiver = a.receiver; sender = a.sender; slices = a.slices.now }) result ≡ announced_at (entries self.now) number };
}
