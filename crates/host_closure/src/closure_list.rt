//! The members of a closure in the order in which they were found.

ghost use Rattle.std.specs.Prelude.{◌≡◌, ◌<◌, ◌^◌, ◌==◌, [], ◌∷◌, Some, length, map, slice_get, IfOk, OnOk, MatchOption, IsFalse};
ghost use Rattle.std.specs.List.{IsDistinct};
ghost use Rattle.scp_spec.specs.Sets.{among};
ghost use Rattle.host_closure.specs.Announcing.{member_names};
ghost use Rattle.host_closure.specs.Turns.{with_member};

use indexmap::IndexMap;
use scp_types::NodeId;
use std::alloc::{AllocError, Global};
use std::marker::Model;

/// The members of a closure, in the order in which they were found, each with the place of the member
/// that named it. Places count from 0; the first member names itself.
///
/// Members are found by hash, and the hasher has a fixed seed, so whoever picks many names can give them one hash. No
/// stranger can: the first name is the one that was asked for, and each other one stands in the slices of a member. A
/// stranger is only looked up.
#[derive(Drop)]
pub struct ClosureList {
    members: IndexMap<NodeId, usize>,
}

impl Model for ClosureList {
    ghost use Rattle.host_closure.specs.Announcing.{MemberList};

    ghost Value = { MemberList };

    ghost view = { λ a. a.members.entries };
}

impl ClosureList {
    /// The closure of a node that names nobody. An error says that it is out of memory.
    pub(crate) fn of(alloc: Global, node: &NodeId) -> Result<ClosureList, AllocError>
        ensures { IfOk result (λ c. c ≡ (node.now, 0) ∷ []) }
    {
        let mut members = IndexMap::new(alloc);
        members.insert(*node, 0)?;
        Ok(ClosureList { members })
    }

    /// Adds a name at the end, with the place of the member that names it, unless it is there. An error says that it is
    /// out of memory.
    pub(crate) fn add(&mut self, name: &NodeId, namer: usize) -> Result<(), AllocError>
        ensures { OnOk result (self.new ≡ with_member self.old name.now namer) }
    {
        if !self.members.contains_key(name) {
            self.members.insert(*name, namer)?;
        }
        Ok(())
    }

    /// How many members there are.
    pub fn len(&self) -> usize
        ensures value { result ≡ length self.now }
        ensures fits { result < 2 ^ 63 }
        ensures once { IsDistinct (λ x y. x == y) (member_names self.now) }
    {
        self.members.len()
    }

    /// Whether there is no member.
    pub fn is_empty(&self) -> bool
        ensures { result ≡ (length self.now == 0) }
    {
        self.members.len() == 0
    }

    /// The place of a node, if it is a member.
    pub fn place(&self, node: &NodeId) -> Option<usize>
        ensures { MatchOption result (IsFalse (among (member_names self.now) node.now)) (λ k. slice_get (member_names self.now) k ≡ Some node.now) }
    {
        self.members.get_index_of(node)
    }

    /// Whether a node is a member.
    pub fn has(&self, node: &NodeId) -> bool
        ensures { result ≡ among (member_names self.now) node.now }
    {
        self.members.contains_key(node)
    }

    /// The name of the member at a place, with the place of the member that named it. There is one exactly below the
    /// number of members.
    pub fn member(&self, place: usize) -> Option<(NodeId, usize)>
        ensures { result ≡ slice_get self.now place }
    {
        match self.members.get_index(place) {
            None => None,
            Some((name, namer)) => Some((*name, *namer)),
        }
    }

    /// The name of the member at a place. There is one exactly below the number of members.
    pub fn name(&self, place: usize) -> Option<NodeId>
        ensures { result ≡ slice_get (member_names self.now) place }
    {
        match self.members.get_index(place) {
            None => None,
            Some((name, _)) => Some(*name),
        }
    }
}
