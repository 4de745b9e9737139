//! Hashes that were drawn.

ghost use Rattle.std.specs.Prelude.{◌≡◌, ◌≤◌, length};
ghost use Rattle.std.specs.List.{All};
ghost use Rattle.scp_spec.specs.Leaders.{hash};
ghost use Rattle.node_leaders.specs.Drawing.{IsHashed};
ghost use Rattle.node_leaders.specs.Purposes.{tag_of};

use crate::draw::{Draw, Purpose};
use scp_types::NodeId;
use std::alloc::Global;
use std::marker::Model;

/// So many hashes of a purpose are kept at most.
const MOST_KEPT: usize = 1024;

/// A name with its hash.
#[derive(Clone, Copy)]
pub(crate) struct Hashed {
    pub(crate) node: NodeId,
    pub(crate) hash: u64,
}

/// The hashes that were drawn in the round that was asked for last. The nodes of a network mostly name the same ones, and
/// most are in the same round of a slot, so a hash is drawn once for all that share these.
///
/// Contracts see it as its round: whoever leads is the same, whatever was drawn before.
///
/// For example, what is kept of the name 5 are hashes of its own.
#[derive(Drop)]
pub struct Draws {
    draw: Draw,
    /// By which nodes are neighbours, ascending by name.
    nearnesses: Vec<Hashed>,
    /// By which neighbours are ordered, ascending by name.
    priorities: Vec<Hashed>,
}

impl Model for Draws {
    ghost use Rattle.std.specs.Coded.{codes};
    ghost use Rattle.std.specs.List.{All};
    ghost use Rattle.node_leaders.specs.Drawing.{IsHashed};
    ghost use Rattle.node_leaders.specs.declared.draw.Draw.{Draw};

    ghost Value = { Draw };

    ghost coded = { Prim.hlevel codes };

    ghost view = { λ d. d.draw };

    ghost invariant = { λ d. All (IsHashed d.draw.slot 1 d.draw.round) d.nearnesses.items × All (IsHashed d.draw.slot 2 d.draw.round) d.priorities.items };
}

impl Draws {
    /// Nothing is drawn. It takes no memory.
    pub fn new(alloc: Global) -> Draws {
        Draws {
            draw: Draw { slot: 0, round: 0 },
            nearnesses: Vec::new(alloc),
            priorities: Vec::new(alloc),
        }
    }

    /// Turns to a round. What was drawn for another is forgotten.
    pub(crate) fn turn_to(&mut self, draw: Draw)
        ensures { self.new ≡ draw }
    {
        if self.draw.slot != draw.slot || self.draw.round != draw.round {
            self.nearnesses.clear();
            self.priorities.clear();
            self.draw = draw;
        }
    }

    /// A hash of the round. Where 1,024 are kept already, or there is no memory, it is drawn each time.
    pub(crate) fn hash(&mut self, purpose: Purpose, node: &NodeId) -> u64
        ensures hash { result ≡ hash self.old.slot (tag_of purpose) self.old.round node.now }
        ensures same { self.new ≡ self.old }
    {
        let draw = self.draw;
        match purpose {
            Purpose::Neighbour => kept_hash(&mut self.nearnesses, draw, purpose, node),
            Purpose::Priority => kept_hash(&mut self.priorities, draw, purpose, node),
        }
    }
}

/// A hash of a round, which is one of those that are kept, or becomes one if there is room.
fn kept_hash(kept: &mut Vec<Hashed>, draw: Draw, purpose: Purpose, node: &NodeId) -> u64
    requires { All (IsHashed draw.slot (tag_of purpose) draw.round) kept.old.items }
    ensures hash { result ≡ hash draw.slot (tag_of purpose) draw.round node.now }
    ensures kept { All (IsHashed draw.slot (tag_of purpose) draw.round) kept.new.items }
{
    let at = place(kept, node);
    if let Some(there) = kept.get(at) {
        if there.node == *node {
            return there.hash;
        }
    }
    let hash = draw.hash(purpose, node);
    if kept.len() < MOST_KEPT {
        let _ = kept.insert(at, Hashed { node: *node, hash });
    }
    hash
}

/// Where a name stands, or where it would.
fn place(kept: &[Hashed], node: &NodeId) -> usize
    ensures { result ≤ length kept.now }
{
    match kept.binary_search_by_key(node, |hashed| hashed.node) {
        Ok(at) | Err(at) => at,
    }
}
