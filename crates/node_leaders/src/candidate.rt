//! Neighbours that may lead.

ghost use Rattle.std.specs.Prelude.{◌≡◌, ◌&&◌, ◌||◌, ◌==◌, nat_lt, if◌then◌else◌};
ghost use Rattle.scp_spec.specs.Leaders.{hash, beats};
ghost use Rattle.node_leaders.specs.Walk.{better, is_drawn};

use crate::draw::{Purpose, is_below};
use crate::draws::Draws;
use scp_slices::Weight;
use scp_types::NodeId;

/// A neighbour and its priority in a round.
#[derive(Clone, Copy)]
pub(crate) struct Candidate {
    pub(crate) priority: u64,
    pub(crate) node: NodeId,
}

impl Candidate {
    /// A node, with its priority in the round.
    pub(crate) fn new(draws: &mut Draws, node: &NodeId) -> Candidate
        ensures node { result.node ≡ node.now }
        ensures priority { result.priority ≡ hash draws.old.slot 2 draws.old.round node.now }
        ensures same { draws.new ≡ draws.old }
    {
        Candidate {
            priority: draws.hash(Purpose::Priority, node),
            node: *node,
        }
    }

    /// Whether it beats another candidate: its priority is greater, or it is the same and its name is
    /// greater.
    fn beats(&self, other: &Candidate) -> bool
        ensures { result ≡ (nat_lt other.now.priority self.now.priority || ((self.now.priority == other.now.priority) && nat_lt other.now.node self.now.node)) }
    {
        self.priority > other.priority || self.priority == other.priority && self.node > other.node
    }

    /// The better of this candidate and a node of this weight, if that is a neighbour. Whether it is one is asked only
    /// of a node that would be better: few are, so mostly one hash a name is drawn.
    pub(crate) fn or_node(self, draws: &mut Draws, node: &NodeId, weight: Weight) -> Candidate
        requires { self.priority ≡ hash draws.old.slot 2 draws.old.round self.node }
        ensures node { result.node ≡ better (is_drawn draws.old.slot draws.old.round) (beats draws.old.slot draws.old.round) node.now weight self.node }
        ensures priority { result.priority ≡ hash draws.old.slot 2 draws.old.round result.node }
        ensures same { draws.new ≡ draws.old }
    {
        if *node == self.node {
            return self;
        }
        let other = Candidate::new(draws, node);
        if other.beats(&self) && is_below(draws.hash(Purpose::Neighbour, node), weight) {
            other
        } else {
            self
        }
    }
}
