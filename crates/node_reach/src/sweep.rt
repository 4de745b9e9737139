//! A sweep: nodes are found, and what each of them names is found in turn.
//!
//! An error of a function here says that it is out of memory.

ghost use Rattle.std.specs.Prelude.{◌≡◌, [], IfOk, OnOk, MatchOption};
ghost use Rattle.scp_spec.specs.Sets.{among, IsAscending};
ghost use Rattle.node_reach.specs.Sweeps.{AreNamesNoted, IsNameTaken, just, unknown};

use scp_slices::is_among;
use scp_types::NodeId;
use std::alloc::{AllocError, Global};
use std::collections::BTreeSet;
use std::marker::Model;

/// The nodes that were found, and those of them whose rows were not looked at yet. To find a name among the first, and
/// to add one, takes a number of steps that is logarithmic in their number.
#[derive(Drop)]
pub struct Sweep {
    found: BTreeSet<NodeId>,
    pending: Vec<NodeId>,
}

impl Model for Sweep {
    ghost use Rattle.node_reach.specs.Sweeps.{Swept};

    ghost Value = { Swept };

    ghost view = { λ a. record { found = a.found.keys; pending = a.pending.items } };
}

impl Sweep {
    /// A sweep that has found nothing.
    pub fn new(alloc: Global) -> Sweep
        ensures { result ≡ record { found = []; pending = [] } }
    {
        Sweep {
            found: BTreeSet::new(alloc),
            pending: Vec::new(alloc),
        }
    }

    /// Notes a node, which is pending unless it was found before.
    pub fn note(&mut self, node: &NodeId) -> Result<(), AllocError>
        requires { IsAscending self.old.found }
        ensures { OnOk result (AreNamesNoted self.old self.new (just node.now)) }
    {
        let Ok(is_new) = self.found.insert(*node) else {
            // Memory: the set has no room.
            return Err(AllocError);
        };
        if is_new {
            self.pending.push(*node)?;
        }
        Ok(())
    }

    /// Notes each of the nodes that is not known already. Those that are known ascend.
    pub fn note_all(&mut self, nodes: &[NodeId], known: &[NodeId]) -> Result<(), AllocError>
        requires found { IsAscending self.old.found }
        requires known { IsAscending known.now }
        ensures { OnOk result (AreNamesNoted self.old self.new (unknown known.now (among nodes.now))) }
    {
        for node in nodes {
            self.note_unknown(node, known)?;
        }
        Ok(())
    }

    fn note_unknown(&mut self, node: &NodeId, known: &[NodeId]) -> Result<(), AllocError>
        requires found { IsAscending self.old.found }
        requires known { IsAscending known.now }
        ensures { OnOk result (AreNamesNoted self.old self.new (unknown known.now (just node.now))) }
    {
        if is_among(known, node) {
            return Ok(());
        }
        self.note(node)
    }

    /// Takes a pending node, if there is one.
    pub fn take(&mut self) -> Option<NodeId>
        ensures { MatchOption result ((self.old.pending ≡ []) × (self.new ≡ self.old)) (λ u. IsNameTaken self.old self.new u) }
    {
        self.pending.pop()
    }

    /// All that was found, ascending. An error says that it is out of memory.
    pub fn nodes(&self, alloc: Global) -> Result<Vec<NodeId>, AllocError>
        ensures { IfOk result (λ v. v.items ≡ self.now.found) }
    {
        self.found.iter().copied().collect(alloc)
    }
}
