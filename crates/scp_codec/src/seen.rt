//! The names so far of slices that are being read.

ghost use Rattle.std.specs.Prelude.{◌≡◌, ◌∷◌, ◌++◌, [], true, not, length, if◌then◌else◌, IfOk, MatchOption};
ghost use Rattle.scp_codec.specs.Faults.{is_among};
ghost use Rattle.scp_codec.specs.FoundNames.{IsPlace};
ghost use Rattle.scp_types.specs.Trees.{rises};

use scp_types::NodeId;
use std::alloc::{AllocError, Global};
use std::marker::Model;

/// Names in the order in which they came, none twice, and again in ascending order, in which a binary search finds
/// one. Contracts see the first list.
///
/// For example, if C, A and B came in this order, the lists are C, A, B and A, B, C.
#[derive(Drop)]
pub(crate) struct SeenNames {
    in_turn: Vec<NodeId>,
    ascending: Vec<NodeId>,
}

impl Model for SeenNames {
    ghost use Rattle.std.specs.Prelude.{ℕ, List};
    ghost use Rattle.scp_codec.specs.FoundNames.{AreFound};

    ghost Value = { List ℕ };

    ghost view = { λ s. s.in_turn.items };

    ghost invariant = { λ s. AreFound s.in_turn.items s.ascending.items };
}

impl SeenNames {
    /// No names. It takes no memory.
    pub(crate) fn new(alloc: Global) -> SeenNames
        ensures { result ≡ [] }
    {
        SeenNames {
            in_turn: Vec::new(alloc),
            ascending: Vec::new(alloc),
        }
    }

    /// Makes room for so many names more. An error says that it is out of memory.
    pub(crate) fn reserve(&mut self, count: usize) -> Result<(), AllocError>
        ensures { self.new ≡ self.old }
    {
        self.in_turn.reserve(count)?;
        self.ascending.reserve(count)
    }

    pub(crate) fn len(&self) -> usize
        ensures { result ≡ length self.now }
    {
        self.in_turn.len()
    }

    /// Adds a name behind all others if it is not among them, and says whether it was added. An error says that it is
    /// out of memory.
    pub(crate) fn add(&mut self, name: NodeId) -> Result<bool, AllocError>
        ensures is_new { IfOk result (λ b. b ≡ not (is_among self.old name)) }
        ensures added { IfOk result (λ b. self.new ≡ (if b then self.old ++ name ∷ [] else self.old)) }
    {
        let Some(place) = missing_at(&self.ascending, name) else {
            return Ok(false);
        };
        self.in_turn.reserve(1)?;
        self.ascending.insert(place, name)?;
        self.in_turn.push_reserved(name);
        Ok(true)
    }
}

/// Where a name is to stand among ascending ones, unless it is one of them.
fn missing_at(ascending: &[NodeId], name: NodeId) -> Option<usize>
    requires { rises ascending.now ≡ true }
    ensures { MatchOption result (is_among ascending.now name ≡ true) (IsPlace ascending.now name) }
{
    // Names mostly come in ascending order.
    let Some(last) = ascending.last() else {
        return Some(0);
    };
    if *last < name {
        return Some(ascending.len());
    }
    match ascending.binary_search(&name) {
        Ok(_) => None,
        Err(place) => Some(place),
    }
}
