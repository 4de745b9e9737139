//! What slices of any kind mean.

ghost use Rattle.std.specs.Prelude.{◌≡◌, ℕ, List, Bool, Option, IfOk, IsTrue, ◌↔◌};
ghost use Rattle.scp_spec.specs.Sets.{Names, among, AreWithin, IsAscending};
ghost use Rattle.scp_spec.specs.Satisfaction.{Blocks};
ghost use Rattle.scp_spec.specs.Weights.{Fraction};

use crate::weight::Weight;
use scp_types::NodeId;
use std::alloc::{AllocError, Global};

/// Slices of any kind. A set of nodes is an ascending slice.
///
/// The ghost members say what the slices mean, and the laws are all that generic code knows of them: a quorum test
/// rests on `monotone`, a cut to a region on `local`, a blocking test on `dual`.
pub trait SliceFamily {
    /// Whether a set of nodes satisfies the slices.
    ghost sat: { Self → Names → Bool };

    /// Whether a set of nodes blocks the slices.
    ghost blocked: { Self → Names → Bool };

    /// The nodes that the slices name.
    ghost names: { Self → List ℕ };

    /// How much a node weighs in the slices.
    ghost weight: { Self → ℕ → Option Fraction };

    /// Whether a set of nodes satisfies the slices (the Stellar Consensus Protocol draft, of nested
    /// slices).
    fn satisfied_by(&self, nodes: &[NodeId]) -> bool
        requires { IsAscending nodes.now }
        ensures { result ≡ sat self.now (among nodes.now) };

    /// Whether a set of nodes blocks the slices: no set apart from it satisfies them (Mazières 2015,
    /// of v-blocking sets).
    ///
    /// The answer is both the count's, `blocked`, and exactly the statement about all sets apart.
    fn blocked_by(&self, nodes: &[NodeId]) -> bool
        requires { IsAscending nodes.now }
        ensures counted { result ≡ blocked self.now (among nodes.now) }
        ensures exactly { IsTrue result ↔ Blocks sat self.now (among nodes.now) };

    /// All nodes that the slices name, ascending, none twice. An error says that it is out of memory.
    fn names(&self, alloc: Global) -> Result<Vec<NodeId>, AllocError>
        ensures ascending { IfOk result (λ v. IsAscending v.items) }
        ensures all { IfOk result (λ v. (u : ℕ) → among v.items u ≡ among (names self.now) u) };

    /// How much a node weighs: for a node that the slices name, the product of threshold by count
    /// over the sets that contain it, from the outermost down; `None` for any other. It takes no
    /// memory (the Stellar Consensus Protocol draft, of the weight of a node).
    fn weight(&self, node: &NodeId) -> Option<Weight>
        ensures { result ≡ weight self.now node.now };

    /// A greater set still satisfies.
    ghost monotone: { (q : Self) (a b : Names) → AreWithin a b → IsTrue (sat q a) → IsTrue (sat q b) };

    /// Sets that agree on the names get one answer.
    ghost local: { (q : Self) (a b : Names) → ((u : ℕ) → IsTrue (among (names q) u) → a u ≡ b u) → sat q a ≡ sat q b };

    /// A set blocks exactly when no set apart from it satisfies.
    ghost dual: { (q : Self) (b : Names) → IsTrue (blocked q b) ↔ Blocks sat q b };
}
