//! Who has which slices.

ghost use Rattle.std.specs.Prelude.{◌≡◌, ℕ, Option, option_copied};

use crate::SliceFamily;
use scp_types::NodeId;

/// A partial map from names to slices. A node without known slices is in no quorum.
pub trait SlicesOf {
    /// The kind of slices.
    type Family: SliceFamily;

    /// The slices of each node that has any.
    ghost slices_at: { Self → ℕ → Option Self.Family };

    /// The slices of a node, if they are known.
    fn slices(&self, node: &NodeId) -> Option<&Self::Family>
        ensures { option_copied result ≡ slices_at self.now node.now };
}
