//! Sets that block slices.

ghost use Rattle.std.specs.Prelude.{IsTrue, ◌↔◌};
ghost use Rattle.scp_spec.specs.Satisfaction.{Blocks};
ghost use Rattle.scp_spec.specs.Sets.{IsAscending, among};

use scp_slices::SliceFamily;
use scp_types::NodeId;

/// Whether the nodes block the slices: no set of nodes apart from them satisfies the slices, so nothing can
/// be agreed on against them (Mazières 2015, of v-blocking sets).
///
/// The nodes are ascending, none twice; nodes that the slices do not name make no difference. It takes
/// no memory and changes nothing.
pub fn blocks<F: SliceFamily>(slices: &F, nodes: &[NodeId]) -> bool
    requires { IsAscending nodes.now }
    ensures { IsTrue result ↔ Blocks F.sat slices.now (among nodes.now) }
{
    slices.blocked_by(nodes)
}
