//! Sets of nodes as ascending slices.

ghost use Rattle.std.specs.Prelude.{◌≡◌};
ghost use Rattle.scp_spec.specs.Sets.{among, IsAscending};

use scp_types::NodeId;

/// Among this many nodes or fewer each is looked at: to halve them again and again would cost more.
const FEW_NODES: usize = 8;

/// Whether a node is in a set, an ascending slice, by a binary search if they are many.
pub fn is_among(nodes: &[NodeId], node: &NodeId) -> bool
    requires { IsAscending nodes.now }
    ensures { result ≡ among nodes.now node.now }
{
    if nodes.len() <= FEW_NODES {
        is_among_few(nodes, node)
    } else {
        nodes.binary_search(node).is_ok()
    }
}

/// Whether a node is one of these, each looked at.
fn is_among_few(nodes: &[NodeId], node: &NodeId) -> bool
    ensures { result ≡ among nodes.now node.now }
{
    for other in nodes {
        if *other == *node {
            return true;
        }
    }
    false
}
