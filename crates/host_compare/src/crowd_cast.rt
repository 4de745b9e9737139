//! Whether two networks host the same members.

ghost use Rattle.std.specs.Prelude.{◌≡◌, MatchOption, option_map};
ghost use Rattle.host_closure.specs.Announcing.{member_names};
ghost use Rattle.scp_spec.specs.Networks.{slices_of};
ghost use Rattle.host_closure.specs.Hosting.{AreHostedAlike, IsLeastUnlike};

use host_closure::{ClosureList, is_hosted_alike, least_failing};
use host_config::HostedNode;
use scp_types::{Nested, NodeId};

/// The least member that the two networks host unlike: only in one of them, or with other slices.
pub(crate) fn least_unlike(
    one: &[HostedNode],
    other: &[HostedNode],
    members: &ClosureList,
) -> Option<NodeId>
    ensures { MatchOption result (AreHostedAlike one.now other.now (member_names members.now)) (IsLeastUnlike one.now other.now (member_names members.now)) }
{
    least_failing(members, |name| {
        is_hosted_alike(slices_among(one, name), slices_among(other, name))
    })
}

/// The slices of a node, if it is one of these.
pub(crate) fn slices_among<'a>(nodes: &'a [HostedNode], node: &NodeId) -> Option<&'a Nested>
    ensures { option_map (λ q. q.now) result ≡ slices_of nodes.now node.now }
{
    match nodes {
        [] => None,
        [hosted, rest @ ..] => {
            if hosted.name().is_same(node) {
                Some(hosted.slices())
            } else {
                slices_among(rest, node)
            }
        }
    }
}
