//! Whether two worlds host the same members.

ghost use Rattle.std.specs.Prelude.{◌≡◌, MatchOption, option_map};
ghost use Rattle.scp_spec.specs.Networks.{slices_of};
ghost use Rattle.host_closure.specs.Announcing.{member_names};
ghost use Rattle.host_closure.specs.Hosting.{AreHostedAlike, IsLeastUnlike};
ghost use Rattle.host_compare.specs.Meanings.{nodes_in};

use host_closure::{Announcements, ClosureList, is_hosted_alike, least_failing};
use host_journal::Journal;
use node_store::Shelf;
use scp_types::{Nested, NodeId};

/// The least member that the two worlds host unlike: only in one of them, or with other slices. A world without the
/// network hosts nobody there.
pub fn least_unlike<S: Shelf, T: Shelf>(
    one: &Journal<S>,
    other: Option<&Journal<T>>,
    members: &ClosureList,
) -> Option<NodeId>
    ensures { MatchOption result (AreHostedAlike one.now.config.nodes (nodes_in (option_map (λ j. j.now) other.entry)) (member_names members.now)) (λ u. IsLeastUnlike one.now.config.nodes (nodes_in (option_map (λ j. j.now) other.entry)) (member_names members.now) u) }
{
    least_failing(members, |name| {
        is_hosted_alike(one.slices(name), slices_in(other, name))
    })
}

/// The configured slices of a node in a world, if it has the network and hosts the node there.
fn slices_in<'a, S: Shelf>(journal: Option<&'a Journal<S>>, node: &NodeId) -> Option<&'a Nested>
    ensures { option_map (λ q. q.now) result ≡ slices_of (nodes_in (option_map (λ j. j.now) journal.entry)) node.now }
{
    match journal {
        None => None,
        Some(journal) => journal.slices(node),
    }
}
