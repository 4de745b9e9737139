//! The closure of a node in a journal.

ghost use Rattle.std.specs.Prelude.{IfOk, map};
ghost use Rattle.scp_spec.specs.Sets.{IsAscending};
ghost use Rattle.host_closure.specs.Announcing.{ClosureListsAreOne, IsClosureList};

use crate::announcing::Announcements;
use crate::closure_list::ClosureList;
use crate::deliveries::Deliveries;
use crate::turns::Turns;
use scp_types::NodeId;
use std::alloc::{AllocError, Global};

/// All nodes that a node comes to depend on at a slot in a whole journal (this host's profile). These are the node
/// itself, and the names of the configured slices of each hosted member. So are the names of all slices that a hosted
/// member was given at the slot, and of those that an applied delivery from a member to a member announces. An error
/// says that it is out of memory.
///
/// The node comes first, and each later member has an earlier one that names it. Members have their turns by place, in
/// sweeps, until a whole sweep adds none. In its turn a member adds the missing names that it gives, ascending. Of its
/// announcements those count that were made to members of that moment.
///
/// Each announcement is looked at a fixed number of times, however many sweeps there are, and its names are read at
/// most once. One to a node waits until that is a member, and then for the next turn of its sender. A turn for which
/// none is ready takes a fixed time. There are at most two sweeps more than hosted members.
pub fn closure<J: Announcements>(
    alloc: Global,
    journal: &J,
    slot: u64,
    node: &NodeId,
) -> Result<ClosureList, AllocError>
    ensures { IfOk result (λ c. IsClosureList (J.nodes journal.now) slot node.now (J.entries journal.now) c) }
{
    hosted_ascend(journal, node);
    let deliveries = Deliveries::of(alloc, journal, slot)?;
    let turns = Turns {
        journal,
        slot,
        deliveries: &deliveries,
    };
    turns.closure_of(alloc, node)
}

/// A law: a closure has only one list.
#[tactic(auto, using(crate::proofs::OneOrder::closure_lists_are_one))]
pub fn closure_lists_are_one()
    ensures { ClosureListsAreOne }
{}

/// A law: the names of a journal's hosted nodes ascend, so who looks a node up has seen all its slices.
fn hosted_ascend<J: Announcements>(journal: &J, node: &NodeId)
    ensures { IsAscending (map (λ h. h.name) (J.nodes journal.now)) }
{
    journal.slices(node);
}
