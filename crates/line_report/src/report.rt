//! What a report says.

ghost use Rattle.std.specs.Prelude.{◌≡◌, IfOk};
ghost use Rattle.scp_spec.specs.Sets.{among};
ghost use Rattle.host_closure.specs.Announcing.{IsClosureList, member_names, slices_then};
ghost use Rattle.line_report.specs.Reports.{AreHosted};

use crate::hosted::hosted_members;
use crate::order::ascending_members;
use host_closure::{Announcements, ClosureList, closure};
use scp_types::NodeId;
use std::alloc::{AllocError, Global};
use std::marker::Model;

/// A hosted member, and the members that block its slices by themselves, ascending: no set without such a member
/// satisfies them. It may be one of them itself.
#[derive(Drop)]
pub struct Blockers {
    pub(crate) node: NodeId,
    pub(crate) names: Vec<NodeId>,
}

impl Model for Blockers {
    ghost use Rattle.std.specs.Prelude.{ℕ, List};

    ghost Value = { ℕ × List ℕ };

    ghost view = { λ a. (a.node, a.names.items) };
}

impl Blockers {
    /// The hosted member.
    pub fn node(&self) -> &NodeId
        ensures { result.now ≡ self.now.0 }
    {
        &self.node
    }

    /// The members that block its slices by themselves, ascending.
    pub fn names(&self) -> &[NodeId]
        ensures { result.now ≡ self.now.1 }
    {
        &self.names
    }
}

/// The closure of a node in a journal, and who blocks whom in it.
#[derive(Drop)]
pub struct ClosureReport {
    members: ClosureList,
    hosted: Vec<Blockers>,
}

impl Model for ClosureReport {
    ghost use Rattle.line_report.specs.Reports.{Shown};

    ghost Value = { Shown };

    ghost view = { λ a. record { members = a.members; hosted = a.hosted.items } };
}

impl ClosureReport {
    /// The members in the order in which they were found, each with the place of the one that named it
    /// first.
    pub fn members(&self) -> &ClosureList
        ensures { result.now ≡ self.now.members }
    {
        &self.members
    }

    /// The hosted members, ascending, each with those who block it by themselves.
    pub fn blockers(&self) -> &[Blockers]
        ensures { result.now ≡ self.now.hosted }
    {
        &self.hosted
    }
}

/// The closure of a node at a slot of a journal, and which single members block whose slices. The slices are those
/// after all entries: those that a hosted member was given last since the slot was opened, else the configured ones. An
/// error says that it is out of memory.
///
/// Besides what the closure takes, it sorts the members, and asks the journal once for the slices of each. For a hosted
/// member it tests of each name in them whether it blocks them by itself: at most 256 tests of at most 256 names.
pub fn report_of<J: Announcements>(
    alloc: Global,
    journal: &J,
    slot: u64,
    node: &NodeId,
) -> Result<ClosureReport, AllocError>
    ensures members { IfOk result (λ r. IsClosureList (J.nodes journal.now) slot node.now (J.entries journal.now) r.members) }
    ensures hosted { IfOk result (λ r. AreHosted (slices_then (J.nodes journal.now) slot (J.entries journal.now)) (among (member_names r.members)) r.hosted) }
{
    let members = closure(alloc, journal, slot, node)?;
    let names = ascending_members(alloc, &members)?;
    let hosted = hosted_members(alloc, journal, slot, &names)?;
    Ok(ClosureReport { members, hosted })
}
