//! Who is hosted, and who blocks whom.

ghost use Rattle.std.specs.Prelude.{◌≡◌, ◌&&◌, [], ◌∷◌, IfOk, filter};
ghost use Rattle.scp_spec.specs.Sets.{IsAscending, among};
ghost use Rattle.scp_spec.specs.Satisfaction.{is_blocked};
ghost use Rattle.host_closure.specs.Announcing.{slices_then};
ghost use Rattle.line_report.specs.Reports.{AreBlockers, AreHosted};

use crate::report::Blockers;
use host_closure::Announcements;
use scp_slices::{SliceFamily, is_among};
use scp_types::{Nested, NodeId};
use std::alloc::{AllocError, Global};

/// Those of the names that are hosted, each with those of the names that block its slices by themselves. An error says
/// that it is out of memory.
pub fn hosted_members<J: Announcements>(
    alloc: Global,
    journal: &J,
    slot: u64,
    names: &[NodeId],
) -> Result<Vec<Blockers>, AllocError>
    requires { IsAscending names.now }
    ensures { IfOk result (λ v. AreHosted (slices_then (J.nodes journal.now) slot (J.entries journal.now)) (among names.now) v.items) }
{
    let mut hosted = Vec::new(alloc);
    for node in names {
        if let Some(slices) = journal.slices_then(node, slot) {
            let names = lone_blockers(alloc, slices, names)?;
            hosted.push(Blockers { node: *node, names })?;
        }
    }
    Ok(hosted)
}

/// Those of the names that block the slices by themselves. Only names in the slices can, so it asks of no other one.
fn lone_blockers(
    alloc: Global,
    slices: &Nested,
    names: &[NodeId],
) -> Result<Vec<NodeId>, AllocError>
    requires { IsAscending names.now }
    ensures { IfOk result (λ v. AreBlockers slices.now (among names.now) v.items) }
{
    let _set = slices.set();
    let named = slices.names(alloc)?;
    let lone = blockers_in(alloc, slices, names, &named)?;
    Ok(lone)
}

/// Those of the names in the slices that are among `names`, and block the slices by themselves.
fn blockers_in(
    alloc: Global,
    slices: &Nested,
    names: &[NodeId],
    named: &[NodeId],
) -> Result<Vec<NodeId>, AllocError>
    requires { IsAscending names.now }
    ensures { IfOk result (λ v. v.items ≡ filter (λ w. among names.now w && is_blocked slices.now (among (w ∷ []))) named.now) }
{
    let mut lone = Vec::new(alloc);
    for name in named {
        if blocks_alone(slices, names, name) {
            lone.push(*name)?;
        }
    }
    Ok(lone)
}

/// Whether a name is one of these, and blocks the slices by itself.
fn blocks_alone(slices: &Nested, names: &[NodeId], name: &NodeId) -> bool
    requires { IsAscending names.now }
    ensures { result ≡ (among names.now name.now && is_blocked slices.now (among (name.now ∷ []))) }
{
    is_among(names, name) && slices.blocked_by(&[*name])
}
