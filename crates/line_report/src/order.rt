//! Members in the order of their names.

ghost use Rattle.std.specs.Prelude.{◌≡◌, ℕ, IfOk};
ghost use Rattle.scp_spec.specs.Sets.{IsAscending, among};
ghost use Rattle.host_closure.specs.Announcing.{member_names};

use host_closure::ClosureList;
use scp_types::NodeId;
use std::alloc::{AllocError, Global};

/// The members of a closure, ascending. An error says that it is out of memory.
pub fn ascending_members(alloc: Global, members: &ClosureList) -> Result<Vec<NodeId>, AllocError>
    ensures ascending { IfOk result (λ v. IsAscending v.items) }
    ensures all { IfOk result (λ v. (u : ℕ) → among v.items u ≡ among (member_names members.now) u) }
{
    let mut names = Vec::new(alloc);
    for place in 0..members.len() {
        if let Some(name) = members.name(place) {
            names.push(name)?;
        }
    }
    names.sort_unstable();
    Ok(names)
}
