//! Envelopes that leave a reach as it is.
//!
//! An error of a function here says that it is out of memory.

ghost use Rattle.std.specs.Prelude.{◌≡◌, ◌↔◌, ◌||◌, ℕ, IfOk, IsTrue, List};
ghost use Rattle.scp_types.specs.Trees.{Slices};
ghost use Rattle.scp_spec.specs.Reach.{IsReach};
ghost use Rattle.scp_spec.specs.Rows.{with_row};
ghost use Rattle.scp_spec.specs.Satisfaction.{names};
ghost use Rattle.scp_spec.specs.Sets.{AreWithin, IsAscending, also, among, within};
ghost use Rattle.node_reach.specs.Keeping.{DropsNone, kept_names};
ghost use Rattle.node_reach.specs.Widening.{IsNarrow};

use node_store::Places;
use node_table::Rows;
use scp_slices::{SliceFamily, is_among};
use scp_types::{Envelope, Nested, NodeId, push_names};
use std::alloc::{AllocError, Global};

/// Whether the envelope drops no name of the sender's row of that kind but such as the node reaches by itself: each
/// name of that row is in the envelope's slices too, or is the node or a name of its configured slices. It drops none
/// if there is no such row.
///
/// An envelope that drops none and names only reached nodes leaves the reach as it is once the table takes it. One that
/// drops none and is of a reached node adds to the reach whom it leads to. The answer costs some searches by name,
/// however many rows there are.
#[tactic(auto, using(crate::proofs::Dropped::none_dropped, crate::proofs::Dropped::dropped_found, crate::proofs::Dropped::reach_stays))]
pub fn drops_none<S: Places>(
    alloc: Global,
    node: &NodeId,
    slices: &Nested,
    table: &Rows<'_, S>,
    envelope: &Envelope,
) -> Result<bool, AllocError>
    ensures exactly { IfOk result (λ b. IsTrue b ↔ DropsNone node.now slices.now table.now envelope.now) }
    ensures narrow { IfOk result (λ b. IsTrue b → (reach : List ℕ) → IsTrue (among reach envelope.now.sender) → IsReach node.now slices.now table.now reach → IsNarrow node.now slices.now (with_row envelope.now table.now) envelope.now.sender reach) }
    ensures stays { IfOk result (λ b. IsTrue b → (reach : List ℕ) → AreWithin (among (names envelope.now.slices)) (among reach) → IsReach node.now slices.now table.now reach → IsReach node.now slices.now (with_row envelope.now table.now) reach) }
{
    match table.row(envelope.sender(), envelope.body().kind()) {
        None => Ok(true),
        Some(row) => {
            let kept = keeps_names(alloc, node, slices, row.slices(), envelope.slices())?;
            Ok(kept)
        }
    }
}

/// Whether each name of the old slices is in the new ones too, or is the node or a name of its own slices.
#[tactic(auto, using(crate::proofs::Dropped::kept_read))]
fn keeps_names(
    alloc: Global,
    node: &NodeId,
    own: &Nested,
    old: &Nested,
    new: &Nested,
) -> Result<bool, AllocError>
    ensures { IfOk result (λ b. b ≡ within (names old.now) (λ u. among (names new.now) u || also node.now (among (names own.now)) u)) }
{
    let mut old_names = Vec::new(alloc);
    push_names(old.set(), &mut old_names)?;
    let new_names = new.names(alloc)?;
    let own_names = own.names(alloc)?;
    Ok(are_in_either(&old_names, &new_names, node, &own_names))
}

/// Whether each of the names is in `new` or `own`, or is the node.
fn are_in_either(names: &[NodeId], new: &[NodeId], node: &NodeId, own: &[NodeId]) -> bool
    requires new { IsAscending new.now }
    requires own { IsAscending own.now }
    ensures { result ≡ within names.now (λ u. among new.now u || also node.now (among own.now) u) }
{
    for name in names {
        if !is_in_either(name, new, node, own) {
            return false;
        }
    }
    true
}

/// Whether a name is in `new` or `own`, or is the node.
fn is_in_either(name: &NodeId, new: &[NodeId], node: &NodeId, own: &[NodeId]) -> bool
    requires new { IsAscending new.now }
    requires own { IsAscending own.now }
    ensures { result ≡ (among new.now name.now || also node.now (among own.now) name.now) }
{
    is_among(new, name) || *node == *name || is_among(own, name)
}
