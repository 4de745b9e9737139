//! Where the steps of two worlds that concern the members part.

ghost use Rattle.std.specs.Prelude.{◌≡◌, ◌≤◌, IfOk, MatchOption, length};
ghost use Rattle.scp_spec.specs.Isolation.{kept_of};
ghost use Rattle.scp_spec.specs.Sets.{among};
ghost use Rattle.scp_spec.specs.Verdicts.{IsFirstDifference};
ghost use Rattle.host_closure.specs.Announcing.{member_names};
ghost use Rattle.host_compare.specs.Steps.{IsKeptEntry, kept_numbers};

use crate::same_steps::is_same_at;
use crate::steps::is_kept_at;
use host_closure::ClosureList;
use host_journal::Journal;
use node_store::Shelf;
use std::alloc::{AllocError, Global};

/// The number of kept steps that agree before the first difference, if there is one. Each journal is gone through once.
/// An error says that it is out of memory.
pub fn first_difference<S: Shelf, T: Shelf>(
    alloc: Global,
    one: &Journal<S>,
    other: &Journal<T>,
    members: &ClosureList,
    slot: u64,
) -> Result<Option<usize>, AllocError>
    ensures { IfOk result (λ o. MatchOption o (kept_of (among (member_names members.now)) slot one.now.entries ≡ kept_of (among (member_names members.now)) slot other.now.entries) (IsFirstDifference (kept_of (among (member_names members.now)) slot one.now.entries) (kept_of (among (member_names members.now)) slot other.now.entries))) }
{
    let ones = kept_numbers(alloc, one, members, slot)?;
    let others = kept_numbers(alloc, other, members, slot)?;
    Ok(host_closure::first_difference(&ones, &others, |number, counterpart| {
        is_same_at(one, *number, other, *counterpart)
    }))
}

/// The numbers of the entries that are kept steps, ascending. An error says that it is out of memory.
fn kept_numbers<S: Shelf>(
    alloc: Global,
    journal: &Journal<S>,
    members: &ClosureList,
    slot: u64,
) -> Result<Vec<usize>, AllocError>
    ensures { IfOk result (λ v. v.items ≡ kept_numbers (among (member_names members.now)) slot journal.now.entries) }
{
    (0..journal.len())
        .filter(|number| is_kept_at(journal, *number, members, slot))
        .collect(alloc)
}

/// The number of the entry that is the kept step at a place, both from 0 on: it concerns the members at the slot, and
/// `place` entries before it do. There is none exactly if there are no more than `place` kept steps.
///
/// Kept are the openings and closings of the slot, and what happens there to a member, except what comes from a node
/// that is no member. If [`compare`](crate::compare) answers that inputs differ at a place, this is the entry of either
/// journal at which they part.
pub fn kept_entry<S: Shelf>(
    journal: &Journal<S>,
    members: &ClosureList,
    slot: u64,
    place: usize,
) -> Option<usize>
    ensures { MatchOption result (length (kept_of (among (member_names members.now)) slot journal.now.entries) ≤ place) (λ k. IsKeptEntry (among (member_names members.now)) slot journal.now.entries place k) }
{
    let mut kept = (0..journal.len()).filter(|number| is_kept_at(journal, *number, members, slot));
    kept.nth(place)
}
