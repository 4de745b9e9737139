//! What each hosted member gave out.
//!
//! An error of a function here says that it is out of memory.

ghost use Rattle.std.specs.Prelude.{◌≡◌, [], IfOk, OnOk, length, map};
ghost use Rattle.scp_spec.specs.Sets.{IsAscending, among};
ghost use Rattle.host_closure.specs.Announcing.{member_names};
ghost use Rattle.host_compare.specs.OutLists.{IsNotedAt, hosted_in, outs_of_each};

use crate::steps::node_of_entry;
use crate::verdict::{MemberOuts, OutsOfMembers};
use host_closure::ClosureList;
use host_config::HostedNode;
use host_journal::Journal;
use node_store::Shelf;
use scp_types::NodeId;
use std::alloc::{AllocError, Global};

/// The entry of a journal that has this number, if there is one.
#[derive(Drop)]
struct EntryOf<'a, S: Shelf> {
    journal: &'a Journal<S>,
    number: usize,
}

/// The hosted nodes that are members, in the order of the nodes.
pub fn hosted_members(
    alloc: Global,
    nodes: &[HostedNode],
    members: &ClosureList,
) -> Result<Vec<NodeId>, AllocError>
    ensures { IfOk result (λ v. v.items ≡ hosted_in (among (member_names members.now)) nodes.now) }
{
    let mut names = Vec::new(alloc);
    for hosted in nodes {
        if members.has(hosted.name()) {
            names.push(*hosted.name())?;
        }
    }
    Ok(names)
}

/// What each of these nodes gave out at the slot. The journal is gone through once.
pub fn outs_of_each<S: Shelf>(
    alloc: Global,
    journal: &Journal<S>,
    slot: u64,
    names: &[NodeId],
) -> Result<OutsOfMembers, AllocError>
    requires { IsAscending names.now }
    ensures { IfOk result (λ v. v ≡ outs_of_each slot journal.now.entries names.now) }
{
    let mut list = nothing_of_each(alloc, names)?;
    for number in 0..journal.len() {
        let entry = EntryOf { journal, number };
        note(alloc, &mut list, names, &entry, slot)?;
    }
    Ok(OutsOfMembers::of(list))
}

/// Adds what an entry gave out to its node, if it is one of a node, and that is one of the names.
fn note<S: Shelf>(
    alloc: Global,
    list: &mut Vec<MemberOuts>,
    names: &[NodeId],
    entry: &EntryOf<'_, S>,
    slot: u64,
) -> Result<(), AllocError>
    requires ascending { IsAscending names.now }
    requires same { length list.old.items ≡ length names.now }
    ensures { OnOk result (IsNotedAt slot entry.now.journal.now.entries entry.now.number names.now list.old.items list.new.items) }
{
    let Some(node) = node_of_entry(entry.journal, entry.number, slot) else {
        return Ok(());
    };
    let Ok(place) = names.binary_search(&node) else {
        return Ok(());
    };
    let member = &mut list[place];
    member.extend(alloc, entry.journal, entry.number)?;
    Ok(())
}

fn nothing_of_each(alloc: Global, names: &[NodeId]) -> Result<Vec<MemberOuts>, AllocError>
    ensures { IfOk result (λ v. v.items ≡ map (λ u. (u, [])) names.now) }
{
    let mut list = Vec::new(alloc);
    for name in names {
        list.push(MemberOuts::new(alloc, *name))?;
    }
    Ok(list)
}
