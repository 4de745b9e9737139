//! What a comparison answers.

ghost use Rattle.std.specs.Prelude.{◌≡◌, ◌++◌, [], OnOk};
ghost use Rattle.host_journal.specs.Lending.{outs_of_entry};

use host_journal::Journal;
use node_store::Shelf;
use scp_types::{NodeId, Out};
use std::alloc::{AllocError, Global};
use std::marker::Model;

/// A hosted member with what it gave out at the slot.
#[derive(Drop)]
pub struct MemberOuts {
    name: NodeId,
    outs: Vec<Out>,
}

impl Model for MemberOuts {
    ghost use Rattle.std.specs.Prelude.{ℕ, List};
    ghost use Rattle.std.specs.Coded.{codes};
    ghost use Rattle.scp_types.specs.Trees.{members_code};
    ghost use Rattle.scp_types.specs.declared.event.Out.{Out};

    ghost Value = { ℕ × List Out };

    ghost coded = { Prim.hlevel (codes, members_code) };

    ghost view = { λ a. (a.name, a.outs.items) };
}

impl MemberOuts {
    /// A member that has given out nothing yet.
    pub(crate) fn new(alloc: Global, name: NodeId) -> MemberOuts
        ensures { result ≡ (name, []) }
    {
        MemberOuts {
            name,
            outs: Vec::new(alloc),
        }
    }

    /// Adds what the entry of this number gave out; nothing past the last entry. An error says that it is out of
    /// memory.
    pub(crate) fn extend<S: Shelf>(
        &mut self,
        alloc: Global,
        journal: &Journal<S>,
        number: usize,
    ) -> Result<(), AllocError>
        ensures { OnOk result (self.new ≡ (self.old.0, self.old.1 ++ outs_of_entry journal.now.entries number)) }
    {
        journal.push_outs(alloc, number, &mut self.outs)
    }

    /// Its name.
    pub fn name(&self) -> &NodeId
        ensures { result.now ≡ self.now.0 }
    {
        &self.name
    }

    /// What it gave out, in order.
    pub fn outs(&self) -> &[Out]
        ensures { result.now ≡ self.now.1 }
    {
        &self.outs
    }
}

/// The hosted members of a closure, ascending, each with what it gave out at the slot.
#[derive(Drop)]
pub struct OutsOfMembers {
    members: Vec<MemberOuts>,
}

impl Model for OutsOfMembers {
    ghost use Rattle.std.specs.Prelude.{ℕ, List};
    ghost use Rattle.std.specs.Coded.{codes};
    ghost use Rattle.scp_types.specs.Trees.{members_code};
    ghost use Rattle.scp_types.specs.declared.event.Out.{Out};

    ghost Value = { List (ℕ × List Out) };

    ghost coded = { Prim.hlevel (codes, members_code) };

    ghost view = { λ a. a.members.items };
}

impl OutsOfMembers {
    pub(crate) fn of(members: Vec<MemberOuts>) -> OutsOfMembers
        ensures { result ≡ members.items }
    {
        OutsOfMembers { members }
    }

    /// The members, ascending.
    pub fn as_slice(&self) -> &[MemberOuts]
        ensures { result.now ≡ self.now }
    {
        &self.members
    }
}

/// The verdict on a subject in two worlds.
#[derive(Drop)]
pub enum Verdict {
    /// The worlds host this node unlike. It is the node that was asked for, if the first world does not host it. Else
    /// it is the least member that only one world hosts, or that they host with other slices.
    CastDiffers(NodeId),
    /// This many steps that concern the members are the same before the first difference.
    InputsDiffer(usize),
    /// All of them are the same, and so is what each hosted member gave out.
    Same(OutsOfMembers),
}
