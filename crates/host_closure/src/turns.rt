//! The turns of members: what each of them names joins the closure.

ghost use Rattle.std.specs.Prelude.{◌≡◌, ◌++◌, ◌≤◌, ℕ, Some, length, slice_get, IfOk, OnOk, map, option_map};
ghost use Rattle.scp_spec.specs.Networks.{slices_of};
ghost use Rattle.scp_spec.specs.Sets.{among, IsAscending};
ghost use Rattle.host_closure.specs.Announcing.{AreMembersAt, IsChained, IsClosureList, IsTurn, announced_at, member_names};
ghost use Rattle.host_closure.specs.Turns.{AreInOrder, AreIndexed, AreMore, AllNamesAreMembers, AreWoken, IsFor, IsGiven, IsGrown, IsJoined, IsReady, NamesAreMembers, added_names, all_added, known_names, lists_after_turn};

use crate::announcing::Announcements;
use crate::closure_list::ClosureList;
use crate::deliveries::Deliveries;
use crate::ready::Ready;
use scp_types::{NodeId, push_names};
use std::alloc::{AllocError, Global};

/// A journal at a slot, with its announcements there by sender and by receiver.
#[derive(Drop)]
pub(crate) struct Turns<'a, J: Announcements> {
    pub journal: &'a J,
    pub slot: u64,
    pub deliveries: &'a Deliveries,
}

/// The turn of a member: its place and its name.
#[derive(Clone, Copy)]
struct Turn {
    place: usize,
    node: NodeId,
}

impl<'a, J: Announcements> Turns<'a, J> {
    /// The closure of a node: sweeps through the members, of whom it is the first, until one adds none. An error says
    /// that it is out of memory.
    pub fn closure_of(&self, alloc: Global, node: &NodeId) -> Result<ClosureList, AllocError>
        requires index { AreIndexed self.now.slot (J.entries self.now.journal.now) (length (J.entries self.now.journal.now)) self.now.deliveries.now }
        requires nodes { IsAscending (map (λ h. h.name) (J.nodes self.now.journal.now)) }
        ensures { IfOk result (λ c. IsClosureList (J.nodes self.now.journal.now) self.now.slot node.now (J.entries self.now.journal.now) c) }
    {
        let mut members = ClosureList::of(alloc, node)?;
        let mut ready = Ready::new(alloc);
        let mut known = 0;
        while known < members.len() {
            known = members.len();
            self.sweep(alloc, &mut members, &mut ready)?;
        }
        Ok(members)
    }

    /// Goes through the members by place, also those that it adds: each has its turn.
    fn sweep(
        &self,
        alloc: Global,
        members: &mut ClosureList,
        ready: &mut Ready,
    ) -> Result<(), AllocError>
        requires index { AreIndexed self.now.slot (J.entries self.now.journal.now) (length (J.entries self.now.journal.now)) self.now.deliveries.now }
        requires chained { (v : ℕ) × IsChained (J.nodes self.now.journal.now) self.now.slot v (J.entries self.now.journal.now) members.old }
        requires ready { IsReady (J.nodes self.now.journal.now) self.now.slot (J.entries self.now.journal.now) (member_names members.old) ready.old }
        ensures grown { OnOk result ((v : ℕ) → IsChained (J.nodes self.now.journal.now) self.now.slot v (J.entries self.now.journal.now) members.old → IsGrown (J.nodes self.now.journal.now) self.now.slot v (J.entries self.now.journal.now) members.old members.new) }
        ensures settled { OnOk result (AllNamesAreMembers (J.nodes self.now.journal.now) self.now.slot (J.entries self.now.journal.now) (member_names members.new) (member_names members.old)) }
        ensures ready { OnOk result (IsReady (J.nodes self.now.journal.now) self.now.slot (J.entries self.now.journal.now) (member_names members.new) ready.new) }
        ensures in_turn { OnOk result ((v : ℕ) → AreMembersAt (J.nodes self.now.journal.now) self.now.slot v (J.entries self.now.journal.now) 0 members.old → AreMembersAt (J.nodes self.now.journal.now) self.now.slot v (J.entries self.now.journal.now) 0 members.new) }
    {
        let mut place = 0;
        while place < members.len() {
            self.take(alloc, members, ready, place)?;
            place += 1;
        }
        Ok(())
    }

    /// The turn of the member at a place: the missing names that it gives join, ascending.
    ///
    /// Of its announcements those count that were made to members of this moment.
    fn take(
        &self,
        alloc: Global,
        members: &mut ClosureList,
        ready: &mut Ready,
        place: usize,
    ) -> Result<(), AllocError>
        requires index { AreIndexed self.now.slot (J.entries self.now.journal.now) (length (J.entries self.now.journal.now)) self.now.deliveries.now }
        requires ready { IsReady (J.nodes self.now.journal.now) self.now.slot (J.entries self.now.journal.now) (member_names members.old) ready.old }
        requires next { place ≤ length ready.old }
        ensures grown { OnOk result ((v : ℕ) → IsChained (J.nodes self.now.journal.now) self.now.slot v (J.entries self.now.journal.now) members.old → IsGrown (J.nodes self.now.journal.now) self.now.slot v (J.entries self.now.journal.now) members.old members.new) }
        ensures settled { OnOk result ((w : ℕ) → slice_get (member_names members.old) place ≡ Some w → NamesAreMembers (J.nodes self.now.journal.now) self.now.slot (J.entries self.now.journal.now) (member_names members.new) (member_names members.old) w) }
        ensures ready { OnOk result (IsReady (J.nodes self.now.journal.now) self.now.slot (J.entries self.now.journal.now) (member_names members.new) ready.new) }
        ensures counted { OnOk result ((w : ℕ) → slice_get (member_names members.old) place ≡ Some w → length ready.new ≡ length (lists_after_turn ready.old place)) }
        ensures turn { OnOk result ((w : ℕ) → slice_get (member_names members.old) place ≡ Some w → IsTurn (J.nodes self.now.journal.now) self.now.slot (J.entries self.now.journal.now) w place members.old members.new) }
    {
        if let Some(node) = members.name(place) {
            let turn = Turn { place, node };
            let given = self.names_of_turn(alloc, members, ready, &turn)?;
            for name in &given {
                self.join(members, ready, name, place)?;
            }
        }
        Ok(())
    }

    /// The names that the member whose turn it is gives, ascending; of those that are members already some may be left
    /// out. In its first turn it gives all of them, later only those of announcements that became ready since the last
    /// one.
    fn names_of_turn(
        &self,
        alloc: Global,
        members: &ClosureList,
        ready: &mut Ready,
        turn: &Turn,
    ) -> Result<Vec<NodeId>, AllocError>
        requires index { AreIndexed self.now.slot (J.entries self.now.journal.now) (length (J.entries self.now.journal.now)) self.now.deliveries.now }
        requires there { slice_get (member_names members.now) turn.now.place ≡ Some turn.now.node }
        requires ready { IsReady (J.nodes self.now.journal.now) self.now.slot (J.entries self.now.journal.now) (member_names members.now) ready.old }
        ensures given { IfOk result (λ v. IsGiven (J.nodes self.now.journal.now) self.now.slot (J.entries self.now.journal.now) (member_names members.now) turn.now.node v.items) }
        ensures ascending { IfOk result (λ v. AreInOrder v.items) }
        ensures turned { OnOk result (ready.new ≡ lists_after_turn ready.old turn.now.place) }
    {
        let mut names = match ready.take(alloc, turn.place)? {
            None => self.all_names(alloc, members, &turn.node)?,
            Some(numbers) => self.names_at(alloc, members, &turn.node, &numbers)?,
        };
        put_in_order(&mut names);
        Ok(names)
    }

    /// All names that a node gives: those of its configured slices, if it is hosted, and those of its announcements at
    /// the slot to members.
    fn all_names(
        &self,
        alloc: Global,
        members: &ClosureList,
        node: &NodeId,
    ) -> Result<Vec<NodeId>, AllocError>
        requires { AreIndexed self.now.slot (J.entries self.now.journal.now) (length (J.entries self.now.journal.now)) self.now.deliveries.now }
        ensures { IfOk result (λ v. IsGiven (J.nodes self.now.journal.now) self.now.slot (J.entries self.now.journal.now) (member_names members.now) node.now v.items) }
    {
        let deliveries = self.deliveries;
        let mut names = self.configured_names(alloc, node)?;
        let mut next = deliveries.sent.latest(node);
        while let Some(number) = next {
            self.count(number, members, node, &mut names)?;
            next = deliveries.sent.earlier(number);
        }
        Ok(names)
    }

    /// The names of a node's configured slices, if it is hosted.
    fn configured_names(&self, alloc: Global, node: &NodeId) -> Result<Vec<NodeId>, AllocError>
        ensures { IfOk result (λ v. v.items ≡ known_names (slices_of (J.nodes self.now.journal.now) node.now)) }
    {
        let mut names = Vec::new(alloc);
        if let Some(slices) = self.journal.slices(node) {
            push_names(slices.set(), &mut names)?;
        }
        Ok(names)
    }

    /// The names that a node gives by the entries with these numbers.
    fn names_at(
        &self,
        alloc: Global,
        members: &ClosureList,
        node: &NodeId,
        numbers: &[usize],
    ) -> Result<Vec<NodeId>, AllocError>
        ensures { IfOk result (λ v. v.items ≡ all_added self.now.slot (J.entries self.now.journal.now) (member_names members.now) node.now numbers.now) }
    {
        let mut names = Vec::new(alloc);
        for number in numbers {
            self.count(*number, members, node, &mut names)?;
        }
        Ok(names)
    }

    /// Adds the names that the entry with this number announces, if it is an announcement of the node at the slot to a
    /// member.
    fn count(
        &self,
        number: usize,
        members: &ClosureList,
        node: &NodeId,
        names: &mut Vec<NodeId>,
    ) -> Result<(), AllocError>
        ensures { OnOk result (names.new.items ≡ names.old.items ++ added_names self.now.slot (member_names members.now) node.now (announced_at (J.entries self.now.journal.now) number)) }
    {
        let Some(announcement) = self.journal.announcement(number) else {
            return Ok(());
        };
        if announcement.slot == self.slot
            && announcement.sender == *node
            && members.has(&announcement.receiver)
        {
            push_names(announcement.slices.set(), names)?;
        }
        Ok(())
    }

    /// Has a name join, with the place of the member that names it, unless it is there. The announcements to it become
    /// ready.
    fn join(
        &self,
        members: &mut ClosureList,
        ready: &mut Ready,
        name: &NodeId,
        place: usize,
    ) -> Result<(), AllocError>
        requires { AreIndexed self.now.slot (J.entries self.now.journal.now) (length (J.entries self.now.journal.now)) self.now.deliveries.now }
        ensures { OnOk result (IsJoined self.now.slot (J.entries self.now.journal.now) members.old members.new ready.old ready.new name.now place) }
    {
        if !members.has(name) {
            members.add(name, place)?;
            self.wake(members, ready, name)?;
        }
        Ok(())
    }

    /// Makes the announcements at the slot to a node ready for their senders.
    fn wake(
        &self,
        members: &ClosureList,
        ready: &mut Ready,
        receiver: &NodeId,
    ) -> Result<(), AllocError>
        requires { AreIndexed self.now.slot (J.entries self.now.journal.now) (length (J.entries self.now.journal.now)) self.now.deliveries.now }
        ensures more { OnOk result (AreMore ready.old ready.new) }
        ensures woken { OnOk result (AreWoken self.now.slot (J.entries self.now.journal.now) (member_names members.now) ready.new receiver.now) }
    {
        let deliveries = self.deliveries;
        let mut next = deliveries.heard.latest(receiver);
        while let Some(number) = next {
            self.put(members, ready, number)?;
            next = deliveries.heard.earlier(number);
        }
        Ok(())
    }

    /// Makes the entry with this number ready for its sender, if that is a member that had a turn.
    fn put(&self, members: &ClosureList, ready: &mut Ready, number: usize) -> Result<(), AllocError>
        ensures more { OnOk result (AreMore ready.old ready.new) }
        ensures ready { OnOk result (IsFor (member_names members.now) ready.new number (announced_at (J.entries self.now.journal.now) number)) }
    {
        let Some(announcement) = self.journal.announcement(number) else {
            return Ok(());
        };
        let Some(place) = members.place(&announcement.sender) else {
            return Ok(());
        };
        let _count = members.len();
        ready.put(place, number)?;
        Ok(())
    }
}

#[tactic(auto, using(crate::proofs::Ordering::sorted_in_order, crate::proofs::Ordering::sorted_same))]
fn put_in_order(names: &mut Vec<NodeId>)
    ensures order { AreInOrder names.new.items }
    ensures same { (u : ℕ) → among names.new.items u ≡ among names.old.items u }
{
    names.sort_unstable();
}
