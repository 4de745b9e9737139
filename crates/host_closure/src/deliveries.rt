//! The announcements of a journal at a slot, by sender and by receiver.

ghost use Rattle.std.specs.Prelude.{◌≡◌, [], None, length, get_or, option_map, IfOk, OnOk};
ghost use Rattle.host_closure.specs.Announcing.{announced_at};
ghost use Rattle.host_closure.specs.Turns.{AreIndexed, IsIndexedTo, found_by, receiver_at, sender_at};

use crate::announcing::Announcements;
use scp_types::NodeId;
use std::alloc::{AllocError, Global};
use std::collections::BTreeMap;
use std::marker::Model;

/// The last announcement of each party, and for each entry the last announcement before it of the same party. Who
/// follows these numbers sees all announcements of a party, and no other.
///
/// Strangers are parties too, and pick their names. So the map is ordered: a party takes logarithmically many steps in
/// the number of parties, whatever their names.
#[derive(Drop)]
pub struct Links {
    latest: BTreeMap<NodeId, usize>,
    earlier: Vec<Option<usize>>,
}

impl Model for Links {
    ghost use Rattle.host_closure.specs.Turns.{PartyIndex};

    ghost Value = { PartyIndex };

    ghost view = { λ a. record { latest = a.latest.entries; earlier = a.earlier.items } };
}

impl Links {
    fn new(alloc: Global) -> Links
        ensures { result ≡ record { latest = []; earlier = [] } }
    {
        Links {
            latest: BTreeMap::new(alloc),
            earlier: Vec::new(alloc),
        }
    }

    /// Adds an entry: an announcement of this party, or none.
    fn push(&mut self, party: Option<NodeId>) -> Result<(), AllocError>
        ensures { OnOk result (IsIndexedTo self.old self.new party) }
    {
        let before = match party {
            None => None,
            Some(party) => self.latest.insert(party, self.earlier.len())?,
        };
        self.earlier.push(before)?;
        Ok(())
    }

    /// The number of the last announcement of a party.
    pub fn latest(&self, party: &NodeId) -> Option<usize>
        ensures { result ≡ found_by self.now.latest party.now }
    {
        self.latest.get(party).copied()
    }

    /// The number of the last announcement of the same party before the one with this number.
    pub fn earlier(&self, number: usize) -> Option<usize>
        ensures { result ≡ get_or self.now.earlier number None }
    {
        match self.earlier.get(number) {
            None => None,
            Some(before) => *before,
        }
    }
}

/// The announcements of a journal at a slot, by sender and by receiver.
#[derive(Drop)]
pub struct Deliveries {
    pub sent: Links,
    pub heard: Links,
}

impl Model for Deliveries {
    ghost use Rattle.host_closure.specs.Turns.{AnnouncementIndex};

    ghost Value = { AnnouncementIndex };

    ghost view = { λ a. record { sent = a.sent; heard = a.heard } };
}

impl Deliveries {
    /// The announcements of a journal at a slot. An error says that it is out of memory.
    pub fn of<J: Announcements>(
        alloc: Global,
        journal: &J,
        slot: u64,
    ) -> Result<Deliveries, AllocError>
        ensures { IfOk result (λ d. AreIndexed slot (J.entries journal.now) (length (J.entries journal.now)) d) }
    {
        let mut deliveries = Deliveries::new(alloc);
        for number in 0..journal.len() {
            let (sender, receiver) = parties_at(journal, number, slot);
            deliveries.push(sender, receiver)?;
        }
        Ok(deliveries)
    }

    fn new(alloc: Global) -> Deliveries
        ensures sent { result.sent ≡ record { latest = []; earlier = [] } }
        ensures heard { result.heard ≡ record { latest = []; earlier = [] } }
    {
        Deliveries {
            sent: Links::new(alloc),
            heard: Links::new(alloc),
        }
    }

    /// Adds an entry: an announcement of this sender to this receiver, or none.
    fn push(&mut self, sender: Option<NodeId>, receiver: Option<NodeId>) -> Result<(), AllocError>
        ensures sent { OnOk result (IsIndexedTo self.old.sent self.new.sent sender) }
        ensures heard { OnOk result (IsIndexedTo self.old.heard self.new.heard receiver) }
    {
        self.sent.push(sender)?;
        self.heard.push(receiver)
    }
}

/// The sender and the receiver of the entry with this number, if it is an announcement at the slot.
fn parties_at<J: Announcements>(
    journal: &J,
    number: usize,
    slot: u64,
) -> (Option<NodeId>, Option<NodeId>)
    ensures sender { result.0 ≡ sender_at slot (announced_at (J.entries journal.now) number) }
    ensures receiver { result.1 ≡ receiver_at slot (announced_at (J.entries journal.now) number) }
{
    match journal.announcement(number) {
        Some(announcement) if announcement.slot == slot => {
            (Some(announcement.sender), Some(announcement.receiver))
        }
        _ => (None, None),
    }
}
