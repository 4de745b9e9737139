//! One network, seen with its archive.

ghost use Rattle.std.specs.Prelude.{◌≡◌, ◌&&◌, [], IfSome, MatchResult, None, Some, is_some, length, map, option_map};
ghost use Rattle.scp_spec.specs.Networks.{Net, instances_at, is_open, node_where_open, slices_of};
ghost use Rattle.host_config.specs.Configs.{index_of_name};
ghost use Rattle.node_store.specs.Archives.{AreFiled, IsFiled, sent_of};
ghost use Rattle.host_network.specs.Deeds.{IsCountedInstance, IsInstanceThere, index_of_slot};
ghost use Rattle.host_network.specs.FiledSlots.{IsInstanceFiled, counted_instance, instance_of_filed, slot_of};
ghost use Rattle.host_network.specs.Standing.{StandsFor, machine_of, node_at, slices_of_node};

use crate::instance::Instance;
use crate::open_slots::OpenSlots;
use host_config::NetConfig;
use node_core::Node;
use node_store::{Archive, Filed, Shelf};
use node_table::Rows;
use scp_types::{Envelope, Nested, NodeId, Refusal};
use std::alloc::Global;
use std::marker::Model;

/// How much a network has used up: events and delivered bytes of its budgets, and openings and closings of its roster;
/// and how many slots are open.
#[derive(Clone, Copy)]
pub struct Used {
    pub events: u64,
    pub bytes: u64,
    pub slots: usize,
    pub opens: u64,
}

/// One network: its configuration, its archive, its open slots with the hosted nodes there, and how much of
/// its budgets is used up.
///
/// Contracts see all of it but where a node is looked for first, also numbers in the archive; its owner shows it without
/// them.
///
/// All envelopes lie in its archive, no slot is open twice, each has the hosted nodes in their order, and the bytes
/// keep to the budget. For example, if A and C are hosted, an open slot 5 has a node A, then a node C. Of a budget of
/// 100 bytes at most 100 are used up.
#[derive(Drop)]
pub struct Network<S: Shelf> {
    pub(crate) alloc: Global,
    pub(crate) config: NetConfig,
    pub(crate) archive: Archive<S>,
    pub(crate) slots: OpenSlots,
    pub(crate) events: u64,
    pub(crate) bytes: u64,
    pub(crate) opens: u64,
    /// Behind the place of the node that an event came to last: where the next one is looked for first.
    pub(crate) next_node: usize,
    /// The place of the node whose emission was to be heard last: where the next one's is looked for first.
    pub(crate) from_node: usize,
}

impl<S: Shelf> Model for Network<S> {
    ghost use Rattle.std.specs.Coded.{codes};
    ghost use Rattle.scp_types.specs.Trees.{members_code};
    ghost use Rattle.host_network.specs.Standing.{IsStanding, FiledMachine};

    ghost Value = { FiledMachine };

    ghost coded = { Prim.hlevel (codes, members_code) };

    ghost view = { λ m. record { config = m.config; archive = m.archive; slots = m.slots; events = m.events; bytes = m.bytes; opens = m.opens } };

    ghost invariant = { λ m. IsStanding (record { config = m.config; archive = m.archive; slots = m.slots; events = m.events; bytes = m.bytes; opens = m.opens }) };
}

impl<S: Shelf> Network<S> {
    /// A network where nothing has happened. It takes no memory.
    pub fn new(alloc: Global, config: NetConfig, shelf: S) -> Network<S>
        ensures { result ≡ record { config = config; archive = []; slots = []; events = 0; bytes = 0; opens = 0 } }
    {
        let _nodes = config.nodes();
        Network {
            alloc,
            config,
            archive: Archive::new(alloc, shelf),
            slots: OpenSlots::nothing(alloc),
            events: 0,
            bytes: 0,
            opens: 0,
            next_node: 0,
            from_node: 0,
        }
    }

    /// Its configuration.
    pub fn config(&self) -> &NetConfig
        ensures { result.now ≡ self.now.config }
    {
        &self.config
    }

    /// The envelope that was filed.
    pub fn read(&self, filed: &Filed) -> &Envelope
        requires { IsFiled self.now.archive filed.now }
        ensures { result.now ≡ sent_of filed.now }
    {
        self.archive.read(filed)
    }

    /// The same place in the archive once more. It takes no memory.
    pub fn copy_of(&self, filed: &Filed) -> Filed
        requires { IsFiled self.now.archive filed.now }
        ensures { result ≡ filed.now }
    {
        self.archive.copy_of(filed)
    }

    /// A hosted node at an open slot, as it is now; `None` if the slot is not open or the node is not hosted. It takes
    /// no memory.
    pub fn node(&self, slot: u64, node: &NodeId) -> Option<&Node>
        ensures value { (net : Net) → StandsFor (machine_of self.now) net → option_map (λ n. n.now.node) result ≡ node_at net slot node.now }
        ensures filed { IfSome result (λ n. AreFiled self.now.archive n.now.rows) }
    {
        match self.hosted(slot, node) {
            None => None,
            Some(instance) => Some(instance.node()),
        }
    }

    /// The rows of the table of a node of this network.
    pub fn rows<'a>(&'a self, node: &'a Node) -> Rows<'a, S>
        requires { AreFiled self.now.archive node.now.rows }
        ensures { result ≡ node.entry.now.node.table }
    {
        node.rows(&self.archive)
    }

    /// Lets go of envelopes that no hosted node at an open slot holds, neither as a row of its table nor as what it has
    /// emitted, if that is due ([`Archive::is_due`]). If no slot is open, all is let go, with the room that it took. It
    /// cannot fail: if there is no memory for the marks, nothing is let go, and the next call tries again.
    ///
    /// Who goes on reading what was given out, as a journal does, does not call this.
    pub fn forget_unheld(&mut self)
        ensures state { machine_of self.new ≡ machine_of self.old }
        ensures config { self.new.config ≡ self.old.config }
    {
        if self.slots.len() == 0 {
            self.archive.let_all_go();
            return;
        }
        let holders = self.slots.len().saturating_mul(self.config.nodes().len());
        if !self.archive.is_due(holders) {
            return;
        }
        if let Ok(mut held) = self.archive.none_held(self.alloc) {
            self.slots.hold(&mut held);
            self.archive.let_go(&held);
        }
    }

    /// How much of its budgets, and of the openings and closings of its roster, is used up, and how many slots are
    /// open.
    pub fn used(&self) -> Used
        ensures { result ≡ record { events = self.now.events; bytes = self.now.bytes; slots = length self.now.slots; opens = self.now.opens } }
    {
        Used {
            events: self.events,
            bytes: self.bytes,
            slots: self.slots.len(),
            opens: self.opens,
        }
    }

    /// Whether a slot is open, by a binary search.
    pub fn is_open(&self, slot: u64) -> bool
        ensures { (net : Net) → StandsFor (machine_of self.now) net → result ≡ is_open net slot }
    {
        match self.slot_at(slot) {
            None => false,
            Some(_) => true,
        }
    }

    /// The slices of a hosted node at an open slot, as they are now; `None` if the slot is not open or the node is not
    /// hosted. It takes no memory.
    pub fn slices(&self, slot: u64, node: &NodeId) -> Option<&Nested>
        ensures value { (net : Net) → StandsFor (machine_of self.now) net → option_map (λ q. q.now) result ≡ slices_of_node net slot node.now }
        ensures there { (net : Net) → StandsFor (machine_of self.now) net → is_some result ≡ (is_open net slot && is_some (slices_of self.now.config.nodes node.now)) }
    {
        match self.hosted(slot, node) {
            None => None,
            Some(instance) => Some(instance.slices()),
        }
    }

    /// A hosted node at an open slot with what it has emitted and drawn; `None` if the slot is not open or the node is
    /// not hosted. It takes no memory.
    fn hosted(&self, slot: u64, node: &NodeId) -> Option<&Instance>
        ensures value { (net : Net) → StandsFor (machine_of self.now) net → option_map (λ p. instance_of_filed p.now) result ≡ node_where_open (instances_at net.slots slot) node.now }
        ensures there { (net : Net) → StandsFor (machine_of self.now) net → is_some result ≡ (is_open net slot && is_some (slices_of self.now.config.nodes node.now)) }
        ensures archived { IfSome result (λ p. IsInstanceFiled self.now.archive p.now) }
    {
        match self.slot_at(slot) {
            None => None,
            Some(slot_at) => match self.config.place(node) {
                None => None,
                Some(node_at) => Some(self.instance(slot_at, node_at)),
            },
        }
    }

    /// The place of a hosted node, or [`Refusal::NoSuchNode`].
    pub(crate) fn node_place(&self, node: &NodeId) -> Result<usize, Refusal>
        ensures { MatchResult result (λ at. index_of_name self.now.config.nodes node.now ≡ Some at) (λ r. (r ≡ Refusal.NoSuchNode) × (index_of_name self.now.config.nodes node.now ≡ None)) }
    {
        self.config.place(node).ok_or(Refusal::NoSuchNode)
    }

    /// The place of a hosted node, looked for at `first` first, or [`Refusal::NoSuchNode`].
    pub(crate) fn place_from(&self, first: usize, node: &NodeId) -> Result<usize, Refusal>
        ensures { MatchResult result (λ at. index_of_name self.now.config.nodes node.now ≡ Some at) (λ r. (r ≡ Refusal.NoSuchNode) × (index_of_name self.now.config.nodes node.now ≡ None)) }
    {
        self.config
            .place_from(first, node)
            .ok_or(Refusal::NoSuchNode)
    }

    /// The place of an open slot, or [`Refusal::SlotNotOpen`].
    pub(crate) fn open_slot(&self, slot: u64) -> Result<usize, Refusal>
        ensures { MatchResult result (λ at. index_of_slot (map slot_of (machine_of self.now).slots) slot ≡ Some at) (λ r. (r ≡ Refusal.SlotNotOpen) × (index_of_slot (map slot_of (machine_of self.now).slots) slot ≡ None)) }
    {
        self.slot_at(slot).ok_or(Refusal::SlotNotOpen)
    }

    /// The place of a slot among those that are open, by a binary search.
    pub(crate) fn slot_at(&self, slot: u64) -> Option<usize>
        ensures { result ≡ index_of_slot (map slot_of (machine_of self.now).slots) slot }
    {
        self.slots.place(slot)
    }

    /// The node at these places.
    pub(crate) fn instance(&self, slot_at: usize, node_at: usize) -> &Instance
        requires { IsInstanceThere (machine_of self.now) slot_at node_at }
        ensures counted { IsCountedInstance (machine_of self.now) slot_at node_at (counted_instance result.now) }
        ensures archived { IsInstanceFiled self.now.archive result.now }
    {
        &self.slots.slot(slot_at).instances()[node_at]
    }
}
