//! A network with its journal.

ghost use Rattle.std.specs.Prelude.{◌≡◌, ◌&&◌, ◌++◌, [], IfErr, IfOk, ◌==◌, None, OnErr, OnOk, Some, is_some, length, option_map, option_to_list, slice_get, take};
ghost use Rattle.scp_spec.specs.Networks.{is_open, slices_of};
ghost use Rattle.scp_spec.specs.Runs.{IsRun, state_of};
ghost use Rattle.host_network.specs.Decoding.{step_of};
ghost use Rattle.host_network.specs.Standing.{slices_of_node};
ghost use Rattle.host_journal.specs.Logs.{IsEntered, IsEntryAt, IsRefused, marks_of, with_entry};
ghost use Rattle.host_journal.specs.Externalized.{externalized_at};
ghost use Rattle.host_journal.specs.Lending.{lent_step, outs_of_entry};
ghost use Rattle.host_journal.specs.Deciding.{decided_by, decisions_at};

use crate::externalized::externalized_by;
use crate::keeping::Keeping;
use crate::kept::{entry_at, push_whole_outs, whole_event};
use crate::kept_entries::Kept;
use crate::lent_decision::{LentDecision, lent_decision};
use crate::lent_event::{LentEvent, lent_event};
use host_config::NetConfig;
use host_network::{Given, Network, Outcome};
use node_store::Shelf;
use scp_types::{Event, Nested, NodeId, Out, Refusal, Value};
use std::alloc::{AllocError, Global};
use std::marker::Model;

/// A network with the events that were applied to it and what they gave out, numbered from 0. They are kept to be read
/// again ([`Kept`]), or only in contracts ([`Unkept`](crate::Unkept)).
///
/// Contracts see it as its configuration and its entries, with whole envelopes. By its type these are a run of that
/// configuration: each entry is an event that was not refused after the entries before it, with what that event gives
/// out.
///
/// For example, the first entry may open slot 1, and the second be a proposal there; no journal begins with the
/// proposal, which would be refused. If only the second entry gave anything out, one list is kept, that of entry 1.
#[derive(Drop)]
pub struct Journal<S: Shelf, K: Keeping = Kept> {
    alloc: Global,
    network: Network<S>,
    kept: K,
}

impl<S: Shelf, K: Keeping> Model for Journal<S, K> {
    ghost use Rattle.std.specs.Coded.{codes};
    ghost use Rattle.scp_types.specs.Trees.{members_code};
    ghost use Rattle.host_journal.specs.Logs.{IsJournal, Log};
    ghost use Rattle.host_network.specs.Standing.{machine_of};

    ghost Value = { Log };

    ghost coded = { Prim.hlevel (codes, members_code) };

    ghost view = { λ j. record { config = j.network.config; entries = K.entries j.kept } };

    ghost invariant = { λ j. IsJournal (machine_of j.network) (K.entries j.kept) × K.is_kept j.network.config.nodes j.network.archive j.kept };
}

impl<S: Shelf, K: Keeping> Journal<S, K> {
    /// The journal of a network in which nothing has happened, whatever lies on the shelf. It takes no memory.
    pub fn new(alloc: Global, config: NetConfig, shelf: S) -> Journal<S, K>
        ensures { result ≡ record { config = config; entries = [] } }
    {
        Journal {
            alloc,
            network: Network::new(alloc, config, shelf),
            kept: K::nothing(alloc),
        }
    }

    /// The configuration of the network.
    pub fn config(&self) -> &NetConfig
        ensures { result.now ≡ self.now.config }
    {
        self.network.config()
    }

    /// A law: the entries are a run of the configuration.
    pub fn replays(&self)
        ensures { IsRun self.now.config self.now.entries }
    {
        let _kept = &self.kept;
    }

    /// The slices of a hosted node at an open slot, as they are after all entries; `None` if the slot is not open then
    /// or the node is not hosted. It takes no memory.
    pub(crate) fn slices_now(&self, slot: u64, node: &NodeId) -> Option<&Nested>
        ensures value { option_map (λ q. q.now) result ≡ slices_of_node (state_of self.now.config self.now.entries) slot node.now }
        ensures there { is_some result ≡ (is_open (state_of self.now.config self.now.entries) slot && is_some (slices_of self.now.config.nodes node.now)) }
    {
        self.network.slices(slot, node)
    }

    /// Whether a slot is open after all entries. It takes no memory.
    pub fn is_open(&self, slot: u64) -> bool
        ensures { result ≡ is_open (state_of self.now.config self.now.entries) slot }
    {
        self.network.is_open(slot)
    }

    /// What a hosted node has externalized at an open slot after all entries. `None` if the slot is not open then, the
    /// node is not hosted, or it has externalized nothing. It takes no memory.
    pub fn externalized(&self, slot: u64, node: &NodeId) -> Option<&Value>
        ensures { option_map (λ v. v.now) result ≡ externalized_at (state_of self.now.config self.now.entries) slot node.now }
    {
        match self.network.node(slot, node) {
            None => None,
            Some(node) => externalized_by(node.votes()),
        }
    }

    /// Why an event is refused if its caller has no room for it: the first refusal that applies after all entries, or
    /// else that it is out of memory. Nothing is changed.
    pub fn refusal(&self, event: &Event) -> Refusal
        ensures { IsRefused self.now (step_of event.now) result }
    {
        self.network.refusal(event)
    }

    /// Applies one event, and enters it in the journal if it is not refused. What it gives out is answered whole. The
    /// marks that are answered are the numbers by which other nodes of the network hear its emissions.
    ///
    /// An error is the first refusal that applies, or says that it is out of memory. In the latter case no refusal
    /// applies, or bytes came to a hosted node that may take memory to be read. Those are at most 65,536, of a version
    /// and a kind that exist. The journal is as it was.
    pub fn apply(&mut self, event: Event) -> Result<Given, Refusal>
        ensures ok { IfOk result (λ g. IsEntered self.old (step_of event) g.outs.items) }
        ensures entered { IfOk result (λ g. self.new ≡ with_entry self.old (step_of event) g.outs.items) }
        ensures marks { IfOk result (λ g. g.marks.items ≡ marks_of self.old.config self.old.entries (step_of event)) }
        ensures err { IfErr result (IsRefused self.old (step_of event)) }
        ensures same { OnErr result (self.new ≡ self.old) }
    {
        if self.kept.make_room(self.alloc, &event).is_err() {
            // Memory: the entry has no room; a refusal that applies comes first.
            let refusal = self.refusal(&event);
            drop(event);
            return Err(refusal);
        }
        match self.network.apply(&event) {
            Err(refusal) => {
                drop(event);
                Err(refusal)
            }
            Ok(outcome) => {
                let Outcome {
                    filed,
                    given,
                    delivered,
                } = outcome;
                self.kept
                    .enter(self.network.config(), event, filed, delivered);
                self.kept.tidy(&mut self.network);
                Ok(given)
            }
        }
    }
}

/// What is read of entries that are kept.
impl<S: Shelf> Journal<S> {
    /// How many entries there are.
    pub fn len(&self) -> usize
        ensures { result ≡ length self.now.entries }
    {
        self.kept.entries.len()
    }

    /// Whether there is none.
    pub fn is_empty(&self) -> bool
        ensures { result ≡ (length self.now.entries == 0) }
    {
        self.kept.entries.is_empty()
    }

    /// The entry of this number, made from the places of its envelopes: the event, with its bytes if it is a delivery,
    /// and what it gave out. `None` past the last. An error says that it is out of memory.
    pub fn entry(
        &self,
        alloc: Global,
        number: usize,
    ) -> Result<Option<(Event, Vec<Out>)>, AllocError>
        ensures { IfOk result (IsEntryAt (slice_get self.now.entries number)) }
    {
        match entry_at(&self.network, &self.kept.given, &self.kept.entries, number) {
            None => Ok(None),
            Some(kept) => {
                let mut outs = Vec::with_capacity(alloc, kept.outs.len())?;
                push_whole_outs(alloc, &self.network, kept.outs, &mut outs)?;
                let event = whole_event(alloc, &self.network, kept.event)?;
                Ok(Some((event, outs)))
            }
        }
    }

    /// The event of this number, read in place; `None` past the last. It takes no memory.
    pub fn event(&self, number: usize) -> Option<LentEvent<'_>>
        ensures { option_map lent_step result ≡ option_map (λ x. x.event) (slice_get self.now.entries number) }
    {
        match self.kept.entries.get(number) {
            None => None,
            Some(kept) => Some(lent_event(&self.network, &kept.event)),
        }
    }

    /// What the entry of this number decided, read in place. That is all, since an event decides one value at most.
    /// `None` if it decided none, and past the last. It takes no memory.
    pub fn decision(&self, number: usize) -> Option<LentDecision<'_>>
        ensures { option_to_list (option_map decided_by result) ≡ decisions_at self.now.entries number }
    {
        match entry_at(&self.network, &self.kept.given, &self.kept.entries, number) {
            None => None,
            Some(kept) => lent_decision(&self.network, kept.event, kept.outs),
        }
    }

    /// Appends what the entry of this number gave out, with whole envelopes; nothing past the last.
    ///
    /// An error says that it is out of memory. What was there then still stands in front of what was appended.
    pub fn push_outs(
        &self,
        alloc: Global,
        number: usize,
        outs: &mut Vec<Out>,
    ) -> Result<(), AllocError>
        ensures ok { OnOk result (outs.new.items ≡ outs.old.items ++ outs_of_entry self.now.entries number) }
        ensures err { OnErr result (take (length outs.old.items) outs.new.items ≡ outs.old.items) }
    {
        match entry_at(&self.network, &self.kept.given, &self.kept.entries, number) {
            None => Ok(()),
            Some(kept) => push_whole_outs(alloc, &self.network, kept.outs, outs),
        }
    }
}
