//! A node at a slot.

ghost use Rattle.std.specs.Prelude.{[], ◌≡◌, IfOk, IsFalse, IsTrue, None, OnErr, OnOk, Some, is_ok};
ghost use Rattle.std.specs.List.{Contains};
ghost use Rattle.scp_spec.specs.Nodes.{Calm, change, fresh, is_counter_live, is_round_live, step};
ghost use Rattle.scp_spec.specs.Claims.{IsQuiet};
ghost use Rattle.scp_spec.specs.Reach.{HoldsReach};
ghost use Rattle.scp_spec.specs.Limits.{ComesOfEvents};
ghost use Rattle.scp_spec.specs.Sets.{Names, among};
ghost use Rattle.node_store.specs.Archives.{AreFiled, IsFiled, Keeps, sent_of, sents_of};
ghost use Rattle.node_core.specs.Filings.{AreFiledOuts, IsFiledEvent, event_of, whole_outs};
ghost use Rattle.node_core.specs.Listening.{AddsRowAlone};
ghost use Rattle.node_core.specs.NodeParts.{ChangesTo, IsSentBy};
ghost use Rattle.scp_types.specs.Statements.{Sent};
ghost use Rattle.scp_types.specs.declared.event.NodeEvent.{NodeEvent};
ghost use Rattle.scp_types.specs.declared.event.Out.TheVariants.{Emit};

use crate::answering::{Start, State, set_settled};
use crate::by_region::{answer, answer_anew};
use crate::changes::{
    Changed, in_next_round, is_counter_live, is_round_live, with_proposal, with_timeout,
};
use crate::filed::{FiledEvent, GivenOut};
use crate::filing::nothing;
use crate::outs::is_externalized;
use crate::stirring::{Stirred, put_row};
use node_leaders::Draws;
use node_rules::leads;
use node_store::{Archive, Filed, Places, Shelf};
use node_table::{Put, Rows, Table};
use node_view::{Configured, Listener, SharedReach};
use scp_types::{Inputs, Nested, NodeId, Out, Value, Votes};
use std::alloc::{AllocError, Global};
use std::marker::Model;
use std::mem;

/// One node at one slot, and all that it knows there.
///
/// The nodes that it reaches are kept from one event to the next. So a row of a stranger costs no pass, and one with
/// the slices that its sender announced before costs no search for them. If a row has the node reach others, they are
/// followed. They are found anew after new slices of its own, after two such rows with no pass between them, and if it
/// is out of memory.
///
/// Contracts see it as the node of the protocol's definitions. It is made and changed only by events.
///
/// For example, a node that has a proposal and is in round 1 may be one, since a proposal leads to it. No node has a
/// proposal and is in no round.
#[derive(Drop)]
pub struct Node {
    listener: Listener,
    inputs: Inputs,
    votes: Votes,
}

impl Model for Node {
    ghost use Rattle.std.specs.Coded.{codes};
    ghost use Rattle.scp_types.specs.Trees.{members_code};
    ghost use Rattle.node_core.specs.Listening.{FiledNode, node_of};
    ghost use Rattle.scp_spec.specs.Limits.{ComesOfEvents};

    ghost Value = { FiledNode };

    ghost coded = { Prim.hlevel (codes, members_code) };

    ghost view = { λ n. record { node = node_of n.listener n.inputs n.votes; rows = n.listener.table } };

    ghost invariant = { λ n. ComesOfEvents (node_of n.listener n.inputs n.votes) };
}

impl Node {
    /// A node to which nothing has happened. It takes no memory.
    pub fn new(alloc: Global, name: NodeId, slot: u64, slices: Nested) -> Node
        ensures node { result.node ≡ fresh slot name slices }
        ensures rows { result.rows ≡ [] }
    {
        Node {
            listener: Listener::new(alloc, Configured { name, slot, slices }),
            inputs: Inputs::nothing(alloc),
            votes: Votes::none(),
        }
    }

    /// A copy. An error says that it is out of memory, or that a value or slices have too many owners.
    pub fn try_copy<S: Places>(
        &self,
        alloc: Global,
        archive: &Archive<S>,
    ) -> Result<Node, AllocError>
        requires { AreFiled archive.now self.now.rows }
        ensures { IfOk result (λ n. n ≡ self.now) }
    {
        let inputs = self.inputs.try_copy(alloc)?;
        let votes = self.votes.try_copy()?;
        match self.listener.try_copy(alloc, archive) {
            Ok(listener) => Ok(Node {
                listener,
                inputs,
                votes,
            }),
            Err(error) => {
                drop(inputs);
                drop(votes);
                Err(error)
            }
        }
    }

    /// A law: its rows are those of its table.
    pub fn rows_are_its_table(&self)
        ensures { self.now.node.table ≡ sents_of self.now.rows }
    {
        let _listener = &self.listener;
    }

    /// Its name.
    pub fn name(&self) -> &NodeId
        ensures { result.now ≡ self.now.node.name }
    {
        &self.listener.configuration().name
    }

    /// The slot that it is at.
    pub fn slot(&self) -> u64
        ensures { result ≡ self.now.node.slot }
    {
        self.listener.configuration().slot
    }

    /// Its own slices, as they are configured at the moment.
    pub fn slices(&self) -> &Nested
        ensures { result.now ≡ self.now.node.slices }
    {
        &self.listener.configuration().slices
    }

    /// What only events set.
    pub fn inputs(&self) -> &Inputs
        ensures { result.now ≡ self.now.node.inputs }
    {
        &self.inputs
    }

    /// What it has voted for, accepted and confirmed.
    pub fn votes(&self) -> &Votes
        ensures { result.now ≡ self.now.node.votes }
    {
        &self.votes
    }

    /// The newest envelopes that it has taken.
    pub fn table(&self) -> &Table
        ensures { result.now ≡ self.now.rows }
    {
        self.listener.table()
    }

    /// The rows of its table, read in the archive where they lie.
    pub fn rows<'a, S: Places>(&'a self, archive: &'a Archive<S>) -> Rows<'a, S>
        requires { AreFiled archive.now self.now.rows }
        ensures { result ≡ self.entry.now.node.table }
    {
        Rows::of(self.listener.table(), archive)
    }

    /// Whether the nomination timer of this round would have an effect: the node is in this round, another can follow,
    /// and no ballot is confirmed prepared.
    pub fn is_round_live(&self, round: u32) -> bool
        ensures { result ≡ is_round_live self.now.node round }
    {
        is_round_live(&self.inputs, &self.votes, round)
    }

    /// Whether the ballot timer of this counter would have an effect: it was armed last, the ballot is still at this
    /// counter, another can follow, and no value is externalized.
    pub fn is_counter_live(&self, counter: u32) -> bool
        ensures { result ≡ is_counter_live self.now.node counter }
    {
        is_counter_live(&self.votes, counter)
    }

    /// A law: one more pass would change nothing.
    pub fn calm(&self)
        ensures { Calm self.now.node }
    {
        let _inputs = &self.inputs;
    }

    /// Has compiled slices that may be new share memory with those of other nodes at the slot. What contracts see stays.
    #[inline(always)]
    pub fn share_reach(&mut self, shared: &mut SharedReach)
        ensures { self.new ≡ self.old }
    {
        self.listener.share_reach(shared);
    }

    /// Does one event: its own change, then passes until one changes nothing, then what is given out, in order (the
    /// Stellar Consensus Protocol draft). The order of events and outs is this host's profile. A stale envelope and a
    /// timer that is not live change nothing, give nothing out and take no memory, so such an event never fails. The
    /// slot of an envelope is not looked at: the caller hands a node those of its own.
    ///
    /// New slices are in force from this event on, also for later leaders; earlier leaders stay. They are not sent by
    /// themselves, but with the next statement.
    ///
    /// Each envelope that is given out carries the node's own name, its slot and the slices that are configured now. It
    /// keeps the widths and the rules of an envelope, so it can be spelled, and its spelling reads back as this
    /// envelope.
    ///
    /// The rows of the node, and the envelope that it takes, lie in the archive that is lent. The envelopes that it
    /// gives out are filed there. Hashes that were drawn for leaders are lent too, so that a hash that is there is not
    /// drawn once more.
    ///
    /// What is given out is filed, and is also answered whole, before anything changes. So a caller that has made room
    /// beforehand for the outs, at most five, needs no memory afterwards.
    ///
    /// An error says that it is out of memory, or that a value or slices have too many owners. Then the node is as it
    /// was; some of what it would have given out may be filed.
    pub fn advance<S: Shelf>(
        &mut self,
        alloc: Global,
        archive: &mut Archive<S>,
        draws: &mut Draws,
        event: FiledEvent,
    ) -> Result<GivenOut, AllocError>
        requires rows { AreFiled archive.old self.old.rows }
        requires event { IsFiledEvent archive.old event }
        ensures node { OnOk result (self.new.node ≡ (step self.old.node (event_of event)).0) }
        ensures outs { IfOk result (λ v. v.outs.items ≡ (step self.old.node (event_of event)).1) }
        ensures err { OnErr result (self.new ≡ self.old) }
        ensures idle { change self.old.node (event_of event) ≡ None → IsTrue (is_ok result) }
        ensures quiet { (R : Names) (e : Sent) → event_of event ≡ NodeEvent.Take e → HoldsReach self.old.node.name self.old.node.slices self.old.node.table R → IsFalse (R e.sender) → IsFalse (among self.old.node.inputs.leaders e.sender) → IfOk result (λ v. IsQuiet R self.old.node self.new.node v.outs.items) }
        ensures emitted { IfOk result (λ v. (e : Sent) → Contains v.outs.items (Emit e) → IsSentBy self.new.node e) }
        ensures rows { AreFiled archive.new self.new.rows }
        ensures whole { IfOk result (λ v. whole_outs v.filed.items ≡ v.outs.items) }
        ensures filed { IfOk result (λ v. AreFiledOuts archive.new v.filed.items) }
        ensures kept { Keeps archive.old archive.new }
    {
        self.comes_of_events();
        match event {
            // An envelope, the most frequent event, needs no room for what others change.
            FiledEvent::Take(envelope) => self.take(alloc, archive, envelope),
            event => self.turn(alloc, archive, draws, event),
        }
    }

    /// The node after one event, as by [`Node::advance`], and what it gives out; this node stays as it is. An error
    /// says that it is out of memory, or that a value or slices have too many owners. Since the node is copied, any
    /// event may answer it.
    pub fn step<S: Shelf>(
        &self,
        alloc: Global,
        archive: &mut Archive<S>,
        event: FiledEvent,
    ) -> Result<(Node, Vec<Out>), AllocError>
        requires rows { AreFiled archive.old self.now.rows }
        requires event { IsFiledEvent archive.old event }
        ensures step { IfOk result (λ r. (r.0.node, r.1.items) ≡ step self.now.node (event_of event)) }
        ensures emitted { IfOk result (λ r. (e : Sent) → Contains r.1.items (Emit e) → IsSentBy r.0.node e) }
        ensures rows { IfOk result (λ r. AreFiled archive.new r.0.rows) }
        ensures kept { Keeps archive.old archive.new }
    {
        let mut node = self.try_copy(alloc, archive)?;
        match node.advance(alloc, archive, &mut Draws::new(alloc), event) {
            Ok(given_out) => Ok((node, given_out.outs)),
            Err(error) => {
                drop(node);
                Err(error)
            }
        }
    }

    /// Does one event, as [`Node::advance`] does.
    fn turn<S: Shelf>(
        &mut self,
        alloc: Global,
        archive: &mut Archive<S>,
        draws: &mut Draws,
        event: FiledEvent,
    ) -> Result<GivenOut, AllocError>
        requires rows { AreFiled archive.old self.old.rows }
        requires event { IsFiledEvent archive.old event }
        ensures node { OnOk result (self.new.node ≡ (step self.old.node (event_of event)).0) }
        ensures outs { IfOk result (λ v. v.outs.items ≡ (step self.old.node (event_of event)).1) }
        ensures err { OnErr result (self.new ≡ self.old) }
        ensures idle { change self.old.node (event_of event) ≡ None → IsTrue (is_ok result) }
        ensures rows { AreFiled archive.new self.new.rows }
        ensures whole { IfOk result (λ v. whole_outs v.filed.items ≡ v.outs.items) }
        ensures filed { IfOk result (λ v. AreFiledOuts archive.new v.filed.items) }
        ensures kept { Keeps archive.old archive.new }
    {
        let changed = match event {
            FiledEvent::Take(envelope) => return self.take(alloc, archive, envelope),
            FiledEvent::Reslice(slices) => return self.reslice(alloc, archive, slices),
            FiledEvent::Propose(value) => Some(self.changed_by_proposal(alloc, draws, value)?),
            FiledEvent::NominationTimer(round) => self.changed_by_nomination_timer(
                alloc, draws, round,
            )?,
            FiledEvent::BallotTimer(counter) => self.changed_by_ballot_timer(alloc, counter)?,
        };
        self.settle(alloc, archive, changed)
    }

    /// A law: events led to it.
    fn comes_of_events(&self)
        ensures { ComesOfEvents self.now.node }
    {
        let _inputs = &self.inputs;
    }

    /// What a proposal changes: it is set, and round 1 begins.
    fn changed_by_proposal(
        &self,
        alloc: Global,
        draws: &mut Draws,
        value: Value,
    ) -> Result<Changed, AllocError>
        ensures { IfOk result (λ d. ChangesTo self.now.node (NodeEvent.Propose value) (Some d)) }
    {
        let changed = with_proposal(
            alloc,
            draws,
            self.listener.configuration(),
            &self.inputs,
            &self.votes,
            value,
        )?;
        Ok(changed)
    }

    /// What a nomination timer changes: if it is live, the next round begins.
    fn changed_by_nomination_timer(
        &self,
        alloc: Global,
        draws: &mut Draws,
        round: u32,
    ) -> Result<Option<Changed>, AllocError>
        ensures changed { IfOk result (ChangesTo self.now.node (NodeEvent.NominationTimer round)) }
        ensures idle { change self.now.node (NodeEvent.NominationTimer round) ≡ None → IsTrue (is_ok result) }
    {
        if !is_round_live(&self.inputs, &self.votes, round) {
            return Ok(None);
        }
        let changed = in_next_round(
            alloc,
            draws,
            self.listener.configuration(),
            &self.inputs,
            &self.votes,
            round,
        )?;
        Ok(Some(changed))
    }

    /// What a ballot timer changes: if it is live, the ballot goes one counter up.
    fn changed_by_ballot_timer(
        &self,
        alloc: Global,
        counter: u32,
    ) -> Result<Option<Changed>, AllocError>
        ensures changed { IfOk result (ChangesTo self.now.node (NodeEvent.BallotTimer counter)) }
        ensures idle { change self.now.node (NodeEvent.BallotTimer counter) ≡ None → IsTrue (is_ok result) }
    {
        if !is_counter_live(&self.votes, counter) {
            return Ok(None);
        }
        let changed = with_timeout(alloc, &self.inputs, &self.votes)?;
        Ok(Some(changed))
    }

    /// Configures these slices from now on, and passes follow. The slices before are put back if it is out of memory.
    fn reslice<S: Shelf>(
        &mut self,
        alloc: Global,
        archive: &mut Archive<S>,
        slices: Nested,
    ) -> Result<GivenOut, AllocError>
        requires rows { AreFiled archive.old self.old.rows }
        ensures node { OnOk result (self.new.node ≡ (step self.old.node (NodeEvent.Reslice slices)).0) }
        ensures outs { IfOk result (λ v. v.outs.items ≡ (step self.old.node (NodeEvent.Reslice slices)).1) }
        ensures err { OnErr result (self.new ≡ self.old) }
        ensures rows { AreFiled archive.new self.new.rows }
        ensures whole { IfOk result (λ v. whole_outs v.filed.items ≡ v.outs.items) }
        ensures filed { IfOk result (λ v. AreFiledOuts archive.new v.filed.items) }
        ensures kept { Keeps archive.old archive.new }
    {
        let old_slices = self.listener.exchange_slices(slices);
        let start = Start {
            inputs: &self.inputs,
            votes: &self.votes,
            stirred: Stirred::All,
        };
        let mut settled = None;
        match answer_anew(alloc, archive, &mut self.listener, &start, &mut settled) {
            Ok(given_out) => {
                set_settled(&mut self.votes, settled);
                Ok(given_out)
            }
            Err(error) => {
                drop(settled);
                self.listener.exchange_slices(old_slices);
                Err(error)
            }
        }
    }

    /// Whether an envelope of this sender is surely no more than a row to the node. That is so once a value is
    /// externalized, as no rule applies then, or if the sender is a stranger and no leader.
    #[inline(always)]
    fn adds_row_alone(&self, sender: &NodeId) -> bool
        ensures { IsTrue result → AddsRowAlone self.now.node sender.now }
    {
        if is_externalized(self.votes.phase) {
            return true;
        }
        self.listener.is_stranger(sender) && !leads(sender, &self.inputs)
    }

    /// Takes an envelope. One that is no more than a row is offered to the table. Any other one is put there, and
    /// passes follow unless it is stale. If it is out of memory then, the envelope is taken back out.
    fn take<S: Shelf>(
        &mut self,
        alloc: Global,
        archive: &mut Archive<S>,
        envelope: Filed,
    ) -> Result<GivenOut, AllocError>
        requires rows { AreFiled archive.old self.old.rows }
        requires envelope { IsFiled archive.old envelope }
        ensures node { OnOk result (self.new.node ≡ (step self.old.node (NodeEvent.Take (sent_of envelope))).0) }
        ensures outs { IfOk result (λ v. v.outs.items ≡ (step self.old.node (NodeEvent.Take (sent_of envelope))).1) }
        ensures err { OnErr result (self.new ≡ self.old) }
        ensures idle { change self.old.node (NodeEvent.Take (sent_of envelope)) ≡ None → IsTrue (is_ok result) }
        ensures rows { AreFiled archive.new self.new.rows }
        ensures whole { IfOk result (λ v. whole_outs v.filed.items ≡ v.outs.items) }
        ensures filed { IfOk result (λ v. AreFiledOuts archive.new v.filed.items) }
        ensures kept { Keeps archive.old archive.new }
    {
        let sender = archive.read(&envelope).sender();
        if self.adds_row_alone(sender) {
            self.listener.offer(alloc, archive, envelope)?;
            return Ok(nothing(alloc));
        }
        let (put, stirred) = put_row(alloc, archive, &mut self.listener, envelope);
        match put {
            Put::Stale => Ok(nothing(alloc)),
            Put::NoMemory => Err(AllocError),
            Put::Added | Put::Replaced(_) => {
                let start = Start {
                    inputs: &self.inputs,
                    votes: &self.votes,
                    stirred,
                };
                let mut settled = None;
                match answer_anew(alloc, archive, &mut self.listener, &start, &mut settled) {
                    Ok(given_out) => {
                        // The row stays, so the put need not be undone.
                        drop(put);
                        set_settled(&mut self.votes, settled);
                        Ok(given_out)
                    }
                    Err(error) => {
                        drop(settled);
                        self.listener.undo(archive, put);
                        Err(error)
                    }
                }
            }
        }
    }

    /// Passes from what an event's own change made of inputs and votes, and what is given out; nothing if the event
    /// changed nothing. An error says that it is out of memory, and the node is as it was.
    fn settle<S: Shelf>(
        &mut self,
        alloc: Global,
        archive: &mut Archive<S>,
        changed: Option<Changed>,
    ) -> Result<GivenOut, AllocError>
        requires rows { AreFiled archive.old self.old.rows }
        requires change { (event : NodeEvent) × ChangesTo self.old.node event changed }
        ensures node { (event : NodeEvent) → ChangesTo self.old.node event changed → OnOk result (self.new.node ≡ (step self.old.node event).0) }
        ensures outs { (event : NodeEvent) → ChangesTo self.old.node event changed → IfOk result (λ v. v.outs.items ≡ (step self.old.node event).1) }
        ensures err { OnErr result (self.new ≡ self.old) }
        ensures idle { (event : NodeEvent) → ChangesTo self.old.node event changed → change self.old.node event ≡ None → IsTrue (is_ok result) }
        ensures rows { AreFiled archive.new self.new.rows }
        ensures whole { IfOk result (λ v. whole_outs v.filed.items ≡ v.outs.items) }
        ensures filed { IfOk result (λ v. AreFiledOuts archive.new v.filed.items) }
        ensures kept { Keeps archive.old archive.new }
    {
        let Some(changed) = changed else {
            return Ok(nothing(alloc));
        };
        let old = State {
            inputs: &self.inputs,
            votes: &self.votes,
        };
        let start = Start {
            inputs: &changed.inputs,
            votes: &changed.votes,
            stirred: Stirred::All,
        };
        let mut settled = None;
        match answer(
            alloc,
            archive,
            &mut self.listener,
            &old,
            &start,
            &mut settled,
        ) {
            Ok(given_out) => {
                let Changed { inputs, votes } = changed;
                drop(mem::replace(&mut self.votes, votes));
                drop(mem::replace(&mut self.inputs, inputs));
                set_settled(&mut self.votes, settled);
                Ok(given_out)
            }
            Err(error) => {
                drop(settled);
                drop(changed);
                Err(error)
            }
        }
    }
}
