//! What runs the lines of a script of networks.

ghost use Rattle.std.specs.Prelude.{◌≡◌, Err, IfOk, OnOk, map, option_map, string_bytes};
ghost use Rattle.host_world.specs.Worlds.{log_at};
ghost use Rattle.line_run.specs.ByJournals.{EmissionsStay, LinesFollowJournals, MarksNameEmissions, RunsFollowJournals};
ghost use Rattle.line_run.specs.Hosting.{IsFinished, IsNetworkBegun, new_hosting};
ghost use Rattle.line_run.specs.ServedNetworks.{IsTakenBack};
ghost use Rattle.line_run.specs.SettledLines.{settled_text};
ghost use Rattle.line_run.specs.Running.{Does, IsLineCarriedOut, RefusesLine, printed_of};
ghost use Rattle.line_run.specs.Settling.{HasSettled};
ghost use Rattle.line_request.specs.Telling.{HasNoNode, IsBadOrder, may_apply};
ghost use Rattle.line_request.specs.declared.order.Order.TheVariants as order;
ghost use Rattle.line_request.specs.declared.request.Request.TheVariants.{Apply, Settle};

use crate::hearings::{hand_on_all, names_of, waiting_from};
use crate::nets::Nets;
use crate::outcome::Outcome;
use crate::replies::{replies, reply};
use crate::settled_lines::push_deciders;
use crate::unheard::Unheard;
use host_journal::{Keeping, Unkept};
use host_network::Given;
use host_world::World;
use line_request::{Order, Request, line_of_refusal, order_of};
use line_script::{LineError, LineRunner};
use node_store::BoxShelf;
use scp_types::{Bytes, Event, Refusal};
use std::alloc::{AllocError, Global};
use std::marker::Model;

mod serving;

/// The networks of one script: what their lines have declared, what waits to be handed on, and the journals of those
/// that an event has named. A run that nobody asks for its journals keeps none of their entries ([`Unkept`]).
#[derive(Drop)]
pub struct HostRun<K: Keeping = Unkept> {
    nets: Nets,
    unheard: Unheard,
    world: World<BoxShelf, K>,
}

impl<K: Keeping> Model for HostRun<K> {
    ghost use Rattle.std.specs.Coded.{codes};
    ghost use Rattle.scp_types.specs.Trees.{members_code};
    ghost use Rattle.line_run.specs.Hosting.{Hosting};

    ghost Value = { Hosting };

    ghost coded = { Prim.hlevel (codes, members_code) };

    ghost view = { λ run. record { waiting = run.nets.waiting; named = run.nets.named; unheard = run.unheard; logs = run.world } };
}

impl<K: Keeping> HostRun<K> {
    /// The state before the first line. It takes no memory.
    pub fn new(alloc: Global) -> HostRun<K>
        ensures { result ≡ new_hosting }
    {
        HostRun {
            nets: Nets::none(alloc),
            unheard: Unheard::nothing(alloc),
            world: World::new(alloc),
        }
    }

    /// The journals of the networks that an event has named after they were declared and no `drop` has taken back, and
    /// after [`HostRun::finish`] of all that are declared with nodes. They ascend by number.
    pub fn world(&self) -> &World<BoxShelf, K>
        ensures { result.now ≡ self.now.logs }
    {
        &self.world
    }

    /// No line follows: the networks that are declared with nodes, and that no event has named, join the
    /// world, and nothing has happened to them. A network without nodes does not, and is no fault. An error
    /// says that it is out of memory.
    pub fn finish(&mut self) -> Result<(), AllocError>
        ensures { OnOk result (IsFinished self.old self.new) }
    {
        self.nets.finish(&mut self.world)
    }

    /// Runs a line: the number of the network that it names, and what comes of it.
    pub(crate) fn carry_out(
        &mut self,
        alloc: Global,
        fields: &[&[u8]],
    ) -> Result<(u32, Outcome), LineError>
        ensures done { IfOk result (λ r. IsLineCarriedOut r.0 (map (λ field. field.now) fields.now) self.old r.1 self.new) }
        ensures bad { result ≡ Err LineError.Bad → RefusesLine self.old (map (λ field. field.now) fields.now) }
    {
        let (number, order) = order_of(alloc, fields)?;
        match order {
            Order::Request(request) => Ok((number, self.request(alloc, number, request)?)),
            Order::Serve(budgets) => {
                self.nets.serve(number, budgets)?;
                Ok((number, Outcome::Declared))
            }
            Order::ForAll(bytes) => Ok((number, self.put_to_all(alloc, number, &bytes)?)),
            Order::Drop => Ok((number, self.take_back(alloc, number)?)),
        }
    }

    /// What comes of what lines may ask of any network.
    fn request(
        &mut self,
        alloc: Global,
        number: u32,
        request: Request,
    ) -> Result<Outcome, LineError>
        ensures done { IfOk result (λ outcome. Does number (order.Request request) self.old outcome self.new) }
        ensures bad { result ≡ Err LineError.Bad → IsBadOrder self.old.waiting self.old.named number (order.Request request) }
    {
        match request {
            Request::Apply(event) => Ok(self.put(alloc, number, event)?),
            Request::Settle(slot) => Ok(self.settle(alloc, number, slot)?),
            Request::Declare(declaration) => {
                self.nets.prepare(number, declaration)?;
                Ok(Outcome::Declared)
            }
        }
    }

    /// An event is put to the network of a number. It is a bad line if lines may not ask for it, or if the network is
    /// declared and has no node.
    fn put(&mut self, alloc: Global, number: u32, event: Event) -> Result<Outcome, LineError>
        ensures done { IfOk result (λ outcome. Does number (order.Request (Apply event)) self.old outcome self.new) }
        ensures bad { result ≡ Err LineError.Bad → IsBadOrder self.old.waiting self.old.named number (order.Request (Apply event)) }
    {
        if !self.may_apply(number, &event) {
            return Err(LineError::Bad);
        }
        self.begin(number)?;
        Ok(Outcome::Answer(self.serve(alloc, number, event)?))
    }

    /// A slot of the network of a number is to settle. It is a bad line if the network is served, or if it is declared
    /// and has no node.
    fn settle(&mut self, alloc: Global, number: u32, slot: u64) -> Result<Outcome, LineError>
        ensures done { IfOk result (λ outcome. Does number (order.Request (Settle slot)) self.old outcome self.new) }
        ensures bad { result ≡ Err LineError.Bad → IsBadOrder self.old.waiting self.old.named number (order.Request (Settle slot)) }
    {
        if self.nets.is_served(number) {
            return Err(LineError::Bad);
        }
        self.begin(number)?;
        Ok(Outcome::Settled(slot, self.hand_on_waiting(alloc, number, slot)?))
    }

    /// Bytes come to all nodes of the network of a number. It is a bad line if the network is declared and not served,
    /// or has no node.
    fn put_to_all(
        &mut self,
        alloc: Global,
        number: u32,
        bytes: &Bytes,
    ) -> Result<Outcome, LineError>
        ensures done { IfOk result (λ outcome. Does number (order.ForAll bytes.now) self.old outcome self.new) }
        ensures bad { result ≡ Err LineError.Bad → IsBadOrder self.old.waiting self.old.named number (order.ForAll bytes.now) }
    {
        if self.nets.is_unserved(number) {
            return Err(LineError::Bad);
        }
        self.begin(number)?;
        Ok(Outcome::Answers(self.deliver_to_all(alloc, number, bytes)?))
    }

    /// The network of a number is to be taken back. If no line has declared it, that is refused. It is a bad line if it
    /// is declared and not served.
    fn take_back(&mut self, alloc: Global, number: u32) -> Result<Outcome, LineError>
        ensures done { IfOk result (λ outcome. Does number order.Drop self.old outcome self.new) }
        ensures bad { result ≡ Err LineError.Bad → IsBadOrder self.old.waiting self.old.named number order.Drop }
    {
        if self.nets.is_unserved(number) {
            return Err(LineError::Bad);
        }
        if !self.nets.is_declared(number) {
            return Ok(Outcome::Answer(Err(Refusal::NoSuchNetwork)));
        }
        self.forget(number);
        Ok(Outcome::Answer(Ok(Given {
            outs: Vec::new(alloc),
            marks: Vec::new(alloc),
        })))
    }

    /// Readies the network of a number for a line that names it. The number is then named, also if no network has it.
    /// If the network waits, it is put into the world. It is a bad line if the network has no node.
    fn begin(&mut self, number: u32) -> Result<(), LineError>
        ensures begun { OnOk result (IsNetworkBegun number self.old self.new) }
        ensures bad { result ≡ Err LineError.Bad → HasNoNode self.old.waiting number }
    {
        self.nets.begin(&mut self.world, number)
    }

    /// Whether lines may ask the network of a number for this event.
    fn may_apply(&self, number: u32, event: &Event) -> bool
        ensures { result ≡ may_apply self.now.named number event.now }
    {
        !(self.nets.is_served(number) && matches!(event, Event::Hear { .. }))
    }

    /// The network of a number is taken back, with its journal.
    fn forget(&mut self, number: u32)
        ensures { IsTakenBack number self.old self.new }
    {
        self.nets.forget(number);
        if let Some(journal) = self.world.remove(number) {
            drop(journal);
        }
    }

    /// Hands on what waits at a slot; answers the first refusal.
    fn hand_on_waiting(
        &mut self,
        alloc: Global,
        number: u32,
        slot: u64,
    ) -> Result<Option<Refusal>, AllocError>
        ensures { IfOk result (λ ended. HasSettled number slot self.old ended self.new) }
    {
        let names = match self.world.journal(number) {
            Some(journal) => {
                if !journal.is_open(slot) {
                    return Ok(Some(Refusal::SlotNotOpen));
                }
                names_of(alloc, journal.config())?
            }
            None => return Ok(Some(Refusal::NoSuchNetwork)),
        };
        let mut waiting = self.unheard.take(number, slot);
        let (heard, ended) = hand_on_all(&mut self.world, number, slot, &names, &mut waiting)?;
        let left = waiting_from(alloc, waiting, heard)?;
        if !left.is_empty() {
            self.unheard.put(number, slot, left)?;
        }
        Ok(ended)
    }

    /// What is printed of what came of a line that names the network of a number.
    fn printed(
        &self,
        alloc: Global,
        number: u32,
        outcome: &Outcome,
    ) -> Result<Option<String>, AllocError>
        ensures { IfOk result (λ text. option_map string_bytes text ≡ printed_of outcome.now (log_at self.now.logs number)) }
    {
        match outcome {
            Outcome::Declared => Ok(None),
            Outcome::Answer(answer) => Ok(Some(reply(alloc, answer)?)),
            Outcome::Answers(answers) => Ok(Some(replies(alloc, answers)?)),
            Outcome::Settled(_, Some(refusal)) => Ok(Some(line_of_refusal(alloc, *refusal)?)),
            Outcome::Settled(slot, None) => Ok(Some(self.line_of_settled(alloc, number, *slot)?)),
        }
    }

    /// The line of a slot that has settled.
    fn line_of_settled(&self, alloc: Global, number: u32, slot: u64) -> Result<String, AllocError>
        ensures { IfOk result (λ text. string_bytes text ≡ settled_text (log_at self.now.logs number) slot) }
    {
        let mut text = String::from_str(alloc, "settled")?;
        match self.world.journal(number) {
            Some(journal) => {
                push_deciders(&mut text, journal, slot, journal.config().nodes())?;
                Ok(text)
            }
            None => Ok(text),
        }
    }
}

impl<K: Keeping> LineRunner for HostRun<K> {
    ghost use Rattle.line_run.specs.BadLines.{bad_lines_tell_nothing};
    ghost use Rattle.line_run.specs.Running.{RefusesLine, Tells};

    ghost tells = { Tells };

    ghost refuses = { RefusesLine };

    ghost untold = { bad_lines_tell_nothing };

    fn line(&mut self, alloc: Global, fields: &[&[u8]]) -> Result<Option<String>, LineError> {
        let (number, outcome) = self.carry_out(alloc, fields)?;
        let printed = self.printed(alloc, number, &outcome);
        drop(outcome);
        Ok(printed?)
    }
}

/// A law: the marks of an event that is applied name its emissions, then and as long as their slot is not closed. So a
/// node that hears one by its mark gets it.
#[tactic(auto, using(crate::proofs::MarkedEmissions::marks_name_emissions))]
pub fn marks_name_emissions()
    ensures then { MarksNameEmissions }
    ensures later { EmissionsStay }
{}

/// A law: each emission that waits to be handed on is found in its network, and in a served network none waits. Each
/// line that is run keeps it. It is so before the first line, and so after the lines of a text, all of which were run.
#[tactic(auto, using(crate::proofs::FollowedLaws::lines_follow_journals))]
pub fn waiting_emissions_are_found()
    ensures lines { LinesFollowJournals }
    ensures runs { RunsFollowJournals }
{}
