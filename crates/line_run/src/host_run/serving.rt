//! What events of networks do, and what others hear of them in served ones.

ghost use Rattle.std.specs.Prelude.{◌≡◌, ◌++◌, ◌∷◌, [], IfOk, List, OnOk, Result, option_map};
ghost use Rattle.scp_types.specs.declared.event.Event.TheVariants.{Deliver};
ghost use Rattle.scp_types.specs.declared.event.Refusal.{Refusal};
ghost use Rattle.host_network.specs.declared.applied.Given.{Given};
ghost use Rattle.host_world.specs.Worlds.{log_at};
ghost use Rattle.line_run.specs.ServedNetworks.{AreAllDelivered, AreDelivered, IsEventServed, IsHeardAt, hosted_names_in};
ghost use Rattle.line_run.specs.Unheard.{slot_closed_by, first_emitted};

use super::HostRun;
use crate::hearings::{let_all_hear, names_of};
use crate::unheard::first_emitted;
use host_journal::Keeping;
use host_network::{Given, push_named};
use host_world::World;
use node_store::BoxShelf;
use scp_types::{Bytes, Event, NodeId, Refusal};
use std::alloc::{AllocError, Global};

impl<K: Keeping> HostRun<K> {
    /// Puts an event to the network of a number. What it emits waits to be handed on. If the network is served, the
    /// other nodes hear it instead. An error says that it is out of memory, maybe for a hearing.
    pub(super) fn serve(
        &mut self,
        alloc: Global,
        number: u32,
        event: Event,
    ) -> Result<Result<Given, Refusal>, AllocError>
        ensures { IfOk result (λ answer. IsEventServed number event answer self.old self.new) }
    {
        let closed = slot_closed_by(&event);
        match self.world.apply(number, event) {
            Err(refusal) => Ok(Err(refusal)),
            Ok(given) => {
                if self.nets.is_served(number) {
                    let_hear_of(alloc, &mut self.world, number, &given)?;
                    return Ok(Ok(given));
                }
                self.unheard.note(number, closed, &given)?;
                Ok(Ok(given))
            }
        }
    }

    /// Bytes come to all nodes of the network of a number: what each answers, in the order of names. If it is not
    /// there, that refusal is the one answer.
    pub(super) fn deliver_to_all(
        &mut self,
        alloc: Global,
        number: u32,
        bytes: &Bytes,
    ) -> Result<Vec<Result<Given, Refusal>>, AllocError>
        ensures { IfOk result (λ answers. AreAllDelivered number bytes.now self.old answers.items self.new) }
    {
        let mut answers = Vec::new(alloc);
        match names(alloc, &self.world, number)? {
            Some(names) => self.deliver_each(alloc, number, &names, bytes, &mut answers)?,
            None => push(&mut answers, Err(Refusal::NoSuchNetwork))?,
        }
        Ok(answers)
    }

    /// Bytes come to each of these nodes, one after the other, and what is answered is added, in order. An error says
    /// that it is out of memory; then they may have come to none of them, to some or to all.
    fn deliver_each(
        &mut self,
        alloc: Global,
        number: u32,
        names: &[NodeId],
        bytes: &Bytes,
        answers: &mut Vec<Result<Given, Refusal>>,
    ) -> Result<(), AllocError>
        ensures { OnOk result ((rs : List (Result Given Refusal)) × (answers.new.items ≡ answers.old.items ++ rs) × AreDelivered number bytes.now names.now self.old rs self.new) }
    {
        let [node, others @ ..] = names else {
            return Ok(());
        };
        let answer = self.deliver(alloc, number, *node, bytes)?;
        push(answers, answer)?;
        self.deliver_each(alloc, number, others, bytes, answers)
    }

    /// Bytes come to a node: what is answered.
    fn deliver(
        &mut self,
        alloc: Global,
        number: u32,
        node: NodeId,
        bytes: &Bytes,
    ) -> Result<Result<Given, Refusal>, AllocError>
        ensures { IfOk result (λ answer. IsEventServed number (Deliver node bytes.now) answer self.old self.new) }
    {
        let bytes = bytes.try_copy(alloc)?;
        self.serve(alloc, number, Event::Deliver { node, bytes })
    }
}

/// The slot that an event closes, if it closes one.
fn slot_closed_by(event: &Event) -> Option<u64>
    ensures { result ≡ slot_closed_by event.now }
{
    match event {
        Event::CloseSlot { slot } => Some(*slot),
        _ => None,
    }
}

/// The other nodes of a network hear what an event gave out.
fn let_hear_of<K: Keeping>(
    alloc: Global,
    world: &mut World<BoxShelf, K>,
    number: u32,
    given: &Given,
) -> Result<(), AllocError>
    ensures { OnOk result (IsHeardAt number (first_emitted given.now.outs.items) given.now world.old world.new) }
{
    let Some(first) = first_emitted(&given.outs) else {
        return Ok(());
    };
    match names(alloc, world, number)? {
        Some(names) => {
            let mut waiting = Vec::new(alloc);
            push_named(&given.outs, &given.marks, &mut waiting)?;
            let_all_hear(world, number, first.slot(), &names, waiting)
        }
        None => Ok(()),
    }
}

/// The hosted nodes of the network of a number, ascending, if it is there.
fn names<K: Keeping>(
    alloc: Global,
    world: &World<BoxShelf, K>,
    number: u32,
) -> Result<Option<Vec<NodeId>>, AllocError>
    ensures { IfOk result (λ names. option_map (λ v. v.items) names ≡ hosted_names_in (log_at world.now number)) }
{
    match world.journal(number) {
        Some(journal) => Ok(Some(names_of(alloc, journal.config())?)),
        None => Ok(None),
    }
}

/// One answer more.
fn push(
    answers: &mut Vec<Result<Given, Refusal>>,
    answer: Result<Given, Refusal>,
) -> Result<(), AllocError>
    ensures { OnOk result (answers.new.items ≡ answers.old.items ++ answer ∷ []) }
{
    match answers.push(answer) {
        Ok(()) => Ok(()),
        // Memory: the list has no room.
        Err(_) => Err(AllocError),
    }
}
