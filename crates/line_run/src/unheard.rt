//! What nodes of networks have emitted and no line has handed on.

ghost use Rattle.std.specs.Prelude.{◌≡◌, ◌++◌, [], OnOk, option_map};
ghost use Rattle.line_run.specs.Unheard.{WaitsAfter, WaitThere, named_emissions, first_emitted, unheard_at};

use host_network::{Emission, Given, push_named};
use scp_types::{Envelope, Out};
use std::alloc::{AllocError, Global};
use std::collections::BTreeMap;
use std::marker::Model;

/// The emissions that wait at slots of networks, in the order in which they were emitted.
#[derive(Drop)]
pub(crate) struct Unheard {
    alloc: Global,
    waiting: BTreeMap<(u32, u64), Vec<Emission>>,
}

impl Model for Unheard {
    ghost use Rattle.std.specs.Coded.{codes};
    ghost use Rattle.scp_types.specs.Trees.{members_code};
    ghost use Rattle.line_run.specs.Unheard.{Unheard};

    ghost Value = { Unheard };

    ghost coded = { Prim.hlevel (codes, members_code) };

    ghost view = { λ unheard. unheard.waiting.entries };
}

impl Unheard {
    /// Nothing waits. It takes no memory.
    pub fn nothing(alloc: Global) -> Unheard
        ensures { result ≡ [] }
    {
        Unheard {
            alloc,
            waiting: BTreeMap::new(alloc),
        }
    }

    /// Takes out what waits at a slot of a network.
    pub fn take(&mut self, number: u32, slot: u64) -> Vec<Emission>
        ensures taken { result.items ≡ unheard_at self.old number slot }
        ensures rest { WaitThere number slot [] self.old self.new }
    {
        match self.waiting.remove(&(number, slot)) {
            Some(emissions) => emissions,
            None => Vec::new(self.alloc),
        }
    }

    /// Has these emissions wait at a slot of a network, in the place of what waits there. An error says that it is out
    /// of memory; then these emissions are lost.
    pub fn put(
        &mut self,
        number: u32,
        slot: u64,
        emissions: Vec<Emission>,
    ) -> Result<(), AllocError>
        ensures { OnOk result (WaitThere number slot emissions.items self.old self.new) }
    {
        match self.waiting.insert((number, slot), emissions) {
            Ok(_) => Ok(()),
            // Memory: the map has no room.
            Err(_) => Err(AllocError),
        }
    }

    /// An event of the network of a number was applied and gave this out; `closed` is the slot that it closed, if it
    /// closed one. An error says that it is out of memory; then what the event emitted is lost, and what waited there.
    pub fn note(
        &mut self,
        number: u32,
        closed: Option<u64>,
        given: &Given,
    ) -> Result<(), AllocError>
        ensures { OnOk result (WaitsAfter closed number given.now self.old self.new) }
    {
        match closed {
            Some(slot) => {
                let _forgotten = self.take(number, slot);
                Ok(())
            }
            None => match first_emitted(&given.outs) {
                Some(first) => self.add(number, first.slot(), given),
                None => Ok(()),
            },
        }
    }

    /// What an event emitted waits behind what waits at a slot.
    fn add(&mut self, number: u32, slot: u64, given: &Given) -> Result<(), AllocError>
        ensures { OnOk result (WaitThere number slot (unheard_at self.old number slot ++ named_emissions given.now) self.old self.new) }
    {
        let mut emissions = self.take(number, slot);
        push_named(&given.outs, &given.marks, &mut emissions)?;
        self.put(number, slot, emissions)
    }
}

/// What was emitted first.
pub(crate) fn first_emitted(outs: &[Out]) -> Option<&Envelope>
    ensures { option_map (λ e. e.now) result ≡ first_emitted outs.now }
{
    match outs {
        [] => None,
        [Out::Emit(envelope), ..] => Some(envelope),
        [_, rest @ ..] => first_emitted(rest),
    }
}
