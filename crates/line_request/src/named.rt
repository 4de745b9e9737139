//! The numbers of networks that events of a script have named. Here a `settle` line counts as an event.

ghost use Rattle.std.specs.Prelude.{◌<◌, ◌≡◌, ◌^◌, None, OnOk, length};
ghost use Rattle.line_request.specs.Naming.{IsForgotten, IsWithout, is_in, named_with, new_named, served_with, with_number};

use std::alloc::{AllocError, Global};
use std::collections::BTreeSet;
use std::marker::Model;

/// The numbers that events have named, those of them whose network was declared by then, and those whose network was
/// declared as served.
#[derive(Drop)]
pub struct Named {
    numbers: BTreeSet<u32>,
    running: BTreeSet<u32>,
    served: BTreeSet<u32>,
}

impl Model for Named {
    ghost use Rattle.std.specs.Coded.{codes};
    ghost use Rattle.scp_types.specs.Trees.{members_code};
    ghost use Rattle.line_request.specs.Naming.{Named};

    ghost Value = { Named };

    ghost coded = { Prim.hlevel (codes, members_code) };

    ghost view = { λ named. record { numbers = named.numbers.keys; running = named.running.keys; served = named.served.keys } };
}

impl Named {
    /// No number has been named. It takes no memory.
    pub fn none(alloc: Global) -> Named
        ensures { result ≡ new_named }
    {
        Named {
            numbers: BTreeSet::new(alloc),
            running: BTreeSet::new(alloc),
            served: BTreeSet::new(alloc),
        }
    }

    /// Whether an event has named the number.
    pub fn has(&self, number: u32) -> bool
        ensures { result ≡ is_in self.now.numbers number }
    {
        self.numbers.contains(&number)
    }

    /// Whether an event has named the network of a number after it was declared.
    pub fn is_running(&self, number: u32) -> bool
        ensures { result ≡ is_in self.now.running number }
    {
        self.running.contains(&number)
    }

    /// Whether the network of a number was declared as served.
    pub fn is_served(&self, number: u32) -> bool
        ensures { result ≡ is_in self.now.served number }
    {
        self.served.contains(&number)
    }

    /// How many networks events have named after they were declared.
    pub fn count(&self) -> usize
        ensures count { result ≡ length self.now.running }
        ensures small { result < 2 ^ 63 }
    {
        self.running.len()
    }

    /// Notes that an event has named a number of which no network waits.
    pub fn name(&mut self, number: u32) -> Result<(), AllocError>
        ensures { OnOk result (self.new ≡ named_with number None self.old) }
    {
        match self.numbers.insert(number) {
            Ok(_) => Ok(()),
            // Memory: the set has no room.
            Err(_) => Err(AllocError),
        }
    }

    /// Notes that an event has named the network of a number, which waited for it.
    pub fn run(&mut self, number: u32) -> Result<(), AllocError>
        ensures { OnOk result
            (self.new ≡ record self.old { numbers = with_number self.old.numbers number; running = with_number self.old.running number }) }
    {
        self.name(number)?;
        match self.running.insert(number) {
            Ok(_) => Ok(()),
            // Memory: the set has no room.
            Err(_) => Err(AllocError),
        }
    }

    /// Notes that the network of a number was declared as served.
    pub fn serve(&mut self, number: u32) -> Result<(), AllocError>
        ensures { OnOk result (self.new ≡ served_with number self.old) }
    {
        match self.served.insert(number) {
            Ok(_) => Ok(()),
            // Memory: the set has no room.
            Err(_) => Err(AllocError),
        }
    }

    /// Forgets a number whose network was taken back: it is as if no line had named it.
    pub fn forget(&mut self, number: u32)
        ensures { IsForgotten number self.old self.new }
    {
        remove(&mut self.numbers, number);
        remove(&mut self.running, number);
        remove(&mut self.served, number);
    }
}

fn remove(numbers: &mut BTreeSet<u32>, number: u32)
    ensures { IsWithout number numbers.old.keys numbers.new.keys }
{
    let _there = numbers.remove(&number);
}
