//! The networks of a script that are declared and that no event has named since.

ghost use Rattle.std.specs.Prelude.{◌<◌, ◌≡◌, ◌^◌, ◌∷◌, [], Err, IfNone, IfSome, None, OnOk, false, is_some, length, option_map, true};
ghost use Rattle.line_request.specs.Outlines.{IsRevised, bare_outline, waiting_at, waiting_with, waiting_without, with_node, with_roster};
ghost use Rattle.line_request.specs.Taking.{takes_node, takes_roster};
ghost use Rattle.line_request.specs.Telling.{is_bare};

use crate::outlines::Outline;
use host_config::{Budgets, Reservation};
use line_script::LineError;
use scp_types::{Nested, NodeId};
use std::alloc::Global;
use std::collections::BTreeMap;
use std::marker::Model;

/// The networks of a script that are declared and that no event has named since, by number. Contracts see them
/// ascending.
#[derive(Drop)]
pub struct Waiting {
    alloc: Global,
    outlines: BTreeMap<u32, Outline>,
}

impl Model for Waiting {
    ghost use Rattle.std.specs.Coded.{codes};
    ghost use Rattle.scp_types.specs.Trees.{members_code};
    ghost use Rattle.line_request.specs.Outlines.{Waiting};

    ghost Value = { Waiting };

    ghost coded = { Prim.hlevel (codes, members_code) };

    ghost view = { λ waiting. waiting.outlines.entries };
}

impl Waiting {
    /// No network has been declared. It takes no memory.
    pub fn none(alloc: Global) -> Waiting
        ensures { result ≡ [] }
    {
        Waiting {
            alloc,
            outlines: BTreeMap::new(alloc),
        }
    }

    /// Adds a network with its budgets. The line is bad if one of its number waits.
    pub fn declare(&mut self, number: u32, budgets: Budgets) -> Result<(), LineError>
        ensures absent { OnOk result (waiting_at self.old number ≡ None) }
        ensures declared { OnOk result (self.new ≡ waiting_with self.old number (bare_outline budgets)) }
        ensures bad { result ≡ Err LineError.Bad → is_some (waiting_at self.old number) ≡ true }
    {
        if self.outlines.contains_key(&number) {
            return Err(LineError::Bad);
        }
        match self
            .outlines
            .insert(number, Outline::new(self.alloc, budgets))
        {
            Ok(_) => Ok(()),
            Err(_) => Err(LineError::NoMemory),
        }
    }

    /// Adds a node to a network. The line is bad if the network does not wait, or if the configuration refuses the
    /// node.
    pub fn host(&mut self, number: u32, name: NodeId, slices: Nested) -> Result<(), LineError>
        ensures hosted { OnOk result (IsRevised number (λ d. with_node d name slices) self.old self.new) }
        ensures taken { OnOk result (takes_node (waiting_at self.old number) name ≡ true) }
        ensures bad { result ≡ Err LineError.Bad → takes_node (waiting_at self.old number) name ≡ false }
    {
        match self.outlines.get_mut(&number) {
            Some(outline) => outline.host(name, slices),
            None => Err(LineError::Bad),
        }
    }

    /// Gives a network its roster. The line is bad if the network does not wait or has a roster, or if the
    /// configuration refuses this one.
    pub fn reserve(&mut self, number: u32, roster: Reservation) -> Result<(), LineError>
        ensures reserved { OnOk result
            (IsRevised number (λ d. with_roster d roster.names.items roster.shares) self.old self.new) }
        ensures taken { OnOk result
            (takes_roster (waiting_at self.old number) roster.names.items roster.shares ≡ true) }
        ensures bad { result ≡ Err LineError.Bad
            → takes_roster (waiting_at self.old number) roster.names.items roster.shares ≡ false }
    {
        match self.outlines.get_mut(&number) {
            Some(outline) => outline.reserve(roster),
            None => Err(LineError::Bad),
        }
    }

    /// Whether the network of this number waits.
    pub fn has(&self, number: u32) -> bool
        ensures { result ≡ is_some (waiting_at self.now number) }
    {
        self.outlines.contains_key(&number)
    }

    /// The network of a number, if it waits.
    pub fn outline(&self, number: u32) -> Option<&Outline>
        ensures { option_map (λ d. d.now) result ≡ waiting_at self.now number }
    {
        self.outlines.get(&number)
    }

    /// Whether the network of a number waits and takes a node of this name.
    pub fn takes_node(&self, number: u32, name: &NodeId) -> bool
        ensures { result ≡ takes_node (waiting_at self.now number) name.now }
    {
        match self.outlines.get(&number) {
            Some(outline) => outline.takes_node(name),
            None => false,
        }
    }

    /// Whether the network of a number waits and takes this roster.
    pub fn takes_roster(&self, number: u32, roster: &Reservation) -> bool
        ensures { result ≡ takes_roster (waiting_at self.now number) roster.now.names.items roster.now.shares }
    {
        match self.outlines.get(&number) {
            Some(outline) => outline.takes_roster(roster),
            None => false,
        }
    }

    /// Whether the network of a number waits and has no node.
    pub fn is_bare(&self, number: u32) -> bool
        ensures { result ≡ is_bare (waiting_at self.now number) }
    {
        match self.outlines.get(&number) {
            Some(outline) => outline.is_bare(),
            None => false,
        }
    }

    /// How many networks wait.
    pub fn count(&self) -> usize
        ensures count { result ≡ length self.now }
        ensures small { result < 2 ^ 63 }
    {
        self.outlines.len()
    }

    /// Takes out the network of a number, if it waits.
    pub fn take(&mut self, number: u32) -> Option<Outline>
        ensures which { result ≡ waiting_at self.old number }
        ensures rest { IfSome result (λ _. self.new ≡ waiting_without self.old number) }
        ensures without { self.new ≡ waiting_without self.old number }
        ensures same { IfNone result (self.new ≡ self.old) }
    {
        self.outlines.remove(&number)
    }

    /// Takes out the network of the least number, if some network waits.
    pub fn take_first(&mut self) -> Option<(u32, Outline)>
        ensures some { IfSome result (λ first. self.old ≡ first ∷ self.new) }
        ensures none { IfNone result (self.old ≡ []) }
    {
        self.outlines.pop_first()
    }
}
