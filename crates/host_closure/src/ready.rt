//! The announcements that became ready since the turns of their senders.

ghost use Rattle.std.specs.Prelude.{◌≡◌, [], length, option_map, slice_get, IfOk, OnOk};
ghost use Rattle.host_closure.specs.Turns.{lists_after_turn, with_ready};

use std::alloc::{AllocError, Global};
use std::marker::Model;
use std::mem;

/// For each member that had a turn, by its place, the numbers of the announcements that its next turn looks at: those
/// to members that joined since the last one.
#[derive(Drop)]
pub struct Ready {
    places: Vec<Vec<usize>>,
}

impl Model for Ready {
    ghost use Rattle.std.specs.Prelude.{List, ℕ, map};

    ghost Value = { List (List ℕ) };

    ghost view = { λ a. map (λ v. v.items) a.places.items };
}

impl Ready {
    /// No member had a turn.
    pub fn new(alloc: Global) -> Ready
        ensures { result ≡ [] }
    {
        Ready {
            places: Vec::new(alloc),
        }
    }

    /// Adds a number for the member at a place, unless it had no turn yet, since its first one looks at all that it
    /// announced. An error says that it is out of memory.
    pub fn put(&mut self, place: usize, number: usize) -> Result<(), AllocError>
        ensures { OnOk result (self.new ≡ with_ready self.old place number) }
    {
        if place < self.places.len() {
            self.places[place].push(number)?;
        }
        Ok(())
    }

    /// Takes the numbers that are ready for the member at a place. `None` says that this is its first turn; it has a
    /// list from then on, if it is the next place. An error says that it is out of memory.
    pub fn take(&mut self, alloc: Global, place: usize) -> Result<Option<Vec<usize>>, AllocError>
        ensures numbers { IfOk result (λ o. option_map (λ v. v.items) o ≡ slice_get self.old place) }
        ensures turned { OnOk result (self.new ≡ lists_after_turn self.old place) }
    {
        if place < self.places.len() {
            return Ok(Some(mem::replace(&mut self.places[place], Vec::new(alloc))));
        }
        self.places.push(Vec::new(alloc))?;
        Ok(None)
    }
}
