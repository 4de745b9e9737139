//! A shelf of one owner.

use crate::shelf::{Places, Shelf};
use scp_types::Envelope;
use std::alloc::Global;

/// Envelopes in boxes of their own: each stays where it is in memory, and goes with its place.
#[derive(Drop)]
pub struct BoxShelf {
    alloc: Global,
}

impl BoxShelf {
    /// A shelf. It takes no memory.
    pub fn new(alloc: Global) -> BoxShelf {
        BoxShelf { alloc }
    }
}

impl Places for BoxShelf {
    ghost use Rattle.std.specs.Prelude.{box_value};

    type Place = Box<Envelope>;

    ghost is_of = { λ s p. Unit {0} };

    ghost put_there = { λ p. box_value p };

    fn read<'a>(&'a self, place: &'a Box<Envelope>) -> &'a Envelope {
        place
    }
}

impl Shelf for BoxShelf {
    fn put(&mut self, envelope: Envelope) -> Result<Box<Envelope>, Envelope> {
        match Box::new(self.alloc, envelope) {
            Ok(kept) => Ok(kept),
            Err(failed) => Err(failed.value),
        }
    }
}
