//! What all workers share.

ghost use Rattle.std.specs.Prelude.{◌≡◌, ◌<◌, MatchOption, length, slice_index_or};
ghost use Rattle.pool_cell.specs.Sights.{CellSight};
ghost use Rattle.pool_workers.specs.Numbers.{IsNumbered, Lacks};

use node_store::Shelf;
use pool_cell::Cell;
use pool_queue::Queue;
use std::sync::Wait;

/// The cells ascending by the numbers of their networks, these numbers in memory that lies together, and the
/// queue as long as there is one.
#[derive(Drop)]
pub(crate) struct Shared<S: Shelf, H: Wait + Drop> {
    pub numbers: Vec<u32>,
    pub cells: Vec<Cell<S, H>>,
    pub queue: Option<Queue>,
}

impl<S: Shelf, H: Wait + Drop> Shared<S, H> {
    /// The place of a network's cell, by a binary search.
    pub(crate) fn find(&self, number: u32) -> Option<usize>
        requires { IsNumbered self.now.numbers.items self.now.cells.items }
        ensures { MatchOption result (Lacks self.now.cells.items number) (λ k. (k < length self.now.cells.items) × ((d : CellSight) → (slice_index_or self.now.cells.items k d).config.number ≡ number)) }
    {
        match self.numbers.binary_search(&number) {
            Ok(place) => Some(place),
            Err(_) => None,
        }
    }
}
