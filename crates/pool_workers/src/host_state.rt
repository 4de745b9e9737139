//! The cells of a host, and the seats at them.

ghost use Rattle.std.specs.Prelude.{◌≡◌, ◌<◌, ◌≤◌, ◌∷◌, length, insert, IsTrue, vec_len, vec_capacity};
ghost use Rattle.pool_workers.specs.HostStates.{HasRoomForCell, IsNetworkPut, IsRemoved, IsSameHostState, IsTurned};
ghost use Rattle.pool_workers.specs.Nets.{IsKeptState, nets_in};

use crate::deal::SpareSeats;
use crate::shared::Shared;
use node_store::Shelf;
use pool_cell::{Cell, Seat};
use std::sync::Wait;

/// What workers share, and the seats that they do not have now, in the order of the cells.
#[derive(Drop)]
pub(crate) struct HostState<S: Shelf, H: Wait + Drop> {
    pub shared: Shared<S, H>,
    pub spares: Vec<SpareSeats<S, H>>,
}

impl<S: Shelf + Drop, H: Wait + Drop> HostState<S, H> {
    /// Makes room for one network more. `false` says that it is out of memory.
    pub(crate) fn reserve(&mut self) -> bool
        ensures same { IsSameHostState self.old self.new }
        ensures room { IsTrue result → HasRoomForCell self.new }
    {
        if self.shared.numbers.reserve(1).is_err() {
            return false;
        }
        if self.shared.cells.reserve(1).is_err() {
            return false;
        }
        self.spares.reserve(1).is_ok()
    }

    /// A network joins at a place, for which there is room.
    pub(crate) fn put_at(&mut self, place: usize, cell: Cell<S, H>, seats: Vec<Seat<S, H>>)
        requires place { (place ≤ length self.old.shared.numbers.items) × (place ≤ length self.old.shared.cells.items) × (place ≤ length self.old.spares.items) }
        requires room { HasRoomForCell self.old }
        ensures { IsNetworkPut self.old place cell seats.items self.new }
    {
        let number = cell.config().number();
        let Ok(()) = self.shared.numbers.insert(place, number) else {
            unreachable!()
        };
        let Ok(()) = self.shared.cells.insert(place, cell) else {
            unreachable!()
        };
        let Ok(()) = self.spares.insert(place, SpareSeats { seats }) else {
            unreachable!()
        };
    }

    /// The networks stand the other way round. It takes no memory.
    fn turn(&mut self)
        ensures { IsTurned self.old self.new }
    {
        self.shared.numbers.reverse();
        self.shared.cells.reverse();
        self.spares.reverse();
    }

    /// The networks stand turned around if that is wanted, and not if it is not, from how they stand now. It takes no
    /// memory.
    pub(crate) fn turn_to(&mut self, is_turned: bool, wanted: bool)
        requires { IsKeptState is_turned self.old }
        ensures kept { IsKeptState wanted self.new }
        ensures nets { nets_in wanted self.new ≡ nets_in is_turned self.old }
    {
        if is_turned != wanted {
            self.turn();
        }
    }

    pub(crate) fn remove_last(&mut self) -> (Cell<S, H>, Vec<Seat<S, H>>)
        requires { (0 < length self.old.shared.numbers.items) × (0 < length self.old.shared.cells.items) × (0 < length self.old.spares.items) }
        ensures { IsRemoved self.old result.0 result.1.items self.new }
    {
        let Some(_number) = self.shared.numbers.pop() else {
            unreachable!()
        };
        let Some(cell) = self.shared.cells.pop() else {
            unreachable!()
        };
        let Some(spare) = self.spares.pop() else {
            unreachable!()
        };
        let SpareSeats { seats } = spare;
        (cell, seats)
    }
}
