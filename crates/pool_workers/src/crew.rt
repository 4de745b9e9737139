//! Workers before a run: the room that they need.

ghost use Rattle.std.specs.Prelude.{◌≡◌, ◌<◌, ◌≤◌, IfOk, length};
ghost use Rattle.pool_workers.specs.Spares.{HaveSpareSeats, IsWorkerRoom};

use crate::deal::{SpareSeats, WorkerRoom, fewest_seats, make_worker_room};
use crate::host::Host;
use node_store::Shelf;
use std::alloc::{AllocError, Global};
use std::marker::Model;
use std::sync::Wait;

/// Room for workers at the networks of a host, made before their run, which then takes no memory of its own.
///
/// Contracts see for how many networks there is room.
///
/// For example, a crew of four for a host of three networks has room for 12 seats.
#[derive(Drop)]
pub struct Crew<S: Shelf, H: Wait + Drop> {
    worker_room: WorkerRoom<S, H>,
    networks: usize,
}

impl<S: Shelf, H: Wait + Drop> Model for Crew<S, H> {
    ghost use Rattle.std.specs.Prelude.{◌<◌, ℕ, length};
    ghost use Rattle.pool_workers.specs.Spares.{IsWorkerRoom};

    ghost Value = { ℕ };

    ghost view = { λ c. c.networks };

    ghost invariant = { λ c. (0 < length c.worker_room.rooms.items) × IsWorkerRoom (length c.worker_room.rooms.items) c.networks c.worker_room };
}

impl<S: Shelf + Drop, H: Wait + Drop> Crew<S, H> {
    /// Room for `workers` workers, at least one, at each network that a host has now. An error says that it is out of
    /// memory.
    pub fn new(alloc: Global, host: &Host<S, H>, workers: usize) -> Result<Crew<S, H>, AllocError>
        requires { 0 < workers }
        ensures { IfOk result (λ c. c ≡ length host.now) }
    {
        let networks = host.len();
        let worker_room = make_worker_room(alloc, workers, networks)?;
        Ok(Crew {
            worker_room,
            networks,
        })
    }

    /// The room of as many workers as have a pass each, and a seat at each cell.
    pub(crate) fn into_room(self, spares: &[SpareSeats<S, H>], passes: usize) -> WorkerRoom<S, H>
        requires some { 0 < passes }
        requires seats { HaveSpareSeats 1 spares.now }
        requires room { length spares.now ≤ self }
        ensures bound { (0 < length result.rooms.items) × (length result.rooms.items ≤ passes) }
        ensures seats { HaveSpareSeats (length result.rooms.items) spares.now }
        ensures room { IsWorkerRoom (length result.rooms.items) (length spares.now) result }
    {
        let Crew {
            mut worker_room,
            networks: _,
        } = self;
        let many = fewest_seats(spares, worker_room.rooms.len().min(passes));
        worker_room.rooms.truncate(many);
        worker_room
    }
}
