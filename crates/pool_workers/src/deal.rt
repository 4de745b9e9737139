//! Seats dealt to workers, and given back.

ghost use Rattle.std.specs.Prelude.{◌≡◌, ◌<◌, ◌≤◌, ◌+◌, IfOk, ◌∷◌, ◌++◌, vec_capacity, vec_len, length, []};
ghost use Rattle.pool_workers.specs.Spares.{NoneHasCounted, HaveSpareSeats, AllRoomy, IsWorkerRoom, AreSparesDealt, IsDealtAll, IsDealtSeat, AreSeatsGivenBack, IsSplit};
ghost use Rattle.pool_cell.specs.Sights.{SeatSight};

use crate::worker::Worker;
use node_store::Shelf;
use pool_cell::Seat;
use pool_queue::Pass;
use std::alloc::{AllocError, Global};
use std::sync::Wait;

/// The seats at one cell that no worker has.
#[derive(Drop)]
pub(crate) struct SpareSeats<S: Shelf, H: Wait + Drop> {
    pub seats: Vec<Seat<S, H>>,
}

/// Room for the seats of one worker.
#[derive(Drop)]
pub(crate) struct Room<S: Shelf, H: Wait + Drop> {
    pub seats: Vec<Seat<S, H>>,
}

/// Room for workers, and for the seats of each.
#[derive(Drop)]
pub(crate) struct WorkerRoom<S: Shelf, H: Wait + Drop> {
    pub rooms: Vec<Room<S, H>>,
    pub workers: Vec<Worker<S, H>>,
}

/// `most`, or as many as the fewest seats of a cell, if those are fewer.
pub(crate) fn fewest_seats<S: Shelf, H: Wait + Drop>(
    spares: &[SpareSeats<S, H>],
    most: usize,
) -> usize
    requires some { 0 < most }
    requires seats { HaveSpareSeats 1 spares.now }
    ensures bound { (0 < result) × (result ≤ most) }
    ensures seats { HaveSpareSeats result spares.now }
{
    let mut least = most;
    for spare in spares {
        least = least.min(spare.seats.len());
    }
    least
}

pub(crate) fn make_worker_room<S: Shelf, H: Wait + Drop>(
    alloc: Global,
    workers: usize,
    cells: usize,
) -> Result<WorkerRoom<S, H>, AllocError>
    ensures { IfOk result (IsWorkerRoom workers cells) }
{
    let mut rooms = Vec::with_capacity(alloc, workers)?;
    for _made in 0..workers {
        rooms.push_reserved(Room {
            seats: Vec::with_capacity(alloc, cells)?,
        });
    }
    Ok(WorkerRoom {
        rooms,
        workers: Vec::with_capacity(alloc, workers)?,
    })
}

/// The last spare seat of a cell, which lets go of all receipts that it has kept.
fn deal_seat<S: Shelf, H: Wait + Drop>(spare: &mut SpareSeats<S, H>, seats: &mut Vec<Seat<S, H>>)
    requires some { 0 < length spare.old.seats.items }
    requires room { vec_len seats.old < vec_capacity seats.old }
    ensures dealt { (s : SeatSight) × (seats.new.items ≡ seats.old.items ++ s ∷ []) × IsDealtSeat spare.old s spare.new }
    ensures room { (vec_len seats.new ≡ vec_len seats.old + 1) × (vec_capacity seats.new ≡ vec_capacity seats.old) }
{
    let Some(mut seat) = spare.seats.pop() else {
        unreachable!()
    };
    seat.let_go_receipts();
    seats.push_reserved(seat);
}

/// One worker's seats: the last spare one of each cell.
pub(crate) fn deal_one<S: Shelf, H: Wait + Drop>(
    spares: &mut Vec<SpareSeats<S, H>>,
    room: Room<S, H>,
) -> Vec<Seat<S, H>>
    requires seats { HaveSpareSeats 1 spares.old.items }
    requires room { (room.seats.items ≡ []) × (length spares.old.items ≤ vec_capacity room.seats) }
    ensures { AreSparesDealt spares.old.items result.items spares.new.items }
{
    let Room { mut seats } = room;
    let many = spares.len();
    for k in 0..many {
        deal_seat(&mut spares[k], &mut seats);
    }
    seats
}

/// A worker for each room, with a pass of its own and a seat at each cell.
pub(crate) fn deal<S: Shelf, H: Wait + Drop>(
    spares: &mut Vec<SpareSeats<S, H>>,
    passes: &mut Vec<Pass>,
    worker_room: WorkerRoom<S, H>,
) -> Vec<Worker<S, H>>
    requires passes { length worker_room.rooms.items ≤ vec_len passes.old }
    requires seats { HaveSpareSeats (length worker_room.rooms.items) spares.old.items }
    requires worker_room { IsWorkerRoom (length worker_room.rooms.items) (length spares.old.items) worker_room }
    ensures dealt { IsDealtAll spares.old.items result.items spares.new.items }
    ensures fresh { NoneHasCounted result.items × (length result.items ≡ length worker_room.rooms.items) }
    ensures passes { IsSplit passes.old.items result.items passes.new.items }
    ensures room { (vec_len passes.new + length result.items ≡ vec_len passes.old) × (vec_capacity passes.new ≡ vec_capacity passes.old) }
{
    let WorkerRoom {
        mut rooms,
        mut workers,
    } = worker_room;
    while let Some(room) = rooms.pop() {
        workers.push_reserved(Worker {
            seats: deal_one(spares, room),
            pass: passes.pop(),
            applied: 0,
            refused: 0,
        });
    }
    workers
}

/// The seats of one worker go back to the spare ones.
pub(crate) fn give_back<S: Shelf, H: Wait + Drop>(
    spares: &mut Vec<SpareSeats<S, H>>,
    worker: Worker<S, H>,
)
    requires room { AllRoomy spares.old.items }
    requires seats { length worker.seats.items ≡ length spares.old.items }
    ensures { AreSeatsGivenBack spares.old.items worker.seats.items spares.new.items }
{
    let Worker {
        mut seats,
        pass: _,
        applied: _,
        refused: _,
    } = worker;
    while let Some(seat) = seats.pop() {
        spares[seats.len()].seats.push_reserved(seat);
    }
}
