//! One network that one thread runs.

ghost use Rattle.std.specs.Prelude.{◌≡◌, ◌∷◌, [], IfOk};
ghost use Rattle.pool_workers.specs.Alone.{HasOneSeat, IsRunAlone};

use crate::gate::Gate;
use crate::running::Report;
use crate::shared::Shared;
use crate::worker::Worker;
use crate::workplace::Workplace;
use node_store::Shelf;
use pool_cell::{Cell, Seat};
use pool_queue::Job;
use std::alloc::{AllocError, Global};
use std::sync::Wait;

/// Runs jobs of one network by the one seat of its cell, in this thread: the last of the list first, and what follows
/// from each before the next, as [`run`](crate::run) does. The seat lets go of all receipts. A job of another network
/// counts as refused. An error says that it is out of memory.
///
/// However jobs are weighed, two sums are the same. One is of these jobs, and of one Hear for each emission of the
/// receipts that were gained and each other hosted node. The other is of the jobs that were applied, those that were
/// refused, and those of other networks. The report has these numbers.
pub fn run_alone<S: Shelf + Drop, H: Wait + Drop, R: Wait, G: Gate>(
    rt: &R,
    alloc: Global,
    cell: Cell<S, H>,
    mut seats: Vec<Seat<S, H>>,
    jobs: Vec<Job>,
    gate: &G,
) -> Result<(Cell<S, H>, Vec<Seat<S, H>>, Report), AllocError>
    requires { HasOneSeat cell seats.items }
    ensures cell { IfOk result (λ r. r.0 ≡ cell) }
    ensures run { IfOk result (λ r. IsRunAlone cell seats.items r.1.items jobs.items r.2) }
{
    seats[0].let_go_receipts();
    let numbers = vec![in alloc; cell.config().number()]?;
    let mut shared = Shared {
        numbers,
        cells: vec![in alloc; cell]?,
        queue: None,
    };
    let mut worker = Worker {
        seats,
        pass: None,
        applied: 0,
        refused: 0,
    };
    let workplace = Workplace {
        rt,
        shared: &shared,
        gate,
    };
    worker.serve_all(&workplace, jobs);
    let Worker {
        seats,
        pass: _,
        applied,
        refused,
    } = worker;
    let Some(cell) = shared.cells.pop() else {
        unreachable!()
    };
    let report = Report {
        applied,
        refused,
        unrun: 0,
    };
    Ok((cell, seats, report))
}
