//! A run of all workers, and jobs that are put before it.

ghost use Rattle.std.specs.Prelude.{◌≡◌, ◌<◌, ◌≤◌, ◌+◌, ◌++◌, List, None, Some, length, reverse, vec_len};
ghost use Rattle.crossbeam_queue.specs.Passes.{view};
ghost use Rattle.pool_queue.specs.Hands.{all_parts};
ghost use Rattle.pool_queue.specs.Queues.{AllPasses, IsOf, parts_by, put_by, taken_by};
ghost use Rattle.pool_queue.specs.declared.line.Queue.{Queue};
ghost use Rattle.pool_queue.specs.declared.rule.Job.{Job};
ghost use Rattle.pool_workers.specs.Spares.{AllGrownSpares, HaveSpareSeats, HaveAllSeats, IsCounted, IsWorkerRoom, IsWorked};
ghost use Rattle.pool_workers.specs.Nets.{AllGrownNets, AreJobsDone};
ghost use Rattle.pool_workers.specs.Numbers.{IsNumbered};
ghost use Rattle.pool_workers.specs.Sums.{AllPassing};

use crate::crew::Crew;
use crate::deal::{WorkerRoom, deal, give_back};
use crate::gate::Gate;
use crate::host::Host;
use crate::host_state::HostState;
use crate::pool::work_through;
use crate::worker::{Worker, add};
use node_store::Shelf;
use pool_queue::{Job, Pass, Queue};
use std::sync::Wait;
use std::thread::Threads;

/// How many jobs came to what end.
#[derive(Clone, Copy, Debug, PartialEq, Eq)]
pub struct Report {
    /// Jobs that were applied: as many as the seats have gained receipts.
    pub applied: u64,
    /// Jobs that a cell refused, for whatever reason, out of memory among them, and jobs of networks that are not
    /// there.
    pub refused: u64,
    /// Jobs that were left: none.
    pub unrun: u64,
}

impl Report {
    /// No jobs.
    pub fn none() -> Report
        ensures { (result.applied ≡ 0) × (result.refused ≡ 0) × (result.unrun ≡ 0) }
    {
        Report {
            applied: 0,
            refused: 0,
            unrun: 0,
        }
    }

    /// What two reports count, together. No runs count so far that this waits.
    pub fn plus<R: Wait>(&self, rt: &R, other: Report) -> Report
        ensures { (result.applied ≡ self.now.applied + other.applied) × (result.refused ≡ self.now.refused + other.refused) × (result.unrun ≡ self.now.unrun + other.unrun) }
    {
        Report {
            applied: add(rt, self.applied, other.applied),
            refused: add(rt, self.refused, other.refused),
            unrun: add(rt, self.unrun, other.unrun),
        }
    }
}

fn report_of<S: Shelf, H: Wait + Drop, R: Wait>(rt: &R, workers: &[Worker<S, H>]) -> Report
    ensures { IsCounted workers.now result }
{
    let mut applied = 0;
    let mut refused = 0;
    for worker in workers {
        applied = add(rt, applied, worker.applied);
        refused = add(rt, refused, worker.refused);
    }
    Report {
        applied,
        refused,
        unrun: 0,
    }
}

/// Deals the seats, works until all is done, and takes the seats back.
fn run_workers<
    S: Shelf + Drop + Send,
    H: Wait + Drop + Send,
    R: Threads + Wait + Sync,
    G: Gate + Sync,
>(
    rt: &R,
    host_state: &mut HostState<S, H>,
    worker_room: WorkerRoom<S, H>,
    mut passes: Vec<Pass>,
    gate: &G,
) -> Report
where
    S::Place: Send,
    requires order { IsNumbered host_state.old.shared.numbers.items host_state.old.shared.cells.items }
    requires hosted { HaveAllSeats host_state.old.shared.cells.items host_state.old.spares.items }
    requires there { (q : Queue) × (host_state.old.shared.queue ≡ Some q) }
    requires queue { AllPassing host_state.old.shared.queue passes.items × (parts_by passes.items ≡ all_parts) }
    requires room { length worker_room.rooms.items ≤ vec_len passes }
    requires worker_room { (0 < length worker_room.rooms.items) × HaveSpareSeats (length worker_room.rooms.items) host_state.old.spares.items × IsWorkerRoom (length worker_room.rooms.items) (length host_state.old.spares.items) worker_room }
    ensures shared { (host_state.new.shared.numbers ≡ host_state.old.shared.numbers) × (host_state.new.shared.cells ≡ host_state.old.shared.cells) × (host_state.new.shared.queue ≡ None) }
    ensures grown { AllGrownSpares host_state.old.spares.items host_state.new.spares.items }
    ensures worked { IsWorked host_state.old.shared.cells.items host_state.old.spares.items host_state.new.spares.items (λ h. put_by h passes.items) (λ h. taken_by h passes.items) result }
{
    let mut workers = deal(&mut host_state.spares, &mut passes, worker_room);
    work_through(
        rt,
        &mut host_state.shared,
        workers.as_mut_slice(),
        passes,
        gate,
    );
    let report = report_of(rt, workers.as_slice());
    while let Some(worker) = workers.pop() {
        give_back(&mut host_state.spares, worker);
    }
    report
}

/// Runs the jobs that a queue holds, and what follows from them, by a crew of workers; then the queue is closed.
///
/// Each worker has a pass of the queue and a seat at each network. So no more of the crew work than there are passes,
/// and no more than the network with the fewest seats has. Each works in a thread of its own if one can be started. A
/// job is applied by the worker's seat at its network. For each emission that is given out, each other hosted node of
/// the network gets a job by which it hears the emission. The same worker applies it at once, by the same seat, and
/// what follows from it in turn, before it takes the next job. So nothing new is put into the queue. A worker that
/// finds a job's network taken by another thread puts the job back, behind the others, and goes on with the next. So a
/// network that is held up holds up no worker, as long as there is a place in the queue. A worker ends when it finds
/// the queue empty; a job that is left then is applied by the first worker at the close.
///
/// However jobs are weighed, two sums are the same. One is of what the queue held, and of one Hear for each emission of
/// the receipts that were gained and each other hosted node. The other is of the jobs that were applied, those that
/// were refused, and those of networks that are not there. The report has these numbers. It takes no memory but for
/// what cells keep. Cells and seats are the same after it, but that seats have gained receipts and refusals, and that
/// those of workers have let go of all receipts.
pub fn run<S: Shelf + Drop + Send, H: Wait + Drop + Send, R: Threads + Wait + Sync, G: Gate + Sync>(
    rt: &R,
    host: &mut Host<S, H>,
    crew: Crew<S, H>,
    queue: (Queue, Vec<Pass>),
    gate: &G,
) -> Report
where
    S::Place: Send,
    requires room { length host.old ≤ crew }
    requires passes { AllPasses (IsOf queue.0) queue.1.items × (parts_by queue.1.items ≡ all_parts) }
    ensures same { AllGrownNets host.old host.new }
    ensures done { AreJobsDone host.old host.new (λ h. put_by h queue.1.items) (λ h. taken_by h queue.1.items) result }
{
    let (queue, passes) = queue;
    host.host_state.turn_to(host.is_turned, false);
    host.is_turned = false;
    let worker_room = crew.into_room(host.host_state.spares.as_slice(), passes.len());
    host.host_state.shared.queue = Some(queue);
    run_workers(rt, &mut host.host_state, worker_room, passes, gate)
}

/// Puts jobs into a queue by one pass, the last of the list first, until the queue hands one back or none is left.
/// Those that were not put stay in the list. It takes no memory.
pub fn offer<R: Wait>(rt: &R, queue: &Queue, pass: &mut Pass, jobs: &mut Vec<Job>)
    requires { IsOf queue.now pass.old }
    ensures pass { IsOf queue.now pass.new × ((view pass.new).parts ≡ (view pass.old).parts) }
    ensures put { (put : List Job) × (jobs.old.items ≡ jobs.new.items ++ reverse put) × ((view pass.new).put ≡ (view pass.old).put ++ put) }
    ensures taken { (view pass.new).taken ≡ (view pass.old).taken }
{
    while let Some(job) = jobs.pop() {
        if let Err(job) = queue.put(rt, pass, job) {
            jobs.push_reserved(job);
            return;
        }
    }
}
