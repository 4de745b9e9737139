//! All workers at once.

ghost use Rattle.std.specs.Option.{option_to_list};
ghost use Rattle.std.specs.Prelude.{◌≡◌, ◌<◌, ◌≤◌, ◌+◌, ◌++◌, ℕ, Some, None, vec_capacity, vec_len, length, slice_index_or, map};
ghost use Rattle.pool_queue.specs.Hands.{all_parts, weigh};
ghost use Rattle.pool_queue.specs.Queues.{parts_by};
ghost use Rattle.pool_queue.specs.declared.line.Queue.{Queue};
ghost use Rattle.pool_workers.specs.Numbers.{IsNumbered};
ghost use Rattle.pool_workers.specs.Sums.{AllPassing, AllReady, AreSumsClosed, IsReadyWorker, IsThrough, at_rest, parts_of, passes_of};
ghost use Rattle.pool_workers.specs.declared.worker.Worker.{Worker};

use crate::gate::Gate;
use crate::shared::Shared;
use crate::worker::Worker;
use crate::workplace::Workplace;
use node_store::Shelf;
use pool_queue::Pass;
use std::sync::Wait;
use std::thread;
use std::thread::Threads;

/// Each worker works, in a thread of its own if one can be started.
fn start<S: Shelf + Drop + Send, H: Wait + Drop + Send, R: Threads + Wait + Sync, G: Gate + Sync>(
    rt: &R,
    shared: &Shared<S, H>,
    workers: &mut [Worker<S, H>],
    gate: &G,
)
where
    S::Place: Send,
    requires order { IsNumbered shared.now.numbers.items shared.now.cells.items }
    requires some { 0 < length workers.old }
    requires ready { AllReady shared.now.cells.items shared.now.queue workers.old }
    ensures through { (i : ℕ) (d : Worker S H S.Place) → i < length workers.old → IsThrough shared.now.cells.items shared.now.queue (slice_index_or workers.old i d) (slice_index_or workers.new i d) }
    ensures len { length workers.new ≡ length workers.old }
{
    let count = workers.len();
    thread::for_each_mut(
        rt,
        workers,
        count,
        &|_, w: &mut Worker<S, H>|
            requires { IsNumbered shared.now.numbers.items shared.now.cells.items × IsReadyWorker shared.now.cells.items shared.now.queue w.old }
            ensures { IsThrough shared.entry.now.cells.items shared.entry.now.queue w.old w.new }
        { w.work(&Workplace { rt, shared, gate }) },
    );
}

/// A worker hands over its pass.
pub(crate) fn leave<S: Shelf, H: Wait + Drop>(worker: &mut Worker<S, H>, passes: &mut Vec<Pass>)
    requires room { vec_len passes.old < vec_capacity passes.old }
    ensures rest { worker.new ≡ at_rest worker.old }
    ensures passes { passes.new.items ≡ passes.old.items ++ option_to_list worker.old.pass }
    ensures room { (vec_len passes.new ≤ vec_len passes.old + 1) × (vec_capacity passes.new ≡ vec_capacity passes.old) }
{
    if let Some(pass) = worker.pass.take() {
        passes.push_reserved(pass);
    }
}

/// All workers hand over their passes.
fn collect<S: Shelf, H: Wait + Drop>(workers: &mut [Worker<S, H>], passes: &mut Vec<Pass>)
    requires room { vec_len passes.old + length workers.old ≤ vec_capacity passes.old }
    ensures rest { workers.new ≡ map at_rest workers.old }
    ensures passes { passes.new.items ≡ passes.old.items ++ passes_of workers.old }
{
    for worker in workers.iter_mut() {
        leave(worker, passes);
    }
}

/// Closes the queue; the first worker serves what is left.
fn finish<S: Shelf + Drop, H: Wait + Drop, R: Wait, G: Gate>(
    rt: &R,
    shared: &mut Shared<S, H>,
    workers: &mut [Worker<S, H>],
    mut passes: Vec<Pass>,
    gate: &G,
)
    requires order { IsNumbered shared.old.numbers.items shared.old.cells.items }
    requires some { 0 < length workers.old }
    requires ready { AllReady shared.old.cells.items shared.old.queue workers.old }
    requires there { (q : Queue) × (shared.old.queue ≡ Some q) }
    requires queue { AllPassing shared.old.queue passes.items × (parts_by passes.items + weigh parts_of workers.old ≡ all_parts) }
    requires room { vec_len passes + length workers.old ≤ vec_capacity passes }
    ensures shared { (shared.new.numbers ≡ shared.old.numbers) × (shared.new.cells ≡ shared.old.cells) × (shared.new.queue ≡ None) }
    ensures ready { AllReady shared.old.cells.items None workers.new }
    ensures closed { AreSumsClosed shared.old.cells.items passes.items workers.old workers.new }
{
    collect(workers, &mut passes);
    let Some(queue) = shared.queue.take() else {
        unreachable!()
    };
    let left = queue.close(rt, passes);
    workers[0].serve_all(&Workplace { rt, shared, gate }, left);
}

/// Works until all is done, and closes the queue.
pub(crate) fn work_through<
    S: Shelf + Drop + Send,
    H: Wait + Drop + Send,
    R: Threads + Wait + Sync,
    G: Gate + Sync,
>(rt: &R, shared: &mut Shared<S, H>, workers: &mut [Worker<S, H>], passes: Vec<Pass>, gate: &G)
where
    S::Place: Send,
    requires order { IsNumbered shared.old.numbers.items shared.old.cells.items }
    requires some { 0 < length workers.old }
    requires queue { AllPassing shared.old.queue passes.items × (parts_by passes.items + weigh parts_of workers.old ≡ all_parts) }
    requires there { (q : Queue) × (shared.old.queue ≡ Some q) }
    requires ready { AllReady shared.old.cells.items shared.old.queue workers.old }
    requires room { vec_len passes + length workers.old ≤ vec_capacity passes }
    ensures shared { (shared.new.numbers ≡ shared.old.numbers) × (shared.new.cells ≡ shared.old.cells) × (shared.new.queue ≡ None) }
    ensures ready { AllReady shared.old.cells.items None workers.new }
    ensures closed { AreSumsClosed shared.old.cells.items passes.items workers.old workers.new }
{
    start(rt, shared, workers, gate);
    finish(rt, shared, workers, passes, gate);
}
