//! A worker, with a seat at each cell.

ghost use Rattle.std.specs.Prelude.{◌≡◌, ◌<◌, ◌+◌, if◌then◌else◌, length, [], ◌∷◌, None, MatchOption, IfSome, slice_index_or};
ghost use Rattle.std.specs.Option.{option_to_list};
ghost use Rattle.pool_cell.specs.Sights.{CellSight};
ghost use Rattle.pool_workers.specs.Numbers.{IsNumbered, IsNumberAt};
ghost use Rattle.pool_workers.specs.Sums.{IsBusy, KeepsSums, IsPassing, IsReadyWorker, IsSameWorker, hand_of, hear_by, hears, hears_of, with_put, with_taken};

use crate::applying::{SlotEmission, apply_by, emission_of, try_apply_by};
use crate::gate::Gate;
use crate::shared::Shared;
use crate::workplace::Workplace;
use host_config::HostedNode;
use node_store::Shelf;
use pool_cell::{Receipt, Seat};
use pool_queue::{Job, Pass};
use scp_types::Event;
use std::sync::Wait;
use std::thread;

/// A seat at each cell, in the order of the cells, and a pass as long as there is a queue. It counts how many events it
/// has applied, and how many were refused.
#[derive(Drop)]
pub(crate) struct Worker<S: Shelf, H: Wait + Drop> {
    pub seats: Vec<Seat<S, H>>,
    pub pass: Option<Pass>,
    pub applied: u64,
    pub refused: u64,
}

/// The sum of two counts. No run counts so far that this waits.
pub(crate) fn add<R: Wait>(rt: &R, count: u64, more: u64) -> u64
    ensures { result ≡ count + more }
{
    match count.checked_add(more) {
        Some(sum) => sum,
        None => {
            for _ in rt.forever() {}
            unreachable!()
        }
    }
}

/// The job by which a node hears an emission, if it is not its own.
fn hearing(emission: &SlotEmission, hosted: &HostedNode) -> Option<Job>
    ensures jobs { option_to_list result ≡ hear_by emission.now hosted.now }
    ensures network { IfSome result (λ j. j.network ≡ emission.now.network) }
{
    let node = *hosted.name();
    if node == emission.from {
        return None;
    }
    Some(Job {
        network: emission.network,
        event: Event::Hear {
            slot: emission.slot,
            node,
            from: emission.from,
            kind: emission.kind,
            number: emission.number,
        },
    })
}

impl<S: Shelf + Drop, H: Wait + Drop> Worker<S, H> {
    fn count<R: Wait>(&mut self, rt: &R, is_applied: bool)
        ensures same { (self.new.seats ≡ self.old.seats) × (self.new.pass ≡ self.old.pass) }
        ensures applied { self.new.applied ≡ self.old.applied + (if is_applied then 1 else 0) }
        ensures refused { self.new.refused ≡ self.old.refused + (if is_applied then 0 else 1) }
    {
        if is_applied {
            self.applied = add(rt, self.applied, 1);
        } else {
            self.refused = add(rt, self.refused, 1);
        }
    }

    /// Applies a job by the seat at a cell, and counts it. It waits for the cell.
    fn apply_at<R: Wait, G: Gate>(
        &mut self,
        workplace: &Workplace<'_, S, H, R, G>,
        k: usize,
        job: Job,
    )
        requires busy { IsBusy workplace.now.shared.now.cells.items workplace.now.shared.now.queue k self.old }
        requires job { IsNumberAt workplace.now.shared.now.cells.items k job.network }
        ensures busy { IsBusy workplace.now.shared.now.cells.items workplace.now.shared.now.queue k self.new }
        ensures kept { KeepsSums workplace.now.shared.now.cells.items (job ∷ []) self.old self.new }
    {
        let is_applied = apply_by(
            workplace.rt,
            &workplace.shared.cells[k],
            &mut self.seats[k],
            workplace.gate,
            job,
        );
        self.count(workplace.rt, is_applied);
    }

    /// Applies a job by the seat at a cell, and counts it, if the cell is free at once. Else the job is handed back.
    fn try_apply_at<R: Wait, G: Gate>(
        &mut self,
        workplace: &Workplace<'_, S, H, R, G>,
        k: usize,
        job: Job,
    ) -> Option<Job>
        requires busy { IsBusy workplace.now.shared.now.cells.items workplace.now.shared.now.queue k self.old }
        requires job { IsNumberAt workplace.now.shared.now.cells.items k job.network }
        ensures busy { IsBusy workplace.now.shared.now.cells.items workplace.now.shared.now.queue k self.new }
        ensures kept { MatchOption result (KeepsSums workplace.now.shared.now.cells.items (job ∷ []) self.old self.new) (λ j. (j ≡ job) × IsSameWorker self.old self.new) }
    {
        match try_apply_by(
            workplace.rt,
            &workplace.shared.cells[k],
            &mut self.seats[k],
            workplace.gate,
            job,
        ) {
            Ok(is_applied) => {
                self.count(workplace.rt, is_applied);
                None
            }
            Err(job) => Some(job),
        }
    }

    /// Takes a job, if there is a queue with one.
    fn take<R: Wait>(&mut self, rt: &R, shared: &Shared<S, H>) -> Option<Job>
        requires { IsPassing shared.now.queue self.old.pass }
        ensures pass { IsPassing shared.now.queue self.new.pass }
        ensures same { (self.new.seats ≡ self.old.seats) × (self.new.applied ≡ self.old.applied) × (self.new.refused ≡ self.old.refused) }
        ensures take { MatchOption result (hand_of self.new.pass ≡ hand_of self.old.pass) (λ x. hand_of self.new.pass ≡ with_taken (hand_of self.old.pass) x) }
    {
        match (&shared.queue, &mut self.pass) {
            (Some(queue), Some(pass)) => queue.take(rt, pass),
            _ => None,
        }
    }

    /// Puts a job behind the others, if there is a queue with a place for it. Else the job is handed back.
    fn put_back<R: Wait>(&mut self, rt: &R, shared: &Shared<S, H>, job: Job) -> Option<Job>
        requires { IsPassing shared.now.queue self.old.pass }
        ensures pass { IsPassing shared.now.queue self.new.pass }
        ensures same { (self.new.seats ≡ self.old.seats) × (self.new.applied ≡ self.old.applied) × (self.new.refused ≡ self.old.refused) }
        ensures put { MatchOption result (hand_of self.new.pass ≡ with_put (hand_of self.old.pass) job) (λ j. (j ≡ job) × (hand_of self.new.pass ≡ hand_of self.old.pass)) }
    {
        match (&shared.queue, &mut self.pass) {
            (Some(queue), Some(pass)) => queue.put(rt, pass, job).err(),
            _ => Some(job),
        }
    }

    fn let_others_hear<R: Wait, G: Gate>(
        &mut self,
        workplace: &Workplace<'_, S, H, R, G>,
        k: usize,
        emission: SlotEmission,
    )
        requires busy { IsBusy workplace.now.shared.now.cells.items workplace.now.shared.now.queue k self.old }
        requires network { IsNumberAt workplace.now.shared.now.cells.items k emission.network }
        ensures busy { IsBusy workplace.now.shared.now.cells.items workplace.now.shared.now.queue k self.new }
        ensures kept { (c : CellSight) → c ≡ slice_index_or workplace.now.shared.now.cells.items k c → KeepsSums workplace.now.shared.now.cells.items (hears_of emission c.config.nodes) self.old self.new }
    {
        let nodes = workplace.shared.cells[k].config().nodes();
        for hosted in nodes {
            match hearing(&emission, hosted) {
                Some(job) => self.apply_at(workplace, k, job),
                None => {}
            }
        }
    }

    /// The others hear each emission of a receipt of the seat at a cell.
    fn follow_receipt<R: Wait, G: Gate>(
        &mut self,
        workplace: &Workplace<'_, S, H, R, G>,
        k: usize,
        receipt: &Receipt,
    )
        requires { IsBusy workplace.now.shared.now.cells.items workplace.now.shared.now.queue k self.old }
        ensures busy { IsBusy workplace.now.shared.now.cells.items workplace.now.shared.now.queue k self.new }
        ensures kept { (c : CellSight) → c ≡ slice_index_or workplace.now.shared.now.cells.items k c → KeepsSums workplace.now.shared.now.cells.items (hears c.config receipt.now) self.old self.new }
    {
        let config = workplace.shared.cells[k].config();
        let many = receipt.outs().len();
        let mut mark = 0;
        for index in 0..many {
            match emission_of(receipt, config.number(), index, mark) {
                Some(emission) => {
                    self.let_others_hear(workplace, k, emission);
                    mark += 1;
                }
                None => {}
            }
        }
    }

    /// Goes through the receipts of the seat at one cell, which lets each of them go, until it keeps none. A hearing
    /// that is applied adds a receipt behind the others, so what follows from hearings is one list and no call within a
    /// call. It ends: each receipt draws an event of the network's budget, which is finite.
    fn follow_receipts<R: Wait, G: Gate>(&mut self, workplace: &Workplace<'_, S, H, R, G>, k: usize)
        requires { IsBusy workplace.now.shared.now.cells.items workplace.now.shared.now.queue k self.old }
        ensures ready { IsReadyWorker workplace.now.shared.now.cells.items workplace.now.shared.now.queue self.new }
        ensures kept { KeepsSums workplace.now.shared.now.cells.items [] self.old self.new }
    {
        for _ in workplace.rt.forever() {
            match self.seats[k].take_receipt() {
                Some(receipt) => {
                    self.follow_receipt(workplace, k, &receipt);
                    drop(receipt);
                }
                None => return,
            }
        }
        unreachable!()
    }

    /// Applies a job, and what follows from it. One of a network that is not here counts as refused. It waits for the
    /// network's cell.
    fn serve<R: Wait, G: Gate>(&mut self, workplace: &Workplace<'_, S, H, R, G>, job: Job)
        requires order { IsNumbered workplace.now.shared.now.numbers.items workplace.now.shared.now.cells.items }
        requires ready { IsReadyWorker workplace.now.shared.now.cells.items workplace.now.shared.now.queue self.old }
        ensures ready { IsReadyWorker workplace.now.shared.now.cells.items workplace.now.shared.now.queue self.new }
        ensures kept { KeepsSums workplace.now.shared.now.cells.items (job ∷ []) self.old self.new }
    {
        match workplace.shared.find(job.network) {
            Some(k) => {
                self.apply_at(workplace, k, job);
                self.follow_receipts(workplace, k);
            }
            None => self.count(workplace.rt, false),
        }
    }

    /// What [`Worker::serve`] does, with one attempt at the network's cell: if that is taken, the job is handed back.
    /// What follows from a job waits for the cell.
    fn try_serve<R: Wait, G: Gate>(
        &mut self,
        workplace: &Workplace<'_, S, H, R, G>,
        job: Job,
    ) -> Option<Job>
        requires order { IsNumbered workplace.now.shared.now.numbers.items workplace.now.shared.now.cells.items }
        requires ready { IsReadyWorker workplace.now.shared.now.cells.items workplace.now.shared.now.queue self.old }
        ensures ready { IsReadyWorker workplace.now.shared.now.cells.items workplace.now.shared.now.queue self.new }
        ensures kept { MatchOption result (KeepsSums workplace.now.shared.now.cells.items (job ∷ []) self.old self.new) (λ j. (j ≡ job) × IsSameWorker self.old self.new) }
    {
        match workplace.shared.find(job.network) {
            Some(k) => match self.try_apply_at(workplace, k, job) {
                Some(job) => Some(job),
                None => {
                    self.follow_receipts(workplace, k);
                    None
                }
            },
            None => {
                self.count(workplace.rt, false);
                None
            }
        }
    }

    /// Puts a job behind the others, and lets other threads go on. If it has no place there, it is served.
    fn put_off<R: Wait, G: Gate>(&mut self, workplace: &Workplace<'_, S, H, R, G>, job: Job)
        requires order { IsNumbered workplace.now.shared.now.numbers.items workplace.now.shared.now.cells.items }
        requires ready { IsReadyWorker workplace.now.shared.now.cells.items workplace.now.shared.now.queue self.old }
        ensures ready { IsReadyWorker workplace.now.shared.now.cells.items workplace.now.shared.now.queue self.new }
        ensures kept { KeepsSums workplace.now.shared.now.cells.items (job ∷ []) self.old self.new }
    {
        match self.put_back(workplace.rt, workplace.shared, job) {
            Some(job) => self.serve(workplace, job),
            None => thread::yield_now(),
        }
    }

    /// Serves a job that was taken. If its network is held up, it is put off, so that this worker goes on with others.
    fn serve_or_put_off<R: Wait, G: Gate>(
        &mut self,
        workplace: &Workplace<'_, S, H, R, G>,
        job: Job,
    )
        requires order { IsNumbered workplace.now.shared.now.numbers.items workplace.now.shared.now.cells.items }
        requires ready { IsReadyWorker workplace.now.shared.now.cells.items workplace.now.shared.now.queue self.old }
        ensures ready { IsReadyWorker workplace.now.shared.now.cells.items workplace.now.shared.now.queue self.new }
        ensures kept { KeepsSums workplace.now.shared.now.cells.items (job ∷ []) self.old self.new }
    {
        match self.try_serve(workplace, job) {
            Some(job) => self.put_off(workplace, job),
            None => {}
        }
    }

    /// Takes and serves jobs until it finds the queue empty.
    pub(crate) fn work<R: Wait, G: Gate>(&mut self, workplace: &Workplace<'_, S, H, R, G>)
        requires order { IsNumbered workplace.now.shared.now.numbers.items workplace.now.shared.now.cells.items }
        requires ready { IsReadyWorker workplace.now.shared.now.cells.items workplace.now.shared.now.queue self.old }
        ensures ready { IsReadyWorker workplace.now.shared.now.cells.items workplace.now.shared.now.queue self.new }
        ensures kept { KeepsSums workplace.now.shared.now.cells.items [] self.old self.new }
    {
        for _ in workplace.rt.forever() {
            match self.take(workplace.rt, workplace.shared) {
                Some(job) => self.serve_or_put_off(workplace, job),
                None => break,
            }
        }
    }

    pub(crate) fn serve_all<R: Wait, G: Gate>(
        &mut self,
        workplace: &Workplace<'_, S, H, R, G>,
        mut jobs: Vec<Job>,
    )
        requires order { IsNumbered workplace.now.shared.now.numbers.items workplace.now.shared.now.cells.items }
        requires ready { IsReadyWorker workplace.now.shared.now.cells.items workplace.now.shared.now.queue self.old }
        ensures ready { IsReadyWorker workplace.now.shared.now.cells.items workplace.now.shared.now.queue self.new }
        ensures kept { KeepsSums workplace.now.shared.now.cells.items jobs.items self.old self.new }
    {
        while let Some(job) = jobs.pop() {
            self.serve(workplace, job);
        }
    }
}
