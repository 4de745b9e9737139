//! Hosts run by several workers, with gates that hold jobs up and count them.

ghost use Rattle.std.specs.Thread.{IsSend, IsSync};

use crate::fixtures::proposal;
use fixtures::{
    Tally, close_all, host_of_networks, join, join_watched, openings, proposals, refusal_of,
    report, run_jobs,
};
use node_store::SharedHandle;
use pool_cell::Watch;
use pool_queue::Job;
use pool_workers::{Gate, Host, NotJoined, Report};
use scp_types::Event;
use std::alloc::Global;
use std::sync::Wait;
use std::sync::atomic::{AtomicU64, Ordering};
use std::test::Fail;
use std::thread;
use std::thread::Threads;

mod fixtures;

/// A gate that holds the job of network 1 until that of network 2 was applied, and that one until the other is held.
#[derive(Drop)]
struct Holding {
    held: AtomicU64,
    released: AtomicU64,
}

/// Waits until a mark is set.
fn wait_for<R: Wait>(rt: &R, mark: &AtomicU64) {
    for _ in rt.forever() {
        if mark.load(Ordering::SeqCst) != 0 {
            return;
        }
        thread::yield_now();
    }
}

impl Gate for Holding {
    fn before<R: Wait>(&self, rt: &R, job: &Job) {
        if job.network == 1 {
            self.held.store(1, Ordering::SeqCst);
            wait_for(rt, &self.released);
        } else {
            wait_for(rt, &self.held);
        }
    }

    fn after<R: Wait>(&self, _rt: &R, network: u32) {
        if network == 2 {
            self.released.store(1, Ordering::SeqCst);
        }
    }
}

/// A gate that counts what it sees, and how often a job is of another network than the one before.
#[derive(Drop)]
struct Counting {
    network: AtomicU64,
    turns: AtomicU64,
    before: AtomicU64,
    after: AtomicU64,
}

impl Counting {
    /// It has seen nothing.
    fn new() -> Counting {
        Counting {
            network: AtomicU64::new(0),
            turns: AtomicU64::new(0),
            before: AtomicU64::new(0),
            after: AtomicU64::new(0),
        }
    }

    /// How many applications began, and how many ended.
    fn counts(&self) -> (u64, u64) {
        let before = self.before.load(Ordering::SeqCst);
        (before, self.after.load(Ordering::SeqCst))
    }
}

impl Gate for Counting {
    fn before<R: Wait>(&self, _rt: &R, job: &Job) {
        let network = job.network as u64;
        if self.network.swap(network, Ordering::SeqCst) != network {
            self.turns.fetch_add(1, Ordering::SeqCst);
        }
        self.before.fetch_add(1, Ordering::SeqCst);
    }

    fn after<R: Wait>(&self, _rt: &R, _network: u32) {
        self.after.fetch_add(1, Ordering::SeqCst);
    }

    // `before` sees the job once more.
    fn put_off<R: Wait>(&self, _rt: &R, _network: u32) {
        self.before.fetch_sub(1, Ordering::SeqCst);
    }
}

/// A gate of jobs of which those of network 1 are held up by a watch that reads: none begins before it reads, and it
/// reads until four jobs of the others were applied.
#[derive(Drop)]
struct Reading {
    begun: AtomicU64,
    others: AtomicU64,
    released: AtomicU64,
}

impl Reading {
    /// It has seen nothing.
    fn new() -> Reading {
        Reading {
            begun: AtomicU64::new(0),
            others: AtomicU64::new(0),
            released: AtomicU64::new(0),
        }
    }

    /// A watch reads until the jobs of the others were applied.
    fn hold<R: Wait>(&self, rt: &R, watch: &mut Watch) -> Option<()> {
        watch.read(|_| {
            self.begun.store(1, Ordering::SeqCst);
            wait_for(rt, &self.released);
        })
    }
}

impl Gate for Reading {
    fn before<R: Wait>(&self, rt: &R, _job: &Job) {
        wait_for(rt, &self.begun);
    }

    fn after<R: Wait>(&self, _rt: &R, network: u32) {
        if network != 1 && self.others.fetch_add(1, Ordering::SeqCst) == 3 {
            self.released.store(1, Ordering::SeqCst);
        }
    }
}

/// Two networks of three nodes: their slots are opened by two workers, of whom each has a job at the same time, and
/// then nodes are to propose, by one worker. What is reported, and how often this one goes from one network to the
/// other.
fn run_two<R: Threads + Wait + Sync + Send + Drop>(
    rt: &R,
    alloc: Global,
    host: &mut Host<SharedHandle<R>, R>,
) -> Option<(Report, Report, u64)> {
    let holding = Holding {
        held: AtomicU64::new(0),
        released: AtomicU64::new(0),
    };
    let opened = run_jobs(rt, alloc, host, (2, 2), openings(alloc, 2), &holding)?;
    let counting = Counting::new();
    // Network 1 and network 2 by turns, three times.
    let proposed = run_jobs(rt, alloc, host, (6, 1), proposals(alloc, 2, 3), &counting)?;
    Some((opened, proposed, counting.turns.load(Ordering::SeqCst)))
}

// What follows from a job comes before the next job, or there would be more turns.
#[test]
fn a_network_that_is_held_up_holds_up_no_other(rt: HostRuntime) -> Result<(), Fail> {
    let mut host = host_of_networks(&rt, rt.alloc(), 2, 3, 2).ok_or("memory")?;
    let said = run_two(&rt, rt.alloc(), &mut host);
    drop(host);
    let (opened, proposed, turns) = said.ok_or("memory")?;
    assert_eq!(rt; opened, report(2));
    assert!(rt; proposed.applied > 6);
    assert_eq!(rt; turns, 6);
    Ok(())
}

/// Networks of three nodes: their slots are opened and nodes are to propose, by four workers. What is reported of both.
fn run_four<R: Threads + Wait + Sync + Send + Drop>(
    rt: &R,
    alloc: Global,
    host: &mut Host<SharedHandle<R>, R>,
    gate: &Counting,
) -> Option<(Report, Report)> {
    // The queue has a place for 16 of them, so they are done in four turns.
    let opened = run_jobs(rt, alloc, host, (16, 4), openings(alloc, 64), gate)?;
    let proposed = run_jobs(rt, alloc, host, (192, 4), proposals(alloc, 64, 3), gate)?;
    Some((opened, proposed))
}

/// As [`run_four`], of 64 networks, with what the gate has counted and what the journals have.
fn run_and_close<R: Threads + Wait + Sync + Send + Drop + Copy>(
    rt: &R,
    alloc: Global,
) -> Option<(Report, Report, (u64, u64), Tally)> {
    let gate = Counting::new();
    let mut host = host_of_networks(rt, alloc, 64, 3, 4)?;
    let said = run_four(rt, alloc, &mut host, &gate);
    let tally = close_all(rt, alloc, host);
    let (opened, proposed) = said?;
    Some((opened, proposed, gate.counts(), tally))
}

#[test]
fn four_workers_leave_journals_of_one_thread(rt: HostRuntime) -> Result<(), Fail> {
    let (opened, proposed, seen, tally) = run_and_close(&rt, rt.alloc()).ok_or("memory")?;
    assert_eq!(rt; opened, report(64));
    assert_eq!(rt; proposed.unrun, 0);
    // Each journal is applied once more by one thread, which gives out the same.
    assert_eq!(rt; tally.unlike, 0);
    let entered = proposed.applied.saturating_add(64);
    // Each receipt was let go once the others had heard of it.
    assert_eq!(rt; (tally.entries, tally.receipts), (entered, 0));
    assert_eq!(rt; tally.decisions, 192);
    // For each emission a job for each of the two other nodes.
    let served = proposed.applied.saturating_add(proposed.refused);
    let heard = tally.emissions.saturating_mul(2);
    assert_eq!(rt; served, heard.saturating_add(192));
    let all = served.saturating_add(64);
    assert_eq!(rt; seen, (all, all));
    Ok(())
}

/// A slot is opened, or the only node is to propose `x` at it.
fn event_at(alloc: Global, slot: u64, is_opening: bool) -> Option<Event> {
    if is_opening {
        Some(Event::OpenSlot { slot })
    } else {
        proposal(alloc, slot, 0)
    }
}

/// Four slots of network 1 are opened, or proposals made at them, and then one slot of each of networks 2 to 5.
fn jobs_of_five(alloc: Global, is_opening: bool) -> Option<Vec<Job>> {
    let mut jobs = Vec::new(alloc);
    for slot in 1..5 {
        let event = event_at(alloc, slot, is_opening)?;
        jobs.push(Job { network: 1, event }).ok()?;
    }
    for network in 2..6 {
        let event = event_at(alloc, 1, is_opening)?;
        jobs.push(Job { network, event }).ok()?;
    }
    Some(jobs)
}

/// A watch reads, and beside it three workers run jobs. What is reported, and whether the watch has read.
fn run_beside<R: Threads + Wait + Sync + Send + Drop>(
    rt: &R,
    alloc: Global,
    host: &mut Host<SharedHandle<R>, R>,
    watch: &mut Watch,
    gate: &Reading,
) -> (Option<()>, Option<Report>) {
    let jobs = jobs_of_five(alloc, false);
    thread::join(
        rt,
        move || gate.hold(rt, watch),
        move || -> Option<Report>
            requires { IsSync R.row × IsSend R.row }
        { run_jobs(rt, alloc, host, (16, 3), jobs, gate) },
    )
}

/// Five networks of one node each, whose slots are open: the first is held up while three workers have jobs of it
/// before those of the others.
fn run_held<R: Threads + Wait + Sync + Send + Drop + Copy>(
    rt: &R,
    alloc: Global,
) -> Option<(Option<()>, Option<Report>)> {
    let mut host = Host::new(alloc);
    let mut watch = join_watched(rt, alloc, &mut host, 1, 3)?;
    for number in 2..6 {
        join(rt, alloc, &mut host, (number, 1, 3))?;
    }
    let gate = Counting::new();
    let opened = run_jobs(
        rt,
        alloc,
        &mut host,
        (8, 1),
        jobs_of_five(alloc, true),
        &gate,
    );
    let said = run_beside(rt, alloc, &mut host, &mut watch, &Reading::new());
    drop(host);
    drop(watch);
    match opened {
        Some(_) => Some(said),
        None => None,
    }
}

// What one proposal decides is published beside the watch that reads; the publication behind it waits for that, under
// the network's lock, and the watch for the jobs of the others.
#[test]
fn a_network_that_is_held_up_holds_up_no_worker(rt: HostRuntime) -> Result<(), Fail> {
    let (read, said) = run_held(&rt, rt.alloc()).ok_or("memory")?;
    assert_eq!(rt; read, Some(()));
    assert_eq!(rt; said, Some(report(8)));
    Ok(())
}

/// Why network 1 does not join a host of two, and why 4096 and 5000 do not join a host of 4,096.
fn refusals<R: Wait + Drop + Copy>(
    rt: &R,
    alloc: Global,
) -> Option<(Option<NotJoined>, Option<NotJoined>, Option<NotJoined>)> {
    let mut few = host_of_networks(rt, alloc, 2, 1, 1)?;
    let there = refusal_of(rt, alloc, &mut few, 1);
    drop(few);
    let mut many = host_of_networks(rt, alloc, 4096, 1, 1)?;
    let also_there = refusal_of(rt, alloc, &mut many, 4096);
    let full = refusal_of(rt, alloc, &mut many, 5000);
    drop(many);
    Some((there, also_there, full))
}

#[test]
fn a_host_says_why_a_network_does_not_join(rt: HostRuntime) -> Result<(), Fail> {
    let said = refusals(&rt, rt.alloc()).ok_or("memory")?;
    let there = Some(NotJoined::NumberThere);
    assert_eq!(rt; said, (there, there, Some(NotJoined::TooManyNetworks)));
    Ok(())
}
