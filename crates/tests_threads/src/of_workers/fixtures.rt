//! Hosts of like networks, jobs for them, and what their journals have.

ghost use Rattle.std.specs.Prelude.{◌<◌, ◌≤◌};

use crate::fixtures::{config, proposal};
use host_journal::Journal;
use node_store::{BoxShelf, SharedHandle, Shelf};
use pool_cell::{Cell, CellUsers, Seat, Watch};
use pool_queue::{Job, Queue};
use pool_workers::{Crew, Gate, Host, NotJoined, Report, offer, run};
use scp_types::{Event, Out};
use std::alloc::Global;
use std::sync::Wait;
use std::thread::Threads;

/// How much the journals of a host have, and their seats; and how many journals are not those of one thread.
#[derive(Clone, Copy)]
pub(super) struct Tally {
    pub unlike: u64,
    pub entries: u64,
    pub receipts: u64,
    pub emissions: u64,
    pub decisions: u64,
}

/// A network joins: its number, how many nodes it has, and how many seats its cell has.
pub(super) fn join<R: Wait + Drop + Copy>(
    rt: &R,
    alloc: Global,
    host: &mut Host<SharedHandle<R>, R>,
    network: (u32, u64, u64),
) -> Option<()>
    requires { (0 < network.2) × (network.2 ≤ 64) }
{
    let (number, count, seats) = network;
    match Cell::open(rt, alloc, config(alloc, number, count)?, seats) {
        Ok((cell, seats)) => host.add(cell, seats).ok(),
        Err(_) => None,
    }
}

/// A network of one node joins, whose cell has `seats` seats, and a watch.
pub(super) fn join_watched<R: Wait + Drop + Copy>(
    rt: &R,
    alloc: Global,
    host: &mut Host<SharedHandle<R>, R>,
    number: u32,
    seats: u64,
) -> Option<Watch>
    requires { (0 < seats) × (seats ≤ 64) }
{
    let config = config(alloc, number, 1)?;
    let shelf = SharedHandle::new(alloc, *rt).ok()?;
    let users = CellUsers { seats, watches: 1 };
    match Cell::open_watched(rt, alloc, config, shelf, users) {
        Ok((cell, seats, mut watches)) => match host.add(cell, seats) {
            Ok(()) => watches.pop(),
            Err(_) => None,
        },
        Err(_) => None,
    }
}

/// Why a network of one node, with one seat, does not join.
pub(super) fn refusal_of<R: Wait + Drop + Copy>(
    rt: &R,
    alloc: Global,
    host: &mut Host<SharedHandle<R>, R>,
    number: u32,
) -> Option<NotJoined> {
    match Cell::open(rt, alloc, config(alloc, number, 1)?, 1) {
        Ok((cell, seats)) => match host.add(cell, seats) {
            Ok(()) => None,
            Err((why, _, _)) => Some(why),
        },
        Err(_) => None,
    }
}

/// A host of networks that are numbered from 1 on.
pub(super) fn host_of_networks<R: Wait + Drop + Copy>(
    rt: &R,
    alloc: Global,
    networks: u32,
    count: u64,
    seats: u64,
) -> Option<Host<SharedHandle<R>, R>>
    requires { (0 < seats) × (seats ≤ 64) }
{
    let mut host = Host::new(alloc);
    for number in 0..networks {
        join(
            rt,
            alloc,
            &mut host,
            (number.saturating_add(1), count, seats),
        )?;
    }
    Some(host)
}

/// For each network a job that opens its first slot.
pub(super) fn openings(alloc: Global, networks: u32) -> Option<Vec<Job>> {
    let mut jobs = Vec::new(alloc);
    for number in 0..networks {
        let network = number.saturating_add(1);
        let event = Event::OpenSlot { slot: 1 };
        jobs.push(Job { network, event }).ok()?;
    }
    Some(jobs)
}

/// For each node of each network a job by which it is to propose `x`.
pub(super) fn proposals(alloc: Global, networks: u32, count: u64) -> Option<Vec<Job>> {
    let mut jobs = Vec::new(alloc);
    for node in 0..count {
        for number in 0..networks {
            let network = number.saturating_add(1);
            let event = proposal(alloc, 1, node)?;
            jobs.push(Job { network, event }).ok()?;
        }
    }
    Some(jobs)
}

/// A report of jobs that were all applied.
pub(super) fn report(applied: u64) -> Report {
    Report {
        applied,
        refused: 0,
        unrun: 0,
    }
}

/// Runs the jobs. `queue` is how many places the queue has, and how many workers there are, with a pass each. Jobs for
/// which there is no place are run when the others are done. `None` if it is out of memory for them.
pub(super) fn run_jobs<R: Threads + Wait + Sync + Send + Drop, G: Gate + Sync>(
    rt: &R,
    alloc: Global,
    host: &mut Host<SharedHandle<R>, R>,
    queue: (usize, usize),
    jobs: Option<Vec<Job>>,
    gate: &G,
) -> Option<Report>
    requires { (0 < queue.0) × (queue.0 ≤ 65536) × (0 < queue.1) × (queue.1 ≤ 64) }
{
    let mut jobs = jobs?;
    jobs.reverse();
    let mut report = Report::none();
    for _ in rt.forever() {
        if jobs.is_empty() {
            return Some(report);
        }
        match run_turn(rt, alloc, host, queue, &mut jobs, gate) {
            Some(turn) => report = report.plus(rt, turn),
            None => return None,
        }
    }
    None
}

/// Runs as many of the jobs as there are places for.
fn run_turn<R: Threads + Wait + Sync + Send + Drop, G: Gate + Sync>(
    rt: &R,
    alloc: Global,
    host: &mut Host<SharedHandle<R>, R>,
    queue: (usize, usize),
    jobs: &mut Vec<Job>,
    gate: &G,
) -> Option<Report>
    requires { (0 < queue.0) × (queue.0 ≤ 65536) × (0 < queue.1) × (queue.1 ≤ 64) }
{
    let (places, workers) = queue;
    let crew = Crew::new(alloc, &*host, workers).ok()?;
    let Ok((queue, mut passes)) = Queue::new(alloc, places, workers) else {
        drop(crew);
        return None;
    };
    offer(rt, &queue, &mut passes[0], jobs);
    Some(run(rt, host, crew, (queue, passes), gate))
}

/// Whether a node gives out the same in both; of what it emits, the sender and the statement.
fn is_same(one: &Out, other: &Out) -> bool {
    match (one, other) {
        (Out::ArmNomination(round), Out::ArmNomination(again)) => round == again,
        (Out::ArmBallot(counter), Out::ArmBallot(again)) => counter == again,
        (Out::Externalized(value), Out::Externalized(again)) => value.is_same(again),
        (Out::Emit(envelope), Out::Emit(again)) => {
            envelope.sender().is_same(again.sender()) && envelope.body().is_same(again.body())
        }
        _ => false,
    }
}

fn are_same(outs: &[Out], again: &[Out]) -> bool {
    outs.len() == again.len()
        && outs
            .iter()
            .zip(again.iter())
            .all(|(one, other)| is_same(one, other))
}

/// Adds what an event gave out.
fn count_outs(outs: &[Out], tally: &mut Tally) {
    for out in outs {
        match out {
            Out::Emit(_) => tally.emissions = tally.emissions.saturating_add(1),
            Out::Externalized(_) => tally.decisions = tally.decisions.saturating_add(1),
            Out::ArmNomination(_) | Out::ArmBallot(_) => {}
        }
    }
}

/// Adds what an entry of a journal gave out. `None` if the same event does not give out the same once more.
fn count_entry<S: Shelf>(
    alloc: Global,
    journal: &Journal<S>,
    number: usize,
    again: &mut Journal<BoxShelf>,
    tally: &mut Tally,
) -> Option<()> {
    let (event, outs) = journal.entry(alloc, number).ok()??;
    count_outs(&outs, tally);
    let given = again.apply(event).ok();
    let is_like = match &given {
        Some(given) => are_same(&outs, &given.outs),
        None => false,
    };
    if is_like { Some(()) } else { None }
}

/// Adds what a journal has, as far as one thread that applies its events in their order gives out the same.
fn count_journal<S: Shelf>(
    alloc: Global,
    journal: &Journal<S>,
    again: &mut Journal<BoxShelf>,
    tally: &mut Tally,
) {
    for number in 0..journal.len() {
        if count_entry(alloc, journal, number, again, tally).is_none() {
            tally.unlike = tally.unlike.saturating_add(1);
            return;
        }
        tally.entries = tally.entries.saturating_add(1);
    }
}

/// Adds what a journal has, beside an empty one of the same network.
fn replay<S: Shelf>(alloc: Global, journal: &Journal<S>, tally: &mut Tally) {
    if let Ok(config) = journal.config().try_copy(alloc) {
        let mut again = Journal::new(alloc, config, BoxShelf::new(alloc));
        count_journal(alloc, journal, &mut again, tally);
    }
}

/// Adds the receipts that the seats keep.
fn count_seats<S: Shelf, H: Wait + Drop>(seats: &[Seat<S, H>], tally: &mut Tally) {
    for seat in seats {
        tally.receipts = tally.receipts.saturating_add(seat.receipts().len() as u64);
    }
}

/// What all journals and seats have.
pub(super) fn close_all<R: Wait + Drop>(
    rt: &R,
    alloc: Global,
    mut host: Host<SharedHandle<R>, R>,
) -> Tally {
    let mut tally = Tally {
        unlike: 0,
        entries: 0,
        receipts: 0,
        emissions: 0,
        decisions: 0,
    };
    while let Some((journal, seats)) = host.close_next(rt) {
        replay(alloc, &journal, &mut tally);
        count_seats(&seats, &mut tally);
    }
    tally
}
