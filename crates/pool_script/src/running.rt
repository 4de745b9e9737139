//! One network, from its opening to what is told of it.

ghost use Rattle.std.specs.Prelude.{◌≡◌, IfOk};
ghost use Rattle.pool_script.specs.Errands.{IsNetworkTold};
ghost use Rattle.pool_script.specs.Pooling.{jobs_of, slots_opened};

use crate::dealing::Share;
use crate::gate::Open;
use crate::lines::{push_decided, push_length};
use crate::opening::open_network;
use pool_queue::Job;
use pool_workers::{Report, run_alone};
use scp_types::Event;
use std::alloc::{AllocError, Global};
use std::sync::Wait;

/// What is told of a network: what its nodes have externalized, how long its journal is, and how many jobs came to what
/// end.
#[derive(Drop)]
pub struct Told {
    pub decided: String,
    pub length: String,
    pub report: Report,
}

/// Opens a network, runs its jobs in this thread, in order, and closes it. An error says that it is out of memory.
pub fn run_network<R: Wait + Copy + Drop>(
    rt: &R,
    alloc: Global,
    share: Share,
) -> Result<Told, AllocError>
    ensures { IfOk result (IsNetworkTold share.config share.calls.items) }
{
    let Share { config, calls } = share;
    let (slots, mut jobs) = share_out(alloc, calls)?;
    // The last of the list is run first.
    jobs.reverse();
    let (cell, seats) = open_network(rt, alloc, config, &slots)?;
    let (cell, seats, report) = run_alone(rt, alloc, cell, seats, jobs, &Open)?;
    let Ok((journal, _seats)) = cell.close(rt, seats) else {
        // The one seat is there.
        unreachable!()
    };
    let mut decided = String::new(alloc);
    let mut length = String::new(alloc);
    journal.replays();
    push_decided(alloc, &mut decided, &journal)?;
    push_length(&mut length, &journal)?;
    Ok(Told {
        decided,
        length,
        report,
    })
}

/// The slots that are to be opened, and all other events as jobs, each in order.
pub fn share_out(
    alloc: Global,
    calls: Vec<(u32, Event)>,
) -> Result<(Vec<u64>, Vec<Job>), AllocError>
    ensures { IfOk result (λ r. (r.0.items ≡ slots_opened calls.items) × (r.1.items ≡ jobs_of calls.items)) }
{
    let mut slots = Vec::new(alloc);
    let mut jobs = Vec::with_capacity(alloc, calls.len())?;
    for (network, event) in calls {
        match event {
            Event::OpenSlot { slot } => slots.push(slot)?,
            _ => jobs.push(Job { network, event })?,
        }
    }
    Ok((slots, jobs))
}
