//! Jobs that a seat applies, and the emissions of its receipts.

ghost use Rattle.std.specs.Prelude.{◌≡◌, ◌<◌, IfErr, IfOk, length, slice_index_or, slice_get};
ghost use Rattle.scp_types.specs.declared.event.Out.{Out};
ghost use Rattle.pool_workers.specs.Sums.{IsJobDone, IsSeated, emission_at_mark};

use crate::gate::Gate;
use node_store::Shelf;
use pool_cell::{Cell, Receipt, Seat};
use pool_queue::Job;
use scp_types::{Kind, NodeId, Out};
use std::sync::Wait;

/// An emission, as a Hear names it.
#[derive(Clone, Copy)]
pub(crate) struct SlotEmission {
    pub network: u32,
    pub slot: u64,
    pub from: NodeId,
    pub kind: Kind,
    pub number: u64,
}

/// Applies a job by one seat, and answers whether it was applied. It waits for the cell.
pub(crate) fn apply_by<S: Shelf + Drop, H: Wait + Drop, R: Wait, G: Gate>(
    rt: &R,
    cell: &Cell<S, H>,
    seat: &mut Seat<S, H>,
    gate: &G,
    job: Job,
) -> bool
    requires seat { IsSeated cell.now seat.old }
    requires job { cell.now.config.number ≡ job.network }
    ensures seat { IsSeated cell.now seat.new }
    ensures done { IsJobDone seat.old seat.new job result }
{
    gate.before(rt, &job);
    let Job { network, event } = job;
    let answer = cell.apply(rt, seat, event);
    gate.after(rt, network);
    answer.is_ok()
}

/// What [`apply_by`] does, with one attempt at the cell: if it is taken, the job is handed back, and nothing has
/// changed.
pub(crate) fn try_apply_by<S: Shelf + Drop, H: Wait + Drop, R: Wait, G: Gate>(
    rt: &R,
    cell: &Cell<S, H>,
    seat: &mut Seat<S, H>,
    gate: &G,
    job: Job,
) -> Result<bool, Job>
    requires seat { IsSeated cell.now seat.old }
    requires job { cell.now.config.number ≡ job.network }
    ensures seat { IsSeated cell.now seat.new }
    ensures done { IfOk result (IsJobDone seat.old seat.new job) }
    ensures back { IfErr result (λ j. (j ≡ job) × (seat.new ≡ seat.old)) }
{
    gate.before(rt, &job);
    let Job { network, event } = job;
    match cell.try_apply(rt, seat, event) {
        Ok(answer) => {
            gate.after(rt, network);
            Ok(answer.is_ok())
        }
        Err(event) => {
            gate.put_off(rt, network);
            Err(Job { network, event })
        }
    }
}

/// The out at an index of a receipt, if it is an emission, with the mark at another.
pub(crate) fn emission_of(
    receipt: &Receipt,
    network: u32,
    index: usize,
    mark: usize,
) -> Option<SlotEmission>
    requires { index < length receipt.now.outs }
    ensures { (o : Out) → result ≡ emission_at_mark network (slice_index_or receipt.now.outs index o) (slice_get receipt.now.marks mark) }
{
    match &receipt.outs()[index] {
        Out::Emit(envelope) => match receipt.marks().get(mark) {
            Some(number) => Some(SlotEmission {
                network,
                slot: envelope.slot(),
                from: *envelope.sender(),
                kind: envelope.body().kind(),
                number: *number,
            }),
            None => None,
        },
        _ => None,
    }
}
