//! A network that is opened, with its first slots.

ghost use Rattle.std.specs.Prelude.{◌≡◌, IfOk};
ghost use Rattle.pool_cell.specs.Cells.{IsSeatOf};
ghost use Rattle.pool_workers.specs.Spares.{HasAllSeats};
ghost use Rattle.pool_script.specs.Opening.{HasAsked, HaveAsked, IsReadyNetwork};

use host_config::NetConfig;
use node_store::BoxShelf;
use pool_cell::{Cell, Seat};
use scp_types::Event;
use std::alloc::{AllocError, Global};
use std::sync::Wait;

/// A network over a store of its own, with one seat. Its slots are opened in order, refused or not. An error says that it
/// is out of memory.
pub fn open_network<R: Wait + Copy + Drop>(
    rt: &R,
    alloc: Global,
    config: NetConfig,
    slots: &[u64],
) -> Result<(Cell<BoxShelf, R>, Vec<Seat<BoxShelf, R>>), AllocError>
    ensures ready { IfOk result (λ r. IsReadyNetwork config slots.now (record { cell = r.0; seats = r.1.items })) }
    ensures seats { IfOk result (λ r. HasAllSeats r.0 r.1.items) }
{
    let (cell, mut seats) = Cell::open_on(rt, alloc, config, 1, BoxShelf::new(alloc))?;
    open_slots(rt, &cell, &mut seats[0], slots);
    Ok((cell, seats))
}

/// Opens slots in order, refused or not.
fn open_slots<R: Wait + Drop>(
    rt: &R,
    cell: &Cell<BoxShelf, R>,
    seat: &mut Seat<BoxShelf, R>,
    slots: &[u64],
)
    requires { IsSeatOf cell.now seat.old }
    ensures seat { IsSeatOf cell.now seat.new }
    ensures number { seat.new.me.number ≡ seat.old.me.number }
    ensures asked { HaveAsked cell.now slots.now seat.old seat.new }
{
    for slot in slots {
        open_slot(rt, cell, seat, *slot);
    }
}

fn open_slot<R: Wait + Drop>(
    rt: &R,
    cell: &Cell<BoxShelf, R>,
    seat: &mut Seat<BoxShelf, R>,
    slot: u64,
)
    requires { IsSeatOf cell.now seat.old }
    ensures seat { IsSeatOf cell.now seat.new }
    ensures number { seat.new.me.number ≡ seat.old.me.number }
    ensures asked { HasAsked cell.now slot seat.old seat.new }
{
    let _answer = cell.apply(rt, seat, Event::OpenSlot { slot });
}
