//! Cells with several seats, by one thread and by four.

ghost use Rattle.std.specs.Prelude.{◌≡◌, ◌≤◌, length};
ghost use Rattle.std.specs.List.{All};
ghost use Rattle.pool_cell.specs.Cells.{IsSeatOf};

use crate::fixtures::{config, proposal};
use node_store::{BoxShelf, Shelf};
use pool_cell::{Cell, CellRefusal, CellUsers, Decision, Seat, Watch};
use scp_types::Event;
use std::alloc::Global;
use std::sync::Wait;
use std::test::Fail;
use std::thread;
use std::thread::Threads;

/// How many events each thread applies.
const EACH: u64 = 50;

/// The events of a slot, again and again: it is opened, `x` is proposed, and it is closed.
fn event_at(alloc: Global, slot: u64, turn: u64) -> Option<Event> {
    match turn % 3 {
        0 => Some(Event::OpenSlot { slot }),
        1 => proposal(alloc, slot, 0),
        _ => Some(Event::CloseSlot { slot }),
    }
}

/// Applies many events to the seat's own slot.
fn use_slot<S: Shelf + Drop, H: Wait + Drop, R: Wait>(
    rt: &R,
    alloc: Global,
    cell: &Cell<S, H>,
    seat: &mut Seat<S, H>,
)
    requires { IsSeatOf cell.now seat.old }
    ensures { IsSeatOf cell.now seat.new }
{
    let slot = seat.number();
    for turn in 0..EACH {
        if let Some(event) = event_at(alloc, slot, turn) {
            let _answer = cell.apply(rt, seat, event);
        }
    }
}

/// All seats at once, each in a thread of its own.
fn all_at_once<S: Shelf + Drop + Send, H: Wait + Drop + Send, R: Threads + Wait + Sync>(
    rt: &R,
    alloc: Global,
    cell: &Cell<S, H>,
    seats: &mut Vec<Seat<S, H>>,
)
where
    S::Place: Send,
    requires { All (IsSeatOf cell.now) seats.old.items }
    ensures theirs { All (IsSeatOf cell.now) seats.new.items }
    ensures len { length seats.new.items ≡ length seats.old.items }
{
    thread::for_each_mut(
        rt,
        seats.as_mut_slice(),
        4,
        &|_, seat: &mut Seat<S, H>|
            requires { IsSeatOf cell.now seat.old }
            ensures { IsSeatOf cell.entry.now seat.new }
        { use_slot(rt, alloc, cell, seat) },
    );
}

/// How many decisions there are, if each is of `x`.
fn count_of_x(decisions: &[Decision]) -> Option<usize> {
    for decision in decisions {
        if decision.value.as_bytes() != [b'x'].as_slice() {
            return None;
        }
    }
    Some(decisions.len())
}

/// How many decisions of `x` are read. Nothing is read if the cell is closed.
fn read(watch: &mut Watch) -> Option<usize> {
    watch.read(|decisions: &[Decision]| count_of_x(decisions))?
}

/// By one seat a watch is told and the cell is stopped: how many decisions the watch does not know then, how many it
/// reads, and how another seat is refused.
fn tell_and_stop<S: Shelf + Drop, H: Wait + Drop, R: Wait>(
    rt: &R,
    cell: &Cell<S, H>,
    seats: &mut Vec<Seat<S, H>>,
    watch: &mut Watch,
) -> (Option<usize>, Option<usize>, Option<CellRefusal>)
    requires two { 2 ≤ length seats.old.items }
    requires theirs { All (IsSeatOf cell.now) seats.old.items }
    ensures { All (IsSeatOf cell.now) seats.new.items }
{
    let missing = cell.tell(rt, &mut seats[0], watch);
    cell.stop(rt, &mut seats[0]);
    let answer = cell.apply(rt, &mut seats[1], Event::CloseSlot { slot: 1 });
    (missing, read(watch), answer.err())
}

/// What is left of a cell: how long its journal is, how many decisions were published, and how many receipts its seats
/// have.
fn close<S: Shelf + Drop, H: Wait + Drop, R: Wait>(
    rt: &R,
    cell: Cell<S, H>,
    seats: Vec<Seat<S, H>>,
) -> Option<(usize, Option<usize>, usize)>
    requires { All (IsSeatOf cell) seats.items }
{
    match cell.close_watched(rt, seats) {
        Ok((journal, seats, board)) => match board {
            Some(board) => Some((
                journal.len(),
                count_of_x(board.as_slice()),
                count_receipts(seats.as_slice()),
            )),
            None => None,
        },
        Err(_) => None,
    }
}

/// How many receipts seats have.
fn count_receipts<S: Shelf, H: Wait + Drop>(seats: &[Seat<S, H>]) -> usize {
    let mut count = 0usize;
    for seat in seats {
        count = count.saturating_add(seat.receipts().len());
    }
    count
}

/// What a watch is told of a cell that four seats used at once, and how a seat is refused when it is stopped.
type Told = (Option<usize>, Option<usize>, Option<CellRefusal>);

/// What is left of it.
type Left = (usize, Option<usize>, usize);

/// A cell of one node with four seats, and a watch: it is used by all at once, stopped and closed.
fn use_and_close<R: Threads + Wait + Sync + Send + Drop + Copy>(
    rt: &R,
    alloc: Global,
) -> Option<(Told, Left, Option<usize>)> {
    let config = config(alloc, 7, 1)?;
    let users = CellUsers {
        seats: 4,
        watches: 1,
    };
    let opened = Cell::open_watched(rt, alloc, config, BoxShelf::new(alloc), users);
    let (cell, mut seats, mut watches) = opened.ok()?;
    let mut watch = watches.pop()?;
    all_at_once(rt, alloc, &cell, &mut seats);
    let told = tell_and_stop(rt, &cell, &mut seats, &mut watch);
    let left = close(rt, cell, seats);
    let after = read(&mut watch);
    drop(watch);
    Some((told, left?, after))
}

// Each of four slots is opened 17 times, `x` is proposed 17 times, and it is closed 16 times.
#[test]
fn four_threads_make_one_history(rt: HostRuntime) -> Result<(), Fail> {
    let (told, left, after) = use_and_close(&rt, rt.alloc()).ok_or("memory")?;
    assert_eq!(rt; told, (Some(0), Some(68), Some(CellRefusal::Closed)));
    assert_eq!(rt; left, (200, Some(68), 200));
    assert_eq!(rt; after, None);
    Ok(())
}
