//! How a cell is opened and closed, and what its seats do.

ghost use Rattle.std.specs.Prelude.{◌≡◌, ◌≤◌, ◌<◌, ◌↔◌, false, true, length, IfOk, IfErr, IfSome, OnOk, Err, ℕ, IsTrue, map, replicate, []};
ghost use Rattle.std.specs.List.{All};
ghost use mathlib.Core.List.{IsPrefix};
ghost use Rattle.crossbeam_queue.specs.Passes.{view, IsSamePass, IsPassOf};
ghost use Rattle.pool_cell.specs.declared.refusal.CellRefusal.TheVariants.{Closed};
ghost use Rattle.pool_cell.specs.Cells.{AllFresh, HasGainedReceipt, IsDenial, IsSameButSeen, IsSeatOf, IsStopped};
ghost use Rattle.pool_cell.specs.Closing.{AllSeats, HasNumber, ended_sight, Gathered, IsOneHistory};
ghost use Rattle.pool_cell.specs.Publishing.{IsToldBut, decisions_known};
ghost use Rattle.pool_cell.specs.Rule.{closer_of, note_of, with_note, IsKnownAtEnd};
ghost use Rattle.pool_cell.specs.Sounds.{IsSound, IsWhy};

use super::Cell;
use crate::cell_state::CellState;
use crate::lock::{add, deny, give, take, try_take};
use crate::refusal::CellRefusal;
use crate::rule::{Checks, Closes, Ends, Lock, SeatPass, Shows, Sits};
use crate::seat::Seat;
use crate::{Board, Publisher, Watch};
use host_config::NetConfig;
use host_journal::Journal;
use node_store::{SharedHandle, Shelf};
use scp_types::Event;
use std::alloc::{AllocError, Global};
use std::collections::VecDeque;
use std::marker::Brand;
use std::snapshot::Snapshot;
use std::sync::Wait;
use std::thread;

/// Not all seats of the cell were there. The cell, and those that were, are handed back.
#[derive(Drop)]
pub struct SeatsMissing<S: Shelf, H: Wait + Drop> {
    pub cell: Cell<S, H>,
    pub seats: Vec<Seat<S, H>>,
}

/// How many use a cell: its seats, by which threads apply events, and the watches of what it decides.
#[derive(Clone, Copy)]
pub struct CellUsers {
    /// The seats, 1 to 64.
    pub seats: u64,
    /// The watches, at most 64.
    pub watches: usize,
}

fn has<S: Shelf, H: Wait + Drop>(seats: &[Seat<S, H>], number: u64) -> bool
    ensures { IsTrue result ↔ HasNumber seats.now number }
{
    for seat in seats {
        if seat.number() == number {
            return true;
        }
    }
    false
}

/// Whether each number below this one is that of a seat.
fn has_all<S: Shelf, H: Wait + Drop>(count: u64, seats: &[Seat<S, H>]) -> bool
    ensures all { IsTrue result → (k : ℕ) → k < count → HasNumber seats.now k }
    ensures missing { result ≡ false → (k : ℕ) × (k < count) × ¬ HasNumber seats.now k }
{
    for number in 0..count {
        if !has(seats, number) {
            return false;
        }
    }
    true
}

/// A pass that is to take the cell state for good.
fn closer_from<S: Shelf, H: Wait + Drop>(lock: &Lock<S, H>, seat: &mut Seat<S, H>) -> SeatPass<S, H>
    requires { seat.old.cell ≡ lock.now.table.shared.table_id }
    ensures same { seat.new ≡ seat.old }
    ensures pass { IsPassOf lock.now result × (view result ≡ closer_of seat.old.me) }
{
    lock.another::<Closes>(&mut seat.pass)
}

/// Ends a seat, and compares it with the cell state.
fn end_seat<S: Shelf, H: Wait + Drop>(
    lock: &Lock<S, H>,
    keeper: &mut SeatPass<S, H>,
    seat: &mut Seat<S, H>,
)
    requires seat { seat.old.cell ≡ lock.now.table.shared.table_id }
    requires queue { IsPassOf lock.now keeper.old }
    requires keeper { ((view keeper.old).holding ≡ true) × ((view keeper.old).live ≡ false) × ((view keeper.old).known ≡ true) × ((view keeper.old).opens ≡ false) }
    ensures seat { seat.new ≡ ended_sight seat.old }
    ensures sound { IsSound seat.new.me }
    ensures queue { IsSamePass keeper.old keeper.new }
    ensures keeper { view keeper.new ≡ with_note (view keeper.old) (note_of seat.old.me) }
    ensures end_known { IsKnownAtEnd (view keeper.old).config (view keeper.old).all (view keeper.old).owners (view keeper.old).over (view keeper.old).stopper seat.new.me }
{
    let note = lock.another::<Ends>(&mut seat.pass);
    lock.absorb::<Shows>(keeper, note);
    lock.learn_as::<Checks>(keeper);
}

/// Takes the cell state for good, and ends each seat.
fn gather<S: Shelf, H: Wait + Drop, R: Wait>(
    rt: &R,
    lock: &Lock<S, H>,
    config: &NetConfig,
    count: u64,
    seats: &mut [Seat<S, H>],
) -> CellState<S, H>
    requires some { 0 < length seats.old }
    requires seats { AllSeats (λ s. (s.cell ≡ lock.now.table.shared.table_id) × (s.me.config ≡ config.now) × (s.me.seats ≡ count)) seats.old }
    ensures gathered { Gathered config.now count result seats.new }
    ensures ended { seats.new ≡ map ended_sight seats.old }
{
    let mut keeper = closer_from(lock, &mut seats[0]);
    let cell_state = take(rt, lock, &mut keeper);
    for seat in seats.iter_mut() {
        end_seat(lock, &mut keeper, seat);
    }
    cell_state
}

/// A publisher with nothing appended, and `count` watches of it, which have seen nothing.
fn publisher_and_watches<H: Wait + Drop>(
    rt: H,
    alloc: Global,
    count: usize,
) -> Result<(Publisher<H>, Vec<Watch>), AllocError>
    requires { count ≤ 64 }
    ensures publisher { IfOk result (λ r. (r.0.0 ≡ []) × (r.0.1 ≡ [])) }
    ensures watches { IfOk result (λ r. r.1.items ≡ replicate count []) }
{
    let publisher = Publisher::new(alloc, rt, count + 1)?;
    let mut watches = Vec::new(alloc);
    for _ in 0..count {
        watches.push(publisher.watch()?)?;
    }
    Ok((publisher, watches))
}

impl<S: Shelf + Drop, H: Wait + Drop> Cell<S, H> {
    /// The configuration of the network. It waits for nobody.
    pub fn config(&self) -> &NetConfig
        ensures { result.now ≡ self.now.config }
    {
        &self.config
    }
}

impl<S: Shelf + Drop, H: Wait + Drop + Copy> Cell<S, H> {
    /// A cell with 1 to 64 seats, numbered from 0 on, for a network in which nothing has happened, over a shelf. What
    /// it decides goes to a publisher with nothing appended, if there is one. An error says that it is out of memory,
    /// or that slices have too many owners.
    fn open_with(
        rt: &H,
        alloc: Global,
        config: NetConfig,
        seats: u64,
        shelf: S,
        publisher: Option<Publisher<H>>,
    ) -> Result<(Cell<S, H>, Vec<Seat<S, H>>), AllocError>
        requires some { 0 < seats }
        requires few { seats ≤ 64 }
        requires publisher { IfSome publisher (λ p. (p.0 ≡ []) × (p.1 ≡ [])) }
        ensures cell { IfOk result (λ r. (r.0.config ≡ config) × (r.0.seats ≡ seats)) }
        ensures seats { IfOk result (λ r. length r.1.items ≡ seats) }
        ensures fresh { IfOk result (λ r. AllFresh r.0.cell config seats r.1.items) }
        ensures theirs { IfOk result (λ r. All (IsSeatOf r.0) r.1.items) }
    {
        let kept = config.try_copy(alloc)?;
        let mut all = Vec::with_capacity(alloc, seats as usize)?;
        let (lock, mut opener) = Lock::ruled(alloc, 1)?;
        let cell_state = CellState::new(alloc, config, shelf, seats, publisher);
        give::<Brand, S, H, H>(rt, &lock, &mut opener, cell_state);
        for number in 0..seats {
            let pass = lock.another::<Sits>(&mut opener);
            all.push_reserved(Seat {
                pass,
                number,
                receipts: VecDeque::new(alloc),
            });
        }
        let cell = Cell {
            lock,
            config: kept,
            seats,
        };
        Ok((cell, all))
    }

    /// A cell with 1 to 64 seats, numbered from 0 on, for a network in which nothing has happened, over a shelf. It
    /// comes with up to 64 watches of what it decides. An error says that it is out of memory, or that slices have too
    /// many owners.
    pub fn open_watched(
        rt: &H,
        alloc: Global,
        config: NetConfig,
        shelf: S,
        users: CellUsers,
    ) -> Result<(Cell<S, H>, Vec<Seat<S, H>>, Vec<Watch>), AllocError>
        requires some { 0 < users.seats }
        requires few { (users.seats ≤ 64) × (users.watches ≤ 64) }
        ensures cell { IfOk result (λ r. (r.0.config ≡ config) × (r.0.seats ≡ users.seats)) }
        ensures seats { IfOk result (λ r. length r.1.items ≡ users.seats) }
        ensures fresh { IfOk result (λ r. AllFresh r.0.cell config users.seats r.1.items) }
        ensures theirs { IfOk result (λ r. All (IsSeatOf r.0) r.1.items) }
        ensures watches { IfOk result (λ r. r.2.items ≡ replicate users.watches []) }
    {
        let CellUsers { seats, watches } = users;
        let (publisher, given) = publisher_and_watches(*rt, alloc, watches)?;
        let (cell, all) = Cell::open_with(rt, alloc, config, seats, shelf, Some(publisher))?;
        Ok((cell, all, given))
    }

    /// A cell as by [`Cell::open_watched`], with no watch: it has no publisher either, and what it decides is found
    /// only in its journal.
    pub fn open_on(
        rt: &H,
        alloc: Global,
        config: NetConfig,
        seats: u64,
        shelf: S,
    ) -> Result<(Cell<S, H>, Vec<Seat<S, H>>), AllocError>
        requires some { 0 < seats }
        requires few { seats ≤ 64 }
        ensures cell { IfOk result (λ r. (r.0.config ≡ config) × (r.0.seats ≡ seats)) }
        ensures seats { IfOk result (λ r. length r.1.items ≡ seats) }
        ensures fresh { IfOk result (λ r. AllFresh r.0.cell config seats r.1.items) }
        ensures theirs { IfOk result (λ r. All (IsSeatOf r.0) r.1.items) }
    {
        Cell::open_with(rt, alloc, config, seats, shelf, None)
    }
}

impl<S: Shelf + Drop, H: Wait + Drop> Cell<S, H> {
    /// Applies an event under the lock: the seat gains its receipt, behind the others, which has what the event gives
    /// out. It waits for the lock.
    ///
    /// What the journal decided is published, as far as there is memory; the rest goes with a later call. For this it
    /// also waits for watches that read.
    ///
    /// An error is [`CellRefusal::Closed`] if the cell was stopped, and else the first refusal of the network that
    /// applies. It says that it is out of memory only if none applies, or while the bytes of an envelope are read.
    /// Behind an error the network and the receipts are as they were.
    pub fn apply<R: Wait>(
        &self,
        rt: &R,
        seat: &mut Seat<S, H>,
        mut event: Event,
    ) -> Result<(), CellRefusal>
        requires { IsSeatOf self.now seat.old }
        ensures seat { IsSeatOf self.now seat.new }
        ensures number { seat.new.me.number ≡ seat.old.me.number }
        ensures seen { IsPrefix seat.old.me.seen seat.new.me.seen }
        ensures lasting { seat.old.me.stopped ≡ true → seat.new.me.stopped ≡ true }
        ensures ok { OnOk result (HasGainedReceipt self.now event seat.old seat.new) }
        ensures err { IfErr result (λ r. IsDenial event r seat.old seat.new) }
        ensures refusal { IfErr result (IsWhy self.now.config seat.new.me.seen seat.new.me.stopped event) }
        ensures closed { (result ≡ Err Closed) ↔ (seat.new.me.stopped ≡ true) }
    {
        for _ in rt.forever() {
            match self.try_apply(rt, seat, event) {
                Ok(answer) => return answer,
                Err(back) => event = back,
            }
            thread::yield_now();
        }
        unreachable!()
    }

    /// As [`Cell::apply`], with one attempt at the lock. If another seat has it, or another thread is in the way, the
    /// event is handed back at once, and nothing has changed. So a thread that has other work need not wait.
    ///
    /// Once it has the lock it may still wait for watches that read, if something is published.
    pub fn try_apply<R: Wait>(
        &self,
        rt: &R,
        seat: &mut Seat<S, H>,
        event: Event,
    ) -> Result<Result<(), CellRefusal>, Event>
        requires { IsSeatOf self.now seat.old }
        ensures seat { IsSeatOf self.now seat.new }
        ensures number { seat.new.me.number ≡ seat.old.me.number }
        ensures seen { IsPrefix seat.old.me.seen seat.new.me.seen }
        ensures lasting { seat.old.me.stopped ≡ true → seat.new.me.stopped ≡ true }
        ensures ok { IfOk result (λ a. OnOk a (HasGainedReceipt self.now event seat.old seat.new)) }
        ensures err { IfOk result (λ a. IfErr a (λ r. IsDenial event r seat.old seat.new)) }
        ensures refusal { IfOk result (λ a. IfErr a (IsWhy self.now.config seat.new.me.seen seat.new.me.stopped event)) }
        ensures closed { IfOk result (λ a. (a ≡ Err Closed) ↔ (seat.new.me.stopped ≡ true)) }
        ensures busy { IfErr result (λ e. (e ≡ event) × (seat.new ≡ seat.old)) }
    {
        let Some(mut cell_state) = try_take(&self.lock, &mut seat.pass) else {
            return Err(event);
        };
        let asked = Snapshot::of(&event);
        match cell_state.enter(&mut seat.receipts, event) {
            Ok(made) => {
                let cell_state = cell_state.publish();
                add::<Brand, S, H, R>(rt, &self.lock, &mut seat.pass, cell_state, &made);
                Ok(Ok(()))
            }
            Err(refusal) => {
                deny::<Brand, S, H, R>(rt, &self.lock, &mut seat.pass, cell_state, &asked, refusal);
                Ok(Err(refusal))
            }
        }
    }

    /// Sets the stop mark, for good. It waits for the lock, and takes no memory.
    pub fn stop<R: Wait>(&self, rt: &R, seat: &mut Seat<S, H>)
        requires { IsSeatOf self.now seat.old }
        ensures seat { IsSeatOf self.now seat.new }
        ensures number { seat.new.me.number ≡ seat.old.me.number }
        ensures seen { IsPrefix seat.old.me.seen seat.new.me.seen }
        ensures stopped { IsStopped seat.old seat.new }
    {
        let mut cell_state = take(rt, &self.lock, &mut seat.pass);
        cell_state.stop();
        give::<Brand, S, H, R>(rt, &self.lock, &mut seat.pass, cell_state);
    }

    /// Publishes what the journal decided, as far as there is memory, and has a watch of this cell see all that is
    /// published. It answers how many more decisions the journal has that the seat has now seen: none, if there was
    /// memory. None says that the watch is not of this cell: then no more is known than that what it saw has grown.
    pub fn tell<R: Wait>(&self, rt: &R, seat: &mut Seat<S, H>, watch: &mut Watch) -> Option<usize>
        requires { IsSeatOf self.now seat.old }
        ensures seat { IsSeatOf self.now seat.new }
        ensures number { seat.new.me.number ≡ seat.old.me.number }
        ensures seen { IsPrefix seat.old.me.seen seat.new.me.seen }
        ensures lasting { seat.old.me.stopped ≡ true → seat.new.me.stopped ≡ true }
        ensures same { IsSameButSeen seat.old seat.new }
        ensures told { IfSome result (λ missing. IsToldBut seat.new.me.seen missing watch.new) }
        ensures grows { IsPrefix watch.old watch.new }
    {
        let cell_state = take(rt, &self.lock, &mut seat.pass).publish();
        let missing = cell_state.tell(watch);
        give::<Brand, S, H, R>(rt, &self.lock, &mut seat.pass, cell_state);
        missing
    }

    /// The journal, the seats with their receipts, and what was published, if all seats of the cell are there. Watches
    /// read nothing from now on. A cell of [`Cell::open_on`] has published nothing, and there is None. It takes no
    /// memory, and waits for watches that read.
    ///
    /// An error hands the cell and the seats back, as they were.
    pub fn close_watched<R: Wait>(
        self,
        rt: &R,
        mut seats: Vec<Seat<S, H>>,
    ) -> Result<(Journal<S>, Vec<Seat<S, H>>, Option<Box<Board>>), SeatsMissing<S, H>>
        requires { All (IsSeatOf self) seats.items }
        ensures config { IfOk result (λ r. r.0.config ≡ self.config) }
        ensures ended { IfOk result (λ r. r.1.items ≡ map ended_sight seats.items) }
        ensures history { IfOk result (λ r. IsOneHistory self.seats r.0 r.1.items) }
        ensures published { IfOk result (λ r. IfSome r.2 (λ b. IsPrefix b.value (decisions_known r.0.entries))) }
        ensures back { IfErr result (λ m. (m.cell ≡ self) × (m.seats.items ≡ seats.items)) }
        ensures missing { IfErr result (λ m. (k : ℕ) × (k < self.seats) × ¬ HasNumber seats.items k) }
    {
        if !has_all(self.seats, seats.as_slice()) {
            return Err(SeatsMissing { cell: self, seats });
        }
        let cell_state = gather(
            rt,
            &self.lock,
            &self.config,
            self.seats,
            seats.as_mut_slice(),
        );
        let (journal, board) = cell_state.into_parts();
        Ok((journal, seats, board))
    }

    /// As [`Cell::close_watched`], without what was published.
    pub fn close<R: Wait>(
        self,
        rt: &R,
        seats: Vec<Seat<S, H>>,
    ) -> Result<(Journal<S>, Vec<Seat<S, H>>), SeatsMissing<S, H>>
        requires { All (IsSeatOf self) seats.items }
        ensures config { IfOk result (λ r. r.0.config ≡ self.config) }
        ensures ended { IfOk result (λ r. r.1.items ≡ map ended_sight seats.items) }
        ensures history { IfOk result (λ r. IsOneHistory self.seats r.0 r.1.items) }
        ensures back { IfErr result (λ m. (m.cell ≡ self) × (m.seats.items ≡ seats.items)) }
        ensures missing { IfErr result (λ m. (k : ℕ) × (k < self.seats) × ¬ HasNumber seats.items k) }
    {
        let (journal, seats, _board) = self.close_watched(rt, seats)?;
        Ok((journal, seats))
    }
}

impl<R: Wait + Drop + Copy> Cell<SharedHandle<R>, R> {
    /// A cell as by [`Cell::open_on`], over a store of its own.
    pub fn open(
        rt: &R,
        alloc: Global,
        config: NetConfig,
        seats: u64,
    ) -> Result<(Cell<SharedHandle<R>, R>, Vec<Seat<SharedHandle<R>, R>>), AllocError>
        requires some { 0 < seats }
        requires few { seats ≤ 64 }
        ensures cell { IfOk result (λ r. (r.0.config ≡ config) × (r.0.seats ≡ seats)) }
        ensures seats { IfOk result (λ r. length r.1.items ≡ seats) }
        ensures fresh { IfOk result (λ r. AllFresh r.0.cell config seats r.1.items) }
        ensures theirs { IfOk result (λ r. All (IsSeatOf r.0) r.1.items) }
    {
        let shelf = SharedHandle::new(alloc, *rt)?;
        Cell::open_on(rt, alloc, config, seats, shelf)
    }
}
