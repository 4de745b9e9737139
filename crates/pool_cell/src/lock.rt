//! The steps of the lock.

ghost use Rattle.std.specs.Prelude.{◌≡◌, ◌⊎◌, true, false, [], ◌∷◌, ◌++◌, MatchOption};
ghost use Rattle.crossbeam_queue.specs.Fifo.{Pushes};
ghost use Rattle.crossbeam_queue.specs.Passes.{view, IsSamePass, IsPassOf, ruled_capacity};
ghost use Rattle.pool_cell.specs.Receipts.{extract, extract_of, receipt_entry};
ghost use Rattle.pool_cell.specs.Rule.{Holds, IsStateTaken, after_application, after_denial, HasCellState, cell_state_at};

use crate::cell_state::CellState;
use crate::receipt::Receipt;
use crate::refusal::CellRefusal;
use crate::rule::{Gives, Lock, Next, SeatPass, Takes};
use node_store::Shelf;
use scp_types::Event;
use std::snapshot::Snapshot;
use std::sync::Wait;
use std::thread;

/// One attempt to take the cell state. None says that another seat has it, or that another thread is in the way: then
/// the view is as it was. It waits for nobody.
pub(crate) fn try_take<S: Shelf, H: Wait + Drop>(
    lock: &Lock<S, H>,
    pass: &mut SeatPass<S, H>,
) -> Option<CellState<S, H>>
    requires queue { IsPassOf lock.now pass.old }
    requires known { (view pass.old).known ≡ true }
    requires away { (view pass.old).holding ≡ false }
    ensures queue { IsSamePass pass.old pass.new }
    ensures rule { MatchOption result (view pass.new ≡ view pass.old) (λ x. IsStateTaken (view pass.old) x (view pass.new)) }
{
    lock.try_pop_as::<Takes>(pass)
}

/// Waits for the cell state.
pub(crate) fn take<S: Shelf, H: Wait + Drop, R: Wait>(
    rt: &R,
    lock: &Lock<S, H>,
    pass: &mut SeatPass<S, H>,
) -> CellState<S, H>
    requires queue { IsPassOf lock.now pass.old }
    requires known { (view pass.old).known ≡ true }
    requires away { (view pass.old).holding ≡ false }
    ensures queue { IsSamePass pass.old pass.new }
    ensures rule { IsStateTaken (view pass.old) result (view pass.new) }
{
    for _ in rt.forever() {
        if let Some(cell_state) = try_take(lock, pass) {
            return cell_state;
        }
        thread::yield_now();
    }
    unreachable!()
}

/// Puts the cell state back. The view is then that of `N`.
pub(crate) fn give<N: Next, S: Shelf, H: Wait + Drop, R: Wait>(
    rt: &R,
    lock: &Lock<S, H>,
    pass: &mut SeatPass<S, H>,
    cell_state: CellState<S, H>,
)
    requires queue { IsPassOf lock.now pass.old × (ruled_capacity lock.now ≡ 1) }
    requires mine { ((view pass.old).holding ≡ true) ⊎ ((view pass.old).opening ≡ true) }
    requires rule { Pushes Holds 1 pass.old.id (view pass.old) cell_state (λ w. w ≡ N.next) }
    ensures queue { IsSamePass pass.old pass.new }
    ensures view { view pass.new ≡ N.next }
{
    match lock.push_as::<Gives<N>, R>(rt, pass, cell_state) {
        Ok(()) => {}
        Err(_) => unreachable!(),
    }
}

/// Puts the cell state back with one entry more, if there is no stop mark.
pub(crate) fn add<N: Next, S: Shelf, H: Wait + Drop, R: Wait>(
    rt: &R,
    lock: &Lock<S, H>,
    pass: &mut SeatPass<S, H>,
    cell_state: CellState<S, H>,
    made: &Snapshot<Receipt>,
)
    requires queue { IsPassOf lock.now pass.old × (ruled_capacity lock.now ≡ 1) }
    requires sits { HasCellState (view pass.old) }
    requires running { (view pass.old).over ≡ false }
    requires cell_state { cell_state ≡ cell_state_at (view pass.old).config (view pass.old).seats ((view pass.old).all ++ receipt_entry made.now.value ∷ []) (view pass.old).over }
    requires made { extract_of made.now.value ≡ extract (view pass.old).config (view pass.old).all (receipt_entry made.now.value) }
    requires next { N.next ≡ after_application (view pass.old) made.now.value }
    ensures queue { IsSamePass pass.old pass.new }
    ensures view { view pass.new ≡ after_application (view pass.old) made.now.value }
{
    give::<N, S, H, R>(rt, lock, pass, cell_state);
}

/// Puts the cell state back as it was, and the refused event is kept in the view.
pub(crate) fn deny<N: Next, S: Shelf, H: Wait + Drop, R: Wait>(
    rt: &R,
    lock: &Lock<S, H>,
    pass: &mut SeatPass<S, H>,
    cell_state: CellState<S, H>,
    asked: &Snapshot<Event>,
    refusal: CellRefusal,
)
    requires queue { IsPassOf lock.now pass.old × (ruled_capacity lock.now ≡ 1) }
    requires sits { HasCellState (view pass.old) }
    requires cell_state { cell_state ≡ cell_state_at (view pass.old).config (view pass.old).seats (view pass.old).all (view pass.old).over }
    requires next { N.next ≡ after_denial (view pass.old) asked.now.value refusal }
    ensures queue { IsSamePass pass.old pass.new }
    ensures view { view pass.new ≡ after_denial (view pass.old) asked.now.value refusal }
{
    give::<N, S, H, R>(rt, lock, pass, cell_state);
}
