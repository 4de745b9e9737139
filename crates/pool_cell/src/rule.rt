//! The lock's rule, and what its steps tell.

ghost use Rattle.std.specs.Prelude.{◌≡◌};

use crate::cell_state::CellState;
use crossbeam_queue::protocol::{Join, Lesson, Outcome, Protocol, Split};
use crossbeam_queue::{Pass, RuledArrayQueue};
use node_store::Shelf;
use std::marker::{Brand, Model};
use std::sync::Wait;

/// What a pass knows. No value of it is made; contracts see what its specification has.
pub struct PassKnowledge;

impl Model for PassKnowledge {
    ghost use Rattle.std.specs.Coded.{codes};
    ghost use Rattle.scp_types.specs.Trees.{members_code};
    ghost use Rattle.pool_cell.specs.Views.{Knowledge, nothing_known};

    ghost Value = { Knowledge };

    ghost coded = { Prim.hlevel (codes, members_code) };

    ghost view = { λ _. nothing_known };
}

/// The rule of the lock.
pub struct OneHistory;

impl<S: Shelf, H: Wait + Drop> Protocol<CellState<S, H>, PassKnowledge> for OneHistory {
    ghost use Rattle.pool_cell.specs.Rule.{Holds, opener};

    ghost holds = { Holds };

    ghost first = { opener };
}

/// A view that a step leads to.
pub trait Next {
    ghost use Rattle.pool_cell.specs.Views.{Knowledge};

    ghost next: { Knowledge };
}

impl Next for Brand {
    ghost use Rattle.pool_cell.specs.Rule.{opener};

    ghost next = { opener };
}

/// The cell state is put back, and the view is that of `N`.
pub struct Gives<N> {
    of: std::marker::PhantomData<N>,
}

impl<N: Next, S: Shelf, H: Wait + Drop> Outcome<CellState<S, H>, PassKnowledge> for Gives<N> {
    ghost use Rattle.std.specs.Prelude.{◌≡◌};

    ghost then = { λ v x w. w ≡ N.next };
}

impl<N: Next, S: Shelf, H: Wait + Drop> Lesson<CellState<S, H>, PassKnowledge> for Gives<N> {
    ghost use Rattle.pool_cell.specs.Rule.{IsEmpty};

    ghost fact = { λ v items. IsEmpty items };
}

/// The cell state is taken.
pub struct Takes;

impl<S: Shelf, H: Wait + Drop> Outcome<CellState<S, H>, PassKnowledge> for Takes {
    ghost use Rattle.pool_cell.specs.Rule.{IsStateTaken};

    ghost then = { IsStateTaken };
}

/// A seat is made.
pub struct Sits;

impl Split<PassKnowledge> for Sits {
    ghost use Rattle.pool_cell.specs.Rule.{one_more, seat_of};

    ghost left = { one_more };

    ghost right = { seat_of };
}

/// A seat ends, and a note of it is made.
pub struct Ends;

impl Split<PassKnowledge> for Ends {
    ghost use Rattle.pool_cell.specs.Rule.{after_end, note_of};

    ghost left = { after_end };

    ghost right = { note_of };
}

/// A pass that is to take the cell state for good.
pub struct Closes;

impl Split<PassKnowledge> for Closes {
    ghost use Rattle.pool_cell.specs.Rule.{closer_of};

    ghost left = { λ v. v };

    ghost right = { closer_of };
}

/// The closer takes a note in.
pub struct Shows;

impl Join<PassKnowledge> for Shows {
    ghost use Rattle.pool_cell.specs.Rule.{with_note};
    ghost use Rattle.pool_cell.specs.Views.{nothing_known};

    ghost both = { with_note };

    ghost spent = { nothing_known };
}

/// The closer compares the note with the cell state that it has.
pub struct Checks;

impl<S: Shelf, H: Wait + Drop> Lesson<CellState<S, H>, PassKnowledge> for Checks {
    ghost use Rattle.pool_cell.specs.Rule.{Agrees};

    ghost fact = { λ v items. Agrees v };
}

/// The lock of a cell.
pub type Lock<S, H> = RuledArrayQueue<CellState<S, H>, PassKnowledge, OneHistory>;

/// What a thread uses a lock by.
pub type SeatPass<S, H> = Pass<CellState<S, H>, PassKnowledge>;
