//! The list that is published, and the rule by which it only grows.

use crate::decision::Decision;
use crossbeam_utils::rule::{Outcome, Protocol};
use left_right::Absorb;
use left_right::reader::Reader;
use left_right::writer::Writer;
use std::alloc::{AllocError, Global};
use std::collections::LinkedList;
use std::marker::Model;

/// Decisions in the order in which they were appended. Contracts see a list.
#[derive(Drop)]
pub struct Board {
    items: Vec<Decision>,
}

impl Model for Board {
    ghost use Rattle.std.specs.Prelude.{List};
    ghost use Rattle.pool_cell.specs.declared.decision.Decision.{Decision};

    ghost Value = { List Decision };

    ghost view = { λ b. b.items.items };
}

impl Board {
    ghost use Rattle.std.specs.Prelude.{◌≡◌, []};

    /// No decisions. It takes no memory.
    pub(crate) fn new(alloc: Global) -> Board
        ensures { result ≡ [] }
    {
        Board {
            items: Vec::new(alloc),
        }
    }

    /// The decisions, in their order.
    pub fn as_slice(&self) -> &[Decision]
        ensures { result.now ≡ self.now }
    {
        self.items.as_slice()
    }
}

impl Absorb<Decision> for Board {
    ghost use Rattle.std.specs.Prelude.{◌++◌, ◌∷◌, []};

    type State = [Decision; 0];

    ghost state = { λ b. b };

    ghost applied = { λ decisions d. decisions ++ d ∷ [] };

    fn absorb_first(&mut self, operation: &Decision, _other: &Board) -> Result<(), AllocError> {
        let decision = operation.try_copy()?;
        self.items.push(decision)?;
        Ok(())
    }

    fn absorb_second(&mut self, operation: Decision, _other: &Board) -> Result<(), Decision> {
        match self.items.push(operation) {
            Ok(()) => Ok(()),
            Err(failed) => Err(failed.value),
        }
    }
}

/// What a watch or the writer has seen. No value of it is made.
pub(crate) type BoardView = LinkedList<Decision>;

/// The rule: what is published begins with what each has seen.
pub(crate) struct Published;

impl Protocol<Board, BoardView> for Published {
    ghost use Rattle.std.specs.Prelude.{[]};
    ghost use Rattle.pool_cell.specs.Beginnings.{BeginsWithSeen};

    ghost holds = { BeginsWithSeen };

    ghost first = { [] };
}

/// One sees the whole list that is published.
pub(crate) struct Sees;

impl Outcome<Board, BoardView> for Sees {
    ghost use Rattle.pool_cell.specs.Beginnings.{SeesWhole};

    ghost then = { SeesWhole };
}

/// A reader of the list.
pub(crate) type BoardReader = Reader<Board, BoardView, Published>;

/// The one writer of the list.
pub(crate) type BoardWriter = Writer<Board, Decision, BoardView, Published>;
