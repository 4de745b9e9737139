//! Who reads without waiting.

ghost use Rattle.std.specs.Prelude.{◌≡◌, IfNone, IfSome, List};
ghost use mathlib.Core.List.{IsPrefix};
ghost use Rattle.std.specs.Fn.{FnOnceReturnsAt};
ghost use Rattle.left_right.specs.Sides.{view};

use crate::board::{BoardReader, Sees};
use crate::decision::Decision;
use std::marker::Model;

/// A reader of the decisions that a publisher publishes. It may go to any thread.
///
/// Contracts see it as the list that it was lent last. That list only grows, and is a beginning of what is
/// published.
///
/// It has the reader that it reads by: a call that lends what is published takes it out, and puts it back at its end.
///
/// For example, a watch that was lent nothing yet has its reader, and so has one that was lent x and y.
#[derive(Drop)]
pub struct Watch {
    reader: Option<BoardReader>,
}

impl Model for Watch {
    ghost use Rattle.std.specs.Prelude.{List};
    ghost use Rattle.pool_cell.specs.declared.decision.Decision.{Decision};

    ghost Value = { List Decision };

    ghost use Rattle.std.specs.Prelude.{IsSome};
    ghost use Rattle.pool_cell.specs.Readers.{decisions_seen};

    ghost view = { λ w. decisions_seen w.reader };

    ghost invariant = { λ w. IsSome w.reader };
}

impl Watch {
    pub(crate) fn new(reader: BoardReader) -> Watch
        ensures { result ≡ view reader.place }
    {
        Watch {
            reader: Some(reader),
        }
    }

    /// Lends `f` the list that is published at one step of the call, and answers what `f` answers. The list begins with
    /// each list that this watch was lent before. `None` once the publisher is gone: then the watch is as it was.
    ///
    /// It waits for nobody, but a publication waits for `f`. So `f` must not publish, take or drop the publisher. In a
    /// cell it must not call `apply`, `try_apply`, `tell` or `stop` of its own cell, or close that. These publish, or
    /// wait for the lock of a call that does, and so may wait for `f` for ever. Under a cell a publication has the
    /// network's lock: as long as `f` runs, it may hold up whoever uses that network.
    pub fn read<T, F: FnOnce(&[Decision]) -> T>(&mut self, f: F) -> Option<T>
        requires { F.IsAlwaysCallable f }
        ensures grows { IsPrefix self.old self.new }
        ensures read { IfSome result (λ r. FnOnceReturnsAt F.FnOnce f self.new r) }
        ensures gone { IfNone result (self.new ≡ self.old) }
    {
        let reader = self.reader.take().unwrap();
        match reader.enter_as::<Sees>() {
            Ok(reading) => {
                let answer = f(reading.get().as_slice());
                self.reader = Some(reading.leave());
                Some(answer)
            }
            Err(reader) => {
                self.reader = Some(reader);
                None
            }
        }
    }
}
