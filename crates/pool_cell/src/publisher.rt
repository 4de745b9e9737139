//! The one writer of decisions.

ghost use Rattle.std.specs.Prelude.{◌≡◌, ◌≢◌, ◌⊎◌, ◌↔◌, ◌++◌, ◌∷◌, [], ◌<◌, ◌^◌, IfOk, OnErr, OnOk, IsTrue, false, length};
ghost use mathlib.Core.List.{IsPrefix};

use crate::board::{Board, BoardWriter, Sees};
use crate::decision::{Decision, are_same};
use crate::watch::Watch;
use std::alloc::{AllocError, Global};
use std::marker::Model;
use std::sync::Wait;

/// It takes decisions in and publishes them, in the order in which they came. When it is let go, it waits for the
/// watches that read at this moment; what still waits to be published is lost.
///
/// Contracts see what is published, and what waits to be. The one followed by the other is what was appended.
///
/// It counts what waits: if x and y came and only x was published, one waits.
pub struct Publisher<R: Wait + Drop> {
    writer: BoardWriter,
    waiting: usize,
    rt: R,
}

impl<R: Wait + Drop> Model for Publisher<R> {
    ghost use Rattle.std.specs.Prelude.{List};
    ghost use Rattle.pool_cell.specs.declared.decision.Decision.{Decision};

    ghost Value = { List Decision × List Decision };

    ghost use Rattle.std.specs.Prelude.{◌≡◌, drop, length};

    ghost view = { λ p. (p.writer.desk.shown.value, drop p.writer.behind p.writer.log.items) };

    ghost invariant = { λ p. p.waiting ≡ length (drop p.writer.behind p.writer.log.items) };
}

impl<R: Wait + Drop> Drop for Publisher<R> {
    fn drop(self) {
        let Publisher {
            writer,
            waiting: _,
            rt,
        } = self;
        let _board = writer.take(&rt);
    }
}

impl<R: Wait + Drop> Publisher<R> {
    /// With nothing published, and room for `watches` watches at a time. An error says that it is out of memory.
    pub fn new(alloc: Global, rt: R, watches: usize) -> Result<Publisher<R>, AllocError>
        requires { (0 < watches) × (watches < 2 ^ 32) }
        ensures { IfOk result (λ p. (p.0 ≡ []) × (p.1 ≡ [])) }
    {
        let first = Board::new(alloc);
        let second = Board::new(alloc);
        let writer = BoardWriter::new(alloc, first, second, watches)?;
        Ok(Publisher {
            writer,
            waiting: 0,
            rt,
        })
    }

    /// What is published.
    pub fn published_list(&self) -> &[Decision]
        ensures { result.now ≡ self.now.0 }
    {
        self.writer.published().as_slice()
    }

    /// How many wait to be published.
    pub fn pending_count(&self) -> usize
        ensures { result ≡ length self.now.1 }
    {
        self.waiting
    }

    /// Adds a decision behind those that wait. An error says that it is out of memory, and then nothing changes.
    pub fn append(&mut self, decision: Decision) -> Result<(), AllocError>
        ensures shown { self.new.0 ≡ self.old.0 }
        ensures ok { OnOk result (self.new.1 ≡ self.old.1 ++ decision ∷ []) }
        ensures err { OnErr result (self.new.1 ≡ self.old.1) }
    {
        let Some(waiting) = self.waiting.checked_add(1) else {
            // Memory: it has no room for more decisions than can be counted.
            return Err(AllocError);
        };
        match self.writer.append(decision) {
            Ok(()) => {
                self.waiting = waiting;
                Ok(())
            }
            // Memory: the decision has no room among those that wait.
            Err(_) => Err(AllocError),
        }
    }

    /// Publishes all that wait, at once, behind what is published. It waits for watches that read what was published
    /// before. An error says that it is out of memory: then nothing changes for watches, all that waited waits still,
    /// and goes with the next publication.
    pub fn publish(self) -> (Publisher<R>, Result<(), AllocError>)
        ensures ok { OnOk result.1 ((result.0.0 ≡ self.0 ++ self.1) × (result.0.1 ≡ [])) }
        ensures err { OnErr result.1 (result.0 ≡ self) }
    {
        let Publisher {
            writer,
            waiting,
            rt,
        } = self;
        let (writer, answer) = writer.publish_as::<Sees, R>(&rt);
        let waiting = if answer.is_ok() { 0 } else { waiting };
        (
            Publisher {
                writer,
                waiting,
                rt,
            },
            answer,
        )
    }

    /// A watch that has seen nothing. An error says that there are as many watches as there is room for.
    pub fn watch(&self) -> Result<Watch, AllocError>
        ensures { IfOk result (λ w. w ≡ []) }
    {
        Ok(Watch::new(self.writer.factory().reader()?))
    }

    /// What was published last. Watches read nothing from now on; it waits for those that read at this moment.
    pub fn take(self) -> Box<Board>
        ensures { result.value ≡ self.0 }
    {
        let Publisher {
            writer,
            waiting: _,
            rt,
        } = self;
        writer.take(&rt)
    }

    /// Has a watch read once, and answers whether it saw all that is published. One of this publisher does, since
    /// nothing is published meanwhile. False says that it read another list, or none: then it is not a watch of this
    /// publisher. It waits for nobody.
    pub fn tell(&self, watch: &mut Watch) -> bool
        ensures told { IsTrue result → watch.new ≡ self.now.0 }
        ensures foreign { result ≡ false → (watch.new ≢ self.now.0) ⊎ (watch.new ≡ watch.old) }
        ensures grows { IsPrefix watch.old watch.new }
    {
        let shown = self.published_list();
        let is_told = watch.read(
            |decisions: &[Decision]| -> bool
                ensures { IsTrue result ↔ decisions.now ≡ shown.entry.now }
            { are_same(decisions, shown) },
        );
        is_told == Some(true)
    }
}
