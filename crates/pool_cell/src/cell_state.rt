//! What lies under the lock of a cell.

ghost use Rattle.std.specs.Prelude.{◌≡◌, ◌++◌, ◌∷◌, [], IfErr, IfOk, IfSome, false, true};
ghost use mathlib.Core.List.{IsPrefix};
ghost use Rattle.pool_cell.specs.Cells.{IsDenied, IsEnteredAt};
ghost use Rattle.pool_cell.specs.Publishing.{IsToldBut, decisions_known};

use crate::receipt::Receipt;
use crate::refusal::CellRefusal;
use crate::watched::{count_decisions, publish_all};
use crate::{Board, Publisher, Watch};
use host_config::NetConfig;
use host_journal::Journal;
use node_store::Shelf;
use scp_types::Event;
use std::alloc::Global;
use std::collections::VecDeque;
use std::marker::Model;
use std::snapshot::Snapshot;
use std::sync::Wait;

/// The journal of a network, the publisher of its decisions, if the cell has one, the stop mark, and how many seats the
/// cell has. The decisions of the entries below a kept number were appended to the publisher; those of the others are
/// found in the journal, so keeping them takes no memory.
///
/// What is published, then what waits to be, then what the other entries decided is all that the journal decided, in
/// order. For example, if three entries decided x, nothing and y, and the kept number is 1, x was appended, and y is
/// found in the journal.
#[derive(Drop)]
pub struct CellState<S: Shelf, H: Wait + Drop> {
    journal: Journal<S>,
    publisher: Option<Publisher<H>>,
    appended: usize,
    stopped: bool,
    seats: u64,
}

impl<S: Shelf, H: Wait + Drop> Model for CellState<S, H> {
    ghost use Rattle.std.specs.Coded.{codes};
    ghost use Rattle.std.specs.Prelude.{IfSome};
    ghost use Rattle.scp_types.specs.Trees.{members_code};
    ghost use Rattle.pool_cell.specs.Publishing.{IsPublished};
    ghost use Rattle.pool_cell.specs.Views.{CellStateSight};

    ghost Value = { CellStateSight };

    ghost coded = { Prim.hlevel (codes, members_code) };

    ghost view = { λ d. record { log = d.journal; stopped = d.stopped; seats = d.seats } };

    ghost invariant = { λ d. IfSome d.publisher (IsPublished d.journal.entries d.appended) };
}

impl<S: Shelf, H: Wait + Drop> CellState<S, H> {
    /// A network in which nothing has happened, in a cell with `seats` seats, and a publisher with nothing appended, if
    /// there is one. It takes no memory.
    pub(crate) fn new(
        alloc: Global,
        config: NetConfig,
        shelf: S,
        seats: u64,
        publisher: Option<Publisher<H>>,
    ) -> CellState<S, H>
        requires { IfSome publisher (λ p. (p.0 ≡ []) × (p.1 ≡ [])) }
        ensures { result ≡ record { log = record { config = config; entries = [] }; stopped = false; seats = seats } }
    {
        CellState {
            journal: Journal::new(alloc, config, shelf),
            publisher,
            appended: 0,
            stopped: false,
            seats,
        }
    }

    /// Sets the stop mark.
    pub(crate) fn stop(&mut self)
        ensures { self.new ≡ record self.old { stopped = true } }
    {
        self.stopped = true;
    }

    /// The journal, and what was published of its decisions, if there is a publisher. It waits for watches that read.
    pub(crate) fn into_parts(self) -> (Journal<S>, Option<Box<Board>>)
        ensures log { result.0 ≡ self.log }
        ensures published { IfSome result.1 (λ b. IsPrefix b.value (decisions_known self.log.entries)) }
    {
        let CellState {
            journal,
            publisher,
            appended: _,
            stopped: _,
            seats: _,
        } = self;
        match publisher {
            None => (journal, None),
            Some(publisher) => (journal, Some(publisher.take())),
        }
    }

    /// Publishes what the journal decided, as far as there is memory, if there is a publisher. It waits for watches
    /// that read.
    pub(crate) fn publish(self) -> CellState<S, H>
        ensures { result ≡ self }
    {
        let CellState {
            journal,
            publisher,
            appended,
            stopped,
            seats,
        } = self;
        let (publisher, appended) = publish_all(&journal, publisher, appended);
        CellState {
            journal,
            publisher,
            appended,
            stopped,
            seats,
        }
    }

    /// Has a watch see what is published, and answers how many decisions of the journal are not yet. None says that the
    /// watch is not of this cell.
    pub(crate) fn tell(&self, watch: &mut Watch) -> Option<usize>
        ensures told { IfSome result (λ missing. IsToldBut self.now.log.entries missing watch.new) }
        ensures grows { IsPrefix watch.old watch.new }
    {
        match &self.publisher {
            Some(publisher) => {
                if !publisher.tell(watch) {
                    return None;
                }
                self.journal.replays();
                let waiting = publisher.pending_count();
                Some(count_decisions(&self.journal, self.appended, waiting))
            }
            None => None,
        }
    }

    /// Applies an event, if there is no stop mark, and keeps its receipt behind those of a seat. An error leaves all as
    /// it was.
    pub(crate) fn enter(
        &mut self,
        receipts: &mut VecDeque<Receipt>,
        event: Event,
    ) -> Result<Snapshot<Receipt>, CellRefusal>
        ensures ok { IfOk result (λ m. IsEnteredAt self.old event m.value self.new) }
        ensures receipts { IfOk result (λ m. receipts.new.items ≡ receipts.old.items ++ m.value ∷ []) }
        ensures err { IfErr result (IsDenied self.old event) }
        ensures same { IfErr result (λ _. (self.new ≡ self.old) × (receipts.new.items ≡ receipts.old.items)) }
    {
        if self.stopped {
            drop(event);
            return Err(CellRefusal::Closed);
        }
        if receipts.reserve(1).is_err() {
            // Memory: the receipt has no room; a refusal that applies comes first.
            let refusal = self.journal.refusal(&event);
            drop(event);
            return Err(CellRefusal::Network(refusal));
        }
        let Ok(copy) = event.try_copy(*receipts.allocator()) else {
            // Memory: the copy has none; a refusal that applies comes first.
            let refusal = self.journal.refusal(&event);
            drop(event);
            return Err(CellRefusal::Network(refusal));
        };
        let number = self.journal.len() as u64;
        match self.journal.apply(copy) {
            Ok(given) => {
                let receipt = Receipt {
                    network: self.journal.config().number(),
                    number,
                    event,
                    outs: given.outs,
                    marks: given.marks,
                };
                let made = Snapshot::of(&receipt);
                receipts.push_back_reserved(receipt);
                Ok(made)
            }
            Err(refusal) => {
                drop(event);
                Err(CellRefusal::Network(refusal))
            }
        }
    }
}
