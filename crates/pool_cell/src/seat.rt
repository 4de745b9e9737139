//! A seat at a cell.

ghost use Rattle.std.specs.Prelude.{◌≡◌, ◌+◌, ◌≤◌, IfNone, IfSome, Some, drop, length, slice_get};
ghost use Rattle.pool_cell.specs.Sounds.{IsSound};

use crate::receipt::Receipt;
use crate::rule::SeatPass;
use node_store::Shelf;
use std::collections::VecDeque;
use std::marker::Model;
use std::sync::Wait;

/// A seat at a cell, with the receipts of what it applied. One thread at a time uses it.
///
/// It keeps a receipt until it lets it go, the first one first; the journal has what became of its event all the same.
///
/// Contracts see the cell that it is of, and what it knows. That is the journal and the stop mark as it saw them last,
/// all its receipts, the refusals that it was answered, and how often it set the mark. Of its receipts they see how
/// many it has let go.
///
/// What it knows is sound. For example, this seat applied the first event, and another one the second. Then it has only
/// the receipt of the first, and the journal as it saw it last has one entry, or both.
#[derive(Drop)]
pub struct Seat<S: Shelf, H: Wait + Drop> {
    pub(crate) pass: SeatPass<S, H>,
    pub(crate) number: u64,
    // Those that it has not let go, in order.
    pub(crate) receipts: VecDeque<Receipt>,
}

impl<S: Shelf, H: Wait + Drop> Model for Seat<S, H> {
    ghost use Rattle.std.specs.Coded.{codes};
    ghost use Rattle.scp_types.specs.Trees.{members_code};
    ghost use Rattle.pool_cell.specs.Sights.{SeatSight, sight_of};
    ghost use Rattle.pool_cell.specs.Sounds.{IsSeat};

    ghost Value = { SeatSight };

    ghost coded = { Prim.hlevel (codes, members_code) };

    ghost view = { λ s. sight_of s.pass s.receipts.items };

    ghost invariant = { λ s. IsSeat s.pass s.number s.receipts.items };
}

impl<S: Shelf, H: Wait + Drop> Seat<S, H> {
    /// The number of the seat at its cell, from 0 on.
    pub fn number(&self) -> u64
        ensures { result ≡ self.now.me.number }
    {
        self.number
    }

    /// A law: the receipts stand in what the seat has seen, at rising numbers, and its denials were right. It has let
    /// go of no more receipts than it has.
    pub fn is_sound(&self)
        ensures sound { IsSound self.now.me }
        ensures few { self.now.let_go ≤ length self.now.me.receipts }
    {
        let _pass = &self.pass;
    }

    /// The receipts of what the seat applied, in order, but for those that it has let go.
    pub fn receipts(&self) -> &VecDeque<Receipt>
        ensures { result.now.items ≡ drop self.now.let_go self.now.me.receipts }
    {
        &self.receipts
    }

    /// Lets go of the first receipt that it has kept, and hands it over. None says that it keeps none, and the memory
    /// of those that it kept is given back.
    pub fn take_receipt(&mut self) -> Option<Receipt>
        ensures some { IfSome result (λ r. slice_get self.old.me.receipts self.old.let_go ≡ Some r) }
        ensures one { IfSome result (λ _. self.new ≡ record self.old { let_go = self.old.let_go + 1 }) }
        ensures none { IfNone result ((self.old.let_go ≡ length self.old.me.receipts) × (self.new ≡ self.old)) }
    {
        match self.receipts.pop_front() {
            Some(receipt) => Some(receipt),
            None => {
                self.receipts.shrink_to_fit();
                None
            }
        }
    }

    /// Lets go of all receipts that it has kept, and gives their memory back.
    pub fn let_go_receipts(&mut self)
        ensures { self.new ≡ record self.old { let_go = length self.old.me.receipts } }
    {
        self.receipts.clear();
        self.receipts.shrink_to_fit();
    }
}
