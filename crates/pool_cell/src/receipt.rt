//! What a seat keeps of an event that it applied.

ghost use Rattle.std.specs.Prelude.{◌≡◌};

use scp_types::{Event, Out};
use std::marker::Model;

/// An event that a seat applied, with the number of its network and what it gave out. The number of its entry in the
/// journal counts from 0 on. Its marks are the numbers, from 1 on, by which a Hear names each of its emissions.
#[derive(Drop)]
pub struct Receipt {
    pub(crate) network: u32,
    pub(crate) number: u64,
    pub(crate) event: Event,
    pub(crate) outs: Vec<Out>,
    pub(crate) marks: Vec<u64>,
}

impl Model for Receipt {
    ghost use Rattle.std.specs.Coded.{codes};
    ghost use Rattle.scp_types.specs.Trees.{members_code};
    ghost use Rattle.pool_cell.specs.Receipts.{AppliedEvent};

    ghost Value = { AppliedEvent };

    ghost coded = { Prim.hlevel (codes, members_code) };

    ghost view = { λ r. record { network = r.network; number = r.number; event = r.event; outs = r.outs.items; marks = r.marks.items } };
}

impl Receipt {
    /// The number of the network.
    pub fn network(&self) -> u32
        ensures { result ≡ self.now.network }
    {
        self.network
    }

    /// The number of the entry in the journal, from 0 on.
    pub fn number(&self) -> u64
        ensures { result ≡ self.now.number }
    {
        self.number
    }

    /// The event, as it was handed in.
    pub fn event(&self) -> &Event
        ensures { result.now ≡ self.now.event }
    {
        &self.event
    }

    /// What the event gave out, in order.
    pub fn outs(&self) -> &[Out]
        ensures { result.now ≡ self.now.outs }
    {
        &self.outs
    }

    /// For each emission among the outs, in order, the number by which a Hear names it, from 1 on.
    pub fn marks(&self) -> &[u64]
        ensures { result.now ≡ self.now.marks }
    {
        &self.marks
    }
}
