//! Jobs and passes; the rule by which all passes together know what the queue holds, and its steps.

ghost use Rattle.std.specs.Prelude.{◌≡◌, IfOk};

use crossbeam_queue::RuledArrayQueue;
use crossbeam_queue::protocol::{Join, Lesson, Outcome, Protocol, Split};
use scp_types::Event;
use std::alloc::{AllocError, Global};
use std::collections::LinkedList;

/// An event for a network, by the network's number.
#[derive(Drop)]
pub struct Job {
    pub network: u32,
    pub event: Event,
}

impl Job {
    /// A copy. An error says that it is out of memory, or that slices have too many owners.
    pub fn try_copy(&self, alloc: Global) -> Result<Job, AllocError>
        ensures { IfOk result (λ j. j ≡ self.now) }
    {
        Ok(Job {
            network: self.network,
            event: self.event.try_copy(alloc)?,
        })
    }
}

/// What a pass knows: its parts of the 64 that know the whole, and the jobs that it has put and taken, each in order.
/// No value of it is ever made: it is only for contracts.
pub struct Hand {
    pub parts: u64,
    pub put: LinkedList<Job>,
    pub taken: LinkedList<Job>,
}

/// The rule: what all passes have put is what they have taken and what the queue holds.
pub struct Fair;

impl Protocol<Job, Hand> for Fair {
    ghost use Rattle.std.specs.Prelude.{[]};
    ghost use Rattle.pool_queue.specs.Hands.{Balanced, all_parts, hand};

    ghost holds = { Balanced };

    ghost first = { hand all_parts [] [] };
}

/// A job is put.
pub struct Puts;

impl Outcome<Job, Hand> for Puts {
    ghost use Rattle.std.specs.Prelude.{◌≡◌, ◌++◌, ◌∷◌, []};
    ghost use Rattle.pool_queue.specs.Hands.{hand};

    ghost then = { λ v x w. w ≡ hand v.parts (v.put ++ x ∷ []) v.taken };
}

impl Lesson<Job, Hand> for Puts {
    ghost use Rattle.pool_queue.specs.Hands.{MayHold};

    ghost fact = { MayHold };
}

/// A job is taken.
pub struct Takes;

impl Outcome<Job, Hand> for Takes {
    ghost use Rattle.std.specs.Prelude.{◌≡◌, ◌++◌, ◌∷◌, []};
    ghost use Rattle.pool_queue.specs.Hands.{hand};

    ghost then = { λ v x w. w ≡ hand v.parts v.put (v.taken ++ x ∷ []) };
}

impl Lesson<Job, Hand> for Takes {
    ghost use Rattle.pool_queue.specs.Hands.{MayHold};

    ghost fact = { MayHold };
}

/// One part is cut off, for a pass of its own; and a pass takes in all that another one has.
pub struct CutsOff;

impl Split<Hand> for CutsOff {
    ghost use Rattle.std.specs.Prelude.{◌-◌, []};
    ghost use Rattle.pool_queue.specs.Hands.{hand};

    ghost left = { λ v. hand (v.parts - 1) v.put v.taken };

    ghost right = { λ v. hand 1 [] [] };
}

impl Join<Hand> for CutsOff {
    ghost use Rattle.std.specs.Prelude.{◌+◌, ◌++◌, []};
    ghost use Rattle.pool_queue.specs.Hands.{hand};

    ghost both = { λ v w. hand (v.parts + w.parts) (v.put ++ w.put) (v.taken ++ w.taken) };

    ghost spent = { hand 0 [] [] };
}

/// The queue of the toolchain, under the rule.
pub type RuledQueue = RuledArrayQueue<Job, Hand, Fair>;

/// The right of one caller to put and to take. It is of one queue, and has no bytes. Contracts know it with the jobs
/// that went by it (`Hand`).
pub type Pass = crossbeam_queue::Pass<Job, Hand>;
