//! A ballot whose value is borrowed.

ghost use Rattle.std.specs.Prelude.{◌≡◌, IfOk};
ghost use Rattle.std.specs.Ordering.{is_lt};
ghost use Rattle.scp_types.specs.Orders.{ballot_cmp};

use crate::ballot::Ballot;
use crate::value::Value;
use std::alloc::AllocError;
use std::marker::Model;

/// A counter, and a value that stands elsewhere. Contracts see the ballot.
#[derive(Drop)]
pub struct LentBallot<'a> {
    counter: u32,
    value: &'a Value,
}

impl<'a> Model for LentBallot<'a> {
    ghost use Rattle.scp_types.specs.declared.ballot.Ballot.{Ballot};

    ghost Value = { Ballot };

    ghost view = { λ b. record { counter = b.counter; value = b.value.now } };
}

impl<'a> LentBallot<'a> {
    /// This ballot.
    pub fn of(ballot: &'a Ballot) -> LentBallot<'a>
        ensures { result ≡ ballot.now }
    {
        LentBallot {
            counter: ballot.counter,
            value: &ballot.value,
        }
    }

    /// The ballot at this counter with this value.
    pub fn at(counter: u32, value: &'a Value) -> LentBallot<'a>
        ensures { result ≡ record { counter = counter; value = value.now } }
    {
        LentBallot { counter, value }
    }

    /// A copy. Its value is lent for as long as that of this one.
    pub fn reborrow(&self) -> LentBallot<'a>
        ensures { result ≡ self.now }
    {
        LentBallot {
            counter: self.counter,
            value: self.value,
        }
    }

    /// The counter.
    pub fn counter(&self) -> u32
        ensures { result ≡ self.now.counter }
    {
        self.counter
    }

    /// The value.
    pub fn value(&self) -> &'a Value
        ensures { result.now ≡ self.now.value }
    {
        self.value
    }

    /// Whether it is below the other.
    pub fn is_below(&self, other: &LentBallot) -> bool
        ensures { result ≡ is_lt (ballot_cmp self.now other.now) }
    {
        self.counter < other.counter || self.counter == other.counter && *self.value < *other.value
    }

    /// A ballot of its own. It takes no memory; an error says that the value has too many owners.
    pub fn try_copy(&self) -> Result<Ballot, AllocError>
        ensures { IfOk result (λ b. b ≡ self.now) }
    {
        Ok(Ballot {
            counter: self.counter,
            value: self.value.try_copy()?,
        })
    }
}
