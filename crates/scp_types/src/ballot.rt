//! A ballot.

ghost use Rattle.std.specs.Prelude.{◌≡◌, IfOk, IsTrue, ◌↔◌};

use crate::value::Value;
use std::alloc::AllocError;

/// A counter and a value, ordered by counter, then value.
#[derive(Debug, Drop, PartialEq, Eq, PartialOrd, Ord)]
pub struct Ballot {
    pub counter: u32,
    pub value: Value,
}

impl Ballot {
    ghost use Rattle.scp_types.specs.Statements.{IsBallot};

    /// Reads the fields, so that a proof knows that they fit where they are kept.
    pub(crate) fn read_widths(&self)
        ensures { IsBallot self.now }
    {
        let _counter = self.counter;
        let _value = self.value.as_bytes();
    }

    /// A copy. It takes no memory; an error says that the value has too many owners.
    pub fn try_copy(&self) -> Result<Ballot, AllocError>
        ensures { IfOk result (λ b. b ≡ self.now) }
    {
        self.at(self.counter)
    }

    /// The ballot at this counter with the same value. It takes no memory; an error says that the value
    /// has too many owners.
    pub fn at(&self, counter: u32) -> Result<Ballot, AllocError>
        ensures { IfOk result (λ b. b ≡ record { counter = counter; value = self.now.value }) }
    {
        let value = self.value.try_copy()?;
        Ok(Ballot { counter, value })
    }

    /// Whether the two are one ballot.
    pub fn is_same(&self, other: &Ballot) -> bool
        ensures { IsTrue result ↔ self.now ≡ other.now }
    {
        self.counter == other.counter && self.value.is_same(&other.value)
    }
}

/// Whether both are there and the same, or neither is.
pub(crate) fn is_same(one: &Option<Ballot>, other: &Option<Ballot>) -> bool
    ensures { IsTrue result ↔ one.now ≡ other.now }
{
    match one {
        None => other.is_none(),
        Some(one) => match other {
            None => false,
            Some(other) => one.is_same(other),
        },
    }
}

/// A copy of a ballot, if there is one. It takes no memory; an error says that its value has too many owners.
pub fn copy_of(ballot: &Option<Ballot>) -> Result<Option<Ballot>, AllocError>
    ensures { IfOk result (λ o. o ≡ ballot.now) }
{
    match ballot {
        None => Ok(None),
        Some(ballot) => Ok(Some(ballot.try_copy()?)),
    }
}
