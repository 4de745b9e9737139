//! A list of values.

ghost use Rattle.std.specs.Prelude.{◌≡◌, ◌≤◌, ◌↔◌, ◌++◌, ◌∷◌, [], length, IfOk, IfSome, IsTrue, MatchOption, OnOk, OnErr};
ghost use Rattle.std.specs.List.{AllByRecursion, insert};
ghost use Rattle.scp_types.specs.Nominations.{IsValue, is_ascending, is_nomination_set, with_value};

use crate::value::Value;
use std::alloc::{AllocError, Global};
use std::marker::Model;

/// The most values in one set of a nomination (this host's profile).
pub const MAX_NOMINATED: usize = 16;

/// A list of values, seen by contracts as the list of their bytes.
///
/// Each has one to 256 bytes, and any order is allowed: for example, y, x, x is such a list; x and an empty value are
/// not.
#[derive(Debug, Drop)]
pub struct Values {
    items: Vec<Value>,
}

impl Model for Values {
    ghost use Rattle.std.specs.Prelude.{ℕ, List};
    ghost use Rattle.std.specs.List.{AllByRecursion};
    ghost use Rattle.scp_types.specs.Nominations.{IsValue};

    ghost Value = { List (List ℕ) };

    ghost view = { λ a. a.items.items };

    ghost invariant = { λ a. AllByRecursion IsValue a.items.items };
}

impl Values {
    /// No values. It takes no memory.
    pub fn empty(alloc: Global) -> Values
        ensures { result ≡ [] }
    {
        Values {
            items: Vec::new(alloc),
        }
    }

    /// Adds a value at the end. If it is out of memory, the list stays as it was.
    pub fn push(&mut self, value: Value) -> Result<(), AllocError>
        ensures ok { OnOk result (self.new ≡ self.old ++ value ∷ []) }
        ensures err { OnErr result (self.new ≡ self.old) }
    {
        self.items.push(value)?;
        Ok(())
    }

    /// Adds a value to an ascending list in its place, if it is not there yet. If it is out of memory, the list stays
    /// as it was.
    pub fn insert(&mut self, value: Value) -> Result<(), AllocError>
        ensures ok { OnOk result (self.new ≡ with_value value self.old) }
        ensures err { OnErr result (self.new ≡ self.old) }
    {
        if let Some(place) = missing_at(&self.items, &value) {
            self.items.insert(place, value)?;
        }
        Ok(())
    }

    /// The values, in their order.
    pub fn as_slice(&self) -> &[Value]
        ensures value { result.now ≡ self.now }
        ensures widths { AllByRecursion IsValue self.now }
    {
        &self.items
    }

    /// A copy, which shares the bytes of each value. An error says that it is out of memory, or that a value has too
    /// many owners.
    pub fn try_copy(&self, alloc: Global) -> Result<Values, AllocError>
        ensures { IfOk result (λ v. v ≡ self.now) }
    {
        let mut copy = Values::empty(alloc);
        let values = self.as_slice();
        for value in values {
            copy.push(value.try_copy()?)?;
        }
        Ok(copy)
    }

    /// Whether they are the same values, in the same order.
    pub fn is_same(&self, other: &Values) -> bool
        ensures { IsTrue result ↔ self.now ≡ other.now }
    {
        are_same(&self.items, &other.items)
    }

    /// Whether they are a set of a nomination: at most 16 values, strictly ascending.
    pub fn is_nomination_set(&self) -> bool
        ensures { result ≡ is_nomination_set self.now }
    {
        self.items.len() <= MAX_NOMINATED && is_ascending(&self.items)
    }
}

/// Where the value is to stand in an ascending list, unless it is there already.
fn missing_at(items: &[Value], value: &Value) -> Option<usize>
    ensures within { IfSome result (λ place. place ≤ length items.now) }
    ensures place { MatchOption result (with_value value.now items.now ≡ items.now) (λ place. with_value value.now items.now ≡ insert items.now place value.now) }
{
    for index in 0..items.len() {
        let other = &items[index];
        if value < other {
            return Some(index);
        }
        if other == value {
            return None;
        }
    }
    Some(items.len())
}

fn is_ascending(items: &[Value]) -> bool
    ensures { result ≡ is_ascending items.now }
{
    match items {
        [first, rest @ ..] => match rest {
            [second, ..] => first < second && is_ascending(rest),
            [] => true,
        },
        [] => true,
    }
}

/// Whether both lists have the same values, in the same order.
pub(crate) fn are_same(items: &[Value], others: &[Value]) -> bool
    ensures { IsTrue result ↔ items.now ≡ others.now }
{
    match items {
        [] => others.is_empty(),
        [first, rest @ ..] => match others {
            [] => false,
            [other, others @ ..] => first.is_same(other) && are_same(rest, others),
        },
    }
}
