//! A list of values that copies share.

ghost use Rattle.std.specs.Prelude.{[], ◌≡◌, ◌↔◌, IfOk, IsTrue};
ghost use Rattle.std.specs.List.{AllByRecursion};
ghost use Rattle.scp_types.specs.Nominations.{IsValue};
ghost use Rattle.scp_types.specs.Votes.{has_value};

use crate::value::Value;
use crate::values::{Values, are_same};
use std::alloc::{AllocError, Global};
use std::marker::Model;
use std::sync::Arc;

/// A list of values that never changes and that copies share, seen by contracts as the list of their bytes.
///
/// Each has one to 256 bytes: for example, y, x, x is such a list, and so is that of no values; x and an empty value
/// are not.
#[derive(Debug, Drop)]
pub struct SharedValues {
    values: Option<Arc<Values, Global>>,
}

impl Model for SharedValues {
    ghost use Rattle.std.specs.Arc.{arc_value};
    ghost use Rattle.std.specs.List.{AllByRecursion};
    ghost use Rattle.std.specs.Prelude.{ℕ, List, [], option_map, unwrap_or};
    ghost use Rattle.scp_types.specs.Nominations.{IsValue};

    ghost Value = { List (List ℕ) };

    ghost view = { λ a. unwrap_or (option_map arc_value a.values) [] };

    ghost invariant = { λ a. AllByRecursion IsValue (unwrap_or (option_map arc_value a.values) []) };
}

impl SharedValues {
    /// No values. It takes no memory.
    pub fn empty() -> SharedValues
        ensures { result ≡ [] }
    {
        SharedValues { values: None }
    }

    /// These values. An error says that it is out of memory.
    pub fn new(alloc: Global, values: Values) -> Result<SharedValues, AllocError>
        ensures { IfOk result (λ s. s ≡ values) }
    {
        let _widths = values.as_slice();
        Ok(SharedValues {
            values: Some(Arc::new(alloc, values)?),
        })
    }

    /// The values, in their order.
    pub fn as_slice(&self) -> &[Value]
        ensures value { result.now ≡ self.now }
        ensures widths { AllByRecursion IsValue self.now }
    {
        match &self.values {
            None => &[],
            Some(values) => values.as_slice(),
        }
    }

    /// A copy, which shares the list. It takes no memory; an error says that the list has too many owners.
    pub fn try_copy(&self) -> Result<SharedValues, AllocError>
        ensures { IfOk result (λ s. s ≡ self.now) }
    {
        match &self.values {
            None => Ok(SharedValues { values: None }),
            Some(values) => Ok(SharedValues {
                values: Some(Arc::try_clone(values)?),
            }),
        }
    }

    /// A list of its own of the same values. An error says that it is out of memory, or that a value has too many
    /// owners.
    pub fn to_values(&self, alloc: Global) -> Result<Values, AllocError>
        ensures { IfOk result (λ v. v ≡ self.now) }
    {
        match &self.values {
            None => Ok(Values::empty(alloc)),
            Some(values) => values.try_copy(alloc),
        }
    }

    /// Whether they are the same values, in the same order.
    pub fn is_same(&self, other: &SharedValues) -> bool
        ensures { IsTrue result ↔ self.now ≡ other.now }
    {
        are_same(self.as_slice(), other.as_slice())
    }

    /// Whether the value is one of them.
    pub fn has(&self, value: &Value) -> bool
        ensures { result ≡ has_value self.now value.now }
    {
        self.as_slice().iter().any(|other| *other == *value)
    }
}
