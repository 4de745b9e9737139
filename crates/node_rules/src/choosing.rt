//! Choosing values from a list, and adding them to a set.
//!
//! An error of a function here says that it is out of memory, or that a value has too many owners.

ghost use Rattle.std.specs.Prelude.{◌≡◌, List, ℕ, Bool, not, IfOk, filter, take, unwrap_or};
ghost use Rattle.scp_types.specs.Votes.{has_value};
ghost use Rattle.scp_spec.specs.Candidates.{all_with};

use scp_types::{SharedValues, Value, Values};
use std::alloc::{AllocError, Global};

/// A test of values.
pub trait ValueTest {
    /// Which values pass.
    ghost passes: { Self → List ℕ → Bool };

    /// Whether the value passes.
    fn test(&self, alloc: Global, value: &Value) -> Result<bool, AllocError>
        ensures { IfOk result (λ b. b ≡ passes self.now value.now) };
}

/// Whether a value is not in a set.
#[derive(Drop)]
pub struct NotYetVoted<'a> {
    pub set: &'a SharedValues,
}

impl<'a> ValueTest for NotYetVoted<'a> {
    ghost passes = { λ t x. not (has_value t.set.now x) };

    fn test(&self, _alloc: Global, value: &Value) -> Result<bool, AllocError> {
        Ok(!self.set.has(value))
    }
}

/// The first of the values that pass, in their order, and at most `most`; once there are as many, no other is tested.
pub fn choose<T: ValueTest>(
    alloc: Global,
    values: &[Value],
    most: usize,
    test: &T,
) -> Result<Values, AllocError>
    ensures { IfOk result (λ v. v ≡ take most (filter (T.passes test.now) values.now)) }
{
    let mut chosen = Values::empty(alloc);
    let mut room = most;
    for value in values {
        if room == 0 {
            return Ok(chosen);
        }
        if test.test(alloc, value)? {
            chosen.push(value.try_copy()?)?;
            room -= 1;
        }
    }
    Ok(chosen)
}

/// A set with these values too. After an error the set that was handed over is dropped.
pub fn with_all(set: Values, values: &[Value]) -> Result<Values, AllocError>
    ensures { IfOk result (λ v. v ≡ all_with values.now set) }
{
    let mut set = set;
    let mut left = values;
    while let [rest @ .., value] = left {
        set.insert(value.try_copy()?)?;
        left = rest;
    }
    Ok(set)
}

/// The set with these values too; `None` if there are no values to add, which takes no memory.
pub fn larger_set(
    alloc: Global,
    set: &SharedValues,
    values: &[Value],
) -> Result<Option<SharedValues>, AllocError>
    ensures { IfOk result (λ o. unwrap_or o set.now ≡ all_with values.now set.now) }
{
    if values.is_empty() {
        return Ok(None);
    }
    let own = set.to_values(alloc)?;
    let larger = SharedValues::new(alloc, with_all(own, values)?)?;
    Ok(Some(larger))
}
