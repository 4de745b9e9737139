//! A compiled set.

ghost use Rattle.std.specs.Prelude.{◌≡◌, ◌+◌, ◌≤◌, IfOk, IsTrue, length};
ghost use Rattle.scp_bits.specs.Met.{has_needed};
ghost use Rattle.scp_bits.specs.Places.{count_in, count_sets, sets_of};

use crate::mask::{Mask, missing_after};
use std::alloc::{AllocError, Global};
use std::marker::Model;

/// A threshold over places and inner sets, compiled against a list of nodes. It has no more of both than members.
///
/// For example, three places and an inner set stand with four members or more, and never with three.
#[derive(Drop)]
pub struct CompiledSet {
    needed: usize,
    members: usize,
    masks: Vec<Mask>,
    inner: Vec<CompiledSet>,
}

impl Model for CompiledSet {
    ghost use Rattle.std.specs.Prelude.{◌+◌, ◌≤◌, length};
    ghost use Rattle.scp_bits.specs.Places.{Compiled, compiled_code, count_in, sets_of, weight_of_sets, most_sets_le};
    ghost use Rattle.std.proofs.Common.{arith};

    ghost Value = { Compiled };

    ghost coded = { compiled_code };

    ghost view = { λ a. record { needed = a.needed; masks = a.masks.items; inner = sets_of a.inner.items } };

    ghost invariant = { λ a. count_in a.masks.items + length a.inner.items ≤ a.members };

    ghost size = { λ c. weight_of_sets c.inner };

    ghost size_decreases = { λ a h. omega (arith, most_sets_le a.inner.items) };
}

impl CompiledSet {
    /// A set that needs `needed` of its places and inner sets, which are at most `members` together.
    pub(crate) fn new(
        needed: usize,
        members: usize,
        masks: Vec<Mask>,
        inner: Vec<CompiledSet>,
    ) -> CompiledSet
        requires { count_in masks.items + length inner.items ≤ members }
        ensures { result ≡ record { needed = needed; masks = masks.items; inner = sets_of inner.items } }
    {
        CompiledSet {
            needed,
            members,
            masks,
            inner,
        }
    }

    /// A copy. An error says that it is out of memory.
    pub fn try_copy(&self, alloc: Global) -> Result<CompiledSet, AllocError>
        ensures { IfOk result (λ c. c ≡ self.now) }
    {
        copy_of_set(alloc, self)
    }

    /// Its places.
    pub(crate) fn masks(&self) -> &[Mask]
        ensures { result.now ≡ self.now.masks }
    {
        &self.masks
    }

    pub(crate) fn inner(&self) -> &[CompiledSet]
        ensures { sets_of result.now ≡ self.now.inner }
    {
        &self.inner
    }

    /// Its places and inner sets are no more than this.
    pub(crate) fn members(&self) -> usize
        ensures { count_in self.now.masks + count_sets self.now.inner ≤ result }
    {
        self.members
    }

    /// How many of its places and inner sets are needed.
    pub(crate) fn needed_count(&self) -> usize
        ensures { result ≡ self.now.needed }
    {
        self.needed
    }
}

fn copy_of_set(alloc: Global, set: &CompiledSet) -> Result<CompiledSet, AllocError>
    ensures { IfOk result (λ c. c ≡ set.now) }
{
    let masks = Vec::from_slice(alloc, set.masks())?;
    let sets = set.inner();
    let mut inner = Vec::with_capacity(alloc, sets.len())?;
    for each in sets {
        inner.push(copy_of_set(alloc, each)?)?;
    }
    Ok(CompiledSet::new(set.needed_count(), set.members(), masks, inner))
}

/// Whether both sets need as many of the same places and inner sets, in the same order. It takes no memory.
pub(crate) fn is_same(set: &CompiledSet, other: &CompiledSet) -> bool
    ensures { IsTrue result → set.now ≡ other.now }
{
    let sets = set.inner();
    let others = other.inner();
    if set.needed_count() != other.needed_count() || *set.masks() != *other.masks() {
        return false;
    }
    if sets.len() != others.len() {
        return false;
    }
    for place in 0..sets.len() {
        if !is_same(&sets[place], &others[place]) {
            return false;
        }
    }
    true
}

/// Whether as many places and inner sets as are needed are in the set of nodes. It takes no memory.
pub fn is_met(set: &CompiledSet, places: &[u64]) -> bool
    ensures { result ≡ has_needed set.now places.now }
{
    let mut missing = missing_after(set.needed_count(), set.masks(), places);
    let sets = set.inner();
    for inner in sets {
        if is_met(inner, places) {
            missing = missing.saturating_sub(1);
        }
    }
    missing == 0
}
