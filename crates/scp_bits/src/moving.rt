//! Compiled sets whose places move, since the list of nodes against which they are compiled has others.

ghost use Rattle.std.specs.Prelude.{◌≡◌, ◌+◌, ◌≤◌, ℕ, List, IfOk, OnOk, count_ones, false};
ghost use Rattle.scp_types.specs.Trees.{Slices};
ghost use Rattle.scp_spec.specs.Satisfaction.{names};
ghost use Rattle.scp_spec.specs.Sets.{AreWithin, among};
ghost use Rattle.scp_bits.specs.Met.{IsCompiled};
ghost use Rattle.scp_bits.specs.Moving.{AreMoved, IsBefore, IsMoved};
ghost use Rattle.scp_bits.specs.Places.{bit_of, count_in, ones_at, places_in};

use crate::mask::{Mask, add_place_behind};
use crate::set::CompiledSet;
use std::alloc::{AllocError, Global};

/// The compiled set with each place moved, as [`crate::Form::relocate`] says. An error says that it is out of memory.
pub(crate) fn relocate_set(
    alloc: Global,
    set: &CompiledSet,
    places: &[usize],
) -> Result<CompiledSet, AllocError>
    ensures { IfOk result (IsMoved places.now set.now) }
{
    let masks = relocate_masks(alloc, set.masks(), places)?;
    let sets = set.inner();
    let mut inner = Vec::with_capacity(alloc, sets.len())?;
    for each in sets {
        inner.push(relocate_set(alloc, each, places)?)?;
    }
    Ok(CompiledSet::new(set.needed_count(), set.members(), masks, inner))
}

/// The masks of the places to which those of these masks move. They have no more places than these.
pub(crate) fn relocate_masks(
    alloc: Global,
    masks: &[Mask],
    places: &[usize],
) -> Result<Vec<Mask>, AllocError>
    ensures places { IfOk result (λ v. (ws vs : List ℕ) → IsBefore places.now ws vs → places_in v.items vs ≡ places_in masks.now ws) }
    ensures count { IfOk result (λ v. count_in v.items ≤ count_in masks.now) }
{
    let mut moved = Vec::new(alloc);
    for mask in masks {
        relocate_mask(&mut moved, mask, places)?;
    }
    Ok(moved)
}

/// Adds the places to which those of a mask move.
fn relocate_mask(moved: &mut Vec<Mask>, mask: &Mask, places: &[usize]) -> Result<(), AllocError>
    ensures places { OnOk result ((ws vs : List ℕ) → IsBefore places.now ws vs → places_in moved.new.items vs ≡ places_in moved.old.items vs + ones_at mask.now ws) }
    ensures count { OnOk result (count_in moved.new.items ≤ count_in moved.old.items + count_ones mask.now.bits) }
{
    let Some(first) = mask.index.checked_mul(64) else {
        return Ok(());
    };
    let mut rest = mask.bits;
    let mut bit = 0;
    while rest != 0 {
        if rest & 1 == 1 {
            relocate_place(moved, first + bit, places)?;
        }
        rest >>= 1;
        bit += 1;
    }
    Ok(())
}

/// Adds the place to which a place moves, if it is in the list.
fn relocate_place(moved: &mut Vec<Mask>, place: usize, places: &[usize]) -> Result<(), AllocError>
    ensures places { OnOk result ((ws vs : List ℕ) → IsBefore places.now ws vs → places_in moved.new.items vs ≡ places_in moved.old.items vs + bit_of ws place) }
    ensures count { OnOk result (count_in moved.new.items ≤ count_in moved.old.items + 1) }
{
    match places.get(place) {
        None => Ok(()),
        Some(now) => add_place_behind(moved, *now),
    }
}
