//! Places in one word.

ghost use Rattle.std.specs.Prelude.{◌≡◌, ◌%◌, ◌*◌, ◌+◌, ◌-◌, ◌/◌, ◌<◌, ◌^◌, ◌≤◌, ℕ, List, IfOk, IfSome, OnOk, get_or, length, bit_and};
ghost use Rattle.scp_bits.specs.Places.{bit_of, count_in, ones_at, places_in, is_free};

use std::alloc::AllocError;

/// Places that have their bits in one word of a set of nodes.
#[derive(Clone, Copy, Debug, PartialEq, Eq)]
pub(crate) struct Mask {
    pub index: usize,
    pub bits: u64,
}

/// How many of the mask's places are in the set.
pub(crate) fn count_at(mask: &Mask, places: &[u64]) -> usize
    ensures { result ≡ ones_at mask.now places.now }
{
    match places.get(mask.index) {
        None => 0,
        Some(word) => (mask.bits & *word).count_ones() as usize,
    }
}

/// How many of `needed` places are still missing, after those of the masks that are in the set.
pub(crate) fn missing_after(needed: usize, masks: &[Mask], places: &[u64]) -> usize
    ensures { result ≡ needed - places_in masks.now places.now }
{
    let mut missing = needed;
    for mask in masks {
        missing = missing.saturating_sub(count_at(mask, places));
    }
    missing
}

/// Adds a place: to a mask of its word that has not got it, or else as a mask of its own.
pub(crate) fn add_place(masks: &mut Vec<Mask>, place: usize) -> Result<(), AllocError>
    ensures places { OnOk result ((ws : List ℕ) → places_in masks.new.items ws ≡ places_in masks.old.items ws + bit_of ws place) }
    ensures count { OnOk result (count_in masks.new.items ≤ count_in masks.old.items + 1) }
{
    let found = mask_without(masks, place / 64, 1u64 << (place % 64));
    put_place(masks, place, found)
}

/// As [`add_place`], for places that mostly come in order: only the last mask is looked at.
pub(crate) fn add_place_behind(masks: &mut Vec<Mask>, place: usize) -> Result<(), AllocError>
    ensures places { OnOk result ((ws : List ℕ) → places_in masks.new.items ws ≡ places_in masks.old.items ws + bit_of ws place) }
    ensures count { OnOk result (count_in masks.new.items ≤ count_in masks.old.items + 1) }
{
    let found = last_without(masks, place / 64, 1u64 << (place % 64));
    put_place(masks, place, found)
}

/// Adds a place: to this mask, which is of its word and has not got it, or else as a mask of its own.
fn put_place(masks: &mut Vec<Mask>, place: usize, found: Option<usize>) -> Result<(), AllocError>
    requires { IfSome found (λ i. (i < length masks.old.items) × is_free (place / 64) ((1 * 2 ^ (place % 64)) % 2 ^ 64) (get_or masks.old.items i (record { index = 0; bits = 0 }))) }
    ensures places { OnOk result ((ws : List ℕ) → places_in masks.new.items ws ≡ places_in masks.old.items ws + bit_of ws place) }
    ensures count { OnOk result (count_in masks.new.items ≤ count_in masks.old.items + 1) }
{
    let index = place / 64;
    let bit = 1u64 << (place % 64);
    match found {
        None => {
            masks.push(Mask { index, bits: bit })?;
            Ok(())
        }
        Some(found) => {
            let bits = masks[found].bits | bit;
            masks[found] = Mask { index, bits };
            Ok(())
        }
    }
}

/// The place of the last mask, if that is of this word and has not got the bit.
fn last_without(masks: &[Mask], index: usize, bit: u64) -> Option<usize>
    ensures { IfSome result (λ i. (i < length masks.now) × is_free index bit (get_or masks.now i (record { index = 0; bits = 0 }))) }
{
    let Some(last) = masks.len().checked_sub(1) else {
        return None;
    };
    let mask = &masks[last];
    if mask.bits & bit == 0 && mask.index == index {
        Some(last)
    } else {
        None
    }
}

/// The place of the first mask of this word that has not got the bit.
fn mask_without(masks: &[Mask], index: usize, bit: u64) -> Option<usize>
    ensures { IfSome result (λ i. (i < length masks.now) × is_free index bit (get_or masks.now i (record { index = 0; bits = 0 }))) }
{
    for (found, mask) in masks.iter().enumerate() {
        if mask.index == index && mask.bits & bit == 0 {
            return Some(found);
        }
    }
    None
}
