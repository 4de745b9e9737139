//! Sets of places among few nodes as words, with a bit for each place.

ghost use Rattle.std.specs.Prelude.{◌≡◌, ◌==◌, ◌<◌, ◌/◌, ℕ, IfNone, IfSome, if◌then◌else◌};
ghost use Rattle.scp_bits.specs.Places.{bit_of};
ghost use Rattle.node_view.specs.Words.{AreJoined};

use scp_bits::{add_place, clear_place};

/// A set of reached nodes stands on the stack if this many words have room for all of them.
pub(crate) const FEW_WORDS: usize = 8;

/// The first place in the set, if there is one.
pub(crate) fn first_place(places: &[u64; FEW_WORDS]) -> Option<usize>
    ensures some { IfSome result (λ i. bit_of places.now i ≡ 1) }
    ensures none { IfNone result ((i : ℕ) → bit_of places.now i ≡ 0) }
{
    for index in 0..FEW_WORDS {
        let word = places[index];
        if word != 0 {
            return Some(64 * index + word.trailing_zeros() as usize);
        }
    }
    None
}

/// Adds a place to the set, if there is room for it.
pub(crate) fn put_place(places: &mut [u64; FEW_WORDS], place: usize)
    ensures { place / 64 < 8 → (i : ℕ) → bit_of places.new i ≡ (if place == i then 1 else bit_of places.old i) }
{
    if place / 64 < FEW_WORDS {
        add_place(places, place);
    }
}

/// Takes a place out of the set.
pub(crate) fn take_place(places: &mut [u64; FEW_WORDS], place: usize)
    ensures { (i : ℕ) → bit_of places.new i ≡ (if place == i then 0 else bit_of places.old i) }
{
    if place / 64 < FEW_WORDS {
        clear_place(places, place);
    }
}

/// Adds the places of another set, as far as there is room for them.
pub(crate) fn join_places(places: &mut [u64], more: &[u64; FEW_WORDS])
    ensures { AreJoined places.old more.now places.new }
{
    for index in 0..FEW_WORDS {
        if index < places.len() {
            places[index] |= more[index];
        }
    }
}
