//! Sets of nodes as words with a bit for each place.

ghost use Rattle.std.specs.Prelude.{◌≡◌, ◌==◌, ◌<◌, ◌/◌, ℕ, IfOk, IsTrue, length, if◌then◌else◌};
ghost use Rattle.scp_bits.specs.Places.{bit_of};
ghost use Rattle.scp_bits.specs.Met.{IsAdded, IsCleared};

use std::alloc::{AllocError, Global};

/// Whether a place is in the set.
pub fn has_place(places: &[u64], place: usize) -> bool
    ensures value { result ≡ (bit_of places.now place == 1) }
    ensures within { IsTrue result → place / 64 < length places.now }
{
    match places.get(place / 64) {
        None => false,
        Some(word) => (*word >> (place % 64)) & 1 == 1,
    }
}

/// The empty set, with room for `count` places. An error says that it is out of memory.
pub fn no_places(alloc: Global, count: usize) -> Result<Vec<u64>, AllocError>
    ensures none { IfOk result (λ v. (i : ℕ) → bit_of v.items i ≡ 0) }
    ensures room { IfOk result (λ v. (i : ℕ) → i < count → i / 64 < length v.items) }
{
    vec![in alloc; 0u64; count / 64 + 1]
}

/// Adds a place to the set.
pub fn add_place(places: &mut [u64], place: usize)
    requires { place / 64 < length places.old }
    ensures { IsAdded place places.old places.new }
{
    let index = place / 64;
    places[index] |= 1u64 << (place % 64);
}

/// Takes a place out of the set.
pub fn clear_place(places: &mut [u64], place: usize)
    requires { place / 64 < length places.old }
    ensures { IsCleared place places.old places.new }
{
    let index = place / 64;
    places[index] &= !(1u64 << (place % 64));
}
