//! Where the members of a closure stand in a picture.
//!
//! Who named whom first makes a tree, from the first member on. A member stands in the ring of its distance from the
//! first, in the middle of the leaves that it leads to. Leaves have equal shares of a whole turn. So members stand near
//! the one that named them, and arrows seldom cross.

use crate::circle::TURN;
use host_closure::ClosureList;
use std::alloc::{AllocError, Global};

/// Where a member stands in the tree.
#[derive(Clone, Copy)]
struct Spot {
    /// How many arrows lead to it from the first member.
    ring: usize,
    /// How many leaves it leads to; a leaf leads to itself.
    leaves: usize,
    /// How many leaves come before its own.
    before: usize,
    /// How many leaves come before those of the next member that it named.
    next: usize,
}

/// Where all members stand, by their places in the closure.
#[derive(Drop)]
pub struct Layout {
    spots: Vec<Spot>,
    radii: Vec<u64>,
    leaves: u64,
}

impl Layout {
    /// The layout of a closure. The first ring is at least `distance` from the middle, and each other one from the ring
    /// inside it. Members of one ring are at least `apart` from one another, along the ring. An error says that it is
    /// out of memory.
    pub fn of(
        alloc: Global,
        members: &ClosureList,
        distance: u64,
        apart: u64,
    ) -> Result<Layout, AllocError> {
        let mut spots = spots_in_rings(alloc, members)?;
        set_leaves(members, &mut spots);
        share_turn(members, &mut spots);
        let leaves = spots.first().map_or(1, |spot| spot.leaves as u64);
        let fewest = fewest_leaves(alloc, &spots)?;
        let radii = radii_of(alloc, &fewest, leaves.saturating_mul(apart), distance)?;
        Ok(Layout {
            spots,
            radii,
            leaves,
        })
    }

    /// How far the member at a place stands from the middle, which is where the first one stands.
    pub fn radius(&self, place: usize) -> u64 {
        match self.spots.get(place) {
            Some(spot) => self.radii.get(spot.ring).copied().unwrap_or(0),
            None => 0,
        }
    }

    /// In which direction the member at a place stands, in thousandths of a degree, clockwise from the right.
    pub fn angle(&self, place: usize) -> u64 {
        match self.spots.get(place) {
            Some(spot) => {
                let before = (spot.before as u64).saturating_mul(2);
                let middle = before.saturating_add((spot.leaves as u64).saturating_sub(1));
                middle.saturating_mul(TURN / 2) / self.leaves.max(1)
            }
            None => 0,
        }
    }
}

fn spots_in_rings(alloc: Global, members: &ClosureList) -> Result<Vec<Spot>, AllocError> {
    let mut spots: Vec<Spot> = Vec::new(alloc);
    for place in 0..members.len() {
        if let Some((_, namer)) = members.member(place) {
            let ring = spots
                .get(namer)
                .map_or(0, |spot: &Spot| spot.ring.saturating_add(1));
            spots.push(Spot {
                ring,
                leaves: 0,
                before: 0,
                next: 0,
            })?;
        }
    }
    Ok(spots)
}

/// Sets how many leaves each member has, from the last one back, since all that a member named come behind it.
fn set_leaves(members: &ClosureList, spots: &mut [Spot]) {
    for place in (0..members.len()).rev() {
        if let Some((_, namer)) = members.member(place) {
            let leaves = own_leaves(spots, place);
            if place > 0 {
                add_leaves(spots, namer, leaves);
            }
        }
    }
}

/// The leaves of a member that are all counted: one, if it named nobody first.
fn own_leaves(spots: &mut [Spot], place: usize) -> usize {
    match spots.get_mut(place) {
        Some(spot) => {
            spot.leaves = spot.leaves.max(1);
            spot.leaves
        }
        None => 0,
    }
}

fn add_leaves(spots: &mut [Spot], place: usize, leaves: usize) {
    if let Some(spot) = spots.get_mut(place) {
        spot.leaves = spot.leaves.saturating_add(leaves);
    }
}

/// Gives each member its share of the leaves of the one that named it, behind those that this one named before.
fn share_turn(members: &ClosureList, spots: &mut [Spot]) {
    for place in 1..members.len() {
        if let Some((_, namer)) = members.member(place) {
            let leaves = own_leaves(spots, place);
            let before = take_leaves(spots, namer, leaves);
            if let Some(spot) = spots.get_mut(place) {
                spot.before = before;
                spot.next = before;
            }
        }
    }
}

/// Takes the next leaves of a member, and answers how many come before them.
fn take_leaves(spots: &mut [Spot], place: usize, leaves: usize) -> usize {
    match spots.get_mut(place) {
        Some(spot) => {
            let before = spot.next;
            spot.next = before.saturating_add(leaves);
            before
        }
        None => 0,
    }
}

/// For each ring the fewest leaves that one of its members leads to.
fn fewest_leaves(alloc: Global, spots: &[Spot]) -> Result<Vec<usize>, AllocError> {
    let mut fewest: Vec<usize> = Vec::new(alloc);
    for spot in spots {
        match fewest.get_mut(spot.ring) {
            Some(least) => *least = spot.leaves.min(*least),
            // A member stands at most one ring farther out than an earlier one.
            None => fewest.push(spot.leaves)?,
        }
    }
    Ok(fewest)
}

/// The radius of each ring, if its members' leaves have equal shares of a line of this length.
fn radii_of(
    alloc: Global,
    fewest: &[usize],
    length: u64,
    distance: u64,
) -> Result<Vec<u64>, AllocError> {
    let mut radii: Vec<u64> = Vec::new(alloc);
    for leaves in fewest {
        let radius = match radii.last() {
            None => 0,
            Some(inner) => inner
                .saturating_add(distance)
                .max(length.saturating_mul(100) / 628 / (*leaves as u64).max(1)),
        };
        radii.push(radius)?;
    }
    Ok(radii)
}
