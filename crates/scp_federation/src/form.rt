//! Slices as one table of names and one list of sets.

ghost use Rattle.std.specs.Prelude.{◌≡◌, ◌==◌, ◌+◌, ◌++◌, ◌-◌, ◌<◌, ◌≤◌, ◌^◌, IfOk, IfSome, IsTrue, None, OnOk, Some, length, if◌then◌else◌};
ghost use Rattle.scp_types.specs.Trees.{HasThreshold, HaveThresholds, depth_of, most_levels, names_in};
ghost use Rattle.scp_spec.specs.Sets.{among, AreWithin, IsAscending};
ghost use Rattle.scp_spec.specs.Satisfaction.{sat, is_blocked};
ghost use Rattle.scp_federation.specs.Numbers.{AreNumbers, levels_of, place_of_name, set_at};
ghost use Rattle.scp_slices.specs.Weighing.{share_of, whole};

use crate::flat_set::{FlatMember, FlatSet};
use scp_slices::{SliceFamily, Weight, is_among};
use scp_types::{Member, Nested, NodeId, SliceSet};
use std::alloc::{AllocError, Global};
use std::marker::Model;

/// Slices as one ascending table of their names and one list of their sets, the outermost first. Each set has its
/// threshold, and its members are numbers: of names in the table, or of later sets in the list.
///
/// Contracts see the slices that it stands for, the order of members included.
#[derive(Drop)]
pub struct Flat {
    names: Vec<NodeId>,
    sets: Vec<FlatSet>,
}

impl Model for Flat {
    ghost use Rattle.scp_types.specs.Trees.{Slices, slices_code};
    ghost use Rattle.scp_federation.specs.Numbers.{IsFlat, set_at};

    ghost Value = { Slices };

    ghost coded = { slices_code };

    ghost view = { λ a. set_at a.names.items a.sets.items 0 };

    ghost invariant = { λ a. IsFlat a.names.items a.sets.items };
}

impl Flat {
    /// The flat form of slices. An error says that it is out of memory.
    pub fn of(alloc: Global, nested: &Nested) -> Result<Flat, AllocError>
        ensures { IfOk result (λ f. f ≡ nested.now) }
    {
        let names = nested.names(alloc)?;
        let mut sets = Vec::new(alloc);
        push_sets(alloc, nested.set(), &names, &mut sets)?;
        Ok(Flat { names, sets })
    }

    /// The slices as a tree. An error says that it is out of memory.
    pub fn to_nested(&self, alloc: Global) -> Result<Nested, AllocError>
        ensures { IfOk result (λ n. n ≡ self.now) }
    {
        let set = tree_of(alloc, &self.names, &self.sets, 0)?;
        Nested::of(alloc, set)
    }
}

impl SliceFamily for Flat {
    ghost use Rattle.scp_spec.specs.Satisfaction.{sat, is_blocked, names};
    ghost use Rattle.scp_spec.specs.Weights.{weight};
    ghost use Rattle.scp_spec.proofs.Slices.Satisfaction.{sat_monotone, sat_local, sat_dual};

    ghost sat = { sat };

    ghost blocked = { is_blocked };

    ghost names = { names };

    ghost weight = { weight };

    ghost monotone = { sat_monotone };

    ghost local = { sat_local };

    ghost dual = { sat_dual };

    fn satisfied_by(&self, nodes: &[NodeId]) -> bool {
        is_met(&self.names, &self.sets, 0, nodes, false)
    }

    fn blocked_by(&self, nodes: &[NodeId]) -> bool {
        is_met(&self.names, &self.sets, 0, nodes, true)
    }

    fn names(&self, alloc: Global) -> Result<Vec<NodeId>, AllocError> {
        Vec::from_slice(alloc, &self.names)
    }

    fn weight(&self, node: &NodeId) -> Option<Weight> {
        weight_at(&self.names, &self.sets, 0, node)
    }
}

/// Whether a set of nodes satisfies the set with this number or, if `blocking`, blocks it.
fn is_met(
    names: &[NodeId],
    sets: &[FlatSet],
    number: usize,
    nodes: &[NodeId],
    blocking: bool,
) -> bool
    requires ascending { IsAscending nodes.now }
    requires numbers { AreNumbers names.now sets.now }
    requires number { number < length sets.now }
    ensures { result ≡ (if blocking then is_blocked (set_at names.now sets.now number) (among nodes.now) else sat (set_at names.now sets.now number) (among nodes.now)) }
{
    let set = &sets[number];
    let members = set.members();
    let mut count = 0;
    for member in members {
        let met = match member {
            FlatMember::Name(place) => is_among(nodes, &names[*place]),
            FlatMember::Inner(inner) => is_met(names, sets, *inner, nodes, blocking),
        };
        if met {
            count += 1;
        }
    }
    count >= needed_of(set.threshold(), members.len(), blocking)
}

/// How many of `members` members are needed to meet a set: its threshold or, to block it, one more than it can spare.
fn needed_of(threshold: u8, members: usize, blocking: bool) -> usize
    requires { members < 2 ^ 63 }
    ensures { result ≡ (if blocking then members + 1 - threshold else threshold) }
{
    if blocking {
        (members + 1).saturating_sub(threshold as usize)
    } else {
        threshold as usize
    }
}

/// The set with this number as a tree. An error says that it is out of memory.
fn tree_of(
    alloc: Global,
    names: &[NodeId],
    sets: &[FlatSet],
    number: usize,
) -> Result<SliceSet, AllocError>
    requires numbers { AreNumbers names.now sets.now }
    requires number { number < length sets.now }
    ensures { IfOk result (λ s. s ≡ set_at names.now sets.now number) }
{
    let set = &sets[number];
    let flat = set.members();
    let mut members = Vec::new(alloc);
    for member in flat {
        let member = match member {
            FlatMember::Name(place) => Member::Node(names[*place]),
            FlatMember::Inner(inner) => Member::Set(tree_of(alloc, names, sets, *inner)?),
        };
        members.push(member)?;
    }
    Ok(SliceSet::new(set.threshold(), members))
}

/// The weight of a node in the set with this number, by its first member that has the node.
fn weight_at(names: &[NodeId], sets: &[FlatSet], number: usize, node: &NodeId) -> Option<Weight>
    requires numbers { AreNumbers names.now sets.now }
    requires number { number < length sets.now }
    requires threshold { HasThreshold (set_at names.now sets.now number).threshold (set_at names.now sets.now number).members }
    requires inner_sets { HaveThresholds (set_at names.now sets.now number).members }
    requires levels { depth_of (set_at names.now sets.now number).members ≤ most_levels }
    ensures value { result ≡ share_of (set_at names.now sets.now number) node.now }
    ensures fits { IfSome result (λ w. (w.numerator ≤ 64 ^ 9) × (w.denominator ≤ 64 ^ 9)) }
{
    let set = &sets[number];
    let members = set.members();
    for member in members {
        let found = match member {
            FlatMember::Name(place) => own_weight(&names[*place], node),
            FlatMember::Inner(inner) => weight_at(names, sets, *inner, node),
        };
        if let Some(share) = found {
            return Some(share.part(set.threshold(), members.len() as u8));
        }
    }
    None
}

/// The weight of a node in a member that is itself a node.
fn own_weight(member: &NodeId, node: &NodeId) -> Option<Weight>
    ensures value { result ≡ (if member.now == node.now then Some whole else None) }
    ensures fits { IfSome result (λ w. (w.numerator ≤ 64 ^ 9) × (w.denominator ≤ 64 ^ 9)) }
{
    if *member == *node {
        Some(Weight::one())
    } else {
        None
    }
}

/// Adds a set and those inside it to a list, each before those inside it. If it is out of memory, some may have been
/// added.
fn push_sets(
    alloc: Global,
    set: &SliceSet,
    names: &[NodeId],
    sets: &mut Vec<FlatSet>,
) -> Result<(), AllocError>
    requires ascending { IsAscending names.now }
    requires known { AreWithin (among (names_in set.now.members)) (among names.now) }
    ensures { OnOk result (sets.new.items ≡ sets.old.items ++ levels_of names.now (length sets.old.items) set.now) }
{
    let number = sets.len();
    // Its members come once those inside it have their numbers.
    sets.push(FlatSet::new(set.threshold(), Vec::new(alloc)))?;
    let tree = set.members();
    let mut members = Vec::new(alloc);
    for member in tree {
        match member {
            Member::Node(node) => members.push(FlatMember::Name(place_of(names, node)))?,
            Member::Set(inner) => {
                members.push(FlatMember::Inner(sets.len()))?;
                push_sets(alloc, inner, names, sets)?;
            }
        }
    }
    sets[number] = FlatSet::new(set.threshold(), members);
    Ok(())
}

/// The place of a name that the table has.
fn place_of(names: &[NodeId], node: &NodeId) -> usize
    requires ascending { IsAscending names.now }
    requires known { IsTrue (among names.now node.now) }
    ensures { result ≡ place_of_name names.now node.now }
{
    match names.binary_search(node) {
        Ok(place) => place,
        Err(_) => unreachable!(),
    }
}
