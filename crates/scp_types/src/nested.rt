//! Slices: a threshold over names and inner sets.

ghost use Rattle.std.specs.Prelude.{◌≡◌, ◌++◌, ◌&&◌, ◌==◌, IfOk, OnErr, OnOk, IfSome, IsSome, IsTrue, ◌↔◌, length, nat_le, take};
ghost use Rattle.std.specs.List.{AllByRecursion};
ghost use Rattle.scp_types.specs.Trees.{Slices, depth_of, names_in, IsName, IsNested, has_levels, has_threshold, is_shaped, all_differ, rises};
ghost use Rattle.scp_types.specs.Shape.{members_of};

use crate::node_id::NodeId;
use std::alloc::{AllocError, Global};
use std::marker::Model;
use std::sync::Arc;

/// The most members of one set (this host's profile).
pub const MAX_MEMBERS: usize = 64;

/// The most names in one tree (this host's profile).
pub const MAX_NAMES: usize = 256;

/// The most levels of inner sets below the outermost one (this host's profile).
pub const MAX_INNER_LEVELS: usize = 8;

/// One level of slices: a threshold over its members.
#[cycle(slices)]
#[derive(Drop)]
pub struct SliceSet {
    threshold: u8,
    members: Vec<Member>,
}

/// A node, or again a set.
#[cycle(slices)]
#[derive(Drop)]
pub enum Member {
    /// The node of this name.
    Node(NodeId),
    /// An inner set, which counts as one member.
    Set(SliceSet),
}

impl Model for SliceSet {
    ghost use Rattle.scp_types.specs.Trees.{Slices, slices_code};

    ghost Value = { Slices };

    ghost coded = { slices_code };

    ghost use Rattle.scp_types.specs.Trees.{weight_of};
    ghost use Rattle.scp_types.specs.Shape.{members_of};

    ghost view = { λ a. record { threshold = a.threshold; members = members_of a.members.items } };

    ghost size = { λ s. weight_of s.members };

    ghost use Rattle.std.proofs.Common.{arith};
    ghost use Rattle.scp_types.specs.ShapeFalls.{most_le};

    ghost size_decreases = { λ a h. omega (arith, most_le a.members.items) };
}

impl SliceSet {
    /// A threshold over members, whether or not they keep the rules.
    pub fn new(threshold: u8, members: Vec<Member>) -> SliceSet
        ensures threshold { result.threshold ≡ threshold }
        ensures members { result.members ≡ members_of members.items }
    {
        SliceSet { threshold, members }
    }

    /// How many members have to agree.
    pub fn threshold(&self) -> u8
        ensures { result ≡ self.now.threshold }
    {
        self.threshold
    }

    /// The members, in the order in which they were given.
    pub fn members(&self) -> &[Member]
        ensures { members_of result.now ≡ self.now.members }
    {
        &self.members
    }
}

/// Whether each set of the tree has at most 64 members and a threshold of one to all of them, with at most `levels`
/// levels of inner sets.
fn keeps_shape(set: &SliceSet, levels: usize) -> bool
    ensures { result ≡ (has_threshold set.now.threshold set.now.members && is_shaped levels set.now.members) }
{
    let members = set.members();
    if !is_threshold(set.threshold(), members) {
        return false;
    }
    for member in members {
        if let Member::Set(inner) = member {
            if levels == 0 || !keeps_shape(inner, levels - 1) {
                return false;
            }
        }
    }
    true
}

/// Whether there are at most `levels` levels of inner sets.
fn has_levels(set: &SliceSet, levels: usize) -> bool
    ensures { result ≡ has_levels levels set.now.members }
{
    let members = set.members();
    for member in members {
        if let Member::Set(inner) = member {
            if levels == 0 || !has_levels(inner, levels - 1) {
                return false;
            }
        }
    }
    true
}

/// Whether there are at most 64 members, and the threshold is one to all of them.
#[tactic(auto, using(crate::proofs::NestedRules::counted))]
fn is_threshold(threshold: u8, members: &[Member]) -> bool
    ensures { result ≡ has_threshold threshold (members_of members.now) }
{
    threshold > 0 && threshold as usize <= members.len() && members.len() <= MAX_MEMBERS
}

/// Adds the names of the tree to a list, in the order of the tree, as often as they stand in it. If it is out of
/// memory, some may have been added; those that the list had stay in front.
#[tactic(auto, using(crate::proofs::Fronts::front_stays, crate::proofs::Fronts::front_through))]
pub fn push_names(set: &SliceSet, names: &mut Vec<NodeId>) -> Result<(), AllocError>
    ensures ok { OnOk result (names.new.items ≡ names.old.items ++ names_in set.now.members) }
    ensures fit { OnOk result (AllByRecursion IsName (names_in set.now.members)) }
    ensures err { OnErr result (take (length names.old.items) names.new.items ≡ names.old.items) }
{
    let members = set.members();
    for member in members {
        match member {
            Member::Node(node) => {
                let _words = node.words();
                names.push(*node)?;
            }
            Member::Set(inner) => push_names(inner, names)?,
        }
    }
    Ok(())
}

fn all_differ(names: Vec<NodeId>) -> bool
    ensures { result ≡ all_differ names.items }
{
    // Names mostly come in order, which one pass sees.
    if is_ascending(&names) {
        return true;
    }
    let mut names = names;
    // In place, which takes no memory.
    names.sort_unstable();
    is_ascending(&names)
}

/// Whether each name is below the next one. It takes no memory.
pub fn is_ascending(names: &[NodeId]) -> bool
    ensures { result ≡ rises names.now }
{
    let Some((first, rest)) = names.split_first() else {
        return true;
    };
    let mut last = *first;
    for name in rest {
        if !(last < *name) {
            return false;
        }
        last = *name;
    }
    true
}

/// Whether both are the same members, in the same order.
fn are_same(members: &[Member], others: &[Member]) -> bool
    ensures { IsTrue result ↔ members_of members.now ≡ members_of others.now }
{
    match members {
        [] => others.is_empty(),
        [Member::Node(node), rest @ ..] => match others {
            [Member::Node(other), others @ ..] => node.is_same(other) && are_same(rest, others),
            _ => false,
        },
        [Member::Set(set), rest @ ..] => match others {
            [Member::Set(other), others @ ..] => {
                set.threshold() == other.threshold()
                    && are_same(set.members(), other.members())
                    && are_same(rest, others)
            }
            _ => false,
        },
    }
}

/// Slices that keep the rules (this host's profile of the nested slices of the Stellar Consensus Protocol draft). Each
/// set has at most 64 members and a threshold of one to all of them. There are at most eight levels of inner sets and
/// 256 names, and no name stands twice in the tree. Copies share them.
///
/// For example, 2 of A, B and the inner set 1 of C are such slices. 3 of A and B are none, since the threshold is too
/// high; nor are 1 of A and the inner set 1 of A, since A stands twice.
#[derive(Drop)]
pub struct Nested {
    set: Arc<SliceSet, Global>,
}

impl Model for Nested {
    ghost use Rattle.std.specs.Arc.{arc_value};
    ghost use Rattle.scp_types.specs.Trees.{Slices, slices_code, IsNested};

    ghost Value = { Slices };

    ghost coded = { slices_code };

    ghost view = { λ a. arc_value a.set };

    ghost invariant = { λ a. IsNested (arc_value a.set) };
}

impl Nested {
    /// Slices of this set, or `None` if it breaks one of the rules. An error says that it is out of memory: for the
    /// list of the names, or for the set that copies share.
    #[tactic(auto, using(crate::proofs::NestedRules::nested, crate::proofs::NestedRules::nested_shape, crate::proofs::NestedRules::nested_names))]
    pub fn new(alloc: Global, set: SliceSet) -> Result<Option<Nested>, AllocError>
        ensures exactly { IfOk result (λ o. IsSome o ↔ IsNested set) }
        ensures some { IfOk result (λ o. IfSome o (λ n. n ≡ set)) }
    {
        if !keeps_shape(&set, MAX_INNER_LEVELS) {
            return Ok(None);
        }
        let mut names = Vec::with_capacity(alloc, set.members().len())?;
        push_names(&set, &mut names)?;
        if names.len() > MAX_NAMES || !all_differ(names) {
            return Ok(None);
        }
        Ok(Some(Nested::of(alloc, set)?))
    }

    /// Slices that are known to keep the rules. An error says that it is out of memory.
    pub fn of(alloc: Global, set: SliceSet) -> Result<Nested, AllocError>
        requires { IsNested set }
        ensures { IfOk result (λ n. n ≡ set) }
    {
        Ok(Nested {
            set: Arc::new(alloc, set)?,
        })
    }

    /// A copy, which shares the set. It takes no memory; an error says that the set has too many owners.
    pub fn try_copy(&self) -> Result<Nested, AllocError>
        ensures { IfOk result (λ n. n ≡ self.now) }
    {
        Ok(Nested {
            set: Arc::try_clone(&self.set)?,
        })
    }

    /// Whether both are the same: one threshold over the same members, in the same order. It stops at
    /// the first difference, and takes no memory.
    pub fn is_same(&self, other: &Nested) -> bool
        ensures { IsTrue result ↔ self.now ≡ other.now }
    {
        self.set.threshold() == other.set.threshold()
            && are_same(self.set.members(), other.set.members())
    }

    /// Whether there are at most `levels` levels of inner sets.
    #[tactic(auto, using(crate::proofs::NestedRules::levels_counted))]
    pub fn has_levels(&self, levels: usize) -> bool
        ensures { result ≡ nat_le (depth_of self.now.members) levels }
    {
        has_levels(&self.set, levels)
    }

    /// The outermost set.
    pub fn set(&self) -> &SliceSet
        ensures value { result.now ≡ self.now }
        ensures rules { IsNested self.now }
    {
        &self.set
    }
}
