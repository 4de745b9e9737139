//! That flat slices are made of slices, and slices of flat ones, if there is memory, and that both answer alike. The
//! second is said by their contracts, the first by no clause.

ghost use Rattle.std.specs.Prelude.{IfOk};
ghost use Rattle.scp_spec.specs.Sets.{IsAscending};

use line_script::slices_of;
use scp_federation::Flat;
use scp_slices::SliceFamily;
use scp_types::{Member, Nested, NodeId, SliceSet};
use std::alloc::Global;
use std::test::Fail;

/// Slices of the cases' rows: of one name and of many, of thresholds from one to all, and of each number of levels that
/// may be. Some name nodes that others have in inner sets.
const WORDS: &[u8] =
    b"1[A] 1[B] 2[A,B] 2[B,A] 2[A,B,C] 3[A,B,C] 1[C,B,A] 2[B,C,D] 3[B,C,D,E] 4[A,B,C,D] 1[1[Q]] 1[A,1[C]] 1[2[A,C]] 2[B,1[C,D]] 3[B,1[A],C] 1[1[1[B]]] 2[B,1[C,D],2[E,F]] 2[2[R,S],1[Q]] 1[1[1[1[C]]]] 1[1[1[1[1[P]],A]]] 1[3[Q,1[P],R,B,A]] 5[1[1[1[V]]],P,S,A,1[Q,R]] 3[Q,2[E,1[1[1[1[1[P]]]]]],B] 1[1[1[1[1[1[1[R]]]]]]] 1[1[1[1[1[1[1[1[R]]]]]]],A,Q] 1[1[1[1[1[1[1[1[1[D]]]]]]]]] 2[2[T,A],1[1[2[P,Q,1[1[S]]]]]] 2[2[A1,A2,A3],2[B1,B2,B3],2[C1,C2,C3]] 1[3[B,3[S,Q,1[1[1[1[1[P]]]]]],R,2[U,T]]]";

/// The slices that a word spells.
fn slices(alloc: Global, word: &[u8]) -> Result<Nested, Fail> {
    Ok(slices_of(alloc, word)?.ok_or("slices")?)
}

/// All names of slices, ascending.
fn names_of<F: SliceFamily>(alloc: Global, slices: &F) -> Result<Vec<NodeId>, Fail>
    ensures { IfOk result (λ v. IsAscending v.items) }
{
    Ok(slices.names(alloc)?)
}

/// Whether slices of two kinds answer alike about a set of nodes, and about the weight of each node in it.
fn are_alike<F: SliceFamily, G: SliceFamily>(one: &F, other: &G, nodes: &[NodeId]) -> bool
    requires { IsAscending nodes.now }
{
    let mut alike = one.satisfied_by(nodes) == other.satisfied_by(nodes)
        && one.blocked_by(nodes) == other.blocked_by(nodes);
    for node in nodes {
        alike = alike && one.weight(node) == other.weight(node);
    }
    alike
}

/// Whether slices and their flat form have the same names, and are alike about each set of nodes that a word of `WORDS`
/// names.
fn are_alike_about_words(alloc: Global, nested: &Nested, flat: &Flat) -> Result<bool, Fail> {
    let mut alike = names_of(alloc, nested)? == names_of(alloc, flat)?;
    for word in WORDS.split(|byte| *byte == b' ') {
        let other = slices(alloc, word)?;
        let nodes = names_of(alloc, &other)?;
        alike = alike && are_alike(nested, flat, &nodes);
    }
    Ok(alike)
}

/// Whether slices and their flat form are alike, and the flat form is made slices again.
fn goes_both_ways(alloc: Global, nested: &Nested) -> Result<bool, Fail> {
    let flat = Flat::of(alloc, nested)?;
    let again = flat.to_nested(alloc)?;
    let same = nested.is_same(&again);
    drop(again);
    Ok(same && are_alike_about_words(alloc, nested, &flat)?)
}

/// Whether all slices of `WORDS` go both ways.
fn all_go_both_ways(alloc: Global) -> Result<bool, Fail> {
    for word in WORDS.split(|byte| *byte == b' ') {
        let nested = slices(alloc, word)?;
        if !goes_both_ways(alloc, &nested)? {
            return Ok(false);
        }
    }
    Ok(true)
}

#[test]
fn flat_slices_answer_as_their_trees(rt: HostRuntime) -> Result<(), Fail> {
    let alike = all_go_both_ways(rt.alloc())?;
    assert!(rt; alike);
    Ok(())
}

/// A set of 64 names, numbered from `first` on, of which `threshold` are needed.
fn sixty_four(alloc: Global, first: u64, threshold: u8) -> Result<SliceSet, Fail> {
    let mut members = Vec::new(alloc);
    for number in 0..64 {
        let name = NodeId::from_words(0, 0, 0, first.saturating_add(number));
        members.push(Member::Node(name))?;
    }
    Ok(SliceSet::new(threshold, members))
}

/// Four sets of 64 names, each of which needs all its names; `threshold` of the sets are needed.
fn widest(alloc: Global, threshold: u8) -> Result<Nested, Fail> {
    let mut members = Vec::new(alloc);
    for first in [0u64, 64, 128, 192] {
        members.push(Member::Set(sixty_four(alloc, first, 64)?))?;
    }
    Ok(Nested::new(alloc, SliceSet::new(threshold, members))?.ok_or("slices")?)
}

/// Whether the widest slices and their flat form are alike about all their names, and about the names of their second
/// set.
fn widest_are_alike(alloc: Global, threshold: u8) -> Result<bool, Fail> {
    let nested = widest(alloc, threshold)?;
    let flat = Flat::of(alloc, &nested)?;
    let all = names_of(alloc, &nested)?;
    let alike = are_alike(&nested, &flat, &all);
    let half = Nested::new(alloc, sixty_four(alloc, 64, 1)?)?.ok_or("slices")?;
    let nodes = names_of(alloc, &half)?;
    Ok(alike && are_alike(&nested, &flat, &nodes))
}

#[test]
fn flat_slices_hold_256_names_in_sets_of_64(rt: HostRuntime) -> Result<(), Fail> {
    let alloc = rt.alloc();
    let alike = widest_are_alike(alloc, 1)? && widest_are_alike(alloc, 4)?;
    assert!(rt; alike);
    Ok(())
}
