//! That quorums of real slices are found if there is memory, that blocking sets of them are told, and what is accepted
//! and confirmed by them. No clause says that there is an answer; which one it is, the definitions say.

ghost use Rattle.std.specs.Prelude.{Some, ◌==◌, ◌||◌};

use crate::fixtures::{name, nodes_of, set_of, slices_of};
use scp_federation::{SlicesOf, Voters, accepts, blocks, confirms, in_quorum, in_quorum_within};
use scp_slices::{SliceFamily, is_among};
use scp_types::{Member, Nested, NodeId, SliceSet};
use std::alloc::Global;
use std::test::Fail;

/// Everybody has the same slices.
#[derive(Drop)]
struct Everybody {
    slices: Nested,
}

impl SlicesOf for Everybody {
    type Family = Nested;

    ghost slices_at = { λ t u. Some t.slices };

    fn slices(&self, node: &NodeId) -> Option<&Nested> {
        let _name = node;
        Some(&self.slices)
    }
}

/// Whether node 1 is in a quorum of these nodes, by either call, and whether they block its slices.
fn answers(alloc: Global, all: &Everybody, numbers: &[u64]) -> Result<[bool; 3], Fail> {
    let node = name(1);
    let nodes = nodes_of(alloc, numbers)?;
    let region = all.slices.names(alloc)?;
    let found = in_quorum(alloc, &node, &nodes, all)?;
    let found_within = is_among(&region, &node)
        && in_quorum_within(alloc, &node, &nodes, all, &region)?;
    Ok([found, found_within, blocks(&all.slices, &nodes)])
}

/// The answers about enough of them, and about too few.
fn both_answers(alloc: Global, all: &Everybody) -> Result<[[bool; 3]; 2], Fail> {
    let enough = answers(alloc, all, &[1, 3, 6])?;
    let too_few = answers(alloc, all, &[1, 5, 6])?;
    Ok([enough, too_few])
}

// Each of the nodes 1, 2 and 3 needs two of them.
#[test]
fn finds_quorums_where_there_is_memory(rt: HostRuntime) -> Result<(), Fail> {
    let alloc = rt.alloc();
    let all = Everybody {
        slices: slices_of(alloc, 2, &[1, 2, 3])?,
    };
    let found = both_answers(alloc, &all);
    drop(all);
    assert!(rt; found? == [[true; 3], [false; 3]]);
    Ok(())
}

/// One node votes for a claim, and two, who may be the same, accept it.
#[derive(Drop)]
struct Said {
    voter: NodeId,
    acceptor: NodeId,
    other_acceptor: NodeId,
}

impl Voters for Said {
    ghost backing = { λ t u. (u == t.voter) || ((u == t.acceptor) || (u == t.other_acceptor)) };

    ghost accepting = { λ t u. (u == t.acceptor) || (u == t.other_acceptor) };

    fn votes_or_accepts(&self, node: &NodeId) -> bool {
        *node == self.voter || self.accepts(node)
    }

    fn accepts(&self, node: &NodeId) -> bool {
        *node == self.acceptor || *node == self.other_acceptor
    }
}

/// What the nodes of these numbers say of a claim.
fn saying(voter: u64, acceptor: u64, other_acceptor: u64) -> Said {
    Said {
        voter: name(voter),
        acceptor: name(acceptor),
        other_acceptor: name(other_acceptor),
    }
}

/// Whether the node of this number accepts what is said, and whether it confirms it.
fn verdicts(alloc: Global, all: &Everybody, number: u64, said: &Said) -> Result<[bool; 2], Fail> {
    let node = name(number);
    let region = all.slices.names(alloc)?;
    if !is_among(&region, &node) {
        return Ok([false; 2]);
    }
    let accepted = accepts(alloc, &node, said, all, &region)?;
    let confirmed = confirms(alloc, &node, said, all, &region)?;
    Ok([accepted, confirmed])
}

/// The verdicts of four nodes.
fn all_verdicts(alloc: Global, all: &Everybody) -> Result<[[bool; 2]; 4], Fail> {
    let by_votes = verdicts(alloc, all, 1, &saying(1, 2, 2))?;
    let by_blocking = verdicts(alloc, all, 3, &saying(2, 1, 1))?;
    let by_acceptance = verdicts(alloc, all, 1, &saying(1, 1, 2))?;
    let not_at_all = verdicts(alloc, all, 1, &saying(2, 3, 3))?;
    Ok([by_votes, by_blocking, by_acceptance, not_at_all])
}

/// Node 1 and one of the nodes 2 and 3.
fn nested_slices(alloc: Global) -> Result<Nested, Fail> {
    let inner = set_of(alloc, 1, &[2, 3])?;
    let mut members = Vec::new(alloc);
    members.push(Member::Node(name(1)))?;
    members.push(Member::Set(inner))?;
    Ok(Nested::new(alloc, SliceSet::new(2, members))?.ok_or("slices")?)
}

// Each node needs node 1 and one of the nodes 2 and 3, so node 1 blocks by itself, and node 3 does not.
#[test]
fn accepts_and_confirms_where_there_is_memory(rt: HostRuntime) -> Result<(), Fail> {
    let alloc = rt.alloc();
    let all = Everybody {
        slices: nested_slices(alloc)?,
    };
    let found = all_verdicts(alloc, &all);
    drop(all);
    assert!(rt; found? == [[true, false], [true, false], [true, true], [false, false]]);
    Ok(())
}
