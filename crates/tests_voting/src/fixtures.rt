//! Names, slices and statements of which tests make their rows.

ghost use Rattle.std.specs.Prelude.{IfOk};
ghost use Rattle.scp_spec.specs.Sets.{IsAscending};

use scp_slices::SliceFamily;
use scp_types::{Ballot, Envelope, Member, Nested, NodeId, SliceSet, Statement, Value};
use std::alloc::Global;
use std::test::Fail;

/// The name of a number.
pub fn name(number: u64) -> NodeId {
    NodeId::from_words(0, 0, 0, number)
}

/// A set that asks for `threshold` of the nodes of these numbers.
pub fn set_of(alloc: Global, threshold: u8, numbers: &[u64]) -> Result<SliceSet, Fail> {
    let mut members = Vec::new(alloc);
    for number in numbers {
        members.push(Member::Node(name(*number)))?;
    }
    Ok(SliceSet::new(threshold, members))
}

/// Slices that ask for `threshold` of the nodes of these numbers.
pub fn slices_of(alloc: Global, threshold: u8, numbers: &[u64]) -> Result<Nested, Fail> {
    let set = set_of(alloc, threshold, numbers)?;
    Ok(Nested::new(alloc, set)?.ok_or("slices")?)
}

/// The nodes of these numbers, ascending.
pub fn nodes_of(alloc: Global, numbers: &[u64]) -> Result<Vec<NodeId>, Fail>
    ensures { IfOk result (λ v. IsAscending v.items) }
{
    let slices = slices_of(alloc, 1, numbers)?;
    Ok(slices.names(alloc)?)
}

/// The ballot of the value x with this counter.
pub fn ballot(alloc: Global, counter: u32) -> Result<Ballot, Fail> {
    let value = Value::of(alloc, b"x")?;
    Ok(Ballot { counter, value })
}

/// A vote to prepare the ballot with this counter.
pub fn prepare(alloc: Global, counter: u32) -> Result<Statement, Fail> {
    let ballot = ballot(alloc, counter)?;
    Ok(Statement::Prepare {
        ballot,
        prepared: None,
        aborted_counter: 0,
        high_counter: 0,
        commit_counter: 0,
    })
}

/// What the node of this number says, with these slices.
pub fn envelope_from(sender: u64, slices: Nested, body: Statement) -> Result<Envelope, Fail> {
    Ok(Envelope::new(name(sender), 1, slices, body).ok_or("statement")?)
}

/// The vote of the node of this number to prepare the ballot with this counter, with slices that need all nodes of
/// `needed`.
pub fn vote_of(alloc: Global, sender: u64, counter: u32, needed: &[u64]) -> Result<Envelope, Fail> {
    let threshold = u8::try_from(needed.len()).ok().ok_or("slices")?;
    let slices = slices_of(alloc, threshold, needed)?;
    let body = prepare(alloc, counter)?;
    envelope_from(sender, slices, body)
}
