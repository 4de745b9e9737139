//! Reports as graphs in the language DOT.

use crate::report::{Blockers, ClosureReport};
use host_closure::ClosureList;
use line_script::push_name;
use scp_types::NodeId;
use std::alloc::AllocError;
use std::fmt::Write;

/// Adds a graph for Graphviz: the members, with an arrow from each to those that it named first. Hosted members are
/// filled, and a dashed arrow leads from each member to the hosted ones whose slices it blocks by itself. An error says
/// that it is out of memory; then a part may have been added.
pub fn push_dot(text: &mut String, report: &ClosureReport) -> Result<(), AllocError> {
    text.push_str("digraph closure {\n")?;
    push_members(text, report.members())?;
    for blockers in report.blockers() {
        push_blockers(text, blockers)?;
    }
    text.push_str("}\n")?;
    Ok(())
}

/// Adds each member, with the arrow to it from the one that named it first.
fn push_members(text: &mut String, members: &ClosureList) -> Result<(), AllocError> {
    for place in 0..members.len() {
        if let Some((name, namer)) = members.member(place) {
            text.push_str("  ")?;
            push_node(text, &name)?;
            text.push_str(";\n")?;
            push_naming(text, members, namer, &name, place)?;
        }
    }
    Ok(())
}

/// Adds the arrow to a member from the one that named it. There is none to the first member.
fn push_naming(
    text: &mut String,
    members: &ClosureList,
    namer: usize,
    name: &NodeId,
    place: usize,
) -> Result<(), AllocError> {
    if place > 0 {
        if let Some(namer) = members.name(namer) {
            push_arrow(text, &namer, name)?;
            text.push_str(";\n")?;
        }
    }
    Ok(())
}

/// Adds that a member is hosted, and a dashed arrow from each member that blocks it by itself.
fn push_blockers(text: &mut String, blockers: &Blockers) -> Result<(), AllocError> {
    text.push_str("  ")?;
    push_node(text, blockers.node())?;
    text.push_str(" [style=filled];\n")?;
    for name in blockers.names() {
        push_arrow(text, name, blockers.node())?;
        text.push_str(" [style=dashed, constraint=false];\n")?;
    }
    Ok(())
}

/// Adds an arrow, without the end of its line.
fn push_arrow(text: &mut String, from: &NodeId, to: &NodeId) -> Result<(), AllocError> {
    text.push_str("  ")?;
    push_node(text, from)?;
    text.push_str(" -> ")?;
    push_node(text, to)
}

/// Adds a node. Its name needs no escapes, since it has only letters and digits.
fn push_node(text: &mut String, name: &NodeId) -> Result<(), AllocError> {
    text.push_str("\"")?;
    push_name(text, name)?;
    text.push_str("\"")?;
    Ok(())
}
