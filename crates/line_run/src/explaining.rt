//! Both sides of a difference between two scripts.

use crate::comparing::{Side, Sides};
use host_closure::{Announcements, ClosureList, closure};
use host_compare::kept_entry;
use host_journal::{Journal, LentEvent};
use line_script::{push_name, push_slices};
use node_store::BoxShelf;
use scp_types::{Kind, NodeId, Subject};
use std::alloc::{AllocError, Global};

/// Adds a line for each side: how it hosts a node of a network.
pub fn push_nodes(
    text: &mut String,
    sides: &Sides<'_>,
    net: u32,
    node: &NodeId,
) -> Result<(), AllocError> {
    push_node(text, sides.one, net, node)?;
    push_node(text, sides.other, net, node)
}

/// Adds `FILE: node NET NAME SLICES`, or `FILE: not hosted`.
fn push_node(text: &mut String, side: Side<'_>, net: u32, node: &NodeId) -> Result<(), AllocError> {
    let file = side.file;
    let Some(journal) = side.script.run().world().journal(net) else {
        return writeln!(text, "{file}: not hosted");
    };
    match journal.slices(node) {
        None => writeln!(text, "{file}: not hosted"),
        Some(slices) => {
            write!(text, "{file}: node {net} ")?;
            push_name(text, node)?;
            text.push(' ')?;
            push_slices(text, slices)?;
            Ok(text.push('\n')?)
        }
    }
}

/// Adds a line for each side: which line of its script is the step at a place among those that concern the subject. An
/// error says that it is out of memory.
pub fn push_steps(
    alloc: Global,
    text: &mut String,
    sides: &Sides<'_>,
    subject: &Subject,
    place: usize,
) -> Result<(), AllocError> {
    let Some(journal) = sides.one.script.run().world().journal(subject.net) else {
        return Ok(());
    };
    let members = closure(alloc, journal, subject.slot, &subject.node)?;
    push_step(text, sides.one, subject, &members, place)?;
    push_step(text, sides.other, subject, &members, place)
}

/// Adds `FILE:LINE: ..` with the line of the step, or `FILE: end` if there are fewer.
fn push_step(
    text: &mut String,
    side: Side<'_>,
    subject: &Subject,
    members: &ClosureList,
    place: usize,
) -> Result<(), AllocError> {
    let file = side.file;
    let Some(journal) = side.script.run().world().journal(subject.net) else {
        return writeln!(text, "{file}: end");
    };
    let Some(entry) = kept_entry(journal, members, subject.slot, place) else {
        return writeln!(text, "{file}: end");
    };
    let Some(line) = side.script.line(subject.net, entry) else {
        return writeln!(text, "{file}: end");
    };
    let number = line.number;
    write!(text, "{file}:{number}: ")?;
    push_bytes(text, line.bytes)?;
    if line.bytes.starts_with(b"settle ") {
        push_hearing(text, subject.net, journal, entry)?;
    }
    Ok(text.push('\n')?)
}

/// Adds the characters of a line; a script is ASCII.
fn push_bytes(text: &mut String, bytes: &[u8]) -> Result<(), AllocError> {
    for byte in bytes {
        text.push(char::from(*byte))?;
    }
    Ok(())
}

/// Adds which of the hearings of a `settle` line the entry is, as ` (hear N I NAME FROM KIND K)`.
fn push_hearing(
    text: &mut String,
    net: u32,
    journal: &Journal<BoxShelf>,
    entry: usize,
) -> Result<(), AllocError> {
    match &journal.event(entry) {
        Some(
            LentEvent::Hear {
                slot,
                node,
                from,
                kind,
                number,
            },
        ) => {
            write!(text, " (hear {net} {slot} ")?;
            push_name(text, node)?;
            text.push(' ')?;
            push_name(text, from)?;
            let kind = word_of_kind(*kind);
            write!(text, " {kind} {number})")
        }
        _ => Ok(()),
    }
}

fn word_of_kind(kind: Kind) -> &'static str {
    match kind {
        Kind::Nomination => "nom",
        Kind::Ballot => "bal",
    }
}
