//! The reach of a node in one table.
//!
//! An error of a function here says that it is out of memory.

ghost use Rattle.std.specs.Prelude.{ℕ, IfOk, OnOk, option_map};
ghost use Rattle.scp_types.specs.Trees.{Slices};
ghost use Rattle.scp_spec.specs.Reach.{IsReach};
ghost use Rattle.scp_spec.specs.Sets.{IsAscending};
ghost use Rattle.node_reach.specs.Searching.{AreKnown};
ghost use Rattle.node_reach.specs.Sweeps.{AreNamesNoted, names_in_rows_of, names_in_row, unknown};
ghost use Rattle.node_reach.specs.Widening.{AreLedTo, IsNarrow};

use crate::search::{KnownNodes, Search, join};
use crate::sweep::Sweep;
use node_store::Places;
use node_table::Rows;
use scp_slices::SliceFamily;
use scp_types::{Envelope, Nested, NodeId};
use std::alloc::{AllocError, Global};

/// All nodes that a node reaches, ascending, none twice: the node itself, the names of its configured
/// slices, and the names in any row, of either kind, whose sender is reached (this host's profile).
///
/// The answer contains all names of its members' slices, so a quorum test may be cut to it. Rows of
/// nodes that are not reached are not looked at. The table stays as it was.
pub fn reach<S: Places>(
    alloc: Global,
    table: &Rows<'_, S>,
    node: &NodeId,
    slices: &Nested,
) -> Result<Vec<NodeId>, AllocError>
    ensures { IfOk result (λ v. IsReach node.now slices.now table.now v.items) }
{
    let known = KnownNodes {
        nodes: &[],
        ballots: &[],
        nominations: &[],
        sender: node,
    };
    reach_among(alloc, table, node, slices, known)
}

/// All nodes that a node reaches, as [`reach`] finds them, of whom most may be among known nodes.
///
/// Rows of known nodes are read where they stand, and looked up only of others. What is found of the known nodes is
/// marked at their places, and only other nodes' names are kept in order.
pub fn reach_among<S: Places>(
    alloc: Global,
    table: &Rows<'_, S>,
    node: &NodeId,
    slices: &Nested,
    known: KnownNodes<'_>,
) -> Result<Vec<NodeId>, AllocError>
    requires { AreKnown table.now known }
    ensures { IfOk result (λ v. IsReach node.now slices.now table.now v.items) }
{
    table.are_single();
    let mut search = Search::new(alloc, known)?;
    search.note(node)?;
    search.note_all(&slices.names(alloc)?)?;
    while let Some(rows) = search.take(table) {
        search.note_rows(alloc, &rows)?;
    }
    let nodes = search.nodes(alloc)?;
    Ok(nodes)
}

/// All nodes that a node reaches, as [`reach`] finds them, if it reaches `nodes`, ascending, and of these only the
/// sender has rows that name others.
///
/// Only rows of the sender and of those who are reached besides are looked at; beyond that it costs one pass over a
/// list of all.
pub fn wider_reach<S: Places>(
    alloc: Global,
    table: &Rows<'_, S>,
    nodes: &[NodeId],
    sender: &NodeId,
) -> Result<Vec<NodeId>, AllocError>
    requires { IsAscending nodes.now }
    ensures { IfOk result (λ v. (own : ℕ) (configured : Slices) → IsNarrow own configured table.now sender.now nodes.now → IsReach own configured table.now v.items) }
{
    table.are_single();
    let others = led_to(alloc, table, nodes, sender)?;
    let all = join(Vec::from_slice(alloc, nodes)?, &others)?;
    Ok(all)
}

/// The nodes to which the sender's rows lead, ascending, but for the known ones.
fn led_to<S: Places>(
    alloc: Global,
    table: &Rows<'_, S>,
    known: &[NodeId],
    sender: &NodeId,
) -> Result<Vec<NodeId>, AllocError>
    requires { IsAscending known.now }
    ensures { IfOk result (λ v. AreLedTo table.now known.now sender.now v.items) }
{
    let mut sweep = Sweep::new(alloc);
    note_rows_of(alloc, table, sender, known, &mut sweep)?;
    while let Some(next) = sweep.take() {
        note_rows_of(alloc, table, &next, known, &mut sweep)?;
    }
    let nodes = sweep.nodes(alloc)?;
    Ok(nodes)
}

/// Notes the names in the rows of a node, of either kind, that are not known already.
fn note_rows_of<S: Places>(
    alloc: Global,
    table: &Rows<'_, S>,
    node: &NodeId,
    known: &[NodeId],
    sweep: &mut Sweep,
) -> Result<(), AllocError>
    requires found { IsAscending sweep.old.found }
    requires known { IsAscending known.now }
    ensures { OnOk result (AreNamesNoted sweep.old sweep.new (unknown known.now (names_in_rows_of table.now node.now))) }
{
    let rows = table.rows_of(node);
    note_row(alloc, rows.nomination, known, sweep)?;
    note_row(alloc, rows.ballot, known, sweep)
}

/// Notes the names in a row, if there is one, that are not known already.
fn note_row(
    alloc: Global,
    row: Option<&Envelope>,
    known: &[NodeId],
    sweep: &mut Sweep,
) -> Result<(), AllocError>
    requires found { IsAscending sweep.old.found }
    requires known { IsAscending known.now }
    ensures { OnOk result (AreNamesNoted sweep.old sweep.new (unknown known.now (names_in_row (option_map (λ r. r.now) row.entry)))) }
{
    match row {
        None => Ok(()),
        Some(row) => sweep.note_all(&row.slices().names(alloc)?, known),
    }
}
