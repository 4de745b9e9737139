//! The table of a node in words: its rows, and who has none.

ghost use Rattle.std.specs.Prelude.{◌≡◌, ◌++◌, IfOk, List, filter, OnOk, ℕ, option_map, string_bytes};
ghost use Rattle.std.specs.List.{flat_map};
ghost use Rattle.node_table.specs.Senders.{senders};
ghost use Rattle.live_network.specs.Shown.{AreSilent, front_of, has_row, is_silent, row_line, row_lines, rows_of_sender, silent_line, spaced_name, text_of_shown_row};

use crate::nodes::{Place, push_front};
use line_script::{push_name, push_slices, push_statement};
use node_core::Node;
use node_store::Shelf;
use node_table::Rows;
use scp_slices::SliceFamily;
use scp_types::{Envelope, Kind, NodeId};
use std::alloc::{AllocError, Global};

/// Adds a line for each row of a node's table.
pub(crate) fn push_table<S: Shelf>(
    text: &mut String,
    place: Place,
    node: &Node,
    rows: &Rows<'_, S>,
) -> Result<(), AllocError>
    requires { rows.now ≡ node.now.node.table }
    ensures { OnOk result (string_bytes text.new ≡ string_bytes text.old ++ row_lines (front_of place.line place.network place.slot node.now.node.name) node.now.node.table) }
{
    push_rows(text, place, node.name(), rows)
}

/// Adds a line for each row, ascending by sender, the nomination row first.
fn push_rows<S: Shelf>(
    text: &mut String,
    place: Place,
    node: &NodeId,
    rows: &Rows<'_, S>,
) -> Result<(), AllocError>
    ensures { OnOk result (string_bytes text.new ≡ string_bytes text.old ++ row_lines (front_of place.line place.network place.slot node.now) rows.now) }
{
    for sender in rows.senders() {
        push_rows_of(text, place, node, rows, sender)?;
    }
    Ok(())
}

/// Adds a line for each row of a sender, that of nomination first.
fn push_rows_of<S: Shelf>(
    text: &mut String,
    place: Place,
    node: &NodeId,
    rows: &Rows<'_, S>,
    sender: &NodeId,
) -> Result<(), AllocError>
    ensures { OnOk result (string_bytes text.new ≡ string_bytes text.old ++ rows_of_sender (front_of place.line place.network place.slot node.now) rows.now sender.now) }
{
    push_row(text, place, node, rows.row(sender, Kind::Nomination))?;
    push_row(text, place, node, rows.row(sender, Kind::Ballot))
}

/// Adds the line of a row, if there is one.
fn push_row(
    text: &mut String,
    place: Place,
    node: &NodeId,
    row: Option<&Envelope>,
) -> Result<(), AllocError>
    ensures { OnOk result (string_bytes text.new ≡ string_bytes text.old ++ row_line (front_of place.line place.network place.slot node.now) (option_map (λ e. e.now) row.entry)) }
{
    match row {
        None => Ok(()),
        Some(row) => {
            push_front(text, place, node)?;
            push_row_words(text, row)?;
            text.push('\n')
        }
    }
}

/// Adds a row in words: its sender, its slices and its statement.
fn push_row_words(text: &mut String, row: &Envelope) -> Result<(), AllocError>
    ensures { OnOk result (string_bytes text.new ≡ string_bytes text.old ++ text_of_shown_row row.now) }
{
    text.push_str("row ")?;
    push_name(text, row.sender())?;
    text.push(' ')?;
    push_slices(text, row.slices())?;
    text.push(' ')?;
    push_statement(text, row.body())
}

/// Adds the line of the names of a node's slices that are silent.
pub(crate) fn push_silent<S: Shelf>(
    alloc: Global,
    text: &mut String,
    place: Place,
    node: &Node,
    rows: &Rows<'_, S>,
) -> Result<(), AllocError>
    requires { rows.now ≡ node.now.node.table }
    ensures { OnOk result ((us : List ℕ) × AreSilent node.now.node us × (string_bytes text.new ≡ string_bytes text.old ++ silent_line (front_of place.line place.network place.slot node.now.node.name) us)) }
{
    let silent = silent_in(alloc, node, rows)?;
    push_names(text, place, node.name(), &silent)
}

/// The names of a node's slices other than its own, ascending, that have no row.
fn silent_in<S: Shelf>(
    alloc: Global,
    node: &Node,
    rows: &Rows<'_, S>,
) -> Result<Vec<NodeId>, AllocError>
    requires { rows.now ≡ node.now.node.table }
    ensures { IfOk result (λ v. AreSilent node.now.node v.items) }
{
    let names = node.slices().names(alloc)?;
    let silent = kept_silent(alloc, &names, node, rows)?;
    Ok(silent)
}

/// Those of the names that are another's than the node's, and that have no row.
fn kept_silent<S: Shelf>(
    alloc: Global,
    names: &[NodeId],
    node: &Node,
    rows: &Rows<'_, S>,
) -> Result<Vec<NodeId>, AllocError>
    requires { rows.now ≡ node.now.node.table }
    ensures { IfOk result (λ v. v.items ≡ filter (is_silent node.now.node) names.now) }
{
    names
        .iter()
        .copied()
        .filter(|name| is_silent(node, rows, name))
        .collect(alloc)
}

/// Whether a name is another's than the node's, and has no row.
fn is_silent<S: Shelf>(node: &Node, rows: &Rows<'_, S>, name: &NodeId) -> bool
    requires { rows.now ≡ node.now.node.table }
    ensures { result ≡ is_silent node.now.node name.now }
{
    !(*name == *node.name() || has_row(rows, name))
}

/// Whether a sender has a row, of either kind.
fn has_row<S: Shelf>(rows: &Rows<'_, S>, sender: &NodeId) -> bool
    ensures { result ≡ has_row rows.now sender.now }
{
    rows.row(sender, Kind::Nomination).is_some() || rows.row(sender, Kind::Ballot).is_some()
}

/// Adds the line of names that are silent.
fn push_names(
    text: &mut String,
    place: Place,
    node: &NodeId,
    names: &[NodeId],
) -> Result<(), AllocError>
    ensures { OnOk result (string_bytes text.new ≡ string_bytes text.old ++ silent_line (front_of place.line place.network place.slot node.now) names.now) }
{
    push_front(text, place, node)?;
    text.push_str("silent")?;
    push_each_name(text, names)?;
    text.push('\n')
}

/// Adds names, each behind a space.
fn push_each_name(text: &mut String, names: &[NodeId]) -> Result<(), AllocError>
    ensures { OnOk result (string_bytes text.new ≡ string_bytes text.old ++ flat_map spaced_name names.now) }
{
    for name in names {
        text.push(' ')?;
        push_name(text, name)?;
    }
    Ok(())
}
