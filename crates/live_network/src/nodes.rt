//! The lines of a node at a slot.

ghost use Rattle.std.specs.Prelude.{◌≡◌, ◌++◌, OnOk, string_bytes};
ghost use Rattle.std.specs.List.{flat_map};
ghost use Rattle.live_network.specs.Shown.{Shows, front_of, known_lines, state_line, value_behind_space, value_lines, values_line};
ghost use Rattle.line_script.specs.Script.{Bytes};

use crate::Seen;
use crate::state::push_state_words;
use crate::table::{push_silent, push_table};
use line_script::{push_name, push_value};
use node_core::Node;
use node_store::Shelf;
use node_table::Rows;
use scp_types::{NodeId, SharedValues, Value, Votes};
use std::alloc::{AllocError, Global};
use std::fmt::Write;

/// What the lines of a node begin with, up to its name: the number of the line that is answered, that of the network,
/// and the slot.
#[derive(Clone, Copy)]
pub(crate) struct Place {
    pub line: u64,
    pub network: u32,
    pub slot: u64,
}

/// Adds the lines of a node at a slot. They say how far it is, and which values it votes for, accepts and confirms.
/// Then come the rows of its table, and the names of its slices that have no row.
pub fn push_node<S: Shelf>(
    alloc: Global,
    text: &mut String,
    line: u64,
    network: u32,
    slot: u64,
    seen: &Seen<'_, S>,
) -> Result<(), AllocError>
    requires { seen.now.rows ≡ seen.now.node.now.node.table }
    ensures { OnOk result ((lines : Bytes) × Shows line network slot seen.now.node.now.node lines × (string_bytes text.new ≡ string_bytes text.old ++ lines)) }
{
    let place = Place {
        line,
        network,
        slot,
    };
    push_known(text, place, seen.node, &seen.rows)?;
    push_silent(alloc, text, place, seen.node, &seen.rows)?;
    Ok(())
}

/// Adds the lines of how far a node is, of its values and of its rows.
fn push_known<S: Shelf>(
    text: &mut String,
    place: Place,
    node: &Node,
    rows: &Rows<'_, S>,
) -> Result<(), AllocError>
    requires { rows.now ≡ node.now.node.table }
    ensures { OnOk result (string_bytes text.new ≡ string_bytes text.old ++ known_lines (front_of place.line place.network place.slot node.now.node.name) node.now.node) }
{
    push_state(text, place, node)?;
    push_nominated(text, place, node)?;
    push_table(text, place, node, rows)
}

/// Adds what each line of a node begins with.
pub(crate) fn push_front(text: &mut String, place: Place, node: &NodeId) -> Result<(), AllocError>
    ensures { OnOk result (string_bytes text.new ≡ string_bytes text.old ++ front_of place.line place.network place.slot node.now) }
{
    let Place {
        line,
        network,
        slot,
    } = place;
    write!(text, "{line} {network} {slot} ")?;
    push_name(text, node)?;
    text.push(' ')
}

/// Adds the line of how far a node is.
fn push_state(text: &mut String, place: Place, node: &Node) -> Result<(), AllocError>
    ensures { OnOk result (string_bytes text.new ≡ string_bytes text.old ++ state_line (front_of place.line place.network place.slot node.now.node.name) node.now.node) }
{
    push_front(text, place, node.name())?;
    push_state_words(text, node)?;
    text.push('\n')
}

/// Adds the lines of the values that a node votes for, accepts and confirms.
fn push_nominated(text: &mut String, place: Place, node: &Node) -> Result<(), AllocError>
    ensures { OnOk result (string_bytes text.new ≡ string_bytes text.old ++ value_lines (front_of place.line place.network place.slot node.now.node.name) node.now.node.votes) }
{
    push_votes(text, place, node.name(), node.votes())
}

/// Adds the lines of the values that are voted for, accepted and confirmed.
fn push_votes(
    text: &mut String,
    place: Place,
    node: &NodeId,
    votes: &Votes,
) -> Result<(), AllocError>
    ensures { OnOk result (string_bytes text.new ≡ string_bytes text.old ++ value_lines (front_of place.line place.network place.slot node.now) votes.now) }
{
    push_values(text, place, node, "voted", &votes.voted)?;
    push_values(text, place, node, "accepted", &votes.accepts)?;
    push_values(text, place, node, "confirmed", &votes.confirms)?;
    Ok(())
}

/// Adds a line of values behind a word.
#[tactic(auto, unfolding(crate::specs::Shown::values_line))]
fn push_values(
    text: &mut String,
    place: Place,
    node: &NodeId,
    word: &str,
    values: &SharedValues,
) -> Result<(), AllocError>
    ensures { OnOk result (string_bytes text.new ≡ string_bytes text.old ++ values_line (front_of place.line place.network place.slot node.now) word.now values.now) }
{
    push_front(text, place, node)?;
    text.push_str(word)?;
    push_each(text, values.as_slice())?;
    text.push('\n')
}

/// Adds values, each behind a space.
fn push_each(text: &mut String, values: &[Value]) -> Result<(), AllocError>
    ensures { OnOk result (string_bytes text.new ≡ string_bytes text.old ++ flat_map value_behind_space values.now) }
{
    for value in values {
        text.push(' ')?;
        push_value(text, value)?;
    }
    Ok(())
}
