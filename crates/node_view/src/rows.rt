//! What stands at places in a table, and the values in its nominations.

ghost use Rattle.std.specs.Prelude.{◌≡◌, IfOk, OnOk, flat_map, map, option_map, option_to_list};
ghost use Rattle.scp_spec.specs.Candidates.{all_with, values_by};
ghost use Rattle.node_view.specs.Watching.{row_where, rows_by, rows_of_others, values_in};

use crate::reached::ReachedRows;
use node_store::Places;
use node_table::{RowPlace, Rows};
use scp_types::{Envelope, Kind, NodeId, Statement, Value, Values};
use std::alloc::{AllocError, Global};

/// The rows at these places in a table, in their order; none for no place. An error says that it is out of memory.
pub(crate) fn rows_where<'a, S: Places>(
    alloc: Global,
    places: &[RowPlace],
    table: &'a Rows<'a, S>,
) -> Result<Vec<Option<&'a Envelope>>, AllocError>
    ensures { IfOk result (λ v. map (λ o. option_map (λ r. r.now) o) v.items ≡ map (row_where table.now) places.now) }
{
    let mut rows = Vec::with_capacity(alloc, places.len())?;
    for place in places {
        rows.push(row_where(table, *place))?;
    }
    Ok(rows)
}

/// The row at a place in a table; none for no place.
pub(crate) fn row_where<'a, S: Places>(
    table: &'a Rows<'a, S>,
    place: RowPlace,
) -> Option<&'a Envelope>
    ensures { option_map (λ r. r.now) result ≡ row_where table.now place }
{
    match place.get() {
        None => None,
        Some(place) => table.at(place),
    }
}

/// The values in the rows of other nodes than this one, ascending. An error says that it is out of memory.
pub(crate) fn values_of_others<S: Places>(
    alloc: Global,
    own: &NodeId,
    rows: &ReachedRows<'_, S>,
) -> Result<Values, AllocError>
    ensures { IfOk result (λ v. v ≡ values_in (rows_of_others own.now rows.now.kind rows.now.table rows.now.nodes)) }
{
    let mut values = Values::empty(alloc);
    let mut place = rows.nodes().len();
    while place > 0 {
        place -= 1;
        insert_said(&mut values, rows.said_by_another(own, place))?;
    }
    Ok(values)
}

/// The values in the rows of a kind of these nodes, ascending. An error says that it is out of memory.
pub(crate) fn values_of<S: Places>(
    alloc: Global,
    nodes: &[NodeId],
    table: &Rows<'_, S>,
    kind: Kind,
) -> Result<Values, AllocError>
    ensures { IfOk result (λ v. v ≡ values_in (rows_by kind table.now nodes.now)) }
{
    let mut values = Values::empty(alloc);
    let mut left = nodes;
    while let [rest @ .., node] = left {
        insert_said(&mut values, said_in(table.row(node, kind)))?;
        left = rest;
    }
    Ok(values)
}

/// What the row says, if there is one.
pub(crate) fn said_in<'a>(row: Option<&'a Envelope>) -> Option<&'a Statement>
    ensures { option_map (λ s. s.now) result ≡ option_map (λ e. e.body) (option_map (λ r. r.now) row.entry) }
{
    match row {
        None => None,
        Some(row) => Some(row.body()),
    }
}

#[tactic(auto, using(crate::proofs::Gathering::one_said))]
fn insert_said(values: &mut Values, said: Option<&Statement>) -> Result<(), AllocError>
    ensures { OnOk result (values.new ≡ all_with (flat_map values_by (option_to_list (option_map (λ s. s.now) said.entry))) values.old) }
{
    match said {
        None => Ok(()),
        Some(statement) => insert_values(values, statement),
    }
}

/// Adds the values that a statement votes for or accepts as nominated, if they are not there yet. An error says that it
/// is out of memory.
#[tactic(auto, using(crate::proofs::Gathering::all_with_append))]
pub(crate) fn insert_values(values: &mut Values, statement: &Statement) -> Result<(), AllocError>
    ensures { OnOk result (values.new ≡ all_with (values_by statement.now) values.old) }
{
    match statement {
        Statement::Nominate { voted, accepted } => {
            insert_all(values, accepted.as_slice())?;
            insert_all(values, voted.as_slice())
        }
        Statement::Prepare { .. } => Ok(()),
        Statement::Commit { .. } => Ok(()),
        Statement::Externalize { .. } => Ok(()),
    }
}

#[tactic(auto, using(crate::proofs::Gathering::all_with_append))]
fn insert_all(values: &mut Values, more: &[Value]) -> Result<(), AllocError>
    ensures { OnOk result (values.new ≡ all_with more.now values.old) }
{
    let mut left = more;
    while let [rest @ .., value] = left {
        values.insert(value.try_copy()?)?;
        left = rest;
    }
    Ok(())
}
