//! What no clause says of a region: that a first row that names others is found to widen it, if there is memory. It
//! would be right too to find the reach anew.

ghost use Rattle.std.specs.Arc.{arc_slice_items};
ghost use Rattle.std.specs.Prelude.{IfOk};
ghost use Rattle.scp_spec.specs.Sets.{IsAscending};

use crate::fixtures::{name, slices_of, vote_of};
use node_store::{Archive, BoxShelf};
use node_table::{Rows, Table};
use node_view::{Change, Extent, Own, Region};
use scp_types::{Envelope, Nested};
use std::alloc::Global;
use std::test::Fail;

/// The region of node 1 by a table.
fn region_of(alloc: Global, slices: &Nested, table: &Rows<'_, BoxShelf>) -> Result<Region, Fail>
    ensures { IfOk result (λ r. IsAscending (arc_slice_items r.nodes)) }
{
    let region = Region::of(alloc, &name(1), slices, table)?;
    Ok(region)
}

/// Whether a statement of another widens the region of node 1, which has these slices.
fn widens(
    alloc: Global,
    table: &Rows<'_, BoxShelf>,
    slices: &Nested,
    row: &Envelope,
) -> Result<bool, Fail> {
    let region = region_of(alloc, slices, table)?;
    let name = name(1);
    let own = Own {
        name: &name,
        slices,
    };
    let change = region.change_by(alloc, own, table, row)?;
    Ok(is_wider(&change))
}

/// Whether a change says that the reach is wider.
fn is_wider(change: &Change) -> bool {
    match change {
        Change::Reach(extent) => *extent == Extent::Wider,
        Change::Sets(_) => false,
    }
}

/// Whether a statement of node 2, which is needed and names node 3, widens the region of node 1.
fn widens_by_another_name(alloc: Global, table: &Rows<'_, BoxShelf>) -> Result<bool, Fail> {
    let slices = slices_of(alloc, 2, &[1, 2])?;
    let row = vote_of(alloc, 2, 1, &[3])?;
    widens(alloc, table, &slices, &row)
}

#[test]
fn a_first_row_that_names_another_node_widens(rt: HostRuntime) -> Result<(), Fail> {
    let alloc = rt.alloc();
    let archive = Archive::new(alloc, BoxShelf::new(alloc));
    let table = Table::new(alloc);
    let widens = widens_by_another_name(alloc, &Rows::of(&table, &archive));
    drop(table);
    drop(archive);
    assert!(rt; widens?);
    Ok(())
}
