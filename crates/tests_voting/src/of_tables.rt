//! That a table takes a row and is copied if there is memory: no clause says so. All else of an offer and a copy
//! follows from their clauses.

ghost use Rattle.node_store.specs.Archives.{AreFiled};

use crate::fixtures::vote_of;
use node_store::{Archive, BoxShelf};
use node_table::{Offer, Table};
use std::alloc::Global;
use std::test::Fail;

/// What a vote becomes that is offered, and how many rows a copy has then.
fn offered(
    alloc: Global,
    archive: &mut Archive<BoxShelf>,
    table: &mut Table,
) -> Result<(Offer, usize), Fail>
    requires { AreFiled archive.old table.old }
{
    let vote = vote_of(alloc, 2, 1, &[2])?;
    let filed = archive.put(vote)?;
    let offer = table.offer(archive, filed);
    let copy = table.try_copy(alloc, archive)?;
    Ok((offer, copy.len()))
}

#[test]
fn takes_a_row_where_there_is_memory(rt: HostRuntime) -> Result<(), Fail> {
    let alloc = rt.alloc();
    let mut archive = Archive::new(alloc, BoxShelf::new(alloc));
    let mut table = Table::new(alloc);
    let offered = offered(alloc, &mut archive, &mut table);
    drop(table);
    drop(archive);
    assert!(rt; offered? == (Offer::Replaced, 1));
    Ok(())
}
