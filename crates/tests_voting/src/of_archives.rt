//! That an archive has marks for what is held if there is memory, and when others are due to be let go: no clause says
//! so.

use crate::fixtures::vote_of;
use node_store::{Archive, BoxShelf};
use std::alloc::Global;
use std::test::Fail;

/// Whether others are due to be let go behind an envelope that is filed, if there are two holders and if there are
/// three; and once they were let go, if there are two.
fn due(alloc: Global, archive: &mut Archive<BoxShelf>) -> Result<(bool, bool, bool), Fail> {
    let vote = vote_of(alloc, 2, 1, &[2])?;
    let filed = archive.put(vote)?;
    let two = archive.is_due(2);
    let three = archive.is_due(3);
    let mut held = archive.none_held(alloc)?;
    held.hold(&filed);
    archive.let_go(&held);
    Ok((two, three, archive.is_due(2)))
}

#[test]
fn lets_go_once_enough_were_filed(rt: HostRuntime) -> Result<(), Fail> {
    let alloc = rt.alloc();
    let mut archive = Archive::new(alloc, BoxShelf::new(alloc));
    let due = due(alloc, &mut archive);
    drop(archive);
    assert!(rt; due? == (true, false, false));
    Ok(())
}
