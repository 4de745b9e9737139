//! What no clause says of a listener. If there is memory, the ballots and the values that were listed are kept when
//! rows come; it would be right too to list them anew. What is known of the reach follows rows that change it, if the
//! reach was asked for since the last such row; it would be right too to forget it.

ghost use Rattle.std.specs.Prelude.{◌≡◌, [], IfOk};
ghost use Rattle.node_store.specs.Archives.{AreFiled};

use crate::fixtures::{envelope_from, name, slices_of, vote_of};
use node_store::{Archive, BoxShelf};
use node_table::Rows;
use node_view::{Configured, Listener};
use scp_types::{Envelope, Statement, Value, Values};
use std::alloc::Global;
use std::test::Fail;

/// Node 1, which has taken nothing.
fn listener(alloc: Global) -> Result<Listener, Fail>
    ensures { IfOk result (λ l. l.table ≡ []) }
{
    let configured = Configured {
        name: name(1),
        slot: 1,
        slices: slices_of(alloc, 2, &[1, 2])?,
    };
    Ok(Listener::new(alloc, configured))
}

/// An envelope reaches it.
fn hear(
    alloc: Global,
    archive: &mut Archive<BoxShelf>,
    listener: &mut Listener,
    envelope: Envelope,
) -> Result<(), Fail>
    requires { AreFiled archive.old listener.old.table }
    ensures { AreFiled archive.new listener.new.table }
{
    let filed = archive.put(envelope)?;
    listener.offer(alloc, archive, filed)?;
    Ok(())
}

/// A vote reaches it: its sender, the counter of the ballot, and the nodes that the sender's slices need.
fn hear_vote(
    alloc: Global,
    archive: &mut Archive<BoxShelf>,
    listener: &mut Listener,
    vote: (u64, u32, &[u64]),
) -> Result<(), Fail>
    requires { AreFiled archive.old listener.old.table }
    ensures { AreFiled archive.new listener.new.table }
{
    let (sender, counter, needed) = vote;
    let envelope = vote_of(alloc, sender, counter, needed)?;
    hear(alloc, archive, listener, envelope)
}

/// Node 2's vote for one value.
fn nomination(alloc: Global) -> Result<Envelope, Fail> {
    let mut values = Values::empty(alloc);
    values.push(Value::of(alloc, b"x")?)?;
    let body = Statement::Nominate {
        voted: values,
        accepted: Values::empty(alloc),
    };
    let slices = slices_of(alloc, 2, &[1, 2])?;
    envelope_from(2, slices, body)
}

/// Has the listener be asked for its reach, and list what its rows speak of, so that it knows them.
fn ask(alloc: Global, archive: &Archive<BoxShelf>, listener: &mut Listener) -> Result<(), Fail>
    requires { AreFiled archive.now listener.old.table }
    ensures { listener.new ≡ listener.old }
{
    let mut reach = listener.take_reach(alloc, archive)?;
    let own = listener.configuration().own();
    let rows = Rows::of(listener.table(), archive);
    reach.list_ballots(alloc, own, &rows)?;
    reach.list_values(alloc, own, &rows)?;
    listener.keep_reach(reach);
    Ok(())
}

/// Whether ballots and values are listed.
fn is_listed(
    alloc: Global,
    archive: &Archive<BoxShelf>,
    listener: &mut Listener,
) -> Result<bool, Fail>
    requires { AreFiled archive.now listener.old.table }
{
    let reach = listener.take_reach(alloc, archive)?;
    Ok(reach.ballots.is_some() && reach.values.is_some())
}

/// Whether they are listed after a first row, a newer one, a nomination, a row with other slices, and a stranger's.
fn is_listed_throughout(
    alloc: Global,
    archive: &mut Archive<BoxShelf>,
    listener: &mut Listener,
) -> Result<bool, Fail>
    requires { AreFiled archive.old listener.old.table }
{
    ask(alloc, archive, listener)?;
    hear_vote(alloc, archive, listener, (2, 1, &[1, 2]))?;
    hear_vote(alloc, archive, listener, (2, 2, &[1, 2]))?;
    let nominated = nomination(alloc)?;
    hear(alloc, archive, listener, nominated)?;
    hear_vote(alloc, archive, listener, (2, 3, &[2]))?;
    hear_vote(alloc, archive, listener, (9, 1, &[1, 2]))?;
    is_listed(alloc, archive, listener)
}

// Node 2 names nodes that are reached anyhow.
#[test]
fn what_is_listed_follows_rows(rt: HostRuntime) -> Result<(), Fail> {
    let alloc = rt.alloc();
    let mut listener = listener(alloc)?;
    let mut archive = Archive::new(alloc, BoxShelf::new(alloc));
    let listed = is_listed_throughout(alloc, &mut archive, &mut listener);
    drop(listener);
    drop(archive);
    assert!(rt; listed?);
    Ok(())
}

/// Whether nodes 3 and 4 are known to be strangers.
fn strangers(listener: &Listener) -> [bool; 2] {
    [
        listener.is_stranger(&name(3)),
        listener.is_stranger(&name(4)),
    ]
}

/// Whether nodes 3 and 4 are known to be strangers after node 2 named node 3, then node 4 in its place, and then node 5
/// before anybody asked.
fn strangers_throughout(
    alloc: Global,
    archive: &mut Archive<BoxShelf>,
    listener: &mut Listener,
) -> Result<[[bool; 2]; 3], Fail>
    requires { AreFiled archive.old listener.old.table }
{
    ask(alloc, archive, listener)?;
    hear_vote(alloc, archive, listener, (2, 1, &[3]))?;
    let first = strangers(listener);
    ask(alloc, archive, listener)?;
    hear_vote(alloc, archive, listener, (2, 2, &[4]))?;
    let second = strangers(listener);
    hear_vote(alloc, archive, listener, (2, 3, &[5]))?;
    Ok([first, second, strangers(listener)])
}

// In the end nothing is known of the reach, and so of nobody that it is a stranger.
#[test]
fn what_is_known_follows_a_reach_that_changes(rt: HostRuntime) -> Result<(), Fail> {
    let alloc = rt.alloc();
    let mut listener = listener(alloc)?;
    let mut archive = Archive::new(alloc, BoxShelf::new(alloc));
    let found = strangers_throughout(alloc, &mut archive, &mut listener);
    drop(listener);
    drop(archive);
    assert!(rt; found? == [[false, true], [true, false], [false, false]]);
    Ok(())
}
