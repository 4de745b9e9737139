//! That machines and journals answer if there is memory: no clause says so. What they answer is said by contracts.

use crate::fixtures::{name, one_node, slices_of};
use host_journal::{Budgets, Journal, NetConfig, Unkept};
use node_store::BoxShelf;
use scp_codec::encode;
use scp_types::{Bytes, Envelope, Event, Statement, Value, Values};
use std::alloc::Global;
use std::test::Fail;

/// A network of node 1, which needs node 2.
fn config(alloc: Global) -> Option<NetConfig> {
    let nodes = one_node(alloc, 1, 2)?;
    NetConfig::new(alloc, 7, nodes, Budgets::new(100, 1000, 1)?).ok()
}

/// Node 2's vote for a value at slot 5.
fn vote(alloc: Global) -> Option<Envelope> {
    let slices = slices_of(alloc, 2)?;
    let mut voted = Values::empty(alloc);
    voted.push(Value::of(alloc, b"a").ok()?).ok()?;
    let body = Statement::Nominate {
        voted,
        accepted: Values::empty(alloc),
    };
    Envelope::new(name(2), 5, slices, body)
}

fn vote_bytes(alloc: Global) -> Option<Bytes> {
    let vote = vote(alloc)?;
    let encoded = encode(alloc, &vote);
    drop(vote);
    Some(Bytes::new(encoded.ok()?))
}

/// Whether an event is a delivery of these bytes to node 1.
fn delivers(event: &Event, wanted: &Bytes) -> bool {
    match event {
        Event::Deliver { node, bytes } => {
            node.is_same(&name(1)) && bytes.as_slice() == wanted.as_slice()
        }
        _ => false,
    }
}

/// Whether a delivery of these bytes makes the second entry.
fn enters(alloc: Global, journal: &mut Journal<BoxShelf>, bytes: &Bytes) -> Option<bool> {
    let event = Event::Deliver {
        node: name(1),
        bytes: bytes.try_copy(alloc).ok()?,
    };
    let applied = journal.apply(event).is_ok();
    Some(applied && journal.len() == 2)
}

/// Whether the second entry is read back as a delivery of these bytes, at which nothing was given out.
fn reads_back(alloc: Global, journal: &Journal<BoxShelf>, bytes: &Bytes) -> Option<bool> {
    let (event, outs) = journal.entry(alloc, 1).ok()??;
    Some(delivers(&event, bytes) && outs.is_empty())
}

/// Whether as many outs are appended as a proposal gave out, which is the third entry.
fn appends(alloc: Global, journal: &mut Journal<BoxShelf>) -> Option<bool> {
    let event = Event::Propose {
        slot: 5,
        node: name(1),
        value: Bytes::new(Vec::from_slice(alloc, b"a").ok()?),
    };
    let given = journal.apply(event).ok()?.outs.len();
    let mut outs = Vec::new(alloc);
    journal.push_outs(alloc, 2, &mut outs).ok()?;
    Some(given > 0 && outs.len() == given)
}

/// Whether a journal whose slot 5 is opened takes a delivery and a proposal, and has them.
fn is_kept(alloc: Global, journal: &mut Journal<BoxShelf>) -> Option<bool> {
    let bytes = vote_bytes(alloc)?;
    let opened = journal.apply(Event::OpenSlot { slot: 5 }).is_ok();
    let kept = enters(alloc, journal, &bytes)? && reads_back(alloc, journal, &bytes)?;
    Some(opened && kept && appends(alloc, journal)?)
}

#[test]
fn events_are_kept_where_there_is_memory(rt: HostRuntime) -> Result<(), Fail> {
    let alloc = rt.alloc();
    let config = config(alloc).ok_or("memory")?;
    let mut journal = Journal::new(alloc, config, BoxShelf::new(alloc));
    let kept = is_kept(alloc, &mut journal);
    drop(journal);
    assert!(rt; kept.ok_or("memory")?);
    Ok(())
}

#[test]
fn entries_that_are_not_kept_take_an_event_where_there_is_memory(
    rt: HostRuntime,
) -> Result<(), Fail> {
    let alloc = rt.alloc();
    let config = config(alloc).ok_or("memory")?;
    let mut journal: Journal<BoxShelf, Unkept> = Journal::new(alloc, config, BoxShelf::new(alloc));
    let silent = match journal.apply(Event::OpenSlot { slot: 5 }) {
        Ok(given) => given.outs.is_empty(),
        Err(_) => false,
    };
    drop(journal);
    assert!(rt; silent);
    Ok(())
}
