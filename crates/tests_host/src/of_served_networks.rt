//! That a served network answers if there is memory, and what it tells: no clause says the first, and a story shows the
//! second.

use crate::fixtures::{name, slices_of};
use host_config::HostedNode;
use host_journal::{Budgets, NetConfig};
use live_network::{Served, ServedNetwork, Told};
use node_store::BoxShelf;
use scp_types::{Bytes, Event, Out};
use std::alloc::Global;
use std::test::Fail;

/// A network of nodes 1 and 2, both of which need only node 1.
fn network(alloc: Global) -> Option<ServedNetwork<BoxShelf>> {
    let mut nodes = Vec::new(alloc);
    nodes
        .push(HostedNode::new(name(1), slices_of(alloc, 1)?))
        .ok()?;
    nodes
        .push(HostedNode::new(name(2), slices_of(alloc, 1)?))
        .ok()?;
    let config = NetConfig::new(alloc, 7, nodes, Budgets::new(100, 0, 1)?).ok()?;
    ServedNetwork::new(alloc, config, BoxShelf::new(alloc)).ok()
}

/// What comes of opening slot 5 and proposing to node 1 there.
fn proposed(alloc: Global) -> Option<Served> {
    let mut network = network(alloc)?;
    let opened = network.serve(&Event::OpenSlot { slot: 5 });
    let event = Event::Propose {
        slot: 5,
        node: name(1),
        value: Bytes::new(Vec::from_slice(alloc, b"x").ok()?),
    };
    let served = network.serve(&event);
    drop(event);
    drop(network);
    drop(opened);
    served.ok()
}

/// Whether the step of a node gave out `count` things, and the last of them is a decision if `decides` and none
/// otherwise.
fn gave_out(told: &Told, node: u64, count: usize, decides: bool) -> bool {
    match &told.answer {
        Ok(outs) => {
            let decided = match outs.last() {
                Some(Out::Externalized(_)) => true,
                _ => false,
            };
            told.node.is_same(&name(node)) && outs.len() == count && decided == decides
        }
        Err(_) => false,
    }
}

/// Whether node 1 decides by itself, and node 2 with what it hears: first of the nomination, then of the ballot.
fn is_heard(served: &Served) -> bool {
    match served.told.as_slice() {
        [own, first, second] => {
            gave_out(own, 1, 3, true)
                && gave_out(first, 2, 2, false)
                && gave_out(second, 2, 2, true)
        }
        _ => false,
    }
}

#[test]
fn a_proposal_is_heard_by_the_other_node(rt: HostRuntime) -> Result<(), Fail> {
    let served = proposed(rt.alloc()).ok_or("memory")?;
    let heard = served.refused.is_none() && served.slot == 5 && is_heard(&served);
    drop(served);
    assert!(rt; heard);
    Ok(())
}
