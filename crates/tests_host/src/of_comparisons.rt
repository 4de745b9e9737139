//! That many questions about two worlds are answered in threads if there is memory: no clause says so. Which verdicts
//! these are is said by contracts.

use crate::fixtures::{name, one_node};
use host_compare::{MemberOuts, Verdict, compare_all};
use host_config::{Budgets, NetConfig};
use host_world::World;
use node_store::BoxShelf;
use scp_types::{Bytes, Event, Out, Subject};
use std::alloc::Global;
use std::test::Fail;
use std::thread::Threads;

type TestWorld = World<BoxShelf>;

/// Node 1 at slot 1 of a network.
fn subject(net: u32) -> Subject {
    Subject {
        net,
        slot: 1,
        node: name(1),
    }
}

/// A network whose one node trusts only itself.
fn config(alloc: Global, net: u32) -> Option<NetConfig> {
    let nodes = one_node(alloc, 1, 1)?;
    NetConfig::new(alloc, net, nodes, Budgets::new(100, 100, 1)?).ok()
}

/// Whether an event was applied in a network.
fn applies(world: &mut TestWorld, net: u32, event: Event) -> bool {
    world.apply(net, event).is_ok()
}

/// Adds a network whose slot 1 is open.
fn add(alloc: Global, world: &mut TestWorld, net: u32) -> Option<bool> {
    let config = config(alloc, net)?;
    world.add(config, BoxShelf::new(alloc)).ok()?;
    Some(applies(world, net, Event::OpenSlot { slot: 1 }))
}

/// The node of a network is told to propose x.
fn propose(alloc: Global, world: &mut TestWorld, net: u32) -> Option<bool> {
    let value = Bytes::new(Vec::from_slice(alloc, b"x").ok()?);
    let event = Event::Propose {
        slot: 1,
        node: name(1),
        value,
    };
    Some(applies(world, net, event))
}

/// Networks 1 and 2; the node of the first proposes.
fn build(alloc: Global, world: &mut TestWorld) -> Option<bool> {
    Some(add(alloc, world, 1)? && add(alloc, world, 2)? && propose(alloc, world, 1)?)
}

/// Whether two worlds that are built alike are compared as expected, when in one of them the node of network 2 proposes
/// too.
fn ask(
    rt: &(impl Threads + Sync),
    alloc: Global,
    one: &mut TestWorld,
    other: &mut TestWorld,
) -> Option<bool> {
    let built = build(alloc, one)? && build(alloc, other)? && propose(alloc, one, 2)?;
    let subjects = [subject(1), subject(2), subject(3)];
    let verdicts = compare_all(rt, alloc, one, other, &subjects).ok()?;
    Some(built && are_expected(&verdicts))
}

/// Whether network 1 is the same in both, network 2 parts behind its opening, and network 3 is in none.
fn are_expected(verdicts: &[Verdict]) -> bool {
    match verdicts {
        [
            Verdict::Same(members),
            Verdict::InputsDiffer(place),
            Verdict::CastDiffers(node),
        ] => { has_decided_alone(members.as_slice()) && *place == 1 && node.is_same(&name(1)) }
        _ => false,
    }
}

/// Whether only the node is a member, and it nominated, decided and externalized at once.
fn has_decided_alone(members: &[MemberOuts]) -> bool {
    match members {
        [member] => match member.outs() {
            [Out::Emit(_), Out::Emit(_), Out::Externalized(_)] => member.name().is_same(&name(1)),
            _ => false,
        },
        _ => false,
    }
}

#[test]
fn many_questions_are_answered_where_there_is_memory(rt: HostRuntime) -> Result<(), Fail> {
    let alloc = rt.alloc();
    let mut one = World::new(alloc);
    let mut other = World::new(alloc);
    let asked = ask(&rt, alloc, &mut one, &mut other);
    drop(one);
    drop(other);
    assert!(rt; asked.ok_or("memory")?);
    Ok(())
}
