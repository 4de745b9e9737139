//! Nodes that hear what others of their network emit, each by an event in the network's journal.

ghost use Rattle.std.specs.Prelude.{◌≡◌, ◌≤◌, ◌++◌, ◌∷◌, [], IfOk, List, OnOk, drop, length};
ghost use Rattle.host_config.specs.Configs.{names_of};
ghost use Rattle.host_network.specs.declared.emission.Emission.{Emission};
ghost use Rattle.line_run.specs.ServedNetworks.{AllIsHeard, HaveOthersHeard};
ghost use Rattle.line_run.specs.Settling.{AreHandedOn, IsHeardBy, others};

use crate::outcome::but_for_memory;
use host_config::NetConfig;
use host_journal::Keeping;
use host_network::{Emission, hearing, push_named};
use host_world::World;
use node_store::BoxShelf;
use scp_types::{NodeId, Refusal};
use std::alloc::{AllocError, Global};

/// Hands on what waits at a slot, and behind it what nodes emit meanwhile, until none waits or a hearing is refused.
/// Answers how many emissions have been handed on, and the refusal. Those that were handed on stay in front of those
/// that wait on. An error says that it is out of memory; then some were handed on, and what nodes emitted meanwhile may
/// not wait.
pub(crate) fn hand_on_all<K: Keeping>(
    world: &mut World<BoxShelf, K>,
    number: u32,
    slot: u64,
    names: &[NodeId],
    waiting: &mut Vec<Emission>,
) -> Result<(usize, Option<Refusal>), AllocError>
    ensures handed { IfOk result (λ r. AreHandedOn number slot names.now world.old waiting.old.items r.1 (drop r.0 waiting.new.items) world.new) }
    ensures within { IfOk result (λ r. r.0 ≤ length waiting.new.items) }
{
    let mut at = 0;
    while at < waiting.len() {
        let emission = waiting[at];
        match let_others_hear(world, number, slot, names, &emission, waiting)? {
            Some(refusal) => return Ok((at, Some(refusal))),
            None => {}
        }
        at += 1;
    }
    Ok((at, None))
}

/// Has each other node hear an emission, in the order of the names, and what they emit wait. Answers the first refusal,
/// which ends it.
fn let_others_hear<K: Keeping>(
    world: &mut World<BoxShelf, K>,
    number: u32,
    slot: u64,
    names: &[NodeId],
    emission: &Emission,
    waiting: &mut Vec<Emission>,
) -> Result<Option<Refusal>, AllocError>
    ensures { IfOk result (λ ended. (more : List Emission) × (waiting.new.items ≡ waiting.old.items ++ more) × IsHeardBy number slot emission.now (others emission.now names.now) world.old more ended world.new) }
{
    let [node, others @ ..] = names else {
        return Ok(None);
    };
    match hear(world, number, slot, *node, emission, waiting)? {
        Some(refusal) => Ok(Some(refusal)),
        None => let_others_hear(world, number, slot, others, emission, waiting),
    }
}

/// Has a node hear an emission, unless it is its own, and what it emits wait. Answers the refusal.
#[inline(always)]
fn hear<K: Keeping>(
    world: &mut World<BoxShelf, K>,
    number: u32,
    slot: u64,
    node: NodeId,
    emission: &Emission,
    waiting: &mut Vec<Emission>,
) -> Result<Option<Refusal>, AllocError>
    ensures { IfOk result (λ ended. (more : List Emission) × (waiting.new.items ≡ waiting.old.items ++ more) × IsHeardBy number slot emission.now (others emission.now (node ∷ [])) world.old more ended world.new) }
{
    if node.is_same(&emission.from) {
        return Ok(None);
    }
    match world.apply(number, hearing(slot, node, emission)) {
        Ok(given) => {
            push_named(&given.outs, &given.marks, waiting)?;
            Ok(None)
        }
        Err(refusal) => Ok(Some(refusal)),
    }
}

/// Has all others hear what waits, and behind it what nodes emit meanwhile, until none waits. An error says that it is
/// out of memory, in a hearing or beside one; then some have heard, and what else waited is lost.
pub(crate) fn let_all_hear<K: Keeping>(
    world: &mut World<BoxShelf, K>,
    number: u32,
    slot: u64,
    names: &[NodeId],
    mut waiting: Vec<Emission>,
) -> Result<(), AllocError>
    ensures { OnOk result (AllIsHeard number slot names.now world.old waiting.items world.new) }
{
    let mut at = 0;
    while at < waiting.len() {
        let emission = waiting[at];
        tell_others(world, number, slot, names, &emission, &mut waiting)?;
        at += 1;
    }
    Ok(())
}

/// Has each other node hear an emission, in the order of the names, whether others refused it or not. A refusal because
/// it is out of memory is an error. Of a hearing nothing is printed, so nobody would be told that it is missing in what
/// later lines show.
fn tell_others<K: Keeping>(
    world: &mut World<BoxShelf, K>,
    number: u32,
    slot: u64,
    names: &[NodeId],
    emission: &Emission,
    waiting: &mut Vec<Emission>,
) -> Result<(), AllocError>
    ensures { OnOk result ((more : List Emission) × (waiting.new.items ≡ waiting.old.items ++ more) × HaveOthersHeard number slot emission.now names.now world.old more world.new) }
{
    let [node, others @ ..] = names else {
        return Ok(());
    };
    let ended = hear(world, number, slot, *node, emission, waiting)?;
    but_for_memory(ended)?;
    tell_others(world, number, slot, others, emission, waiting)
}

/// The emissions from a place on. Nothing is copied if these are all, so a line that settles nothing costs the same
/// however many wait.
pub(crate) fn waiting_from(
    alloc: Global,
    waiting: Vec<Emission>,
    heard: usize,
) -> Result<Vec<Emission>, AllocError>
    requires { heard ≤ length waiting.items }
    ensures { IfOk result (λ left. left.items ≡ drop heard waiting.items) }
{
    if heard == 0 {
        return Ok(waiting);
    }
    Vec::from_slice(alloc, &waiting[heard..])
}

/// The hosted nodes of a network, ascending.
pub(crate) fn names_of(alloc: Global, config: &NetConfig) -> Result<Vec<NodeId>, AllocError>
    ensures { IfOk result (λ names. names.items ≡ names_of config.now.nodes) }
{
    config
        .nodes()
        .iter()
        .map(|hosted| *hosted.name())
        .collect(alloc)
}
