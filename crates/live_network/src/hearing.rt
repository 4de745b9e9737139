//! What waits to be heard, and what is told of it.

ghost use Rattle.std.specs.Prelude.{◌≡◌, ◌++◌, ◌∷◌, [], List, OnOk};
ghost use Rattle.scp_spec.specs.Networks.Reply.{Done};
ghost use Rattle.host_config.specs.Configs.{names_of};
ghost use Rattle.host_network.specs.Standing.{machine_of};
ghost use Rattle.live_network.specs.Serving.{ToldReply, all_hearings, hearings_of, told_of};
ghost use Rattle.live_network.specs.Telling.{HaveHeard, IsHeardByAll, emissions_of, reply_of_step, tellings_of};

use host_network::{Emission, Given, Network, hearing, push_named};
use node_store::Shelf;
use scp_types::{NodeId, Out, Refusal};
use std::alloc::{AllocError, Global};

/// A step that is told: of which node, and what it gave out or why it was refused.
#[derive(Drop)]
pub struct Told {
    pub node: NodeId,
    pub answer: Result<Vec<Out>, Refusal>,
}

/// The emissions of one line, heard ones first and then those that wait; and what is told of the line.
#[derive(Drop)]
pub(crate) struct Following {
    pub emissions: Vec<Emission>,
    pub told: Vec<Told>,
}

impl Following {
    /// Nothing was emitted. It takes no memory.
    pub fn nothing(alloc: Global) -> Following
        ensures { (result.emissions.items ≡ []) × (result.told.items ≡ []) }
    {
        Following {
            emissions: Vec::new(alloc),
            told: Vec::new(alloc),
        }
    }

    /// Notes what a node's step gave out: its emissions wait behind the others, and it is told if it gave anything out.
    /// An error says that it is out of memory; then a part may have been noted.
    pub fn note(&mut self, node: NodeId, given: Given) -> Result<(), AllocError>
        ensures emissions { OnOk result (self.new.emissions.items ≡ self.old.emissions.items ++ emissions_of given) }
        ensures told { OnOk result (tellings_of self.new.told.items ≡ tellings_of self.old.told.items ++ told_of node (Done given.outs.items)) }
    {
        let Given { outs, marks } = given;
        push_named(&outs, &marks, &mut self.emissions)?;
        if outs.is_empty() {
            return Ok(());
        }
        self.tell(node, Ok(outs))
    }

    fn tell(&mut self, node: NodeId, answer: Result<Vec<Out>, Refusal>) -> Result<(), AllocError>
        ensures emissions { self.new.emissions ≡ self.old.emissions }
        ensures told { OnOk result (tellings_of self.new.told.items ≡ tellings_of self.old.told.items ++ (record { node = node; reply = reply_of_step answer }) ∷ []) }
    {
        match self.told.push(Told { node, answer }) {
            Ok(()) => Ok(()),
            // Memory: the list has no room.
            Err(_) => Err(AllocError),
        }
    }
}

/// Has all other nodes of a network hear the emissions of a line, and then those that hearings give out, until none
/// waits. A hearing that is refused is told, and not tried again. An error says that it is out of memory for what is
/// told; then some were heard.
pub(crate) fn hear_all<S: Shelf>(
    network: &mut Network<S>,
    names: &[NodeId],
    slot: u64,
    following: &mut Following,
) -> Result<(), AllocError>
    requires { names.now ≡ names_of network.old.config.nodes }
    ensures heard { OnOk result ((told : List ToldReply) × (tellings_of following.new.told.items ≡ tellings_of following.old.told.items ++ told) × HaveHeard slot (all_hearings names.now following.old.emissions.items) (machine_of network.old) told (machine_of network.new)) }
    ensures config { network.new.config ≡ network.old.config }
{
    let mut at = 0;
    while at < following.emissions.len() {
        let emission = following.emissions[at];
        let_others_hear(network, names, slot, &emission, following)?;
        at += 1;
    }
    Ok(())
}

/// Has each other node hear an emission, ascending.
fn let_others_hear<S: Shelf>(
    network: &mut Network<S>,
    names: &[NodeId],
    slot: u64,
    emission: &Emission,
    following: &mut Following,
) -> Result<(), AllocError>
    requires { names.now ≡ names_of network.old.config.nodes }
    ensures heard { OnOk result (IsHeardByAll slot (names_of network.old.config.nodes) (hearings_of names.now emission.now) (machine_of network.old) following.old following.new (machine_of network.new)) }
    ensures config { network.new.config ≡ network.old.config }
{
    for name in names {
        hear(network, slot, *name, emission, following)?;
    }
    Ok(())
}

/// Has a node hear an emission, unless it is its own.
fn hear<S: Shelf>(
    network: &mut Network<S>,
    slot: u64,
    node: NodeId,
    emission: &Emission,
    following: &mut Following,
) -> Result<(), AllocError>
    ensures heard { OnOk result (IsHeardByAll slot (names_of network.old.config.nodes) (hearings_of (node ∷ []) emission.now) (machine_of network.old) following.old following.new (machine_of network.new)) }
    ensures config { network.new.config ≡ network.old.config }
{
    if node.is_same(&emission.from) {
        return Ok(());
    }
    let event = hearing(slot, node, emission);
    let answer = network.apply(&event);
    drop(event);
    match answer {
        Ok(outcome) => following.note(node, outcome.given),
        Err(refusal) => following.tell(node, Err(refusal)),
    }
}
