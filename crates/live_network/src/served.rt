//! A network whose nodes hear one another.

ghost use Rattle.std.specs.Prelude.{◌≡◌, [], IfOk, IfSome, length, option_map};
ghost use Rattle.scp_spec.specs.Hosts.{new_net};
ghost use Rattle.scp_spec.specs.Networks.{Net, Step};
ghost use Rattle.scp_spec.specs.Networks.Step.{Delivers};
ghost use Rattle.host_network.specs.Decoding.{said_by, step_of};
ghost use Rattle.host_network.specs.Standing.{Machine, StandsFor, node_at};
ghost use Rattle.live_network.specs.Steps.{IsStepTaken};
ghost use Rattle.live_network.specs.Telling.{IsServedBy};

use crate::hearing::{Following, Told, hear_all};
use crate::stepping::{Stepped, deliver, step};
use host_config::NetConfig;
use host_network::{Network, Reading, Used};
use node_core::Node;
use node_store::Shelf;
use node_table::Rows;
use scp_types::{Event, NodeId, Refusal};
use std::alloc::{AllocError, Global};
use std::marker::Model;

/// A network in which hosted nodes hear what the others emit, without a line that says so. It has its configuration,
/// its open slots with the nodes there, and how much of its budgets and shares is used up. It keeps no journal.
///
/// Contracts see its parts with whole envelopes, and say which networks of the definitions have this state.
#[derive(Drop)]
pub struct ServedNetwork<S: Shelf> {
    alloc: Global,
    network: Network<S>,
    names: Vec<NodeId>,
}

/// What came of an event, and of what the other nodes heard of it.
#[derive(Drop)]
pub struct Served {
    /// Why the event was refused, if it was.
    pub refused: Option<Refusal>,
    /// Whether the event was stale: it was applied, and changed nothing.
    pub stale: bool,
    /// The slot, if the event was applied and is one of a node; else it means nothing.
    pub slot: u64,
    /// Each step that gave anything out, the event's own first, and each hearing that was refused, in order.
    pub told: Vec<Told>,
}

/// A hosted node at an open slot, and the rows of its table.
#[derive(Drop)]
pub struct Seen<'a, S: Shelf> {
    pub node: &'a Node,
    pub rows: Rows<'a, S>,
}

impl<S: Shelf> Model for ServedNetwork<S> {
    ghost use Rattle.std.specs.Coded.{codes};
    ghost use Rattle.std.specs.Prelude.{◌≡◌};
    ghost use Rattle.scp_types.specs.Trees.{members_code};
    ghost use Rattle.host_config.specs.Configs.{names_of};
    ghost use Rattle.host_network.specs.Standing.{Machine, machine_of};

    ghost Value = { Machine };

    ghost coded = { Prim.hlevel (codes, members_code) };

    ghost view = { λ m. machine_of m.network };

    ghost invariant = { λ m. m.names.items ≡ names_of m.network.config.nodes };
}

impl<S: Shelf + Drop> ServedNetwork<S> {
    /// A network where nothing has happened, whatever lies on the shelf. An error says that it is out of memory.
    pub fn new(alloc: Global, config: NetConfig, shelf: S) -> Result<ServedNetwork<S>, AllocError>
        ensures parts { IfOk result (λ n. n ≡ record { config = config; slots = []; events = 0; bytes = 0; opens = 0 }) }
        ensures state { IfOk result (λ n. StandsFor n (new_net config)) }
    {
        let names = config
            .nodes()
            .iter()
            .map(|hosted| *hosted.name())
            .collect(alloc)?;
        Ok(ServedNetwork {
            alloc,
            network: Network::new(alloc, config, shelf),
            names,
        })
    }

    /// Its configuration.
    pub fn config(&self) -> &NetConfig
        ensures { result.now ≡ self.now.config }
    {
        self.network.config()
    }

    /// How much of its budgets, and of the openings and closings of its roster, is used up, and how many slots are open.
    pub fn used(&self) -> Used
        ensures { result ≡ record { events = self.now.events; bytes = self.now.bytes; slots = length self.now.slots; opens = self.now.opens } }
    {
        self.network.used()
    }

    /// A hosted node at an open slot, as it is now, and the rows of its table; `None` if the slot is not open or the
    /// node is not hosted. It takes no memory.
    pub fn seen(&self, slot: u64, node: &NodeId) -> Option<Seen<'_, S>>
        ensures value { (net : Net) → StandsFor self.now net → option_map (λ s. s.node.now.node) result ≡ node_at net slot node.now }
        ensures rows { IfSome result (λ s. s.rows ≡ s.node.now.node.table) }
    {
        match self.network.node(slot, node) {
            None => None,
            Some(node) => Some(Seen {
                node,
                rows: self.network.rows(node),
            }),
        }
    }

    /// Serves an event: applies it, and then has the other nodes hear what comes of it, until no emission waits. Then
    /// envelopes that no node holds any more are let go, once so many were filed that it is due.
    ///
    /// An error says that it is out of memory for what is told; some of it happened then.
    pub fn serve(&mut self, event: &Event) -> Result<Served, AllocError>
        ensures { IfOk result (IsServedBy self.old (step_of event.now) self.new) }
    {
        let stepped = step(self.alloc, &mut self.network, event);
        self.follow(stepped)
    }

    /// Serves the delivery of `size` bytes that say this to a node, as [`ServedNetwork::serve`] does one whose bytes it
    /// reads.
    ///
    /// An error says that it is out of memory, or that a value or the slices have too many owners; some of it may have
    /// happened then.
    pub fn serve_read(
        &mut self,
        node: &NodeId,
        said: &Reading,
        size: u64,
    ) -> Result<Served, AllocError>
        ensures { IfOk result (IsServedBy self.old (Delivers node.now size (said_by said.now)) self.new) }
    {
        let said = copy_of(self.alloc, said)?;
        let stepped = deliver(&mut self.network, node, said, size);
        self.follow(stepped)
    }

    /// Has the other nodes hear what came of a step, and says what that was. An error is as that of
    /// [`ServedNetwork::serve`].
    fn follow(&mut self, stepped: Result<Stepped, Refusal>) -> Result<Served, AllocError>
        ensures { (old : Machine) (e : Step) → IsStepTaken old e stepped self.old → IfOk result (IsServedBy old e self.new) }
    {
        let mut following = Following::nothing(self.alloc);
        match stepped {
            Err(refusal) => Ok(Served {
                refused: Some(refusal),
                stale: false,
                slot: 0,
                told: following.told,
            }),
            Ok(stepped) => match stepped.place {
                None => {
                    self.network.forget_unheld();
                    Ok(Served {
                        refused: None,
                        stale: stepped.stale,
                        slot: 0,
                        told: following.told,
                    })
                }
                Some((slot, node)) => {
                    let stale = stepped.stale;
                    following.note(node, stepped.given)?;
                    hear_all(&mut self.network, &self.names, slot, &mut following)?;
                    self.network.forget_unheld();
                    Ok(Served {
                        refused: None,
                        stale,
                        slot,
                        told: following.told,
                    })
                }
            },
        }
    }
}

/// A copy of what bytes say. An error says that it is out of memory, or that a value or the slices have too many owners.
fn copy_of(alloc: Global, said: &Reading) -> Result<Reading, AllocError>
    ensures { IfOk result (λ r. r ≡ said.now) }
{
    match said {
        Reading::Says(envelope) => Ok(Reading::Says(envelope.try_copy(alloc)?)),
        Reading::Faulty(number) => Ok(Reading::Faulty(*number)),
    }
}
