//! A hosted node, as entries of its network's journal name it.

ghost use Rattle.std.specs.Prelude.{◌≡◌, is_some, true};
ghost use Rattle.scp_spec.specs.Networks.{slices_of};
ghost use Rattle.host_journal.specs.Hosting.{IsNodePlace, node_name};

use host_config::NetConfig;
use scp_types::NodeId;
use std::snapshot::Snapshot;

/// A hosted node by its place among those of its network, from 0 on: two bytes, while a name has 32. In contracts it is
/// known with its name.
#[derive(Drop)]
pub(crate) struct NodePlace {
    place: u16,
    name: Snapshot<NodeId>,
}

impl NodePlace {
    /// A hosted node, looked for at the place `first` first, whatever number that is, and else by a binary search.
    pub(crate) fn of(config: &NetConfig, first: usize, node: &NodeId) -> NodePlace
        requires { is_some (slices_of config.now.nodes node.now) ≡ true }
        ensures name { node_name result ≡ node.now }
        ensures there { IsNodePlace config.now.nodes result }
    {
        let _nodes = config.nodes();
        let Some(place) = config.place_from(first, node) else {
            unreachable!()
        };
        NodePlace {
            place: place as u16,
            name: Snapshot::of(node),
        }
    }

    /// The place, from 0 on.
    pub(crate) fn at(&self) -> usize {
        self.place as usize
    }

    pub(crate) fn name(&self, config: &NetConfig) -> NodeId
        requires { IsNodePlace config.now.nodes self.now }
        ensures { result ≡ node_name self.now }
    {
        let nodes = config.nodes();
        *nodes[self.place as usize].name()
    }
}
