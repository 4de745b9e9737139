//! A hosted node, as it is configured.

ghost use Rattle.std.specs.Prelude.{◌≡◌};

use scp_types::{Nested, NodeId};
use std::marker::Model;

/// A hosted node, as it is configured: its name and its own slices (this host's profile).
#[derive(Drop)]
pub struct HostedNode {
    name: NodeId,
    slices: Nested,
}

impl Model for HostedNode {
    ghost use Rattle.std.specs.Coded.{codes};
    ghost use Rattle.scp_types.specs.Trees.{members_code};
    ghost use Rattle.scp_spec.specs.Networks.{HostedNode as Meant};

    ghost Value = { Meant };

    ghost coded = { Prim.hlevel (codes, members_code) };

    ghost view = { λ h. record { name = h.name; slices = h.slices } };
}

impl HostedNode {
    /// A node with its slices.
    pub fn new(name: NodeId, slices: Nested) -> HostedNode
        ensures { result ≡ record { name = name; slices = slices } }
    {
        HostedNode { name, slices }
    }

    /// Its name.
    pub fn name(&self) -> &NodeId
        ensures { result.now ≡ self.now.name }
    {
        &self.name
    }

    /// Its own slices.
    pub fn slices(&self) -> &Nested
        ensures { result.now ≡ self.now.slices }
    {
        &self.slices
    }
}
