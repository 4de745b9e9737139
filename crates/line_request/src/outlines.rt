//! A network while its lines are still coming.

ghost use Rattle.std.specs.Prelude.{◌≡◌, ◌==◌, [], Err, IfOk, None, OnOk, Some, false, option_map, true};
ghost use Rattle.std.specs.List.{list_any};
ghost use Rattle.scp_types.specs.Trees.{all_differ as names_differ};
ghost use Rattle.line_request.specs.Outlines.{IsConfigOf, bare_outline, with_node, with_roster};
ghost use Rattle.line_request.specs.Taking.{is_roster, takes_node, takes_roster};
ghost use Rattle.line_request.specs.Telling.{is_bare};

use host_config::{
    Budgets, ConfigError, HostedNode, MAX_NODES, MAX_ROSTER, MAX_SHARE, NetConfig, Reservation,
    Shares,
};
use line_script::LineError;
use scp_types::{Nested, NodeId};
use std::alloc::Global;
use std::marker::Model;

/// What the lines of a network have declared so far: its budgets, its nodes in the order of their lines, and
/// its roster.
///
/// Nodes may come in any order, none twice: C, then A are nodes of an outline, and C is not taken again.
#[derive(Drop)]
pub struct Outline {
    alloc: Global,
    budgets: Budgets,
    nodes: Vec<HostedNode>,
    roster: Option<Reservation>,
}

impl Model for Outline {
    ghost use Rattle.std.specs.Coded.{codes};
    ghost use Rattle.std.specs.Prelude.{option_map};
    ghost use Rattle.scp_types.specs.Trees.{members_code};
    ghost use Rattle.line_request.specs.Outlines.{Outlined, IsSoundOutline};

    ghost Value = { Outlined };

    ghost coded = { Prim.hlevel (codes, members_code) };

    ghost view = { λ d. record { budgets = d.budgets; nodes = d.nodes.items; roster = option_map (λ r. (r.names.items, r.shares)) d.roster } };

    ghost invariant = { λ d. IsSoundOutline (record { budgets = d.budgets; nodes = d.nodes.items; roster = option_map (λ r. (r.names.items, r.shares)) d.roster }) };
}

impl Outline {
    /// A network with these budgets and no node. It takes no memory.
    pub fn new(alloc: Global, budgets: Budgets) -> Outline
        ensures { result ≡ bare_outline budgets }
    {
        Outline {
            alloc,
            budgets,
            nodes: Vec::new(alloc),
            roster: None,
        }
    }

    /// Whether it takes a node of this name: it has none, and fewer than 256 nodes.
    pub fn takes_node(&self, name: &NodeId) -> bool
        ensures { result ≡ takes_node (Some self.now) name.now }
    {
        self.nodes.len() < MAX_NODES && !has_node(&self.nodes, name)
    }

    /// Whether it takes this roster: it has none, and the configuration does not refuse it.
    pub fn takes_roster(&self, roster: &Reservation) -> bool
        ensures { result ≡ takes_roster (Some self.now) roster.now.names.items roster.now.shares }
    {
        self.roster.is_none() && is_allowed(roster)
    }

    /// Adds a node. The line is bad if the network has a node of that name, or 256 nodes.
    pub fn host(&mut self, name: NodeId, slices: Nested) -> Result<(), LineError>
        ensures hosted { OnOk result (self.new ≡ with_node self.old name slices) }
        ensures taken { OnOk result (takes_node (Some self.old) name ≡ true) }
        ensures bad { result ≡ Err LineError.Bad → takes_node (Some self.old) name ≡ false }
    {
        if self.nodes.len() >= MAX_NODES || has_node(&self.nodes, &name) {
            return Err(LineError::Bad);
        }
        let slices = shared_with(self.nodes.last(), slices);
        match self.nodes.push(HostedNode::new(name, slices)) {
            Ok(()) => Ok(()),
            // Memory: the list has no room.
            Err(_) => Err(LineError::NoMemory),
        }
    }

    /// Adds a roster. The line is bad if there is one already, or if the configuration refuses it. It does so if a name
    /// stands twice on it, it has more than 1,024 names, or a share is above 2^40.
    pub fn reserve(&mut self, roster: Reservation) -> Result<(), LineError>
        ensures reserved { OnOk result (self.new ≡ with_roster self.old roster.names.items roster.shares) }
        ensures taken { OnOk result (takes_roster (Some self.old) roster.names.items roster.shares ≡ true) }
        ensures bad { result ≡ Err LineError.Bad → takes_roster (Some self.old) roster.names.items roster.shares ≡ false }
    {
        if !self.takes_roster(&roster) {
            return Err(LineError::Bad);
        }
        self.roster = Some(roster);
        Ok(())
    }

    /// Whether no node has been declared.
    pub fn is_bare(&self) -> bool
        ensures { result ≡ is_bare (Some self.now) }
    {
        self.nodes.is_empty()
    }

    /// Whether it has a node of this name.
    pub fn hosts(&self, name: &NodeId) -> bool
        ensures { result ≡ list_any (λ hosted. hosted.name == name.now) self.now.nodes }
    {
        has_node(&self.nodes, name)
    }

    /// Its budgets.
    pub fn budgets(&self) -> Budgets
        ensures { result ≡ self.now.budgets }
    {
        self.budgets
    }

    /// How many openings and closings its roster reserves; `None` if it has no roster.
    pub fn opens(&self) -> Option<u64>
        ensures { result ≡ option_map (λ r. r.1.opens) self.now.roster }
    {
        self.roster.as_ref().map(|roster| roster.shares.opens)
    }

    /// The configuration of the network of this number that has been declared. The line is bad if no node has been.
    pub fn config(self, number: u32) -> Result<NetConfig, LineError>
        ensures config { IfOk result (IsConfigOf number self) }
        ensures bad { result ≡ Err LineError.Bad → self.nodes ≡ [] }
    {
        let Outline {
            alloc,
            budgets,
            nodes,
            roster,
        } = self;
        if nodes.is_empty() {
            return Err(LineError::Bad);
        }
        let made = match roster {
            None => NetConfig::new(alloc, number, nodes, budgets),
            Some(roster) => NetConfig::with_roster(alloc, number, nodes, budgets, roster),
        };
        match made {
            Ok(config) => Ok(config),
            Err(ConfigError::NoMemory) => Err(LineError::NoMemory),
            Err(_) => Err(LineError::Bad),
        }
    }
}

/// The slices, which are those that this node has if they are the same. Most nodes of a network have the same ones, and so
/// they are kept once.
fn shared_with(node: Option<&HostedNode>, slices: Nested) -> Nested
    ensures { result ≡ slices }
{
    let Some(node) = node else {
        return slices;
    };
    if !node.slices().is_same(&slices) {
        return slices;
    }
    match node.slices().try_copy() {
        Ok(shared) => {
            drop(slices);
            shared
        }
        Err(_) => slices,
    }
}

/// The configuration takes the roster.
fn is_allowed(roster: &Reservation) -> bool
    ensures { result ≡ is_roster roster.now.names.items roster.now.shares }
{
    let Shares {
        own,
        pair,
        bytes,
        opens,
    } = roster.shares;
    roster.names.len() <= MAX_ROSTER
        && own.max(pair).max(bytes).max(opens) <= MAX_SHARE
        && all_differ(&roster.names)
}

fn has_node(nodes: &[HostedNode], name: &NodeId) -> bool
    ensures { result ≡ list_any (λ hosted. hosted.name == name.now) nodes.now }
{
    nodes.iter().any(|node| *node.name() == *name)
}

fn all_differ(names: &[NodeId]) -> bool
    ensures { result ≡ names_differ names.now }
{
    match names {
        [] => true,
        [first, rest @ ..] => !rest.contains(first) && all_differ(rest),
    }
}
