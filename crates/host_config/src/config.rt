//! A network's configuration.

ghost use Rattle.std.specs.Prelude.{◌≡◌, ◌≤◌, ◌++◌, IfErr, IfOk, IfSome, None, Some, is_some, length, option_map, true};
ghost use Rattle.std.specs.List.Sorted.{IsPermutation};
ghost use Rattle.scp_types.specs.Trees.{all_differ};
ghost use Rattle.scp_spec.specs.Sets.{IsAscending};
ghost use Rattle.host_config.specs.Configs.{AreHostedNodes, index_in, index_of_name, names_of, rises};
ghost use Rattle.host_config.specs.Faults.{fault_of, first_fault, node_tests, roster_tests};
ghost use Rattle.host_config.specs.Rosters.{HasRosterOf};

use crate::budgets::Budgets;
use crate::error::ConfigError;
use crate::hosted_node::HostedNode;
use crate::roster::{Reservation, Roster};
use scp_types::NodeId;
use std::alloc::{AllocError, Global};
use std::marker::Model;

/// The most nodes that one network hosts (this host's profile).
pub const MAX_NODES: usize = 256;

/// The number of a network, its hosted nodes, its budgets, and its roster, if it has one (this host's profile). The
/// nodes are 1 to 256, ascending by name.
///
/// The names stand in a list of their own, so that a binary search for a node stays in memory that lies together.
///
/// For example, if A and C are hosted, the nodes are A's, then C's, and the names A, C.
#[derive(Drop)]
pub struct NetConfig {
    number: u32,
    nodes: Vec<HostedNode>,
    names: Vec<NodeId>,
    budgets: Budgets,
    roster: Option<Roster>,
}

impl Model for NetConfig {
    ghost use Rattle.std.specs.Coded.{codes};
    ghost use Rattle.scp_types.specs.Trees.{members_code};
    ghost use Rattle.scp_spec.specs.Hosts.{Config};
    ghost use Rattle.host_config.specs.Configs.{AreNamed};

    ghost Value = { Config };

    ghost coded = { Prim.hlevel (codes, members_code) };

    ghost view = { λ c. record { number = c.number; nodes = c.nodes.items; budgets = c.budgets; roster = c.roster } };

    ghost invariant = { λ c. AreNamed c.names.items c.nodes.items };
}

impl NetConfig {
    /// A network without a roster that hosts 1 to 256 nodes, none twice, given in any order.
    ///
    /// An error is the first that applies, in this order: [`ConfigError::NodeTwice`], [`ConfigError::NoNodes`],
    /// [`ConfigError::TooManyNodes`], and [`ConfigError::NoMemory`] if it is out of memory and none of these applies.
    pub fn new(
        alloc: Global,
        number: u32,
        nodes: Vec<HostedNode>,
        budgets: Budgets,
    ) -> Result<NetConfig, ConfigError>
        ensures parts { IfOk result (λ c. (c.number ≡ number) × (c.budgets ≡ budgets) × (c.roster ≡ None)) }
        ensures nodes { IfOk result (λ c. IsPermutation nodes.items c.nodes) }
        ensures ascending { IfOk result (λ c. IsAscending (names_of c.nodes)) }
        ensures faultless { IfOk result (λ _. first_fault (node_tests nodes.items) ≡ None) }
        ensures fault { IfErr result (λ e. first_fault (node_tests nodes.items) ≡ fault_of e) }
    {
        let nodes = check_nodes(nodes)?;
        let names = list_names(alloc, &nodes)?;
        Ok(NetConfig {
            number,
            nodes,
            names,
            budgets,
            roster: None,
        })
    }

    /// A network as [`NetConfig::new`] makes it, with a roster of up to 1,024 names, none twice, given in any
    /// order, and shares of up to 2^40 each.
    ///
    /// An error is the first that applies: those of the nodes, as in [`NetConfig::new`], then
    /// [`ConfigError::RosterTwice`], [`ConfigError::RosterTooLong`], [`ConfigError::ShareTooLarge`], and
    /// [`ConfigError::NoMemory`] if it is out of memory and none of these applies.
    pub fn with_roster(
        alloc: Global,
        number: u32,
        nodes: Vec<HostedNode>,
        budgets: Budgets,
        roster: Reservation,
    ) -> Result<NetConfig, ConfigError>
        ensures parts { IfOk result (λ c. (c.number ≡ number) × (c.budgets ≡ budgets)) }
        ensures nodes { IfOk result (λ c. IsPermutation nodes.items c.nodes) }
        ensures ascending { IfOk result (λ c. IsAscending (names_of c.nodes)) }
        ensures roster { IfOk result (λ c. HasRosterOf roster.names.items roster.shares c.roster) }
        ensures faultless { IfOk result (λ _. first_fault (node_tests nodes.items ++ roster_tests roster.names.items roster.shares) ≡ None) }
        ensures fault { IfErr result (λ e. first_fault (node_tests nodes.items ++ roster_tests roster.names.items roster.shares) ≡ fault_of e) }
    {
        let ordered = check_nodes(nodes)?;
        let roster = Roster::new(roster.names, roster.shares)?;
        let names = list_names(alloc, &ordered)?;
        Ok(NetConfig {
            number,
            nodes: ordered,
            names,
            budgets,
            roster: Some(roster),
        })
    }

    /// The number of the network.
    pub fn number(&self) -> u32
        ensures { result ≡ self.now.number }
    {
        self.number
    }

    /// The hosted nodes, 1 to 256, ascending by name.
    pub fn nodes(&self) -> &[HostedNode]
        ensures value { result.now ≡ self.now.nodes }
        ensures ascending { IsAscending (names_of result.now) }
        ensures some_nodes { 1 ≤ length result.now }
        ensures few_nodes { length result.now ≤ 256 }
    {
        &self.nodes
    }

    /// The budgets.
    pub fn budgets(&self) -> &Budgets
        ensures { result.now ≡ self.now.budgets }
    {
        &self.budgets
    }

    /// The roster, if there is one.
    pub fn roster(&self) -> Option<&Roster>
        ensures { option_map (λ r. r.now) result ≡ self.now.roster }
    {
        self.roster.as_ref()
    }

    /// The place of a hosted node among them, from 0 on, by a binary search if they are many; `None` if it is not
    /// hosted.
    pub fn place(&self, name: &NodeId) -> Option<usize>
        ensures { result ≡ index_of_name self.now.nodes name.now }
    {
        place_in(&self.names, name)
    }

    /// The place of a hosted node, which is looked for at `first` first, whatever number that is; `None` if it is not
    /// hosted. So nodes that come in order cost no search.
    pub fn place_from(&self, first: usize, name: &NodeId) -> Option<usize>
        ensures { result ≡ index_of_name self.now.nodes name.now }
    {
        if stands_at(&self.names, first, name) {
            return Some(first);
        }
        self.place(name)
    }

    /// A copy. An error says that it is out of memory, or that slices have too many owners.
    pub fn try_copy(&self, alloc: Global) -> Result<NetConfig, AllocError>
        ensures { IfOk result (λ c. c ≡ self.now) }
    {
        let nodes = copies(alloc, &self.nodes)?;
        let names = Vec::from_slice(alloc, &self.names)?;
        let roster = copy_of_roster(alloc, &self.roster)?;
        Ok(NetConfig {
            number: self.number,
            nodes,
            names,
            budgets: self.budgets,
            roster,
        })
    }
}

/// The nodes that a network hosts, in order, or the first fault that applies. It takes no memory.
fn check_nodes(nodes: Vec<HostedNode>) -> Result<Vec<HostedNode>, ConfigError>
    ensures nodes { IfOk result (λ v. IsPermutation nodes.items v.items) }
    ensures rules { IfOk result (λ v. AreHostedNodes v.items) }
    ensures faultless { IfOk result (λ _. first_fault (node_tests nodes.items) ≡ None) }
    ensures fault { IfErr result (λ e. first_fault (node_tests nodes.items) ≡ Some e) }
{
    let Some(nodes) = in_order(nodes) else {
        return Err(ConfigError::NodeTwice);
    };
    if nodes.is_empty() {
        return Err(ConfigError::NoNodes);
    }
    if nodes.len() > MAX_NODES {
        return Err(ConfigError::TooManyNodes);
    }
    Ok(nodes)
}

/// The nodes ascending by name; `None` if a name stands twice.
fn in_order(nodes: Vec<HostedNode>) -> Option<Vec<HostedNode>>
    ensures nodes { IfSome result (λ v. IsPermutation nodes.items v.items) }
    ensures ascending { IfSome result (λ v. IsAscending (names_of v.items)) }
    ensures exactly { is_some result ≡ all_differ (names_of nodes.items) }
{
    let mut sorted = nodes;
    // In place, so that being out of memory never hides a fault; names that differ have only one order.
    sorted.sort_unstable_by_key(
        |hosted| -> NodeId
            ensures { result ≡ hosted.now.name }
        { *hosted.name() },
    );
    if is_ascending(&sorted) {
        Some(sorted)
    } else {
        None
    }
}

fn is_ascending(nodes: &[HostedNode]) -> bool
    ensures { result ≡ rises (names_of nodes.now) }
{
    let Some((first, rest)) = nodes.split_first() else {
        return true;
    };
    let mut last = *first.name();
    for hosted in rest {
        let name = *hosted.name();
        if !(last < name) {
            return false;
        }
        last = name;
    }
    true
}

fn list_names(alloc: Global, nodes: &[HostedNode]) -> Result<Vec<NodeId>, AllocError>
    ensures { IfOk result (λ v. v.items ≡ names_of nodes.now) }
{
    let mut names = Vec::with_capacity(alloc, nodes.len())?;
    for hosted in nodes {
        names.push(*hosted.name())?;
    }
    Ok(names)
}

fn copies(alloc: Global, nodes: &[HostedNode]) -> Result<Vec<HostedNode>, AllocError>
    ensures { IfOk result (λ v. v.items ≡ nodes.now) }
{
    let mut copies = Vec::with_capacity(alloc, nodes.len())?;
    for hosted in nodes {
        let slices = hosted.slices().try_copy()?;
        copies.push(HostedNode::new(*hosted.name(), slices))?;
    }
    Ok(copies)
}

fn copy_of_roster(alloc: Global, roster: &Option<Roster>) -> Result<Option<Roster>, AllocError>
    ensures { IfOk result (λ o. o ≡ roster.now) }
{
    match roster {
        None => Ok(None),
        Some(roster) => Ok(Some(roster.try_copy(alloc)?)),
    }
}

/// Among at most this many names each is looked at, since a binary search would cost more.
const FEW_NAMES: usize = 8;

/// The place of a name in an ascending list, if it is there.
fn place_in(names: &[NodeId], name: &NodeId) -> Option<usize>
    requires { IsAscending names.now }
    ensures { result ≡ index_in names.now name.now }
{
    if names.len() <= FEW_NAMES {
        return place_in_few(names, name);
    }
    match names.binary_search(name) {
        Ok(place) => Some(place),
        Err(_) => None,
    }
}

/// Whether a name stands at this place of an ascending list.
fn stands_at(names: &[NodeId], place: usize, name: &NodeId) -> bool
    requires { IsAscending names.now }
    ensures { result ≡ true → index_in names.now name.now ≡ Some place }
{
    match names.get(place) {
        None => false,
        Some(there) => *there == *name,
    }
}

/// The place of a name in a list, if it is there; each name is looked at.
fn place_in_few(names: &[NodeId], name: &NodeId) -> Option<usize>
    ensures { result ≡ index_in names.now name.now }
{
    for place in 0..names.len() {
        if names[place] == *name {
            return Some(place);
        }
    }
    None
}
