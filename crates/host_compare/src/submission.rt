//! What is submitted to networks.

ghost use Rattle.std.specs.Prelude.{◌≡◌, ◌++◌, ◌∷◌, [], IfErr, None, OnErr, OnOk, option_map};
ghost use Rattle.scp_spec.specs.Hosts.{nodes_of};
ghost use Rattle.scp_spec.specs.Submissions.{config_of};
ghost use Rattle.host_compare.specs.Submitted.{IsNotDeclared, with_config};
ghost use Rattle.host_world.specs.Worlds.{and_then};

use host_config::{HostedNode, NetConfig};
use scp_types::Event;
use std::alloc::{AllocError, Global};
use std::collections::BTreeMap;
use std::marker::Model;

/// Why a network is not declared.
#[derive(Clone, Copy, Debug, PartialEq, Eq)]
pub enum SubmissionError {
    /// A network of that number is declared.
    NetTwice,
    /// It is out of memory.
    NoMemory,
}

/// Configurations of networks, no two of one number, and events with the numbers of their networks, in order (this
/// host's profile).
///
/// A network is found by its number in logarithmically many steps.
///
/// Contracts see it as the history of a host with these configurations, to which these events happen.
///
/// The places follow the order of the configurations. For example, if network 7 was declared and then 3, 7 is found at
/// the first place, 3 at the second, and no other number at any.
#[derive(Drop)]
pub struct Submission {
    configs: Vec<NetConfig>,
    places: BTreeMap<u32, usize>,
    calls: Vec<(u32, Event)>,
}

impl Model for Submission {
    ghost use Rattle.std.specs.Coded.{codes};
    ghost use Rattle.scp_types.specs.Trees.{members_code};
    ghost use Rattle.scp_spec.specs.Hosts.{History};
    ghost use Rattle.host_compare.specs.Indexed.{AreConfigsIndexed};

    ghost Value = { History };

    ghost coded = { Prim.hlevel (codes, members_code) };

    ghost view = { λ s. record { configs = s.configs.items; calls = s.calls.items } };

    ghost invariant = { λ s. AreConfigsIndexed s.configs.items s.places };
}

impl Submission {
    /// Nothing is declared, and nothing submitted. It takes no memory.
    pub fn new(alloc: Global) -> Submission
        ensures { result ≡ record { configs = []; calls = [] } }
    {
        Submission {
            configs: Vec::new(alloc),
            places: BTreeMap::new(alloc),
            calls: Vec::new(alloc),
        }
    }

    /// Declares a network. Events of its number may have been submitted before; they count as later ones do.
    ///
    /// An error says that a network of that number is declared, or that it is out of memory, in this order. The
    /// submission is as it was then.
    pub fn declare(&mut self, config: NetConfig) -> Result<(), SubmissionError>
        ensures ok { OnOk result (self.new ≡ with_config self.old config) }
        ensures fresh { OnOk result (config_of self.old.configs config.number ≡ None) }
        ensures err { IfErr result (IsNotDeclared self.old.configs config.number) }
        ensures same { OnErr result (self.new ≡ self.old) }
    {
        let number = config.number();
        if self.config(number).is_some() {
            return Err(SubmissionError::NetTwice);
        }
        if self.configs.reserve(1).is_err() {
            // Memory: the list has no room.
            return Err(SubmissionError::NoMemory);
        }
        let place = self.configs.len();
        if self.places.insert(number, place).is_err() {
            // Memory: the map has no room.
            return Err(SubmissionError::NoMemory);
        }
        let Ok(()) = self.configs.push(config) else {
            unreachable!()
        };
        Ok(())
    }

    /// Submits an event of a network, whether or not the network is declared. An error says that it is out of memory;
    /// the submission is as it was.
    pub fn submit(&mut self, net: u32, event: Event) -> Result<(), AllocError>
        ensures ok { OnOk result (self.new ≡ and_then self.old net event) }
        ensures same { OnErr result (self.new ≡ self.old) }
    {
        match self.calls.push((net, event)) {
            Ok(()) => Ok(()),
            // Memory: the list has no room.
            Err(_) => Err(AllocError),
        }
    }

    /// The configuration of a network, if it is declared.
    pub fn config(&self, net: u32) -> Option<&NetConfig>
        ensures { option_map (λ c. c.now) result ≡ config_of self.now.configs net }
    {
        match self.places.get(&net) {
            Some(place) => Some(&self.configs[*place]),
            None => None,
        }
    }

    /// The hosted nodes of a network; none if it is not declared.
    pub fn nodes(&self, net: u32) -> &[HostedNode]
        ensures { result.now ≡ nodes_of self.now.configs net }
    {
        match self.config(net) {
            Some(config) => config.nodes(),
            None => &[],
        }
    }

    /// The configurations, and the events with the numbers of their networks, each in order.
    pub fn into_parts(self) -> (Vec<NetConfig>, Vec<(u32, Event)>)
        ensures configs { result.0.items ≡ self.configs }
        ensures calls { result.1.items ≡ self.calls }
    {
        (self.configs, self.calls)
    }

    /// The events with the numbers of their networks, in order.
    pub fn calls(&self) -> &[(u32, Event)]
        ensures { result.now ≡ self.now.calls }
    {
        &self.calls
    }
}
