//! Where the networks of scripts join.

ghost use Rattle.std.specs.Prelude.{◌≡◌, OnOk};

use host_compare::Submission;
use host_config::NetConfig;
use host_journal::Keeping;
use host_world::{MAX_NETWORKS, World};
use node_store::BoxShelf;
use std::alloc::{AllocError, Global};

/// What the networks of a script join when an event names them, or after the last line. `joins` says what it
/// is with one network more.
pub(crate) trait JoinsNetworks {
    ghost use Rattle.line_run.specs.Joining.{Joins};

    ghost joins: { Joins Self };

    /// A network joins, and nothing has happened to it. An error says that it is out of memory.
    fn join(&mut self, alloc: Global, config: NetConfig) -> Result<(), AllocError>
        ensures { OnOk result (self.new ≡ joins config self.old) };
}

impl<K: Keeping> JoinsNetworks for World<BoxShelf, K> {
    ghost use Rattle.line_run.specs.Hosting.{logs_joined};

    ghost joins = { logs_joined };

    /// A network whose number is there, or for which there is no room, is left out. No line brings one: lines declare
    /// no number that is declared, and at most 4,096 networks at a time.
    fn join(&mut self, alloc: Global, config: NetConfig) -> Result<(), AllocError> {
        if self.journal(config.number()).is_some() || self.journals().len() >= MAX_NETWORKS {
            return Ok(());
        }
        match self.add(config, BoxShelf::new(alloc)) {
            Ok(()) => Ok(()),
            // Memory: there is room for the network, and none of its number.
            Err(_) => Err(AllocError),
        }
    }
}

impl JoinsNetworks for Submission {
    ghost use Rattle.line_run.specs.Submitting.{declared_once};

    ghost joins = { declared_once };

    /// Lines declare no number twice.
    fn join(&mut self, _alloc: Global, config: NetConfig) -> Result<(), AllocError> {
        if self.config(config.number()).is_some() {
            return Ok(());
        }
        match self.declare(config) {
            Ok(()) => Ok(()),
            // Memory: no network of its number is declared.
            Err(_) => Err(AllocError),
        }
    }
}
