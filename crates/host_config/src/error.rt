//! Why nodes and a roster make no network.

ghost use Rattle.std.specs.Prelude.{◌≡◌};
ghost use Rattle.host_config.specs.Faults.{config_error_number};
ghost use Rattle.host_config.specs.declared.error.ConfigError.TheVariants.{NoMemory};

use std::alloc::AllocError;
use thiserror::Error;

/// Why nodes, or nodes and a roster, make no network. The faults, their numbers and their order are those
/// of this host's profile.
#[derive(Clone, Copy, Debug, PartialEq, Eq, Error)]
pub enum ConfigError {
    /// A name stands twice among the nodes.
    #[error("a name stands twice among the nodes")]
    NodeTwice,
    /// There is no node.
    #[error("there is no node")]
    NoNodes,
    /// There are more than 256 nodes.
    #[error("there are more than 256 nodes")]
    TooManyNodes,
    /// It is out of memory. What was given has no fault.
    #[error("memory is wanting")]
    NoMemory,
    /// A name stands twice on the roster.
    #[error("a name stands twice on the roster")]
    RosterTwice,
    /// The roster has more than 1,024 names.
    #[error("the roster has more than 1,024 names")]
    RosterTooLong,
    /// A share is above 2^40.
    #[error("a share is above 2^40")]
    ShareTooLarge,
}

impl ConfigError {
    /// The number by which the error is known, 1 to 7.
    pub fn number(&self) -> u8
        ensures { result ≡ config_error_number self.now }
    {
        match self {
            ConfigError::NodeTwice => 1,
            ConfigError::NoNodes => 2,
            ConfigError::TooManyNodes => 3,
            ConfigError::NoMemory => 4,
            ConfigError::RosterTwice => 5,
            ConfigError::RosterTooLong => 6,
            ConfigError::ShareTooLarge => 7,
        }
    }
}

impl From<AllocError> for ConfigError {
    ghost from_gives = { λ _ e. e ≡ NoMemory };

    fn from(_error: AllocError) -> ConfigError {
        ConfigError::NoMemory
    }
}
