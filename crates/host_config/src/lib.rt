//! What a network is configured with: its number, its hosted nodes with their slices, its budgets, and a roster with
//! shares, if it has one (this host's profile).
//!
//! What is given is tested when a [`NetConfig`] is made. The clauses of its readers say what was tested, so that
//! nothing above has to test it again. `specs/Faults.antt` has the tests and their order.
#![tactic(auto)]

mod budgets;
mod config;
mod error;
mod hosted_node;
mod roster;
mod shares;

pub use budgets::{Budgets, MAX_BUDGET, MAX_OPEN_SLOTS};
pub use config::{MAX_NODES, NetConfig};
pub use error::ConfigError;
pub use hosted_node::HostedNode;
pub use roster::{MAX_ROSTER, Reservation, Roster};
pub use shares::{MAX_SHARE, Shares};
