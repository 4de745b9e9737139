//! One network of hosted validators: what each event does to it, and why one is refused (this host's
//! profile).
//!
//! A [`Network`] owns the archive in which all its envelopes lie. Its contracts speak of numbers in that archive; who
//! shows a network to others shows it without them.
#![tactic(auto)]

mod applied;
mod carrying;
mod emission;
mod emission_log;
mod handing;
mod instance;
mod network;
mod open_slot;
mod open_slots;
mod plan;
mod planning;
mod reading;
mod rooms;
mod slot_index;
mod tallies;

pub use applied::{Given, Outcome};
pub use emission::{Emission, hearing, push_named};
pub use network::{Network, Used};
pub use reading::{Reading, envelopes_have_one_length, read, readings_are_exact};
