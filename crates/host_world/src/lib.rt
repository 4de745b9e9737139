//! The journals of many networks by number, and of which histories they are (this host's profile).
#![tactic(auto)]

mod world;

pub use world::{MAX_NETWORKS, World, WorldError};
