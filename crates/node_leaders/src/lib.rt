//! Which node leads a round of nomination (the Stellar Consensus Protocol draft, of neighbors and
//! leaders; the bytes that are hashed are this host's profile).
#![tactic(auto)]

mod candidate;
mod draw;
mod draws;
mod laws;
#[cfg(test)]
mod tests;
mod walk;

pub use draws::Draws;
pub use laws::{leaders_are_known, leaders_are_unique, neighbours_are_near};
pub use walk::leader;
