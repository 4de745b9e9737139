//! What generic code needs of slices: quorums, blocking sets, and federated voting (Mazières 2015; the
//! Stellar Consensus Protocol draft).
//!
//! - A quorum is a set that is not empty, each node of which has slices that the whole set satisfies.
//!   [`in_quorum`] asks whether some quorum within a set of supporters contains a node.
//! - A set blocks slices if no set apart from it satisfies them: [`blocks`].
//! - [`accepts`] and [`confirms`] say what a node makes of what [`Voters`] say of a claim.
//! - [`Flat`] is a second form of slices: one table of names and one list of sets. Contracts see it as the slices that
//!   it stands for.
//!
//! Slices of any kind will do, as long as they keep the laws of [`scp_slices::SliceFamily`]; nothing else is
//! known of them. Who has which slices is said by [`SlicesOf`]. The rules of a node ask their own sight of
//! a table, and answer the same; this crate is for programs that embed it.
#![tactic(auto)]

mod alike;
mod blocking;
mod flat_set;
mod form;
mod voting;

pub use alike::general_voting_is_seen_voting;
pub use blocking::blocks;
pub use form::Flat;
pub use scp_slices::{SlicesOf, in_quorum, in_quorum_within};
pub use voting::{Voters, accepts, confirms};
