//! Slices of nodes: which sets of nodes satisfy them, which block them, which nodes they name, and
//! how much each name weighs. And quorums: sets that are not empty, each node of which has slices that the whole set
//! satisfies (Mazières 2015).
//!
//! Quorums and federated voting in general know slices only by the trait [`SliceFamily`] and its laws. A set of nodes
//! is an ascending slice. [`in_quorum`] is asked for a node and a set of supporters: does some quorum within the
//! supporters contain the node? Who has which slices is said by [`SlicesOf`].
#![tactic(auto)]

mod family;
mod nested;
mod search;
mod sets;
mod slices_of;
mod weight;

pub use family::SliceFamily;
pub use search::{in_quorum, in_quorum_within};
pub use sets::is_among;
pub use slices_of::SlicesOf;
pub use weight::Weight;
