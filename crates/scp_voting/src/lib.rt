//! Federated voting: when a node accepts a claim, and when it confirms it (the Stellar Consensus Protocol draft,
//! of federated voting; Mazières 2015).
//!
//! [`is_accepted`] and [`is_confirmed`] are told the claim, the node's own position by [`Position`], and what the node
//! sees of its table by [`Sight`]. The rules read no more of a table. A [`Question`] is what a sight is asked about
//! statements, and a [`Mention`] how these speak of the ballots that it is asked for.
#![tactic(auto)]

mod candidates;
mod claim;
mod counters;
mod mention;
mod position;
mod question;
mod seeing;
mod sight;

pub use candidates::better_mentioned;
pub use claim::Claim;
pub use counters::{counter_by, lesser};
pub use mention::{Mention, StatementBallots, statement_ballots};
pub use position::Position;
pub use question::Question;
pub use seeing::seen_voting_is_by_rows;
pub use sight::{Sight, is_accepted, is_confirmed};
