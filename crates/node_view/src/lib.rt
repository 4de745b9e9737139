//! What a node sees of its table at one moment: the rows of those whom it reaches, and the statements in them. By them
//! it answers the two tests of federated voting (the Stellar Consensus Protocol draft, of federated voting).
//!
//! A [`View`] borrows the table and a [`KnownReach`], and is made once an event: the rules ask it often, and
//! both stay as they are meanwhile. A [`Listener`] has what a node listens with: who it is, the rows that it took, and
//! what it knows of its reach, which it keeps from one event to the next. It runs no rule. Who asks what follows from
//! its rows takes what it knows, makes a view with it, and gives it back.
#![tactic(auto)]

mod alike;
mod changing;
mod configured;
mod forms;
mod known;
mod known_reach;
mod listed;
mod listener;
mod mentions;
mod own;
mod passing;
mod reached;
mod reached_ballots;
mod reached_values;
mod region;
mod rows;
mod searching;
mod seeing;
mod shared;
mod standing;
mod unlisted;
mod words;

pub use alike::Alike;
pub use changing::{Extent, NewReach};
pub use configured::Configured;
pub use known_reach::{KnownReach, Taken};
pub use listener::Listener;
pub use own::Own;
pub use reached_ballots::ReachedBallots;
pub use reached_values::ReachedValues;
pub use region::{Change, Region, RegionEntry};
pub use seeing::View;
pub use shared::SharedReach;
pub use standing::Standing;
