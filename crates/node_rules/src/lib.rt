//! The rules of one node (after the Stellar Consensus Protocol draft). Of nomination: which values it votes for,
//! accepts and confirms as nominated. Of balloting: by which rules a ballot is begun, prepared, committed and
//! externalized, and how its counter rises. And when a timer acts.
//!
//! Each rule is one function of what the node sees and of its votes, which it changes in a [`Draft`]. An error
//! of one says that it is out of memory, or that values have too many owners; the node's own votes are then as they
//! were.
//!
//! The rules of balloting that follow the first ballot ask the node's own position, `own`. They are lent that of the
//! votes before them ([`own_position`]). A rule that changes votes has it follow, so that it is copied once a pass, and
//! not once a rule.
#![tactic(auto)]

mod checks;
mod choosing;
mod committed;
mod counters;
mod draft;
mod first;
mod intervals;
mod lowest;
mod mentioned_ballots;
mod positions;
mod prepared;
mod rules;
mod search;
mod sent;
mod timers;
mod voting;

pub use committed::{accept_commit, confirm_commit};
pub use counters::{arm, ballot_at_counter, raise};
pub use draft::Draft;
pub use first::start;
pub use positions::{counter_of, own_position, position};
pub use prepared::{accept_prepared, confirm_prepared};
pub use rules::{leads, nominate};
pub use sent::sent_vote;
pub use timers::{FREE_RAISE, ballot_is_live, cap, nomination_is_live};
