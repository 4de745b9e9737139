//! Two worlds side by side: whether what concerns a node of a network at a slot was the same in both. If it was, also
//! what the members of its closure gave out (this host's profile).
//!
//! If the same concerns a node in two worlds, each hosted member gives out the same in both. That is the isolation of
//! hosted validators, and each comparison carries it in its contract, whatever it answers. So [`compare`] reads only
//! the outs of the first world. [`compare_all`] answers many questions about the same two worlds, in threads.
//! [`kept_entry`] finds the entry of a journal at which two worlds part.
//!
//! And two submissions side by side: whether strangers crowded out the members of a closure in a network with a roster.
//! A [`Submission`] is configurations of networks, and events with the numbers of their networks. [`crowd`] compares
//! two of them by the closure of a node in the first, by what was submitted and by its replies. It carries the theorem
//! that nobody uses up what a roster reserves for its members.
#![tactic(auto)]

mod cast;
mod comparing;
mod concerning;
mod crowd_cast;
mod crowd_inputs;
mod crowd_verdict;
mod crowding;
mod events;
mod inputs;
mod many;
mod outs;
mod replay;
mod reply;
mod rosters;
mod same_steps;
mod steps;
mod submission;
mod verdict;

pub use comparing::compare;
pub use crowd_verdict::Crowd;
pub use crowding::crowd;
pub use inputs::kept_entry;
pub use many::compare_all;
pub use reply::{Replies, Reply};
pub use submission::{Submission, SubmissionError};
pub use verdict::{MemberOuts, OutsOfMembers, Verdict};
