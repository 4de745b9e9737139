//! Whom a node comes to depend on in a journal, which is its closure: the nodes that its slices name, those that their
//! slices name, and so on, by all that was announced (this host's profile).
//!
//! Comparisons of two networks need three things more: the least member that fails a test, whether both networks host
//! a node alike, and where two lists of steps part ([`first_difference`]).
#![tactic(auto)]

mod announcing;
mod closure_list;
mod deliveries;
mod first;
mod hosting;
mod least;
mod of_journal;
mod ready;
mod turns;

pub use announcing::{Announcement, Announcements};
pub use closure_list::ClosureList;
pub use first::first_difference;
pub use hosting::is_hosted_alike;
pub use least::least_failing;
pub use of_journal::{closure, closure_lists_are_one};
