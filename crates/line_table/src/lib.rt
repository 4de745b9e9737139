//! Table files: what one node at one slot knows of the others, and what follows from it.
//!
//! A [`TableListener`] is a listener with an archive of its own, which hears only envelopes of its slot. It answers
//! whether the node's quorums back a ballot, and whom the node reaches. [`TableRun`] runs the lines of a table file on
//! one.
#![tactic(auto)]

mod table_listener;
mod table_run;

pub use table_listener::{TableListener, Taken};
pub use table_run::{TableRun, lines_tell_one_thing};
