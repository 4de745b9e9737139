//! Cells: one network under its lock, and the seats by which threads use it (this host's profile).
//!
//! A [`Cell`] has the journal of one network under a lock, which is a ruled queue of one place. Who uses it has
//! a [`Seat`], and gets a [`Receipt`] for each event that it applied. Contracts say what each seat knows: the
//! journal as it saw it last, its receipts and the refusals that it was answered. At the close all that adds up
//! to one history of one thread.
//!
//! What the network decided is published under the lock, for watches that read it without waiting. A [`Publisher`]
//! takes decisions in and publishes them, all that wait at once. A [`Watch`] is lent the list that was published last,
//! on any thread. The list only grows, and the one writer is the publisher.
#![tactic(auto)]

mod board;
mod cell;
mod cell_state;
mod decision;
mod lock;
mod publisher;
mod receipt;
mod refusal;
mod rule;
mod seat;
mod watch;
mod watched;

pub use board::Board;
pub use cell::Cell;
pub use cell::acts::{CellUsers, SeatsMissing};
pub use decision::Decision;
pub use publisher::Publisher;
pub use receipt::Receipt;
pub use refusal::CellRefusal;
pub use seat::Seat;
pub use watch::Watch;
