//! The journal of a live host: a file that has each line before its answer is told.
//!
//! [`open_journal`] locks the file and brings it to the disk. [`resume`] runs its lines up to its end, cuts it there
//! and says how many there are. From then on [`append_line`] writes each line behind them. What a stop leaves of such a
//! file is said where lines are served, in `live_feed`. That a file of the system is as it is supposed there, no
//! contract can say.
#![tactic(auto)]

mod appending;
mod fault;
mod opening;
mod resuming;

pub use appending::append_line;
pub use fault::JournalFault;
pub use opening::open_journal;
pub use resuming::{first_open_line, resume};
