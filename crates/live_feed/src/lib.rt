//! A live host's loop: lines come, are answered, kept and told.
//!
//! A [`Feed`] reads lines until the input ends and gives them to a [`LineServer`]. A [`Desk`] has each line in its
//! journal, on the disk, before its answer is told. However much comes, only one line is kept, of at most
//! [`LONGEST_LINE`] bytes, with those that came with it in one read, and their answers. At most as many lines are taken
//! together as a [`BatchServer`] takes at once, and fewer behind answers of many bytes. [`replay`] has the lines of a
//! journal answered again. [`Lasting`] finds which of them concern what is still declared and open, and [`compact`]
//! makes a shorter journal of these.
#![tactic(auto)]

mod answering;
mod fault;
mod gathering;
mod lasting;
mod reading;
mod replaying;
mod serving;

pub use answering::{
    Answer, BatchServer, Deed, Desk, Done, Drawn, LineServer, serve_in_turn, write_and_flush,
};
pub use fault::Fault;
pub use gathering::MOST_LINES;
pub use lasting::{Lasting, compact};
pub use reading::{KeptLine, LONGEST_LINE, READ_SIZE};
pub use replaying::{JournalEnd, replay};
pub use serving::Feed;
