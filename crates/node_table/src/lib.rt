//! The newest statements of nodes: a table that keeps one row of each sender and kind.
#![tactic(auto)]

mod index;
mod newer;
mod places;
mod rows;
mod sender_names;
mod senders;
mod table;

pub use newer::is_newer;
pub use places::{RowPlace, RowPlaces};
pub use rows::{Rows, SenderRows};
pub use sender_names::SenderNames;
pub use senders::senders_are_those_with_a_row;
pub use table::{Offer, Put, Table};
