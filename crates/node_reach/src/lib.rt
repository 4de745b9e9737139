//! Whom a node reaches: the nodes that its slices name, those that their slices name, and so on, as far as
//! the rows of a table tell (this host's profile).
//!
//! What a node concludes from its table rests only on the rows of these nodes and of its leaders. Rows of strangers
//! stay in the table, since their senders may be reached later.
#![tactic(auto)]

mod keeping;
mod of_table;
mod search;
mod sweep;

pub use keeping::drops_none;
pub use of_table::{reach, reach_among, wider_reach};
pub use search::KnownNodes;
