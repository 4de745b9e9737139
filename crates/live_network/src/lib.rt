//! The networks of a live host: what one line does to a network whose nodes hear one another, and what is printed of it
//! when it is asked about (this host's profile).
//!
//! A [`ServedNetwork`] has the state of one network and no journal. Each event that is served is followed by hearings,
//! until no emission waits. So between two lines nothing waits, and a network is a function of its lines.
//!
//! [`push_node`] adds the lines of what a node is at a slot, and [`push_left`] the line of what is left of budgets. If
//! it is out of memory, a part may have been added.
#![tactic(auto)]

mod hearing;
mod left;
mod nodes;
mod served;
mod state;
mod stepping;
mod table;

pub use hearing::Told;
pub use left::{Left, all_left, left_of, push_left};
pub use nodes::push_node;
pub use served::{Seen, Served, ServedNetwork};
