//! One node at one slot: its events, the passes after each of them, and what it gives out (the Stellar Consensus
//! Protocol draft). The order of the rules and the limit of passes are this host's profile.
//!
//! The owner of a [`Node`] owes it, in this order:
//!
//! 1. to make it when its slot is opened, by [`Node::new`], and to let it go when the slot is closed;
//! 2. to lend it one archive, the same at each call, in which an envelope is filed before the node is handed
//!    its number;
//! 3. to hand it only envelopes of its slot, and none in its own name: a node looks at neither;
//! 4. to make room, before an event, for at most five outs;
//! 5. to do what is given out, in order: to send what is emitted; to hand back each timer that was armed as an event,
//!    even if it is not live any more; and to take a value that is externalized as the slot's;
//! 6. to know that after an error the node is as it was, and that the event may be tried again.
#![tactic(auto)]

mod answering;
mod by_region;
mod changes;
mod filed;
mod filing;
mod node;
mod outs;
mod passing;
mod sent;
mod settling;
mod sizes;
mod stirring;

pub use filed::{FiledEvent, FiledOut, GivenOut};
pub use node::Node;
