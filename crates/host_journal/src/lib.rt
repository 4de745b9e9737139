//! A network of a host: each event by the network's rules, and its journal (this host's profile).
//!
//! A [`Journal`] is a network with the entries that led to it. They are kept to be read again, or else only contracts
//! know them. All envelopes of a network lie in one archive; no contract speaks of their numbers here.
#![tactic(auto)]

mod announcing;
mod event_room;
mod externalized;
mod journal;
mod keeping;
mod kept;
mod kept_entries;
mod lent_decision;
mod lent_event;
mod node_place;
mod outs_list;
mod sizes;
mod unkept;

pub use host_config::{Budgets, ConfigError, HostedNode, NetConfig, Reservation, Roster, Shares};
pub use journal::Journal;
pub use keeping::Keeping;
pub use kept_entries::Kept;
pub use lent_decision::LentDecision;
pub use lent_event::LentEvent;
pub use unkept::Unkept;
