//! The subject's own types: names of nodes, values, ballots, slices, statements and envelopes, each
//! well formed by construction. Everything else stands on this crate, and it stands on nothing.
#![tactic(auto)]

mod ballot;
mod bytes;
mod envelope;
mod event;
mod kind;
mod lent;
mod lent_statement;
mod nested;
mod node_id;
mod shared_values;
mod sizes;
mod state;
mod statement;
mod subject;
mod value;
mod values;
mod votes;

pub use ballot::{Ballot, copy_of};
pub use bytes::Bytes;
pub use envelope::Envelope;
pub use event::{Event, NodeEvent, Out, Refusal};
pub use kind::Kind;
pub use lent::LentBallot;
pub use lent_statement::{LentStatement, statement_of};
pub use nested::{
    MAX_INNER_LEVELS, MAX_MEMBERS, MAX_NAMES, Member, Nested, SliceSet, is_ascending, push_names,
};
pub use node_id::NodeId;
pub use shared_values::SharedValues;
pub use state::{Inputs, Leaders, Phase, Votes};
pub use statement::Statement;
pub use subject::Subject;
pub use value::{MAX_VALUE_LENGTH, Value};
pub use values::{MAX_NOMINATED, Values};
